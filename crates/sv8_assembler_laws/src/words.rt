//! What decoding and encoding are to each other, as contracts of functions that do nothing, and examples that are
//! worked out by hand.

ghost use Rattle.std.specs.Prelude.{◌≡◌, pos, negsuc, true, false, Some, None};
ghost use Rattle.sv8_assembler_laws.specs.WordLaws.{EncodesInRange, EncodingsDecode, MeaningsEncode, RowsAreApart};
ghost use Rattle.sv8_isa.specs.Table.{meaning, canonical, is_queue_store};
ghost use Rattle.sv8_isa.specs.Encoding.{encoding};
ghost use Rattle.sv8_isa.specs.declared.instr.Operand.TheVariants.{Register, Immediate};
ghost use Rattle.sv8_isa.specs.declared.instr.Cond.TheVariants.{Always, NotEqual};
ghost use Rattle.sv8_isa.specs.declared.instr.ArithOp.TheVariants.{Add, Or};
ghost use Rattle.sv8_isa.specs.declared.instr.StateRegister.TheVariants.{Psr, Y};
ghost use Rattle.sv8_isa.specs.declared.instr.MemoryOp.TheVariants.{Ld, St};
ghost use Rattle.sv8_isa.specs.declared.instr.Instr.TheVariants.{Unimp, Bicc, Sethi, Arith, ReadState, Stbar, WriteState, Jmpl, Rett, Ticc, Save, Memory, Alternate, Fp, AltImm, Illegal};

/// No word fits two rows of the table of opcodes.
pub fn rows_are_apart()
    ensures { RowsAreApart }
{}

/// The word of an instruction stands for that instruction.
pub fn encodings_decode()
    ensures { EncodingsDecode }
{}

/// The instruction of a word has that word, with the bits 0 that its row neither fixes nor names.
pub fn meanings_encode()
    ensures { MeaningsEncode }
{}

/// An instruction has a word exactly where each of its fields is in range, where the word that `Fp` or `Cp` keeps is
/// such an instruction, and where it is neither `AltImm` nor `Illegal`.
pub fn encodes_in_range()
    ensures { EncodesInRange }
{}

/// Words and what they mean.
///
/// - `sum`: `add %g1, 1, %g2`. `set_5`: `mov 5, %g1`. `trap`: `ta 0`. `return_`: `ret`. `nothing`: `nop`.
/// - `frame`: `save %sp, -96, %sp`. `from_trap`: `rett %l2`. `space`: `sta %g1, [%g1]4`. `load`: `ld [%g1+4], %g2`.
/// - `state`: `wr %g0, 0xa0, %psr`. `itself`: `ba,a` to itself. `back`: `bne` to two words before it.
/// - `zero`: the word 0 is UNIMP. `barrier` to `no_y`: op3 28 (hexadecimal) with rs1 15, 0 and 3.
/// - `space_immediate`: an alternate space form with i = 1. `float`: a floating-point word, kept whole.
#[tactic(auto, unfolding(sv8_isa::specs::Table::meaning, sv8_model::specs::Words::field, sv8_model::specs::Words::signed, sv8_isa::specs::Operands::operand_of, sv8_isa::specs::Operands::count_of, sv8_isa::specs::Operands::trap_number_of, sv8_isa::specs::Operands::condition_of))]
pub fn worked_meanings()
    ensures sum { meaning 0x84006001 ≡ Arith Add false 2 1 (Immediate (pos 1)) }
    ensures set_5 { meaning 0x82102005 ≡ Arith Or false 1 0 (Immediate (pos 5)) }
    ensures trap { meaning 0x91D02000 ≡ Ticc Always 0 (Immediate (pos 0)) }
    ensures return_ { meaning 0x81C7E008 ≡ Jmpl 0 31 (Immediate (pos 8)) }
    ensures nothing { meaning 0x01000000 ≡ Sethi 0 0 }
    ensures frame { meaning 0x9DE3BFA0 ≡ Save 14 14 (Immediate (negsuc 95)) }
    ensures from_trap { meaning 0x81CC8000 ≡ Rett 18 (Register 0) }
    ensures space { meaning 0xC2A04080 ≡ Alternate St 1 1 0 4 }
    ensures load { meaning 0xC4006004 ≡ Memory Ld 2 1 (Immediate (pos 4)) }
    ensures state { meaning 0x818820A0 ≡ WriteState Psr 0 (Immediate (pos 160)) }
    ensures itself { meaning 0x30800000 ≡ Bicc Always true (pos 0) }
    ensures back { meaning 0x12BFFFFE ≡ Bicc NotEqual false (negsuc 1) }
    ensures zero { meaning 0 ≡ Unimp 0 }
    ensures barrier { meaning 0x8143C000 ≡ Stbar }
    ensures y { meaning 0x83400000 ≡ ReadState Y 1 }
    ensures no_y { meaning 0x8340C000 ≡ Illegal }
    ensures space_immediate { meaning 0xC2A06080 ≡ AltImm }
    ensures float { meaning 0x81A00001 ≡ Fp 0x81A00001 }
{}

/// Instructions and their words, most of them the same as in `worked_meanings`.
///
/// - `too_large`: 4096 is no immediate number of 13 bits with a sign. `no_register`: there is no register 32.
/// - `no_float`: `Fp` of a word that is `nop` has none. `no_word`: neither have `AltImm` and `Illegal`.
/// - `reserved`: of `rett %l2` with rd and asi bits set, those bits are dropped.
#[tactic(auto, unfolding(sv8_isa::specs::Table::meaning, sv8_isa::specs::Table::canonical, sv8_model::specs::Words::field, sv8_model::specs::Words::signed, sv8_isa::specs::Encoding::encoding, sv8_isa::specs::Encoding::format_2, sv8_isa::specs::Encoding::format_3, sv8_isa::specs::Encoding::unsigned_bits, sv8_isa::specs::Encoding::signed_bits, sv8_isa::specs::Encoding::alternate_source))]
pub fn worked_words()
    ensures sum { encoding (Arith Add false 2 1 (Immediate (pos 1))) ≡ Some 0x84006001 }
    ensures trap { encoding (Ticc Always 0 (Immediate (pos 0))) ≡ Some 0x91D02000 }
    ensures return_ { encoding (Jmpl 0 31 (Immediate (pos 8))) ≡ Some 0x81C7E008 }
    ensures nothing { encoding (Sethi 0 0) ≡ Some 0x01000000 }
    ensures frame { encoding (Save 14 14 (Immediate (negsuc 95))) ≡ Some 0x9DE3BFA0 }
    ensures from_trap { encoding (Rett 18 (Register 0)) ≡ Some 0x81CC8000 }
    ensures space { encoding (Alternate St 1 1 0 4) ≡ Some 0xC2A04080 }
    ensures state { encoding (WriteState Psr 0 (Immediate (pos 160))) ≡ Some 0x818820A0 }
    ensures itself { encoding (Bicc Always true (pos 0)) ≡ Some 0x30800000 }
    ensures back { encoding (Bicc NotEqual false (negsuc 1)) ≡ Some 0x12BFFFFE }
    ensures too_large { encoding (Arith Add false 2 1 (Immediate (pos 4096))) ≡ None }
    ensures no_register { encoding (Sethi 0 32) ≡ None }
    ensures no_float { encoding (Fp 0x01000000) ≡ None }
    ensures no_alternate { encoding AltImm ≡ None }
    ensures no_word { encoding Illegal ≡ None }
    ensures reserved { canonical 0xBFCC9FE0 ≡ 0x81CC8000 }
{}

/// STDFQ and STDCQ are stores of a queue; STF, the store of a register of the floating-point unit, is none.
#[tactic(auto, unfolding(sv8_model::specs::Words::field))]
pub fn worked_queue_stores()
    ensures float { is_queue_store 0xC1300000 ≡ true }
    ensures coprocessor { is_queue_store 0xC1B00000 ≡ true }
    ensures register { is_queue_store 0xC1200000 ≡ false }
    ensures other { is_queue_store 0x81300000 ≡ false }
{}
