//! What is true of every statement, as contracts of functions that do nothing, and some lines worked out.

ghost use Rattle.std.specs.Prelude.{◌≡◌, Ok, Err, codes, pos, [], ◌∷◌};
ghost use Rattle.sv8_statements.specs.declared.fault.LineFault.TheVariants.{UnknownName, OutOfRange, BadAlignment, OrgBackwards};
ghost use Rattle.sv8_asm.specs.Laws.{UsedNamesDecide, AgreeingNamesDecide};
ghost use Rattle.sv8_assembler_laws.specs.StatementLaws.{BytesFitSize, InstructionsDecode, InstructionsEncode, ValuesFitFields, line_bytes, line_size};
ghost use Rattle.sv8_asm.specs.Names.{no_names, with_name, with_mark};

/// What a statement places does not reach beyond the location behind it.
pub fn bytes_fit_size()
    ensures { BytesFitSize }
{}

/// The words that are placed for instructions stand for those instructions.
pub fn instructions_decode()
    ensures { InstructionsDecode }
{}

/// What the assembler makes of a statement encodes: where a statement has no fault in the value pass, each instruction that it
/// stands for has a word.
pub fn instructions_encode()
    ensures { InstructionsEncode }
{}

/// The ranges in which values are asked for are those of the fields: each instruction that a statement stands for has a word, but
/// where a shift's count or a trap's number is `%lo`, whose 10 bits may be more than it takes.
pub fn values_fit_fields()
    ensures { ValuesFitFields }
{}

/// What a statement places at a location rests on the names that it uses: where two tables, each asked in a line of its own, give
/// each of them the same value or both none, the statement has the same bytes, or the same fault.
pub fn used_names_decide()
    ensures { UsedNamesDecide }
{}

/// Where `agree` finds that two tables agree, they do so on each name that the statement uses, and so the statement has the same
/// bytes at any location, or the same fault.
pub fn agreeing_names_decide()
    ensures { AgreeingNamesDecide }
{}

/// Instructions in line 2, with their words as another assembler gives them.
#[tactic(auto, unfolding(crate::proofs::OnLiterals::line_on_literals))]
pub fn worked_lines()
    ensures mov { line_bytes (codes "start: mov 5, %g1") 2 0 no_names ≡ Ok (0x82 ∷ 0x10 ∷ 0x20 ∷ 0x05 ∷ []) }
    ensures back { line_bytes (codes "ba start") 2 8 (with_name (codes "start") (pos 0) (with_name (codes "x") (pos 1) no_names)) ≡ Ok (0x10 ∷ 0xBF ∷ 0xFF ∷ 0xFE ∷ []) }
    ensures annulled { line_bytes (codes "ba,a 0x20") 2 4 no_names ≡ Ok (0x30 ∷ 0x80 ∷ 0x00 ∷ 0x07 ∷ []) }
    ensures alternate { line_bytes (codes "sta %g1, [%g1]4") 2 0 no_names ≡ Ok (0xC2 ∷ 0xA0 ∷ 0x40 ∷ 0x80 ∷ []) }
    ensures trap { line_bytes (codes "ta 0") 2 0 no_names ≡ Ok (0x91 ∷ 0xD0 ∷ 0x20 ∷ 0x00 ∷ []) }
    ensures returns { line_bytes (codes "ret") 2 0 no_names ≡ Ok (0x81 ∷ 0xC7 ∷ 0xE0 ∷ 0x08 ∷ []) }
    ensures loads { line_bytes (codes "ld [%g1+4], %g2") 2 0 no_names ≡ Ok (0xC4 ∷ 0x00 ∷ 0x60 ∷ 0x04 ∷ []) }
    ensures called { line_bytes (codes "call 0x10") 2 0 no_names ≡ Ok (0x40 ∷ 0x00 ∷ 0x00 ∷ 0x04 ∷ []) }
    ensures called_far { line_bytes (codes "call 0xFFFFFFFC") 2 4 no_names ≡ Ok (0x7F ∷ 0xFF ∷ 0xFF ∷ 0xFE ∷ []) }
    ensures upper { line_bytes (codes "sethi %hi(-1), %g1") 2 0 no_names ≡ Ok (0x03 ∷ 0x3F ∷ 0xFF ∷ 0xFF ∷ []) }
    ensures forward { line_bytes (codes "ba 1f") 2 4 (with_mark 1 4 12 (with_mark 1 1 0 no_names)) ≡ Ok (0x10 ∷ 0x80 ∷ 0x00 ∷ 0x02 ∷ []) }
    ensures backward { line_bytes (codes "ba 1b") 2 4 (with_mark 1 4 12 (with_mark 1 1 0 no_names)) ≡ Ok (0x10 ∷ 0xBF ∷ 0xFF ∷ 0xFF ∷ []) }
{}

/// `set`, which is one instruction or two.
#[tactic(auto, unfolding(crate::proofs::OnLiterals::line_on_literals))]
pub fn worked_sets()
    ensures set_both { line_bytes (codes "set 0x12345678, %g1") 2 0 (with_name (codes "start") (pos 0) (with_name (codes "x") (pos 1) no_names)) ≡ Ok (0x03 ∷ 0x04 ∷ 0x8D ∷ 0x15 ∷ 0x82 ∷ 0x10 ∷ 0x62 ∷ 0x78 ∷ []) }
    ensures set_short { line_bytes (codes "set 4095, %g1") 2 0 (with_name (codes "start") (pos 0) (with_name (codes "x") (pos 1) no_names)) ≡ Ok (0x82 ∷ 0x10 ∷ 0x2F ∷ 0xFF ∷ []) }
    ensures set_high { line_bytes (codes "set 4096, %g1") 2 0 (with_name (codes "start") (pos 0) (with_name (codes "x") (pos 1) no_names)) ≡ Ok (0x03 ∷ 0x00 ∷ 0x00 ∷ 0x04 ∷ []) }
    ensures set_name { line_bytes (codes "set x, %g1") 2 0 (with_name (codes "start") (pos 0) (with_name (codes "x") (pos 1) no_names)) ≡ Ok (0x03 ∷ 0x00 ∷ 0x00 ∷ 0x00 ∷ 0x82 ∷ 0x10 ∷ 0x60 ∷ 0x01 ∷ []) }
{}

/// Data of each width, the most significant byte first.
#[tactic(auto, unfolding(crate::proofs::OnLiterals::line_on_literals))]
pub fn worked_data()
    ensures halves { line_bytes (codes ".half -1, 65535") 2 0 (with_name (codes "start") (pos 0) (with_name (codes "x") (pos 1) no_names)) ≡ Ok (0xFF ∷ 0xFF ∷ 0xFF ∷ 0xFF ∷ []) }
    ensures bytes { line_bytes (codes ".byte -128, 255") 2 0 (with_name (codes "start") (pos 0) (with_name (codes "x") (pos 1) no_names)) ≡ Ok (0x80 ∷ 0xFF ∷ []) }
    ensures words { line_bytes (codes ".word x+6, -1") 2 0 (with_name (codes "start") (pos 0) (with_name (codes "x") (pos 1) no_names)) ≡ Ok (0x00 ∷ 0x00 ∷ 0x00 ∷ 0x07 ∷ 0xFF ∷ 0xFF ∷ 0xFF ∷ 0xFF ∷ []) }
{}

/// Lines of each fault; of several in one line the least.
#[tactic(auto, unfolding(crate::proofs::OnLiterals::line_on_literals))]
pub fn worked_faults()
    ensures unknown { line_bytes (codes ".word x+4294967295, nowhere") 2 0 (with_name (codes "start") (pos 0) (with_name (codes "x") (pos 1) no_names)) ≡ Err UnknownName }
    ensures no_label { line_bytes (codes "ba 1f") 4 4 (with_mark 1 4 12 (with_mark 1 1 0 no_names)) ≡ Err UnknownName }
    ensures outside { line_bytes (codes "add %g0, 4096, %g1") 2 0 no_names ≡ Err OutOfRange }
    ensures shift { line_bytes (codes "sll %g1, 32, %g1") 2 0 no_names ≡ Err OutOfRange }
    ensures misaligned { line_bytes (codes "ba 2") 2 0 no_names ≡ Err BadAlignment }
    ensures half { line_bytes (codes ".half 65536") 2 0 no_names ≡ Err OutOfRange }
{}

/// How far directives move the location, and where they may not stand.
#[tactic(auto, unfolding(crate::proofs::OnLiterals::line_on_literals))]
pub fn worked_sizes()
    ensures word { line_size (codes ".word 1") 2 ≡ Err BadAlignment }
    ensures text { line_size (9 ∷ codes ".skip 5") 3 ≡ Ok 5 }
    ensures aligned { line_size (codes ".align 8") 12 ≡ Ok 4 }
    ensures already { line_size (codes ".align 8") 16 ≡ Ok 0 }
    ensures not_a_power { line_size (codes ".align 3") 0 ≡ Err OutOfRange }
    ensures none { line_size (codes ".align 0") 0 ≡ Err OutOfRange }
    ensures origin { line_size (codes ".org 8") 2 ≡ Ok 6 }
    ensures backwards { line_size (codes ".org 4") 8 ≡ Err OrgBackwards }
{}
