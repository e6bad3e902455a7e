//! Words whose meaning comes from GNU as 2.40 (`-32 -Av8`) and from the manual's Appendix B.

use std::test::Fail;
use sv8_isa::ArithOp::{
    Add, Addx, And, Andn, Or, Orn, Sdiv, Smul, Sub, Subx, Udiv, Umul, Xnor, Xor,
};
use sv8_isa::Cond::{
    Always, CarryClear, CarrySet, Equal, Greater, GreaterOrEqual, GreaterUnsigned, Less,
    LessOrEqual, LessOrEqualUnsigned, Negative, Never, NotEqual, OverflowClear, OverflowSet,
    Positive,
};
use sv8_isa::Instr::{AltImm, Cp, Fp, Illegal};
use sv8_isa::MemoryOp::{Ld, Ldd, Ldsb, Ldsh, Ldstub, Ldub, Lduh, St, Stb, Std, Sth, Swap};
use sv8_isa::Operand::{Immediate, Register};
use sv8_isa::ShiftOp::{Sll, Sra, Srl};
use sv8_isa::StateRegister::{Psr, Tbr, Wim, Y};
use sv8_isa::TaggedOp::{TaddCc, TaddCcTv, TsubCc, TsubCcTv};
use sv8_isa::{Instr, decode, encode};

/// An instruction, from its fields in the order of `Instr`.
macro_rules! instruction {
    (bicc $cond:expr, $annul:expr, $disp22:expr) => {
        Instr::Bicc { cond: $cond, annul: $annul, disp22: $disp22 }
    };
    (sethi $imm22:expr, $rd:expr) => { Instr::Sethi { imm22: $imm22, rd: $rd } };
    (call $disp30:expr) => { Instr::Call { disp30: $disp30 } };
    (arith $op:expr, $cc:expr, $rd:expr, $rs1:expr, $operand:expr) => {
        Instr::Arith { op: $op, cc: $cc, rd: $rd, rs1: $rs1, operand: $operand }
    };
    (tagged $op:expr, $rd:expr, $rs1:expr, $operand:expr) => {
        Instr::Tagged { op: $op, rd: $rd, rs1: $rs1, operand: $operand }
    };
    (mulscc $rd:expr, $rs1:expr, $operand:expr) => {
        Instr::Mulscc { rd: $rd, rs1: $rs1, operand: $operand }
    };
    (shift $op:expr, $rd:expr, $rs1:expr, $count:expr) => {
        Instr::Shift { op: $op, rd: $rd, rs1: $rs1, count: $count }
    };
    (read $register:expr, $rd:expr) => { Instr::ReadState { register: $register, rd: $rd } };
    (write $register:expr, $rs1:expr, $operand:expr) => {
        Instr::WriteState { register: $register, rs1: $rs1, operand: $operand }
    };
    (jmpl $rd:expr, $rs1:expr, $operand:expr) => {
        Instr::Jmpl { rd: $rd, rs1: $rs1, operand: $operand }
    };
    (rett $rs1:expr, $operand:expr) => { Instr::Rett { rs1: $rs1, operand: $operand } };
    (ticc $cond:expr, $rs1:expr, $operand:expr) => {
        Instr::Ticc { cond: $cond, rs1: $rs1, operand: $operand }
    };
    (flush $rs1:expr, $operand:expr) => { Instr::Flush { rs1: $rs1, operand: $operand } };
    (save $rd:expr, $rs1:expr, $operand:expr) => {
        Instr::Save { rd: $rd, rs1: $rs1, operand: $operand }
    };
    (restore $rd:expr, $rs1:expr, $operand:expr) => {
        Instr::Restore { rd: $rd, rs1: $rs1, operand: $operand }
    };
    (memory $op:expr, $rd:expr, $rs1:expr, $operand:expr) => {
        Instr::Memory { op: $op, rd: $rd, rs1: $rs1, operand: $operand }
    };
    (alternate $op:expr, $rd:expr, $rs1:expr, $rs2:expr, $asi:expr) => {
        Instr::Alternate { op: $op, rd: $rd, rs1: $rs1, rs2: $rs2, asi: $asi }
    };
    (unimp $imm22:expr) => { Instr::Unimp($imm22) };
    (stbar) => { Instr::Stbar };
    (fp $word:expr) => { Instr::Fp($word) };
    (cp $word:expr) => { Instr::Cp($word) };
}

macro_rules! assembled {
    ($($word:literal, $text:literal, $make:ident($($field:expr),*);)*) => {
        [$(($word, $text, instruction!($make $($field),*)),)*]
    };
}

macro_rules! instructions {
    ($($make:ident($($field:expr),*);)*) => { [$(instruction!($make $($field),*),)*] };
}

/// Words of the assembler, with their text.
const ASSEMBLED: &[(u32, &str, Instr)] = &assembled! {
    0x8400_6001, "add %g1, 1, %g2", arith(Add, false, 2, 1, Immediate(1));
    0x8210_2005, "or %g0, 5, %g1", arith(Or, false, 1, 0, Immediate(5));
    0x91d0_2000, "ta 0", ticc(Always, 0, Immediate(0));
    0x81c7_e008, "jmpl %i7+8, %g0", jmpl(0, 31, Immediate(8));
    0x0100_0000, "sethi 0, %g0", sethi(0, 0);
    0x9de3_bfa0, "save %sp, -96, %sp", save(14, 14, Immediate(-96));
    0x81cc_8000, "rett %l2", rett(18, Register(0));
    0xc2a0_4080, "sta %g1, [%g1]4", alternate(St, 1, 1, 0, 4);
    0xc400_6004, "ld [%g1+4], %g2", memory(Ld, 2, 1, Immediate(4));
    0x8188_20a0, "wr %g0, 0xa0, %psr", write(Psr, 0, Immediate(160));
    0x0000_1234, "unimp 0x1234", unimp(0x1234);
    0x003f_ffff, "unimp 0x3fffff", unimp(0x3f_ffff);
    0x3f3f_ffff, "sethi 0x3fffff, %i7", sethi(0x3f_ffff, 31);
    0x00a0_0000, "bn .-8388608", bicc(Never, false, -2097152);
    0x229f_ffff, "be,a .+8388604", bicc(Equal, true, 2097151);
    0x04bf_ffff, "ble .-4", bicc(LessOrEqual, false, -1);
    0x2680_0001, "bl,a .+4", bicc(Less, true, 1);
    0x0880_0002, "bleu .+8", bicc(LessOrEqualUnsigned, false, 2);
    0x2abf_fffe, "bcs,a .-8", bicc(CarrySet, true, -2);
    0x0c80_0200, "bneg .+2048", bicc(Negative, false, 512);
    0x2ebf_fc18, "bvs,a .-4000", bicc(OverflowSet, true, -1000);
    0x1080_00c8, "ba .+800", bicc(Always, false, 200);
    0x32bf_fff8, "bne,a .-32", bicc(NotEqual, true, -8);
    0x1480_0010, "bg .+64", bicc(Greater, false, 16);
    0x3680_0021, "bge,a .+132", bicc(GreaterOrEqual, true, 33);
    0x18bf_ffb3, "bgu .-308", bicc(GreaterUnsigned, false, -77);
    0x3a80_0400, "bcc,a .+4096", bicc(CarryClear, true, 1024);
    0x1cbf_f000, "bpos .-16384", bicc(Positive, false, -4096);
    0x3e80_0005, "bvc,a .+20", bicc(OverflowClear, true, 5);
    0x30bf_fffe, "ba,a .-8", bicc(Always, true, -2);
    0x5fff_ffff, "call .+2147483644", call(536870911);
    0x6000_0000, "call .-2147483648", call(-536870912);
    0x7fff_ffff, "call .-4", call(-1);
    0xac05_4010, "add %l5, %l0, %l6", arith(Add, false, 22, 21, Register(16));
    0xac85_7000, "addcc %l5, -4096, %l6", arith(Add, true, 22, 21, Immediate(-4096));
    0xae0e_afff, "and %i2, 4095, %l7", arith(And, false, 23, 26, Immediate(4095));
    0xae8e_8009, "andcc %i2, %o1, %l7", arith(And, true, 23, 26, Register(9));
    0xa812_c01e, "or %o3, %i6, %l4", arith(Or, false, 20, 11, Register(30));
    0xa892_ffff, "orcc %o3, -1, %l4", arith(Or, true, 20, 11, Immediate(-1));
    0xba1e_2000, "xor %i0, 0, %i5", arith(Xor, false, 29, 24, Immediate(0));
    0xba9e_001f, "xorcc %i0, %i7, %i5", arith(Xor, true, 29, 24, Register(31));
    0x8424_401c, "sub %l1, %i4, %g2", arith(Sub, false, 2, 17, Register(28));
    0x84a4_6001, "subcc %l1, 1, %g2", arith(Sub, true, 2, 17, Immediate(1));
    0xa629_a064, "andn %g6, 100, %l3", arith(Andn, false, 19, 6, Immediate(100));
    0xa6a9_8005, "andncc %g6, %g5, %l3", arith(Andn, true, 19, 6, Register(5));
    0x8031_c00a, "orn %g7, %o2, %g0", arith(Orn, false, 0, 7, Register(10));
    0x80b1_ffb3, "orncc %g7, -77, %g0", arith(Orn, true, 0, 7, Immediate(-77));
    0xb239_27ff, "xnor %g4, 2047, %i1", arith(Xnor, false, 25, 4, Immediate(2047));
    0xb2b9_001b, "xnorcc %g4, %i3, %i1", arith(Xnor, true, 25, 4, Register(27));
    0x9c43_4008, "addx %o5, %o0, %o6", arith(Addx, false, 14, 13, Register(8));
    0x9cc3_7800, "addxcc %o5, -2048, %o6", arith(Addx, true, 14, 13, Immediate(-2048));
    0x9e54_a010, "umul %l2, 16, %o7", arith(Umul, false, 15, 18, Immediate(16));
    0x9ed4_8001, "umulcc %l2, %g1, %o7", arith(Umul, true, 15, 18, Register(1));
    0x9858_c016, "smul %g3, %l6, %o4", arith(Smul, false, 12, 3, Register(22));
    0x98d8_fff0, "smulcc %g3, -16, %o4", arith(Smul, true, 12, 3, Immediate(-16));
    0xaa64_2007, "subx %l0, 7, %l5", arith(Subx, false, 21, 16, Immediate(7));
    0xaae4_0017, "subxcc %l0, %l7, %l5", arith(Subx, true, 21, 16, Register(23));
    0xb472_4014, "udiv %o1, %l4, %i2", arith(Udiv, false, 26, 9, Register(20));
    0xb4f2_64d2, "udivcc %o1, 1234, %i2", arith(Udiv, true, 26, 9, Immediate(1234));
    0x967f_bffd, "sdiv %i6, -3, %o3", arith(Sdiv, false, 11, 30, Immediate(-3));
    0x96ff_801d, "sdivcc %i6, %i5, %o3", arith(Sdiv, true, 11, 30, Register(29));
    0xb107_f000, "taddcc %i7, -4096, %i0", tagged(TaddCc, 24, 31, Immediate(-4096));
    0xa30f_0013, "tsubcc %i4, %l3, %l1", tagged(TsubCc, 17, 28, Register(19));
    0x8d11_7fff, "taddcctv %g5, -1, %g6", tagged(TaddCcTv, 6, 5, Immediate(-1));
    0x8f1a_8019, "tsubcctv %o2, %i1, %g7", tagged(TsubCcTv, 7, 10, Register(25));
    0x9522_0009, "mulscc %o0, %o1, %o2", mulscc(10, 8, Register(9));
    0xa924_fffb, "mulscc %l3, -5, %l4", mulscc(20, 19, Immediate(-5));
    0x892e_c00e, "sll %i3, %o6, %g4", shift(Sll, 4, 27, Register(14));
    0x892e_e01f, "sll %i3, 31, %g4", shift(Sll, 4, 27, Immediate(31));
    0x9b32_000f, "srl %o0, %o7, %o5", shift(Srl, 13, 8, Register(15));
    0x9b32_2000, "srl %o0, 0, %o5", shift(Srl, 13, 8, Immediate(0));
    0xa538_400c, "sra %g1, %o4, %l2", shift(Sra, 18, 1, Register(12));
    0xa538_6011, "sra %g1, 17, %l2", shift(Sra, 18, 1, Immediate(17));
    0x8740_0000, "rd %y, %g3", read(Y, 3);
    0x8185_b000, "wr %l6, -4096, %y", write(Y, 22, Immediate(-4096));
    0xa148_0000, "rd %psr, %l0", read(Psr, 16);
    0x818d_c01a, "wr %l7, %i2, %psr", write(Psr, 23, Register(26));
    0x9350_0000, "rd %wim, %o1", read(Wim, 9);
    0x8195_3fff, "wr %l4, -1, %wim", write(Wim, 20, Immediate(-1));
    0xbd58_0000, "rd %tbr, %i6", read(Tbr, 30);
    0x819f_4018, "wr %i5, %i0, %tbr", write(Tbr, 29, Register(24));
    0x8143_c000, "stbar", stbar();
    0x9fc0_4002, "jmpl %g1+%g2, %o7", jmpl(15, 1, Register(2));
    0x81cc_6008, "rett %l1+8", rett(17, Immediate(8));
    0x81d7_e07f, "tn %i7+127", ticc(Never, 31, Immediate(127));
    0x83d0_a001, "te %g2+1", ticc(Equal, 2, Immediate(1));
    0x85d4_6002, "tle %l1+2", ticc(LessOrEqual, 17, Immediate(2));
    0x87d7_2003, "tl %i4+3", ticc(Less, 28, Immediate(3));
    0x89d4_e040, "tleu %l3+64", ticc(LessOrEqualUnsigned, 19, Immediate(64));
    0x8bd1_a005, "tcs %g6+5", ticc(CarrySet, 6, Immediate(5));
    0x8dd1_6010, "tneg %g5+16", ticc(Negative, 5, Immediate(16));
    0x8fd0_6007, "tvs %g1+7", ticc(OverflowSet, 1, Immediate(7));
    0x91d0_4002, "ta %g1+%g2", ticc(Always, 1, Register(2));
    0x93d1_e009, "tne %g7+9", ticc(NotEqual, 7, Immediate(9));
    0x95d2_a064, "tg %o2+100", ticc(Greater, 10, Immediate(100));
    0x97d6_600b, "tge %i1+11", ticc(GreaterOrEqual, 25, Immediate(11));
    0x99d1_200c, "tgu %g4+12", ticc(GreaterUnsigned, 4, Immediate(12));
    0x9bd6_e00d, "tcc %i3+13", ticc(CarryClear, 27, Immediate(13));
    0x9dd3_a00e, "tpos %o6+14", ticc(Positive, 14, Immediate(14));
    0x9fd3_600f, "tvc %o5+15", ticc(OverflowClear, 13, Immediate(15));
    0x81d8_7ffc, "flush %g1-4", flush(1, Immediate(-4));
    0x81da_401a, "flush %o1+%i2", flush(9, Register(26));
    0x81e0_0000, "save %g0, %g0, %g0", save(0, 0, Register(0));
    0x93ea_3fff, "restore %o0, -1, %o1", restore(9, 8, Immediate(-1));
    0x93ec_4012, "restore %l1, %l2, %o1", restore(9, 17, Register(18));
    0xd003_f000, "ld [%o7-4096], %o0", memory(Ld, 8, 15, Immediate(-4096));
    0xc00b_4003, "ldub [%o5+%g3], %g0", memory(Ldub, 0, 13, Register(3));
    0xec15_7fff, "lduh [%l5-1], %l6", memory(Lduh, 22, 21, Immediate(-1));
    0xec1e_c009, "ldd [%i3+%o1], %l6", memory(Ldd, 22, 27, Register(9));
    0xe822_e001, "st %l4, [%o3+1]", memory(St, 20, 11, Immediate(1));
    0xf82e_401f, "stb %i4, [%i1+%i7]", memory(Stb, 28, 25, Register(31));
    0xc434_7fb3, "sth %g2, [%l1-77]", memory(Sth, 2, 17, Immediate(-77));
    0xe439_c005, "std %l2, [%g7+%g5]", memory(Std, 18, 7, Register(5));
    0xc049_f800, "ldsb [%g7-2048], %g0", memory(Ldsb, 0, 7, Immediate(-2048));
    0xf051_401b, "ldsh [%g5+%i3], %i0", memory(Ldsh, 24, 5, Register(27));
    0xdc6b_7ff0, "ldstub [%o5-16], %o6", memory(Ldstub, 14, 13, Immediate(-16));
    0xdc7c_c001, "swap [%l3+%g1], %o6", memory(Swap, 14, 19, Register(1));
    0xd880_c117, "lda [%g3+%l7]8, %o4", alternate(Ld, 12, 3, 23, 8);
    0xe88c_4137, "lduba [%l1+%l7]9, %l4", alternate(Ldub, 20, 17, 23, 9);
    0xf492_4155, "lduha [%o1+%l5]10, %i2", alternate(Lduh, 26, 9, 21, 10);
    0xd49f_c17d, "ldda [%i7+%i5]11, %o2", alternate(Ldd, 10, 31, 29, 11);
    0xf0a7_c063, "sta %i0, [%i7+%g3]3", alternate(St, 24, 31, 3, 3);
    0xe0af_4093, "stba %l0, [%i5+%l3]4", alternate(Stb, 16, 29, 19, 4);
    0xccb1_4401, "stha %g6, [%g5+%g1]32", alternate(Sth, 6, 5, 1, 32);
    0xccba_c5f9, "stda %g6, [%o3+%i1]47", alternate(Std, 6, 11, 25, 47);
    0xc8ce_dfef, "ldsba [%i3+%o7]255, %g4", alternate(Ldsb, 4, 27, 15, 255);
    0xd8d2_400f, "ldsha [%o1+%o7]0, %o4", alternate(Ldsh, 12, 9, 15, 0);
    0xe4e8_500d, "ldstuba [%g1+%o5]128, %l2", alternate(Ldstub, 18, 1, 13, 128);
    0xc4fd_c435, "swapa [%l7+%l5]33, %g2", alternate(Swap, 2, 23, 21, 33);
    0x1380_0002, "fbe .+8", fp(0x1380_0002);
    0x85a0_0821, "fadds %f0, %f1, %f2", fp(0x85a0_0821);
    0x3dbf_fffe, "fbule,a .-8", fp(0x3dbf_fffe);
    0x81a8_ca24, "fcmps %f3, %f4", fp(0x81a8_ca24);
    0xc500_6004, "ld [%g1+4], %f2", fp(0xc500_6004);
    0xc108_4000, "ld [%g1], %fsr", fp(0xc108_4000);
    0xc918_4002, "ldd [%g1+%g2], %f4", fp(0xc918_4002);
    0xc720_7ffc, "st %f3, [%g1-4]", fp(0xc720_7ffc);
    0xc128_4000, "st %fsr, [%g1]", fp(0xc128_4000);
    0xc130_4000, "std %fq, [%g1]", fp(0xc130_4000);
    0xcd38_6008, "std %f6, [%g1+8]", fp(0xcd38_6008);
    0x87b0_4002, "cpop1 [%g1+%g2], %g3", cp(0x87b0_4002);
    0x87b8_4002, "cpop2 [%g1+%g2], %g3", cp(0x87b8_4002);
    0x0fc0_0002, "cb3 .+8", cp(0x0fc0_0002);
    0x3fff_fffe, "cb012,a .-8", cp(0x3fff_fffe);
    0xc780_4000, "ld [%g1], %c3", cp(0xc780_4000);
    0xc188_4000, "ld [%g1], %csr", cp(0xc188_4000);
    0xc998_4000, "ldd [%g1], %c4", cp(0xc998_4000);
    0xc7a0_4000, "st %c3, [%g1]", cp(0xc7a0_4000);
    0xc1a8_4000, "st %csr, [%g1]", cp(0xc1a8_4000);
    0xc1b0_4000, "std %cq, [%g1]", cp(0xc1b0_4000);
    0xc9b8_4000, "std %c4, [%g1]", cp(0xc9b8_4000);
};

/// Instructions with a field that is out of its range.
const OUT_OF_RANGE: [Instr; 88] = instructions! {
    unimp(1 << 22);
    bicc(Always, false, 1 << 21);
    bicc(Always, true, -(1 << 21) - 1);
    sethi(1 << 22, 0);
    sethi(0, 32);
    call(1 << 29);
    call(-(1 << 29) - 1);
    arith(Add, false, 32, 0, Register(0));
    arith(Add, false, 0, 32, Register(0));
    arith(Add, false, 0, 0, Register(32));
    arith(Add, false, 0, 0, Immediate(4096));
    arith(Add, false, 0, 0, Immediate(-4097));
    arith(Sdiv, true, 32, 0, Register(0));
    arith(Sdiv, true, 0, 32, Register(0));
    arith(Sdiv, true, 0, 0, Register(32));
    arith(Sdiv, true, 0, 0, Immediate(4096));
    arith(Sdiv, true, 0, 0, Immediate(-4097));
    tagged(TaddCc, 32, 0, Register(0));
    tagged(TaddCc, 0, 32, Register(0));
    tagged(TaddCc, 0, 0, Register(32));
    tagged(TaddCc, 0, 0, Immediate(4096));
    tagged(TaddCc, 0, 0, Immediate(-4097));
    mulscc(32, 0, Register(0));
    mulscc(0, 32, Register(0));
    mulscc(0, 0, Register(32));
    mulscc(0, 0, Immediate(4096));
    mulscc(0, 0, Immediate(-4097));
    shift(Sll, 32, 0, Register(0));
    shift(Sll, 0, 32, Register(0));
    shift(Sll, 0, 0, Register(32));
    shift(Sll, 0, 0, Immediate(32));
    shift(Sll, 0, 0, Immediate(-1));
    shift(Sra, 32, 0, Register(0));
    shift(Sra, 0, 32, Register(0));
    shift(Sra, 0, 0, Register(32));
    shift(Sra, 0, 0, Immediate(32));
    shift(Sra, 0, 0, Immediate(-1));
    read(Y, 32);
    read(Psr, 32);
    write(Y, 32, Register(0));
    write(Y, 0, Register(32));
    write(Y, 0, Immediate(4096));
    write(Y, 0, Immediate(-4097));
    write(Tbr, 32, Register(0));
    write(Tbr, 0, Register(32));
    write(Tbr, 0, Immediate(4096));
    write(Tbr, 0, Immediate(-4097));
    jmpl(32, 0, Register(0));
    jmpl(0, 32, Register(0));
    jmpl(0, 0, Register(32));
    jmpl(0, 0, Immediate(4096));
    jmpl(0, 0, Immediate(-4097));
    rett(32, Register(0));
    rett(0, Register(32));
    rett(0, Immediate(4096));
    rett(0, Immediate(-4097));
    ticc(Always, 32, Register(0));
    ticc(Always, 0, Register(32));
    ticc(Always, 0, Immediate(128));
    ticc(Always, 0, Immediate(-1));
    flush(32, Register(0));
    flush(0, Register(32));
    flush(0, Immediate(4096));
    flush(0, Immediate(-4097));
    save(32, 0, Register(0));
    save(0, 32, Register(0));
    save(0, 0, Register(32));
    save(0, 0, Immediate(4096));
    save(0, 0, Immediate(-4097));
    restore(32, 0, Register(0));
    restore(0, 32, Register(0));
    restore(0, 0, Register(32));
    restore(0, 0, Immediate(4096));
    restore(0, 0, Immediate(-4097));
    memory(Ld, 32, 0, Register(0));
    memory(Ld, 0, 32, Register(0));
    memory(Ld, 0, 0, Register(32));
    memory(Ld, 0, 0, Immediate(4096));
    memory(Ld, 0, 0, Immediate(-4097));
    memory(Std, 32, 0, Register(0));
    memory(Std, 0, 32, Register(0));
    memory(Std, 0, 0, Register(32));
    memory(Std, 0, 0, Immediate(4096));
    memory(Std, 0, 0, Immediate(-4097));
    alternate(Ld, 32, 0, 0, 0);
    alternate(Ld, 0, 32, 0, 0);
    alternate(Swap, 0, 0, 32, 255);
    read(Wim, 255);
};

/// Each instruction encodes to its word, and so does what the word decodes to. That is then the same instruction, as no two
/// have one word (`encodings_decode` of `sv8_assembler_laws`).
#[test]
fn words_of_an_assembler(rt: HostRuntime) -> Result<(), Fail> {
    for &(word, text, instr) in ASSEMBLED {
        assert_eq!(rt; encode(&instr), Some(word), "{text}");
        assert_eq!(rt; encode(&decode(word)), Some(word), "{text}");
    }
    Ok(())
}

/// The first word has reserved bits set: it decodes as the second, since what both decode to encodes to that one.
#[test]
fn reserved_bits(rt: HostRuntime) -> Result<(), Fail> {
    let rows = [
        // Bits 12 to 5 of a form with two registers.
        (0x8600_5fe2, 0x8600_4002, "add %g1, %g2, %g3"),
        (0xc600_5fe2, 0xc600_4002, "ld [%g1+%g2], %g3"),
        (0x8728_5fe2, 0x8728_4002, "sll %g1, %g2, %g3"),
        (0x8180_5fe2, 0x8180_4002, "wr %g1, %g2, %y"),
        (0x91d0_5fe2, 0x91d0_4002, "ta %g1+%g2"),
        // Bits 12 to 5 beside a count, and 12 to 7 beside a trap number.
        (0x8728_7fff, 0x8728_601f, "sll %g1, 31, %g3"),
        (0x8738_7fe0, 0x8738_6000, "sra %g1, 0, %g3"),
        (0x91d0_3f83, 0x91d0_2003, "ta 3"),
        // Bit 29 above a condition.
        (0xb1d0_2003, 0x91d0_2003, "ta 3"),
        // rd where none is named.
        (0xbfcc_8000, 0x81cc_8000, "rett %l2"),
        (0xbfd8_4000, 0x81d8_4000, "flush %g1"),
        (0xbf88_4000, 0x8188_4000, "wr %g1, %psr"),
        (0xbf90_4000, 0x8190_4000, "wr %g1, %wim"),
        (0xbf98_4000, 0x8198_4000, "wr %g1, %tbr"),
        (0x3e00_0007, 0x0000_0007, "unimp 7"),
        // All below op3 where rd alone is named, and below rs1 of RDY and STBAR.
        (0x834f_ffff, 0x8348_0000, "rd %psr, %g1"),
        (0x8357_ffff, 0x8350_0000, "rd %wim, %g1"),
        (0x835f_ffff, 0x8358_0000, "rd %tbr, %g1"),
        (0x8340_3fff, 0x8340_0000, "rd %y, %g1"),
        (0x8143_e000, 0x8143_c000, "stbar with i = 1"),
        (0x8143_ffff, 0x8143_c000, "stbar"),
    ];
    for (word, plain, text) in rows {
        assert_eq!(rt; encode(&decode(word)), Some(plain), "{text}");
        assert_eq!(rt; encode(&decode(plain)), Some(plain), "{text}");
    }
    Ok(())
}

/// RDY with rs1 = 3, STBAR with rd = 1, WRY with rd = 1, and op2 1, 3 and 5.
const ILLEGAL: [u32; 6] = [
    0x8140_c000,
    0x8343_c000,
    0x8380_0000,
    0x0040_0000,
    0x00c0_0000,
    0x0140_0000,
];

/// Each op3 with no meaning, with op 2 and with op 3.
const UNUSED_2: [u32; 10] = [0x09, 0x0d, 0x19, 0x1d, 0x2c, 0x2d, 0x2e, 0x2f, 0x3e, 0x3f];

const UNUSED_3: [u32; 26] = [
    0x08, 0x0b, 0x0c, 0x0e, 0x18, 0x1b, 0x1c, 0x1e, 0x22, 0x28, 0x29, 0x2a, 0x2b, 0x2c, 0x2d, 0x2e,
    0x2f, 0x32, 0x38, 0x39, 0x3a, 0x3b, 0x3c, 0x3d, 0x3e, 0x3f,
];

/// Each op3 of the alternate space forms.
const ALTERNATE: [u32; 12] = [
    0x10, 0x11, 0x12, 0x13, 0x14, 0x15, 0x16, 0x17, 0x19, 0x1a, 0x1d, 0x1f,
];

/// Words of the floating-point unit and of the coprocessor, by op2 and each op3, all else 0.
const FLOATING_POINT: [u32; 10] = [
    0x0180_0000,
    0x81a0_0000,
    0x81a8_0000,
    0xc100_0000,
    0xc108_0000,
    0xc118_0000,
    0xc120_0000,
    0xc128_0000,
    0xc130_0000,
    0xc138_0000,
];

const COPROCESSOR: [u32; 10] = [
    0x01c0_0000,
    0x81b0_0000,
    0x81b8_0000,
    0xc180_0000,
    0xc188_0000,
    0xc198_0000,
    0xc1a0_0000,
    0xc1a8_0000,
    0xc1b0_0000,
    0xc1b8_0000,
];

/// Words with no meaning, and alternate space forms with i = 1.
#[test]
fn no_instruction(rt: HostRuntime) -> Result<(), Fail> {
    for word in ILLEGAL {
        assert!(rt; matches!(decode(word), Illegal), "at {word}");
    }
    for op3 in UNUSED_2 {
        assert!(rt;
            matches!(decode(2 << 30 | op3 << 19), Illegal),
            "op 2, op3 {op3}"
        );
    }
    for op3 in UNUSED_3 {
        assert!(rt;
            matches!(decode(3 << 30 | op3 << 19), Illegal),
            "op 3, op3 {op3}"
        );
    }
    for op3 in ALTERNATE {
        assert!(rt;
            matches!(decode(3 << 30 | op3 << 19 | 1 << 13), AltImm),
            "op3 {op3}"
        );
    }
    Ok(())
}

/// Words of the other units keep all their bits.
#[test]
fn words_kept_whole(rt: HostRuntime) -> Result<(), Fail> {
    for word in FLOATING_POINT {
        for word in [word, word | 0x3e07_ffff] {
            assert!(rt;
                matches!(decode(word), Fp(whole) if whole == word),
                "at {word}"
            );
            assert_eq!(rt; encode(&Fp(word)), Some(word), "at {word}");
            assert_eq!(rt; encode(&Cp(word)), None, "at {word}");
        }
    }
    for word in COPROCESSOR {
        for word in [word, word | 0x3e07_ffff] {
            assert!(rt;
                matches!(decode(word), Cp(whole) if whole == word),
                "at {word}"
            );
            assert_eq!(rt; encode(&Cp(word)), Some(word), "at {word}");
            assert_eq!(rt; encode(&Fp(word)), None, "at {word}");
        }
    }
    Ok(())
}

/// What has no word: a field out of range, a word that is kept as what it is not (here
/// `sethi 0, %g0`), and what is no instruction.
#[test]
fn no_word(rt: HostRuntime) -> Result<(), Fail> {
    for (place, instr) in OUT_OF_RANGE.iter().enumerate() {
        assert_eq!(rt; encode(instr), None, "at {place}");
    }
    for (place, instr) in [Fp(0x0100_0000), Cp(0x0100_0000), AltImm, Illegal]
        .iter()
        .enumerate()
    {
        assert_eq!(rt; encode(instr), None, "no instruction, at {place}");
    }
    Ok(())
}
