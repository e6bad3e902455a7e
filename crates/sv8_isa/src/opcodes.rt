//! The list of opcodes.

/// The opcodes of every instruction, from Appendix F of the manual: `decode` and `encode` both
/// expand from this list.
///
/// The entries of a group have the same fields, and a number behind a name is its op2 or op3. An
/// instruction with the fields of a group that is here needs one entry more in that group.
macro_rules! opcodes {
    ($then:ident!($($with:tt)*)) => {
        $then! {
            [$($with)*]

            // Op 1 is CALL alone: the other bits are its displacement (B.24).
            call 1

            // Op 0, with op2: each has fields of its own (B.31, B.21, B.9).
            format_2 { Unimp 0, Bicc 2, Sethi 4 }
            // FBfcc and CBccc, whose word is kept whole (B.22, B.23).
            format_2_whole { Fp 6, Cp 7 }

            // Op 2, with op3: rd, rs1 and operand. The second number is op3 of the form that also
            // sets the condition codes (B.11, B.13, B.15, B.18, B.19).
            arith {
                Add 0x00 0x10, And 0x01 0x11, Or 0x02 0x12, Xor 0x03 0x13,
                Sub 0x04 0x14, Andn 0x05 0x15, Orn 0x06 0x16, Xnor 0x07 0x17,
                Addx 0x08 0x18, Umul 0x0a 0x1a, Smul 0x0b 0x1b, Subx 0x0c 0x1c,
                Udiv 0x0e 0x1e, Sdiv 0x0f 0x1f
            }
            // rd, rs1 and operand (B.14, B.16; B.17, B.25, B.20).
            tagged { TaddCc 0x20, TsubCc 0x21, TaddCcTv 0x22, TsubCcTv 0x23 }
            three_fields { Mulscc 0x24, Jmpl 0x38, Save 0x3c, Restore 0x3d }
            // rs1 and operand; rd is reserved (B.26, B.32).
            two_fields { Rett 0x39, Flush 0x3b }
            // rd, rs1 and a count below 32 (B.12).
            shift { Sll 0x25, Srl 0x26, Sra 0x27 }
            // cond, rs1 and a trap number below 128 (B.27).
            trap { Ticc 0x3a }
            // RDY names rd, and STBAR nothing. They share op3, and rs1, the second number, tells
            // them apart; any other rs1 is illegal (B.28, B.30).
            read_y { ReadState 0x28 0, Stbar 0x28 15 }
            // rd; the rest is reserved (B.28).
            read { Psr 0x29, Wim 0x2a, Tbr 0x2b }
            // WRY names rs1 and operand. Any rd but the second number is illegal (B.29).
            write_y { WriteState 0x30 0 }
            // rs1 and operand; rd is reserved (B.29).
            write { Psr 0x31, Wim 0x32, Tbr 0x33 }
            // FPop and CPop, whose word is kept whole (B.33, B.34).
            whole { Fp 0x34, Fp 0x35, Cp 0x36, Cp 0x37 }

            // Op 3, with op3: rd, rs1 and operand. The second number is op3 of the alternate space
            // form, with rd, rs1, rs2 and asi, and i = 0 (B.1, B.4, B.7, B.8).
            memory {
                Ld 0x00 0x10, Ldub 0x01 0x11, Lduh 0x02 0x12, Ldd 0x03 0x13,
                St 0x04 0x14, Stb 0x05 0x15, Sth 0x06 0x16, Std 0x07 0x17,
                Ldsb 0x09 0x19, Ldsh 0x0a 0x1a, Ldstub 0x0d 0x1d, Swap 0x0f 0x1f
            }
            // Loads and stores of the other units, whose word is kept whole (B.2, B.3, B.5, B.6).
            memory_whole {
                Fp 0x20, Fp 0x21, Fp 0x23, Fp 0x24, Fp 0x25, Fp 0x27,
                Cp 0x30, Cp 0x31, Cp 0x33, Cp 0x34, Cp 0x35, Cp 0x37
            }
            // The stores of their queues, STDFQ and STDCQ, likewise (B.5, B.6).
            queue_whole { Fp 0x26, Cp 0x36 }
        }
    };
}

pub(crate) use opcodes;
