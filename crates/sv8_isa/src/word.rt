//! Fields of a word, and the branch and the call with them.

ghost use Rattle.std.specs.Prelude.{◌≡◌, ◌+◌, ◌-◌, ◌^◌, ◌<◌, ◌≤◌, ◌==◌, IfSome};
ghost use Rattle.std.specs.Option.{ForSome};
ghost use Rattle.sv8_model.specs.Words.{field, signed};
ghost use Rattle.sv8_isa.specs.declared.instr.Instr.TheVariants.{Bicc, Call};
ghost use Rattle.sv8_isa.specs.Operands.{operand_of, count_of, trap_number_of, condition_of};
ghost use Rattle.sv8_isa.specs.Registers.{OperandHasRegister};
ghost use Rattle.sv8_isa.specs.Encoding.{unsigned_bits, signed_bits, source_bits, natural_source, alternate_source, cond_code, annul_code, format_call, format_2, format_3};

use crate::instr::{Cond, Instr, Operand};

/// The bits `high` down to `low` of a word.
pub(crate) fn bits(word: u32, high: u32, low: u32) -> u32
    requires ordered { low ≤ high }
    requires within { high < low + 31 }
    requires in_word { high < 32 }
    ensures value { result ≡ field word high low }
    ensures small { result < 2 ^ (high - low + 1) }
{
    (word >> low) & ((1 << (high - low + 1)) - 1)
}

/// The number that the low `width` bits of `value` stand for in two's complement.
pub(crate) fn sign_extend(value: u32, width: u32) -> i32
    requires some { 0 < width }
    requires in_word { width < 31 }
    requires fits { value < 2 ^ width }
    ensures { result ≡ signed value width }
{
    if value < 1 << (width - 1) {
        value as i32
    } else {
        value as i32 - (1 << width)
    }
}

/// Five bits that name a register.
pub(crate) fn register(word: u32, low: u32) -> u8
    requires { low < 28 }
    ensures value { result ≡ field word (low + 4) low }
    ensures below { result < 32 }
{
    bits(word, low + 4, low) as u8
}

/// The second source: r[rs2], or simm13.
#[tactic(auto, unfolding(crate::specs::Operands::operand_of))]
pub(crate) fn operand(word: u32) -> Operand
    ensures value { result ≡ operand_of word }
    ensures register { OperandHasRegister result }
{
    if bits(word, 13, 13) == 1 {
        Operand::Immediate(sign_extend(bits(word, 12, 0), 13))
    } else {
        Operand::Register(register(word, 0))
    }
}

/// The second source of a shift: r[rs2], or a count of five bits.
#[tactic(auto, unfolding(crate::specs::Operands::count_of))]
pub(crate) fn count(word: u32) -> Operand
    ensures value { result ≡ count_of word }
    ensures register { OperandHasRegister result }
{
    if bits(word, 13, 13) == 1 {
        Operand::Immediate(bits(word, 4, 0) as i32)
    } else {
        Operand::Register(register(word, 0))
    }
}

/// The second source of a trap: r[rs2], or a number of seven bits.
#[tactic(auto, unfolding(crate::specs::Operands::trap_number_of))]
pub(crate) fn trap_number(word: u32) -> Operand
    ensures value { result ≡ trap_number_of word }
    ensures register { OperandHasRegister result }
{
    if bits(word, 13, 13) == 1 {
        Operand::Immediate(bits(word, 6, 0) as i32)
    } else {
        Operand::Register(register(word, 0))
    }
}

/// The condition in bits 28 to 25.
#[tactic(auto, unfolding(crate::specs::Operands::condition_of))]
pub(crate) fn condition(word: u32) -> Cond
    ensures { result ≡ condition_of (field word 28 25) }
{
    match bits(word, 28, 25) {
        0 => Cond::Never,
        1 => Cond::Equal,
        2 => Cond::LessOrEqual,
        3 => Cond::Less,
        4 => Cond::LessOrEqualUnsigned,
        5 => Cond::CarrySet,
        6 => Cond::Negative,
        7 => Cond::OverflowSet,
        8 => Cond::Always,
        9 => Cond::NotEqual,
        10 => Cond::Greater,
        11 => Cond::GreaterOrEqual,
        12 => Cond::GreaterUnsigned,
        13 => Cond::CarryClear,
        14 => Cond::Positive,
        _ => Cond::OverflowClear,
    }
}

/// A number of `width` bits, or none where it has more.
#[tactic(auto, unfolding(crate::specs::Encoding::unsigned_bits))]
pub(crate) fn unsigned_bits(value: u32, width: u32) -> Option<u32>
    requires { width < 31 }
    ensures value { result ≡ unsigned_bits value width }
    ensures small { IfSome result (λ n. n < 2 ^ width) }
{
    if value < 1 << width {
        Some(value)
    } else {
        None
    }
}

/// The `width` bits of a number in two's complement, or none where it has more.
#[tactic(auto, unfolding(crate::specs::Encoding::signed_bits))]
pub(crate) fn signed_bits(value: i32, width: u32) -> Option<u32>
    requires some { 0 < width }
    requires in_word { width < 31 }
    ensures value { result ≡ signed_bits value width }
    ensures small { IfSome result (λ n. n < 2 ^ width) }
{
    let half = 1 << (width - 1);
    if -half <= value && value < half {
        Some(value.cast_unsigned() & ((1 << width) - 1))
    } else {
        None
    }
}

/// i and the second source.
pub(crate) fn source_bits(operand: Operand) -> Option<u32>
    ensures value { result ≡ source_bits operand }
    ensures small { IfSome result (λ n. n < 2 ^ 14) }
{
    match operand {
        Operand::Register(register) => unsigned_bits(u32::from(register), 5),
        Operand::Immediate(value) => match signed_bits(value, 13) {
            Some(low) => Some(1 << 13 | low),
            None => None,
        },
    }
}

/// i and the second source, where an immediate number has `width` bits and no sign.
pub(crate) fn natural_source(width: u32, operand: Operand) -> Option<u32>
    requires { width < 13 }
    ensures value { result ≡ natural_source width operand }
    ensures small { IfSome result (λ n. n < 2 ^ 14) }
{
    match operand {
        Operand::Register(register) => unsigned_bits(u32::from(register), 5),
        Operand::Immediate(value) => {
            if value < 0 {
                return None;
            }
            match unsigned_bits(value as u32, width) {
                Some(low) => Some(1 << 13 | low),
                None => None,
            }
        }
    }
}

/// The address space and the second source of an alternate space form.
#[tactic(auto, unfolding(crate::specs::Encoding::alternate_source))]
pub(crate) fn alternate_source(asi: u8, rs2: u8) -> Option<u32>
    ensures value { result ≡ alternate_source asi rs2 }
    ensures small { IfSome result (λ n. n < 2 ^ 14) }
{
    if rs2 < 32 {
        Some(u32::from(asi) << 5 | u32::from(rs2))
    } else {
        None
    }
}

/// The code of a condition.
pub(crate) fn condition_code(cond: Cond) -> u8
    ensures { result ≡ cond_code cond }
{
    cond as u8
}

/// a and cond of a branch.
pub(crate) fn branch_field(annul: bool, cond: Cond) -> u8
    ensures { result ≡ annul_code annul + cond_code cond }
{
    if annul {
        16 + condition_code(cond)
    } else {
        condition_code(cond)
    }
}

/// A word of a call, which has no fields but op and the displacement.
#[tactic(auto, unfolding(crate::specs::Encoding::format_call))]
pub(crate) fn format_call(op: u32, disp30: Option<u32>) -> Option<u32>
    requires op { op < 4 }
    requires small { ForSome disp30 (λ n. n < 2 ^ 30) }
    ensures { result ≡ format_call op disp30 }
{
    Some(disp30? | op << 30)
}

/// A word with op 0.
#[tactic(auto, unfolding(crate::specs::Encoding::format_2))]
pub(crate) fn format_2(high: u8, op2: u32, imm22: Option<u32>) -> Option<u32>
    requires code { op2 < 8 }
    requires small { ForSome imm22 (λ n. n < 2 ^ 22) }
    ensures { result ≡ format_2 high op2 imm22 }
{
    let imm22 = imm22?;
    if high < 32 {
        Some(imm22 | op2 << 22 | u32::from(high) << 25)
    } else {
        None
    }
}

/// A word with op 2 or 3.
#[tactic(auto, unfolding(crate::specs::Encoding::format_3))]
pub(crate) fn format_3(op: u32, rd: u8, op3: u32, rs1: u8, source: Option<u32>) -> Option<u32>
    requires op { op < 4 }
    requires code { op3 < 64 }
    requires small { ForSome source (λ n. n < 2 ^ 14) }
    ensures { result ≡ format_3 op rd op3 rs1 source }
{
    let source = source?;
    if rd < 32 && rs1 < 32 {
        Some(source | u32::from(rs1) << 14 | op3 << 19 | u32::from(rd) << 25 | op << 30)
    } else {
        None
    }
}

/// Bicc with the fields of a word.
#[inline(always)]
pub(crate) fn branch(word: u32) -> Instr
    ensures { result ≡ Bicc (condition_of (field word 28 25)) (field word 29 29 == 1) (signed (field word 21 0) 22) }
{
    Instr::Bicc {
        cond: condition(word),
        annul: bits(word, 29, 29) == 1,
        disp22: sign_extend(bits(word, 21, 0), 22),
    }
}

/// CALL with the displacement of a word.
#[inline(always)]
pub(crate) fn call(word: u32) -> Instr
    ensures { result ≡ Call (signed (field word 29 0) 30) }
{
    Instr::Call {
        disp30: sign_extend(bits(word, 29, 0), 30),
    }
}
