//! Arithmetic and logic (Appendices B.9, B.11 to B.19).

ghost use Rattle.std.specs.Prelude.{◌≡◌, ◌<◌, ◌^◌, true};
ghost use Rattle.sv8_isa.specs.Registers.{OperandHasRegister};
ghost use Rattle.sv8_trap.specs.Table.{taken};
ghost use Rattle.sv8_iu.specs.Operands.{operand_value};
ghost use Rattle.sv8_iu.specs.Arithmetic.{codes_of, icc_of_psr, finished, finished_product, finished_quotient, operated, arithmetic, divides, arithmetic_traps, traps_on_overflow, tagged_of, tagged, tagged_traps, stepped, multiply_step, shift_form, shifted, upper_set};

use crate::operands::operand_value;
use sv8_alu::{Answer, Icc, Logical, Product, ShiftForm, Step};
use sv8_isa::{ArithOp, Operand, ShiftOp, TaggedOp};
use sv8_regs::{ConditionCodes, Psr};
use sv8_trap::{Processor, Trap};

/// The condition codes of a result.
#[inline(always)]
fn codes_of(icc: Icc) -> ConditionCodes
    ensures { result ≡ codes_of icc }
{
    let Icc { n, z, v, c } = icc;
    ConditionCodes { n, z, v, c }
}

/// The condition codes as they stand.
#[inline(always)]
fn icc_of(psr: Psr) -> Icc
    ensures { result ≡ icc_of_psr psr }
{
    let Psr { n, z, v, c, .. } = psr;
    Icc { n, z, v, c }
}

/// Writes a result, and with `cc` its condition codes, and goes on.
#[inline(always)]
#[tactic(auto, unfolding(crate::specs::Arithmetic::finished))]
fn finish<const NW: usize>(p: &mut Processor<NW>, cc: bool, rd: u8, answer: Answer)
    requires { rd < 32 }
    ensures { p.new ≡ finished NW p.old cc rd answer }
{
    if cc {
        p.set_codes(codes_of(answer.icc));
    }
    p.finish_with(rd, answer.value);
}

#[inline(always)]
#[tactic(auto, unfolding(crate::specs::Arithmetic::finished_product))]
fn finish_product<const NW: usize>(p: &mut Processor<NW>, cc: bool, rd: u8, product: Product)
    requires { rd < 32 }
    ensures { p.new ≡ finished_product NW p.old cc rd product }
{
    p.set_y(product.high);
    finish(p, cc, rd, product.low);
}

#[inline(always)]
fn finish_quotient<const NW: usize>(
    p: &mut Processor<NW>,
    cc: bool,
    rd: u8,
    quotient: Option<Answer>,
)
    requires { rd < 32 }
    ensures { p.new ≡ finished_quotient NW p.old cc rd quotient }
{
    match quotient {
        None => p.advance(),
        Some(answer) => finish(p, cc, rd, answer),
    }
}

/// An operation on the values of both sources.
#[inline(always)]
#[tactic(auto, unfolding(crate::specs::Arithmetic::operated))]
fn operate<const NW: usize>(p: &mut Processor<NW>, op: ArithOp, cc: bool, rd: u8, x: u32, y: u32)
    requires { rd < 32 }
    ensures { p.new ≡ operated NW p.old op cc rd x y }
{
    match op {
        ArithOp::Add => finish(p, cc, rd, sv8_alu::add(x, y, false)),
        ArithOp::Addx => finish(p, cc, rd, sv8_alu::add(x, y, p.registers().psr().c)),
        ArithOp::Sub => finish(p, cc, rd, sv8_alu::sub(x, y, false)),
        ArithOp::Subx => finish(p, cc, rd, sv8_alu::sub(x, y, p.registers().psr().c)),
        ArithOp::And => finish(p, cc, rd, sv8_alu::logic(Logical::And, x, y)),
        ArithOp::Andn => finish(p, cc, rd, sv8_alu::logic(Logical::Andn, x, y)),
        ArithOp::Or => finish(p, cc, rd, sv8_alu::logic(Logical::Or, x, y)),
        ArithOp::Orn => finish(p, cc, rd, sv8_alu::logic(Logical::Orn, x, y)),
        ArithOp::Xor => finish(p, cc, rd, sv8_alu::logic(Logical::Xor, x, y)),
        ArithOp::Xnor => finish(p, cc, rd, sv8_alu::logic(Logical::Xnor, x, y)),
        ArithOp::Umul => finish_product(p, cc, rd, sv8_alu::unsigned_multiply(x, y)),
        ArithOp::Smul => finish_product(p, cc, rd, sv8_alu::signed_multiply(x, y)),
        ArithOp::Udiv => {
            let high = p.registers().y();
            finish_quotient(p, cc, rd, sv8_alu::unsigned_divide(high, x, y));
        }
        ArithOp::Sdiv => {
            let high = p.registers().y();
            finish_quotient(p, cc, rd, sv8_alu::signed_divide(high, x, y));
        }
    }
}

/// The same, as a call.
#[inline(never)]
fn operate_apart<const NW: usize>(
    p: &mut Processor<NW>,
    op: ArithOp,
    cc: bool,
    rd: u8,
    x: u32,
    y: u32,
)
    requires { rd < 32 }
    ensures { p.new ≡ operated NW p.old op cc rd x y }
{
    operate(p, op, cc, rd, x, y);
}

/// An operation that has a form which sets the condition codes.
#[inline(always)]
pub fn arithmetic_in_place<const NW: usize>(
    p: &mut Processor<NW>,
    op: ArithOp,
    cc: bool,
    rd: u8,
    rs1: u8,
    operand: Operand,
)
    requires rd { rd < 32 }
    requires rs1 { rs1 < 32 }
    requires operand { OperandHasRegister operand }
    ensures { p.new ≡ arithmetic NW p.old op cc rd rs1 operand }
{
    let x = p.registers().get(u32::from(rs1));
    let y = operand_value(p, operand);
    operate(p, op, cc, rd, x, y);
}

/// The same, with the operation as a call.
#[inline(always)]
pub fn arithmetic<const NW: usize>(
    p: &mut Processor<NW>,
    op: ArithOp,
    cc: bool,
    rd: u8,
    rs1: u8,
    operand: Operand,
)
    requires rd { rd < 32 }
    requires rs1 { rs1 < 32 }
    requires operand { OperandHasRegister operand }
    ensures { p.new ≡ arithmetic NW p.old op cc rd rs1 operand }
{
    let x = p.registers().get(u32::from(rs1));
    let y = operand_value(p, operand);
    operate_apart(p, op, cc, rd, x, y);
}

#[inline(always)]
fn divides(op: ArithOp) -> bool
    ensures { result ≡ divides op }
{
    matches!(op, ArithOp::Udiv | ArithOp::Sdiv)
}

/// The trap of a division by 0.
#[inline(always)]
pub fn arithmetic_trap<const NW: usize>(
    p: &Processor<NW>,
    op: ArithOp,
    operand: Operand,
) -> Option<Trap>
    requires operand { OperandHasRegister operand }
    ensures { result ≡ taken (arithmetic_traps NW p.now op operand) }
{
    if divides(op) && operand_value(p, operand) == 0 {
        Some(Trap::DivisionByZero)
    } else {
        None
    }
}

/// A sum or difference of tagged numbers.
#[inline(always)]
#[tactic(auto, unfolding(crate::specs::Arithmetic::tagged_of))]
fn tagged_answer<const NW: usize>(
    p: &Processor<NW>,
    op: TaggedOp,
    rs1: u8,
    operand: Operand,
) -> Answer
    requires rs1 { rs1 < 32 }
    requires operand { OperandHasRegister operand }
    ensures { result ≡ tagged_of NW p.now op rs1 operand }
{
    let x = p.registers().get(u32::from(rs1));
    let y = operand_value(p, operand);
    match op {
        TaggedOp::TaddCc | TaggedOp::TaddCcTv => sv8_alu::tagged_add(x, y),
        TaggedOp::TsubCc | TaggedOp::TsubCcTv => sv8_alu::tagged_sub(x, y),
    }
}

#[inline(never)]
pub fn tagged<const NW: usize>(
    p: &mut Processor<NW>,
    op: TaggedOp,
    rd: u8,
    rs1: u8,
    operand: Operand,
)
    requires rd { rd < 32 }
    requires rs1 { rs1 < 32 }
    requires operand { OperandHasRegister operand }
    ensures { p.new ≡ tagged NW p.old op rd rs1 operand }
{
    let answer = tagged_answer(p, op, rs1, operand);
    finish(p, true, rd, answer);
}

#[inline(always)]
fn traps_on_overflow(op: TaggedOp) -> bool
    ensures { result ≡ traps_on_overflow op }
{
    matches!(op, TaggedOp::TaddCcTv | TaggedOp::TsubCcTv)
}

/// The trap of a tag overflow, which the TV forms raise.
#[inline(always)]
pub fn tagged_trap<const NW: usize>(
    p: &Processor<NW>,
    op: TaggedOp,
    rs1: u8,
    operand: Operand,
) -> Option<Trap>
    requires rs1 { rs1 < 32 }
    requires operand { OperandHasRegister operand }
    ensures { result ≡ taken (tagged_traps NW p.now op rs1 operand) }
{
    if traps_on_overflow(op) && tagged_answer(p, op, rs1, operand).icc.v {
        Some(Trap::TagOverflow)
    } else {
        None
    }
}

#[inline(always)]
fn finish_step<const NW: usize>(p: &mut Processor<NW>, rd: u8, step: Step)
    requires { rd < 32 }
    ensures { p.new ≡ stepped NW p.old rd step }
{
    p.set_y(step.y);
    finish(p, true, rd, step.sum);
}

/// MULScc.
#[inline(never)]
#[tactic(auto, unfolding(crate::specs::Arithmetic::multiply_step))]
pub fn multiply_step<const NW: usize>(p: &mut Processor<NW>, rd: u8, rs1: u8, operand: Operand)
    requires rd { rd < 32 }
    requires rs1 { rs1 < 32 }
    requires operand { OperandHasRegister operand }
    ensures { p.new ≡ multiply_step NW p.old rd rs1 operand }
{
    let x = p.registers().get(u32::from(rs1));
    let second = operand_value(p, operand);
    let step = sv8_alu::multiply_step(x, second, p.registers().y(), icc_of(p.registers().psr()));
    finish_step(p, rd, step);
}

#[inline(always)]
fn shift_form(op: ShiftOp) -> ShiftForm
    ensures { result ≡ shift_form op }
{
    match op {
        ShiftOp::Sll => ShiftForm::LeftLogical,
        ShiftOp::Srl => ShiftForm::RightLogical,
        ShiftOp::Sra => ShiftForm::RightArithmetic,
    }
}

#[inline(always)]
#[tactic(auto, unfolding(crate::specs::Arithmetic::shifted))]
pub fn shift<const NW: usize>(p: &mut Processor<NW>, op: ShiftOp, rd: u8, rs1: u8, count: Operand)
    requires rd { rd < 32 }
    requires rs1 { rs1 < 32 }
    requires count { OperandHasRegister count }
    ensures { p.new ≡ shifted NW p.old op rd rs1 count }
{
    let x = p.registers().get(u32::from(rs1));
    let count = operand_value(p, count);
    p.finish_with(rd, sv8_alu::shift(shift_form(op), x, count));
}

/// The same, with an arm for each operation: so the built program asks once which one it is, and has code for each.
#[inline(always)]
pub fn shift_by_operation<const NW: usize>(
    p: &mut Processor<NW>,
    op: ShiftOp,
    rd: u8,
    rs1: u8,
    count: Operand,
)
    requires rd { rd < 32 }
    requires rs1 { rs1 < 32 }
    requires count { OperandHasRegister count }
    ensures { p.new ≡ shifted NW p.old op rd rs1 count }
{
    match op {
        ShiftOp::Sll => shift(p, ShiftOp::Sll, rd, rs1, count),
        ShiftOp::Srl => shift(p, ShiftOp::Srl, rd, rs1, count),
        ShiftOp::Sra => shift(p, ShiftOp::Sra, rd, rs1, count),
    }
}

/// SETHI.
#[inline(always)]
pub fn set_upper<const NW: usize>(p: &mut Processor<NW>, rd: u8, imm22: u32)
    requires { rd < 32 }
    ensures { p.new ≡ upper_set NW p.old rd imm22 }
{
    p.finish_with(rd, imm22.wrapping_mul(1024));
}
