//! Instructions, each from its mnemonic's shape and its operands: a function for each form.

ghost use Rattle.sv8_statements.specs.Operand.{operand_view, operand_views};
ghost use Rattle.sv8_statements.specs.Outcome.{Gives};
ghost use Rattle.sv8_forms.specs.Taking.{upper_in};
ghost use Rattle.sv8_forms.specs.Forms.{none_of, called, call_of, cleared, clear_of, branch_of, trap_of, unimp_of, test_of, not_of, negate_of, step_by_one, one_of, access, alternate_access, from_state, to_state, moved, mov_of, compared, sethi_of, jmpl_of, call_with_number, step_of, update_of, two_of, three_fields, shift_of, write_of, three_of, instruction_of};

use crate::format3::{format3, of_number, of_registers, with_bracketed, with_place, with_source};
use crate::mnemonic::Shape;
use crate::take::{
    alternate_in, count_in, expr_in, imm_in, is_bracketed, is_state, number_in, register_in,
    starts_with_register, state_in, trap_in,
};
use std::alloc::Global;
use sv8_isa::{ArithOp, Cond, MemoryOp, ShiftOp};
use sv8_statements::{
    Address, Expr, ImmRef, Instruction, Operand, Operation, Read, RegOrImmRef, Register, SYNTAX,
    Upper,
};

const OR: Operation = Operation::Arith {
    op: ArithOp::Or,
    cc: false,
};

/// `%hi(..)`, or an expression.
#[tactic(auto, unfolding(crate::specs::Taking::upper_in))]
fn upper_in(alloc: Global, operand: &Operand<'_>) -> Read<Upper>
    ensures { Gives (λ u. u) result (upper_in (operand_view operand.now)) }
{
    match operand {
        Operand::High(e) => Ok(Upper::High(e.owned(alloc)?)),
        Operand::Plain(Address::One(RegOrImmRef::Immediate(ImmRef::Value(e)))) => {
            Ok(Upper::Value(e.owned(alloc)?))
        }
        _ => Err(SYNTAX),
    }
}

#[tactic(auto, unfolding(crate::specs::Forms::none_of))]
fn none(shape: Shape) -> Read<Instruction>
    ensures { Gives (λ i. i) result (none_of shape) }
{
    let zero = Register::G0;
    match shape {
        Shape::Three(Operation::Save) => Ok(of_registers(Operation::Save, zero, zero, zero)),
        Shape::Three(Operation::Restore) => Ok(of_registers(Operation::Restore, zero, zero, zero)),
        Shape::Nop => Ok(Instruction::Sethi {
            value: Upper::Value(Expr::Number(0)),
            rd: zero,
        }),
        Shape::Return(rs1) => Ok(of_number(Operation::Jmpl, zero, rs1, 8)),
        Shape::Stbar => Ok(of_registers(Operation::Stbar, zero, zero, zero)),
        _ => Err(SYNTAX),
    }
}

/// `call`, to an expression.
#[tactic(auto, unfolding(crate::specs::Forms::called))]
fn called(alloc: Global, target: &Operand<'_>) -> Read<Instruction>
    ensures { Gives (λ i. i) result (called (operand_view target.now)) }
{
    let target = expr_in(target).ok_or(SYNTAX)?.owned(alloc)?;
    Ok(Instruction::Call(target))
}

/// `call`, to an address that begins with a register, or to an expression.
#[tactic(auto, unfolding(crate::specs::Forms::call_of))]
fn call(alloc: Global, target: &Operand<'_>) -> Read<Instruction>
    ensures { Gives (λ i. i) result (call_of (operand_view target.now)) }
{
    if starts_with_register(target) {
        with_place(alloc, Operation::Jmpl, Register::O7, target)
    } else {
        called(alloc, target)
    }
}

/// `clr` of a register.
#[tactic(auto, unfolding(crate::specs::Forms::cleared))]
fn cleared(to: &Operand<'_>) -> Read<Instruction>
    ensures { Gives (λ i. i) result (cleared (operand_view to.now)) }
{
    let rd = register_in(to).ok_or(SYNTAX)?;
    Ok(of_registers(OR, rd, Register::G0, Register::G0))
}

/// `clr` of an address or of a register.
#[tactic(auto, unfolding(crate::specs::Forms::clear_of))]
fn clear(alloc: Global, operand: &Operand<'_>) -> Read<Instruction>
    ensures { Gives (λ i. i) result (clear_of (operand_view operand.now)) }
{
    if is_bracketed(operand) {
        with_bracketed(
            alloc,
            Operation::Memory(MemoryOp::St),
            Register::G0,
            operand,
        )
    } else {
        cleared(operand)
    }
}

#[tactic(auto, unfolding(crate::specs::Forms::branch_of))]
fn branch(alloc: Global, cond: Cond, annul: bool, operand: &Operand<'_>) -> Read<Instruction>
    ensures { Gives (λ i. i) result (branch_of cond annul (operand_view operand.now)) }
{
    let target = expr_in(operand).ok_or(SYNTAX)?.owned(alloc)?;
    Ok(Instruction::Branch {
        cond,
        annul,
        target,
    })
}

#[tactic(auto, unfolding(crate::specs::Forms::trap_of))]
fn trap(alloc: Global, cond: Cond, operand: &Operand<'_>) -> Read<Instruction>
    ensures { Gives (λ i. i) result (trap_of cond (operand_view operand.now)) }
{
    let (rs1, source) = trap_in(operand).ok_or(SYNTAX)?;
    format3(alloc, Operation::Trap(cond), Register::G0, rs1, source)
}

#[tactic(auto, unfolding(crate::specs::Forms::unimp_of))]
fn unimp(operand: &Operand<'_>) -> Read<Instruction>
    ensures { Gives (λ i. i) result (unimp_of (operand_view operand.now)) }
{
    let number = number_in(operand).ok_or(SYNTAX)?;
    Ok(Instruction::Unimp(number))
}

#[tactic(auto, unfolding(crate::specs::Forms::test_of))]
fn test(op: Operation, operand: &Operand<'_>) -> Read<Instruction>
    ensures { Gives (λ i. i) result (test_of op (operand_view operand.now)) }
{
    let rs2 = register_in(operand).ok_or(SYNTAX)?;
    Ok(of_registers(op, Register::G0, Register::G0, rs2))
}

#[tactic(auto, unfolding(crate::specs::Forms::step_by_one))]
fn step_by_one(op: Operation, to: &Operand<'_>) -> Read<Instruction>
    ensures { Gives (λ i. i) result (step_by_one op (operand_view to.now)) }
{
    let rd = register_in(to).ok_or(SYNTAX)?;
    Ok(of_number(op, rd, rd, 1))
}

#[tactic(auto, unfolding(crate::specs::Forms::one_of))]
fn one(alloc: Global, shape: Shape, operand: &Operand<'_>) -> Read<Instruction>
    ensures { Gives (λ i. i) result (one_of shape (operand_view operand.now)) }
{
    match shape {
        Shape::Branch { cond, annul } => branch(alloc, cond, annul, operand),
        Shape::Trap(cond) => trap(alloc, cond, operand),
        Shape::Call => call(alloc, operand),
        Shape::To(op) => with_place(alloc, op, Register::G0, operand),
        Shape::Unimp => unimp(operand),
        Shape::Test(op) => test(op, operand),
        Shape::Not(op) => not(op, operand, operand),
        Shape::Negate(op) => negate(op, operand, operand),
        Shape::Step(op) => step_by_one(op, operand),
        Shape::ClearAt(op) => with_bracketed(alloc, Operation::Memory(op), Register::G0, operand),
        Shape::Clear => clear(alloc, operand),
        _ => Err(SYNTAX),
    }
}

/// A load or store: the register, and the address in brackets.
#[tactic(auto, unfolding(crate::specs::Forms::access))]
fn access(
    alloc: Global,
    op: MemoryOp,
    register: &Operand<'_>,
    place: &Operand<'_>,
) -> Read<Instruction>
    ensures { Gives (λ i. i) result (access op (operand_view register.now) (operand_view place.now)) }
{
    let rd = register_in(register).ok_or(SYNTAX)?;
    with_bracketed(alloc, Operation::Memory(op), rd, place)
}

/// The same in an alternate space.
#[tactic(auto, unfolding(crate::specs::Forms::alternate_access))]
fn alternate_access(op: MemoryOp, register: &Operand<'_>, place: &Operand<'_>) -> Read<Instruction>
    ensures { Gives (λ i. i) result (alternate_access op (operand_view register.now) (operand_view place.now)) }
{
    let rd = register_in(register).ok_or(SYNTAX)?;
    let (rs1, rs2, asi) = alternate_in(place).ok_or(SYNTAX)?;
    Ok(Instruction::Alternate {
        op,
        rd,
        rs1,
        rs2,
        asi,
    })
}

#[tactic(auto, unfolding(crate::specs::Forms::sethi_of))]
fn sethi(alloc: Global, value: &Operand<'_>, to: &Operand<'_>) -> Read<Instruction>
    ensures { Gives (λ i. i) result (sethi_of (operand_view value.now) (operand_view to.now)) }
{
    let rd = register_in(to).ok_or(SYNTAX)?;
    let value = upper_in(alloc, value)?;
    Ok(Instruction::Sethi { value, rd })
}

/// `rd`, and `mov` from a state register.
#[tactic(auto, unfolding(crate::specs::Forms::from_state))]
fn from_state(from: &Operand<'_>, to: &Operand<'_>) -> Read<Instruction>
    ensures { Gives (λ i. i) result (from_state (operand_view from.now) (operand_view to.now)) }
{
    let state = state_in(from).ok_or(SYNTAX)?;
    let rd = register_in(to).ok_or(SYNTAX)?;
    Ok(of_registers(Operation::Read(state), rd, Register::G0, Register::G0))
}

/// `mov` to a state register.
#[tactic(auto, unfolding(crate::specs::Forms::to_state))]
fn to_state(alloc: Global, from: &Operand<'_>, to: &Operand<'_>) -> Read<Instruction>
    ensures { Gives (λ i. i) result (to_state (operand_view from.now) (operand_view to.now)) }
{
    let state = state_in(to).ok_or(SYNTAX)?;
    with_source(
        alloc,
        Operation::Write(state),
        Register::G0,
        Register::G0,
        from,
    )
}

/// `mov` to an r register.
#[tactic(auto, unfolding(crate::specs::Forms::moved))]
fn moved(alloc: Global, from: &Operand<'_>, to: &Operand<'_>) -> Read<Instruction>
    ensures { Gives (λ i. i) result (moved (operand_view from.now) (operand_view to.now)) }
{
    let rd = register_in(to).ok_or(SYNTAX)?;
    with_source(alloc, OR, rd, Register::G0, from)
}

#[tactic(auto, unfolding(crate::specs::Forms::mov_of))]
fn mov(alloc: Global, from: &Operand<'_>, to: &Operand<'_>) -> Read<Instruction>
    ensures { Gives (λ i. i) result (mov_of (operand_view from.now) (operand_view to.now)) }
{
    if is_state(from) {
        from_state(from, to)
    } else if is_state(to) {
        to_state(alloc, from, to)
    } else {
        moved(alloc, from, to)
    }
}

#[tactic(auto, unfolding(crate::specs::Forms::jmpl_of))]
fn jmpl(alloc: Global, target: &Operand<'_>, to: &Operand<'_>) -> Read<Instruction>
    ensures { Gives (λ i. i) result (jmpl_of (operand_view target.now) (operand_view to.now)) }
{
    let rd = register_in(to).ok_or(SYNTAX)?;
    with_place(alloc, Operation::Jmpl, rd, target)
}

/// `call` with a number behind it, which is ignored.
#[tactic(auto, unfolding(crate::specs::Forms::call_with_number))]
fn call_with_number(alloc: Global, target: &Operand<'_>, number: &Operand<'_>) -> Read<Instruction>
    ensures { Gives (λ i. i) result (call_with_number (operand_view target.now) (operand_view number.now)) }
{
    number_in(number).ok_or(SYNTAX)?;
    call(alloc, target)
}

#[tactic(auto, unfolding(crate::specs::Forms::not_of))]
fn not<'a>(op: Operation, from: &Operand<'a>, to: &Operand<'a>) -> Read<Instruction>
    ensures { Gives (λ i. i) result (not_of op (operand_view from.now) (operand_view to.now)) }
{
    let rs1 = register_in(from).ok_or(SYNTAX)?;
    let rd = register_in(to).ok_or(SYNTAX)?;
    Ok(of_registers(op, rd, rs1, Register::G0))
}

#[tactic(auto, unfolding(crate::specs::Forms::negate_of))]
fn negate<'a>(op: Operation, from: &Operand<'a>, to: &Operand<'a>) -> Read<Instruction>
    ensures { Gives (λ i. i) result (negate_of op (operand_view from.now) (operand_view to.now)) }
{
    let rs2 = register_in(from).ok_or(SYNTAX)?;
    let rd = register_in(to).ok_or(SYNTAX)?;
    Ok(of_registers(op, rd, Register::G0, rs2))
}

/// `inc` and `dec` by a value.
#[tactic(auto, unfolding(crate::specs::Forms::step_of))]
fn step(alloc: Global, op: Operation, by: &Operand<'_>, to: &Operand<'_>) -> Read<Instruction>
    ensures { Gives (λ i. i) result (step_of op (operand_view by.now) (operand_view to.now)) }
{
    let rd = register_in(to).ok_or(SYNTAX)?;
    let by = imm_in(by).ok_or(SYNTAX)?;
    format3(alloc, op, rd, rd, RegOrImmRef::Immediate(by))
}

/// `cmp` and `btst`: a register, and what it is compared with.
#[tactic(auto, unfolding(crate::specs::Forms::compared))]
fn compared(
    alloc: Global,
    op: Operation,
    first: &Operand<'_>,
    second: &Operand<'_>,
) -> Read<Instruction>
    ensures { Gives (λ i. i) result (compared op (operand_view first.now) (operand_view second.now)) }
{
    let rs1 = register_in(first).ok_or(SYNTAX)?;
    with_source(alloc, op, Register::G0, rs1, second)
}

/// `bset`, `bclr` and `btog`.
#[tactic(auto, unfolding(crate::specs::Forms::update_of))]
fn update(alloc: Global, op: Operation, by: &Operand<'_>, to: &Operand<'_>) -> Read<Instruction>
    ensures { Gives (λ i. i) result (update_of op (operand_view by.now) (operand_view to.now)) }
{
    let rd = register_in(to).ok_or(SYNTAX)?;
    with_source(alloc, op, rd, rd, by)
}

#[tactic(auto, unfolding(crate::specs::Forms::two_of))]
fn two<'t, 'a>(
    alloc: Global,
    shape: Shape,
    first: &'t Operand<'a>,
    second: &'t Operand<'a>,
) -> Read<Instruction>
    ensures { Gives (λ i. i) result (two_of shape (operand_view first.now) (operand_view second.now)) }
{
    match shape {
        Shape::Load(op) => access(alloc, op, second, first),
        Shape::Store(op) => access(alloc, op, first, second),
        Shape::LoadAlternate(op) => alternate_access(op, second, first),
        Shape::StoreAlternate(op) => alternate_access(op, first, second),
        Shape::Sethi => sethi(alloc, first, second),
        Shape::Read => from_state(first, second),
        Shape::Jmpl => jmpl(alloc, first, second),
        Shape::Call => call_with_number(alloc, first, second),
        Shape::Not(op) => not(op, first, second),
        Shape::Negate(op) => negate(op, first, second),
        Shape::Step(op) => step(alloc, op, first, second),
        Shape::Compare(op) => compared(alloc, op, first, second),
        Shape::TestBits(op) => compared(alloc, op, second, first),
        Shape::Update(op) => update(alloc, op, first, second),
        Shape::Mov => mov(alloc, first, second),
        _ => Err(SYNTAX),
    }
}

#[tactic(auto, unfolding(crate::specs::Forms::three_fields))]
fn three_fields(
    alloc: Global,
    op: Operation,
    first: &Operand<'_>,
    second: &Operand<'_>,
    to: &Operand<'_>,
) -> Read<Instruction>
    ensures { Gives (λ i. i) result (three_fields op (operand_view first.now) (operand_view second.now) (operand_view to.now)) }
{
    let rs1 = register_in(first).ok_or(SYNTAX)?;
    let rd = register_in(to).ok_or(SYNTAX)?;
    with_source(alloc, op, rd, rs1, second)
}

#[tactic(auto, unfolding(crate::specs::Forms::shift_of))]
fn shift(
    alloc: Global,
    op: ShiftOp,
    first: &Operand<'_>,
    second: &Operand<'_>,
    to: &Operand<'_>,
) -> Read<Instruction>
    ensures { Gives (λ i. i) result (shift_of op (operand_view first.now) (operand_view second.now) (operand_view to.now)) }
{
    let rs1 = register_in(first).ok_or(SYNTAX)?;
    let rd = register_in(to).ok_or(SYNTAX)?;
    let count = count_in(second).ok_or(SYNTAX)?;
    format3(alloc, Operation::Shift(op), rd, rs1, count)
}

#[tactic(auto, unfolding(crate::specs::Forms::write_of))]
fn write_state(
    alloc: Global,
    first: &Operand<'_>,
    second: &Operand<'_>,
    to: &Operand<'_>,
) -> Read<Instruction>
    ensures { Gives (λ i. i) result (write_of (operand_view first.now) (operand_view second.now) (operand_view to.now)) }
{
    let rs1 = register_in(first).ok_or(SYNTAX)?;
    let state = state_in(to).ok_or(SYNTAX)?;
    with_source(alloc, Operation::Write(state), Register::G0, rs1, second)
}

#[tactic(auto, unfolding(crate::specs::Forms::three_of))]
fn three(
    alloc: Global,
    shape: Shape,
    first: &Operand<'_>,
    second: &Operand<'_>,
    third: &Operand<'_>,
) -> Read<Instruction>
    ensures { Gives (λ i. i) result (three_of shape (operand_view first.now) (operand_view second.now) (operand_view third.now)) }
{
    match shape {
        Shape::Three(op) => three_fields(alloc, op, first, second, third),
        Shape::Shift(op) => shift(alloc, op, first, second, third),
        Shape::Write => write_state(alloc, first, second, third),
        _ => Err(SYNTAX),
    }
}

/// The instruction of a shape with these operands.
#[tactic(auto, unfolding(crate::specs::Forms::instruction_of))]
pub fn instruction(alloc: Global, shape: Shape, operands: &[Operand<'_>]) -> Read<Instruction>
    ensures { Gives (λ i. i) result (instruction_of shape (operand_views operands.now)) }
{
    match operands {
        [] => none(shape),
        [a] => one(alloc, shape, a),
        [a, c] => two(alloc, shape, a, c),
        [a, c, d] => three(alloc, shape, a, c, d),
        _ => Err(SYNTAX),
    }
}
