//! Instructions of format 3 (Appendix B), from what stands for their second source.

ghost use Rattle.std.specs.Prelude.{◌≡◌, Some};
ghost use Rattle.sv8_statements.specs.declared.statement.Instruction.TheVariants as instruction;
ghost use Rattle.sv8_statements.specs.Operand.{source_view, operand_view};
ghost use Rattle.sv8_statements.specs.Outcome.{Gives};
ghost use Rattle.sv8_forms.specs.Forms.{of_registers, small, with_source, with_place, with_bracketed};

use crate::take::{bracketed_in, place_in, source_in};
use std::alloc::Global;
use sv8_statements::{
    Expr, Imm, Instruction, Operand, Operation, Read, RegOrImm, RegOrImmRef, Register, SYNTAX,
};

/// An instruction with these registers and this second source.
pub(crate) fn format3(
    alloc: Global,
    op: Operation,
    rd: Register,
    rs1: Register,
    source: RegOrImmRef<'_>,
) -> Read<Instruction>
    ensures { Gives (λ i. i) result (Some (instruction.Format3 op rd rs1 (source_view source.entry))) }
{
    let source = source.owned(alloc)?;
    Ok(Instruction::Format3 {
        op,
        rd,
        rs1,
        source,
    })
}

/// An instruction with the second source that an operand is.
#[tactic(auto, unfolding(crate::specs::Forms::with_source))]
pub(crate) fn with_source(
    alloc: Global,
    op: Operation,
    rd: Register,
    rs1: Register,
    operand: &Operand<'_>,
) -> Read<Instruction>
    ensures { Gives (λ i. i) result (with_source op rd rs1 (operand_view operand.now)) }
{
    let source = source_in(operand).ok_or(SYNTAX)?;
    format3(alloc, op, rd, rs1, source)
}

/// An instruction with the address that an operand is, without brackets.
#[tactic(auto, unfolding(crate::specs::Forms::with_place))]
pub(crate) fn with_place(
    alloc: Global,
    op: Operation,
    rd: Register,
    place: &Operand<'_>,
) -> Read<Instruction>
    ensures { Gives (λ i. i) result (with_place op rd (operand_view place.now)) }
{
    let (rs1, source) = place_in(place).ok_or(SYNTAX)?;
    format3(alloc, op, rd, rs1, source)
}

/// The same with an address in brackets.
#[tactic(auto, unfolding(crate::specs::Forms::with_bracketed))]
pub(crate) fn with_bracketed(
    alloc: Global,
    op: Operation,
    rd: Register,
    place: &Operand<'_>,
) -> Read<Instruction>
    ensures { Gives (λ i. i) result (with_bracketed op rd (operand_view place.now)) }
{
    let (base, source) = bracketed_in(place).ok_or(SYNTAX)?;
    format3(alloc, op, rd, base, source)
}

/// An instruction of registers alone.
pub(crate) fn of_registers(op: Operation, rd: Register, rs1: Register, rs2: Register) -> Instruction
    ensures { result ≡ of_registers op rd rs1 rs2 }
{
    Instruction::Format3 {
        op,
        rd,
        rs1,
        source: RegOrImm::Register(rs2),
    }
}

/// An instruction whose second source is a small number.
pub(crate) fn of_number(op: Operation, rd: Register, rs1: Register, number: u32) -> Instruction
    ensures { result ≡ instruction.Format3 op rd rs1 (small number) }
{
    Instruction::Format3 {
        op,
        rd,
        rs1,
        source: RegOrImm::Immediate(Imm::Value(Expr::Number(number))),
    }
}
