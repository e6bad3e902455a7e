//! Statements, each from its mnemonic's shape and its operands.

ghost use Rattle.std.specs.Prelude.{◌≡◌, ◌≤◌, length};
ghost use Rattle.sv8_statements.specs.Operand.{operand_views};
ghost use Rattle.sv8_statements.specs.Outcome.{Gives};
ghost use Rattle.sv8_forms.specs.Forms.{directive_in, form_of, annulled};

use crate::directive::directive;
use crate::instruction::instruction;
use crate::mnemonic::{Directive, Shape};
use std::alloc::Global;
use sv8_statements::{Operand, Read, Statement};

#[tactic(auto, unfolding(crate::specs::Forms::directive_in))]
fn directive_in(shape: Shape) -> Option<Directive>
    ensures { result ≡ directive_in shape }
{
    match shape {
        Shape::Directive(directive) => Some(directive),
        _ => None,
    }
}

/// The statement of a mnemonic of this shape with these operands.
#[tactic(auto, unfolding(crate::specs::Forms::form_of))]
pub fn form(alloc: Global, shape: Shape, operands: &[Operand<'_>]) -> Read<Statement>
    requires few { length operands.now ≤ 256 }
    ensures { Gives (λ s. s) result (form_of shape (operand_views operands.now)) }
{
    match directive_in(shape) {
        Some(found) => directive(alloc, found, operands),
        None => {
            let instruction = instruction(alloc, shape, operands)?;
            Ok(Statement::Instruction(instruction))
        }
    }
}

/// The shape that annuls, for a branch that does not.
#[tactic(auto, unfolding(crate::specs::Forms::annulled))]
pub fn annulled(shape: Shape) -> Option<Shape>
    ensures { result ≡ annulled shape }
{
    match shape {
        Shape::Branch { cond, annul: false } => Some(Shape::Branch { cond, annul: true }),
        _ => None,
    }
}
