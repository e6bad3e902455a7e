//! Directives and `set`, each from its operands.

ghost use Rattle.std.specs.Prelude.{◌≤◌, length};
ghost use Rattle.sv8_statements.specs.Operand.{operand_views};
ghost use Rattle.sv8_statements.specs.Outcome.{Gives};
ghost use Rattle.sv8_forms.specs.Taking.{exprs_in};
ghost use Rattle.sv8_forms.specs.Forms.{set_of, motion_of, data_of, ascii_of, equ_of, directive_of};

use crate::mnemonic::Directive;
use crate::take::{expr_in, name_in, number_in, register_in, signed_in};
use crate::text::text_in;
use std::alloc::Global;
use sv8_statements::{Exprs, Motion, Name, Operand, Read, SYNTAX, Statement, Width};

#[tactic(auto, unfolding(crate::specs::Forms::set_of))]
fn set(alloc: Global, operands: &[Operand<'_>]) -> Read<Statement>
    ensures { Gives (λ s. s) result (set_of (operand_views operands.now)) }
{
    let [a, d] = operands else {
        return Err(SYNTAX);
    };
    let rd = register_in(d).ok_or(SYNTAX)?;
    let value = expr_in(a).ok_or(SYNTAX)?.owned(alloc)?;
    Ok(Statement::Set { value, rd })
}

#[tactic(auto, unfolding(crate::specs::Forms::motion_of))]
fn motion(motion: Motion, operands: &[Operand<'_>]) -> Read<Statement>
    ensures { Gives (λ s. s) result (motion_of motion (operand_views operands.now)) }
{
    let [a] = operands else {
        return Err(SYNTAX);
    };
    let number = number_in(a).ok_or(SYNTAX)?;
    Ok(Statement::Motion { motion, number })
}

#[tactic(auto, unfolding(crate::specs::Taking::exprs_in))]
fn exprs(alloc: Global, operands: &[Operand<'_>]) -> Read<Exprs>
    requires some { 1 ≤ length operands.now }
    requires few { length operands.now ≤ 256 }
    ensures { Gives (λ es. es) result (exprs_in (operand_views operands.now)) }
{
    let mut items = Vec::new(alloc);
    for operand in operands {
        let value = expr_in(operand).ok_or(SYNTAX)?;
        items.push(value.owned(alloc)?)?;
    }
    Ok(Exprs::new(items))
}

#[tactic(auto, unfolding(crate::specs::Forms::data_of))]
fn data(alloc: Global, width: Width, operands: &[Operand<'_>]) -> Read<Statement>
    requires few { length operands.now ≤ 256 }
    ensures { Gives (λ s. s) result (data_of width (operand_views operands.now)) }
{
    if operands.is_empty() {
        return Err(SYNTAX);
    }
    let values = exprs(alloc, operands)?;
    Ok(Statement::Data { width, values })
}

#[tactic(auto, unfolding(crate::specs::Forms::ascii_of))]
fn ascii(alloc: Global, operands: &[Operand<'_>]) -> Read<Statement>
    ensures { Gives (λ s. s) result (ascii_of (operand_views operands.now)) }
{
    let [a] = operands else {
        return Err(SYNTAX);
    };
    let text = text_in(alloc, a)?;
    Ok(Statement::Ascii(text))
}

#[tactic(auto, unfolding(crate::specs::Forms::equ_of))]
fn equ(alloc: Global, operands: &[Operand<'_>]) -> Read<Statement>
    ensures { Gives (λ s. s) result (equ_of (operand_views operands.now)) }
{
    let [a, b] = operands else {
        return Err(SYNTAX);
    };
    let value = signed_in(b).ok_or(SYNTAX)?;
    let name = name_in(a).ok_or(SYNTAX)?;
    Ok(Statement::Equ {
        name: Name::new(alloc, name)?,
        value: value.owned(alloc)?,
    })
}

/// The statement of a directive with these operands.
#[tactic(auto, unfolding(crate::specs::Forms::directive_of))]
pub fn directive(alloc: Global, directive: Directive, operands: &[Operand<'_>]) -> Read<Statement>
    requires few { length operands.now ≤ 256 }
    ensures { Gives (λ s. s) result (directive_of directive (operand_views operands.now)) }
{
    match directive {
        Directive::Set => set(alloc, operands),
        Directive::Motion(m) => motion(m, operands),
        Directive::Data(width) => data(alloc, width, operands),
        Directive::Ascii => ascii(alloc, operands),
        Directive::Equ => equ(alloc, operands),
    }
}
