//! The names that a statement uses.

ghost use Rattle.std.specs.Prelude.{◌≡◌};
ghost use Rattle.std.specs.List.{list_any, list_all};
ghost use Rattle.sv8_asm.specs.Uses.{source_exprs, upper_exprs, instruction_exprs, statement_exprs, exprs, has_name, uses, is_same, agree_on, agree};

use crate::symbols::Symbols;
use std::slice;
use sv8_statements::{Expr, Imm, Instruction, RegOrImm, Statement, Stmt, Upper};

/// The expressions of a second source.
fn source_exprs(source: &RegOrImm) -> &[Expr]
    ensures { result.now ≡ source_exprs source.now }
{
    match source {
        RegOrImm::Register(_) => &[],
        RegOrImm::Immediate(Imm::Value(expr) | Imm::Low(expr)) => slice::from_ref(expr),
    }
}

/// The expression of what SETHI takes.
fn upper_exprs(upper: &Upper) -> &[Expr]
    ensures { result.now ≡ upper_exprs upper.now }
{
    match upper {
        Upper::Value(expr) | Upper::High(expr) => slice::from_ref(expr),
    }
}

/// The expressions of an instruction.
fn instruction_exprs(instruction: &Instruction) -> &[Expr]
    ensures { result.now ≡ instruction_exprs instruction.now }
{
    match instruction {
        Instruction::Format3 { source, .. } => source_exprs(source),
        Instruction::Branch { target, .. } => slice::from_ref(target),
        Instruction::Call(target) => slice::from_ref(target),
        Instruction::Sethi { value, .. } => upper_exprs(value),
        Instruction::Alternate { .. } | Instruction::Unimp(_) => &[],
    }
}

/// The expressions of a statement.
fn statement_exprs(statement: &Statement) -> &[Expr]
    ensures { result.now ≡ statement_exprs statement.now }
{
    match statement {
        Statement::Instruction(instruction) => instruction_exprs(instruction),
        Statement::Set { value, .. } => slice::from_ref(value),
        Statement::Data { values, .. } => values.as_slice(),
        Statement::Equ { value, .. } => slice::from_ref(value),
        Statement::Ascii(_) | Statement::Motion { .. } => &[],
    }
}

/// The expressions of a line's statement, in order; none where it has no statement. Each has at most one name.
#[tactic(auto, unfolding(crate::specs::Uses::exprs))]
pub fn exprs(stmt: &Stmt) -> &[Expr]
    ensures { result.now ≡ exprs stmt.now }
{
    match &stmt.statement {
        None => &[],
        Some(statement) => statement_exprs(statement),
    }
}

/// Whether an expression has a name.
fn has_name(expr: &Expr, name: &[u8]) -> bool
    ensures { result ≡ has_name name.now expr.now }
{
    match expr {
        Expr::Name(own) | Expr::Plus(own, _) | Expr::Less(own, _) => own.as_bytes() == name,
        Expr::Number(_) | Expr::Minus(_) => false,
    }
}

/// Whether one of these expressions has a name.
fn any_has(exprs: &[Expr], name: &[u8]) -> bool
    ensures { result ≡ list_any (has_name name.now) exprs.now }
{
    let mut rest = exprs;
    while let [first, after @ ..] = rest {
        if has_name(first, name) {
            return true;
        }
        rest = after;
    }
    false
}

/// Whether a line's statement uses a name, or a reference to a local label as `1f` or `1b`: whether one of its expressions has it.
///
/// What a statement places at a location rests on the values of these names alone (law `used_names_decide` of
/// `sv8_assembler_laws`). Takes no memory.
#[tactic(auto, unfolding(crate::specs::Uses::uses))]
pub fn uses(stmt: &Stmt, name: &[u8]) -> bool
    ensures { result ≡ uses stmt.now name.now }
{
    any_has(exprs(stmt), name)
}

/// Whether two values, or two missing ones, are the same.
fn is_same(value: Option<i64>, other: Option<i64>) -> bool
    ensures { result ≡ is_same value other }
{
    match (value, other) {
        (None, None) => true,
        (Some(value), Some(other)) => value == other,
        _ => false,
    }
}

/// Whether the name of an expression, if it has one, has the same value in two tables.
fn agree_on(expr: &Expr, names: &Symbols, line: u32, others: &Symbols, other: u32) -> bool
    ensures { result ≡ agree_on names.now line others.now other expr.now }
{
    match expr {
        Expr::Name(name) | Expr::Plus(name, _) | Expr::Less(name, _) => is_same(
            names.get(name.as_bytes(), line),
            others.get(name.as_bytes(), other),
        ),
        Expr::Number(_) | Expr::Minus(_) => true,
    }
}

/// Whether the names of all these expressions have.
fn all_agree(exprs: &[Expr], names: &Symbols, line: u32, others: &Symbols, other: u32) -> bool
    ensures { result ≡ list_all (agree_on names.now line others.now other) exprs.now }
{
    let mut rest = exprs;
    while let [first, after @ ..] = rest {
        if !agree_on(first, names, line, others, other) {
            return false;
        }
        rest = after;
    }
    true
}

/// Whether every name that a line's statement uses stands for the same in two tables of names, each asked in a line of its own.
///
/// Where it does, the statement places the same bytes at one location, or has the same fault (law `agreeing_names_decide`). So
/// a statement is visited once, whatever number of names has changed. Takes no memory.
#[tactic(auto, unfolding(crate::specs::Uses::agree))]
pub fn agree(stmt: &Stmt, names: &Symbols, line: u32, others: &Symbols, other: u32) -> bool
    ensures { result ≡ agree stmt.now names.now line others.now other }
{
    all_agree(exprs(stmt), names, line, others, other)
}
