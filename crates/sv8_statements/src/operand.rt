//! Operands: what may stand between two commas. Their names lie in the line.

ghost use Rattle.std.specs.Prelude.{◌≡◌, IfOk};
ghost use Rattle.sv8_statements.specs.Operand.{expr_view, imm_view, source_view};

use crate::register::Register;
use crate::value::{Expr, Imm, Name, RegOrImm};
use std::alloc::{AllocError, Global};
use sv8_isa::StateRegister;

/// An expression.
#[derive(Clone, Copy)]
pub enum ExprRef<'a> {
    Number(u32),
    Minus(u32),
    Name(&'a [u8]),
    Plus(&'a [u8], u32),
    Less(&'a [u8], u32),
}

impl<'a> ExprRef<'a> {
    /// The expression with a name of its own.
    ///
    /// # Errors
    ///
    /// `AllocError` where memory for the name cannot be had.
    pub fn owned(self, alloc: Global) -> Result<Expr, AllocError>
        ensures { IfOk result (λ e. e ≡ expr_view self.entry) }
    {
        let value = match self {
            ExprRef::Number(n) => Expr::Number(n),
            ExprRef::Minus(n) => Expr::Minus(n),
            ExprRef::Name(w) => Expr::Name(Name::new(alloc, w)?),
            ExprRef::Plus(w, n) => Expr::Plus(Name::new(alloc, w)?, n),
            ExprRef::Less(w, n) => Expr::Less(Name::new(alloc, w)?, n),
        };
        Ok(value)
    }
}

/// An expression, or `%lo(..)`.
#[derive(Clone, Copy)]
pub enum ImmRef<'a> {
    Value(ExprRef<'a>),
    Low(ExprRef<'a>),
}

impl<'a> ImmRef<'a> {
    fn owned(self, alloc: Global) -> Result<Imm, AllocError>
        ensures { IfOk result (λ i. i ≡ imm_view self.entry) }
    {
        match self {
            ImmRef::Value(e) => Ok(Imm::Value(e.owned(alloc)?)),
            ImmRef::Low(e) => Ok(Imm::Low(e.owned(alloc)?)),
        }
    }
}

/// A register or an immediate value.
#[derive(Clone, Copy)]
pub enum RegOrImmRef<'a> {
    Register(Register),
    Immediate(ImmRef<'a>),
}

impl<'a> RegOrImmRef<'a> {
    /// The same with a name of its own.
    ///
    /// # Errors
    ///
    /// `AllocError` where memory for the name cannot be had.
    pub fn owned(self, alloc: Global) -> Result<RegOrImm, AllocError>
        ensures { IfOk result (λ c. c ≡ source_view self.entry) }
    {
        match self {
            RegOrImmRef::Register(r) => Ok(RegOrImm::Register(r)),
            RegOrImmRef::Immediate(i) => Ok(RegOrImm::Immediate(i.owned(alloc)?)),
        }
    }
}

/// A register or a value, or both: whatever may stand for an address.
#[derive(Clone, Copy)]
pub enum Address<'a> {
    One(RegOrImmRef<'a>),
    Sum(Register, RegOrImmRef<'a>),
    Less(Register, u32),
    After(ImmRef<'a>, Register),
}

/// What stands between two commas. Each has a spelling of its own.
#[derive(Clone, Copy)]
pub enum Operand<'a> {
    /// A register, an expression, `%lo(..)`, or an address without brackets.
    Plain(Address<'a>),
    Bracketed(Address<'a>),
    /// An address in brackets and a number behind them.
    Alternate(Address<'a>, u32),
    /// `%hi(..)`
    High(ExprRef<'a>),
    State(StateRegister),
    /// A text between quotes, as it was written.
    Quoted(&'a [u8]),
}
