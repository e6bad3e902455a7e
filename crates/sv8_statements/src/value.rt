//! Names, texts and the values that rest on names.

ghost use Rattle.std.specs.Prelude.{◌≡◌, ◌≤◌, ℕ, List, length, IfOk};

use crate::register::Register;
use std::alloc::{AllocError, Global};
use std::marker::Model;

/// A symbol's name: letters, digits, `_`, `.` and `$`, not a digit first. Case counts.
///
/// In an expression it may also be a reference to a local label: a digit and `f`, for the first line behind
/// this one that has the label, or a digit and `b`, for the last one up to this line.
#[derive(Drop)]
pub struct Name {
    bytes: Vec<u8>,
}

impl Model for Name {
    ghost Value = { List ℕ };

    ghost view = { λ n. n.bytes.items };
}

impl Name {
    /// A name of its own, of these bytes.
    ///
    /// # Errors
    ///
    /// `AllocError` where memory for them cannot be had.
    pub fn new(alloc: Global, bytes: &[u8]) -> Result<Self, AllocError>
        ensures { IfOk result (λ n. n ≡ bytes.now) }
    {
        Ok(Name {
            bytes: Vec::from_slice(alloc, bytes)?,
        })
    }

    /// The bytes of the name.
    pub fn as_bytes(&self) -> &[u8]
        ensures { result.now ≡ self.now }
    {
        &self.bytes
    }
}

/// The bytes of a text between quotes, with what its escapes stand for.
#[derive(Drop)]
pub struct Text {
    bytes: Vec<u8>,
}

impl Model for Text {
    ghost Value = { List ℕ };

    ghost view = { λ t. t.bytes.items };
}

impl Text {
    /// The text of these bytes.
    pub fn new(bytes: Vec<u8>) -> Self
        ensures { result ≡ bytes.items }
    {
        Text { bytes }
    }

    /// The bytes of the text.
    pub fn as_bytes(&self) -> &[u8]
        ensures { result.now ≡ self.now }
    {
        &self.bytes
    }
}

/// A value that is known once names are: a number or its negative, a name, or a name and a number
/// that is added to it or taken from it.
#[derive(Drop)]
pub enum Expr {
    Number(u32),
    Minus(u32),
    Name(Name),
    Plus(Name, u32),
    Less(Name, u32),
}

/// The expressions of one line: at least 1, and at most 256.
#[derive(Drop)]
pub struct Exprs {
    items: Vec<Expr>,
}

impl Model for Exprs {
    ghost use Rattle.std.specs.Prelude.{List, ◌≤◌, length as count_of};
    ghost use Rattle.sv8_statements.specs.declared.value.Expr.{Expr};

    ghost Value = { List Expr };

    ghost view = { λ e. e.items.items };

    ghost invariant = { λ e. (1 ≤ count_of e.items.items) × (count_of e.items.items ≤ 256) };
}

impl Exprs {
    /// These expressions.
    pub fn new(items: Vec<Expr>) -> Self
        requires some { 1 ≤ length items.items }
        requires few { length items.items ≤ 256 }
        ensures { result ≡ items.items }
    {
        Exprs { items }
    }

    /// The expressions in order.
    pub fn as_slice(&self) -> &[Expr]
        ensures items { result.now ≡ self.now }
        ensures some { 1 ≤ length self.now }
        ensures few { length self.now ≤ 256 }
    {
        &self.items
    }
}

/// A value that an instruction's word holds in its field simm13: an expression from -4096 to 4095, or
/// `%lo(..)`, the low 10 bits of one.
#[derive(Drop)]
pub enum Imm {
    Value(Expr),
    Low(Expr),
}

/// The second source of an instruction, `reg_or_imm` of Appendix A.
#[derive(Drop)]
pub enum RegOrImm {
    Register(Register),
    Immediate(Imm),
}

/// The value that SETHI takes (Appendix B.9): an expression below 2^22, or `%hi(..)`, all but the low
/// 10 bits of one.
#[derive(Drop)]
pub enum Upper {
    Value(Expr),
    High(Expr),
}
