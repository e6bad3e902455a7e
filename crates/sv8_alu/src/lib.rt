//! The integer arithmetic and logic of SPARC V8, with its condition codes: The SPARC Architecture Manual,
//! Version 8, Appendix B.11 to B.19.
//!
//! Each function gives the result of the instruction and the condition codes that its form with `cc` sets.
//! The forms that leave the condition codes alone give the same result.
#![tactic(auto)]

mod addition;
mod bitwise;
mod division;
mod families;
mod multiplication;
mod words;

pub use addition::{add, sub, tagged_add, tagged_sub};
pub use bitwise::{logic, shift};
pub use division::{signed_divide, unsigned_divide};
pub use families::{divide, mul, mulscc, tagged};
pub use multiplication::{multiply_step, signed_multiply, unsigned_multiply};

/// The integer condition codes, the icc field of the PSR. Section 4.2.
#[derive(Clone, Copy)]
pub struct Icc {
    /// Bit 31 of the result.
    pub n: bool,
    /// The result is 0.
    pub z: bool,
    /// The result is out of range.
    pub v: bool,
    /// Carry or borrow.
    pub c: bool,
}

/// A result with its condition codes.
#[derive(Clone, Copy)]
pub struct Answer {
    pub value: u32,
    pub icc: Icc,
}

/// A 64-bit product: the high word, which goes to Y, and the low one with its condition codes. Appendix B.18.
#[derive(Clone, Copy)]
pub struct Product {
    pub high: u32,
    pub low: Answer,
}

/// What a multiply step gives: the sum, and the new Y. Appendix B.17.
#[derive(Clone, Copy)]
pub struct Step {
    pub sum: Answer,
    pub y: u32,
}

/// The tagged instructions. Appendix B.14 and B.16.
#[derive(Clone, Copy)]
pub enum TaggedForm {
    /// TADDcc.
    Add,
    /// TADDccTV, which traps where V would be set.
    AddTrapping,
    /// TSUBcc.
    Sub,
    /// TSUBccTV, which traps where V would be set.
    SubTrapping,
}

/// Whether words are multiplied and divided as signed numbers. Appendix B.18 and B.19.
#[derive(Clone, Copy)]
pub enum Signedness {
    Unsigned,
    /// In two's complement.
    Signed,
}

/// The shift instructions. Appendix B.12.
#[derive(Clone, Copy)]
pub enum ShiftForm {
    /// SLL: zeros come in from the right.
    LeftLogical,
    /// SRL: zeros come in from the left.
    RightLogical,
    /// SRA: copies of bit 31 come in from the left.
    RightArithmetic,
}

/// The logical instructions. Appendix B.11.
#[derive(Clone, Copy)]
pub enum Logical {
    And,
    /// AND with the second operand complemented.
    Andn,
    Or,
    /// OR with the second operand complemented.
    Orn,
    Xor,
    /// Exclusive OR with the second operand complemented.
    Xnor,
}
