//! What a line is cut into.

use sv8_isa::StateRegister;
use sv8_statements::Register;

/// A punctuation mark.
#[derive(Clone, Copy)]
pub enum Mark {
    Comma,
    Colon,
    Plus,
    Minus,
    OpenBracket,
    CloseBracket,
    OpenParen,
    CloseParen,
}

/// What begins with a percent sign.
#[derive(Clone, Copy)]
pub enum Percent {
    Register(Register),
    State(StateRegister),
    High,
    Low,
}

/// A token, whose text lies in the line.
#[derive(Clone, Copy)]
pub enum Token<'a> {
    /// A name, or a reference to a local label.
    Word(&'a [u8]),
    Number(u32),
    Percent(Percent),
    Mark(Mark),
    /// A text without its quotes, as it was written.
    Quoted(&'a [u8]),
    /// A local label, with its colon.
    Local(u8),
}
