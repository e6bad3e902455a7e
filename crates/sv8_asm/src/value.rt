//! Values of expressions. They are whole numbers, so a sum never wraps.

ghost use Rattle.std.specs.Prelude.{◌≡◌, ℤ, pos, negsuc, ◌≤ℤ◌, ◌<◌, ◌^◌, ◌-◌, IfOk, IfSome};
ghost use Rattle.sv8_model.specs.Words.{word_of_number, signed};
ghost use Rattle.sv8_asm.specs.Value.{value_of, within, word_of, whole_words, displacement, call_words, call_displacement, call_target};

use crate::symbols::Symbols;
use sv8_statements::{Expr, LineFault};

/// The value of an expression in a line, or none where its name has no value.
pub(crate) fn value(expr: &Expr, line: u32, names: &Symbols) -> Option<i128>
    ensures value { result ≡ value_of names.now line expr.now }
    ensures low { IfSome result (λ v. negsuc (2 ^ 64) ≤ℤ v) }
    ensures high { IfSome result (λ v. v ≤ℤ pos (2 ^ 64)) }
{
    match expr {
        Expr::Number(n) => Some(i128::from(*n)),
        Expr::Minus(n) => Some(-i128::from(*n)),
        Expr::Name(name) => Some(i128::from(names.get(name.as_bytes(), line)?)),
        Expr::Plus(name, n) => Some(i128::from(names.get(name.as_bytes(), line)?) + i128::from(*n)),
        Expr::Less(name, n) => Some(i128::from(names.get(name.as_bytes(), line)?) - i128::from(*n)),
    }
}

/// The value of an expression, where it is known and from `least` to `most`.
pub(crate) fn within(least: i128, most: i128, value: Option<i128>) -> Result<i128, LineFault>
    ensures value { result ≡ within least most value }
    ensures low { IfOk result (λ v. least ≤ℤ v) }
    ensures high { IfOk result (λ v. v ≤ℤ most) }
{
    match value {
        None => Err(LineFault::UnknownName),
        Some(value) => {
            if value < least || most < value {
                Err(LineFault::OutOfRange)
            } else {
                Ok(value)
            }
        }
    }
}

/// The word that stands for a number in two's complement.
pub(crate) fn word_of_number(number: i128) -> u32
    requires low { negsuc (2 ^ 33) ≤ℤ number }
    requires high { number ≤ℤ pos (2 ^ 33) }
    ensures { result ≡ word_of_number number }
{
    number.rem_euclid(0x1_0000_0000) as u32
}

/// The word of an expression whose value is from -2^31 to 2^32 - 1.
pub(crate) fn word(expr: &Expr, line: u32, names: &Symbols) -> Result<u32, LineFault>
    ensures { result ≡ word_of names.now line expr.now }
{
    match within(-0x8000_0000, 0xFFFF_FFFF, value(expr, line, names)) {
        Ok(value) => Ok(word_of_number(value)),
        Err(fault) => Err(fault),
    }
}

/// The words that a branch goes over so many bytes, as its field disp22 holds them (Appendix B.21).
fn whole_words(distance: i128) -> Result<i32, LineFault>
    ensures { result ≡ whole_words distance }
{
    if distance < -0x80_0000 || 0x7F_FFFC < distance {
        Err(LineFault::OutOfRange)
    } else if word_of_number(distance) % 4 != 0 {
        Err(LineFault::BadAlignment)
    } else {
        Ok((distance / 4) as i32)
    }
}

/// The words from a branch at the location `at` to its target.
pub(crate) fn displacement(
    at: u32,
    target: &Expr,
    line: u32,
    names: &Symbols,
) -> Result<i32, LineFault>
    ensures { result ≡ displacement at (value_of names.now line target.now) }
{
    match value(target, line, names) {
        None => Err(LineFault::UnknownName),
        Some(target) => whole_words(target - i128::from(at)),
    }
}

/// The words that CALL goes over so many bytes, as its field disp30 holds them (Appendix B.24).
fn call_words(distance: i128) -> Result<i32, LineFault>
    requires low { negsuc (2 ^ 33) ≤ℤ distance }
    requires high { distance ≤ℤ pos (2 ^ 33) }
    ensures { result ≡ call_words distance }
{
    let word = word_of_number(distance);
    if word % 4 != 0 {
        return Err(LineFault::BadAlignment);
    }
    Ok(signed_30(word / 4))
}

/// What 30 bits stand for in two's complement.
#[tactic(auto, unfolding(sv8_model::specs::Words::signed))]
fn signed_30(bits: u32) -> i32
    requires { bits < 2 ^ 30 }
    ensures { result ≡ signed bits 30 }
{
    if bits < 0x2000_0000 {
        bits as i32
    } else {
        bits as i32 - 0x4000_0000
    }
}

/// The words from a CALL at the location `at` to its target, modulo 2^30.
pub(crate) fn call_displacement(
    at: u32,
    target: &Expr,
    line: u32,
    names: &Symbols,
) -> Result<i32, LineFault>
    ensures { result ≡ call_displacement at (call_target names.now line target.now) }
{
    match within(-0x8000_0000, 0xFFFF_FFFF, value(target, line, names)) {
        Ok(target) => call_words(target - i128::from(at)),
        Err(fault) => Err(fault),
    }
}
