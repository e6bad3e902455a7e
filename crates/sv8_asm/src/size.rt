//! How far a statement moves the location.

ghost use Rattle.std.specs.Prelude.{◌≡◌, ℤ, pos, negsuc, ◌≤ℤ◌, ◌^◌, ◌-◌, ◌*◌, ◌≤◌, ◌<◌, IfSome};
ghost use Rattle.sv8_asm.specs.Size.{aligned, plain, fits_simm13, has_no_low_bits, set_count, bytes_of_width, is_alignment, motion_size, text_size, size};

use crate::value::word_of_number;
use sv8_statements::{Expr, LineFault, Motion, Statement, Stmt, Width};

/// So many bytes, at a multiple of a number.
fn aligned(unit: u32, at: u32, bytes: u32) -> Result<u32, LineFault>
    requires { 0 < unit }
    ensures { result ≡ aligned unit at bytes }
{
    if at % unit == 0 {
        Ok(bytes)
    } else {
        Err(LineFault::BadAlignment)
    }
}

/// The number that an expression without a name is.
pub(crate) fn plain(expr: &Expr) -> Option<i128>
    ensures value { result ≡ plain expr.now }
    ensures low { IfSome result (λ v. negsuc (2 ^ 32) ≤ℤ v) }
    ensures high { IfSome result (λ v. v ≤ℤ pos (2 ^ 32)) }
{
    match expr {
        Expr::Number(n) => Some(i128::from(*n)),
        Expr::Minus(n) => Some(-i128::from(*n)),
        Expr::Name(_) | Expr::Plus(..) | Expr::Less(..) => None,
    }
}

/// The number that an expression without a name is, as a value that a name may have.
pub fn constant(expr: &Expr) -> Option<i64>
    ensures { result ≡ plain expr.now }
{
    match expr {
        Expr::Number(n) => Some(i64::from(*n)),
        Expr::Minus(n) => Some(-i64::from(*n)),
        Expr::Name(_) | Expr::Plus(..) | Expr::Less(..) => None,
    }
}

/// Whether the field simm13 holds a number.
pub(crate) fn fits_simm13(number: i128) -> bool
    ensures { result ≡ fits_simm13 number }
{
    !(number < -4096 || 4095 < number)
}

/// Whether the low 10 bits of a number are 0.
pub(crate) fn has_no_low_bits(number: i128) -> bool
    requires low { negsuc (2 ^ 33) ≤ℤ number }
    requires high { number ≤ℤ pos (2 ^ 33) }
    ensures { result ≡ has_no_low_bits number }
{
    word_of_number(number) % 1024 == 0
}

/// How many instructions `set` of a value is.
fn set_count(value: &Expr) -> u32
    ensures value { result ≡ set_count (plain value.now) }
    ensures few { result ≤ 2 }
{
    match plain(value) {
        None => 2,
        Some(number) => {
            if fits_simm13(number) || has_no_low_bits(number) {
                1
            } else {
                2
            }
        }
    }
}

/// The bytes of a value in memory.
fn bytes_of_width(width: Width) -> u32
    ensures value { result ≡ bytes_of_width width }
    ensures some { 1 ≤ result }
    ensures few { result ≤ 4 }
{
    match width {
        Width::Byte => 1,
        Width::Half => 2,
        Width::Word => 4,
    }
}

/// Whether a number is a power of two from 1 to 4096, which are the numbers that divide 4096.
fn is_alignment(number: u32) -> bool
    ensures value { result ≡ is_alignment number }
{
    0 < number && 4096 % number == 0
}

/// How far `.org`, `.skip` and `.align` move the location.
fn motion_size(motion: Motion, number: u32, at: u32) -> Result<u32, LineFault>
    ensures { result ≡ motion_size motion number at }
{
    match motion {
        Motion::Org => {
            if number < at {
                Err(LineFault::OrgBackwards)
            } else {
                Ok(number - at)
            }
        }
        Motion::Skip => Ok(number),
        Motion::Align => {
            if is_alignment(number) {
                Ok((number - at % number) % number)
            } else {
                Err(LineFault::OutOfRange)
            }
        }
    }
}

/// A text of so many bytes.
fn text_size(count: usize) -> Result<u32, LineFault>
    ensures { result ≡ text_size count }
{
    if count < 0x1_0000_0000 {
        Ok(count as u32)
    } else {
        Err(LineFault::ImageTooLarge)
    }
}

/// The number of bytes from the location `at` to the one behind the statement: 4 for an instruction, 4 or 8 for `set`, the size of
/// each of its values for data, the bytes of a text, and as far as a directive moves the location. 0 where the line has no statement.
///
/// # Errors
///
/// `BadAlignment` for an instruction or a value that does not stand at a multiple of its size; `OrgBackwards` where `.org` would go
/// back; `OutOfRange` where `.align` has no power of two from 1 to 4096;
/// `ImageTooLarge` for a text that no location could be behind.
#[tactic(auto, unfolding(crate::specs::Size::size))]
pub fn size_of(stmt: &Stmt, at: u32) -> Result<u32, LineFault>
    ensures { result ≡ size stmt.now at }
{
    match &stmt.statement {
        None | Some(Statement::Equ { .. }) => Ok(0),
        Some(Statement::Instruction(_)) => aligned(4, at, 4),
        Some(Statement::Set { value, .. }) => aligned(4, at, 4 * set_count(value)),
        Some(Statement::Data { width, values }) => {
            let unit = bytes_of_width(*width);
            aligned(unit, at, unit * values.as_slice().len() as u32)
        }
        Some(Statement::Ascii(text)) => text_size(text.as_bytes().len()),
        Some(Statement::Motion { motion, number }) => motion_size(*motion, *number, at),
    }
}
