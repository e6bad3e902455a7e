//! Shifts and logical operations.

ghost use Rattle.std.specs.Prelude.{◌≡◌};
ghost use Rattle.sv8_alu.specs.Arithmetic.{shifted_by, logic_of, logical_answer};

use crate::words::plain;
use crate::{Answer, Logical, ShiftForm};

/// A word shifted by the number that the low five bits of the operand give. Appendix B.12.
///
/// A shift sets no condition codes.
#[inline(always)]
pub fn shift(form: ShiftForm, x: u32, operand: u32) -> u32
    ensures { result ≡ shifted_by form x operand }
{
    let count = operand % 32;
    match form {
        ShiftForm::LeftLogical => x << count,
        ShiftForm::RightLogical => x >> count,
        ShiftForm::RightArithmetic => {
            if x < 0x8000_0000 {
                x >> count
            } else {
                !(!x >> count)
            }
        }
    }
}

#[inline(always)]
fn joined(form: Logical, x: u32, y: u32) -> u32
    ensures { result ≡ logic_of form x y }
{
    match form {
        Logical::And => x & y,
        Logical::Andn => x & !y,
        Logical::Or => x | y,
        Logical::Orn => x | !y,
        Logical::Xor => x ^ y,
        Logical::Xnor => x ^ !y,
    }
}

/// A logical operation, bit by bit. Appendix B.11. V and C are 0.
#[inline(always)]
pub fn logic(form: Logical, x: u32, y: u32) -> Answer
    ensures { result ≡ logical_answer form x y }
{
    plain(joined(form, x, y))
}
