//! One function for each family of instructions whose forms are signed or not, or trap or not.

ghost use Rattle.std.specs.Prelude.{◌≡◌};
ghost use Rattle.sv8_alu.specs.Arithmetic.{step_of};
ghost use Rattle.sv8_alu.specs.Families.{unless_overflow, tagged_answer, product_as, quotient_as};

use crate::addition::{tagged_add, tagged_sub};
use crate::division::{signed_divide, unsigned_divide};
use crate::multiplication::{multiply_step, signed_multiply, unsigned_multiply};
use crate::{Answer, Icc, Product, Signedness, Step, TaggedForm};

/// An answer, unless its V tells that a form with TV traps.
#[inline(always)]
fn unless_overflow(answer: Answer) -> Option<Answer>
    ensures { result ≡ unless_overflow answer }
{
    if answer.icc.v { None } else { Some(answer) }
}

/// The sum or the difference of two tagged words. Appendix B.14 and B.16.
///
/// None where the instruction traps with tag_overflow: in the forms with TV, where V would be set.
pub fn tagged(form: TaggedForm, x: u32, y: u32) -> Option<Answer>
    ensures { result ≡ tagged_answer form x y }
{
    match form {
        TaggedForm::Add => Some(tagged_add(x, y)),
        TaggedForm::AddTrapping => unless_overflow(tagged_add(x, y)),
        TaggedForm::Sub => Some(tagged_sub(x, y)),
        TaggedForm::SubTrapping => unless_overflow(tagged_sub(x, y)),
    }
}

/// The product of two words, as UMUL and UMULcc or as SMUL and SMULcc. Appendix B.18.
pub fn mul(signedness: Signedness, x: u32, y: u32) -> Product
    ensures { result ≡ product_as signedness x y }
{
    match signedness {
        Signedness::Unsigned => unsigned_multiply(x, y),
        Signedness::Signed => signed_multiply(x, y),
    }
}

/// One multiply step on r[rs1], the operand, and Y and the condition codes before it. Appendix B.17.
pub fn mulscc(x: u32, operand: u32, y: u32, icc: Icc) -> Step
    ensures { result ≡ step_of x operand y icc }
{
    multiply_step(x, operand, y, icc)
}

/// The 64-bit number of the words `high` and `low` divided by `divisor`, as UDIV and UDIVcc or as SDIV and SDIVcc.
/// Appendix B.19.
///
/// `high` is Y and `low` is r[rs1]. None where the instruction traps with division_by_zero: where the divisor is 0.
pub fn divide(signedness: Signedness, high: u32, low: u32, divisor: u32) -> Option<Answer>
    ensures { result ≡ quotient_as signedness high low divisor }
{
    match signedness {
        Signedness::Unsigned => unsigned_divide(high, low, divisor),
        Signedness::Signed => signed_divide(high, low, divisor),
    }
}
