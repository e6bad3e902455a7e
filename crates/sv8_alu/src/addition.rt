//! Sums and differences, plain and tagged.

ghost use Rattle.std.specs.Prelude.{◌≡◌, ◌≤◌, pos, ◌+ℤ◌, ◌-ℤ◌};
ghost use Rattle.sv8_model.specs.Words.{signed};
ghost use Rattle.sv8_alu.specs.Arithmetic.{sum_of, difference_of, with_tags, tagged_sum_of, tagged_difference_of};

use crate::words::{WORDS, bit_of, codes, overflows, signed_word};
use crate::{Answer, Icc};

#[inline(always)]
fn signed_sum(x: u32, y: u32, c: u32) -> i64
    requires { c ≤ 1 }
    ensures { result ≡ signed x 32 +ℤ signed y 32 +ℤ pos c }
{
    signed_word(x) + signed_word(y) + c as i64
}

#[inline(always)]
fn signed_difference(x: u32, y: u32, c: u32) -> i64
    requires { c ≤ 1 }
    ensures { result ≡ signed x 32 -ℤ signed y 32 -ℤ pos c }
{
    signed_word(x) - signed_word(y) - c as i64
}

/// The sum of two words, and of the carry: ADD and ADDcc with `carry` false, ADDX and ADDXcc with the C of the
/// condition codes. Appendix B.13.
#[inline(always)]
pub fn add(x: u32, y: u32, carry: bool) -> Answer
    ensures { result ≡ sum_of x y carry }
{
    let c = bit_of(carry);
    let sum = x as u64 + y as u64 + c as u64;
    let value = (sum % WORDS) as u32;
    let icc = codes(value, overflows(signed_sum(x, y, c)), WORDS <= sum);
    Answer { value, icc }
}

/// A word less another, and less the borrow: SUB and SUBcc with `carry` false, SUBX and SUBXcc with the C of the
/// condition codes. Appendix B.15.
#[inline(always)]
pub fn sub(x: u32, y: u32, carry: bool) -> Answer
    ensures { result ≡ difference_of x y carry }
{
    let c = bit_of(carry);
    let taken = y as u64 + c as u64;
    let value = ((x as u64 + (WORDS - taken)) % WORDS) as u32;
    let icc = codes(
        value,
        overflows(signed_difference(x, y, c)),
        (x as u64) < taken,
    );
    Answer { value, icc }
}

#[inline(always)]
fn with_tags(x: u32, y: u32, answer: Answer) -> Answer
    ensures { result ≡ with_tags x y answer }
{
    let v = answer.icc.v || x % 4 != 0 || y % 4 != 0;
    Answer {
        value: answer.value,
        icc: Icc { v, ..answer.icc },
    }
}

/// The sum of two tagged words, as TADDcc. Appendix B.14.
///
/// V tells whether TADDccTV traps with tag_overflow in place of writing the result.
#[inline]
pub fn tagged_add(x: u32, y: u32) -> Answer
    ensures { result ≡ tagged_sum_of x y }
{
    with_tags(x, y, add(x, y, false))
}

/// A tagged word less another, as TSUBcc. Appendix B.16.
///
/// V tells whether TSUBccTV traps with tag_overflow in place of writing the result.
#[inline]
pub fn tagged_sub(x: u32, y: u32) -> Answer
    ensures { result ≡ tagged_difference_of x y }
{
    with_tags(x, y, sub(x, y, false))
}
