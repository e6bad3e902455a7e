//! Quotients of a double word by a word.

ghost use Rattle.std.specs.Prelude.{◌≡◌, ◌*◌, ◌+◌, ◌^◌, pos, negsuc, ◌≤ℤ◌, int_div};
ghost use Rattle.sv8_model.specs.Words.{signed, low_bits};
ghost use Rattle.sv8_alu.specs.Arithmetic.{is_outside, clamped, quotient_of, signed_quotient_of};

use crate::Answer;
use crate::words::{WORDS, codes, signed_word};

/// The 64-bit number of the words `high` and `low` divided by `divisor`, all unsigned, as UDIV and UDIVcc.
/// Appendix B.19.
///
/// `high` is Y and `low` is r[rs1]. None where the divisor is 0, so that the instruction traps with
/// division_by_zero. V tells that the quotient does not fit a word.
pub fn unsigned_divide(high: u32, low: u32, divisor: u32) -> Option<Answer>
    ensures { result ≡ quotient_of high low divisor }
{
    if divisor == 0 {
        return None;
    }
    let quotient = (high as u64 * WORDS + low as u64) / divisor as u64;
    let value = quotient.min(WORDS - 1) as u32;
    Some(Answer {
        value,
        icc: codes(value, WORDS <= quotient, false),
    })
}

/// The number that a double word stands for in two's complement.
#[tactic(auto, unfolding(sv8_model::specs::Words::signed))]
#[inline(always)]
fn signed_double(high: u32, low: u32) -> i128
    ensures value { result ≡ signed (high * 2 ^ 32 + low) 64 }
    ensures least { negsuc 9223372036854775807 ≤ℤ result }
    ensures most { result ≤ℤ pos 9223372036854775807 }
{
    let bits = high as u64 * WORDS + low as u64;
    if bits < 0x8000_0000_0000_0000 {
        bits as i128
    } else {
        bits as i128 - 0x1_0000_0000_0000_0000
    }
}

/// The signed word that is nearest to a number.
#[inline(always)]
fn nearest(z: i128) -> i64
    ensures value { result ≡ clamped z }
    ensures low { negsuc 2147483647 ≤ℤ result }
    ensures high { result ≤ℤ pos 2147483647 }
{
    if z < -0x8000_0000 {
        -0x8000_0000
    } else if 0x7FFF_FFFF < z {
        0x7FFF_FFFF
    } else {
        z as i64
    }
}

/// The word that stands for a number in two's complement.
#[inline(always)]
fn word(z: i64) -> u32
    requires low { negsuc 2147483647 ≤ℤ z }
    requires high { z ≤ℤ pos 2147483647 }
    ensures { result ≡ low_bits z 32 }
{
    if z < 0 {
        (z + 0x1_0000_0000) as u32
    } else {
        z as u32
    }
}

/// The quotient, rounded towards 0.
#[inline(always)]
fn truncated(x: i128, y: i64) -> i128
    requires least { negsuc 9223372036854775807 ≤ℤ x }
    requires most { x ≤ℤ pos 9223372036854775807 }
    requires nonzero { y ≡ pos 0 → ⊥ }
    ensures { result ≡ int_div x y }
{
    x / y as i128
}

/// Whether a number is outside the range of signed words.
#[inline(always)]
fn outside(z: i128) -> bool
    ensures { result ≡ is_outside z }
{
    z < -0x8000_0000 || 0x7FFF_FFFF < z
}

/// The 64-bit number of the words `high` and `low` divided by `divisor`, all signed, as SDIV and SDIVcc.
/// Appendix B.19.
///
/// `high` is Y and `low` is r[rs1]. None where the divisor is 0, so that the instruction traps with
/// division_by_zero. V tells that the quotient does not fit a signed word; the result is then the nearest one.
#[tactic(auto, unfolding(sv8_model::specs::Words::signed))]
pub fn signed_divide(high: u32, low: u32, divisor: u32) -> Option<Answer>
    ensures { result ≡ signed_quotient_of high low divisor }
{
    if divisor == 0 {
        return None;
    }
    let quotient = truncated(signed_double(high, low), signed_word(divisor));
    let value = word(nearest(quotient));
    let icc = codes(value, outside(quotient), false);
    Some(Answer { value, icc })
}
