//! Words as signed numbers, and the condition codes of a word.

ghost use Rattle.std.specs.Prelude.{◌≡◌, ◌≤◌, pos, negsuc, ◌≤ℤ◌};
ghost use Rattle.sv8_model.specs.Words.{signed, digit};
ghost use Rattle.sv8_alu.specs.Arithmetic.{is_outside, icc_of, plain_icc};

use crate::{Answer, Icc};

/// The number of words, 2^32.
pub(crate) const WORDS: u64 = 1 << 32;

/// The number that the word stands for in two's complement.
#[tactic(auto, unfolding(sv8_model::specs::Words::signed))]
#[inline(always)]
pub(crate) fn signed_word(x: u32) -> i64
    ensures value { result ≡ signed x 32 }
    ensures low { negsuc 2147483647 ≤ℤ result }
    ensures high { result ≤ℤ pos 2147483647 }
{
    if x < 0x8000_0000 {
        x as i64
    } else {
        x as i64 - 0x1_0000_0000
    }
}

/// A condition as one bit.
#[inline(always)]
pub(crate) fn bit_of(b: bool) -> u32
    ensures value { result ≡ digit b }
    ensures small { result ≤ 1 }
{
    if b { 1 } else { 0 }
}

/// Whether a number is outside the range of signed words.
#[inline(always)]
pub(crate) fn overflows(z: i64) -> bool
    ensures { result ≡ is_outside z }
{
    z < -0x8000_0000 || 0x7FFF_FFFF < z
}

/// The condition codes of a value.
#[inline(always)]
pub(crate) fn codes(value: u32, overflow: bool, carry: bool) -> Icc
    ensures { result ≡ icc_of value overflow carry }
{
    Icc {
        n: 0x8000_0000 <= value,
        z: value == 0,
        v: overflow,
        c: carry,
    }
}

/// A value with V and C 0.
#[inline(always)]
pub(crate) fn plain(value: u32) -> Answer
    ensures { result ≡ record { value = value; icc = plain_icc value } }
{
    Answer {
        value,
        icc: codes(value, false, false),
    }
}
