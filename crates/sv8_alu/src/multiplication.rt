//! Products and the multiply step.

ghost use Rattle.std.specs.Prelude.{◌≡◌, pos, negsuc, ◌≤ℤ◌};
ghost use lib.IntN.{◌*ℤ◌};
ghost use Rattle.sv8_model.specs.Words.{low_bits};
ghost use Rattle.sv8_alu.specs.Arithmetic.{product_of, signed_product_of, shifted_operand, chosen_operand, step_of};

use crate::addition::add;
use crate::words::{WORDS, plain, signed_word};
use crate::{Icc, Product, Step};

/// The product of two unsigned words, as UMUL and UMULcc. Appendix B.18.
#[inline]
pub fn unsigned_multiply(x: u32, y: u32) -> Product
    ensures { result ≡ product_of x y }
{
    let product = x as u64 * y as u64;
    Product {
        high: (product / WORDS) as u32,
        low: plain((product % WORDS) as u32),
    }
}

/// The product of two signed words, as SMUL and SMULcc. Appendix B.18.
#[inline]
pub fn signed_multiply(x: u32, y: u32) -> Product
    ensures { result ≡ signed_product_of x y }
{
    let product = double_of_product(signed_word(x), signed_word(y));
    Product {
        high: (product / WORDS) as u32,
        low: plain((product % WORDS) as u32),
    }
}

/// The 64 bits that stand for a product.
#[inline(always)]
fn double_of_product(x: i64, y: i64) -> u64
    requires x_low { negsuc 2147483647 ≤ℤ x }
    requires x_high { x ≤ℤ pos 2147483647 }
    requires y_low { negsuc 2147483647 ≤ℤ y }
    requires y_high { y ≤ℤ pos 2147483647 }
    ensures { result ≡ low_bits (x *ℤ y) 64 }
{
    (x * y).cast_unsigned()
}

/// The first operand of a multiply step.
#[inline(always)]
fn first_operand(x: u32, icc: Icc) -> u32
    ensures { result ≡ shifted_operand x icc }
{
    if icc.n != icc.v {
        0x8000_0000 + x / 2
    } else {
        x / 2
    }
}

/// The second operand of a multiply step.
#[inline(always)]
fn second_operand(y: u32, operand: u32) -> u32
    ensures { result ≡ chosen_operand y operand }
{
    if y % 2 == 0 { 0 } else { operand }
}

/// One multiply step, as MULScc, on r[rs1], the operand, and Y and the condition codes before it.
/// Appendix B.17.
#[inline]
pub fn multiply_step(x: u32, operand: u32, y: u32, icc: Icc) -> Step
    ensures { result ≡ step_of x operand y icc }
{
    Step {
        sum: add(first_operand(x, icc), second_operand(y, operand), false),
        y: x % 2 * 0x8000_0000 + y / 2,
    }
}
