//! Words as numbers.

ghost use Rattle.std.specs.Prelude.{◌≡◌};
ghost use Rattle.sv8_model.specs.Words.{low_word};

/// The low 32 bits of a number.
#[inline(always)]
pub fn low_word(number: u64) -> u32
    ensures { result ≡ low_word number }
{
    (number % 0x1_0000_0000) as u32
}
