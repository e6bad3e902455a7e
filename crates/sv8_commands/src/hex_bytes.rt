//! Bytes that stand as digits in a line.
ghost use Rattle.std.specs.Prelude.{true, ◌≡◌, ℕ, ◌+◌, ◌-◌, ◌*◌, ◌%◌, ◌<◌, List, length, take, Some, None};
ghost use Rattle.sv8_commands.specs.Words.{is_hex, hex_value, all_hex, bytes_in, is_bytes, bytes_of_word};

use crate::words::{hex_value, is_hex};
use arrayvec::ArrayVec;
use std::marker::Model;

/// How many bytes are read at most, one more than may come in at a step.
const READ: usize = 1_025;

/// One byte or more, each as two hexadecimal digits, as they stand in a line.
#[derive(Drop)]
pub struct HexBytes<'a> {
    digits: &'a [u8],
}

impl<'a> Model for HexBytes<'a> {
    ghost use Rattle.std.specs.Prelude.{List, ℕ, ◌≡◌, true};
    ghost use Rattle.sv8_commands.specs.Words.{bytes_in, is_bytes};

    ghost Value = { List ℕ };

    ghost view = { λ b. bytes_in b.digits.now };

    ghost invariant = { λ b. is_bytes b.digits.now ≡ true };
}

fn all_hex(word: &[u8]) -> bool
    ensures { result ≡ all_hex word.now }
{
    for b in word {
        if !is_hex(*b) {
            return false;
        }
    }
    true
}

fn is_bytes(word: &[u8]) -> bool
    ensures { result ≡ is_bytes word.now }
{
    !word.is_empty() && word.len() % 2 == 0 && all_hex(word)
}

/// The first 1,025 bytes that digits give.
fn first_bytes(digits: &[u8]) -> ArrayVec<u8, 1_025>
    requires { is_bytes digits.now ≡ true }
    ensures bytes { result.items ≡ take 1025 (bytes_in digits.now) }
    ensures some { 0 < length result.items }
{
    let mut bytes = ArrayVec::new();
    let mut rest = digits;
    while let [high, low, more @ ..] = rest {
        if bytes.len() == READ {
            return bytes;
        }
        bytes.push(hex_value(*high) * 16 + hex_value(*low));
        rest = more;
    }
    bytes
}

impl<'a> HexBytes<'a> {
    /// Reads a word, of an even number of digits.
    #[tactic(auto, unfolding(crate::specs::Words::bytes_of_word))]
    pub(crate) fn read(word: &'a [u8]) -> Option<HexBytes<'a>>
        ensures { result ≡ bytes_of_word word.now }
    {
        if is_bytes(word) {
            Some(HexBytes { digits: word })
        } else {
            None
        }
    }

    /// The first 1,025 bytes: more are too many whatever they are.
    pub fn first(&self) -> ArrayVec<u8, 1_025>
        ensures bytes { result.items ≡ take 1025 self.now }
        ensures some { 0 < length result.items }
    {
        first_bytes(self.digits)
    }
}
