//! Text in a buffer of a fixed size, which takes no memory.
ghost use Rattle.std.specs.Prelude.{◌≡◌, ℕ, ◌+◌, ◌-◌, ◌/◌, ◌%◌, ◌<◌, ◌≤◌, ◌++◌, [], List, length, decimal};
ghost use Rattle.sv8_commands.specs.Text.{hex_digit, hex_byte, hex_word};

use arrayvec::ArrayVec;
use itoa::Buffer;
use std::marker::Model;

/// How many bytes a text holds.
pub const CAPACITY: usize = 4_096;

/// A text that is being written, of at most 4,096 bytes.
#[derive(Drop)]
pub struct Text {
    bytes: ArrayVec<u8, 4_096>,
}

impl Model for Text {
    ghost use Rattle.std.specs.Prelude.{List, ℕ, ◌≤◌, length};

    ghost Value = { List ℕ };

    ghost view = { λ t. t.bytes.items };

    ghost invariant = { λ t. length t.bytes.items ≤ 4096 };
}

impl Text {
    pub fn new() -> Text
        ensures { result ≡ [] }
    {
        Text {
            bytes: ArrayVec::new(),
        }
    }

    pub fn as_slice(&self) -> &[u8]
        ensures { result.now ≡ self.now }
    {
        self.bytes.as_slice()
    }

    /// How many bytes more it can hold.
    pub fn room(&self) -> usize
        ensures { result + length self.now ≡ 4096 }
    {
        self.bytes.remaining_capacity()
    }

    pub fn clear(&mut self)
        ensures { self.new ≡ [] }
    {
        self.bytes.clear();
    }

    pub fn add(&mut self, bytes: &[u8])
        requires room { length self.old + length bytes.now ≤ 4096 }
        ensures text { self.new ≡ self.old ++ bytes.now }
        ensures len { length self.new ≡ length self.old + length bytes.now }
    {
        // There is room for them, as each caller shows.
        let _ = self.bytes.try_extend_from_slice(bytes);
    }

    /// A number in decimal.
    pub fn add_decimal(&mut self, number: u32)
        requires room { length self.old + 10 ≤ 4096 }
        ensures text { self.new ≡ self.old ++ decimal number }
        ensures len { length self.new ≤ length self.old + 10 }
    {
        let mut buffer = Buffer::new();
        self.add(buffer.format(number).as_bytes());
    }

    /// A word as eight digits.
    pub fn add_word(&mut self, word: u32)
        requires room { length self.old + 8 ≤ 4096 }
        ensures text { self.new ≡ self.old ++ hex_word word }
        ensures len { length self.new ≡ length self.old + 8 }
    {
        self.add(&hex_word(word));
    }
}

/// A hexadecimal digit, upper case.
pub fn hex_digit(d: u32) -> u8
    requires { d < 16 }
    ensures { result ≡ hex_digit d }
{
    if d < 10 { 48 + d as u8 } else { 55 + d as u8 }
}

/// The 2 digits of a byte.
#[tactic(auto, unfolding(crate::specs::Text::hex_byte))]
pub fn hex_byte(b: u8) -> [u8; 2]
    ensures { result ≡ hex_byte b }
{
    let b = u32::from(b);
    [hex_digit(b / 16 % 16), hex_digit(b % 16)]
}

/// The 8 digits of a word.
#[tactic(auto, unfolding(crate::specs::Text::hex_word))]
pub fn hex_word(w: u32) -> [u8; 8]
    ensures { result ≡ hex_word w }
{
    [
        hex_digit(w / 268_435_456 % 16),
        hex_digit(w / 16_777_216 % 16),
        hex_digit(w / 1_048_576 % 16),
        hex_digit(w / 65_536 % 16),
        hex_digit(w / 4_096 % 16),
        hex_digit(w / 256 % 16),
        hex_digit(w / 16 % 16),
        hex_digit(w % 16),
    ]
}
