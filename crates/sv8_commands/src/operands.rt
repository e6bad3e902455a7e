//! The operands of commands: the forms that the words after a name have. A reader of a form refuses words of which one is
//! of another kind, is missing, or is left.
ghost use Rattle.std.specs.Prelude.{◌≡◌, Some, None, IfOk, MatchResult};
ghost use Rattle.sv8_commands.specs.Words.{words_of, first_number, first_hex, first_bytes};
ghost use Rattle.sv8_commands.specs.Operands.{alone, one_number, two_numbers, three_numbers, number_address, number_address_value, number_address_number, number_bytes};

use crate::hex_bytes::HexBytes;
use crate::words::{hex, next_word, number};
use thiserror::Error;

/// A line that is no command.
#[derive(Debug, Drop, Clone, Copy, PartialEq, Eq, Error)]
#[error("not a command")]
pub struct BadCommand;

/// Answers a value, where no word is left.
#[tactic(auto, unfolding(crate::specs::Operands::alone))]
pub fn read_alone<T: Drop>(value: T, text: &[u8]) -> Result<T, BadCommand>
    ensures read { MatchResult result (λ x. alone value (words_of text.now) ≡ Some x)
        (λ _. alone value (words_of text.now) ≡ None) }
    ensures same { IfOk result (λ x. x ≡ value) }
{
    match next_word(text) {
        None => Ok(value),
        Some(_) => Err(BadCommand),
    }
}

/// Reads one number.
#[tactic(auto, unfolding(crate::specs::Operands::one_number))]
pub fn read_one_number(text: &[u8]) -> Result<u32, BadCommand>
    ensures { MatchResult result (λ x. one_number (words_of text.now) ≡ Some x)
        (λ _. one_number (words_of text.now) ≡ None) }
{
    let (number, rest) = read_number(text)?;
    read_alone(number, rest)
}

/// Reads two numbers.
#[tactic(auto, unfolding(crate::specs::Operands::two_numbers))]
pub fn read_two_numbers(text: &[u8]) -> Result<(u32, u32), BadCommand>
    ensures { MatchResult result (λ x. two_numbers (words_of text.now) ≡ Some x)
        (λ _. two_numbers (words_of text.now) ≡ None) }
{
    let (first, rest) = read_number(text)?;
    let (second, rest) = read_number(rest)?;
    read_alone((first, second), rest)
}

/// Reads three numbers.
#[tactic(auto, unfolding(crate::specs::Operands::three_numbers))]
pub fn read_three_numbers(text: &[u8]) -> Result<(u32, u32, u32), BadCommand>
    ensures { MatchResult result (λ x. three_numbers (words_of text.now) ≡ Some x)
        (λ _. three_numbers (words_of text.now) ≡ None) }
{
    let (first, rest) = read_number(text)?;
    let (second, rest) = read_number(rest)?;
    let (third, rest) = read_number(rest)?;
    read_alone((first, second, third), rest)
}

/// Reads a number and an address.
#[tactic(auto, unfolding(crate::specs::Operands::number_address))]
pub fn read_number_address(text: &[u8]) -> Result<(u32, u32), BadCommand>
    ensures { MatchResult result (λ x. number_address (words_of text.now) ≡ Some x)
        (λ _. number_address (words_of text.now) ≡ None) }
{
    let (number, rest) = read_number(text)?;
    let (address, rest) = read_hex(rest)?;
    read_alone((number, address), rest)
}

/// Reads a number, an address and a value of a word.
#[tactic(auto, unfolding(crate::specs::Operands::number_address_value))]
pub(crate) fn read_number_address_word(text: &[u8]) -> Result<(u32, u32, u32), BadCommand>
    ensures { MatchResult result (λ x. number_address_value 8 (words_of text.now) ≡ Some x)
        (λ _. number_address_value 8 (words_of text.now) ≡ None) }
{
    let (number, rest) = read_number(text)?;
    let (address, rest) = read_hex(rest)?;
    let (value, rest) = read_hex(rest)?;
    read_alone((number, address, value), rest)
}

/// Reads a number, an address and a value of a byte.
#[tactic(auto, unfolding(crate::specs::Operands::number_address_value))]
pub(crate) fn read_number_address_byte(text: &[u8]) -> Result<(u32, u32, u8), BadCommand>
    ensures { MatchResult result (λ x. number_address_value 2 (words_of text.now) ≡ Some x)
        (λ _. number_address_value 2 (words_of text.now) ≡ None) }
{
    let (number, rest) = read_number(text)?;
    let (address, rest) = read_hex(rest)?;
    let (value, rest) = read_hex_byte(rest)?;
    read_alone((number, address, value), rest)
}

/// Reads a number, an address and one more number.
#[tactic(auto, unfolding(crate::specs::Operands::number_address_number))]
pub(crate) fn read_number_address_number(text: &[u8]) -> Result<(u32, u32, u32), BadCommand>
    ensures { MatchResult result (λ x. number_address_number (words_of text.now) ≡ Some x)
        (λ _. number_address_number (words_of text.now) ≡ None) }
{
    let (number, rest) = read_number(text)?;
    let (address, rest) = read_hex(rest)?;
    let (count, rest) = read_number(rest)?;
    read_alone((number, address, count), rest)
}

/// Reads a number and the bytes of an input.
#[tactic(auto, unfolding(crate::specs::Operands::number_bytes))]
pub(crate) fn read_number_bytes(text: &[u8]) -> Result<(u32, HexBytes<'_>), BadCommand>
    ensures { MatchResult result (λ x. number_bytes (words_of text.now) ≡ Some (x.0, x.1))
        (λ _. number_bytes (words_of text.now) ≡ None) }
{
    let (number, rest) = read_number(text)?;
    let (bytes, rest) = read_bytes(rest)?;
    read_alone((number, bytes), rest)
}

/// Reads a number, and answers the words behind it.
///
/// # Errors
///
/// `BadCommand` where the first word is not 1 to 10 decimal digits below 2^32, or there is none.
#[tactic(auto, unfolding(crate::specs::Words::first_number))]
pub fn read_number(text: &[u8]) -> Result<(u32, &[u8]), BadCommand>
    ensures { MatchResult result
        (λ r. first_number (words_of text.now) ≡ Some (r.0, words_of r.1.now))
        (λ _. first_number (words_of text.now) ≡ None) }
{
    match next_word(text) {
        None => Err(BadCommand),
        Some((word, rest)) => match number(word) {
            None => Err(BadCommand),
            Some(n) => Ok((n, rest)),
        },
    }
}

/// Reads an address or a value of a word, and answers the words behind it.
///
/// # Errors
///
/// `BadCommand` where the first word is not 1 to 8 hexadecimal digits, or there is none.
#[tactic(auto, unfolding(crate::specs::Words::first_hex))]
pub fn read_hex(text: &[u8]) -> Result<(u32, &[u8]), BadCommand>
    ensures { MatchResult result
        (λ r. first_hex 8 (words_of text.now) ≡ Some (r.0, words_of r.1.now))
        (λ _. first_hex 8 (words_of text.now) ≡ None) }
{
    match next_word(text) {
        None => Err(BadCommand),
        Some((word, rest)) => match hex(word, 8) {
            None => Err(BadCommand),
            Some(n) => Ok((n, rest)),
        },
    }
}

/// Reads a value of a byte, and answers the words behind it.
///
/// # Errors
///
/// `BadCommand` where the first word is not 1 or 2 hexadecimal digits, or there is none.
#[tactic(auto, unfolding(crate::specs::Words::first_hex))]
pub fn read_hex_byte(text: &[u8]) -> Result<(u8, &[u8]), BadCommand>
    ensures { MatchResult result
        (λ r. first_hex 2 (words_of text.now) ≡ Some (r.0, words_of r.1.now))
        (λ _. first_hex 2 (words_of text.now) ≡ None) }
{
    match next_word(text) {
        None => Err(BadCommand),
        Some((word, rest)) => match hex(word, 2) {
            None => Err(BadCommand),
            Some(n) => Ok((n as u8, rest)),
        },
    }
}

/// Reads the bytes of an input, and answers the words behind them.
#[tactic(auto, unfolding(crate::specs::Words::first_bytes))]
fn read_bytes(text: &[u8]) -> Result<(HexBytes<'_>, &[u8]), BadCommand>
    ensures { MatchResult result
        (λ r. first_bytes (words_of text.now) ≡ Some (r.0, words_of r.1.now))
        (λ _. first_bytes (words_of text.now) ≡ None) }
{
    match next_word(text) {
        None => Err(BadCommand),
        Some((word, rest)) => match HexBytes::read(word) {
            None => Err(BadCommand),
            Some(bytes) => Ok((bytes, rest)),
        },
    }
}
