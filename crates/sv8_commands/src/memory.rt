//! Words of memory and bytes of output, which are put as their text grows: it may be longer than any buffer.
ghost use Rattle.std.specs.Prelude.{◌+◌, ◌*◌, ◌<◌, ◌≤◌, [], length};
ghost use Rattle.sv8_commands.specs.Put.{Gains};
ghost use Rattle.sv8_commands.specs.Text.{numbered_text, memory_line, memory_text, output_byte, output_end, output_text};

use crate::put::{WriteFault, add_all};
use crate::text::{Text, hex_byte, hex_word};
use std::io::Write;

/// The line of a word.
#[tactic(auto, unfolding(crate::specs::Text::memory_line))]
fn add_word<W: Write>(
    writer: &mut W,
    text: &mut Text,
    first: u32,
    place: usize,
    word: u32,
) -> Result<(), WriteFault>
    requires { first + 4 * place < 4294967296 }
    ensures { Gains result (W.contents writer.old) (W.contents writer.new) text.old text.new (memory_line first place word) }
{
    let address = hex_word(first + 4 * place as u32);
    let digits = hex_word(word);
    add_all(writer, text, &[&address, b" ", &digits, b"\n"])
}

/// The lines of words from an address on.
pub fn add_memory<W: Write>(
    writer: &mut W,
    text: &mut Text,
    first: u32,
    words: &[u32],
) -> Result<(), WriteFault>
    requires { first + 4 * length words.now ≤ 4294967296 }
    ensures { Gains result (W.contents writer.old) (W.contents writer.new) text.old text.new (memory_text first words.now) }
{
    for (place, word) in words.iter().enumerate() {
        add_word(writer, text, first, place, *word)?;
    }
    Ok(())
}

/// A byte of output; the last of 32 ends the line.
#[tactic(auto, unfolding(crate::specs::Text::output_byte))]
fn add_byte<W: Write>(
    writer: &mut W,
    text: &mut Text,
    place: usize,
    byte: u8,
) -> Result<(), WriteFault>
    ensures { Gains result (W.contents writer.old) (W.contents writer.new) text.old text.new (output_byte place byte) }
{
    let digits = hex_byte(byte);
    if place % 32 == 31 {
        add_all(writer, text, &[&digits, b"\n"])
    } else {
        add_all(writer, text, &[&digits])
    }
}

/// The bytes of output, 32 in a line.
fn add_bytes<W: Write>(writer: &mut W, text: &mut Text, bytes: &[u8]) -> Result<(), WriteFault>
    ensures { Gains result (W.contents writer.old) (W.contents writer.new) text.old text.new (numbered_text output_byte 0 bytes.now) }
{
    for (place, byte) in bytes.iter().enumerate() {
        add_byte(writer, text, place, *byte)?;
    }
    Ok(())
}

/// The end of the last line, where it has fewer than 32 bytes.
fn add_end<W: Write>(writer: &mut W, text: &mut Text, count: usize) -> Result<(), WriteFault>
    ensures { Gains result (W.contents writer.old) (W.contents writer.new) text.old text.new (output_end count) }
{
    if count % 32 == 0 {
        add_all(writer, text, &[])
    } else {
        add_all(writer, text, &[b"\n"])
    }
}

/// The lines of output.
pub fn add_output<W: Write>(writer: &mut W, text: &mut Text, bytes: &[u8]) -> Result<(), WriteFault>
    ensures { Gains result (W.contents writer.old) (W.contents writer.new) text.old text.new (output_text bytes.now) }
{
    add_bytes(writer, text, bytes)?;
    add_end(writer, text, bytes.len())
}
