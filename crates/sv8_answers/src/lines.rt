//! A line of the listing, which is put as it grows: it may be longer than any buffer.
ghost use Rattle.std.specs.Prelude.{◌++◌, codes, decimal};
ghost use Rattle.sv8_source.specs.View.{shown_of};
ghost use Rattle.sv8_commands.specs.Put.{Gains};
ghost use Rattle.sv8_commands.specs.Text.{hex_word, numbered_text};
ghost use Rattle.sv8_answers.specs.Text.{listed_byte, listing_line};

use itoa::Buffer;
use std::io::Write;
use sv8_commands::put::{WriteFault, add_all};
use sv8_commands::text::{Text, hex_byte, hex_word};
use sv8_source::Listed;

/// A byte of a line, in groups of up to four.
#[tactic(auto, unfolding(crate::specs::Text::listed_byte))]
fn add_byte<W: Write>(
    writer: &mut W,
    text: &mut Text,
    place: usize,
    byte: u8,
) -> Result<(), WriteFault>
    ensures { Gains result (W.contents writer.old) (W.contents writer.new) text.old text.new (listed_byte place byte) }
{
    let digits = hex_byte(byte);
    if place % 4 == 0 {
        add_all(writer, text, &[b" ", &digits])
    } else {
        add_all(writer, text, &[&digits])
    }
}

/// The bytes of a line.
fn add_bytes<W: Write>(writer: &mut W, text: &mut Text, bytes: &[u8]) -> Result<(), WriteFault>
    ensures { Gains result (W.contents writer.old) (W.contents writer.new) text.old text.new (numbered_text listed_byte 0 bytes.now) }
{
    for (place, byte) in bytes.iter().enumerate() {
        add_byte(writer, text, place, *byte)?;
    }
    Ok(())
}

/// The number of a line and its address.
fn add_place<W: Write>(
    writer: &mut W,
    text: &mut Text,
    number: u32,
    address: u32,
) -> Result<(), WriteFault>
    ensures { Gains result (W.contents writer.old) (W.contents writer.new) text.old text.new (decimal number ++ codes " " ++ hex_word address) }
{
    let mut buffer = Buffer::new();
    let digits = buffer.format(number).as_bytes();
    add_all(writer, text, &[digits, b" ", &hex_word(address)])
}

/// The line of the listing for a line of the source.
///
/// # Errors
///
/// `WriteFault` where the writer fails.
#[tactic(auto, unfolding(crate::specs::Text::listing_line))]
pub fn add_line<W: Write>(
    writer: &mut W,
    text: &mut Text,
    number: u32,
    line: &Listed<'_>,
) -> Result<(), WriteFault>
    ensures { Gains result (W.contents writer.old) (W.contents writer.new) text.old text.new (listing_line number (shown_of line.now)) }
{
    add_place(writer, text, number, line.address)?;
    add_bytes(writer, text, line.bytes)?;
    add_all(writer, text, &[b" |", line.text, b"\n"])
}
