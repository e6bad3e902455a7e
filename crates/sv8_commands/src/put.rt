//! Bytes to a writer that may fail. Each function says what has reached the writer, also where it fails.
ghost use Rattle.std.specs.Prelude.{◌≡◌, ◌+◌, ◌-◌, ◌<◌, ◌≤◌, ◌++◌, [], length, flat_map, OnOk};
ghost use Rattle.std.specs.Io.KnownBytes.{Keeps};
ghost use Rattle.sv8_session.specs.Put.{Puts};
ghost use Rattle.sv8_commands.specs.Put.{Gains, refusal_in};
ghost use Rattle.sv8_commands.specs.Text.{ok_line, refusal_line};

use crate::refusal::Refusal;
use crate::text::{CAPACITY, Text};
use crate::texts::{add_ok, add_refusal};
use std::io::Write;
pub use sv8_session::WriteFault;

/// Puts all of these bytes, in as many writes as it takes.
fn put<W: Write>(writer: &mut W, bytes: &[u8]) -> Result<(), WriteFault>
    ensures { Puts result (W.contents writer.old) (W.contents writer.new) bytes.now }
{
    let mut rest = bytes;
    for _turn in 0..bytes.len() {
        if rest.is_empty() {
            return Ok(());
        }
        match writer.write(rest) {
            Ok(0) => return Err(WriteFault),
            Ok(count) => rest = &rest[count..],
            Err(_) => return Err(WriteFault),
        }
    }
    Ok(())
}

fn flush<W: Write>(writer: &mut W) -> Result<(), WriteFault>
    ensures { Keeps (W.contents writer.old) (W.contents writer.new) }
{
    match writer.flush() {
        Ok(()) => Ok(()),
        Err(_) => Err(WriteFault),
    }
}

/// Puts a text, which is then empty.
pub fn put_text<W: Write>(writer: &mut W, text: &mut Text) -> Result<(), WriteFault>
    ensures gained { Puts result (W.contents writer.old) (W.contents writer.new) text.old }
    ensures empty { OnOk result (text.new ≡ []) }
{
    put(writer, text.as_slice())?;
    text.clear();
    Ok(())
}

/// Puts the text where it has no room for so many bytes more.
pub fn make_room<W: Write>(writer: &mut W, text: &mut Text, wanted: usize) -> Result<(), WriteFault>
    requires { wanted ≤ 4096 }
    ensures gained { Gains result (W.contents writer.old) (W.contents writer.new) text.old text.new [] }
    ensures room { OnOk result (length text.new + wanted ≤ 4096) }
{
    if text.room() >= wanted {
        return Ok(());
    }
    put_text(writer, text)
}

/// Adds bytes, which are put by themselves where they are more than the buffer holds.
fn add_long<W: Write>(writer: &mut W, text: &mut Text, bytes: &[u8]) -> Result<(), WriteFault>
    ensures { Gains result (W.contents writer.old) (W.contents writer.new) text.old text.new bytes.now }
{
    make_room(writer, text, bytes.len().min(CAPACITY))?;
    if bytes.len() <= text.room() {
        text.add(bytes);
        return Ok(());
    }
    put(writer, bytes)
}

/// Adds each piece in turn.
pub fn add_all<W: Write>(
    writer: &mut W,
    text: &mut Text,
    pieces: &[&[u8]],
) -> Result<(), WriteFault>
    ensures { Gains result (W.contents writer.old) (W.contents writer.new) text.old text.new
        (flat_map (λ piece. piece.now) pieces.now) }
{
    for piece in pieces {
        add_long(writer, text, piece)?;
    }
    Ok(())
}

/// Puts the end of an answer, and flushes.
fn send<W: Write>(writer: &mut W, text: &mut Text) -> Result<(), WriteFault>
    ensures { Puts result (W.contents writer.old) (W.contents writer.new) text.old }
{
    put_text(writer, text)?;
    flush(writer)
}

/// Ends the answer to an accepted command.
pub fn accept<W: Write>(writer: &mut W, text: &mut Text) -> Result<(), WriteFault>
    ensures { Puts result (W.contents writer.old) (W.contents writer.new) (text.old ++ ok_line) }
{
    make_room(writer, text, 3)?;
    add_ok(text);
    send(writer, text)
}

/// The whole answer to a command that is done and tells nothing.
pub fn done<W: Write>(writer: &mut W) -> Result<(), WriteFault>
    ensures { Puts result (W.contents writer.old) (W.contents writer.new) ok_line }
{
    let mut text = Text::new();
    accept(writer, &mut text)
}

/// The whole answer to a refused command.
pub fn refuse<W: Write>(writer: &mut W, refusal: Refusal) -> Result<(), WriteFault>
    requires { length refusal.name.now ≤ 16 }
    ensures { Puts result (W.contents writer.old) (W.contents writer.new) (refusal_line (refusal_in refusal)) }
{
    let mut text = Text::new();
    add_refusal(&mut text, refusal);
    send(writer, &mut text)
}
