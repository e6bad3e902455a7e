//! The lines of what stands in a timeline, as commands that set it.

ghost use Rattle.std.specs.Prelude.{◌≡◌, ◌+◌, ◌%◌, ◌≤◌, ◌++◌, length, codes, decimal, slice_index};
ghost use Rattle.sv8_time.specs.Schedule.{poke_of};
ghost use Rattle.sv8_commands.specs.Put.{Gains};
ghost use Rattle.sv8_commands.specs.Text.{hex_byte};
ghost use Rattle.sv8_monitor.specs.Events.{poke_place, byte_line, word_line, some_line, four_lines, word_lines, digits_text, input_text, request_line, requests_text, step_events, events_text};

use crate::piece::{Piece, put_pieces};
use itoa::Buffer;
use std::io::Write;
use sv8_commands::put::{WriteFault, add_all};
use sv8_commands::text::{Text, hex_byte};
use sv8_time::{Events, Request, Timeline, WordPoke};

/// A name, a step and an address.
fn add_place(text: &mut Text, name: &[u8], step: u32, address: u32)
    requires short { length name.now ≤ 6 }
    requires room { length text.old + 26 ≤ 4096 }
    ensures text { text.new ≡ text.old ++ poke_place name.now step address }
    ensures len { length text.new ≤ length text.old + 26 }
{
    text.add(name);
    text.add_decimal(step);
    text.add(b" ");
    text.add_word(address);
    text.add(b" ");
}

/// The line of a byte that is poked.
#[tactic(auto, unfolding(crate::specs::Events::byte_line))]
fn add_byte(text: &mut Text, step: u32, address: u32, value: u8)
    requires room { length text.old + 32 ≤ 4096 }
    ensures text { text.new ≡ text.old ++ byte_line (poke_of step address value) }
    ensures len { length text.new ≤ length text.old + 32 }
{
    add_place(text, b"pokeb ", step, address);
    text.add(&hex_byte(value));
    text.add(b"\n");
}

/// The line of a byte, if it is poked.
fn add_some_byte(text: &mut Text, step: u32, address: u32, value: Option<u8>)
    requires room { length text.old + 32 ≤ 4096 }
    ensures text { text.new ≡ text.old ++ some_line step address value }
    ensures len { length text.new ≤ length text.old + 32 }
{
    if let Some(value) = value {
        add_byte(text, step, address, value);
    }
}

/// The lines of the bytes of a word that are poked.
fn add_bytes(text: &mut Text, step: u32, address: u32, bytes: [Option<u8>; 4])
    requires aligned { address % 4 ≡ 0 }
    requires room { length text.old + 160 ≤ 4096 }
    ensures text { text.new ≡ text.old ++ four_lines step address bytes }
    ensures len { length text.new ≤ length text.old + 160 }
{
    add_some_byte(text, step, address, bytes[0]);
    add_some_byte(text, step, address + 1, bytes[1]);
    add_some_byte(text, step, address + 2, bytes[2]);
    add_some_byte(text, step, address + 3, bytes[3]);
}

/// The line of a word that is poked whole.
#[tactic(auto, unfolding(crate::specs::Events::word_line))]
fn add_word(text: &mut Text, step: u32, address: u32, values: [u8; 4])
    requires room { length text.old + 160 ≤ 4096 }
    ensures text { text.new ≡ text.old ++
        word_line step address (slice_index values 0) (slice_index values 1)
        (slice_index values 2) (slice_index values 3) }
    ensures len { length text.new ≤ length text.old + 160 }
{
    add_place(text, b"poke ", step, address);
    text.add(&hex_byte(values[0]));
    text.add(&hex_byte(values[1]));
    text.add(&hex_byte(values[2]));
    text.add(&hex_byte(values[3]));
    text.add(b"\n");
}

impl Piece for WordPoke {
    ghost piece_text = { word_lines };

    /// The line of a word, or the lines of its bytes where not all are poked.
    fn add_to(&self, text: &mut Text) {
        match self.bytes {
            [Some(a), Some(b), Some(c), Some(d)] => {
                add_word(text, self.step, self.address, [a, b, c, d]);
            }
            bytes => add_bytes(text, self.step, self.address, bytes),
        }
    }
}

impl Piece for u8 {
    ghost piece_text = { hex_byte };

    /// The digits of a byte.
    fn add_to(&self, text: &mut Text) {
        text.add(&hex_byte(*self));
    }
}

impl Piece for Request {
    ghost piece_text = { request_line };

    /// The line of a request.
    #[tactic(auto, unfolding(crate::specs::Events::request_line))]
    fn add_to(&self, text: &mut Text) {
        text.add(b"irq ");
        text.add_decimal(self.step);
        text.add(b" ");
        text.add_decimal(u32::from(self.level.number()));
        text.add(b"\n");
    }
}

/// The name and the step of an input.
fn put_input_place<W: Write>(writer: &mut W, text: &mut Text, step: u32) -> Result<(), WriteFault>
    ensures { Gains result (W.contents writer.old) (W.contents writer.new) text.old text.new
        (codes "input " ++ decimal step ++ codes " ") }
{
    let mut buffer = Buffer::new();
    let digits = buffer.format(step).as_bytes();
    add_all(writer, text, &[b"input ", digits, b" "])
}

/// The bytes of an input, and the end of its line.
fn put_input_bytes<W: Write>(
    writer: &mut W,
    text: &mut Text,
    bytes: &[u8],
) -> Result<(), WriteFault>
    ensures { Gains result (W.contents writer.old) (W.contents writer.new) text.old text.new
        (digits_text bytes.now ++ codes "\n") }
{
    put_pieces(writer, text, bytes)?;
    add_all(writer, text, &[b"\n"])
}

/// The line of an input, if there is one.
fn put_input<W: Write>(
    writer: &mut W,
    text: &mut Text,
    step: u32,
    bytes: &[u8],
) -> Result<(), WriteFault>
    ensures { Gains result (W.contents writer.old) (W.contents writer.new) text.old text.new
        (input_text step bytes.now) }
{
    if bytes.is_empty() {
        return add_all(writer, text, &[]);
    }
    put_input_place(writer, text, step)?;
    put_input_bytes(writer, text, bytes)
}

/// The lines of the input and of the requests of a step.
fn put_later<W: Write>(
    writer: &mut W,
    text: &mut Text,
    step: u32,
    events: &Events<'_>,
) -> Result<(), WriteFault>
    ensures { Gains result (W.contents writer.old) (W.contents writer.new) text.old text.new
        (input_text step events.now.bytes.now ++ requests_text events.now.requests.now) }
{
    put_input(writer, text, step, events.bytes)?;
    put_pieces(writer, text, events.requests)
}

/// The lines of what stands at a step.
fn put_step<W: Write>(
    writer: &mut W,
    text: &mut Text,
    timeline: &Timeline,
    step: u32,
) -> Result<(), WriteFault>
    ensures { Gains result (W.contents writer.old) (W.contents writer.new) text.old text.new
        (step_events timeline.now step) }
{
    let events = timeline.events(step);
    put_pieces(writer, text, events.pokes)?;
    put_later(writer, text, step, &events)
}

/// The lines of what stands from one step on and below another.
pub fn put_events<W: Write>(
    writer: &mut W,
    text: &mut Text,
    timeline: &Timeline,
    from: u32,
    to: u32,
) -> Result<(), WriteFault>
    requires { from ≤ to }
    ensures { Gains result (W.contents writer.old) (W.contents writer.new) text.old text.new
        (events_text timeline.now from to) }
{
    for step in from..to {
        put_step(writer, text, timeline, step)?;
    }
    Ok(())
}
