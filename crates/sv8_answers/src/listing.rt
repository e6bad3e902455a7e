//! The listing, line by line.
ghost use Rattle.std.specs.Prelude.{◌+◌, ◌-◌, ◌<◌, ◌≤◌, length, take, drop, slice_index_or};
ghost use Rattle.sv8_source.specs.Listing.{listing};
ghost use Rattle.sv8_commands.specs.Put.{Gains};
ghost use Rattle.sv8_commands.specs.Text.{numbered_text};
ghost use Rattle.sv8_answers.specs.Put.{no_line};
ghost use Rattle.sv8_answers.specs.Text.{listing_line, listing_text};

use crate::lines::add_line;
use std::io::Write;
use sv8_commands::put::WriteFault;
use sv8_commands::text::Text;
use sv8_workbench::Workbench;

/// A line of the listing, by its place from 0.
fn add_line_at<B: Workbench, W: Write>(
    bench: &B,
    writer: &mut W,
    text: &mut Text,
    place: usize,
) -> Result<(), WriteFault>
    requires listed { place < length (listing (B.kept bench.now).source) }
    requires few { place < 65536 }
    ensures { Gains result (W.contents writer.old) (W.contents writer.new) text.old text.new (listing_line (place + 1) (slice_index_or (listing (B.kept bench.now).source) place no_line)) }
{
    match bench.listing(place + 1) {
        Some(line) => add_line(writer, text, place as u32 + 1, &line),
        None => Ok(()),
    }
}

/// The lines of the listing from a place on and below another, by their places from 0.
pub fn add_lines<B: Workbench, W: Write>(
    bench: &B,
    writer: &mut W,
    text: &mut Text,
    from: usize,
    to: usize,
) -> Result<(), WriteFault>
    requires ordered { from ≤ to }
    requires listed { to ≤ length (listing (B.kept bench.now).source) }
    ensures { Gains result (W.contents writer.old) (W.contents writer.new) text.old text.new
        (numbered_text listing_line (from + 1) (take (to - from) (drop from (listing (B.kept bench.now).source)))) }
{
    let _few = bench.line_count();
    for place in from..to {
        add_line_at(bench, writer, text, place)?;
    }
    Ok(())
}

/// All lines of the listing.
pub fn add_listing<B: Workbench, W: Write>(
    bench: &B,
    writer: &mut W,
    text: &mut Text,
) -> Result<(), WriteFault>
    ensures { Gains result (W.contents writer.old) (W.contents writer.new) text.old text.new (listing_text (listing (B.kept bench.now).source)) }
{
    add_lines(bench, writer, text, 0, bench.line_count())
}
