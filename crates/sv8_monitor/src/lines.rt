//! The lines of places, names and differences.

ghost use Rattle.std.specs.Prelude.{◌≡◌, ◌+◌, ◌≤◌, ◌++◌, length, map};
ghost use Rattle.sv8_source.specs.View.{named_of};
ghost use Rattle.sv8_commands.specs.Put.{Gains};
ghost use Rattle.sv8_commands.specs.Text.{hex_word};
ghost use Rattle.sv8_monitor.specs.Texts.{page_text, place_text, name_kind_text, name_line, names_text, parted_text, difference_line};

use crate::piece::Piece;
use crate::step_lines::add_physical;
use std::io::Write;
use sv8_bench::{DefinedName, NameKind};
use sv8_commands::put::{WriteFault, add_all};
use sv8_commands::text::{Text, hex_word};
use sv8_cpu::{PagePlace, Place};
use sv8_search::Difference;

/// The level of an entry, and its access field.
fn add_page(text: &mut Text, page: Option<PagePlace>)
    requires room { length text.old + 22 ≤ 4096 }
    ensures text { text.new ≡ text.old ++ page_text page }
    ensures len { length text.new ≤ length text.old + 22 }
{
    match page {
        None => text.add(b" - -"),
        Some(page) => {
            text.add(b" ");
            text.add_decimal(u32::from(page.level.number()));
            text.add(b" ");
            text.add_decimal(u32::from(page.access.number()));
        }
    }
}

/// The line of where an address leads, if it leads anywhere.
pub fn add_place(text: &mut Text, place: Option<Place>)
    requires room { length text.old + 64 ≤ 4096 }
    ensures text { text.new ≡ text.old ++ place_text place }
{
    if let Some(place) = place {
        add_physical(text, place.pa);
        add_page(text, place.page);
        text.add(b"\n");
    }
}

fn name_kind_text(kind: NameKind) -> &'static [u8]
    ensures { result.now ≡ name_kind_text kind }
{
    match kind {
        NameKind::Label => b" label ",
        NameKind::Equ => b" equ ",
    }
}

/// The value of a name and what defines it.
fn put_value<W: Write>(
    writer: &mut W,
    text: &mut Text,
    value: u32,
    kind: NameKind,
) -> Result<(), WriteFault>
    ensures { Gains result (W.contents writer.old) (W.contents writer.new) text.old text.new
        (hex_word value ++ name_kind_text kind) }
{
    add_all(writer, text, &[&hex_word(value), name_kind_text(kind)])
}

/// The line of a name, which may be as long as a line of the source.
fn put_name<W: Write>(
    writer: &mut W,
    text: &mut Text,
    name: &DefinedName<'_>,
) -> Result<(), WriteFault>
    ensures { Gains result (W.contents writer.old) (W.contents writer.new) text.old text.new
        (name_line (named_of name.now)) }
{
    put_value(writer, text, name.value, name.kind)?;
    add_all(writer, text, &[name.text, b"\n"])
}

/// The lines of names.
pub fn put_names<W: Write>(
    writer: &mut W,
    text: &mut Text,
    names: &[DefinedName<'_>],
) -> Result<(), WriteFault>
    ensures { Gains result (W.contents writer.old) (W.contents writer.new) text.old text.new
        (names_text (map named_of names.now)) }
{
    for name in names {
        put_name(writer, text, name)?;
    }
    Ok(())
}

/// The line of the step at which two runs part, if they do.
#[tactic(auto, unfolding(crate::specs::Texts::parted_line))]
pub fn add_parted(text: &mut Text, parted: Option<u32>)
    requires room { length text.old + 64 ≤ 4096 }
    ensures text { text.new ≡ text.old ++ parted_text parted }
{
    if let Some(step) = parted {
        text.add(b"step ");
        text.add_decimal(step);
        text.add(b"\n");
    }
}

impl Piece for Difference {
    ghost piece_text = { difference_line };

    /// The line of a word that differs.
    #[tactic(auto, unfolding(crate::specs::Texts::difference_line))]
    fn add_to(&self, text: &mut Text) {
        text.add_word(self.address);
        text.add(b" ");
        text.add_word(self.old);
        text.add(b" ");
        text.add_word(self.new);
        text.add(b"\n");
    }
}
