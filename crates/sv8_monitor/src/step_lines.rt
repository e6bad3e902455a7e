//! The lines of steps.

ghost use Rattle.std.specs.Prelude.{◌≡◌, ◌+◌, ◌≤◌, ◌++◌, length};
ghost use Rattle.sv8_commands.specs.Text.{hex_byte};
ghost use Rattle.sv8_monitor.specs.Texts.{physical, fetch_text, outcome_text, kind_text, access_text, byte_text, flag_text, step_place, items_text, step_text};

use crate::piece::Piece;
use sv8_commands::text::{Text, hex_byte, hex_digit};
use sv8_phys::AccessKind;
use sv8_search::Found;
use sv8_watch::{Access, Fetch, Happening, Outcome};

/// A physical address.
#[tactic(auto, unfolding(crate::specs::Texts::physical))]
pub fn add_physical(text: &mut Text, pa: u64)
    requires room { length text.old + 9 ≤ 4096 }
    ensures text { text.new ≡ text.old ++ physical pa }
    ensures len { length text.new ≤ length text.old + 9 }
{
    if pa >= 4_294_967_296 {
        text.add(&[hex_digit((pa / 4_294_967_296 % 16) as u32)]);
    }
    text.add_word((pa % 4_294_967_296) as u32);
}

fn add_fetch(text: &mut Text, fetch: Option<Fetch>)
    requires room { length text.old + 19 ≤ 4096 }
    ensures text { text.new ≡ text.old ++ fetch_text fetch }
    ensures len { length text.new ≤ length text.old + 19 }
{
    match fetch {
        None => text.add(b" - -"),
        Some(fetch) => {
            text.add(b" ");
            add_physical(text, fetch.from);
            text.add(b" ");
            text.add_word(fetch.word);
        }
    }
}

fn add_outcome(text: &mut Text, outcome: Outcome)
    requires room { length text.old + 9 ≤ 4096 }
    ensures text { text.new ≡ text.old ++ outcome_text outcome }
    ensures len { length text.new ≤ length text.old + 9 }
{
    match outcome {
        Outcome::Stop => text.add(b" stop"),
        Outcome::Error(tt) => add_byte(text, b" error ", tt),
        Outcome::Trap(tt) => add_byte(text, b" trap ", tt),
        Outcome::Annul => text.add(b" annul"),
        Outcome::Run => text.add(b" run"),
    }
}

/// A byte behind a name.
fn add_byte(text: &mut Text, name: &[u8], byte: u8)
    requires short { length name.now ≤ 7 }
    requires room { length text.old + 9 ≤ 4096 }
    ensures text { text.new ≡ text.old ++ (name.now ++ hex_byte byte) }
    ensures len { length text.new ≤ length text.old + 9 }
{
    text.add(name);
    text.add(&hex_byte(byte));
}

fn kind_text(kind: AccessKind) -> &'static [u8]
    ensures name { result.now ≡ kind_text kind }
    ensures short { length result.now ≤ 7 }
{
    match kind {
        AccessKind::Load => b" load ",
        AccessKind::Store => b" store ",
        AccessKind::Exchange => b" swap ",
    }
}

fn add_access(text: &mut Text, access: Option<Access>)
    requires room { length text.old + 25 ≤ 4096 }
    ensures text { text.new ≡ text.old ++ access_text access }
    ensures len { length text.new ≤ length text.old + 25 }
{
    if let Some(access) = access {
        text.add(kind_text(access.kind));
        text.add_word(access.va);
        text.add(b" ");
        add_physical(text, access.pa);
    }
}

fn add_some_byte(text: &mut Text, name: &[u8], byte: Option<u8>)
    requires short { length name.now ≤ 7 }
    requires room { length text.old + 9 ≤ 4096 }
    ensures text { text.new ≡ text.old ++ byte_text name.now byte }
    ensures len { length text.new ≤ length text.old + 9 }
{
    if let Some(byte) = byte {
        add_byte(text, name, byte);
    }
}

fn add_flag(text: &mut Text, name: &[u8], holds: bool)
    requires short { length name.now ≤ 7 }
    requires room { length text.old + 7 ≤ 4096 }
    ensures text { text.new ≡ text.old ++ flag_text name.now holds }
    ensures len { length text.new ≤ length text.old + 7 }
{
    if holds {
        text.add(name);
    }
}

#[tactic(auto, unfolding(crate::specs::Texts::step_place))]
fn add_place(text: &mut Text, found: &Found)
    requires room { length text.old + 38 ≤ 4096 }
    ensures text { text.new ≡ text.old ++ step_place found.now }
    ensures len { length text.new ≤ length text.old + 38 }
{
    text.add_decimal(found.step);
    text.add(b" ");
    text.add_word(found.happening.pc);
    add_fetch(text, found.happening.fetch);
}

#[tactic(auto, unfolding(crate::specs::Texts::items_text))]
fn add_items(text: &mut Text, happening: &Happening)
    requires room { length text.old + 57 ≤ 4096 }
    ensures text { text.new ≡ text.old ++ items_text happening.now }
    ensures len { length text.new ≤ length text.old + 57 }
{
    add_access(text, happening.access);
    add_some_byte(text, b" in ", happening.taken);
    add_some_byte(text, b" out ", happening.put);
    add_flag(text, b" timer", happening.expired);
    add_flag(text, b" event", happening.event);
}

impl Piece for Found {
    ghost piece_text = { step_text };

    /// The line of a step.
    #[tactic(auto, unfolding(crate::specs::Texts::step_text))]
    fn add_to(&self, text: &mut Text) {
        add_place(text, self);
        add_outcome(text, self.happening.outcome);
        add_items(text, &self.happening);
        text.add(b"\n");
    }
}
