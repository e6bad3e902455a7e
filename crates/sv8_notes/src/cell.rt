//! The parts of a machine's state that outside events may set.

ghost use Rattle.std.specs.Prelude.{◌≡◌, ◌≤◌};
ghost use Rattle.sv8_model.specs.Cells.{same_cell, byte_of, held_of};
ghost use Rattle.sv8_notes.specs.Cells.{cell_of, content_of, word_of_cell};

use sv8_model::Level;

/// A part of the state that outside events may set.
#[derive(Clone, Copy)]
pub enum Cell {
    /// The byte of RAM at a physical address.
    Byte(u32),
    /// Whether an interrupt level, 1 to 15, is pending.
    Level(u32),
}

/// What stands in a cell.
#[derive(Clone, Copy)]
pub enum Content {
    /// The value of a byte.
    Byte(u8),
    /// Whether a level is pending.
    Pending(bool),
}

impl Content {
    /// As the value of a byte; the condition of a level has none, and is 0.
    pub fn as_byte(self) -> u8
        ensures { result ≡ byte_of (content_of self) }
    {
        match self {
            Content::Byte(value) => value,
            Content::Pending(_) => 0,
        }
    }

    /// As the condition of a level; a byte has none, and is not pending.
    pub fn as_pending(self) -> bool
        ensures { result ≡ held_of (content_of self) }
    {
        match self {
            Content::Byte(_) => false,
            Content::Pending(pending) => pending,
        }
    }
}

impl Cell {
    /// Whether it is the same cell.
    pub(crate) fn is_same(self, other: Cell) -> bool
        ensures { result ≡ same_cell (cell_of self) (cell_of other) }
    {
        match (self, other) {
            (Cell::Byte(address), Cell::Byte(other)) => address == other,
            (Cell::Level(level), Cell::Level(other)) => level == other,
            _ => false,
        }
    }

    /// The address of the word that a byte is in.
    pub(crate) fn word(self) -> Option<u32>
        ensures { result ≡ word_of_cell self }
    {
        match self {
            Cell::Byte(address) => Some(4 * (address / 4)),
            Cell::Level(_) => None,
        }
    }
}

/// The interrupt level of a number.
pub fn level_numbered(number: u32) -> Level
    requires some { 1 ≤ number }
    requires most { number ≤ 15 }
    ensures { result ≡ number }
{
    match Level::new(number) {
        Some(level) => level,
        None => unreachable!(),
    }
}
