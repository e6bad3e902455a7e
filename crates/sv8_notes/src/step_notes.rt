//! The notes of one step.

ghost use Rattle.std.specs.Prelude.{◌≡◌};
ghost use Rattle.sv8_model.specs.Words.{bit};
ghost use Rattle.sv8_notes.specs.Touched.{is_touched, is_touched_by};
ghost use Rattle.sv8_notes.specs.Cells.{cell_of};

use crate::cell::Cell;
use sv8_phys::Touch;

/// The interrupt level of the timer.
pub(crate) const TIMER_LEVEL: u32 = 10;

/// Whether a word of levels, bit l for level l, has one of them.
pub(crate) fn asks(levels: u16, level: u32) -> bool
    ensures { result ≡ bit levels level }
{
    level < 16 && (levels >> level) % 2 == 1
}

/// Whether a touch is of a cell, or of the word that a byte is in.
pub(crate) fn is_touch_of(touch: Touch, cell: Cell) -> bool
    ensures { result ≡ is_touched_by (cell_of cell) touch }
{
    match (cell, touch) {
        (Cell::Byte(address), Touch::Read(word)) => word == 4 * (address / 4),
        (Cell::Byte(address), Touch::Write(word)) => word == 4 * (address / 4),
        (Cell::Level(level), Touch::Levels(levels)) => asks(levels, level),
        (Cell::Level(level), Touch::Expiry) => level == TIMER_LEVEL,
        _ => false,
    }
}

/// Whether some touch is of a cell.
pub(crate) fn touches_cell(touches: &[Touch], cell: Cell) -> bool
    ensures { result ≡ is_touched touches.now (cell_of cell) }
{
    touches.iter().any(|touch| is_touch_of(*touch, cell))
}
