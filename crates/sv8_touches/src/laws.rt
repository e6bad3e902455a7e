//! Laws of what is told of a step. Each stands as the contract of a function that does nothing.

ghost use Rattle.std.specs.Prelude.{◌≡◌, [], ◌∷◌};
ghost use Rattle.sv8_model.specs.declared.touch.Touch.TheVariants.{Read, Write, Input, Levels, Expiry};
ghost use Rattle.sv8_touches.specs.Laws.{FootprintIsTold, WritesAreUnread};
ghost use Rattle.sv8_touches.specs.Told.{told};

/// What is told of a step reads and writes every cell exactly as what was noted does.
pub fn footprint_is_told()
    ensures { FootprintIsTold }
{}

/// A word is told as written exactly where some note of the step writes it whole and none reads it.
pub fn writes_are_unread()
    ensures { WritesAreUnread }
{}

/// What is told of a step, worked out by hand: a word that is written and read is told as read alone, and all levels at
/// once.
#[tactic(auto, unfolding(crate::specs::Told::told))]
pub fn worked_touches()
    ensures { told (Write 0x104 ∷ Levels 2 ∷ Write 0x100 ∷ Input ∷ Read 0x100 ∷ Levels 8 ∷ Expiry ∷ []) ≡ Write 0x104 ∷ Input ∷ Read 0x100 ∷ Expiry ∷ Levels 0xa ∷ [] }
{}
