//! Laws of the definitions in `specs/`. Each stands as the contract of a function that does nothing.

ghost use Rattle.sv8_model.specs.Frame.{CellsHold, FrameOfAction, UntouchedStays, SoundStays};
ghost use Rattle.sv8_model.specs.Laws.{ActionsCompose, DeedsCompose};

use crate::touches::Touches;

/// One action after another leads to what the second leads to from where the first one ended, and touches
/// what both touch, in order.
pub fn actions_compose<A, B>()
    ensures { ActionsCompose A B }
{}

/// Code that does one action and then another does the two in sequence.
pub fn deeds_compose<A, B, T: Touches>()
    ensures { DeedsCompose T.NOTING A B }
{}

/// A cell holds what was put there last, and to put something changes no other cell.
pub fn cells_hold()
    ensures { CellsHold }
{}

/// An action that reads no cell in which two outsides differ does the same in both, and leaves them alike but for those of the
/// cells that it does not write.
pub fn frame_of_action<R>()
    ensures { FrameOfAction R }
{}

/// What an action neither reads nor writes stays as it was.
pub fn untouched_stays<R>()
    ensures { UntouchedStays R }
{}

/// An action keeps the bytes of RAM below 256, and the levels those from 1 to 15.
pub fn sound_stays<R>()
    ensures { SoundStays R }
{}
