//! What the calls of a recorder come to. It stands as the contract of a function that does nothing.

ghost use Rattle.sv8_notes.specs.Laws.{EndedStepsAreTold};

/// Once a step has ended whose touches a recorder took one after the other, the notes have gained what is told of all that it
/// touched.
pub fn ended_steps_are_told()
    ensures { EndedStepsAreTold }
{}
