//! Laws of the conditions, each a function that does nothing and whose contract is the law.

ghost use Rattle.sv8_watch.specs.Quiet.{TraplessStepsMiss, OtherTypesMiss, QuietStepsMiss};
ghost use Rattle.sv8_watch.specs.Running.{RunningStepsMiss};
ghost use Rattle.sv8_watch.specs.Touching.{SparedStepsMiss, SparedPcsMiss};

/// A step that touches no word of the bytes of a condition, and whose events poke none of them, does not meet it: an access in RAM
/// touches its words, and a byte that is neither touched nor poked stays. For `Load`, `Store` and `Change` only touches of data count.
///
/// So a search for `Load`, `Store`, `Touch` or `Change` may pass over each step whose notes and events name none of these bytes.
#[tactic(auto, using(crate::proofs::Sparing::spared_steps_miss))]
pub fn spared_steps_miss()
    ensures { SparedStepsMiss }
{}

/// A step that touches no byte of the word at an address does not reach an instruction there, where no address is translated in the
/// state before it.
#[tactic(auto, using(crate::proofs::Sparing::spared_pcs_miss))]
pub fn spared_pcs_miss()
    ensures { SparedPcsMiss }
{}

/// Where the machine runs after a step, it ran before it, and the step does not lead to error mode.
///
/// So a search for `Error` may pass over all steps up to one before which the machine runs.
pub fn running_steps_miss()
    ensures { RunningStepsMiss }
{}

/// A step that leads neither to error mode nor to the address in TBR takes no trap and no interrupt, nor does one of a machine
/// that is in error mode.
///
/// So a search for `Trap`, `TrapType` or `Error` may pass over all steps of which none leads there.
pub fn trapless_steps_miss()
    ensures { TraplessStepsMiss }
{}

/// A step that leads neither to error mode nor to the address in TBR with a type of trap there takes no trap and no interrupt of
/// this type.
///
/// So a search for `TrapType` may pass over all steps of which none leads there.
#[tactic(auto, using(crate::proofs::Quiet::other_types_miss))]
pub fn other_types_miss()
    ensures { OtherTypesMiss }
{}

/// A step after which as many bytes are taken from the console as before takes none, and one after which as many are put out puts
/// none out.
///
/// So a search for `Input` or `Output` may pass over all steps between two states with as many: after no step there are fewer
/// (`consoles_grow` of `sv8_cpu`).
#[tactic(auto, using(crate::proofs::Quiet::quiet_steps_miss))]
pub fn quiet_steps_miss()
    ensures { QuietStepsMiss }
{}
