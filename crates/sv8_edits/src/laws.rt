//! Why an edit of a source or a timeline is an edit of the recorded run. Each law stands as the contract of a function that does nothing.

ghost use Rattle.sv8_edits.specs.EditLaws.{TimelineEdits, ImageEdits, StandingBytes, StandingWords, StandingRequests, StandingInputs, StandingSources, OtherInputs, StatesAreFed};

/// What an edit of the timeline changes makes of the run that of the edited timeline: a poke, or one that is cleared, changes its bytes
/// from its step up to their next pokes, a request changes whether its level is pending up to its next request, and bytes that
/// come in, or no longer do, change what has come in from then on.
#[tactic(auto, using(crate::proofs::EditedTimelines::timeline_edits))]
pub fn timeline_edits()
    ensures { TimelineEdits }
{}

/// An edit of the source changes each byte of RAM that has another value after reset, up to its first poke.
pub fn image_edits()
    ensures { ImageEdits }
{}

/// A byte that is poked with the value that it is poked with already: the timeline stays, and nothing is changed.
pub fn standing_bytes()
    ensures { StandingBytes }
{}

/// So with a word of which all four bytes stand so.
pub fn standing_words()
    ensures { StandingWords }
{}

/// So with a request that stands.
pub fn standing_requests()
    ensures { StandingRequests }
{}

/// So with the bytes that come in at a step already.
pub fn standing_inputs()
    ensures { StandingInputs }
{}

/// An edit of the source that leaves its image as it is changes nothing of the run.
#[tactic(auto, using(crate::proofs::Standing::standing_sources))]
pub fn standing_sources()
    ensures { StandingSources }
{}

/// Bytes that do not come in at the step yet change the input from there on.
#[tactic(auto, using(crate::proofs::Standing::other_inputs))]
pub fn other_inputs()
    ensures { OtherInputs }
{}

/// No state of a run has taken more of the console's bytes than have come in by then.
#[tactic(auto, using(crate::proofs::Fed::fed))]
pub fn states_are_fed()
    ensures { StatesAreFed }
{}
