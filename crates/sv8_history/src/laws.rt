//! Laws of the definitions in `specs/`, for every machine. Each stands as the contract of a function that does nothing.

ghost use Rattle.sv8_history.specs.Machine.{Machine};
ghost use Rattle.sv8_history.specs.Acting.{Acting, ActingFrames};
ghost use Rattle.sv8_history.specs.Laws.{UnreadAgrees, FirstReadStays, EditCounts, EditKeeps, PatchKeeps, FirstOfEach, SearchByWords};
ghost use Rattle.sv8_history.specs.Laws.{InputEditKeeps, InputEditCounts, UntakenAgrees, FirstTakeStays, InputEditFeeds};
ghost use Rattle.sv8_history.specs.Laws.{CutKeeps, LaterKeeps, AgreesKeeps, NewTrace, ExtendKeeps, RestoreGives, QueryWork};

/// A machine, as a trace sees it.
pub trait Recorded {
    ghost machine: { Machine };
}

/// Up to its first read an edit leaves each state as it was but for the changes that it shows, and each step its footprint.
#[tactic(auto, using(crate::proofs::States::unread_agrees))]
pub fn unread_agrees<M: Recorded>()
    ensures { UnreadAgrees M.machine }
{}

/// The first read of an edit is the same by the run before it and by the run after it.
#[tactic(auto, using(crate::proofs::FirstReads::first_read_stays))]
pub fn first_read_stays<M: Recorded>()
    ensures { FirstReadStays M.machine }
{}

/// An edit leaves as much of the record as its first read allows: the smaller of what was and of the last checkpoint not above it.
#[tactic(auto, using(crate::proofs::Edits::edit_counts))]
pub fn edit_counts<M: Recorded>()
    ensures { EditCounts M.machine }
{}

/// An edit of any number of cells keeps the recorded run: the trace is cut by the first read, and then patched.
///
/// A source that is edited, a poke that is set, replaced or cleared, of a word or of a byte, and a request that is set or cleared are
/// such edits, whether a step sees them or not.
#[tactic(auto, using(crate::proofs::Edits::edit_keeps))]
pub fn edit_keeps<M: Recorded>()
    ensures { EditKeeps M.machine }
{}

/// One patch keeps the recorded run, where no recorded step reads the change.
#[tactic(auto, using(crate::proofs::Patched::patch_keeps))]
pub fn patch_keeps<M: Recorded>()
    ensures { PatchKeeps M.machine }
{}

/// The first read of an edit is the least of its changes' first reads.
#[tactic(auto, using(crate::proofs::Words::of_each))]
pub fn first_of_each<M: Recorded>()
    ensures { FirstOfEach M.machine }
{}

/// The first read of an edit takes one search a word.
#[tactic(auto, using(crate::proofs::Words::search_by_words))]
pub fn search_by_words<M: Recorded>()
    ensures { SearchByWords M.machine }
{}

/// An edit of the input keeps the recorded run: the trace is cut by the first step that takes input, and nothing is patched.
#[tactic(auto, using(crate::proofs::Input::input_edit_keeps))]
pub fn input_edit_keeps<M: Recorded>()
    ensures { InputEditKeeps M.machine }
{}

/// An edit of the input leaves as much of the record as the first step that takes input allows.
#[tactic(auto, using(crate::proofs::Input::input_edit_counts))]
pub fn input_edit_counts<M: Recorded>()
    ensures { InputEditCounts M.machine }
{}

/// Up to the first step that takes input an edit of the input leaves each state and each footprint.
pub fn untaken_agrees<M: Recorded>()
    ensures { UntakenAgrees M.machine }
{}

/// The first step that takes input is the same by the run before an edit of the input and by the run after it.
pub fn first_take_stays<M: Recorded>()
    ensures { FirstTakeStays M.machine }
{}

/// The states that an edit of the input leaves have taken no more bytes than are delivered by then.
#[tactic(auto, using(crate::proofs::Input::input_edit_feeds))]
pub fn input_edit_feeds<M: Recorded>()
    ensures { InputEditFeeds M.machine }
{}

/// A trace that is cut to fewer checkpoints is that of the run.
#[tactic(auto, using(crate::proofs::Cut::cut_keeps))]
pub fn cut_keeps<M: Recorded>()
    ensures { CutKeeps M.machine }
{}

/// Events from the last checkpoint on change nothing in the trace.
#[tactic(auto, using(crate::proofs::Silent::later_keeps))]
pub fn later_keeps<M: Recorded>()
    ensures { LaterKeeps M.machine }
{}

/// A trace that shows the same where it counts is as good.
#[tactic(auto, using(crate::proofs::Cut::agrees_keeps))]
pub fn agrees_keeps<M: Recorded>()
    ensures { AgreesKeeps M.machine }
{}

/// A new trace has nothing recorded but the first state.
#[tactic(auto, using(crate::proofs::Growing::new_trace_is))]
pub fn new_trace<M: Recorded>()
    ensures { NewTrace M.machine }
{}

/// A trace that is extended by the next steps is that of the run.
#[tactic(auto, using(crate::proofs::Growing::extend_keeps))]
pub fn extend_keeps<M: Recorded>()
    ensures { ExtendKeeps M.machine }
{}

/// The steps from a checkpoint lead to the state that a query asks for.
#[tactic(auto, using(crate::proofs::Growing::restore_gives))]
pub fn restore_gives<M: Recorded>()
    ensures { RestoreGives M.machine }
{}

/// A query makes as many steps as there are from the checkpoint that it had.
#[tactic(auto, using(crate::proofs::Growing::query_work))]
pub fn query_work()
    ensures { QueryWork }
{}

/// A machine whose step lets the event come, and then acts.
pub trait Acts {
    ghost parts: { Acting };
}

/// Where the coming of events and the act obey a law each, the machine obeys the frame law.
#[tactic(auto, using(crate::proofs::Acting::acting_frames))]
pub fn acting_frames<M: Acts>()
    ensures { ActingFrames M.parts }
{}
