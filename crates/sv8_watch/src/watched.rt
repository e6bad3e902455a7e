//! What happened, told from a machine before a step, from the machine after it, and from the notes of the step.

ghost use Rattle.std.specs.Prelude.{◌≡◌, ℕ, List, slice_get};
ghost use Rattle.sv8_phys.specs.Ends.{IsEnd};
ghost use Rattle.sv8_model.specs.Footprint.{expires};
ghost use Rattle.sv8_cpu.specs.State.{State};
ghost use Rattle.sv8_watch.specs.Happening.{fetch_in, access_in, trap_in, outcome_of, byte_taken, byte_put, is_some_of, stands_at};
ghost use Rattle.sv8_watch.specs.Watched.{IsBefore, happening_of};

use crate::happening::{Access, Fetch, Happening, Outcome};
use sv8_cpu::Machine;
use sv8_phys::{Observation, OutputPlace, Touch};
use sv8_time::Timeline;
use sv8_touches::Watch;

/// What is kept of a machine while its step is made.
#[derive(Clone, Copy)]
pub struct Before {
    pub pc: u32,
    pub running: bool,
    pub annul: bool,
    pub taken: u32,
    pub put: OutputPlace,
}

impl Before {
    /// Of this machine.
    #[inline(always)]
    pub fn of<const NW: usize, const PAGES: usize>(machine: &Machine<NW, PAGES>) -> Self
        ensures { IsBefore machine.now result }
    {
        Before {
            pc: machine.pc(),
            running: machine.is_running(),
            annul: machine.annul(),
            taken: machine.taken(),
            put: machine.output_end(),
        }
    }
}

/// The fetch that was seen.
fn fetch_in(observations: &[Observation]) -> Option<Fetch>
    ensures { result ≡ fetch_in observations.now }
{
    match observations {
        [] => None,
        [first, rest @ ..] => match *first {
            Observation::Fetch { from, word } => Some(Fetch { from, word }),
            _ => fetch_in(rest),
        },
    }
}

/// The access that was seen.
#[inline(always)]
pub(crate) fn access_in(observations: &[Observation]) -> Option<Access>
    ensures { result ≡ access_in observations.now }
{
    let mut rest = observations;
    while let [first, after @ ..] = rest {
        if let Observation::Access {
            kind,
            bytes,
            va,
            pa,
        } = *first
        {
            return Some(Access {
                kind,
                bytes,
                va,
                pa,
            });
        }
        rest = after;
    }
    None
}

/// The type of the trap that was seen.
#[inline(always)]
fn trap_in(observations: &[Observation]) -> Option<u8>
    ensures { result ≡ trap_in observations.now }
{
    let mut rest = observations;
    while let [first, after @ ..] = rest {
        if let Observation::Trap(tt) = *first {
            return Some(tt);
        }
        rest = after;
    }
    None
}

fn outcome_of(before: Before, runs: bool, trap: Option<u8>) -> Outcome
    ensures { result ≡ outcome_of before.running before.annul runs trap }
{
    if !before.running {
        return Outcome::Stop;
    }
    match trap {
        Some(tt) => {
            if runs {
                Outcome::Trap(tt)
            } else {
                Outcome::Error(tt)
            }
        }
        None => {
            if before.annul {
                Outcome::Annul
            } else {
                Outcome::Run
            }
        }
    }
}

/// Whether some note is that of the timer's expiry.
fn expires(touches: &[Touch]) -> bool
    ensures { result ≡ expires touches.now }
{
    touches.iter().any(|touch| matches!(*touch, Touch::Expiry))
}

/// The input byte that was taken, by the number of those that were taken before and after.
fn byte_taken(timeline: &Timeline, before: u32, after: u32) -> Option<u8>
    ensures { result ≡ byte_taken timeline.now before after }
{
    if before < after {
        timeline.byte(before)
    } else {
        None
    }
}

/// The byte at a place.
fn byte_at(bytes: &[u8], place: usize) -> Option<u8>
    ensures { result ≡ slice_get bytes.now place }
{
    bytes.get(place).copied()
}

/// The byte that was put out, if one was, by the place that the next byte had before.
fn byte_put<const NW: usize, const PAGES: usize>(
    after: &Machine<NW, PAGES>,
    end: OutputPlace,
) -> Option<u8>
    ensures { (before : List ℕ) → IsEnd before end → result ≡ byte_put before after.now.memory.output }
{
    match after.output_piece(end.piece) {
        Some(piece) => byte_at(piece, end.place),
        None => None,
    }
}

fn is_some_of<T>(items: &[T]) -> bool
    ensures { result ≡ is_some_of items.now }
{
    match items {
        [] => false,
        [_, ..] => true,
    }
}

/// Whether something stands in a timeline at a step.
#[tactic(auto, using(crate::proofs::Standing::words_stand))]
pub fn stands_at(timeline: &Timeline, n: u32) -> bool
    ensures { result ≡ stands_at timeline.now n }
{
    let events = timeline.events(n);
    is_some_of(events.pokes) || (is_some_of(events.bytes) || is_some_of(events.requests))
}

/// A step that was made: its number, the timeline, what was kept of the machine before it, the machine after it, and its
/// notes. What happened in it is told part by part, so that a search makes no more of it than it looks at.
#[derive(Clone, Copy)]
pub struct MadeStep<'a, const NW: usize, const PAGES: usize> {
    pub n: u32,
    pub timeline: &'a Timeline,
    pub before: Before,
    pub after: &'a Machine<NW, PAGES>,
    pub watch: &'a Watch,
}

impl<'a, const NW: usize, const PAGES: usize> MadeStep<'a, NW, PAGES> {
    /// How it ended.
    #[inline(always)]
    pub fn outcome(&self) -> Outcome
        ensures { result ≡ outcome_of self.now.before.running self.now.before.annul self.now.after.now.processor.running (trap_in self.now.watch.now.observations) }
    {
        outcome_of(
            self.before,
            self.after.is_running(),
            trap_in(self.watch.observations()),
        )
    }

    /// The access of its instruction, where one was made.
    #[inline(always)]
    pub fn access(&self) -> Option<Access>
        ensures { result ≡ access_in self.now.watch.now.observations }
    {
        access_in(self.watch.observations())
    }

    /// The byte that was taken from the console.
    #[inline(always)]
    pub fn taken(&self) -> Option<u8>
        ensures { result ≡ byte_taken self.now.timeline.now self.now.before.taken self.now.after.now.memory.taken }
    {
        byte_taken(self.timeline, self.before.taken, self.after.taken())
    }

    /// The byte that was put out at the console.
    pub fn put(&self) -> Option<u8>
        ensures { (before : List ℕ) → IsEnd before self.now.before.put → result ≡ byte_put before self.now.after.now.memory.output }
    {
        byte_put(self.after, self.before.put)
    }

    /// Whether something stands in the timeline at the step.
    pub fn has_event(&self) -> bool
        ensures { result ≡ stands_at self.now.timeline.now self.now.n }
    {
        stands_at(self.timeline, self.n)
    }

    /// What happened in it.
    pub fn happening(&self) -> Happening
        ensures { (s : State) → IsBefore s self.now.before → result ≡ happening_of s self.now }
    {
        Happening {
            pc: self.before.pc,
            fetch: fetch_in(self.watch.observations()),
            outcome: self.outcome(),
            access: self.access(),
            taken: self.taken(),
            put: self.put(),
            expired: expires(self.watch.touches()),
            event: self.has_event(),
        }
    }
}
