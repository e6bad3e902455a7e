//! What the recorded run shows of a range of its steps, without making one of them.

ghost use Rattle.std.specs.Prelude.{◌≡◌, ℕ, ◌+◌, ◌%◌, ◌<◌, ◌≤◌, false, length, slice_index_or, MatchBool, MatchOption};
ghost use Rattle.sv8_model.specs.declared.touch.TouchKind.TheVariants.{Any};
ghost use Rattle.sv8_time.specs.Words.{poked_bytes, bytes_of_words};
ghost use Rattle.sv8_cpu.specs.Touching.{is_within, pokes_any};
ghost use Rattle.sv8_trace.specs.Checkpoints.{IsCheckpoint};
ghost use Rattle.sv8_trace.specs.Recording.{recorded};
ghost use Rattle.sv8_evidence.specs.Showing.{NoneShows};
ghost use Rattle.sv8_notes.specs.Flags.{IsFlagged, IsFlaggedUnless};
ghost use Rattle.sv8_evidence.specs.declared.signs.Sign.TheVariants as sign;
ghost use Rattle.sv8_workbench.specs.Shown.{machine_state};
ghost use Rattle.sv8_search.specs.Touching.{NonePokes, pokes_at, IsUntouched, IsUnreached, ShowsNone};

use sv8_bench::Bench;
use sv8_evidence::Sign;
use sv8_phys::TouchKind;
use sv8_time::{Timeline, WordPoke};
use sv8_trace::Checkpoint;

/// How many bytes an instruction has.
const INSTRUCTION_SIZE: u32 = 4;

/// Whether a byte is one of so many from an address on.
fn is_within(address: u32, count: u32, byte: u64) -> bool
    ensures { result ≡ is_within address count byte }
{
    let first = address as u64;
    first <= byte && byte < first + count as u64
}

/// Whether one of the poked bytes of a word is one of so many from an address on.
#[tactic(auto, using(crate::proofs::Untouched::four_bytes))]
fn word_pokes(word: &WordPoke, address: u32, count: u32) -> bool
    ensures { result ≡ pokes_any address count (poked_bytes word.now) }
{
    let at = word.address as u64;
    let [first, second, third, fourth] = word.bytes;
    (first.is_some() && is_within(address, count, at))
        || ((second.is_some() && is_within(address, count, at + 1))
            || ((third.is_some() && is_within(address, count, at + 2))
                || (fourth.is_some() && is_within(address, count, at + 3))))
}

/// Whether one of the poked bytes of several words is.
#[tactic(auto, using(crate::proofs::Untouched::more_words))]
fn words_poke(words: &[WordPoke], address: u32, count: u32) -> bool
    ensures { result ≡ pokes_any address count (bytes_of_words words.now) }
{
    let mut rest = words;
    while let [word, after @ ..] = rest {
        if word_pokes(word, address, count) {
            return true;
        }
        rest = after;
    }
    false
}

/// Whether the events of a step from one on and below another poke one of so many bytes. Steps without events are one look at a
/// flag each.
fn pokes_between(timeline: &Timeline, address: u32, count: u32, from: u32, to: u32) -> bool
    ensures { MatchBool result (NonePokes timeline.now address count from to → ⊥) (NonePokes timeline.now address count from to) }
{
    if !timeline.may_have_events_between(from, to) {
        return false;
    }
    for n in from..to {
        let events = timeline.events(n);
        if words_poke(events.pokes, address, count) {
            return true;
        }
    }
    false
}

/// Sets the flag of each step whose events poke one of so many bytes. Flag number i is that of step `from + i`.
fn flag_poking(timeline: &Timeline, address: u32, count: u32, from: u32, flags: &mut [bool])
    requires within { from + length flags.old ≤ 1000000 }
    ensures { IsFlagged (λ i. pokes_at timeline.now address count (from + i)) flags.old flags.new }
{
    let end = from + flags.len() as u32;
    if !timeline.may_have_events_between(from, end) {
        return;
    }
    for place in 0..flags.len() {
        let events = timeline.events(from + place as u32);
        if words_poke(events.pokes, address, count) {
            flags[place] = true;
        }
    }
}

/// Whether the steps from `from` on and below `to` are recorded, none of them touches the word of one of so many bytes of
/// RAM from an address on, by the touches that count, and none of their events pokes one of these bytes. It makes no
/// step.
///
/// A condition on these bytes is then met by none of these steps (`spared_steps_miss` of `sv8_watch`).
pub fn is_untouched<const NW: usize, const PAGES: usize, const K: u32>(
    bench: &Bench<NW, PAGES, K>,
    kind: TouchKind,
    address: u32,
    count: u32,
    from: u32,
    to: u32,
) -> bool
    requires within { address + count ≤ 0x1_0000_0000 }
    ensures { MatchBool result (IsUntouched kind K bench.now address count from to) (IsUntouched kind K bench.now address count from to → ⊥) }
{
    bench.sizes();
    let trace = bench.trace();
    if to > bench.recorded() {
        return false;
    }
    sv8_evidence::is_untouched(trace, kind, address, count, from, to)
        && !pokes_between(bench.timeline(), address, count, from, to)
}

/// Sets the flag of each step of one interval for which `is_untouched` does not hold. Flag number i is that of step
/// `from + i`. These steps have to be recorded. It looks at each note of the interval once, and makes no step.
pub(crate) fn flag_touching<const NW: usize, const PAGES: usize, const K: u32>(
    bench: &Bench<NW, PAGES, K>,
    kind: TouchKind,
    address: u32,
    count: u32,
    from: u32,
    flags: &mut [bool],
)
    requires within { address + count ≤ 0x1_0000_0000 }
    requires recorded { from + length flags.old ≤ recorded K bench.now.recording }
    requires interval { from % K + length flags.old ≤ K }
    ensures { IsFlaggedUnless (λ i. IsUntouched kind K bench.now address count (from + i) (from + i + 1)) flags.old flags.new }
{
    bench.sizes();
    let _recorded = bench.recorded();
    let trace = bench.trace();
    sv8_evidence::flag_touching(trace, kind, address, count, from, flags);
    flag_poking(bench.timeline(), address, count, from, flags);
}

/// The same of the word at an address, where addresses are translated in no state before a step of the interval; else
/// it sets all flags. A step whose flag is not set reaches no instruction at the address.
pub(crate) fn flag_reaching<const NW: usize, const PAGES: usize, const K: u32>(
    bench: &Bench<NW, PAGES, K>,
    address: u32,
    from: u32,
    flags: &mut [bool],
)
    requires within { address + 4 ≤ 0x1_0000_0000 }
    requires recorded { from + length flags.old ≤ recorded K bench.now.recording }
    requires interval { from % K + length flags.old ≤ K }
    ensures count { length flags.new ≡ length flags.old }
    ensures spared { (i : ℕ) → i < length flags.old → slice_index_or flags.new i false ≡ false
        → (slice_index_or flags.old i false ≡ false) × IsUnreached K bench.now address (from + i) (from + i + 1) }
{
    bench.sizes();
    let _recorded = bench.recorded();
    let trace = bench.trace();
    let end = from + flags.len() as u32;
    if sv8_evidence::shows_none(trace, Sign::Translation, from, end) {
        flag_touching(
            bench,
            TouchKind::Any,
            address,
            INSTRUCTION_SIZE,
            from,
            flags,
        );
    } else {
        flags.fill(true);
    }
}

/// Whether `is_untouched` holds of the word at an address and the steps from `from` on and below `to`, and addresses
/// are translated in no state before a step of the intervals in which these steps lie. It makes no step.
///
/// None of these steps then reaches an instruction at the address, where its word lies in RAM (`spared_pcs_miss` of
/// `sv8_watch`).
pub fn is_unreached<const NW: usize, const PAGES: usize, const K: u32>(
    bench: &Bench<NW, PAGES, K>,
    address: u32,
    from: u32,
    to: u32,
) -> bool
    requires within { address + 4 ≤ 0x1_0000_0000 }
    ensures { MatchBool result (IsUnreached K bench.now address from to)
        (IsUntouched Any K bench.now address 4 from to → NoneShows Sign.Translation K bench.now.recording from to → ⊥) }
{
    bench.sizes();
    let _recorded = bench.recorded();
    let trace = bench.trace();
    is_untouched(bench, TouchKind::Any, address, INSTRUCTION_SIZE, from, to)
        && sv8_evidence::shows_none(trace, Sign::Translation, from, to)
}

/// Whether the steps from `from` on and below `to` are recorded, and the record has none of them with a sign. It makes no
/// step. `Sign::Translation` is noted of all steps of an interval together, each other sign of each step.
///
/// None of these steps then takes a trap or an interrupt (`trapless_steps_miss` of `sv8_watch`), or none of a type
/// (`other_types_miss`).
pub fn shows_none<const NW: usize, const PAGES: usize, const K: u32>(
    bench: &Bench<NW, PAGES, K>,
    sign: Sign,
    from: u32,
    to: u32,
) -> bool
    ensures { MatchBool result (ShowsNone sign K bench.now from to)
        (to ≤ recorded K bench.now.recording → NoneShows sign K bench.now.recording from to → ⊥) }
{
    bench.sizes();
    let trace = bench.trace();
    if bench.recorded() < to {
        return false;
    }
    sv8_evidence::shows_none(trace, sign, from, to)
}

/// Sets the flag of each step of one interval, from `from` on, that the record has with a sign. Flag number i is that of
/// step `from + i`. These steps have to be recorded. It makes none.
///
/// A step whose flag stays unset takes no trap, or none of the type (`trapless_steps_miss`, `other_types_miss` of
/// `sv8_watch`).
pub fn flag_shown<const NW: usize, const PAGES: usize, const K: u32>(
    bench: &Bench<NW, PAGES, K>,
    sign: Sign,
    from: u32,
    flags: &mut [bool],
)
    requires recorded { from + length flags.old ≤ recorded K bench.now.recording }
    requires interval { from % K + length flags.old ≤ K }
    ensures flagged { IsFlaggedUnless (λ i. NoneShows sign K bench.now.recording (from + i) (from + i + 1)) flags.old flags.new }
    ensures spared { (i : ℕ) → i < length flags.old → slice_index_or flags.new i false ≡ false → ShowsNone sign K bench.now (from + i) (from + i + 1) }
{
    bench.sizes();
    let _recorded = bench.recorded();
    let trace = bench.trace();
    sv8_evidence::flag_shown(trace, sign, from, flags);
}

/// What is read of the checkpoint of a step, where the step is a multiple of `K` and recorded; `None` elsewhere. It makes
/// no step.
///
/// Where the machine runs there, no step below leads to error mode (`running_steps_miss` of `sv8_watch`). Between two
/// checkpoints with as many bytes taken, or put out, no byte is taken, or put out (`quiet_steps_miss`).
pub fn checkpoint<const NW: usize, const PAGES: usize, const K: u32>(
    bench: &Bench<NW, PAGES, K>,
    step: u32,
) -> Option<Checkpoint>
    ensures { MatchOption result (step % K ≡ 0 → step ≤ recorded K bench.now.recording → ⊥)
        (λ c. (step ≤ recorded K bench.now.recording) × IsCheckpoint (machine_state bench.now.kept step) c) }
{
    bench.sizes();
    let trace = bench.trace();
    if step > bench.recorded() {
        return None;
    }
    if step % K != 0 {
        return None;
    }
    Some(trace.checkpoint(step))
}
