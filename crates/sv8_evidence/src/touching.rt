//! Whether recorded steps leave bytes of RAM alone.

ghost use Rattle.std.specs.Prelude.{◌+◌, ◌/◌, ◌%◌, ◌<◌, ◌≤◌, false, length, MatchBool};
ghost use Rattle.sv8_model.specs.declared.touch.TouchKind.{TouchKind};
ghost use Rattle.sv8_notes.specs.Flags.{IsFlaggedUnless};
ghost use Rattle.sv8_trace.specs.Recording.{recorded};
ghost use Rattle.sv8_evidence.specs.Touching.{NoneTouches};

use sv8_notes::{Cell, Sought};
use sv8_phys::TouchKind;
use sv8_trace::Trace;

/// How many bytes a word has.
const WORD_SIZE: u32 = 4;

/// A step from which on no recorded step touches the word of one of so many bytes, by the marks of these words.
fn end_of_bytes<const NW: usize, const PAGES: usize, const K: u32>(
    trace: &Trace<NW, PAGES, K>,
    address: u32,
    count: u32,
) -> u32
    requires some { 1 ≤ count }
    requires within { address + count ≤ 0x1_0000_0000 }
    ensures end { result ≤ recorded K trace.now }
    ensures none { (kind : TouchKind) → NoneTouches kind NW PAGES K trace.now address count result (recorded K trace.now) }
{
    trace.sizes();
    let last = address + (count - 1);
    let mut end = 0;
    for word in address / WORD_SIZE..last / WORD_SIZE + 1 {
        let cell = Cell::Byte(WORD_SIZE * word);
        end = end.max(trace.end_of(Sought::Touch(cell)));
    }
    end
}

/// Whether a step from one on and below another touches the word of one of so many bytes, by the touches that count. It
/// looks at each note once.
fn touches_between<const NW: usize, const PAGES: usize, const K: u32>(
    trace: &Trace<NW, PAGES, K>,
    kind: TouchKind,
    address: u32,
    count: u32,
    from: u32,
    end: u32,
) -> bool
    requires some { 1 ≤ count }
    requires within { address + count ≤ 0x1_0000_0000 }
    requires recorded { end ≤ recorded K trace.now }
    ensures { MatchBool result (NoneTouches kind NW PAGES K trace.now address count from end → ⊥) (NoneTouches kind NW PAGES K trace.now address count from end) }
{
    trace.sizes();
    let low = WORD_SIZE * (address / WORD_SIZE);
    let last = address + (count - 1);
    let mut start = from;
    while start < end {
        let base = K * (start / K);
        let stop = K.min(end - base);
        let notes = trace.notes(start);
        if notes.touches_any(kind, low, last, start % K, stop) {
            return true;
        }
        start = base + stop;
    }
    false
}

/// Whether no step from `from` on and below `to` touches the word of one of so many bytes of RAM from an address on, by
/// the touches that count. These steps have to be recorded.
///
/// Where the words were last touched in an interval below `from`, it looks at their marks alone.
pub fn is_untouched<const NW: usize, const PAGES: usize, const K: u32>(
    trace: &Trace<NW, PAGES, K>,
    kind: TouchKind,
    address: u32,
    count: u32,
    from: u32,
    to: u32,
) -> bool
    requires within { address + count ≤ 0x1_0000_0000 }
    requires recorded { to ≤ recorded K trace.now }
    ensures { MatchBool result (NoneTouches kind NW PAGES K trace.now address count from to) (NoneTouches kind NW PAGES K trace.now address count from to → ⊥) }
{
    if count == 0 {
        return true;
    }
    let end = to.min(end_of_bytes(trace, address, count));
    !touches_between(trace, kind, address, count, from, end)
}

/// Sets the flag of each step of one interval that touches the word of one of so many bytes of RAM from an address on,
/// by the touches that count. Flag number i is that of step `from + i`. These steps have to be recorded. It looks at
/// each note once.
pub fn flag_touching<const NW: usize, const PAGES: usize, const K: u32>(
    trace: &Trace<NW, PAGES, K>,
    kind: TouchKind,
    address: u32,
    count: u32,
    from: u32,
    flags: &mut [bool],
)
    requires within { address + count ≤ 0x1_0000_0000 }
    requires recorded { from + length flags.old ≤ recorded K trace.now }
    requires interval { from % K + length flags.old ≤ K }
    ensures { IsFlaggedUnless (λ i. NoneTouches kind NW PAGES K trace.now address count (from + i) (from + i + 1)) flags.old flags.new }
{
    trace.sizes();
    if count == 0 || flags.is_empty() {
        return;
    }
    let low = WORD_SIZE * (address / WORD_SIZE);
    let last = address + (count - 1);
    let notes = trace.notes(from);
    notes.flag_touching(kind, low, last, from % K, flags);
}
