//! What the record and the timeline show of conditions, without a step: that no step of a range meets one.

ghost use Rattle.std.specs.Prelude.{◌≡◌, ℕ, ◌+◌, ◌%◌, ◌/◌, ◌*◌, ◌<◌, ◌≤◌, ◌==◌, ◌&&◌, nat_lt, true, false};
ghost use Rattle.std.specs.List.{list_any};
ghost use Rattle.sv8_phys.specs.Memory.{ram_size};
ghost use Rattle.sv8_workbench.specs.Shown.{machine_state};
ghost use Rattle.sv8_bench.specs.Workbench.{checkpoints};
ghost use Rattle.sv8_trace.specs.Recording.{recorded};
ghost use Rattle.sv8_watch.specs.declared.condition.Condition.TheVariants as condition;
ghost use Rattle.sv8_watch.specs.Conditions.{meets};
ghost use Rattle.sv8_watch.specs.Happening.{stands_at};
ghost use Rattle.sv8_search.specs.Search.{are_inside, is_inside, is_wanted, MeetsNone};

use crate::touching;
use sv8_bench::Bench;
use sv8_evidence::Sign;
use sv8_time::Timeline;
use sv8_watch::{Condition, stands_at};

/// Whether the record shows that no step of a range reaches an instruction at an address. It shows nothing of an address
/// whose word does not lie in RAM.
fn reaches_none<const NW: usize, const PAGES: usize, const K: u32>(
    bench: &Bench<NW, PAGES, K>,
    address: u32,
    from: u32,
    to: u32,
) -> bool
    ensures { result ≡ true → MeetsNone bench.now.kept (condition.Pc address) from to }
{
    bench.sizes();
    u64::from(address) + 4 <= 4_096 * PAGES as u64
        && touching::is_unreached(bench, address, from, to)
}

/// Whether the notes of the recorded run show that no step of a range meets a condition on bytes of RAM. They show nothing
/// of another condition.
fn touches_none<const NW: usize, const PAGES: usize, const K: u32>(
    bench: &Bench<NW, PAGES, K>,
    condition: Condition,
    from: u32,
    to: u32,
) -> bool
    requires inside { is_inside (ram_size PAGES) condition ≡ true }
    ensures { result ≡ true → MeetsNone bench.now.kept condition from to }
{
    bench.sizes();
    match condition.span() {
        Some(span) => {
            touching::is_untouched(
                bench,
                condition.touch_kind(),
                span.address,
                span.count,
                from,
                to,
            )
        }
        None => false,
    }
}

/// Whether the record shows that no step of a range leads to error mode: the machine runs at the checkpoint at its end.
fn errs_none<const NW: usize, const PAGES: usize, const K: u32>(
    bench: &Bench<NW, PAGES, K>,
    from: u32,
    to: u32,
) -> bool
    ensures { result ≡ true → MeetsNone bench.now.kept condition.Error from to }
{
    match touching::checkpoint(bench, to) {
        Some(last) => last.running,
        None => false,
    }
}

/// Whether the record shows that no step of a range takes a byte from the console: at the checkpoints at both ends as many
/// have been taken.
pub(crate) fn takes_none<const NW: usize, const PAGES: usize, const K: u32>(
    bench: &Bench<NW, PAGES, K>,
    from: u32,
    to: u32,
) -> bool
    ensures { result ≡ true → MeetsNone bench.now.kept condition.Input from to }
{
    match touching::checkpoint(bench, from) {
        Some(first) => match touching::checkpoint(bench, to) {
            Some(last) => first.taken == last.taken,
            None => false,
        },
        None => false,
    }
}

/// Whether the record shows that no step of a range puts a byte out at the console: at the checkpoints at both ends the next
/// one has the same place.
pub(crate) fn puts_none<const NW: usize, const PAGES: usize, const K: u32>(
    bench: &Bench<NW, PAGES, K>,
    from: u32,
    to: u32,
) -> bool
    ensures { result ≡ true → MeetsNone bench.now.kept condition.Output from to }
{
    match touching::checkpoint(bench, from) {
        Some(first) => match touching::checkpoint(bench, to) {
            Some(last) => {
                first.output_end.piece == last.output_end.piece
                    && first.output_end.place == last.output_end.place
            }
            None => false,
        },
        None => false,
    }
}

/// Whether something stands in a timeline at a step of a range. A step without events is one look at a flag.
fn stands_between(timeline: &Timeline, from: u32, to: u32) -> bool
    ensures { result ≡ false → (n : ℕ) → from ≤ n → n < to → stands_at timeline.now n ≡ false }
{
    for n in from..to {
        if stands_at(timeline, n) {
            return true;
        }
    }
    false
}

/// Whether a range has no multiple of a number above 0: it ends below the next one behind its first step.
fn has_no_multiple(number: u32, from: u32, to: u32) -> bool
    ensures { result ≡ true → (n : ℕ) → from ≤ n → n < to → (nat_lt 0 number && n % number == 0) ≡ false }
{
    if number == 0 {
        return true;
    }
    let past = from % number;
    past > 0 && u64::from(to) <= u64::from(from - past) + u64::from(number)
}

/// Whether the recorded run shows that no step of a range meets a condition.
fn shows_none<const NW: usize, const PAGES: usize, const K: u32>(
    bench: &Bench<NW, PAGES, K>,
    condition: Condition,
    from: u32,
    to: u32,
) -> bool
    requires inside { is_inside (ram_size PAGES) condition ≡ true }
    ensures { result ≡ true → MeetsNone bench.now.kept condition from to }
{
    match condition {
        Condition::Pc(address) => reaches_none(bench, address, from, to),
        Condition::Trap => touching::shows_none(bench, Sign::Trap, from, to),
        Condition::TrapType(trap_type) => {
            touching::shows_none(bench, Sign::TrapType(trap_type), from, to)
        }
        Condition::Error => errs_none(bench, from, to),
        Condition::Input => takes_none(bench, from, to),
        Condition::Output => puts_none(bench, from, to),
        Condition::Event => !stands_between(bench.timeline(), from, to),
        Condition::Every(number) => has_no_multiple(number, from, to),
        _ => touches_none(bench, condition, from, to),
    }
}

/// Whether they show that of each of some conditions.
fn each_shows_none<const NW: usize, const PAGES: usize, const K: u32>(
    bench: &Bench<NW, PAGES, K>,
    conditions: &[Condition],
    from: u32,
    to: u32,
) -> bool
    requires inside { are_inside (ram_size PAGES) conditions.now ≡ true }
    ensures { result ≡ true → (n : ℕ) → from ≤ n → n < to
        → list_any (meets bench.now.kept.windows bench.now.kept.pages bench.now.kept.timeline n (machine_state bench.now.kept n)) conditions.now ≡ false }
{
    let mut rest = conditions;
    while let [first, others @ ..] = rest {
        if !shows_none(bench, *first, from, to) {
            return false;
        }
        rest = others;
    }
    true
}

/// Whether the steps of a range are recorded, and the record shows that none of them is wanted. Where there is no condition
/// each step is.
pub(crate) fn show_none<const NW: usize, const PAGES: usize, const K: u32>(
    bench: &Bench<NW, PAGES, K>,
    conditions: &[Condition],
    from: u32,
    to: u32,
) -> bool
    requires inside { are_inside (ram_size PAGES) conditions.now ≡ true }
    ensures none { result ≡ true → (n : ℕ) → from ≤ n → n < to → is_wanted bench.now.kept conditions.now n ≡ false }
    ensures recorded { result ≡ true → to / K ≤ checkpoints bench.now }
{
    bench.sizes();
    if bench.recorded() < to {
        return false;
    }
    match conditions {
        [] => false,
        [_, ..] => each_shows_none(bench, conditions, from, to),
    }
}
