//! Searches down the steps of a run, interval by interval.

ghost use Rattle.std.specs.Prelude.{◌≡◌, ◌+◌, ◌-◌, ◌*◌, ◌/◌, ◌<◌, ◌≤◌, ◌++◌, true, length, take, map, reverse, IfOk, OnOk};
ghost use Rattle.sv8_phys.specs.Memory.{ram_size};
ghost use Rattle.sv8_search.specs.Search.{are_inside, found_at, is_wanted, rising, falling, sought_to, IsPassedOrSearched, IsSought, IsAbandoned, IsStart};

use crate::evidence::show_none;
use crate::found::Found;
use crate::room::Room;
use crate::search::search_up;
use std::alloc::AllocError;
use sv8_bench::Bench;
use sv8_watch::Condition;

/// Adds steps from the last one on, and at most so many; answers how many more may follow.
fn add_falling(found: &mut Vec<Found>, seen: &[Found], most: u32) -> Result<u32, AllocError>
    ensures found { OnOk result (found.new.items ≡ found.old.items ++ take most (reverse seen.now)) }
    ensures left { IfOk result (λ left. left ≡ most - length seen.now) }
{
    let mut left = most;
    let mut end = seen.len();
    while left > 0 && end > 0 {
        end -= 1;
        found.push(seen[end])?;
        left -= 1;
    }
    Ok(left)
}

/// Adds the steps of an interval, which ends below a step, that meet a condition, from the last one down, and at most so many
/// of them; answers how many more may follow. It makes no step where the notes show that none of them meets one. `seen` and
/// `room` are places, what stands there means nothing.
///
/// # Errors
///
/// `AllocError` where memory for it cannot be had.
fn search_interval<const NW: usize, const PAGES: usize, const K: u32>(
    bench: &mut Bench<NW, PAGES, K>,
    conditions: &[Condition],
    start: u32,
    end: u32,
    most: u32,
    found: &mut Vec<Found>,
    seen: &mut Vec<Found>,
    room: &mut Room,
) -> Result<u32, AllocError>
    requires ordered { start ≤ end }
    requires within { end ≤ 1000000 }
    requires inside { are_inside (ram_size PAGES) conditions.now ≡ true }
    ensures found { OnOk result (found.new.items ≡ found.old.items ++ map (found_at bench.old.kept)
        (take most (reverse (rising (is_wanted bench.old.kept conditions.now) start (end - start) (end - start))))) }
    ensures left { IfOk result (λ left. left ≡ most - length (rising (is_wanted bench.old.kept conditions.now) start (end - start) (end - start))) }
    ensures sought { OnOk result (IsPassedOrSearched K start end bench.old bench.new) }
    ensures given_up { IsAbandoned K start end bench.old bench.new }
{
    if show_none(bench, conditions, start, end) {
        return Ok(most);
    }
    seen.clear();
    search_up(bench, conditions, start, end, end - start, seen, room)?;
    let left = add_falling(found, seen.as_slice(), most)?;
    Ok(left)
}

/// Where the last interval below a step begins: at the checkpoint below it, or at another step that the search does not pass.
fn interval_start<const K: u32>(end: u32, to: u32) -> u32
    requires some_steps { 1 ≤ K }
    requires ordered { to < end }
    ensures { IsStart K to end result }
{
    to.max((end - 1) / K * K)
}

/// Adds the steps below one and not below another that meet a condition, from the last one down, and at most so many of
/// them. It goes from one checkpoint to the one before it, and looks at the steps between them once.
///
/// # Errors
///
/// `AllocError` where memory for it cannot be had.
pub(crate) fn search_down<const NW: usize, const PAGES: usize, const K: u32>(
    bench: &mut Bench<NW, PAGES, K>,
    conditions: &[Condition],
    from: u32,
    to: u32,
    most: u32,
    found: &mut Vec<Found>,
) -> Result<(), AllocError>
    requires ordered { to < from }
    requires within { from ≤ 1000000 }
    requires inside { are_inside (ram_size PAGES) conditions.now ≡ true }
    ensures found { OnOk result (found.new.items ≡ found.old.items
        ++ map (found_at bench.old.kept) (falling (is_wanted bench.old.kept conditions.now) to (from - to) most)) }
    ensures sought { OnOk result (IsSought K from (sought_to (is_wanted bench.old.kept conditions.now) to (from - to) most) bench.old bench.new) }
    ensures given_up { IsSought K from to bench.old bench.new }
{
    bench.sizes();
    let mut seen = Vec::new(bench.alloc());
    let mut room = Room::new(bench.alloc());
    let mut end = from;
    let mut left = most;
    while end > to && left > 0 {
        let start = interval_start::<K>(end, to);
        left = search_interval(
            bench, conditions, start, end, left, found, &mut seen, &mut room,
        )?;
        end = start;
    }
    Ok(())
}
