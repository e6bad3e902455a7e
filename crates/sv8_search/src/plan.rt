//! Plans of a search: which steps of an interval it has to look at, by what the record and the timeline show of them.

ghost use Rattle.std.specs.Prelude.{◌≡◌, ℕ, ◌+◌, ◌%◌, ◌/◌, ◌<◌, ◌≤◌, ◌==◌, ◌&&◌, nat_lt, true, false, length, slice_index_or, IfOk, OnOk};
ghost use Rattle.sv8_phys.specs.Memory.{ram_size};
ghost use Rattle.sv8_trace.specs.Recording.{recorded};
ghost use Rattle.sv8_notes.specs.Flags.{IsFlagged};
ghost use Rattle.sv8_bench.specs.Workbench.{checkpoints};
ghost use Rattle.sv8_watch.specs.declared.condition.Condition.TheVariants as condition;
ghost use Rattle.sv8_watch.specs.Happening.{stands_at};
ghost use Rattle.sv8_search.specs.Plans.{HasFlagsOf, HasFlagsOfAll, IsPlan};
ghost use Rattle.sv8_search.specs.Search.{are_inside, is_inside, is_wanted};

use crate::evidence::{puts_none, show_none, takes_none};
use crate::touching;
use std::alloc::{AllocError, Global};
use sv8_bench::Bench;
use sv8_evidence::Sign;
use sv8_time::Timeline;
use sv8_watch::{Condition, stands_at};

/// Whether a search has to look at each of some steps, which follow one another. No other one of them is wanted.
#[derive(Drop)]
pub(crate) struct Plan {
    /// The first of the steps.
    pub start: u32,
    /// Of each step whether the search has to look at it.
    pub flags: Vec<bool>,
}

/// Sets the flag of each step at which something stands in a timeline. Flag number i is that of step `from + i`.
fn flag_events(timeline: &Timeline, from: u32, flags: &mut [bool])
    requires within { from + length flags.old ≤ 1000000 }
    ensures { IsFlagged (λ i. stands_at timeline.now (from + i)) flags.old flags.new }
{
    for place in 0..flags.len() {
        if stands_at(timeline, from + place as u32) {
            flags[place] = true;
        }
    }
}

/// Sets the flag of each step that is a multiple of a number above 0. Flag number i is that of step `from + i`.
fn flag_multiples(number: u32, from: u32, flags: &mut [bool])
    requires within { from + length flags.old ≤ 1000000 }
    ensures { IsFlagged (λ i. nat_lt 0 number && (from + i) % number == 0) flags.old flags.new }
{
    if number == 0 {
        return;
    }
    let mut past = from % number;
    for place in 0..flags.len() {
        if past == 0 {
            flags[place] = true;
        }
        past = if past + 1 == number { 0 } else { past + 1 };
    }
}

/// Sets the flag of each step that may reach an instruction at an address; of all where its word does not lie in RAM.
fn flag_reaching<const NW: usize, const PAGES: usize, const K: u32>(
    bench: &Bench<NW, PAGES, K>,
    address: u32,
    from: u32,
    flags: &mut [bool],
)
    requires recorded { from + length flags.old ≤ recorded K bench.now.recording }
    requires interval { from % K + length flags.old ≤ K }
    ensures { HasFlagsOf bench.now.kept (condition.Pc address) from flags.old flags.new }
{
    bench.sizes();
    if u64::from(address) + 4 <= 4_096 * PAGES as u64 {
        touching::flag_reaching(bench, address, from, flags);
    } else {
        flags.fill(true);
    }
}

/// Sets the flag of each step that may meet a condition on bytes of RAM; of all where it is another condition.
fn flag_touching<const NW: usize, const PAGES: usize, const K: u32>(
    bench: &Bench<NW, PAGES, K>,
    condition: Condition,
    from: u32,
    flags: &mut [bool],
)
    requires inside { is_inside (ram_size PAGES) condition ≡ true }
    requires recorded { from + length flags.old ≤ recorded K bench.now.recording }
    requires interval { from % K + length flags.old ≤ K }
    ensures { HasFlagsOf bench.now.kept condition from flags.old flags.new }
{
    bench.sizes();
    match condition.span() {
        Some(span) => touching::flag_touching(
            bench,
            condition.touch_kind(),
            span.address,
            span.count,
            from,
            flags,
        ),
        None => flags.fill(true),
    }
}

/// Sets the flags of all steps, unless the record shows that none of them meets a condition on the console.
fn flag_unless_quiet<const NW: usize, const PAGES: usize, const K: u32>(
    bench: &Bench<NW, PAGES, K>,
    condition: Condition,
    from: u32,
    flags: &mut [bool],
)
    requires within { from + length flags.old ≤ 1000000 }
    requires recorded { from + length flags.old ≤ recorded K bench.now.recording }
    ensures { HasFlagsOf bench.now.kept condition from flags.old flags.new }
{
    let end = from + flags.len() as u32;
    let is_quiet = match condition {
        Condition::Input => takes_none(bench, from, end),
        Condition::Output => puts_none(bench, from, end),
        _ => false,
    };
    if !is_quiet {
        flags.fill(true);
    }
}

/// Sets the flag of each step of one recorded interval that may meet a condition. Flag number i is that of step `from + i`.
fn flag_condition<const NW: usize, const PAGES: usize, const K: u32>(
    bench: &Bench<NW, PAGES, K>,
    condition: Condition,
    from: u32,
    flags: &mut [bool],
)
    requires inside { is_inside (ram_size PAGES) condition ≡ true }
    requires within { from + length flags.old ≤ 1000000 }
    requires recorded { from + length flags.old ≤ recorded K bench.now.recording }
    requires interval { from % K + length flags.old ≤ K }
    ensures { HasFlagsOf bench.now.kept condition from flags.old flags.new }
{
    match condition {
        Condition::Pc(address) => flag_reaching(bench, address, from, flags),
        Condition::Trap | Condition::Error => {
            touching::flag_shown(bench, Sign::Trap, from, flags);
        }
        Condition::TrapType(trap_type) => {
            touching::flag_shown(bench, Sign::TrapType(trap_type), from, flags);
        }
        Condition::Input | Condition::Output => flag_unless_quiet(bench, condition, from, flags),
        Condition::Event => flag_events(bench.timeline(), from, flags),
        Condition::Every(number) => flag_multiples(number, from, flags),
        Condition::Load { .. }
        | Condition::Store { .. }
        | Condition::Touch(_)
        | Condition::Change { .. } => flag_touching(bench, condition, from, flags),
    }
}

/// Sets the flag of each step of one recorded interval that may meet one of some conditions.
fn flag_all<const NW: usize, const PAGES: usize, const K: u32>(
    bench: &Bench<NW, PAGES, K>,
    conditions: &[Condition],
    from: u32,
    flags: &mut [bool],
)
    requires inside { are_inside (ram_size PAGES) conditions.now ≡ true }
    requires within { from + length flags.old ≤ 1000000 }
    requires recorded { from + length flags.old ≤ recorded K bench.now.recording }
    requires interval { from % K + length flags.old ≤ K }
    ensures { HasFlagsOfAll bench.now.kept conditions.now from flags.old flags.new }
{
    let mut rest = conditions;
    while let [first, others @ ..] = rest {
        flag_condition(bench, *first, from, flags);
        rest = others;
    }
}

impl Plan {
    /// Of no steps. It takes no memory.
    pub(crate) fn new(alloc: Global) -> Plan
        ensures start { result.start ≡ 0 }
        ensures empty { length result.flags.items ≡ 0 }
    {
        Plan {
            start: 0,
            flags: Vec::new(alloc),
        }
    }

    /// Lets go what is planned. The memory of the flags stays.
    pub(crate) fn forget(&mut self)
        ensures start { self.new.start ≡ 0 }
        ensures empty { length self.new.flags.items ≡ 0 }
    {
        self.start = 0;
        self.flags.clear();
    }

    /// The step behind those that are planned.
    #[inline(always)]
    fn end(&self) -> u64
        ensures { result ≡ self.now.start + length self.now.flags.items }
    {
        u64::from(self.start) + self.flags.len() as u64
    }

    /// Plans the steps from one on and below another one, and at most those of one interval.
    ///
    /// # Errors
    ///
    /// `AllocError` where memory for the flags cannot be had.
    #[inline(never)]
    fn make<const NW: usize, const PAGES: usize, const K: u32>(
        &mut self,
        bench: &Bench<NW, PAGES, K>,
        conditions: &[Condition],
        step: u32,
        to: u32,
    ) -> Result<(), AllocError>
        requires below { step < to }
        requires within { to ≤ 1000000 }
        requires inside { are_inside (ram_size PAGES) conditions.now ≡ true }
        ensures plan { OnOk result (IsPlan K bench.now conditions.now self.new.start self.new.flags.items) }
        ensures start { OnOk result (self.new.start ≡ step) }
        ensures some { OnOk result (0 < length self.new.flags.items) }
        ensures low { OnOk result (self.new.start + length self.new.flags.items ≤ 1000000) }
    {
        bench.sizes();
        let end = to.min(step - step % K + K);
        let count = (end - step) as usize;
        self.start = step;
        self.flags.clear();
        if conditions.is_empty() || bench.recorded() < end {
            self.flags.resize(count, true)?;
            return Ok(());
        }
        self.flags.resize(count, false)?;
        if !show_none(bench, conditions, step, end) {
            flag_all(bench, conditions, step, &mut self.flags);
        }
        Ok(())
    }

    /// The first step from one on whose flag is set, or the step behind the last one.
    #[inline(always)]
    fn next(&self, step: u32) -> u32
        requires begun { self.now.start ≤ step }
        requires inside { step < self.now.start + length self.now.flags.items }
        requires within { self.now.start + length self.now.flags.items ≤ 1000000 }
        ensures ordered { step ≤ result }
        ensures end { result ≤ self.now.start + length self.now.flags.items }
        ensures unset { (i : ℕ) → step ≤ self.now.start + i → self.now.start + i < result → slice_index_or self.now.flags.items i false ≡ false }
    {
        let mut place = (step - self.start) as usize;
        while place < self.flags.len() && !self.flags[place] {
            place += 1;
        }
        self.start + place as u32
    }

    /// Plans on where the plan has come to its end below a step.
    ///
    /// # Errors
    ///
    /// `AllocError` where memory for the flags cannot be had.
    #[inline(always)]
    fn reach<const NW: usize, const PAGES: usize, const K: u32>(
        &mut self,
        bench: &Bench<NW, PAGES, K>,
        conditions: &[Condition],
        step: u32,
        to: u32,
    ) -> Result<(), AllocError>
        requires below { step < to }
        requires within { to ≤ 1000000 }
        requires inside { are_inside (ram_size PAGES) conditions.now ≡ true }
        requires plan { IsPlan K bench.now conditions.now self.old.start self.old.flags.items }
        requires begun { self.old.start ≤ step }
        requires low { self.old.start + length self.old.flags.items ≤ 1000000 }
        ensures plan { OnOk result (IsPlan K bench.now conditions.now self.new.start self.new.flags.items) }
        ensures begun { OnOk result (self.new.start ≤ step) }
        ensures inside { OnOk result (step < self.new.start + length self.new.flags.items) }
        ensures low { OnOk result (self.new.start + length self.new.flags.items ≤ 1000000) }
    {
        if self.end() <= u64::from(step) {
            self.make(bench, conditions, step, to)?;
        }
        Ok(())
    }

    /// Up to which step none is wanted, from one on; the step itself where the search has to look at it. It plans on where
    /// the plan has come to its end.
    ///
    /// # Errors
    ///
    /// `AllocError` where memory for the flags cannot be had.
    #[inline(always)]
    pub(crate) fn passable<const NW: usize, const PAGES: usize, const K: u32>(
        &mut self,
        bench: &Bench<NW, PAGES, K>,
        conditions: &[Condition],
        step: u32,
        to: u32,
    ) -> Result<u32, AllocError>
        requires below { step < to }
        requires within { to ≤ 1000000 }
        requires inside { are_inside (ram_size PAGES) conditions.now ≡ true }
        requires plan { IsPlan K bench.now conditions.now self.old.start self.old.flags.items }
        requires begun { self.old.start ≤ step }
        requires low { self.old.start + length self.old.flags.items ≤ 1000000 }
        ensures plan { OnOk result (IsPlan K bench.now conditions.now self.new.start self.new.flags.items) }
        ensures begun { OnOk result (self.new.start ≤ step) }
        ensures low { OnOk result (self.new.start + length self.new.flags.items ≤ 1000000) }
        ensures none { IfOk result (λ end. (n : ℕ) → step ≤ n → n < end → is_wanted bench.now.kept conditions.now n ≡ false) }
        ensures ordered { IfOk result (λ end. step ≤ end) }
        ensures end { IfOk result (λ end. end ≤ to) }
        ensures recorded { IfOk result (λ end. step < end → end / K ≤ checkpoints bench.now) }
    {
        bench.sizes();
        self.reach(bench, conditions, step, to)?;
        let end = self.next(step).min(to);
        Ok(end)
    }
}
