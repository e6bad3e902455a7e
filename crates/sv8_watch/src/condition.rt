//! Conditions on a step.

ghost use Rattle.std.specs.Prelude.{◌≡◌, ◌≤◌, ◌+◌, ◌%◌, ◌∷◌, [], false, length};
ghost use Rattle.sv8_phys.specs.Memory.{ram_size};
ghost use Rattle.sv8_cpu.specs.State.{State};
ghost use Rattle.sv8_watch.specs.Watched.{IsBefore, IsStepFrom, happening_of};
ghost use Rattle.sv8_watch.specs.Conditions.{overlap, loads, stores, accesses, is_interrupt, is_reached, is_trap, is_trap_of, is_error, is_touched, differ_from, is_met, meets, AreOld, IsWithin};

use crate::happening::{Access, Outcome};
use crate::watched::{Before, MadeStep, access_in};
use sv8_cpu::Machine;
use sv8_phys::{AccessKind, OutputPlace, Touch};
use sv8_time::Timeline;
use sv8_touches::Watch;

/// A condition on a step. Addresses of memory are physical; `count` bytes from `address` on are meant.
#[derive(Clone, Copy)]
pub enum Condition {
    /// The instruction at this PC is carried out, or traps.
    Pc(u32),
    /// The access of the instruction loads one of these bytes.
    Load { address: u32, count: u32 },
    /// The access of the instruction stores one of these bytes.
    Store { address: u32, count: u32 },
    /// The step reads or writes this word of RAM; fetches and walks through tables count.
    Touch(u32),
    /// One of these bytes is another one after the step.
    Change { address: u32, count: u32 },
    /// A trap or an interrupt is taken, or ends in error mode.
    Trap,
    /// One of this type (tt).
    TrapType(u8),
    /// Error mode begins.
    Error,
    /// A byte is taken from the console.
    Input,
    /// A byte is put out at the console.
    Output,
    /// Something stands in the timeline at the step.
    Event,
    /// The step is a multiple of this number.
    Every(u32),
}

/// Any step that traps, where a condition is wanted and none is there yet.
impl Default for Condition {
    fn default() -> Condition {
        Condition::Trap
    }
}

fn loads(kind: AccessKind) -> bool
    ensures { result ≡ loads kind }
{
    match kind {
        AccessKind::Load | AccessKind::Exchange => true,
        AccessKind::Store => false,
    }
}

fn stores(kind: AccessKind) -> bool
    ensures { result ≡ stores kind }
{
    match kind {
        AccessKind::Store | AccessKind::Exchange => true,
        AccessKind::Load => false,
    }
}

/// Whether an access has a byte in common with so many bytes from an address on.
fn covers(access: Access, address: u32, count: u32) -> bool
    ensures { result ≡ overlap access.pa access.bytes address count }
{
    let from = u64::from(address);
    let end = from + u64::from(count);
    access.pa < end && (from < access.pa || from - access.pa < access.bytes)
}

/// Whether an access loaded one of so many bytes from an address on.
fn loads_any(access: Option<Access>, address: u32, count: u32) -> bool
    ensures { result ≡ accesses loads address count access }
{
    match access {
        Some(access) => loads(access.kind) && covers(access, address, count),
        None => false,
    }
}

/// Whether an access stored one of so many bytes from an address on.
fn stores_any(access: Option<Access>, address: u32, count: u32) -> bool
    ensures { result ≡ accesses stores address count access }
{
    match access {
        Some(access) => stores(access.kind) && covers(access, address, count),
        None => false,
    }
}

fn is_interrupt(tt: u8) -> bool
    ensures { result ≡ is_interrupt tt }
{
    0x10 < tt && tt < 0x20
}

impl Outcome {
    /// The instruction at PC was carried out, or trapped itself.
    pub fn is_reached(self) -> bool
        ensures { result ≡ is_reached self }
    {
        match self {
            Outcome::Stop | Outcome::Annul => false,
            Outcome::Error(tt) | Outcome::Trap(tt) => !is_interrupt(tt),
            Outcome::Run => true,
        }
    }

    /// A trap or an interrupt was taken, or ended in error mode.
    pub fn is_trap(self) -> bool
        ensures { result ≡ is_trap self }
    {
        match self {
            Outcome::Error(_) | Outcome::Trap(_) => true,
            Outcome::Stop | Outcome::Annul | Outcome::Run => false,
        }
    }

    /// The same of one type (tt).
    pub fn is_trap_of(self, kind: u8) -> bool
        ensures { result ≡ is_trap_of kind self }
    {
        match self {
            Outcome::Error(tt) | Outcome::Trap(tt) => tt == kind,
            Outcome::Stop | Outcome::Annul | Outcome::Run => false,
        }
    }

    /// Error mode began.
    pub fn is_error(self) -> bool
        ensures { result ≡ is_error self }
    {
        match self {
            Outcome::Error(_) => true,
            Outcome::Stop | Outcome::Trap(_) | Outcome::Annul | Outcome::Run => false,
        }
    }
}

/// Whether a word was read or written.
pub fn is_touched(address: u32, touches: &[Touch]) -> bool
    ensures { result ≡ is_touched address touches.now }
{
    touches.iter().any(
        |touch| matches!(*touch, Touch::Read(word) | Touch::Write(word) if word == address),
    )
}

/// Whether one of four bytes is another one than that of RAM, from a multiple of 4 on.
#[inline(always)]
fn is_other_word<const NW: usize, const PAGES: usize>(
    first: u8,
    second: u8,
    third: u8,
    fourth: u8,
    address: u32,
    machine: &Machine<NW, PAGES>,
) -> bool
    requires few_windows { NW ≤ 32 }
    requires few_pages { PAGES ≤ 65536 }
    requires aligned { address % 4 ≡ 0 }
    requires within { address + 4 ≤ ram_size PAGES }
    ensures { result ≡ differ_from (first ∷ second ∷ third ∷ fourth ∷ []) address machine.now.memory.ram }
{
    let _size = machine.ram_size();
    machine.word(address) != u32::from_be_bytes([first, second, third, fourth])
}

/// Whether one of some bytes is another one than that of RAM, from an address on.
fn differ_by_byte<const NW: usize, const PAGES: usize>(
    old: &[u8],
    address: u32,
    machine: &Machine<NW, PAGES>,
) -> bool
    requires few_windows { NW ≤ 32 }
    requires few_pages { PAGES ≤ 65536 }
    requires within { address + length old.now ≤ ram_size PAGES }
    ensures { result ≡ differ_from old.now address machine.now.memory.ram }
{
    let mut rest = old;
    let mut at = address;
    while let [byte, after @ ..] = rest {
        if *byte != machine.byte(at) {
            return true;
        }
        rest = after;
        at += 1;
    }
    false
}

/// The same; four bytes at a multiple of 4 are compared as a word.
#[inline(always)]
fn differ<const NW: usize, const PAGES: usize>(
    old: &[u8],
    address: u32,
    machine: &Machine<NW, PAGES>,
) -> bool
    requires few_windows { NW ≤ 32 }
    requires few_pages { PAGES ≤ 65536 }
    requires within { address + length old.now ≤ ram_size PAGES }
    ensures { result ≡ differ_from old.now address machine.now.memory.ram }
{
    match old {
        [first, second, third, fourth] if address % 4 == 0 => {
            is_other_word(*first, *second, *third, *fourth, address, machine)
        }
        _ => differ_by_byte(old, address, machine),
    }
}

/// Whether so many bytes of the output are another number than before.
#[inline(always)]
fn is_other_end(before: OutputPlace, after: OutputPlace) -> bool
    ensures { result ≡ false → (before.piece ≡ after.piece) × (before.place ≡ after.place) }
{
    before.piece != after.piece || before.place != after.place
}

impl Condition {
    /// Whether a step may meet the condition, by what was kept of the machine before it, by the machine after it, and by its
    /// notes: where the answer is false, the step does not. It takes less time than `is_met`. That the answer is false
    /// wherever it could be is no part of the contract: true costs time alone. `old` are as for `is_met`.
    #[inline(always)]
    pub fn may_be_met<const NW: usize, const PAGES: usize>(
        self,
        n: u32,
        timeline: &Timeline,
        before: &Before,
        after: &Machine<NW, PAGES>,
        watch: &Watch,
        old: &[u8],
    ) -> bool
        requires few_windows { NW ≤ 32 }
        requires few_pages { PAGES ≤ 65536 }
        requires within { IsWithin (ram_size PAGES) self old.now }
        ensures { (s : State) → IsStepFrom NW PAGES timeline.now n s before.now after.now watch.now → AreOld self old.now s → result ≡ false
            → meets NW PAGES timeline.now n s self ≡ false }
    {
        match self {
            Condition::Pc(address) => before.pc == address,
            Condition::Load { address, count } => {
                loads_any(access_in(watch.observations()), address, count)
            }
            Condition::Store { address, count } => {
                stores_any(access_in(watch.observations()), address, count)
            }
            Condition::Trap | Condition::Error => before.running && after.is_at_trap(),
            Condition::TrapType(trap_type) => before.running && after.is_at_trap_of(trap_type),
            Condition::Input => before.taken != after.taken(),
            Condition::Output => is_other_end(before.put, after.output_end()),
            Condition::Event => timeline.may_have_events(n),
            Condition::Every(number) => number > 0 && n % number == 0,
            Condition::Touch(address) => is_touched(address, watch.touches()),
            Condition::Change { address, .. } => differ(old, address, after),
        }
    }

    /// Whether a step meets the condition. `old` are the bytes of a `Change` in front of the step; for other conditions it
    /// is not looked at.
    #[inline(always)]
    pub fn is_met<const NW: usize, const PAGES: usize>(
        self,
        step: &MadeStep<'_, NW, PAGES>,
        old: &[u8],
    ) -> bool
        requires few_windows { NW ≤ 32 }
        requires few_pages { PAGES ≤ 65536 }
        requires within { IsWithin (ram_size PAGES) self old.now }
        ensures { (before : State) → IsBefore before step.now.before → AreOld self old.now before
            → result ≡ is_met step.now.n before step.now.after.now (happening_of before step.now) step.now.watch.now.touches self }
    {
        match self {
            Condition::Pc(address) => step.before.pc == address && step.outcome().is_reached(),
            Condition::Load { address, count } => loads_any(step.access(), address, count),
            Condition::Store { address, count } => stores_any(step.access(), address, count),
            Condition::Touch(address) => is_touched(address, step.watch.touches()),
            Condition::Change { address, .. } => differ(old, address, step.after),
            Condition::Trap => step.outcome().is_trap(),
            Condition::TrapType(tt) => step.outcome().is_trap_of(tt),
            Condition::Error => !step.after.is_running() && step.outcome().is_error(),
            Condition::Input => step.taken().is_some(),
            Condition::Output => step.put().is_some(),
            Condition::Event => step.has_event(),
            Condition::Every(number) => number > 0 && step.n % number == 0,
        }
    }
}
