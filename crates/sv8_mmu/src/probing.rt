//! Probes.

ghost use Rattle.std.specs.Prelude.{◌≡◌, ℕ, ◌<◌, ◌≤◌, ◌+◌, ◌-◌, ◌*◌, ◌/◌, ◌%◌, List, [], length, IfOk, OnErr, true};
ghost use Rattle.sv8_model.specs.Outside.{Outside};
ghost use Rattle.sv8_model.specs.Does.{Does, keeping, touching, no_notes};
ghost use Rattle.sv8_mmu.specs.Walk.{table_of, entry_at, indices_of, walk};
ghost use Rattle.sv8_mmu.specs.Probe.{found, sought, level_probed, entirely_probed, probed_as, probe};
ghost use Rattle.sv8_mmu.specs.Kept.{places_of, reads_of};

use crate::registers::Mmu;
use crate::translation::note_reads;
use crate::walk::{TableIndex, Trail, Walked, entry_at, indices_of, table_of, walk_for};
use std::alloc::AllocError;
use sv8_model::{TableMemory, Touches};

/// What a probe seeks.
#[derive(Clone, Copy)]
pub enum ProbeKind {
    /// The entry of level 3.
    Page,
    /// The entry of level 2.
    Segment,
    /// The entry of level 1.
    Region,
    /// The entry of level 0, in the context table.
    Context,
    /// The entry of a page that the whole walk ends in.
    Entire,
}

/// The entry at the level that is sought, or 0, with the indices into the tables below.
fn found(below: &[TableIndex], entry: u32) -> u32
    ensures { result ≡ found below.now entry }
{
    match below {
        [] => if entry % 4 == 2 { entry } else { 0 },
        [_, ..] => if entry % 4 == 1 || entry % 4 == 2 {
            entry
        } else {
            0
        },
    }
}

/// What an entry leads to where the level that is sought is `depth` levels deeper.
#[tactic(auto, using(crate::proofs::Levels::next_sought, crate::proofs::Levels::none_sought), unfolding(crate::specs::Probe::sought))]
fn sought<R: TableMemory>(
    phys: &R,
    depth: u32,
    below: &[TableIndex],
    entry: u32,
    trail: &mut Trail,
) -> u32
    requires room { trail.old.count + length below.now ≤ 4 }
    ensures { (o : Outside) → Does (keeping true true) (sought R.SIZE depth below.now entry)
        (record o { ram = R.ram phys.now }) (record o { ram = R.ram phys.now }) result (touching (reads_of (places_of trail.old))) (touching (reads_of (places_of trail.new))) }
{
    if depth == 0 {
        return found(below, entry);
    }
    match below {
        [] => 0,
        [to, after @ ..] => {
            if entry % 4 != 1 {
                return 0;
            }
            match entry_at(phys, table_of(entry) + 4 * (to.index as u64), trail) {
                None => 0,
                Some(next) => sought(phys, depth - 1, after, next, trail),
            }
        }
    }
}

/// The value of a probe for the entry at a level.
fn probe_level<R: TableMemory>(
    registers: &Mmu,
    phys: &R,
    level: u32,
    va: u32,
    trail: &mut Trail,
) -> u32
    requires empty { trail.old.count ≡ 0 }
    ensures { (o : Outside) → Does (keeping true true) (level_probed R.SIZE registers.now level va)
        (record o { ram = R.ram phys.now }) (record o { ram = R.ram phys.now }) result no_notes (touching (reads_of (places_of trail.new))) }
{
    let indices = indices_of(va);
    let root = table_of(registers.table_pointer) + 4 * (registers.context as u64);
    match entry_at(phys, root, trail) {
        None => 0,
        Some(entry) => sought(phys, level, &indices, entry, trail),
    }
}

/// The value of a probe for a whole walk.
fn probe_entire<R: TableMemory>(registers: &Mmu, phys: &R, va: u32, trail: &mut Trail) -> u32
    ensures { (o : Outside) → Does (keeping true true) (entirely_probed R.SIZE registers.now va)
        (record o { ram = R.ram phys.now }) (record o { ram = R.ram phys.now }) result no_notes (touching (reads_of (places_of trail.new))) }
{
    let walk = walk_for(phys, registers.table_pointer, registers.context, va);
    *trail = walk.trail;
    match walk.end {
        Walked::Page { entry, .. } => entry,
        Walked::Fault { .. } => 0,
    }
}

/// The value of a probe of a kind, and the entries that it reads.
fn probed_as<R: TableMemory>(
    registers: &Mmu,
    phys: &R,
    va: u32,
    kind: ProbeKind,
    trail: &mut Trail,
) -> u32
    requires empty { trail.old.count ≡ 0 }
    ensures { (o : Outside) → Does (keeping true true) (probed_as R.SIZE registers.now va kind)
        (record o { ram = R.ram phys.now }) (record o { ram = R.ram phys.now }) result no_notes (touching (reads_of (places_of trail.new))) }
{
    match kind {
        ProbeKind::Page => probe_level(registers, phys, 3, va, trail),
        ProbeKind::Segment => probe_level(registers, phys, 2, va, trail),
        ProbeKind::Region => probe_level(registers, phys, 1, va, trail),
        ProbeKind::Context => probe_level(registers, phys, 0, va, trail),
        ProbeKind::Entire => probe_entire(registers, phys, va, trail),
    }
}

/// The value of a probe, and the entries that it reads.
#[tactic(auto, unfolding(crate::specs::Probe::probe, sv8_model::specs::Words::field))]
fn probed<R: TableMemory>(registers: &Mmu, phys: &R, va: u32, trail: &mut Trail) -> u32
    requires empty { trail.old.count ≡ 0 }
    requires nothing { places_of trail.old ≡ [] }
    ensures { (o : Outside) → Does (keeping true true) (probe R.SIZE registers.now va)
        (record o { ram = R.ram phys.now }) (record o { ram = R.ram phys.now }) result no_notes (touching (reads_of (places_of trail.new))) }
{
    let kind = va / 0x100 % 0x10;
    if kind < 4 {
        probe_level(registers, phys, 3 - kind, va, trail)
    } else if kind == 4 {
        probe_entire(registers, phys, va, trail)
    } else {
        0
    }
}

/// The entry that a probe of a kind finds for a virtual address, or 0. A probe reads RAM, whatever the buffer keeps, and changes
/// nothing.
///
/// # Errors
///
/// `AllocError` where memory for a note cannot be had.
pub fn probe<R: TableMemory, T: Touches>(
    registers: &Mmu,
    phys: &R,
    va: u32,
    kind: ProbeKind,
    notes: &mut T,
) -> Result<u32, AllocError>
    ensures ok { IfOk result (λ v. (bytes : List ℕ) → Does T.NOTING (probed_as R.SIZE registers.now va kind)
        (record (R.outside bytes phys.now) { ram = R.ram phys.now }) (record (R.outside bytes phys.now) { ram = R.ram phys.now }) v (T.noted notes.old) (T.noted notes.new)) }
    ensures err { OnErr result (T.KEEPS ≡ true) }
{
    let mut trail = Trail::new();
    let value = probed_as(registers, phys, va, kind, &mut trail);
    note_reads(&trail, notes)?;
    Ok(value)
}

/// What a load from the probing space gives: a probe whose kind is in bits 11:8 of the address, and 0 for the other numbers there.
///
/// # Errors
///
/// `AllocError` where memory for a note cannot be had.
pub fn probe_by_address<R: TableMemory, T: Touches>(
    registers: &Mmu,
    phys: &R,
    va: u32,
    notes: &mut T,
) -> Result<u32, AllocError>
    ensures ok { IfOk result (λ v. (bytes : List ℕ) → Does T.NOTING (probe R.SIZE registers.now va)
        (record (R.outside bytes phys.now) { ram = R.ram phys.now }) (record (R.outside bytes phys.now) { ram = R.ram phys.now }) v (T.noted notes.old) (T.noted notes.new)) }
    ensures err { OnErr result (T.KEEPS ≡ true) }
{
    let mut trail = Trail::new();
    let value = probed(registers, phys, va, &mut trail);
    note_reads(&trail, notes)?;
    Ok(value)
}
