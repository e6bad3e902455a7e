//! Translation of a virtual address.

ghost use Rattle.std.specs.Prelude.{◌≡◌, ℕ, ◌<◌, ◌+◌, ◌*◌, ◌/◌, ◌%◌, ◌^◌, List, [], IfOk, IfSome, MatchOption, OnOk, OnErr, nat_lt, true};
ghost use Rattle.sv8_model.specs.Outside.{Outside};
ghost use Rattle.sv8_model.specs.Does.{Does, DoesUnnoted, kept, noting, keeping, touching, no_notes};
ghost use Rattle.sv8_mmu.specs.Registers.{translates};
ghost use Rattle.sv8_mmu.specs.FaultTypes.{refused_by};
ghost use Rattle.sv8_mmu.specs.Translation.{fault_types, fault_type, with_bit, marked, physical_address, is_device, is_served, settled, translate};
ghost use Rattle.sv8_mmu.specs.Answers.{changes_marks, translation_grows};
ghost use Rattle.sv8_mmu.specs.Kept.{places_of, reads_of, IsEnd, IsTranslation, IsWalk, AllStand};
ghost use Rattle.sv8_model.specs.Action.{done, store_word};

use crate::access_type::AccessType;
use crate::buffer::{Buffer, Key, Purpose};
use crate::fault_type::FaultType;
use crate::registers::Mmu;
use crate::table_level::TableLevel;
use crate::walk::{Trail, Walk, Walked, walk_for};
use std::alloc::AllocError;
use sv8_model::{
    INPUT, OUTPUT, PENDING, TIMER_COUNT, TIMER_RELOAD, TableMemory, Touch, Touches, WAITING,
};

/// What serves an access: RAM alone for fetches, LDSTUB, SWAP and all that is no word; devices, too, for loads and stores of
/// words.
#[derive(Clone, Copy)]
pub enum Reach {
    Ram,
    RamOrDevices,
}

/// An access to a virtual address.
#[derive(Clone, Copy)]
pub struct VirtualAccess {
    /// The virtual address.
    pub address: u32,
    /// The access type.
    pub access_type: AccessType,
    /// What serves it.
    pub reach: Reach,
}

/// What a translation leads to: a physical address of 36 bits, or a fault of a type and a level.
#[derive(Clone, Copy)]
pub enum Translated {
    At(u64),
    Refused { kind: FaultType, level: TableLevel },
}

/// The fault types of an access type, for each value of ACC.
#[inline(always)]
fn fault_types(access_type: AccessType) -> [u8; 8]
    ensures { result ≡ fault_types access_type }
{
    match access_type {
        AccessType::UserLoad => [0, 0, 0, 0, 2, 0, 3, 3],
        AccessType::SupervisorLoad => [0, 0, 0, 0, 2, 0, 0, 0],
        AccessType::UserFetch => [2, 2, 0, 0, 0, 2, 3, 3],
        AccessType::SupervisorFetch => [2, 2, 0, 0, 0, 2, 0, 0],
        AccessType::UserStore => [2, 0, 2, 0, 2, 2, 3, 3],
        AccessType::SupervisorStore => [2, 0, 2, 0, 2, 0, 2, 0],
        AccessType::UserInstructionStore => [2, 2, 2, 0, 2, 2, 3, 3],
        AccessType::SupervisorInstructionStore => [2, 2, 2, 0, 2, 2, 2, 0],
    }
}

/// The fault that a number of the table of permissions stands for.
#[inline(always)]
fn refused_by(number: u8) -> Option<FaultType>
    ensures { result ≡ refused_by number }
{
    match number {
        2 => Some(FaultType::Protection),
        3 => Some(FaultType::Privilege),
        _ => None,
    }
}

/// The fault of an access to a page by its entry, if there is one.
#[tactic(auto, unfolding(crate::specs::Translation::fault_type, sv8_model::specs::Words::field))]
pub(crate) fn fault_type(access_type: AccessType, entry: u32) -> Option<FaultType>
    ensures { result ≡ fault_type access_type entry }
{
    let types = fault_types(access_type);
    refused_by(types[(entry / 4 % 8) as usize])
}

/// The word with bit 5, R, set.
#[inline(always)]
fn with_referenced(entry: u32) -> u32
    ensures value { result ≡ with_bit entry 5 }
    ensures kind { entry % 4 ≡ 2 → result % 4 ≡ 2 }
{
    if entry / 32 % 2 == 1 {
        entry
    } else {
        entry + 32
    }
}

/// The word with bit 6, M, set.
#[inline(always)]
fn with_modified(entry: u32) -> u32
    ensures value { result ≡ with_bit entry 6 }
    ensures kind { entry % 4 ≡ 2 → result % 4 ≡ 2 }
{
    if entry / 64 % 2 == 1 {
        entry
    } else {
        entry + 64
    }
}

/// The entry with the marks of an access.
#[tactic(auto, unfolding(crate::specs::Translation::marked))]
pub(crate) fn marked(access_type: AccessType, entry: u32) -> u32
    ensures value { result ≡ marked access_type entry }
    ensures kind { entry % 4 ≡ 2 → result % 4 ≡ 2 }
{
    if access_type.is_store() {
        with_modified(with_referenced(entry))
    } else {
        with_referenced(entry)
    }
}

/// The physical address: bits 35:12 are those of the entry, but for the bits inside the page.
#[inline(always)]
#[tactic(auto, unfolding(crate::specs::Translation::physical_address))]
pub fn physical_address(entry: u32, level: TableLevel, va: u32) -> u64
    ensures value { result ≡ physical_address entry level va }
    ensures offset { result % 4096 ≡ va % 4096 }
    ensures small { result < 2 ^ 36 }
{
    let page = entry as u64 / 0x100 * 0x1000;
    let inside = va as u64;
    match level {
        TableLevel::Context => page / 0x1_0000_0000 * 0x1_0000_0000 + inside % 0x1_0000_0000,
        TableLevel::Level1 => page / 0x100_0000 * 0x100_0000 + inside % 0x100_0000,
        TableLevel::Level2 => page / 0x4_0000 * 0x4_0000 + inside % 0x4_0000,
        TableLevel::Level3 => page / 0x1000 * 0x1000 + inside % 0x1000,
    }
}

/// Whether a device is at a physical address.
#[inline]
pub fn is_device(pa: u64) -> bool
    ensures { result ≡ is_device pa }
{
    pa == INPUT
        || pa == WAITING
        || pa == OUTPUT
        || pa == TIMER_COUNT
        || pa == TIMER_RELOAD
        || pa == PENDING
}

/// Whether a physical address is one of RAM.
#[inline(always)]
fn is_ram<R: TableMemory>(phys: &R, pa: u64) -> bool
    ensures { result ≡ nat_lt pa R.SIZE }
{
    pa < phys.size()
}

/// Whether an access to a physical address is served.
fn is_served<R: TableMemory>(phys: &R, reach: Reach, pa: u64) -> bool
    ensures { result ≡ is_served R.SIZE reach pa }
{
    match reach {
        Reach::Ram => is_ram(phys, pa),
        Reach::RamOrDevices => is_ram(phys, pa) || is_device(pa),
    }
}

/// Notes the entries that a walk read.
pub fn note_reads<T: Touches>(trail: &Trail, notes: &mut T) -> Result<(), AllocError>
    ensures ok { OnOk result (T.noted notes.new ≡ noting T.NOTING (T.noted notes.old) (reads_of (places_of trail.now)) []) }
    ensures err { OnErr result (T.KEEPS ≡ true) }
{
    for at in trail.places.iter().take(trail.count) {
        notes.note(Touch::Read(*at))?;
    }
    Ok(())
}

/// What the walk of an access is for.
#[inline(always)]
fn purpose_of(access_type: AccessType) -> Purpose {
    match access_type {
        AccessType::UserLoad | AccessType::SupervisorLoad => Purpose::Load,
        AccessType::UserFetch | AccessType::SupervisorFetch => Purpose::Fetch,
        _ => Purpose::Store,
    }
}

/// The walk for a context and a page: one that is kept, or a new one, which is then kept.
fn find_walk<R: TableMemory>(
    table_pointer: u32,
    buffer: &mut Buffer,
    phys: &R,
    access_type: AccessType,
    key: Key,
) -> Walk
    requires page { key.page < 2 ^ 20 }
    requires stand { AllStand R.SIZE (R.ram phys.now) table_pointer buffer.old }
    ensures walk { IsWalk R.SIZE (R.ram phys.now) table_pointer key.context (key.page * 4096) result }
    ensures stand { AllStand R.SIZE (R.ram phys.now) table_pointer buffer.new }
{
    let purpose = purpose_of(access_type);
    if let Some(walk) = buffer.find(purpose, key) {
        buffer.know(purpose, key, access_type);
        return walk;
    }
    let walk = walk_for(phys, table_pointer, key.context, key.page * 0x1000);
    if let Walked::Page { .. } = walk.end {
        buffer.keep(key, walk);
    }
    walk
}

/// Stores the entry of a page with other marks, and keeps its walk with them in the place of all walks that have read it.
#[cold]
fn store_marks<R: TableMemory, T: Touches>(
    buffer: &mut Buffer,
    phys: &mut R,
    key: Key,
    trail: Trail,
    old: u32,
    level: TableLevel,
    at: u32,
    entry: u32,
    notes: &mut T,
) -> Result<(), AllocError>
    requires kind { old % 4 ≡ 2 → entry % 4 ≡ 2 }
    requires end { IsEnd R.SIZE (Walked.Page old level at) }
    ensures ok { OnOk result ((answer : Translated) (bytes : List ℕ) → Does T.NOTING (store_word (at / 4) entry (done answer))
        (record (R.outside bytes phys.old) { ram = R.ram phys.old }) (record (R.outside bytes phys.new) { ram = R.ram phys.new }) answer (T.noted notes.old) (T.noted notes.new)) }
    ensures others { phys.new ≡ R.with_ram (R.ram phys.new) phys.old }
    ensures err { OnErr result (phys.new ≡ phys.old) }
    ensures stand { (table_pointer : ℕ) → IsWalk R.SIZE (R.ram phys.old) table_pointer key.context (key.page * 4096) (record { trail = trail; end = Walked.Page old level at })
        → AllStand R.SIZE (R.ram phys.old) table_pointer buffer.old → AllStand R.SIZE (R.ram phys.new) table_pointer buffer.new }
{
    let _size = phys.size();
    phys.store_table_word(at, entry, notes)?;
    buffer.forget_entry(at);
    let end = Walked::Page { entry, level, at };
    buffer.keep(key, Walk { trail, end });
    Ok(())
}

/// What the end of a walk leads to.
#[tactic(auto, unfolding(crate::specs::Translation::settled))]
fn settle<R: TableMemory, T: Touches>(
    buffer: &mut Buffer,
    phys: &mut R,
    key: Key,
    walk: Walk,
    access: VirtualAccess,
    notes: &mut T,
) -> Result<Translated, AllocError>
    requires end { IsEnd R.SIZE walk.end }
    ensures ok { IfOk result (λ r. (bytes : List ℕ) → Does T.NOTING (settled R.SIZE access.address access.access_type access.reach walk.end)
        (record (R.outside bytes phys.old) { ram = R.ram phys.old }) (record (R.outside bytes phys.new) { ram = R.ram phys.new }) r (T.noted notes.old) (T.noted notes.new)) }
    ensures answer { IfOk result (λ r. IsTranslation access.address r) }
    ensures others { phys.new ≡ R.with_ram (R.ram phys.new) phys.old }
    ensures err { OnErr result (phys.new ≡ phys.old) }
    ensures growth { OnErr result (changes_marks R.SIZE access.address access.access_type access.reach walk.end ≡ true) }
    ensures stand { (table_pointer : ℕ) → IsWalk R.SIZE (R.ram phys.old) table_pointer key.context (key.page * 4096) walk
        → AllStand R.SIZE (R.ram phys.old) table_pointer buffer.old → AllStand R.SIZE (R.ram phys.new) table_pointer buffer.new }
{
    match walk.end {
        Walked::Fault { kind, level } => Ok(Translated::Refused { kind, level }),
        Walked::Page { entry, level, at } => {
            match fault_type(access.access_type, entry) {
                Some(kind) => return Ok(Translated::Refused { kind, level }),
                None => {}
            }
            let pa = physical_address(entry, level, access.address);
            if !is_served(phys, access.reach, pa) {
                return Ok(Translated::Refused {
                    kind: FaultType::AccessBus,
                    level: TableLevel::Context,
                });
            }
            let now = marked(access.access_type, entry);
            if now != entry {
                store_marks(buffer, phys, key, walk.trail, entry, level, at, now, notes)?;
            }
            Ok(Translated::At(pa))
        }
    }
}

/// The physical address of an access, and what the walk of its page read, where that walk was used last, what such accesses
/// to the page come to is known, and RAM has the address.
#[inline(always)]
fn find_shortcut<'a, R: TableMemory>(
    registers: &Mmu,
    buffer: &'a Buffer,
    phys: &R,
    access: VirtualAccess,
) -> Option<(u64, &'a Trail)>
    requires on { translates registers.now ≡ true }
    requires stand { AllStand R.SIZE (R.ram phys.now) registers.now.table_pointer buffer.now }
    ensures answer { IfSome result (λ s. IsTranslation access.address (Translated.At s.0)) }
    ensures ram { IfSome result (λ s. nat_lt s.0 R.SIZE ≡ true) }
    ensures does { IfSome result (λ s. (o : Outside) → Does (keeping true true) (translate R.SIZE registers.now access.address access.access_type access.reach)
        (record o { ram = R.ram phys.now }) (record o { ram = R.ram phys.now }) (Translated.At s.0) no_notes (touching (reads_of (places_of s.1.now)))) }
{
    let key = Key {
        context: registers.context,
        page: access.address / 0x1000,
    };
    let purpose = purpose_of(access.access_type);
    let (base, walk) = buffer.last_plainly(purpose, key, access.access_type)?;
    let pa = base + (access.address % 0x1000) as u64;
    if is_ram(phys, pa) {
        Some((pa, &walk.trail))
    } else {
        None
    }
}

/// The physical address of an access in RAM, where it is known at once: addresses are not translated, or the walk of its page
/// was used last, and the access is allowed and sets no mark. Nothing is done. That an address is given wherever it could be is
/// no part of the contract: none costs time alone.
#[inline(always)]
#[tactic(auto, unfolding(crate::specs::Translation::translate))]
pub fn address_in_ram<R: TableMemory>(
    registers: &Mmu,
    buffer: &Buffer,
    phys: &R,
    access: VirtualAccess,
) -> Option<u64>
    requires { AllStand R.SIZE (R.ram phys.now) registers.now.table_pointer buffer.now }
    ensures does { IfSome result (λ pa. (bytes : List ℕ) → DoesUnnoted (translate R.SIZE registers.now access.address access.access_type access.reach)
        (record (R.outside bytes phys.now) { ram = R.ram phys.now }) (record (R.outside bytes phys.now) { ram = R.ram phys.now }) (Translated.At pa)) }
    ensures ram { IfSome result (λ pa. nat_lt pa R.SIZE ≡ true) }
    ensures answer { IfSome result (λ pa. IsTranslation access.address (Translated.At pa)) }
{
    if registers.translates() {
        let (pa, _) = find_shortcut(registers, buffer, phys, access)?;
        return Some(pa);
    }
    let pa = access.address as u64;
    if is_ram(phys, pa) { Some(pa) } else { None }
}

/// Gives the physical address of an access in RAM, where addresses are translated and it is known at once, as `address_in_ram`
/// does, and notes what the walk of its page read. Where it is not known, nothing is done or noted.
///
/// # Errors
///
/// `AllocError` where memory for a note cannot be had.
#[inline(always)]
pub fn resolve_by_memo<R: TableMemory, T: Touches>(
    registers: &Mmu,
    buffer: &Buffer,
    phys: &R,
    access: VirtualAccess,
    notes: &mut T,
) -> Result<Option<u64>, AllocError>
    requires translated { translates registers.now ≡ true }
    requires stand { AllStand R.SIZE (R.ram phys.now) registers.now.table_pointer buffer.now }
    ensures found { IfOk result (λ found. MatchOption found (T.noted notes.new ≡ T.noted notes.old)
        (λ pa. (bytes : List ℕ) → Does T.NOTING (translate R.SIZE registers.now access.address access.access_type access.reach)
        (record (R.outside bytes phys.now) { ram = R.ram phys.now }) (record (R.outside bytes phys.now) { ram = R.ram phys.now }) (Translated.At pa) (T.noted notes.old) (T.noted notes.new))) }
    ensures ram { IfOk result (λ found. IfSome found (λ pa. nat_lt pa R.SIZE ≡ true)) }
    ensures answer { IfOk result (λ found. IfSome found (λ pa. IsTranslation access.address (Translated.At pa))) }
    ensures err { OnErr result (T.KEEPS ≡ true) }
{
    match find_shortcut(registers, buffer, phys, access) {
        Some((pa, trail)) => {
            note_reads(trail, notes)?;
            Ok(Some(pa))
        }
        None => Ok(None),
    }
}

/// Translates the address of an access by the tables.
#[cold]
#[inline(never)]
#[tactic(auto, unfolding(crate::specs::Translation::translate))]
fn translate_by_tables<R: TableMemory, T: Touches>(
    registers: &Mmu,
    buffer: &mut Buffer,
    phys: &mut R,
    access: VirtualAccess,
    notes: &mut T,
) -> Result<Translated, AllocError>
    requires on { translates registers.now ≡ true }
    requires stand { AllStand R.SIZE (R.ram phys.old) registers.now.table_pointer buffer.old }
    ensures ok { IfOk result (λ r. (bytes : List ℕ) → Does T.NOTING (translate R.SIZE registers.now access.address access.access_type access.reach)
        (record (R.outside bytes phys.old) { ram = R.ram phys.old }) (record (R.outside bytes phys.new) { ram = R.ram phys.new }) r (T.noted notes.old) (T.noted notes.new)) }
    ensures answer { IfOk result (λ r. IsTranslation access.address r) }
    ensures others { phys.new ≡ R.with_ram (R.ram phys.new) phys.old }
    ensures err { OnErr result (phys.new ≡ phys.old) }
    ensures growth { OnErr result (translation_grows T.KEEPS R.SIZE registers.now access.address access.access_type access.reach (record (R.outside [] phys.old) { ram = R.ram phys.old }) ≡ true) }
    ensures stand { AllStand R.SIZE (R.ram phys.new) registers.now.table_pointer buffer.new }
{
    let key = Key {
        context: registers.context,
        page: access.address / 0x1000,
    };
    let access_type = access.access_type;
    let walk = find_walk(registers.table_pointer, buffer, phys, access_type, key);
    note_reads(&walk.trail, notes)?;
    let answer = settle(buffer, phys, key, walk, access, notes)?;
    Ok(answer)
}

/// Translates the address of an access as `translate` does, whose fault it tells by type and level alone: the access has the
/// rest.
///
/// # Errors
///
/// `AllocError` as for `translate`.
#[inline(always)]
#[tactic(auto, unfolding(crate::specs::Translation::translate))]
pub fn resolve<R: TableMemory, T: Touches>(
    registers: &Mmu,
    buffer: &mut Buffer,
    phys: &mut R,
    access: VirtualAccess,
    notes: &mut T,
) -> Result<Translated, AllocError>
    requires stand { AllStand R.SIZE (R.ram phys.old) registers.now.table_pointer buffer.old }
    ensures ok { IfOk result (λ r. (bytes : List ℕ) → Does T.NOTING (translate R.SIZE registers.now access.address access.access_type access.reach)
        (record (R.outside bytes phys.old) { ram = R.ram phys.old }) (record (R.outside bytes phys.new) { ram = R.ram phys.new }) r (T.noted notes.old) (T.noted notes.new)) }
    ensures answer { IfOk result (λ r. IsTranslation access.address r) }
    ensures others { phys.new ≡ R.with_ram (R.ram phys.new) phys.old }
    ensures err { OnErr result (phys.new ≡ phys.old) }
    ensures growth { OnErr result (translation_grows T.KEEPS R.SIZE registers.now access.address access.access_type access.reach (record (R.outside [] phys.old) { ram = R.ram phys.old }) ≡ true) }
    ensures stand { AllStand R.SIZE (R.ram phys.new) registers.now.table_pointer buffer.new }
{
    if !registers.translates() {
        return Ok(Translated::At(access.address as u64));
    }
    if let Some(pa) = resolve_by_memo(registers, buffer, phys, access, notes)? {
        return Ok(Translated::At(pa));
    }
    let answer = translate_by_tables(registers, buffer, phys, access, notes)?;
    Ok(answer)
}
