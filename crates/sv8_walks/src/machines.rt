//! A step of two machines that have the same processor, made as one where both do the same and nothing from outside comes in.

ghost use Rattle.std.specs.Prelude.{◌≡◌, ℕ, ◌%◌, ◌<◌, ◌≤◌, ◌⊎◌, true, false, None, MatchBool, IfOk, IfSome, OnOk};
ghost use Rattle.sv8_model.specs.Levels.{asked};
ghost use Rattle.sv8_model.specs.Size.{bytes_in};
ghost use Rattle.sv8_time.specs.Schedule.{Schedule, bytes_below};
ghost use Rattle.sv8_isa.specs.Table.{group_of, meaning};
ghost use Rattle.sv8_trap.specs.Interrupt.{unmasked};
ghost use Rattle.sv8_trap.specs.Table.{taken};
ghost use Rattle.sv8_regs.specs.Ring.{read};
ghost use Rattle.sv8_isa.specs.Registers.{HasRegisters};
ghost use Rattle.sv8_iu.specs.Instruction.{data_space, raised};
ghost use Rattle.sv8_trap.specs.Processor.{advanced, with_result};
ghost use Rattle.sv8_iu.specs.Memory.{access_of, memory_traps, transferred_data};
ghost use Rattle.sv8_model.specs.Words.{low_word};
ghost use Rattle.sv8_iu.specs.Operands.{sum_of_sources};
ghost use Rattle.sv8_trap.specs.Requests.{space_of};
ghost use Rattle.sv8_memory.specs.Feeding.{bytes_fed, IsFed};
ghost use Rattle.sv8_cpu.specs.Run.{step};
ghost use Rattle.sv8_cpu.specs.Whole.{state_of, state_over};
ghost use Rattle.sv8_walks.specs.Lockstep.{lent, CountsDown, IsCalm, IsQuiet, IsFetched, MayAlwaysBeCarriedOut, MayBeCarriedOut, MayBeMade};

mod memories;

use crate::machines::memories::{count_down_both, load_from_both, store_to_both};
use std::alloc::AllocError;
use sv8_cpu::{Machine, Parts};
use sv8_isa::{Group, Instr, MemoryOp, Operand, decode_memory, group};
use sv8_iu::{
    asked, carry_out_unaided, complete, data_space, finish_access, memory_trap, raised_by,
    sum_of_sources, take_trap,
};
use sv8_memory::{Feed, Memory};
use sv8_model::low_word;
use sv8_phys::{NoTouches, Size};
use sv8_time::Timeline;
use sv8_trap::{AccessRequest, Processor, Space, space_of};

/// Whether an interrupt may be taken: traps are enabled, and a level is pending that is not masked (section 7.5).
#[inline(always)]
fn may_be_interrupted<const NW: usize, const PAGES: usize>(
    p: &Processor<NW>,
    memory: &Memory<PAGES>,
) -> Result<bool, AllocError>
    ensures { IfOk result (λ may. may ≡ false → p.now.registers.psr.et ≡ true → asked (unmasked p.now.registers.psr.pil) memory.now.phys.pending ≡ 0) }
{
    if !p.registers().psr().et {
        return Ok(false);
    }
    let pending = memory.pending_among(p.unmasked_levels(), &mut NoTouches)?;
    if pending == 0 { Ok(false) } else { Ok(true) }
}

/// Whether a step with no event of a machine that runs is known to go on with the annulled slot or the instruction at PC: no expiry
/// and no interrupt is in it.
#[inline(always)]
fn is_calm<const NW: usize, const PAGES: usize>(
    p: &Processor<NW>,
    memory: &Memory<PAGES>,
) -> Result<bool, AllocError>
    requires { p.now.running ≡ true }
    ensures calm { IfOk result (λ calm. calm ≡ true → (n : ℕ) (schedule : Schedule) → IsQuiet n schedule → IsCalm NW PAGES schedule n (state_over p.now memory.now)) }
    ensures counting { IfOk result (λ calm. calm ≡ true → CountsDown memory.now) }
{
    if memory.phys().timer().count == 1 || may_be_interrupted(p, memory)? {
        return Ok(false);
    }
    Ok(true)
}

/// The word that both machines fetch, where both fetches are known at once (`Memory::fetched_at_once`) and give the same.
#[inline(always)]
fn fetch_both<const NW: usize, const PAGES: usize>(
    p: &Processor<NW>,
    memory: &Memory<PAGES>,
    other: &Memory<PAGES>,
) -> Result<Option<u32>, AllocError>
    ensures own { IfOk result (λ found. IfSome found (λ word. IsFetched NW p.now memory.now word)) }
    ensures others { IfOk result (λ found. IfSome found (λ word. IsFetched NW p.now other.now word)) }
{
    let supervisor = p.registers().psr().s;
    let Some(value) = memory.fetched_at_once(supervisor, p.pc())? else {
        return Ok(None);
    };
    let Some(other_value) = other.fetched_at_once(supervisor, p.pc())? else {
        return Ok(None);
    };
    let word = low_word(value);
    if word == low_word(other_value) {
        Ok(Some(word))
    } else {
        Ok(None)
    }
}

/// Whether an address space is one of virtual addresses.
#[inline(always)]
fn is_virtual(asi: u8) -> bool
    ensures { result ≡ true → space_of asi ≡ Space.Virtual }
{
    matches!(space_of(asi), Space::Virtual)
}

/// Whether a register is the same behind both loaded values: %g0 always is.
#[inline(always)]
fn leave_the_same(rd: u8, value: u64, other_value: u64) -> bool
    ensures { result ≡ true → (rd ≡ 0) ⊎ (value ≡ other_value) }
{
    rd == 0 || value == other_value
}

/// Loads from both memories and completes a load of a word or a byte, where both values are known at once, and are the same or go
/// to %g0.
#[inline(always)]
fn load_both<const NW: usize, const PAGES: usize>(
    p: &mut Processor<NW>,
    memory: &mut Memory<PAGES>,
    other: &mut Memory<PAGES>,
    op: MemoryOp,
    size: Size,
    rd: u8,
    at: u32,
) -> Result<bool, AllocError>
    requires load { access_of NW p.old op (data_space p.old) rd at ≡ AccessRequest.Load size (data_space p.old) at }
    requires low { (value : ℕ) → transferred_data NW p.old op rd value ≡ with_result NW p.old rd (low_word value) }
    requires rd { rd < 32 }
    requires aligned { at % bytes_in size ≡ 0 }
    requires no_trap { taken (memory_traps op rd at) ≡ None }
    requires counting { CountsDown memory.old }
    requires others_counting { CountsDown other.old }
    ensures own { IfOk result (λ done. (word rs1 : ℕ) (operand : Operand) → Instr.Memory op rd rs1 operand ≡ meaning word
        → at ≡ sum_of_sources NW p.old rs1 operand → MayAlwaysBeCarriedOut NW word p.old memory.old p.new memory.new done) }
    ensures others { IfOk result (λ done. (word rs1 : ℕ) (operand : Operand) → Instr.Memory op rd rs1 operand ≡ meaning word
        → at ≡ sum_of_sources NW p.old rs1 operand → MayAlwaysBeCarriedOut NW word p.old other.old p.new other.new done) }
{
    let asi = data_space(p);
    let Some(value) = memory.loaded_at_once(size, asi, at)? else {
        return Ok(false);
    };
    let Some(other_value) = other.loaded_at_once(size, asi, at)? else {
        return Ok(false);
    };
    if !leave_the_same(rd, value, other_value) {
        return Ok(false);
    }
    count_down_both(memory, other)?;
    finish_access(p, op, rd, value);
    Ok(true)
}

/// Stores a word or a byte to both memories and completes it, where it is known at once that both answer it.
#[inline(always)]
fn store_both<const NW: usize, const PAGES: usize>(
    p: &mut Processor<NW>,
    memory: &mut Memory<PAGES>,
    other: &mut Memory<PAGES>,
    op: MemoryOp,
    size: Size,
    rd: u8,
    at: u32,
) -> Result<bool, AllocError>
    requires store { access_of NW p.old op (data_space p.old) rd at ≡ AccessRequest.Store size (data_space p.old) at (read NW p.old.registers rd) }
    requires simple { (value : ℕ) → transferred_data NW p.old op rd value ≡ advanced p.old }
    requires rd { rd < 32 }
    requires aligned { at % bytes_in size ≡ 0 }
    requires no_trap { taken (memory_traps op rd at) ≡ None }
    requires counting { CountsDown memory.old }
    requires others_counting { CountsDown other.old }
    ensures own { IfOk result (λ done. (word rs1 : ℕ) (operand : Operand) → Instr.Memory op rd rs1 operand ≡ meaning word
        → at ≡ sum_of_sources NW p.old rs1 operand → MayAlwaysBeCarriedOut NW word p.old memory.old p.new memory.new done) }
    ensures others { IfOk result (λ done. (word rs1 : ℕ) (operand : Operand) → Instr.Memory op rd rs1 operand ≡ meaning word
        → at ≡ sum_of_sources NW p.old rs1 operand → MayAlwaysBeCarriedOut NW word p.old other.old p.new other.new done) }
{
    let asi = data_space(p);
    let value = u64::from(p.registers().get(u32::from(rd)));
    let stored = store_to_both(memory, other, size, asi, at, value)?;
    if !stored {
        return Ok(false);
    }
    finish_access(p, op, rd, 0);
    Ok(true)
}

/// Carries a load or a store of a word or a byte out in both memories, if it raises no trap and is one of RAM that is known at
/// once.
#[inline(always)]
#[tactic(auto, using(sv8_iu::proofs::Choices::aligned_access), unfolding(sv8_iu::specs::Memory::access_of, sv8_iu::specs::Memory::transferred_data))]
fn transfer_both<const NW: usize, const PAGES: usize>(
    p: &mut Processor<NW>,
    memory: &mut Memory<PAGES>,
    other: &mut Memory<PAGES>,
    word: u32,
) -> Result<bool, AllocError>
    requires group { group_of word ≡ Group.Memory }
    requires counting { CountsDown memory.old }
    requires others_counting { CountsDown other.old }
    ensures own { IfOk result (MayAlwaysBeCarriedOut NW word p.old memory.old p.new memory.new) }
    ensures others { IfOk result (MayAlwaysBeCarriedOut NW word p.old other.old p.new other.new) }
{
    match decode_memory(word) {
        Instr::Memory {
            op,
            rd,
            rs1,
            operand,
        } => {
            let at = sum_of_sources(p, rs1, operand);
            if memory_trap(op, rd, at).is_some() {
                return Ok(false);
            }
            match op {
                MemoryOp::Ld => load_both(p, memory, other, MemoryOp::Ld, Size::Word, rd, at),
                MemoryOp::Ldub => load_both(p, memory, other, MemoryOp::Ldub, Size::Byte, rd, at),
                MemoryOp::St => store_both(p, memory, other, MemoryOp::St, Size::Word, rd, at),
                MemoryOp::Stb => store_both(p, memory, other, MemoryOp::Stb, Size::Byte, rd, at),
                _ => Ok(false),
            }
        }
        _ => Ok(false),
    }
}

/// Completes an instruction that raises no trap over both memories, if its access is a load or a store that is known at once and
/// gives both the same.
#[inline(always)]
fn complete_both<const NW: usize, const PAGES: usize>(
    p: &mut Processor<NW>,
    memory: &mut Memory<PAGES>,
    other: &mut Memory<PAGES>,
    instr: Instr,
    feed: Feed<'_>,
    other_feed: Feed<'_>,
) -> Result<bool, AllocError>
    requires registers { HasRegisters instr }
    requires no_trap { taken (raised NW p.old instr) ≡ None }
    requires counting { CountsDown memory.old }
    requires others_counting { CountsDown other.old }
    requires fed { IsFed feed memory.old.phys }
    requires others_fed { IsFed other_feed other.old.phys }
    ensures own { IfOk result (λ done. (word : ℕ) → instr ≡ meaning word → MayBeCarriedOut NW (bytes_fed feed.entry) word p.old memory.old p.new memory.new done) }
    ensures others { IfOk result (λ done. (word : ℕ) → instr ≡ meaning word → MayBeCarriedOut NW (bytes_fed other_feed.entry) word p.old other.old p.new other.new done) }
{
    match asked(p, instr) {
        AccessRequest::Load { size, asi, at } if is_virtual(asi) => {
            let Some(value) = load_from_both(memory, other, size, asi, at, feed, other_feed)? else {
                return Ok(false);
            };
            count_down_both(memory, other)?;
            complete(p, instr, value);
            Ok(true)
        }
        AccessRequest::Store {
            size,
            asi,
            at,
            value,
        } if is_virtual(asi) => {
            let stored = store_to_both(memory, other, size, asi, at, value)?;
            if !stored {
                return Ok(false);
            }
            complete(p, instr, 0);
            Ok(true)
        }
        _ => Ok(false),
    }
}

/// Carries a load or a store out over both memories by the way of every instruction: takes the trap that it raises, or completes
/// it.
#[inline(never)]
fn carry_out_rarely<const NW: usize, const PAGES: usize>(
    p: &mut Processor<NW>,
    memory: &mut Memory<PAGES>,
    other: &mut Memory<PAGES>,
    word: u32,
    feed: Feed<'_>,
    other_feed: Feed<'_>,
) -> Result<bool, AllocError>
    requires counting { CountsDown memory.old }
    requires others_counting { CountsDown other.old }
    requires group { group_of word ≡ Group.Memory }
    requires fed { IsFed feed memory.old.phys }
    requires others_fed { IsFed other_feed other.old.phys }
    ensures own { IfOk result (MayBeCarriedOut NW (bytes_fed feed.entry) word p.old memory.old p.new memory.new) }
    ensures others { IfOk result (MayBeCarriedOut NW (bytes_fed other_feed.entry) word p.old other.old p.new other.new) }
{
    let instr = decode_memory(word);
    match raised_by(p, instr) {
        Some(trap) => {
            count_down_both(memory, other)?;
            take_trap(p, instr, trap);
            Ok(true)
        }
        None => {
            let done = complete_both(p, memory, other, instr, feed, other_feed)?;
            Ok(done)
        }
    }
}

/// Carries a word out over both memories, once the bytes of their feeds have come in, if it does the same to the processor. Tells
/// whether it has; where it has not, nothing has changed.
#[inline(always)]
fn carry_out_both<const NW: usize, const PAGES: usize>(
    p: &mut Processor<NW>,
    memory: &mut Memory<PAGES>,
    other: &mut Memory<PAGES>,
    word: u32,
    feed: Feed<'_>,
    other_feed: Feed<'_>,
) -> Result<bool, AllocError>
    requires counting { CountsDown memory.old }
    requires others_counting { CountsDown other.old }
    requires fed { IsFed feed memory.old.phys }
    requires others_fed { IsFed other_feed other.old.phys }
    ensures own { IfOk result (MayBeCarriedOut NW (bytes_fed feed.entry) word p.old memory.old p.new memory.new) }
    ensures others { IfOk result (MayBeCarriedOut NW (bytes_fed other_feed.entry) word p.old other.old p.new other.new) }
{
    match group(word) {
        Group::Memory => {
            let done = transfer_both(p, memory, other, word)?;
            if done {
                return Ok(true);
            }
            carry_out_rarely(p, memory, other, word, feed, other_feed)
        }
        _ => {
            count_down_both(memory, other)?;
            carry_out_unaided(p, word, &mut NoTouches)?;
            Ok(true)
        }
    }
}

/// Fetches the instruction at PC from both memories and carries it out over both, in step n, if that does the same to the processor.
/// Tells whether it has; where it has not, nothing has changed.
#[inline(always)]
fn run_both<const NW: usize, const PAGES: usize>(
    p: &mut Processor<NW>,
    memory: &mut Memory<PAGES>,
    other: &mut Memory<PAGES>,
    n: u32,
    timeline: &Timeline,
    other_timeline: &Timeline,
) -> Result<bool, AllocError>
    requires counting { CountsDown memory.old }
    requires others_counting { CountsDown other.old }
    requires delivered { memory.old.phys.taken ≤ bytes_below n timeline.now.inputs }
    requires other_delivered { other.old.phys.taken ≤ bytes_below n other_timeline.now.inputs }
    ensures own { IfOk result (MayBeMade NW n timeline.now p.old memory.old p.new memory.new) }
    ensures others { IfOk result (MayBeMade NW n other_timeline.now p.old other.old p.new other.new) }
{
    let feed = Feed::of_step(n, timeline);
    let other_feed = Feed::of_step(n, other_timeline);
    let Some(word) = fetch_both(p, memory, other)? else {
        return Ok(false);
    };
    let done = carry_out_both(p, memory, other, word, feed, other_feed)?;
    Ok(done)
}

/// Makes step n of two machines as one, where no event is in it and both pass over an annulled slot, carry out the same
/// instruction or take its trap, or are in error mode. The second machine is taken to have the processor of the first. Tells whether
/// it has; where it has not, nothing has changed.
#[inline(always)]
fn step_both<const NW: usize, const PAGES: usize>(
    parts: &mut Parts<NW, PAGES>,
    other: &mut Parts<NW, PAGES>,
    n: u32,
    timeline: &Timeline,
    other_timeline: &Timeline,
) -> Result<bool, AllocError>
    requires delivered { parts.old.memory.phys.taken ≤ bytes_below n timeline.now.inputs }
    requires other_delivered { other.old.memory.phys.taken ≤ bytes_below n other_timeline.now.inputs }
    ensures own { IfOk result (λ made. MatchBool made (state_of parts.new ≡ step NW PAGES timeline.now n (state_of parts.old)) (parts.new ≡ parts.old)) }
    ensures others { IfOk result (λ made. MatchBool made
        (state_over parts.new.processor other.new.memory ≡ step NW PAGES other_timeline.now n (state_over parts.old.processor other.old.memory)) (other.new ≡ other.old)) }
    ensures units { OnOk result ((parts.new.memory.mmu ≡ parts.old.memory.mmu) × (other.new.memory.mmu ≡ other.old.memory.mmu)) }
{
    let p = &mut parts.processor;
    let memory = &mut parts.memory;
    if timeline.may_have_events(n) || other_timeline.may_have_events(n) {
        return Ok(false);
    }
    if !p.is_running() {
        return Ok(true);
    }
    if !is_calm(p, memory)? || !is_calm(p, &other.memory)? {
        return Ok(false);
    }
    if p.annul() {
        p.skip_slot();
        count_down_both(memory, &mut other.memory)?;
        return Ok(true);
    }
    let made = run_both(p, memory, &mut other.memory, n, timeline, other_timeline)?;
    Ok(made)
}

/// Makes step n of two machines as one, where no event is in it and both pass over an annulled slot, carry out the same
/// instruction or take its trap, or are in error mode. Its loads have to give both the same, or go to %g0. The other machine is
/// taken to have the processor of the first: its own is neither looked at nor changed, and `copy_processor` gives it that one.
/// Tells whether the steps were made; where they were not, nothing has changed. That they are made wherever they could be is no
/// part of the contract.
///
/// # Errors
///
/// `AllocError` where memory for a page that is shared, or for the console's output, cannot be had. What both machines are then is
/// not said.
#[inline(always)]
pub(crate) fn pass_in_lockstep<const NW: usize, const PAGES: usize>(
    machine: &mut Machine<NW, PAGES>,
    other: &mut Machine<NW, PAGES>,
    n: u32,
    timeline: &Timeline,
    other_timeline: &Timeline,
) -> Result<bool, AllocError>
    requires delivered { machine.old.memory.taken ≤ bytes_below n timeline.now.inputs }
    requires other_delivered { other.old.memory.taken ≤ bytes_below n other_timeline.now.inputs }
    ensures made { IfOk result (λ made. MatchBool made (machine.new ≡ step NW PAGES timeline.now n machine.old) (machine.new ≡ machine.old)) }
    ensures others_made { IfOk result (λ made. MatchBool made (lent machine.new other.new ≡ step NW PAGES other_timeline.now n (lent machine.old other.old)) (other.new ≡ other.old)) }
    ensures units { OnOk result ((machine.new.mmu ≡ machine.old.mmu) × (other.new.mmu ≡ other.old.mmu)) }
{
    let made = step_both(
        &mut machine.parts,
        &mut other.parts,
        n,
        timeline,
        other_timeline,
    )?;
    Ok(made)
}

/// Gives a machine the processor of another one.
pub(crate) fn copy_processor<const NW: usize, const PAGES: usize>(
    machine: &mut Machine<NW, PAGES>,
    other: &Machine<NW, PAGES>,
)
    ensures { machine.new ≡ lent other.now machine.old }
{
    machine.parts.processor = other.parts.processor.copy();
}
