//! Loads and stores (Appendices B.1 to B.8).

ghost use Rattle.std.specs.Prelude.{◌≡◌, ℕ, ◌%◌, ◌<◌, None, true, false, MatchOption, IfOk, OnOk};
ghost use Rattle.sv8_model.specs.Does.{};
ghost use Rattle.sv8_model.specs.Size.{bytes_in};
ghost use Rattle.sv8_isa.specs.Registers.{OperandHasRegister};
ghost use Rattle.sv8_isa.specs.Table.{group_of, meaning};
ghost use Rattle.sv8_phys.specs.Memory.{ram_size};
ghost use Rattle.sv8_mmu.specs.Registers.{translates};
ghost use Rattle.sv8_memory.specs.Feeding.{bytes_fed, IsFed};
ghost use Rattle.sv8_memory.specs.Access.{access};
ghost use Rattle.sv8_iu.specs.Instruction.{data_space};
ghost use Rattle.sv8_iu.specs.Memory.{access_of, size_of};
ghost use Rattle.sv8_iu.specs.Operands.{sum_of_sources};
ghost use Rattle.sv8_cpu.specs.Step.{answered, carried_out};
ghost use Rattle.sv8_memory.specs.View.{MemoryDoes, units_of};
ghost use Rattle.sv8_cpu.specs.Whole.{inner_of_parts, Acts};

use crate::parts::{Parts, show_refusal};
use std::alloc::AllocError;
use sv8_isa::{Group, Instr, MemoryOp, Operand, decode_memory};
use sv8_iu::{data_space, finish_access, memory_trap, sum_of_sources};
use sv8_memory::{Feed, Memory};
use sv8_phys::{Size, Touches};
use sv8_trap::{Processor, Response};

/// Makes the access of a load or a store of a word or a byte. `None` for the others: nothing is done.
#[inline(always)]
#[tactic(auto, unfolding(sv8_iu::specs::Memory::access_of))]
fn make_access<const NW: usize, const PAGES: usize, const TRANSLATED: bool, T: Touches>(
    p: &Processor<NW>,
    memory: &mut Memory<PAGES>,
    op: MemoryOp,
    rd: u8,
    at: u32,
    feed: Feed<'_>,
    notes: &mut T,
) -> Result<Option<Response>, AllocError>
    requires translated { translates memory.old.mmu ≡ TRANSLATED }
    requires rd { rd < 32 }
    requires aligned { at % bytes_in (size_of op) ≡ 0 }
    requires fed { IsFed feed memory.old.phys }
    ensures ok { IfOk result (λ found. MatchOption found (memory.new ≡ memory.old)
        (λ r. MemoryDoes T.NOTING (bytes_fed feed.entry) (access (ram_size PAGES) (units_of memory.old) (access_of NW p.now op (data_space p.now) rd at))
        memory.old memory.new r (T.noted notes.old) (T.noted notes.new))) }
    ensures quiet { OnOk result (result ≡ Ok None → T.noted notes.new ≡ T.noted notes.old) }
    ensures fed { OnOk result (IsFed feed.entry memory.new.phys) }
{
    let asi = data_space(p);
    let response = match op {
        MemoryOp::Ld => memory.load_data::<TRANSLATED, T>(Size::Word, asi, at, feed, notes)?,
        MemoryOp::Ldub => memory.load_data::<TRANSLATED, T>(Size::Byte, asi, at, feed, notes)?,
        MemoryOp::St => {
            let value = u64::from(p.registers().get(u32::from(rd)));
            memory.store_data::<TRANSLATED, T>(Size::Word, asi, at, value, notes)?
        }
        MemoryOp::Stb => {
            let value = u64::from(p.registers().get(u32::from(rd)));
            memory.store_data::<TRANSLATED, T>(Size::Byte, asi, at, value, notes)?
        }
        _ => return Ok(None),
    };
    Ok(Some(response))
}

/// The end of a load or a store whose access was answered.
#[inline(always)]
fn finish<const NW: usize>(p: &mut Processor<NW>, op: MemoryOp, rd: u8, response: Response)
    requires { rd < 32 }
    ensures { (rs1 : ℕ) (operand : Operand) → p.new ≡ answered NW p.old (Instr.Memory op rd rs1 operand) response }
{
    match response {
        Response::Value(value) => finish_access(p, op, rd, value),
        Response::Refused(trap) => p.take(trap),
    }
}

impl<const NW: usize, const PAGES: usize> Parts<NW, PAGES> {
    /// Carries out a load or a store at an address.
    #[inline(always)]
    #[tactic(auto, using(sv8_iu::proofs::Choices::aligned_access))]
    fn complete_transfer<const TRANSLATED: bool, T: Touches>(
        &mut self,
        word: u32,
        op: MemoryOp,
        rd: u8,
        at: u32,
        feed: Feed<'_>,
        notes: &mut T,
    ) -> Result<(), AllocError>
        requires translated { translates self.old.memory.mmu ≡ TRANSLATED }
        requires rd { rd < 32 }
        requires fed { IsFed feed self.old.memory.phys }
        ensures { OnOk result ((rs1 : ℕ) (operand : Operand) → meaning word ≡ Instr.Memory op rd rs1 operand → at ≡ sum_of_sources NW self.old.processor rs1 operand
            → Acts T.NOTING feed.entry (carried_out NW (ram_size PAGES) (inner_of_parts self.old) word) self.old self.new (T.noted notes.old) (T.noted notes.new)) }
    {
        match memory_trap(op, rd, at) {
            Some(_) => self.carry_out_word(word, feed, notes),
            None => {
                let p = &self.processor;
                let memory = &mut self.memory;
                match make_access::<NW, PAGES, TRANSLATED, T>(p, memory, op, rd, at, feed, notes)? {
                    None => self.carry_out_word(word, feed, notes),
                    Some(response) => {
                        show_refusal(response, notes)?;
                        finish(&mut self.processor, op, rd, response);
                        Ok(())
                    }
                }
            }
        }
    }

    /// The same as a call, where addresses are not translated: for those that are not of RAM.
    #[inline(never)]
    fn complete_outside_ram<T: Touches>(
        &mut self,
        word: u32,
        op: MemoryOp,
        rd: u8,
        at: u32,
        feed: Feed<'_>,
        notes: &mut T,
    ) -> Result<(), AllocError>
        requires untranslated { translates self.old.memory.mmu ≡ false }
        requires rd { rd < 32 }
        requires fed { IsFed feed self.old.memory.phys }
        ensures { OnOk result ((rs1 : ℕ) (operand : Operand) → meaning word ≡ Instr.Memory op rd rs1 operand → at ≡ sum_of_sources NW self.old.processor rs1 operand
            → Acts T.NOTING feed.entry (carried_out NW (ram_size PAGES) (inner_of_parts self.old) word) self.old self.new (T.noted notes.old) (T.noted notes.new)) }
    {
        self.complete_transfer::<false, T>(word, op, rd, at, feed, notes)
    }

    /// Carries out a load or a store with these fields, where addresses are not translated. In the built program an address of RAM
    /// has no device in its way.
    #[inline(always)]
    fn transfer_in_place<T: Touches>(
        &mut self,
        word: u32,
        op: MemoryOp,
        rd: u8,
        rs1: u8,
        operand: Operand,
        feed: Feed<'_>,
        notes: &mut T,
    ) -> Result<(), AllocError>
        requires untranslated { translates self.old.memory.mmu ≡ false }
        requires rd { rd < 32 }
        requires rs1 { rs1 < 32 }
        requires operand { OperandHasRegister operand }
        requires word { meaning word ≡ Instr.Memory op rd rs1 operand }
        requires fed { IsFed feed self.old.memory.phys }
        ensures { OnOk result (Acts T.NOTING feed.entry (carried_out NW (ram_size PAGES) (inner_of_parts self.old) word)
            self.old self.new (T.noted notes.old) (T.noted notes.new)) }
    {
        let at = sum_of_sources(&self.processor, rs1, operand);
        if self.memory.phys().is_ram(u64::from(at)) {
            return self.complete_transfer::<false, T>(word, op, rd, at, feed, notes);
        }
        self.complete_outside_ram(word, op, rd, at, feed, notes)
    }

    /// The same, with an arm for each frequent operation: so the built program asks once which one it is, and has code for each.
    #[inline(always)]
    fn transfer<T: Touches>(
        &mut self,
        word: u32,
        op: MemoryOp,
        rd: u8,
        rs1: u8,
        operand: Operand,
        feed: Feed<'_>,
        notes: &mut T,
    ) -> Result<(), AllocError>
        requires untranslated { translates self.old.memory.mmu ≡ false }
        requires rd { rd < 32 }
        requires rs1 { rs1 < 32 }
        requires operand { OperandHasRegister operand }
        requires word { meaning word ≡ Instr.Memory op rd rs1 operand }
        requires fed { IsFed feed self.old.memory.phys }
        ensures { OnOk result (Acts T.NOTING feed.entry (carried_out NW (ram_size PAGES) (inner_of_parts self.old) word)
            self.old self.new (T.noted notes.old) (T.noted notes.new)) }
    {
        match op {
            MemoryOp::Ld => {
                let op = MemoryOp::Ld;
                self.transfer_in_place(word, op, rd, rs1, operand, feed, notes)
            }
            MemoryOp::Ldub => {
                let op = MemoryOp::Ldub;
                self.transfer_in_place(word, op, rd, rs1, operand, feed, notes)
            }
            MemoryOp::St => {
                let op = MemoryOp::St;
                self.transfer_in_place(word, op, rd, rs1, operand, feed, notes)
            }
            MemoryOp::Stb => {
                let op = MemoryOp::Stb;
                self.transfer_in_place(word, op, rd, rs1, operand, feed, notes)
            }
            _ => self.carry_out_word(word, feed, notes),
        }
    }

    /// Carries out a word of op 3 where addresses are translated. It is a function of its own, so that its frame is not made where
    /// they are not.
    #[cold]
    #[inline(never)]
    fn carry_out_translated<T: Touches>(
        &mut self,
        word: u32,
        feed: Feed<'_>,
        notes: &mut T,
    ) -> Result<(), AllocError>
        requires group { group_of word ≡ Group.Memory }
        requires translated { translates self.old.memory.mmu ≡ true }
        requires fed { IsFed feed self.old.memory.phys }
        ensures { OnOk result (Acts T.NOTING feed.entry (carried_out NW (ram_size PAGES) (inner_of_parts self.old) word)
            self.old self.new (T.noted notes.old) (T.noted notes.new)) }
    {
        let Instr::Memory {
            op,
            rd,
            rs1,
            operand,
        } = decode_memory(word)
        else {
            return self.carry_out_word(word, feed, notes);
        };
        let at = sum_of_sources(&self.processor, rs1, operand);
        self.complete_transfer::<true, T>(word, op, rd, at, feed, notes)
    }

    /// Carries out a word of op 3 where addresses are not translated.
    #[inline(never)]
    fn carry_out_untranslated<T: Touches>(
        &mut self,
        word: u32,
        feed: Feed<'_>,
        notes: &mut T,
    ) -> Result<(), AllocError>
        requires group { group_of word ≡ Group.Memory }
        requires untranslated { translates self.old.memory.mmu ≡ false }
        requires fed { IsFed feed self.old.memory.phys }
        ensures { OnOk result (Acts T.NOTING feed.entry (carried_out NW (ram_size PAGES) (inner_of_parts self.old) word)
            self.old self.new (T.noted notes.old) (T.noted notes.new)) }
    {
        let Instr::Memory {
            op,
            rd,
            rs1,
            operand,
        } = decode_memory(word)
        else {
            return self.carry_out_word(word, feed, notes);
        };
        self.transfer(word, op, rd, rs1, operand, feed, notes)
    }

    /// Carries out a load or a store (Appendices B.1 to B.8), and every other word of op 3. Whether addresses are translated is asked
    /// here, before a call saves any register.
    #[inline(always)]
    pub fn carry_out_transfer<T: Touches>(
        &mut self,
        word: u32,
        feed: Feed<'_>,
        notes: &mut T,
    ) -> Result<(), AllocError>
        requires group { group_of word ≡ Group.Memory }
        requires fed { IsFed feed self.old.memory.phys }
        ensures { OnOk result (Acts T.NOTING feed.entry (carried_out NW (ram_size PAGES) (inner_of_parts self.old) word)
            self.old self.new (T.noted notes.old) (T.noted notes.new)) }
    {
        if self.memory.translates() {
            return self.carry_out_translated(word, feed, notes);
        }
        self.carry_out_untranslated(word, feed, notes)
    }
}
