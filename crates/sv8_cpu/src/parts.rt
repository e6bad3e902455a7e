//! The parts of a machine, and what a step does with them behind its events.

ghost use Rattle.std.specs.Prelude.{◌≡◌, ◌<◌, ◌/◌, [], None, OnOk};
ghost use Rattle.sv8_isa.specs.Registers.{HasRegisters};
ghost use Rattle.sv8_model.specs.Does.{kept, noting};
ghost use Rattle.sv8_cpu.specs.Run.{step};
ghost use Rattle.sv8_trap.specs.Table.{taken};
ghost use Rattle.sv8_phys.specs.Memory.{ram_size};
ghost use Rattle.sv8_iu.specs.Instruction.{raised};
ghost use Rattle.sv8_cpu.specs.Step.{refusal_seen, answered, executed, carried_out, fetched, instruction, continued, requested, interruptible, action};
ghost use Rattle.sv8_memory.specs.Feeding.{IsFed};
ghost use Rattle.sv8_memory.specs.View.{units_of};
ghost use Rattle.sv8_cpu.specs.Whole.{inner_of_parts, Acts};

use std::alloc::AllocError;
use sv8_isa::{Group, Instr, decode, group};
use sv8_iu::{asked, carry_out_unaided, complete, raised_by, show_trap, take_trap};
use sv8_memory::{Feed, Memory};
use sv8_model::low_word;
use sv8_phys::Touches;
use sv8_trap::{AccessRequest, Processor, Response, Trap, highest_level};

/// The state of a machine, kept in one place so that a step changes it where it stands.
#[derive(Drop)]
pub struct Parts<const NW: usize, const PAGES: usize> {
    pub processor: Processor<NW>,
    pub memory: Memory<PAGES>,
}

/// Lets an observer see the trap that a refused access raises.
#[inline(always)]
pub fn show_refusal<T: Touches>(response: Response, notes: &mut T) -> Result<(), AllocError>
    ensures { OnOk result (T.noted notes.new ≡ noting T.NOTING (T.noted notes.old) [] (refusal_seen response)) }
{
    match response {
        Response::Value(_) => Ok(()),
        Response::Refused(trap) => show_trap(trap, notes),
    }
}

/// The end of an instruction whose access was answered.
#[inline(always)]
fn answer<const NW: usize>(p: &mut Processor<NW>, instr: Instr, response: Response)
    requires registers { HasRegisters instr }
    requires no_trap { taken (raised NW p.old instr) ≡ None }
    ensures { p.new ≡ answered NW p.old instr response }
{
    match response {
        Response::Value(value) => complete(p, instr, value),
        Response::Refused(trap) => p.take(trap),
    }
}

impl<const NW: usize, const PAGES: usize> Parts<NW, PAGES> {
    /// Makes the access of an instruction that raises no trap, and completes it.
    #[inline(always)]
    fn make_access<T: Touches>(
        &mut self,
        instr: Instr,
        feed: Feed<'_>,
        notes: &mut T,
    ) -> Result<(), AllocError>
        requires registers { HasRegisters instr }
        requires no_trap { taken (raised NW self.old.processor instr) ≡ None }
        requires fed { IsFed feed self.old.memory.phys }
        ensures { OnOk result (Acts T.NOTING feed.entry (executed NW (ram_size PAGES) (inner_of_parts self.old) instr None)
            self.old self.new (T.noted notes.old) (T.noted notes.new)) }
    {
        let request = asked(&self.processor, instr);
        let response = self.memory.access(request, feed, notes)?;
        show_refusal(response, notes)?;
        answer(&mut self.processor, instr, response);
        Ok(())
    }

    /// Carries an instruction out: takes the trap that it raises, or makes its access and completes it.
    #[inline(always)]
    fn execute<T: Touches>(
        &mut self,
        instr: Instr,
        feed: Feed<'_>,
        notes: &mut T,
    ) -> Result<(), AllocError>
        requires registers { HasRegisters instr }
        requires fed { IsFed feed self.old.memory.phys }
        ensures { OnOk result (Acts T.NOTING feed.entry (executed NW (ram_size PAGES) (inner_of_parts self.old) instr (taken (raised NW self.old.processor instr)))
            self.old self.new (T.noted notes.old) (T.noted notes.new)) }
    {
        match raised_by(&self.processor, instr) {
            Some(trap) => {
                show_trap(trap, notes)?;
                take_trap(&mut self.processor, instr, trap);
                Ok(())
            }
            None => {
                self.make_access(instr, feed, notes)?;
                Ok(())
            }
        }
    }

    /// Carries out any word. It is a function of its own, so that a word comes in and no decoded instruction goes from one function
    /// to another.
    #[inline(never)]
    pub fn carry_out_word<T: Touches>(
        &mut self,
        word: u32,
        feed: Feed<'_>,
        notes: &mut T,
    ) -> Result<(), AllocError>
        requires fed { IsFed feed self.old.memory.phys }
        ensures { OnOk result (Acts T.NOTING feed.entry (carried_out NW (ram_size PAGES) (inner_of_parts self.old) word)
            self.old self.new (T.noted notes.old) (T.noted notes.new)) }
    {
        self.execute(decode(word), feed, notes)?;
        Ok(())
    }

    /// Carries out a word that was fetched.
    #[inline(always)]
    fn carry_out_fetched<T: Touches>(
        &mut self,
        word: u32,
        feed: Feed<'_>,
        notes: &mut T,
    ) -> Result<(), AllocError>
        requires fed { IsFed feed self.old.memory.phys }
        ensures { OnOk result (Acts T.NOTING feed.entry (carried_out NW (ram_size PAGES) (inner_of_parts self.old) word)
            self.old self.new (T.noted notes.old) (T.noted notes.new)) }
    {
        match group(word) {
            Group::Memory => {
                self.carry_out_transfer(word, feed, notes)?;
                Ok(())
            }
            _ => {
                carry_out_unaided(&mut self.processor, word, notes)?;
                Ok(())
            }
        }
    }

    /// Carries out a word that was fetched, or takes the trap of its fetch.
    #[inline(always)]
    fn carry_out<T: Touches>(
        &mut self,
        response: Response,
        feed: Feed<'_>,
        notes: &mut T,
    ) -> Result<(), AllocError>
        requires fed { IsFed feed self.old.memory.phys }
        ensures { OnOk result (Acts T.NOTING feed.entry (fetched NW (ram_size PAGES) self.old.processor response (units_of self.old.memory))
            self.old self.new (T.noted notes.old) (T.noted notes.new)) }
    {
        match response {
            Response::Refused(trap) => {
                show_trap(trap, notes)?;
                self.processor.take(trap);
                Ok(())
            }
            Response::Value(value) => {
                self.carry_out_fetched(low_word(value), feed, notes)?;
                Ok(())
            }
        }
    }

    /// Fetches the instruction at PC from wherever it stands, and carries it out. It is a function of its own, so that what it needs of the
    /// stack is not in the way of other fetches.
    #[inline(never)]
    fn run_any_instruction<T: Touches>(
        &mut self,
        feed: Feed<'_>,
        notes: &mut T,
    ) -> Result<(), AllocError>
        requires fed { IsFed feed self.old.memory.phys }
        ensures { OnOk result (Acts T.NOTING feed.entry (instruction NW (ram_size PAGES) (inner_of_parts self.old))
            self.old self.new (T.noted notes.old) (T.noted notes.new)) }
    {
        let request = AccessRequest::Fetch {
            supervisor: self.processor.registers().psr().s,
            at: self.processor.pc(),
        };
        let response = self.memory.access(request, feed, notes)?;
        self.carry_out(response, feed, notes)?;
        Ok(())
    }

    /// Fetches the instruction at PC and carries it out.
    #[inline(always)]
    fn run_instruction<T: Touches>(
        &mut self,
        feed: Feed<'_>,
        notes: &mut T,
    ) -> Result<(), AllocError>
        requires fed { IsFed feed self.old.memory.phys }
        ensures { OnOk result (Acts T.NOTING feed.entry (instruction NW (ram_size PAGES) (inner_of_parts self.old))
            self.old self.new (T.noted notes.old) (T.noted notes.new)) }
    {
        let supervisor = self.processor.registers().psr().s;
        let at = self.processor.pc();
        match self.memory.fetch_in_place(supervisor, at, notes)? {
            Some(value) => {
                self.carry_out_fetched(low_word(value), feed, notes)?;
                Ok(())
            }
            None => {
                self.run_any_instruction(feed, notes)?;
                Ok(())
            }
        }
    }

    /// Passes over an annulled slot, or carries an instruction out.
    #[inline(always)]
    #[tactic(auto, unfolding(crate::specs::Step::continued))]
    fn go_on<T: Touches>(&mut self, feed: Feed<'_>, notes: &mut T) -> Result<(), AllocError>
        requires fed { IsFed feed self.old.memory.phys }
        ensures { OnOk result (Acts T.NOTING feed.entry (continued NW (ram_size PAGES) (inner_of_parts self.old))
            self.old self.new (T.noted notes.old) (T.noted notes.new)) }
    {
        if self.processor.annul() {
            self.processor.skip_slot();
        } else {
            self.run_instruction(feed, notes)?;
        }
        Ok(())
    }

    /// Enters the handler of the highest of these levels; where there is none, the program goes on.
    #[inline(always)]
    #[tactic(auto, using(crate::proofs::Steps::does_trap), unfolding(crate::specs::Step::requested))]
    fn serve<T: Touches>(
        &mut self,
        levels: u32,
        feed: Feed<'_>,
        notes: &mut T,
    ) -> Result<(), AllocError>
        requires fed { IsFed feed self.old.memory.phys }
        ensures { OnOk result (Acts T.NOTING feed.entry (requested NW (ram_size PAGES) (inner_of_parts self.old) levels)
            self.old self.new (T.noted notes.old) (T.noted notes.new)) }
    {
        match highest_level(levels) {
            None => {
                self.go_on(feed, notes)?;
                Ok(())
            }
            Some(level) => {
                show_trap(Trap::Interrupt(level.number() as u8), notes)?;
                self.processor.interrupt(level);
                Ok(())
            }
        }
    }

    /// Takes an interrupt where one is to be taken; else the program goes on.
    #[inline(always)]
    #[tactic(auto, unfolding(crate::specs::Step::interruptible))]
    fn go_on_or_interrupt<T: Touches>(
        &mut self,
        feed: Feed<'_>,
        notes: &mut T,
    ) -> Result<(), AllocError>
        requires fed { IsFed feed self.old.memory.phys }
        ensures { OnOk result (Acts T.NOTING feed.entry (interruptible NW (ram_size PAGES) (inner_of_parts self.old))
            self.old self.new (T.noted notes.old) (T.noted notes.new)) }
    {
        if self.processor.registers().psr().et {
            let levels = self.processor.unmasked_levels();
            let pending = self.memory.pending_among(levels, notes)?;
            self.serve(pending, feed, notes)?;
        } else {
            self.go_on(feed, notes)?;
        }
        Ok(())
    }

    /// What a step does behind its events: in error mode nothing.
    #[inline(always)]
    #[tactic(auto, unfolding(crate::specs::Step::action))]
    pub fn act<T: Touches>(&mut self, feed: Feed<'_>, notes: &mut T) -> Result<(), AllocError>
        requires fed { IsFed feed self.old.memory.phys }
        ensures { OnOk result (Acts T.NOTING feed.entry (action NW (ram_size PAGES) (inner_of_parts self.old))
            self.old self.new (T.noted notes.old) (T.noted notes.new)) }
    {
        if !self.processor.is_running() {
            return Ok(());
        }
        self.memory.tick(notes)?;
        self.go_on_or_interrupt(feed, notes)?;
        Ok(())
    }
}
