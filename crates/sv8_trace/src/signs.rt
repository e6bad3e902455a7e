//! What the states before and after the steps of an interval show: of each step whether it led where a trap leads, and of all
//! together whether addresses were translated.

ghost use Rattle.std.specs.Prelude.{◌≡◌, ◌≤◌, ◌||◌, IfOk, OnOk};
ghost use Rattle.sv8_mmu.specs.Registers.{translates};
ghost use Rattle.sv8_trace.specs.Signs.{no_signs, noted_type, with_end, with_trap};

use std::alloc::{AllocError, Global};
use std::marker::Model;
use sv8_cpu::Machine;

/// A step that led a machine that ran to error mode, or to the address in TBR, as each trap does (section 7.2).
#[derive(Clone, Copy)]
pub struct TrapNote {
    /// The number of steps between the checkpoint and this one.
    pub offset: u32,
    /// The type of trap (tt) that stands in TBR after the step; `None` where the step led to error mode, by a trap of
    /// whatever type.
    pub trap_type: Option<u8>,
}

/// Which signs the steps of an interval have. Steps are named by their offset, the number of steps since the checkpoint.
#[derive(Drop)]
pub struct Signs {
    translation: bool,
    traps: Vec<TrapNote>,
}

impl Model for Signs {
    ghost use Rattle.sv8_trace.specs.Signs as model;

    ghost Value = { model.Signs };

    ghost view = { λ s. record { translation = s.translation; traps = s.traps.items } };
}

impl Signs {
    /// Of no step. It takes no memory.
    pub(crate) fn new(alloc: Global) -> Signs
        ensures { result ≡ no_signs }
    {
        Signs {
            translation: false,
            traps: Vec::new(alloc),
        }
    }

    /// Lets all signs go; the memory stays.
    pub(crate) fn clear(&mut self)
        ensures { self.new ≡ no_signs }
    {
        self.translation = false;
        self.traps.clear();
    }

    /// The same signs once more, in no more memory than they need.
    ///
    /// # Errors
    ///
    /// `AllocError` where that memory cannot be had.
    pub(crate) fn copy(&self) -> Result<Signs, AllocError>
        ensures { IfOk result (λ s. s ≡ self.now) }
    {
        let traps = self.traps.clone()?;
        Ok(Signs {
            translation: self.translation,
            traps,
        })
    }

    /// Whether addresses are translated in the state before one of the steps (Appendix H).
    pub fn translation(&self) -> bool
        ensures { result ≡ self.now.translation }
    {
        self.translation
    }

    /// The steps that led a machine that ran where a trap leads, in their order.
    pub fn traps(&self) -> &[TrapNote]
        ensures { result.now ≡ self.now.traps }
    {
        &self.traps
    }

    /// Notes what the state before a step shows.
    #[inline(always)]
    pub(crate) fn note_before<const NW: usize, const PAGES: usize>(
        &mut self,
        machine: &Machine<NW, PAGES>,
    )
        requires { NW ≤ 32 }
        ensures { self.new ≡ record self.old { translation = self.old.translation || translates machine.now.mmu } }
    {
        if machine.mmu().translates() {
            self.translation = true;
        }
    }

    /// Notes where a trap led the step with an offset. Few steps have one, so what it needs stands apart from the others.
    #[inline(never)]
    fn note_trap<const NW: usize, const PAGES: usize>(
        &mut self,
        offset: u32,
        machine: &Machine<NW, PAGES>,
    ) -> Result<(), AllocError>
        requires { NW ≤ 32 }
        ensures { OnOk result (self.new ≡ with_trap self.old offset machine.now.processor) }
    {
        let trap_type = noted_type(machine);
        self.traps.reserve(1)?;
        self.traps.push_reserved(TrapNote { offset, trap_type });
        Ok(())
    }

    /// Notes what the state after the step with an offset shows. `ran` is whether the machine ran before it.
    ///
    /// # Errors
    ///
    /// `AllocError` where memory for a note cannot be had.
    #[inline(always)]
    pub(crate) fn note_after<const NW: usize, const PAGES: usize>(
        &mut self,
        offset: u32,
        ran: bool,
        machine: &Machine<NW, PAGES>,
    ) -> Result<(), AllocError>
        requires { NW ≤ 32 }
        ensures { OnOk result (self.new ≡ with_end self.old offset ran machine.now.processor) }
    {
        if ran && machine.is_at_trap() {
            self.note_trap(offset, machine)?;
        }
        Ok(())
    }
}

/// The type of trap (tt) that stands in TBR, where a machine that runs has been led by a trap.
fn noted_type<const NW: usize, const PAGES: usize>(machine: &Machine<NW, PAGES>) -> Option<u8>
    requires { NW ≤ 32 }
    ensures { result ≡ noted_type machine.now.processor }
{
    if machine.is_running() {
        Some(machine.trap_type())
    } else {
        None
    }
}
