//! The console's input.

ghost use Rattle.std.specs.Prelude.{◌≡◌, ◌≤◌, true, length, IfOk, OnErr};
ghost use Rattle.sv8_model.specs.Action as model;
ghost use Rattle.sv8_model.specs.Does.{Does};
ghost use Rattle.sv8_model.specs.Outside.{oldest};
ghost use Rattle.sv8_phys.specs.Contents.{outside_of};
ghost use Rattle.sv8_phys.specs.Calls.{waiting_bytes, after_take};

use crate::phys::Phys;
use std::alloc::AllocError;
use sv8_model::{Arrivals, NoTouches, Touch, Touches};

impl<const PAGES: usize> Phys<PAGES> {
    /// Takes the oldest of the bytes that came in at the steps below `before` and wait, as a load of `INPUT` does; 0 if none
    /// waits. It takes no memory.
    pub fn take_input<A: Arrivals>(&mut self, before: u32, arrivals: &A) -> u8
        requires { self.old.taken ≤ length (A.arrived before arrivals.now) }
        ensures byte { result ≡ oldest (waiting_bytes self.old (A.arrived before arrivals.now)) }
        ensures memory { self.new ≡ after_take self.old (waiting_bytes self.old (A.arrived before arrivals.now)) }
        ensures delivered { self.new.taken ≤ length (A.arrived before arrivals.now) }
    {
        match self.take_input_noted(before, arrivals, &mut NoTouches) {
            Ok(byte) => byte,
            Err(_) => unreachable!(),
        }
    }

    /// The number of bytes that came in at the steps below `before` and wait, as a load of `WAITING` tells. It takes no memory.
    pub fn waiting<A: Arrivals>(&self, before: u32, arrivals: &A) -> u32
        requires { self.now.taken ≤ length (A.arrived before arrivals.now) }
        ensures { result ≡ length (waiting_bytes self.now (A.arrived before arrivals.now)) }
    {
        match self.waiting_noted(before, arrivals, &mut NoTouches) {
            Ok(count) => count,
            Err(_) => unreachable!(),
        }
    }

    /// Takes a byte as `take_input` does, and notes that.
    ///
    /// # Errors
    ///
    /// `AllocError` where memory for the note cannot be had; nothing is then taken.
    pub fn take_input_noted<A: Arrivals, T: Touches>(
        &mut self,
        before: u32,
        arrivals: &A,
        notes: &mut T,
    ) -> Result<u8, AllocError>
        requires { self.old.taken ≤ length (A.arrived before arrivals.now) }
        ensures ok { IfOk result (λ byte. Does T.NOTING (model.take_input (λ b. model.done b))
            (outside_of self.old (A.arrived before arrivals.now)) (outside_of self.new (A.arrived before arrivals.now)) byte (T.noted notes.old) (T.noted notes.new)) }
        ensures others { self.new ≡ record self.old { taken = self.new.taken } }
        ensures delivered { self.new.taken ≤ length (A.arrived before arrivals.now) }
        ensures err { OnErr result (self.new ≡ self.old) }
        ensures quiet { OnErr result (T.KEEPS ≡ true) }
    {
        notes.note(Touch::Input)?;
        if self.taken < arrivals.count_below(before) {
            if let Some(byte) = arrivals.byte_below(before, self.taken) {
                self.taken += 1;
                return Ok(byte);
            }
        }
        Ok(0)
    }

    /// Counts the waiting bytes as `waiting` does, and notes that.
    ///
    /// # Errors
    ///
    /// `AllocError` where memory for the note cannot be had.
    pub fn waiting_noted<A: Arrivals, T: Touches>(
        &self,
        before: u32,
        arrivals: &A,
        notes: &mut T,
    ) -> Result<u32, AllocError>
        requires { self.now.taken ≤ length (A.arrived before arrivals.now) }
        ensures ok { IfOk result (λ count. Does T.NOTING (model.count_waiting (λ n. model.done n))
            (outside_of self.now (A.arrived before arrivals.now)) (outside_of self.now (A.arrived before arrivals.now)) count (T.noted notes.old) (T.noted notes.new)) }
        ensures quiet { OnErr result (T.KEEPS ≡ true) }
    {
        let arrived = arrivals.count_below(before);
        notes.note(Touch::Input)?;
        Ok(arrived - self.taken)
    }

    /// How many of the bytes that came in at the console have been taken.
    pub fn taken(&self) -> u32
        ensures { result ≡ self.now.taken }
    {
        self.taken
    }
}
