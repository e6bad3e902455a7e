//! The devices: what lies at their addresses, the timer, and the pending interrupt levels.

ghost use Rattle.std.specs.Prelude.{◌≡◌, ℕ, ◌%◌, true, List, IfOk, OnOk, OnErr};
ghost use Rattle.sv8_model.specs.Action as model;
ghost use Rattle.sv8_model.specs.Does.{Does};
ghost use Rattle.sv8_phys.specs.Contents.{outside_of};
ghost use Rattle.sv8_phys.specs.Devices.{tick, outside_load, outside_store, device_load, device_store, stored_with};
ghost use Rattle.sv8_phys.specs.Growths.{outside_load_grows, outside_store_grows};
ghost use Rattle.sv8_phys.specs.Calls.{ticked};

use crate::fault::BusError;
use crate::phys::Phys;
use crate::timer::Timer;
use std::alloc::AllocError;
use sv8_model::{
    INPUT, Level, NoTouches, OUTPUT, PENDING, Size, TIMER_COUNT, TIMER_RELOAD, Touch, Touches,
    WAITING, low_word,
};

/// The interrupt levels that there are, from 1 to 15, bit l for level l.
const EVERY_LEVEL: u16 = 0xfffe;

impl<const PAGES: usize> Phys<PAGES> {
    /// A step of the timer: a count above 0 falls by one; where it thereby reaches 0, level 10 becomes pending, and the
    /// count starts again from the reload. It takes no memory.
    pub fn tick(&mut self)
        ensures { self.new ≡ ticked self.old }
    {
        match self.tick_noted(&mut NoTouches) {
            Ok(()) => {}
            Err(_) => unreachable!(),
        }
    }

    /// A step of the timer, as `tick`, which notes an expiry.
    ///
    /// # Errors
    ///
    /// `AllocError` where memory for the note of an expiry cannot be had; the timer is then as it was.
    #[inline]
    pub fn tick_noted<T: Touches>(&mut self, notes: &mut T) -> Result<(), AllocError>
        ensures ok { IfOk result (λ _. (bytes : List ℕ) → Does T.NOTING (tick self.old.timer)
            (outside_of self.old bytes) (outside_of self.new bytes) self.new.timer (T.noted notes.old) (T.noted notes.new)) }
        ensures taken { self.new.taken ≡ self.old.taken }
        ensures err { OnErr result (self.new ≡ self.old) }
        ensures growth { OnErr result ((T.KEEPS ≡ true) × (self.old.timer.count ≡ 1)) }
    {
        match self.timer.count {
            0 => {}
            1 => self.expire(notes)?,
            _ => self.timer.count -= 1,
        }
        Ok(())
    }

    /// Those of some interrupt levels that are pending, bit l for level l, from 1 to 15.
    ///
    /// # Errors
    ///
    /// `AllocError` where memory for the note cannot be had.
    #[inline]
    pub fn pending_among<T: Touches>(&self, levels: u16, notes: &mut T) -> Result<u32, AllocError>
        ensures ok { IfOk result (λ word. (bytes : List ℕ) → Does T.NOTING (model.ask_levels levels (λ word. model.done word))
            (outside_of self.now bytes) (outside_of self.now bytes) word (T.noted notes.old) (T.noted notes.new)) }
        ensures quiet { OnErr result (T.KEEPS ≡ true) }
    {
        notes.note(Touch::Levels(levels))?;
        Ok(self.pending.asked(levels))
    }

    /// Loads from what is not RAM.
    #[cold]
    pub(super) fn read_outside<T: Touches>(
        &self,
        pa: u64,
        size: Size,
        notes: &mut T,
    ) -> Result<Result<u64, BusError>, AllocError>
        ensures ok { IfOk result (λ r. (bytes : List ℕ) → Does T.NOTING (outside_load self.now.timer size pa)
            (outside_of self.now bytes) (outside_of self.now bytes) r (T.noted notes.old) (T.noted notes.new)) }
        ensures growth { OnErr result (outside_load_grows T.KEEPS size pa ≡ true) }
    {
        match size {
            Size::Word => {
                let answer = self.read_device(pa, notes)?;
                Ok(answer)
            }
            Size::Byte | Size::Half | Size::Double => Ok(Err(BusError)),
        }
    }

    /// Loads from a device.
    #[tactic(auto, unfolding(crate::specs::Devices::device_load))]
    fn read_device<T: Touches>(
        &self,
        pa: u64,
        notes: &mut T,
    ) -> Result<Result<u64, BusError>, AllocError>
        ensures ok { IfOk result (λ r. (bytes : List ℕ) → Does T.NOTING (device_load self.now.timer pa)
            (outside_of self.now bytes) (outside_of self.now bytes) r (T.noted notes.old) (T.noted notes.new)) }
        ensures growth { OnErr result (outside_load_grows T.KEEPS Size.Word pa ≡ true) }
    {
        match pa {
            OUTPUT => Ok(Ok(0)),
            TIMER_COUNT => Ok(Ok(u64::from(self.timer.count))),
            TIMER_RELOAD => Ok(Ok(u64::from(self.timer.reload))),
            PENDING => {
                let word = self.pending_among(EVERY_LEVEL, notes)?;
                Ok(Ok(u64::from(word)))
            }
            _ => Ok(Err(BusError)),
        }
    }

    /// Stores to what is not RAM.
    #[cold]
    pub(super) fn write_outside<T: Touches>(
        &mut self,
        pa: u64,
        size: Size,
        value: u64,
        notes: &mut T,
    ) -> Result<Result<(), BusError>, AllocError>
        ensures ok { IfOk result (λ r. (bytes : List ℕ) → Does T.NOTING (outside_store self.old.timer size pa value)
            (outside_of self.old bytes) (outside_of self.new bytes) (record { answer = r; timer = self.new.timer }) (T.noted notes.old) (T.noted notes.new)) }
        ensures taken { self.new.taken ≡ self.old.taken }
        ensures err { OnErr result (self.new ≡ self.old) }
        ensures growth { OnErr result (outside_store_grows T.KEEPS size pa ≡ true) }
    {
        match size {
            Size::Word => {
                let answer = self.write_device(pa, value, notes)?;
                Ok(answer)
            }
            Size::Byte | Size::Half | Size::Double => Ok(Err(BusError)),
        }
    }

    /// Stores to a device.
    #[tactic(auto, unfolding(crate::specs::Devices::device_store))]
    fn write_device<T: Touches>(
        &mut self,
        pa: u64,
        value: u64,
        notes: &mut T,
    ) -> Result<Result<(), BusError>, AllocError>
        ensures ok { IfOk result (λ r. (bytes : List ℕ) → Does T.NOTING (device_store self.old.timer pa value)
            (outside_of self.old bytes) (outside_of self.new bytes) (record { answer = r; timer = self.new.timer }) (T.noted notes.old) (T.noted notes.new)) }
        ensures taken { self.new.taken ≡ self.old.taken }
        ensures err { OnErr result (self.new ≡ self.old) }
        ensures growth { OnErr result (outside_store_grows T.KEEPS Size.Word pa ≡ true) }
    {
        match pa {
            OUTPUT => self.output.push((value % 0x100) as u8)?,
            TIMER_COUNT => self.timer.count = low_word(value),
            TIMER_RELOAD => self.timer.reload = low_word(value),
            PENDING => self.clear_pending(low_word(value), notes)?,
            INPUT | WAITING => {}
            _ => return Ok(Err(BusError)),
        }
        Ok(Ok(()))
    }

    /// Clears the pending levels of a word.
    fn clear_pending<T: Touches>(&mut self, levels: u32, notes: &mut T) -> Result<(), AllocError>
        ensures ok { OnOk result ((bytes : List ℕ) (timer : Timer) → Does T.NOTING (model.clear_levels levels (model.done (stored_with timer)))
            (outside_of self.old bytes) (outside_of self.new bytes) (stored_with timer) (T.noted notes.old) (T.noted notes.new)) }
        ensures others { self.new ≡ record self.old { pending = self.new.pending } }
        ensures err { OnErr result (self.new ≡ self.old) }
        ensures quiet { OnErr result (T.KEEPS ≡ true) }
    {
        notes.note(Touch::Levels(EVERY_LEVEL))?;
        self.pending.clear(levels);
        Ok(())
    }

    /// The timer's count reaches 0.
    #[cold]
    fn expire<T: Touches>(&mut self, notes: &mut T) -> Result<(), AllocError>
        ensures ok { OnOk result ((bytes : List ℕ) → Does T.NOTING (model.expire (model.done (record self.old.timer { count = self.old.timer.reload })))
            (outside_of self.old bytes) (outside_of self.new bytes) self.new.timer (T.noted notes.old) (T.noted notes.new)) }
        ensures taken { self.new.taken ≡ self.old.taken }
        ensures err { OnErr result (self.new ≡ self.old) }
        ensures quiet { OnErr result (T.KEEPS ≡ true) }
    {
        notes.note(Touch::Expiry)?;
        self.pending.request(Level::of_timer());
        self.timer.count = self.timer.reload;
        Ok(())
    }
}
