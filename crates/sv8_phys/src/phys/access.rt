//! Loads and stores.

ghost use Rattle.std.specs.Prelude.{◌≡◌, ℕ, ◌+◌, ◌*◌, ◌/◌, ◌%◌, ◌<◌, ◌∷◌, [], true, false, List, IfOk, OnOk, OnErr};
ghost use Rattle.sv8_model.specs.Does.{Does, DoesUnnoted, noting};
ghost use Rattle.sv8_model.specs.Outside.{word_address};
ghost use Rattle.sv8_model.specs.Size.{bytes_in};
ghost use Rattle.sv8_phys.specs.Memory.{ram_size};
ghost use Rattle.sv8_phys.specs.Contents.{outside_of};
ghost use Rattle.sv8_phys.specs.Devices.{load, store, ram_load, ram_store, stored_with};
ghost use Rattle.sv8_phys.specs.Notes.{load_touches, store_touches};
ghost use Rattle.sv8_phys.specs.Growths.{load_grows, store_grows};
ghost use Rattle.sv8_phys.specs.Calls.{loaded};

use crate::fault::BusError;
use crate::phys::Phys;
use crate::timer::Timer;
use std::alloc::AllocError;
use sv8_model::{NoTouches, Size, Touch, Touches};

impl<const PAGES: usize> Phys<PAGES> {
    /// Loads from RAM or a device. A number of more than one byte has its most significant byte at the lowest address.
    ///
    /// The console's input is not served here but by `take_input` and `waiting`. It takes no memory.
    ///
    /// # Errors
    ///
    /// `BusError` where neither RAM nor a device serves the address, or a device is not asked for a word.
    pub fn read(&self, pa: u64, size: Size) -> Result<u64, BusError>
        requires { pa % bytes_in size ≡ 0 }
        ensures { result ≡ loaded (ram_size PAGES) self.now size pa }
    {
        match self.read_noted(pa, size, &mut NoTouches) {
            Ok(answer) => answer,
            Err(_) => unreachable!(),
        }
    }

    /// Stores to RAM or a device the low bytes of a number.
    ///
    /// # Errors
    ///
    /// `AllocError` where memory for a page that is shared or for the output cannot be had; memory and devices are then as they
    /// were. `BusError`, as an answer, as for `read`.
    pub fn write(
        &mut self,
        pa: u64,
        size: Size,
        value: u64,
    ) -> Result<Result<(), BusError>, AllocError>
        requires { pa % bytes_in size ≡ 0 }
        ensures ok { IfOk result (λ r. (bytes : List ℕ) → DoesUnnoted (store (ram_size PAGES) self.old.timer size pa value)
            (outside_of self.old bytes) (outside_of self.new bytes) (record { answer = r; timer = self.new.timer })) }
        ensures taken { self.new.taken ≡ self.old.taken }
        ensures err { OnErr result (self.new ≡ self.old) }
        ensures growth { OnErr result (store_grows false (ram_size PAGES) size pa ≡ true) }
    {
        let answer = self.write_noted(pa, size, value, &mut NoTouches)?;
        Ok(answer)
    }

    /// Loads as `read` does, and notes what it touches.
    ///
    /// # Errors
    ///
    /// `AllocError` where memory for a note cannot be had. `BusError`, as an answer, as for `read`.
    #[inline]
    pub fn read_noted<T: Touches>(
        &self,
        pa: u64,
        size: Size,
        notes: &mut T,
    ) -> Result<Result<u64, BusError>, AllocError>
        requires { pa % bytes_in size ≡ 0 }
        ensures ok { IfOk result (λ r. (bytes : List ℕ) → Does T.NOTING (load (ram_size PAGES) self.now.timer size pa)
            (outside_of self.now bytes) (outside_of self.now bytes) r (T.noted notes.old) (T.noted notes.new)) }
        ensures growth { OnErr result (load_grows T.KEEPS (ram_size PAGES) size pa ≡ true) }
    {
        if pa < self.ram_size() {
            let value = self.read_ram(pa, size, notes)?;
            Ok(Ok(value))
        } else {
            let answer = self.read_outside(pa, size, notes)?;
            Ok(answer)
        }
    }

    /// Stores as `write` does, and notes what it touches.
    ///
    /// # Errors
    ///
    /// `AllocError` where memory for a page that is shared, for the output or for a note cannot be had; memory and devices
    /// are then as they were. `BusError`, as an answer, as for `read`.
    #[inline(always)]
    pub fn write_noted<T: Touches>(
        &mut self,
        pa: u64,
        size: Size,
        value: u64,
        notes: &mut T,
    ) -> Result<Result<(), BusError>, AllocError>
        requires { pa % bytes_in size ≡ 0 }
        ensures ok { IfOk result (λ r. (bytes : List ℕ) → Does T.NOTING (store (ram_size PAGES) self.old.timer size pa value)
            (outside_of self.old bytes) (outside_of self.new bytes) (record { answer = r; timer = self.new.timer }) (T.noted notes.old) (T.noted notes.new)) }
        ensures taken { self.new.taken ≡ self.old.taken }
        ensures err { OnErr result (self.new ≡ self.old) }
        ensures growth { OnErr result (store_grows T.KEEPS (ram_size PAGES) size pa ≡ true) }
    {
        if pa < self.ram_size() {
            self.write_ram(pa, size, value, notes)?;
            Ok(Ok(()))
        } else {
            let answer = self.write_outside(pa, size, value, notes)?;
            Ok(answer)
        }
    }

    /// Loads from RAM: the access of a fetch, a table walk, or an instruction that loads and stores at once.
    ///
    /// # Errors
    ///
    /// `AllocError` where memory for a note cannot be had.
    #[inline(always)]
    pub fn read_ram<T: Touches>(
        &self,
        pa: u64,
        size: Size,
        notes: &mut T,
    ) -> Result<u64, AllocError>
        requires within { pa < ram_size PAGES }
        requires aligned { pa % bytes_in size ≡ 0 }
        ensures ok { IfOk result (λ v. (bytes : List ℕ) → Does T.NOTING (ram_load size pa)
            (outside_of self.now bytes) (outside_of self.now bytes) v (T.noted notes.old) (T.noted notes.new)) }
        ensures err { OnErr result (T.KEEPS ≡ true) }
    {
        let ram = &self.ram;
        note_load(pa as u32, size, notes)?;
        Ok(ram.read(pa as usize, size))
    }

    /// Stores the low bytes of a number to RAM.
    ///
    /// # Errors
    ///
    /// `AllocError` where memory for a page that is shared or for a note cannot be had; memory is then as it was.
    #[inline(always)]
    pub fn write_ram<T: Touches>(
        &mut self,
        pa: u64,
        size: Size,
        value: u64,
        notes: &mut T,
    ) -> Result<(), AllocError>
        requires within { pa < ram_size PAGES }
        requires aligned { pa % bytes_in size ≡ 0 }
        ensures ok { OnOk result ((bytes : List ℕ) (timer : Timer) → Does T.NOTING (ram_store size pa value (stored_with timer))
            (outside_of self.old bytes) (outside_of self.new bytes) (stored_with timer) (T.noted notes.old) (T.noted notes.new)) }
        ensures others { self.new ≡ record self.old { ram = self.new.ram } }
        ensures err { OnErr result (self.new ≡ self.old) }
    {
        let ram = &mut self.ram;
        note_store(pa as u32, size, notes)?;
        ram.write(pa as usize, size, value)?;
        Ok(())
    }
}

/// The address of the word in which a byte lies.
#[inline(always)]
fn word_address(pa: u32) -> u32
    ensures { result ≡ word_address pa }
{
    4 * (pa / 4)
}

/// Notes what a load from RAM touches: each byte of a halfword, and each word of a doubleword.
#[inline(always)]
fn note_load<T: Touches>(pa: u32, size: Size, notes: &mut T) -> Result<(), AllocError>
    requires { pa % bytes_in size ≡ 0 }
    ensures ok { OnOk result (T.noted notes.new ≡ noting T.NOTING (T.noted notes.old) (load_touches size pa) []) }
    ensures err { OnErr result (T.KEEPS ≡ true) }
{
    match size {
        Size::Byte | Size::Word => notes.note(Touch::Read(word_address(pa)))?,
        Size::Half => note_both(
            Touch::Read(word_address(pa)),
            Touch::Read(word_address(pa + 1)),
            notes,
        )?,
        Size::Double => note_both(
            Touch::Read(word_address(pa)),
            Touch::Read(4 * (pa / 4 + 1)),
            notes,
        )?,
    }
    Ok(())
}

/// Notes what a store to RAM touches: a byte or a halfword leaves the rest of its word, so it counts as a read.
#[inline(always)]
fn note_store<T: Touches>(pa: u32, size: Size, notes: &mut T) -> Result<(), AllocError>
    requires { pa % bytes_in size ≡ 0 }
    ensures ok { OnOk result (T.noted notes.new ≡ noting T.NOTING (T.noted notes.old) (store_touches size pa) []) }
    ensures err { OnErr result (T.KEEPS ≡ true) }
{
    match size {
        Size::Byte | Size::Half => note_load(pa, size, notes)?,
        Size::Word => notes.note(Touch::Write(word_address(pa)))?,
        Size::Double => note_both(
            Touch::Write(word_address(pa)),
            Touch::Write(4 * (pa / 4 + 1)),
            notes,
        )?,
    }
    Ok(())
}

/// Takes two notes, one behind the other.
#[inline(always)]
#[tactic(auto, using(sv8_model::proofs::Common::noting_then))]
fn note_both<T: Touches>(first: Touch, second: Touch, notes: &mut T) -> Result<(), AllocError>
    ensures ok { OnOk result (T.noted notes.new ≡ noting T.NOTING (T.noted notes.old) (first ∷ second ∷ []) []) }
    ensures err { OnErr result (T.KEEPS ≡ true) }
{
    notes.note(first)?;
    notes.note(second)?;
    Ok(())
}
