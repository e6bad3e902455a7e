//! RAM, as translation sees it.

ghost use Rattle.std.specs.Prelude.{◌≡◌, ◌<◌, ◌≤◌, ◌/◌, ◌%◌, ℕ, List, length, OnOk, OnErr};
ghost use Rattle.sv8_model.specs.Outside.{word_of};
ghost use Rattle.sv8_model.specs.Action.{done, store_word};
ghost use Rattle.sv8_model.specs.Does.{Does};

use crate::touches::Touches;
use std::alloc::AllocError;

/// RAM, in which the tables lie by which addresses are translated. A walk reads their entries, and an access leaves its marks in
/// one.
pub trait TableMemory {
    ghost use Rattle.std.specs.Prelude.{◌≡◌, ℕ, List};
    ghost use Rattle.sv8_model.specs.Outside.{Outside};

    // The bytes of RAM from physical address 0 on, and how many there are.
    ghost ram: { Self → List ℕ };

    ghost SIZE: { ℕ };

    // The same memory with other bytes of RAM.
    ghost with_ram: { List ℕ → Self → Self };

    // What lies outside the processor once these bytes have come in at the console. Its RAM is that above.
    ghost outside: { List ℕ → Self → Outside };

    /// How many bytes of RAM there are, at most 256 MiB.
    fn size(&self) -> u64
        ensures value { result ≡ SIZE }
        ensures most { result ≤ 0x1000_0000 }
        ensures words { SIZE % 4 ≡ 0 }
        ensures whole { length (ram self.now) ≡ SIZE };

    /// The word of RAM at an address.
    fn table_word(&self, at: u32) -> u32
        requires aligned { at % 4 ≡ 0 }
        requires within { at < SIZE }
        ensures { result ≡ word_of (ram self.now) (at / 4) };

    /// Stores a word of RAM, and notes that.
    ///
    /// # Errors
    ///
    /// `AllocError` where memory for the note, or for a part of RAM that is shared, cannot be had; nothing is changed then.
    fn store_table_word<T: Touches>(
        &mut self,
        at: u32,
        value: u32,
        notes: &mut T,
    ) -> Result<(), AllocError>
        requires aligned { at % 4 ≡ 0 }
        requires within { at < SIZE }
        ensures ok { OnOk result ((bytes : List ℕ) → Does T.NOTING (store_word (at / 4) value (done value))
            (record (outside bytes self.old) { ram = ram self.old }) (record (outside bytes self.new) { ram = ram self.new }) value (T.noted notes.old) (T.noted notes.new)) }
        ensures others { self.new ≡ with_ram (ram self.new) self.old }
        ensures err { OnErr result (self.new ≡ self.old) };

    // With the bytes that it has a memory is itself.
    ghost itself: { (m : Self) → m ≡ with_ram (ram m) m };
}
