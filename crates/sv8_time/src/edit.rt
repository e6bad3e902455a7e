//! An edit of a timeline, as a value.

ghost use Rattle.std.specs.Prelude.{◌≡◌, None, Some, OnOk, OnErr, IfErr};
ghost use Rattle.sv8_model.specs.Refused.{IsRefused};
ghost use Rattle.sv8_time.specs.Edits.{timeline_fault, with_edit};

use crate::fault::TimeFault;
use crate::timeline::Timeline;
use std::alloc::Global;
use std::marker::Model;
use sv8_model::Refused;

/// The bytes that come in at a step, at least one.
#[derive(Drop)]
pub struct InputBytes<'a> {
    bytes: &'a [u8],
}

impl<'a> Model for InputBytes<'a> {
    ghost use Rattle.std.specs.Prelude.{List, ℕ, ◌<◌, length};

    ghost Value = { List ℕ };

    ghost view = { λ b. b.bytes.now };

    ghost invariant = { λ b. 0 < length b.bytes.now };
}

impl<'a> InputBytes<'a> {
    ghost use Rattle.std.specs.Prelude.{◌≡◌, ◌<◌, length};

    /// These bytes.
    pub fn new(bytes: &'a [u8]) -> Self
        requires { 0 < length bytes.now }
        ensures { result ≡ bytes.now }
    {
        InputBytes { bytes }
    }

    /// The bytes, one after the other.
    pub fn as_slice(&self) -> &[u8]
        ensures bytes { result.now ≡ self.now }
        ensures some { 0 < length result.now }
    {
        self.bytes
    }
}

/// An edit of a timeline: an event is set at a step, over the one of its kind that stands in its place, or it is cleared.
#[derive(Drop)]
pub enum TimelineEdit<'a> {
    /// The four bytes of a word of RAM are poked.
    SetPoke { step: u32, address: u32, value: u32 },
    /// The pokes of a word's bytes are cleared.
    ClearPoke { step: u32, address: u32 },
    /// A byte of RAM is poked.
    SetPokeByte { step: u32, address: u32, value: u8 },
    /// The poke of a byte is cleared.
    ClearPokeByte { step: u32, address: u32 },
    /// Bytes come in at the console.
    SetInput { step: u32, bytes: InputBytes<'a> },
    /// None come in.
    ClearInput { step: u32 },
    /// An interrupt of a level, 1 to 15, is requested (section 7.3).
    SetRequest { step: u32, level: u32 },
    /// The request of a level is cleared.
    ClearRequest { step: u32, level: u32 },
}

impl Timeline {
    /// Whether an edit would be made: its fault that wants no memory, if there is one.
    ///
    /// # Errors
    ///
    /// Those of `edit` but for `OutOfMemory`.
    pub fn check(&self, edit: &TimelineEdit<'_>) -> Result<(), TimeFault>
        ensures ok { OnOk result (timeline_fault edit.now self.now ≡ None) }
        ensures err { IfErr result (λ e. timeline_fault edit.now self.now ≡ Some e) }
    {
        match edit {
            TimelineEdit::SetPoke { step, address, .. } => self.check_set_poke(*step, *address),
            TimelineEdit::ClearPoke { step, address } => self.check_clear_poke(*step, *address),
            TimelineEdit::SetPokeByte { step, address, .. } => self.check_set_poke_byte(
                *step, *address,
            ),
            TimelineEdit::ClearPokeByte { step, address } => self.check_clear_poke_byte(
                *step, *address,
            ),
            TimelineEdit::SetInput { step, bytes } => self.check_set_input(*step, bytes.as_slice()),
            TimelineEdit::ClearInput { step } => self.check_clear_input(*step),
            TimelineEdit::SetRequest { step, level } => {
                self.check_set_request(*step, *level)?;
                Ok(())
            }
            TimelineEdit::ClearRequest { step, level } => {
                self.check_clear_request(*step, *level)?;
                Ok(())
            }
        }
    }

    /// Makes an edit.
    ///
    /// # Errors
    ///
    /// The first that holds: `StepTooLarge` above step 1,000,000; `BadAddress` where the word or byte is not in RAM, or a word
    /// is at no multiple of 4; `BadLevel` of a level that is not 1 to 15; `NothingThere` where what is to be cleared does not
    /// stand; `TooManyEvents` where 65,536 events stand and this is another one; `InputTooLong` above 1,024 bytes; else
    /// `OutOfMemory`, which an edit that clears never gives. All events are then as they were.
    pub fn edit(&mut self, alloc: Global, edit: &TimelineEdit<'_>) -> Result<(), Refused<TimeFault>>
        ensures ok { OnOk result (timeline_fault edit.now self.old ≡ None) }
        ensures value { OnOk result (self.new ≡ with_edit edit.now self.old) }
        ensures err { IfErr result (IsRefused (timeline_fault edit.now self.old)) }
        ensures kept { OnErr result (self.new ≡ self.old) }
    {
        match edit {
            TimelineEdit::SetPoke {
                step,
                address,
                value,
            } => self.set_poke(alloc, *step, *address, *value),
            TimelineEdit::ClearPoke { step, address } => Ok(self.clear_poke(*step, *address)?),
            TimelineEdit::SetPokeByte {
                step,
                address,
                value,
            } => self.set_poke_byte(alloc, *step, *address, *value),
            TimelineEdit::ClearPokeByte { step, address } => Ok(self.clear_poke_byte(
                *step, *address,
            )?),
            TimelineEdit::SetInput { step, bytes } => self.set_input(
                alloc,
                *step,
                bytes.as_slice(),
            ),
            TimelineEdit::ClearInput { step } => Ok(self.clear_input(*step)?),
            TimelineEdit::SetRequest { step, level } => self.set_request(alloc, *step, *level),
            TimelineEdit::ClearRequest { step, level } => Ok(self.clear_request(*step, *level)?),
        }
    }
}
