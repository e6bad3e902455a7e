//! Edits of the timeline.

ghost use Rattle.std.specs.Prelude.{◌<◌, length};
ghost use Rattle.sv8_time.specs.declared.edit.TimelineEdit.TheVariants.{SetPoke, ClearPoke, SetPokeByte, ClearPokeByte, SetInput, ClearInput, SetRequest, ClearRequest};
ghost use Rattle.sv8_bench.specs.Edits.{IsTimelineEdit};

use crate::bench::Bench;
use crate::bench::affected::{commit, prepare};
use sv8_edits::affected_by;
use sv8_model::Refused;
use sv8_time::{InputBytes, TimelineEdit};
use sv8_workbench::{BenchFault, of_time};

impl<const NW: usize, const PAGES: usize, const K: u32> Bench<NW, PAGES, K> {
    /// Makes an edit of the timeline. All that takes memory is built before anything is changed.
    ///
    /// # Errors
    ///
    /// The first that holds: `StepTooLarge` above step 1,000,000; `BadAddress` where the word or byte is not in RAM, or a word
    /// is at no multiple of 4; `BadLevel` of a level that is not 1 to 15; `NothingThere` where what is to be cleared does not
    /// stand; `TooManyEvents` where 65,536 events stand and this is another one (the poked bytes of a word at a step are one);
    /// `InputTooLong` above 1,024 bytes; else `OutOfMemory`. The workbench is then as it was.
    pub fn edit(&mut self, edit: &TimelineEdit<'_>) -> Result<(), Refused<BenchFault>>
        ensures { IsTimelineEdit K edit.now self.old self.new result }
    {
        let _limit = self.timeline.limit();
        let _recorded = self.trace.recorded();
        let affected = match affected_by::<NW, PAGES>(self.alloc, &self.timeline, edit) {
            Ok(affected) => affected,
            Err(refused) => return Err(of_time(refused)),
        };
        let prepared = prepare(self.alloc, &self.trace, &affected)?;
        match self.timeline.edit(self.alloc, edit) {
            Ok(()) => {}
            Err(refused) => return Err(of_time(refused)),
        }
        commit(&mut self.trace, prepared);
        Ok(())
    }

    /// Pokes a word of RAM: the values of its four bytes at a step, over those that stand there.
    ///
    /// # Errors
    ///
    /// Those of `edit`.
    pub fn set_poke(
        &mut self,
        step: u32,
        address: u32,
        value: u32,
    ) -> Result<(), Refused<BenchFault>>
        ensures { IsTimelineEdit K (SetPoke step address value) self.old self.new result }
    {
        self.edit(&TimelineEdit::SetPoke {
            step,
            address,
            value,
        })
    }

    /// Clears the pokes of a word's bytes at a step.
    ///
    /// # Errors
    ///
    /// Those of `edit`.
    pub fn clear_poke(&mut self, step: u32, address: u32) -> Result<(), Refused<BenchFault>>
        ensures { IsTimelineEdit K (ClearPoke step address) self.old self.new result }
    {
        self.edit(&TimelineEdit::ClearPoke { step, address })
    }

    /// Pokes a byte of RAM: its value at a step, over the one that stands there.
    ///
    /// # Errors
    ///
    /// Those of `edit`.
    pub fn set_poke_byte(
        &mut self,
        step: u32,
        address: u32,
        value: u8,
    ) -> Result<(), Refused<BenchFault>>
        ensures { IsTimelineEdit K (SetPokeByte step address value) self.old self.new result }
    {
        self.edit(&TimelineEdit::SetPokeByte {
            step,
            address,
            value,
        })
    }

    /// Clears the poke of a byte at a step, and of no other byte of its word.
    ///
    /// # Errors
    ///
    /// Those of `edit`.
    pub fn clear_poke_byte(&mut self, step: u32, address: u32) -> Result<(), Refused<BenchFault>>
        ensures { IsTimelineEdit K (ClearPokeByte step address) self.old self.new result }
    {
        self.edit(&TimelineEdit::ClearPokeByte { step, address })
    }

    /// Sets the bytes that come in at the console at a step, at least one, over those that stand there. The recorded run is left as
    /// it is where these bytes stand there already.
    ///
    /// # Errors
    ///
    /// Those of `edit`.
    pub fn set_input(&mut self, step: u32, bytes: &[u8]) -> Result<(), Refused<BenchFault>>
        requires { 0 < length bytes.now }
        ensures { IsTimelineEdit K (SetInput step bytes.now) self.old self.new result }
    {
        let bytes = InputBytes::new(bytes);
        self.edit(&TimelineEdit::SetInput { step, bytes })
    }

    /// Clears the bytes that come in at a step.
    ///
    /// # Errors
    ///
    /// Those of `edit`.
    pub fn clear_input(&mut self, step: u32) -> Result<(), Refused<BenchFault>>
        ensures { IsTimelineEdit K (ClearInput step) self.old self.new result }
    {
        self.edit(&TimelineEdit::ClearInput { step })
    }

    /// Requests an interrupt of a level, 1 to 15, at a step (section 7.3).
    ///
    /// # Errors
    ///
    /// Those of `edit`.
    pub fn set_request(&mut self, step: u32, level: u32) -> Result<(), Refused<BenchFault>>
        ensures { IsTimelineEdit K (SetRequest step level) self.old self.new result }
    {
        self.edit(&TimelineEdit::SetRequest { step, level })
    }

    /// Clears the request of a level at a step.
    ///
    /// # Errors
    ///
    /// Those of `edit`.
    pub fn clear_request(&mut self, step: u32, level: u32) -> Result<(), Refused<BenchFault>>
        ensures { IsTimelineEdit K (ClearRequest step level) self.old self.new result }
    {
        self.edit(&TimelineEdit::ClearRequest { step, level })
    }
}
