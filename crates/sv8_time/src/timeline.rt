//! The timeline.

ghost use Rattle.std.specs.Prelude.{◌≡◌, ℕ, ◌<◌, ◌≤◌, [], length, false, None, Some, OnOk, OnErr, IfOk, IfErr, IfSome, nat_le, slice_get};
ghost use Rattle.sv8_model.specs.Refused.{IsRefused};
ghost use Rattle.sv8_time.specs.Schedule.{Schedule, with_poke, without_poke, with_poke_byte, without_poke_byte, with_input, without_input, with_request, without_request, set_poke_fault, clear_poke_fault, set_poke_byte_fault, clear_poke_byte_fault, set_input_fault, clear_input_fault, set_request_fault, clear_request_fault, pokes_of_step, bytes_of_step, requests_of_step, poke_after, request_after, bytes_below, input_bytes, has_poke, poked_at, has_word, has_input, has_request, event_count, request_before, input_before, IsNextPoke, IsNextRequest, IsRequestPlace, IsTimeline};
ghost use Rattle.sv8_time.specs.Words.{bytes_of_words, word_before, IsWordIn};
ghost use Rattle.sv8_time.specs.Order.{Each, Rising};

use crate::fault::TimeFault;
use crate::inputs::Inputs;
use crate::marks::Marks;
use crate::pokes::Pokes;
use crate::requests::{Request, Requests, next_request};
use crate::words::WordPoke;
use std::alloc::{AllocError, Global};
use std::marker::Model;
use sv8_model::{Level, Refused};

/// The last step that may have events; steps are counted from 0.
pub const LAST_STEP: u32 = 1_000_000;

/// How many events may stand together; the poked bytes of one step and word are one.
pub const MOST_EVENTS: usize = 65_536;

/// How many bytes may come in at one step.
pub const MOST_BYTES: usize = 1_024;

/// What happens at a step, before its instruction.
#[derive(Drop, Clone, Copy)]
pub struct Events<'a> {
    /// The words that have poked bytes, in rising address.
    pub pokes: &'a [WordPoke],
    /// The bytes that come in, none where nothing does.
    pub bytes: &'a [u8],
    /// The interrupt requests, in rising level.
    pub requests: &'a [Request],
}

/// The outside events of a machine: pokes by step and byte of RAM, input bytes by step, and interrupt requests
/// by step and level (The SPARC Architecture Manual, Version 8, section 7.3, has the levels).
///
/// There is at most one event of a kind at a place: setting it again replaces it. An edit that is refused
/// leaves all events as they were.
pub struct Timeline {
    limit: u32,
    marks: Marks,
    pokes: Pokes,
    inputs: Inputs,
    requests: Requests,
}

// Written out, so that crates above prove no drop of its parts.
impl Drop for Timeline {
    fn drop(self) {
        let Timeline {
            limit: _,
            marks: _,
            pokes: _,
            inputs: _,
            requests: _,
        } = self;
    }
}

impl Model for Timeline {
    ghost use Rattle.sv8_time.specs.Schedule.{Schedule};
    ghost use Rattle.sv8_time.specs.Timeline.{Sound};

    ghost Value = { Schedule };

    ghost view = { λ t. record { limit = t.limit; pokes = t.pokes; inputs = t.inputs; requests = t.requests } };

    ghost invariant = { λ t. Sound t.marks (record { limit = t.limit; pokes = t.pokes; inputs = t.inputs; requests = t.requests }) };
}

impl Timeline {
    /// A timeline without events, for a RAM of `limit` bytes.
    pub fn new(alloc: Global, limit: u32) -> Timeline
        ensures { result ≡ record { limit = limit; pokes = []; inputs = []; requests = [] } }
    {
        Timeline {
            limit,
            marks: Marks::new(alloc),
            pokes: Pokes::new(alloc),
            inputs: Inputs::new(alloc),
            requests: Requests::new(alloc),
        }
    }

    /// The same timeline once more, with memory of its own: an edit of one does not change the other.
    ///
    /// # Errors
    ///
    /// `AllocError` where memory for it cannot be had.
    pub fn copy(&self, alloc: Global) -> Result<Timeline, AllocError>
        ensures { IfOk result (λ t. t ≡ self.now) }
    {
        Ok(Timeline {
            limit: self.limit,
            marks: self.marks.copy(alloc)?,
            pokes: self.pokes.copy(alloc)?,
            inputs: self.inputs.copy(alloc)?,
            requests: self.requests.copy(alloc)?,
        })
    }

    /// The size of RAM in bytes. `timeline` says what every timeline is.
    pub fn limit(&self) -> u32
        ensures value { result ≡ self.now.limit }
        ensures timeline { IsTimeline self.now }
    {
        self.limit
    }

    /// Whether no new event has a place.
    pub(crate) fn is_full(&self) -> bool
        ensures { result ≡ nat_le 65536 (event_count self.now) }
    {
        self.pokes.count() + self.inputs.count() + self.requests.count() >= MOST_EVENTS
    }

    pub(crate) fn has_word(&self, step: u32, address: u32) -> bool
        ensures { result ≡ has_word step address self.now.pokes }
    {
        self.pokes.has_word(step, address)
    }

    /// Whether a byte is poked at a step.
    pub fn has_byte(&self, step: u32, address: u32) -> bool
        ensures { result ≡ has_poke step address self.now.pokes }
    {
        self.pokes.has_byte(step, address)
    }

    pub(crate) fn has_input(&self, step: u32) -> bool
        ensures { result ≡ has_input step self.now.inputs }
    {
        self.inputs.has(step)
    }

    /// Whether a level is requested at a step.
    pub fn has_request(&self, step: u32, level: Level) -> bool
        ensures { result ≡ has_request step level self.now.requests }
    {
        self.requests.has(Request { step, level })
    }
}

impl Timeline {
    /// Pokes a word: the values of its four bytes at a step, over those that stand there.
    ///
    /// Faults, the first that holds: `StepTooLarge`; `BadAddress`, where the address is no multiple of 4 or
    /// the word is not inside RAM; `TooManyEvents`, only where no byte of the word is poked at this step yet.
    #[tactic(auto, using(crate::proofs::SoundEvents::sound_covers, crate::proofs::SoundEvents::poke_aligned))]
    pub fn set_poke(
        &mut self,
        _alloc: Global,
        step: u32,
        address: u32,
        value: u32,
    ) -> Result<(), Refused<TimeFault>>
        ensures ok { OnOk result (set_poke_fault step address self.old ≡ None) }
        ensures value { OnOk result (self.new ≡ with_poke step address value self.old) }
        ensures err { IfErr result (IsRefused (set_poke_fault step address self.old)) }
        ensures kept { OnErr result (self.new ≡ self.old) }
    {
        self.check_set_poke(step, address)?;
        self.marks.reach(step)?;
        self.pokes.put_word(step, address, value)?;
        self.marks.mark(step);
        Ok(())
    }

    /// Clears the pokes of a word's bytes at a step. It takes no memory.
    ///
    /// Faults, the first that holds: `StepTooLarge`; `BadAddress`; `NothingThere`, where no byte of the word is
    /// poked at this step.
    #[tactic(auto, using(crate::proofs::SoundEvents::sound_cut_word, crate::proofs::SoundEvents::word_stands, crate::proofs::SoundEvents::clear_aligned))]
    pub fn clear_poke(&mut self, step: u32, address: u32) -> Result<(), TimeFault>
        ensures ok { OnOk result (clear_poke_fault step address self.old ≡ None) }
        ensures value { OnOk result (self.new ≡ without_poke step address self.old) }
        ensures err { IfErr result (λ e. clear_poke_fault step address self.old ≡ Some e) }
        ensures kept { OnErr result (self.new ≡ self.old) }
    {
        self.check_clear_poke(step, address)?;
        self.pokes.cut_word(step, address);
        Ok(())
    }

    /// Pokes a byte: its value at a step, over the one that stands there.
    ///
    /// Faults, the first that holds: `StepTooLarge`; `BadAddress`, where the byte is not inside RAM;
    /// `TooManyEvents`, only where no byte of its word is poked at this step yet.
    #[tactic(auto, using(crate::proofs::SoundEvents::sound_covers))]
    pub fn set_poke_byte(
        &mut self,
        _alloc: Global,
        step: u32,
        address: u32,
        value: u8,
    ) -> Result<(), Refused<TimeFault>>
        ensures ok { OnOk result (set_poke_byte_fault step address self.old ≡ None) }
        ensures value { OnOk result (self.new ≡ with_poke_byte step address value self.old) }
        ensures err { IfErr result (IsRefused (set_poke_byte_fault step address self.old)) }
        ensures kept { OnErr result (self.new ≡ self.old) }
    {
        self.check_set_poke_byte(step, address)?;
        self.marks.reach(step)?;
        self.pokes.put_byte(step, address, value)?;
        self.marks.mark(step);
        Ok(())
    }

    /// Clears the poke of a byte at a step. It takes no memory.
    ///
    /// Faults, the first that holds: `StepTooLarge`; `BadAddress`; `NothingThere`, where this byte is not poked.
    #[tactic(auto, using(crate::proofs::SoundEvents::sound_cut_byte, crate::proofs::SoundEvents::byte_stands))]
    pub fn clear_poke_byte(&mut self, step: u32, address: u32) -> Result<(), TimeFault>
        ensures ok { OnOk result (clear_poke_byte_fault step address self.old ≡ None) }
        ensures value { OnOk result (self.new ≡ without_poke_byte step address self.old) }
        ensures err { IfErr result (λ e. clear_poke_byte_fault step address self.old ≡ Some e) }
        ensures kept { OnErr result (self.new ≡ self.old) }
    {
        self.check_clear_poke_byte(step, address)?;
        self.pokes.cut_byte(step, address);
        Ok(())
    }

    /// Sets the bytes that come in at a step, at least one, over those that stand there.
    ///
    /// Faults, the first that holds: `StepTooLarge`; `TooManyEvents`, only where nothing comes in yet;
    /// `InputTooLong`.
    #[tactic(auto, using(crate::proofs::SoundEvents::sound_covers, crate::proofs::SoundEvents::input_fits))]
    pub fn set_input(
        &mut self,
        alloc: Global,
        step: u32,
        bytes: &[u8],
    ) -> Result<(), Refused<TimeFault>>
        requires { 0 < length bytes.now }
        ensures ok { OnOk result (set_input_fault step bytes.now self.old ≡ None) }
        ensures value { OnOk result (self.new ≡ with_input step bytes.now self.old) }
        ensures err { IfErr result (IsRefused (set_input_fault step bytes.now self.old)) }
        ensures kept { OnErr result (self.new ≡ self.old) }
    {
        self.check_set_input(step, bytes)?;
        self.marks.reach(step)?;
        self.inputs.put(alloc, step, bytes)?;
        self.marks.mark(step);
        Ok(())
    }

    /// Clears the bytes that come in at a step. It takes no memory.
    ///
    /// Faults, the first that holds: `StepTooLarge`, `NothingThere`.
    #[tactic(auto, using(crate::proofs::SoundEvents::sound_cut_input, crate::proofs::SoundEvents::input_stands))]
    pub fn clear_input(&mut self, step: u32) -> Result<(), TimeFault>
        ensures ok { OnOk result (clear_input_fault step self.old ≡ None) }
        ensures value { OnOk result (self.new ≡ without_input step self.old) }
        ensures err { IfErr result (λ e. clear_input_fault step self.old ≡ Some e) }
        ensures kept { OnErr result (self.new ≡ self.old) }
    {
        self.check_clear_input(step)?;
        self.inputs.cut(step);
        Ok(())
    }

    /// Requests an interrupt at a step.
    ///
    /// Faults, the first that holds: `StepTooLarge`; `BadLevel`, where the level is not 1 to 15;
    /// `TooManyEvents`, only where this level is not requested yet.
    #[tactic(auto, using(crate::proofs::SoundEvents::sound_covers))]
    pub fn set_request(
        &mut self,
        _alloc: Global,
        step: u32,
        level: u32,
    ) -> Result<(), Refused<TimeFault>>
        ensures ok { OnOk result (set_request_fault step level self.old ≡ None) }
        ensures value { OnOk result (self.new ≡ with_request step level self.old) }
        ensures err { IfErr result (IsRefused (set_request_fault step level self.old)) }
        ensures kept { OnErr result (self.new ≡ self.old) }
    {
        let checked = self.check_set_request(step, level)?;
        self.marks.reach(step)?;
        self.requests.put(Request {
            step,
            level: checked,
        })?;
        self.marks.mark(step);
        Ok(())
    }

    /// Clears the request of a level at a step. It takes no memory.
    ///
    /// Faults, the first that holds: `StepTooLarge`, `BadLevel`, `NothingThere`.
    #[tactic(auto, using(crate::proofs::SoundEvents::sound_cut_request, crate::proofs::SoundEvents::request_stands))]
    pub fn clear_request(&mut self, step: u32, level: u32) -> Result<(), TimeFault>
        ensures ok { OnOk result (clear_request_fault step level self.old ≡ None) }
        ensures value { OnOk result (self.new ≡ without_request step level self.old) }
        ensures err { IfErr result (λ e. clear_request_fault step level self.old ≡ Some e) }
        ensures kept { OnErr result (self.new ≡ self.old) }
    {
        let checked = self.check_clear_request(step, level)?;
        self.requests.cut(Request {
            step,
            level: checked,
        });
        Ok(())
    }
}

impl Timeline {
    /// Whether something may happen at a step: where the answer is false, nothing does. It reads one flag. That the answer
    /// is false wherever it could be is no part of the contract: true costs time alone.
    #[tactic(auto, using(crate::proofs::SoundEvents::no_pokes, crate::proofs::SoundEvents::no_bytes, crate::proofs::SoundEvents::no_requests))]
    #[inline(always)]
    pub fn may_have_events(&self, step: u32) -> bool
        ensures pokes { result ≡ false → pokes_of_step step self.now.pokes ≡ [] }
        ensures bytes { result ≡ false → bytes_of_step step self.now.inputs ≡ [] }
        ensures requests { result ≡ false → requests_of_step step self.now.requests ≡ [] }
    {
        self.marks.has(step)
    }

    /// The same of the steps from one on and below another.
    pub fn may_have_events_between(&self, from: u32, to: u32) -> bool
        ensures pokes { result ≡ false → (step : ℕ) → from ≤ step → step < to → pokes_of_step step self.now.pokes ≡ [] }
        ensures bytes { result ≡ false → (step : ℕ) → from ≤ step → step < to → bytes_of_step step self.now.inputs ≡ [] }
        ensures requests { result ≡ false → (step : ℕ) → from ≤ step → step < to → requests_of_step step self.now.requests ≡ [] }
    {
        self.marks.has_any(from, to)
    }

    /// What is always known of a timeline. It does nothing.
    #[inline(always)]
    pub fn bounds(&self)
        ensures timeline { IsTimeline self.now }
    {
        let _limit = self.limit;
    }

    /// What happens at a step. A step that never had an event costs the read of one flag.
    ///
    /// `inside` has what a caller needs to write the poked bytes to RAM.
    #[tactic(auto, using(crate::proofs::SoundEvents::no_pokes, crate::proofs::SoundEvents::no_bytes, crate::proofs::SoundEvents::no_requests))]
    #[inline(always)]
    pub fn events(&self, step: u32) -> Events<'_>
        ensures pokes { bytes_of_words result.pokes.now ≡ pokes_of_step step self.now.pokes }
        ensures bytes { result.bytes.now ≡ bytes_of_step step self.now.inputs }
        ensures requests { result.requests.now ≡ requests_of_step step self.now.requests }
        ensures addresses_rise { Rising word_before result.pokes.now }
        ensures inside { Each (IsWordIn self.now.limit) result.pokes.now }
        ensures short { length result.bytes.now ≤ 1024 }
        ensures levels_rise { Rising request_before result.requests.now }
        ensures levels { Each IsRequestPlace result.requests.now }
        ensures timeline { IsTimeline self.now }
    {
        if self.marks.has(step) {
            Events {
                pokes: self.pokes.at(step),
                bytes: self.inputs.at(step),
                requests: self.requests.at(step),
            }
        } else {
            Events {
                pokes: &[],
                bytes: &[],
                requests: &[],
            }
        }
    }

    /// What a byte is poked with at a step; `None` where it is not poked then. `address` is that of the byte.
    pub fn poke_at(&self, step: u32, address: u32) -> Option<u8>
        ensures { result ≡ poked_at step address self.now.pokes }
    {
        self.pokes.byte(step, address)
    }

    /// The least step above `after` at which a byte is poked, at most `LAST_STEP`. `address` is that of the byte.
    pub fn next_poke(&self, address: u32, after: u32) -> Option<u32>
        ensures value { result ≡ poke_after address after self.now.pokes }
        ensures least { IsNextPoke address after self.now.pokes result }
        ensures bound { IfSome result (λ n. n ≤ 1000000) }
        ensures timeline { IsTimeline self.now }
    {
        self.pokes.next(address, after)
    }

    /// The least step above `after` at which a level is requested, at most `LAST_STEP`.
    pub fn next_request(&self, level: Level, after: u32) -> Option<u32>
        ensures value { result ≡ request_after level after self.now.requests }
        ensures least { IsNextRequest level after self.now.requests result }
        ensures bound { IfSome result (λ n. n ≤ 1000000) }
        ensures timeline { IsTimeline self.now }
    {
        next_request(&self.requests, level, after)
    }

    /// The number of input bytes of all steps below `before`.
    pub fn delivered(&self, before: u32) -> u32
        ensures value { result ≡ bytes_below before self.now.inputs }
        ensures steps_rise { Rising input_before self.now.inputs }
        ensures timeline { IsTimeline self.now }
    {
        self.inputs.delivered(before)
    }

    /// Input byte number k, all bytes counted from 0 in the order of their steps.
    pub fn byte(&self, k: u32) -> Option<u8>
        ensures value { result ≡ slice_get (input_bytes self.now.inputs) k }
        ensures steps_rise { Rising input_before self.now.inputs }
        ensures timeline { IsTimeline self.now }
    {
        self.inputs.byte(k)
    }
}
