//! Why an edit of a timeline would be refused.

ghost use Rattle.std.specs.Prelude.{◌≡◌, None, Some, OnOk, IfOk, IfErr};
ghost use Rattle.sv8_time.specs.Schedule.{set_poke_fault, clear_poke_fault, set_poke_byte_fault, clear_poke_byte_fault, set_input_fault, clear_input_fault, set_request_fault, clear_request_fault, is_word};

use crate::fault::TimeFault;
use crate::timeline::{LAST_STEP, MOST_BYTES, Timeline};
use sv8_model::Level;

fn is_word(address: u32, limit: u32) -> bool
    ensures { result ≡ is_word address limit }
{
    address % 4 == 0 && u64::from(address) + 4 <= u64::from(limit)
}

impl Timeline {
    /// Whether a word can be poked at a step: the fault of `set_poke` that wants no memory, if there is one.
    pub(crate) fn check_set_poke(&self, step: u32, address: u32) -> Result<(), TimeFault>
        ensures ok { OnOk result (set_poke_fault step address self.now ≡ None) }
        ensures err { IfErr result (λ e. set_poke_fault step address self.now ≡ Some e) }
    {
        if step > LAST_STEP {
            return Err(TimeFault::StepTooLarge);
        }
        if !is_word(address, self.limit()) {
            return Err(TimeFault::BadAddress);
        }
        if self.is_full() && !self.has_word(step, address) {
            return Err(TimeFault::TooManyEvents);
        }
        Ok(())
    }

    /// Whether a word's pokes at a step can be cleared: the fault of `clear_poke`, if there is one.
    pub(crate) fn check_clear_poke(&self, step: u32, address: u32) -> Result<(), TimeFault>
        ensures ok { OnOk result (clear_poke_fault step address self.now ≡ None) }
        ensures err { IfErr result (λ e. clear_poke_fault step address self.now ≡ Some e) }
    {
        if step > LAST_STEP {
            return Err(TimeFault::StepTooLarge);
        }
        if !is_word(address, self.limit()) {
            return Err(TimeFault::BadAddress);
        }
        if !self.has_word(step, address) {
            return Err(TimeFault::NothingThere);
        }
        Ok(())
    }

    /// Whether a byte can be poked at a step: the fault of `set_poke_byte` that wants no memory, if there is one.
    pub(crate) fn check_set_poke_byte(&self, step: u32, address: u32) -> Result<(), TimeFault>
        ensures ok { OnOk result (set_poke_byte_fault step address self.now ≡ None) }
        ensures err { IfErr result (λ e. set_poke_byte_fault step address self.now ≡ Some e) }
    {
        if step > LAST_STEP {
            return Err(TimeFault::StepTooLarge);
        }
        if address >= self.limit() {
            return Err(TimeFault::BadAddress);
        }
        if self.is_full() && !self.has_word(step, address) {
            return Err(TimeFault::TooManyEvents);
        }
        Ok(())
    }

    /// Whether a byte's poke at a step can be cleared: the fault of `clear_poke_byte`, if there is one.
    pub(crate) fn check_clear_poke_byte(&self, step: u32, address: u32) -> Result<(), TimeFault>
        ensures ok { OnOk result (clear_poke_byte_fault step address self.now ≡ None) }
        ensures err { IfErr result (λ e. clear_poke_byte_fault step address self.now ≡ Some e) }
    {
        if step > LAST_STEP {
            return Err(TimeFault::StepTooLarge);
        }
        if address >= self.limit() {
            return Err(TimeFault::BadAddress);
        }
        if !self.has_byte(step, address) {
            return Err(TimeFault::NothingThere);
        }
        Ok(())
    }

    /// Whether bytes can come in at a step: the fault of `set_input` that wants no memory, if there is one.
    pub(crate) fn check_set_input(&self, step: u32, bytes: &[u8]) -> Result<(), TimeFault>
        ensures ok { OnOk result (set_input_fault step bytes.now self.now ≡ None) }
        ensures err { IfErr result (λ e. set_input_fault step bytes.now self.now ≡ Some e) }
    {
        if step > LAST_STEP {
            return Err(TimeFault::StepTooLarge);
        }
        if self.is_full() && !self.has_input(step) {
            return Err(TimeFault::TooManyEvents);
        }
        if bytes.len() > MOST_BYTES {
            return Err(TimeFault::InputTooLong);
        }
        Ok(())
    }

    /// Whether the bytes that come in at a step can be cleared: the fault of `clear_input`, if there is one.
    pub(crate) fn check_clear_input(&self, step: u32) -> Result<(), TimeFault>
        ensures ok { OnOk result (clear_input_fault step self.now ≡ None) }
        ensures err { IfErr result (λ e. clear_input_fault step self.now ≡ Some e) }
    {
        if step > LAST_STEP {
            return Err(TimeFault::StepTooLarge);
        }
        if !self.has_input(step) {
            return Err(TimeFault::NothingThere);
        }
        Ok(())
    }

    /// The level of a number that can be requested at a step, or else the fault of `set_request` that wants no memory.
    pub(crate) fn check_set_request(&self, step: u32, level: u32) -> Result<Level, TimeFault>
        ensures ok { OnOk result (set_request_fault step level self.now ≡ None) }
        ensures level { IfOk result (λ l. l ≡ level) }
        ensures err { IfErr result (λ e. set_request_fault step level self.now ≡ Some e) }
    {
        if step > LAST_STEP {
            return Err(TimeFault::StepTooLarge);
        }
        let Some(level) = Level::new(level) else {
            return Err(TimeFault::BadLevel);
        };
        if self.is_full() && !self.has_request(step, level) {
            return Err(TimeFault::TooManyEvents);
        }
        Ok(level)
    }

    /// The level of a number whose request at a step can be cleared, or else the fault of `clear_request`.
    pub(crate) fn check_clear_request(&self, step: u32, level: u32) -> Result<Level, TimeFault>
        ensures ok { OnOk result (clear_request_fault step level self.now ≡ None) }
        ensures level { IfOk result (λ l. l ≡ level) }
        ensures err { IfErr result (λ e. clear_request_fault step level self.now ≡ Some e) }
    {
        if step > LAST_STEP {
            return Err(TimeFault::StepTooLarge);
        }
        let Some(level) = Level::new(level) else {
            return Err(TimeFault::BadLevel);
        };
        if !self.has_request(step, level) {
            return Err(TimeFault::NothingThere);
        }
        Ok(level)
    }
}
