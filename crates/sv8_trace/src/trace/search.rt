//! The first steps that read what an edit changes.

ghost use Rattle.std.specs.Prelude.{◌≡◌, ℕ, ◌*◌, ◌<◌, ◌≤◌, false, min};
ghost use Rattle.sv8_model.specs.Cells.{ram_byte, pending_level};
ghost use Rattle.sv8_history.specs.Changes.{Clear};
ghost use Rattle.sv8_history.specs.Reads.{first_of_change};
ghost use Rattle.sv8_history.specs.Input.{first_take};
ghost use Rattle.sv8_notes.specs.Steps.{IsFirstBelow};
ghost use Rattle.sv8_notes.specs.Sought.{is_met};
ghost use Rattle.sv8_cpu.specs.Recorded.{machine};
ghost use Rattle.sv8_trace.specs.Recording.{recorded, trace_of};

use crate::trace::Trace;
use sv8_notes::{Cell, NO_END, Sought};

impl<const NW: usize, const PAGES: usize, const K: u32> Trace<NW, PAGES, K> {
    /// A step from which on no recorded step does what is sought: the end of the last interval with a note of its word, where
    /// it has one, and else of all that is recorded.
    pub fn end_of(&self, sought: Sought) -> u32
        ensures end { result ≤ recorded K self.now }
        ensures none { (n : ℕ) → result ≤ n → n < recorded K self.now → is_met sought ((trace_of NW PAGES K self.now).notes n) ≡ false }
    {
        let _points = &self.points;
        match sought.word() {
            Some(address) => {
                let count = self.marks.mark(address) as usize;
                K * count.min(self.intervals.len()) as u32
            }
            None => self.recorded(),
        }
    }

    /// The first recorded step from one step on and below another that does what is sought.
    pub(crate) fn first_from(&self, sought: Sought, from: u32, to: u32) -> Option<u32>
        ensures { IsFirstBelow (λ n. is_met sought ((trace_of NW PAGES K self.now).notes n)) from (min to (recorded K self.now)) result }
    {
        self.first_between(sought, from, to.min(self.end_of(sought)))
    }

    /// The same below a step that is not above the recorded ones.
    fn first_between(&self, sought: Sought, from: u32, end: u32) -> Option<u32>
        requires { end ≤ recorded K self.now }
        ensures { IsFirstBelow (λ n. is_met sought ((trace_of NW PAGES K self.now).notes n)) from end result }
    {
        self.sizes();
        let mut start = from;
        while start < end {
            let base = K * (start / K);
            let stop = K.min(end - base);
            let notes = self.notes(start);
            match notes.first_from(sought, start % K, stop) {
                Some(offset) => return Some(base + offset),
                None => start = base + stop,
            }
        }
        None
    }

    /// The first recorded step from `from` on and below `to` that reads the word of a byte of RAM, where no step from `from` on has
    /// stored that word whole before; `None` where there is none. A `to` of `NO_END` means no end.
    pub fn first_read(&self, address: u32, from: u32, to: u32) -> Option<u32>
        ensures { result ≡ first_of_change (machine NW PAGES) K (trace_of NW PAGES K self.now) (record { cell = ram_byte address; from = from; to = to; cause = Clear }) }
    {
        let cell = Cell::Byte(address);
        match self.first_from(Sought::Touch(cell), from, to) {
            Some(step) => self.first_from(Sought::Read(cell), step, step + 1),
            None => None,
        }
    }

    /// The first recorded step from `from` on and below `to` that asks an interrupt level. A `to` of `NO_END` means no end.
    pub fn first_level(&self, level: u32, from: u32, to: u32) -> Option<u32>
        ensures { result ≡ first_of_change (machine NW PAGES) K (trace_of NW PAGES K self.now) (record { cell = pending_level level; from = from; to = to; cause = Clear }) }
    {
        let _points = &self.points;
        self.first_from(Sought::Read(Cell::Level(level)), from, to)
    }

    /// The first recorded step from `from` on that takes or counts the bytes that wait at the console.
    pub fn first_input(&self, from: u32) -> Option<u32>
        ensures { result ≡ first_take (machine NW PAGES) K (trace_of NW PAGES K self.now) from }
    {
        let _points = &self.points;
        self.first_from(Sought::Input, from, NO_END)
    }
}
