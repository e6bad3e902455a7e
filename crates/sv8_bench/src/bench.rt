//! The workbench.

ghost use Rattle.std.specs.Prelude.{◌≡◌, ◌+◌, ◌*◌, ◌<◌, ◌≤◌, length, None, Some, IfOk, IfErr, OnOk, OnErr, map, option_map};
ghost use Rattle.sv8_model.specs.Refused.{ByFault};
ghost use Rattle.sv8_source.specs.Text.{texts, replaced};
ghost use Rattle.sv8_source.specs.Listing.{listing, numbered};
ghost use Rattle.sv8_source.specs.Names.{names};
ghost use Rattle.sv8_source.specs.View.{named_of, shown_of};
ghost use Rattle.sv8_edits.specs.Changes.{source_change};
ghost use Rattle.sv8_cpu.specs.Work.{counted};
ghost use Rattle.sv8_trace.specs.Recording.{recorded};
ghost use Rattle.sv8_bench.specs.Alike.{StaysAlike};
ghost use Rattle.sv8_workbench.specs.Faults.{edit_refusal};
ghost use Rattle.sv8_workbench.specs.Kept.{edited};
ghost use Rattle.sv8_bench.specs.Workbench.{IsRun, IsNew, IsEdited, IsSized};

mod affected;
mod asked;
mod copies;
mod edits;
mod intervals;
mod queries;

use crate::bench::affected::{commit, prepare};
pub use crate::bench::queries::LAST_STEP;
use std::alloc::{AllocError, Global};
use std::marker::Model;
use sv8_cpu::Work;
use sv8_edits::{Affected, image_patches};
use sv8_model::Refused;
use sv8_reset::reset;
use sv8_source::{DefinedName, Listed, Source};
use sv8_time::Timeline;
use sv8_trace::Trace;
use sv8_workbench::{BenchFault, of_source};

/// A workbench over a machine with `NW` register windows (2 to 32), `PAGES` pages of 4,096 bytes of RAM
/// (1 to 65,536), and a checkpoint every `K` steps (1 to 1,000,000).
///
/// It keeps the source, the timeline of outside events, and the recorded run. An edit makes no step: it leaves of the recorded run what
/// does not read what it changes, and patches that.
pub struct Bench<const NW: usize, const PAGES: usize, const K: u32> {
    alloc: Global,
    source: Source,
    timeline: Timeline,
    trace: Trace<NW, PAGES, K>,
    work: Work,
}

// Written out, it is proved here once: a derived one is proved anew, with all that it drops, by each crate that drops a workbench.
impl<const NW: usize, const PAGES: usize, const K: u32> Drop for Bench<NW, PAGES, K> {
    fn drop(self) {
        let Bench {
            alloc: _,
            source: _,
            timeline: _,
            trace: _,
            work: _,
        } = self;
    }
}

impl<const NW: usize, const PAGES: usize, const K: u32> Model for Bench<NW, PAGES, K> {
    ghost use Rattle.std.specs.Prelude.{◌≡◌, ◌≤◌, ◌*◌};
    ghost use Rattle.sv8_bench.specs.Workbench.{Workbench, IsRun};

    ghost Value = { Workbench };

    ghost view = { λ b. record { kept = record { windows = NW; pages = PAGES; source = b.source; timeline = b.timeline }; recording = b.trace; worked = b.work } };

    ghost invariant = { λ b. (2 ≤ NW) × (NW ≤ 32) × (1 ≤ PAGES) × (PAGES ≤ 65536) × (1 ≤ K) × (K ≤ 1000000)
        × (b.source.limit ≡ 4096 * PAGES) × (b.timeline.limit ≡ 4096 * PAGES)
        × IsRun K (record { kept = record { windows = NW; pages = PAGES; source = b.source; timeline = b.timeline }; recording = b.trace; worked = b.work }) };
}

impl<const NW: usize, const PAGES: usize, const K: u32> Bench<NW, PAGES, K> {
    /// A workbench with an empty source, so that RAM is all zeros, and an empty timeline.
    ///
    /// # Errors
    ///
    /// `AllocError` where memory for it cannot be had.
    pub fn new(alloc: Global) -> Result<Self, AllocError>
        requires some_windows { 2 ≤ NW }
        requires few_windows { NW ≤ 32 }
        requires some_pages { 1 ≤ PAGES }
        requires few_pages { PAGES ≤ 65536 }
        requires some_steps { 1 ≤ K }
        requires few_steps { K ≤ 1000000 }
        ensures { IfOk result (λ b. IsNew NW PAGES b) }
    {
        let ram_size = 4096 * PAGES as u32;
        let source = Source::new(alloc, ram_size);
        let machine = reset(alloc, &source)?;
        let _size = machine.ram_size();
        let trace = Trace::new(alloc, machine)?;
        Ok(Bench {
            alloc,
            source,
            timeline: Timeline::new(alloc, ram_size),
            trace,
            work: Work::new(),
        })
    }

    /// Replaces lines `first` to `last`, counted from 1, by these lines. With `last` = `first` - 1 it inserts them
    /// before `first`, which may be one more than the number of lines; with no lines it takes the old ones out.
    ///
    /// # Errors
    ///
    /// `NoSuchLine` for lines that are not there, `TooManyLines` above 65,536, the fault of the edited source's first
    /// faulty line, or `OutOfMemory`. The workbench is then as it was.
    pub fn replace_lines(
        &mut self,
        first: u32,
        last: u32,
        lines: &[Vec<u8>],
    ) -> Result<(), Refused<BenchFault>>
        ensures accepted { OnOk result (edit_refusal first last (texts lines.now) self.old.kept ≡ None) }
        ensures edited { OnOk result (IsEdited K (edited first last (texts lines.now) self.old.kept) self.old self.new
            (source_change self.old.kept.windows self.old.kept.pages self.old.kept.source (replaced first last (texts lines.now) self.old.kept.source) self.old.kept.timeline)) }
        ensures refused { IfErr result (ByFault (λ e. edit_refusal first last (texts lines.now) self.old.kept ≡ Some e)) }
        ensures unchanged { OnErr result (self.new ≡ self.old) }
        ensures alike { StaysAlike K self.old self.new }
    {
        let plan = match self.source.plan(self.alloc, first, last, lines) {
            Ok(plan) => plan,
            Err(refused) => return Err(of_source(refused)),
        };
        let _limit = self.timeline.limit();
        let _recorded = self.trace.recorded();
        let machine = reset::<NW, PAGES>(self.alloc, plan.source())?;
        let _size = machine.ram_size();
        let patches = image_patches(self.alloc, plan.changes(), &machine, &self.timeline)?;
        let prepared = prepare(self.alloc, &self.trace, &Affected::Cells(patches))?;
        self.source.commit(plan);
        commit(&mut self.trace, prepared);
        Ok(())
    }

    /// The number of lines of the source.
    pub fn line_count(&self) -> usize
        ensures count { result ≡ length self.now.kept.source.lines }
        ensures listed { result ≡ length (listing self.now.kept.source) }
        ensures few { result ≤ 65536 }
    {
        self.source.line_count()
    }

    /// A line of the listing by its number, from 1 on: its address in RAM, the bytes that it places there, and its text.
    /// `None` where there is no line of that number.
    pub fn listing(&self, number: usize) -> Option<Listed<'_>>
        ensures { option_map shown_of result ≡ numbered (listing self.now.kept.source) number }
    {
        self.source.line(number)
    }

    /// The names that the source defines, rising by value, and those of one value by their bytes.
    ///
    /// # Errors
    ///
    /// `AllocError` where memory for them cannot be had.
    pub fn names(&self) -> Result<Vec<DefinedName<'_>>, AllocError>
        ensures { IfOk result (λ v. map named_of v.items ≡ names self.now.kept.source) }
    {
        self.source.names(self.alloc)
    }

    /// The outside events.
    pub fn timeline(&self) -> &Timeline
        ensures { result.now ≡ self.now.kept.timeline }
    {
        &self.timeline
    }

    /// The recorded run, as far as it goes. What it shows of a step needs none to be made.
    pub fn trace(&self) -> &Trace<NW, PAGES, K>
        ensures { result.now ≡ self.now.recording }
    {
        &self.trace
    }

    /// The sizes that its type names: nothing is done, but what is known of every workbench is known of this one.
    pub fn sizes(&self)
        ensures { IsSized NW PAGES K self.now }
    {
        let _source = &self.source;
    }

    /// Where it takes memory from.
    pub fn alloc(&self) -> Global {
        self.alloc
    }

    /// The number of recorded steps, a multiple of `K`. `run` says of which run they are.
    pub fn recorded(&self) -> u32
        ensures steps { result ≡ recorded K self.now.recording }
        ensures bound { result ≤ 1000000 }
        ensures run { IsRun K self.now }
    {
        self.trace.recorded()
    }

    /// Counts a step more, which a crate above has made for a query.
    #[inline(always)]
    pub fn count_step(&mut self)
        ensures { self.new ≡ record self.old { worked = counted self.old.worked } }
    {
        self.work.raise();
    }

    /// How many steps were made for all queries so far; 2^64 - 1 where it is that or more.
    pub fn worked(&self) -> u64
        ensures { result ≡ self.now.worked }
    {
        self.work.done()
    }
}
