//! The notes of the interval under way, taken as its steps are made.

ghost use Rattle.std.specs.Prelude.{◌≡◌, ℕ, ◌<◌, ◌++◌, List, IfOk, OnOk};
ghost use Rattle.sv8_model.specs.declared.touch.Touch.{Touch};
ghost use Rattle.sv8_model.specs.Footprint.{data_touches};
ghost use Rattle.sv8_touches.specs.Told.{told};
ghost use Rattle.sv8_notes.specs.Steps.{Gains, no_steps};
ghost use Rattle.sv8_notes.specs.Recording.{HasAsked, HasEnded, asked_first, begun, is_levels, is_short, shape_of, so_far, word_at, with_fetch, with_levels, with_load, with_rare, with_read, with_touches, with_write, with_run, without_stored};

use crate::notes::Notes;
use crate::word_run::WordRun;
use std::alloc::{AllocError, Global};
use std::marker::Model;
use sv8_model::{Observation, Touches};
use sv8_phys::Touch;
use sv8_touches::StepTouches;

/// What the step under way has touched so far, behind the interrupt levels that it may have asked first.
#[derive(Clone, Copy)]
pub(crate) enum Stage {
    Nothing,
    /// It read a word.
    Fetched,
    /// It read a word, and then one more.
    Loaded,
    /// It read a word, and then wrote another one.
    Stored,
    /// Anything else.
    Rare,
}

/// Takes the notes of steps, one after the other, straight into those of their interval. What a step fetches, loads or
/// stores stands there at once; what a rarer step touches waits in a list for the end of the step.
pub struct Recorder {
    /// All of them, but for those of the run under way.
    notes: Notes,
    /// The words that were fetched one behind the other, up to the last one.
    run: WordRun,
    /// The number of steps between the checkpoint and the step under way.
    offset: u32,
    /// The levels that it asked first, which are noted at its end.
    asked: Option<u16>,
    stage: Stage,
    /// The address of the word that it read first, and of the one that it then read or wrote, where the stage has them.
    first: u32,
    second: u32,
    /// All that it touched, where it is a rare one.
    list: StepTouches,
    ghost few: { offset < 1000000 },
}

// Written out, so that crates above prove no drop of its parts.
impl Drop for Recorder {
    fn drop(self) {
        let Recorder {
            notes: _,
            run: _,
            offset: _,
            asked: _,
            stage: _,
            first: _,
            second: _,
            list: _,
        } = self;
    }
}

impl Model for Recorder {
    ghost use Rattle.sv8_notes.specs.Recording.{Recording, shape_of, with_run};

    ghost Value = { Recording };

    ghost view = { λ r. record { notes = with_run r.notes r.run; offset = r.offset; asked = r.asked; shape = shape_of r.stage r.first r.second r.list } };
}

impl Touches for Recorder {
    ghost use Rattle.std.specs.Prelude.{true, false};
    ghost use Rattle.sv8_notes.specs.Recording.{recording};

    ghost NOTING = { recording };

    ghost KEEPS = { true };

    ghost OBSERVES = { false };

    ghost noted = { λ r. r };

    #[inline(always)]
    fn note(&mut self, touch: Touch) -> Result<(), AllocError> {
        match touch {
            Touch::Read(address) => self.read(address),
            Touch::Write(address) => self.write(address),
            Touch::Levels(levels) => self.ask(levels),
            Touch::Input => self.note_rare(Touch::Input),
            Touch::Expiry => self.note_rare(Touch::Expiry),
        }
    }

    #[inline(always)]
    fn observe(&mut self, _observation: Observation) -> Result<(), AllocError> {
        Ok(())
    }
}

/// Notes levels that were asked first, if any were.
#[inline(always)]
fn note_asked(notes: &mut Notes, asked: Option<u16>, offset: u32) -> Result<(), AllocError>
    requires { offset < 1000000 }
    ensures { OnOk result (HasAsked asked offset notes.old notes.new) }
{
    match asked {
        None => Ok(()),
        Some(levels) => notes.note_levels(levels, offset),
    }
}

/// Whether a touch asks levels.
#[inline(always)]
fn asks_levels(touch: Touch) -> bool
    ensures { result ≡ is_levels touch }
{
    match touch {
        Touch::Levels(_) => true,
        Touch::Read(_) | Touch::Write(_) | Touch::Input | Touch::Expiry => false,
    }
}

/// Whether a step with this list may be a frequent one, by the number of its touches: of any other one all is data.
#[inline(always)]
fn may_be_frequent(touches: &[Touch]) -> bool
    ensures { result ≡ is_short touches.now }
{
    match touches {
        [] => true,
        [_] => true,
        [_, _] => true,
        [first, _, _] => asks_levels(*first),
        _ => false,
    }
}

/// Makes a list of what a step has touched so far, unless it is one already.
fn list_so_far(
    list: &mut StepTouches,
    stage: Stage,
    asked: Option<u16>,
    first: u32,
    second: u32,
) -> Result<(), AllocError>
    ensures { OnOk result (list.new ≡ so_far (shape_of stage first second list.old) asked) }
{
    match stage {
        Stage::Rare => Ok(()),
        Stage::Nothing => list_asked(list, asked),
        Stage::Fetched => {
            list_asked(list, asked)?;
            list.note(Touch::Read(first))
        }
        Stage::Loaded => {
            list_asked(list, asked)?;
            list.note(Touch::Read(first))?;
            list.note(Touch::Read(second))
        }
        Stage::Stored => {
            list_asked(list, asked)?;
            list.note(Touch::Read(first))?;
            list.note(Touch::Write(second))
        }
    }
}

/// Makes a list of the levels that were asked first, if any were.
fn list_asked(list: &mut StepTouches, asked: Option<u16>) -> Result<(), AllocError>
    ensures { OnOk result (list.new ≡ asked_first asked) }
{
    list.clear();
    match asked {
        None => Ok(()),
        Some(levels) => list.note(Touch::Levels(levels)),
    }
}

/// Takes the note of a word back that a step wrote, where its stage says that it did.
fn take_back(notes: &mut Notes, stage: Stage)
    ensures { (first second : ℕ) (list : List Touch) → notes.new ≡ without_stored (shape_of stage first second list) notes.old }
{
    match stage {
        Stage::Stored => notes.forget_write(),
        Stage::Nothing | Stage::Fetched | Stage::Loaded | Stage::Rare => {}
    }
}

impl Recorder {
    /// Of no steps. It takes no memory.
    pub fn new(alloc: Global) -> Recorder
        ensures { result ≡ begun no_steps 0 }
    {
        Recorder {
            notes: Notes::new(alloc),
            run: WordRun::empty(),
            offset: 0,
            asked: None,
            stage: Stage::Nothing,
            first: 0,
            second: 0,
            list: StepTouches::new(alloc),
        }
    }

    /// Lets all notes go; the memory stays.
    pub fn clear(&mut self)
        ensures { self.new ≡ record self.old { notes = no_steps } }
    {
        self.notes.clear();
        self.run = WordRun::empty();
    }

    /// The notes once more, in no more memory than they need.
    ///
    /// # Errors
    ///
    /// `AllocError` where that memory cannot be had.
    pub fn copy_notes(&self) -> Result<Notes, AllocError>
        ensures { IfOk result (λ notes. notes ≡ self.now.notes) }
    {
        self.notes.copy_with(self.run)
    }

    /// A step begins, the one with this offset.
    #[inline(always)]
    pub fn begin(&mut self, offset: u32)
        requires { offset < 1000000 }
        ensures { self.new ≡ begun self.old.notes offset }
    {
        self.offset = offset;
        self.asked = None;
        self.stage = Stage::Nothing;
    }

    /// The step ends. What a frequent one touched is among the notes then, and of any other one what is told of it
    /// (`sv8_touches::tell_all`), as data.
    ///
    /// # Errors
    ///
    /// `AllocError` where memory for a note cannot be had; some are then taken.
    #[inline(always)]
    pub fn end(&mut self) -> Result<(), AllocError>
        ensures { OnOk result (HasEnded self.old.shape self.old.asked self.old.offset self.old.notes self.new.notes) }
    {
        match self.stage {
            Stage::Rare => { self.notes.note_told(self.list.touches(), self.offset) }
            Stage::Nothing | Stage::Fetched | Stage::Loaded | Stage::Stored => {
                note_asked(&mut self.notes, self.asked, self.offset)
            }
        }
    }

    /// Takes the notes of a step, the one with this offset, from the list of all that it touched.
    ///
    /// # Errors
    ///
    /// `AllocError` where memory for a note cannot be had; some are then taken.
    #[inline(always)]
    pub fn record(&mut self, offset: u32, touches: &[Touch]) -> Result<(), AllocError>
        requires { offset < 1000000 }
        ensures { OnOk result (Gains offset (told touches.now) (data_touches touches.now) self.old.notes self.new.notes) }
    {
        if !may_be_frequent(touches) {
            self.notes.note_told(touches, offset)?;
            return Ok(());
        }
        self.begin(offset);
        self.note_all(touches)?;
        self.end()?;
        Ok(())
    }

    /// Takes one touch after the other.
    fn note_all(&mut self, touches: &[Touch]) -> Result<(), AllocError>
        ensures { OnOk result (self.new ≡ with_touches self.old touches.now) }
    {
        let mut rest = touches;
        while let [touch, after @ ..] = rest {
            self.note(*touch)?;
            rest = after;
        }
        Ok(())
    }

    /// A word is fetched: it is the next one of the run, or another run begins.
    #[inline(always)]
    fn fetch(&mut self, address: u32) -> Result<(), AllocError>
        ensures { OnOk result (self.new ≡ with_fetch self.old address) }
    {
        self.stage = Stage::Fetched;
        self.first = address;
        if self.run.extend(address, self.offset) {
            return Ok(());
        }
        self.begin_run(address)?;
        Ok(())
    }

    /// Another run of words begins.
    #[inline(never)]
    fn begin_run(&mut self, address: u32) -> Result<(), AllocError>
        ensures { OnOk result (self.new ≡ record self.old { notes = record self.old.notes { fetches = self.old.notes.fetches ++ word_at address self.old.offset } }) }
    {
        let ended = self.run;
        self.run = WordRun::new(address, self.offset);
        self.notes.note_run(ended)
    }

    /// A word is read.
    #[inline(always)]
    fn read(&mut self, address: u32) -> Result<(), AllocError>
        ensures { OnOk result (self.new ≡ with_read self.old.shape self.old address) }
    {
        match self.stage {
            Stage::Nothing => self.fetch(address),
            _ => self.load(address),
        }
    }

    /// A word is read, behind others.
    #[inline(never)]
    fn load(&mut self, address: u32) -> Result<(), AllocError>
        ensures { OnOk result (self.new ≡ with_load self.old.shape self.old address) }
    {
        match self.stage {
            Stage::Fetched => {
                self.stage = Stage::Loaded;
                self.second = address;
                self.notes.note_read(address, self.offset)
            }
            _ => self.read_rarely(address),
        }
    }

    /// A word is written.
    #[inline(always)]
    fn write(&mut self, address: u32) -> Result<(), AllocError>
        ensures { OnOk result (self.new ≡ with_write self.old.shape self.old address) }
    {
        match self.stage {
            Stage::Fetched => {
                if self.first == address {
                    return self.write_rarely(address);
                }
                self.stage = Stage::Stored;
                self.second = address;
                self.notes.note_write(address, self.offset)
            }
            _ => self.write_rarely(address),
        }
    }

    /// Levels are asked.
    #[inline(always)]
    fn ask(&mut self, levels: u16) -> Result<(), AllocError>
        ensures { OnOk result (self.new ≡ with_levels self.old.shape self.old.asked self.old levels) }
    {
        match (self.stage, self.asked) {
            (Stage::Nothing, None) => {
                self.asked = Some(levels);
                Ok(())
            }
            _ => self.ask_rarely(levels),
        }
    }

    // The touch of a rare step is made where it is wanted: as an argument it would be made at each step.

    /// A word is read, and the step is a rare one.
    #[inline(never)]
    fn read_rarely(&mut self, address: u32) -> Result<(), AllocError>
        ensures { OnOk result (self.new ≡ with_rare self.old (Touch.Read address)) }
    {
        self.note_rare(Touch::Read(address))
    }

    /// A word is written, and the step is a rare one.
    #[inline(never)]
    fn write_rarely(&mut self, address: u32) -> Result<(), AllocError>
        ensures { OnOk result (self.new ≡ with_rare self.old (Touch.Write address)) }
    {
        self.note_rare(Touch::Write(address))
    }

    /// Levels are asked, and the step is a rare one.
    #[inline(never)]
    fn ask_rarely(&mut self, levels: u16) -> Result<(), AllocError>
        ensures { OnOk result (self.new ≡ with_rare self.old (Touch.Levels levels)) }
    {
        self.note_rare(Touch::Levels(levels))
    }

    /// Takes a touch into the list, behind all that the step touched before it.
    #[inline(never)]
    fn note_rare(&mut self, touch: Touch) -> Result<(), AllocError>
        ensures { OnOk result (self.new ≡ with_rare self.old touch) }
    {
        list_so_far(
            &mut self.list,
            self.stage,
            self.asked,
            self.first,
            self.second,
        )?;
        take_back(&mut self.notes, self.stage);
        self.asked = None;
        self.stage = Stage::Rare;
        self.list.note(touch)
    }
}
