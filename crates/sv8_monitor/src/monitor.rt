//! The commands of the monitor, as the loop asks for them.

ghost use Rattle.std.specs.Prelude.{◌≡◌, ◌≤◌, ℕ, ◌++◌, List, min, take, IfOk, OnOk, OnErr};
ghost use Rattle.sv8_session.specs.Gathers.{texts};
ghost use Rattle.sv8_session.specs.Put.{Puts, Replies};
ghost use Rattle.sv8_trace.specs.Recording.{recorded};
ghost use Rattle.sv8_bench.specs.Alike.{AreAlikeUpTo};
ghost use Rattle.sv8_answers.specs.Put as outcomes;
ghost use Rattle.sv8_answers.specs.Session as workbench;
ghost use Rattle.sv8_commands.specs.Text.{ok_line};
ghost use Rattle.sv8_monitor.specs.Answers.{differ_outcome};
ghost use Rattle.sv8_monitor.specs.Session.{Both, Order, ask, kept_of, language, new_pair, shell};
ghost use Rattle.sv8_monitor.specs.Texts.{parted_text};
ghost use Rattle.sv8_monitor.specs.declared.question.Question.TheVariants.{Keep, Part, Differ};

use crate::answers::answer_query;
use crate::lines::add_parted;
use crate::piece::tell_pieces;
use crate::question::{Question, parse_question};
use std::alloc::{AllocError, Global};
use std::io::Write;
use std::marker::Model;
use sv8_answers::{Effect, answer_line, begins, lose_lines, refusal_of, refuse_line};
use sv8_bench::{Bench, LAST_STEP};
use sv8_commands::put::{WriteFault, accept, done, refuse};
use sv8_commands::text::Text;
use sv8_model::Refused;
use sv8_search::{differ, part};
use sv8_session::{Begun, Commands};

/// A workbench that is edited, and the one that was kept of it.
#[derive(Drop)]
pub struct Monitor<const NW: usize, const PAGES: usize, const K: u32> {
    current: Bench<NW, PAGES, K>,
    before: Bench<NW, PAGES, K>,
    /// Up to this step the processors of both are the same: no edit since `keep` has changed what a step below it reads.
    common: u32,
}

impl<const NW: usize, const PAGES: usize, const K: u32> Model for Monitor<NW, PAGES, K> {
    ghost use Rattle.sv8_bench.specs.Alike.{AreAlikeUpTo};
    ghost use Rattle.sv8_monitor.specs.Pair.{Pair};

    ghost Value = { Pair };

    ghost view = { λ m. record { current = m.current; before = m.before; common = m.common } };

    ghost invariant = { λ m. AreAlikeUpTo m.common m.before.kept m.current.kept };
}

impl<const NW: usize, const PAGES: usize, const K: u32> Monitor<NW, PAGES, K> {
    /// A monitor of a workbench, which is kept as it is now.
    ///
    /// # Errors
    ///
    /// `AllocError` where memory for a copy of it cannot be had.
    pub fn new(current: Bench<NW, PAGES, K>) -> Result<Self, AllocError>
        ensures { IfOk result (λ m. m ≡ record { current = current.entry; before = current.entry; common = 1000000 }) }
    {
        let before = current.copy(current.alloc())?;
        Ok(Monitor {
            current,
            before,
            common: LAST_STEP,
        })
    }

    /// The workbench that is edited.
    pub fn current(&self) -> &Bench<NW, PAGES, K>
        ensures { result.now ≡ self.now.current }
    {
        &self.current
    }

    /// The one that was kept.
    pub fn before(&self) -> &Bench<NW, PAGES, K>
        ensures { result.now ≡ self.now.before }
    {
        &self.before
    }

    /// The step up to which, that step included, the processors of both are known to be the same: 1,000,000 where none was edited since
    /// `keep`, else the least of what edits left recorded.
    pub fn common(&self) -> u32
        ensures step { result ≡ self.now.common }
        ensures alike { AreAlikeUpTo result self.now.before.kept self.now.current.kept }
    {
        self.common
    }

    /// Keeps the workbench as it is now.
    ///
    /// # Errors
    ///
    /// `AllocError` where memory for a copy of it cannot be had. What was kept is then as it was.
    pub fn keep(&mut self) -> Result<(), AllocError>
        ensures kept { OnOk result (self.new ≡ record { current = self.old.current; before = self.old.current; common = 1000000 }) }
        ensures unchanged { OnErr result (self.new ≡ self.old) }
    {
        self.before = self.current.copy(self.current.alloc())?;
        self.common = LAST_STEP;
        Ok(())
    }
}

/// The commands of a monitor: those of the workbench, and its own questions.
pub struct Monitoring<const NW: usize, const PAGES: usize, const K: u32>;

impl<const NW: usize, const PAGES: usize, const K: u32> Commands for Monitoring<NW, PAGES, K> {
    type State = Monitor<NW, PAGES, K>;

    ghost Kept = { Both };

    ghost kept = { kept_of };

    ghost Order = { Order };

    ghost language = { language };

    ghost has_states = { (2 ≤ NW) × (NW ≤ 32) × (1 ≤ PAGES) × (PAGES ≤ 65536) × (1 ≤ K) × (K ≤ 1000000) };

    ghost new_kept = { new_pair NW PAGES };

    fn new_state(alloc: Global) -> Result<Monitor<NW, PAGES, K>, AllocError> {
        let bench = Bench::new(alloc)?;
        Monitor::new(bench)
    }

    fn begins(text: &[u8]) -> Begun {
        match parse_question(text) {
            None => begins(text),
            Some(_) => Begun::Takes(0),
        }
    }

    fn answer<W: Write>(
        state: &mut Monitor<NW, PAGES, K>,
        text: &[u8],
        lines: &[Vec<u8>],
        writer: &mut W,
    ) -> Result<(), WriteFault> {
        match parse_question(text) {
            None => answer_command(state, text, lines, writer),
            Some(question) => answer_question(state, writer, question),
        }
    }

    fn refuse<W: Write>(writer: &mut W) -> Result<(), WriteFault> {
        refuse_line(writer)
    }

    fn lose<W: Write>(writer: &mut W) -> Result<(), WriteFault> {
        lose_lines(writer)
    }
}

/// The step up to which both are still known to be alike once one was edited, where they were up to another one.
fn common_after<const NW: usize, const PAGES: usize, const K: u32>(
    common: u32,
    edited: &Bench<NW, PAGES, K>,
) -> u32
    ensures { result ≡ min common (recorded K edited.now.recording) }
{
    common.min(edited.recorded())
}

/// Answers a command of the workbench's on the one that is edited.
fn answer_command<const NW: usize, const PAGES: usize, const K: u32, W: Write>(
    monitor: &mut Monitor<NW, PAGES, K>,
    text: &[u8],
    lines: &[Vec<u8>],
    writer: &mut W,
) -> Result<(), WriteFault>
    ensures { (all : List (List ℕ)) → texts lines.now ≡ take 65537 all →
        Replies language result (W.contents writer.old) (W.contents writer.new) (kept_of monitor.old) (shell (workbench.language.order text.now all)) (kept_of monitor.new) }
{
    match answer_line(&mut monitor.current, text, lines, writer) {
        Ok(Effect::Unchanged) => Ok(()),
        Ok(Effect::Edited) => {
            monitor.common = common_after(monitor.common, &monitor.current);
            Ok(())
        }
        Err(fault) => {
            monitor.common = common_after(monitor.common, &monitor.current);
            Err(fault)
        }
    }
}

/// Answers a question.
fn answer_question<const NW: usize, const PAGES: usize, const K: u32, W: Write>(
    monitor: &mut Monitor<NW, PAGES, K>,
    writer: &mut W,
    question: Question,
) -> Result<(), WriteFault>
    ensures { Replies language result (W.contents writer.old) (W.contents writer.new) (kept_of monitor.old) (ask question) (kept_of monitor.new) }
{
    match question {
        Question::Now(query) => answer_query(&mut monitor.current, writer, query),
        Question::Before(query) => answer_query(&mut monitor.before, writer, query),
        Question::Keep => answer_keep(monitor, writer),
        Question::Part { from, to } => answer_part(monitor, writer, from, to),
        Question::Differ { now, before, count } => {
            answer_differ(monitor, writer, now, before, count)
        }
    }
}

fn answer_keep<const NW: usize, const PAGES: usize, const K: u32, W: Write>(
    monitor: &mut Monitor<NW, PAGES, K>,
    writer: &mut W,
) -> Result<(), WriteFault>
    ensures { Replies language result (W.contents writer.old) (W.contents writer.new) (kept_of monitor.old) (ask Keep) (kept_of monitor.new) }
{
    match monitor.keep() {
        Ok(()) => done(writer),
        Err(_) => refuse(writer, refusal_of(Refused::OutOfMemory)),
    }
}

fn answer_part<const NW: usize, const PAGES: usize, const K: u32, W: Write>(
    monitor: &mut Monitor<NW, PAGES, K>,
    writer: &mut W,
    from: u32,
    to: u32,
) -> Result<(), WriteFault>
    ensures { Replies language result (W.contents writer.old) (W.contents writer.new) (kept_of monitor.old) (ask (Part from to)) (kept_of monitor.new) }
{
    match part(
        &mut monitor.current,
        &mut monitor.before,
        monitor.common,
        from,
        to,
    ) {
        Ok(parted) => tell_parted(writer, parted),
        Err(fault) => refuse(writer, refusal_of(fault)),
    }
}

fn tell_parted<W: Write>(writer: &mut W, parted: Option<u32>) -> Result<(), WriteFault>
    ensures { Puts result (W.contents writer.old) (W.contents writer.new) (parted_text parted ++ ok_line) }
{
    let mut text = Text::new();
    add_parted(&mut text, parted);
    accept(writer, &mut text)
}

fn answer_differ<const NW: usize, const PAGES: usize, const K: u32, W: Write>(
    monitor: &mut Monitor<NW, PAGES, K>,
    writer: &mut W,
    at_now: u32,
    at_before: u32,
    count: u32,
) -> Result<(), WriteFault>
    ensures { Replies language result (W.contents writer.old) (W.contents writer.new) (kept_of monitor.old) (ask (Differ at_now at_before count)) (kept_of monitor.new) }
{
    compare_memories(
        &mut monitor.current,
        &mut monitor.before,
        writer,
        at_now,
        at_before,
        count,
    )
}

/// Answers which words of RAM differ between two workbenches.
fn compare_memories<const NW: usize, const PAGES: usize, const K: u32, W: Write>(
    now: &mut Bench<NW, PAGES, K>,
    before: &mut Bench<NW, PAGES, K>,
    writer: &mut W,
    at_now: u32,
    at_before: u32,
    count: u32,
) -> Result<(), WriteFault>
    ensures replies { outcomes.Replies result (W.contents writer.old) (W.contents writer.new) now.old.kept
        (differ_outcome at_now at_before count before.old.kept now.old.kept) now.new.kept }
    ensures now { now.new.kept ≡ now.old.kept }
    ensures before { before.new.kept ≡ before.old.kept }
{
    now.sizes();
    match differ(now, before, at_now, at_before, count) {
        Ok(found) => tell_pieces(writer, found.as_slice()),
        Err(fault) => refuse(writer, refusal_of(fault)),
    }
}
