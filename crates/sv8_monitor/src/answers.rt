//! The answer to each question of one workbench.

ghost use Rattle.std.specs.Prelude.{◌≡◌, ◌+◌, ◌-◌, ◌<◌, ◌≤◌, ◌++◌, map, true};
ghost use Rattle.sv8_source.specs.View.{named_of};
ghost use Rattle.sv8_session.specs.Put.{Puts};
ghost use Rattle.sv8_answers.specs.Put.{Replies};
ghost use Rattle.sv8_commands.specs.Text.{ok_line};
ghost use Rattle.sv8_monitor.specs.Answers.{are_lines, lines_told, query_outcome};
ghost use Rattle.sv8_monitor.specs.Events.{events_text};
ghost use Rattle.sv8_monitor.specs.Texts.{windows_text, place_text, names_text};
ghost use Rattle.sv8_monitor.specs.declared.question.Query.TheVariants.{Steps, Windows, Where, Lines, Names, Events};

use crate::conditions::Conditions;
use crate::event_lines::put_events;
use crate::lines::{add_place, put_names};
use crate::piece::tell_pieces;
use crate::question::Query;
use crate::window_lines::put_windows;
use std::io::Write;
use sv8_answers::listing::add_lines;
use sv8_answers::refusal_of;
use sv8_bench::{Bench, DefinedName, LAST_STEP, NO_SUCH_LINE, STEP_TOO_LARGE};
use sv8_commands::put::{WriteFault, accept, done, refuse};
use sv8_commands::text::Text;
use sv8_cpu::Place;
use sv8_model::Refused;
use sv8_regs::Regs;
use sv8_search::steps;
use sv8_time::Timeline;

/// Answers a question of a workbench.
pub fn answer_query<const NW: usize, const PAGES: usize, const K: u32, W: Write>(
    bench: &mut Bench<NW, PAGES, K>,
    writer: &mut W,
    query: Query,
) -> Result<(), WriteFault>
    ensures { Replies result (W.contents writer.old) (W.contents writer.new) bench.old.kept (query_outcome query bench.old.kept) bench.new.kept }
{
    match query {
        Query::Workbench(query) => sv8_answers::answer_query(bench, writer, query),
        Query::Steps {
            from,
            to,
            count,
            conditions,
        } => answer_steps(bench, writer, from, to, count, conditions),
        Query::Windows { step } => answer_windows(bench, writer, step),
        Query::Where { step, address } => answer_where(bench, writer, step, address),
        Query::Lines { first, last } => answer_lines(bench, writer, first, last),
        Query::Names => answer_names(bench, writer),
        Query::Events { first, last } => answer_events(bench, writer, first, last),
    }
}

fn answer_steps<const NW: usize, const PAGES: usize, const K: u32, W: Write>(
    bench: &mut Bench<NW, PAGES, K>,
    writer: &mut W,
    from: u32,
    to: u32,
    count: u32,
    conditions: Conditions,
) -> Result<(), WriteFault>
    ensures { Replies result (W.contents writer.old) (W.contents writer.new) bench.old.kept
        (query_outcome (Steps from to count conditions) bench.old.kept) bench.new.kept }
{
    match steps(bench, from, to, count, conditions.as_slice()) {
        Ok(found) => tell_pieces(writer, found.as_slice()),
        Err(fault) => refuse(writer, refusal_of(fault)),
    }
}

fn answer_windows<const NW: usize, const PAGES: usize, const K: u32, W: Write>(
    bench: &mut Bench<NW, PAGES, K>,
    writer: &mut W,
    step: u32,
) -> Result<(), WriteFault>
    ensures { Replies result (W.contents writer.old) (W.contents writer.new) bench.old.kept (query_outcome (Windows step) bench.old.kept) bench.new.kept }
{
    bench.sizes();
    match bench.machine(step) {
        Ok(machine) => tell_windows(writer, machine.registers()),
        Err(fault) => refuse(writer, refusal_of(fault)),
    }
}

fn tell_windows<const NW: usize, W: Write>(
    writer: &mut W,
    registers: &Regs<NW>,
) -> Result<(), WriteFault>
    requires { NW ≤ 32 }
    ensures { Puts result (W.contents writer.old) (W.contents writer.new) (windows_text NW registers.now ++ ok_line) }
{
    let mut text = Text::new();
    put_windows(writer, &mut text, registers)?;
    accept(writer, &mut text)
}

fn answer_where<const NW: usize, const PAGES: usize, const K: u32, W: Write>(
    bench: &mut Bench<NW, PAGES, K>,
    writer: &mut W,
    step: u32,
    address: u32,
) -> Result<(), WriteFault>
    ensures { Replies result (W.contents writer.old) (W.contents writer.new) bench.old.kept (query_outcome (Where step address) bench.old.kept) bench.new.kept }
{
    bench.sizes();
    match bench.machine(step) {
        Ok(machine) => tell_place(writer, machine.place(address)),
        Err(fault) => refuse(writer, refusal_of(fault)),
    }
}

fn tell_place<W: Write>(writer: &mut W, place: Option<Place>) -> Result<(), WriteFault>
    ensures { Puts result (W.contents writer.old) (W.contents writer.new) (place_text place ++ ok_line) }
{
    let mut text = Text::new();
    add_place(&mut text, place);
    accept(writer, &mut text)
}

fn answer_names<const NW: usize, const PAGES: usize, const K: u32, W: Write>(
    bench: &Bench<NW, PAGES, K>,
    writer: &mut W,
) -> Result<(), WriteFault>
    ensures { Replies result (W.contents writer.old) (W.contents writer.new) bench.now.kept (query_outcome Names bench.now.kept) bench.now.kept }
{
    match bench.names() {
        Ok(names) => tell_names(writer, names.as_slice()),
        Err(_) => refuse(writer, refusal_of(Refused::OutOfMemory)),
    }
}

fn tell_names<W: Write>(writer: &mut W, names: &[DefinedName<'_>]) -> Result<(), WriteFault>
    ensures { Puts result (W.contents writer.old) (W.contents writer.new) (names_text (map named_of names.now) ++ ok_line) }
{
    let mut text = Text::new();
    put_names(writer, &mut text, names)?;
    accept(writer, &mut text)
}

/// Whether these lines, counted from 1, may be listed: all of them are there, and a range of none may stand behind the last.
fn are_lines<const NW: usize, const PAGES: usize, const K: u32>(
    bench: &Bench<NW, PAGES, K>,
    first: u32,
    last: u32,
) -> bool
    ensures { result ≡ are_lines first last bench.now.kept }
{
    let count = bench.line_count() as u64;
    let (first, last) = (first as u64, last as u64);
    first >= 1 && first <= count + 1 && first <= last + 1 && last <= count
}

fn answer_lines<const NW: usize, const PAGES: usize, const K: u32, W: Write>(
    bench: &Bench<NW, PAGES, K>,
    writer: &mut W,
    first: u32,
    last: u32,
) -> Result<(), WriteFault>
    ensures { Replies result (W.contents writer.old) (W.contents writer.new) bench.now.kept (query_outcome (Lines first last) bench.now.kept) bench.now.kept }
{
    if are_lines(bench, first, last) {
        tell_lines(bench, writer, first, last)
    } else {
        refuse(writer, refusal_of(NO_SUCH_LINE))
    }
}

fn tell_lines<const NW: usize, const PAGES: usize, const K: u32, W: Write>(
    bench: &Bench<NW, PAGES, K>,
    writer: &mut W,
    first: u32,
    last: u32,
) -> Result<(), WriteFault>
    requires { are_lines first last bench.now.kept ≡ true }
    ensures { Puts result (W.contents writer.old) (W.contents writer.new) (lines_told first last bench.now.kept ++ ok_line) }
{
    let _count = bench.line_count();
    let mut text = Text::new();
    add_lines(bench, writer, &mut text, first as usize - 1, last as usize)?;
    accept(writer, &mut text)
}

fn answer_events<const NW: usize, const PAGES: usize, const K: u32, W: Write>(
    bench: &Bench<NW, PAGES, K>,
    writer: &mut W,
    first: u32,
    last: u32,
) -> Result<(), WriteFault>
    ensures { Replies result (W.contents writer.old) (W.contents writer.new) bench.now.kept (query_outcome (Events first last) bench.now.kept) bench.now.kept }
{
    if LAST_STEP < first || LAST_STEP < last {
        return refuse(writer, refusal_of(STEP_TOO_LARGE));
    }
    if last < first {
        return done(writer);
    }
    tell_events(writer, bench.timeline(), first, last + 1)
}

fn tell_events<W: Write>(
    writer: &mut W,
    timeline: &Timeline,
    from: u32,
    to: u32,
) -> Result<(), WriteFault>
    requires { from ≤ to }
    ensures { Puts result (W.contents writer.old) (W.contents writer.new) (events_text timeline.now from to ++ ok_line) }
{
    let mut text = Text::new();
    put_events(writer, &mut text, timeline, from, to)?;
    accept(writer, &mut text)
}
