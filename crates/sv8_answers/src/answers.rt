//! The answer to each command: what it asks of the workbench, and what is told of it.
ghost use Rattle.std.specs.Prelude.{◌≡◌, ℕ, [], List, take, IfOk};
ghost use Rattle.sv8_source.specs.Text.{texts};
ghost use Rattle.sv8_answers.specs.Put.{Replies};
ghost use Rattle.sv8_answers.specs.Commands.{edit_outcome, outcome_of, query_outcome, timeline_outcome};
ghost use Rattle.sv8_answers.specs.declared.effect.Effect.TheVariants.{Unchanged};
ghost use Rattle.sv8_commands.specs.declared.command.Command.TheVariants.{Input, Quit};
ghost use Rattle.sv8_commands.specs.declared.command.Query.TheVariants.{Listing, Regs, Mem, Out};

use crate::effect::{Effect, with_effect};
use crate::listing::add_listing;
use crate::refusal::refusal_of;
use crate::tell::{tell_edit, tell_output, tell_regs, tell_words};
use std::io::Write;
use sv8_commands::put::{WriteFault, accept, done, refuse};
use sv8_commands::text::Text;
use sv8_commands::{Command, HexBytes, Query};
use sv8_time::{InputBytes, TimelineEdit};
use sv8_workbench::Workbench;

/// Answers a command that takes no lines.
pub(crate) fn answer<B: Workbench, W: Write>(
    bench: &mut B,
    writer: &mut W,
    command: Command<'_>,
) -> Result<Effect, WriteFault>
    ensures replies { Replies result (W.contents writer.old) (W.contents writer.new) (B.kept bench.old) (outcome_of command.entry (B.kept bench.old)) (B.kept bench.new) }
    ensures alike { B.Alike bench.old bench.new }
    ensures unchanged { IfOk result (λ effect. effect ≡ Unchanged → B.kept bench.new ≡ B.kept bench.old) }
{
    match command {
        Command::Edit { first, last, .. } => answer_edit(bench, writer, first, last, &[]),
        Command::Input { step, bytes } => answer_input(bench, writer, step, bytes),
        Command::Timeline(edit) => answer_timeline(bench, writer, &edit),
        Command::Ask(query) => with_effect(answer_query(bench, writer, query), Effect::Unchanged),
        Command::Quit => with_effect(answer_quit(bench, writer), Effect::Unchanged),
    }
}

/// Of the lines at most 65,537 are given.
pub fn answer_edit<B: Workbench, W: Write>(
    bench: &mut B,
    writer: &mut W,
    first: u32,
    last: u32,
    lines: &[Vec<u8>],
) -> Result<Effect, WriteFault>
    ensures replies { (kept : List (List ℕ)) → texts lines.now ≡ take 65537 kept →
        Replies result (W.contents writer.old) (W.contents writer.new) (B.kept bench.old) (edit_outcome first last kept (B.kept bench.old)) (B.kept bench.new) }
    ensures alike { B.Alike bench.old bench.new }
    ensures unchanged { IfOk result (λ effect. effect ≡ Unchanged → B.kept bench.new ≡ B.kept bench.old) }
{
    tell_edit(writer, bench.replace_lines(first, last, lines))
}

fn answer_timeline<B: Workbench, W: Write>(
    bench: &mut B,
    writer: &mut W,
    edit: &TimelineEdit<'_>,
) -> Result<Effect, WriteFault>
    ensures replies { Replies result (W.contents writer.old) (W.contents writer.new) (B.kept bench.old) (timeline_outcome edit.now (B.kept bench.old)) (B.kept bench.new) }
    ensures alike { B.Alike bench.old bench.new }
    ensures unchanged { IfOk result (λ effect. effect ≡ Unchanged → B.kept bench.new ≡ B.kept bench.old) }
{
    tell_edit(writer, bench.edit(edit))
}

/// At most 1,025 bytes are handed on, which are too many whatever they are.
fn answer_input<B: Workbench, W: Write>(
    bench: &mut B,
    writer: &mut W,
    step: u32,
    bytes: HexBytes<'_>,
) -> Result<Effect, WriteFault>
    ensures replies { Replies result (W.contents writer.old) (W.contents writer.new) (B.kept bench.old) (outcome_of (Input step bytes.entry) (B.kept bench.old)) (B.kept bench.new) }
    ensures alike { B.Alike bench.old bench.new }
    ensures unchanged { IfOk result (λ effect. effect ≡ Unchanged → B.kept bench.new ≡ B.kept bench.old) }
{
    let first = bytes.first();
    let bytes = InputBytes::new(first.as_slice());
    answer_timeline(bench, writer, &TimelineEdit::SetInput { step, bytes })
}

/// Answers a query.
pub fn answer_query<B: Workbench, W: Write>(
    bench: &mut B,
    writer: &mut W,
    query: Query,
) -> Result<(), WriteFault>
    ensures replies { Replies result (W.contents writer.old) (W.contents writer.new) (B.kept bench.old) (query_outcome query (B.kept bench.old)) (B.kept bench.new) }
    ensures kept { B.kept bench.new ≡ B.kept bench.old }
{
    match query {
        Query::Listing => answer_listing(bench, writer),
        Query::Regs { step } => answer_regs(bench, writer, step),
        Query::Mem {
            step,
            address,
            count,
        } => answer_mem(bench, writer, step, address, count),
        Query::Out { step } => answer_out(bench, writer, step),
    }
}

fn answer_listing<B: Workbench, W: Write>(bench: &B, writer: &mut W) -> Result<(), WriteFault>
    ensures { Replies result (W.contents writer.old) (W.contents writer.new) (B.kept bench.now) (query_outcome Listing (B.kept bench.now)) (B.kept bench.now) }
{
    let mut text = Text::new();
    add_listing(bench, writer, &mut text)?;
    accept(writer, &mut text)
}

fn answer_regs<B: Workbench, W: Write>(
    bench: &mut B,
    writer: &mut W,
    step: u32,
) -> Result<(), WriteFault>
    ensures replies { Replies result (W.contents writer.old) (W.contents writer.new) (B.kept bench.old) (query_outcome (Regs step) (B.kept bench.old)) (B.kept bench.new) }
    ensures kept { B.kept bench.new ≡ B.kept bench.old }
{
    match bench.regs_at(step) {
        Ok(shown) => tell_regs(writer, step, &shown),
        Err(fault) => refuse(writer, refusal_of(fault)),
    }
}

fn answer_mem<B: Workbench, W: Write>(
    bench: &mut B,
    writer: &mut W,
    step: u32,
    address: u32,
    count: u32,
) -> Result<(), WriteFault>
    ensures replies { Replies result (W.contents writer.old) (W.contents writer.new) (B.kept bench.old) (query_outcome (Mem step address count) (B.kept bench.old)) (B.kept bench.new) }
    ensures kept { B.kept bench.new ≡ B.kept bench.old }
{
    match bench.words_at(step, address, count) {
        Ok(words) => tell_words(writer, address, words.as_slice()),
        Err(fault) => refuse(writer, refusal_of(fault)),
    }
}

fn answer_out<B: Workbench, W: Write>(
    bench: &mut B,
    writer: &mut W,
    step: u32,
) -> Result<(), WriteFault>
    ensures replies { Replies result (W.contents writer.old) (W.contents writer.new) (B.kept bench.old) (query_outcome (Out step) (B.kept bench.old)) (B.kept bench.new) }
    ensures kept { B.kept bench.new ≡ B.kept bench.old }
{
    match bench.output_at(step) {
        Ok(bytes) => tell_output(writer, bytes.as_slice()),
        Err(fault) => refuse(writer, refusal_of(fault)),
    }
}

fn answer_quit<B: Workbench, W: Write>(bench: &B, writer: &mut W) -> Result<(), WriteFault>
    ensures { Replies result (W.contents writer.old) (W.contents writer.new) (B.kept bench.now) (outcome_of Quit (B.kept bench.now)) (B.kept bench.now) }
{
    let _ = bench;
    done(writer)
}
