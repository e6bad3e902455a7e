//! A line of a script: what it begins, and what it is answered where it is a command.
ghost use Rattle.std.specs.Prelude.{◌≡◌, ℕ, true, List, take, IfOk};
ghost use Rattle.sv8_session.specs.Gathers.{texts};
ghost use Rattle.sv8_session.specs.Language.{takes_lines};
ghost use Rattle.sv8_session.specs.Put as session;
ghost use Rattle.sv8_workbench.specs.Kept.{Kept};
ghost use Rattle.sv8_commands.specs.Order.{begun, range_of};
ghost use Rattle.sv8_answers.specs.declared.effect.Effect.TheVariants.{Unchanged};
ghost use Rattle.sv8_answers.specs.Session.{language};

use crate::answers::{answer, answer_edit};
use crate::effect::{Effect, with_effect};
use crate::refusal::refusal_of;
use std::io::Write;
use sv8_commands::put::{WriteFault, refuse};
use sv8_commands::{Command, bad_command, next_word, parse_command};
use sv8_model::Refused;
use sv8_session::Begun;
use sv8_workbench::Workbench;

/// What a line, without its end, begins.
pub fn begins(text: &[u8]) -> Begun
    ensures { result ≡ language.begins text.now }
{
    match next_word(text) {
        None => return Begun::Nothing,
        Some(_) => {}
    }
    match parse_command(text) {
        Ok(command) => begun(&command),
        Err(_) => Begun::Bad,
    }
}

/// Answers a command, and flushes. Of its lines at most 65,537 are given. Gives what the command did.
///
/// # Errors
///
/// `WriteFault` where the writer fails. The command may have been carried out by then.
pub fn answer_line<B: Workbench, W: Write>(
    bench: &mut B,
    text: &[u8],
    lines: &[Vec<u8>],
    writer: &mut W,
) -> Result<Effect, WriteFault>
    ensures replies { (all : List (List ℕ)) → texts lines.now ≡ take 65537 all →
        session.Replies language result (W.contents writer.old) (W.contents writer.new) (B.kept bench.old) (language.order text.now all) (B.kept bench.new) }
    ensures alike { B.Alike bench.old bench.new }
    ensures unchanged { IfOk result (λ effect. effect ≡ Unchanged → B.kept bench.new ≡ B.kept bench.old) }
{
    match parse_command(text) {
        Ok(command) => match range(&command) {
            Some((first, last)) => answer_edit(bench, writer, first, last, lines),
            None => answer(bench, writer, command),
        },
        Err(_) => with_effect(refuse(writer, bad_command()), Effect::Unchanged),
    }
}

/// Answers a line that is no command, and flushes.
///
/// # Errors
///
/// `WriteFault` where the writer fails.
pub fn refuse_line<W: Write>(writer: &mut W) -> Result<(), WriteFault>
    ensures { (kept : Kept) → session.Replies language result (W.contents writer.old) (W.contents writer.new) kept language.bad kept }
{
    refuse(writer, bad_command())
}

/// Answers a command whose lines memory did not suffice for, and flushes.
///
/// # Errors
///
/// `WriteFault` where the writer fails.
pub fn lose_lines<W: Write>(writer: &mut W) -> Result<(), WriteFault>
    ensures { (kept : Kept) (text : List ℕ) (lines : List (List ℕ)) → takes_lines (language.begins text) ≡ true →
        session.Replies language result (W.contents writer.old) (W.contents writer.new) kept (language.order text lines) kept }
{
    refuse(writer, refusal_of(Refused::OutOfMemory))
}

fn begun(command: &Command<'_>) -> Begun
    ensures { result ≡ begun command.now }
{
    match command {
        Command::Edit { count, .. } => Begun::Takes(*count),
        Command::Quit => Begun::Ends,
        _ => Begun::Takes(0),
    }
}

/// The range of an edit that takes lines.
fn range(command: &Command<'_>) -> Option<(u32, u32)>
    ensures { result ≡ range_of command.now }
{
    match command {
        Command::Edit { first, last, count } => {
            if *count == 0 {
                None
            } else {
                Some((*first, *last))
            }
        }
        _ => None,
    }
}
