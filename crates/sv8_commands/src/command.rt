//! Commands, and how a line reads as one.
ghost use Rattle.std.specs.Prelude.{◌≡◌, Some, None, MatchResult};
ghost use Rattle.sv8_commands.specs.Words.{words_of};
ghost use Rattle.sv8_commands.specs.Commands.{command_of, edit_of, timeline_of, poke_of, query_of, asking_of};

use crate::hex_bytes::HexBytes;
use crate::operands::{
    BadCommand, read_alone, read_number_address, read_number_address_byte,
    read_number_address_number, read_number_address_word, read_number_bytes, read_one_number,
    read_three_numbers, read_two_numbers,
};
use crate::words::next_word;
use sv8_time::TimelineEdit;

/// A query of a workbench.
#[derive(Clone, Copy)]
pub enum Query {
    /// The listing.
    Listing,
    /// The machine at a step.
    Regs { step: u32 },
    /// Words of RAM at a step.
    Mem { step: u32, address: u32, count: u32 },
    /// The bytes put out at the console below a step.
    Out { step: u32 },
}

/// A command, as one line gives it.
#[derive(Drop)]
pub enum Command<'a> {
    /// `edit A B COUNT`: lines A to B are replaced by the COUNT lines that follow.
    Edit { first: u32, last: u32, count: u32 },
    /// `input N BYTES`: bytes come in at the console at step N.
    Input { step: u32, bytes: HexBytes<'a> },
    /// `poke N ADDR VALUE`, `unpoke N ADDR`, `pokeb N ADDR VALUE`, `unpokeb N ADDR`, `uninput N`, `irq N LEVEL` and `unirq N LEVEL`: an
    /// edit of the timeline at step N.
    Timeline(TimelineEdit<'a>),
    /// `list`, `regs N`, `mem N ADDR COUNT` and `out N`: a query, which changes nothing.
    Ask(Query),
    /// `quit`: the end of the run.
    Quit,
}

/// Reads a line, without its end, as a command: words between spaces and tabs, steps, levels and numbers of lines of 1 to 10
/// decimal digits below 2^32, addresses and values of 1 to 8 hexadecimal digits of either case, and the value of a byte of 1 or 2,
/// the bytes of an input of two each.
///
/// # Errors
///
/// `BadCommand` where the line is no command; a blank one is none.
#[tactic(auto, unfolding(crate::specs::Commands::command_of))]
pub fn parse_command(text: &[u8]) -> Result<Command<'_>, BadCommand>
    ensures { MatchResult result (λ c. command_of (words_of text.now) ≡ Some c)
        (λ _. command_of (words_of text.now) ≡ None) }
{
    match next_word(text) {
        None => Err(BadCommand),
        Some((name, rest)) => match read_edit(name, rest) {
            Ok(edit) => Ok(edit),
            Err(_) => read_asking(name, rest),
        },
    }
}

/// A poke of RAM, or what clears it.
#[tactic(auto, unfolding(crate::specs::Commands::poke_of))]
fn read_poke<'a>(name: &[u8], rest: &[u8]) -> Result<TimelineEdit<'a>, BadCommand>
    ensures { MatchResult result (λ e. poke_of name.now (words_of rest.now) ≡ Some e)
        (λ _. poke_of name.now (words_of rest.now) ≡ None) }
{
    if name == b"poke".as_slice() {
        let (step, address, value) = read_number_address_word(rest)?;
        Ok(TimelineEdit::SetPoke {
            step,
            address,
            value,
        })
    } else if name == b"unpoke".as_slice() {
        let (step, address) = read_number_address(rest)?;
        Ok(TimelineEdit::ClearPoke { step, address })
    } else if name == b"pokeb".as_slice() {
        let (step, address, value) = read_number_address_byte(rest)?;
        Ok(TimelineEdit::SetPokeByte {
            step,
            address,
            value,
        })
    } else if name == b"unpokeb".as_slice() {
        let (step, address) = read_number_address(rest)?;
        Ok(TimelineEdit::ClearPokeByte { step, address })
    } else {
        Err(BadCommand)
    }
}

/// An edit of the timeline, but for bytes that come in.
#[tactic(auto, unfolding(crate::specs::Commands::timeline_of))]
fn read_timeline<'a>(name: &[u8], rest: &[u8]) -> Result<TimelineEdit<'a>, BadCommand>
    ensures { MatchResult result (λ e. timeline_of name.now (words_of rest.now) ≡ Some e)
        (λ _. timeline_of name.now (words_of rest.now) ≡ None) }
{
    if name == b"uninput".as_slice() {
        let step = read_one_number(rest)?;
        Ok(TimelineEdit::ClearInput { step })
    } else if name == b"irq".as_slice() {
        let (step, level) = read_two_numbers(rest)?;
        Ok(TimelineEdit::SetRequest { step, level })
    } else if name == b"unirq".as_slice() {
        let (step, level) = read_two_numbers(rest)?;
        Ok(TimelineEdit::ClearRequest { step, level })
    } else {
        read_poke(name, rest)
    }
}

#[tactic(auto, unfolding(crate::specs::Commands::edit_of))]
fn read_edit<'a>(name: &[u8], rest: &'a [u8]) -> Result<Command<'a>, BadCommand>
    ensures { MatchResult result (λ c. edit_of name.now (words_of rest.now) ≡ Some c)
        (λ _. edit_of name.now (words_of rest.now) ≡ None) }
{
    if name == b"edit".as_slice() {
        let (first, last, count) = read_three_numbers(rest)?;
        Ok(Command::Edit { first, last, count })
    } else if name == b"input".as_slice() {
        let (step, bytes) = read_number_bytes(rest)?;
        Ok(Command::Input { step, bytes })
    } else {
        let edit = read_timeline(name, rest)?;
        Ok(Command::Timeline(edit))
    }
}

/// Reads a query by its name and the rest of its line.
///
/// # Errors
///
/// `BadCommand` where it is none.
#[tactic(auto, unfolding(crate::specs::Commands::query_of))]
pub fn read_query(name: &[u8], rest: &[u8]) -> Result<Query, BadCommand>
    ensures { MatchResult result (λ q. query_of name.now (words_of rest.now) ≡ Some q)
        (λ _. query_of name.now (words_of rest.now) ≡ None) }
{
    if name == b"list".as_slice() {
        read_alone(Query::Listing, rest)
    } else if name == b"regs".as_slice() {
        let step = read_one_number(rest)?;
        Ok(Query::Regs { step })
    } else if name == b"mem".as_slice() {
        let (step, address, count) = read_number_address_number(rest)?;
        Ok(Query::Mem {
            step,
            address,
            count,
        })
    } else if name == b"out".as_slice() {
        let step = read_one_number(rest)?;
        Ok(Query::Out { step })
    } else {
        Err(BadCommand)
    }
}

/// A query, or `quit`.
#[tactic(auto, unfolding(crate::specs::Commands::asking_of))]
fn read_asking<'a>(name: &[u8], rest: &[u8]) -> Result<Command<'a>, BadCommand>
    ensures { MatchResult result (λ c. asking_of name.now (words_of rest.now) ≡ Some c)
        (λ _. asking_of name.now (words_of rest.now) ≡ None) }
{
    if name == b"quit".as_slice() {
        read_alone(Command::Quit, rest)
    } else {
        let query = read_query(name, rest)?;
        Ok(Command::Ask(query))
    }
}
