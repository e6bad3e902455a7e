//! What the monitor is asked, and how a line reads as a question.

ghost use Rattle.std.specs.Prelude.{◌≡◌, Some, None, MatchResult};
ghost use Rattle.sv8_commands.specs.Words.{words_of};
ghost use Rattle.sv8_monitor.specs.Questions.{steps_of, query_of, before_of, named_of, question_of};

use crate::conditions::{Conditions, read_conditions};
use sv8_commands::{
    BadCommand, next_word, read_alone, read_number, read_number_address, read_one_number,
    read_three_numbers, read_two_numbers,
};

/// A question about one workbench. Steps and numbers of lines are as its commands have them.
#[derive(Drop)]
pub enum Query {
    /// What the workbench itself answers.
    Workbench(sv8_commands::Query),
    /// `steps FROM TO COUNT [CONDITION ..]`: the steps that meet a condition, at most so many.
    Steps {
        from: u32,
        to: u32,
        count: u32,
        conditions: Conditions,
    },
    /// `windows N`: the registers of all windows at step N.
    Windows {
        step: u32,
    },
    /// `where N ADDR`: where an address leads by the tables at step N.
    Where {
        step: u32,
        address: u32,
    },
    /// `list A B`: lines of the listing.
    Lines {
        first: u32,
        last: u32,
    },
    /// `names`: the names that the source defines.
    Names,
    /// `events A B`: what stands in the timeline from step A to B.
    Events {
        first: u32,
        last: u32,
    },
}

/// A question of the monitor.
#[derive(Drop)]
pub enum Question {
    /// About the workbench as it is now.
    Now(Query),
    /// `before QUERY`: about the one that was kept.
    Before(Query),
    /// `keep`: the workbench as it is now becomes the one that is kept.
    Keep,
    /// `part FROM TO`: the first step at which the processors of both differ.
    Part { from: u32, to: u32 },
    /// `differ N M COUNT`: words of RAM that differ between before at step M and now at step N.
    Differ { now: u32, before: u32, count: u32 },
}

#[tactic(auto, unfolding(crate::specs::Questions::steps_of))]
fn read_steps(rest: &[u8]) -> Result<Query, BadCommand>
    ensures { MatchResult result (λ c. steps_of (words_of rest.now) ≡ Some c)
        (λ _. steps_of (words_of rest.now) ≡ None) }
{
    let (from, rest) = read_number(rest)?;
    let (to, rest) = read_number(rest)?;
    let (count, rest) = read_number(rest)?;
    let conditions = read_conditions(rest)?;
    Ok(Query::Steps {
        from,
        to,
        count,
        conditions,
    })
}

#[tactic(auto, unfolding(crate::specs::Questions::query_of))]
fn read_query(name: &[u8], rest: &[u8]) -> Result<Query, BadCommand>
    ensures { MatchResult result (λ c. query_of name.now (words_of rest.now) ≡ Some c)
        (λ _. query_of name.now (words_of rest.now) ≡ None) }
{
    if name == b"steps".as_slice() {
        read_steps(rest)
    } else if name == b"windows".as_slice() {
        let step = read_one_number(rest)?;
        Ok(Query::Windows { step })
    } else if name == b"where".as_slice() {
        let (step, address) = read_number_address(rest)?;
        Ok(Query::Where { step, address })
    } else if name == b"list".as_slice() {
        let (first, last) = read_two_numbers(rest)?;
        Ok(Query::Lines { first, last })
    } else if name == b"names".as_slice() {
        read_alone(Query::Names, rest)
    } else if name == b"events".as_slice() {
        let (first, last) = read_two_numbers(rest)?;
        Ok(Query::Events { first, last })
    } else {
        Err(BadCommand)
    }
}

#[tactic(auto, unfolding(crate::specs::Questions::before_of))]
fn read_before(text: &[u8]) -> Result<Question, BadCommand>
    ensures { MatchResult result (λ c. before_of (words_of text.now) ≡ Some c)
        (λ _. before_of (words_of text.now) ≡ None) }
{
    match next_word(text) {
        None => Err(BadCommand),
        Some((name, rest)) => match read_query(name, rest) {
            Ok(query) => Ok(Question::Before(query)),
            Err(_) => {
                let query = sv8_commands::read_query(name, rest)?;
                Ok(Question::Before(Query::Workbench(query)))
            }
        },
    }
}

#[tactic(auto, unfolding(crate::specs::Questions::named_of))]
fn read_named(name: &[u8], rest: &[u8]) -> Result<Question, BadCommand>
    ensures { MatchResult result (λ c. named_of name.now (words_of rest.now) ≡ Some c)
        (λ _. named_of name.now (words_of rest.now) ≡ None) }
{
    if name == b"keep".as_slice() {
        read_alone(Question::Keep, rest)
    } else if name == b"before".as_slice() {
        read_before(rest)
    } else if name == b"part".as_slice() {
        let (from, to) = read_two_numbers(rest)?;
        Ok(Question::Part { from, to })
    } else if name == b"differ".as_slice() {
        let (now, before, count) = read_three_numbers(rest)?;
        Ok(Question::Differ { now, before, count })
    } else {
        let query = read_query(name, rest)?;
        Ok(Question::Now(query))
    }
}

/// The question that a line asks, without its end. A line that asks none is for the workbench to read.
pub fn parse_question(text: &[u8]) -> Option<Question>
    ensures { result ≡ question_of (words_of text.now) }
{
    let (name, rest) = next_word(text)?;
    read_named(name, rest).ok()
}
