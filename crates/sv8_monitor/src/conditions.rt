//! Conditions on steps, and how words read as them.

ghost use Rattle.std.specs.Prelude.{◌≡◌, ◌+◌, ◌-◌, ◌<◌, ◌≤◌, ◌++◌, ◌∷◌, [], List, length, Some, None, MatchResult};
ghost use Rattle.sv8_commands.specs.Words.{words_of};
ghost use Rattle.sv8_monitor.specs.Conditions.{first_up_to, first_span, pc_of, load_of, store_of, touch_of, change_of, trap_type_of, every_of, condition_of, conditions_of};

use arrayvec::ArrayVec;
use std::marker::Model;
use sv8_commands::{BadCommand, next_word, read_hex, read_hex_byte, read_number};
use sv8_watch::Condition;

/// How many conditions a line may have.
pub const MOST_CONDITIONS: usize = 32;

/// The most bytes that a condition may be about.
const MOST_BYTES: u32 = 4_096;

/// At most 32 conditions.
#[derive(Drop)]
pub struct Conditions {
    list: ArrayVec<Condition, 32>,
}

impl Model for Conditions {
    ghost use Rattle.std.specs.Prelude.{List, ◌≤◌, length};
    ghost use Rattle.sv8_watch.specs.declared.condition.Condition.{Condition};

    ghost Value = { List Condition };

    ghost view = { λ c. c.list.items };

    ghost invariant = { λ c. length c.list.items ≤ 32 };
}

impl Conditions {
    /// None.
    pub fn new() -> Conditions
        ensures { result ≡ [] }
    {
        Conditions {
            list: ArrayVec::new(),
        }
    }

    /// All of them, in their order.
    pub fn as_slice(&self) -> &[Condition]
        ensures { result.now ≡ self.now }
    {
        self.list.as_slice()
    }

    /// One more.
    fn push(&mut self, condition: Condition)
        requires room { length self.old < 32 }
        ensures { self.new ≡ self.old ++ condition ∷ [] }
    {
        self.list.push(condition);
    }
}

/// A number from 1 to so many.
#[tactic(auto, unfolding(crate::specs::Conditions::first_up_to))]
fn read_up_to(text: &[u8], most: u32) -> Result<(u32, &[u8]), BadCommand>
    ensures { MatchResult result
        (λ r. first_up_to most (words_of text.now) ≡ Some (r.0, words_of r.1.now))
        (λ _. first_up_to most (words_of text.now) ≡ None) }
{
    let (number, rest) = read_number(text)?;
    if number > 0 && number <= most {
        Ok((number, rest))
    } else {
        Err(BadCommand)
    }
}

/// An address, and how many bytes from there on.
#[tactic(auto, unfolding(crate::specs::Conditions::first_span))]
fn read_span(text: &[u8]) -> Result<((u32, u32), &[u8]), BadCommand>
    ensures { MatchResult result
        (λ r. first_span (words_of text.now) ≡ Some ((r.0.0, r.0.1), words_of r.1.now))
        (λ _. first_span (words_of text.now) ≡ None) }
{
    let (address, rest) = read_hex(text)?;
    let (count, rest) = read_up_to(rest, MOST_BYTES)?;
    Ok(((address, count), rest))
}

#[tactic(auto, unfolding(crate::specs::Conditions::pc_of))]
fn read_pc(text: &[u8]) -> Result<(Condition, &[u8]), BadCommand>
    ensures { MatchResult result
        (λ r. pc_of (words_of text.now) ≡ Some (r.0, words_of r.1.now))
        (λ _. pc_of (words_of text.now) ≡ None) }
{
    let (address, rest) = read_hex(text)?;
    Ok((Condition::Pc(address), rest))
}

#[tactic(auto, unfolding(crate::specs::Conditions::load_of))]
fn read_load(text: &[u8]) -> Result<(Condition, &[u8]), BadCommand>
    ensures { MatchResult result
        (λ r. load_of (words_of text.now) ≡ Some (r.0, words_of r.1.now))
        (λ _. load_of (words_of text.now) ≡ None) }
{
    let ((address, count), rest) = read_span(text)?;
    Ok((Condition::Load { address, count }, rest))
}

#[tactic(auto, unfolding(crate::specs::Conditions::store_of))]
fn read_store(text: &[u8]) -> Result<(Condition, &[u8]), BadCommand>
    ensures { MatchResult result
        (λ r. store_of (words_of text.now) ≡ Some (r.0, words_of r.1.now))
        (λ _. store_of (words_of text.now) ≡ None) }
{
    let ((address, count), rest) = read_span(text)?;
    Ok((Condition::Store { address, count }, rest))
}

#[tactic(auto, unfolding(crate::specs::Conditions::touch_of))]
fn read_touch(text: &[u8]) -> Result<(Condition, &[u8]), BadCommand>
    ensures { MatchResult result
        (λ r. touch_of (words_of text.now) ≡ Some (r.0, words_of r.1.now))
        (λ _. touch_of (words_of text.now) ≡ None) }
{
    let (address, rest) = read_hex(text)?;
    Ok((Condition::Touch(address), rest))
}

#[tactic(auto, unfolding(crate::specs::Conditions::change_of))]
fn read_change(text: &[u8]) -> Result<(Condition, &[u8]), BadCommand>
    ensures { MatchResult result
        (λ r. change_of (words_of text.now) ≡ Some (r.0, words_of r.1.now))
        (λ _. change_of (words_of text.now) ≡ None) }
{
    let ((address, count), rest) = read_span(text)?;
    Ok((Condition::Change { address, count }, rest))
}

#[tactic(auto, unfolding(crate::specs::Conditions::trap_type_of))]
fn read_trap_type(text: &[u8]) -> Result<(Condition, &[u8]), BadCommand>
    ensures { MatchResult result
        (λ r. trap_type_of (words_of text.now) ≡ Some (r.0, words_of r.1.now))
        (λ _. trap_type_of (words_of text.now) ≡ None) }
{
    let (kind, rest) = read_hex_byte(text)?;
    Ok((Condition::TrapType(kind), rest))
}

#[tactic(auto, unfolding(crate::specs::Conditions::every_of))]
fn read_every(text: &[u8]) -> Result<(Condition, &[u8]), BadCommand>
    ensures { MatchResult result
        (λ r. every_of (words_of text.now) ≡ Some (r.0, words_of r.1.now))
        (λ _. every_of (words_of text.now) ≡ None) }
{
    let (number, rest) = read_up_to(text, u32::MAX)?;
    Ok((Condition::Every(number), rest))
}

/// The condition of a name, with what follows it.
#[tactic(auto, unfolding(crate::specs::Conditions::condition_of))]
fn read_condition<'a>(name: &[u8], rest: &'a [u8]) -> Result<(Condition, &'a [u8]), BadCommand>
    ensures { MatchResult result
        (λ r. condition_of name.now (words_of rest.now) ≡ Some (r.0, words_of r.1.now))
        (λ _. condition_of name.now (words_of rest.now) ≡ None) }
{
    if name == b"pc".as_slice() {
        read_pc(rest)
    } else if name == b"load".as_slice() {
        read_load(rest)
    } else if name == b"store".as_slice() {
        read_store(rest)
    } else if name == b"touch".as_slice() {
        read_touch(rest)
    } else if name == b"change".as_slice() {
        read_change(rest)
    } else if name == b"trap".as_slice() {
        Ok((Condition::Trap, rest))
    } else if name == b"tt".as_slice() {
        read_trap_type(rest)
    } else if name == b"error".as_slice() {
        Ok((Condition::Error, rest))
    } else if name == b"in".as_slice() {
        Ok((Condition::Input, rest))
    } else if name == b"out".as_slice() {
        Ok((Condition::Output, rest))
    } else if name == b"event".as_slice() {
        Ok((Condition::Event, rest))
    } else if name == b"every".as_slice() {
        read_every(rest)
    } else {
        Err(BadCommand)
    }
}

/// All words of a text, as conditions, of which there are at most 32.
pub fn read_conditions(text: &[u8]) -> Result<Conditions, BadCommand>
    ensures { MatchResult result
        (λ c. conditions_of 32 (words_of text.now) ≡ Some c)
        (λ _. conditions_of 32 (words_of text.now) ≡ None) }
{
    let mut conditions = Conditions::new();
    let mut rest = text;
    while let Some((name, after)) = next_word(rest) {
        if conditions.as_slice().len() == MOST_CONDITIONS {
            return Err(BadCommand);
        }
        let (condition, after) = read_condition(name, after)?;
        conditions.push(condition);
        rest = after;
    }
    Ok(conditions)
}
