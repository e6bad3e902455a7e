//! The names of a source and its local labels, with what they stand for.

ghost use Rattle.std.specs.Prelude.{◌≡◌, ℕ, ℤ, ◌<◌, List, [], ◌∷◌, ◌++◌, map, IsSome, OnOk, OnErr, IfOk, MatchBool, None};
ghost use Rattle.sv8_asm.specs.Names.{Names, no_names, defined, with_name, with_mark, first_behind, get};
ghost use Rattle.sv8_asm.specs.Index.{Answers, pair_of};

use crate::marks::Marks;
use std::alloc::{AllocError, Global};
use std::collections::BTreeMap;
use std::marker::Model;

/// A name with its value.
#[derive(Drop)]
pub struct Symbol {
    name: Vec<u8>,
    value: i64,
}

/// The names of a source, each with one value, in the order of their definitions, and for each digit the lines whose label it is. Case
/// counts.
///
/// The names are kept as a list, which is what the type stands for, and once more as an index by which they are found.
#[derive(Drop)]
pub struct Symbols {
    entries: Vec<Symbol>,
    index: BTreeMap<Vec<u8>, i64>,
    labels: [Marks; 10],
}

impl Model for Symbols {
    ghost use Rattle.std.specs.Prelude.{List, map};
    ghost use Rattle.sv8_asm.specs.Names.{Names};
    ghost use Rattle.sv8_asm.specs.Index.{pair_of, Answers};

    ghost Value = { Names };

    ghost view = { λ s. record { named = map pair_of s.entries.items; marks = s.labels } };

    ghost invariant = { λ s. Answers s.index (map pair_of s.entries.items) };
}

/// Puts a name that is not there into the index.
#[tactic(auto, using(crate::proofs::Keys::answers_push))]
fn insert(index: &mut BTreeMap<Vec<u8>, i64>, name: Vec<u8>, value: i64) -> Result<(), AllocError>
    ensures ok { OnOk result ((xs : List (List ℕ × ℤ)) → Answers index.old xs → defined xs name.items ≡ None → Answers index.new (xs ++ (name.items, value) ∷ [])) }
    ensures err { OnErr result ((xs : List (List ℕ × ℤ)) → Answers index.old xs → Answers index.new xs) }
{
    index.insert(name, value)?;
    Ok(())
}

impl Symbols {
    /// No names.
    pub fn new(alloc: Global) -> Self
        ensures { result ≡ no_names }
    {
        Symbols {
            entries: Vec::new(alloc),
            index: BTreeMap::new(alloc),
            labels: [
                Marks::new(alloc),
                Marks::new(alloc),
                Marks::new(alloc),
                Marks::new(alloc),
                Marks::new(alloc),
                Marks::new(alloc),
                Marks::new(alloc),
                Marks::new(alloc),
                Marks::new(alloc),
                Marks::new(alloc),
            ],
        }
    }

    /// The value of a name in the list of names, if it has one.
    fn defined(&self, name: &[u8]) -> Option<i64>
        ensures { result ≡ defined self.now.named name.now }
    {
        let _entries = &self.entries;
        self.index.get(name).copied()
    }

    /// What a name, or a reference to a local label as `1f` or `2b`, stands for in a line, if it stands for anything.
    #[tactic(auto, unfolding(crate::specs::Names::get))]
    pub fn get(&self, text: &[u8], line: u32) -> Option<i64>
        ensures { result ≡ get self.now text.now line }
    {
        match text {
            [digit @ b'0'..=b'9', b'b'] => {
                self.labels[usize::from(*digit - b'0')].last_up_to(line)
            }
            [digit @ b'0'..=b'9', b'f'] => {
                self.labels[usize::from(*digit - b'0')].first_behind(line)
            }
            _ => self.defined(text),
        }
    }

    /// Gives a name its value, unless it has one: then it keeps that, and the answer is `false`.
    ///
    /// # Errors
    ///
    /// Want of memory; the names are then as they were.
    pub fn define(&mut self, alloc: Global, name: &[u8], value: i64) -> Result<bool, AllocError>
        ensures ok { IfOk result (λ added. MatchBool added ((defined self.old.named name.now ≡ None) × (self.new ≡ with_name name.now value self.old)) (IsSome (defined self.old.named name.now) × (self.new ≡ self.old))) }
        ensures err { OnErr result (self.new ≡ self.old) }
    {
        if self.defined(name).is_some() {
            return Ok(false);
        }
        let first = Vec::from_slice(alloc, name)?;
        let second = Vec::from_slice(alloc, name)?;
        self.entries.reserve(1)?;
        insert(&mut self.index, first, value)?;
        self.entries.push(Symbol {
            name: second,
            value,
        })?;
        Ok(true)
    }

    /// Gives a line a local label. The lines of a digit come in their order.
    ///
    /// # Errors
    ///
    /// Want of memory; the labels are then as they were.
    pub fn define_local(&mut self, digit: u8, line: u32, location: u32) -> Result<(), AllocError>
        requires { digit < 10 }
        ensures ok { OnOk result (self.new ≡ with_mark digit line location self.old) }
        ensures err { OnErr result (self.new ≡ self.old) }
    {
        let labels = &mut self.labels[usize::from(digit)];
        labels.push(line, location)?;
        Ok(())
    }
}
