//! The words in which two images differ.
//!
//! Only words with a byte that a line of either source places are compared, so the cost is that of what the lines
//! place and not that of the image's size.

ghost use Rattle.std.specs.Prelude.{◌≡◌, ◌-◌, ◌*◌, ◌^◌, ◌≤◌, ◌<◌, ◌++◌, IfOk, OnOk};
ghost use Rattle.sv8_source.specs.Listing.{shown_all};
ghost use Rattle.sv8_source.specs.Image.{changed};

use crate::assembled::Assembled;
use crate::image::Change;
use std::alloc::{AllocError, Global};

/// Where both listings are read, as numbers of lines. The two are walked side by side, so the next place is mostly the same or the
/// next line. These are hints: what is read is the same whatever they are.
#[derive(Clone, Copy)]
struct Near {
    old: usize,
    new: usize,
}

impl Near {
    /// The places of an address.
    fn at(self, old: &Assembled, new: &Assembled, address: u64) -> Near {
        Near {
            old: old.lines_near(self.old, address),
            new: new.lines_near(self.new, address),
        }
    }
}

/// The first word from this one on in which either source places a byte, or the count of words where none does.
fn next_word(old: &Assembled, new: &Assembled, near: Near, word: u64, count: u64) -> u64
    requires within { word ≤ count }
    requires small { count < 2 ^ 32 }
    ensures up { word ≤ result }
    ensures most { result ≤ count }
    ensures same { changed (shown_all old.now) (shown_all new.now) word (count - word) ≡ changed (shown_all old.now) (shown_all new.now) result (count - result) }
{
    let next_old = old.next_byte(near.old, 4 * word) / 4;
    let next_new = new.next_byte(near.new, 4 * word) / 4;
    next_old.min(next_new).min(count)
}

/// Puts a word behind the changes, if it is one.
#[tactic(auto, unfolding(crate::specs::Image::changed))]
fn push_changed(
    changes: &mut Vec<Change>,
    old: &Assembled,
    new: &Assembled,
    near: Near,
    word: u64,
) -> Result<(), AllocError>
    requires { word < 2 ^ 30 }
    ensures { OnOk result (changes.new.items ≡ changes.old.items ++ changed (shown_all old.now) (shown_all new.now) word 1) }
{
    let before = old.word(near.old, 4 * word);
    let after = new.word(near.new, 4 * word);
    if before != after {
        changes.push(Change {
            address: (4 * word) as u32,
            old: before,
            new: after,
        })?;
    }
    Ok(())
}

/// The words that differ of those from number `first` up to `end`, in rising address.
#[tactic(auto, using(crate::proofs::Changed::changed_more, crate::proofs::Changed::changed_all))]
pub fn changes_between(
    alloc: Global,
    old: &Assembled,
    new: &Assembled,
    first: u64,
    end: u64,
) -> Result<Vec<Change>, AllocError>
    requires up { first ≤ end }
    requires small { end ≤ 2 ^ 30 }
    ensures { IfOk result (λ v. v.items ≡ changed (shown_all old.now) (shown_all new.now) first (end - first)) }
{
    let mut changes = Vec::new(alloc);
    let mut near = Near { old: 0, new: 0 };
    let mut word = first;
    while word < end {
        near = near.at(old, new, 4 * word);
        let next = next_word(old, new, near, word, end);
        if word < next {
            word = next;
        } else {
            push_changed(&mut changes, old, new, near, word)?;
            word += 1;
        }
    }
    Ok(changes)
}
