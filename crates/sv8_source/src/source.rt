//! A source: its lines, its edits, its listing and its image.

ghost use Rattle.std.specs.Prelude.{◌≡◌, ◌+◌, ◌≤◌, [], length, map, ◌-◌, None, Some, IfOk, IfErr, OnErr, OnOk, MatchResult, option_map, nat_lt, true};
ghost use Rattle.sv8_model.specs.Refused.{ByFault};
ghost use Rattle.sv8_source.specs.Text.{texts, replaced, is_range, edit_fault, fault};
ghost use Rattle.sv8_source.specs.Listing.{listing, numbered};
ghost use Rattle.sv8_source.specs.Names.{names};
ghost use Rattle.sv8_source.specs.View.{shown_of, named_of};
ghost use Rattle.sv8_source.specs.Image.{image_word, changes};

use crate::assembled::Assembled;
use crate::changes::changes_between;
use crate::edited::edit;
use crate::fault::SourceFault;
use crate::image::Change;
use crate::names::{DefinedName, names_in_order};
use std::alloc::{AllocError, Global};
use std::marker::Model;
use sv8_model::Refused;

/// A source of more lines is refused.
const MOST_LINES: usize = 65_536;

/// A line of the listing.
#[derive(Drop, Clone, Copy)]
pub struct Listed<'a> {
    /// The location before the line's statement, which a label on the line stands for.
    pub address: u32,
    /// The bytes that the line places from that address on; none where it has no statement.
    pub bytes: &'a [u8],
    /// The line as it was given, without a line feed.
    pub text: &'a [u8],
}

/// A source that assembles: at most 65,536 lines of text for an image of at most so many bytes, its `limit`.
///
/// It stands for its limit and its lines alone. What they assemble to is kept beside them, so that the listing and the
/// image are read and not worked out again. An edit assembles all lines anew, so a label that moves is followed by
/// every line that uses it.
pub struct Source {
    limit: u32,
    parts: Assembled,
}

// Written out, so that crates above prove no drop of its parts.
impl Drop for Source {
    fn drop(self) {
        let Source { limit: _, parts: _ } = self;
    }
}

impl Model for Source {
    ghost use Rattle.std.specs.Prelude.{◌≡◌, ◌≤◌, length, Ok};
    ghost use Rattle.sv8_source.specs.Text.{Text, assembled, place_texts};

    ghost Value = { Text };

    ghost view = { λ s. record { limit = s.limit; lines = place_texts s.parts.layout.places } };

    ghost invariant = { λ s. (assembled (record { limit = s.limit; lines = place_texts s.parts.layout.places }) ≡ Ok s.parts) × (length s.parts.layout.places ≤ 65536) };
}

/// An edit of a source, made ready: the whole source that it leads to, and the words of the image that it changes.
///
/// `Source::commit` needs no memory for it and cannot fail. A plan that is let go changes nothing.
#[derive(Drop)]
pub struct Plan {
    source: Source,
    words: Vec<Change>,
}

impl Model for Plan {
    ghost use Rattle.sv8_source.specs.Image.{Edit};

    ghost Value = { Edit };

    ghost view = { λ p. record { to = p.source; changes = p.words.items } };
}

impl Plan {
    /// The words of the image that the edit changes, in rising address. None of them has its old value.
    pub fn changes(&self) -> &[Change]
        ensures { result.now ≡ self.now.changes }
    {
        &self.words
    }

    /// The source that the edit leads to.
    pub fn source(&self) -> &Source
        ensures { result.now ≡ self.now.to }
    {
        &self.source
    }
}

/// Whether lines first to last may be replaced, of so many.
fn is_range(first: usize, last: usize, count: usize) -> bool
    requires { count ≤ 65536 }
    ensures { result ≡ is_range first last count }
{
    (1 <= first && first <= count + 1) && (first - 1 <= last && last <= count)
}

/// Whether the lines that stay and the new ones are more than a source may have.
fn is_too_many(kept: usize, new: usize) -> bool
    requires { kept ≤ 65536 }
    ensures { result ≡ nat_lt 65536 (kept + new) }
{
    MOST_LINES < new || MOST_LINES - new < kept
}

impl Source {
    /// A source of no lines, for an image of at most `limit` bytes.
    #[tactic(auto, unfolding(crate::specs::Text::assembled))]
    pub fn new(alloc: Global, limit: u32) -> Source
        ensures { result ≡ record { limit = limit; lines = [] } }
    {
        Source {
            limit,
            parts: Assembled::empty(alloc),
        }
    }

    /// The same source once more. It shares lines, names and bytes with this one, which no edit of either changes in
    /// the other.
    ///
    /// # Errors
    ///
    /// `AllocError` where memory for the lists of lines and bytes cannot be had.
    pub fn copy(&self, alloc: Global) -> Result<Source, AllocError>
        ensures { IfOk result (λ s. s ≡ self.now) }
    {
        let parts = self.parts.copy(alloc)?;
        Ok(Source {
            limit: self.limit,
            parts,
        })
    }

    /// The names that the source defines, each with what it stands for: rising by value, without sign, and those of one
    /// value by their bytes, a name before each other one that it begins. Local labels are no names.
    ///
    /// # Errors
    ///
    /// `AllocError` where memory for the list cannot be had.
    #[tactic(auto, unfolding(crate::specs::Names::names))]
    pub fn names(&self, alloc: Global) -> Result<Vec<DefinedName<'_>>, AllocError>
        ensures { IfOk result (λ v. map named_of v.items ≡ names self.now) }
    {
        let names = names_in_order(alloc, self.parts.places())?;
        Ok(names)
    }

    /// The plan of an edit of lines that are there, which leads to no more lines than a source may have.
    #[tactic(auto, unfolding(crate::specs::Image::changes, crate::specs::Listing::listing))]
    fn planned(
        &self,
        alloc: Global,
        first: u32,
        last: u32,
        lines: &[Vec<u8>],
    ) -> Result<Plan, Refused<SourceFault>>
        requires range { is_range first last (length self.now.lines) ≡ true }
        requires room { (first - 1) + length lines.now + (length self.now.lines - last) ≤ 65536 }
        ensures to { IfOk result (λ plan. plan.to ≡ replaced first last (texts lines.now) self.now) }
        ensures changed { IfOk result (λ plan. plan.changes ≡ changes self.now plan.to) }
        ensures value { MatchResult result (λ plan. fault (replaced first last (texts lines.now) self.now) ≡ None)
            (ByFault (λ e. fault (replaced first last (texts lines.now) self.now) ≡ Some e)) }
    {
        let next = edit(&self.parts, alloc, self.limit, first, last, lines)?;
        let words = changes_between(alloc, &self.parts, &next.parts, next.first, next.end)?;
        Ok(Plan {
            source: Source {
                limit: self.limit,
                parts: next.parts,
            },
            words,
        })
    }

    /// Makes an edit ready, by which the lines numbered from `first` to `last` become `lines`. The source stays as it is.
    ///
    /// Lines count from 1. With `last` one below `first` the lines are put before line `first`, at the end where `first`
    /// is one above the number of lines; with no new lines the old ones are taken away.
    ///
    /// # Errors
    ///
    /// `NoSuchLine` where first and last are no such range, `TooManyLines` where the text would have more than 65,536
    /// lines, then the first fault of the layout pass over the new text, then the first one of the value pass, with the
    /// number that the line would have. `OutOfMemory` for want of memory, which may come in place of any of these.
    pub fn plan(
        &self,
        alloc: Global,
        first: u32,
        last: u32,
        lines: &[Vec<u8>],
    ) -> Result<Plan, Refused<SourceFault>>
        ensures ok { OnOk result (edit_fault first last (texts lines.now) self.now ≡ None) }
        ensures to { IfOk result (λ plan. plan.to ≡ replaced first last (texts lines.now) self.now) }
        ensures changed { IfOk result (λ plan. plan.changes ≡ changes self.now plan.to) }
        ensures err { IfErr result (ByFault (λ e. edit_fault first last (texts lines.now) self.now ≡ Some e)) }
    {
        let count = self.parts.places().len();
        if !is_range(first as usize, last as usize, count) {
            return Err(Refused::By(SourceFault::NoSuchLine));
        }
        if is_too_many(count - (last as usize + 1 - first as usize), lines.len()) {
            return Err(Refused::By(SourceFault::TooManyLines));
        }
        self.planned(alloc, first, last, lines)
    }

    /// Makes the edit of a plan. What stands afterwards is what the plan holds, whichever source it was made from.
    pub fn commit(&mut self, plan: Plan)
        ensures { self.new ≡ plan.to }
    {
        *self = plan.source;
    }

    /// Makes the edit of a plan, and hands out its changes.
    fn apply(&mut self, plan: Plan) -> Vec<Change>
        ensures to { self.new ≡ plan.to }
        ensures changed { result.items ≡ plan.changes }
    {
        let Plan { source, words } = plan;
        *self = source;
        words
    }

    /// Makes an edit at once, as `plan` and `commit` do, and returns the words of the image that it changed.
    ///
    /// # Errors
    ///
    /// Those of `plan`; the source is then as it was.
    pub fn replace(
        &mut self,
        alloc: Global,
        first: u32,
        last: u32,
        lines: &[Vec<u8>],
    ) -> Result<Vec<Change>, Refused<SourceFault>>
        ensures ok { OnOk result (edit_fault first last (texts lines.now) self.old ≡ None) }
        ensures to { OnOk result (self.new ≡ replaced first last (texts lines.now) self.old) }
        ensures changed { IfOk result (λ words. words.items ≡ changes self.old self.new) }
        ensures err { IfErr result (ByFault (λ e. edit_fault first last (texts lines.now) self.old ≡ Some e)) }
        ensures kept { OnErr result (self.new ≡ self.old) }
    {
        let plan = self.plan(alloc, first, last, lines)?;
        let words = self.apply(plan);
        Ok(words)
    }

    /// The number of lines, which is also that of the listing.
    #[tactic(auto, using(crate::proofs::ShownLines::shown_count), unfolding(crate::specs::Listing::listing))]
    pub fn line_count(&self) -> usize
        ensures count { result ≡ length self.now.lines }
        ensures listed { result ≡ length (listing self.now) }
        ensures most { result ≤ 65536 }
    {
        self.parts.line_count()
    }

    /// A line of the listing, by its number from 1 on; none where there is no such line.
    #[tactic(auto, unfolding(crate::specs::Listing::listing))]
    pub fn line(&self, number: usize) -> Option<Listed<'_>>
        ensures { option_map shown_of result ≡ numbered (listing self.now) number }
    {
        self.parts.line(number)
    }

    /// The four bytes of the image from an address on, the first the most significant. Where no line places a byte it is
    /// 0, also at and above the limit. The address may be any.
    #[tactic(auto, unfolding(crate::specs::Listing::listing, crate::specs::Image::image_word))]
    pub fn image_word(&self, address: u32) -> u32
        ensures { result ≡ image_word self.now address }
    {
        let address = u64::from(address);
        let near = self.parts.lines_near(0, address);
        self.parts.word(near, address)
    }
}
