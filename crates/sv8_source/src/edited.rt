//! What a source becomes by an edit.
//!
//! An edit of one line that keeps the label, defines no number and moves nothing behind it, and one that puts a line
//! without a name behind all, share everything else. Any other edit lays all lines again, those that stay as they were read.

ghost use Rattle.std.specs.Prelude.{◌≡◌, ◌+◌, ◌-◌, ◌*◌, ◌≤◌, ◌<◌, ◌⊎◌, [], ◌∷◌, ◌++◌, true, false, length, None, Some, IsOk, IfSome, IfOk, MatchResult, Ok, Err};
ghost use Rattle.sv8_model.specs.Refused.{ByFault};
ghost use Rattle.sv8_asm.specs.Size.{size};
ghost use Rattle.sv8_source.specs.Edits.{Within};
ghost use Rattle.sv8_source.specs.Image.{words};
ghost use Rattle.sv8_source.specs.Kept.{is_equ, Alike};
ghost use Rattle.sv8_source.specs.Layout.{start, laid, valued};
ghost use Rattle.sv8_source.specs.Text.{texts, place_texts, assembled, is_range, replaced_lines};

use crate::assembled::Assembled;
use crate::fault::SourceFault;
use crate::laid::{Laid, Placed, moved};
use crate::places::{bytes_in, place_in};
use crate::reading::ReadLine;
use crate::valued::Behind;
use std::alloc::{AllocError, Global};
use std::rc::Rc;
use sv8_asm::{assemble, size_of};
use sv8_model::Refused;
use sv8_statements::{Label, Statement, Stmt};

/// The assembly that an edit leads to, and the words of the image that may differ: those from `first` up to `end`.
#[derive(Drop)]
pub struct Edited {
    pub parts: Assembled,
    pub first: u64,
    pub end: u64,
}

/// Whether two labels are the same, or both missing.
fn is_same_label(old: &Option<Label>, new: &Option<Label>) -> bool
    ensures { result ≡ true → new.now ≡ old.now }
{
    match (old, new) {
        (None, None) => true,
        (Some(Label::Name(old)), Some(Label::Name(new))) => old.as_bytes() == new.as_bytes(),
        (Some(Label::Local(old)), Some(Label::Local(new))) => old == new,
        _ => false,
    }
}

/// Whether a statement gives a name a number.
fn is_equ(statement: &Option<Statement>) -> bool
    ensures { result ≡ is_equ statement.now }
{
    match statement {
        Some(Statement::Equ { .. }) => true,
        _ => false,
    }
}

/// Whether there is a label.
fn has_label(label: &Option<Label>) -> bool
    ensures { result ≡ false → label.now ≡ None }
{
    match label {
        None => false,
        Some(_) => true,
    }
}

/// Whether two statements move the location alike.
fn has_same_size(old: &Stmt, new: &Stmt, at: u32) -> bool
    ensures same { result ≡ true → size new.now at ≡ size old.now at }
    ensures sized { result ≡ true → IsOk (size new.now at) }
{
    match (size_of(old, at), size_of(new, at)) {
        (Ok(old), Ok(new)) => old == new,
        _ => false,
    }
}

/// Whether a statement may stand in the place of another and changes no name and no other location.
fn is_alike(old: &Stmt, new: &Stmt, at: u32) -> bool
    ensures { result ≡ true → Alike old.now new.now at }
{
    is_same_label(&old.label, &new.label)
        && !is_equ(&old.statement)
        && !is_equ(&new.statement)
        && has_same_size(old, new, at)
}

/// How many words an image of this size has.
fn words(limit: u32) -> u64
    ensures { result ≡ words limit }
{
    (u64::from(limit) + 3) / 4
}

/// The words that hold so many bytes from a location on, as far as the image goes: the first, and one behind the last.
fn words_of(at: u32, count: usize, limit: u32) -> (u64, u64)
    ensures low { 4 * result.0 ≤ at }
    ensures up { result.0 ≤ result.1 }
    ensures most { result.1 ≤ words limit }
    ensures high { (result.1 ≡ words limit) ⊎ (at + count ≤ 4 * result.1) }
{
    let all = words(limit);
    let first = (u64::from(at) / 4).min(all);
    match u64::from(at).checked_add(count as u64) {
        None => (first, all),
        Some(end) => (first, (end / 4 + 1).min(all)),
    }
}

/// One line becomes another one that has its label and moves nothing; none where the text is no such line.
fn in_place(old: &Assembled, alloc: Global, limit: u32, number: u32, text: &[u8]) -> Option<Edited>
    requires made { assembled (record { limit = limit; lines = place_texts old.now.layout.places }) ≡ Ok old.now }
    requires many { length old.now.layout.places ≤ 65536 }
    requires low { 1 ≤ number }
    requires high { number ≤ length old.now.layout.places }
    ensures made { IfSome result (λ e. assembled (record { limit = limit; lines = replaced_lines number number (text.now ∷ []) (place_texts old.now.layout.places) }) ≡ Ok e.parts) }
    ensures within { IfSome result (λ e. Within old.now e.parts limit e.first e.end) }
{
    let names = old.symbols()?;
    let index = number as usize - 1;
    let place = place_in(old.places(), index);
    let before = bytes_in(old.code(), index).len();
    let line = ReadLine::new(alloc, text).ok()?;
    if !is_alike(place.stmt(), line.stmt(), place.at()) {
        return None;
    }
    let bytes = assemble(alloc, line.stmt(), number, place.at(), names).ok()?;
    let (first, end) = words_of(place.at(), before.max(bytes.len()), limit);
    let line = Placed::new(line, place.at());
    let parts = old.with_line(alloc, index, index + 1, line, bytes, old.at())?;
    Some(Edited { parts, first, end })
}

/// One line comes behind all others and defines no name; none where the text is no such line.
fn behind(old: &Assembled, alloc: Global, limit: u32, text: &[u8]) -> Option<Edited>
    requires made { assembled (record { limit = limit; lines = place_texts old.now.layout.places }) ≡ Ok old.now }
    requires many { length old.now.layout.places ≤ 65536 }
    ensures made { IfSome result (λ e. assembled (record { limit = limit; lines = place_texts old.now.layout.places ++ text.now ∷ [] }) ≡ Ok e.parts) }
    ensures within { IfSome result (λ e. Within old.now e.parts limit e.first e.end) }
{
    let names = old.symbols()?;
    let count = old.places().len();
    let line = ReadLine::new(alloc, text).ok()?;
    if has_label(&line.stmt().label) || is_equ(&line.stmt().statement) {
        return None;
    }
    let at = old.at();
    let size = size_of(line.stmt(), at).ok()?;
    let next = moved(limit, at, size).ok()?;
    let bytes = assemble(alloc, line.stmt(), count as u32 + 1, at, names).ok()?;
    let (first, end) = words_of(at, bytes.len(), limit);
    let parts = old.with_line(alloc, count, count, Placed::new(line, at), bytes, next)?;
    Some(Edited { parts, first, end })
}

/// An edit of one line that leaves all others as they are, if it is one.
fn of_one_line(
    old: &Assembled,
    alloc: Global,
    limit: u32,
    first: u32,
    last: u32,
    lines: &[Vec<u8>],
) -> Option<Edited>
    requires made { assembled (record { limit = limit; lines = place_texts old.now.layout.places }) ≡ Ok old.now }
    requires many { length old.now.layout.places ≤ 65536 }
    requires range { is_range first last (length old.now.layout.places) ≡ true }
    ensures made { IfSome result (λ e. assembled (record { limit = limit; lines = replaced_lines first last (texts lines.now) (place_texts old.now.layout.places) }) ≡ Ok e.parts) }
    ensures within { IfSome result (λ e. Within old.now e.parts limit e.first e.end) }
{
    match lines {
        [line] => {
            if first == last {
                in_place(old, alloc, limit, first, line)
            } else if first as usize == old.places().len() + 1 {
                behind(old, alloc, limit, line)
            } else {
                None
            }
        }
        _ => None,
    }
}

/// The layout pass over lines that a source has, new ones and again lines that it has.
fn relaid(
    alloc: Global,
    limit: u32,
    front: &[Placed],
    lines: &[Vec<u8>],
    back: &[Placed],
) -> Result<Laid, Refused<SourceFault>>
    requires { length front.now + length lines.now + length back.now ≤ 65536 }
    ensures { MatchResult result (λ l. laid limit 1 (place_texts front.now ++ texts lines.now ++ place_texts back.now) start ≡ Ok l)
        (ByFault (λ e. laid limit 1 (place_texts front.now ++ texts lines.now ++ place_texts back.now) start ≡ Err e)) }
{
    let mut laid = Laid::new(alloc);
    let first = front.len() as u32 + 1;
    let next = first + lines.len() as u32;
    match laid.add_places(alloc, limit, 1, front) {
        Ok(()) => {}
        Err(fault) => return Err(fault),
    }
    match laid.add_lines(alloc, limit, first, lines) {
        Ok(()) => {}
        Err(fault) => return Err(fault),
    }
    match laid.add_places(alloc, limit, next, back) {
        Ok(()) => {}
        Err(fault) => return Err(fault),
    }
    Ok(laid)
}

/// The value pass over lines that were laid.
fn coded(
    alloc: Global,
    laid: Laid,
    old: &Assembled,
    behind: Behind,
) -> Result<Assembled, Refused<SourceFault>>
    requires many { length laid.places ≤ 65536 }
    requires few { length old.now.layout.places ≤ 65536 }
    requires old { valued old.now.layout.symbols 1 old.now.layout.places [] ≡ Ok old.now.code }
    ensures layout { IfOk result (λ a. a.layout ≡ laid) }
    ensures code { MatchResult result (λ a. valued laid.symbols 1 laid.places [] ≡ Ok a.code)
        (ByFault (λ e. valued laid.symbols 1 laid.places [] ≡ Err e)) }
{
    let code = laid.code(alloc, old, behind)?;
    let (places, symbols, at) = laid.into_parts();
    let symbols = Rc::new(alloc, symbols).map_err(AllocError::from)?;
    Ok(Assembled::from_parts(places, symbols, at, code))
}

/// What the two passes make of such lines. Bytes of the lines of `old`, whose first and last lines `front` and `back` are, are
/// kept where they are the same.
#[tactic(auto, using(crate::proofs::Passes::passed, crate::proofs::Passes::laid_count))]
fn reassembled(
    alloc: Global,
    limit: u32,
    front: &[Placed],
    lines: &[Vec<u8>],
    back: &[Placed],
    old: &Assembled,
) -> Result<Assembled, Refused<SourceFault>>
    requires few { length old.now.layout.places ≤ 65536 }
    requires old { valued old.now.layout.symbols 1 old.now.layout.places [] ≡ Ok old.now.code }
    requires room { length front.now + length lines.now + length back.now ≤ 65536 }
    ensures { MatchResult result (λ a. assembled (record { limit = limit; lines = place_texts front.now ++ texts lines.now ++ place_texts back.now }) ≡ Ok a)
        (ByFault (λ e. assembled (record { limit = limit; lines = place_texts front.now ++ texts lines.now ++ place_texts back.now }) ≡ Err e)) }
{
    let laid = match relaid(alloc, limit, front, lines, back) {
        Ok(laid) => laid,
        Err(fault) => return Err(fault),
    };
    let behind = Behind {
        index: front.len() + lines.len(),
        was: old.places().len().saturating_sub(back.len()),
    };
    match coded(alloc, laid, old, behind) {
        Ok(parts) => Ok(parts),
        Err(fault) => Err(fault),
    }
}

/// Any edit: all lines are laid again, as they were read, and those are assembled again whose location changed or which use a
/// name whose value changed.
#[tactic(auto, using(crate::proofs::Kept::replaced_places, crate::proofs::Passes::made_code, crate::proofs::EditedWords::all_within))]
fn again(
    old: &Assembled,
    alloc: Global,
    limit: u32,
    first: u32,
    last: u32,
    lines: &[Vec<u8>],
) -> Result<Edited, Refused<SourceFault>>
    requires made { assembled (record { limit = limit; lines = place_texts old.now.layout.places }) ≡ Ok old.now }
    requires many { length old.now.layout.places ≤ 65536 }
    requires range { is_range first last (length old.now.layout.places) ≡ true }
    requires room { (first - 1) + length lines.now + (length old.now.layout.places - last) ≤ 65536 }
    ensures made { MatchResult result (λ e. assembled (record { limit = limit; lines = replaced_lines first last (texts lines.now) (place_texts old.now.layout.places) }) ≡ Ok e.parts)
        (ByFault (λ e. assembled (record { limit = limit; lines = replaced_lines first last (texts lines.now) (place_texts old.now.layout.places) }) ≡ Err e)) }
    ensures within { IfOk result (λ e. Within old.now e.parts limit e.first e.end) }
{
    let (front, _) = old.places().split_at(first as usize - 1);
    let (_, back) = old.places().split_at(last as usize);
    let parts = reassembled(alloc, limit, front, lines, back, old)?;
    Ok(Edited {
        parts,
        first: 0,
        end: words(limit),
    })
}

/// What an edit leads to, by which the lines from `first` to `last` become `lines`.
pub fn edit(
    old: &Assembled,
    alloc: Global,
    limit: u32,
    first: u32,
    last: u32,
    lines: &[Vec<u8>],
) -> Result<Edited, Refused<SourceFault>>
    requires made { assembled (record { limit = limit; lines = place_texts old.now.layout.places }) ≡ Ok old.now }
    requires many { length old.now.layout.places ≤ 65536 }
    requires range { is_range first last (length old.now.layout.places) ≡ true }
    requires room { (first - 1) + length lines.now + (length old.now.layout.places - last) ≤ 65536 }
    ensures made { MatchResult result (λ e. assembled (record { limit = limit; lines = replaced_lines first last (texts lines.now) (place_texts old.now.layout.places) }) ≡ Ok e.parts)
        (ByFault (λ e. assembled (record { limit = limit; lines = replaced_lines first last (texts lines.now) (place_texts old.now.layout.places) }) ≡ Err e)) }
    ensures within { IfOk result (λ e. Within old.now e.parts limit e.first e.end) }
    ensures kept { IfOk result (λ e. place_texts e.parts.layout.places ≡ replaced_lines first last (texts lines.now) (place_texts old.now.layout.places)) }
    ensures count { IfOk result (λ e. length e.parts.layout.places ≤ 65536) }
{
    match of_one_line(old, alloc, limit, first, last, lines) {
        Some(edited) => Ok(edited),
        None => match again(old, alloc, limit, first, last, lines) {
            Ok(edited) => Ok(edited),
            Err(fault) => Err(fault),
        },
    }
}
