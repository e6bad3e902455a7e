//! The value pass: the bytes of each line, now that all names are known.

ghost use Rattle.std.specs.Prelude.{◌≡◌, ◌+◌, ◌-◌, ◌^◌, ◌≤◌, ◌<◌, [], ◌++◌, ◌∷◌, All, true, IsOk, IfSome, OnOk, MatchResult, Ok, Err, length, Some, slice_get};
ghost use Rattle.sv8_model.specs.Refused.{ByFault};
ghost use Rattle.sv8_asm.specs.Code.{bytes};
ghost use Rattle.sv8_asm.specs.Size.{size};
ghost use Rattle.sv8_source.specs.Kept.{code_bytes};
ghost use Rattle.sv8_source.specs.Layout.{valued, HasSize};

use crate::assembled::Assembled;
use crate::fault::{SourceFault, in_line};
use crate::laid::Placed;
use crate::places::place_in;
use std::alloc::{AllocError, Global};
use std::rc::Rc;
use sv8_asm::{Symbols, agree, assemble};
use sv8_model::Refused;
use sv8_statements::LineFault;

/// Where the lines behind an edit begin, counted from 0, and where they began before it.
#[derive(Clone, Copy)]
pub struct Behind {
    pub index: usize,
    pub was: usize,
}

impl Behind {
    /// Which line a line was before the edit, if it was one.
    fn before(self, index: usize) -> usize {
        if index < self.index {
            index
        } else {
            (index - self.index).saturating_add(self.was)
        }
    }
}

/// The handle of a line's bytes.
fn handle_in(code: &[Rc<Vec<u8>>], index: usize) -> &Rc<Vec<u8>>
    requires { index < length code.now }
    ensures { slice_get (code_bytes code.now) index ≡ Some result.now.value.items }
{
    &code[index]
}

/// The same handle once more; none for want of room for one more handle.
fn share(bytes: &Rc<Vec<u8>>) -> Option<Rc<Vec<u8>>>
    ensures { IfSome result (λ b. b.value.items ≡ bytes.now.value.items) }
{
    let bytes = bytes.clone().ok()?;
    Some(bytes)
}

/// Whether two lines have the same text and location.
fn is_same(line: &Placed, other: &Placed) -> bool
    ensures at { result ≡ true → line.now.at ≡ other.now.at }
    ensures text { result ≡ true → line.now.text ≡ other.now.text }
{
    line.at() == other.at() && line.text() == other.text()
}

/// The bytes that a line of `old` has, where they are those of this line: where it has the same text and location and each name
/// that it uses stands for the same.
fn kept(
    old: &Assembled,
    index: usize,
    place: &Placed,
    number: u32,
    names: &Symbols,
) -> Option<Rc<Vec<u8>>>
    requires old { valued old.now.layout.symbols 1 old.now.layout.places [] ≡ Ok old.now.code }
    requires many { length old.now.layout.places ≤ 65536 }
    ensures { IfSome result (λ b. bytes place.now.stmt number place.now.at names.now ≡ Ok b.value.items) }
{
    let others = old.symbols()?;
    if old.places().len() <= index {
        return None;
    }
    let before = place_in(old.places(), index);
    if !is_same(before, place) {
        return None;
    }
    let _stmt = before.stmt();
    if !agree(place.stmt(), names, number, others, index as u32 + 1) {
        return None;
    }
    let bytes = share(handle_in(old.code(), index))?;
    Some(bytes)
}

/// The bytes of a line: kept, or assembled.
fn bytes_of(
    alloc: Global,
    place: &Placed,
    number: u32,
    names: &Symbols,
    old: &Assembled,
    index: usize,
) -> Result<Rc<Vec<u8>>, Refused<LineFault>>
    requires old { valued old.now.layout.symbols 1 old.now.layout.places [] ≡ Ok old.now.code }
    requires many { length old.now.layout.places ≤ 65536 }
    requires sized { IsOk (size place.now.stmt place.now.at) }
    ensures { MatchResult result (λ b. bytes place.now.stmt number place.now.at names.now ≡ Ok b.value.items)
        (ByFault (λ e. bytes place.now.stmt number place.now.at names.now ≡ Err e)) }
{
    match kept(old, index, place, number, names) {
        Some(bytes) => Ok(bytes),
        None => {
            let bytes = assemble(alloc, place.stmt(), number, place.at(), names)?;
            let bytes = Rc::new(alloc, bytes)?;
            Ok(bytes)
        }
    }
}

/// Puts the handle of a line's bytes behind others.
fn push_shared(code: &mut Vec<Rc<Vec<u8>>>, bytes: Rc<Vec<u8>>) -> Result<(), AllocError>
    ensures { OnOk result (code_bytes code.new.items ≡ code_bytes code.old.items ++ bytes.value.items ∷ []) }
{
    code.push(bytes)?;
    Ok(())
}

/// Puts a line's bytes behind those of others.
pub fn push_bytes(
    alloc: Global,
    code: &mut Vec<Rc<Vec<u8>>>,
    bytes: Vec<u8>,
) -> Result<(), AllocError>
    ensures { OnOk result (code_bytes code.new.items ≡ code_bytes code.old.items ++ bytes.items ∷ []) }
{
    let bytes = Rc::new(alloc, bytes)?;
    push_shared(code, bytes)
}

/// The value pass over these lines. Bytes of the lines of `old` are kept where they are the same.
pub fn code_of(
    alloc: Global,
    places: &[Placed],
    symbols: &Symbols,
    old: &Assembled,
    behind: Behind,
) -> Result<Vec<Rc<Vec<u8>>>, Refused<SourceFault>>
    requires many { length places.now < 2 ^ 32 - 1 }
    requires sized { All HasSize places.now }
    requires old { valued old.now.layout.symbols 1 old.now.layout.places [] ≡ Ok old.now.code }
    requires few { length old.now.layout.places ≤ 65536 }
    ensures { MatchResult result (λ code. valued symbols.now 1 places.now [] ≡ Ok (code_bytes code.items))
        (ByFault (λ e. valued symbols.now 1 places.now [] ≡ Err e)) }
{
    let mut code = Vec::new(alloc);
    let mut number = 1;
    for place in places {
        let index = behind.before(number as usize - 1);
        match bytes_of(alloc, place, number, symbols, old, index) {
            Ok(bytes) => push_shared(&mut code, bytes)?,
            Err(fault) => return Err(in_line(number, fault)),
        }
        number += 1;
    }
    Ok(code)
}
