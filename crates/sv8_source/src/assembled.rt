//! What the two passes make of a text, and what is read in it.

ghost use Rattle.std.specs.Prelude.{◌≡◌, ℕ, ◌+◌, ◌^◌, ◌≤◌, ◌<◌, [], ◌∷◌, ◌++◌, length, IfSome, IfOk, OnOk, option_map};
ghost use Rattle.sv8_source.specs.Edits.{Sound, with_line_between};
ghost use Rattle.sv8_source.specs.Kept.{table, code_bytes};
ghost use Rattle.sv8_source.specs.Layout.{start};
ghost use Rattle.sv8_source.specs.Listing.{shown, shown_all, numbered};
ghost use Rattle.sv8_source.specs.View.{shown_of};
ghost use Rattle.sv8_source.specs.Image.{byte_at, word_at};

use crate::laid::Placed;
use crate::places::{byte_in, bytes_at, bytes_in, lines_near, place_at, place_in, start_of};
use crate::source::Listed;
use crate::valued::push_bytes;
use byteorder::{BigEndian, ByteOrder};
use std::alloc::{AllocError, Global};
use std::marker::Model;
use std::rc::Rc;
use sv8_asm::Symbols;

/// The lines of a text with their places, the names, and the bytes of each line.
///
/// The listing is made of these, and the image is read in them: the lines stand in rising address, so the line that
/// places a byte is found by binary search, and no second copy of the image is kept. Lines, names and bytes stand behind
/// handles, by which an edited text shares what the edit does not change.
#[derive(Drop)]
pub struct Assembled {
    places: Vec<Placed>,
    symbols: Option<Rc<Symbols>>,
    at: u32,
    code: Vec<Rc<Vec<u8>>>,
}

impl Model for Assembled {
    ghost use Rattle.std.specs.Prelude.{◌≡◌, length};
    ghost use Rattle.sv8_source.specs.Text.{Assembly};
    ghost use Rattle.sv8_source.specs.Kept.{table, code_bytes};
    ghost use Rattle.sv8_source.specs.Listing.{shown};
    ghost use Rattle.sv8_source.specs.Image.{Rising};

    ghost Value = { Assembly };

    ghost view = { λ a. record { layout = record { places = a.places.items; symbols = table a.symbols; at = a.at }; code = code_bytes a.code.items } };

    ghost invariant = { λ a. Rising 0 (shown a.places.items (code_bytes a.code.items)) × (length (code_bytes a.code.items) ≡ length a.places.items) };
}

/// Puts the same places behind others.
fn share_places(all: &mut Vec<Placed>, places: &[Placed]) -> Result<(), AllocError>
    ensures { OnOk result (all.new.items ≡ all.old.items ++ places.now) }
{
    for place in places {
        all.push(place.share()?).map_err(AllocError::from)?;
    }
    Ok(())
}

/// Puts the same bytes behind others.
fn share_code(all: &mut Vec<Rc<Vec<u8>>>, code: &[Rc<Vec<u8>>]) -> Result<(), AllocError>
    ensures { OnOk result (code_bytes all.new.items ≡ code_bytes all.old.items ++ code_bytes code.now) }
{
    for bytes in code {
        all.push(bytes.clone()?)?;
    }
    Ok(())
}

/// The places of two lists, with one between them.
fn places_around(
    alloc: Global,
    front: &[Placed],
    place: Placed,
    back: &[Placed],
) -> Option<Vec<Placed>>
    requires { length front.now + length back.now < 2 ^ 32 }
    ensures { IfSome result (λ v. v.items ≡ front.now ++ place ∷ back.now) }
{
    let mut all = Vec::with_capacity(alloc, front.len() + 1 + back.len()).ok()?;
    share_places(&mut all, front).ok()?;
    all.push(place).ok()?;
    share_places(&mut all, back).ok()?;
    Some(all)
}

/// The bytes of two lists, with those of one line between them.
fn code_around(
    alloc: Global,
    front: &[Rc<Vec<u8>>],
    bytes: Vec<u8>,
    back: &[Rc<Vec<u8>>],
) -> Option<Vec<Rc<Vec<u8>>>>
    requires { length front.now + length back.now < 2 ^ 32 }
    ensures { IfSome result (λ v. code_bytes v.items ≡ code_bytes front.now ++ bytes.items ∷ code_bytes back.now) }
{
    let mut all = Vec::with_capacity(alloc, front.len() + 1 + back.len()).ok()?;
    share_code(&mut all, front).ok()?;
    push_bytes(alloc, &mut all, bytes).ok()?;
    share_code(&mut all, back).ok()?;
    Some(all)
}

/// The same table of names.
fn share_table(symbols: &Option<Rc<Symbols>>) -> Result<Option<Rc<Symbols>>, AllocError>
    ensures { IfOk result (λ t. table t ≡ table symbols.now) }
{
    match symbols {
        None => Ok(None),
        Some(symbols) => {
            let symbols = symbols.clone()?;
            Ok(Some(symbols))
        }
    }
}

impl Assembled {
    /// Of no lines.
    pub fn empty(alloc: Global) -> Assembled
        ensures { result ≡ record { layout = start; code = [] } }
    {
        Assembled {
            places: Vec::new(alloc),
            symbols: None,
            at: 0,
            code: Vec::new(alloc),
        }
    }

    /// Of lines that were laid, with their bytes.
    pub fn from_parts(
        places: Vec<Placed>,
        symbols: Rc<Symbols>,
        at: u32,
        code: Vec<Rc<Vec<u8>>>,
    ) -> Assembled
        requires { Sound (record { layout = record { places = places.items; symbols = symbols.value; at = at }; code = code_bytes code.items }) }
        ensures { result ≡ record { layout = record { places = places.items; symbols = symbols.value; at = at }; code = code_bytes code.items } }
    {
        Assembled {
            places,
            symbols: Some(symbols),
            at,
            code,
        }
    }

    /// The same once more: other handles of the same lines, names and bytes.
    pub fn copy(&self, alloc: Global) -> Result<Assembled, AllocError>
        ensures { IfOk result (λ a. a ≡ self.now) }
    {
        let mut code = Vec::with_capacity(alloc, self.code.len())?;
        share_code(&mut code, &self.code)?;
        let symbols = share_table(&self.symbols)?;
        let mut places = Vec::with_capacity(alloc, self.places.len())?;
        share_places(&mut places, &self.places)?;
        Ok(Assembled {
            places,
            symbols,
            at: self.at,
            code,
        })
    }

    /// The same lines up to `front` and from `back` on, both counted from 0, and one line between them; `at` is the
    /// location behind all. None for want of memory.
    pub fn with_line(
        &self,
        alloc: Global,
        front: usize,
        back: usize,
        place: Placed,
        bytes: Vec<u8>,
        at: u32,
    ) -> Option<Assembled>
        requires many { length self.now.layout.places ≤ 65536 }
        requires order { front ≤ back }
        requires within { back ≤ length self.now.layout.places }
        requires sound { Sound (with_line_between front back place bytes.items at self.now) }
        ensures { IfSome result (λ a. a ≡ with_line_between front back place bytes.items at self.now) }
    {
        let (places_front, _) = self.places.split_at(front);
        let (_, places_back) = self.places.split_at(back);
        let (code_front, _) = self.code.split_at(front);
        let (_, code_back) = self.code.split_at(back);
        let code = code_around(alloc, code_front, bytes, code_back)?;
        let symbols = share_table(&self.symbols).ok()?;
        let places = places_around(alloc, places_front, place, places_back)?;
        Some(Assembled {
            places,
            symbols,
            at,
            code,
        })
    }

    /// The lines with their places.
    pub fn places(&self) -> &[Placed]
        ensures value { result.now ≡ self.now.layout.places }
        ensures coded { length self.now.code ≡ length self.now.layout.places }
    {
        let _code = &self.code;
        &self.places
    }

    /// The bytes of each line.
    pub fn code(&self) -> &[Rc<Vec<u8>>]
        ensures value { code_bytes result.now ≡ self.now.code }
    {
        let _places = &self.places;
        &self.code
    }

    /// The names; none is returned where there never was a line.
    pub fn symbols(&self) -> Option<&Symbols>
        ensures { IfSome result (λ s. s.now ≡ self.now.layout.symbols) }
    {
        let _places = &self.places;
        match &self.symbols {
            None => None,
            Some(symbols) => Some(symbols),
        }
    }

    /// The location behind all lines.
    pub fn at(&self) -> u32
        ensures { result ≡ self.now.layout.at }
    {
        let _places = &self.places;
        self.at
    }

    #[tactic(auto, using(crate::proofs::ShownLines::shown_count))]
    pub fn line_count(&self) -> usize
        ensures places { result ≡ length self.now.layout.places }
        ensures shown { result ≡ length (shown_all self.now) }
    {
        self.places.len()
    }

    /// A line of the listing, by its number from 1 on.
    #[tactic(auto, using(crate::proofs::ShownLines::line_found, crate::proofs::ShownLines::no_place, crate::proofs::ShownLines::no_bytes))]
    pub fn line(&self, number: usize) -> Option<Listed<'_>>
        ensures { option_map shown_of result ≡ numbered (shown self.now.layout.places self.now.code) number }
    {
        if number == 0 {
            return None;
        }
        match place_at(&self.places, number - 1) {
            None => None,
            Some(place) => match bytes_at(&self.code, number - 1) {
                None => None,
                Some(bytes) => Some(Listed {
                    address: place.at(),
                    bytes,
                    text: place.text(),
                }),
            },
        }
    }

    /// How many lines begin at or below an address. Where that is `near`, or one more, it is found at once; it is a hint for the
    /// calls below, which answer the same whatever they are given.
    pub fn lines_near(&self, near: usize, address: u64) -> usize {
        lines_near(&self.places, near, address)
    }

    /// The image's byte at an address.
    #[tactic(auto, using(crate::proofs::ReadImage::no_line, crate::proofs::ReadImage::last_line))]
    fn byte(&self, near: usize, address: u64) -> u8
        ensures { result ≡ byte_at (shown self.now.layout.places self.now.code) address }
    {
        let places = self.places();
        let _code = &self.code;
        let count = lines_near(places, near, address);
        if count == 0 {
            return 0;
        }
        let place = place_in(places, count - 1);
        let bytes = bytes_in(&self.code, count - 1);
        byte_in(bytes, address - u64::from(place.at()))
    }

    /// The image's word at an address.
    #[tactic(auto, unfolding(crate::specs::Image::word_at))]
    pub fn word(&self, near: usize, address: u64) -> u32
        requires { address + 3 < 2 ^ 64 }
        ensures { result ≡ word_at (shown self.now.layout.places self.now.code) address }
    {
        let bytes = [
            self.byte(near, address),
            self.byte(near, address + 1),
            self.byte(near, address + 2),
            self.byte(near, address + 3),
        ];
        BigEndian::read_u32(&bytes)
    }

    /// An address up to which, from this one on, no byte is placed: this one itself, or where the next line begins.
    #[tactic(auto, using(crate::proofs::ReadImage::none_before, crate::proofs::ReadImage::none_between))]
    pub fn next_byte(&self, near: usize, address: u64) -> u64
        ensures up { address ≤ result }
        ensures none { (a : ℕ) → address ≤ a → a < result → byte_at (shown self.now.layout.places self.now.code) a ≡ 0 }
    {
        let places = self.places();
        let _code = &self.code;
        let count = lines_near(places, near, address);
        if count == 0 {
            let first = start_of(places, 0);
            return first;
        }
        let place = place_in(places, count - 1);
        let bytes = bytes_in(&self.code, count - 1);
        if address - u64::from(place.at()) < bytes.len() as u64 {
            return address;
        }
        let next = start_of(places, count);
        next
    }
}
