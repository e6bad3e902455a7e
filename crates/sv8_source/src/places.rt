//! Lines with their places and their code, by number from 0 on and by address.

ghost use Rattle.std.specs.Prelude.{◌≡◌, ◌-◌, ◌≤◌, ◌<◌, length, true, Some, None, option_map, slice_get, slice_index};
ghost use Rattle.sv8_source.specs.Kept.{code_bytes};
ghost use Rattle.sv8_source.specs.Layout.{Place};

use crate::laid::Placed;
use std::rc::Rc;

pub fn place_in(places: &[Placed], index: usize) -> &Placed
    requires { index < length places.now }
    ensures { slice_get places.now index ≡ Some result.now }
{
    &places[index]
}

pub fn bytes_in(code: &[Rc<Vec<u8>>], index: usize) -> &[u8]
    requires { index < length code.now }
    ensures { slice_get (code_bytes code.now) index ≡ Some result.now }
{
    let bytes = &code[index];
    bytes.as_slice()
}

pub fn place_at(places: &[Placed], index: usize) -> Option<&Placed>
    ensures { option_map (λ p. p.now) result ≡ slice_get places.now index }
{
    match places.get(index) {
        Some(place) => Some(place),
        None => None,
    }
}

pub fn bytes_at(code: &[Rc<Vec<u8>>], index: usize) -> Option<&[u8]>
    ensures { option_map (λ b. b.now) result ≡ slice_get (code_bytes code.now) index }
{
    match code.get(index) {
        Some(bytes) => Some(bytes.as_slice()),
        None => None,
    }
}

/// A byte of a line's code, or 0 behind it.
pub fn byte_in(bytes: &[u8], index: u64) -> u8
    ensures { result ≡ slice_index bytes.now index }
{
    match bytes.get(index as usize) {
        Some(byte) => *byte,
        None => 0,
    }
}

/// Where a line begins; where there is none, above every address.
pub fn start_of(places: &[Placed], index: usize) -> u64
    ensures some { (p : Place) → slice_get places.now index ≡ Some p → result ≡ p.at }
    ensures none { slice_get places.now index ≡ None → result ≡ u64.MAX }
{
    match place_at(places, index) {
        Some(place) => u64::from(place.at()),
        None => u64::MAX,
    }
}

/// A number of lines the last of which begins at or below an address, and the next one above it, by binary search.
/// In lines of rising address these are all the lines at or below it.
pub fn lines_up_to(places: &[Placed], address: u64) -> usize
    ensures most { result ≤ length places.now }
    ensures below { (p : Place) → 0 < result → slice_get places.now (result - 1) ≡ Some p → p.at ≤ address }
    ensures above { (p : Place) → slice_get places.now result ≡ Some p → address < p.at }
{
    let mut low = 0;
    let mut high = places.len();
    while low < high {
        let middle = low + (high - low) / 2;
        if u64::from(places[middle].at()) <= address {
            low = middle + 1;
        } else {
            high = middle;
        }
    }
    low
}

/// Whether so many lines are those up to an address, by the last of them and the next one.
fn is_count(places: &[Placed], count: usize, address: u64) -> bool
    requires { count ≤ length places.now }
    ensures below { result ≡ true → (p : Place) → 0 < count → slice_get places.now (count - 1) ≡ Some p → p.at ≤ address }
    ensures above { result ≡ true → (p : Place) → slice_get places.now count ≡ Some p → address < p.at }
{
    (count == 0 || u64::from(places[count - 1].at()) <= address)
        && (count == places.len() || address < u64::from(places[count].at()))
}

/// The same as `lines_up_to`, which is found at once where it is `near`, or one more. Which number `near` is does not matter.
pub fn lines_near(places: &[Placed], near: usize, address: u64) -> usize
    ensures most { result ≤ length places.now }
    ensures below { (p : Place) → 0 < result → slice_get places.now (result - 1) ≡ Some p → p.at ≤ address }
    ensures above { (p : Place) → slice_get places.now result ≡ Some p → address < p.at }
{
    if near < places.len() {
        if is_count(places, near, address) {
            return near;
        }
        if is_count(places, near + 1, address) {
            return near + 1;
        }
    }
    lines_up_to(places, address)
}
