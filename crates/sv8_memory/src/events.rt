//! The events of a step: poked bytes and interrupt requests.

ghost use Rattle.std.specs.Prelude.{◌≡◌, ℕ, ◌+◌, ◌<◌, ◌≤◌, [], OnOk};
ghost use Rattle.sv8_phys.specs.Memory.{ram_size};
ghost use Rattle.sv8_mmu.specs.Kept.{AllStand};
ghost use Rattle.sv8_memory.specs.Events.{marked, with_events};
ghost use Rattle.sv8_memory.specs.WordPokes.{byte_poked, word_poked, words_poked, AreInside};

use std::alloc::AllocError;
use sv8_mmu::Buffer;
use sv8_phys::Phys;
use sv8_time::{Request, Timeline, WordPoke};

/// Writes a byte, if there is one.
fn poke_byte<const PAGES: usize>(
    phys: &mut Phys<PAGES>,
    at: u32,
    byte: Option<u8>,
) -> Result<(), AllocError>
    requires { at < ram_size PAGES }
    ensures { OnOk result (phys.new ≡ record phys.old { ram = byte_poked at byte phys.old.ram }) }
{
    match byte {
        None => Ok(()),
        Some(value) => {
            phys.poke(at, value)?;
            Ok(())
        }
    }
}

/// Writes the poked bytes of a word.
fn poke_word<const PAGES: usize>(phys: &mut Phys<PAGES>, word: &WordPoke) -> Result<(), AllocError>
    requires { word.now.address + 4 ≤ ram_size PAGES }
    ensures { OnOk result (phys.new ≡ record phys.old { ram = word_poked word.now phys.old.ram }) }
{
    let _size = phys.ram_size();
    let at = word.address;
    poke_byte(phys, at, word.bytes[0])?;
    poke_byte(phys, at + 1, word.bytes[1])?;
    poke_byte(phys, at + 2, word.bytes[2])?;
    poke_byte(phys, at + 3, word.bytes[3])?;
    Ok(())
}

/// Writes the poked bytes of several words.
fn poke_words<const PAGES: usize>(
    phys: &mut Phys<PAGES>,
    words: &[WordPoke],
) -> Result<(), AllocError>
    requires { AreInside (ram_size PAGES) words.now }
    ensures { OnOk result (phys.new ≡ record phys.old { ram = words_poked words.now phys.old.ram }) }
{
    let mut rest = words;
    while let [word, after @ ..] = rest {
        poke_word(phys, word)?;
        rest = after;
    }
    Ok(())
}

/// Makes requested levels pending.
fn request_levels<const PAGES: usize>(phys: &mut Phys<PAGES>, requests: &[Request])
    ensures { phys.new ≡ record phys.old { pending = marked requests.now phys.old.pending } }
{
    let mut rest = requests;
    while let [request, after @ ..] = rest {
        phys.request(request.level);
        rest = after;
    }
}

/// Writes the poked bytes of a step. Where there are any, the lookaside buffer forgets all.
#[inline(always)]
fn poke_events<const PAGES: usize>(
    phys: &mut Phys<PAGES>,
    buffer: &mut Buffer,
    words: &[WordPoke],
) -> Result<(), AllocError>
    requires { AreInside (ram_size PAGES) words.now }
    ensures poked { OnOk result (phys.new ≡ record phys.old { ram = words_poked words.now phys.old.ram }) }
    ensures stand { (table_pointer : ℕ) → AllStand (ram_size PAGES) phys.old.ram table_pointer buffer.old → AllStand (ram_size PAGES) phys.new.ram table_pointer buffer.new }
{
    match words {
        [] => Ok(()),
        [_, ..] => {
            buffer.clear();
            poke_words(phys, words)?;
            Ok(())
        }
    }
}

/// Makes the events of step n happen in memory, where there may be some.
#[inline(never)]
#[tactic(auto, using(crate::proofs::Poking::are_inside, crate::proofs::Poking::poked_words), unfolding(crate::specs::Events::with_events))]
fn happen_at<const PAGES: usize>(
    phys: &mut Phys<PAGES>,
    buffer: &mut Buffer,
    n: u32,
    timeline: &Timeline,
) -> Result<(), AllocError>
    requires { timeline.now.limit ≡ ram_size PAGES }
    ensures happened { OnOk result (phys.new ≡ with_events timeline.now n phys.old) }
    ensures stand { (table_pointer : ℕ) → AllStand (ram_size PAGES) phys.old.ram table_pointer buffer.old → AllStand (ram_size PAGES) phys.new.ram table_pointer buffer.new }
{
    let events = timeline.events(n);
    poke_events(phys, buffer, events.pokes)?;
    request_levels(phys, events.requests);
    Ok(())
}

/// Makes the events of step n happen in memory.
///
/// # Errors
///
/// `AllocError` where memory for a page that is shared cannot be had; some events may have happened then.
#[inline(always)]
#[tactic(auto, using(crate::proofs::Poking::quiet), unfolding(crate::specs::Events::with_events))]
pub fn happen<const PAGES: usize>(
    phys: &mut Phys<PAGES>,
    buffer: &mut Buffer,
    n: u32,
    timeline: &Timeline,
) -> Result<(), AllocError>
    requires { timeline.now.limit ≡ ram_size PAGES }
    ensures happened { OnOk result (phys.new ≡ with_events timeline.now n phys.old) }
    ensures stand { (table_pointer : ℕ) → AllStand (ram_size PAGES) phys.old.ram table_pointer buffer.old → AllStand (ram_size PAGES) phys.new.ram table_pointer buffer.new }
{
    if !timeline.may_have_events(n) {
        return Ok(());
    }
    happen_at(phys, buffer, n, timeline)?;
    Ok(())
}
