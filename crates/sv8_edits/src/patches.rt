//! The patches of an edit.

ghost use Rattle.std.specs.Prelude.{◌≡◌, ◌+◌, ◌/◌, ◌%◌, ◌^◌, ◌<◌, ◌≤◌, ◌++◌, Option, IfOk, OnOk, slice_index_or};
ghost use Rattle.std.specs.List.{All};
ghost use Rattle.sv8_phys.specs.Memory.{ram_size};
ghost use Rattle.sv8_phys.specs.Contents.{AreContents};
ghost use Rattle.sv8_source.specs.Text.{Text};
ghost use Rattle.sv8_source.specs.Image.{changes};
ghost use Rattle.sv8_reset.specs.Reset.{reset_state};
ghost use Rattle.sv8_edits.specs.Changes.{next_poke, next_request, first_poke, stands, poke_byte_changes, clear_byte_changes, poke_changes, clear_changes, request_changes, clear_request_changes, image_byte_changes, image_changes};
ghost use Rattle.sv8_cpu.specs.Patches.{changes_of, IsPatch};

use std::alloc::{AllocError, Global};
use sv8_cpu::Machine;
use sv8_model::Level;
use sv8_notes::{Cause, Cell, Content, NO_END, Patch};
use sv8_source::Change;
use sv8_time::Timeline;

/// The next step above one that pokes a byte, or no end.
fn next_poke(timeline: &Timeline, address: u32, after: u32) -> u32
    ensures { result ≡ next_poke address after timeline.now }
{
    timeline.next_poke(address, after).unwrap_or(NO_END)
}

/// The first step that pokes a byte, or no end.
fn first_poke(timeline: &Timeline, address: u32) -> u32
    ensures { result ≡ first_poke address timeline.now }
{
    if timeline.has_byte(0, address) {
        return 0;
    }
    next_poke(timeline, address, 0)
}

/// The step of the next request of a level above one, or no end.
fn next_request(timeline: &Timeline, level: Level, after: u32) -> u32
    ensures { result ≡ next_request level after timeline.now }
{
    timeline.next_request(level, after).unwrap_or(NO_END)
}

/// Whether a byte is poked with this value.
fn stands(poked: Option<u8>, value: u8) -> bool
    ensures { result ≡ stands poked value }
{
    match poked {
        Some(other) => other == value,
        None => false,
    }
}

/// Puts behind the others what the poke of a byte changes: nothing where it is poked with this value already.
fn add_poke<const NW: usize, const PAGES: usize>(
    patches: &mut Vec<Patch>,
    timeline: &Timeline,
    step: u32,
    address: u32,
    value: u8,
) -> Result<(), AllocError>
    requires address { address < ram_size PAGES }
    requires patches { All (IsPatch PAGES) patches.old.items }
    ensures changes { OnOk result (changes_of NW PAGES patches.new.items ≡ changes_of NW PAGES patches.old.items ++ poke_byte_changes NW PAGES step address value timeline.now) }
    ensures patches { OnOk result (All (IsPatch PAGES) patches.new.items) }
{
    if stands(timeline.poke_at(step, address), value) {
        return Ok(());
    }
    patches.push(Patch {
        cell: Cell::Byte(address),
        from: step,
        to: next_poke(timeline, address, step),
        cause: Cause::Poke(Content::Byte(value)),
    })?;
    Ok(())
}

/// Puts behind the others what it changes that the poke of a byte is cleared: nothing where there is none.
fn add_clear<const NW: usize, const PAGES: usize>(
    patches: &mut Vec<Patch>,
    timeline: &Timeline,
    step: u32,
    address: u32,
) -> Result<(), AllocError>
    requires address { address < ram_size PAGES }
    requires patches { All (IsPatch PAGES) patches.old.items }
    ensures changes { OnOk result (changes_of NW PAGES patches.new.items ≡ changes_of NW PAGES patches.old.items ++ clear_byte_changes NW PAGES step address timeline.now) }
    ensures patches { OnOk result (All (IsPatch PAGES) patches.new.items) }
{
    if !timeline.has_byte(step, address) {
        return Ok(());
    }
    patches.push(Patch {
        cell: Cell::Byte(address),
        from: step,
        to: next_poke(timeline, address, step),
        cause: Cause::Uncover,
    })?;
    Ok(())
}

/// Puts behind the others what it changes that the source gives a byte of RAM another value.
fn add_image<const NW: usize, const PAGES: usize>(
    patches: &mut Vec<Patch>,
    timeline: &Timeline,
    address: u32,
    old: u8,
    new: u8,
) -> Result<(), AllocError>
    requires address { address < ram_size PAGES }
    requires patches { All (IsPatch PAGES) patches.old.items }
    ensures changes { OnOk result (changes_of NW PAGES patches.new.items ≡ changes_of NW PAGES patches.old.items ++ image_byte_changes NW PAGES address old new timeline.now) }
    ensures patches { OnOk result (All (IsPatch PAGES) patches.new.items) }
{
    if old == new {
        return Ok(());
    }
    patches.push(Patch {
        cell: Cell::Byte(address),
        from: 0,
        to: first_poke(timeline, address),
        cause: Cause::Source(Content::Byte(new)),
    })?;
    Ok(())
}

/// What the poke of a byte changes.
pub(crate) fn poke_byte_patches<const NW: usize, const PAGES: usize>(
    alloc: Global,
    timeline: &Timeline,
    step: u32,
    address: u32,
    value: u8,
) -> Result<Vec<Patch>, AllocError>
    requires address { address < ram_size PAGES }
    ensures changes { IfOk result (λ v. changes_of NW PAGES v.items ≡ poke_byte_changes NW PAGES step address value timeline.now) }
    ensures patches { IfOk result (λ v. All (IsPatch PAGES) v.items) }
{
    let mut patches = Vec::new(alloc);
    add_poke::<NW, PAGES>(&mut patches, timeline, step, address, value)?;
    Ok(patches)
}

/// What the poke of a word changes.
pub(crate) fn poke_patches<const NW: usize, const PAGES: usize>(
    alloc: Global,
    timeline: &Timeline,
    step: u32,
    address: u32,
    value: u32,
) -> Result<Vec<Patch>, AllocError>
    requires word { address + 4 ≤ ram_size PAGES }
    requires few_pages { PAGES ≤ 65536 }
    ensures changes { IfOk result (λ v. changes_of NW PAGES v.items ≡ poke_changes NW PAGES step address value timeline.now) }
    ensures patches { IfOk result (λ v. All (IsPatch PAGES) v.items) }
{
    let [first, second, third, fourth] = value.to_be_bytes();
    let mut patches = Vec::new(alloc);
    add_poke::<NW, PAGES>(&mut patches, timeline, step, address, first)?;
    add_poke::<NW, PAGES>(&mut patches, timeline, step, address + 1, second)?;
    add_poke::<NW, PAGES>(&mut patches, timeline, step, address + 2, third)?;
    add_poke::<NW, PAGES>(&mut patches, timeline, step, address + 3, fourth)?;
    Ok(patches)
}

/// What it changes that the poke of a byte is cleared.
pub(crate) fn clear_byte_patches<const NW: usize, const PAGES: usize>(
    alloc: Global,
    timeline: &Timeline,
    step: u32,
    address: u32,
) -> Result<Vec<Patch>, AllocError>
    requires address { address < ram_size PAGES }
    ensures changes { IfOk result (λ v. changes_of NW PAGES v.items ≡ clear_byte_changes NW PAGES step address timeline.now) }
    ensures patches { IfOk result (λ v. All (IsPatch PAGES) v.items) }
{
    let mut patches = Vec::new(alloc);
    add_clear::<NW, PAGES>(&mut patches, timeline, step, address)?;
    Ok(patches)
}

/// What it changes that the pokes of a word are cleared.
pub(crate) fn clear_patches<const NW: usize, const PAGES: usize>(
    alloc: Global,
    timeline: &Timeline,
    step: u32,
    address: u32,
) -> Result<Vec<Patch>, AllocError>
    requires word { address + 4 ≤ ram_size PAGES }
    requires few_pages { PAGES ≤ 65536 }
    ensures changes { IfOk result (λ v. changes_of NW PAGES v.items ≡ clear_changes NW PAGES step address timeline.now) }
    ensures patches { IfOk result (λ v. All (IsPatch PAGES) v.items) }
{
    let mut patches = Vec::new(alloc);
    add_clear::<NW, PAGES>(&mut patches, timeline, step, address)?;
    add_clear::<NW, PAGES>(&mut patches, timeline, step, address + 1)?;
    add_clear::<NW, PAGES>(&mut patches, timeline, step, address + 2)?;
    add_clear::<NW, PAGES>(&mut patches, timeline, step, address + 3)?;
    Ok(patches)
}

/// What the request of a level changes: nothing where it stands already.
pub(crate) fn request_patches<const NW: usize, const PAGES: usize>(
    alloc: Global,
    timeline: &Timeline,
    step: u32,
    level: Level,
) -> Result<Vec<Patch>, AllocError>
    ensures changes { IfOk result (λ v. changes_of NW PAGES v.items ≡ request_changes NW PAGES step level timeline.now) }
    ensures patches { IfOk result (λ v. All (IsPatch PAGES) v.items) }
{
    let mut patches = Vec::new(alloc);
    if !timeline.has_request(step, level) {
        patches.push(Patch {
            cell: Cell::Level(level.number()),
            from: step,
            to: next_request(timeline, level, step),
            cause: Cause::Poke(Content::Pending(true)),
        })?;
    }
    Ok(patches)
}

/// What it changes that the request of a level is cleared: nothing where there is none.
pub(crate) fn clear_request_patches<const NW: usize, const PAGES: usize>(
    alloc: Global,
    timeline: &Timeline,
    step: u32,
    level: Level,
) -> Result<Vec<Patch>, AllocError>
    ensures changes { IfOk result (λ v. changes_of NW PAGES v.items ≡ clear_request_changes NW PAGES step level timeline.now) }
    ensures patches { IfOk result (λ v. All (IsPatch PAGES) v.items) }
{
    let mut patches = Vec::new(alloc);
    if timeline.has_request(step, level) {
        patches.push(Patch {
            cell: Cell::Level(level.number()),
            from: step,
            to: next_request(timeline, level, step),
            cause: Cause::Uncover,
        })?;
    }
    Ok(patches)
}

/// What an edit of the source changes in a word of RAM, of which `reset` has the new bytes.
fn add_word<const NW: usize, const PAGES: usize>(
    patches: &mut Vec<Patch>,
    timeline: &Timeline,
    change: &Change,
    reset: &Machine<NW, PAGES>,
) -> Result<(), AllocError>
    requires few_windows { NW ≤ 32 }
    requires few_pages { PAGES ≤ 65536 }
    requires word { change.now.address + 4 ≤ ram_size PAGES }
    requires patches { All (IsPatch PAGES) patches.old.items }
    ensures changes { OnOk result (changes_of NW PAGES patches.new.items ≡ changes_of NW PAGES patches.old.items
        ++ image_byte_changes NW PAGES change.now.address (change.now.old / 2 ^ 24 % 2 ^ 8) (slice_index_or reset.now.memory.ram change.now.address 0) timeline.now
        ++ image_byte_changes NW PAGES (change.now.address + 1) (change.now.old / 2 ^ 16 % 2 ^ 8) (slice_index_or reset.now.memory.ram (change.now.address + 1) 0) timeline.now
        ++ image_byte_changes NW PAGES (change.now.address + 2) (change.now.old / 2 ^ 8 % 2 ^ 8) (slice_index_or reset.now.memory.ram (change.now.address + 2) 0) timeline.now
        ++ image_byte_changes NW PAGES (change.now.address + 3) (change.now.old % 2 ^ 8) (slice_index_or reset.now.memory.ram (change.now.address + 3) 0) timeline.now) }
    ensures patches { OnOk result (All (IsPatch PAGES) patches.new.items) }
{
    let address = change.address;
    let [first, second, third, fourth] = change.old.to_be_bytes();
    add_image::<NW, PAGES>(patches, timeline, address, first, reset.byte(address))?;
    add_image::<NW, PAGES>(
        patches,
        timeline,
        address + 1,
        second,
        reset.byte(address + 1),
    )?;
    add_image::<NW, PAGES>(
        patches,
        timeline,
        address + 2,
        third,
        reset.byte(address + 2),
    )?;
    add_image::<NW, PAGES>(
        patches,
        timeline,
        address + 3,
        fourth,
        reset.byte(address + 3),
    )?;
    Ok(())
}

/// What an edit of the source changes, where these words of the image differ and `reset` is the machine of the edited source.
///
/// # Errors
///
/// `AllocError` where memory for the patches cannot be had.
pub fn image_patches<const NW: usize, const PAGES: usize>(
    alloc: Global,
    words: &[Change],
    reset: &Machine<NW, PAGES>,
    timeline: &Timeline,
) -> Result<Vec<Patch>, AllocError>
    requires few_windows { NW ≤ 32 }
    requires few_pages { PAGES ≤ 65536 }
    requires inside { All (λ c. c.address + 4 ≤ ram_size PAGES) words.now }
    ensures changes { IfOk result (λ v. (old new : Text) → old.limit ≡ ram_size PAGES → words.now ≡ changes old new → reset.now ≡ reset_state NW PAGES new
        → AreContents PAGES (reset_state NW PAGES old).memory → changes_of NW PAGES v.items ≡ image_changes NW PAGES old new timeline.now) }
    ensures patches { IfOk result (λ v. All (IsPatch PAGES) v.items) }
{
    let _size = reset.ram_size();
    let mut patches = Vec::new(alloc);
    for change in words {
        add_word(&mut patches, timeline, change, reset)?;
    }
    Ok(patches)
}
