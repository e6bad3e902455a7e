//! What an edit changes of the run.

ghost use Rattle.std.specs.Prelude.{◌≡◌, ◌<◌, ◌≤◌, length, None, Some, IfErr, IfOk, OnOk};
ghost use Rattle.sv8_model.specs.Refused.{IsRefused};
ghost use Rattle.sv8_phys.specs.Memory.{ram_size};
ghost use Rattle.sv8_time.specs.Edits.{timeline_fault};
ghost use Rattle.sv8_edits.specs.Affected.{change_of, AreOfMachine};
ghost use Rattle.sv8_edits.specs.Changes.{edit_change, input_change};
ghost use Rattle.sv8_edits.specs.EditLaws.{HasBytes};

use crate::patches::{
    clear_byte_patches, clear_patches, clear_request_patches, poke_byte_patches, poke_patches,
    request_patches,
};
use std::alloc::Global;
use sv8_model::{Level, Refused};
use sv8_notes::Patch;
use sv8_time::{InputBytes, TimeFault, Timeline, TimelineEdit};

/// What an edit changes of a run.
#[derive(Drop)]
pub enum Affected {
    /// Cells of the machine.
    Cells(Vec<Patch>),
    /// The input from a step on, if it is another.
    Input(Option<u32>),
}

/// The step from which on bytes that come in make the input another one: none where they come in there already.
fn input_change(timeline: &Timeline, step: u32, bytes: &InputBytes<'_>) -> Option<u32>
    ensures value { result ≡ input_change step bytes.now timeline.now }
    ensures some { 0 < length bytes.now }
{
    let events = timeline.events(step);
    if events.bytes == bytes.as_slice() {
        None
    } else {
        Some(step)
    }
}

/// What an edit of the timeline changes.
///
/// # Errors
///
/// The fault of the edit (`Timeline::edit`), or `OutOfMemory`.
pub fn affected_by<const NW: usize, const PAGES: usize>(
    alloc: Global,
    timeline: &Timeline,
    edit: &TimelineEdit<'_>,
) -> Result<Affected, Refused<TimeFault>>
    requires limit { timeline.now.limit ≡ ram_size PAGES }
    requires few_pages { PAGES ≤ 65536 }
    ensures accepted { OnOk result (timeline_fault edit.now timeline.now ≡ None) }
    ensures refused { IfErr result (IsRefused (timeline_fault edit.now timeline.now)) }
    ensures change { IfOk result (λ a. change_of NW PAGES a ≡ edit_change NW PAGES edit.now timeline.now) }
    ensures of_machine { IfOk result (λ a. AreOfMachine PAGES a) }
    ensures bytes { OnOk result (HasBytes edit.now) }
{
    timeline.check(edit)?;
    let patches = match edit {
        TimelineEdit::SetPoke {
            step,
            address,
            value,
        } => poke_patches::<NW, PAGES>(alloc, timeline, *step, *address, *value)?,
        TimelineEdit::ClearPoke { step, address } => {
            clear_patches::<NW, PAGES>(alloc, timeline, *step, *address)?
        }
        TimelineEdit::SetPokeByte {
            step,
            address,
            value,
        } => poke_byte_patches::<NW, PAGES>(alloc, timeline, *step, *address, *value)?,
        TimelineEdit::ClearPokeByte { step, address } => {
            clear_byte_patches::<NW, PAGES>(alloc, timeline, *step, *address)?
        }
        TimelineEdit::SetInput { step, bytes } => {
            return Ok(Affected::Input(input_change(timeline, *step, bytes)));
        }
        TimelineEdit::ClearInput { step } => return Ok(Affected::Input(Some(*step))),
        TimelineEdit::SetRequest { step, level } => {
            let level = Level::new(*level).ok_or(TimeFault::BadLevel)?;
            request_patches::<NW, PAGES>(alloc, timeline, *step, level)?
        }
        TimelineEdit::ClearRequest { step, level } => {
            let level = Level::new(*level).ok_or(TimeFault::BadLevel)?;
            clear_request_patches::<NW, PAGES>(alloc, timeline, *step, level)?
        }
    };
    Ok(Affected::Cells(patches))
}
