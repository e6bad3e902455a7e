//! Flags of steps that follow one another.

ghost use Rattle.std.specs.Prelude.{◌+◌, ◌==◌};
ghost use Rattle.sv8_notes.specs.Flags.{IsFlagged};

/// Sets the flag of the step with an offset, if it has one. Flag number i is that of the step with the offset `from + i`.
#[inline(always)]
pub fn flag_step(offset: u32, from: u32, flags: &mut [bool])
    ensures { IsFlagged (λ i. offset == from + i) flags.old flags.new }
{
    if offset < from {
        return;
    }
    let place = (offset - from) as usize;
    if place < flags.len() {
        flags[place] = true;
    }
}
