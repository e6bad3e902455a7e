//! The machine after reset.

ghost use Rattle.std.specs.Prelude.{◌≡◌, ◌≤◌, IfOk};
ghost use Rattle.sv8_reset.specs.Reset.{reset_state};

use crate::loading::load;
use std::alloc::{AllocError, Global};
use sv8_cpu::Machine;
use sv8_phys::Phys;
use sv8_source::Source;

/// The machine after reset (chapter 7), with the image of a source in its RAM over zeros: PC 0, nPC 4, S = 1 and ET = 0, and every
/// other register 0. RAM shares pages of zeros where no line places a byte.
///
/// # Errors
///
/// `AllocError` where memory for the state cannot be had.
#[tactic(auto, unfolding(crate::specs::Reset::reset_state))]
pub fn reset<const NW: usize, const PAGES: usize>(
    alloc: Global,
    source: &Source,
) -> Result<Machine<NW, PAGES>, AllocError>
    requires some_windows { 2 ≤ NW }
    requires few_windows { NW ≤ 32 }
    requires few_pages { PAGES ≤ 65536 }
    ensures { IfOk result (λ m. m ≡ reset_state NW PAGES source.now) }
{
    let mut phys = Phys::new(alloc)?;
    load(&mut phys, source)?;
    Machine::new(alloc, phys)
}
