//! Translation whose faults are whole.

ghost use Rattle.std.specs.Prelude.{◌≡◌, ℕ, List, [], true, IfOk, OnErr};
ghost use Rattle.sv8_model.specs.Does.{Does};
ghost use Rattle.sv8_mmu.specs.Answers.{answer_of, answered_translation, translation_grows};
ghost use Rattle.sv8_mmu.specs.Kept.{AllStand, IsAnswer};

use crate::buffer::Buffer;
use crate::registers::{Fault, Mmu};
use crate::translation::{Translated, VirtualAccess, resolve};
use std::alloc::AllocError;
use sv8_model::{TableMemory, Touches};

/// What a translation leads to, with its whole fault.
#[inline(always)]
fn answer_of(access: VirtualAccess, translated: Translated) -> Result<u64, Fault>
    ensures { result ≡ answer_of access.address access.access_type translated }
{
    match translated {
        Translated::At(pa) => Ok(pa),
        Translated::Refused { kind, level } => Err(Fault {
            level,
            access_type: access.access_type,
            fault_type: kind,
            address: access.address,
        }),
    }
}

/// Translates the address of an access: a physical address of 36 bits, or the fault, which is not recorded yet. The marks that
/// the access leaves in the entry of its page are made.
///
/// What the buffer keeps never shows: neither in the answer, nor in RAM, nor in the notes. It keeps the walk of a page, where
/// there is memory for it; where there is none, the translation answers all the same.
///
/// # Errors
///
/// `AllocError` where memory for a note, or for a page of RAM that is shared and whose entry is marked, cannot be had; memory is
/// then as it was.
pub fn translate<R: TableMemory, T: Touches>(
    registers: &Mmu,
    buffer: &mut Buffer,
    phys: &mut R,
    access: VirtualAccess,
    notes: &mut T,
) -> Result<Result<u64, Fault>, AllocError>
    requires stand { AllStand R.SIZE (R.ram phys.old) registers.now.table_pointer buffer.old }
    ensures ok { IfOk result (λ r. (bytes : List ℕ) → Does T.NOTING (answered_translation R.SIZE registers.now access.address access.access_type access.reach)
        (record (R.outside bytes phys.old) { ram = R.ram phys.old }) (record (R.outside bytes phys.new) { ram = R.ram phys.new }) r (T.noted notes.old) (T.noted notes.new)) }
    ensures answer { IfOk result (λ r. IsAnswer access.address access.access_type r) }
    ensures others { phys.new ≡ R.with_ram (R.ram phys.new) phys.old }
    ensures err { OnErr result (phys.new ≡ phys.old) }
    ensures growth { OnErr result (translation_grows T.KEEPS R.SIZE registers.now access.address access.access_type access.reach (record (R.outside [] phys.old) { ram = R.ram phys.old }) ≡ true) }
    ensures stand { AllStand R.SIZE (R.ram phys.new) registers.now.table_pointer buffer.new }
{
    let translated = resolve(registers, buffer, phys, access, notes)?;
    Ok(answer_of(access, translated))
}
