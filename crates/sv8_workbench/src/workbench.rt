//! What answers to commands ask of a workbench.

ghost use Rattle.std.specs.Prelude.{◌≡◌, ◌+◌, ◌*◌, ◌≤◌, length, None, Some, IfOk, IfErr, OnOk, OnErr, option_map};
ghost use Rattle.sv8_model.specs.Refused.{ByFault, IsRefused};
ghost use Rattle.sv8_source.specs.Text.{texts};
ghost use Rattle.sv8_source.specs.Listing.{listing, numbered};
ghost use Rattle.sv8_source.specs.View.{shown_of};
ghost use Rattle.sv8_time.specs.Edits.{timeline_fault, with_edit};
ghost use Rattle.sv8_workbench.specs.declared.fault.BenchFault.TheVariants.{Time};
ghost use Rattle.sv8_workbench.specs.Faults.{edit_refusal, step_refusal, words_refusal};
ghost use Rattle.sv8_workbench.specs.Kept.{edited, with_timeline};
ghost use Rattle.sv8_workbench.specs.Shown.{shown_at, words_shown, output_shown};

use crate::fault::BenchFault;
use crate::shown::Shown;
use sv8_model::Refused;
use sv8_source::Listed;
use sv8_time::TimelineEdit;

/// A workbench, by what it keeps: a source and a timeline. Whatever else it has, to answer sooner, shows in no answer.
pub trait Workbench {
    ghost use Rattle.std.specs.Prelude.{◌≡◌};
    ghost use Rattle.sv8_workbench.specs.Kept.{Kept};

    // What it keeps.
    ghost kept: { Self → Kept };

    // What each call says besides of the workbench before it and after it.
    ghost Alike: { Self → Self → Type 0 };

    /// Replaces lines `first` to `last` of the source by others. `last` one less than `first` replaces none.
    ///
    /// # Errors
    ///
    /// `edit_refusal` says which, else `OutOfMemory`. What is kept is then as it was.
    fn replace_lines(
        &mut self,
        first: u32,
        last: u32,
        lines: &[Vec<u8>],
    ) -> Result<(), Refused<BenchFault>>
        ensures accepted { OnOk result (edit_refusal first last (texts lines.now) (kept self.old) ≡ None) }
        ensures edited { OnOk result (kept self.new ≡ edited first last (texts lines.now) (kept self.old)) }
        ensures refused { IfErr result (ByFault (λ e. edit_refusal first last (texts lines.now) (kept self.old) ≡ Some e)) }
        ensures unchanged { OnErr result (kept self.new ≡ kept self.old) }
        ensures alike { Alike self.old self.new };

    /// Makes an edit of the timeline.
    ///
    /// # Errors
    ///
    /// `timeline_fault` says which, else `OutOfMemory`. What is kept is then as it was.
    fn edit(&mut self, edit: &TimelineEdit<'_>) -> Result<(), Refused<BenchFault>>
        ensures accepted { OnOk result (timeline_fault edit.now (kept self.old).timeline ≡ None) }
        ensures edited { OnOk result (kept self.new ≡ with_timeline (with_edit edit.now (kept self.old).timeline) (kept self.old)) }
        ensures refused { IfErr result (IsRefused (option_map Time (timeline_fault edit.now (kept self.old).timeline))) }
        ensures unchanged { OnErr result (kept self.new ≡ kept self.old) }
        ensures alike { Alike self.old self.new };

    /// What is shown of the machine at a step.
    ///
    /// # Errors
    ///
    /// `StepTooLarge` for a step above 1,000,000, else `OutOfMemory`.
    fn regs_at(&mut self, step: u32) -> Result<Shown, Refused<BenchFault>>
        ensures shown { IfOk result (λ s. s ≡ shown_at (kept self.old) step) }
        ensures within { OnOk result (step_refusal step ≡ None) }
        ensures refused { IfErr result (IsRefused (step_refusal step)) }
        ensures kept { kept self.new ≡ kept self.old };

    /// So many words of RAM from an address on, as the machine has them at a step.
    ///
    /// # Errors
    ///
    /// `StepTooLarge` for a step above 1,000,000, `BadAddress` where the words are no words of RAM, else `OutOfMemory`.
    fn words_at(
        &mut self,
        step: u32,
        address: u32,
        count: u32,
    ) -> Result<Vec<u32>, Refused<BenchFault>>
        ensures shown { IfOk result (λ v. v.items ≡ words_shown (kept self.old) step address count) }
        ensures inside { IfOk result (λ v. address + 4 * length v.items ≤ 0x1_0000_0000) }
        ensures within { OnOk result (words_refusal step address count (kept self.old) ≡ None) }
        ensures refused { IfErr result (IsRefused (words_refusal step address count (kept self.old))) }
        ensures kept { kept self.new ≡ kept self.old };

    /// The bytes put out at the console by the steps below a step.
    ///
    /// # Errors
    ///
    /// `StepTooLarge` for a step above 1,000,000, else `OutOfMemory`.
    fn output_at(&mut self, step: u32) -> Result<Vec<u8>, Refused<BenchFault>>
        ensures shown { IfOk result (λ v. v.items ≡ output_shown (kept self.old) step) }
        ensures within { OnOk result (step_refusal step ≡ None) }
        ensures refused { IfErr result (IsRefused (step_refusal step)) }
        ensures kept { kept self.new ≡ kept self.old };

    /// How many lines the source has.
    fn line_count(&self) -> usize
        ensures listed { result ≡ length (listing (kept self.now).source) }
        ensures few { result ≤ 65536 };

    /// A line of the listing by its number, from 1 on; `None` where there is no line of that number.
    fn listing(&self, number: usize) -> Option<Listed<'_>>
        ensures { option_map shown_of result ≡ numbered (listing (kept self.now).source) number };

    // Where what is kept stays, so does that.
    ghost kept_alike: { (old new : Self) → kept new ≡ kept old → Alike old new };
}
