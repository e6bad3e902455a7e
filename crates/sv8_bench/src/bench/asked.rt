//! The workbench as the answers to commands ask it.

use crate::bench::Bench;
use sv8_model::Refused;
use sv8_source::Listed;
use sv8_time::TimelineEdit;
use sv8_workbench::{BenchFault, Shown, Workbench};

impl<const NW: usize, const PAGES: usize, const K: u32> Workbench for Bench<NW, PAGES, K> {
    ghost use Rattle.std.proofs.Common.{ap, sym};
    ghost use Rattle.sv8_workbench.specs.Kept.{Kept};
    ghost use Rattle.sv8_workbench.specs.Shown.{machine_state};
    ghost use Rattle.sv8_bench.specs.Alike.{StaysAlike};

    ghost kept = { λ bench. bench.kept };

    ghost Alike = { λ old new. StaysAlike K old new };

    ghost kept_alike = { λ old new same. record {
      processors = λ n below. record {
        processor = ap (λ (k : Kept). (machine_state k n).processor) (sym same);
        mmu = ap (λ (k : Kept). (machine_state k n).mmu) (sym same);
      };
    } };

    fn replace_lines(
        &mut self,
        first: u32,
        last: u32,
        lines: &[Vec<u8>],
    ) -> Result<(), Refused<BenchFault>> {
        self.replace_lines(first, last, lines)
    }

    fn edit(&mut self, edit: &TimelineEdit<'_>) -> Result<(), Refused<BenchFault>> {
        self.edit(edit)
    }

    fn regs_at(&mut self, step: u32) -> Result<Shown, Refused<BenchFault>> {
        self.regs_at(step)
    }

    fn words_at(
        &mut self,
        step: u32,
        address: u32,
        count: u32,
    ) -> Result<Vec<u32>, Refused<BenchFault>> {
        self.words_at(step, address, count)
    }

    fn output_at(&mut self, step: u32) -> Result<Vec<u8>, Refused<BenchFault>> {
        self.output_at(step)
    }

    fn line_count(&self) -> usize {
        self.line_count()
    }

    fn listing(&self, number: usize) -> Option<Listed<'_>> {
        self.listing(number)
    }
}
