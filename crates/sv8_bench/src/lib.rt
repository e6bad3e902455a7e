//! The workbench: the source of a SPARC V8 program, which may be edited, and the machine that runs it at any step.
#![tactic(auto)]

mod bench;

pub use bench::{Bench, LAST_STEP};
pub use sv8_cpu::Mmu;
pub use sv8_phys::Timer;
pub use sv8_source::{DefinedName, Listed, NameKind};
pub use sv8_workbench::{BAD_ADDRESS, BenchFault, NO_SUCH_LINE, STEP_TOO_LARGE, Shown};
