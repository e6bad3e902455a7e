//! What an edit affects of the recorded run, prepared and done.

ghost use Rattle.std.specs.Prelude.{Option, IfOk};
ghost use Rattle.sv8_edits.specs.Affected.{change_of, AreOfMachine};
ghost use Rattle.sv8_bench.specs.Edits.{Fits, IsReadyFor, IsCommitted};

use std::alloc::{AllocError, Global};
use sv8_edits::Affected;
use sv8_trace::{Prepared, Trace};

/// Builds what a change makes of the recorded run. Input that stands already makes nothing of it.
pub(crate) fn prepare<const NW: usize, const PAGES: usize, const K: u32>(
    alloc: Global,
    trace: &Trace<NW, PAGES, K>,
    affected: &Affected,
) -> Result<Option<Prepared>, AllocError>
    requires of_machine { AreOfMachine PAGES affected.now }
    ensures fits { IfOk result (λ p. Fits PAGES trace.now p) }
    ensures ready { IfOk result (λ p. IsReadyFor NW PAGES K (change_of NW PAGES affected.now) trace.now p) }
{
    match affected {
        Affected::Cells(patches) => {
            let prepared = trace.prepare_edit(alloc, patches.as_slice())?;
            Ok(Some(prepared))
        }
        Affected::Input(Some(step)) => {
            let prepared = trace.prepare_input(alloc, *step)?;
            Ok(Some(prepared))
        }
        Affected::Input(None) => Ok(None),
    }
}

/// Puts what was built into the recorded run.
pub(crate) fn commit<const NW: usize, const PAGES: usize, const K: u32>(
    trace: &mut Trace<NW, PAGES, K>,
    prepared: Option<Prepared>,
)
    requires { Fits PAGES trace.old prepared }
    ensures { IsCommitted NW PAGES K prepared trace.old trace.new }
{
    if let Some(prepared) = prepared {
        trace.commit(prepared);
    }
}
