//! A change of a trace that is built and not yet placed.

ghost use Rattle.std.specs.Prelude.{◌≡◌, IfOk};

use std::alloc::{AllocError, Global};
use std::marker::Model;
use sv8_notes::{KeptList, LevelColumn, PageColumn, PageRuns};

/// The changed parts of a trace that is to have `count` checkpoints above that of step 0.
#[derive(Drop)]
pub(crate) struct Staged {
    pub count: usize,
    /// The pages that change, by their number.
    pub pages: Vec<Option<PageRuns>>,
    /// The interrupt levels that change, by level.
    pub levels: Vec<Option<LevelColumn>>,
    /// The lists of kept values that change, by interval.
    pub kept: Vec<Option<KeptList>>,
}

/// The page of each checkpoint by itself, where it changes.
fn expanded(
    alloc: Global,
    runs: Option<PageRuns>,
    count: usize,
) -> Result<Option<PageColumn>, AllocError>
    ensures { IfOk result (λ c. c ≡ runs) }
{
    match runs {
        None => Ok(None),
        Some(pages) => {
            let column = pages.into_column(alloc, count)?;
            Ok(Some(column))
        }
    }
}

impl Staged {
    /// The same, with a page of its own for each checkpoint, so that it takes no memory to place it.
    ///
    /// # Errors
    ///
    /// `AllocError` where memory for the pages cannot be had.
    pub(crate) fn finish(self, alloc: Global) -> Result<Prepared, AllocError>
        ensures pages { IfOk result (λ p. p.pages.items ≡ self.pages.items) }
        ensures rest { IfOk result (λ p. p ≡ record self { pages = p.pages }) }
    {
        let Staged {
            count,
            pages,
            levels,
            kept,
        } = self;
        let points = count.saturating_add(1);
        let mut columns = Vec::with_capacity(alloc, pages.len())?;
        for runs in pages {
            columns.push(expanded(alloc, runs, points)?)?;
        }
        Ok(Prepared {
            count,
            pages: columns,
            levels,
            kept,
        })
    }
}

/// A change of a trace, built so that it takes no memory to place it (`Trace::commit`): the changed parts of a trace that is to have
/// `count` checkpoints above that of step 0.
#[derive(Drop)]
pub struct Prepared {
    pub(crate) count: usize,
    /// The pages that change, by their number.
    pub(crate) pages: Vec<Option<PageColumn>>,
    /// The interrupt levels that change, by level.
    pub(crate) levels: Vec<Option<LevelColumn>>,
    /// The lists of kept values that change, by interval.
    pub(crate) kept: Vec<Option<KeptList>>,
}

impl Model for Prepared {
    ghost use Rattle.sv8_trace.specs.declared.prepared.Staged.{Staged};

    ghost Value = { Staged };

    ghost view = { λ p. record { count = p.count; pages = p.pages; levels = p.levels; kept = p.kept } };
}
