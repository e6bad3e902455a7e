//! What stood in cells before events set them.

ghost use Rattle.std.specs.Prelude.{◌≡◌, ℕ, ◌&&◌, ◌==◌, ◌++◌, ◌∷◌, [], cond, not, filter, IfOk, OnOk, Some, None, true, option_map};
ghost use Rattle.sv8_model.specs.Cells as model;
ghost use Rattle.sv8_model.specs.Cells.{same_cell};
ghost use Rattle.sv8_notes.specs.Cells.{cell_of, content_of};
ghost use Rattle.sv8_notes.specs.Kept.{is_kept_of, kept_in};
ghost use Rattle.sv8_notes.specs.Touched.{is_touched};

use crate::cell::{Cell, Content};
use crate::step_notes::touches_cell;
use std::alloc::{AllocError, Global};
use std::marker::Model;
use sv8_phys::Touch;

/// What stood in a cell before the event of a step that set it, the step being named by its offset: the number of steps
/// since the checkpoint.
#[derive(Clone, Copy)]
pub struct Kept {
    pub offset: u32,
    pub cell: Cell,
    pub content: Content,
}

impl Kept {
    /// Whether it is that of a step and a cell.
    fn is_of(&self, offset: u32, cell: Cell) -> bool
        ensures { result ≡ is_kept_of offset (cell_of cell) self.now }
    {
        self.offset == offset && self.cell.is_same(cell)
    }
}

/// The kept values of an interval, at most one for each step and cell.
pub struct KeptList {
    values: Vec<Kept>,
}

// Written out, so that crates above prove no drop of its parts.
impl Drop for KeptList {
    fn drop(self) {
        let KeptList { values: _ } = self;
    }
}

impl Model for KeptList {
    ghost use Rattle.std.specs.Prelude.{List};
    ghost use Rattle.sv8_notes.specs.declared.kept.Kept.{Kept};

    ghost Value = { List Kept };

    ghost view = { λ l. l.values.items };
}

impl KeptList {
    /// No values.
    pub fn new(alloc: Global) -> KeptList
        ensures { result ≡ [] }
    {
        KeptList {
            values: Vec::new(alloc),
        }
    }

    /// Lets all values go; the memory stays.
    pub fn clear(&mut self)
        ensures { self.new ≡ [] }
    {
        self.values.clear();
    }

    /// The same values once more.
    ///
    /// # Errors
    ///
    /// `AllocError` where memory for them cannot be had.
    pub fn copy(&self) -> Result<KeptList, AllocError>
        ensures { IfOk result (λ l. l ≡ self.now) }
    {
        let values = self.values.clone()?;
        Ok(KeptList { values })
    }

    /// Whether there are none.
    fn is_empty(&self) -> bool
        ensures { result ≡ true → self.now ≡ [] }
    {
        self.values.is_empty()
    }

    /// The value that is kept of a cell at a step, if any is.
    pub fn find(&self, offset: u32, cell: Cell) -> Option<Content>
        ensures { option_map content_of result ≡ kept_in offset (cell_of cell) self.now }
    {
        for kept in &self.values {
            if kept.is_of(offset, cell) {
                return Some(kept.content);
            }
        }
        None
    }

    /// Keeps one value more.
    ///
    /// # Errors
    ///
    /// `AllocError` where memory for it cannot be had.
    pub fn push(&mut self, offset: u32, cell: Cell, content: Content) -> Result<(), AllocError>
        ensures { OnOk result (self.new ≡ self.old ++ record { offset = offset; cell = cell; content = content } ∷ []) }
    {
        self.values.push(Kept {
            offset,
            cell,
            content,
        })?;
        Ok(())
    }

    /// Lets the values go of cells that are touched. Mostly there are none.
    #[inline(always)]
    pub fn forget(&mut self, touches: &[Touch])
        ensures { self.new ≡ filter (λ k. not (is_touched touches.now (cell_of k.cell))) self.old }
    {
        if !self.is_empty() {
            self.drop_touched(touches);
        }
    }

    /// Looks at each value, and lets those go of cells that are touched.
    #[inline(never)]
    fn drop_touched(&mut self, touches: &[Touch])
        ensures { self.new ≡ filter (λ k. not (is_touched touches.now (cell_of k.cell))) self.old }
    {
        self.values.retain(|kept| !touches_cell(touches, kept.cell));
    }

    /// Lets the value of a cell at a step go.
    fn drop_value(&mut self, offset: u32, cell: Cell)
        ensures { self.new ≡ filter (λ k. not (is_kept_of offset (cell_of cell) k)) self.old }
    {
        self.values.retain(|kept| !kept.is_of(offset, cell));
    }

    /// Keeps nothing of a cell at a step.
    pub fn remove(&mut self, offset: u32, cell: Cell)
        ensures { (j : ℕ) (c : model.Cell) → kept_in j c self.new ≡ cond (j == offset && same_cell (cell_of cell) c) None (kept_in j c self.old) }
    {
        self.drop_value(offset, cell);
    }

    /// Keeps a value of a cell at a step, in the place of one that is kept.
    ///
    /// # Errors
    ///
    /// `AllocError` where memory for it cannot be had; the list is then without any value of the cell at the step.
    pub fn insert(&mut self, offset: u32, cell: Cell, content: Content) -> Result<(), AllocError>
        ensures { OnOk result ((j : ℕ) (c : model.Cell) → kept_in j c self.new ≡ cond (j == offset && same_cell (cell_of cell) c) (Some (content_of content)) (kept_in j c self.old)) }
    {
        self.drop_value(offset, cell);
        self.push(offset, cell, content)?;
        Ok(())
    }
}
