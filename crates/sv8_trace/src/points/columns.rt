//! Places for columns, one for each page or level, most of which are empty.

ghost use Rattle.std.specs.Prelude.{◌≡◌, length, map, take, option_map, IfOk};
ghost use Rattle.sv8_trace.specs.Columns.{put_over, ArePut};

use std::alloc::{AllocError, Global};
use sv8_notes::{LevelColumn, PageColumn};

/// Puts a column in the place of another, if there is one.
fn put<T: Drop>(place: &mut Option<T>, column: Option<T>)
    ensures { place.new ≡ put_over column place.old }
{
    if let Some(changed) = column {
        *place = Some(changed);
    }
}

/// Puts the columns that there are in their places.
pub(crate) fn put_all<T: Drop>(places: &mut Vec<Option<T>>, columns: Vec<Option<T>>)
    requires length { length columns.items ≡ length places.old.items }
    ensures length { length places.new.items ≡ length places.old.items }
    ensures put { ArePut columns.items places.old.items places.new.items }
{
    let mut index = 0;
    for column in columns {
        put(&mut places[index], column);
        index += 1;
    }
}

/// What has a part of each checkpoint, from that of step 0 on.
pub(crate) trait Column: Drop {
    ghost use Rattle.std.specs.Prelude.{◌≡◌, ℕ, IfOk};

    ghost cut: { ℕ → Self → Self };

    /// Leaves the first checkpoints.
    fn cut(&mut self, count: usize)
        ensures { self.new ≡ cut count self.old };

    /// The same once more, which shares what can be shared.
    fn twin(&self, alloc: Global) -> Result<Self, AllocError>
        ensures { IfOk result (λ c. c ≡ self.now) };
}

impl Column for PageColumn {
    ghost cut = { take };

    fn cut(&mut self, count: usize) {
        self.truncate(count);
    }

    fn twin(&self, alloc: Global) -> Result<Self, AllocError> {
        self.copy(alloc)
    }
}

impl Column for LevelColumn {
    ghost cut = { take };

    fn cut(&mut self, count: usize) {
        self.truncate(count);
    }

    fn twin(&self, _alloc: Global) -> Result<Self, AllocError> {
        self.copy()
    }
}

/// Leaves the first checkpoints in a column, if there is one.
fn cut<C: Column>(place: &mut Option<C>, count: usize)
    ensures { place.new ≡ option_map (C.cut count) place.old }
{
    if let Some(column) = place {
        column.cut(count);
    }
}

/// Leaves the first checkpoints in each column.
pub(crate) fn cut_all<C: Column>(places: &mut Vec<Option<C>>, count: usize)
    ensures { places.new.items ≡ map (option_map (C.cut count)) places.old.items }
{
    for index in 0..places.len() {
        cut(&mut places[index], count);
    }
}

/// A column once more, if there is one.
fn copy<C: Column>(alloc: Global, place: &Option<C>) -> Result<Option<C>, AllocError>
    ensures { IfOk result (λ o. o ≡ place.now) }
{
    match place {
        None => Ok(None),
        Some(column) => {
            let twin = column.twin(alloc)?;
            Ok(Some(twin))
        }
    }
}

/// The same columns once more.
pub(crate) fn copy_all<C: Column>(
    alloc: Global,
    places: &[Option<C>],
) -> Result<Vec<Option<C>>, AllocError>
    ensures { IfOk result (λ v. v.items ≡ places.now) }
{
    let mut copies = Vec::with_capacity(alloc, places.len())?;
    for place in places {
        copies.push(copy(alloc, place)?)?;
    }
    Ok(copies)
}
