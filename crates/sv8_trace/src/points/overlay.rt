//! What is seen of a machine once columns of changed pages and levels are in their places.

ghost use Rattle.std.specs.Prelude.{◌≡◌, ◌<◌, ◌≤◌, ◌/◌, ◌%◌, ◌∷◌, [], length, slice_index_or, false, unwrap_or, option_map, IfOk, OnOk};
ghost use Rattle.sv8_phys.specs.Memory.{ram_size, page_of};
ghost use Rattle.sv8_trace.specs.Columns.{item, pages_from, levels_from};

use std::alloc::AllocError;
use sv8_cpu::Machine;
use sv8_model::Level;
use sv8_notes::{LevelColumn, PageColumn, level_numbered};
use sv8_phys::Page;

/// The page of an address, shared, where a column may stand in its place.
pub(crate) fn page_under<const NW: usize, const PAGES: usize>(
    column: &Option<PageColumn>,
    index: usize,
    taken: &Machine<NW, PAGES>,
    address: u32,
) -> Result<Page, AllocError>
    requires few_windows { NW ≤ 32 }
    requires address { address < ram_size PAGES }
    ensures { IfOk result (λ p. p ≡ unwrap_or (item index column.now) (page_of taken.now.memory.ram (address / 4096))) }
{
    match column {
        Some(pages) if index < pages.len() => pages.share(index),
        _ => taken.page(address),
    }
}

/// A byte of RAM, where a column may stand in the place of its page.
pub(crate) fn byte_under<const NW: usize, const PAGES: usize>(
    column: &Option<PageColumn>,
    index: usize,
    taken: &Machine<NW, PAGES>,
    address: u32,
) -> u8
    requires few_windows { NW ≤ 32 }
    requires address { address < ram_size PAGES }
    ensures { result ≡ unwrap_or (option_map (λ page. slice_index_or page (address % 4096) 0) (item index column.now)) (slice_index_or taken.now.memory.ram address 0) }
{
    match column {
        Some(pages) if index < pages.len() => pages.byte(index, address),
        _ => taken.byte(address),
    }
}

/// Whether a level is pending, where a column may stand in its place.
pub(crate) fn level_under<const NW: usize, const PAGES: usize>(
    column: &Option<LevelColumn>,
    index: usize,
    taken: &Machine<NW, PAGES>,
    level: Level,
) -> bool
    requires { NW ≤ 32 }
    ensures { result ≡ unwrap_or (item index column.now) (slice_index_or taken.now.memory.pending level false) }
{
    match column {
        Some(levels) if index < levels.len() => levels.is_pending(index),
        _ => taken.is_pending(level),
    }
}

/// Puts the page that a column has in its place, if there is one.
fn put_page<const NW: usize, const PAGES: usize>(
    machine: &mut Machine<NW, PAGES>,
    page: usize,
    column: &Option<PageColumn>,
    index: usize,
) -> Result<(), AllocError>
    requires few_windows { NW ≤ 32 }
    requires few_pages { PAGES ≤ 65536 }
    requires page { page < PAGES }
    ensures { OnOk result (machine.new ≡ pages_from page (column.now ∷ []) index machine.old) }
{
    match column {
        Some(pages) if index < pages.len() => {
            machine.put_page(4096 * page as u32, pages.share(index)?)
        }
        _ => Ok(()),
    }
}

/// Puts the pages of a checkpoint that were changed in their places.
pub(crate) fn put_pages<const NW: usize, const PAGES: usize>(
    machine: &mut Machine<NW, PAGES>,
    columns: &[Option<PageColumn>],
    index: usize,
) -> Result<(), AllocError>
    requires few_windows { NW ≤ 32 }
    requires few_pages { PAGES ≤ 65536 }
    requires columns { length columns.now ≡ PAGES }
    ensures { OnOk result (machine.new ≡ pages_from 0 columns.now index machine.old) }
{
    let mut page = 0;
    let mut rest = columns;
    while let [column, after @ ..] = rest {
        put_page(machine, page, column, index)?;
        page += 1;
        rest = after;
    }
    Ok(())
}

/// Puts the level that a column has in its place, if there is one.
fn put_level<const NW: usize, const PAGES: usize>(
    machine: &mut Machine<NW, PAGES>,
    level: u32,
    column: &Option<LevelColumn>,
    index: usize,
)
    requires few_windows { NW ≤ 32 }
    requires some_level { 1 ≤ level }
    requires level { level ≤ 15 }
    ensures { machine.new ≡ levels_from level (column.now ∷ []) index machine.old }
{
    match column {
        Some(levels) if index < levels.len() => {
            machine.set_pending(level_numbered(level), levels.is_pending(index));
        }
        _ => {}
    }
}

/// Puts the levels of a checkpoint that were changed in their places. The first column is that of level 1.
pub(crate) fn put_levels<const NW: usize, const PAGES: usize>(
    machine: &mut Machine<NW, PAGES>,
    columns: &[Option<LevelColumn>],
    index: usize,
)
    requires few_windows { NW ≤ 32 }
    requires columns { length columns.now ≡ 15 }
    ensures { machine.new ≡ levels_from 1 columns.now index machine.old }
{
    let mut level = 1;
    let mut rest = columns;
    while let [column, after @ ..] = rest {
        put_level(machine, level, column, index);
        level += 1;
        rest = after;
    }
}
