//! The rows of a map before and after changes.
ghost use Rattle.std.specs.Prelude.{◌≡◌, ◌<◌, ◌≤◌, ◌-◌, IfOk, length, map, true, HoldsAt, option_copied};
ghost use Rattle.osm_refs.specs.Prelude.{IsBinarySearchResult, IsSearchInRange, Less, Greater};
ghost use Rattle.osm_changes.specs.Cells.{cell_cmp, IsRising};
ghost use Rattle.osm_changes.specs.Changes.{cell_of, changed, changed_cells, changed_names, changed_row, changed_rows, half_after};
ghost use Rattle.osm_changes.specs.Halves.{half};

use crate::cell::Cell;
use crate::change::Change;
use crate::changed_row::ChangedRow;
use crate::half::{self, Half};
use crate::halving::{half_of, row_of};
use crate::lookup::Lookup;
use crate::part::Part;
use osm_elements::Memory;
use osm_elements::element::{Element, copy_of};
use osm_elements::name::Name;
use std::alloc::Allocator;
use std::cmp::Ordering;

/// Returns the changed names in order, each with its row in the map before and after the changes. It copies these rows,
/// looks up each of them in the map, and goes once over the changes.
///
/// # Errors
///
/// `Memory`, if an allocation fails.
pub fn changed_rows<A: Allocator + Clone, R: Lookup<A>>(
    alloc: A,
    rows: &R,
    changes: &[Change<A>],
) -> Result<Vec<ChangedRow<A>, A>, Memory>
    requires { IsRising (changed_cells changes.now) }
    ensures { IfOk result (λ entered. entered.items ≡ changed_rows (R.rows rows.now) changes.now) }
{
    let names = changed_names(alloc.clone()?, changes)?;
    rows_of(alloc, rows, changes, &names)
}

// Returns the changed names, each once.
fn changed_names<A: Allocator>(alloc: A, changes: &[Change<A>]) -> Result<Vec<Name, A>, Memory>
    requires { IsRising (changed_cells changes.now) }
    ensures { IfOk result (λ names. names.items ≡ changed_names changes.now) }
{
    let mut names = Vec::with_capacity(alloc, changes.len())?;
    for change in changes {
        names.push(change.name)?;
    }
    names.dedup();
    Ok(names)
}

// Returns the names, each with its row before and after the changes. The changes of each name are looked for first
// behind those of the name before it.
fn rows_of<A: Allocator + Clone, R: Lookup<A>>(
    alloc: A,
    rows: &R,
    changes: &[Change<A>],
    names: &[Name],
) -> Result<Vec<ChangedRow<A>, A>, Memory>
    requires { IsRising (changed_cells changes.now) }
    ensures { IfOk result (λ entered. entered.items
        ≡ map (changed_row (R.rows rows.now) (changed (R.rows rows.now) changes.now)) names.now) }
{
    let mut entered = Vec::with_capacity(alloc, names.len())?;
    let mut next = 0;
    for name in names {
        entered.push(row_of_name(rows, changes, name, &mut next)?)?;
    }
    Ok(entered)
}

// Returns a name with its row before and after the changes. `next` is where its changes are likely to be, and becomes
// the place behind them.
fn row_of_name<A: Allocator + Clone, R: Lookup<A>>(
    rows: &R,
    changes: &[Change<A>],
    name: &Name,
    next: &mut usize,
) -> Result<ChangedRow<A>, Memory>
    requires { IsRising (changed_cells changes.now) }
    ensures { IfOk result
        (λ entered. entered ≡ changed_row (R.rows rows.now) (changed (R.rows rows.now) changes.now) name.now) }
{
    let row = rows.element(name);
    let name = *name;
    let tags = half_after(changes, Cell::of(name, Part::Tags), row, next)?;
    let rest = half_after(changes, Cell::of(name, Part::Rest), row, next)?;
    Ok(ChangedRow {
        name,
        before: copy_of(row)?,
        after: row_of(tags, rest),
    })
}

// Returns a copy of a cell's half after the changes, given the row before. `next` is where the change of the cell is
// likely to be, and becomes the place behind it.
fn half_after<A: Allocator + Clone>(
    changes: &[Change<A>],
    cell: Cell,
    row: Option<&Element<A>>,
    next: &mut usize,
) -> Result<Option<Half<A>>, Memory>
    requires { IsRising (changed_cells changes.now) }
    ensures { IfOk result (λ h. h ≡ half_after changes.now cell (half cell.part (option_copied row.entry))) }
{
    match search(changes, *next, &cell) {
        Ok(place) => {
            *next = place + 1;
            half::copy_of(&changes[place].after)
        }
        Err(place) => {
            *next = place;
            half_of(cell.part(), row)
        }
    }
}

// Returns where the change of a cell is, or otherwise where it would be. It looks at the likely place first.
fn search<A: Allocator>(changes: &[Change<A>], likely: usize, cell: &Cell) -> Result<usize, usize>
    ensures bound { IsSearchInRange result (length changes.now) }
    ensures position { IsBinarySearchResult (λ c. cell_cmp (cell_of c) cell.now) changes.now result }
{
    if is_past(changes, likely, cell) {
        match order_at(changes, likely, cell) {
            Ordering::Less => {}
            Ordering::Equal => return Ok(likely),
            Ordering::Greater => return Err(likely),
        }
    }
    changes.binary_search_by(|change| change.cell().cmp(cell))
}

// Returns whether the last change before a place is before a cell, or there is none.
fn is_past<A: Allocator>(changes: &[Change<A>], place: usize, cell: &Cell) -> bool
    ensures { result ≡ true → (place ≤ length changes.now)
        × (0 < place → HoldsAt (λ c. cell_cmp (cell_of c) cell.now ≡ Less) changes.now (place - 1)) }
{
    if place == 0 {
        return true;
    }
    match changes.get(place - 1) {
        Some(change) => change.cell().cmp(cell).is_lt(),
        None => false,
    }
}

// Returns how the change at a place compares with a cell. The end of the changes is greater than any cell.
fn order_at<A: Allocator>(changes: &[Change<A>], place: usize, cell: &Cell) -> Ordering
    ensures within { place < length changes.now
        → HoldsAt (λ c. cell_cmp (cell_of c) cell.now ≡ result) changes.now place }
    ensures end { length changes.now ≤ place → result ≡ Greater }
{
    match changes.get(place) {
        Some(change) => change.cell().cmp(cell),
        None => Ordering::Greater,
    }
}
