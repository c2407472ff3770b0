//! Finds the touches of an action.
ghost use Rattle.std.specs.Prelude.{◌≡◌, ◌++◌, [], ◌∷◌, not, map, filter, IfOk, OnOk, find, flat_map, slice_get, option_copied, option_to_list};
ghost use Rattle.edit_actions.specs.Prelude.{names_but, tags_at, rest_at, both_at, is_same_cell, cell_of, changed_cells};
ghost use Rattle.osm_changes.specs.Cells.{has};
ghost use Rattle.osm_refs.specs.Rising.{IsRising};
ghost use Rattle.edit_footprint.specs.Touches.{presence_read, presence_written, cell_read, cell_written};
ghost use Rattle.edit_footprint.specs.Footprints.{owned, subjects, touches_of, reads_at, changes_at, footprint_of, half_nodes, half_before, unglued_from};
ghost use Rattle.edit_footprint.specs.Inner.Touching.{IsInOrder, begun_or_ceased_once, all_begun_or_ceased, unchanged};

use crate::access::Access;
use crate::footprint::Footprint;
use crate::half_refs::{half_refs, may_refer};
use crate::touch::Touch;
use osm_changes::cell::Cell;
use osm_changes::change::Change;
use osm_changes::changes::Changes;
use osm_changes::half::Half;
use osm_changes::part::Part;
use osm_elements::Memory;
use osm_elements::name::Name;
use osm_refs::but::names_but;
use room_interface::action::Action;
use room_interface::each_action;
use std::alloc::Allocator;

// Returns the touches of the elements that an action owns, from the list of the actions: of those that it is about as a
// whole.
macro_rules! owns {
    (($action:expr, $alloc:expr, $more:expr) $($variant:ident $word:literal { $($field:ident: $how:ident from $source:ident $(by $name:ident)?),* } by $plan:ident about $part:ident $way:ident [$($subject:ident),*];)*) => {
        match $action {
            $(Action::$variant { $($subject,)* .. } => whole!($part $alloc, $more, $($subject),*),)*
        }
    };
}

// Returns the touches of names that are owned, as a list with capacity for `$more` touches.
macro_rules! whole {
    (both $alloc:expr, $more:expr, $($name:ident),*) => { list_of($alloc, &[$(written(*$name)),*], $more) };
    ($part:ident $alloc:expr, $more:expr, $($name:ident),*) => { Vec::with_capacity($alloc, $more) };
}

// Appends the touches of the subjects of an action, from the list of the actions: of what it is about in part.
macro_rules! reads {
    (($action:expr, $touches:expr, $rows:expr) $($variant:ident $word:literal { $($field:ident: $how:ident from $source:ident $(by $name:ident)?),* } by $plan:ident about $part:ident $way:ident [$($subject:ident),*];)*) => {
        match $action {
            $(Action::$variant { $($subject,)* .. } => part!($part $way $touches, $rows, $($subject),*),)*
        }
    };
}

// Appends the touches that read one part of names, as far as the part is unchanged.
macro_rules! part {
    (both names $touches:expr, $rows:expr, $($name:ident),*) => { Ok(()) };
    (tags names $touches:expr, $rows:expr, $name:ident) => { push_unchanged($touches, $rows, &Cell::of(*$name, Part::Tags)) };
    (rest names $touches:expr, $rows:expr, $name:ident) => { push_unchanged($touches, $rows, &rest_of($name)) };
    (rest each $touches:expr, $rows:expr, $names:ident) => { push_unchanged_rests($touches, $rows, $names.as_slice()) };
}

/// Returns the footprint of an action from the action and its changes.
///
/// It writes the presence of each element that the action owns, and each cell that the action changes. If an element
/// comes or goes, it writes its presence in place of its cells. It reads the action's subjects that are unchanged, both
/// cells of the node that an unglue takes from its way, and the presence of each name that a changed half begins or
/// ceases to refer to. Who reads or writes a cell reads the presence of its element. For changes that refer to `n`
/// elements, it takes time `n log n`.
///
/// # Errors
///
/// `Memory`, if an allocation fails.
pub fn footprint<A: Allocator + Clone>(
    alloc: A,
    action: &Action<A>,
    changes: &Changes<A>,
) -> Result<Footprint<A>, Memory>
    ensures { IfOk result (λ f. f ≡ footprint_of action.now changes.now) }
{
    let rows = changes.rows();
    let mut touches = owned(alloc.clone()?, action, rows.len().saturating_mul(2))?;
    push_changed(&mut touches, rows)?;
    push_all_begun_or_ceased(&alloc, &mut touches, rows)?;
    push_subjects(&mut touches, action, rows)?;
    push_unglued_from(&mut touches, action, rows)?;
    Footprint::of(touches)
}

// Returns the touches of the elements that an action owns, with capacity for `more` touches.
fn owned<A: Allocator>(alloc: A, action: &Action<A>, more: usize) -> Result<Vec<Touch, A>, Memory>
    ensures { IfOk result (λ touches. touches.items ≡ map presence_written (owned action.now)) }
{
    Ok(each_action!(owns(action, alloc, more))?)
}

// Returns the given touches as a list with capacity for `more` touches.
fn list_of<A: Allocator>(alloc: A, touches: &[Touch], more: usize) -> Result<Vec<Touch, A>, Memory>
    ensures { IfOk result (λ list. list.items ≡ touches.now) }
{
    let mut list = Vec::with_capacity(alloc, touches.len().saturating_add(more))?;
    list.extend_from_slice(touches)?;
    Ok(list)
}

fn written(name: Name) -> Touch
    ensures { result ≡ presence_written name }
{
    Touch::of(name, Access::WritesPresence)
}

fn read(name: Name) -> Touch
    ensures { result ≡ presence_read name }
{
    Touch::of(name, Access::ReadsPresence)
}

fn rest_of(name: &Name) -> Cell
    ensures { result ≡ rest_at name.now }
{
    Cell::of(*name, Part::Rest)
}

// Appends the touches of the changes.
fn push_changed<A: Allocator>(touches: &mut Vec<Touch, A>, rows: &[Change<A>]) -> Result<(), Memory>
    ensures { OnOk result (touches.new.items ≡ touches.old.items ++ flat_map touches_of rows.now) }
{
    for change in rows {
        push_change(touches, change)?;
    }
    Ok(())
}

// Appends the touches of a change.
fn push_change<A: Allocator>(touches: &mut Vec<Touch, A>, change: &Change<A>) -> Result<(), Memory>
    ensures { OnOk result (touches.new.items ≡ touches.old.items ++ touches_of change.now) }
{
    match (&change.before, &change.after) {
        (Some(_), Some(_)) => push_cell(touches, change.name, Access::writing(change.part)),
        _ => Ok(touches.push(written(change.name))?),
    }
}

// Appends the touch that reads an element's presence, and that of another access to the element.
fn push_cell<A: Allocator>(
    touches: &mut Vec<Touch, A>,
    name: Name,
    access: Access,
) -> Result<(), Memory>
    ensures { OnOk result (touches.new.items
        ≡ touches.old.items ++ presence_read name ∷ record { name = name; access = access } ∷ []) }
{
    touches.push(read(name))?;
    touches.push(Touch::of(name, access))?;
    Ok(())
}

// Appends the touches that read a cell.
fn push_read<A: Allocator>(touches: &mut Vec<Touch, A>, cell: &Cell) -> Result<(), Memory>
    ensures { OnOk result (touches.new.items ≡ touches.old.items ++ reads_at cell.now) }
{
    push_cell(touches, cell.name(), Access::reading(cell.part()))
}

// Appends the touch of each name's presence that a change's half begins or ceases to refer to.
fn push_all_begun_or_ceased<A: Allocator + Clone>(
    alloc: &A,
    touches: &mut Vec<Touch, A>,
    rows: &[Change<A>],
) -> Result<(), Memory>
    ensures { OnOk result
        (touches.new.items ≡ touches.old.items ++ map presence_read (all_begun_or_ceased rows.now)) }
{
    for change in rows {
        push_begun_or_ceased(alloc, touches, change)?;
    }
    Ok(())
}

// Appends the touch of each name's presence that one half begins or ceases to refer to.
fn push_begun_or_ceased<A: Allocator + Clone>(
    alloc: &A,
    touches: &mut Vec<Touch, A>,
    change: &Change<A>,
) -> Result<(), Memory>
    ensures { OnOk result
        (touches.new.items ≡ touches.old.items ++ map presence_read (begun_or_ceased_once change.now)) }
{
    if !may_refer(&change.before) && !may_refer(&change.after) {
        return Ok(());
    }
    let before = half_refs(alloc.clone()?, &change.before)?;
    let after = half_refs(alloc.clone()?, &change.after)?;
    push_but(alloc, touches, before.as_slice(), after.as_slice())?;
    push_but(alloc, touches, after.as_slice(), before.as_slice())
}

// Appends the touch of each name's presence that is in `from` and not in `others`. Both lists rise.
fn push_but<A: Allocator + Clone>(
    alloc: &A,
    touches: &mut Vec<Touch, A>,
    from: &[Name],
    others: &[Name],
) -> Result<(), Memory>
    requires from { IsRising from.now }
    requires others { IsRising others.now }
    ensures { OnOk result (touches.new.items ≡ touches.old.items ++ map presence_read (names_but from.now others.now)) }
{
    let names = names_but(alloc.clone()?, from, others)?;
    push_names(touches, names.as_slice())
}

// Appends the touch that reads the presence of each name.
fn push_names<A: Allocator>(touches: &mut Vec<Touch, A>, names: &[Name]) -> Result<(), Memory>
    ensures { OnOk result (touches.new.items ≡ touches.old.items ++ map presence_read names.now) }
{
    for name in names {
        touches.push(read(*name))?;
    }
    Ok(())
}

// Appends the touches that read the unchanged subjects of an action.
fn push_subjects<A: Allocator>(
    touches: &mut Vec<Touch, A>,
    action: &Action<A>,
    rows: &[Change<A>],
) -> Result<(), Memory>
    requires { IsInOrder rows.now }
    ensures { OnOk result
        (touches.new.items ≡ touches.old.items ++ flat_map reads_at (unchanged rows.now (subjects action.now))) }
{
    each_action!(reads(action, touches, rows))
}

// Appends the touches that read the rest of each name, as far as it is unchanged.
fn push_unchanged_rests<A: Allocator>(
    touches: &mut Vec<Touch, A>,
    rows: &[Change<A>],
    names: &[Name],
) -> Result<(), Memory>
    requires { IsInOrder rows.now }
    ensures { OnOk result
        (touches.new.items ≡ touches.old.items ++ flat_map reads_at (unchanged rows.now (map rest_at names.now))) }
{
    for name in names {
        push_unchanged(touches, rows, &rest_of(name))?;
    }
    Ok(())
}

// Appends the touches that read a cell, if it is unchanged.
fn push_unchanged<A: Allocator>(
    touches: &mut Vec<Touch, A>,
    rows: &[Change<A>],
    cell: &Cell,
) -> Result<(), Memory>
    requires { IsInOrder rows.now }
    ensures { OnOk result
        (touches.new.items ≡ touches.old.items ++ flat_map reads_at (unchanged rows.now (cell.now ∷ []))) }
{
    if is_changed(rows, cell) {
        return Ok(());
    }
    push_read(touches, cell)
}

// Returns whether a change has the cell, in time logarithmic in their number.
fn is_changed<A: Allocator>(rows: &[Change<A>], cell: &Cell) -> bool
    requires { IsInOrder rows.now }
    ensures { result ≡ has (changed_cells rows.now) cell.now }
{
    rows.binary_search_by(|change| change.cell().cmp(cell))
        .is_ok()
}

// If the action is an unglue, appends the touches that read both cells of the node that it takes from the way.
fn push_unglued_from<A: Allocator>(
    touches: &mut Vec<Touch, A>,
    action: &Action<A>,
    rows: &[Change<A>],
) -> Result<(), Memory>
    ensures { OnOk result (touches.new.items ≡ touches.old.items
        ++ flat_map reads_at (flat_map both_at (option_to_list (unglued_from action.now rows.now)))) }
{
    if let Some(node) = unglued_from(action, rows) {
        push_read(touches, &Cell::of(node, Part::Tags))?;
        push_read(touches, &Cell::of(node, Part::Rest))?;
    }
    Ok(())
}

// Returns the node that an unglue takes from its way.
fn unglued_from<A: Allocator>(action: &Action<A>, rows: &[Change<A>]) -> Option<Name>
    ensures { result ≡ unglued_from action.now rows.now }
{
    match action {
        Action::Unglue { name, place, .. } => node_before(rows, name, *place),
        _ => None,
    }
}

// Returns the node that was at a position of a way before the changes.
fn node_before<A: Allocator>(rows: &[Change<A>], way: &Name, place: u32) -> Option<Name>
    ensures { result ≡ slice_get (half_nodes (half_before rows.now (rest_at way.now))) place }
{
    match half_before(rows, &rest_of(way)) {
        Some(Half::Nodes(nodes)) => nodes.names().get(place as usize).copied(),
        _ => None,
    }
}

// Returns the half that a cell had before the changes, or `None` if no change has the cell.
fn half_before<'c, A: Allocator>(rows: &'c [Change<A>], cell: &Cell) -> Option<&'c Half<A>>
    ensures { option_copied result ≡ half_before rows.now cell.now }
{
    match change_of(rows, cell) {
        Some(change) => change.before.as_ref(),
        None => None,
    }
}

fn change_of<'c, A: Allocator>(rows: &'c [Change<A>], cell: &Cell) -> Option<&'c Change<A>>
    ensures { option_copied result ≡ find (λ c. is_same_cell cell.now (cell_of c)) rows.now }
{
    rows.iter()
        .find(|change| is_same_cell(cell, &change.cell()))
}

fn is_same_cell(one: &Cell, other: &Cell) -> bool
    ensures { result ≡ is_same_cell one.now other.now }
{
    one == other
}
