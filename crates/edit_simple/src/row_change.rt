//! Changes of many rows, each by itself.
ghost use Rattle.std.specs.Prelude.{◌≡◌, IfOk, Option, option_copied};
ghost use Rattle.osm_drafts.specs.Prelude.{row_at, rows_changes};
ghost use Rattle.osm_elements.specs.declared.element.Element.{Element};
ghost use Rattle.osm_elements.specs.declared.name.Name.{Name};
ghost use Rattle.osm_refs.specs.Rising.{IsRising};

use osm_changes::changes::Changes;
use osm_drafts::draft::Draft;
use osm_elements::Memory;
use osm_elements::element::{Element, copy_of};
use osm_elements::name::Name;
use std::alloc::Allocator;

/// What becomes of each row of a map, if an action is done.
pub trait RowChange<A: Allocator> {
    ghost becomes: { Self → Name → Option (Element A) → Option (Element A) };

    /// Returns what becomes of the row of a name, or `Memory`. `None` is an absent element.
    fn after(
        &self,
        alloc: &A,
        name: &Name,
        row: Option<&Element<A>>,
    ) -> Result<Option<Element<A>>, Memory>
        ensures { IfOk result (λ after. after ≡ becomes self.now name.now (option_copied row.entry)) };
}

/// Returns the changes of the rows of the given names, which must rise, or `Memory`.
pub fn change_rows<A: Allocator + Clone, C: RowChange<A>>(
    alloc: A,
    rows: &Draft<'_, A>,
    names: &[Name],
    change: &C,
) -> Result<Changes<A>, Memory>
    requires { IsRising names.now }
    ensures { IfOk result
        (λ cs. cs ≡ rows_changes rows.now (λ x. C.becomes change.now x (row_at rows.now x)) names.now) }
{
    let mut changes = Changes::empty(alloc.clone()?);
    for name in names {
        let row = rows.get(name);
        let after = change.after(&alloc, name, row)?;
        changes.push_row(*name, copy_of(row)?, after)?;
    }
    Ok(changes)
}
