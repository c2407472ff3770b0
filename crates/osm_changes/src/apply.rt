//! Writes rows to a map: first the rows of new names, which need memory and can be taken out again, and then all other
//! rows, which need no memory.
ghost use Rattle.std.specs.Prelude.{◌≡◌, true, T, map, OnOk, OnErr, fold};
ghost use Rattle.osm_refs.specs.Prelude.{rows_but, are_rising, AreInOrder};
ghost use Rattle.osm_changes.specs.declared.row_after.RowAfter.{RowAfter as Row};
ghost use Rattle.osm_changes.specs.Changes.{with_row};
ghost use Rattle.osm_changes.specs.Inner.Applying.{is_new, with_entered, AreNew, NoneIsNew};

use crate::row_after::RowAfter;
use osm_elements::Memory;
use osm_elements::element::Element;
use osm_elements::map::OsmMap;
use osm_elements::name::Name;
use std::alloc::Allocator;

/// Puts the rows of new names, or returns `Memory`.
pub fn put_new<A: Allocator + Clone>(
    rows: &mut OsmMap<A>,
    mut new: Vec<RowAfter<A>, A>,
) -> Result<(), Memory>
    requires order { AreInOrder rows.old }
    requires new { AreNew rows.old new.items }
    ensures ok { OnOk result (rows.new ≡ fold with_entered rows.old new.items) }
    ensures err { OnErr result (rows.new ≡ rows.old) }
{
    for place in 0..new.len() {
        let name = new[place].name;
        let element = new[place].element.take();
        if let Err(memory) = put(rows, name, element) {
            take_out(rows, &new[..place]);
            return Err(memory);
        }
    }
    Ok(())
}

// Gives a name this row, or removes its row if `element` is `None`. It returns `Memory` only for a new row.
#[tactic(auto, using(crate::proofs::Applying::taken_out))]
fn put<A: Allocator + Clone>(
    rows: &mut OsmMap<A>,
    name: Name,
    element: Option<Element<A>>,
) -> Result<(), Memory>
    ensures ok { OnOk result (rows.new ≡ with_row rows.old name element) }
    ensures err { OnErr result (rows.new ≡ rows.old) }
    ensures new { OnErr result (is_new rows.old (record { name = name; element = element }) ≡ true) }
{
    match element {
        Some(element) => match rows.put(name, element) {
            Ok(_) => Ok(()),
            Err((_, memory)) => Err(memory),
        },
        None => {
            let _ = rows.take_out(&name);
            Ok(())
        }
    }
}

// Removes the rows of these names.
fn take_out<A: Allocator>(rows: &mut OsmMap<A>, entered: &[RowAfter<A>])
    ensures { rows.new ≡ fold (λ n x. rows_but x n) rows.old (map (λ (r : Row A). r.name) entered.now) }
{
    for row in entered {
        let _ = rows.take_out(&row.name);
    }
}

/// Gives the names their rows, or removes their rows. The names must rise, and no row may be new.
pub fn replace<A: Allocator + Clone>(rows: &mut OsmMap<A>, entered: Vec<RowAfter<A>, A>)
    requires rising { T (are_rising (map (λ (r : Row A). r.name) entered.items)) }
    requires there { NoneIsNew rows.old entered.items }
    ensures { rows.new ≡ fold with_entered rows.old entered.items }
{
    for row in entered {
        match put(rows, row.name, row.element) {
            Ok(()) => {}
            Err(_) => unreachable!(),
        }
    }
}
