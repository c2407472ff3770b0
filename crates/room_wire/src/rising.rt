//! Rows whose names rise.
ghost use Rattle.std.specs.Prelude.{◌≡◌, map};
ghost use Rattle.osm_elements.specs.Maps.{are_rising};
ghost use Rattle.room_wire.specs.Inner.Rising.{is_before};

use osm_elements::map::Row;
use osm_elements::name::Name;
use room_interface::news::NewsRow;
use std::alloc::Allocator;
use std::cmp::Ordering;

/// A value with the name of an element.
pub trait Named {
    ghost use Rattle.osm_elements.specs.declared.name.Name.{Name};

    ghost named: { Self → Name };

    /// Returns the name.
    fn name(&self) -> Name
        ensures { result ≡ named self.now };
}

impl<A: Allocator> Named for Row<A> {
    ghost named = { λ r. r.name };

    fn name(&self) -> Name {
        self.name
    }
}

impl<A: Allocator> Named for NewsRow<A> {
    ghost named = { λ r. r.name };

    fn name(&self) -> Name {
        self.name
    }
}

/// Returns whether the names of the rows rise strictly. The time is linear in the number of rows.
pub fn are_rising<T: Named>(rows: &[T]) -> bool
    ensures { result ≡ are_rising (map T.named rows.now) }
{
    for place in 0..rows.len() {
        if place + 1 < rows.len() && !is_before(&rows[place].name(), &rows[place + 1].name()) {
            return false;
        }
    }
    true
}

// Returns whether a name comes before another name.
fn is_before(one: &Name, other: &Name) -> bool
    ensures { result ≡ is_before one.now other.now }
{
    match one.cmp(other) {
        Ordering::Less => true,
        Ordering::Equal => false,
        Ordering::Greater => false,
    }
}
