//! Look-ups of rows by name.
ghost use Rattle.std.specs.Prelude.{◌≡◌, List, option_copied};
ghost use Rattle.osm_elements.specs.Rows.{row_at};
ghost use Rattle.osm_elements.specs.declared.element.Element.{Element};
ghost use Rattle.osm_elements.specs.declared.name.Name.{Name};

use osm_elements::element::Element;
use osm_elements::map::OsmMap;
use osm_elements::name::Name;
use std::alloc::Allocator;

/// Rows that can be looked up by name, such as a map.
pub trait Lookup<A: Allocator> {
    ghost rows: { Self → List (Name × Element A) };

    /// Returns the element with this name, if any.
    fn element(&self, name: &Name) -> Option<&Element<A>>
        ensures { option_copied result ≡ row_at (rows self.now) name.now };
}

impl<A: Allocator> Lookup<A> for OsmMap<A> {
    ghost rows = { λ m. m };

    fn element(&self, name: &Name) -> Option<&Element<A>> {
        self.get(name)
    }
}
