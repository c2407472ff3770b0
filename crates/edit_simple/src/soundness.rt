//! The first row of a map that is not sound.
ghost use Rattle.std.specs.Prelude.{◌≡◌, IfSome, None, true};
ghost use Rattle.osm_drafts.specs.Prelude.{is_made, is_sound, are_of_kinds};
ghost use Rattle.edit_simple.specs.Checks.{first_that_holds};
ghost use Rattle.edit_simple.specs.Create.{list_checks};
ghost use Rattle.edit_simple.specs.Soundness.{IsFirstUnsound};

use crate::lists::list_fault;
use osm_elements::element::Element;
use osm_elements::map::OsmMap;
use osm_elements::name::Name;
use room_interface::refusal::Refusal;
use std::alloc::Allocator;

/// Returns the least name of a map whose row is not sound, and the row's fault, or `None` if the map is sound. It goes
/// over the rows once, and costs a look-up for each reference.
pub fn first_unsound<A: Allocator>(map: &OsmMap<A>) -> Option<(Name, Refusal<A>)>
    requires { are_of_kinds map.now ≡ true }
    ensures none { result ≡ None → is_sound map.now ≡ true }
    ensures some { IfSome result (λ fault. IsFirstUnsound map.now fault.0 fault.1) }
{
    for (name, element) in map.iter() {
        if let Some(why) = row_fault(map, name, element) {
            return Some((*name, why));
        }
    }
    None
}

// Returns the fault of a row whose element is of its name's kind, if the row is not sound.
fn row_fault<A: Allocator>(map: &OsmMap<A>, name: &Name, element: &Element<A>) -> Option<Refusal<A>>
    ensures fault { result ≡ first_that_holds (list_checks map.now name.now element.now) }
    ensures made { is_made element.now ≡ true }
{
    let _kind = element.kind();
    list_fault(map, name, element)
}
