//! Look-ups of names in a map.
ghost use Rattle.std.specs.Prelude.{◌≡◌, map, filter};
ghost use Rattle.osm_elements.specs.Maps.{is_present, least};
ghost use Rattle.edit_simple.specs.Create.{is_missing};
ghost use Rattle.edit_simple.specs.Inner.Least.{lesser_of};

use osm_changes::lookup::Lookup;
use osm_elements::member::Member;
use osm_elements::name::Name;
use osm_elements::names::is_same;
use std::alloc::Allocator;

/// Returns whether the map has the name.
pub fn is_present<A: Allocator, R: Lookup<A>>(rows: &R, name: &Name) -> bool
    ensures { result ≡ is_present (R.rows rows.now) name.now }
{
    rows.element(name).is_some()
}

/// Returns the least of the names, other than `new`, that the map does not have.
pub fn least_missing<A: Allocator, R: Lookup<A>>(
    rows: &R,
    new: &Name,
    names: &[Name],
) -> Option<Name>
    ensures { result ≡ least (filter (is_missing (R.rows rows.now) new.now) names.now) }
{
    let mut least = None;
    for name in names {
        if is_missing(rows, new, name) {
            least = Some(lesser(least, *name));
        }
    }
    least
}

/// Returns the least of the members' names, other than `new`, that the map does not have.
pub fn least_missing_member<A: Allocator, R: Lookup<A>>(
    rows: &R,
    new: &Name,
    members: &[Member<A>],
) -> Option<Name>
    ensures { result ≡ least (filter (is_missing (R.rows rows.now) new.now) (map (λ m. m.name) members.now)) }
{
    let mut least = None;
    for member in members {
        if is_missing(rows, new, &member.name) {
            least = Some(lesser(least, member.name));
        }
    }
    least
}

// Returns whether the map does not have the name, which is not `new` either.
fn is_missing<A: Allocator, R: Lookup<A>>(rows: &R, new: &Name, name: &Name) -> bool
    ensures { result ≡ is_missing (R.rows rows.now) new.now name.now }
{
    !is_same(new, name) && !is_present(rows, name)
}

/// Returns the lesser of two names, or the second name if there is no first.
pub fn lesser(least: Option<Name>, name: Name) -> Name
    ensures { result ≡ lesser_of least name }
{
    match least {
        Some(other) => other.min(name),
        None => name,
    }
}
