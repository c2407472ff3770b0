//! Takes rows apart into their halves, and puts them together again.
ghost use Rattle.std.specs.Prelude.{◌≡◌, IfOk, option_copied};
ghost use Rattle.osm_changes.specs.Halves.{half, half_in, rest_of, row_of, element_of};

use crate::half::Half;
use crate::part::Part;
use osm_elements::Memory;
use osm_elements::element::Element;
use osm_elements::shared_tags::SharedTags;
use std::alloc::Allocator;

/// Returns the two halves of a row, its tags and its rest. An absent row has none.
pub fn halves<A: Allocator>(row: Option<Element<A>>) -> (Option<Half<A>>, Option<Half<A>>)
    ensures tags { result.0 ≡ half Part.Tags row }
    ensures rest { result.1 ≡ half Part.Rest row }
{
    match row {
        Some(element) => {
            let (tags, rest) = taken_apart(element);
            (Some(tags), Some(rest))
        }
        None => (None, None),
    }
}

// Returns the tags and the rest of an element.
fn taken_apart<A: Allocator>(element: Element<A>) -> (Half<A>, Half<A>)
    ensures tags { result.0 ≡ half_in Part.Tags element }
    ensures rest { result.1 ≡ half_in Part.Rest element }
{
    match element {
        Element::Node { lat, lon, tags } => (Half::Tags(tags), Half::Place { lat, lon }),
        Element::Way { nodes, tags } => (Half::Tags(tags), Half::Nodes(nodes)),
        Element::Relation { members, tags } => (Half::Tags(tags), Half::Members(members)),
    }
}

/// Returns a copy of one half of a row, or `Memory`. An absent row has no halves.
pub fn half_of<A: Allocator + Clone>(
    part: Part,
    row: Option<&Element<A>>,
) -> Result<Option<Half<A>>, Memory>
    ensures { IfOk result (λ h. h ≡ half part (option_copied row.entry)) }
{
    match row {
        Some(element) => Ok(Some(half_in(part, element)?)),
        None => Ok(None),
    }
}

// Returns a copy of one half of an element.
fn half_in<A: Allocator + Clone>(part: Part, element: &Element<A>) -> Result<Half<A>, Memory>
    ensures { IfOk result (λ h. h ≡ half_in part element.now) }
{
    match part {
        Part::Tags => Ok(Half::Tags(element.tags().copy()?)),
        Part::Rest => rest_of(element),
    }
}

// Returns a copy of an element's rest.
fn rest_of<A: Allocator + Clone>(element: &Element<A>) -> Result<Half<A>, Memory>
    ensures { IfOk result (λ h. h ≡ rest_of element.now) }
{
    match element {
        Element::Node { lat, lon, .. } => Ok(Half::Place {
            lat: *lat,
            lon: *lon,
        }),
        Element::Way { nodes, .. } => Ok(Half::Nodes(nodes.copy()?)),
        Element::Relation { members, .. } => Ok(Half::Members(members.copy()?)),
    }
}

/// Returns the row of two halves, or `None` unless both are there and fit.
pub fn row_of<A: Allocator>(tags: Option<Half<A>>, rest: Option<Half<A>>) -> Option<Element<A>>
    ensures { result ≡ row_of tags rest }
{
    match (tags, rest) {
        (Some(Half::Tags(tags)), Some(rest)) => element_of(tags, rest),
        _ => None,
    }
}

// Returns the element with these tags and this rest, or `None` if `rest` is tags.
fn element_of<A: Allocator>(tags: SharedTags<A>, rest: Half<A>) -> Option<Element<A>>
    ensures { result ≡ element_of tags rest }
{
    match rest {
        Half::Tags(_) => None,
        Half::Place { lat, lon } => Some(Element::Node { lat, lon, tags }),
        Half::Nodes(nodes) => Some(Element::Way { nodes, tags }),
        Half::Members(members) => Some(Element::Relation { members, tags }),
    }
}
