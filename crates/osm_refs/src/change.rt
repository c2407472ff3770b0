//! The references that begin and cease when an element changes.
ghost use Rattle.std.specs.Prelude.{◌≡◌, IfOk, true, option_copied};
ghost use Rattle.osm_elements.specs.Maps.{name_set};
ghost use Rattle.osm_refs.specs.References.{row_references};
ghost use Rattle.osm_refs.specs.Changes.{reference_change};

use crate::but::names_but;
use crate::refs::refs_of;
use osm_elements::Memory;
use osm_elements::element::Element;
use osm_elements::name::Name;
use osm_elements::names::Names;
use std::alloc::Allocator;

/// A name, with the references that begin and cease when its element changes. Both lists rise.
#[derive(Drop)]
#[derive_where(Debug)]
pub struct ReferenceChange<A: Allocator> {
    /// The name whose element changes.
    pub name: Name,
    /// The names that it refers to only after the change.
    pub begun: Names<A>,
    /// The names that it referred to only before the change.
    pub ceased: Names<A>,
}

impl<A: Allocator + Clone> ReferenceChange<A> {
    /// Finds the references that begin and cease when the element of a name changes from `before` to `after`. `None`
    /// means that the map has no such element.
    ///
    /// If both elements are ways with the same nodes in the same order, the nodes are compared and not sorted.
    ///
    /// # Errors
    ///
    /// `Memory`, if an allocation fails.
    pub fn of(
        alloc: &A,
        name: Name,
        before: Option<&Element<A>>,
        after: Option<&Element<A>>,
    ) -> Result<ReferenceChange<A>, Memory>
        ensures { IfOk result (λ c. c ≡ reference_change name
            (name_set (row_references (option_copied before.entry)))
            (name_set (row_references (option_copied after.entry)))) }
    {
        if keep_references(before, after) {
            let begun = Names::empty(alloc.clone()?);
            let ceased = Names::empty(alloc.clone()?);
            return Ok(ReferenceChange {
                name,
                begun,
                ceased,
            });
        }
        let before = row_refs(alloc.clone()?, before)?;
        let after = row_refs(alloc.clone()?, after)?;
        let begun = names_but(alloc.clone()?, after.as_slice(), before.as_slice())?;
        let ceased = names_but(alloc.clone()?, before.as_slice(), after.as_slice())?;
        Ok(ReferenceChange {
            name,
            begun,
            ceased,
        })
    }
}

// Returns the names that an element refers to, rising. An absent element refers to nothing.
fn row_refs<A: Allocator>(alloc: A, element: Option<&Element<A>>) -> Result<Names<A>, Memory>
    ensures { IfOk result (λ names. names ≡ name_set (row_references (option_copied element.entry))) }
{
    match element {
        Some(element) => refs_of(alloc, element),
        None => Ok(Names::empty(alloc)),
    }
}

// Returns whether both are ways with the same nodes in the same order, or neither refers to anything. If it returns
// `false`, the references may still be the same.
fn keep_references<A: Allocator>(before: Option<&Element<A>>, after: Option<&Element<A>>) -> bool
    ensures { result ≡ true
        → row_references (option_copied before.entry) ≡ row_references (option_copied after.entry) }
{
    match (before, after) {
        (Some(Element::Way { nodes, .. }), Some(Element::Way { nodes: later, .. })) => {
            nodes.names() == later.names()
        }
        (None | Some(Element::Node { .. }), None | Some(Element::Node { .. })) => true,
        _ => false,
    }
}
