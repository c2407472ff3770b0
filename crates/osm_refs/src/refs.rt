//! The names that an element refers to.
ghost use Rattle.std.specs.Prelude.{◌≡◌, map, IfOk, IsOk};
ghost use Rattle.osm_elements.specs.Prelude.{kind_of, name_set};
ghost use Rattle.osm_elements.specs.declared.name.Kind.TheVariants.{Node};
ghost use Rattle.osm_refs.specs.References.{references};

use crate::name_set::name_set;
use osm_elements::Memory;
use osm_elements::element::Element;
use osm_elements::member::Member;
use osm_elements::name::Name;
use osm_elements::names::Names;
use std::alloc::Allocator;

/// Returns the names that an element refers to, rising, each once: the nodes of a way or the members of a relation
/// (OpenStreetMap wiki, "Elements"). It costs what [`name_set`] costs.
///
/// # Errors
///
/// `Memory`, if an allocation fails. A node refers to no name and never gets `Memory`.
pub fn refs_of<A: Allocator>(alloc: A, element: &Element<A>) -> Result<Names<A>, Memory>
    ensures set { IfOk result (λ names. names ≡ name_set (references element.now)) }
    ensures node { kind_of element.now ≡ Node → IsOk result }
{
    let names = name_set(named(alloc, element)?)?;
    Ok(Names::from_vec(names))
}

// Returns the names in the element's own order.
fn named<A: Allocator>(alloc: A, element: &Element<A>) -> Result<Vec<Name, A>, Memory>
    ensures names { IfOk result (λ names. names.items ≡ references element.now) }
    ensures node { kind_of element.now ≡ Node → IsOk result }
{
    match element {
        Element::Node { .. } => Ok(Vec::new(alloc)),
        Element::Way { nodes, .. } => Vec::from_slice(alloc, nodes.names()),
        Element::Relation { members, .. } => member_names(alloc, members.as_slice()),
    }
}

/// Returns the names of members, in their order, or `Memory`.
pub fn member_names<A: Allocator>(alloc: A, members: &[Member<A>]) -> Result<Vec<Name, A>, Memory>
    ensures { IfOk result (λ names. names.items ≡ map (λ m. m.name) members.now) }
{
    let mut names = Vec::with_capacity(alloc, members.len())?;
    for member in members {
        names.push(member.name)?;
    }
    Ok(names)
}
