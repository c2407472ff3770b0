//! Lists in which one name replaces another.
ghost use Rattle.std.specs.Prelude.{◌≡◌, true, map, IfOk};
ghost use Rattle.edit_simple.specs.Prelude.{is_node, member_pair, AreNodes};
ghost use Rattle.edit_topology.specs.Inner.Merging.{replaced};
ghost use Rattle.edit_topology.specs.Renaming.{renamed, renamed_members};

use osm_elements::Memory;
use osm_elements::member::Member;
use osm_elements::members::Members;
use osm_elements::name::Name;
use osm_elements::names::is_same;
use osm_elements::nodes::Nodes;
use std::alloc::Allocator;

/// Returns the nodes with `name` in place of `other`. If `name` then occurs several times in a row, one is kept.
pub fn replaced<A: Allocator>(
    alloc: A,
    nodes: &[Name],
    name: &Name,
    other: &Name,
) -> Result<Nodes<A>, Memory>
    requires node { is_node name.now.kind ≡ true }
    requires nodes { AreNodes nodes.now }
    ensures { IfOk result (λ new. new ≡ replaced name.now other.now nodes.now) }
{
    let mut new = renamed_all(alloc, nodes, name, other)?;
    new.dedup_by(|node, before| is_same(name, node) && is_same(name, before));
    Ok(Nodes::from_vec(new))
}

// Returns the names with `name` in place of `other`, repetitions included.
fn renamed_all<A: Allocator>(
    alloc: A,
    names: &[Name],
    name: &Name,
    other: &Name,
) -> Result<Vec<Name, A>, Memory>
    ensures { IfOk result (λ new. new.items ≡ map (renamed other.now name.now) names.now) }
{
    let new = names
        .iter()
        .map(|named| renamed(named, name, other))
        .collect(alloc)?;
    Ok(new)
}

fn renamed(named: &Name, name: &Name, other: &Name) -> Name
    ensures { result ≡ renamed other.now name.now named.now }
{
    if is_same(other, named) { *name } else { *named }
}

/// Returns the members with `name` in place of `other`, in the same roles.
pub fn renamed_members<A: Allocator + Clone>(
    alloc: A,
    members: &[Member<A>],
    name: &Name,
    other: &Name,
) -> Result<Members<A>, Memory>
    ensures { IfOk result (λ new. new ≡ renamed_members other.now name.now (map member_pair members.now)) }
{
    let mut new = Members::empty(alloc);
    for member in members {
        let role = member.role.copy()?;
        new.push(Member::new(renamed(&member.name, name, other), role))?;
    }
    Ok(new)
}
