//! Plans of splits.
ghost use Rattle.std.specs.Prelude.{◌≡◌, ◌+◌, ◌++◌, true, Some, map, take, drop, count_by, IfOk, OnOk, find};
ghost use Rattle.edit_simple.specs.Prelude.{is_same, member_pair, row_at, is_sound, first_that_holds, passed, IsNamed, IsPlan};
ghost use Rattle.edit_topology.specs.Inner.Splitting.{split_length, is_overfull, is_way_row, split_member, split_element, new_way, row_split};
ghost use Rattle.edit_topology.specs.Split.{is_inside, split_members, split_checks, after_split};

use crate::subjects::subjects_and_users;
use edit_simple::kinds::is_way;
use edit_simple::limits::MOST_MEMBERS;
use edit_simple::lookup::is_present;
use edit_simple::row_change::{RowChange, change_rows};
use edit_simple::ways::way_at;
use osm_changes::changes::Changes;
use osm_drafts::draft::Draft;
use osm_elements::Memory;
use osm_elements::element::Element;
use osm_elements::member::Member;
use osm_elements::members::Members;
use osm_elements::name::Name;
use osm_elements::names::is_same;
use osm_elements::nodes::Nodes;
use osm_elements::shared::Shared;
use room_interface::refusal::Refusal;
use std::alloc::Allocator;

/// Plans to split the way `name` in two at position `place`, counted from 0.
///
/// The way keeps the nodes up to this position. The new way `into` gets the nodes from this position on, and the same
/// tags. In every relation, each member that names the way is followed by a member that names the new way in the same
/// role. (Editors' practice; the order of the members is this project's.)
///
/// # Errors
///
/// The first of these that applies:
/// - `WrongKind`, if a name is not a way's; `name` is checked first
/// - `Absent`, if the map does not have the way
/// - `Present`, if the map has the new way
/// - `BadPosition`, if `place` is the first or the last position, or lies after the last
/// - `TooMany` with the least relation that would have more than 32,000 members, a limit of this project
///
/// Only `TooMany` needs memory. `Memory` can replace it, but no other refusal.
#[tactic(auto, using(edit_simple::specs::Facts::Checked::named_if_none))]
pub fn plan_split<A: Allocator + Clone>(
    alloc: A,
    rows: &Draft<'_, A>,
    name: &Name,
    place: u32,
    into: &Name,
) -> Result<Changes<A>, Refusal<A>>
    requires { is_sound rows.now ≡ true }
    ensures plan { IsPlan rows.now (split_checks rows.now name.now place into.now)
        (after_split rows.now name.now place into.now) result }

    // `Memory` can replace `TooMany` alone.
    ensures named { IsNamed (take 5 (split_checks rows.now name.now place into.now)) result }
{
    check(rows, name, place, into)?;
    let its_users = rows.users_of(alloc.clone()?, name)?;
    if let Some(relation) = first_overfull(rows, its_users.as_slice(), name) {
        return Err(Refusal::TooMany(relation));
    }
    let names = subjects_and_users(alloc.clone()?, &[*name, *into], its_users.as_slice())?;
    let split = Split {
        rows,
        way: name,
        place,
        into,
    };
    Ok(change_rows(alloc, rows, &names, &split)?)
}

// Returns the first check of a split that holds, if any, except the last check, which needs the users of the way.
fn check<A: Allocator>(
    rows: &Draft<'_, A>,
    name: &Name,
    place: u32,
    into: &Name,
) -> Result<(), Refusal<A>>
    requires { is_sound rows.now ≡ true }
    ensures { result ≡ passed (first_that_holds (take 5 (split_checks rows.now name.now place into.now))) }
{
    if !is_way(name) {
        return Err(Refusal::WrongKind(*name));
    }
    if !is_way(into) {
        return Err(Refusal::WrongKind(*into));
    }
    let (nodes, _) = way_at(rows, name)?;
    if is_present(rows, into) {
        return Err(Refusal::Present(*into));
    }
    if !is_inside(place, nodes.names()) {
        return Err(Refusal::BadPosition);
    }
    Ok(())
}

// Whether the position is in the list, and neither the first nor the last.
fn is_inside(place: u32, nodes: &[Name]) -> bool
    ensures { result ≡ is_inside place nodes.now }
{
    let place = place as usize;
    0 < place && place + 1 < nodes.len()
}

// Finds the least of the way's users that would have more than 32,000 members. The definition looks at every relation.
// On a sound map, only a relation that names the way can get too long (`specs/Facts/Refusing.antt`). Users rise, so the
// first match is the least.
fn first_overfull<A: Allocator>(rows: &Draft<'_, A>, its_users: &[Name], way: &Name) -> Option<Name>
    ensures { result ≡ find (is_overfull rows.now way.now) its_users.now }
{
    its_users
        .iter()
        .find(|user| is_overfull(rows, way, *user))
        .copied()
}

// Whether the element of this name would have more than 32,000 members.
fn is_overfull<A: Allocator>(rows: &Draft<'_, A>, way: &Name, user: &Name) -> bool
    ensures { result ≡ is_overfull rows.now way.now user.now }
{
    match rows.get(user) {
        Some(Element::Relation { members, .. }) => {
            split_length(members.as_slice(), way) > MOST_MEMBERS
        }
        _ => false,
    }
}

// Counts the members after each one that names the way has become two.
fn split_length<A: Allocator>(members: &[Member<A>], way: &Name) -> usize
    ensures { result ≡ split_length way.now (map member_pair members.now) }
{
    members.len() + count_named(members, way)
}

// Counts the members that name the way.
fn count_named<A: Allocator>(members: &[Member<A>], way: &Name) -> usize
    ensures { result ≡ count_by (λ m. is_same way.now m.name) members.now }
{
    members
        .iter()
        .filter(|member| is_same(way, &member.name))
        .count()
}

// What a split makes of each row. If there is no row, it is the new way's.
#[derive(Drop)]
struct Split<'s, 'd, A: Allocator> {
    rows: &'s Draft<'d, A>,
    way: &'s Name,
    place: u32,
    into: &'s Name,
    ghost there: { is_way_row (row_at rows.now way.now) ≡ true },
}

impl<A: Allocator + Clone> RowChange<A> for Split<'_, '_, A> {
    ghost becomes = { λ s y row. Some (row_split s.rows.now s.way.now s.place s.into.now row) };

    fn after(
        &self,
        alloc: &A,
        _name: &Name,
        row: Option<&Element<A>>,
    ) -> Result<Option<Element<A>>, Memory> {
        let after = match row {
            Some(element) => split_element(alloc, element, self.way, self.place, self.into)?,
            None => new_way(alloc, self.rows, self.way, self.place)?,
        };
        Ok(Some(after))
    }
}

// Returns the new way: the way's nodes from a position on, and its tags.
fn new_way<A: Allocator + Clone>(
    alloc: &A,
    rows: &Draft<'_, A>,
    way: &Name,
    place: u32,
) -> Result<Element<A>, Memory>
    requires { is_way_row (row_at rows.now way.now) ≡ true }
    ensures { IfOk result (λ new. new ≡ new_way place (row_at rows.now way.now)) }
{
    let Some(Element::Way { nodes, tags }) = rows.get(way) else {
        unreachable!()
    };
    Ok(Element::Way {
        nodes: Shared::new(alloc.clone()?, nodes_from(alloc, nodes, place)?)?,
        tags: tags.copy()?,
    })
}

// Returns an element after the split: a way keeps the nodes up to the position, and a relation has two members for each
// that names the way.
fn split_element<A: Allocator + Clone>(
    alloc: &A,
    element: &Element<A>,
    way: &Name,
    place: u32,
    into: &Name,
) -> Result<Element<A>, Memory>
    ensures { IfOk result (λ after. after ≡ split_element way.now place into.now element.now) }
{
    match element {
        Element::Node { .. } => element.copy(),
        Element::Way { nodes, tags } => Ok(Element::Way {
            nodes: Shared::new(alloc.clone()?, nodes_up_to(alloc, nodes, place)?)?,
            tags: tags.copy()?,
        }),
        Element::Relation { members, tags } => Ok(Element::Relation {
            members: Shared::new(
                alloc.clone()?,
                split_members(alloc, members.as_slice(), way, into)?,
            )?,
            tags: tags.copy()?,
        }),
    }
}

// Returns the nodes up to a position, with the node there.
fn nodes_up_to<A: Allocator + Clone>(
    alloc: &A,
    nodes: &Nodes<A>,
    place: u32,
) -> Result<Nodes<A>, Memory>
    ensures { IfOk result (λ first. first ≡ take (place + 1) nodes.now) }
{
    let count = place as usize + 1;
    let first = nodes.names().iter().take(count).copied();
    let names = first.collect(alloc.clone()?)?;
    Ok(Nodes::from_vec(names))
}

// Returns the nodes from a position on, with the node there.
fn nodes_from<A: Allocator + Clone>(
    alloc: &A,
    nodes: &Nodes<A>,
    place: u32,
) -> Result<Nodes<A>, Memory>
    ensures { IfOk result (λ last. last ≡ drop place nodes.now) }
{
    let last = nodes.names().iter().skip(place as usize).copied();
    let names = last.collect(alloc.clone()?)?;
    Ok(Nodes::from_vec(names))
}

// Returns the members. Each that names the way is followed by a member that names the new way in the same role.
fn split_members<A: Allocator + Clone>(
    alloc: &A,
    members: &[Member<A>],
    way: &Name,
    into: &Name,
) -> Result<Members<A>, Memory>
    ensures { IfOk result (λ split. split ≡ split_members way.now into.now (map member_pair members.now)) }
{
    let mut split = Vec::with_capacity(alloc.clone()?, split_length(members, way))?;
    for member in members {
        add_split(member, way, into, &mut split)?;
    }
    Ok(Members::from_vec(split))
}

// Adds a member. If it names the way, adds a member that names the new way in the same role.
fn add_split<A: Allocator + Clone>(
    member: &Member<A>,
    way: &Name,
    into: &Name,
    split: &mut Vec<Member<A>, A>,
) -> Result<(), Memory>
    ensures { OnOk result (map member_pair split.new.items
        ≡ map member_pair split.old.items ++ split_member way.now into.now (member_pair member.now)) }
{
    split.push(member.copy()?)?;
    if is_same(way, &member.name) {
        split.push(Member::new(*into, member.role.copy()?))?;
    }
    Ok(())
}
