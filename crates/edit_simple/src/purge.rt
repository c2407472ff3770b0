//! The plan of a purge.
ghost use Rattle.std.specs.Prelude.{◌≡◌, ◌++◌, [], ◌∷◌, true, not, map, IfOk, OnOk, filter};
ghost use Rattle.osm_drafts.specs.Prelude.{is_among, name_set, member_pair, AreNodes, row_at, users_in, table_of, is_sound};
ghost use Rattle.edit_simple.specs.Inner.Purging.{reached_with, all_reached, all_gone, left_of, row_left};
ghost use Rattle.edit_simple.specs.Contents.{nodes_of};
ghost use Rattle.edit_simple.specs.Plans.{IsNamed, IsPlan};
ghost use Rattle.edit_simple.specs.Purge.{without, falls_short, purge_checks, after_purge};

use crate::cut_short::is_cut_short;
use crate::lookup::is_present;
use crate::row_change::{RowChange, change_rows};
use osm_changes::changes::Changes;
use osm_drafts::draft::Draft;
use osm_elements::Memory;
use osm_elements::element::Element;
use osm_elements::member::Member;
use osm_elements::members::Members;
use osm_elements::name::Name;
use osm_elements::names::{Names, is_same};
use osm_elements::nodes::Nodes;
use osm_elements::shared::Shared;
use osm_refs::name_set::name_set;
use room_interface::refusal::Refusal;
use std::alloc::Allocator;
use std::collections::BTreeSet;

/// Plans to remove an element and every reference to it (OpenStreetMap API v0.6: nothing absent is named).
///
/// All other ways lose their references to the element. A way that loses references and keeps fewer than 2 nodes is
/// removed, too. All other relations lose the members that are removed, but no relation is removed for that. Which
/// elements are removed is this project's rule.
///
/// The plan looks at the users of the element and at the users of each removed way, which all change, and at no other
/// element. It takes time for the contents of these, times a logarithm.
///
/// # Errors
///
/// `Absent`, if the map does not have the name.
#[tactic(auto, using(crate::specs::Facts::Checked::named_if_none))]
pub fn plan_purge<A: Allocator + Clone>(
    alloc: A,
    rows: &Draft<'_, A>,
    name: &Name,
) -> Result<Changes<A>, Refusal<A>>
    requires { is_sound rows.now ≡ true }
    ensures plan { IsPlan rows.now (purge_checks rows.now name.now) (after_purge rows.now name.now) result }
    ensures named { IsNamed (purge_checks rows.now name.now) result }
{
    if !is_present(rows, name) {
        return Err(Refusal::Absent(*name));
    }
    let its_users = users_of(alloc.clone()?, rows, name)?;
    let gone = all_gone(alloc.clone()?, rows, its_users.as_slice(), name)?;
    let reached = all_reached(alloc.clone()?, rows, &gone, name)?;
    let purge = Purge {
        gone: &gone,
        purged: name,
    };
    Ok(change_rows(alloc, rows, &reached, &purge)?)
}

// Returns the names that refer to a name.
fn users_of<A: Allocator>(alloc: A, rows: &Draft<'_, A>, name: &Name) -> Result<Names<A>, Memory>
    ensures { IfOk result (λ names. names ≡ users_in (table_of rows.now) name.now) }
{
    let names = rows.users_of(alloc, name)?;
    Ok(names)
}

// Returns the removed names: the purged name, and each way among its users that would keep fewer than 2 nodes.
fn all_gone<A: Allocator + Clone>(
    alloc: A,
    rows: &Draft<'_, A>,
    its_users: &[Name],
    purged: &Name,
) -> Result<BTreeSet<Name, A>, Memory>
    ensures { IfOk result (λ gone. gone.keys ≡ name_set (all_gone rows.now its_users.now purged.now)) }
{
    let mut gone = BTreeSet::new(alloc);
    gone.insert(*purged)?;
    for user in its_users {
        if falls_short(rows, user, purged) {
            gone.insert(*user)?;
        }
    }
    Ok(gone)
}

// Returns whether the name is that of a way that contains the purged node and would keep fewer than 2 nodes.
fn falls_short<A: Allocator>(rows: &Draft<'_, A>, name: &Name, purged: &Name) -> bool
    ensures { result ≡ falls_short purged.now (nodes_of (row_at rows.now name.now)) }
{
    match rows.get(name) {
        Some(Element::Way { nodes, .. }) => is_cut_short(nodes.names(), purged),
        _ => false,
    }
}

// Returns the names whose rows change, rising, each once: the purged name, its users, and the users of removed names.
fn all_reached<A: Allocator + Clone>(
    alloc: A,
    rows: &Draft<'_, A>,
    gone: &BTreeSet<Name, A>,
    purged: &Name,
) -> Result<Vec<Name, A>, Memory>
    ensures { IfOk result
        (λ reached. reached.items ≡ name_set (all_reached (table_of rows.now) gone.now.keys purged.now)) }
{
    name_set(listed(alloc, rows, gone, purged)?)
}

// Returns the same names in the order in which they are found, with repetitions.
fn listed<A: Allocator + Clone>(
    alloc: A,
    rows: &Draft<'_, A>,
    gone: &BTreeSet<Name, A>,
    purged: &Name,
) -> Result<Vec<Name, A>, Memory>
    ensures { IfOk result (λ reached. reached.items ≡ all_reached (table_of rows.now) gone.now.keys purged.now) }
{
    let its_users = users_of(alloc.clone()?, rows, purged)?;
    let mut reached = Vec::new(alloc.clone()?);
    reached.push(*purged)?;
    for user in its_users.as_slice() {
        add_reached(&alloc, rows, gone, user, &mut reached)?;
    }
    Ok(reached)
}

// Appends a user of the purged name, and the users of this user if it is removed.
fn add_reached<A: Allocator + Clone>(
    alloc: &A,
    rows: &Draft<'_, A>,
    gone: &BTreeSet<Name, A>,
    user: &Name,
    reached: &mut Vec<Name, A>,
) -> Result<(), Memory>
    ensures { OnOk result
        (reached.new.items ≡ reached.old.items ++ reached_with (table_of rows.now) gone.now.keys user.now) }
{
    reached.push(*user)?;
    if goes(gone, user) {
        let its_users = users_of(alloc.clone()?, rows, user)?;
        reached.extend_from_slice(its_users.as_slice())?;
    }
    Ok(())
}

// Returns whether a name is removed.
fn goes<A: Allocator>(gone: &BTreeSet<Name, A>, name: &Name) -> bool
    ensures { result ≡ is_among gone.now.keys name.now }
{
    gone.contains(name)
}

// What a purge leaves of each row.
#[derive(Drop)]
struct Purge<'p, A: Allocator> {
    gone: &'p BTreeSet<Name, A>,
    purged: &'p Name,
}

impl<A: Allocator + Clone> RowChange<A> for Purge<'_, A> {
    ghost becomes = { λ p y row. row_left p.gone.now.keys p.purged.now y row };

    fn after(
        &self,
        alloc: &A,
        name: &Name,
        row: Option<&Element<A>>,
    ) -> Result<Option<Element<A>>, Memory> {
        match row {
            Some(element) if !goes(self.gone, name) => {
                Ok(Some(element_left(alloc, self.gone, self.purged, element)?))
            }
            _ => Ok(None),
        }
    }
}

// Returns an element that stays, without its removed references.
fn element_left<A: Allocator + Clone>(
    alloc: &A,
    gone: &BTreeSet<Name, A>,
    purged: &Name,
    element: &Element<A>,
) -> Result<Element<A>, Memory>
    ensures { IfOk result (λ after. after ≡ left_of gone.now.keys purged.now element.now) }
{
    match element {
        Element::Node { .. } => element.copy(),
        Element::Way { nodes, tags } => Ok(Element::Way {
            nodes: Shared::new(
                alloc.clone()?,
                nodes_left(alloc.clone()?, nodes.names(), purged)?,
            )?,
            tags: tags.copy()?,
        }),
        Element::Relation { members, tags } => Ok(Element::Relation {
            members: Shared::new(
                alloc.clone()?,
                members_left(alloc.clone()?, members.as_slice(), gone)?,
            )?,
            tags: tags.copy()?,
        }),
    }
}

// Returns the nodes of a list without the purged name.
fn nodes_left<A: Allocator>(alloc: A, nodes: &[Name], purged: &Name) -> Result<Nodes<A>, Memory>
    requires { AreNodes nodes.now }
    ensures { IfOk result (λ left. left ≡ without purged.now nodes.now) }
{
    let mut left = Nodes::empty(alloc);
    for node in nodes {
        if !is_same(purged, node) {
            left.push(*node)?;
        }
    }
    Ok(left)
}

// Returns the members of a list that are not removed.
fn members_left<A: Allocator + Clone>(
    alloc: A,
    members: &[Member<A>],
    gone: &BTreeSet<Name, A>,
) -> Result<Members<A>, Memory>
    ensures { IfOk result
        (λ left. left ≡ filter (λ r. not (is_among gone.now.keys r.0)) (map member_pair members.now)) }
{
    let mut left = Members::empty(alloc);
    for member in members {
        if !goes(gone, &member.name) {
            left.push(member.copy()?)?;
        }
    }
    Ok(left)
}
