//! Plans of merges.
ghost use Rattle.std.specs.Prelude.{◌≡◌, ◌⊎◌, ◌++◌, true, take, None, Some, IfOk, MatchResult, find};
ghost use Rattle.edit_simple.specs.Prelude.{list_all, is_node, is_present, is_same, name_set, row_at, is_sound, first_that_holds, IsNamed, IsPlan};
ghost use Rattle.room_interface.specs.declared.refusal.Refusal.TheVariants.{Memory as OutOfMemory};
ghost use Rattle.edit_topology.specs.BothTags.{both_tags};
ghost use Rattle.edit_topology.specs.Inner.Merging.{is_either, subjects, tag_checks, is_cut_short, merged_element, merged_row};
ghost use Rattle.edit_topology.specs.Merge.{merge_checks, after_merge};

use crate::both_tags::{both_tags, conflict};
use crate::renaming::{renamed_members, replaced};
use crate::subjects::subjects_and_users;
use edit_simple::kinds::is_node;
use edit_simple::row_change::{RowChange, change_rows};
use osm_changes::changes::Changes;
use osm_drafts::draft::Draft;
use osm_elements::Memory;
use osm_elements::element::Element;
use osm_elements::name::Name;
use osm_elements::names::is_same;
use osm_elements::shared::Shared;
use osm_elements::shared_tags::SharedTags;
use room_interface::refusal::Refusal;
use std::alloc::Allocator;

/// Plans to merge the node `other` into the node `name`.
///
/// Every reference to the other node becomes a reference to the node. If a way that named the other node then has the
/// node several times in a row, it keeps one of them. The node keeps its position and gets the tags of both nodes. The
/// other node is removed. (Editors' practice; which repetitions are dropped is this project's.)
///
/// # Errors
///
/// The first of these that applies:
/// - `WrongKind`, if a name is not a node's; `name` is checked first
/// - `Same`, if both names are the same
/// - `Absent`, if the map does not have a node; `name` is checked first
/// - `TooFew` with the least way that named the other node and would have fewer than 2 nodes
/// - `TagConflict` with the least key that has two values
/// - `TooMany`, for more than 1,000 tags, a limit of this project
///
/// The last three need memory. `Memory` can replace them, but no other refusal.
#[tactic(auto, using(edit_simple::specs::Facts::Checked::named_if_none))]
pub fn plan_merge<A: Allocator + Clone>(
    alloc: A,
    rows: &Draft<'_, A>,
    name: &Name,
    other: &Name,
) -> Result<Changes<A>, Refusal<A>>
    requires { is_sound rows.now ≡ true }
    ensures plan { IsPlan rows.now (merge_checks rows.now name.now other.now)
        (after_merge rows.now name.now other.now) result }

    // `Memory` can replace `TooFew`, `TagConflict` and `TooMany` alone.
    ensures named { IsNamed (take 5 (merge_checks rows.now name.now other.now)) result }
{
    let (kept, gone) = nodes_to_merge(rows, name, other)?;
    let its_users = rows.users_of(alloc.clone()?, other)?;
    if let Some(way) = first_cut_short(rows, its_users.as_slice(), name, other) {
        return Err(Refusal::TooFew(way));
    }
    let tags = united(alloc.clone()?, name, kept.tags(), gone.tags())?;
    // If there is no conflict, the node's tags change exactly if both nodes together have more tags than the node.
    let gains = tags.len() > kept.tags().len();
    let changed = all_changed(alloc.clone()?, its_users.as_slice(), name, other, gains)?;
    let merge = Merge {
        name,
        other,
        both: &tags,
    };
    Ok(change_rows(alloc, rows, &changed, &merge)?)
}

// Returns the elements of both nodes. Refuses names that are not nodes' or are the same, and absent nodes.
fn nodes_to_merge<'m, A: Allocator>(
    rows: &'m Draft<'_, A>,
    name: &Name,
    other: &Name,
) -> Result<(&'m Element<A>, &'m Element<A>), Refusal<A>>
    ensures { MatchResult result
        (λ nodes. (first_that_holds (take 5 (merge_checks rows.now name.now other.now)) ≡ None)
        × (row_at rows.now name.now ≡ Some nodes.0.now) × (row_at rows.now other.now ≡ Some nodes.1.now))
        (λ r. first_that_holds (take 5 (merge_checks rows.now name.now other.now)) ≡ Some r) }
{
    if !is_node(name) {
        return Err(Refusal::WrongKind(*name));
    }
    if !is_node(other) {
        return Err(Refusal::WrongKind(*other));
    }
    if is_same(name, other) {
        return Err(Refusal::Same(*name));
    }
    let Some(kept) = rows.get(name) else {
        return Err(Refusal::Absent(*name));
    };
    let Some(gone) = rows.get(other) else {
        return Err(Refusal::Absent(*other));
    };
    Ok((kept, gone))
}

// Finds the least way among the other node's users that has no nodes except the two. The definition looks at every row,
// but finds only ways that name the other node, which are its users. Users rise, so the first match is the least.
fn first_cut_short<A: Allocator>(
    rows: &Draft<'_, A>,
    its_users: &[Name],
    name: &Name,
    other: &Name,
) -> Option<Name>
    ensures { result ≡ find (λ u. is_cut_short name.now other.now (row_at rows.now u)) its_users.now }
{
    for user in its_users {
        if is_cut_short(rows, user, name, other) {
            return Some(*user);
        }
    }
    None
}

// Whether the user is a way with no nodes except the two. The merge would leave one of them.
fn is_cut_short<A: Allocator>(rows: &Draft<'_, A>, user: &Name, name: &Name, other: &Name) -> bool
    ensures { result ≡ is_cut_short name.now other.now (row_at rows.now user.now) }
{
    match rows.get(user) {
        Some(Element::Way { nodes, .. }) => are_either(nodes.names(), name, other),
        _ => false,
    }
}

// Whether each name of the list is one of the two names.
fn are_either(names: &[Name], name: &Name, other: &Name) -> bool
    ensures { result ≡ list_all (is_either name.now other.now) names.now }
{
    names
        .iter()
        .all(|node| is_same(name, node) || is_same(other, node))
}

// Returns the tags of both nodes, or refuses a key with two values or more than 1,000 tags.
fn united<A: Allocator + Clone>(
    alloc: A,
    name: &Name,
    tags: &SharedTags<A>,
    others: &SharedTags<A>,
) -> Result<SharedTags<A>, Refusal<A>>
    ensures { MatchResult result
        (λ new. (first_that_holds (tag_checks {A = A} name.now tags.now others.now) ≡ None)
        × (new ≡ both_tags tags.now others.now))
        (λ r. (first_that_holds (tag_checks {A = A} name.now tags.now others.now) ≡ Some r) ⊎ (r ≡ OutOfMemory)) }
{
    if let Some(key) = conflict(tags, others) {
        return Err(Refusal::TagConflict(key.copy()?));
    }
    both_tags(alloc, name, tags, others)
}

// Returns the names whose rows change, in rising order: the node if it gains a tag, the other node, and its users.
fn all_changed<A: Allocator>(
    alloc: A,
    its_users: &[Name],
    name: &Name,
    other: &Name,
    gains: bool,
) -> Result<Vec<Name, A>, Memory>
    ensures { IfOk result (λ names. names.items ≡ name_set (subjects name.now other.now gains ++ its_users.now)) }
{
    if gains {
        subjects_and_users(alloc, &[*name, *other], its_users)
    } else {
        subjects_and_users(alloc, &[*other], its_users)
    }
}

// What a merge makes of each row. The other node is removed.
#[derive(Drop)]
struct Merge<'m, A: Allocator> {
    name: &'m Name,
    other: &'m Name,
    both: &'m SharedTags<A>,
    ghost node: { is_node name.now.kind ≡ true },
}

impl<A: Allocator + Clone> RowChange<A> for Merge<'_, A> {
    ghost becomes = { λ g y row. merged_row g.name.now g.other.now g.both.now y row };

    fn after(
        &self,
        alloc: &A,
        name: &Name,
        row: Option<&Element<A>>,
    ) -> Result<Option<Element<A>>, Memory> {
        match row {
            Some(element) if !is_same(self.other, name) => {
                let merged = merged_element(alloc, self.name, self.other, self.both, element)?;
                Ok(Some(merged))
            }
            _ => Ok(None),
        }
    }
}

// Returns an element after the merge: the node has the tags of both, and users of the other node name the node.
fn merged_element<A: Allocator + Clone>(
    alloc: &A,
    name: &Name,
    other: &Name,
    both: &SharedTags<A>,
    element: &Element<A>,
) -> Result<Element<A>, Memory>
    requires { is_node name.now.kind ≡ true }
    ensures { IfOk result (λ after. after ≡ merged_element name.now other.now both.now element.now) }
{
    match element {
        Element::Node { lat, lon, .. } => Ok(Element::Node {
            lat: *lat,
            lon: *lon,
            tags: both.copy()?,
        }),
        Element::Way { nodes, tags } => Ok(Element::Way {
            nodes: Shared::new(
                alloc.clone()?,
                replaced(alloc.clone()?, nodes.names(), name, other)?,
            )?,
            tags: tags.copy()?,
        }),
        Element::Relation { members, tags } => Ok(Element::Relation {
            members: Shared::new(
                alloc.clone()?,
                renamed_members(alloc.clone()?, members.as_slice(), name, other)?,
            )?,
            tags: tags.copy()?,
        }),
    }
}
