//! Plans of joins.
ghost use Rattle.std.specs.Prelude.{◌≡◌, ◌⊎◌, ◌≤◌, true, map, length, take, None, Some, MatchResult, IfOk, option_copied, option_map};
ghost use Rattle.edit_simple.specs.Prelude.{is_present, is_same, member_pair, row_at, is_sound, most_nodes, first_that_holds, passed, with_members, IsNamed, IsPlan};
ghost use Rattle.osm_elements.specs.declared.element.Element.TheVariants.{Way};
ghost use Rattle.room_interface.specs.declared.refusal.Refusal.TheVariants.{TagConflict, Memory as OutOfMemory};
ghost use Rattle.edit_topology.specs.BothTags.{conflict};
ghost use Rattle.edit_topology.specs.Inner.Joining.{name_checks, list_checks, way_of_both, joined_row};
ghost use Rattle.edit_topology.specs.Join.{meet_end_to_end, end_to_end, goes_on, joined_members, join_checks, after_join};
ghost use Rattle.edit_topology.specs.Renaming.{renamed};

use crate::both_tags::{both_tags, conflict};
use crate::subjects::subjects_and_users;
use edit_simple::kinds::is_way;
use edit_simple::limits::MOST_NODES;
use edit_simple::row_change::{RowChange, change_rows};
use edit_simple::ways::way_at;
use osm_changes::changes::Changes;
use osm_drafts::draft::Draft;
use osm_elements::Memory;
use osm_elements::element::Element;
use osm_elements::member::Member;
use osm_elements::members::Members;
use osm_elements::name::Name;
use osm_elements::names::is_same;
use osm_elements::nodes::Nodes;
use osm_elements::shared::Shared;
use osm_elements::shared_tags::SharedTags;
use osm_elements::text::is_same_text;
use room_interface::refusal::Refusal;
use std::alloc::Allocator;

/// Plans to join the way `name` to the way `other`, which begins where `name` ends.
///
/// The way gets the other way's nodes except the first after its own, and the tags of both. The other way is removed.
/// In every relation, a member that names the other way is dropped if it comes right after a member that names the way
/// in the same role. Otherwise it names the way. (Editors' practice; the changes of members and the limits are this
/// project's.)
///
/// # Errors
///
/// The first of these that applies:
/// - `WrongKind`, if a name is not a way's; `name` is checked first
/// - `Same`, if both names are the same
/// - `Absent`, if the map does not have a way; `name` is checked first
/// - `NotEndToEnd`, if the last node of the way is not the first node of the other way
/// - `TooMany`, for more than 2,000 nodes
/// - `TagConflict` with the least key that has two values
/// - `TooMany`, for more than 1,000 tags
///
/// The last two need memory. `Memory` can replace them, but no other refusal.
#[tactic(auto, using(edit_simple::specs::Facts::Checked::named_if_none))]
pub fn plan_join<A: Allocator + Clone>(
    alloc: A,
    rows: &Draft<'_, A>,
    name: &Name,
    other: &Name,
) -> Result<Changes<A>, Refusal<A>>
    requires { is_sound rows.now ≡ true }
    ensures plan { IsPlan rows.now (join_checks rows.now name.now other.now)
        (after_join rows.now name.now other.now) result }

    // `Memory` can replace the refusals of the tags alone.
    ensures named { IsNamed (take 7 (join_checks rows.now name.now other.now)) result }
{
    let joined = way_of_both(&alloc, rows, name, other)?;
    let its_users = rows.users_of(alloc.clone()?, other)?;
    let names = subjects_and_users(alloc.clone()?, &[*name, *other], its_users.as_slice())?;
    let join = Join {
        name,
        other,
        joined,
    };
    Ok(change_rows(alloc, rows, &names, &join)?)
}

// Returns the joined way, or the refusal of two ways that cannot be joined. The checks run in their order, and the
// whole way is made before any change.
#[tactic(auto, using(edit_simple::specs::Facts::Checked::named_if_none))]
fn way_of_both<A: Allocator + Clone>(
    alloc: &A,
    rows: &Draft<'_, A>,
    name: &Name,
    other: &Name,
) -> Result<Element<A>, Refusal<A>>
    requires { is_sound rows.now ≡ true }
    ensures way { MatchResult result
        (λ joined. (first_that_holds (join_checks rows.now name.now other.now) ≡ None)
        × (joined ≡ way_of_both rows.now name.now other.now))
        (λ r. (first_that_holds (join_checks rows.now name.now other.now) ≡ Some r) ⊎ (r ≡ OutOfMemory)) }
    ensures named { IsNamed (take 7 (join_checks rows.now name.now other.now)) result }
{
    let ((nodes, tags), (other_nodes, other_tags)) = ways_to_join(rows, name, other)?;
    check_tags(tags, other_tags)?;
    let tags = both_tags(alloc.clone()?, name, tags, other_tags)?;
    let nodes = Shared::new(alloc.clone()?, end_to_end(nodes, other_nodes)?)?;
    Ok(Element::Way { nodes, tags })
}

// The nodes and the tags of a way.
type Parts<'m, A> = (&'m Shared<Nodes<A>, A>, &'m SharedTags<A>);

// Returns the nodes and the tags of both ways, or the first check of a join that holds, except the checks of the tags.
fn ways_to_join<'m, A: Allocator>(
    rows: &'m Draft<'_, A>,
    name: &Name,
    other: &Name,
) -> Result<(Parts<'m, A>, Parts<'m, A>), Refusal<A>>
    requires { is_sound rows.now ≡ true }
    ensures { MatchResult result
        (λ ways. (first_that_holds (take 7 (join_checks rows.now name.now other.now)) ≡ None)
        × (row_at rows.now name.now ≡ Some (Way ways.0.0.now ways.0.1.now))
        × (row_at rows.now other.now ≡ Some (Way ways.1.0.now ways.1.1.now)))
        (λ r. first_that_holds (take 7 (join_checks rows.now name.now other.now)) ≡ Some r) }
{
    check_names(name, other)?;
    let way = way_at(rows, name)?;
    let other_way = way_at(rows, other)?;
    check_lists(name, way.0.names(), other_way.0.names())?;
    Ok((way, other_way))
}

// Refuses names that are not ways' or are the same.
fn check_names<A: Allocator>(name: &Name, other: &Name) -> Result<(), Refusal<A>>
    ensures { result ≡ passed (first_that_holds (name_checks name.now other.now)) }
{
    if !is_way(name) {
        return Err(Refusal::WrongKind(*name));
    }
    if !is_way(other) {
        return Err(Refusal::WrongKind(*other));
    }
    if is_same(name, other) {
        return Err(Refusal::Same(*name));
    }
    Ok(())
}

// Refuses lists that do not meet end to end, and lists that are too long together.
fn check_lists<A: Allocator>(name: &Name, nodes: &[Name], others: &[Name]) -> Result<(), Refusal<A>>
    requires some { 1 ≤ length others.now }
    requires few { length nodes.now ≤ most_nodes }
    requires other_few { length others.now ≤ most_nodes }
    ensures { result ≡ passed (first_that_holds (list_checks name.now nodes.now others.now)) }
{
    if !meet_end_to_end(nodes, others) {
        return Err(Refusal::NotEndToEnd);
    }
    if nodes.len() + others.len() - 1 > MOST_NODES {
        return Err(Refusal::TooMany(*name));
    }
    Ok(())
}

// Whether the last node of the way is the first node of the other way.
fn meet_end_to_end(nodes: &[Name], others: &[Name]) -> bool
    ensures { result ≡ meet_end_to_end nodes.now others.now }
{
    nodes.last() == others.first()
}

// Refuses tags with two values of one key.
fn check_tags<A: Allocator + Clone>(
    tags: &SharedTags<A>,
    others: &SharedTags<A>,
) -> Result<(), Refusal<A>>
    ensures { MatchResult result
        (λ _. conflict tags.now others.now ≡ None)
        (λ r. (option_map TagConflict (conflict tags.now others.now) ≡ Some r) ⊎ (r ≡ OutOfMemory)) }
{
    match conflict(tags, others) {
        Some(key) => Err(Refusal::TagConflict(key.copy()?)),
        None => Ok(()),
    }
}

// Returns the way's nodes, followed by the other way's nodes except the first.
fn end_to_end<A: Allocator + Clone>(nodes: &Nodes<A>, others: &Nodes<A>) -> Result<Nodes<A>, Memory>
    requires { 1 ≤ length others.now }
    ensures { IfOk result (λ both. both ≡ end_to_end nodes.now others.now) }
{
    let mut names = nodes.copy()?.into_vec();
    names.extend_from_slice(&others.names()[1..])?;
    Ok(Nodes::from_vec(names))
}

// What a join makes of each row: the way becomes the joined way, and the other way is removed.
#[derive(Drop)]
struct Join<'j, A: Allocator> {
    name: &'j Name,
    other: &'j Name,
    joined: Element<A>,
}

impl<A: Allocator + Clone> RowChange<A> for Join<'_, A> {
    ghost becomes = { λ j y row. joined_row j.name.now j.other.now j.joined y row };

    fn after(
        &self,
        alloc: &A,
        name: &Name,
        row: Option<&Element<A>>,
    ) -> Result<Option<Element<A>>, Memory> {
        if is_same(name, self.name) {
            return Ok(Some(self.joined.copy()?));
        }
        match row {
            Some(element) if !is_same(name, self.other) => {
                Ok(Some(renamed(alloc, self.name, self.other, element)?))
            }
            _ => Ok(None),
        }
    }
}

// Returns an element whose members name the way in place of the other way.
fn renamed<A: Allocator + Clone>(
    alloc: &A,
    name: &Name,
    other: &Name,
    element: &Element<A>,
) -> Result<Element<A>, Memory>
    ensures { IfOk result (λ after. after ≡ with_members (joined_members name.now other.now) element.now) }
{
    match element {
        Element::Relation { members, tags } => Ok(Element::Relation {
            members: Shared::new(
                alloc.clone()?,
                joined_members(alloc.clone()?, name, other, members.as_slice())?,
            )?,
            tags: tags.copy()?,
        }),
        _ => element.copy(),
    }
}

// Returns the members after the join. A member that names the other way is dropped if it comes right after a member
// that names the way in the same role. Otherwise it names the way.
fn joined_members<A: Allocator + Clone>(
    alloc: A,
    name: &Name,
    other: &Name,
    members: &[Member<A>],
) -> Result<Members<A>, Memory>
    ensures { IfOk result (λ joined. joined ≡ joined_members name.now other.now (map member_pair members.now)) }
{
    let mut joined = Members::empty(alloc);
    let mut before = None;
    for member in members {
        if !goes_on(name, other, before, member) {
            joined.push(renamed_member(name, other, member)?)?;
        }
        before = Some(member);
    }
    Ok(joined)
}

// Whether a member names the other way, and the member in front of it names the way in the same role.
fn goes_on<A: Allocator>(
    name: &Name,
    other: &Name,
    before: Option<&Member<A>>,
    member: &Member<A>,
) -> bool
    ensures { result
        ≡ goes_on name.now other.now (option_map member_pair (option_copied before.entry)) (member_pair member.now) }
{
    match before {
        Some(before) => {
            is_same(other, &member.name)
                && is_same(name, &before.name)
                && is_same_text(&before.role, &member.role)
        }
        None => false,
    }
}

// Returns a member, with the way's name in place of the other way's.
fn renamed_member<A: Allocator + Clone>(
    name: &Name,
    other: &Name,
    member: &Member<A>,
) -> Result<Member<A>, Memory>
    ensures { IfOk result (λ m. member_pair m ≡ (renamed other.now name.now member.now.name, member.now.role)) }
{
    let new = if is_same(other, &member.name) {
        *name
    } else {
        member.name
    };
    Ok(Member::new(new, member.role.copy()?))
}
