//! The plan that gives a relation new members.
ghost use Rattle.std.specs.Prelude.{◌≡◌, ◌⊎◌, true, false, [], ◌∷◌, not, MatchResult, Some, Err};
ghost use Rattle.osm_drafts.specs.Prelude.{then_some, is_absent, row_at, row_changes, are_same_members, is_sound};
ghost use Rattle.osm_elements.specs.declared.element.Element.TheVariants.{Relation};
ghost use Rattle.room_interface.specs.declared.refusal.Refusal.TheVariants.{WrongKind, Absent, Nothing, Memory as OutOfMemory};
ghost use Rattle.edit_simple.specs.Checks.{first_that_holds};
ghost use Rattle.edit_simple.specs.Kinds.{is_relation};
ghost use Rattle.edit_simple.specs.Members.{members_checks, after_members};
ghost use Rattle.edit_simple.specs.Plans.{IsNamed, IsPlan};

use crate::changing::one_change;
use crate::kinds::is_relation;
use crate::limits::MOST_MEMBERS;
use crate::lookup::least_missing_member;
use osm_changes::changes::Changes;
use osm_changes::same::are_same_members;
use osm_drafts::draft::Draft;
use osm_elements::element::Element;
use osm_elements::members::Members;
use osm_elements::name::Name;
use osm_elements::shared::Shared;
use osm_elements::shared_tags::SharedTags;
use room_interface::refusal::Refusal;
use std::alloc::Allocator;

/// Plans to give a relation new members. It looks up each of the members.
///
/// # Errors
///
/// - `WrongKind`, if the name is not a relation's
/// - `Absent`, if the map does not have the name
/// - `TooMany`, if there are more than 32,000 members, a limit of this project
/// - `Absent`, with the least member that the map does not have
/// - `Nothing`, if these are the members of the relation
#[tactic(auto, using(crate::specs::Facts::Checked::named_if_none))]
pub fn plan_members<A: Allocator + Clone>(
    alloc: A,
    rows: &Draft<'_, A>,
    name: &Name,
    list: &Shared<Members<A>, A>,
) -> Result<Changes<A>, Refusal<A>>
    requires { is_sound rows.now ≡ true }
    ensures plan { IsPlan rows.now (members_checks rows.now name.now list.now)
        (after_members rows.now name.now list.now) result }
    ensures named { IsNamed (members_checks rows.now name.now list.now) result }
{
    let (members, tags) = relation_at(rows, name)?;
    if list.len() > MOST_MEMBERS {
        return Err(Refusal::TooMany(*name));
    }
    if let Some(absent) = least_missing_member(rows, name, list.as_slice()) {
        return Err(Refusal::Absent(absent));
    }
    change_members(alloc, name, members, tags, list)
}

// Returns the members and the tags of a relation, or the refusal if the name is not a relation's or is absent.
fn relation_at<'m, A: Allocator>(
    rows: &'m Draft<'_, A>,
    name: &Name,
) -> Result<(&'m Shared<Members<A>, A>, &'m SharedTags<A>), Refusal<A>>
    requires { is_sound rows.now ≡ true }
    ensures { MatchResult result
        (λ relation. (is_relation name.now.kind ≡ true)
        × (row_at rows.now name.now ≡ Some (Relation relation.0.now relation.1.now)))
        (λ r. first_that_holds (then_some (not (is_relation name.now.kind)) (WrongKind name.now)
        ∷ then_some (is_absent rows.now name.now) (Absent name.now) ∷ []) ≡ Some r) }
{
    if !is_relation(name) {
        return Err(Refusal::WrongKind(*name));
    }
    let Some(element) = rows.get(name) else {
        return Err(Refusal::Absent(*name));
    };
    match element {
        Element::Relation { members, tags } => Ok((members, tags)),
        _ => unreachable!(),
    }
}

// Returns the changes of a relation that gets the members `others`, or `Nothing` if it has these.
fn change_members<A: Allocator + Clone>(
    alloc: A,
    name: &Name,
    members: &Shared<Members<A>, A>,
    tags: &SharedTags<A>,
    others: &Shared<Members<A>, A>,
) -> Result<Changes<A>, Refusal<A>>
    ensures changed { MatchResult result
        (λ cs. (are_same_members members.now others.now ≡ false)
        × (cs ≡ row_changes name.now (Some (Relation members.now tags.now)) (Some (Relation others.now tags.now))))
        (λ r. ((are_same_members members.now others.now ≡ true) × (r ≡ Nothing)) ⊎ (r ≡ OutOfMemory)) }
    ensures named { are_same_members members.now others.now ≡ true → result ≡ Err Nothing }
{
    if are_same_members(members, others) {
        return Err(Refusal::Nothing);
    }
    let before = Element::Relation {
        members: members.copy()?,
        tags: tags.copy()?,
    };
    let after = Element::Relation {
        members: others.copy()?,
        tags: tags.copy()?,
    };
    Ok(one_change(alloc, name, Some(before), Some(after))?)
}
