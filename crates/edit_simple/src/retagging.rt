//! The plan that sets tags of an element.
ghost use Rattle.std.specs.Prelude.{◌≡◌, ◌⊎◌, ◌<◌, ◌≤◌, true, false, T, map, length, nat_lt, nat_eq, is_some, take, MatchResult, IfOk, OnOk, IfErr};
ghost use Rattle.room_interface.specs.Prelude.{is_sorted, text_cmp, value_at, AreGiven, given_pair};
ghost use Rattle.osm_drafts.specs.Prelude.{are_same_tags, is_sound};
ghost use Rattle.room_interface.specs.declared.refusal.Refusal.TheVariants.{TooMany, Memory as OutOfMemory};
ghost use Rattle.edit_simple.specs.Inner.Retagging.{all_removed, all_valued, valued};
ghost use Rattle.edit_simple.specs.Contents.{with_tags};
ghost use Rattle.edit_simple.specs.Plans.{IsNamed, IsPlan};
ghost use Rattle.edit_simple.specs.Retag.{retag_checks, after_retag};
ghost use Rattle.edit_simple.specs.Tagging.{retagged, most_tags};
ghost use Rattle.osm_elements.specs.declared.fault.TextFault.TheVariants as faults;

use crate::changing::one_change;
use osm_changes::changes::Changes;
use osm_changes::same::are_same_tags;
use osm_drafts::draft::Draft;
use osm_elements::Memory;
use osm_elements::element::Element;
use osm_elements::fault::TextFault;
use osm_elements::name::Name;
use osm_elements::shared_tags::SharedTags;
use osm_elements::tags::Tags;
use room_interface::refusal::Refusal;
use room_interface::retag::{Given, Retag};
use std::alloc::Allocator;

/// Plans to set tags of an element: each given key gets its value, or its tag is removed if it is given no value.
///
/// # Errors
///
/// - `Absent`, if the map does not have the name
/// - `TooMany`, if the element would have more than 1,000 tags, a limit of this project
/// - `Nothing`, if the tags of the element would be the same
///
/// The last two need memory. `Memory` can replace them, but not `Absent`.
#[tactic(auto, using(crate::specs::Facts::Checked::named_if_none))]
pub fn plan_retag<A: Allocator + Clone>(
    alloc: A,
    rows: &Draft<'_, A>,
    name: &Name,
    given: &Retag<A>,
) -> Result<Changes<A>, Refusal<A>>
    requires { is_sound rows.now ≡ true }
    ensures plan { IsPlan rows.now (retag_checks rows.now name.now given.now)
        (after_retag rows.now name.now given.now) result }

    // `Memory` can replace `TooMany` and `Nothing`.
    ensures named { IsNamed (take 1 (retag_checks rows.now name.now given.now)) result }
{
    let Some(element) = rows.get(name) else {
        return Err(Refusal::Absent(*name));
    };
    let tags = retagged(alloc.clone()?, name, element.tags(), given)?;
    if are_same_tags(element.tags(), &tags) {
        return Err(Refusal::Nothing);
    }
    let before = element.copy()?;
    let after = with_tags(element, tags)?;
    Ok(one_change(alloc, name, Some(before), Some(after))?)
}

// Returns the tags after each given key got its value or was removed, or `TooMany` if there are more than 1,000.
fn retagged<A: Allocator + Clone>(
    alloc: A,
    name: &Name,
    tags: &SharedTags<A>,
    given: &Retag<A>,
) -> Result<SharedTags<A>, Refusal<A>>
    ensures { MatchResult result
        (λ new. (nat_lt most_tags (length (retagged tags.now given.now)) ≡ false) × (new ≡ retagged tags.now given.now))
        (λ r. ((nat_lt most_tags (length (retagged tags.now given.now)) ≡ true) × (r ≡ TooMany name.now))
        ⊎ (r ≡ OutOfMemory)) }
{
    let _ = tags.rows();
    let mut new = tags.own(alloc.clone()?)?;
    remove_tags(&mut new, given.rows());
    let _ = new.rows();
    match put_values(&mut new, given.rows()) {
        Ok(()) => {
            let _ = new.rows();
            Ok(SharedTags::new(alloc, new)?)
        }
        Err(TextFault::TooManyTags) => Err(Refusal::TooMany(*name)),
        Err(_) => Err(Refusal::Memory),
    }
}

// Removes the tags of the keys without a value.
fn remove_tags<A: Allocator>(tags: &mut Tags<A>, given: &[Given<A>])
    ensures { tags.new ≡ all_removed tags.old (map given_pair given.now) }
{
    for row in given {
        if row.value.is_none() {
            let _ = tags.clear(row.key.as_str());
        }
    }
}

// Sets the values of the keys with a value. If it returns an error, it may have set some of them.
fn put_values<A: Allocator + Clone>(tags: &mut Tags<A>, given: &[Given<A>]) -> Result<(), TextFault>
    requires sorted { T (is_sorted text_cmp tags.old) }
    requires given { AreGiven (map given_pair given.now) }
    ensures ok { OnOk result (tags.new ≡ all_valued tags.old (map given_pair given.now)) }
    ensures err { IfErr result
        (λ e. ((e ≡ faults.TooManyTags) × (1000 < length (all_valued tags.old (map given_pair given.now))))
        ⊎ (e ≡ faults.Memory)) }
{
    for row in given {
        put_value(tags, row)?;
    }
    Ok(())
}

// Sets the value of a key, if the row has a value.
fn put_value<A: Allocator + Clone>(tags: &mut Tags<A>, row: &Given<A>) -> Result<(), TextFault>
    requires key { nat_eq (length row.now.key) 0 ≡ false }
    ensures ok { OnOk result (tags.new ≡ valued tags.old row.now.key row.now.value) }
    ensures err { IfErr result (λ e. (e ≡ faults.Memory)
        ⊎ ((e ≡ faults.TooManyTags) × (is_some row.now.value ≡ true) × (is_some (value_at tags.old row.now.key) ≡ false)
        × (1000 ≤ length tags.old))) }
{
    let Some(value) = &row.value else {
        return Ok(());
    };
    tags.set(row.key.copy()?, value.copy()?)
}

// Returns a copy of the element with these tags.
fn with_tags<A: Allocator + Clone>(
    element: &Element<A>,
    tags: SharedTags<A>,
) -> Result<Element<A>, Memory>
    ensures { IfOk result (λ v. v ≡ with_tags (λ _. tags) element.now) }
{
    match element {
        Element::Node { lat, lon, .. } => Ok(Element::Node {
            lat: *lat,
            lon: *lon,
            tags,
        }),
        Element::Way { nodes, .. } => {
            let nodes = nodes.copy()?;
            Ok(Element::Way { nodes, tags })
        }
        Element::Relation { members, .. } => {
            let members = members.copy()?;
            Ok(Element::Relation { members, tags })
        }
    }
}
