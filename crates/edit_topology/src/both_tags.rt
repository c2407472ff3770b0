//! Unites the tags of two elements.
ghost use Rattle.std.specs.Prelude.{◌≡◌, ◌⊎◌, ◌<◌, ◌≤◌, true, false, T, map, length, nat_lt, nat_eq, is_some, MatchResult, OnOk, IfErr, option_copied};
ghost use Rattle.edit_simple.specs.Prelude.{is_sorted, put, text_cmp, value_at, AreTagRows, tag_pair, most_tags};
ghost use Rattle.room_interface.specs.declared.refusal.Refusal.TheVariants.{TooMany, Memory as OutOfMemory};
ghost use Rattle.edit_topology.specs.BothTags.{both_tags, is_another, conflict};
ghost use Rattle.osm_elements.specs.declared.fault.TextFault.TheVariants as faults;

use osm_elements::fault::TextFault;
use osm_elements::name::Name;
use osm_elements::shared_tags::SharedTags;
use osm_elements::tags::{Tag, Tags};
use osm_elements::text::{Text, is_same_text};
use room_interface::refusal::Refusal;
use std::alloc::Allocator;

/// Returns the least key that has different values in `tags` and `others`, or `None` if there is no such key. Keys
/// rise, so the first such key is the least.
pub fn conflict<'a, A: Allocator>(
    tags: &'a SharedTags<A>,
    others: &SharedTags<A>,
) -> Option<&'a Text<A>>
    ensures { option_copied result ≡ conflict tags.now others.now }
{
    for tag in tags.rows() {
        if has_another(others, tag) {
            return Some(&tag.key);
        }
    }
    None
}

// Whether `tags` has a different value at the key of `tag`.
fn has_another<A: Allocator>(tags: &SharedTags<A>, tag: &Tag<A>) -> bool
    ensures { result ≡ is_another (value_at tags.now tag.now.key) tag.now.value }
{
    match tags.get(tag.key.as_str()) {
        Some(other) => !is_same_text(other, &tag.value),
        None => false,
    }
}

/// Returns the tags of both elements. If both have a key, the value is that of `others`.
///
/// # Errors
///
/// `TooMany` with `name`, if there are more than 1,000 tags. `Memory`, if an allocation fails.
pub fn both_tags<A: Allocator + Clone>(
    alloc: A,
    name: &Name,
    tags: &SharedTags<A>,
    others: &SharedTags<A>,
) -> Result<SharedTags<A>, Refusal<A>>
    ensures { MatchResult result
        (λ new. (nat_lt most_tags (length (both_tags tags.now others.now)) ≡ false)
        × (new ≡ both_tags tags.now others.now))
        (λ r. ((nat_lt most_tags (length (both_tags tags.now others.now)) ≡ true) × (r ≡ TooMany name.now))
        ⊎ (r ≡ OutOfMemory)) }
{
    let _ = tags.rows();
    let mut both = tags.own(alloc.clone()?)?;
    match put_all(&mut both, others.rows()) {
        Ok(()) => {
            let _ = both.rows();
            Ok(SharedTags::new(alloc, both)?)
        }
        Err(TextFault::TooManyTags) => Err(Refusal::TooMany(*name)),
        Err(_) => Err(Refusal::Memory),
    }
}

// Puts each of the others among the tags. If it refuses, the tags must be discarded.
fn put_all<A: Allocator + Clone>(tags: &mut Tags<A>, others: &[Tag<A>]) -> Result<(), TextFault>
    requires sorted { T (is_sorted text_cmp tags.old) }
    requires others { AreTagRows (map tag_pair others.now) }
    ensures ok { OnOk result (tags.new ≡ both_tags tags.old (map tag_pair others.now)) }
    ensures err { IfErr result
        (λ e. ((e ≡ faults.TooManyTags) × (1000 < length (both_tags tags.old (map tag_pair others.now))))
        ⊎ (e ≡ faults.Memory)) }
{
    for tag in others {
        put_one(tags, tag)?;
    }
    Ok(())
}

// Sets the value of one tag's key.
fn put_one<A: Allocator + Clone>(tags: &mut Tags<A>, tag: &Tag<A>) -> Result<(), TextFault>
    requires key { nat_eq (length tag.now.key) 0 ≡ false }
    ensures ok { OnOk result (tags.new ≡ put text_cmp tag.now.key tag.now.value tags.old) }
    ensures err { IfErr result (λ e. (e ≡ faults.Memory)
        ⊎ ((e ≡ faults.TooManyTags) × (is_some (value_at tags.old tag.now.key) ≡ false) × (1000 ≤ length tags.old))) }
{
    tags.set(tag.key.copy()?, tag.value.copy()?)
}
