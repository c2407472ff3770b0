//! Tests of equality on rows and their contents.
ghost use Rattle.std.specs.Prelude.{◌≡◌, ◌&&◌, length, map, option_copied};
ghost use Rattle.osm_refs.specs.Prelude.{is_same, member_pair, tag_pair, is_same_text};
ghost use Rattle.osm_changes.specs.SameRows.{are_same_names, are_same_members, are_same_tags, is_same_element, is_same_row};

use osm_elements::element::Element;
use osm_elements::member::Member;
use osm_elements::members::Members;
use osm_elements::name::Name;
use osm_elements::names::is_same;
use osm_elements::shared_tags::SharedTags;
use osm_elements::tags::Tag;
use osm_elements::text::is_same_text;
use std::alloc::Allocator;

/// Returns whether both rows are there and the same, or neither is there.
pub fn is_same_row<A: Allocator>(one: &Option<Element<A>>, other: Option<&Element<A>>) -> bool
    ensures { result ≡ is_same_row one.now (option_copied other.entry) }
{
    match (one, other) {
        (Some(one), Some(other)) => is_same_element(one, other),
        (None, None) => true,
        _ => false,
    }
}

// Returns whether two elements are the same.
fn is_same_element<A: Allocator>(one: &Element<A>, other: &Element<A>) -> bool
    ensures { result ≡ is_same_element one.now other.now }
{
    match (one, other) {
        (
            Element::Node { lat, lon, tags },
            Element::Node {
                lat: lat2,
                lon: lon2,
                tags: tags2,
            },
        ) => {
            lat.value() == lat2.value() && lon.value() == lon2.value() && are_same_tags(tags, tags2)
        }
        (
            Element::Way { nodes, tags },
            Element::Way {
                nodes: nodes2,
                tags: tags2,
            },
        ) => are_same_names(nodes.names(), nodes2.names()) && are_same_tags(tags, tags2),
        (
            Element::Relation { members, tags },
            Element::Relation {
                members: members2,
                tags: tags2,
            },
        ) => are_same_members(members, members2) && are_same_tags(tags, tags2),
        _ => false,
    }
}

/// Returns whether two lists have the same names in the same order.
pub fn are_same_names(one: &[Name], other: &[Name]) -> bool
    ensures { result ≡ are_same_names one.now other.now }
{
    one == other
}

/// Returns whether two lists of tags are the same.
pub fn are_same_tags<A: Allocator>(one: &SharedTags<A>, other: &SharedTags<A>) -> bool
    ensures { result ≡ are_same_tags one.now other.now }
{
    one.len() == other.len() && tags_begin_alike(one.rows(), other.rows())
}

// Returns whether two lists of tags of the same length are the same.
fn tags_begin_alike<A: Allocator>(one: &[Tag<A>], other: &[Tag<A>]) -> bool
    requires { length one.now ≡ length other.now }
    ensures { result ≡ are_same_tags (map tag_pair one.now) (map tag_pair other.now) }
{
    for (place, tag) in one.iter().enumerate() {
        if !is_same_tag(tag, &other[place]) {
            return false;
        }
    }
    true
}

// Returns whether two tags have the same key and the same value.
fn is_same_tag<A: Allocator>(one: &Tag<A>, other: &Tag<A>) -> bool
    ensures { result ≡ (is_same_text one.now.key other.now.key && is_same_text one.now.value other.now.value) }
{
    is_same_text(&one.key, &other.key) && is_same_text(&one.value, &other.value)
}

/// Returns whether two lists have the same members in the same order.
pub fn are_same_members<A: Allocator>(one: &Members<A>, other: &Members<A>) -> bool
    ensures { result ≡ are_same_members one.now other.now }
{
    one.len() == other.len() && members_begin_alike(one.as_slice(), other.as_slice())
}

// Returns whether two lists of members of the same length are the same.
fn members_begin_alike<A: Allocator>(one: &[Member<A>], other: &[Member<A>]) -> bool
    requires { length one.now ≡ length other.now }
    ensures { result ≡ are_same_members (map member_pair one.now) (map member_pair other.now) }
{
    for (place, member) in one.iter().enumerate() {
        if !is_same_member(member, &other[place]) {
            return false;
        }
    }
    true
}

// Returns whether two members have the same name and the same role.
fn is_same_member<A: Allocator>(one: &Member<A>, other: &Member<A>) -> bool
    ensures { result ≡ (is_same one.now.name other.now.name && is_same_text one.now.role other.now.role) }
{
    is_same(&one.name, &other.name) && is_same_text(&one.role, &other.role)
}
