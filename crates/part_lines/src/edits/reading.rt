//! Reading elements and actions from texts.
use crate::edits::parts::{members, name, names, nodes, pair, retag, tags};
use crate::edits::unread::Unread;
use osm_coords::{Lat, Lon};
use osm_elements::element::Element;
use osm_elements::name::{Kind, Name};
use osm_elements::shared::Shared;
use osm_elements::shared_tags::SharedTags;
use room_interface::action::Action;
use std::alloc::Global;

/// Reads words as an element of this kind.
pub fn element(alloc: Global, kind: Kind, words: &str) -> Result<Element<Global>, Unread> {
    let tags = SharedTags::new(alloc, tags(alloc, words)?)?;
    match kind {
        Kind::Node => {
            let (lat, lon) = pair(words)?;
            let lat = Lat::new(coordinate(lat)?).ok_or(Unread::NoEdit)?;
            let lon = Lon::new(coordinate(lon)?).ok_or(Unread::NoEdit)?;
            Ok(Element::Node { lat, lon, tags })
        }
        Kind::Way => {
            let nodes = Shared::new(alloc, nodes(alloc, words)?)?;
            Ok(Element::Way { nodes, tags })
        }
        Kind::Relation => {
            let members = Shared::new(alloc, members(alloc, words)?)?;
            Ok(Element::Relation { members, tags })
        }
    }
}

// Returns a number as the value of a coordinate.
fn coordinate(value: i64) -> Result<i32, Unread> {
    i32::try_from(value).map_err(|_| Unread::NoEdit)
}

/// Reads a text as an action. A move is written `move 7,-8 n1 w1`, a split `split w1 1 w2`, an unglue `unglue w1 1 n2`.
pub fn action(alloc: Global, text: &str) -> Result<Action<Global>, Unread> {
    let (word, rest) = text.split_once(' ').ok_or(Unread::NoEdit)?;
    if word == "move" {
        let (dlat, dlon) = pair(rest)?;
        let names = names(alloc, rest)?.copy()?;
        return Ok(Action::Move { names, dlat, dlon });
    }
    let (first, rest) = rest.split_once(' ').unwrap_or((rest, ""));
    named_action(alloc, word, name(first)?, rest)
}

// Reads an action on one name from its word, the name and the remaining words.
fn named_action(
    alloc: Global,
    word: &str,
    name: Name,
    rest: &str,
) -> Result<Action<Global>, Unread> {
    match word {
        "create" => {
            let element = element(alloc, name.kind(), rest)?;
            Ok(Action::Create { name, element })
        }
        "retag" => {
            let tags = retag(alloc, rest)?.copy()?;
            Ok(Action::Retag { name, tags })
        }
        "reverse" => Ok(Action::Reverse { name }),
        "nodes" => {
            let list = Shared::new(alloc, nodes(alloc, rest)?)?;
            Ok(Action::Nodes { name, list })
        }
        "members" => {
            let list = Shared::new(alloc, members(alloc, rest)?)?;
            Ok(Action::Members { name, list })
        }
        "delete" => Ok(Action::Delete { name }),
        "purge" => Ok(Action::Purge { name }),
        "split" => split(name, rest),
        "join" => Ok(Action::Join {
            name,
            other: crate::edits::parts::name(rest)?,
        }),
        "merge" => Ok(Action::Merge {
            name,
            other: crate::edits::parts::name(rest)?,
        }),
        "unglue" => unglue(name, rest),
        _ => Err(Unread::NoEdit),
    }
}

// Reads the position and the new way of a split.
fn split(name: Name, words: &str) -> Result<Action<Global>, Unread> {
    let (place, into) = place_and_name(words)?;
    Ok(Action::Split { name, place, into })
}

// Reads the position and the new node of an unglue.
fn unglue(name: Name, words: &str) -> Result<Action<Global>, Unread> {
    let (place, into) = place_and_name(words)?;
    Ok(Action::Unglue { name, place, into })
}

// Reads a position and a name.
fn place_and_name(words: &str) -> Result<(u32, Name), Unread> {
    let (place, name) = words.split_once(' ').ok_or(Unread::NoEdit)?;
    let place = place.parse::<u32>().map_err(|_| Unread::NoEdit)?;
    Ok((place, crate::edits::parts::name(name)?))
}
