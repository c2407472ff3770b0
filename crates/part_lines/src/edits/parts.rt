//! Reading names and parts of elements from texts. Words that do not belong to the part that is read are skipped.
use crate::edits::unread::Unread;
use osm_elements::member::Member;
use osm_elements::members::Members;
use osm_elements::name::{Kind, Name};
use osm_elements::names::Names;
use osm_elements::nodes::Nodes;
use osm_elements::tags::Tags;
use osm_elements::text::Text;
use room_interface::retag::Retag;
use std::alloc::Global;

/// Reads a text as a name.
pub fn name(text: &str) -> Result<Name, Unread> {
    Name::read(text).ok_or(Unread::NoEdit)
}

/// Reads two numbers with a comma between them.
pub fn pair(words: &str) -> Result<(i64, i64), Unread> {
    let (word, _) = words.split_once(' ').unwrap_or((words, ""));
    let (first, second) = word.split_once(',').ok_or(Unread::NoEdit)?;
    Ok((number(first)?, number(second)?))
}

// Reads a text as a number.
fn number(text: &str) -> Result<i64, Unread> {
    text.parse::<i64>().map_err(|_| Unread::NoEdit)
}

/// Returns the names among the words.
pub fn names(alloc: Global, words: &str) -> Result<Names<Global>, Unread> {
    let mut names = Names::empty(alloc);
    for word in words.split(' ') {
        if let Some(name) = Name::read(word) {
            names.push(name)?;
        }
    }
    Ok(names)
}

/// Returns the names of nodes among the words.
pub fn nodes(alloc: Global, words: &str) -> Result<Nodes<Global>, Unread> {
    let mut nodes = Nodes::empty(alloc);
    for word in words.split(' ') {
        if let Some(name) = Name::read(word) {
            match name.kind() {
                Kind::Node => nodes.push(name)?,
                Kind::Way | Kind::Relation => {}
            }
        }
    }
    Ok(nodes)
}

/// Returns the members among the words: a name, a slash and a role.
pub fn members(alloc: Global, words: &str) -> Result<Members<Global>, Unread> {
    let mut members = Members::empty(alloc);
    for word in words.split(' ') {
        if let Some((member, role)) = word.split_once('/') {
            members.push(member_of(alloc, member, role)?)?;
        }
    }
    Ok(members)
}

// Returns the member with a name and a role.
fn member_of(alloc: Global, member: &str, role: &str) -> Result<Member<Global>, Unread> {
    let name = name(member)?;
    Ok(Member::new(name, Text::new(alloc, role)?))
}

/// Returns the tags among the words: a key, an equals sign and a value.
pub fn tags(alloc: Global, words: &str) -> Result<Tags<Global>, Unread> {
    let mut tags = Tags::empty(alloc);
    for word in words.split(' ') {
        if let Some((key, value)) = word.split_once('=') {
            set_tag(alloc, &mut tags, key, value)?;
        }
    }
    Ok(tags)
}

fn set_tag(alloc: Global, tags: &mut Tags<Global>, key: &str, value: &str) -> Result<(), Unread> {
    let key = Text::new(alloc, key)?;
    let value = Text::new(alloc, value)?;
    tags.set(key, value)?;
    Ok(())
}

/// Returns the values that the words give to keys: `key=value` gives a value, and `-key` none.
pub fn retag(alloc: Global, words: &str) -> Result<Retag<Global>, Unread> {
    let mut given = Retag::empty(alloc);
    for word in words.split(' ') {
        if let Some((key, value)) = word.split_once('=') {
            give(alloc, &mut given, key, Some(value))?;
        } else if let Some(key) = word.strip_prefix('-') {
            give(alloc, &mut given, key, None)?;
        }
    }
    Ok(given)
}

// Gives a key a value or none.
fn give(
    alloc: Global,
    given: &mut Retag<Global>,
    key: &str,
    value: Option<&str>,
) -> Result<(), Unread> {
    let key = Text::new(alloc, key)?;
    let value = match value {
        Some(value) => Some(Text::new(alloc, value)?),
        None => None,
    };
    given.set(key, value)?;
    Ok(())
}
