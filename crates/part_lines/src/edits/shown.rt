//! Writing elements, changes and stores as texts.
use edit_footprint::footprint::Footprint;
use osm_changes::changed_row::ChangedRow;
use osm_changes::changes::Changes;
use osm_changes::store::Store;
use osm_elements::element::Element;
use osm_elements::map::{Row, Rows};
use osm_elements::member::Member;
use osm_elements::name::Name;
use osm_elements::shared_tags::SharedTags;
use osm_elements::tags::Tag;
use osm_refs::users::Users;
use std::alloc::{AllocError, Global};

// Writes a space and a name.
fn put_name(alloc: Global, text: &mut String, name: &Name) -> Result<(), AllocError> {
    let letter = char::from(name.kind().letter());
    let written = format!(in alloc; " {letter}{}", name.id())?;
    text.push_str(written.as_str())
}

// Writes names, each after a space.
fn put_names(alloc: Global, text: &mut String, names: &[Name]) -> Result<(), AllocError> {
    for name in names {
        put_name(alloc, text, name)?;
    }
    Ok(())
}

fn put_members(
    alloc: Global,
    text: &mut String,
    members: &[Member<Global>],
) -> Result<(), AllocError> {
    for member in members {
        put_name(alloc, text, &member.name)?;
        text.push('/')?;
        text.push_str(member.role.as_str())?;
    }
    Ok(())
}

fn put_tags(text: &mut String, tags: &SharedTags<Global>) -> Result<(), AllocError> {
    for tag in tags.rows() {
        put_tag_copied(text, tag)?;
    }
    Ok(())
}

// Writes a copy of a tag.
fn put_tag_copied(text: &mut String, tag: &Tag<Global>) -> Result<(), AllocError> {
    put_tag(text, &tag.copy()?)
}

fn put_tag(text: &mut String, tag: &Tag<Global>) -> Result<(), AllocError> {
    text.push(' ')?;
    text.push_str(tag.key.as_str())?;
    text.push('=')?;
    text.push_str(tag.value.as_str())
}

// Writes an element, with a space in front of each part.
fn put_element(
    alloc: Global,
    text: &mut String,
    element: &Element<Global>,
) -> Result<(), AllocError> {
    match element {
        Element::Node { lat, lon, .. } => {
            let position = format!(in alloc; " {},{}", lat.value(), lon.value())?;
            text.push_str(position.as_str())?;
        }
        Element::Way { nodes, .. } => put_names(alloc, text, nodes.names())?,
        Element::Relation { members, .. } => put_members(alloc, text, members.as_slice())?,
    }
    put_tags(text, element.tags())
}

// Writes an element before or after changes, or `none`.
fn put_side(
    alloc: Global,
    text: &mut String,
    element: Option<&Element<Global>>,
) -> Result<(), AllocError> {
    match element {
        Some(element) => put_element(alloc, text, element),
        None => text.push_str(" none"),
    }
}

// Writes a changed name with its elements before and after, if any.
fn put_change(
    alloc: Global,
    text: &mut String,
    row: &ChangedRow<Global>,
) -> Result<(), AllocError> {
    put_name(alloc, text, &row.name)?;
    text.push(':')?;
    put_side(alloc, text, row.before.as_ref())?;
    text.push_str(" ->")?;
    put_side(alloc, text, row.after.as_ref())?;
    text.push(';')
}

// Writes a row, and the names that refer to it.
fn put_row(
    alloc: Global,
    text: &mut String,
    row: &Row<Global>,
    users: &[Name],
) -> Result<(), AllocError> {
    put_name(alloc, text, &row.name)?;
    text.push(':')?;
    put_element(alloc, text, &row.element)?;
    text.push_str(" <-")?;
    put_names(alloc, text, users)?;
    text.push(';')
}

// Writes a copy of a row, and the names that refer to it.
fn put_row_copied(
    alloc: Global,
    text: &mut String,
    row: &Row<Global>,
    users: &Users<Global>,
) -> Result<(), AllocError> {
    put_row(alloc, text, &row.copy()?, users.of(&row.name))
}

/// Returns the names of a footprint as a text, each once and after a space.
pub fn touched_shown(alloc: Global, touched: &Footprint<Global>) -> Result<String, AllocError> {
    let mut names: Vec<Name> = Vec::new(alloc);
    for touch in touched.touches() {
        let name = touch.name();
        match names.last() {
            Some(last) if *last == name => {}
            _ => names.push(name)?,
        }
    }
    let mut text = String::new(alloc);
    put_names(alloc, &mut text, &names)?;
    Ok(text)
}

/// Returns a copy of a store's changes as a text. It has each changed name once, with its whole element before and
/// after, for example `w1: n1 n2 -> n2 n1;`, each after a space. `none` stands for no element.
pub fn changes_shown(
    alloc: Global,
    store: &Store<Global>,
    changes: &Changes<Global>,
) -> Result<String, AllocError> {
    let rows = store.changed_rows(alloc, &changes.copy()?)?;
    let mut text = String::new(alloc);
    for row in rows.as_slice() {
        put_change(alloc, &mut text, row)?;
    }
    Ok(text)
}

/// Returns the map and the users of a store as a text. It has each row with the names that refer to it, for example
/// `w1: n1 n2 <- r1;`, each after a space.
pub fn store_shown(alloc: Global, store: &Store<Global>) -> Result<String, AllocError> {
    let rows = rows_copied(alloc, store)?;
    rows_shown(alloc, &rows, store)
}

// Returns a copy of the rows of a copy of the map.
fn rows_copied(alloc: Global, store: &Store<Global>) -> Result<Rows<Global>, AllocError> {
    store.map().copy()?.rows(alloc)?.copy()
}

// Returns rows as a text, with their users from a copy.
fn rows_shown(
    alloc: Global,
    rows: &Rows<Global>,
    store: &Store<Global>,
) -> Result<String, AllocError> {
    let users = store.users().copy()?;
    put_rows(alloc, rows, &users)
}

fn put_rows(
    alloc: Global,
    rows: &Rows<Global>,
    users: &Users<Global>,
) -> Result<String, AllocError> {
    let mut text = String::new(alloc);
    for row in rows.iter() {
        put_row_copied(alloc, &mut text, row, users)?;
    }
    Ok(text)
}
