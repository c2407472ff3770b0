//! Reading the tags of an element, and the values that a retag gives to keys.
ghost use Rattle.std.specs.Prelude.{◌≡◌, ◌≢◌, ◌<◌, [], length, OnOk, IfErr};
ghost use Rattle.room_interface.specs.Prelude.{put, text_cmp};
ghost use Rattle.json_values.specs.Views.{members_view, view};
ghost use Rattle.room_wire.specs.Reading.{Gives, or_fault};
ghost use Rattle.room_wire.specs.Spelling.{key_of, value_of, given_of, entry_of, tags_of, tags_at, given_tags_of, given_tags_at, text_of};
ghost use Rattle.room_wire.specs.declared.bad.Fault.TheVariants.{BadField, Memory};
ghost use Rattle.room_wire.specs.declared.field.Field.TheVariants as field;

use crate::bad::Fault;
use crate::field::Field;
use crate::fields::value_at;
use crate::forms::{fault_in, text_of};
use json_values::Value;
use json_values::look::{self, Members};
use osm_elements::shared_tags::SharedTags;
use osm_elements::tags::{MOST_TAGS, Tags};
use osm_elements::text::Text;
use room_interface::retag::Retag;
use std::alloc::Global;

// Reads the tags of an element, which may be missing.
pub fn tags_of(alloc: Global, message: &Value<'_>) -> Result<SharedTags<Global>, Fault>
    ensures { Gives result (tags_at (view message.now)) }
{
    match value_at(message, Field::Tags) {
        None => Ok(SharedTags::empty()),
        Some(value) => match look::members(alloc, value)? {
            Some(members) if members.is_empty() => Ok(SharedTags::empty()),
            Some(members) => Ok(SharedTags::new(alloc, tags_in(alloc, members)?)?),
            None => Err(Fault::BadField(Field::Tags)),
        },
    }
}

// Reads the members as tags.
fn tags_in(alloc: Global, members: Members<'_, '_>) -> Result<Tags<Global>, Fault>
    ensures { Gives result
        (or_fault (BadField field.Tags) (tags_of (members_view members.entry.entries))) }
{
    if members.len() > MOST_TAGS {
        return Err(Fault::BadField(Field::Tags));
    }
    let mut tags = Tags::with_capacity(alloc, members.len())?;
    for (key, value) in members {
        let (key, value) = tag_of(alloc, key, value)?;
        put_tag(&mut tags, key, value)?;
    }
    Ok(tags)
}

// Reads the key and the value of a tag.
fn tag_of(
    alloc: Global,
    key: &str,
    value: &Value<'_>,
) -> Result<(Text<Global>, Text<Global>), Fault>
    ensures { Gives result (or_fault (BadField field.Tags) (entry_of value_of key.now (view value.now))) }
{
    let key = key_of(alloc, key)?;
    let value = value_of(alloc, value)?;
    Ok((key, value))
}

// Sets the value of a key. There must be space for one more tag.
fn put_tag(tags: &mut Tags<Global>, key: Text<Global>, value: Text<Global>) -> Result<(), Fault>
    requires key { key ≢ [] }
    requires room { length tags.old < 1000 }
    ensures ok { OnOk result (tags.new ≡ put text_cmp key value tags.old) }
    ensures err { IfErr result (λ f. f ≡ Memory) }
{
    tags.set(key, value)
        .map_err(|fault| fault_in(Field::Tags, fault))
}

// Reads what a retag gives to keys.
pub fn given_tags_of(alloc: Global, message: &Value<'_>) -> Result<Retag<Global>, Fault>
    ensures { Gives result (given_tags_at (view message.now)) }
{
    match value_at(message, Field::Tags) {
        None => Err(Fault::BadField(Field::Tags)),
        Some(value) => match look::members(alloc, value)? {
            Some(members) => given_tags_in(alloc, members),
            None => Err(Fault::BadField(Field::Tags)),
        },
    }
}

// Reads the members as keys with a value or none.
fn given_tags_in(alloc: Global, members: Members<'_, '_>) -> Result<Retag<Global>, Fault>
    ensures { Gives result
        (or_fault (BadField field.Tags) (given_tags_of (members_view members.entry.entries))) }
{
    if members.len() > MOST_TAGS {
        return Err(Fault::BadField(Field::Tags));
    }
    let mut given_tags = Retag::with_capacity(alloc, members.len())?;
    for (key, value) in members {
        let (key, given) = given_tag_of(alloc, key, value)?;
        put_given_tag(&mut given_tags, key, given)?;
    }
    Ok(given_tags)
}

// Reads a key with the value that it gets, if any.
fn given_tag_of(
    alloc: Global,
    key: &str,
    value: &Value<'_>,
) -> Result<(Text<Global>, Option<Text<Global>>), Fault>
    ensures { Gives result (or_fault (BadField field.Tags) (entry_of given_of key.now (view value.now))) }
{
    let key = key_of(alloc, key)?;
    let given = given_of(alloc, value)?;
    Ok((key, given))
}

// Gives a key a value or none. There must be space for one more key.
fn put_given_tag(
    given_tags: &mut Retag<Global>,
    key: Text<Global>,
    given: Option<Text<Global>>,
) -> Result<(), Fault>
    requires key { key ≢ [] }
    requires room { length given_tags.old < 1000 }
    ensures ok { OnOk result (given_tags.new ≡ put text_cmp key given given_tags.old) }
    ensures err { IfErr result (λ f. f ≡ Memory) }
{
    given_tags
        .set(key, given)
        .map_err(|fault| fault_in(Field::Tags, fault))
}

// Reads a key.
fn key_of(alloc: Global, key: &str) -> Result<Text<Global>, Fault>
    ensures { Gives result (or_fault (BadField field.Tags) (key_of key.now)) }
{
    if key.is_empty() {
        return Err(Fault::BadField(Field::Tags));
    }
    text_of(alloc, Field::Tags, key)
}

// Reads the value of a tag.
fn value_of(alloc: Global, value: &Value<'_>) -> Result<Text<Global>, Fault>
    ensures { Gives result (or_fault (BadField field.Tags) (value_of (view value.now))) }
{
    let text = look::text(value).ok_or(Fault::BadField(Field::Tags))?;
    text_of(alloc, Field::Tags, text)
}

// Reads what a key gets: a value, or none for `null`.
fn given_of(alloc: Global, value: &Value<'_>) -> Result<Option<Text<Global>>, Fault>
    ensures { Gives result (or_fault (BadField field.Tags) (given_of (view value.now))) }
{
    if look::is_null(value) {
        return Ok(None);
    }
    let value = value_of(alloc, value)?;
    Ok(Some(value))
}
