//! Writing elements (OpenStreetMap wiki, "Elements").
ghost use Rattle.std.specs.Prelude.{◌≡◌, true, OnOk, IsAscii};
ghost use Rattle.serde_json.specs.Data.{boolean, string};
ghost use Rattle.osm_elements.specs.Members.{member_pair};
ghost use Rattle.room_wire.specs.Inner.Writing.{Tells, part_tree};
ghost use Rattle.room_wire.specs.ReadBack.{HasId};
ghost use Rattle.room_wire.specs.News.{gone_tree};
ghost use Rattle.room_wire.specs.Trees.{name_tree, id_tree, member_tree, tags_tree, element_tree};

use crate::told::{Told, ToldMember, write_array, write_object};
use json::Writer;
use osm_coords::{COORDINATE_LENGTH, Lat, Lon};
use osm_elements::Memory;
use osm_elements::element::Element;
use osm_elements::member::Member;
use osm_elements::members::Members;
use osm_elements::name::{NAME_LENGTH, Name};
use osm_elements::nodes::Nodes;
use osm_elements::shared_tags::SharedTags;
use osm_elements::tags::Tag;
use std::alloc::Global;
use std::str;

// The value of a member of a row of a map or of news.
#[derive(Clone, Copy)]
pub enum Part<'a> {
    Name(Name),
    Lat(Lat),
    Lon(Lon),
    Nodes(&'a Nodes<Global>),
    Members(&'a Members<Global>),
    Tags(&'a SharedTags<Global>),
    Gone,
}

impl Told for Part<'_> {
    ghost tree = { part_tree };

    fn write(&self, out: &mut Writer) -> Result<(), Memory> {
        match self {
            Part::Name(name) => write_name(out, *name),
            Part::Lat(lat) => write_lat(out, *lat),
            Part::Lon(lon) => write_lon(out, *lon),
            Part::Nodes(nodes) => write_array(out, nodes.names()),
            Part::Members(members) => write_array(out, members.as_slice()),
            Part::Tags(tags) => write_tags(out, tags),
            Part::Gone => write_true(out),
        }
    }
}

// Writes an element under its name.
pub fn write_element(out: &mut Writer, name: Name, element: &Element<Global>) -> Result<(), Memory>
    ensures { OnOk result (Tells out.old out.new (element_tree name element.now)) }
{
    let el = Part::Name(name);
    match element {
        Element::Node { lat, lon, tags } => write_object(
            out,
            &[
                ("el", el),
                ("lat", Part::Lat(*lat)),
                ("lon", Part::Lon(*lon)),
                ("tags", Part::Tags(tags)),
            ],
        ),
        Element::Way { nodes, tags } => write_object(
            out,
            &[
                ("el", el),
                ("nodes", Part::Nodes(nodes)),
                ("tags", Part::Tags(tags)),
            ],
        ),
        Element::Relation { members, tags } => write_object(
            out,
            &[
                ("el", el),
                ("members", Part::Members(members)),
                ("tags", Part::Tags(tags)),
            ],
        ),
    }
}

// Writes a row of news that is gone.
pub fn write_gone(out: &mut Writer, name: Name) -> Result<(), Memory>
    ensures { OnOk result (Tells out.old out.new (gone_tree name)) }
{
    write_object(out, &[("el", Part::Name(name)), ("gone", Part::Gone)])
}

// Writes `true`.
fn write_true(out: &mut Writer) -> Result<(), Memory>
    ensures { OnOk result (Tells out.old out.new (boolean true)) }
{
    out.boolean(true)?;
    Ok(())
}

// Writes a name as its text.
pub fn write_name(out: &mut Writer, name: Name) -> Result<(), Memory>
    ensures { OnOk result (Tells out.old out.new (name_tree name)) }
{
    let mut buffer = [0; NAME_LENGTH];
    let length = name.write(&mut buffer);
    write_ascii(out, &buffer[..length])
}

// Writes a latitude in degrees, with seven decimals.
fn write_lat(out: &mut Writer, lat: Lat) -> Result<(), Memory>
    ensures { OnOk result (Tells out.old out.new (part_tree (Part.Lat lat))) }
{
    let mut buffer = [0; COORDINATE_LENGTH];
    let length = lat.write(&mut buffer);
    write_ascii(out, &buffer[..length])
}

// Writes a longitude in degrees, with seven decimals.
fn write_lon(out: &mut Writer, lon: Lon) -> Result<(), Memory>
    ensures { OnOk result (Tells out.old out.new (part_tree (Part.Lon lon))) }
{
    let mut buffer = [0; COORDINATE_LENGTH];
    let length = lon.write(&mut buffer);
    write_ascii(out, &buffer[..length])
}

// Writes a text of ASCII characters.
fn write_ascii(out: &mut Writer, text: &[u8]) -> Result<(), Memory>
    requires { IsAscii text.now }
    ensures { OnOk result (Tells out.old out.new (string text.now)) }
{
    let text = str::from_utf8(text).unwrap();
    write_text(out, text)
}

// Writes a text.
pub fn write_text(out: &mut Writer, text: &str) -> Result<(), Memory>
    ensures { OnOk result (Tells out.old out.new (string text.now)) }
{
    out.string(text)?;
    Ok(())
}

// A node of a way is written as its id.
impl Told for Name {
    ghost tree = { id_tree };

    fn write(&self, out: &mut Writer) -> Result<(), Memory> {
        out.i64(id_of(self))?;
        Ok(())
    }
}

// Returns the id of a name, which is an i64.
fn id_of(name: &Name) -> i64
    ensures value { result ≡ name.now.id }
    ensures fits { HasId name.now }
{
    name.id()
}

// A member of a relation is written as an array of its name and its role.
impl Told for Member<Global> {
    ghost tree = { λ m. member_tree (member_pair m) };

    fn write(&self, out: &mut Writer) -> Result<(), Memory> {
        out.begin_array()?;
        write_name(out, self.name)?;
        out.string(self.role.as_str())?;
        out.end_array()?;
        Ok(())
    }
}

// Writes an object with a member for each tag.
fn write_tags(out: &mut Writer, tags: &SharedTags<Global>) -> Result<(), Memory>
    ensures { OnOk result (Tells out.old out.new (tags_tree tags.now)) }
{
    write_object(out, tags.rows())
}

// A tag is written as a member of an object.
impl ToldMember for Tag<Global> {
    ghost pair = { λ t. (t.key, string t.value) };

    fn write(&self, out: &mut Writer) -> Result<(), Memory> {
        out.key(self.key.as_str())?;
        write_text(out, self.value.as_str())?;
        Ok(())
    }
}
