//! The values of members of replies and news.
ghost use Rattle.std.specs.Prelude.{◌≡◌, OnOk};
ghost use Rattle.room_wire.specs.Inner.Writing.{Tells, shown_tree};
ghost use Rattle.room_wire.specs.News.{row_tree};
ghost use Rattle.room_wire.specs.Trees.{element_tree, whole};

use crate::element::{write_element, write_gone, write_name, write_text};
use crate::told::{Told, write_array};
use crate::write_map::write_map;
use json::Writer;
use osm_elements::Memory;
use osm_elements::element::Element;
use osm_elements::map::{OsmMap, Row, Rows};
use osm_elements::name::Name;
use room_interface::news::{NewsRow, NewsRows};
use std::alloc::Global;

// The value of a member of a reply or of news.
#[derive(Clone, Copy)]
pub enum Shown<'a> {
    Number(u64),
    Text(&'a str),
    Name(Name),
    Numbers(&'a [u64]),
    Element(Name, &'a Element<Global>),
    Rows(&'a Rows<Global>),
    Map(&'a OsmMap<Global>),
    News(&'a NewsRows<Global>),
}

impl Told for Shown<'_> {
    ghost tree = { shown_tree };

    fn write(&self, out: &mut Writer) -> Result<(), Memory> {
        match self {
            Shown::Number(number) => write_number(out, *number),
            Shown::Text(text) => write_text(out, text),
            Shown::Name(name) => write_name(out, *name),
            Shown::Numbers(numbers) => write_array(out, numbers),
            Shown::Element(name, element) => write_element(out, *name, element),
            Shown::Rows(rows) => write_array(out, rows.as_slice()),
            Shown::Map(map) => write_map(out, map),
            Shown::News(rows) => write_array(out, rows.as_slice()),
        }
    }
}

// Writes a whole number.
fn write_number(out: &mut Writer, number: u64) -> Result<(), Memory>
    ensures { OnOk result (Tells out.old out.new (whole number)) }
{
    out.u64(number)?;
    Ok(())
}

// The number of an entry is written as a whole number.
impl Told for u64 {
    ghost tree = { whole };

    fn write(&self, out: &mut Writer) -> Result<(), Memory> {
        write_number(out, *self)
    }
}

// A row of a map is written as its element.
impl Told for Row<Global> {
    ghost tree = { λ r. element_tree r.name r.element };

    fn write(&self, out: &mut Writer) -> Result<(), Memory> {
        write_element(out, self.name, &self.element)
    }
}

// A row of news is written as its element, or as gone.
impl Told for NewsRow<Global> {
    ghost tree = { λ r. row_tree r.name r.element };

    fn write(&self, out: &mut Writer) -> Result<(), Memory> {
        match &self.element {
            Some(element) => write_element(out, self.name, element),
            None => write_gone(out, self.name),
        }
    }
}
