//! Applies news to a map, or leaves it unchanged.
//!
//! First each absent name gets an empty row. These insertions allocate, and can be taken back. Then each row is
//! replaced or removed, which cannot fail. The empty rows cannot be observed, because the news have a row for each of
//! these names. Changing a copy of the map would cost time linear in the size of the map for each news.
ghost use Rattle.std.specs.Prelude.{◌≡◌, T, true, map, IfOk, OnOk, OnErr, fold};
ghost use Rattle.room_history.specs.Prelude.{is_absent, is_present, are_rising, AreInOrder, row_at, without_row, with_row, mirrored};
ghost use Rattle.room_mirror.specs.Mirrors.{told_names};
ghost use Rattle.room_mirror.specs.Inner.Replacing.{absent_names, AreAbsent, ArePresent, with_empty};

use osm_elements::Memory;
use osm_elements::element::Element;
use osm_elements::map::OsmMap;
use osm_elements::members::Members;
use osm_elements::name::Name;
use osm_elements::shared::Shared;
use osm_elements::shared_tags::SharedTags;
use room_interface::news::{NewsRow, NewsRows};
use std::alloc::Allocator;

/// Gives each name its row of the news. If it returns `Memory`, the map is unchanged. It costs the size of the news,
/// times a logarithm, and does not depend on the size of the map otherwise.
pub fn replace<A: Allocator + Copy>(
    rows: &mut OsmMap<A>,
    alloc: A,
    told: &NewsRows<A>,
) -> Result<(), Memory>
    requires { T (are_rising (told_names told.now)) }
    ensures ok { OnOk result (rows.new ≡ mirrored rows.old told.now) }
    ensures err { OnErr result (rows.new ≡ rows.old) }
{
    let copies = told.copy()?;
    let absent = absent_names(alloc, rows, told.as_slice())?;
    keeps_order(rows);
    reserve(rows, alloc, &absent)?;
    keeps_order(rows);
    replace_all(rows, copies.into_vec());
    Ok(())
}

// Proves that the rows of the map are in name order. It does nothing.
fn keeps_order<A: Allocator>(rows: &OsmMap<A>)
    ensures { AreInOrder rows.now }
{
    let _ = rows.len();
}

// Returns the names of the news that the map does not have.
fn absent_names<A: Allocator + Copy>(
    alloc: A,
    rows: &OsmMap<A>,
    told: &[NewsRow<A>],
) -> Result<Vec<Name, A>, Memory>
    ensures { IfOk result (λ names. names.items ≡ absent_names rows.now (told_names told.now)) }
{
    let mut names = Vec::new(alloc);
    for row in told {
        if is_absent(rows, &row.name) {
            names.push(row.name)?;
        }
    }
    Ok(names)
}

fn is_absent<A: Allocator>(rows: &OsmMap<A>, name: &Name) -> bool
    ensures { result ≡ is_absent rows.now name.now }
{
    rows.get(name).is_none()
}

// Puts an empty relation at each of the absent names. If it returns `Memory`, the map is unchanged.
fn reserve<A: Allocator + Copy>(
    rows: &mut OsmMap<A>,
    alloc: A,
    absent: &[Name],
) -> Result<(), Memory>
    requires order { AreInOrder rows.old }
    requires absent { AreAbsent rows.old absent.now }
    ensures ok { OnOk result (rows.new ≡ fold with_empty rows.old absent.now) }
    ensures err { OnErr result (rows.new ≡ rows.old) }
{
    for (place, name) in absent.iter().enumerate() {
        if let Err(memory) = put_empty(rows, alloc, *name) {
            take_out_all(rows, &absent[..place]);
            return Err(memory);
        }
    }
    Ok(())
}

fn put_empty<A: Allocator + Copy>(rows: &mut OsmMap<A>, alloc: A, name: Name) -> Result<(), Memory>
    ensures ok { OnOk result (rows.new ≡ with_empty rows.old name) }
    ensures err { OnErr result (rows.new ≡ rows.old) }
{
    let empty = Element::Relation {
        members: Shared::new(alloc, Members::empty(alloc))?,
        tags: SharedTags::empty(),
    };
    match rows.put(name, empty) {
        Ok(_) => Ok(()),
        Err((_, memory)) => Err(memory),
    }
}

// Removes the rows of the names.
fn take_out_all<A: Allocator>(rows: &mut OsmMap<A>, names: &[Name])
    ensures { rows.new ≡ fold without_row rows.old names.now }
{
    for name in names {
        let _ = rows.take_out(name);
    }
}

// Replaces the row of each present name with its row of the news, or removes it.
fn replace_all<A: Allocator + Copy>(rows: &mut OsmMap<A>, told: Vec<NewsRow<A>, A>)
    requires order { AreInOrder rows.old }
    requires rising { T (are_rising (told_names told.items)) }
    requires present { ArePresent rows.old (told_names told.items) }
    ensures { rows.new ≡ mirrored rows.old told.items }
{
    for row in told {
        replace_one(rows, row);
    }
}

// Replaces the row of a present name, or removes it.
fn replace_one<A: Allocator + Copy>(rows: &mut OsmMap<A>, row: NewsRow<A>)
    requires order { AreInOrder rows.old }
    requires present { is_present rows.old row.name ≡ true }
    ensures { rows.new ≡ with_row rows.old row.name row.element }
{
    let NewsRow { name, element } = row;
    match element {
        Some(element) => match rows.put(name, element) {
            Ok(_) => {}
            Err(_) => unreachable!(),
        },
        None => {
            let _ = rows.take_out(&name);
        }
    }
}
