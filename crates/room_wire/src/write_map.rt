//! Writing whole maps.
ghost use Rattle.std.specs.Prelude.{◌≡◌, Some, map, IfOk, OnOk};
ghost use Rattle.serde_json.specs.Read.{read};
ghost use Rattle.serde_json.specs.Written.{compact_text};
ghost use Rattle.room_wire.specs.Inner.Writing.{Tells};
ghost use Rattle.room_wire.specs.Trees.{map_tree, rows_tree};

use crate::element::write_element;
use crate::json_text::Json;
use crate::shown::Shown;
use crate::write::answered;
use json::Writer;
use osm_elements::Memory;
use osm_elements::map::OsmMap;
use std::alloc::Global;

/// Returns the text of the reply to a message that asks for the whole map:
/// `{"id":ID,"ok":{"map":[ELEMENT,..],"seq":FRONT}}`, in name order. `id` is the message's id, and `front` is the entry
/// count of the journal.
///
/// It is the text that [`reply_text`](crate::reply_text) returns for the rows of the map, without copying them. The
/// time is linear in the length of the text.
///
/// # Errors
///
/// `Memory`, if an allocation fails.
pub fn map_text(alloc: Global, id: u64, map: &OsmMap<Global>, front: u64) -> Result<Json, Memory>
    ensures text { IfOk result (λ json. json ≡ compact_text (map_tree id map.now front)) }
    // Any reader of JSON reads the text as this tree.
    ensures reads_back { IfOk result (λ json. read json ≡ Some (map_tree id map.now front)) }
{
    let mut out = Json::begin(alloc)?;
    answered(
        &mut out,
        id,
        &[("map", Shown::Map(map)), ("seq", Shown::Number(front))],
    )?;
    Ok(Json::from_writer(out))
}

// Writes the rows of a map.
pub fn write_map(out: &mut Writer, map: &OsmMap<Global>) -> Result<(), Memory>
    ensures { OnOk result (Tells out.old out.new (rows_tree map.now)) }
{
    out.begin_array()?;
    for (name, element) in map.iter() {
        write_element(out, *name, element)?;
    }
    out.end_array()?;
    Ok(())
}
