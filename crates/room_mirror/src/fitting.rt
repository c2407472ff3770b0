//! Tests whether news fit a map.
ghost use Rattle.std.specs.Prelude.{◌≡◌, option_copied};
ghost use Rattle.std.specs.List.{list_all};
ghost use Rattle.room_mirror.specs.Mirrors.{fits, tells_another};

use osm_changes::same::is_same_row;
use osm_elements::map::OsmMap;
use room_interface::news::NewsRow;
use room_wire::rising::are_rising;
use std::alloc::Allocator;

/// Whether the names rise, and each row differs from the map's row. For each row, it takes time logarithmic in the size
/// of the map, and the time to compare both rows.
pub fn fits<A: Allocator>(rows: &OsmMap<A>, told: &[NewsRow<A>]) -> bool
    ensures { result ≡ fits rows.now told.now }
{
    are_rising(told) && tell_others(rows, told)
}

// Whether each row differs from the map's row.
fn tell_others<A: Allocator>(rows: &OsmMap<A>, told: &[NewsRow<A>]) -> bool
    ensures { result ≡ list_all (tells_another rows.now) told.now }
{
    for row in told {
        if !tells_another(rows, row) {
            return false;
        }
    }
    true
}

// Whether a row differs from the map's row.
fn tells_another<A: Allocator>(rows: &OsmMap<A>, row: &NewsRow<A>) -> bool
    ensures { result ≡ tells_another rows.now row.now }
{
    !is_same_row(&row.element, rows.get(&row.name))
}
