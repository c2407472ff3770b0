//! The plan that gives a way new nodes.
ghost use Rattle.std.specs.Prelude.{◌≡◌, true};
ghost use Rattle.osm_changes.specs.Sound.{is_sound};
ghost use Rattle.edit_simple.specs.Nodes.{nodes_checks, after_nodes};
ghost use Rattle.edit_simple.specs.Plans.{IsNamed, IsPlan};

use crate::kinds::is_way;
use crate::limits::{FEWEST_NODES, MOST_NODES};
use crate::lookup::least_missing;
use crate::ways::{change_nodes, way_at};
use osm_changes::changes::Changes;
use osm_drafts::draft::Draft;
use osm_elements::name::Name;
use osm_elements::nodes::Nodes;
use osm_elements::shared::Shared;
use room_interface::refusal::Refusal;
use std::alloc::Allocator;

/// Plans to give a way new nodes. It looks up each of the nodes.
///
/// # Errors
///
/// - `WrongKind`, if the name is not a way's
/// - `Absent`, if the map does not have the name
/// - `TooFew`, if there are fewer than 2 nodes
/// - `TooMany`, if there are more than 2,000 nodes, a limit of this project
/// - `Absent`, with the least of the nodes that the map does not have
/// - `Nothing`, if these are the nodes of the way
#[tactic(auto, using(crate::specs::Facts::Checked::named_if_none))]
pub fn plan_nodes<A: Allocator + Clone>(
    alloc: A,
    rows: &Draft<'_, A>,
    name: &Name,
    list: &Shared<Nodes<A>, A>,
) -> Result<Changes<A>, Refusal<A>>
    requires { is_sound rows.now ≡ true }
    ensures plan { IsPlan rows.now (nodes_checks rows.now name.now list.now)
        (after_nodes rows.now name.now list.now) result }
    ensures named { IsNamed (nodes_checks rows.now name.now list.now) result }
{
    if !is_way(name) {
        return Err(Refusal::WrongKind(*name));
    }
    let (nodes, tags) = way_at(rows, name)?;
    if list.len() < FEWEST_NODES {
        return Err(Refusal::TooFew(*name));
    }
    if list.len() > MOST_NODES {
        return Err(Refusal::TooMany(*name));
    }
    if let Some(absent) = least_missing(rows, name, list.names()) {
        return Err(Refusal::Absent(absent));
    }
    change_nodes(alloc, name, nodes, tags, list)
}
