//! Tests of a name's kind.
ghost use Rattle.std.specs.Prelude.{◌≡◌};
ghost use Rattle.osm_elements.specs.Made.{is_node};
ghost use Rattle.edit_simple.specs.Kinds.{is_way, is_relation};

use osm_elements::name::{Kind, Name};

/// Returns whether the name is a node's.
pub fn is_node(name: &Name) -> bool
    ensures { result ≡ is_node name.now.kind }
{
    matches!(name.kind(), Kind::Node)
}

/// Returns whether the name is a way's.
pub fn is_way(name: &Name) -> bool
    ensures { result ≡ is_way name.now.kind }
{
    matches!(name.kind(), Kind::Way)
}

/// Returns whether the name is a relation's.
pub fn is_relation(name: &Name) -> bool
    ensures { result ≡ is_relation name.now.kind }
{
    matches!(name.kind(), Kind::Relation)
}
