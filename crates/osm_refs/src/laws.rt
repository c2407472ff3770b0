//! Laws of tables of references. Each is the contract of a function that does nothing.
ghost use Rattle.std.specs.Prelude.{◌≡◌, []};
ghost use Rattle.osm_elements.specs.Prelude.{Rows, name_set, rows_but, row_at, put_row, AreInOrder};
ghost use Rattle.osm_elements.specs.declared.element.Element.{Element};
ghost use Rattle.osm_elements.specs.declared.name.Name.{Name};
ghost use Rattle.osm_refs.specs.Examples.{references_found, users_found, tables_made, references_changed};
ghost use Rattle.osm_refs.specs.References.{references, row_references, users};
ghost use Rattle.osm_refs.specs.Tables.{table_of, users_in, references_at, referring};

use std::alloc::Allocator;

/// The table of a map has the same users and the same references of each name as the map's rows.
pub fn a_table_tells_what_its_map_tells<A: Allocator>()
    ensures users { (m : Rows A) (e : Name) → AreInOrder m → users_in (table_of m) e ≡ users m e }
    ensures references { (m : Rows A) (x : Name) → AreInOrder m
        → references_at (table_of m) x ≡ name_set (row_references (row_at m x)) }
{}

/// If a row changes, the table of the map changes by the references of that row's name.
pub fn a_table_changes_with_its_map<A: Allocator>()
    ensures put { (m : Rows A) (x : Name) (v : Element A) → AreInOrder m
        → table_of (put_row m x v) ≡ referring (table_of m) x (name_set (references v)) }
    ensures taken { (m : Rows A) (x : Name) → AreInOrder m → table_of (rows_but x m) ≡ referring (table_of m) x [] }
{}

/// The definitions agree with examples that were worked out by hand.
pub fn examples_are_as_worked()
    ensures references_found { references_found }
    ensures users_found { users_found }
    ensures tables_made { tables_made }
    ensures references_changed { references_changed }
{}
