//! The cells of a map.
ghost use Rattle.std.specs.Prelude.{◌≡◌, ◌≢◌, pos};

use crate::part::Part;
use osm_elements::name::{Kind, Name};
use std::cmp::Ordering;
use std::marker::Model;

/// A name and a part of its row. Cells are ordered by name, and the tags of a name come in front of its rest.
#[derive(Clone, Copy, Debug)]
pub struct Cell {
    // The kind and the id of the name, with the part between them: so a cell takes 16 bytes. A `Name` next to a part
    // would take 24.
    kind: Kind,
    part: Part,
    id: i64,
    ghost not_zero: { id ≢ pos 0 },
}

const _: () = prove!(size_of::<Cell>() == 16);

// Contracts model a cell as its name and its part.
impl Model for Cell {
    ghost use Rattle.osm_changes.specs.Cells.{Cell};

    ghost Value = { Cell };

    ghost view = { λ c. record { name = record { kind = c.kind; id = c.id; not_zero = c.not_zero }; part = c.part } };

    ghost inverse = { λ c. record { kind = c.name.kind; part = c.part; id = c.name.id; not_zero = c.name.not_zero } };
}

impl Cell {
    /// Returns the cell of a part of this name's row.
    pub fn of(name: Name, part: Part) -> Cell
        ensures { result ≡ record { name = name; part = part } }
    {
        Cell {
            kind: name.kind(),
            part,
            id: name.id(),
        }
    }

    /// Returns the name of the row.
    pub fn name(&self) -> Name
        ensures { result ≡ self.now.name }
    {
        Name::new(self.kind, self.id).unwrap()
    }

    /// Returns the part of the row.
    pub fn part(&self) -> Part
        ensures { result ≡ self.now.part }
    {
        self.part
    }
}

impl PartialEq for Cell {
    ghost use Rattle.std.specs.Cmp.{partial_equiv_from_equiv, eq_by_cmp_equiv};
    ghost use Rattle.osm_changes.specs.Cells.{is_same_cell};
    ghost use Rattle.osm_changes.specs.Facts.Cells.{cell_cmp_total};

    ghost eq = { is_same_cell };

    ghost laws = { partial_equiv_from_equiv (eq_by_cmp_equiv cell_cmp_total) };

    fn eq(&self, other: &Cell) -> bool {
        self.cmp(other).is_eq()
    }
}

impl Eq for Cell {
    ghost use Rattle.std.specs.Cmp.{eq_by_cmp_equiv};
    ghost use Rattle.osm_changes.specs.Facts.Cells.{cell_cmp_total};

    ghost laws = { eq_by_cmp_equiv cell_cmp_total };
}

impl PartialOrd for Cell {
    ghost use Rattle.std.specs.Prelude.{Some};
    ghost use Rattle.std.specs.Cmp.{partial_order_from_total};
    ghost use Rattle.osm_changes.specs.Cells.{cell_cmp};
    ghost use Rattle.osm_changes.specs.Facts.Cells.{cell_cmp_total};

    ghost partial_cmp = { λ c d. Some (cell_cmp c d) };

    ghost laws = { partial_order_from_total cell_cmp_total };

    fn partial_cmp(&self, other: &Cell) -> Option<Ordering> {
        Some(self.cmp(other))
    }
}

impl Ord for Cell {
    ghost use Rattle.std.specs.Prelude.{refl};
    ghost use Rattle.osm_changes.specs.Cells.{cell_cmp};
    ghost use Rattle.osm_changes.specs.Facts.Cells.{cell_cmp_total};

    ghost cmp = { cell_cmp };

    ghost total = { cell_cmp_total };

    ghost matches_partial_cmp = { λ c d. refl };

    ghost matches_eq = { λ c d. refl };

    fn cmp(&self, other: &Cell) -> Ordering {
        if self.kind != other.kind {
            return self.kind.cmp(&other.kind);
        }
        if self.id > other.id {
            return Ordering::Greater;
        }
        if self.id < other.id {
            return Ordering::Less;
        }
        Part::cmp(&self.part, &other.part)
    }
}
