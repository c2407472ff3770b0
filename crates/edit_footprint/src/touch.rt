//! The touches of which footprints consist.
ghost use Rattle.std.specs.Prelude.{◌≡◌, ◌≢◌, pos};
ghost use Rattle.edit_footprint.specs.Touches.{writer_of, reader_of};

use crate::access::Access;
use osm_elements::name::{Kind, Name};
use std::cmp::Ordering;
use std::hash::{Hash, Hasher};
use std::marker::Model;

/// A name and an access to its element. Touches are ordered by name, and those of a name by their access.
#[derive(Clone, Copy, Debug)]
pub struct Touch {
    // The kind and the id of the name, with the access between them: so a touch takes 16 bytes. A `Name` next to an
    // access would take 24.
    kind: Kind,
    access: Access,
    id: i64,
    ghost not_zero: { id ≢ pos 0 },
}

const _: () = prove!(size_of::<Touch>() == 16);

// Contracts model a touch as its name and its access.
impl Model for Touch {
    ghost use Rattle.edit_footprint.specs.Touches.{Touch};

    ghost Value = { Touch };

    ghost view = { λ t. record { name = record { kind = t.kind; id = t.id; not_zero = t.not_zero }; access = t.access } };

    ghost inverse = { λ t. record { kind = t.name.kind; access = t.access; id = t.name.id; not_zero = t.name.not_zero } };
}

impl Touch {
    /// Returns the touch of an access to the element with this name.
    pub fn of(name: Name, access: Access) -> Touch
        ensures { result ≡ record { name = name; access = access } }
    {
        Touch {
            kind: name.kind(),
            access,
            id: name.id(),
        }
    }

    /// Returns the name of the element.
    pub fn name(&self) -> Name
        ensures { result ≡ self.now.name }
    {
        Name::new(self.kind, self.id).unwrap()
    }

    /// Returns the access.
    pub fn access(&self) -> Access
        ensures { result ≡ self.now.access }
    {
        self.access
    }

    /// Returns the touch that writes what this touch reads or writes. It conflicts with this touch.
    pub fn writer(&self) -> Touch
        ensures { result ≡ writer_of self.now }
    {
        Touch::of(self.name(), self.access.writer())
    }

    /// Returns the touch that reads what this touch reads or writes. It conflicts with this touch if this touch writes.
    pub fn reader(&self) -> Touch
        ensures { result ≡ reader_of self.now }
    {
        Touch::of(self.name(), self.access.reader())
    }
}

impl PartialEq for Touch {
    ghost use Rattle.std.specs.Cmp.{partial_equiv_from_equiv, eq_by_cmp_equiv};
    ghost use Rattle.edit_footprint.specs.Touches.{is_same_touch};
    ghost use Rattle.edit_footprint.specs.Facts.Touches.{touch_cmp_total};

    ghost eq = { is_same_touch };

    ghost laws = { partial_equiv_from_equiv (eq_by_cmp_equiv touch_cmp_total) };

    fn eq(&self, other: &Touch) -> bool {
        self.cmp(other).is_eq()
    }
}

impl Eq for Touch {
    ghost use Rattle.std.specs.Cmp.{eq_by_cmp_equiv};
    ghost use Rattle.edit_footprint.specs.Facts.Touches.{touch_cmp_total};

    ghost laws = { eq_by_cmp_equiv touch_cmp_total };
}

impl PartialOrd for Touch {
    ghost use Rattle.std.specs.Prelude.{Some};
    ghost use Rattle.std.specs.Cmp.{partial_order_from_total};
    ghost use Rattle.edit_footprint.specs.Touches.{touch_cmp};
    ghost use Rattle.edit_footprint.specs.Facts.Touches.{touch_cmp_total};

    ghost partial_cmp = { λ t u. Some (touch_cmp t u) };

    ghost laws = { partial_order_from_total touch_cmp_total };

    fn partial_cmp(&self, other: &Touch) -> Option<Ordering> {
        Some(self.cmp(other))
    }
}

impl Ord for Touch {
    ghost use Rattle.std.specs.Prelude.{refl};
    ghost use Rattle.edit_footprint.specs.Touches.{touch_cmp};
    ghost use Rattle.edit_footprint.specs.Facts.Touches.{touch_cmp_total};

    ghost cmp = { touch_cmp };

    ghost total = { touch_cmp_total };

    ghost matches_partial_cmp = { λ t u. refl };

    ghost matches_eq = { λ t u. refl };

    fn cmp(&self, other: &Touch) -> Ordering {
        if self.kind != other.kind {
            return self.kind.cmp(&other.kind);
        }
        if self.id > other.id {
            return Ordering::Greater;
        }
        if self.id < other.id {
            return Ordering::Less;
        }
        self.access.rank().cmp(&other.access.rank())
    }
}

impl Hash for Touch {
    ghost use Rattle.edit_footprint.specs.Touches.{touch_input};
    ghost use Rattle.edit_footprint.specs.Facts.Touches.{touches_hash_alike};

    ghost hash_input = { touch_input };

    ghost respects_eq = { touches_hash_alike };

    fn hash<H: Hasher>(&self, state: &mut H) {
        self.id.hash(state);
        self.access.rank().hash(state);
    }
}
