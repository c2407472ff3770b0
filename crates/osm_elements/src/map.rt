//! Maps from names to elements.
ghost use Rattle.std.specs.Prelude.{◌≡◌, ◌↔◌, [], length, map, IfOk, IfErr, IfSome, OnOk, OnErr, IsTrue, None, option_copied};
ghost use Rattle.std.specs.Slice.Iter.{iter_rest};

use crate::Memory;
use crate::element::Element;
use crate::name::Name;
use std::alloc::{AllocError, Allocator};
use std::collections::{BTreeMap, btree_map};
use std::marker::Model;
use std::slice::Iter;

/// A row of a map: a name and its element.
#[derive(Drop)]
#[derive_where(Debug)]
pub struct Row<A: Allocator> {
    pub name: Name,
    pub element: Element<A>,
}

/// A list of rows, for example from [`OsmMap::rows`]. The names can be in any order.
#[derive(Drop)]
#[derive_where(Debug)]
pub struct Rows<A: Allocator> {
    rows: Vec<Row<A>, A>,
}

// Contracts model rows as pairs of a name and an element.
impl<A: Allocator> Model for Rows<A> {
    ghost use Rattle.std.specs.Prelude.{List, map};
    ghost use Rattle.osm_elements.specs.declared.name.Name.{Name};
    ghost use Rattle.osm_elements.specs.declared.element.Element.{Element};

    ghost Value = { List (Name × Element A) };

    ghost use Rattle.osm_elements.specs.RowPairs.{row_pair};

    ghost view = { λ r. map row_pair r.rows.items };
}

impl<A: Allocator> Row<A> {
    /// Returns a copy, or `Memory`.
    pub fn copy(&self) -> Result<Row<A>, Memory>
    where
        A: Clone,
        ensures { IfOk result (λ r. r ≡ self.now) }
    {
        Ok(self.clone()?)
    }
}

impl<A: Allocator> Rows<A> {
    ghost use Rattle.osm_elements.specs.RowPairs.{row_pair};

    /// Makes a list of the rows of a vector, in their order.
    pub fn from_vec(rows: Vec<Row<A>, A>) -> Rows<A>
        ensures { result ≡ map row_pair rows.items }
    {
        Rows { rows }
    }

    /// Returns the rows as a vector, in their order.
    pub fn into_vec(self) -> Vec<Row<A>, A>
        ensures { map row_pair result.items ≡ self }
    {
        let Rows { rows } = self;
        rows
    }

    /// Returns the rows as a slice.
    pub fn as_slice(&self) -> &[Row<A>]
        ensures { map row_pair result.now ≡ self.now }
    {
        &self.rows
    }

    /// Returns an iterator over the rows, in their order.
    pub fn iter(&self) -> Iter<'_, Row<A>>
        ensures { map row_pair (iter_rest result) ≡ self.now }
    {
        self.rows.iter()
    }

    /// Returns a copy, or `Memory`.
    pub fn copy(&self) -> Result<Rows<A>, Memory>
    where
        A: Clone,
        ensures { IfOk result (λ r. r ≡ self.now) }
    {
        Ok(self.clone()?)
    }
}

/// A map with at most one element for each name (OpenStreetMap wiki, "Elements"). It accepts any row, even if the
/// element is of another kind than the name. A look-up or a change takes time logarithmic in the number of elements.
#[derive(Drop)]
#[derive_where(Debug)]
pub struct OsmMap<A: Allocator> {
    elements: BTreeMap<Name, Element<A>, A>,
}

// Contracts model a map as the list of its rows in name order.
impl<A: Allocator> Model for OsmMap<A> {
    ghost use Rattle.std.specs.Prelude.{List};
    ghost use Rattle.osm_elements.specs.declared.name.Name.{Name};
    ghost use Rattle.osm_elements.specs.declared.element.Element.{Element};

    ghost Value = { List (Name × Element A) };

    ghost use Rattle.osm_elements.specs.Rows.{AreInOrder};

    ghost view = { λ m. m.elements.entries };

    ghost invariant = { λ m. AreInOrder m.elements.entries };
}

impl<A: Allocator> OsmMap<A> {
    ghost use Rattle.osm_elements.specs.Rows.{row_at, put_row, without_row, AreInOrder};

    /// Returns a map without elements.
    pub fn new(alloc: A) -> OsmMap<A>
        ensures { result ≡ [] }
    {
        OsmMap {
            elements: BTreeMap::new(alloc),
        }
    }

    /// Makes a map of rows whose names rise, for example those of [`OsmMap::rows`]. For each row, it takes time
    /// logarithmic in the number of rows. It copies no element.
    ///
    /// # Errors
    ///
    /// `Memory`, if an allocation fails.
    pub fn from_rows(alloc: A, rows: Rows<A>) -> Result<OsmMap<A>, Memory>
    where
        A: Clone,
        requires { AreInOrder rows }
        ensures { IfOk result (λ m. m ≡ rows) }
    {
        let mut map = OsmMap::new(alloc);
        for row in rows.into_vec() {
            map.put_next(row)?;
        }
        Ok(map)
    }

    // Puts a row in place of any row with its name.
    fn put_next(&mut self, row: Row<A>) -> Result<(), Memory>
    where
        A: Clone,
        ensures ok { OnOk result (self.new ≡ put_row self.old row.name row.element) }
        ensures err { OnErr result (self.new ≡ self.old) }
    {
        match self.put(row.name, row.element) {
            Ok(_) => Ok(()),
            Err((_, memory)) => Err(memory),
        }
    }

    /// Returns the number of elements.
    pub fn len(&self) -> usize
        ensures len { result ≡ length self.now }
        // True of every map.
        ensures in_order { AreInOrder self.now }
    {
        self.elements.len()
    }

    /// Returns whether there is no element.
    pub fn is_empty(&self) -> bool
        ensures { IsTrue result ↔ (self.now ≡ []) }
    {
        self.elements.is_empty()
    }

    /// Returns an iterator over the rows in name order. It copies nothing.
    pub fn iter(&self) -> btree_map::Iter<'_, Name, Element<A>>
        ensures rest { result ≡ self.now }
        // True of every map.
        ensures in_order { AreInOrder self.now }
    {
        self.elements.iter()
    }

    /// Returns the element with this name, if any.
    pub fn get(&self, name: &Name) -> Option<&Element<A>>
        ensures { option_copied result ≡ row_at self.now name.now }
    {
        self.elements.get(name)
    }

    /// Removes the element with this name and returns it, if any. Otherwise the map is unchanged.
    pub fn take_out(&mut self, name: &Name) -> Option<Element<A>>
        ensures value { result ≡ row_at self.old name.now }
        ensures rest { self.new ≡ without_row self.old name.now }
        ensures in_order { AreInOrder self.old }
    {
        self.elements.remove(name)
    }

    /// Gives a name an element, and returns the previous element of the name, if any. Only a new name needs memory.
    ///
    /// # Errors
    ///
    /// The given element and `Memory`, if the name is new and an allocation fails.
    pub fn put(
        &mut self,
        name: Name,
        element: Element<A>,
    ) -> Result<Option<Element<A>>, (Element<A>, Memory)>
    where
        A: Clone,
        ensures ok { IfOk result (λ old.
            (old ≡ row_at self.old name) × (self.new ≡ put_row self.old name element)) }
        ensures err { IfErr result (λ e.
            (e.0 ≡ element) × (self.new ≡ self.old) × (row_at self.old name ≡ None)) }
    {
        match self.elements.insert(name, element) {
            Ok(old) => Ok(old),
            Err(refused) => {
                let (_, element) = refused.value;
                Err((element, Memory))
            }
        }
    }

    /// Returns copies of all rows in name order, or `Memory`. Takes time linear in the number of elements.
    pub fn rows(&self, alloc: A) -> Result<Rows<A>, Memory>
    where
        A: Clone,
        ensures rows { IfOk result (λ r. r ≡ self.now) }
        ensures in_order { AreInOrder self.now }
    {
        let mut rows = Vec::new(alloc);
        for (name, element) in &self.elements {
            let element = element.copy()?;
            rows.push(Row {
                name: *name,
                element,
            })?;
        }
        Ok(Rows { rows })
    }

    /// Returns a copy, or `Memory`.
    pub fn copy(&self) -> Result<OsmMap<A>, Memory>
    where
        A: Clone,
        ensures { IfOk result (λ m. m ≡ self.now) }
    {
        Ok(self.clone()?)
    }
}

impl<A: Allocator + Clone> Clone for Row<A> {
    ghost is_clone = { λ a b. b ≡ a };

    fn clone(&self) -> Result<Row<A>, AllocError> {
        Ok(Row {
            name: self.name,
            element: self.element.clone()?,
        })
    }
}

impl<A: Allocator + Clone> Clone for Rows<A> {
    ghost is_clone = { λ a b. b ≡ a };

    fn clone(&self) -> Result<Rows<A>, AllocError> {
        let rows = self.rows.clone()?;
        Ok(Rows { rows })
    }
}

impl<A: Allocator + Clone> Clone for OsmMap<A> {
    ghost is_clone = { λ a b. b ≡ a };

    fn clone(&self) -> Result<OsmMap<A>, AllocError> {
        let elements = self.elements.clone()?;
        Ok(OsmMap { elements })
    }
}
