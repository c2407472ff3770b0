//! The names of rooms.
ghost use Rattle.std.specs.Prelude.{◌≡◌, ◌++◌, ◌∷◌, [], Some, false, length, map, IfErr, IfOk, MatchResult, OnOk};
ghost use Rattle.room_interface.specs.Authors.{author_of};
ghost use Rattle.room_server.specs.Inner.NewNames.{IsRefused, contains_name};
ghost use Rattle.room_server.specs.Openings.{AreFine, IsNameFault};

use crate::table::TableFault;
use indexmap::IndexSet;
use osm_elements::Memory;
use room_interface::author::Author;
use std::alloc::Global;
use std::marker::Model;

/// Names of rooms in order, each once.
///
/// Names can be read before there are rows. So a misspelt name is reported before a base is read, which can be a long
/// line.
#[derive(Drop)]
pub struct RoomNames {
    pub(crate) names: IndexSet<Author>,
}

// Contracts model names as their list.
impl Model for RoomNames {
    ghost use Rattle.std.specs.Prelude.{ℕ, List};

    ghost Value = { List (List ℕ) };

    ghost view = { λ r. r.names.keys };
}

impl RoomNames {
    /// Reads these texts as names of rooms. A name has 1 to 32 characters of `a-z`, `0-9` and `_`.
    ///
    /// # Errors
    ///
    /// The fault of the first faulty position is reported, counted from 0.
    ///
    /// - `BadName`, if the text is not a name.
    /// - `Twice`, if an earlier position has the name.
    /// - `Memory`, if an allocation fails.
    pub fn read(alloc: Global, texts: &[&str]) -> Result<RoomNames, TableFault>
        ensures ok { IfOk result (λ names. names ≡ map (λ text. text.now) texts.now) }
        ensures fine { let names = map (λ text. text.now) texts.now in
            IfOk result (λ _. AreFine names (length names)) }
        ensures err { IfErr result (λ fault. IsNameFault (map (λ text. text.now) texts.now) fault) }
    {
        let mut names = IndexSet::new(alloc);
        for position in 0..texts.len() {
            let name = new_name(&names, texts[position], position)?;
            add(&mut names, name)?;
        }
        Ok(RoomNames { names })
    }

    /// Returns the number of names.
    pub fn len(&self) -> usize
        ensures { result ≡ length self.now }
    {
        self.names.len()
    }
}

// Appends a new name.
fn add(names: &mut IndexSet<Author>, name: Author) -> Result<(), Memory>
    requires { contains_name names.old.keys name ≡ false }
    ensures { OnOk result (names.new.keys ≡ names.old.keys ++ name ∷ []) }
{
    names.insert(name)?;
    Ok(())
}

// Reads the name at a position, which must be valid and new.
fn new_name(taken: &IndexSet<Author>, text: &str, position: usize) -> Result<Author, TableFault>
    ensures { MatchResult result
        (λ name. (author_of text.now ≡ Some name) × (contains_name taken.now.keys name ≡ false))
        (λ fault. IsRefused taken.now.keys text.now position fault) }
{
    let Some(name) = Author::read(text) else {
        return Err(TableFault::BadName(position));
    };
    if taken.contains(&name) {
        return Err(TableFault::Twice(position));
    }
    Ok(name)
}
