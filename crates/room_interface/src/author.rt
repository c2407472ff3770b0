//! Names of authors.
ghost use Rattle.std.specs.Prelude.{◌≡◌, true};
ghost use Rattle.std.specs.List.{list_all};
ghost use Rattle.room_interface.specs.Authors.{author_of, is_author, is_name_character};

use std::cmp::Ordering;
use std::hash::{Hash, Hasher};
use std::marker::Model;
use std::str;

/// The greatest length of an author's name, in bytes.
pub const AUTHOR_LENGTH: usize = 32;

/// An author's name: 1 to 32 characters of `a-z`, `0-9` and `_`. Room names have the same form.
#[derive(Clone, Copy, Debug)]
pub struct Author {
    bytes: [u8; AUTHOR_LENGTH],
    length: usize,
}

impl Model for Author {
    ghost use Rattle.std.specs.Prelude.{List, ℕ, take};
    ghost use Rattle.room_interface.specs.Inner.Authors.{IsPadded};

    ghost Value = { List ℕ };

    ghost use Rattle.room_interface.specs.Inner.Authors.{inside_of, inside_of_view};

    ghost view = { λ a. take a.length a.bytes };

    ghost invariant = { λ a. IsPadded a.bytes a.length };

    ghost inverse = { inside_of };

    ghost inverse_ok = { inside_of_view };
}

impl Author {
    ghost use Rattle.room_interface.specs.SameAuthors.{is_same_author};

    /// Returns the author with the name `text`, or `None` if the text is not an author's name.
    pub fn read(text: &str) -> Option<Author>
        ensures { result ≡ author_of text.now }
    {
        if !is_author(text) {
            return None;
        }
        let length = text.len();
        let mut bytes = [0; AUTHOR_LENGTH];
        bytes[..length].copy_from_slice(text.as_bytes());
        Some(Author { bytes, length })
    }

    /// Returns the bytes of the name. Every author has an author's name.
    pub fn as_bytes(&self) -> &[u8]
        ensures bytes { result.now ≡ self.now }
        ensures name { is_author self.now ≡ true }
    {
        &self.bytes[..self.length]
    }

    /// Returns the name as text.
    pub fn as_str(&self) -> &str
        ensures { result.now ≡ self.now }
    {
        str::from_utf8(&self.bytes[..self.length]).unwrap()
    }

    /// Whether both authors have the same name.
    pub fn is(&self, other: &Author) -> bool
        ensures { result ≡ is_same_author self.now other.now }
    {
        self.as_bytes() == other.as_bytes()
    }
}

impl PartialEq for Author {
    ghost use Rattle.std.specs.Cmp.{partial_equiv_from_equiv};
    ghost use Rattle.std.specs.Cmp.Lexicographic.{nat_list_eq_equiv};
    ghost use Rattle.room_interface.specs.SameAuthors.{is_same_author};

    ghost eq = { is_same_author };

    ghost laws = { partial_equiv_from_equiv nat_list_eq_equiv };

    fn eq(&self, other: &Author) -> bool {
        self.is(other)
    }
}

impl Eq for Author {
    ghost use Rattle.std.specs.Cmp.Lexicographic.{nat_list_eq_equiv};

    ghost laws = { nat_list_eq_equiv };
}

// Authors are ordered by the bytes of their names.
impl PartialOrd for Author {
    ghost use Rattle.std.specs.Prelude.{Some};
    ghost use Rattle.std.specs.Ordering.{nat_cmp};
    ghost use Rattle.std.specs.Cmp.Lexicographic.{slice_cmp, texts_po};

    ghost partial_cmp = { λ a b. Some (slice_cmp nat_cmp a b) };

    ghost laws = { texts_po };

    fn partial_cmp(&self, other: &Author) -> Option<Ordering> {
        Some(self.cmp(other))
    }
}

impl Ord for Author {
    ghost use Rattle.std.specs.Prelude.{refl};
    ghost use Rattle.std.specs.Ordering.{nat_cmp};
    ghost use Rattle.std.specs.Cmp.Lexicographic.{slice_cmp, nat_list_cmp_total, texts_ties};

    ghost cmp = { slice_cmp nat_cmp };

    ghost total = { nat_list_cmp_total };

    ghost matches_partial_cmp = { λ a b. refl };

    ghost matches_eq = { texts_ties };

    fn cmp(&self, other: &Author) -> Ordering {
        self.as_bytes().cmp(other.as_bytes())
    }
}

impl Hash for Author {
    ghost use Rattle.std.specs.Hash as fed;
    ghost use Rattle.std.specs.Cmp.Rules.{hashing};
    ghost use Rattle.std.proofs.Common.{rules};

    ghost hash_input = { fed.slice fed.u8 };

    ghost respects_eq = { Prim.search (hashing, rules) };

    fn hash<H: Hasher>(&self, state: &mut H) {
        self.as_bytes().hash(state);
    }
}

fn is_author(text: &str) -> bool
    ensures { result ≡ is_author text.now }
{
    1 <= text.len() && text.len() <= AUTHOR_LENGTH && has_name_characters(text)
}

fn has_name_characters(text: &str) -> bool
    ensures { result ≡ list_all is_name_character text.now }
{
    text.bytes().all(is_name_character)
}

fn is_name_character(byte: u8) -> bool
    ensures { result ≡ is_name_character byte }
{
    matches!(byte, b'a'..=b'z' | b'0'..=b'9' | b'_')
}
