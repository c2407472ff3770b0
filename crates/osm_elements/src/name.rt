//! The names of elements: a kind and an id.
ghost use Rattle.std.specs.Prelude.{◌≡◌, ◌≢◌, ◌≤◌, pos, MatchOption, IfSome, IfNone, take, drop, ℤ, FitsSigned};
ghost use Rattle.std.specs.Fmt.{signed_decimal};
ghost use Rattle.std.specs.Int.{w64};
ghost use Rattle.osm_elements.specs.Names.{Splits, NoLetter, letter_of};

use itoa::Buffer;
use std::cmp::Ordering;

/// The kinds of elements, in the order in which maps are listed (OpenStreetMap wiki, "Elements").
#[derive(Clone, Copy, Debug, PartialEq, Eq, PartialOrd, Ord)]
pub enum Kind {
    /// A point with a latitude and a longitude.
    Node,
    /// An ordered list of nodes.
    Way,
    /// An ordered list of members, each with a role.
    Relation,
}

impl Kind {
    /// Returns the letter that begins a name of this kind: `n`, `w` or `r`.
    pub fn letter(self) -> u8
        ensures { result ≡ letter_of self }
    {
        match self {
            Kind::Node => b'n',
            Kind::Way => b'w',
            Kind::Relation => b'r',
        }
    }
}

/// The name of an element: its kind and its id, which is any `i64` except 0.
///
/// Each kind has its own ids, so node 5 and way 5 differ (OpenStreetMap wiki, "Elements"). Names are ordered by kind
/// (node, way, relation), and then by id as a number.
#[derive(Clone, Copy, Debug, PartialEq, Eq)]
pub struct Name {
    kind: Kind,
    id: i64,
    ghost not_zero: { id ≢ pos 0 },
}

/// The length in bytes of the longest text of a name, for example `n-9223372036854775808`.
pub const NAME_LENGTH: usize = 21;

impl PartialOrd for Name {
    ghost use Rattle.std.specs.Prelude.{Some, refl};
    ghost use Rattle.std.specs.Cmp.{partial_order_from_agreeing_total};
    ghost use Rattle.osm_elements.specs.NameOrder.{name_cmp};
    ghost use Rattle.osm_elements.specs.Facts.Names.{name_cmp_total};
    ghost use Rattle.osm_elements.specs.Facts.SameNames.{name_eq_is};

    ghost partial_cmp = { λ a b. Some (name_cmp a b) };

    ghost laws = { partial_order_from_agreeing_total name_cmp name_cmp_total (λ a b. refl) name_eq_is };

    fn partial_cmp(&self, other: &Name) -> Option<Ordering> {
        Some(self.cmp(other))
    }
}

// Written by hand, because it decides at the first part that differs: each look-up in a map compares some thirty names.
impl Ord for Name {
    ghost use Rattle.std.specs.Prelude.{refl};
    ghost use Rattle.osm_elements.specs.NameOrder.{name_cmp};
    ghost use Rattle.osm_elements.specs.Facts.Names.{name_cmp_total};
    ghost use Rattle.osm_elements.specs.Facts.SameNames.{name_eq_is};

    ghost cmp = { name_cmp };

    ghost total = { name_cmp_total };

    ghost matches_partial_cmp = { λ a b. refl };

    ghost matches_eq = { name_eq_is };

    fn cmp(&self, other: &Name) -> Ordering {
        if self.kind != other.kind {
            return self.kind.cmp(&other.kind);
        }
        if self.id > other.id {
            return Ordering::Greater;
        }
        if self.id < other.id {
            return Ordering::Less;
        }
        Ordering::Equal
    }
}

impl Name {
    ghost use Rattle.osm_elements.specs.NameTexts.{name_text, name_of};
    ghost use Rattle.osm_elements.specs.declared.name.Name.{Name as AName};

    /// Returns the name with this kind and id, or `None` if the id is 0.
    pub fn new(kind: Kind, id: i64) -> Option<Name>
        ensures { MatchOption result (id ≡ pos 0) (λ n. (n.kind ≡ kind) × (n.id ≡ id)) }
    {
        if id == 0 {
            return None;
        }
        Some(Name { kind, id })
    }

    /// Returns the kind of the element with this name.
    pub fn kind(&self) -> Kind
        ensures { result ≡ self.now.kind }
    {
        self.kind
    }

    /// Returns the id, which is not 0.
    pub fn id(&self) -> i64
        ensures { result ≡ self.now.id }
    {
        self.id
    }

    /// Reads a name from its text. Returns `None` if the text is not that of a name.
    ///
    /// A name has one text: `n`, `w` or `r`, and then the id in decimal digits, with a `-` in front of a negative id. A
    /// text with a `+`, a leading zero, `-0`, the id 0 or an id outside of `i64` is refused.
    pub fn read(text: &str) -> Option<Name>
        ensures value { result ≡ name_of text.now }
        ensures found { IfSome result (λ n. text.now ≡ name_text n) }
        ensures only { IfNone result ((n : AName) → FitsSigned w64 n.id → text.now ≢ name_text n) }
    {
        match split_letter(text) {
            Some((kind, digits)) => match read_id(digits) {
                Some(id) => Name::new(kind, id),
                None => None,
            },
            None => None,
        }
    }

    /// Writes the name's text to the start of the buffer, and returns its length in bytes. The rest of the buffer is
    /// unchanged.
    pub fn write(&self, buffer: &mut [u8; NAME_LENGTH]) -> usize
        ensures length { result ≤ 21 }
        ensures text { take result buffer.new ≡ name_text self.now }
        ensures rest { drop result buffer.new ≡ drop result buffer.old }
    {
        let mut decimal = Buffer::new();
        let digits = decimal.format(self.id).as_bytes();
        let length = digits.len() + 1;
        buffer[0] = self.kind.letter();
        buffer[1..length].copy_from_slice(digits);
        length
    }
}

// Returns the kind that the first letter denotes, and the text after that letter.
fn split_letter(text: &str) -> Option<(Kind, &str)>
    ensures { MatchOption result (NoLetter text.now) (λ found. Splits text.now found.0 found.1.now) }
{
    if let Some(digits) = text.strip_prefix('n') {
        Some((Kind::Node, digits))
    } else if let Some(digits) = text.strip_prefix('w') {
        Some((Kind::Way, digits))
    } else if let Some(digits) = text.strip_prefix('r') {
        Some((Kind::Relation, digits))
    } else {
        None
    }
}

// Reads an id. A parsed number is accepted only if its own decimal text is `digits`: this needs no reader of digits,
// and shows that a name has only one text.
fn read_id(digits: &str) -> Option<i64>
    ensures { MatchOption result ((id : ℤ) → FitsSigned w64 id → digits.now ≢ signed_decimal id)
        (λ id. FitsSigned w64 id × (digits.now ≡ signed_decimal id)) }
{
    match digits.parse::<i64>() {
        Ok(id) if Buffer::new().format(id) == digits => Some(id),
        _ => None,
    }
}
