//! Lists of names.
ghost use Rattle.std.specs.Prelude.{◌≡◌};
ghost use Rattle.osm_elements.specs.Maps.{is_same};

use crate::items::{Copied, Items};
use crate::name::Name;

/// A list of names of any kinds, in which a name may occur more than once.
pub type Names<A> = Items<Name, A>;

impl Copied for Name {
    ghost copies = { λ x y same. same };
}

/// Returns whether two names are the same.
pub fn is_same(one: &Name, other: &Name) -> bool
    ensures { result ≡ is_same one.now other.now }
{
    one == other
}
