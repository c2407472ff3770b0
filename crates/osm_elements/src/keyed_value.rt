//! Values under keys: a text, or an optional value.
ghost use Rattle.std.proofs.Common.{ap};
ghost use Rattle.std.specs.Prelude.{◌≡◌, true, Bool, Some, None, refl};
ghost use Rattle.osm_elements.specs.KeyedValues.{is_short, is_none_or};

use crate::text::Text;
use std::alloc::Allocator;

/// A value under a key.
pub trait KeyedValue: Drop {
    // The invariant of the value's type.
    ghost is_kept: { Self → Bool };

    /// Does nothing. Its contract states that the value keeps its type's invariant.
    fn keeps(&self)
        ensures { is_kept self.now ≡ true };
}

/// A value under a key that can be copied.
pub trait CopiedValue: KeyedValue + Clone {
    // A clone is equal to its original.
    ghost copies: { (x y : Self) → Self.is_clone x y → y ≡ x };
}

impl<A: Allocator> KeyedValue for Text<A> {
    ghost is_kept = { is_short };

    fn keeps(&self) {
        let _ = self.as_str();
    }
}

impl<A: Allocator + Clone> CopiedValue for Text<A> {
    ghost copies = { λ x y same. same };
}

impl<V: KeyedValue> KeyedValue for Option<V> {
    ghost is_kept = { is_none_or V.is_kept };

    fn keeps(&self) {
        if let Some(value) = self {
            value.keeps();
        }
    }
}

impl<V: CopiedValue> CopiedValue for Option<V> {
    ghost copies = { elim [
      | None ↦ elim [ None ↦ λ same. refl | Some y ↦ λ same. absurd same ]
      | Some x ↦ elim [ None ↦ λ same. absurd same | Some y ↦ λ same. ap Some (V.copies x y same) ]
    ] };
}
