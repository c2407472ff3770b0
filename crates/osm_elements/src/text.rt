//! Texts of tags.
ghost use Rattle.std.specs.Prelude.{◌≡◌, false, MatchResult, IfOk, string_bytes};
ghost use Rattle.osm_elements.specs.Refused.{refuses};
ghost use Rattle.osm_elements.specs.declared.fault.TextFault.{TextFault};
ghost use Rattle.osm_elements.specs.Texts.{is_long, text_refusal, is_same_text};

use crate::Memory;
use crate::fault::TextFault;
use std::alloc::{AllocError, Allocator};
use std::marker::Model;

/// The most characters in a text, a limit of this project.
pub const MOST_CHARACTERS: usize = 255;

/// A text of at most 255 Unicode characters, this project's limit on keys, values and roles.
#[derive(Drop)]
#[derive_where(Debug)]
pub struct Text<A: Allocator> {
    inside: String<A>,
}

// Contracts model a text as its bytes.
impl<A: Allocator> Model for Text<A> {
    ghost use Rattle.std.specs.Prelude.{◌≡◌, List, ℕ, false};
    ghost use Rattle.std.specs.String.{string_bytes};
    ghost use Rattle.osm_elements.specs.Texts.{is_long};

    ghost Value = { List ℕ };

    ghost view = { λ t. string_bytes t.inside };

    ghost invariant = { λ t. is_long (string_bytes t.inside) ≡ false };
}

impl<A: Allocator> Text<A> {
    /// Copies a string slice to a text.
    ///
    /// # Errors
    ///
    /// - `TextTooLong`, if there are more than 255 characters (not bytes)
    /// - `Memory`, if otherwise an allocation fails
    pub fn new(alloc: A, text: &str) -> Result<Text<A>, TextFault>
        ensures text { MatchResult result
            (λ t. (text_refusal text.now ≡ None) × (t ≡ text.now))
            (refuses (text_refusal text.now)) }
        // `Memory` never replaces `TextTooLong`.
        ensures named { (e : TextFault) → text_refusal text.now ≡ Some e → result ≡ Err e }
    {
        if is_too_long(text) {
            return Err(TextFault::TextTooLong);
        }
        let inside = String::from_str(alloc, text)?;
        Ok(Text { inside })
    }

    /// Makes a text of a string, and takes over its memory.
    ///
    /// # Errors
    ///
    /// `TextTooLong`, if there are more than 255 characters. It never returns `Memory`.
    pub fn from_string(text: String<A>) -> Result<Text<A>, TextFault>
        ensures text { MatchResult result
            (λ t. (text_refusal (string_bytes text) ≡ None) × (t ≡ string_bytes text))
            (λ e. text_refusal (string_bytes text) ≡ Some e) }
    {
        if is_too_long(text.as_str()) {
            return Err(TextFault::TextTooLong);
        }
        Ok(Text { inside: text })
    }

    /// Returns the text, which has at most 255 characters.
    pub fn as_str(&self) -> &str
        ensures value { result.now ≡ self.now }
        ensures short { is_long self.now ≡ false }
    {
        self.inside.as_str()
    }

    /// Returns a copy, or `Memory`.
    pub fn copy(&self) -> Result<Text<A>, Memory>
    where
        A: Clone,
        ensures { IfOk result (λ t. t ≡ self.now) }
    {
        Ok(self.clone()?)
    }
}

impl<A: Allocator + Clone> Clone for Text<A> {
    ghost is_clone = { λ a b. b ≡ a };

    fn clone(&self) -> Result<Text<A>, AllocError> {
        let inside = self.inside.clone()?;
        Ok(Text { inside })
    }
}

/// Returns whether two texts are the same.
pub fn is_same_text<A: Allocator>(one: &Text<A>, other: &Text<A>) -> bool
    ensures { result ≡ is_same_text one.now other.now }
{
    one.as_str() == other.as_str()
}

// Returns whether a text has more than 255 characters.
fn is_too_long(text: &str) -> bool
    ensures { result ≡ is_long text.now }
{
    text.chars().count() > MOST_CHARACTERS
}
