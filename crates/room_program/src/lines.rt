//! Lines of a stream of bytes.
ghost use Rattle.std.specs.Prelude.{◌≡◌, ◌∷◌, ◌++◌, MatchOption, OnOk, OnErr, [], vec_items};
ghost use Rattle.room_program.specs.Lines.{IsLine};

use memchr::memchr;
use osm_elements::Memory;

/// The byte that ends a line.
pub const LINE_FEED: u8 = b'\n';

/// Returns the first line of the bytes and the bytes after its line feed, or `None` if there is no line feed.
pub fn split_line(bytes: &[u8]) -> Option<(&[u8], &[u8])>
    ensures { MatchOption result (IsLine bytes.now)
        (λ parts. IsLine parts.0.now × (bytes.now ≡ parts.0.now ++ 10 ∷ parts.1.now)) }
{
    match memchr(LINE_FEED, bytes) {
        Some(length) => Some((&bytes[..length], &bytes[length + 1..])),
        None => None,
    }
}

/// Appends a text and a line feed.
///
/// # Errors
///
/// `Memory`, if an allocation fails. The bytes are then unchanged.
pub fn push_line(bytes: &mut Vec<u8>, text: &[u8]) -> Result<(), Memory>
    ensures ok { OnOk result (bytes.new.items ≡ bytes.old.items ++ (text.now ++ 10 ∷ [])) }
    ensures err { OnErr result (bytes.new.items ≡ bytes.old.items) }
{
    let length = bytes.len();
    bytes.extend_from_slice(text)?;
    if bytes.push(LINE_FEED).is_err() {
        bytes.truncate(length);
        return Err(Memory);
    }
    Ok(())
}
