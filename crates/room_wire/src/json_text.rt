//! JSON texts.
ghost use Rattle.std.specs.Prelude.{◌≡◌, [], IfOk, IsUtf8};
ghost use Rattle.json.specs.Print.{print};

use json::Writer;
use osm_elements::Memory;
use std::alloc::Global;
use std::marker::Model;
use std::str;

// The length in bytes that most replies do not exceed.
const SHORT_REPLY: usize = 128;

/// A JSON text without insignificant whitespace (RFC 8259).
#[derive(Debug, Drop)]
pub struct Json {
    bytes: Vec<u8>,
    ghost utf8: { ∥ IsUtf8 bytes.items ∥₁ },
}

// Contracts model a text as its bytes.
impl Model for Json {
    ghost use Rattle.std.specs.Prelude.{List, ℕ};

    ghost Value = { List ℕ };

    ghost view = { λ j. j.bytes.items };
}

impl Json {
    // Returns an empty writer with space for a short reply.
    pub(crate) fn begin(alloc: Global) -> Result<Writer, Memory>
        ensures { IfOk result (λ out. (out.before ≡ []) × (out.tokens ≡ [])) }
    {
        Ok(Writer::new(Vec::with_capacity(alloc, SHORT_REPLY)?))
    }

    // Returns the text that was written.
    pub(crate) fn from_writer(out: Writer) -> Json
        requires { out.before ≡ [] }
        ensures { result ≡ print out.tokens }
    {
        Json {
            bytes: out.into_inner(),
        }
    }

    /// Returns the text. It goes over the bytes, because only std makes a `str` without a test.
    pub fn as_str(&self) -> &str
        ensures { result.now ≡ self.now }
    {
        match str::from_utf8(&self.bytes) {
            Ok(text) => text,
            Err(_) => unreachable!(),
        }
    }

    /// Returns the bytes of the text.
    pub fn as_bytes(&self) -> &[u8]
        ensures { result.now ≡ self.now }
    {
        &self.bytes
    }
}
