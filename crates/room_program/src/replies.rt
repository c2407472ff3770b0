//! Replies that are not written yet.
ghost use Rattle.std.specs.Prelude.{◌≡◌, ◌++◌, ◌⊎◌, ◌↔◌, ◌≤◌, ◌<◌, ℕ, List, [], ◌∷◌, false, true, Err, IsTrue, OnErr, OnOk, length};
ghost use Rattle.std.specs.Io.KnownBytes.{Appends};
ghost use Rattle.room_program.specs.Streams.{TookNone};

use crate::blocks::BLOCK;
use crate::fault::StreamFault;
use crate::lines::{LINE_FEED, push_line};
use crate::sink::{Sink, put_all};
use osm_elements::Memory;
use room_wire::json_text::Json;
use std::alloc::Global;
use std::marker::Model;

/// Replies that are not written yet, each with a line feed. Replies are copied one after another, except a last reply
/// that is too long to be copied.
#[derive(Drop)]
pub struct Replies {
    texts: Vec<u8>,
    long: Option<Json>,
}

// Contracts model replies as their bytes.
impl Model for Replies {
    ghost use Rattle.std.specs.Prelude.{List, ℕ, ◌++◌};
    ghost use Rattle.room_program.specs.Inner.LongReplies.{long_line, IsLong};

    ghost Value = { List ℕ };

    ghost view = { λ r. r.texts.items ++ long_line r.long };

    ghost invariant = { λ r. IsLong r.long };
}

impl Replies {
    /// Returns no replies, without allocation.
    pub fn new(alloc: Global) -> Replies
        ensures { result ≡ [] }
    {
        Replies {
            texts: Vec::new(alloc),
            long: None,
        }
    }

    /// Returns whether the replies fill a block. They must then be written before another reply is appended.
    pub fn is_full(&self) -> bool
        ensures { IsTrue result ↔ (BLOCK ≤ length self.now) }
    {
        self.long.is_some() || self.texts.len() >= BLOCK
    }

    /// Appends a reply and a line feed. A reply as long as a block is not copied, and is appended without allocation.
    ///
    /// # Errors
    ///
    /// `Memory`, if an allocation fails. The replies are then unchanged.
    pub fn push(&mut self, reply: Json) -> Result<(), Memory>
        requires { length self.old < BLOCK }
        ensures ok { OnOk result (self.new ≡ self.old ++ (reply ++ 10 ∷ [])) }
        ensures err { OnErr result (self.new ≡ self.old) }
    {
        if reply.as_bytes().len() < BLOCK {
            return push_line(&mut self.texts, reply.as_bytes());
        }
        self.long = Some(reply);
        Ok(())
    }

    /// Writes the replies. A long reply is written from its own text.
    ///
    /// # Errors
    ///
    /// `Write`, if the writer failed or took none of the remaining bytes. What was written stays written.
    pub fn write_to<W: Sink>(&self, writer: &mut W) -> Result<(), StreamFault>
        requires { W.has_failed writer.old ≡ false }
        ensures ok { OnOk result (Appends (W.taken writer.old) (W.taken writer.new) self.now) }
        ensures works { OnOk result (W.has_failed writer.new ≡ false) }
        ensures front { OnErr result ((front rest : List ℕ) × (self.now ≡ front ++ rest)
            × Appends (W.taken writer.old) (W.taken writer.new) front) }
        ensures fault { OnErr result (result ≡ Err StreamFault.Write) }
        ensures why { OnErr result ((W.has_failed writer.new ≡ true) ⊎ TookNone W.puts writer.new) }
    {
        put_all(writer, self.texts.as_slice())?;
        let Some(long) = &self.long else {
            return Ok(());
        };
        put_all(writer, long.as_bytes())?;
        put_all(writer, &[LINE_FEED])
    }

    /// Removes the replies. The memory of copied replies is kept for later replies, and the memory of a long reply is
    /// freed.
    pub fn clear(&mut self)
        ensures { self.new ≡ [] }
    {
        self.texts.clear();
        self.long = None;
    }
}
