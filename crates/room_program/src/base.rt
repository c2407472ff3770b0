//! Reading the base map of a room from the first line of a stream.
ghost use Rattle.std.specs.Prelude.{◌≡◌, ◌<◌, ◌⊎◌, false, true, length, Ok, Err, IfErr, IfOk, MatchResult, OnOk};
ghost use Rattle.room_server.specs.Prelude.{AreInOrder, are_of_kinds};
ghost use Rattle.room_wire.specs.declared.bad.Fault.TheVariants.{Memory as OutOfMemory};
ghost use Rattle.room_program.specs.Bases.{IsTold, IsUnread, Tells, spelled_base};
ghost use Rattle.room_program.specs.Inner.FirstLines.{EndsLine, IsBadLine, ReadsLine};
ghost use Rattle.room_program.specs.Streams.{Gets, GetsAtMost};

use crate::blocks::BLOCK;
use crate::fault::{ReplayFault, StreamFault};
use crate::lines::split_line;
use crate::source::Source;
use osm_elements::map::Rows;
use room_wire::bad::{Bad, Fault};
use room_wire::welcome::{Welcome, read_welcome};
use std::alloc::Global;

/// The result of reading the first line of a stream.
#[derive(Drop)]
pub(crate) struct FirstLine {
    /// The line, without its line feed.
    pub line: Vec<u8>,
    /// What was read with the line, or `None` if the stream ended with the line.
    pub later: Option<Later>,
}

/// The bytes that were read with a first line, and the reads that are left.
#[derive(Drop)]
pub(crate) struct Later {
    /// The bytes after the line feed.
    pub held: Vec<u8>,
    /// The number of reads that are left.
    pub reads: u64,
}

/// Reads the first line of a stream as a welcome, and returns the rows of its map.
///
/// The names of the rows rise, and each element is of its name's kind. The stream is read in blocks to the end of the
/// line, and possibly past it. After a read that gives the end, it is not read again.
///
/// # Errors
///
/// - `Read`, if the reader failed or `reads` reads were used up.
/// - `BadBase`, if the line is not a welcome. A line that is empty, missing or not UTF-8 is not JSON.
/// - `Memory`, if an allocation for the line or for the welcome fails.
pub fn read_base<S: Source>(
    alloc: Global,
    reader: &mut S,
    reads: u64,
) -> Result<Rows<Global>, ReplayFault>
    requires { S.has_failed reader.old ≡ false }
    ensures ok { IfOk result (λ rows. IsTold S.Source reader.old rows) }
    ensures order { IfOk result (λ rows. AreInOrder rows) }
    ensures kinds { IfOk result (λ rows. are_of_kinds rows ≡ true) }
    ensures works { OnOk result (S.has_failed reader.new ≡ false) }
    ensures err { IfErr result (λ fault. IsUnread S.Source reads reader.old reader.new fault) }
    // At most `reads` reads were made, and none after a read that gave the end.
    ensures calls { GetsAtMost S.gets reads reader.old reader.new }
{
    let mut block = vec![in alloc; 0u8; BLOCK]?;
    let first = read_first_line(alloc, reader, reads, &mut block)?;
    rows_of(alloc, first.line)
}

/// Reads to the end of the first line, and possibly past it.
pub(crate) fn read_first_line<S: Source>(
    alloc: Global,
    reader: &mut S,
    reads: u64,
    block: &mut [u8],
) -> Result<FirstLine, StreamFault>
    requires works { S.has_failed reader.old ≡ false }
    requires room { 0 < length block.old }
    ensures ok { IfOk result (λ first. ReadsLine S.Source reads reader.old reader.new first) }
    ensures works { OnOk result (S.has_failed reader.new ≡ false) }
    ensures err { IfErr result (λ fault. EndsLine S.Source reads reader.old reader.new fault) }
    ensures calls { GetsAtMost S.gets reads reader.old reader.new }
{
    let mut line = Vec::new(alloc);
    for used in 0..reads {
        let Ok(count) = reader.get(block) else {
            return Err(StreamFault::Read);
        };
        if count == 0 {
            return Ok(FirstLine { line, later: None });
        }
        if let Some((end, behind)) = split_line(&block[..count]) {
            line.extend_from_slice(end)?;
            let held = Vec::from_slice(alloc, behind)?;
            let reads = reads - used - 1;
            let later = Some(Later { held, reads });
            return Ok(FirstLine { line, later });
        }
        line.extend_from_slice(&block[..count])?;
    }
    Err(StreamFault::Read)
}

/// Reads a line as a welcome, and returns the welcome's rows.
pub(crate) fn rows_of(alloc: Global, line: Vec<u8>) -> Result<Rows<Global>, ReplayFault>
    ensures ok { IfOk result (λ rows. Tells line.items rows) }
    ensures order { IfOk result (λ rows. AreInOrder rows) }
    ensures kinds { IfOk result (λ rows. are_of_kinds rows ≡ true) }
    ensures err { IfErr result (λ fault. IsBadLine line.items fault) }
{
    match welcome_of(alloc, line.as_slice()) {
        Ok(welcome) => Ok(welcome.rows),
        Err(bad) => Err(match bad.fault {
            Fault::Memory => ReplayFault::Memory,
            _ => ReplayFault::BadBase(bad),
        }),
    }
}

// Reads the bytes of a line as a welcome.
fn welcome_of(alloc: Global, line: &[u8]) -> Result<Welcome, Bad>
    ensures exact { MatchResult result (λ w. spelled_base line.now ≡ Ok w)
        (λ bad. (bad.fault ≡ OutOfMemory) ⊎ (spelled_base line.now ≡ Err bad)) }
    ensures order { IfOk result (λ w. AreInOrder w.rows) }
    ensures kinds { IfOk result (λ w. are_of_kinds w.rows ≡ true) }
{
    match str::from_utf8(line) {
        Ok(text) => read_welcome(alloc, text),
        Err(_) => Err(Bad::unread(Fault::NotJson)),
    }
}
