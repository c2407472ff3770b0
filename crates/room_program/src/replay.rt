//! Running a room from a stream of lines to a stream of replies.
ghost use Rattle.std.specs.Prelude.{◌≡◌, ◌≢◌, ◌++◌, ◌⊎◌, ℕ, List, [], true, false, OnOk, OnErr, Err, ◌<◌, length};
ghost use Rattle.room_server.specs.Prelude.{Appends, Global, is_sound, Rows};
ghost use Rattle.room_program.specs.Bases.{IsNoBase, IsTold, behind};
ghost use Rattle.room_program.specs.Lines.{IsLine};
ghost use Rattle.room_program.specs.Replays.{HasRun};
ghost use Rattle.room_program.specs.Scripts.{script_of};
ghost use Rattle.room_program.specs.LineAnswers.{script};
ghost use Rattle.room_program.specs.Runs.{AnswersFront, AnswersSome};
ghost use Rattle.room_program.specs.Streams.{Gets, GetsAtMost, TookNone, WritesAll, WritesEnded, WritesFront, with_bytes};

use crate::answerer::Answerer;
use crate::base::{FirstLine, read_first_line, rows_of};
use crate::blocks::{BLOCK, answer_lines};
use crate::fault::{ReplayFault, StreamFault};
use crate::lines::LINE_FEED;
use crate::replies::Replies;
use crate::sink::Sink;
use crate::source::Source;
use room_history::room::Room;
use room_wire::Scratch;
use std::alloc::Global;
use std::mem;

// Answers each line that ends in the block and writes the replies. The bytes after the last line feed are held in
// `begun`.
fn answer_block<A: Answerer, W: Sink>(
    alloc: Global,
    answers: &mut A,
    writer: &mut W,
    begun: &mut Vec<u8>,
    block: &[u8],
    scratch: &mut Scratch,
) -> Result<(), StreamFault>
    requires works { W.has_failed writer.old ≡ false }
    requires held { IsLine begun.old.items }
    ensures ok { OnOk result ((text : List ℕ)
        × AnswersFront A.answered answers.old (begun.old.items ++ block.now) text
        begun.new.items answers.new
        × Appends (W.taken writer.old) (W.taken writer.new) text) }
    ensures held { OnOk result (IsLine begun.new.items) }
    ensures works { OnOk result (W.has_failed writer.new ≡ false) }
    ensures front { OnErr result ((written : List ℕ) × (unwritten : List ℕ)
        × AnswersSome A.answered answers.old (begun.old.items ++ block.now) (written ++ unwritten)
        × Appends (W.taken writer.old) (W.taken writer.new) written) }
    ensures not_read { result ≢ Err StreamFault.Read }
    ensures write { result ≡ Err StreamFault.Write
        → (W.has_failed writer.new ≡ true) ⊎ TookNone W.puts writer.new }
    ensures memory { result ≡ Err StreamFault.Memory → W.has_failed writer.new ≡ false }
{
    let mut replies = Replies::new(alloc);
    let mut rest = block;
    while !rest.is_empty() {
        let answered = answer_lines(alloc, answers, begun, rest, &mut replies, scratch);
        replies.write_to(writer)?;
        replies.clear();
        rest = answered?;
    }
    Ok(())
}

// Reads block after block, and answers the lines of each block before it reads the next. The bytes in `held` come
// first, as if the reader had given them.
fn replay_blocks<A: Answerer, S: Source, W: Sink>(
    alloc: Global,
    answers: &mut A,
    reader: &mut S,
    writer: &mut W,
    reads: u64,
    block: &mut [u8],
    held: &[u8],
) -> Result<(), StreamFault>
    requires reader_works { S.has_failed reader.old ≡ false }
    requires writer_works { W.has_failed writer.old ≡ false }
    requires room { 0 < length block.old }
    ensures ok { OnOk result (WritesAll (script_of A.answered answers.old)
        (with_bytes held.now (S.left reader.old)) (S.left reader.new) (W.taken writer.old) (W.taken writer.new)) }
    ensures works { OnOk result ((S.has_failed reader.new ≡ false)
        × (W.has_failed writer.new ≡ false)) }
    ensures read { result ≡ Err StreamFault.Read → WritesEnded (script_of A.answered answers.old)
        (with_bytes held.now (S.left reader.old)) (S.left reader.new) (W.taken writer.old) (W.taken writer.new) }
    ensures front { OnErr result (WritesFront (script_of A.answered answers.old)
        (with_bytes held.now (S.left reader.old)) (S.left reader.new) (W.taken writer.old) (W.taken writer.new)) }
    ensures calls { GetsAtMost S.gets reads reader.old reader.new }
    ensures why_read { result ≡ Err StreamFault.Read
        → (S.has_failed reader.new ≡ true) ⊎ Gets S.gets reads reader.old reader.new }
    ensures why_write { result ≡ Err StreamFault.Write
        → (W.has_failed writer.new ≡ true) ⊎ TookNone W.puts writer.new }
    ensures why_memory { result ≡ Err StreamFault.Memory
        → (S.has_failed reader.new ≡ false) × (W.has_failed writer.new ≡ false) }
{
    let mut begun = Vec::new(alloc);
    let mut scratch = Scratch::new(alloc);
    answer_block(alloc, answers, writer, &mut begun, held, &mut scratch)?;
    for _ in 0..reads {
        let Ok(count) = reader.get(block) else {
            return Err(StreamFault::Read);
        };
        if count > 0 {
            answer_block(
                alloc,
                answers,
                writer,
                &mut begun,
                &block[..count],
                &mut scratch,
            )?;
        } else if begun.is_empty() {
            return Ok(());
        } else {
            // The last line is answered as if its line feed had come.
            return answer_block(
                alloc,
                answers,
                writer,
                &mut begun,
                &[LINE_FEED],
                &mut scratch,
            );
        }
    }
    Err(StreamFault::Read)
}

/// Runs a room over the lines of a stream, and writes the reply to each line and a line feed. The room begins with the
/// empty map, and its journal takes at most `limit` entries.
///
/// A line is an author's name, a space and a message. It ends with a line feed or with the stream.
///
/// The stream is read in blocks. The replies to a block's lines are written before the next block is read, or as soon
/// as they fill a block. A reply as long as a block is written from its own text, without a copy. After a read that
/// gives the end, the stream is not read again.
///
/// # Errors
///
/// The lines that were answered stay answered after a fault, and what was written of their replies stays written.
///
/// - `Read`, if the reader failed or `reads` reads were used up.
/// - `Write`, if the writer failed or took none of the remaining bytes.
/// - `Memory`, if an allocation for a line, a reply or a block fails.
pub fn replay<S: Source, W: Sink>(
    alloc: Global,
    reader: &mut S,
    writer: &mut W,
    limit: u32,
    reads: u64,
) -> Result<(), ReplayFault>
    requires reader_works { S.has_failed reader.old ≡ false }
    requires writer_works { W.has_failed writer.old ≡ false }
    // All was read and its script was written; or a prefix of the script was written, and the run ended for this
    // reason.
    ensures ran { HasRun S.Source W.Sink (script [] limit) (S.left reader.old) reads
        reader.old reader.new writer.old writer.new result }
    // At most `reads` reads were made, and none after a read that gave the end.
    ensures calls { GetsAtMost S.gets reads reader.old reader.new }
{
    let mut room = Room::open(alloc, limit);
    let mut block = vec![in alloc; 0u8; BLOCK]?;
    let ran = replay_blocks(alloc, &mut room, reader, writer, reads, &mut block, &[]);
    leave(room);
    ran?;
    Ok(())
}

/// Runs a room over the lines of a stream after the first, as [`replay`] does. The first line is a welcome with the
/// room's base map, which is read as in [`read_base`] and gets no reply. Nothing is written before the room is opened.
///
/// # Errors
///
/// - `Read`, `Write` and `Memory`, as in `replay` and `read_base`.
/// - `BadBase`, if the first line is not a welcome.
/// - `Unsound`, if the map in the first line is not sound.
pub fn replay_on<S: Source, W: Sink>(
    alloc: Global,
    reader: &mut S,
    writer: &mut W,
    limit: u32,
    reads: u64,
) -> Result<(), ReplayFault>
    requires reader_works { S.has_failed reader.old ≡ false }
    requires writer_works { W.has_failed writer.old ≡ false }
    // The first line had a sound map, and a room that began with it was run on all bytes after that line; or there is
    // no such room, and nothing was written.
    ensures ran { ((base : Rows Global) × IsTold S.Source reader.old base × (is_sound base ≡ true)
        × HasRun S.Source W.Sink (script base limit) (behind (S.left reader.old)) reads
        reader.old reader.new writer.old writer.new result)
        ⊎ ((fault : ReplayFault) × (result ≡ Err fault) × (writer.new ≡ writer.old)
        × IsNoBase S.Source reads reader.old reader.new fault) }
    // At most `reads` reads were made, and none after a read that gave the end.
    ensures calls { GetsAtMost S.gets reads reader.old reader.new }
{
    let mut block = vec![in alloc; 0u8; BLOCK]?;
    let first = read_first_line(alloc, reader, reads, &mut block)?;
    let FirstLine { line, later } = first;
    let rows = rows_of(alloc, line)?;
    let mut room = Room::open_on(alloc, rows, limit)?;
    let Some(later) = later else {
        return Ok(());
    };
    let ran = replay_blocks(
        alloc,
        &mut room,
        reader,
        writer,
        later.reads,
        &mut block,
        &later.held,
    );
    leave(room);
    ran?;
    Ok(())
}

// Leaves the memory of a room to the system, which takes it back when the program ends. Freeing each element would take
// a few percent of a run.
fn leave(room: Room<Global>) {
    mem::forget(room);
}
