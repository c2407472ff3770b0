//! Answering the lines of a block.
ghost use Rattle.std.specs.Prelude.{◌≡◌, ◌++◌, ◌⊎◌, ℕ, List, [], ◌∷◌, IfOk, OnOk, OnErr, ◌<◌, length};
ghost use Rattle.room_program.specs.Lines.{IsLine};
ghost use Rattle.room_program.specs.Scripts.{Loss};
ghost use Rattle.room_program.specs.Runs.{AnswersFront, AnswersSome};

use crate::answerer::Answerer;
use crate::lines::split_line;
use crate::replies::Replies;
use osm_elements::Memory;
use room_wire::Scratch;
use std::alloc::Global;

/// The bytes of a block. A read asks for so many bytes, and replies are written when so many bytes of them are held.
pub const BLOCK: usize = 65_536;

// Answers a line, whose beginning may be held in `begun`, and clears `begun`.
fn answer_line<A: Answerer>(
    alloc: Global,
    answers: &mut A,
    begun: &mut Vec<u8>,
    line: &[u8],
    replies: &mut Replies,
    scratch: &mut Scratch,
) -> Result<(), Memory>
    requires { length replies.old < BLOCK }
    ensures ok { OnOk result ((loss : Loss) × (text : List ℕ) ×
        (A.answered loss answers.old (begun.old.items ++ line.now) ≡ (text, answers.new))
        × (replies.new ≡ replies.old ++ (text ++ 10 ∷ []))) }
    ensures none_held { OnOk result (begun.new.items ≡ []) }
    ensures err { OnErr result (replies.new ≡ replies.old) }
{
    let reply = if begun.is_empty() {
        answers.answer(alloc, line, scratch)?
    } else {
        begun.extend_from_slice(line)?;
        answers.answer(alloc, begun.as_slice(), scratch)?
    };
    replies.push(reply)?;
    begun.clear();
    Ok(())
}

/// Answers the lines that end in the block until their replies fill a block, and returns the remaining bytes. If the
/// lines come to an end first, the bytes after the last line feed are held in `begun`, and none remain.
pub fn answer_lines<'a, A: Answerer>(
    alloc: Global,
    answers: &mut A,
    begun: &mut Vec<u8>,
    block: &'a [u8],
    replies: &mut Replies,
    scratch: &mut Scratch,
) -> Result<&'a [u8], Memory>
    requires held { IsLine begun.old.items }
    requires empty { replies.old ≡ [] }
    ensures ok { IfOk result (λ rest. AnswersFront A.answered answers.old (begun.old.items ++ block.now)
        replies.new (begun.new.items ++ rest.now) answers.new) }
    ensures held { OnOk result (IsLine begun.new.items) }
    ensures less { IfOk result (λ rest. (rest.now ≡ []) ⊎ (length rest.now < length block.now)) }
    ensures some { AnswersSome A.answered answers.old (begun.old.items ++ block.now)
        replies.new }
{
    let mut rest = block;
    while !replies.is_full() {
        let Some((line, after)) = split_line(rest) else {
            begun.extend_from_slice(rest)?;
            return Ok(&[]);
        };
        answer_line(alloc, answers, begun, line, replies, scratch)?;
        rest = after;
    }
    Ok(rest)
}
