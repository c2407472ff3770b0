//! Laws about the definitions, each the contract of a function that does nothing.
ghost use Rattle.std.specs.Prelude.{◌≡◌, ◌≤◌, ◌<◌, ◌+◌, ◌^◌, ℕ, List, IfSome, Ok, Some, codes, is_some, true};
ghost use Rattle.room_server.specs.Prelude.{Global, is_sound, Rows, Holds, IsJournal};
ghost use Rattle.room_program.specs.LineAnswers.{answered, opened_on};
ghost use Rattle.room_program.specs.Scripts.{Loss, room_after};
ghost use Rattle.room_program.specs.declared.io.Io.{Io};
ghost use Rattle.room_program.specs.Io.{calls_of};
ghost use Rattle.room_program.specs.Streams.{Gets, TookNone};
ghost use Rattle.room_program.specs.CommandLine.{IsTaken, limit_asked, limit_text, subcommand_asked, sessions_asked, workers_asked};
ghost use Rattle.room_program.specs.CommandLineExamples.{taken, bad_limit, serve_taken, bad_serve, bad_word, help_asked, version_asked};

use crate::io::Io;
use crate::sink::Sink;
use crate::source::Source;
use std::alloc::Global;
use std::io::{Read, Write};

/// On worked examples of arguments, the definitions have the results that were worked out by hand.
pub fn command_lines_are_as_worked()
    ensures taken { taken }
    ensures bad_limit { bad_limit }
    ensures serve_taken { serve_taken }
    ensures bad_serve { bad_serve }
    ensures bad_word { bad_word }
    ensures help_asked { help_asked }
    ensures version_asked { version_asked }
{}

/// Accepted arguments have a limit of at most a million, written or by default. Those that ask to serve have 1 to 1024
/// workers, and either no number of sessions or 1 to a million.
pub fn limits_are_in_range()
    ensures told { (words : List (List ℕ)) → IsTaken words → is_some (limit_text words) ≡ true }
    ensures small { (words : List (List ℕ)) → IsTaken words → limit_asked words ≤ 1000000 }
    ensures workers { (words : List (List ℕ)) → IsTaken words → subcommand_asked words ≡ Some (codes "serve")
        → (1 ≤ workers_asked words) × (workers_asked words ≤ 1024) }
    ensures sessions { (words : List (List ℕ)) → IsTaken words → subcommand_asked words ≡ Some (codes "serve")
        → IfSome (sessions_asked words) (λ sessions. (1 ≤ sessions) × (sessions ≤ 1000000)) }
{}

/// The relations of streams are facts of the system's streams. If they count some reads, the system's stream answered
/// as many calls. If a sink took none of the remaining bytes, this was the answer to the stream's last call.
pub fn calls_are_noted<R: Read, W: Write>()
    ensures reads { (n : ℕ) (before after : Io R) → (calls_of before).answered + n < 2 ^ 64
        → Gets ⟦<Io<R> as Source>⟧.gets n before after
        → (calls_of after).answered ≡ (calls_of before).answered + n }
    ensures none_taken { (after : Io W) → TookNone ⟦<Io<W> as Sink>⟧.puts after
        → (asked : ℕ) × (0 < asked) × ((calls_of after).last ≡ Some (record { asked = asked; answer = Ok 0 })) }
{}

/// After any lines of a script, whichever replies were lost, calls lead to the room's journal from its base map. If
/// that map is sound, the theorem is true of the journal: the room's map is sound, and equals the active actions
/// replayed in order.
pub fn a_script_holds()
    ensures journals { (base : Rows Global) (limit : ℕ) (lines : List (List ℕ)) (lost : List Loss)
        → IsJournal base limit (room_after answered (opened_on base limit) lines lost).journal }
    ensures holds { (base : Rows Global) (limit : ℕ) (lines : List (List ℕ)) (lost : List Loss)
        → is_sound base ≡ true
        → Holds base limit (room_after answered (opened_on base limit) lines lost).journal }
{
    room_history::laws::journals_hold::<Global>();
    room_wire::laws::what_is_spelled_is_made();
}
