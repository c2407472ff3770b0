//! The program.
ghost use Rattle.std.specs.Prelude.{◌≡◌, ◌≤◌, ◌⊎◌, ℕ, Bool, false, map, true};
ghost use Rattle.clap.specs.Words.{kind_of};
ghost use Rattle.room_program.specs.Commands.{AsksForReplay, AsksForServe, Replays};
ghost use Rattle.room_program.specs.Faults.{Takes, TakesOne, fault_line, fault_status, names_row, unsound_line};
ghost use Rattle.room_program.specs.Servings.{Serves, rule_of_asked};
ghost use Rattle.room_program.specs.declared.asked.ServeOptions.{ServeOptions};
ghost use Rattle.room_program.specs.CommandLine.{asks_for_help, has_mistake, is_mistake, is_request};

use crate::asked::{Asked, ServeOptions};
use crate::command_line::read_command_line;
use crate::fault::{ProgramFault, ReplayFault};
use crate::lines::LINE_FEED;
use crate::replay::{replay, replay_on};
use crate::serve::serve;
use crate::sink::Sink;
use crate::source::{MOST_READS, Source};
use crate::tell::tell;
use clap::Error;
use clap::error::ErrorKind;
use log::Log;
use osm_elements::name::{NAME_LENGTH, Name};
use std::alloc::Global;
use std::convert::AsStr;
use std::net::{Net, TcpListener, TcpStream};
use std::sync::Wait;
use std::thread::Threads;
use std::time::Clock;

/// The exit status of a run that came to the end of its input, served all its sessions, or showed a help or the
/// version.
pub const DONE: u8 = 0;

/// The exit status of a run that ended with a fault, if its arguments are not to blame.
pub const FAILED: u8 = 1;

/// The exit status of a run whose arguments were refused.
pub const REFUSED: u8 = 2;

/// Runs the program with the arguments `words`, the first of which is the program's name, and returns its exit status.
///
/// - `replay` reads `input` to its end and writes the replies to `output` (status 0).
/// - `serve` serves rooms to clients. It writes a line to `output` once clients can connect, and the entry count of
///   each room's journal at the end (status 0).
/// - A fault is reported by a line on `errors`. The status is 2 if the names of rooms are to blame, and otherwise 1.
/// - Refused arguments are answered by a text on `errors` (status 2).
/// - Arguments that ask for help or the version are answered by a text on `output` (status 0).
/// - If an allocation for the arguments fails, a line on `errors` reports it (status 1).
///
/// Texts other than replies are written as far as the streams take them. If rooms were served to the end, nothing is
/// written to `errors`. In the program, this stream has the same destination as the log.
pub fn command<R, T: AsStr, S: Source, W: Sink, E: Sink>(
    rt: &R,
    words: &[T],
    input: &mut S,
    output: &mut W,
    errors: &mut E,
) -> u8
where
    R: AllocGlobal
        + Net<Listener = TcpListener, Stream = TcpStream>
        + Threads
        + Wait
        + Clock
        + Log
        + Sync,
    requires input_works { S.has_failed input.old ≡ false }
    requires output_works { W.has_failed output.old ≡ false }
    requires errors_work { E.has_failed errors.old ≡ false }

    // The cases depend on what the arguments ask for, and each subcommand has a record of its own for its ends. So a
    // further subcommand adds one case and one record, and changes no other.
    //
    // One of these is true:
    // - the arguments ask for a replay with a limit, which was run and ended with this status;
    // - they ask to serve rooms, which were served or not, and the call ended with this status;
    // - they can ask for a help or the version: nothing was read, and one text was written, to the output;
    // - they can have a mistake: nothing was read, and one text was written, to the errors;
    // - an allocation for them failed: this is reported, nothing was read, and nothing was written to the output.
    ensures { let texts = map T.text words.now in
        ((limit : ℕ) × (base : Bool) × AsksForReplay texts limit base
        × Replays S.Source W.Sink E.Sink base limit result input.old input.new output.old output.new errors.old
        errors.new)
        ⊎ ((asked : ServeOptions) × AsksForServe texts asked
        × Serves S.Source W.Sink asked.base E.Sink (map (λ room. room.now) asked.rooms.items) asked.limit asked.workers
        (rule_of_asked asked) result input.old input.new output.old output.new errors.old errors.new)
        ⊎ ((asks_for_help texts ≡ true) × (result ≡ 0) × (input.new ≡ input.old)
        × TakesOne W.Sink output.old output.new × (errors.new ≡ errors.old))
        ⊎ ((has_mistake texts ≡ true) × (result ≡ 2) × (input.new ≡ input.old)
        × (output.new ≡ output.old) × TakesOne E.Sink errors.old errors.new)
        ⊎ ((result ≡ 1) × (input.new ≡ input.old) × (output.new ≡ output.old)
        × Takes E.Sink errors.old errors.new (fault_line ProgramFault.Memory)) }
{
    let alloc = rt.alloc();
    match read_command_line(alloc, words) {
        Ok(Asked::Replay { limit, base }) => run(alloc, limit, base, input, output, errors),
        Ok(Asked::Serve(asked)) => run_server(rt, alloc, &asked, input, output, errors),
        Err(error) => answer_error(alloc, &error, output, errors),
    }
}

// Runs a replay, and reports its fault.
fn run<S: Source, W: Sink, E: Sink>(
    alloc: Global,
    limit: u32,
    base: bool,
    input: &mut S,
    output: &mut W,
    errors: &mut E,
) -> u8
    requires input_works { S.has_failed input.old ≡ false }
    requires output_works { W.has_failed output.old ≡ false }
    requires errors_work { E.has_failed errors.old ≡ false }
    ensures { Replays S.Source W.Sink E.Sink base limit result
        input.old input.new output.old output.new errors.old errors.new }
{
    let ran = if base {
        replay_on(alloc, input, output, limit, MOST_READS)
    } else {
        replay(alloc, input, output, limit, MOST_READS)
    };
    match ran {
        Ok(()) => DONE,
        Err(fault) => fail(errors, &ProgramFault::Replay(fault)),
    }
}

// Serves rooms, and reports a fault.
fn run_server<R, S: Source, W: Sink, E: Sink>(
    rt: &R,
    alloc: Global,
    asked: &ServeOptions<'_>,
    input: &mut S,
    output: &mut W,
    errors: &mut E,
) -> u8
where
    R: Net<Listener = TcpListener, Stream = TcpStream> + Threads + Wait + Clock + Log + Sync,
    requires workers { asked.now.workers ≤ 1024 }
    requires input_works { S.has_failed input.old ≡ false }
    requires output_works { W.has_failed output.old ≡ false }
    requires errors_work { E.has_failed errors.old ≡ false }
    ensures { Serves S.Source W.Sink asked.now.base E.Sink
        (map (λ room. room.now) asked.now.rooms.items) asked.now.limit asked.now.workers
        (rule_of_asked asked.now) result
        input.old input.new output.old output.new errors.old errors.new }
{
    match serve(rt, alloc, asked, input, output) {
        Ok(()) => DONE,
        Err(fault) => fail(errors, &fault),
    }
}

// Reports a fault, and returns its exit status.
fn fail<E: Sink>(errors: &mut E, fault: &ProgramFault) -> u8
    requires { E.has_failed errors.old ≡ false }
    ensures failed { result ≡ fault_status fault.now }
    ensures told { Takes E.Sink errors.old errors.new (fault_line fault.now) }
{
    match fault {
        ProgramFault::Replay(ReplayFault::Unsound { name, .. }) => tell_unsound(errors, name),
        other => {
            tell(errors, line_of(other).as_bytes());
        }
    }
    status_of(fault)
}

// Writes one line with the name whose row is not sound. The line does not have the reason; its reader can look the
// element up.
fn tell_unsound<E: Sink>(errors: &mut E, name: &Name)
    requires { E.has_failed errors.old ≡ false }
    ensures { Takes E.Sink errors.old errors.new (unsound_line name.now) }
{
    let mut text = [0; NAME_LENGTH];
    let length = name.write(&mut text);
    if tell(errors, UNSOUND.as_bytes()) && tell(errors, &text[..length]) {
        tell(errors, &[LINE_FEED]);
    }
}

// The line before the name.
const UNSOUND: &str = "maproom: unsound base ";

// Returns the line for a fault that has no name.
fn line_of(fault: &ProgramFault) -> &'static str
    ensures { names_row fault.now ≡ false → result.now ≡ fault_line fault.now }
{
    match fault {
        ProgramFault::Replay(ReplayFault::Read) => "maproom: read failed\n",
        ProgramFault::Replay(ReplayFault::Write) => "maproom: write failed\n",
        ProgramFault::Replay(ReplayFault::Memory) | ProgramFault::Memory => "maproom: no memory\n",
        ProgramFault::Replay(ReplayFault::BadBase(_)) => "maproom: bad base\n",
        ProgramFault::Replay(ReplayFault::Unsound { .. }) => "maproom: unsound base\n",
        ProgramFault::Listen => "maproom: cannot listen\n",
        ProgramFault::Worker => "maproom: cannot start a worker\n",
        ProgramFault::TooManyRooms => "maproom: too many rooms\n",
        ProgramFault::BadName => "maproom: bad room name\n",
        ProgramFault::Twice => "maproom: room twice\n",
    }
}

// Returns the exit status for a fault.
fn status_of(fault: &ProgramFault) -> u8
    ensures { result ≡ fault_status fault.now }
{
    match fault {
        ProgramFault::TooManyRooms | ProgramFault::BadName | ProgramFault::Twice => REFUSED,
        _ => FAILED,
    }
}

// Writes the text for arguments that were not accepted, and returns the exit status.
fn answer_error<W: Sink, E: Sink>(
    alloc: Global,
    error: &Error,
    output: &mut W,
    errors: &mut E,
) -> u8
    requires output_works { W.has_failed output.old ≡ false }
    requires errors_work { E.has_failed errors.old ≡ false }
    ensures { ((is_request (kind_of error.now) ≡ true) × (result ≡ 0)
        × TakesOne W.Sink output.old output.new × (errors.new ≡ errors.old))
        ⊎ ((is_mistake (kind_of error.now) ≡ true) × (result ≡ 2)
        × (output.new ≡ output.old) × TakesOne E.Sink errors.old errors.new)
        ⊎ ((result ≡ 1) × (output.new ≡ output.old)
        × Takes E.Sink errors.old errors.new (fault_line ProgramFault.Memory)) }
{
    if error.kind() == ErrorKind::OutOfMemory {
        return fail(errors, &ProgramFault::Memory);
    }
    let Ok(text) = error.to_string(alloc) else {
        return fail(errors, &ProgramFault::Memory);
    };
    if error.use_stderr() {
        tell(errors, text.as_bytes());
        REFUSED
    } else {
        tell(output, text.as_bytes());
        DONE
    }
}
