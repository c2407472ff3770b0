//! Serving rooms to clients.
ghost use Rattle.std.specs.Prelude.{◌≡◌, ◌≤◌, ◌^◌, IfErr, IfOk, OnOk, false, true, length, map, option_map, string_bytes};
ghost use Rattle.room_server.specs.Prelude.{Global, Rows, are_of_kinds, AreInOrder, Opens};
ghost use Rattle.room_socket.specs.Admitting.{rule_of};
ghost use Rattle.room_program.specs.Bases.{BeginsOn, IsUnread};
ghost use Rattle.room_program.specs.Servings.{CanBeServed, IsUnopened, ServesAll, StopsBy, rule_of_asked};
ghost use Rattle.room_program.specs.Streams.{GetsAtMost};

use crate::asked::ServeOptions;
use crate::base::read_base;
use crate::fault::{ProgramFault, ReplayFault};
use crate::fronts::front_lines;
use crate::sink::Sink;
use crate::source::{MOST_READS, Source};
use crate::tell::tell;
use log::Log;
use osm_elements::Memory;
use osm_elements::map::Rows;
use room_history::laws::legal_histories_hold;
use room_server::{Load, RoomNames, RoomSeat, RoomTable, close_all, serve_rooms};
use room_socket::{Admission, OpenGate};
use std::alloc::Global;
use std::net::{Net, TcpListener, TcpStream};
use std::sync::Wait;
use std::thread::Threads;
use std::time::Clock;

/// The most rooms that are served.
pub const MOST_ROOMS: usize = 64;

/// The most messages that a session reads. The limit exists so that the call ends by its contract: with waits of 50
/// milliseconds alone, a session reaches it after more than a year.
pub const MOST_TURNS: u64 = 1_000_000_000;

// The line that is written once clients can connect.
const LISTENING: &str = "listening\n";

/// Serves the rooms that `asked` names, and returns after the last session. Without a number of sessions it does not
/// return.
///
/// Each room begins with the empty map or, if a base is asked for, with the map in the first line of `input`. The bytes
/// after that line are not served.
///
/// Once clients can connect, the line `listening` is written. After the last session, a line for each room is written,
/// in the order of the arguments: its name, a space, and the entry count of its journal. All these lines are made
/// before the first of them is written.
///
/// Lines are written as far as the stream takes them. If it does not take `listening`, the lines of the rooms are left
/// out, because a stream that failed may not be written to. This is not a fault, because only the text is lost.
///
/// # Errors
///
/// - `TooManyRooms`, if there are more than 64 rooms. This is tested first.
/// - `BadName` or `Twice`, if a room name is invalid or repeated. The first such name is reported.
/// - `Replay`, if a base is asked for and the first line has no sound map, as in `replay_on`. This is tested after the
///   names.
/// - `Listen`, if the system does not listen at the address, or the text is not an address.
/// - `Worker`, if the system does not start a worker's thread. Then no connection was accepted.
/// - `Memory`, if an allocation for the table, the workers or the lines at the end fails.
pub fn serve<R, S: Source, W: Sink>(
    rt: &R,
    alloc: Global,
    asked: &ServeOptions<'_>,
    input: &mut S,
    output: &mut W,
) -> Result<(), ProgramFault>
where
    R: Net<Listener = TcpListener, Stream = TcpStream> + Threads + Wait + Clock + Log + Sync,
    requires workers { asked.now.workers ≤ 1024 }
    requires input_works { S.has_failed input.old ≡ false }
    requires works { W.has_failed output.old ≡ false }
    ensures ok { let rooms = map (λ room. room.now) asked.now.rooms.items in
        OnOk result ((base : Rows Global) × BeginsOn S.Source asked.now.base input.old base
        × ServesAll W.Sink rooms base asked.now.limit asked.now.workers (rule_of_asked asked.now)
        output.old output.new) }
    ensures err { let rooms = map (λ room. room.now) asked.now.rooms.items in
        IfErr result
        (λ fault. StopsBy S.Source W.Sink asked.now.base rooms input.old input.new output.old output.new fault) }
    ensures unread { asked.now.base ≡ false → input.new ≡ input.old }
    ensures calls { GetsAtMost S.gets (2 ^ 40) input.old input.new }
{
    legal_histories_hold::<Global>();
    let (table, seats) = open_table(alloc, asked, input)?;
    let admission = admission_of(alloc, asked)?;
    let Ok(listener) = TcpListener::bind(rt, asked.addr) else {
        return Err(ProgramFault::Listen);
    };
    let is_told = tell(output, LISTENING.as_bytes());
    let load = Load {
        workers: asked.workers,
        sessions: asked.sessions,
        turns: MOST_TURNS,
    };
    let seats = serve_rooms(
        rt, alloc, &OpenGate, &listener, &table, seats, &admission, load,
    )?;
    let fronts = close_all(rt, alloc, table, seats)?;
    let lines = front_lines(alloc, &asked.rooms, &fronts)?;
    if is_told {
        tell(output, &lines);
    }
    Ok(())
}

// Returns whom the server lets in.
fn admission_of(alloc: Global, asked: &ServeOptions<'_>) -> Result<Admission, Memory>
    ensures { IfOk result (λ admission. rule_of admission ≡ rule_of_asked asked.now) }
{
    Ok(Admission {
        name_header: owned(alloc, asked.name_header)?,
        watchers: asked.watchers,
        origins: all_owned(alloc, &asked.origins)?,
    })
}

// Returns a copy of a text, if there is one.
fn owned(alloc: Global, text: Option<&str>) -> Result<Option<String>, Memory>
    ensures { IfOk result (λ copy. option_map string_bytes copy ≡ option_map (λ text. text.now) text.entry) }
{
    match text {
        Some(text) => Ok(Some(String::from_str(alloc, text)?)),
        None => Ok(None),
    }
}

// Returns copies of texts, in order.
fn all_owned(alloc: Global, texts: &[&str]) -> Result<Vec<String>, Memory>
    ensures { IfOk result (λ copies. map string_bytes copies.items ≡ map (λ text. text.now) texts.now) }
{
    let mut copies = Vec::new(alloc);
    for text in texts {
        copies.push(String::from_str(alloc, text)?)?;
    }
    Ok(copies)
}

// Opens the rooms, if they are at most 64 and each has a name of its own.
fn open_table<S: Source>(
    alloc: Global,
    asked: &ServeOptions<'_>,
    input: &mut S,
) -> Result<(RoomTable, Vec<RoomSeat>), ProgramFault>
    requires { S.has_failed input.old ≡ false }
    ensures ok { let rooms = map (λ room. room.now) asked.now.rooms.items in
        IfOk result (λ r. CanBeServed rooms × ((base : Rows Global) × BeginsOn S.Source asked.now.base input.old base
        × Opens rooms base asked.now.limit r.0 r.1.items)) }
    ensures err { let rooms = map (λ room. room.now) asked.now.rooms.items in
        IfErr result (λ fault. IsUnopened S.Source asked.now.base rooms input.old input.new fault) }
    ensures unread { asked.now.base ≡ false → input.new ≡ input.old }
    ensures calls { GetsAtMost S.gets (2 ^ 40) input.old input.new }
{
    if asked.rooms.len() > MOST_ROOMS {
        return Err(ProgramFault::TooManyRooms);
    }
    let names = RoomNames::read(alloc, &asked.rooms)?;
    let rows = base_rows(alloc, asked.base, input)?;
    let opened = RoomTable::begin(alloc, names, rows, asked.limit)?;
    Ok(opened)
}

// Returns the rows of the rooms' base map: those in the first line if a base is asked for, and otherwise none.
fn base_rows<S: Source>(
    alloc: Global,
    base: bool,
    input: &mut S,
) -> Result<Rows<Global>, ReplayFault>
    requires { S.has_failed input.old ≡ false }
    ensures ok { IfOk result (λ rows. BeginsOn S.Source base input.old rows) }
    ensures order { IfOk result (λ rows. AreInOrder rows) }
    ensures kinds { IfOk result (λ rows. are_of_kinds rows ≡ true) }
    ensures works { OnOk result (S.has_failed input.new ≡ false) }
    ensures err { IfErr result (λ fault. (base ≡ true) × IsUnread S.Source (2 ^ 40) input.old input.new fault) }
    ensures unread { base ≡ false → input.new ≡ input.old }
    ensures calls { GetsAtMost S.gets (2 ^ 40) input.old input.new }
{
    if base {
        read_base(alloc, input, MOST_READS)
    } else {
        Ok(Rows::from_vec(Vec::new(alloc)))
    }
}
