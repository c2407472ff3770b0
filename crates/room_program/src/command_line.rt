//! Reading the program's arguments.
ghost use Rattle.std.specs.Prelude.{◌≡◌, [], IfOk, MatchResult, codes, false, map, unwrap_or};
ghost use Rattle.clap.specs.Words.{HasKind, all_of, app_of, found_of, new_app, rows_of, rule_of};
ghost use Rattle.clap.specs.declared.builder.command.Command.TheViews.{out-Command as fields_of};
ghost use Rattle.room_program.specs.Commands.{IsAsked};
ghost use Rattle.room_program.specs.CommandLine.{HasNumber, addr_in, faults, flag_in, given_number, number_in, program_app, replay_app, serve_app};
ghost use Rattle.room_program.specs.CommandLine as words;

use crate::asked::{Asked, ServeOptions};
use clap::{Arg, ArgAction, ArgMatches, Command, Error, value_parser};
use std::alloc::{AllocError, Global};
use std::convert::AsStr;

/// The version of the program.
pub const VERSION: &str = "1.1.0";

/// The largest limit that can be asked for.
pub const MOST_ENTRIES: u32 = 1_000_000;

/// The most workers that can be asked for.
pub const MOST_WORKERS: u32 = 1024;

/// The most sessions that can be asked for.
pub const MOST_SESSIONS: u32 = 1_000_000;

/// Reads the program's arguments, the first of which is the program's name, and returns what they ask for.
///
/// # Errors
///
/// An error, if `clap` refuses the arguments, or if they ask for a help or the version. Its kind is `OutOfMemory` if an
/// allocation failed.
pub fn read_command_line<'a, T: AsStr>(alloc: Global, words: &'a [T]) -> Result<Asked<'a>, Error>
    ensures { let texts = map T.text words.entry.now in
        MatchResult result (IsAsked texts) (HasKind (faults texts)) }
{
    let matches = command_line(alloc)?.try_get_matches_from(words)?;
    if let Some(options) = matches.subcommand_matches("serve") {
        return Ok(Asked::Serve(ServeOptions {
            addr: addr(options),
            workers: number(options, "workers"),
            sessions: given_number(options, "sessions"),
            limit: number(options, "limit"),
            base: flag(options, "base"),
            name_header: options.get_str("name-header"),
            watchers: flag(options, "watchers"),
            origins: texts(alloc, options, "origin")?,
            rooms: texts(alloc, options, "rooms")?,
        }));
    }
    let Some(options) = matches.subcommand_matches("replay") else {
        unreachable!()
    };
    Ok(Asked::Replay {
        limit: number(options, "limit"),
        base: flag(options, "base"),
    })
}

// Returns the number of an option, or 0 if it has none.
fn number(options: &ArgMatches<'_>, id: &str) -> u32
    requires { HasNumber id.now (rows_of (found_of options.now)) }
    ensures { result ≡ number_in id.now (rows_of (found_of options.now)) }
{
    options.get_one::<u32>(id).unwrap_or(0)
}

// Returns the number of an option, if it is given.
fn given_number(options: &ArgMatches<'_>, id: &str) -> Option<u32>
    requires { HasNumber id.now (rows_of (found_of options.now)) }
    ensures { result ≡ given_number id.now (rows_of (found_of options.now)) }
{
    options.get_one::<u32>(id)
}

// Returns the address, or the empty text if there is none.
fn addr<'a>(options: &ArgMatches<'a>) -> &'a str
    ensures { result.now ≡ addr_in (rows_of (found_of options.now)) }
{
    options.get_str("addr").unwrap_or("")
}

// Returns whether an option without a value is given.
fn flag(options: &ArgMatches<'_>, id: &str) -> bool
    ensures { result ≡ flag_in id.now (rows_of (found_of options.now)) }
{
    options.get_str(id).unwrap_or("") == "true"
}

// Returns the values of an option, in order.
fn texts<'a>(alloc: Global, options: &ArgMatches<'a>, id: &str) -> Result<Vec<&'a str>, AllocError>
    ensures { IfOk result
        (λ texts. map (λ text. text.now) texts.items ≡ unwrap_or (all_of id.now (rows_of (found_of options.now))) []) }
{
    match options.get_strs(id) {
        Some(texts) => Vec::from_slice(alloc, texts),
        None => Ok(Vec::new(alloc)),
    }
}

// Returns the program's command line.
fn command_line<'a>(alloc: Global) -> Result<Command<'a>, AllocError>
    ensures { IfOk result (λ line. app_of line ≡ program_app) }
{
    let replay = replay_line(alloc)?;
    let serve = serve_line(alloc)?;
    Command::new(alloc, "maproom")
        .version(VERSION)
        .about("A room in which several mappers edit one map of OpenStreetMap")
        .long_about(PROGRAM_HELP)
        .subcommand_required(true)
        .subcommand(replay)?
        .subcommand(serve)
}

// Returns the command line of `replay`.
fn replay_line<'a>(alloc: Global) -> Result<Command<'a>, AllocError>
    ensures shape { IfOk result (λ line. app_of line ≡ replay_app) }
    ensures local { IfOk result (λ line. (fields_of line).has_globals ≡ false) }
{
    Command::new(alloc, "replay")
        .about("Runs a room from the lines of standard input")
        .long_about(REPLAY_HELP)
        .arg(limit_option(alloc))?
        .arg(base_option(alloc))
}

// Returns the command line of `serve`.
fn serve_line<'a>(alloc: Global) -> Result<Command<'a>, AllocError>
    ensures shape { IfOk result (λ line. app_of line ≡ serve_app) }
    ensures local { IfOk result (λ line. (fields_of line).has_globals ≡ false) }
{
    serve_words(alloc)
        .arg(addr_option(alloc))?
        .arg(workers_option(alloc))?
        .arg(sessions_option(alloc))?
        .arg(limit_option(alloc))?
        .arg(base_option(alloc))?
        .arg(name_header_option(alloc))?
        .arg(watchers_option(alloc))?
        .arg(origin_option(alloc))?
        .arg(room_words(alloc))
}

// Returns the subcommand `serve`, without its options.
fn serve_words<'a>(alloc: Global) -> Command<'a>
    ensures shape { app_of result ≡ new_app (codes "serve") }
    ensures local { (fields_of result).has_globals ≡ false }
{
    Command::new(alloc, "serve")
        .about("Serves rooms to clients over WebSockets")
        .long_about(SERVE_HELP)
}

fn limit_option<'a>(alloc: Global) -> Arg<'a>
    ensures rule { rule_of result ≡ words.limit_option }
    ensures local { result.global ≡ false }
{
    Arg::new(alloc, "limit")
        .long("limit")
        .value_name("N")
        .value_parser(value_parser!(u32).range(0..=i64::from(MOST_ENTRIES)))
        .default_value("1000000")
        .help("How many changes a room accepts, from 0 to 1000000")
}

fn base_option<'a>(alloc: Global) -> Arg<'a>
    ensures rule { rule_of result ≡ words.base_option }
    ensures local { result.global ≡ false }
{
    Arg::new(alloc, "base")
        .long("base")
        .action(ArgAction::SetTrue)
        .help("Begin with the map that the first line of standard input is: a reply to `map`")
}

fn addr_option<'a>(alloc: Global) -> Arg<'a>
    ensures rule { rule_of result ≡ words.addr_option }
    ensures local { result.global ≡ false }
{
    Arg::new(alloc, "addr")
        .long("addr")
        .value_name("ADDR")
        .required(true)
        .help("Where it listens: an IP address or the name of a host, a colon and a port")
}

fn workers_option<'a>(alloc: Global) -> Arg<'a>
    ensures rule { rule_of result ≡ words.workers_option }
    ensures local { result.global ≡ false }
{
    Arg::new(alloc, "workers")
        .long("workers")
        .value_name("N")
        .value_parser(value_parser!(u32).range(1..=i64::from(MOST_WORKERS)))
        .required(true)
        .help("How many clients are served at the same time, from 1 to 1024")
}

fn sessions_option<'a>(alloc: Global) -> Arg<'a>
    ensures rule { rule_of result ≡ words.sessions_option }
    ensures local { result.global ≡ false }
{
    Arg::new(alloc, "sessions")
        .long("sessions")
        .value_name("K")
        .value_parser(value_parser!(u32).range(1..=i64::from(MOST_SESSIONS)))
        .help(
            "After how many connections it ends, from 1 to 1000000; otherwise it serves until it is stopped",
        )
}

fn name_header_option<'a>(alloc: Global) -> Arg<'a>
    ensures rule { rule_of result ≡ words.name_header_option }
    ensures local { result.global ≡ false }
{
    Arg::new(alloc, "name-header")
        .long("name-header")
        .value_name("HEADER")
        .help("The header in which a proxy says who has logged in: each session has this name")
}

fn watchers_option<'a>(alloc: Global) -> Arg<'a>
    ensures rule { rule_of result ≡ words.watchers_option }
    ensures local { result.global ≡ false }
{
    Arg::new(alloc, "watchers")
        .long("watchers")
        .action(ArgAction::SetTrue)
        .help("With --name-header: let clients without a name see the map, but change nothing")
}

fn origin_option<'a>(alloc: Global) -> Arg<'a>
    ensures rule { rule_of result ≡ words.origin_option }
    ensures local { result.global ≡ false }
{
    Arg::new(alloc, "origin")
        .long("origin")
        .value_name("ORIGIN")
        .action(ArgAction::Append)
        .help(
            "Let pages of this origin connect, such as https://maps.example.org; you can repeat it",
        )
}

fn room_words<'a>(alloc: Global) -> Arg<'a>
    ensures rule { rule_of result ≡ words.room_words }
    ensures local { result.global ≡ false }
{
    Arg::new(alloc, "rooms")
        .value_name("ROOM")
        .action(ArgAction::Append)
        .num_args(1..)
        .required(true)
        .help(
            "The names of the rooms, at most 64: 1 to 32 characters of a-z, 0-9 and _, each name once",
        )
}

const PROGRAM_HELP: &str = "\
Maproom is a room in which several mappers edit one map of OpenStreetMap at the same time.
Each change is one message of JSON, which the room answers by one line, and each mapper can take his own
changes back.

To run a room from a file of messages: maproom replay <FILE
To serve rooms to clients: maproom serve --addr 127.0.0.1:9001 --workers 8 paris rome

`maproom help replay` names the messages; docs/PROTOCOL.md tells what each holds, and every reply.";

const REPLAY_HELP: &str = "\
Reads a line for each message from standard input, and writes a line for each reply to standard output.
To replay a file, redirect it: maproom replay <FILE

A line is the name of its author, a space, and the message as JSON. The room begins with an empty map,
and lives as long as its input.

With --base the room begins with the map that the first line is, which gets no reply: a line that the
message `map` was answered, by this room or another. So a room can go on where one ended.

Such a line: anna {\"id\":1,\"do\":\"create\",\"el\":\"n1\",\"lat\":\"51.5\",\"lon\":\"-0.1\"}

What `do` can be:
  to change the map: create, delete, purge, move, retag, reverse, nodes, members, split, join, merge, unglue
  to do several of these as one change: group
  to take a change of one's own back, and to do it again: undo, redo
  to ask: get, map, undos

Each message has an `id`, which its reply names. A change, an undo or a redo that is accepted spends it: the next one
of that author needs another. docs/PROTOCOL.md tells what each message holds, and every reply.

A change can say with `since` how many entries its author had seen. It is refused if somebody else has changed since
what it would change.";

const SERVE_HELP: &str = "\
Serves rooms to clients over WebSockets. A client names a room and its author in its first message, and is then
told what the others change.
The first message: {\"id\":1,\"do\":\"hello\",\"room\":\"paris\",\"name\":\"anna\"}
Those after it: as `maproom help replay` tells, without the author
To serve two rooms: maproom serve --addr 127.0.0.1:9001 --workers 8 paris rome

A room begins with an empty map, and lives until the program ends. With --base each begins with the map that the first
line of standard input is: a line that the message `map` was answered. Once clients can connect, the line `listening` is
printed. With --sessions it ends after so many connections, and prints a line for each room: its name, a space, and how
many changes it accepted.

A worker serves one session at a time. So as many clients are served at once as there are workers, and others wait
until a session ends. Each connection is a session, numbered from 1, also one that fails at once.

Standard error tells of each session, by its number I: `session I open`, and `session I end E`, where E is
  left    the client closed the connection
  binary  the client sent a message that is no text
  memory  there was no memory
  origin  the client is a page of an origin that may not connect
  fault   the connection failed, or the client broke the protocol
  bound   the client sent more messages than a session may have

There is no TLS and no password: whoever can connect can change the maps, under any name. So let it listen on an
address that only a proxy can reach which has both. With --name-header a session has the name that this header of its
first request says, and no other: let the proxy set it to the user who has logged in, as in nginx by
`proxy_set_header X-Maproom-Name $remote_user`. A client without such a name may do nothing or, with --watchers, watch.

In a browser, only pages that this machine serves can connect, and those of each --origin. A page that you open as a
file has the origin `null`, as pages of any site can have: serve it to yourself, for example by maproom-demo --page 8100.";
