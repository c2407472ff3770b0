//! What the program's arguments can ask for.

/// What the arguments ask for.
#[derive(Drop)]
pub enum Asked<'a> {
    /// To run a room from the lines of standard input.
    Replay {
        /// The most entries that the room's journal takes.
        limit: u32,
        /// Whether the first line is a welcome with the room's base map.
        base: bool,
    },
    /// To serve rooms.
    Serve(ServeOptions<'a>),
}

/// The arguments of `serve`.
#[derive(Drop)]
pub struct ServeOptions<'a> {
    /// The address to listen at, as it is written: any text. A text that is not an address, and an address at which the
    /// system does not listen, are one fault (`Listen`), because only the system's own call knows.
    pub addr: &'a str,
    /// The number of sessions that are served at the same time, from 1 to 1024.
    pub workers: u32,
    /// The number of connections that are accepted, from 1 to 1000000, or `None` if the server serves until it is
    /// stopped.
    pub sessions: Option<u32>,
    /// The most entries that the journal of each room takes.
    pub limit: u32,
    /// Whether the first line of standard input is a welcome with the rooms' base map.
    pub base: bool,
    /// The header of a handshake that names the author, or `None` if each hello is believed.
    pub name_header: Option<&'a str>,
    /// Whether a client that the header does not name may watch.
    pub watchers: bool,
    /// The origins whose pages may connect, in addition to those of this machine.
    pub origins: Vec<&'a str>,
    /// The names of the rooms, as they are written and in order.
    pub rooms: Vec<&'a str>,
}
