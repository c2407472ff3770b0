//! Reading the lines of sessions.

/// The client of a line.
#[derive(Clone, Copy)]
pub enum Client {
    Anna,
    Bob,
}

/// An event of a client.
#[derive(Clone, Copy)]
pub enum Event<'a> {
    /// A new connection, which replaces the earlier one.
    Connect,
    /// Nothing for a while.
    Quiet,
    /// A message that is not a text.
    Binary,
    /// The end of the connection.
    Close,
    /// A text.
    Text(&'a str),
}

/// Reads a line, or returns `None` if it names no client.
pub fn read(line: &str) -> Option<(Client, Event<'_>)> {
    let (name, event) = line.split_once(' ')?;
    Some((client_of(name)?, event_of(event)))
}

fn client_of(name: &str) -> Option<Client> {
    match name {
        "anna" => Some(Client::Anna),
        "bob" => Some(Client::Bob),
        _ => None,
    }
}

fn event_of(text: &str) -> Event<'_> {
    match text {
        "connect" => Event::Connect,
        "quiet" => Event::Quiet,
        "binary" => Event::Binary,
        "close" => Event::Close,
        _ => Event::Text(text),
    }
}
