//! Whom a server lets in.
ghost use Rattle.std.specs.Prelude.{◌≡◌, All, bytes_eq, length, map, option_map, string_bytes};
ghost use Rattle.std.specs.Char.{is_ascii_digit};
ghost use Rattle.std.specs.List.{list_all, list_any};
ghost use Rattle.httparse.specs.Spans.{IsHeaderWithin};
ghost use Rattle.websocket.specs.Headers.{eq_ignore_case, fields_of};
ghost use Rattle.room_session.specs.Prelude.{author_of};
ghost use Rattle.room_socket.specs.Admitting.{caller_of, is_at, is_local, is_loopback, is_port, lets_in, may_come, named, rule_of, sole, unnamed, values_of};

use httparse::spans::HeaderSpan;
use room_interface::author::Author;
use room_session::caller::Caller;
use std::str;

/// Whom a server lets in, by the head of a handshake.
#[derive(Debug, Drop)]
pub struct Admission {
    /// The name of the header that names the author. Without it, the server believes each hello.
    ///
    /// A proxy in front of the server sets the header and lets no client set it.
    pub name_header: Option<String>,
    /// Whether somebody whom the header does not name may watch.
    pub watchers: bool,
    /// The origins of the pages that may connect, in addition to the pages of this machine. An origin is a scheme, a
    /// host and a port, such as `https://maps.example.org` (RFC 6454, section 6.2).
    pub origins: Vec<String>,
}

impl Admission {
    /// Returns whether each origin of a handshake is let in. Programs other than browsers send none.
    pub(crate) fn lets_in(&self, head: &[u8], spans: &[HeaderSpan]) -> bool
        requires { All (IsHeaderWithin (length head.now)) spans.now }
        ensures { result ≡ lets_in (rule_of self.now) (fields_of head.now spans.now) }
    {
        for field in spans {
            if is_same_name(field.name.of(head), b"Origin")
                && !self.may_come(field.value.of(head))
            {
                return false;
            }
        }
        true
    }

    /// Returns the caller of a handshake.
    pub(crate) fn caller(&self, head: &[u8], spans: &[HeaderSpan]) -> Caller
        requires { All (IsHeaderWithin (length head.now)) spans.now }
        ensures { result ≡ caller_of (rule_of self.now) (fields_of head.now spans.now) }
    {
        match &self.name_header {
            None => Caller::Anyone,
            Some(name) => self.named(head, spans, name),
        }
    }

    // Returns the caller of whom the header with this name has a value.
    fn named(&self, head: &[u8], spans: &[HeaderSpan], name: &str) -> Caller
        requires { All (IsHeaderWithin (length head.now)) spans.now }
        ensures { result
            ≡ named (rule_of self.now).watchers (sole (values_of (fields_of head.now spans.now) name.now)) }
    {
        match sole_value(head, spans, name.as_bytes()) {
            Some(value) => match author_in(value) {
                Some(author) => Caller::Only(author),
                None => unnamed(self.watchers),
            },
            None => unnamed(self.watchers),
        }
    }

    // Returns whether pages of this origin may connect.
    fn may_come(&self, origin: &[u8]) -> bool
        ensures { result ≡ may_come (rule_of self.now) origin.now }
    {
        is_local(origin) || is_given(&self.origins, origin)
    }
}

// Returns whether two names of fields are equal, whose case does not matter.
fn is_same_name(one: &[u8], other: &[u8]) -> bool
    ensures { result ≡ eq_ignore_case one.now other.now }
{
    one.eq_ignore_ascii_case(other)
}

// Returns the value of the only field with this name, or `None` if there is no such field, or several.
fn sole_value<'b>(head: &'b [u8], spans: &[HeaderSpan], name: &[u8]) -> Option<&'b [u8]>
    requires { All (IsHeaderWithin (length head.now)) spans.now }
    ensures { option_map (λ value. value.now) result ≡ sole (values_of (fields_of head.now spans.now) name.now) }
{
    let mut found = None;
    for field in spans {
        if is_same_name(field.name.of(head), name) {
            if found.is_some() {
                return None;
            }
            found = Some(field.value.of(head));
        }
    }
    found
}

// Returns somebody whom the handshake does not name.
fn unnamed(watchers: bool) -> Caller
    ensures { result ≡ unnamed watchers }
{
    if watchers {
        Caller::Watcher
    } else {
        Caller::Nobody
    }
}

// Returns the author whom the bytes name.
fn author_in(bytes: &[u8]) -> Option<Author>
    ensures { result ≡ author_of bytes.now }
{
    match str::from_utf8(bytes) {
        Ok(text) => Author::read(text),
        Err(_) => None,
    }
}

// Returns whether an origin is one of those that were given.
fn is_given(origins: &[String], origin: &[u8]) -> bool
    ensures { result ≡ list_any (λ given. bytes_eq given origin.now) (map string_bytes origins.now) }
{
    is_among(origins, origin)
}

// The same, of the strings.
fn is_among(origins: &[String], origin: &[u8]) -> bool
    ensures { result ≡ list_any (λ given. bytes_eq (string_bytes given) origin.now) origins.now }
{
    origins.iter().any(|given| given.as_bytes() == origin)
}

// Returns whether an origin is that of a page that this machine serves, on any port.
fn is_local(origin: &[u8]) -> bool
    ensures { result ≡ is_local origin.now }
{
    is_at(origin, b"http://localhost") || is_at(origin, b"https://localhost") || is_loopback(origin)
}

// Returns whether an origin is a loopback address, on any port.
fn is_loopback(origin: &[u8]) -> bool
    ensures { result ≡ is_loopback origin.now }
{
    is_at(origin, b"http://127.0.0.1")
        || is_at(origin, b"https://127.0.0.1")
        || is_at(origin, b"http://[::1]")
        || is_at(origin, b"https://[::1]")
}

// Returns whether an origin is this place, on any port.
fn is_at(origin: &[u8], place: &[u8]) -> bool
    ensures { result ≡ is_at origin.now place.now }
{
    match origin.strip_prefix(place) {
        Some(rest) => is_port(rest),
        None => false,
    }
}

// Returns whether the bytes are a colon and the number of a port, or nothing, which is the port of the scheme.
fn is_port(rest: &[u8]) -> bool
    ensures { result ≡ is_port rest.now }
{
    match rest.split_first() {
        Some((first, digits)) => *first == b':' && are_digits(digits),
        None => true,
    }
}

// Returns whether all of the bytes are digits.
fn are_digits(bytes: &[u8]) -> bool
    ensures { result ≡ list_all is_ascii_digit bytes.now }
{
    bytes.iter().all(|byte| byte.is_ascii_digit())
}
