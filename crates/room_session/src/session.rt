//! Sessions.
ghost use Rattle.std.specs.Prelude.{◌≡◌, ◌≢◌, [], IfOk, OnOk, OnErr, MatchResult, Result};
ghost use Rattle.room_wire.specs.Prelude.{GivesMessage, spells};
ghost use Rattle.room_session.specs.Events.{only, closing, HearsText, Makes, WaitsOn};
ghost use Rattle.room_session.specs.declared.session.State.TheVariants.{BeforeHello, Closed};
ghost use Rattle.room_session.specs.Rooms.{KeepsKnown, MakesNone};
ghost use Rattle.room_session.specs.Running.{IsRunOn};
ghost use Rattle.room_wire.specs.declared.bad.Bad.{Bad};
ghost use Rattle.room_wire.specs.declared.incoming.Incoming.{Incoming};

use crate::caller::{Caller, Speaker};
use crate::hello::greet;
use crate::news::news_alone;
use crate::next::Next;
use crate::replies::reply_and_news;
use crate::rooms::Rooms;
use crate::sent::{Sent, Texts};
use osm_elements::Memory;
use room_wire::Scratch;
use std::alloc::Global;
use std::fmt;
use std::marker::Model;
use std::sync::Wait;
use thiserror::Error;

// RFC 6455, section 7.4.1: 1003 for data of a type that is not accepted, and 1011 for an unexpected condition that
// prevents the server from fulfilling the request.
const UNSUPPORTED_DATA: u16 = 1003;

const INTERNAL_ERROR: u16 = 1011;

/// The refusal of a closed session: nothing more goes out.
#[derive(Clone, Copy, Debug, PartialEq, Eq, Error)]
#[error("the session is closed")]
pub struct Ended;

/// The state of a session.
#[derive(Clone, Copy, Debug)]
pub enum State {
    /// The client has not received a welcome yet, and is this caller.
    BeforeHello(Caller),
    /// The session has begun.
    Open {
        /// The position of the session's room.
        room: usize,
        /// Who speaks in the session.
        speaker: Speaker,
        /// The number of the last entry that counts as sent to the client.
        told: u64,
    },
    /// Nothing more goes out.
    Closed,
}

/// A session with one client.
#[derive(Drop)]
pub struct Session {
    state: State,
    // Reusable memory for reading the client's texts.
    scratch: Scratch,
}

impl fmt::Debug for Session {
    fn fmt<W: fmt::Write>(&self, f: &mut fmt::Formatter<W>) -> fmt::Result {
        write!(f, "Session({:?})", self.state)
    }
}

// Contracts model a session as its state.
impl Model for Session {
    ghost use Rattle.room_session.specs.declared.session.State.{State};

    ghost Value = { State };

    ghost view = { λ s. s.state };
}

impl Session {
    /// Returns a session with this caller, who has sent nothing yet.
    pub fn new(alloc: Global, caller: Caller) -> Session
        ensures { result ≡ BeforeHello caller }
    {
        Session {
            state: State::BeforeHello(caller),
            scratch: Scratch::new(alloc),
        }
    }

    /// Takes a text from the client and returns what goes out for it.
    ///
    /// Until a hello gets a welcome, the reply to every message that is not a hello is `no_hello`. In an open session,
    /// the reply goes out first. After it go the news of all entries after the last one sent, each once and in order.
    ///
    /// If an allocation for a text that goes out or for the news fails, no text goes out and the session is closed. An
    /// accepted change then stays in the journal.
    ///
    /// # Errors
    ///
    /// `Ended`, if the session is closed.
    pub fn on_text<R: Rooms, W: Wait>(
        &mut self,
        alloc: Global,
        rt: &W,
        rooms: &mut R,
        text: &str,
    ) -> Result<Sent, Ended>
        requires { IsRunOn self.old (R.known rooms.old) }
        ensures ok { IfOk result
            (λ sent. HearsText (R.known rooms.old) sent self.new (R.known rooms.new) self.old text.now) }
        ensures err { OnErr result ((self.old ≡ Closed) × (self.new ≡ Closed)
            × (R.known rooms.new ≡ R.known rooms.old)) }
        // The call makes at most one entry, that of the change that the text asks for.
        ensures makes { (said : Result Incoming Bad) × GivesMessage said (spells text.now)
            × Makes (R.known rooms.old) self.old said (R.known rooms.new) }
        ensures keeps { KeepsKnown (R.known rooms.old) (R.known rooms.new) }
        ensures runs { IsRunOn self.new (R.known rooms.new) }
        ensures kept { R.kept rooms.new ≡ R.kept rooms.old }
    {
        let next = match &self.state {
            State::BeforeHello(caller) => {
                greet(alloc, rt, rooms, caller, text, &mut self.scratch)
            }
            State::Open {
                room,
                speaker,
                told,
            } => reply_and_news(
                alloc,
                rt,
                rooms,
                *room,
                speaker,
                *told,
                text,
                &mut self.scratch,
            ),
            State::Closed => return Err(Ended),
        };
        Ok(self.go(alloc, next))
    }

    /// Returns what goes out if nothing came from the client for a while: in an open session, the news.
    ///
    /// # Errors
    ///
    /// `Ended`, if the session is closed.
    pub fn on_quiet<R: Rooms, W: Wait>(
        &mut self,
        alloc: Global,
        rt: &W,
        rooms: &mut R,
    ) -> Result<Sent, Ended>
        requires { IsRunOn self.old (R.known rooms.old) }
        ensures ok { IfOk result (λ sent. WaitsOn (R.known rooms.old) sent self.new (R.known rooms.new) self.old) }
        ensures err { OnErr result ((self.old ≡ Closed) × (self.new ≡ Closed)
            × (R.known rooms.new ≡ R.known rooms.old)) }
        ensures makes { MakesNone (R.known rooms.old) (R.known rooms.new) }
        ensures keeps { KeepsKnown (R.known rooms.old) (R.known rooms.new) }
        ensures runs { IsRunOn self.new (R.known rooms.new) }
        ensures kept { R.kept rooms.new ≡ R.kept rooms.old }
    {
        let next = match &self.state {
            State::BeforeHello(caller) => Ok(nothing(alloc, caller)),
            State::Open {
                room,
                speaker,
                told,
            } => news_alone(alloc, rt, rooms, *room, speaker, *told),
            State::Closed => return Err(Ended),
        };
        Ok(self.go(alloc, next))
    }

    /// Takes a message that is not a text, and closes the session: a close with code 1003 goes out.
    ///
    /// # Errors
    ///
    /// `Ended`, if the session is closed.
    pub fn on_binary(&mut self, alloc: Global) -> Result<Sent, Ended>
        ensures ok { IfOk result (λ sent. (sent ≡ closing 1003) × (self.old ≢ Closed)) }
        ensures err { OnErr result (self.old ≡ Closed) }
        ensures closed { self.new ≡ Closed }
    {
        self.close()?;
        Ok(Sent::closing(alloc, UNSUPPORTED_DATA))
    }

    /// Closes the session, because the client closed the connection or the connection failed. Nothing goes out.
    ///
    /// # Errors
    ///
    /// `Ended`, if the session is closed.
    pub fn on_close(&mut self, alloc: Global) -> Result<Sent, Ended>
        ensures ok { IfOk result (λ sent. (sent ≡ only []) × (self.old ≢ Closed)) }
        ensures err { OnErr result (self.old ≡ Closed) }
        ensures closed { self.new ≡ Closed }
    {
        self.close()?;
        Ok(Sent::nothing(alloc))
    }

    // Closes the session, unless it is closed.
    fn close(&mut self) -> Result<(), Ended>
        ensures ok { OnOk result (self.old ≢ Closed) }
        ensures err { OnErr result (self.old ≡ Closed) }
        ensures closed { self.new ≡ Closed }
    {
        if let State::Closed = self.state {
            return Err(Ended);
        }
        self.state = State::Closed;
        Ok(())
    }

    // Moves to the state after an event, or closes the session if an allocation failed.
    fn go(&mut self, alloc: Global, next: Result<Next, Memory>) -> Sent
        ensures { MatchResult next (λ n. (result ≡ only n.texts) × (self.new ≡ n.state)) (λ _. (result ≡ closing 1011)
            × (self.new ≡ Closed)) }
    {
        match next {
            Ok(Next { texts, state }) => {
                self.state = state;
                Sent { texts, close: None }
            }
            Err(_) => {
                self.state = State::Closed;
                Sent::closing(alloc, INTERNAL_ERROR)
            }
        }
    }
}

// Sends nothing, and leaves the session before its hello.
fn nothing(alloc: Global, caller: &Caller) -> Next
    ensures { result ≡ record { texts = []; state = BeforeHello caller.now } }
{
    Next {
        texts: Texts::empty(alloc),
        state: State::BeforeHello(*caller),
    }
}
