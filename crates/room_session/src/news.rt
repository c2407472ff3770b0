//! News for a client.
ghost use Rattle.std.specs.Prelude.{◌≡◌, ◌≤◌, ◌++◌, [], IfOk, OnErr, OnOk, length};
ghost use Rattle.room_session.specs.Events.{only, AsksForNews, CatchesUp};
ghost use Rattle.room_session.specs.Inner.LastTold.{last_told};
ghost use Rattle.room_session.specs.Inner.Telling.{Tells};
ghost use Rattle.room_session.specs.NewsTexts.{news_texts};
ghost use Rattle.room_session.specs.Rooms.{KeepsKnown, HasRoom};
ghost use Rattle.room_session.specs.Running.{IsRunOn};

use crate::caller::Speaker;
use crate::next::Next;
use crate::rooms::Rooms;
use crate::sent::Texts;
use crate::session::State;
use osm_elements::Memory;
use room_interface::ask::{RoomCall, RoomReply};
use room_interface::news::News;
use room_wire::news_text;
use std::alloc::Global;
use std::sync::Wait;

// Sends the news to the client of an open session.
pub(crate) fn news_alone<R: Rooms, W: Wait>(
    alloc: Global,
    rt: &W,
    rooms: &mut R,
    room: usize,
    speaker: &Speaker,
    told: u64,
) -> Result<Next, Memory>
    requires room { HasRoom (R.known rooms.old) room }
    requires told { told ≤ length ((R.known rooms.old).at room).seen }
    ensures ok { IfOk result
        (λ next. CatchesUp (R.known rooms.old) (only next.texts) next.state (R.known rooms.new) room speaker.now told []) }
    ensures err { OnErr result (AsksForNews (R.known rooms.old) room told (R.known rooms.new)) }
    ensures keeps { KeepsKnown (R.known rooms.old) (R.known rooms.new) }
    ensures kept { R.kept rooms.new ≡ R.kept rooms.old }
    ensures runs { IfOk result (λ next. IsRunOn next.state (R.known rooms.new)) }
{
    catch_up(alloc, rt, rooms, room, speaker, told, Texts::empty(alloc))
}

// Sends the texts, and then the news of all entries of the room after `told`. The session's `told` changes only when
// all texts of the event are made.
pub(crate) fn catch_up<R: Rooms, W: Wait>(
    alloc: Global,
    rt: &W,
    rooms: &mut R,
    room: usize,
    speaker: &Speaker,
    told: u64,
    mut texts: Texts,
) -> Result<Next, Memory>
    requires room { HasRoom (R.known rooms.old) room }
    requires told { told ≤ length ((R.known rooms.old).at room).seen }
    ensures ok { IfOk result
        (λ next. CatchesUp (R.known rooms.old) (only next.texts) next.state
        (R.known rooms.new) room speaker.now told texts) }
    ensures err { OnErr result (AsksForNews (R.known rooms.old) room told (R.known rooms.new)) }
    ensures keeps { KeepsKnown (R.known rooms.old) (R.known rooms.new) }
    ensures kept { R.kept rooms.new ≡ R.kept rooms.old }
    ensures runs { IfOk result (λ next. IsRunOn next.state (R.known rooms.new)) }
{
    let told = tell(alloc, rt, rooms, room, told, &mut texts)?;
    let state = State::Open {
        room,
        speaker: *speaker,
        told,
    };
    Ok(Next { texts, state })
}

// Appends the news of all entries of the room after `told` to the texts, and returns the number of the last entry.
fn tell<R: Rooms, W: Wait>(
    alloc: Global,
    rt: &W,
    rooms: &mut R,
    room: usize,
    told: u64,
    texts: &mut Texts,
) -> Result<u64, Memory>
    requires room { HasRoom (R.known rooms.old) room }
    requires told { told ≤ length ((R.known rooms.old).at room).seen }
    ensures ok { IfOk result
        (λ front. Tells (R.known rooms.old) room told texts.old texts.new front (R.known rooms.new)) }
    ensures err { OnErr result (AsksForNews (R.known rooms.old) room told (R.known rooms.new)) }
    ensures keeps { KeepsKnown (R.known rooms.old) (R.known rooms.new) }
    ensures kept { R.kept rooms.new ≡ R.kept rooms.old }
{
    if rooms.front(room) <= told {
        return Ok(told);
    }
    match rooms.turn(rt, room, RoomCall::News(told)) {
        RoomReply::News(Ok(news)) => {
            add(alloc, texts, news.as_slice())?;
            Ok(last_number(news.as_slice(), told))
        }
        _ => Err(Memory),
    }
}

// Appends the text of each news.
fn add(alloc: Global, texts: &mut Texts, news: &[News<Global>]) -> Result<(), Memory>
    ensures { OnOk result (texts.new ≡ texts.old ++ news_texts news.now) }
{
    for one in news {
        texts.push(news_text(alloc, one)?)?;
    }
    Ok(())
}

// Returns the number of the last news, or `before` if there are no news.
fn last_number(news: &[News<Global>], before: u64) -> u64
    ensures { result ≡ last_told before news.now }
{
    match news.last() {
        Some(last) => last.seq,
        None => before,
    }
}
