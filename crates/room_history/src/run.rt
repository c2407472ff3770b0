//! Runs of calls.
ghost use Rattle.std.specs.Prelude.{◌≡◌, [], IfOk, IfErr, true};
ghost use Rattle.room_stacks.specs.Prelude.{AreInOrder, are_of_kinds};
ghost use Rattle.room_history.specs.Bases.{IsBaseFault};
ghost use Rattle.room_history.specs.Runs.{Answers, IsRun};

use crate::base::BaseFault;
use crate::room::Room;
use osm_elements::Memory;
use osm_elements::map::Rows;
use room_interface::call::{Call, Calls};
use room_interface::reply::{Replies, Reply};
use std::alloc::Allocator;

/// Opens a room with the empty map, whose journal takes at most `limit` entries, and takes the calls in order. Returns
/// the room after the last call, and one reply for each call. Each reply is the specified reply, or `Memory`, in which
/// case the call did not change the room.
///
/// # Errors
///
/// `Memory`, if an allocation for the list of replies fails.
pub fn run<A: Allocator + Copy>(
    alloc: A,
    limit: u32,
    calls: Calls<A>,
) -> Result<(Room<A>, Replies<A>), Memory>
    ensures { IfOk result (λ run. Answers [] limit calls run.0 run.1) }
{
    answered(alloc, Room::open(alloc, limit), calls)
}

/// Does the same as [`run`] with a room that begins with the map of `rows`, under the preconditions of
/// [`Room::open_on`].
///
/// # Errors
///
/// Those of [`Room::open_on`], and `Memory`, if an allocation for the list of replies fails.
pub fn run_on<A: Allocator + Copy>(
    alloc: A,
    rows: Rows<A>,
    limit: u32,
    calls: Calls<A>,
) -> Result<(Room<A>, Replies<A>), BaseFault<A>>
    requires order { AreInOrder rows }
    requires kinds { are_of_kinds rows ≡ true }
    ensures ok { IfOk result (λ run. Answers rows limit calls run.0 run.1) }
    ensures err { IfErr result (λ fault. IsBaseFault rows fault) }
{
    let room = Room::open_on(alloc, rows, limit)?;
    Ok(answered(alloc, room, calls)?)
}

// Returns a newly opened room after the calls, and its replies.
fn answered<A: Allocator + Copy>(
    alloc: A,
    mut room: Room<A>,
    calls: Calls<A>,
) -> Result<(Room<A>, Replies<A>), Memory>
    requires { room.journal ≡ [] }
    ensures { IfOk result (λ run. Answers room.base room.limit calls run.0 run.1) }
{
    let replies = answer_all(alloc, &mut room, calls.into_vec())?;
    Ok((room, Replies::from_vec(replies)))
}

// Returns the room's replies to the calls, in order.
fn answer_all<A: Allocator + Copy>(
    alloc: A,
    room: &mut Room<A>,
    calls: Vec<Call<A>, A>,
) -> Result<Vec<Reply<A>, A>, Memory>
    ensures run { IfOk result
        (λ replies. IsRun room.old.base room.old.limit room.old.journal calls.items replies.items room.new.journal) }
    ensures limit { room.new.limit ≡ room.old.limit }
    ensures base { room.new.base ≡ room.old.base }
{
    room.holds();
    let mut replies = Vec::with_capacity(alloc, calls.len())?;
    for call in calls {
        replies.push(room.take(call))?;
    }
    Ok(replies)
}
