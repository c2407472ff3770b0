//! Desks with several seats, on one thread and on several.
ghost use Rattle.std.specs.Prelude.{◌≡◌, ◌+◌, ◌*◌, ◌^◌, ◌<◌, ◌≤◌, ◌++◌, ◌∷◌, [], replicate};
ghost use Rattle.turn_desk.specs.Desk.{IsAt};

use std::alloc::Global;
use std::sync::Wait;
use std::test::Fail;
use std::thread::{self, Threads, join};
use turn_desk::{Desk, Seat, Turned};

// A count of calls. A call has the number of times that it yields while it holds the turn. Its reply is the count
// before it.
#[derive(Drop)]
struct Tally {
    count: u64,
}

impl Turned for Tally {
    type Call = u32;

    type Reply = Option<u64>;

    type Entry = ();

    type Fixed = ();

    ghost use Rattle.std.specs.Prelude.{Some, None, MatchOption, length};

    ghost fixed = { λ s. tt };

    ghost list = { λ s. replicate s.count tt };

    ghost answers = { λ _ before call reply after. MatchOption reply (after ≡ before) (λ n. (after ≡ before ++ tt ∷ [])
        × (n ≡ length before)) };

    fn turn(&mut self, yields: u32) -> Option<u64> {
        for _ in 0..yields {
            thread::yield_now();
        }
        let count = self.count;
        self.count = count.checked_add(1)?;
        Some(count)
    }

    fn front(&self) -> u64 {
        self.count
    }
}

#[test]
fn others_calls_are_seen(rt: HostRuntime) -> Result<(), Fail> {
    let (desk, first) = Desk::open(rt.alloc(), Tally { count: 0 })?;
    let (first, mut second) = desk.split(first);
    let (mut first, mut third) = desk.split(first);
    assert_eq!(rt; desk.turn(&rt, &mut first, 0), Some(0));
    assert_eq!(rt; desk.front(&mut second), 1);
    assert_eq!(rt; desk.turn(&rt, &mut third, 0), Some(1));
    assert_eq!(rt; desk.turn(&rt, &mut second, 0), Some(2));
    desk.meet(&mut second, third);
    desk.meet(&mut first, second);
    assert_eq!(rt; desk.front(&mut first), 3);
    assert_eq!(rt; desk.close(&rt, first).count, 3);
    Ok(())
}

// Splits `others` seats off a seat. When all are split off, each makes a call and is met into the first seat again.
fn split_and_met<W: Wait>(
    rt: &W,
    desk: &Desk<Tally, Global>,
    seat: Seat<Tally>,
    others: u32,
) -> Seat<Tally>
    requires seat { IsAt desk.now seat }
    requires most { seat.parts < 2 ^ 64 }
    requires least { others * 2 ^ 58 ≤ seat.parts + 1 }
    ensures { IsAt desk.now result }
{
    if others == 0 {
        return seat;
    }
    let (kept, mut other) = desk.split(seat);
    let mut kept = split_and_met(rt, desk, kept, others - 1);
    desk.turn(rt, &mut other, 0);
    desk.meet(&mut kept, other);
    kept
}

#[test]
fn a_seat_is_split_into_sixty_five(rt: HostRuntime) -> Result<(), Fail> {
    let (desk, seat) = Desk::open(rt.alloc(), Tally { count: 0 })?;
    let seat = split_and_met(&rt, &desk, seat, 64);
    assert_eq!(rt; desk.close(&rt, seat).front(), 64);
    Ok(())
}

// Makes `count` calls. The first holds its turn for `yields` yields, and each further call for one yield less; after a
// call with one yield, the next has `yields` again.
fn calls<W: Wait>(
    rt: &W,
    desk: &Desk<Tally, Global>,
    mut seat: Seat<Tally>,
    count: u32,
    yields: u32,
) -> Seat<Tally>
    requires { IsAt desk.now seat }
    ensures { IsAt desk.now result }
{
    for k in 0..count {
        let yields = if yields == 0 { 0 } else { yields - k % yields };
        desk.turn(rt, &mut seat, yields);
    }
    seat
}

// Makes the calls of `others` + 1 threads, each at a seat of its own.
fn in_threads<R: Threads + Wait + Sync>(
    rt: &R,
    desk: &Desk<Tally, Global>,
    seat: Seat<Tally>,
    others: u32,
    count: u32,
    yields: u32,
) -> Seat<Tally>
    requires seat { IsAt desk.now seat }
    requires most { seat.parts < 2 ^ 64 }
    requires least { others * 2 ^ 58 ≤ seat.parts + 1 }
    ensures { IsAt desk.now result }
{
    if others == 0 {
        return calls(rt, desk, seat, count, yields);
    }
    let fewer = others - 1;
    let (seat, other) = desk.split(seat);
    let (other, mut seat) = join(
        rt,
        || -> Seat<Tally>
            requires { IsAt desk.now other }
            ensures { IsAt desk.entry.now result }
        { calls(rt, desk, other, count, yields) },
        || -> Seat<Tally>
            requires seat { IsAt desk.now seat }
            requires most { seat.parts < 2 ^ 64 }
            requires least { fewer * 2 ^ 58 ≤ seat.parts + 1 }
            ensures { IsAt desk.entry.now result }
        { in_threads(rt, desk, seat, fewer, count, yields) },
    );
    desk.meet(&mut seat, other);
    seat
}

#[test]
fn two_threads_make_a_hundred_calls_each(rt: HostRuntime) -> Result<(), Fail> {
    let (desk, seat) = Desk::open(rt.alloc(), Tally { count: 0 })?;
    let seat = in_threads(&rt, &desk, seat, 1, 100, 0);
    assert_eq!(rt; desk.close(&rt, seat).front(), 200);
    Ok(())
}

#[test]
fn eight_threads_take_ten_thousand_short_turns_each(rt: HostRuntime) -> Result<(), Fail> {
    let (desk, seat) = Desk::open(rt.alloc(), Tally { count: 0 })?;
    let seat = in_threads(&rt, &desk, seat, 7, 10_000, 0);
    assert_eq!(rt; desk.close(&rt, seat).front(), 80_000);
    Ok(())
}

// A turn is held for far longer than a waiting thread yields, so the waiting threads sleep.
#[test]
fn those_who_sleep_are_woken(rt: HostRuntime) -> Result<(), Fail> {
    let (desk, seat) = Desk::open(rt.alloc(), Tally { count: 0 })?;
    let seat = in_threads(&rt, &desk, seat, 3, 50, 2_000);
    assert_eq!(rt; desk.close(&rt, seat).front(), 200);
    Ok(())
}

// A turn is held for about as long as a waiting thread yields, so some threads go to sleep just when the turn is passed
// on.
#[test]
fn no_wake_up_is_lost(rt: HostRuntime) -> Result<(), Fail> {
    let (desk, seat) = Desk::open(rt.alloc(), Tally { count: 0 })?;
    let seat = in_threads(&rt, &desk, seat, 1, 5_000, 130);
    assert_eq!(rt; desk.close(&rt, seat).front(), 10_000);
    Ok(())
}
