ghost use Rattle.std.specs.Prelude.{◌≡◌, ℕ, ◌<◌, ◌≤◌, ◌++◌, ◌∷◌, [], length, MatchOption};

use std::alloc::Global;
use std::test::Fail;
use turn_desk::{Desk, Turned};

// A list of at most `limit` numbers.
#[derive(Drop)]
struct Numbers {
    limit: usize,
    items: Vec<u64>,
}

// A call with a number adds it to the list. The reply is the count of numbers before it, or `None` if the number was
// refused. A call without a number gets the count of numbers.
impl Turned for Numbers {
    type Call = Option<u64>;

    type Reply = Option<u64>;

    type Entry = u64;

    type Fixed = usize;

    ghost use Rattle.std.specs.Prelude.{Some};

    ghost fixed = { λ s. s.limit };

    ghost list = { λ s. s.items.items };

    ghost answers = { λ limit before call reply after. MatchOption call ((after ≡ before)
        × (reply ≡ Some (length before))) (λ x. MatchOption reply (after ≡ before) (λ n. (after ≡ before ++ x ∷ [])
        × (n ≡ length before) × (length before < limit))) };

    fn turn(&mut self, call: Option<u64>) -> Option<u64> {
        let count = self.items.len() as u64;
        let Some(number) = call else {
            return Some(count);
        };
        if self.items.len() >= self.limit || self.items.push(number).is_err() {
            return None;
        }
        Some(count)
    }

    fn front(&self) -> u64 {
        self.items.len() as u64
    }
}

#[test]
fn a_dozen_calls(rt: HostRuntime) -> Result<(), Fail> {
    let room = Numbers {
        limit: 9,
        items: Vec::new(rt.alloc()),
    };
    let (desk, mut seat) = Desk::open(rt.alloc(), room)?;
    assert_eq!(rt; desk.front(&mut seat), 0);
    for k in 0..9 {
        assert_eq!(rt; desk.turn(&rt, &mut seat, Some(k * k)), Some(k));
    }
    assert_eq!(rt; desk.turn(&rt, &mut seat, Some(100)), None);
    assert_eq!(rt; desk.turn(&rt, &mut seat, None), Some(9));
    assert_eq!(rt; desk.turn(&rt, &mut seat, None), Some(9));
    assert_eq!(rt; desk.front(&mut seat), 9);
    let room = desk.close(&rt, seat);
    assert_eq!(rt;
        room.items.as_slice(),
        [0, 1, 4, 9, 16, 25, 36, 49, 64].as_slice()
    );
    Ok(())
}
