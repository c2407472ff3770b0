//! A search among the numbers of active entries.
ghost use Rattle.std.specs.Prelude.{◌≡◌, nat_eq};
ghost use Rattle.room_stacks.specs.Prelude.{list_any, IsNonDecreasing};

/// Whether a number is among rising numbers, in time logarithmic in their count.
pub fn contains(standing: &[u64], seq: u64) -> bool
    requires { IsNonDecreasing standing.now }
    ensures { result ≡ list_any (λ s. nat_eq s seq) standing.now }
{
    standing.binary_search(&seq).is_ok()
}
