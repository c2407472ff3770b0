//! The difference of two rising lists.
ghost use Rattle.std.specs.Prelude.{◌≡◌, IfOk};
ghost use Rattle.rising_lists.specs.Rising.{IsRising, but_all};

use std::alloc::{AllocError, Allocator};
use std::cmp::Ordering;

/// Returns the values of a rising list that a second rising list does not contain, in their order. It walks over both
/// lists once.
///
/// # Errors
///
/// `AllocError`, if an allocation fails.
pub fn but_all<V: Ord + Copy, A: Allocator>(
    alloc: A,
    values: &[V],
    others: &[V],
) -> Result<Vec<V, A>, AllocError>
    requires values { IsRising V.cmp values.now }
    requires others { IsRising V.cmp others.now }
    ensures { IfOk result (λ kept. kept.items ≡ but_all V.cmp values.now others.now) }
{
    let mut kept = Vec::new(alloc);
    let mut at = 0;
    let mut place = 0;
    while at < values.len() && place < others.len() {
        let value = values[at];
        match value.cmp(&others[place]) {
            Ordering::Less => {
                kept.push(value)?;
                at += 1;
            }
            Ordering::Equal => {
                at += 1;
                place += 1;
            }
            Ordering::Greater => place += 1,
        }
    }
    kept.extend_from_slice(&values[at..])?;
    Ok(kept)
}
