//! Keeps a mirror of a room by the texts of a session.
//!
//! A line is `make`, a space and the text of a welcome, from which a new mirror is made. Or it is `take`, a space and
//! the text of news, which the mirror takes, or `map`. One line is printed for each: the number of the mirror's last
//! entry. For `map` it is the text of a welcome with the mirror's map, under the id 1. If a text is refused, it is the
//! reason.

mod line;
mod told;

use crate::mirrors::told::tell;
use room_mirror::mirror::Mirror;
use std::alloc::Global;
use std::io::{self, Lines, StdinLock};

/// Gives a mirror the texts of lines.
pub fn run(rt: &impl Print, alloc: Global, lines: Lines<StdinLock<'_>, Global>) -> io::Result<()> {
    let mut mirror = None;
    for line in lines {
        tell_line(rt, alloc, &mut mirror, &line?)?;
    }
    Ok(())
}

// Gives a mirror the text of a line, and prints the result.
fn tell_line(
    rt: &impl Print,
    alloc: Global,
    mirror: &mut Option<Mirror<Global>>,
    line: &str,
) -> io::Result<()> {
    match tell(alloc, mirror, line) {
        Ok(told) => println!(rt; "{told}"),
        Err(fault) => println!(rt; "{fault}"),
    }
}
