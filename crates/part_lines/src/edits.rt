//! Plans and applies edits of a map, as lines say.
//!
//! A line is an edit: a word, a name and its values, for example `create w1 n1 n2 name=Allee`. A node is written `7,-8`
//! (latitude and longitude in ten-millionths of a degree), a way `n1 n2`, and a relation `n1/stop w1/` (each member
//! with its role). Tags follow, for example `name=Allee`; in a retag, `-name` removes a tag. A move is written
//! `move 7,-8 n1 w1`, a split `split w1 1 w2`, an unglue `unglue w1 1 n2`. After the word `plan`, an edit is only
//! planned.
//!
//! If an edit is refused, the reason is printed. Otherwise the output has its changes and the names that it touches. If
//! the edit is done, the map after it follows, with the users of each name. The output is made of copies. The changes
//! are applied, taken back and applied again. If taking them back does not lead to the map before, or applying them
//! again not to the map after, the output says so. An empty line ends the output for a line.

mod applying;
mod outcome;
mod parts;
mod reading;
mod shown;
mod step;
mod unread;

use crate::edits::step::step;
use osm_changes::store::Store;
use std::alloc::Global;
use std::io::{self, Lines, StdinLock};

/// Does the edits of lines on a map, which is empty at first.
pub fn run(rt: &impl Print, alloc: Global, lines: Lines<StdinLock<'_>, Global>) -> io::Result<()> {
    let mut store = Store::new(alloc);
    for line in lines {
        do_line(rt, alloc, &mut store, &line?)?;
    }
    Ok(())
}

// Does the edit of a line, and prints its outcome.
fn do_line(
    rt: &impl Print,
    alloc: Global,
    store: &mut Store<Global>,
    line: &str,
) -> io::Result<()> {
    match step(alloc, store, line) {
        Ok(outcome) => println!(rt; "{outcome}\n"),
        Err(unread) => println!(rt; "{unread}\n"),
    }
}
