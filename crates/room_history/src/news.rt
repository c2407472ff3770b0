//! The news of entries, from their kept effects.
ghost use Rattle.std.specs.Prelude.{◌≡◌, IfOk, length, map, drop};
ghost use Rattle.room_history.specs.Inner.Telling.{told_row, told_of, told_from};

use crate::entry::Entry;
use crate::kept::Kept;
use osm_changes::changed_row::ChangedRow;
use osm_elements::Memory;
use osm_elements::element::copy_of;
use room_interface::news::{News, NewsList, NewsRow, NewsRows};
use std::alloc::Allocator;

/// Returns the news of all entries after the first `from`, in order, from the entries and their kept effects. It copies
/// the rows that these entries changed.
pub(crate) fn news_past<A: Allocator + Copy>(
    alloc: A,
    entries: &[Entry<A>],
    recorded: &[Kept<A>],
    from: u64,
) -> Result<NewsList<A>, Memory>
    requires { length recorded.now ≡ length entries.now }
    ensures { IfOk result (λ told. told ≡ drop from (told_from 1 entries.now recorded.now)) }
{
    let mut told = Vec::new(alloc);
    for place in from as usize..entries.len() {
        let news = news_of(alloc, place as u64 + 1, &entries[place], &recorded[place])?;
        told.push(news)?;
    }
    Ok(NewsList::from_vec(told))
}

// Returns the news of the entry with the number `seq`.
fn news_of<A: Allocator + Copy>(
    alloc: A,
    seq: u64,
    entry: &Entry<A>,
    kept: &Kept<A>,
) -> Result<News<A>, Memory>
    ensures { IfOk result (λ n. n ≡ told_of seq entry.now kept.now) }
{
    let rows = kept.told(alloc)?;
    Ok(News {
        seq,
        author: entry.author,
        rows,
    })
}

// Returns the changed names, each with a copy of its row after the changes.
pub(crate) fn told_rows<A: Allocator + Copy>(
    alloc: A,
    changed: &[ChangedRow<A>],
) -> Result<NewsRows<A>, Memory>
    ensures { IfOk result (λ rows. rows ≡ map told_row changed.now) }
{
    let mut rows = Vec::with_capacity(alloc, changed.len())?;
    for row in changed {
        let element = copy_of(row.after.as_ref())?;
        rows.push(NewsRow {
            name: row.name,
            element,
        })?;
    }
    Ok(NewsRows::from_vec(rows))
}
