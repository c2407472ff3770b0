//! Mirrors.
ghost use Rattle.std.specs.Prelude.{◌≡◌, ◌+◌, IfOk, IfErr, OnOk, None, nat_eq};
ghost use Rattle.osm_elements.specs.Rows.{AreInOrder};
ghost use Rattle.room_mirror.specs.Mirrors.{due_after};

use crate::fault::MirrorFault;
use crate::fitting::fits;
use crate::replacing::replace;
use osm_elements::Memory;
use osm_elements::map::{OsmMap, Rows};
use room_interface::news::News;
use room_wire::welcome::Welcome;
use std::alloc::{Allocator, Global};
use std::marker::Model;

/// A map that follows a room. If it takes all news in order, its rows are those of the room after the entry with its
/// number.
#[derive(Drop)]
#[derive_where(Debug)]
pub struct Mirror<A: Allocator> {
    #[derive_where(skip)]
    alloc: A,
    seq: u64,
    map: OsmMap<A>,
}

// The model of a mirror is its number and its rows.
impl<A: Allocator> Model for Mirror<A> {
    ghost use Rattle.room_mirror.specs.Mirrors.{MirrorState};

    ghost Value = { MirrorState A };

    ghost view = { λ m. record { seq = m.seq; rows = m.map } };
}

impl<A: Allocator + Copy> Mirror<A> {
    ghost use Rattle.room_mirror.specs.Mirrors.{fault, with_news, IsRefused};

    /// Returns a mirror of the rows that a room has after the entry `seq`. The names of the rows must rise. Like a
    /// room, it works with any allocator; [`Mirror::from_welcome`] does not.
    ///
    /// # Errors
    ///
    /// `Memory`, if an allocation fails.
    pub fn from_rows(alloc: A, seq: u64, rows: Rows<A>) -> Result<Mirror<A>, Memory>
        requires { AreInOrder rows }
        ensures { IfOk result (λ m. m ≡ record { seq = seq; rows = rows }) }
    {
        let map = OsmMap::from_rows(alloc, rows)?;
        Ok(Mirror { alloc, seq, map })
    }

    /// Takes the next news. It costs the size of the news, times a logarithm, and does not depend on the size of the
    /// map otherwise.
    ///
    /// The mirror refuses rows that it already has. So it can detect news that reach the wrong mirror, or that come
    /// twice under new numbers. Its map need not be sound.
    ///
    /// # Errors
    ///
    /// The first of these that applies:
    /// - `Gap`, if the news do not have the next number
    /// - `Mismatch`, if their names do not rise, or the mirror already has one of their rows
    /// - `Memory`, if an allocation fails
    pub fn take(&mut self, news: &News<A>) -> Result<(), MirrorFault>
        ensures ok { OnOk result ((fault self.old news.now ≡ None) × (self.new ≡ with_news self.old news.now)) }
        ensures err { IfErr result (λ f. IsRefused (fault self.old news.now) f × (self.new ≡ self.old)) }
    {
        if let Some(fault) = self.fault(news) {
            return Err(fault);
        }
        match replace(&mut self.map, self.alloc, &news.rows) {
            Ok(()) => {
                self.seq = news.seq;
                Ok(())
            }
            Err(_) => Err(MirrorFault::Memory),
        }
    }

    // Returns the fault of news, if any, except `Memory`.
    fn fault(&self, news: &News<A>) -> Option<MirrorFault>
        ensures { result ≡ fault self.now news.now }
    {
        if !is_next(self.seq, news.seq) {
            return Some(MirrorFault::Gap {
                want: due_after(self.seq),
                got: news.seq,
            });
        }
        if !fits(&self.map, news.rows.as_slice()) {
            return Some(MirrorFault::Mismatch);
        }
        None
    }

    /// Returns the number of the last news that it took, or the number that it began with.
    pub fn seq(&self) -> u64
        ensures { result ≡ self.now.seq }
    {
        self.seq
    }

    /// Returns the map.
    pub fn map(&self) -> &OsmMap<A>
        ensures { result.now ≡ self.now.rows }
    {
        &self.map
    }
}

impl Mirror<Global> {
    /// Returns a mirror with the rows and the number of a welcome. The names of the rows must rise, as they do in every
    /// welcome that was read.
    ///
    /// # Errors
    ///
    /// `Memory`, if an allocation fails.
    pub fn from_welcome(alloc: Global, welcome: Welcome) -> Result<Mirror<Global>, Memory>
        requires { AreInOrder welcome.rows }
        ensures { IfOk result (λ m. m ≡ record { seq = welcome.seq; rows = welcome.rows }) }
    {
        let Welcome { seq, rows, .. } = welcome;
        Mirror::from_rows(alloc, seq, rows)
    }
}

fn is_next(seq: u64, got: u64) -> bool
    ensures { result ≡ nat_eq got (seq + 1) }
{
    match seq.checked_add(1) {
        Some(next) => got == next,
        None => false,
    }
}

// Returns the next number, or the greatest `u64` if there is no greater number.
#[tactic(auto, unfolding(crate::specs::Mirrors::due_after))]
fn due_after(seq: u64) -> u64
    ensures { result ≡ due_after seq }
{
    seq.saturating_add(1)
}
