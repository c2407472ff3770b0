//! News: the names that an entry changed, with their rows after it.
ghost use Rattle.std.specs.Prelude.{◌≡◌, IfOk};

use crate::author::Author;
use osm_elements::Memory;
use osm_elements::element::{Element, copy_of};
use osm_elements::items::{Copied, Items};
use osm_elements::name::Name;
use std::alloc::{AllocError, Allocator};

/// A name that an entry changed, with its element after the entry, or `None` if the row was removed.
#[derive(Drop)]
#[derive_where(Debug)]
pub struct NewsRow<A: Allocator> {
    /// The changed name.
    pub name: Name,
    /// Its element after the entry.
    pub element: Option<Element<A>>,
}

impl<A: Allocator> NewsRow<A> {
    /// Returns an equal row.
    ///
    /// # Errors
    ///
    /// `Memory`, if an allocation fails.
    pub fn copy(&self) -> Result<NewsRow<A>, Memory>
    where
        A: Clone,
        ensures { IfOk result (λ r. r ≡ self.now) }
    {
        Ok(self.clone()?)
    }
}

impl<A: Allocator + Clone> Clone for NewsRow<A> {
    ghost is_clone = { λ a b. b ≡ a };

    fn clone(&self) -> Result<NewsRow<A>, AllocError> {
        let element = copy_of(self.element.as_ref())?;
        Ok(NewsRow {
            name: self.name,
            element,
        })
    }
}

impl<A: Allocator + Clone> Copied for NewsRow<A> {
    ghost copies = { λ x y same. same };
}

/// A list of rows of news.
pub type NewsRows<A> = Items<NewsRow<A>, A>;

/// The news of an entry, as clients receive them.
#[derive(Drop)]
#[derive_where(Debug)]
pub struct News<A: Allocator> {
    /// The number of the entry.
    pub seq: u64,
    /// The author of the entry.
    pub author: Author,
    /// The changed names in rising order, each with its row after the entry. After an undo, the rows have the restored
    /// halves.
    pub rows: NewsRows<A>,
}

/// A list of news, in the order of their entries.
pub type NewsList<A> = Items<News<A>, A>;
