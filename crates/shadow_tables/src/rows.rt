ghost use Rattle.std.specs.Prelude.{◌≡◌, ◌*◌, ◌^◌, ◌<◌, None, IfOk, length, replicate, slice_index_or, slice_set};

use page_rows::PageRows;
use std::alloc::Global;
use std::marker::Model;
use vm_types::NoMemory;

/// Places, each with an item or without, and how many there are. Contracts see a list.
#[derive(Debug, Drop)]
pub(crate) struct Rows<T> {
    places: usize,
    rows: PageRows<T>,
}

impl<T> Model for Rows<T> {
    ghost use Rattle.std.specs.Prelude.{◌≡◌, List, Option, length};

    ghost Value = { List (Option T) };

    ghost view = { λ r. r.rows };

    ghost invariant = { λ r. length r.rows ≡ r.places };
}

impl<T: Copy> Rows<T> {
    /// So many runs of 64 places without items.
    pub(crate) fn new(alloc: Global, runs: usize) -> Result<Rows<T>, NoMemory>
        requires { runs * 64 < 2 ^ 63 }
        ensures { IfOk result (λ r. r ≡ replicate (runs * 64) None) }
    {
        Ok(Rows {
            places: runs * 64,
            rows: PageRows::new(alloc, runs)?,
        })
    }

    /// How many places there are.
    pub(crate) fn len(&self) -> usize
        ensures { result ≡ length self.now }
    {
        self.places
    }

    /// The item of a place, if there is such a place.
    pub(crate) fn at(&self, place: usize) -> Option<T>
        ensures { result ≡ slice_index_or self.now place None }
    {
        self.rows.get(place)
    }

    /// Gives a place an item, or none.
    pub(crate) fn set(&mut self, place: usize, item: Option<T>)
        requires { place < length self.old }
        ensures { self.new ≡ slice_set self.old place item }
    {
        self.rows.set(place, item);
    }
}
