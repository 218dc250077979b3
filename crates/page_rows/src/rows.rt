ghost use Rattle.std.specs.Prelude.{◌≡◌, ◌*◌, ◌/◌, ◌%◌, ◌+◌, ◌<◌, ◌≤◌, ◌^◌, Some, None, IfOk, length, replicate, slice_index_or, slice_set, vec_capacity, vec_len};
ghost use Rattle.page_rows.specs.Rows.{HasOpenRuns, IsOpen, all_in, item_in};

use std::alloc::{AllocError, Global};
use std::marker::Model;

/// How many places lie side by side.
const RUN: usize = 64;

/// A list of places, each with an item or without. The memory of 64 places side by side is touched when
/// one of them gets its first item.
#[derive(Debug, Drop)]
pub struct PageRows<T> {
    /// With which of the items each 64 places begin, if one of them got an item.
    firsts: Vec<Option<usize>>,
    items: Vec<Option<T>>,
}

impl<T> Model for PageRows<T> {
    ghost use Rattle.std.specs.Prelude.{List, Option, vec_capacity};
    ghost use Rattle.page_rows.specs.Rows.{HasOpenRuns, all_in};

    ghost Value = { List (Option T) };

    ghost view = { λ r. all_in r.firsts.items r.items.items };

    ghost invariant = { λ r. HasOpenRuns r.firsts.items r.items.items (vec_capacity r.items) };
}

impl<T: Copy> PageRows<T> {
    /// So many times 64 places (less than 2^63 together), each without an item. No other call allocates.
    ///
    /// # Errors
    /// `AllocError` if out of memory.
    pub fn new(alloc: Global, runs: usize) -> Result<PageRows<T>, AllocError>
        requires { runs * 64 < 2 ^ 63 }
        ensures { IfOk result (λ r. r ≡ replicate (runs * 64) None) }
    {
        Ok(PageRows {
            firsts: vec![in alloc; None; runs]?,
            items: Vec::with_capacity(alloc, runs * RUN)?,
        })
    }

    /// The item of a place; none if it has none, or if there is no such place.
    pub fn get(&self, place: usize) -> Option<T>
        ensures { result ≡ slice_index_or self.now place None }
    {
        item_in(&self.firsts, &self.items, place)
    }

    /// Gives a place an item, or none.
    pub fn set(&mut self, place: usize, item: Option<T>)
        requires { place < length self.old }
        ensures { self.new ≡ slice_set self.old place item }
    {
        let run = place / RUN;
        if self.firsts[run].is_none() {
            if item.is_none() {
                return;
            }
            open(&mut self.firsts, &mut self.items, run);
        }
        put(&self.firsts, &mut self.items, place, item);
    }
}

/// The item of a place.
fn item_in<T: Copy>(firsts: &[Option<usize>], items: &Vec<Option<T>>, place: usize) -> Option<T>
    requires { HasOpenRuns firsts.now items.now.items (vec_capacity items.now) }
    ensures { result ≡ item_in firsts.now items.now.items place }
{
    match firsts.get(place / RUN) {
        Some(Some(first)) => items.get(*first + place % RUN).copied().flatten(),
        _ => None,
    }
}

/// Lays 64 places out that no item was given to.
fn open<T: Copy>(firsts: &mut Vec<Option<usize>>, items: &mut Vec<Option<T>>, run: usize)
    requires laid { HasOpenRuns firsts.old.items items.old.items (vec_capacity items.old) }
    requires within { run < length firsts.old.items }
    requires shut { slice_index_or firsts.old.items run None ≡ None }
    ensures laid { HasOpenRuns firsts.new.items items.new.items (vec_capacity items.new) }
    ensures same { all_in firsts.new.items items.new.items ≡ all_in firsts.old.items items.old.items }
    ensures open { IsOpen firsts.new.items run }
{
    let first = items.len();
    for _ in 0..RUN {
        items.push_reserved(None);
    }
    firsts[run] = Some(first);
}

/// Gives a place an item, or none, whose 64 places are laid out.
fn put<T: Copy>(firsts: &[Option<usize>], items: &mut Vec<Option<T>>, place: usize, item: Option<T>)
    requires laid { HasOpenRuns firsts.now items.old.items (vec_capacity items.old) }
    requires open { IsOpen firsts.now (place / 64) }
    ensures laid { HasOpenRuns firsts.now items.new.items (vec_capacity items.new) }
    ensures set { all_in firsts.now items.new.items ≡ slice_set (all_in firsts.now items.old.items) place item }
{
    if let Some(Some(first)) = firsts.get(place / RUN) {
        items[*first + place % RUN] = item;
    }
}
