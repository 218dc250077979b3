//! The blocks of the disk that aren't out.

ghost use Rattle.std.specs.Prelude.{◌≡◌, ◌<◌, ◌≤◌, ◌^◌, Some, None, IsSome, IfOk, All, map, length, is_some, slice_get, slice_set, vec_capacity, vec_len};
ghost use Rattle.std.specs.List.{range_with_len};
ghost use Rattle.vm_types.specs.declared.names.BlockId.{BlockId};
ghost use Rattle.frame_store.specs.Home.{IsHomeTable, blocks_in};
ghost use Rattle.frame_store.specs.Numbers.{listed_by, number_by};

use crate::numbers::Numbers;
use std::alloc::{AllocError, Global};
use std::marker::Model;
use vm_types::{BlockId, Config, NoMemory};

/// The blocks of a configuration that aren't out, each with its name, in any order, and for each number
/// of a block where it lies; none while it is out.
#[derive(Drop)]
pub(crate) struct Home<B: Drop> {
    numbers: Numbers,
    blocks: Vec<(BlockId, B)>,
    places: Vec<Option<u32>>,
}

impl<B: Drop> Model for Home<B> {
    ghost use Rattle.std.specs.Prelude.{vec_len, vec_capacity};
    ghost use Rattle.frame_store.specs.Home.{HomeView, IsHomeTable, blocks_in};
    ghost use Rattle.frame_store.specs.Numbers.{listed_by, number_by};

    ghost Value = { HomeView B };

    ghost view = { λ h. record {
      ids = listed_by h.numbers.sections.items h.numbers.file h.numbers.swaps.items (vec_len h.places);
      blocks = blocks_in h.blocks.items h.places.items;
    } };

    ghost invariant = { λ h. IsHomeTable h.blocks.items h.places.items
        (listed_by h.numbers.sections.items h.numbers.file h.numbers.swaps.items (vec_len h.places))
        (number_by h.numbers.sections.items h.numbers.file h.numbers.swaps.items) (vec_capacity h.blocks) };
}

impl<B: Drop> Home<B> {
    ghost use Rattle.vm_types.specs.Configuration.{IsWellFormed};
    ghost use Rattle.frame_store.specs.Blocks.{blocks_of, held_at, number_in};

    /// The blocks of a configuration, given in their order. No other call allocates.
    ///
    /// # Errors
    /// `NoMemory` if out of memory.
    pub(crate) fn new(
        alloc: Global,
        config: &Config,
        blocks: Vec<(BlockId, B)>,
    ) -> Result<Home<B>, NoMemory>
        requires formed { IsWellFormed config.now }
        requires blocks { map (λ (p : BlockId × B). p.0) blocks.items ≡ blocks_of config.now }
        ensures ids { IfOk result (λ h. h.ids ≡ blocks_of config.now) }
        ensures blocks { IfOk result (λ h. h.blocks ≡ map (λ (p : BlockId × B). Some p.1) blocks.items) }
    {
        let numbers = Numbers::new(alloc, config)?;
        let places = in_order(alloc, blocks.len() as u32)?;
        Ok(Home {
            numbers,
            blocks,
            places,
        })
    }

    /// Whether a block isn't out; `false` for every block that isn't one of them.
    pub(crate) fn has(&self, id: BlockId) -> bool
        ensures { result ≡ is_some (held_at self.now.blocks (number_in self.now.ids id)) }
    {
        let number = self.numbers.number(id);
        match self.places.get(number).copied().flatten() {
            Some(place) => self.blocks[place as usize].0 == id,
            None => false,
        }
    }

    /// Takes a block out. The last of the list takes its place.
    #[inline(always)]
    pub(crate) fn take(&mut self, id: BlockId) -> B
        requires { IsSome (held_at self.old.blocks (number_in self.old.ids id)) }
        ensures new { self.new ≡ record self.old {
          blocks = slice_set self.old.blocks (number_in self.old.ids id) None;
        } }
        ensures block { held_at self.old.blocks (number_in self.old.ids id) ≡ Some result }
    {
        let number = self.numbers.number(id);
        let place = self.places[number].unwrap();
        let last = self.blocks[self.blocks.len() - 1].0;
        let moved = self.numbers.number(last);
        self.places[moved] = Some(place);
        self.places[number] = None;
        self.blocks.swap_remove(place as usize).1
    }

    /// Puts a block back that is out.
    #[inline(always)]
    pub(crate) fn put(&mut self, id: BlockId, block: B)
        requires { slice_get self.old.blocks (number_in self.old.ids id) ≡ Some None }
        ensures { self.new ≡ record self.old {
          blocks = slice_set self.old.blocks (number_in self.old.ids id) (Some block);
        } }
    {
        let number = self.numbers.number(id);
        self.places[number] = Some(self.blocks.len() as u32);
        self.blocks.push_reserved((id, block));
    }

    /// All blocks, each with its name, in their order, once none is out.
    pub(crate) fn into_blocks(self) -> Vec<(BlockId, B)>
        requires { All IsSome self.blocks }
        ensures ids { map (λ (p : BlockId × B). p.0) result.items ≡ self.ids }
        ensures blocks { map (λ (p : BlockId × B). Some p.1) result.items ≡ self.blocks }
    {
        let Home {
            numbers,
            blocks,
            places,
        } = self;
        sorted(&numbers, blocks, places)
    }
}

/// The place of each of so many blocks that lie in their order.
fn in_order(alloc: Global, n: u32) -> Result<Vec<Option<u32>>, AllocError>
    ensures { IfOk result (λ v. v.items ≡ map Some (range_with_len 0 n)) }
{
    (0..n).map(|place| Some(place)).collect(alloc)
}

/// Blocks that are all there, put into their order.
fn sorted<B: Drop>(
    numbers: &Numbers,
    mut blocks: Vec<(BlockId, B)>,
    mut places: Vec<Option<u32>>,
) -> Vec<(BlockId, B)>
    requires home { IsHomeTable blocks.items places.items
        (listed_by numbers.now.sections.items numbers.now.file numbers.now.swaps.items (vec_len places))
        (number_by numbers.now.sections.items numbers.now.file numbers.now.swaps.items) (vec_capacity blocks) }
    requires all { All IsSome (blocks_in blocks.items places.items) }
    ensures ids { map (λ (p : BlockId × B). p.0) result.items
        ≡ listed_by numbers.now.sections.items numbers.now.file numbers.now.swaps.items (vec_len places) }
    ensures blocks { map (λ (p : BlockId × B). Some p.1) result.items ≡ blocks_in blocks.items places.items }
{
    for number in 0..blocks.len() {
        let place = places[number].unwrap() as usize;
        // Most blocks never left their place.
        if place != number {
            let other = numbers.number(blocks[number].0);
            blocks.swap(number, place);
            places.swap(number, other);
        }
    }
    blocks
}
