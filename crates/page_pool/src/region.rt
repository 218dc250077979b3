//! One region of memory, the parts of which are lent and come back.
ghost use Rattle.std.specs.Prelude.{◌≡◌, ℕ, ◌^◌, ◌<◌, ◌≤◌, List, [], ◌∷◌, ◌++◌, length, IfSome};
ghost use Rattle.std.specs.List.{range_with_len};
ghost use denote.RawPtr.{Ptr, block_ptr, block_of, count_of};
ghost use Rattle.page_pool.specs.Region.{region_owns, pages_type};

use crate::part::Part;
use crate::spare::Spare;
use std::alloc::Allocator;
use std::marker::{Model, PhantomData};

/// A region of `size` parts of 512 bytes, without the parts that are out.
pub(crate) struct Region {
    start: *mut [u8; 512],
    size: usize,
    pub ghost name: { ℕ },
    pub ghost numbers: { List ℕ },
    ghost small: { size < 2 ^ 32 },
    ghost there: { start ≡ block_ptr (block_of start) (count_of start) },
}

impl Model for Region {
    ghost also_owns = { λ r. region_owns r.name r.size r.start r.numbers };
}

/// The right to give the region back to its allocator.
pub(crate) struct Deed<A: Allocator> {
    marker: PhantomData<A>,
    pub ghost alloc: { A },
    pub ghost start: { Ptr },
    pub ghost size: { ℕ },
}

impl<A: Allocator> Model for Deed<A> {
    ghost also_owns = { λ d. A.dealloc_token d.alloc (pages_type d.size) d.start };
}

impl Region {
    /// A region with all its parts, under a new name.
    pub(crate) fn new<A: Allocator>(alloc: &A, size: usize) -> Option<(Region, Deed<A>)>
        requires { size < 2 ^ 32 }
        ensures { IfSome result (λ r. (r.0.size ≡ size) × (r.0.numbers ≡ range_with_len 0 size)
            × (r.1.alloc ≡ alloc.now) × (r.1.start ≡ r.0.start) × (r.1.size ≡ size)) }
    {
        match alloc.allocate(size * 512, 1) {
            Ok(block) => {
                let start = block as *mut [u8; 512];
                let marker = PhantomData;
                Some((Region { start, size }, Deed { marker }))
            }
            Err(_) => None,
        }
    }

    /// Lends the part that came in last, with these bytes.
    pub(crate) fn take(&mut self, number: u32, bytes: [u8; 512]) -> Part
        requires { (rest : List ℕ) × (self.old.numbers ≡ rest ++ number ∷ []) }
        ensures numbers { self.old.numbers ≡ self.new.numbers ++ number ∷ [] }
        ensures same { (self.new.start ≡ self.old.start) × (self.new.size ≡ self.old.size) × (self.new.name ≡ self.old.name) }
        ensures part { (result.name ≡ self.old.name) × (result.size ≡ self.old.size) × (result.bytes ≡ bytes) }
    {
        unsafe {
            let at = self.start.add(number as usize);
            *at = bytes;
            Part { at, number }
        }
    }

    /// Lends the part that came in last, and leaves its bytes unwritten.
    pub(crate) fn lend(&mut self, number: u32) -> Spare
        requires { (rest : List ℕ) × (self.old.numbers ≡ rest ++ number ∷ []) }
        ensures numbers { self.old.numbers ≡ self.new.numbers ++ number ∷ [] }
        ensures same { (self.new.start ≡ self.old.start) × (self.new.size ≡ self.old.size) × (self.new.name ≡ self.old.name) }
        ensures part { (result.name ≡ self.old.name) × (result.size ≡ self.old.size) }
    {
        unsafe {
            let at = self.start.add(number as usize);
            Spare { at, number }
        }
    }

    /// Takes a part of this region back, and returns its number.
    pub(crate) fn put(&mut self, part: Part) -> u32
        requires { (part.name ≡ self.old.name) × (part.size ≡ self.old.size) }
        ensures numbers { self.new.numbers ≡ self.old.numbers ++ part.number ∷ [] }
        ensures number { result ≡ part.number }
        ensures within { length self.new.numbers ≤ self.new.size }
        ensures same { (self.new.start ≡ self.old.start) × (self.new.size ≡ self.old.size) × (self.new.name ≡ self.old.name) }
    {
        let Part { at: _, number } = part;
        number
    }

    /// Takes a part of this region back that was never written, and returns its number.
    pub(crate) fn put_spare(&mut self, spare: Spare) -> u32
        requires { (spare.name ≡ self.old.name) × (spare.size ≡ self.old.size) }
        ensures numbers { self.new.numbers ≡ self.old.numbers ++ spare.number ∷ [] }
        ensures number { result ≡ spare.number }
        ensures within { length self.new.numbers ≤ self.new.size }
        ensures same { (self.new.start ≡ self.old.start) × (self.new.size ≡ self.old.size) × (self.new.name ≡ self.old.name) }
    {
        let Spare { at: _, number } = spare;
        number
    }

    /// Gives the region back, all parts of which are in.
    pub(crate) fn free<A: Allocator>(self, deed: Deed<A>, alloc: &A)
        requires all { length self.numbers ≡ self.size }
        requires deed { (deed.alloc ≡ alloc.now) × (deed.start ≡ self.start) × (deed.size ≡ self.size) }
    {
        let Region { start, size } = self;
        let Deed { marker: _ } = deed;
        unsafe { alloc.deallocate(start as *mut u8, size * 512, 1) }
    }

    /// Leaves the region where it is, since a part is out.
    pub(crate) fn leak<A: Allocator>(self, deed: Deed<A>) {
        let Region { start: _, size: _ } = self;
        let Deed { marker: _ } = deed;
    }
}

unsafe impl Send for Region {}

unsafe impl<A: Allocator + Send> Send for Deed<A> {}
