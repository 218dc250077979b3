ghost use Rattle.std.specs.Prelude.{◌≡◌, ◌+◌, ◌≤◌, ◌↔◌, IsNone, IfSome, OnSome, IfNone, IfOk, length, replicate};

use crate::page_buf::PageBuf;
use crate::region::{Deed, Region};
use crate::spare_buf::SpareBuf;
use std::alloc::Global;
use std::marker::Model;
use vm_types::NoMemory;

/// A pool of page buffers: one region, and the numbers of the parts that are in, as a stack.
pub struct Pool {
    region: Region,
    deed: Deed<Global>,
    alloc: Global,
    free: Vec<u32>,
    size: u32,
}

impl Model for Pool {
    ghost use Rattle.std.specs.Prelude.{◌≡◌, length, vec_capacity};
    ghost use Rattle.page_pool.specs.Pool.{PoolState, IsStacked};

    ghost Value = { PoolState };

    ghost view = { λ p. record {
      name = record { number = p.region.name; size = p.region.size };
      left = length p.free.items;
    } };

    ghost invariant = { λ p. IsStacked p.region.numbers p.free.items p.region.size (vec_capacity p.free) p.size
        × (p.deed.start ≡ p.region.start) × (p.deed.size ≡ p.region.size) × (p.deed.alloc ≡ p.alloc) };
}

impl Pool {
    /// A pool of `n` buffers, at most 16,800.
    ///
    /// # Errors
    /// `NoMemory` if memory runs out.
    pub fn new(alloc: Global, n: u32) -> Result<Pool, NoMemory>
        requires { n ≤ 16800 }
        ensures size { IfOk result (λ pool. pool.name.size ≡ n) }
        ensures left { IfOk result (λ pool. pool.left ≡ n) }
    {
        let mut free = Vec::with_capacity(alloc, n as usize)?;
        for number in 0..n {
            free.push_reserved(number);
        }
        let Some((region, deed)) = Region::new(&alloc, n as usize) else {
            return Err(NoMemory);
        };
        Ok(Pool {
            region,
            deed,
            alloc,
            free,
            size: n,
        })
    }

    /// Takes a buffer out, or returns `None` if none is left. Doesn't allocate.
    pub fn take(&mut self) -> Option<PageBuf>
        ensures none { IsNone result ↔ (self.old.left ≡ 0) }
        ensures pool { IfSome result (λ buf. buf.pool ≡ self.old.name) }
        ensures size { IfSome result (λ buf. length buf.bytes ≡ 512) }
        ensures some { OnSome result (self.new.left + 1 ≡ self.old.left) }
        ensures unchanged { IfNone result (self.new ≡ self.old) }
        ensures name { self.new.name ≡ self.old.name }
        ensures within { self.new.left ≤ self.new.name.size }
    {
        let number = self.free.pop()?;
        let part = self.region.take(number, [0; 512]);
        let buf = PageBuf { part };
        // The proof learns here that there are 512 bytes.
        let _ = buf.bytes();
        Some(buf)
    }

    /// Takes a buffer out with the bytes of another one, or returns `None` if none is left. Doesn't allocate.
    pub fn take_copy(&mut self, other: &PageBuf) -> Option<PageBuf>
        ensures none { IsNone result ↔ (self.old.left ≡ 0) }
        ensures pool { IfSome result (λ buf. buf.pool ≡ self.old.name) }
        ensures bytes { IfSome result (λ buf. buf.bytes ≡ other.now.bytes) }
        ensures some { OnSome result (self.new.left + 1 ≡ self.old.left) }
        ensures unchanged { IfNone result (self.new ≡ self.old) }
        ensures name { self.new.name ≡ self.old.name }
        ensures within { self.new.left ≤ self.new.name.size }
    {
        let number = self.free.pop()?;
        let part = self.region.take(number, *other.part.bytes());
        Some(PageBuf { part })
    }

    /// Takes a buffer out that isn't written yet, or returns `None` if none is left. Doesn't allocate.
    pub fn take_spare(&mut self) -> Option<SpareBuf>
        ensures none { IsNone result ↔ (self.old.left ≡ 0) }
        ensures pool { IfSome result (λ buf. buf ≡ self.old.name) }
        ensures some { OnSome result (self.new.left + 1 ≡ self.old.left) }
        ensures unchanged { IfNone result (self.new ≡ self.old) }
        ensures name { self.new.name ≡ self.old.name }
    {
        let number = self.free.pop()?;
        let spare = self.region.lend(number);
        Some(SpareBuf { spare })
    }

    /// Takes a buffer of this pool back. Doesn't allocate.
    pub fn put(&mut self, buf: PageBuf)
        requires { buf.pool ≡ self.old.name }
        ensures name { self.new.name ≡ self.old.name }
        ensures left { self.new.left ≡ self.old.left + 1 }
        ensures within { self.new.left ≤ self.new.name.size }
    {
        let PageBuf { part } = buf;
        let number = self.region.put(part);
        self.free.push_reserved(number);
    }

    /// Takes a buffer of this pool back that was never written. Doesn't allocate.
    pub fn put_spare(&mut self, buf: SpareBuf)
        requires { buf ≡ self.old.name }
        ensures name { self.new.name ≡ self.old.name }
        ensures left { self.new.left ≡ self.old.left + 1 }
        ensures within { self.new.left ≤ self.new.name.size }
    {
        let SpareBuf { spare } = buf;
        let number = self.region.put_spare(spare);
        self.free.push_reserved(number);
    }

    /// Gives back the memory of a pool to which all buffers are back.
    pub fn close(self)
        requires { self.name.size ≤ self.left }
    {
        let Pool {
            region,
            deed,
            alloc,
            free: _,
            size: _,
        } = self;
        region.free(deed, &alloc);
    }
}

impl Drop for Pool {
    fn drop(self) {
        let Pool {
            region,
            deed,
            alloc,
            free,
            size,
        } = self;
        if free.len() == size as usize {
            region.free(deed, &alloc);
        } else {
            region.leak(deed);
        }
    }
}
