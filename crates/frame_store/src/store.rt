ghost use Rattle.std.specs.Prelude.{◌≡◌, ◌+◌, ◌-◌, ◌*◌, ◌<◌, ◌≤◌, ◌^◌, true, false, if◌then◌else◌, length, replicate, Option, Some, None, IsSome, IfSome, IfOk, All, map, is_some, slice_get, slice_set};
ghost use Rattle.std.specs.Borrow.{sem};
ghost use Rattle.vm_types.specs.declared.limits.TheConstants.{PAGE_BYTES};
ghost use Rattle.vm_types.specs.declared.names.BlockId.{BlockId};
ghost use Rattle.page_pool.specs.Pool.{Buffer};

use crate::frame::Frame;
use crate::home::Home;
use crate::lift::{Lift, Stage};
use crate::opening::zero_frames;
use disk_trait::Block;
use page_pool::{PageBuf, Pool};
use pfn_database::Pfns;
use std::alloc::Global;
use std::marker::Model;
use vm_types::{BlockId, Config, NoMemory, PAGE_BYTES, Page, Pfn, Seat};

/// The frames of memory with their buffers, the blocks of the disk, and the open transfers. An open
/// transfer has its block with it; a read has the frame's buffer too, and a write a copy of it.
pub struct Store<B: Block> {
    frames: Pfns,
    pool: Pool,
    buffers: Vec<Frame>,
    home: Home<B>,
    flights: Vec<Option<u64>>,
}

impl<B: Block> Model for Store<B> {
    ghost use Rattle.frame_store.specs.StoreView.{StoreView, IsStore, bytes_of};

    ghost Value = { StoreView B };

    ghost view = { λ s. record {
      pool = s.pool.name;
      left = s.pool.left;
      frames = s.frames;
      buffers = bytes_of s.buffers.items;
      ids = s.home.ids;
      blocks = s.home.blocks;
      flights = s.flights.items;
    } };

    ghost invariant = { λ s. IsStore s.pool.name s.buffers.items s.flights.items };
}

impl<B: Block> Store<B> {
    ghost use Rattle.vm_types.specs.Configuration.{IsWellFormed};
    ghost use Rattle.pfn_database.specs.Frames.{opening};
    ghost use Rattle.frame_store.specs.Blocks.{blocks_of, held_at, number_in};
    ghost use Rattle.frame_store.specs.LiftView.{begun};
    ghost use Rattle.frame_store.specs.Loans.{LendsBytes, LendsFrames};
    ghost use Rattle.frame_store.specs.StoreView.{landed, lifted_in, lifted_out};

    /// The store of a configuration with its blocks, given in their order: no frame is used, all bytes
    /// are zero, and no transfer is open. No other call allocates.
    ///
    /// # Errors
    /// `NoMemory` if out of memory.
    pub fn new(
        alloc: Global,
        config: &Config,
        blocks: Vec<(BlockId, B)>,
    ) -> Result<Store<B>, NoMemory>
        requires formed { IsWellFormed config.now }
        requires blocks { map (λ (p : BlockId × B). p.0) blocks.items ≡ blocks_of config.now }
        ensures left { IfOk result (λ s. s.left ≡ 16 * (length config.now.procs + 2)) }
        ensures size { IfOk result (λ s. s.pool.size ≡ config.now.frames + 16 * (length config.now.procs + 2)) }
        ensures frames { IfOk result (λ s. s.frames ≡ opening config.now.frames config.now.bad) }
        ensures buffers { IfOk result (λ s. s.buffers ≡ replicate config.now.frames (Some (replicate PAGE_BYTES 0))) }
        ensures ids { IfOk result (λ s. s.ids ≡ blocks_of config.now) }
        ensures blocks { IfOk result (λ s. s.blocks ≡ map (λ (p : BlockId × B). Some p.1) blocks.items) }
        ensures flights { IfOk result (λ s. s.flights ≡ replicate config.now.frames None) }
    {
        let frames = Pfns::new(alloc, config.frames, config.bad.items())?;
        let home = Home::new(alloc, config, blocks)?;
        let flights = vec![in alloc; None; config.frames as usize]?;
        let spare = 16 * (config.procs.items().len() as u32 + 2);
        let mut pool = Pool::new(alloc, config.frames + spare)?;
        let buffers = zero_frames(alloc, &mut pool, config.frames)?;
        Ok(Store {
            frames,
            pool,
            buffers,
            home,
            flights,
        })
    }

    /// The PFN database.
    pub fn frames(&self) -> &Pfns
        ensures { result.now ≡ self.now.frames }
    {
        &self.frames
    }

    /// The PFN database, to be changed.
    pub fn frames_mut(&mut self) -> &mut Pfns
        ensures* writes_back { sem 𝓛 (LendsFrames B.row B.Block self.entry result) }
        ensures value { result.now ≡ self.old.frames }
    {
        &mut self.frames
    }

    /// Whether a block of the store isn't out; `false` for every block that isn't one of them.
    pub fn home(&self, id: BlockId) -> bool
        ensures { result ≡ is_some (held_at self.now.blocks (number_in self.now.ids id)) }
    {
        self.home.has(id)
    }

    /// The number of the entry in which the open transfer of a frame began; `None` if it has none, or
    /// if there is no such frame.
    pub fn flight(&self, f: Pfn) -> Option<u64>
        ensures { result ≡ held_at self.now.flights f.0 }
    {
        self.flights.get(f.0 as usize).copied().flatten()
    }

    /// The 512 bytes of a frame whose buffer isn't out.
    pub fn bytes(&self, f: Pfn) -> &[u8]
        requires { IsSome (held_at self.now.buffers f.0) }
        ensures bytes { held_at self.now.buffers f.0 ≡ Some result.now }
        ensures size { length result.now ≡ PAGE_BYTES }
    {
        self.buffers[f.0 as usize].bytes()
    }

    /// The same bytes, to be written.
    pub fn bytes_mut(&mut self, f: Pfn) -> &mut [u8]
        requires { IsSome (held_at self.old.buffers f.0) }
        ensures* writes_back { sem 𝓛 (LendsBytes B.row B.Block self.entry f.0 result) }
        ensures bytes { held_at self.old.buffers f.0 ≡ Some result.now }
        ensures size { length result.now ≡ PAGE_BYTES }
    {
        self.buffers[f.0 as usize].bytes_mut()
    }

    /// Makes the bytes of a frame zero whose buffer isn't out.
    pub fn zero(&mut self, f: Pfn)
        requires { IsSome (held_at self.old.buffers f.0) }
        ensures { self.new ≡ record self.old {
          buffers = slice_set self.old.buffers f.0 (Some (replicate PAGE_BYTES 0));
        } }
    {
        self.buffers[f.0 as usize].zero();
    }

    /// Lifts a block that isn't out and the buffer of its page's frame, to read the block into it. The
    /// block was called less than 2^48 times, and the frame has no open transfer.
    pub fn lift_in(&mut self, seat: Seat, page: Page, f: Pfn, id: BlockId, start: u64) -> Lift<B>
        requires buffer { IsSome (held_at self.old.buffers f.0) }
        requires still { held_at self.old.flights f.0 ≡ None }
        requires block { IsSome (held_at self.old.blocks (number_in self.old.ids id)) }
        requires few_calls { IfSome (held_at self.old.blocks (number_in self.old.ids id))
            (λ b. (B.seen b).reads + (B.seen b).writes < 2 ^ 48) }
        ensures store { self.new ≡ lifted_in self.old f.0 id start }
        ensures lift { result ≡ begun self.old.pool seat page f.0 id start true result.buffer result.held }
        ensures buffer { held_at self.old.buffers f.0 ≡ Some result.buffer }
        ensures held { held_at self.old.blocks (number_in self.old.ids id) ≡ Some result.held }
        ensures size { length result.buffer ≡ PAGE_BYTES }
    {
        let buf = self.buffers[f.0 as usize].take();
        let block = self.home.take(id);
        self.flights[f.0 as usize] = Some(start);
        // The proof learns here that there are 512 bytes.
        let _ = buf.bytes();
        Lift {
            seat,
            page,
            frame: f,
            id,
            read: true,
            stage: Stage::NotYet,
            block,
            buf,
            start,
            before: 0,
        }
    }

    /// Lifts a block that isn't out and a copy of the buffer of its page's frame, to write the copy to
    /// the block. The block was called less than 2^48 times, and the frame has no open transfer.
    pub fn lift_out(&mut self, seat: Seat, page: Page, f: Pfn, id: BlockId, start: u64) -> Lift<B>
        requires left { 0 < self.old.left }
        requires buffer { IsSome (held_at self.old.buffers f.0) }
        requires still { held_at self.old.flights f.0 ≡ None }
        requires block { IsSome (held_at self.old.blocks (number_in self.old.ids id)) }
        requires few_calls { IfSome (held_at self.old.blocks (number_in self.old.ids id))
            (λ b. (B.seen b).reads + (B.seen b).writes < 2 ^ 48) }
        ensures store { self.new ≡ lifted_out self.old f.0 id start }
        ensures lift { result ≡ begun self.old.pool seat page f.0 id start false result.buffer result.held }
        ensures buffer { held_at self.old.buffers f.0 ≡ Some result.buffer }
        ensures held { held_at self.old.blocks (number_in self.old.ids id) ≡ Some result.held }
        ensures size { length result.buffer ≡ PAGE_BYTES }
    {
        let buf = self.buffers[f.0 as usize].copy(&mut self.pool);
        let block = self.home.take(id);
        self.flights[f.0 as usize] = Some(start);
        Lift {
            seat,
            page,
            frame: f,
            id,
            read: false,
            stage: Stage::NotYet,
            block,
            buf,
            start,
            before: 0,
        }
    }

    /// Takes back what a lift of this store took out: its block, and its buffer, which goes back to its
    /// frame after a read, and to the pool after a write.
    #[inline(always)]
    pub fn land(&mut self, lift: Lift<B>)
        requires pool { lift.pool ≡ self.old.pool }
        requires frame { lift.frame < length self.old.buffers }
        requires buffer { lift.is_read ≡ true → held_at self.old.buffers lift.frame ≡ None }
        requires block { slice_get self.old.blocks (number_in self.old.ids lift.block) ≡ Some None }
        ensures store { self.new ≡ landed self.old lift }
        ensures size { length lift.buffer ≡ PAGE_BYTES }
    {
        let Lift {
            frame,
            id,
            block,
            buf,
            read,
            ..
        } = lift;
        // The proof learns here that there are 512 bytes.
        let _ = buf.bytes();
        let place = &mut self.buffers[frame.0 as usize];
        put_back(&mut self.pool, place, buf, read);
        self.home.put(id, block);
        self.flights[frame.0 as usize] = None;
    }

    /// Gives all blocks back, each with its name, in their order, once none is out. All buffers are in,
    /// and the pool is closed. Doesn't allocate.
    pub fn into_blocks(self) -> Vec<(BlockId, B)>
        requires buffers { All IsSome self.buffers }
        requires left { self.pool.size ≤ self.left + length self.buffers }
        requires blocks { All IsSome self.blocks }
        ensures ids { map (λ (p : BlockId × B). p.0) result.items ≡ self.ids }
        ensures blocks { map (λ (p : BlockId × B). Some p.1) result.items ≡ self.blocks }
    {
        let Store {
            frames: _,
            mut pool,
            buffers,
            home,
            flights: _,
        } = self;
        put_all_back(&mut pool, buffers);
        pool.close();
        home.into_blocks()
    }
}

impl<B: Block> Drop for Store<B> {
    /// The buffers go back into their pool, whose memory goes back too unless one is out with a lift.
    fn drop(self) {
        let Store {
            frames: _,
            mut pool,
            buffers,
            home: _,
            flights: _,
        } = self;
        put_all_back(&mut pool, buffers);
    }
}

/// Puts the buffers of all frames that aren't out back into their pool.
fn put_all_back(pool: &mut Pool, mut buffers: Vec<Frame>)
    requires { All (λ (buf : Option Buffer). IfSome buf (λ b. b.pool ≡ pool.old.name)) buffers.items }
    ensures name { pool.new.name ≡ pool.old.name }
    ensures left { All IsSome buffers.items → pool.new.left ≡ pool.old.left + length buffers.items }
{
    for _ in 0..buffers.len() {
        buffers.pop().unwrap().put_back(pool);
    }
}

/// Puts a buffer into its place after a read, else back into its pool.
fn put_back(pool: &mut Pool, place: &mut Frame, buf: PageBuf, read: bool)
    requires { buf.pool ≡ pool.old.name }
    ensures name { pool.new.name ≡ pool.old.name }
    ensures left { pool.new.left ≡ (if read then pool.old.left else pool.old.left + 1) }
    ensures place { place.new ≡ (if read then Some buf else place.old) }
{
    if read {
        *place = Frame::new(buf);
    } else {
        pool.put(buf);
    }
}
