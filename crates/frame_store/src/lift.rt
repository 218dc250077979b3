ghost use Rattle.std.specs.Prelude.{◌≡◌, ◌+◌, ◌<◌, ◌^◌, true, false, length, if◌then◌else◌, OnOk, OnErr};
ghost use Rattle.vm_types.specs.declared.limits.TheConstants.{PAGE_BYTES};
ghost use Rattle.disk_trait.specs.Told.{told, IsAnyContent};
ghost use Rattle.frame_store.specs.LiftView.{IsCarried};

use disk_trait::Block;
use page_pool::PageBuf;
use std::marker::Model;
use vm_types::{BlockId, Failed, Page, Pfn, Seat};

/// How far a lift was carried.
#[derive(Clone, Copy, Debug, PartialEq, Eq)]
pub enum Carried {
    /// Not yet.
    Waiting,
    /// The block was read or written.
    Good,
    /// The block failed; its count of failures was `before` and is `after`.
    Bad { before: u64, after: u64 },
}

/// How far a lift was carried, without the block's counts of failures.
#[derive(Clone, Copy)]
pub(crate) enum Stage {
    /// Not yet.
    NotYet,
    /// The block was read or written.
    Well,
    /// The block failed.
    Badly,
}

/// An open transfer between a frame and a block: the block, and a buffer of the frame's bytes. It is
/// carried outside of the store that it was lifted from, and then lands there. How far it was carried is
/// kept as a stage, with the count of failures that the block doesn't have any more.
#[derive(Drop)]
pub struct Lift<B: Block> {
    pub(crate) seat: Seat,
    pub(crate) page: Page,
    pub(crate) frame: Pfn,
    pub(crate) id: BlockId,
    pub(crate) block: B,
    pub(crate) buf: PageBuf,
    pub(crate) start: u64,
    /// The block's count of failures before its call; 0 until it is called.
    pub(crate) before: u64,
    pub(crate) read: bool,
    pub(crate) stage: Stage,
}

impl<B: Block> Model for Lift<B> {
    ghost use Rattle.std.specs.Prelude.{◌+◌};
    ghost use Rattle.frame_store.specs.LiftView.{LiftView, MayCall};
    ghost use Rattle.frame_store.specs.Stage.{result_of};

    ghost Value = { LiftView B };

    ghost view = { λ l. record {
      start = l.start;
      seat = l.seat;
      page = l.page;
      frame = (l.frame).0;
      block = l.id;
      is_read = l.read;
      buffer = (l.buf).bytes;
      held = l.block;
      result = result_of l.stage l.before (B.seen l.block).faults;
      pool = (l.buf).pool;
    } };

    ghost invariant = { λ l. MayCall (result_of l.stage l.before (B.seen l.block).faults) ((B.seen l.block).reads + (B.seen l.block).writes) };
}

impl<B: Block> Lift<B> {
    /// The number of the entry in which the transfer began. No call of a lift allocates.
    pub fn start(&self) -> u64
        ensures { result ≡ self.now.start }
    {
        self.start
    }

    /// The page whose bytes are moved.
    pub fn page(&self) -> Page
        ensures { result ≡ self.now.page }
    {
        self.page
    }

    /// The frame of the page.
    pub fn frame(&self) -> Pfn
        ensures { result.0 ≡ self.now.frame }
    {
        self.frame
    }

    /// The block's name.
    pub fn id(&self) -> BlockId
        ensures { result ≡ self.now.block }
    {
        self.id
    }

    /// Whether the block is read; else it is written.
    pub fn is_read(&self) -> bool
        ensures { result ≡ self.now.is_read }
    {
        self.read
    }

    /// How far it was carried.
    pub fn result(&self) -> Carried
        ensures { result ≡ self.now.result }
    {
        match self.stage {
            Stage::NotYet => Carried::Waiting,
            Stage::Well => Carried::Good,
            Stage::Badly => Carried::Bad {
                before: self.before,
                after: self.block.faults(),
            },
        }
    }

    /// Reads the block into the buffer, or writes the buffer to it. After `Good` this was done, and the
    /// block's count of failures is as before; after `Bad` the block failed, its count rose, and it has
    /// its content after a read, and any 512 bytes after a write. A failed read leaves the buffer any
    /// bytes.
    pub fn carry(&mut self)
        requires { self.old.result ≡ Carried.Waiting }
        ensures same { self.new ≡ record self.old {
          held = self.new.held;
          buffer = self.new.buffer;
          result = self.new.result;
        } }
        ensures size { length self.new.buffer ≡ PAGE_BYTES }
        ensures written { self.old.is_read ≡ false → self.new.buffer ≡ self.old.buffer }
        ensures plan { (B.seen self.new.held).plan ≡ (B.seen self.old.held).plan }
        ensures reads { (B.seen self.new.held).reads ≡ (B.seen self.old.held).reads + (if self.old.is_read then 1 else 0) }
        ensures writes { (B.seen self.new.held).writes ≡ (B.seen self.old.held).writes + (if self.old.is_read then 0 else 1) }
        ensures result { IsCarried B.seen B.tells self.old self.new }
    {
        self.before = self.block.faults();
        // Written before the bytes are, since who takes the lift next reads the stage at once.
        self.stage = Stage::Well;
        if move_bytes(&mut self.block, &mut self.buf, self.read).is_err() {
            self.stage = Stage::Badly;
        }
    }
}

/// Reads the block into the buffer, or writes the buffer to it.
fn move_bytes<B: Block>(block: &mut B, buf: &mut PageBuf, read: bool) -> Result<(), Failed>
    requires { (B.seen block.old).reads + (B.seen block.old).writes < 2 ^ 48 }
    ensures pool { buf.new.pool ≡ buf.old.pool }
    ensures size { length buf.new.bytes ≡ PAGE_BYTES }
    ensures written { read ≡ false → buf.new ≡ buf.old }
    ensures plan { (B.seen block.new).plan ≡ (B.seen block.old).plan }
    ensures reads { (B.seen block.new).reads ≡ (B.seen block.old).reads + (if read then 1 else 0) }
    ensures writes { (B.seen block.new).writes ≡ (B.seen block.old).writes + (if read then 0 else 1) }
    ensures ok { OnOk result ((B.seen block.new).faults ≡ (B.seen block.old).faults) }
    ensures failed { OnErr result ((B.seen block.old).faults < (B.seen block.new).faults) }
    ensures read { read ≡ true → (B.seen block.new).content ≡ (B.seen block.old).content }
    ensures bytes { read ≡ true → OnOk result ((B.seen block.old).content ≡ told B.tells.content buf.new.bytes) }
    ensures content { read ≡ false → OnOk result ((B.seen block.new).content ≡ told B.tells.content buf.new.bytes) }
    ensures torn { read ≡ false → OnErr result (IsAnyContent B.tells.content (B.seen block.new).content) }
{
    if read {
        block.read(buf.bytes_mut())
    } else {
        block.write(buf.bytes())
    }
}
