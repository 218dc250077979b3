//! Blocks whose calls wait until a call of a block of the other side has begun.
ghost use Rattle.std.specs.Prelude.{◌≡◌, ◌+◌, ◌^◌, ◌<◌, ◌≤◌, ◌++◌, [], ◌∷◌, length, None, Some, false, true, refl, IfOk, OnErr, OnOk};

use disk_trait::{Block, Depot, MakeFault};
use std::alloc::Global;
use std::sync::Arc;
use std::sync::atomic::{AtomicU64, Ordering};
use std::thread;
use vm_types::{BlockId, Failed, NoMemory};

/// How often a wait looks, and yields, before it gives up.
const MOST_LOOKS: u32 = 10_000_000;

/// The sides that meet. The odd pages of sections are on the second one, all other blocks on the first.
#[derive(Clone, Copy, Debug, PartialEq, Eq)]
pub enum Side {
    First,
    Second,
}

impl Side {
    /// The side of a block.
    fn of(id: BlockId) -> Side {
        match id {
            BlockId::Section(_, i) if i % 2 == 1 => Side::Second,
            _ => Side::First,
        }
    }

    fn other(self) -> Side {
        match self {
            Side::First => Side::Second,
            Side::Second => Side::First,
        }
    }
}

/// Whether a call of a block of each side has begun: 0 until then.
#[derive(Drop)]
pub struct Begun {
    first: AtomicU64,
    second: AtomicU64,
}

impl Begun {
    /// No call has begun.
    pub fn new() -> Begun {
        Begun {
            first: AtomicU64::new(0),
            second: AtomicU64::new(0),
        }
    }

    fn word(&self, side: Side) -> &AtomicU64 {
        match side {
            Side::First => &self.first,
            Side::Second => &self.second,
        }
    }

    fn begin(&self, side: Side) {
        self.word(side).store(1, Ordering::SeqCst);
    }

    /// Waits until a call of a block of the side has begun. Whether one has.
    pub fn wait(&self, side: Side) -> bool {
        for _ in 0..MOST_LOOKS {
            if self.word(side).load(Ordering::SeqCst) != 0 {
                return true;
            }
            thread::yield_now();
        }
        false
    }

    /// Begins a call of a block of the side, and waits until one of the other side has begun. Whether one
    /// has.
    fn meet(&self, side: Side) -> bool {
        self.begin(side);
        self.wait(side.other())
    }
}

/// A block in memory whose calls meet those of the other side. A call that waits in vain fails.
#[derive(Drop)]
pub struct MeetingBlock {
    bytes: Vec<u8>,
    begun: Arc<Begun, Global>,
    side: Side,
    reads: u64,
    writes: u64,
    faults: u64,
    ghost whole: { length bytes.items ≡ 512 },
    ghost few_calls: { reads + writes ≤ 2 ^ 48 },
    ghost few_faults: { faults ≤ reads + writes },
}

impl Block for MeetingBlock {
    ghost use Rattle.std.proofs.Common.{lit<};
    ghost use Rattle.std.proofs.Math.Nat.{le_trans, lt_of_le_of_lt};

    ghost tells = { record { content = true; plan = false } };

    ghost seen = { λ b. record { content = Some b.bytes.items; plan = None; reads = b.reads; writes = b.writes; faults = b.faults } };

    ghost any_content = { λ b. (b.bytes.items, b.whole, refl) };

    ghost told_plan = { λ _. refl };

    ghost few_faults = { λ b. lt_of_le_of_lt (le_trans b.few_faults b.few_calls) (lit< tt) };

    fn read(&mut self, buf: &mut [u8]) -> Result<(), Failed> {
        self.reads += 1;
        if !self.begun.meet(self.side) {
            self.faults += 1;
            return Err(Failed);
        }
        buf.copy_from_slice(&self.bytes);
        Ok(())
    }

    fn write(&mut self, bytes: &[u8]) -> Result<(), Failed> {
        self.writes += 1;
        if !self.begun.meet(self.side) {
            self.faults += 1;
            return Err(Failed);
        }
        self.bytes.copy_from_slice(bytes);
        Ok(())
    }

    fn faults(&self) -> u64 {
        self.faults
    }
}

/// A depot of such blocks. It never fails.
#[derive(Drop)]
pub struct MeetingDepot {
    alloc: Global,
    begun: Arc<Begun, Global>,
    retired: Vec<(BlockId, MeetingBlock)>,
}

impl MeetingDepot {
    /// A depot that has taken nothing back.
    pub fn new(alloc: Global, begun: Arc<Begun, Global>) -> MeetingDepot {
        MeetingDepot {
            alloc,
            begun,
            retired: Vec::new(alloc),
        }
    }

    /// The first byte of a block that was taken back.
    pub fn first_byte(&self, id: BlockId) -> Option<u8> {
        for (name, block) in &self.retired {
            if *name == id {
                return block.bytes.first().copied();
            }
        }
        None
    }
}

impl Depot for MeetingDepot {
    ghost use Rattle.disk_trait.specs.DepotView.{depot_view};

    type Block = MeetingBlock;

    ghost seen = { λ d. depot_view ⟦<MeetingBlock as Block>⟧.seen ⟦<MeetingBlock as Block>⟧.tells d.retired.items 0 };

    ghost known = { λ _. refl };

    fn make(
        &mut self,
        id: BlockId,
        bytes: &[u8],
        _fails: &[u32],
    ) -> Result<MeetingBlock, MakeFault> {
        let bytes = Vec::from_slice(self.alloc, bytes)?;
        let begun = self.begun.clone()?;
        Ok(MeetingBlock {
            bytes,
            begun,
            side: Side::of(id),
            reads: 0,
            writes: 0,
            faults: 0,
        })
    }

    fn retire(&mut self, id: BlockId, block: MeetingBlock) -> Result<(), NoMemory> {
        self.retired.push((id, block))?;
        Ok(())
    }

    fn retire_all(&mut self, mut blocks: Vec<(BlockId, MeetingBlock)>) -> Result<(), NoMemory>
        ensures ok { OnOk result (self.new.retired.items ≡ self.old.retired.items ++ blocks.items) }
        ensures err { OnErr result ((self.new.retired.items ≡ self.old.retired.items) × (0 < length blocks.items)) }
    {
        self.retired.append(&mut blocks)?;
        Ok(())
    }
}
