ghost use Rattle.std.specs.Prelude.{◌≡◌, ◌+◌, ◌≤◌, [], min, length, Some, is_err, OnOk, OnErr, IfOk, if◌then◌else◌};
ghost use Rattle.std.specs.Io.{WritesAtMost};
ghost use Rattle.std.specs.Io.KnownBytes.{Keeps, WriteAppends};
ghost use Rattle.vm_types.specs.Counts.{raised};
ghost use Rattle.outside_io.specs.Causes.{HasCause};
ghost use Rattle.outside_io.specs.Stalls.{stalls_after};
ghost use Rattle.outside_io.specs.Listed.{is_listed};
ghost use Rattle.outside_io.specs.KeptIsLast.{all_is_handed_on};

use crate::calls::lists;
use crate::sink::Sink;
use std::alloc::Global;
use std::marker::Model;
use vm_types::{Failed, NoMemory};

/// A sink in memory, for tests: it fails and stalls exactly at given calls, and has a last byte. It
/// keeps nothing that a flush would hand on.
#[derive(Debug, Drop)]
pub struct MemorySink {
    taken: Vec<u8>,
    room: usize,
    fails: Vec<u32>,
    idle: Vec<u32>,
    calls: u64,
    faults: u64,
    stalls: u64,
}

impl Model for MemorySink {
    ghost use Rattle.std.specs.Prelude.{◌+◌, ◌≤◌, vec_len, vec_capacity};
    ghost use Rattle.outside_io.specs.MemoryOutput.{MemoryOutput};

    ghost Value = { MemoryOutput };

    ghost view = { λ s. record { taken = s.taken.items; room = s.room; fails = s.fails.items; idle = s.idle.items; calls = s.calls; faults = s.faults; stalls = s.stalls } };

    ghost invariant = { λ s. vec_len s.taken + s.room ≤ vec_capacity s.taken };
}

impl MemorySink {
    /// Nothing is taken yet. Of its calls, writes and flushes, counted from 1, exactly those in
    /// `fails` fail; of the other writes those in `stalls` take nothing, and each other one takes as
    /// much of its piece as the `room` bytes still hold.
    ///
    /// # Errors
    /// `NoMemory` for want of memory for `room` bytes.
    pub fn new(
        alloc: Global,
        room: u32,
        fails: Vec<u32>,
        stalls: Vec<u32>,
    ) -> Result<MemorySink, NoMemory>
        ensures { IfOk result (λ sink. sink ≡ record { taken = []; room = room; fails = fails.items; idle = stalls.items; calls = 0; faults = 0; stalls = 0 }) }
    {
        Ok(MemorySink {
            taken: Vec::with_capacity(alloc, room as usize)?,
            room: room as usize,
            fails,
            idle: stalls,
            calls: 0,
            faults: 0,
            stalls: 0,
        })
    }

    /// The bytes taken, in order. Takes no memory.
    pub fn taken(&self) -> &[u8]
        ensures { result.now ≡ self.now.taken }
    {
        self.taken.as_slice()
    }

    /// Counts a call, which fails if it is one of those that are to fail.
    fn count_call(&mut self) -> Result<(), Failed>
        ensures fails { is_err result ≡ is_listed self.old.fails (raised self.old.calls) }
        ensures cause { HasCause self.old.faults self.new.faults result }
        ensures ok { OnOk result (self.new ≡ record self.old { calls = raised self.old.calls }) }
        ensures err { OnErr result (self.new ≡ record self.old {
          calls = raised self.old.calls;
          faults = raised self.old.faults;
        }) }
    {
        self.calls = self.calls.saturating_add(1);
        if lists(&self.fails, self.calls) {
            self.faults = self.faults.saturating_add(1);
            return Err(Failed);
        }
        Ok(())
    }
}

impl Sink for MemorySink {
    ghost seen = { λ s. record { taken = Some s.taken; kept = []; failures = s.faults; stalls = s.stalls } };

    fn write(&mut self, piece: &[u8]) -> Result<usize, Failed>
        ensures bound { WritesAtMost result piece.now }
        ensures bytes { WriteAppends (Some self.old.taken) (Some self.new.taken) result piece.now }
        ensures cause { HasCause self.old.faults self.new.faults result }
        ensures quiet { OnOk result (self.new.faults ≡ self.old.faults) }
        ensures stalls { self.new.stalls ≡ stalls_after self.old.stalls result piece.now }
        ensures stalls_later { self.old.stalls ≤ self.new.stalls }

        ensures count { IfOk result (λ n. n ≡ (if is_listed self.old.idle (raised self.old.calls)
            then 0 else min (length piece.now) self.old.room)) }
        ensures room { IfOk result (λ n. self.new.room + n ≡ self.old.room) }
        ensures room_left { OnErr result (self.new.room ≡ self.old.room) }
        ensures fails { is_err result ≡ is_listed self.old.fails (raised self.old.calls) }
        ensures failed { OnErr result (self.new.faults ≡ raised self.old.faults) }
        ensures calls { self.new.calls ≡ raised self.old.calls }
        ensures plan { self.new.fails ≡ self.old.fails }
        ensures idle_plan { self.new.idle ≡ self.old.idle }
    {
        self.count_call()?;
        let count = if lists(&self.idle, self.calls) {
            0
        } else {
            piece.len().min(self.room)
        };
        self.taken.extend_from_slice(&piece[..count]).unwrap();
        self.room -= count;
        if count == 0 && !piece.is_empty() {
            self.stalls = self.stalls.saturating_add(1);
        }
        Ok(count)
    }

    fn flush(&mut self) -> Result<(), Failed>
        ensures bytes { Keeps (Some self.old.taken) (Some self.new.taken) }
        ensures cause { HasCause self.old.faults self.new.faults result }
        ensures quiet { OnOk result (self.new.faults ≡ self.old.faults) }
        ensures stalls { self.new.stalls ≡ self.old.stalls }

        ensures room { self.new.room ≡ self.old.room }
        ensures fails { is_err result ≡ is_listed self.old.fails (raised self.old.calls) }
        ensures failed { OnErr result (self.new.faults ≡ raised self.old.faults) }
        ensures calls { self.new.calls ≡ raised self.old.calls }
        ensures plan { self.new.fails ≡ self.old.fails }
        ensures idle_plan { self.new.idle ≡ self.old.idle }
    {
        self.count_call()
    }

    ghost kept_is_last = { λ s. all_is_handed_on s.taken };
}
