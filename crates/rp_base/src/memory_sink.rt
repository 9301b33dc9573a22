//! Sinks in memory, which fail where they are told to.

ghost use Rattle.std.specs.Prelude.{◌≡◌, ◌<◌, ◌≤◌, ◌-◌, ◌++◌, ◌↔◌, ◌⊎◌, [], min, length, take, Some, None, IsOk, IfOk};
ghost use Rattle.std.specs.Prelude.{OnOk, OnErr, IsErr};
ghost use Rattle.rp_base.specs.InMemory.{after_fault, after_work, new_plan, FailsNext};

use crate::files::Failed;
use crate::memory::Memory;
use crate::memory_files::Plan;
use crate::sink::Sink;
use std::alloc::Global;
use std::marker::Model;

/// A sink in memory, which takes few bytes at a time, and of which some calls fail.
#[derive(Drop)]
pub struct MemSink {
    bytes: Vec<u8>,
    /// How many more bytes it takes.
    room: usize,
    most: usize,
    plan: Plan,
}

impl Model for MemSink {
    ghost use Rattle.std.specs.Prelude.{◌<◌, ◌≤◌, ◌+◌, vec_len, vec_capacity};
    ghost use Rattle.rp_base.specs.InMemory.{FailingSink};

    ghost Value = { FailingSink };

    ghost view = { λ s. record {
      taken = s.bytes.items;
      room = s.room;
      most = s.most;
      plan = s.plan;
    } };

    ghost invariant = { λ s. (0 < s.most) × (vec_len s.bytes + s.room ≤ vec_capacity s.bytes) };
}

impl MemSink {
    /// An empty sink with room for `room` bytes, of which a write takes at most `most`. The writes
    /// whose numbers, from 1, are in `failing` fail. A write takes no memory.
    ///
    /// # Errors
    /// `Memory` where the room cannot be reserved, never where `room` is 0.
    pub fn new(
        alloc: Global,
        room: usize,
        most: usize,
        failing: Vec<u64>,
    ) -> Result<MemSink, Memory>
        requires { 0 < most }
        ensures no_room { room ≡ 0 → IsOk result }
        ensures empty { IfOk result (λ s. ⟦<MemSink as Sink>⟧.written s ≡ Some []) }
        ensures room { IfOk result (λ s. s.room ≡ room) }
        ensures most { IfOk result (λ s. s.most ≡ most) }
        ensures plan { IfOk result (λ s. s.plan ≡ new_plan failing.items) }
    {
        Ok(MemSink {
            bytes: Vec::with_capacity(alloc, room)?,
            room,
            most,
            plan: Plan::new(failing),
        })
    }

    /// All bytes that were written.
    pub fn bytes(&self) -> &[u8]
        ensures { Some result.now ≡ ⟦<MemSink as Sink>⟧.written self.now }
    {
        self.bytes.as_slice()
    }
}

impl Sink for MemSink {
    ghost written = { λ s. Some s.taken };

    ghost faults = { λ s. s.plan.faults };

    fn write(&mut self, piece: &[u8]) -> Result<usize, Failed>
        requires sound { self.old.plan.faults ≡ 0 }
        requires some { 0 < length piece.now }

        ensures count { IfOk result (λ n.
            n ≡ min (length piece.now) (min self.old.most self.old.room)) }
        ensures positive { IfOk result (λ n. 0 < n) }
        ensures appended { IfOk result (λ n. self.new.taken ≡ self.old.taken ++ take n piece.now) }
        ensures less_room { IfOk result (λ n. self.new.room ≡ self.old.room - n) }
        ensures same_most { self.new.most ≡ self.old.most }
        ensures same { OnErr result (self.new.taken ≡ self.old.taken) }
        ensures same_room { OnErr result (self.new.room ≡ self.old.room) }

        // The writes that fail, and one that finds no room.
        ensures fails { IsErr result ↔ (FailsNext self.old.plan ⊎ (self.old.room ≡ 0)) }
        ensures sound { OnOk result (self.new.plan ≡ after_work self.old.plan) }
        ensures failed { OnErr result (self.new.plan ≡ after_fault self.old.plan) }
    {
        if self.plan.count_call() || self.room == 0 {
            self.plan.add_fault();
            return Err(Failed);
        }
        let count = piece.len().min(self.most.min(self.room));
        self.bytes.extend_from_slice(&piece[..count]).unwrap();
        self.room -= count;
        Ok(count)
    }
}

/// A sink that takes each piece whole and keeps none.
#[derive(Drop)]
pub struct SureSink;

impl SureSink {
    /// The sink, to which nothing was written yet.
    pub fn new() -> SureSink
        ensures untold { ⟦<SureSink as Sink>⟧.written result ≡ None }
        ensures sound { ⟦<SureSink as Sink>⟧.faults result ≡ 0 }
    {
        SureSink
    }
}

impl Sink for SureSink {
    ghost written = { λ _. None };

    ghost faults = { λ _. 0 };

    fn write(&mut self, piece: &[u8]) -> Result<usize, Failed>
        requires some { 0 < length piece.now }
        ensures sure { IsOk result }
        ensures whole { IfOk result (λ n. n ≡ length piece.now) }
    {
        Ok(piece.len())
    }
}
