//! A source and a sink in memory, with the numbers of the calls that fail.

ghost use Rattle.std.specs.Prelude.{◌≡◌, ◌+◌, ◌<◌, ◌≤◌, ◌++◌, [], ℕ, List, Some, length, take, drop, min, IfOk};
ghost use Rattle.std.specs.Io.{ReadsAtMost, WritesAtMost};
ghost use Rattle.std.specs.Io.KnownBytes.{ReadConsumes, WriteAppends};
ghost use Rattle.outside.specs.Counts.{rise, CountsFault, FailsWhereListed};
ghost use Rattle.outside.specs.InMemory.{Input, Output};

use crate::{Refused, Sink, Source};
use mrp_types::Octets;
use std::alloc::Global;
use std::marker::Model;

/// A source that holds its bytes.
#[derive(Drop)]
pub struct MemSource {
    bytes: Octets,
    at: usize,
    fail: Vec<u64>,
    reads: u64,
    faults: u64,
}

impl Model for MemSource {
    ghost use Rattle.outside.specs.InMemory.{Input};

    ghost Value = { Input };

    ghost use Rattle.std.specs.Prelude.{◌≤◌, length, drop};

    ghost view = { λ s. record { left = drop s.at s.bytes; fail = s.fail.items; reads = s.reads; faults = s.faults } };

    ghost invariant = { λ s. s.at ≤ length s.bytes };
}

impl MemSource {
    /// A source of these bytes. The reads are numbered from 0; a read fails exactly where its number is listed.
    pub fn new(bytes: Octets, fail: Vec<u64>) -> Self
        ensures { result ≡ record { left = bytes; fail = fail.items; reads = 0; faults = 0 } }
    {
        MemSource {
            bytes,
            at: 0,
            fail,
            reads: 0,
            faults: 0,
        }
    }
}

impl Source for MemSource {
    ghost left = { λ s. Some s.left };

    ghost faults = { λ s. s.faults };

    ghost reads = { λ s. s.reads };

    fn read(&mut self, into: &mut [u8]) -> Result<usize, Refused>
        ensures bound { ReadsAtMost result into.new }
        ensures bytes { ReadConsumes (Some self.old.left) (Some self.new.left) result into.new }
        ensures fault { CountsFault result self.old.faults self.new.faults }
        ensures counted { self.new.reads ≡ rise self.old.reads }
        ensures listed { FailsWhereListed result self.old.fail self.old.reads }
        ensures list { self.new.fail ≡ self.old.fail }
    {
        let number = self.reads;
        self.reads = self.reads.saturating_add(1);
        if self.fail.contains(&number) {
            self.faults = self.faults.saturating_add(1);
            return Err(Refused::Failed);
        }
        let taken = move_front(&self.bytes.bytes()[self.at..], into);
        self.at += taken;
        Ok(taken)
    }
}

// Moves as many bytes as there are and as fit, and answers how many.
fn move_front(from: &[u8], into: &mut [u8]) -> usize
    ensures count { result ≡ min (length from.now) (length into.old) }
    ensures moved { into.new ≡ take result from.now ++ drop result into.old }
{
    let count = from.len().min(into.len());
    into[..count].copy_from_slice(&from[..count]);
    count
}

/// A sink that holds what it took.
#[derive(Drop)]
pub struct MemSink {
    bytes: Octets,
    fail: Vec<u64>,
    writes: u64,
    faults: u64,
}

impl Model for MemSink {
    ghost use Rattle.outside.specs.InMemory.{Output};

    ghost Value = { Output };

    ghost view = { λ s. record { taken = s.bytes; fail = s.fail.items; writes = s.writes; faults = s.faults } };
}

impl MemSink {
    /// An empty sink. The writes are numbered from 0; a write fails exactly where its number is listed.
    pub fn new(alloc: Global, fail: Vec<u64>) -> Self
        ensures { result ≡ record { taken = []; fail = fail.items; writes = 0; faults = 0 } }
    {
        MemSink {
            bytes: Octets::new(alloc),
            fail,
            writes: 0,
            faults: 0,
        }
    }

    /// The bytes taken so far.
    pub fn bytes(&self) -> &[u8]
        ensures { result.now ≡ self.now.taken }
    {
        self.bytes.bytes()
    }
}

impl Sink for MemSink {
    ghost taken = { λ s. Some s.taken };

    ghost faults = { λ s. s.faults };

    fn write(&mut self, from: &[u8]) -> Result<usize, Refused>
        ensures bound { WritesAtMost result from.now }
        ensures bytes { WriteAppends (Some self.old.taken) (Some self.new.taken) result from.now }
        ensures some { 0 < length from.now → IfOk result (λ n. 0 < n) }
        ensures fault { CountsFault result self.old.faults self.new.faults }
        ensures listed { FailsWhereListed result self.old.fail self.old.writes }
        ensures counted { self.new.writes ≡ rise self.old.writes }
        ensures list { self.new.fail ≡ self.old.fail }
    {
        let number = self.writes;
        self.writes = self.writes.saturating_add(1);
        if self.fail.contains(&number) {
            self.faults = self.faults.saturating_add(1);
            return Err(Refused::Failed);
        }
        if self.bytes.extend(from).is_err() {
            return Err(Refused::Memory);
        }
        Ok(from.len())
    }
}
