//! A source and a sink in memory that fail at listed calls.
ghost use Rattle.std.specs.Prelude.{◌≡◌, ◌<◌, ◌≤◌, ◌↔◌, [], IsTrue, Contains, if◌then◌else◌};
ghost use Rattle.gql_io.specs.Counts.{one_more};

use crate::sink::{Sink, SinkFault};
use crate::source::{Failed, Source};
use crate::sure::{SureSink, SureSource};
use gql_base::Items;
use std::alloc::Global;

/// Which calls fail, counted from 0, how many were made, and how many failed.
#[derive(Debug, Drop)]
struct Schedule {
    failing: Items<u64>,
    calls: u64,
    faults: u64,
}

impl Schedule {
    fn new(failing: Items<u64>) -> Schedule
        ensures { result ≡ record { failing = failing; calls = 0; faults = 0 } }
    {
        Schedule {
            failing,
            calls: 0,
            faults: 0,
        }
    }

    /// Counts one more call, and tells whether it fails.
    fn next_fails(&mut self) -> bool
        ensures fails { IsTrue result ↔ Contains self.old.failing self.old.calls }
        ensures faults_grow { self.old.faults ≤ self.new.faults }
        ensures after { self.new ≡ record self.old {
          calls = one_more self.old.calls;
          faults = (if result then one_more self.old.faults else self.old.faults);
        } }
    {
        let fails = self.failing.as_slice().contains(&self.calls);
        self.calls = self.calls.saturating_add(1);
        if fails {
            self.faults = self.faults.saturating_add(1);
        }
        fails
    }
}

/// The bytes of a list as a source that fails at listed reads.
#[derive(Debug, Drop)]
pub struct MemorySource {
    source: SureSource,
    schedule: Schedule,
}

impl MemorySource {
    ghost use Rattle.gql_io.specs.Memory.{rest_of, given_of, read_step, failing_reads, reads};
    ghost use Rattle.gql_io.specs.Memory.{read_faults};

    /// A source that gives these bytes, at most `step` in one read. The reads with these numbers
    /// fail, counted from 0.
    pub fn new(bytes: Items<u8>, step: usize, failing: Items<u64>) -> MemorySource
        requires { 0 < step }
        ensures rest { rest_of result ≡ bytes }
        ensures given { given_of result ≡ 0 }
        ensures step { read_step result ≡ step }
        ensures failing { failing_reads result ≡ failing }
        ensures reads { reads result ≡ 0 }
        ensures faults { read_faults result ≡ 0 }
    {
        MemorySource {
            source: SureSource::new(bytes, step),
            schedule: Schedule::new(failing),
        }
    }
}

impl Source for MemorySource {
    ghost use Rattle.std.specs.Prelude.{Some, ◌≡◌, ◌+◌, ◌≤◌, ◌++◌, ◌↔◌, min, length, take, IsErr};
    ghost use Rattle.std.specs.Prelude.{IfOk, OnOk, OnErr, Contains};
    ghost use Rattle.gql_io.specs.Counts.{one_more};
    ghost use Rattle.gql_io.specs.Memory.{rest_of, given_of, read_step, failing_reads, reads};
    ghost use Rattle.gql_io.specs.Memory.{read_faults};

    ghost left = { λ source. Some (rest_of source) };

    ghost given = { given_of };

    ghost faults = { read_faults };

    fn read(&mut self, buf: &mut [u8]) -> Result<usize, Failed>
        // It fails exactly at the listed reads, and then takes nothing.
        ensures fails { IsErr result ↔ Contains (failing_reads self.old) (reads self.old) }
        ensures failed { OnErr result ((rest_of self.new ≡ rest_of self.old)
            × (given_of self.new ≡ given_of self.old)) }
        ensures faults { OnErr result (read_faults self.new ≡ one_more (read_faults self.old)) }

        // Any other read gives as many bytes as there are, in the step and the buffer.
        ensures count { IfOk result
            (λ count. count ≡ min (read_step self.old)
            (min (length buf.new) (length (rest_of self.old)))) }
        ensures taken { IfOk result
            (λ count. rest_of self.old ≡ take count buf.new ++ rest_of self.new) }
        ensures counted { IfOk result (λ count. given_of self.new ≡ given_of self.old + count) }
        ensures faults_grow { read_faults self.old ≤ read_faults self.new }
        ensures no_fault { OnOk result (read_faults self.new ≡ read_faults self.old) }

        ensures reads { reads self.new ≡ one_more (reads self.old) }
        ensures failing { failing_reads self.new ≡ failing_reads self.old }
        ensures step { read_step self.new ≡ read_step self.old }
    {
        if self.schedule.next_fails() {
            return Err(Failed);
        }
        self.source.read(buf)
    }
}

/// A growing list of bytes as a sink that fails at listed writes.
#[derive(Debug, Drop)]
pub struct MemorySink {
    sink: SureSink,
    schedule: Schedule,
}

impl MemorySink {
    ghost use Rattle.gql_io.specs.Memory.{held_by, write_step, failing_writes, writes};
    ghost use Rattle.gql_io.specs.Memory.{write_faults};

    /// A sink that holds nothing yet, and takes at most `step` bytes in one write. The writes with
    /// these numbers fail, counted from 0.
    pub fn new(alloc: Global, step: usize, failing: Items<u64>) -> MemorySink
        requires { 0 < step }
        ensures held { held_by result ≡ [] }
        ensures step { write_step result ≡ step }
        ensures failing { failing_writes result ≡ failing }
        ensures writes { writes result ≡ 0 }
        ensures faults { write_faults result ≡ 0 }
    {
        MemorySink {
            sink: SureSink::new(alloc, step),
            schedule: Schedule::new(failing),
        }
    }

    /// The bytes that it holds.
    pub fn held(&self) -> &[u8]
        ensures { result.now ≡ held_by self.now }
    {
        self.sink.held()
    }
}

impl Sink for MemorySink {
    ghost use Rattle.std.specs.Prelude.{Some, ◌≡◌, ◌≤◌, ◌++◌, ◌↔◌, min, length, take, IfOk, OnOk};
    ghost use Rattle.std.specs.Prelude.{OnErr, IsErrOf, Contains};
    ghost use Rattle.gql_io.specs.Counts.{one_more};
    ghost use Rattle.gql_io.specs.Memory.{held_by, write_step, failing_writes, writes};
    ghost use Rattle.gql_io.specs.Memory.{write_faults};

    ghost held = { λ sink. Some (held_by sink) };

    ghost faults = { write_faults };

    fn write(&mut self, bytes: &[u8]) -> Result<usize, SinkFault>
        // It fails exactly at the listed writes, and a refusal leaves what is held.
        ensures fails { IsErrOf result SinkFault.Failed ↔ Contains (failing_writes self.old)
            (writes self.old) }
        ensures refused { OnErr result (held_by self.new ≡ held_by self.old) }
        ensures faults { IsErrOf result SinkFault.Failed
            → write_faults self.new ≡ one_more (write_faults self.old) }

        // Any other write takes as many bytes as there are in the step and the piece.
        ensures count { IfOk result (λ count. count ≡ min (write_step self.old) (length bytes.now)) }
        ensures taken { IfOk result
            (λ count. held_by self.new ≡ held_by self.old ++ take count bytes.now) }
        ensures faults_grow { write_faults self.old ≤ write_faults self.new }
        ensures no_fault { OnOk result (write_faults self.new ≡ write_faults self.old) }
        ensures no_memory { IsErrOf result SinkFault.NoMemory
            → write_faults self.new ≡ write_faults self.old }

        ensures writes { writes self.new ≡ one_more (writes self.old) }
        ensures failing { failing_writes self.new ≡ failing_writes self.old }
        ensures step { write_step self.new ≡ write_step self.old }
    {
        if self.schedule.next_fails() {
            return Err(SinkFault::Failed);
        }
        self.sink.write(bytes)
    }
}
