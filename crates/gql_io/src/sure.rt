//! A source and a sink in memory that never fail.
ghost use Rattle.std.specs.Prelude.{◌≡◌, ◌+◌, ◌<◌, ◌≤◌, ◌++◌, [], min, length, take, Ok, IsOk};
ghost use Rattle.std.specs.Prelude.{IsErr, OnErr, IfOk, Some};

use crate::sink::{Sink, SinkFault};
use crate::source::{Failed, Source};
use gql_base::Items;
use std::alloc::Global;

/// The bytes of a list as a source. It never fails.
#[derive(Debug, Drop)]
pub struct SureSource {
    bytes: Items<u8>,
    given: usize,
    step: usize,
    ghost within: { given ≤ length bytes },
    ghost moves: { 0 < step },
}

impl SureSource {
    ghost use Rattle.gql_io.specs.Sure.{rest_of, given_of, read_step};

    /// A source that gives these bytes, at most `step` in one read.
    pub fn new(bytes: Items<u8>, step: usize) -> SureSource
        requires { 0 < step }
        ensures rest { rest_of result ≡ bytes }
        ensures given { given_of result ≡ 0 }
        ensures step { read_step result ≡ step }
    {
        SureSource {
            bytes,
            given: 0,
            step,
        }
    }
}

impl Source for SureSource {
    ghost use Rattle.std.specs.Prelude.{Some, ◌≡◌, ◌+◌, ◌++◌, min, length, take, Ok, IfOk};
    ghost use Rattle.gql_io.specs.Sure.{rest_of, given_of, read_step};

    ghost left = { λ source. Some (rest_of source) };

    ghost given = { given_of };

    ghost faults = { λ _. 0 };

    fn read(&mut self, buf: &mut [u8]) -> Result<usize, Failed>
        ensures count { result ≡ Ok (min (read_step self.old)
            (min (length buf.new) (length (rest_of self.old)))) }
        ensures taken { IfOk result
            (λ count. rest_of self.old ≡ take count buf.new ++ rest_of self.new) }
        ensures counted { IfOk result (λ count. given_of self.new ≡ given_of self.old + count) }
        ensures step { read_step self.new ≡ read_step self.old }
    {
        let rest = &self.bytes.as_slice()[self.given..];
        let count = self.step.min(buf.len()).min(rest.len());
        buf[..count].copy_from_slice(&rest[..count]);
        self.given += count;
        Ok(count)
    }
}

/// A growing list of bytes as a sink. It never fails, but memory may be wanting.
#[derive(Debug, Drop)]
pub struct SureSink {
    held: Vec<u8>,
    step: usize,
    ghost moves: { 0 < step },
}

impl SureSink {
    ghost use Rattle.gql_io.specs.Sure.{held_by, write_step};

    /// A sink that holds nothing yet, and takes at most `step` bytes in one write.
    pub fn new(alloc: Global, step: usize) -> SureSink
        requires { 0 < step }
        ensures held { held_by result ≡ [] }
        ensures step { write_step result ≡ step }
    {
        SureSink {
            held: Vec::new(alloc),
            step,
        }
    }

    /// The bytes that it holds.
    pub fn held(&self) -> &[u8]
        ensures { result.now ≡ held_by self.now }
    {
        self.held.as_slice()
    }
}

impl Sink for SureSink {
    ghost use Rattle.std.specs.Prelude.{Some, ◌≡◌, ◌++◌, min, length, take, IfOk, OnErr, IsErrOf};
    ghost use Rattle.gql_io.specs.Sure.{held_by, write_step};

    ghost held = { λ sink. Some (held_by sink) };

    ghost faults = { λ _. 0 };

    fn write(&mut self, bytes: &[u8]) -> Result<usize, SinkFault>
        ensures count { IfOk result (λ count. count ≡ min (write_step self.old) (length bytes.now)) }
        ensures taken { IfOk result
            (λ count. held_by self.new ≡ held_by self.old ++ take count bytes.now) }
        ensures refused { OnErr result (held_by self.new ≡ held_by self.old) }
        ensures memory { OnErr result (IsErrOf result SinkFault.NoMemory) }
        ensures step { write_step self.new ≡ write_step self.old }
    {
        let count = self.step.min(bytes.len());
        match self.held.extend_from_slice(&bytes[..count]) {
            Ok(()) => Ok(count),
            Err(_) => Err(SinkFault::NoMemory),
        }
    }
}
