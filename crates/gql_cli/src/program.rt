//! The program's top call.
ghost use Rattle.std.specs.Prelude.{◌≡◌, ◌⊎◌, map, string_bytes};
ghost use Rattle.std.specs.Io.KnownBytes.{Appends};
ghost use Rattle.gql_cli.specs.Gives.{HoldsTold};
ghost use Rattle.gql_cli.specs.Outcome.{due_status, due_text};
ghost use Rattle.gql_cli.specs.Run.{ends, HasRun, IsCutOff};
ghost use Rattle.gql_cli.specs.Status.{code_of};
ghost use Rattle.gql_io.specs.Counts.{HasRisen};
ghost use Rattle.gql_io.specs.Writing.{AppendsStart};

use crate::decision::decide;
use crate::outcome::Outcome;
use crate::status::Status;
use gql_bench::Tables;
use gql_io::{Sink, SinkFault, Source, write_whole};
use std::alloc::Global;

/// Runs the program on the words after its name. It reads its source whole, writes to its sink the
/// text that is due or the line of a fault, and answers the status.
pub fn run<R, I: Source, O: Sink, M: Tables>(
    _rt: &R,
    alloc: Global,
    words: &[String],
    source: &mut I,
    sink: &mut O,
    tables: &mut M,
) -> u8
    ensures { HasRun I.Source O.Sink (HoldsTold (M.held tables.new) M.Set.told)
        (map string_bytes words.now) (ends source.old sink.old) (ends source.new sink.new) result }
{
    run_alone(alloc, words, source, sink, tables)
}

/// Runs the program as `run` does, without a runtime.
pub fn run_alone<I: Source, O: Sink, M: Tables>(
    alloc: Global,
    words: &[String],
    source: &mut I,
    sink: &mut O,
    tables: &mut M,
) -> u8
    ensures { HasRun I.Source O.Sink (HoldsTold (M.held tables.new) M.Set.told)
        (map string_bytes words.now) (ends source.old sink.old) (ends source.new sink.new) result }
{
    match decide(alloc, words, source, tables) {
        Ok(due) => deliver(&due, sink).code(),
        Err(_) => Status::NoMemory.code(),
    }
}

/// Writes what is due.
fn deliver<O: Sink>(due: &Outcome, sink: &mut O) -> Status
    ensures whole { IsCutOff (code_of result)
        ⊎ ((code_of result ≡ due_status due.now)
        × Appends (O.held sink.old) (O.held sink.new) (due_text due.now)) }
    ensures start { IsCutOff (code_of result)
        → AppendsStart (O.held sink.old) (O.held sink.new) (due_text due.now) }
    ensures cause { code_of result ≡ 5 → HasRisen (O.faults sink.old) (O.faults sink.new) }
{
    match write_whole(sink, due.text().as_bytes()) {
        Ok(()) => due.status(),
        Err(SinkFault::Failed) => Status::WriteFault,
        Err(SinkFault::NoMemory) => Status::NoMemory,
    }
}
