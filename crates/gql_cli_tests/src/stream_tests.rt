//! Sources and sinks that fail in mid-stream, and pipes.
use crate::runs::words_of;
use gql_base::{Items, Made};
use gql_cli::{MemorySink, MemorySource, StdSink, StdSource, TableMaker, run, run_alone};
use std::alloc::Global;
use std::io::{Read, Write, pipe};
use std::test::Fail;

/// Whether a run ends with this status, and its sink holds this, whose reads and writes of these
/// numbers fail.
fn faults_end_with(
    alloc: Global,
    failing_read: u64,
    failing_write: u64,
    status: u8,
    held: &str,
) -> Made<bool> {
    let bytes = Items::from_slice(alloc, b"{\"schema\":1}")?;
    let mut source = MemorySource::new(bytes, 5, Items::from_slice(alloc, &[failing_read])?);
    let mut sink = MemorySink::new(alloc, 3, Items::from_slice(alloc, &[failing_write])?);
    let words = words_of(alloc, &["execute"])?;
    let mut tables = TableMaker::new();
    let ended = run_alone(alloc, words.as_slice(), &mut source, &mut sink, &mut tables);
    Ok(ended == status && sink.held() == held.as_bytes())
}

/// Whether each row ends so.
fn all_end_with(alloc: Global, rows: &[(u64, u64, u8, &str)]) -> Made<bool> {
    for (read, write, status, held) in rows {
        if !faults_end_with(alloc, *read, *write, *status, *held)? {
            return Ok(false);
        }
    }
    Ok(true)
}

#[test]
fn faults_in_mid_stream(rt: HostRuntime) -> Result<(), Fail> {
    assert!(rt;
        all_end_with(
            rt.alloc(),
            &[
                (99, 99, 3, "bench: bad shape at schema\n"),
                (2, 99, 4, "input: read fault\n"),
                (99, 2, 5, "bench:"),
                (2, 1, 5, "inp"),
            ]
        )?
    );
    Ok(())
}

#[test]
fn through_pipes(rt: HostRuntime) -> Result<(), Fail> {
    let (input, mut bench) = pipe(&rt)?;
    let (mut written, output) = pipe(&rt)?;
    bench.write_all(b"{\"schema\":1}")?;
    drop(bench);
    let words = words_of(rt.alloc(), &["execute"])?;
    let mut source = StdSource::new(input);
    let mut sink = StdSink::new(output);
    let mut tables = TableMaker::new();
    let status = run(
        &rt,
        rt.alloc(),
        words.as_slice(),
        &mut source,
        &mut sink,
        &mut tables,
    );
    drop(sink);
    let mut text = Vec::new(rt.alloc());
    written.read_to_end(&mut text)?;
    assert_eq!(rt; status, 3);
    assert_eq!(rt; text.as_slice(), b"bench: bad shape at schema\n".as_slice());
    Ok(())
}
