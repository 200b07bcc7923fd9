//! Sources and sinks: each public call with ample memory. What a test looks at is made by functions beside it, since a
//! test is proved too.
use gql_base::{Items, Made};
use gql_io::{
    MemorySink, MemorySource, Reading, Source, StdSink, StdSource, SureSink, SureSource,
    read_whole, write_whole,
};
use std::alloc::Global;
use std::io::pipe;
use std::test::Fail;

/// Whether a source is read whole, and gives this text.
fn gives<I: Source>(alloc: Global, source: &mut I, text: &str) -> Made<bool> {
    match read_whole(alloc, source)? {
        Reading::Whole(bytes) => Ok(bytes.as_slice() == text.as_bytes()),
        Reading::TooLong | Reading::Failed => Ok(false),
    }
}

/// Whether six bytes are read, three at once, where the read of this number fails.
fn memory_gives(alloc: Global, failing: u64) -> Made<bool> {
    let bytes = Items::from_slice(alloc, b"source")?;
    let mut source = MemorySource::new(bytes, 3, Items::from_slice(alloc, &[failing])?);
    gives(alloc, &mut source, "source")
}

fn sure_memory_gives(alloc: Global) -> Made<bool> {
    let bytes = Items::from_slice(alloc, b"source")?;
    let mut source = SureSource::new(bytes, 5);
    gives(alloc, &mut source, "source")
}

#[test]
fn sources_in_memory(rt: HostRuntime) -> Result<(), Fail> {
    for failing in 0..3 {
        assert!(rt; !memory_gives(rt.alloc(), failing)?, "at {failing}");
    }
    assert!(rt; memory_gives(rt.alloc(), 3)?);
    assert!(rt; sure_memory_gives(rt.alloc())?);
    Ok(())
}

/// Whether a sink, two bytes at once, holds a text once another was written, where the write of
/// this number fails.
fn holds(alloc: Global, failing: u64, text: &str) -> Made<bool> {
    let mut sink = MemorySink::new(alloc, 2, Items::from_slice(alloc, &[failing])?);
    let written = write_whole(&mut sink, b"sink").is_ok();
    Ok(written == (text.len() == 4) && sink.held() == text.as_bytes())
}

fn holds_surely(alloc: Global) -> bool {
    let mut sink = SureSink::new(alloc, 3);
    write_whole(&mut sink, b"sink").is_ok() && sink.held() == b"sink".as_slice()
}

#[test]
fn sinks_in_memory(rt: HostRuntime) -> Result<(), Fail> {
    assert!(rt; holds(rt.alloc(), 0, "")?);
    assert!(rt; holds(rt.alloc(), 1, "si")?);
    assert!(rt; holds(rt.alloc(), 2, "sink")?);
    assert!(rt; holds_surely(rt.alloc()));
    Ok(())
}

#[test]
fn streams_of_std(rt: HostRuntime) -> Result<(), Fail> {
    let (input, output) = pipe(&rt)?;
    let mut sink = StdSink::new(output);
    assert!(rt; write_whole(&mut sink, b"stream").is_ok());
    drop(sink);
    let mut source = StdSource::new(input);
    assert!(rt; gives(rt.alloc(), &mut source, "stream")?);
    Ok(())
}
