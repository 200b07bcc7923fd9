//! The public types can be moved to threads and shared between them, where what they are made of
//! can.
use crate::{
    Failed, MemorySink, MemorySource, Reading, SinkFault, StdSink, StdSource, SureSink, SureSource,
};
use std::io::{Read, Write};

fn shared<T: Send + Sync>() {}

fn public_types<I: Read + Send + Sync, O: Write + Send + Sync>() {
    shared::<Failed>();
    shared::<MemorySink>();
    shared::<MemorySource>();
    shared::<Reading>();
    shared::<SinkFault>();
    shared::<StdSink<O>>();
    shared::<StdSource<I>>();
    shared::<SureSink>();
    shared::<SureSource>();
}
