//! Sources and sinks of bytes, with counts of their faults, and the reading and writing of whole
//! texts.
#![tactic(auto)]

mod memory;
mod reading;
mod shared;
mod sink;
mod source;
mod streams;
mod sure;
mod writing;

pub use memory::{MemorySink, MemorySource};
pub use reading::{INPUT_LIMIT, Reading, read_whole};
pub use sink::{Sink, SinkFault};
pub use source::{Failed, Source};
pub use streams::{StdSink, StdSource};
pub use sure::{SureSink, SureSource};
pub use writing::write_whole;
