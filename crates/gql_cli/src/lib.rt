//! The program between the bytes of a bench and the printed text.
#![tactic(auto)]

mod answer;
mod bench_outcome;
mod bytes;
mod decision;
mod laws;
mod lines;
mod load;
mod outcome;
mod program;
mod shared;
mod status;

pub use gql_bench::{Bench, ListTurns, Rule, Table, TableMaker, Tables, bench_of};
pub use gql_form::{Command, EventForm, SessionForm};
pub use gql_io::{
    Failed, INPUT_LIMIT, MemorySink, MemorySource, Sink, SinkFault, Source, StdSink, StdSource,
    SureSink, SureSource,
};
pub use gql_resolve::RecordEntry;
pub use laws::{
    limit_of_the_input, one_record_of_a_scene, one_result_of_a_bench, one_result_of_a_load,
};
pub use outcome::Outcome;
pub use program::{run, run_alone};
pub use status::Status;
