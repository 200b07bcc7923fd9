//! Runs the program on the process's own words, input and output.
#![tactic(auto)]

use gql_base::Made;
use gql_cli::{Status, StdSink, StdSource, TableMaker, run};
use std::alloc::AllocError;
use std::env;
use std::io::ErrorKind;
use std::process::ExitCode;

fn main(rt: HostRuntime) -> ExitCode {
    let mut source = StdSource::new(rt.stdin());
    let mut sink = StdSink::new(rt.stdout());
    let mut tables = TableMaker::new();
    let status = match words(&rt) {
        Ok(words) => run(
            &rt,
            rt.alloc(),
            words.as_slice(),
            &mut source,
            &mut sink,
            &mut tables,
        ),
        Err(AllocError) => Status::NoMemory.code(),
    };
    ExitCode::from(status)
}

/// The words after the program's name. A word that is no text makes them no listed form, so then
/// there are none.
fn words(rt: &HostRuntime) -> Made<Vec<String>> {
    let mut words = Vec::new(rt.alloc());
    match env::args(rt) {
        Ok(all) => {
            for word in all.skip(1) {
                words.push(word)?;
            }
            Ok(words)
        }
        Err(error) if error.kind() == ErrorKind::InvalidData => Ok(words),
        Err(_) => Err(AllocError),
    }
}
