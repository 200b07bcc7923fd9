//! Whole runs on inputs in memory, for tests. What a test looks at is made by functions beside it,
//! since a test is proved too.
use gql_base::{Items, Made};
use gql_cli::{SureSink, SureSource, TableMaker, run_alone};
use std::alloc::Global;

/// These words.
pub(crate) fn words_of(alloc: Global, words: &[&str]) -> Made<Vec<String>> {
    let mut all = Vec::new(alloc);
    for word in words {
        all.push(String::from_str(alloc, *word)?)?;
    }
    Ok(all)
}

/// Whether a run on these words and this input ends with this status and this text. A hundred
/// thousand bytes are given at once, and seven are taken.
pub(crate) fn ends_with(
    alloc: Global,
    words: &[&str],
    input: Items<u8>,
    status: u8,
    text: &str,
) -> Made<bool> {
    let words = words_of(alloc, words)?;
    let mut source = SureSource::new(input, 100_000);
    let mut sink = SureSink::new(alloc, 7);
    let mut tables = TableMaker::new();
    let ended = run_alone(alloc, words.as_slice(), &mut source, &mut sink, &mut tables);
    Ok(ended == status && sink.held() == text.as_bytes())
}
