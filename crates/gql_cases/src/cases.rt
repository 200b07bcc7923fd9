//! A line of the input, and what comes of it.
ghost use Rattle.std.specs.Prelude.{◌≡◌, [], true, IfOk, string_bytes};
ghost use Rattle.gql_cases.specs.Cases.{is_heading};

use crate::shown::shown;
use gql_base::{Items, Made};
use gql_cli::{SureSink, SureSource, TableMaker, run_alone};
use std::alloc::Global;

/// The line that is printed for a line of the input: a heading or an empty line as it is, and for
/// a case what comes of it. A case is the words of the program and, after a tab, its input, which
/// is empty without one.
pub(crate) fn answer_to(alloc: Global, line: &str) -> Made<String>
    ensures heading { IfOk result
        (λ answer. is_heading line.now ≡ true → string_bytes answer ≡ line.now) }
{
    if begins_no_case(line) {
        return String::from_str(alloc, line);
    }
    let (words, input) = line.split_once('\t').unwrap_or((line, ""));
    outcome_of(alloc, words, input)
}

/// Whether a line is no case: it is empty, or begins with `#`.
fn begins_no_case(line: &str) -> bool
    ensures { result ≡ is_heading line.now }
{
    match line.as_bytes() {
        [] => true,
        [first, ..] => *first == b'#',
    }
}

/// What comes of a run on these words and this input. A hundred bytes are read and 64 are written
/// at once.
fn outcome_of(alloc: Global, words: &str, input: &str) -> Made<String> {
    let words = words_of(alloc, words)?;
    let bytes = Items::from_slice(alloc, input.as_bytes())?;
    let mut source = SureSource::new(bytes, 100);
    let mut sink = SureSink::new(alloc, 64);
    let mut tables = TableMaker::new();
    let status = run_alone(alloc, words.as_slice(), &mut source, &mut sink, &mut tables);
    shown(alloc, status, sink.held())
}

/// The words of a text, which single blanks part. The empty text has none.
fn words_of(alloc: Global, text: &str) -> Made<Vec<String>>
    ensures empty { IfOk result (λ words. text.now ≡ [] → words.items ≡ []) }
{
    let mut words = Vec::new(alloc);
    if text.is_empty() {
        return Ok(words);
    }
    for word in text.split(' ') {
        words.push(String::from_str(alloc, word)?)?;
    }
    Ok(words)
}
