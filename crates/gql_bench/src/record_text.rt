//! The lines that tell a record, and a text after them.
ghost use Rattle.std.specs.Prelude.{◌≡◌, ◌++◌, IfOk, OnOk, string_bytes};
ghost use Rattle.gql_bench.specs.RecordText.{entry_line, poll_word, record_lines};

use gql_base::{Made, Text};
use gql_resolve::RecordEntry;
use std::alloc::Global;

/// The lines of a record, and this text after them.
pub fn text_behind(alloc: Global, entries: &[RecordEntry], text: &Text) -> Made<Text>
    ensures { IfOk result (λ joined. joined ≡ record_lines entries.now ++ text.now) }
{
    let mut out = String::new(alloc);
    push_lines(&mut out, entries)?;
    out.push_str(text.as_str())?;
    Text::from_string(out)
}

/// Appends the lines of entries.
fn push_lines(out: &mut String, entries: &[RecordEntry]) -> Made<()>
    ensures { OnOk result (string_bytes out.new ≡ string_bytes out.old
        ++ record_lines entries.now) }
{
    for entry in entries {
        push_line(out, entry)?;
    }
    Ok(())
}

/// Appends the line of an entry.
fn push_line(out: &mut String, entry: &RecordEntry) -> Made<()>
    ensures { OnOk result (string_bytes out.new ≡ string_bytes out.old ++ entry_line entry.now) }
{
    let task = entry.task;
    let path = entry.path.as_str();
    let word = poll_text(entry.ready);
    writeln!(out, "{task} {path} {word}")
}

/// How a poll went.
fn poll_text(ready: bool) -> &'static str
    ensures { result.now ≡ poll_word ready }
{
    if ready { "ready" } else { "pending" }
}
