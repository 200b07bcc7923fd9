//! A status and a text on one line.
use gql_base::Made;
use std::alloc::Global;
use std::str;

/// A status and the text that was written, on one line.
pub(crate) fn shown(alloc: Global, status: u8, written: &[u8]) -> Made<String> {
    let text = str::from_utf8(written).unwrap_or("(no UTF-8)");
    let line = one_line(alloc, text)?;
    format!(in alloc; "{status} {line}")
}

/// A text on one line, without its last line end. A line end within it is shown as a sign between blanks,
/// and the lack of one at its end is told.
fn one_line(alloc: Global, text: &str) -> Made<String> {
    match text.strip_suffix('\n') {
        Some(lines) => lines.replace(alloc, '\n', " ⏎ "),
        None => format!(in alloc; "{text} (no line end)"),
    }
}
