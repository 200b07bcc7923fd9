//! The lines that a run writes.
ghost use Rattle.std.specs.Prelude.{◌≡◌, ◌++◌, IfOk, length};
ghost use Rattle.gql_cli.specs.Gives.{response_line};
ghost use Rattle.gql_cli.specs.Load.{load_line};
ghost use Rattle.gql_cli.specs.Outcome.{line};
ghost use Rattle.gql_request.specs.BatchResponse.{batch_json};

use gql_base::{JsonText, Made, Text};
use gql_request::BatchResponse;
use gql_resolve::RecordEntry;
use std::alloc::Global;

/// The line of a text after these words.
pub(crate) fn line_after(alloc: Global, words: &str, text: &str) -> Made<Text>
    ensures { IfOk result (λ made. made ≡ words.now ++ line text.now) }
{
    let mut out = String::from_str(alloc, words)?;
    out.push_str(text)?;
    out.push_str("\n")?;
    Text::from_string(out)
}

/// The line of a response, or of those to a batch.
pub(crate) fn line_of(alloc: Global, response: &BatchResponse) -> Made<Text>
    ensures { IfOk result (λ text. text ≡ response_line response.now) }
{
    let mut out = String::new(alloc);
    response.push_text(&mut out)?;
    out.push_str("\n")?;
    Text::from_string(out)
}

/// The line of a load: how many rows there are, how many entries its record has, and how many bytes
/// the JSON of its response.
pub(crate) fn load_line(
    alloc: Global,
    rows: usize,
    entries: &[RecordEntry],
    response: &BatchResponse,
) -> Made<Text>
    ensures { IfOk result (λ text. text ≡ load_line rows entries.now response.now) }
{
    let polls = entries.len();
    let bytes = json_len(alloc, response)?;
    Text::from_string(format!(in alloc; "rows {rows} polls {polls} bytes {bytes}\n")?)
}

/// The number of bytes of the JSON of a response, or of those to a batch.
fn json_len(alloc: Global, response: &BatchResponse) -> Made<usize>
    ensures { IfOk result (λ bytes. bytes ≡ length (batch_json response.now)) }
{
    let mut out = String::new(alloc);
    response.push_text(&mut out)?;
    Ok(out.len())
}
