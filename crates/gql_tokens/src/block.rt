ghost use Rattle.std.specs.Prelude.{◌≡◌, ◌==◌, ◌+◌, true, false, ◌<◌, ◌≤◌};
ghost use Rattle.std.specs.Prelude.{nat_eq, length, drop, IfOk, MatchOption, string_bytes};
ghost use Rattle.std.specs.List.{starts_with, prefix_len};
ghost use Rattle.std.specs.Str.{chars};
ghost use Rattle.gql_tokens.specs.Characters.{begins};
ghost use Rattle.gql_tokens.specs.Block.{three_quotes};
ghost use Rattle.gql_tokens.specs.Parts.{is_bare, IsUnended, IsPieceAt};
ghost use Rattle.gql_tokens.specs.Cut.{IsBodyIn, IsBlockIn};

use crate::characters::is_source;
use crate::lines::block_value;
use crate::string::Quoted;
use gql_base::Made;
use std::alloc::Global;

fn is_bare(b: u8) -> bool
    ensures { result ≡ is_bare b }
{
    is_source(b) && !(b == b'"' || b == b'\\')
}

/// How many bytes at the text's front stand for themselves, whatever follows them.
fn bare_length(text: &[u8]) -> usize
    ensures exact { result ≡ prefix_len is_bare text.now }
    ensures within { result ≤ length text.now }
{
    text.iter().take_while(|b| is_bare(**b)).count()
}

/// What stands at a place in a block string.
enum Found {
    /// The quotes that end it.
    End,
    /// Quotes that a backslash escapes.
    Quotes,
    /// A quote or a backslash as itself.
    Itself(char),
    /// The end of the text, or a character that may not stand in one.
    Nothing,
}

fn found_at(text: &[u8]) -> Found
    requires { begins is_bare text.now ≡ false }
    ensures { IsPieceAt text.now result }
{
    if text.starts_with(b"\"\"\"") {
        Found::End
    } else if text.starts_with(b"\\\"\"\"") {
        Found::Quotes
    } else {
        match text {
            [b'"', ..] => Found::Itself('"'),
            [b'\\', ..] => Found::Itself('\\'),
            _ => Found::Nothing,
        }
    }
}

/// What stands between the quotes of a block string, and how many bytes spell it with its quotes.
#[derive(Drop)]
struct Body {
    raw: String,
    length: usize,
}

/// The block string at the front of a text that begins with three quotes. None where it has no end.
fn body_at(alloc: Global, text: &str) -> Made<Option<Body>>
    requires { starts_with nat_eq text.now three_quotes ≡ true }
    ensures { IfOk result
        (λ found. MatchOption found (IsUnended (drop 3 (chars text.now)))
        (λ body. IsBodyIn text.now (string_bytes body.raw) body.length)) }
{
    let bytes = text.as_bytes();
    let mut raw = String::new(alloc);
    let mut at = 3;
    loop {
        let bare = bare_length(&bytes[at..]);
        raw.push_str(&text[at..at + bare])?;
        at += bare;
        match found_at(&bytes[at..]) {
            Found::End => {
                return Ok(Some(Body {
                    raw,
                    length: at + 3,
                }));
            }
            Found::Quotes => {
                raw.push_str("\"\"\"")?;
                at += 4;
            }
            Found::Itself(c) => {
                raw.push(c)?;
                at += 1;
            }
            Found::Nothing => return Ok(None),
        }
    }
}

/// The block string at the front of a text that begins with three quotes. None where it has no end.
pub fn block_at(alloc: Global, text: &str) -> Made<Option<Quoted>>
    requires { starts_with nat_eq text.now three_quotes ≡ true }
    ensures { IfOk result
        (λ found. MatchOption found (IsUnended (drop 3 (chars text.now)))
        (λ block. IsBlockIn text.now block.text block.length)) }
{
    match body_at(alloc, text)? {
        Some(body) => {
            let text = block_value(alloc, &body.raw)?;
            Ok(Some(Quoted {
                text,
                length: body.length,
            }))
        }
        None => Ok(None),
    }
}
