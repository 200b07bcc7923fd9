ghost use Rattle.std.specs.Prelude.{◌≡◌, ◌==◌, ◌++◌, ◌∷◌, [], true, ◌<◌, ◌≤◌, ℕ, List, length};
ghost use Rattle.std.specs.Prelude.{take, IfOk, MatchOption, SomeIff};
ghost use Rattle.std.specs.Char.{digit_value, IsScalar};
ghost use Rattle.std.specs.List.{AllByRecursion, prefix_len};
ghost use Rattle.std.specs.Str.{chars};
ghost use Rattle.gql_tokens.specs.Characters.{quote, begins};
ghost use Rattle.gql_tokens.specs.String.{is_plain, escaped, hexadecimal_of};
ghost use Rattle.gql_tokens.specs.Parts.{IsEscape, NoString};
ghost use Rattle.gql_tokens.specs.Cut.{IsStringIn};

use crate::characters::{is_line_end, is_source};
use gql_base::{Made, Text};
use std::alloc::Global;

fn is_plain(b: u8) -> bool
    ensures { result ≡ is_plain b }
{
    is_source(b) && !is_line_end(b) && !(b == b'"' || b == b'\\')
}

/// How many bytes at the text's front stand for themselves.
fn plain_length(text: &[u8]) -> usize
    ensures exact { result ≡ prefix_len is_plain text.now }
    ensures within { result ≤ length text.now }
{
    text.iter().take_while(|b| is_plain(**b)).count()
}

fn begins_with_quote(text: &[u8]) -> bool
    ensures { result ≡ begins (λ c. c == quote) text.now }
{
    matches!(text, [b'"', ..])
}

/// What a character after a backslash stands for.
fn escaped(b: u8) -> Option<char>
    ensures { result ≡ escaped b }
{
    match b {
        b'"' | b'\\' | b'/' => Some(char::from(b)),
        b'b' => Some('\u{8}'),
        b'f' => Some('\u{c}'),
        b'n' => Some('\n'),
        b'r' => Some('\r'),
        b't' => Some('\t'),
        _ => None,
    }
}

/// The character whose number four hexadecimal digits write.
fn numbered(a: u8, b: u8, c: u8, d: u8) -> Option<char>
    ensures { SomeIff result
        (AllByRecursion (λ h. digit_value h < 16) (a ∷ b ∷ c ∷ d ∷ [])
        × IsScalar (hexadecimal_of (a ∷ b ∷ c ∷ d ∷ [])))
        (hexadecimal_of (a ∷ b ∷ c ∷ d ∷ [])) }
{
    let a = char::from(a).to_digit(16)?;
    let b = char::from(b).to_digit(16)?;
    let c = char::from(c).to_digit(16)?;
    let d = char::from(d).to_digit(16)?;
    char::from_u32(16 * (16 * (16 * a + b) + c) + d)
}

/// A character of a string, and how many bytes write it.
#[derive(Clone, Copy, Debug)]
struct Written {
    character: char,
    length: usize,
}

/// The escape at the text's front.
fn escape_at(text: &[u8]) -> Option<Written>
    ensures { MatchOption result
        ((v : ℕ) (cs rest : List ℕ) → text.now ≡ cs ++ rest → IsEscape v cs → ⊥)
        (λ found. (found.length ≤ length text.now) × (0 < found.length)
        × IsEscape found.character (take found.length text.now)) }
{
    match text {
        [b'\\', b'u', a, b, c, d, ..] => {
            let character = numbered(*a, *b, *c, *d)?;
            Some(Written {
                character,
                length: 6,
            })
        }
        [b'\\', b, ..] => {
            let character = escaped(*b)?;
            Some(Written {
                character,
                length: 2,
            })
        }
        _ => None,
    }
}

/// A string of a document: its value, and how many bytes spell it.
#[derive(Debug, Drop)]
pub struct Quoted {
    pub text: Text,
    pub length: usize,
}

/// The string at the front of a text that begins with a quote.
pub fn string_at(alloc: Global, text: &str) -> Made<Option<Quoted>>
    requires { begins (λ c. c == quote) text.now ≡ true }
    ensures { IfOk result
        (λ found. MatchOption found (NoString (chars text.now))
        (λ string. IsStringIn text.now string.text string.length)) }
{
    let bytes = text.as_bytes();
    let mut value = String::new(alloc);
    let mut at = 1;
    loop {
        let plain = plain_length(&bytes[at..]);
        value.push_str(&text[at..at + plain])?;
        at += plain;
        if begins_with_quote(&bytes[at..]) {
            return Ok(Some(Quoted {
                text: Text::from_string(value)?,
                length: at + 1,
            }));
        }
        match escape_at(&bytes[at..]) {
            Some(found) => {
                value.push(found.character)?;
                at += found.length;
            }
            None => return Ok(None),
        }
    }
}
