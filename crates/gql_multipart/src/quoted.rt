ghost use Rattle.std.specs.Prelude.{◌≡◌, ◌<◌, ◌≤◌, List, ℕ, [], ◌∷◌, None, Some, MatchOption, IfSome};
ghost use Rattle.std.specs.Prelude.{false, length};
ghost use Rattle.std.specs.Str.{bytes_eq};
ghost use Rattle.gql_multipart.specs.Quoted.{closing, ends, escapes, said, string_at, value_at};

use crate::token::token_at;

/// True exactly for a quote that ends a quoted string.
fn ends(escaped: bool, c: u8) -> bool
    ensures { result ≡ ends escaped c }
{
    !escaped && c == b'"'
}

/// True exactly for a backslash that escapes the character after it.
fn escapes(escaped: bool, c: u8) -> bool
    ensures { result ≡ escapes escaped c }
{
    !escaped && c == b'\\'
}

/// The place of the quote that ends a quoted string, counted from behind the one that begins it.
#[tactic(auto, using(crate::proofs::ReadingLemmas::closing_here))]
fn closing(text: &[u8]) -> Option<usize>
    ensures value { result ≡ closing false text.now }
    ensures within { IfSome result (λ place. place < length text.now) }
{
    let mut escaped = false;
    for (place, c) in text.iter().enumerate() {
        if ends(escaped, *c) {
            return Some(place);
        }
        escaped = escapes(escaped, *c);
    }
    None
}

/// The quoted string whose first quote stands before the text, and what is after it.
fn string_at(text: &[u8]) -> Option<(&[u8], &[u8])>
    ensures value { MatchOption result (string_at text.now ≡ None)
        (λ found. string_at text.now ≡ Some (said found.0.now, found.1.now)) }
    ensures within { IfSome result (λ found. length found.1.now ≤ length text.now) }
{
    let end = closing(text)?;
    Some((&text[..end], &text[end + 1..]))
}

/// The value that the text begins with, with the backslashes in it, and what is after it.
#[tactic(auto, using(crate::proofs::ReadingLemmas::token_value))]
pub fn value_at(text: &[u8]) -> Option<(&[u8], &[u8])>
    ensures value { MatchOption result (value_at text.now ≡ None)
        (λ found. value_at text.now ≡ Some (said found.0.now, found.1.now)) }
    ensures within { IfSome result (λ found. length found.1.now ≤ length text.now) }
{
    match text {
        [b'"', quoted @ ..] => string_at(quoted),
        _ => token_at(text),
    }
}

/// The first character that a value says, and what stands after it.
pub fn character_at(value: &[u8]) -> Option<(u8, &[u8])>
    ensures { MatchOption result (said value.now ≡ [])
        (λ found. said value.now ≡ found.0 ∷ said found.1.now) }
{
    let bare = match value {
        [b'\\', escaped @ ..] => escaped,
        _ => value,
    };
    let (c, more) = bare.split_first()?;
    Some((*c, more))
}

/// What stands after a character, where the value says it first.
#[tactic(auto, using(crate::proofs::ReadingLemmas::beginning))]
fn past(value: &[u8], wanted: u8) -> Option<&[u8]>
    ensures { MatchOption result
        ((more : List ℕ) → bytes_eq (said value.now) (wanted ∷ more) ≡ false)
        (λ rest. (more : List ℕ)
        → bytes_eq (said value.now) (wanted ∷ more) ≡ bytes_eq (said rest.now) more) }
{
    match character_at(value) {
        Some((c, rest)) => { if c == wanted { Some(rest) } else { None } }
        None => None,
    }
}

/// True exactly where the value says this text.
pub fn says(value: &[u8], text: &[u8]) -> bool
    ensures { result ≡ bytes_eq (said value.now) text.now }
{
    let mut rest = value;
    for wanted in text {
        let Some(more) = past(rest, *wanted) else {
            return false;
        };
        rest = more;
    }
    character_at(rest).is_none()
}
