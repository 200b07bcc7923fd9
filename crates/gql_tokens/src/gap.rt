//! What is ignored between tokens.
ghost use Rattle.std.specs.Prelude.{◌≡◌, ◌+◌, ◌^◌, ◌<◌, ◌≤◌, ◌==◌, true, false, length};
ghost use Rattle.std.specs.Prelude.{MatchOption};
ghost use Rattle.std.specs.List.{prefix_len};
ghost use Rattle.std.specs.Str.{IsUtf8, chars};
ghost use Rattle.gql_tokens.specs.Characters.{hash, byte_order_mark, begins, is_ignored};
ghost use Rattle.gql_tokens.specs.Characters.{is_comment_character};
ghost use Rattle.gql_tokens.specs.Gap.{goes_on};
ghost use Rattle.gql_tokens.specs.Cut.{IsGapIn, IsIgnoredIn};

use crate::characters::{is_blank, is_comment_character, is_line_end};
use crate::place::{next_place, place_after};
use gql_base::Pos;

/// How many bytes at the front of a text are ignored, and the place after them.
#[derive(Clone, Copy, Debug)]
pub struct Gap {
    pub length: usize,
    pub place: Pos,
}

/// Whether a byte is a character that is ignored between tokens.
fn is_ignored(b: u8) -> bool
    ensures exact { result ≡ is_ignored b }
    ensures ascii { result ≡ true → b < 128 }
{
    is_blank(b) || is_line_end(b) || b == b','
}

/// Whether the byte order mark begins a text.
fn begins_mark(text: &[u8]) -> bool
    requires utf8 { IsUtf8 text.now }
    requires some { 0 < length text.now }
    ensures { result ≡ begins (λ c. c == byte_order_mark) (chars text.now) }
{
    if text[0] != 239 {
        return false;
    }
    text.starts_with(&[239, 187, 191])
}

/// How many bytes at the text's front may stand in a comment.
fn comment_length(text: &[u8]) -> usize
    ensures { result ≡ prefix_len is_comment_character text.now }
{
    text.iter()
        .take_while(|b| is_comment_character(**b))
        .count()
}

/// The comment at the front of a text, which begins with its `#`.
fn comment_at(place: Pos, text: &[u8]) -> Gap
    requires utf8 { IsUtf8 text.now }
    requires hash { begins (λ c. c == hash) text.now ≡ true }
    requires line { place.line + length text.now < 2 ^ 64 }
    requires column { place.column + length text.now < 2 ^ 64 }
    ensures some { 0 < result.length }
    ensures ignored { IsIgnoredIn place text.now result.length result.place }
{
    let length = comment_length(text);
    Gap {
        length,
        place: place_after(place, text, length),
    }
}

/// What is ignored first at the front of a text: one character, or a comment.
fn ignored_at(place: Pos, text: &[u8]) -> Option<Gap>
    requires utf8 { IsUtf8 text.now }
    requires line { place.line + length text.now < 2 ^ 64 }
    requires column { place.column + length text.now < 2 ^ 64 }
    ensures { MatchOption result (begins (goes_on false) (chars text.now) ≡ false)
        (λ gap. (0 < gap.length) × IsIgnoredIn place text.now gap.length gap.place) }
{
    if text.is_empty() {
        return None;
    }
    let b = text[0];
    if is_ignored(b) {
        Some(Gap {
            length: 1,
            place: next_place(place, b, &text[1..]),
        })
    } else if b == b'#' {
        Some(comment_at(place, text))
    } else if begins_mark(text) {
        Some(Gap {
            length: 3,
            place: Pos {
                line: place.line,
                column: place.column + 1,
            },
        })
    } else {
        None
    }
}

/// What is ignored at the front of a text that begins at a place.
pub fn gap_at(place: Pos, text: &[u8]) -> Gap
    requires utf8 { IsUtf8 text.now }
    requires line { place.line + length text.now < 2 ^ 64 }
    requires column { place.column + length text.now < 2 ^ 64 }
    ensures gap { IsGapIn place text.now result.length result.place }
    ensures line { result.place.line ≤ place.line + result.length }
    ensures column { result.place.column ≤ place.column + result.length }
{
    let mut gap = Gap { length: 0, place };
    while let Some(next) = ignored_at(gap.place, &text[gap.length..]) {
        gap = Gap {
            length: gap.length + next.length,
            place: next.place,
        };
    }
    gap
}
