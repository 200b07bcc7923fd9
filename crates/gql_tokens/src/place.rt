ghost use Rattle.std.specs.Prelude.{◌≡◌, ◌+◌, ◌^◌, ◌<◌, ◌≤◌, length, take, drop, ℕ};
ghost use Rattle.std.specs.Str.{IsUtf8, chars};
ghost use Rattle.gql_tokens.specs.Place.{place_after};
ghost use Rattle.gql_tokens.specs.BytePlace.{goes_on_with, byte_place};
ghost use Rattle.gql_tokens.specs.Cut.{IsCut};

use gql_base::Pos;

/// Whether a byte goes on with a character that another byte begins.
fn goes_on_with(b: u8) -> bool
    ensures { result ≡ goes_on_with b }
{
    b >= 128 && b < 192
}

/// The place after the byte `b`, which `more` follows.
pub fn next_place(place: Pos, b: u8, more: &[u8]) -> Pos
    requires line { place.line + 1 < 2 ^ 64 }
    requires column { place.column + 1 < 2 ^ 64 }
    ensures exact { result ≡ byte_place place b more.now }
    ensures line { result.line ≤ place.line + 1 }
    ensures column { result.column ≤ place.column + 1 }
{
    let ends_line = match b {
        b'\n' => true,
        b'\r' => more.first() != Some(&b'\n'),
        _ => false,
    };
    if ends_line {
        Pos {
            line: place.line + 1,
            column: 1,
        }
    } else if goes_on_with(b) {
        place
    } else {
        Pos {
            line: place.line,
            column: place.column + 1,
        }
    }
}

/// The place after the first `count` bytes of a text that begins at `place`. A column is one
/// character: bytes that go on with one aren't counted.
pub fn place_after(place: Pos, text: &[u8], count: usize) -> Pos
    requires utf8 { IsUtf8 text.now }
    requires within { count ≤ length text.now }
    requires line { place.line + count < 2 ^ 64 }
    requires column { place.column + count < 2 ^ 64 }
    ensures exact { (n : ℕ) → IsCut text.now count n
        → result ≡ place_after place (take n (chars text.now)) (drop n (chars text.now)) }
    ensures line { result.line ≤ place.line + count }
    ensures column { result.column ≤ place.column + count }
{
    let mut here = place;
    for at in 0..count {
        here = next_place(here, text[at], &text[at + 1..]);
    }
    here
}
