ghost use Rattle.std.specs.Prelude.{◌≡◌, ◌≤◌, ◌<◌, ℕ, Some, None, MatchOption, IfSome};
ghost use Rattle.gql_multipart.specs.Quality.{decimals, fraction, quality, thousandths, whole};
ghost use Rattle.gql_multipart.specs.Quality.{DigitThen};
ghost use Rattle.gql_multipart.specs.Quoted.{said};

use crate::quoted::character_at;

/// The thousandths of `0` or `1`.
fn whole(c: u8) -> Option<u16>
    ensures value { result ≡ whole c }
    ensures within { IfSome result (λ units. units ≤ 1000) }
{
    match c {
        b'0' => Some(0),
        b'1' => Some(1000),
        _ => None,
    }
}

/// The digit that a value says first, and what stands after it. Nothing says a zero.
#[tactic(auto, using(crate::proofs::QualityLemmas::one_digit))]
fn digit_at(value: &[u8]) -> Option<(u16, &[u8])>
    ensures value { MatchOption result ((weight : ℕ) → decimals weight (said value.now) ≡ None)
        (λ found. DigitThen (said value.now) found.0 (said found.1.now)) }
    ensures within { IfSome result (λ found. found.0 < 10) }
{
    let Some((c, more)) = character_at(value) else {
        return Some((0, value));
    };
    if c.is_ascii_digit() {
        Some((u16::from(c - b'0'), more))
    } else {
        None
    }
}

/// The thousandths of at most three digits.
#[tactic(auto, using(crate::proofs::QualityLemmas::digits))]
fn decimals(value: &[u8]) -> Option<u16>
    ensures value { result ≡ decimals 100 (said value.now) }
    ensures within { IfSome result (λ part. part < 1000) }
{
    let (tenths, more) = digit_at(value)?;
    let (hundredths, more) = digit_at(more)?;
    let (thousandths, more) = digit_at(more)?;
    match character_at(more) {
        None => Some(100 * tenths + 10 * hundredths + thousandths),
        Some(_) => None,
    }
}

/// The thousandths of a point and digits, or of nothing.
fn fraction(value: &[u8]) -> Option<u16>
    ensures value { result ≡ fraction (said value.now) }
    ensures within { IfSome result (λ part. part < 1000) }
{
    let Some((c, more)) = character_at(value) else {
        return Some(0);
    };
    if c == b'.' { decimals(more) } else { None }
}

/// The thousandths that a value spells.
#[tactic(auto, unfolding(crate::specs::Quality::thousandths))]
fn thousandths(value: &[u8]) -> Option<u16>
    ensures { result ≡ thousandths (said value.now) }
{
    let (c, more) = character_at(value)?;
    let total = whole(c)? + fraction(more)?;
    if total <= 1000 { Some(total) } else { None }
}

/// The quality of a value.
pub fn quality(value: &[u8]) -> u16
    ensures { result ≡ quality (said value.now) }
{
    thousandths(value).unwrap_or(1000)
}
