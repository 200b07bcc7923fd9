ghost use Rattle.std.specs.Prelude.{◌≡◌, ◌+◌, ◌*◌, ◌-◌, ◌^◌, ◌<◌, ◌≤◌, false, length, None};
ghost use Rattle.std.specs.Prelude.{SomeIff, MatchOption, take, drop};
ghost use Rattle.std.specs.List.{prefix_len};
ghost use Rattle.std.specs.Char.{is_ascii_digit};
ghost use Rattle.gql_tokens.specs.Characters.{begins};
ghost use Rattle.gql_tokens.specs.Number.{Optional, IsDigits, IsWhole, IsInteger, IsFraction};
ghost use Rattle.gql_tokens.specs.Number.{IsPower, IsExponent, IsFloatPart, IsSupported};
ghost use Rattle.gql_tokens.specs.Number.{natural_of, integer_of, begins_exponent};
ghost use Rattle.gql_tokens.specs.Number.{is_bad_after_number};
ghost use Rattle.gql_tokens.specs.Parts.{OnlyFront, IsNumeral, IsNumeralAt, is_bad_after_fraction};

use crate::characters::is_name_start;
use gql_base::Number;

/// How many digits the text begins with.
fn digits_length(text: &[u8]) -> usize
    ensures { result ≡ prefix_len is_ascii_digit text.now }
{
    text.iter().take_while(|c| c.is_ascii_digit()).count()
}

/// The length of one digit or more at the text's front.
fn some_digits_length(text: &[u8]) -> Option<usize>
    ensures { OnlyFront IsDigits is_ascii_digit text.now result }
{
    match digits_length(text) {
        0 => None,
        count => Some(count),
    }
}

/// The length of `0`, or of digits that don't begin with `0`, at the text's front.
fn whole_length(text: &[u8]) -> Option<usize>
    ensures { OnlyFront IsWhole is_ascii_digit text.now result }
{
    match text {
        [b'0', more @ ..] => {
            if digits_length(more) == 0 {
                Some(1)
            } else {
                None
            }
        }
        _ => some_digits_length(text),
    }
}

/// The length of an integer at the text's front.
fn integer_length(text: &[u8]) -> Option<usize>
    ensures { OnlyFront IsInteger is_ascii_digit text.now result }
{
    match text {
        [b'-', digits @ ..] => Some(1 + whole_length(digits)?),
        _ => whole_length(text),
    }
}

/// The length of an optional fraction at the text's front.
fn fraction_length(text: &[u8]) -> Option<usize>
    ensures { OnlyFront (Optional IsFraction) is_bad_after_fraction text.now result }
{
    match text {
        [b'.', digits @ ..] => Some(1 + some_digits_length(digits)?),
        _ => Some(0),
    }
}

/// The length of an optional sign and digits at the text's front.
fn power_length(text: &[u8]) -> Option<usize>
    ensures { OnlyFront IsPower is_ascii_digit text.now result }
{
    match text {
        [b'+' | b'-', digits @ ..] => Some(1 + some_digits_length(digits)?),
        _ => some_digits_length(text),
    }
}

fn begins_exponent(c: u8) -> bool
    ensures { result ≡ begins_exponent c }
{
    c == b'e' || c == b'E'
}

/// The length of an optional exponent at the text's front.
fn exponent_length(text: &[u8]) -> Option<usize>
    ensures { OnlyFront (Optional IsExponent) is_bad_after_number text.now result }
{
    match text {
        [e, power @ ..] if begins_exponent(*e) => Some(1 + power_length(power)?),
        _ => Some(0),
    }
}

/// The length of an optional fraction and an optional exponent at the text's front.
fn float_part_length(text: &[u8]) -> Option<usize>
    ensures { OnlyFront IsFloatPart is_bad_after_number text.now result }
{
    let fraction = fraction_length(text)?;
    let exponent = exponent_length(&text[fraction..])?;
    Some(fraction + exponent)
}

fn is_bad_after_number(c: u8) -> bool
    ensures { result ≡ is_bad_after_number c }
{
    c.is_ascii_digit() || c == b'.' || is_name_start(c)
}

/// A number at the front of a text: how long its integer is, and the fraction and the exponent
/// after it.
#[derive(Clone, Copy, Debug)]
pub struct Numeral {
    pub integer: usize,
    pub part: usize,
}

/// The number at the text's front, with nothing after it that may not follow a number.
pub fn numeral_at(text: &[u8]) -> Option<Numeral>
    ensures { MatchOption result (OnlyFront IsNumeral is_bad_after_number text.now None)
        (λ numeral. IsNumeralAt text.now numeral.integer numeral.part) }
{
    let integer = integer_length(text)?;
    let part = float_part_length(&text[integer..])?;
    match text.get(integer + part) {
        Some(c) if is_bad_after_number(*c) => None,
        _ => Some(Numeral { integer, part }),
    }
}

/// The number with one more digit, where it is below 2^64.
fn with_digit(number: u64, digit: u8) -> Option<u64>
    ensures { SomeIff result (10 * number + (digit - 48) < 2 ^ 64) (10 * number + (digit - 48)) }
{
    let value = u64::from(digit.saturating_sub(48));
    number.checked_mul(10)?.checked_add(value)
}

/// The number that digits write, where it is below 2^64.
fn natural_of(digits: &[u8]) -> Option<u64>
    ensures { SomeIff result (natural_of digits.now < 2 ^ 64) (natural_of digits.now) }
{
    let mut number = 0;
    for digit in digits {
        number = with_digit(number, *digit)?;
    }
    Some(number)
}

/// The number that an integer's characters write, where it is supported.
pub fn number_of(integer: &[u8]) -> Option<Number>
    ensures { SomeIff result (IsSupported (integer_of integer.now)) (integer_of integer.now) }
{
    match integer {
        [b'-', digits @ ..] => {
            let magnitude = natural_of(digits)?;
            let value = i64::try_from(-i128::from(magnitude)).ok()?;
            Some(Number::from_i64(value))
        }
        _ => Some(Number::from_u64(natural_of(integer)?)),
    }
}
