ghost use Rattle.std.specs.Prelude.{◌≡◌, ◌==◌, ◌+◌, ◌<◌, ◌≤◌, ◌^◌, ◌∷◌, [], List, ℕ, drop, true};
ghost use Rattle.std.specs.Prelude.{false, length, take, nat_eq, IfOk, OnOk, MatchOption};
ghost use Rattle.std.specs.List.{starts_with};
ghost use Rattle.std.specs.Str.{chars, IsUtf8};
ghost use Rattle.std.specs.Char.{is_ascii_digit};
ghost use Rattle.gql_tokens.specs.declared.token.Punctuator.{Punctuator as Mark};
ghost use Rattle.gql_tokens.specs.declared.token.Token.{Token as OneToken};
ghost use Rattle.gql_base.specs.Letters.{is_name_start};
ghost use Rattle.gql_tokens.specs.Characters.{quote, begins};
ghost use Rattle.gql_tokens.specs.Block.{three_quotes};
ghost use Rattle.gql_tokens.specs.Token.{characters_of, Spells, is_final};
ghost use Rattle.gql_tokens.specs.Lexer.{Lexes, EndFinally};
ghost use Rattle.gql_tokens.specs.Place.{place_after, text_start};
ghost use Rattle.gql_tokens.specs.Parts.{IsUnended, NoBlockEnds, begins_number};
ghost use Rattle.gql_tokens.specs.Cut.{IsCut, StandsIn, IsStepIn};

use crate::block::block_at;
use crate::characters::is_name_start;
use crate::gap::{Gap, gap_at};
use crate::name::name_length;
use crate::number::{number_of, numeral_at};
use crate::place::place_after;
use crate::string::string_at;
use crate::token::{Lexeme, Punctuator, Token};
use gql_base::{Items, Made, Pos, Text};
use std::alloc::Global;

/// What stands at a place: a token and how many bytes spell it, or how the tokens end.
#[derive(Drop)]
struct Reading {
    lexeme: Lexeme,
    length: usize,
}

fn name_at(alloc: Global, text: &str) -> Made<Reading>
    requires { begins is_name_start text.now ≡ true }
    ensures { IfOk result (λ reading. StandsIn reading.lexeme reading.length text.now) }
{
    let length = name_length(text.as_bytes());
    let name = Text::new(alloc, &text[..length])?;
    Ok(Reading {
        lexeme: Lexeme::Name(name),
        length,
    })
}

fn number_at(text: &[u8]) -> Reading
    requires utf8 { IsUtf8 text.now }
    requires first { begins begins_number text.now ≡ true }
    ensures { StandsIn result.lexeme result.length text.now }
{
    let Some(numeral) = numeral_at(text) else {
        return Reading {
            lexeme: Lexeme::Unexpected,
            length: 0,
        };
    };
    let length = numeral.integer + numeral.part;
    if numeral.part > 0 {
        return Reading {
            lexeme: Lexeme::Unsupported,
            length,
        };
    }
    match number_of(&text[..length]) {
        Some(number) => Reading {
            lexeme: Lexeme::Number(number),
            length,
        },
        None => Reading {
            lexeme: Lexeme::Unsupported,
            length,
        },
    }
}

/// The string at a quote that no other two follow.
fn string_token(alloc: Global, text: &str) -> Made<Reading>
    requires first { begins (λ c. c == quote) text.now ≡ true }
    requires plain { starts_with nat_eq text.now three_quotes ≡ false }
    ensures { IfOk result (λ reading. StandsIn reading.lexeme reading.length text.now) }
{
    let found = string_at(alloc, text)?;
    match found {
        Some(string) => Ok(Reading {
            lexeme: Lexeme::String(string.text),
            length: string.length,
        }),
        None => Ok(Reading {
            lexeme: Lexeme::Unexpected,
            length: 0,
        }),
    }
}

/// The empty string, for the first two of three quotes that begin no block string.
fn empty_string(alloc: Global) -> Reading
    ensures { (text : List ℕ) → IsUtf8 text → starts_with nat_eq text three_quotes ≡ true
        → IsUnended (drop 3 (chars text))
        → StandsIn result.lexeme result.length text }
{
    Reading {
        lexeme: Lexeme::String(Text::empty()),
        length: 2,
    }
}

/// The string at three quotes. `blocks_end` is false once a block string has no end: then none
/// after it has.
fn block_token(alloc: Global, text: &str, blocks_end: &mut bool) -> Made<Reading>
    requires first { starts_with nat_eq text.now three_quotes ≡ true }
    requires known { blocks_end.old ≡ false → NoBlockEnds (chars text.now) }
    ensures stands { IfOk result (λ reading. StandsIn reading.lexeme reading.length text.now) }
    ensures known { OnOk result (blocks_end.new ≡ false → NoBlockEnds (chars text.now)) }
{
    if !*blocks_end {
        return Ok(empty_string(alloc));
    }
    let found = block_at(alloc, text)?;
    match found {
        Some(block) => Ok(Reading {
            lexeme: Lexeme::String(block.text),
            length: block.length,
        }),
        None => {
            *blocks_end = false;
            Ok(empty_string(alloc))
        }
    }
}

/// The string at a quote.
fn quoted_at(alloc: Global, text: &str, blocks_end: &mut bool) -> Made<Reading>
    requires first { begins (λ c. c == quote) text.now ≡ true }
    requires known { blocks_end.old ≡ false → NoBlockEnds (chars text.now) }
    ensures stands { IfOk result (λ reading. StandsIn reading.lexeme reading.length text.now) }
    ensures known { OnOk result (blocks_end.new ≡ false → NoBlockEnds (chars text.now)) }
{
    if text.as_bytes().starts_with(b"\"\"\"") {
        block_token(alloc, text, blocks_end)
    } else {
        string_token(alloc, text)
    }
}

/// The punctuator that one byte spells.
fn punctuator_of(b: u8) -> Option<Punctuator>
    ensures { MatchOption result ((mark : Mark) → characters_of mark ≡ b ∷ [] → ⊥)
        (λ mark. characters_of mark ≡ b ∷ []) }
{
    match b {
        b'!' => Some(Punctuator::Bang),
        b'$' => Some(Punctuator::Dollar),
        b'&' => Some(Punctuator::Ampersand),
        b'(' => Some(Punctuator::OpenParen),
        b')' => Some(Punctuator::CloseParen),
        b':' => Some(Punctuator::Colon),
        b'=' => Some(Punctuator::Equals),
        b'@' => Some(Punctuator::At),
        b'[' => Some(Punctuator::OpenBracket),
        b']' => Some(Punctuator::CloseBracket),
        b'{' => Some(Punctuator::OpenBrace),
        b'|' => Some(Punctuator::Pipe),
        b'}' => Some(Punctuator::CloseBrace),
        _ => None,
    }
}

/// The punctuator at the front of a text that no other token begins.
fn punctuator_at(text: &[u8]) -> Reading
    requires utf8 { IsUtf8 text.now }
    requires some { 0 < length text.now }
    requires name { begins is_name_start text.now ≡ false }
    requires number { begins begins_number text.now ≡ false }
    requires string { begins (λ c. c == quote) text.now ≡ false }
    ensures { StandsIn result.lexeme result.length text.now }
{
    if let Some(punctuator) = punctuator_of(text[0]) {
        return Reading {
            lexeme: Lexeme::Punctuator(punctuator),
            length: 1,
        };
    }
    if text.starts_with(b"...") {
        Reading {
            lexeme: Lexeme::Punctuator(Punctuator::Spread),
            length: 3,
        }
    } else {
        Reading {
            lexeme: Lexeme::Unexpected,
            length: 0,
        }
    }
}

fn begins_number(b: u8) -> bool
    ensures { result ≡ begins_number b }
{
    b.is_ascii_digit() || b == b'-'
}

/// What stands at the text's front, where nothing is ignored.
fn token_at(alloc: Global, text: &str, blocks_end: &mut bool) -> Made<Reading>
    requires { blocks_end.old ≡ false → NoBlockEnds (chars text.now) }
    ensures stands { IfOk result (λ reading. StandsIn reading.lexeme reading.length text.now) }
    ensures known { OnOk result (blocks_end.new ≡ false → NoBlockEnds (chars text.now)) }
{
    let bytes = text.as_bytes();
    let Some(b) = bytes.first() else {
        return Ok(Reading {
            lexeme: Lexeme::End,
            length: 0,
        });
    };
    if is_name_start(*b) {
        name_at(alloc, text)
    } else if begins_number(*b) {
        Ok(number_at(bytes))
    } else if *b == b'"' {
        quoted_at(alloc, text, blocks_end)
    } else {
        Ok(punctuator_at(bytes))
    }
}

/// Whether a list of tokens ends in a token that says this.
pub fn is_final(lexeme: &Lexeme) -> bool
    ensures { result ≡ is_final lexeme.now }
{
    matches!(
        lexeme,
        Lexeme::End | Lexeme::Unexpected | Lexeme::Unsupported
    )
}

/// The place after a token of so many bytes. No line ends in a punctuator, a name or a number, and
/// each of their characters is one byte.
fn place_behind(pos: Pos, lexeme: &Lexeme, text: &[u8], count: usize) -> Pos
    requires utf8 { IsUtf8 text.now }
    requires within { count ≤ length text.now }
    requires line { pos.line + count < 2 ^ 64 }
    requires column { pos.column + count < 2 ^ 64 }
    ensures exact { (n : ℕ) → IsCut text.now count n
        → Spells lexeme.now (take n (chars text.now))
        → result ≡ place_after pos (take n (chars text.now)) (drop n (chars text.now)) }
    ensures line { result.line ≤ pos.line + count }
    ensures column { result.column ≤ pos.column + count }
{
    match lexeme {
        Lexeme::Punctuator(_) | Lexeme::Name(_) | Lexeme::Number(_) => Pos {
            line: pos.line,
            column: pos.column + count,
        },
        _ => place_after(pos, text, count),
    }
}

/// A token, how many bytes far it and what is ignored before it reach, and the place after it.
#[derive(Drop)]
pub struct Step {
    pub token: Token,
    pub length: usize,
    pub place: Pos,
}

/// The first token of a text that begins at a place.
pub fn step_at(alloc: Global, place: Pos, text: &str, blocks_end: &mut bool) -> Made<Step>
    requires line { place.line + length text.now < 2 ^ 64 }
    requires column { place.column + length text.now < 2 ^ 64 }
    requires known { blocks_end.old ≡ false → NoBlockEnds (chars text.now) }
    ensures stands { IfOk result
        (λ step. IsStepIn place text.now step.token step.length step.place) }
    ensures known { IfOk result
        (λ step. blocks_end.new ≡ false → NoBlockEnds (chars (drop step.length text.now))) }
{
    let Gap {
        length: gap,
        place: pos,
    } = gap_at(place, text.as_bytes());
    let behind = &text[gap..];
    let Reading { lexeme, length } = token_at(alloc, behind, blocks_end)?;
    if is_final(&lexeme) {
        return Ok(Step {
            token: Token { lexeme, pos },
            length: gap,
            place: pos,
        });
    }
    let place = place_behind(pos, &lexeme, behind.as_bytes(), length);
    Ok(Step {
        token: Token { lexeme, pos },
        length: gap + length,
        place,
    })
}

/// The tokens of a text, each with the place of its first character. The last one says how they
/// end: at the end of the text, where no token begins, or at a number that isn't supported.
pub fn tokens_of(alloc: Global, text: &str) -> Made<Items<Token>>
    ensures exact { IfOk result (λ tokens. Lexes text_start (chars text.now) tokens) }
    ensures ends { IfOk result EndFinally }
{
    let mut tokens = Items::new(alloc);
    let mut place = Pos { line: 1, column: 1 };
    let mut at = 0;
    let mut blocks_end = true;
    loop {
        let step = step_at(alloc, place, &text[at..], &mut blocks_end)?;
        let last = is_final(&step.token.lexeme);
        place = step.place;
        at += step.length;
        tokens.push(step.token)?;
        if last {
            return Ok(tokens);
        }
    }
}

/// A text has one list of tokens.
pub fn one_token_list()
    ensures { (text : List ℕ) (tokens others : List OneToken) → Lexes text_start text tokens
        → Lexes text_start text others
        → tokens ≡ others }
{}
