//! The tokens of texts, and the values of block strings.
use gql_base::{Made, Number, Pos};
use gql_tokens::{Lexeme, Punctuator, Reached, Token, is_final, next_token, tokens_of};
use std::alloc::Global;
use std::test::Fail;

/// A punctuator as it is written.
fn mark(punctuator: Punctuator) -> &'static str {
    match punctuator {
        Punctuator::Bang => "!",
        Punctuator::Dollar => "$",
        Punctuator::Ampersand => "&",
        Punctuator::OpenParen => "(",
        Punctuator::CloseParen => ")",
        Punctuator::Spread => "...",
        Punctuator::Colon => ":",
        Punctuator::Equals => "=",
        Punctuator::At => "@",
        Punctuator::OpenBracket => "[",
        Punctuator::CloseBracket => "]",
        Punctuator::OpenBrace => "{",
        Punctuator::Pipe => "|",
        Punctuator::CloseBrace => "}",
    }
}

fn show_number(out: &mut String, number: &Number) -> Made<()> {
    if let Some(value) = number.as_u64() {
        write!(out, "{value}")?;
    }
    if let Some(value) = number.as_i64()
        && value < 0
    {
        write!(out, "{value}")?;
    }
    Ok(())
}

/// A token as its place and what it says: strings between angle quotes, how the tokens end in
/// capitals.
fn show_token(out: &mut String, token: &Token) -> Made<()> {
    let line = token.pos.line;
    let column = token.pos.column;
    write!(out, "{line}:{column} ")?;
    match &token.lexeme {
        Lexeme::Punctuator(punctuator) => out.push_str(mark(*punctuator)),
        Lexeme::Name(name) => out.push_str(name.as_str()),
        Lexeme::Number(number) => show_number(out, number),
        Lexeme::String(text) => write!(out, "<{text}>"),
        Lexeme::End => out.push_str("END"),
        Lexeme::Unexpected => out.push_str("UNEXPECTED"),
        Lexeme::Unsupported => out.push_str("UNSUPPORTED"),
    }
}

/// The tokens of a text, each after a blank but the first.
fn shown(alloc: Global, text: &str) -> Made<String> {
    let tokens = tokens_of(alloc, text)?;
    let mut out = String::new(alloc);
    for token in tokens.as_slice() {
        if !out.is_empty() {
            out.push(' ')?;
        }
        show_token(&mut out, token)?;
    }
    Ok(out)
}

/// Texts, each with its tokens.
const TOKENS: [(&str, &str); 60] = [
    ("", "1:1 END"),
    (
        "{ a(x: 18446744073709551616) }",
        "1:1 { 1:3 a 1:4 ( 1:5 x 1:6 : 1:8 UNSUPPORTED",
    ),
    ("18446744073709551615", "1:1 18446744073709551615 1:21 END"),
    ("-9223372036854775808", "1:1 -9223372036854775808 1:21 END"),
    ("-9223372036854775809", "1:1 UNSUPPORTED"),
    ("-0 0 7 -42", "1:1 0 1:4 0 1:6 7 1:8 -42 1:11 END"),
    (
        "{ a(x: 01) }",
        "1:1 { 1:3 a 1:4 ( 1:5 x 1:6 : 1:8 UNEXPECTED",
    ),
    (
        "{ a(x: -) }",
        "1:1 { 1:3 a 1:4 ( 1:5 x 1:6 : 1:8 UNEXPECTED",
    ),
    (
        r#"{ a(x: "\uD800") }"#,
        "1:1 { 1:3 a 1:4 ( 1:5 x 1:6 : 1:8 UNEXPECTED",
    ),
    ("1.5", "1:1 UNSUPPORTED"),
    ("[1e3]", "1:1 [ 1:2 UNSUPPORTED"),
    ("-1.5E-7", "1:1 UNSUPPORTED"),
    ("1e+5", "1:1 UNSUPPORTED"),
    ("1.", "1:1 UNEXPECTED"),
    ("1.e3", "1:1 UNEXPECTED"),
    ("1e", "1:1 UNEXPECTED"),
    ("1a", "1:1 UNEXPECTED"),
    ("1_", "1:1 UNEXPECTED"),
    ("1.5.", "1:1 UNEXPECTED"),
    ("1.5a", "1:1 UNEXPECTED"),
    ("00", "1:1 UNEXPECTED"),
    ("0x1", "1:1 UNEXPECTED"),
    (".5", "1:1 UNEXPECTED"),
    ("..", "1:1 UNEXPECTED"),
    ("...", "1:1 ... 1:4 END"),
    ("....", "1:1 ... 1:4 UNEXPECTED"),
    (
        "!$&()...:=@[]{|}",
        "1:1 ! 1:2 $ 1:3 & 1:4 ( 1:5 ) 1:6 ... 1:9 : 1:10 = 1:11 @ 1:12 [ 1:13 ] 1:14 { 1:15 | 1:16 } 1:17 END",
    ),
    ("_a1 B2_ on", "1:1 _a1 1:5 B2_ 1:9 on 1:11 END"),
    ("A!!", "1:1 A 1:2 ! 1:3 ! 1:4 END"),
    ("a\r\nb\rc\nd", "1:1 a 2:1 b 3:1 c 4:1 d 4:2 END"),
    ("\n\r\n\r\r", "5:1 END"),
    ("\u{feff}a,\t,b", "1:2 a 1:6 b 1:7 END"),
    ("\u{e9}", "1:1 UNEXPECTED"),
    (r#""😀é" a"#, "1:1 <\u{1f600}\u{e9}> 1:6 a 1:7 END"),
    ("# a \u{e9}\nb", "2:1 b 2:2 END"),
    ("# \u{e9}\u{1f600}\u{1}", "1:5 UNEXPECTED"),
    ("\u{feff} \u{feff}a", "1:4 a 1:5 END"),
    ("\u{fefe}", "1:1 UNEXPECTED"),
    (r#""é\né" a"#, "1:1 <\u{e9}\n\u{e9}> 1:8 a 1:9 END"),
    (r#""""é😀""" a"#, "1:1 <\u{e9}\u{1f600}> 1:10 a 1:11 END"),
    (r#""é"#, "1:1 UNEXPECTED"),
    ("a#b\r\nc", "1:1 a 2:1 c 2:2 END"),
    ("#", "1:2 END"),
    ("# a", "1:4 END"),
    ("# \u{1}a", "1:3 UNEXPECTED"),
    ("a \u{0}", "1:1 a 1:3 UNEXPECTED"),
    (r#""""#, "1:1 <> 1:3 END"),
    (
        r#""\"\\\/\b\f\n\r\tz""#,
        "1:1 <\"\\/\u{8}\u{c}\n\r\tz> 1:20 END",
    ),
    (r#""\u00e9\u0041""#, "1:1 <\u{e9}A> 1:15 END"),
    (r#""\u00E9"a"#, "1:1 <\u{e9}> 1:9 a 1:10 END"),
    (r#""\u12""#, "1:1 UNEXPECTED"),
    (r#""\x""#, "1:1 UNEXPECTED"),
    (r#""\uDFFF""#, "1:1 UNEXPECTED"),
    (r#""a"#, "1:1 UNEXPECTED"),
    ("\"a\nb\"", "1:1 UNEXPECTED"),
    (r#""a""b""#, "1:1 <a> 1:4 <b> 1:7 END"),
    (r#""""a"#, "1:1 <> 1:3 UNEXPECTED"),
    (r#"["""a"]"#, "1:1 [ 1:2 <> 1:4 <a> 1:7 ] 1:8 END"),
    (r#""""""""""#, "1:1 <> 1:7 <> 1:9 END"),
    (r#""""a\"""b"""c"#, r#"1:1 <a"""b> 1:13 c 1:14 END"#),
];

/// Whether a text has these tokens.
fn has_tokens(alloc: Global, text: &str, tokens: &str) -> Made<bool> {
    Ok(shown(alloc, text)?.as_str() == tokens)
}

/// The first text of a table that has other tokens.
fn first_wrong_text(
    alloc: Global,
    table: &[(&'static str, &'static str)],
) -> Made<Option<&'static str>> {
    for (text, tokens) in table {
        if !has_tokens(alloc, text, tokens)? {
            return Ok(Some(*text));
        }
    }
    Ok(None)
}

#[test]
fn tokens_have_their_places(rt: HostRuntime) -> Result<(), Fail> {
    assert_eq!(rt; first_wrong_text(rt.alloc(), &TOKENS)?, None);
    Ok(())
}

/// The second token of a text, which is read after the first.
fn second_of(alloc: Global, text: &str) -> Made<Token> {
    let mut reached = Reached::start();
    drop(next_token(alloc, text, &mut reached)?);
    next_token(alloc, text, &mut reached)
}

/// Whether the second token of a text is this one, as `show_token` tells it, and whether it is the
/// last.
fn is_second(alloc: Global, text: &str, shown: &str, last: bool) -> Made<bool> {
    let token = second_of(alloc, text)?;
    let mut out = String::new(alloc);
    show_token(&mut out, &token)?;
    Ok(out.as_str() == shown && is_final(&token.lexeme) == last)
}

#[test]
fn tokens_are_read_one_by_one(rt: HostRuntime) -> Result<(), Fail> {
    assert!(rt; is_second(rt.alloc(), "{\n a", "2:2 a", false)?);
    assert!(rt; is_second(rt.alloc(), "a", "1:2 END", true)?);
    Ok(())
}

/// What stands between the quotes of block strings, each with its value. The first is the
/// specification's own example (October 2021, section 2.9.4).
const BLOCKS: [(&str, &str); 16] = [
    (
        "\n    Hello,\n      World!\n\n    Yours,\n      GraphQL.\n  ",
        "Hello,\n  World!\n\nYours,\n  GraphQL.",
    ),
    (
        "\nThis starts with and ends with an empty new line,\nwhich makes it easier to read.\n",
        "This starts with and ends with an empty new line,\nwhich makes it easier to read.",
    ),
    (
        "This does not start with or end with any empty lines,\nwhich makes it a little harder to read.",
        "This does not start with or end with any empty lines,\nwhich makes it a little harder to read.",
    ),
    ("\n  a\n    b\n", "a\n  b"),
    ("\n  \u{e9}\n    b\u{1f600} \n", "\u{e9}\n  b\u{1f600} "),
    ("\u{e9}\n\u{a0} a\n b", "\u{e9}\n\u{a0} a\n b"),
    ("", ""),
    (" \t\n  \n", ""),
    ("    a\n      b", "    a\nb"),
    ("  a  \n  b  ", "  a  \nb  "),
    ("\n\n    a\n\n\n    b\n\n \n", "a\n\n\nb"),
    ("a\r\n  b\r  c\n  d", "a\nb\nc\nd"),
    ("\n\ta\n \tb", "a\n\tb"),
    ("\n    a\n  \n    b", "a\n\nb"),
    ("a\\nb", "a\\nb"),
    ("\n  \\\"\"\"\n  ", r#"""""#),
];

/// Whether a token is the string of this value at the beginning of a text.
fn is_string(token: &Token, value: &str) -> bool {
    match &token.lexeme {
        Lexeme::String(text) => {
            text.as_str() == value && token.pos == Pos { line: 1, column: 1 }
        }
        _ => false,
    }
}

/// Whether a block string is one token of this value, after which its text ends.
fn has_value(alloc: Global, raw: &str, value: &str) -> Made<bool> {
    let text = format!(in alloc; "\"\"\"{raw}\"\"\"")?;
    let tokens = tokens_of(alloc, text.as_str())?;
    match tokens.get(0) {
        Some(first) => Ok(tokens.len() == 2 && is_string(first, value)),
        None => Ok(false),
    }
}

/// The first block string of a table that has another value.
fn first_wrong_block(
    alloc: Global,
    table: &[(&'static str, &'static str)],
) -> Made<Option<&'static str>> {
    for (raw, value) in table {
        if !has_value(alloc, raw, value)? {
            return Ok(Some(*raw));
        }
    }
    Ok(None)
}

#[test]
fn block_strings_have_their_values(rt: HostRuntime) -> Result<(), Fail> {
    assert_eq!(rt; first_wrong_block(rt.alloc(), &BLOCKS)?, None);
    Ok(())
}
