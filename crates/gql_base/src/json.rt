ghost use Rattle.std.specs.Prelude.{◌≡◌, ◌↔◌, [], ◌∷◌, ◌++◌, ◌<◌, ◌/◌, ◌%◌, All, IsTrue, length};
ghost use Rattle.std.specs.Prelude.{map, codes};
ghost use Rattle.std.specs.Prelude.{IfOk, OnOk, string_bytes, encode_utf8};
ghost use Rattle.std.specs.Char.{digit_char};
ghost use Rattle.std.specs.List.{flat_map};
ghost use Rattle.gql_base.specs.Json.{escaped, IsPlain, quoted, comma_of, colon_of, name_text};
ghost use Rattle.gql_base.specs.Json.{member, value_text, json, literal};
ghost use Rattle.gql_base.specs.Separated.{separated, before};

use crate::made::Made;
use crate::pairs::Pairs;
use crate::text::Text;
use crate::value::Value;
use std::alloc::Global;

/// How a value is written.
#[derive(Clone, Copy)]
enum Style {
    Json,
    Literal,
}

/// The JSON text of a value: without blanks, enums as strings, the members of an object in their
/// order (RFC 8259).
pub fn json_of(alloc: Global, value: &Value) -> Made<Text>
    ensures { IfOk result (λ text. text ≡ json value.now) }
{
    let mut out = String::new(alloc);
    push_json(&mut out, value)?;
    Text::from_string(out)
}

/// The text of a value as it is written in a document: enums and keys bare, strings with JSON's
/// escapes, and a blank after each comma and colon (GraphQL, October 2021, section 2.9).
pub fn literal_of(alloc: Global, value: &Value) -> Made<Text>
    ensures { IfOk result (λ text. text ≡ literal value.now) }
{
    let mut out = String::new(alloc);
    push_value(&mut out, Style::Literal, value)?;
    Text::from_string(out)
}

/// Appends the JSON text of a value.
pub fn push_json(out: &mut String, value: &Value) -> Made<()>
    ensures { OnOk result (string_bytes out.new ≡ string_bytes out.old ++ json value.now) }
{
    push_value(out, Style::Json, value)
}

/// Appends the JSON text of an object with these members.
pub fn push_object(out: &mut String, members: &Pairs<Value>) -> Made<()>
    ensures { OnOk result (string_bytes out.new ≡ string_bytes out.old
        ++ json (Value.Object members.now)) }
{
    out.push('{')?;
    push_members(out, Style::Json, members)?;
    out.push('}')
}

#[cycle(json)]
fn push_value(out: &mut String, style: Style, value: &Value) -> Made<()>
    ensures { OnOk result (string_bytes out.new ≡ string_bytes out.old
        ++ value_text style value.now) }
{
    match value {
        Value::Null => out.push_str("null"),
        Value::Boolean(truth) => out.push_str(if *truth { "true" } else { "false" }),
        Value::Number(number) => write!(out, "{number}"),
        Value::String(text) => push_quoted(out, text.as_str()),
        Value::Enum(name) => push_styled(out, style, name.as_str()),
        Value::List(items) => {
            out.push('[')?;
            push_items(out, style, items.as_slice())?;
            out.push(']')
        }
        Value::Object(members) => {
            out.push('{')?;
            push_members(out, style, members)?;
            out.push('}')
        }
    }
}

#[cycle(json)]
#[tactic(auto, using(crate::proofs::SeparatedLemmas::separated_more))]
fn push_items(out: &mut String, style: Style, items: &[Value]) -> Made<()>
    ensures { OnOk result (string_bytes out.new ≡ string_bytes out.old
        ++ separated (comma_of style) (map (value_text style) items.now)) }
{
    for (place, item) in items.iter().enumerate() {
        push_separator(out, style, place)?;
        push_value(out, style, item)?;
    }
    Ok(())
}

#[cycle(json)]
fn push_members(out: &mut String, style: Style, members: &Pairs<Value>) -> Made<()>
    ensures { OnOk result (string_bytes out.new ≡ string_bytes out.old
        ++ separated (comma_of style)
        (map (λ p. member style (p.0, value_text style p.1)) members.now)) }
{
    for place in 0..members.len() {
        push_separator(out, style, place)?;
        let (name, value) = members.at(place);
        push_key(out, style, name)?;
        push_value(out, style, value)?;
    }
    Ok(())
}

/// Appends what separates two parts, but before the part at place 0 nothing.
fn push_separator(out: &mut String, style: Style, place: usize) -> Made<()>
    ensures { OnOk result (string_bytes out.new ≡ string_bytes out.old
        ++ before (comma_of style) place) }
{
    if place == 0 {
        return Ok(());
    }
    out.push_str(match style {
        Style::Json => ",",
        Style::Literal => ", ",
    })
}

fn push_key(out: &mut String, style: Style, name: &str) -> Made<()>
    ensures { OnOk result (string_bytes out.new ≡ string_bytes out.old
        ++ (name_text style name.now ++ colon_of style)) }
{
    push_styled(out, style, name)?;
    out.push_str(match style {
        Style::Json => ":",
        Style::Literal => ": ",
    })
}

fn push_styled(out: &mut String, style: Style, name: &str) -> Made<()>
    ensures { OnOk result (string_bytes out.new ≡ string_bytes out.old
        ++ name_text style name.now) }
{
    match style {
        Style::Json => push_quoted(out, name),
        Style::Literal => out.push_str(name),
    }
}

/// Appends a comma of a JSON text, but before the part at place 0 nothing.
pub fn push_comma(out: &mut String, place: usize) -> Made<()>
    ensures { OnOk result (string_bytes out.new ≡ string_bytes out.old
        ++ before (codes ",") place) }
{
    push_separator(out, Style::Json, place)
}

/// Appends the name of a member of a JSON object, and its colon.
pub fn push_name(out: &mut String, name: &str) -> Made<()>
    ensures { OnOk result (string_bytes out.new ≡ string_bytes out.old
        ++ (quoted name.now ++ codes ":")) }
{
    push_key(out, Style::Json, name)
}

/// Appends a text as a JSON string.
pub fn push_quoted(out: &mut String, text: &str) -> Made<()>
    ensures { OnOk result (string_bytes out.new ≡ string_bytes out.old ++ quoted text.now) }
{
    out.push('"')?;
    push_escaped(out, text)?;
    out.push('"')
}

/// Appends the characters of a text with their escapes. A text without any is appended at once.
fn push_escaped(out: &mut String, text: &str) -> Made<()>
    ensures { OnOk result (string_bytes out.new ≡ string_bytes out.old
        ++ flat_map escaped text.now) }
{
    if is_plain(text) {
        out.push_str(text)
    } else {
        push_characters(out, text)
    }
}

/// True exactly where each byte of a text stands for itself in a JSON string.
fn is_plain(text: &str) -> bool
    ensures { IsTrue result ↔ All IsPlain text.now }
{
    text.as_bytes()
        .iter()
        .all(|byte| *byte >= b' ' && *byte != b'"' && *byte != b'\\')
}

fn push_characters(out: &mut String, text: &str) -> Made<()>
    ensures { OnOk result (string_bytes out.new ≡ string_bytes out.old
        ++ flat_map escaped text.now) }
{
    for character in text.chars() {
        push_character(out, character)?;
    }
    Ok(())
}

fn push_character(out: &mut String, character: char) -> Made<()>
    ensures { OnOk result (string_bytes out.new ≡ string_bytes out.old
        ++ flat_map escaped (encode_utf8 character)) }
{
    match character {
        '"' => out.push_str("\\\""),
        '\\' => out.push_str("\\\\"),
        '\u{8}' => out.push_str("\\b"),
        '\t' => out.push_str("\\t"),
        '\n' => out.push_str("\\n"),
        '\u{c}' => out.push_str("\\f"),
        '\r' => out.push_str("\\r"),
        control if control < ' ' => push_code(out, control),
        other => out.push(other),
    }
}

/// Appends the escape of a character under U+0020 by its number.
fn push_code(out: &mut String, character: char) -> Made<()>
    requires { character < 32 }
    ensures { OnOk result (string_bytes out.new ≡ string_bytes out.old
        ++ (codes "\\u00" ++ digit_char (character / 16) ∷ digit_char (character % 16) ∷ [])) }
{
    let code = u32::from(character);
    out.push_str("\\u00")?;
    out.push(char::from_digit(code / 16, 16).unwrap())?;
    out.push(char::from_digit(code % 16, 16).unwrap())
}
