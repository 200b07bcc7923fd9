//! The values of arguments: of a field's arguments and directives, and of parameters.
use crate::queries::{Ground, error_text};
use gql_base::{Copied, Made, Name, Number, Pairs, Text, Value, Variables, literal_of};
use gql_resolve::{ConstDirective, SelectionField};
use std::alloc::Global;
use std::test::Fail;

/// Variables of which `a` is 7 and `z` is null.
fn variables(alloc: Global) -> Made<Variables> {
    let mut members = Pairs::new(alloc);
    members.insert(Name::new(alloc, "a")?, Value::Number(Number::from_i64(7)))?;
    members.insert(Name::new(alloc, "z")?, Value::Null)?;
    let members = Value::object(alloc, members)?;
    Ok(Variables::from_value(alloc, members))
}

fn query(alloc: Global, text: &str) -> Made<Option<Ground>> {
    let variables = variables(alloc)?;
    Ground::of(alloc, text, variables)
}

/// A name and a value.
fn push_value(alloc: Global, out: &mut String, name: &str, value: &Value) -> Made<()> {
    let literal = literal_of(alloc, value)?;
    write!(out, "{name} {literal}; ")
}

fn arguments_text(alloc: Global, field: &SelectionField<'_>) -> Made<Text> {
    match field.arguments(alloc)? {
        Ok(arguments) => values_text(alloc, arguments.as_slice()),
        Err(error) => error_text(alloc, &error),
    }
}

fn values_text(alloc: Global, arguments: &[(Name, Value)]) -> Made<Text> {
    let mut out = String::new(alloc);
    for (name, value) in arguments {
        push_value(alloc, &mut out, name.as_str(), value)?;
    }
    Text::from_string(out)
}

/// The arguments of the first field of a query, or their refusal.
fn arguments(alloc: Global, text: &str) -> Made<Text> {
    match query(alloc, text)? {
        Some(ground) => match ground.first() {
            Some(context) => arguments_text(alloc, &context.field()),
            None => Text::new(alloc, "no field"),
        },
        None => Text::new(alloc, "no query"),
    }
}

/// Whether the arguments of the first field of a query are these in words.
fn has_arguments(alloc: Global, text: &str, words: &str) -> Made<bool> {
    Ok(arguments(alloc, text)?.as_str() == words)
}

#[test]
fn arguments_with_their_values(rt: HostRuntime) -> Result<(), Fail> {
    let given = r#"query($a: Int, $d: Int = 4) { o(s: "t", n: [$d, $a], n: E) }"#;
    let words = r#"s "t"; n [4, 7]; n E; "#;
    assert!(rt; has_arguments(rt.alloc(), given, words)?);
    let lost = "query($d: Int = 4) { o(n: $d, m: {k: [$a]}, l: $lost) }";
    let refusal = "Variable a is not defined. 1:31";
    assert!(rt; has_arguments(rt.alloc(), lost, refusal)?);
    Ok(())
}

fn directive_text(alloc: Global, directive: &ConstDirective) -> Made<Text> {
    let mut out = String::new(alloc);
    let at = directive.name.pos.column;
    write!(out, "@{} {at}: ", directive.name.node.as_str())?;
    for (name, value) in directive.arguments.as_slice() {
        write!(out, "{}:{} ", name.pos.column, value.pos.column)?;
        push_value(alloc, &mut out, name.node.as_str(), &value.node)?;
    }
    Text::from_string(out)
}

/// Directives, each copied before it is told.
fn copies_text(alloc: Global, directives: &[ConstDirective]) -> Made<Text> {
    let mut out = String::new(alloc);
    for directive in directives {
        let copy = directive.try_clone(alloc)?;
        let text = directive_text(alloc, &copy)?;
        out.push_str(text.as_str())?;
    }
    Text::from_string(out)
}

fn directives_text(alloc: Global, field: &SelectionField<'_>) -> Made<Text> {
    match field.directives(alloc)? {
        Ok(directives) => copies_text(alloc, directives.as_slice()),
        Err(error) => error_text(alloc, &error),
    }
}

/// The directives of the first field of a query, or their refusal.
fn directives(alloc: Global, text: &str) -> Made<Text> {
    match query(alloc, text)? {
        Some(ground) => match ground.first() {
            Some(context) => directives_text(alloc, &context.field()),
            None => Text::new(alloc, "no field"),
        },
        None => Text::new(alloc, "no query"),
    }
}

/// Whether the directives of the first field of a query are these in words.
fn has_directives(alloc: Global, text: &str, words: &str) -> Made<bool> {
    Ok(directives(alloc, text)?.as_str() == words)
}

#[test]
fn directives_with_their_values(rt: HostRuntime) -> Result<(), Fail> {
    let given = "query($a: Int) { o @a @b(x: 1, y: $a) }";
    let words = "@a 21: @b 24: 26:29 x 1; 32:35 y 7; ";
    assert!(rt; has_directives(rt.alloc(), given, words)?);
    let lost = "{ o @a @b(x: 1, y: $a) }";
    let refusal = "Variable a is not defined. 1:17";
    assert!(rt; has_directives(rt.alloc(), lost, refusal)?);
    Ok(())
}
