//! Requests and batches, each public call with ample memory.
use gql_base::{Copied, Items, Made, Name, Number, Pairs, Text, Value, Variables, json_of};
use gql_doc::{DocumentOperations, ExecutableDocument, ParseFault};
use gql_request::{BatchRequest, DataKey, IntrospectionMode, ParseRequestError, Request};
use std::alloc::Global;
use std::test::Fail;

/// An object with one member.
fn object(alloc: Global, name: &str, value: Value) -> Made<Value> {
    let mut members = Pairs::new(alloc);
    members.add(Name::new(alloc, name)?, value)?;
    Value::object(alloc, members)
}

/// The variable a with a number.
fn variables(alloc: Global, number: u64) -> Made<Variables> {
    let value = object(alloc, "a", Value::Number(Number::from_u64(number)))?;
    Ok(Variables::from_value(alloc, value))
}

/// The numbers under the key 1 and of the variable a, the operation and the mode of a request, in
/// words.
fn summary(alloc: Global, request: &Request) -> Made<Text> {
    let mut out = String::from_str(alloc, request.query.as_str())?;
    if let Some(name) = &request.operation_name {
        write!(out, " {name}")?;
    }
    if let Some(Value::Number(number)) = request.variables.get("a") {
        write!(out, " a {number}")?;
    }
    if let Some(Value::Number(number)) = request.query_data.get(DataKey(1)) {
        write!(out, " 1 {number}")?;
    }
    out.push_str(mode_text(request.introspection_mode))?;
    Text::from_string(out)
}

fn mode_text(mode: IntrospectionMode) -> &'static str {
    match mode {
        IntrospectionMode::IntrospectionOnly => " only",
        IntrospectionMode::Enabled => "",
        IntrospectionMode::Disabled => " disabled",
    }
}

fn named(alloc: Global) -> Made<Request> {
    Request::new(alloc, "{ a }")?.operation_name(alloc, "A")
}

fn with_variables(alloc: Global) -> Made<Request> {
    let variables = variables(alloc, 5)?;
    Ok(Request::new(alloc, "{ a }")?.variables(variables))
}

fn with_data(alloc: Global) -> Made<Request> {
    Request::new(alloc, "{ a }")?.data(DataKey(1), Value::Number(Number::from_u64(6)))
}

/// How a request is built.
#[derive(Clone, Copy)]
enum Building {
    Named,
    WithVariables,
    WithData,
    Disabled,
    IntrospectionOnly,
}

fn built(alloc: Global, building: Building) -> Made<Request> {
    match building {
        Building::Named => named(alloc),
        Building::WithVariables => with_variables(alloc),
        Building::WithData => with_data(alloc),
        Building::Disabled => Ok(named(alloc)?.disable_introspection()),
        Building::IntrospectionOnly => Ok(named(alloc)?.only_introspection()),
    }
}

/// Whether a request is this in words.
fn is_built(alloc: Global, building: Building, words: &str) -> Made<bool> {
    let request = built(alloc, building)?;
    Ok(summary(alloc, &request)?.as_str() == words)
}

#[test]
fn requests_are_built(rt: HostRuntime) -> Result<(), Fail> {
    let alloc = rt.alloc();
    assert!(rt; is_built(alloc, Building::Named, "{ a } A")?);
    assert!(rt; is_built(alloc, Building::WithVariables, "{ a } a 5")?);
    assert!(rt; is_built(alloc, Building::WithData, "{ a } 1 6")?);
    assert!(rt; is_built(alloc, Building::Disabled, "{ a } A disabled")?);
    assert!(rt; is_built(alloc, Building::IntrospectionOnly, "{ a } A only")?);
    Ok(())
}

/// A value of a kind.
fn value_of_kind(alloc: Global, kind: &str) -> Made<Value> {
    match kind {
        "text" => Ok(Value::String(Text::new(alloc, "A")?)),
        "list" => Value::list(alloc, Items::new(alloc)),
        "number" => Ok(Value::Number(Number::from_u64(1))),
        "object" => object(alloc, "a", Value::Number(Number::from_u64(7))),
        _ => Ok(Value::Null),
    }
}

/// The extensions of a request as JSON.
fn extensions_text(alloc: Global, extensions: Pairs<Value>) -> Made<Text> {
    let object = Value::object(alloc, extensions)?;
    json_of(alloc, &object)
}

/// A request in words and its extensions.
fn whole_text(alloc: Global, request: &Request) -> Made<Text> {
    let words = summary(alloc, request)?;
    let extensions = extensions_text(alloc, request.extensions.try_clone(alloc)?)?;
    Text::from_string(format!(in alloc; "{words}|{extensions}")?)
}

fn error_text(alloc: Global, error: ParseRequestError) -> Made<Text> {
    Text::from_string(format!(in alloc; "{error}")?)
}

/// What reading a value as a request gives: the request in words and its extensions, or the error
/// in words.
fn value_text(alloc: Global, value: &Value) -> Made<Text> {
    match Request::from_json(alloc, value)? {
        Ok(request) => whole_text(alloc, &request),
        Err(error) => error_text(alloc, error),
    }
}

/// The same of an object of one member with a value of a kind.
fn read_text(alloc: Global, member: &str, kind: &str) -> Made<Text> {
    let value = object(alloc, member, value_of_kind(alloc, kind)?)?;
    value_text(alloc, &value)
}

/// Members of a request, each with the kind of its value and what is read.
const MEMBERS: [(&str, &str, &str); 15] = [
    ("query", "text", "A|{}"),
    ("query", "null", "Invalid request: query must be a text"),
    ("operationName", "text", " A|{}"),
    ("operationName", "null", "|{}"),
    (
        "operationName",
        "number",
        "Invalid request: operationName must be a text or null",
    ),
    ("variables", "object", " a 7|{}"),
    ("variables", "null", "|{}"),
    (
        "variables",
        "list",
        "Invalid request: invalid type: sequence, expected a map",
    ),
    (
        "variables",
        "text",
        "Invalid request: variables must be an object or null",
    ),
    ("extensions", "object", r#"|{"a":7}"#),
    ("extensions", "null", "|{}"),
    (
        "extensions",
        "list",
        "Invalid request: extensions must be an object or null",
    ),
    ("other", "list", "|{}"),
    ("Query", "number", "|{}"),
    ("", "null", "|{}"),
];

/// Whether this is read of an object of one member.
fn is_read(alloc: Global, member: &str, kind: &str, text: &str) -> Made<bool> {
    Ok(read_text(alloc, member, kind)?.as_str() == text)
}

/// The first member of a table of which something else is read, with the kind of its value.
fn first_wrong_member(
    alloc: Global,
    table: &[(&'static str, &'static str, &'static str)],
) -> Made<Option<(&'static str, &'static str)>> {
    for (member, kind, text) in table {
        if !is_read(alloc, member, kind, text)? {
            return Ok(Some((*member, *kind)));
        }
    }
    Ok(None)
}

#[test]
fn requests_are_read(rt: HostRuntime) -> Result<(), Fail> {
    assert_eq!(rt; first_wrong_member(rt.alloc(), &MEMBERS)?, None);
    Ok(())
}

/// Whether this is read of a list of some objects: how many requests, or why none.
fn is_batch(alloc: Global, count: usize, text: &str) -> Made<bool> {
    let value = objects(alloc, count)?;
    Ok(read_batch_text(alloc, &value)?.as_str() == text)
}

/// A list of so many objects.
fn objects(alloc: Global, count: usize) -> Made<Value> {
    let mut values = Items::new(alloc);
    for _ in 0..count {
        values.push(Value::object(alloc, Pairs::new(alloc))?)?;
    }
    Value::list(alloc, values)
}

fn read_batch_text(alloc: Global, value: &Value) -> Made<Text> {
    match BatchRequest::from_json(alloc, value)? {
        Ok(batch) => counted_text(alloc, batch.len(), single_text(batch)),
        Err(error) => error_text(alloc, error),
    }
}

fn counted_text(alloc: Global, count: usize, single: &str) -> Made<Text> {
    Text::from_string(format!(in alloc; "{count} {single}")?)
}

/// Whether a batch is a single request, or why not.
fn single_text(batch: BatchRequest) -> &'static str {
    match batch.into_single() {
        Ok(_) => "single",
        Err(ParseRequestError::UnsupportedBatch) => "unsupported",
        Err(ParseRequestError::InvalidRequest(reason)) => reason,
    }
}

/// Whether this is read of an object alone.
fn is_alone(alloc: Global, text: &str) -> Made<bool> {
    let value = Value::object(alloc, Pairs::new(alloc))?;
    Ok(read_batch_text(alloc, &value)?.as_str() == text)
}

#[test]
fn batches_are_read(rt: HostRuntime) -> Result<(), Fail> {
    let empty = "Invalid request: expected a non-empty list";
    assert!(rt; is_batch(rt.alloc(), 0, empty)?);
    assert!(rt; is_batch(rt.alloc(), 2, "2 unsupported")?);
    assert!(rt; is_alone(rt.alloc(), "1 single")?);
    Ok(())
}

fn two(alloc: Global) -> Made<BatchRequest> {
    let mut requests = Items::new(alloc);
    requests.push(Request::new(alloc, "x")?)?;
    requests.push(Request::new(alloc, "y")?)?;
    Ok(BatchRequest::Batch(requests))
}

fn two_with_variables(alloc: Global) -> Made<BatchRequest> {
    let variables = variables(alloc, 3)?;
    two(alloc)?.variables(alloc, &variables)
}

fn two_with_data(alloc: Global) -> Made<BatchRequest> {
    two(alloc)?.data(alloc, DataKey(1), &Value::Number(Number::from_u64(4)))
}

/// Two requests, of which the second is changed where it stands.
fn two_changed(alloc: Global) -> Made<BatchRequest> {
    let mut batch = two(alloc)?;
    if batch.len() == 2 {
        batch.at_mut(1).query = Text::new(alloc, "z")?;
    }
    Ok(batch)
}

fn two_copied(alloc: Global) -> Made<BatchRequest> {
    let batch = two(alloc)?;
    batch.try_clone(alloc)
}

/// How a batch of two requests is changed.
#[derive(Clone, Copy)]
enum Change {
    Copied,
    WithVariables,
    WithData,
    InPlace,
    Disabled,
    IntrospectionOnly,
}

fn changed(alloc: Global, change: Change) -> Made<BatchRequest> {
    match change {
        Change::Copied => two_copied(alloc),
        Change::WithVariables => two_with_variables(alloc),
        Change::WithData => two_with_data(alloc),
        Change::InPlace => two_changed(alloc),
        Change::Disabled => Ok(two(alloc)?.disable_introspection()),
        Change::IntrospectionOnly => Ok(two(alloc)?.introspection_only()),
    }
}

/// The requests of a batch in words.
fn words_of(alloc: Global, batch: &BatchRequest) -> Made<String> {
    let mut out = String::new(alloc);
    for request in batch.iter() {
        push_words(alloc, &mut out, request)?;
    }
    Ok(out)
}

fn push_words(alloc: Global, out: &mut String, request: &Request) -> Made<()> {
    let text = summary(alloc, request)?;
    out.push_str(text.as_str())?;
    out.push(';')
}

/// Whether a changed batch is this in words.
fn is_changed(alloc: Global, change: Change, words: &str) -> Made<bool> {
    let batch = changed(alloc, change)?;
    Ok(words_of(alloc, &batch)?.as_str() == words)
}

#[test]
fn batches_are_changed(rt: HostRuntime) -> Result<(), Fail> {
    let alloc = rt.alloc();
    assert!(rt; is_changed(alloc, Change::Copied, "x;y;")?);
    assert!(rt; is_changed(alloc, Change::WithVariables, "x a 3;y a 3;")?);
    assert!(rt; is_changed(alloc, Change::WithData, "x 1 4;y 1 4;")?);
    assert!(rt; is_changed(alloc, Change::InPlace, "x;z;")?);
    assert!(rt; is_changed(alloc, Change::Disabled, "x disabled;y disabled;")?);
    assert!(rt; is_changed(alloc, Change::IntrospectionOnly, "x only;y only;")?);
    Ok(())
}

/// Whether asking for a document gave one whose only operation stands at this column, or a fault
/// where that is none.
fn stands_at(outcome: Result<&ExecutableDocument, ParseFault>, column: Option<usize>) -> bool {
    match outcome {
        Ok(document) => match &document.operations {
            DocumentOperations::Single(operation) => column == Some(operation.pos.column),
            DocumentOperations::Multiple(_) => false,
        },
        Err(_) => column.is_none(),
    }
}

/// Whether asking for the document of a query gives one at this column, and keeps it.
fn asked(alloc: Global, query: &str, column: Option<usize>) -> Made<bool> {
    let mut request = Request::new(alloc, query)?;
    let stands = stands_at(request.parsed_query(alloc)?, column);
    let is_set = request.has_document() && request.document().is_some();
    Ok(stands && is_set == column.is_some())
}

/// Whether a document that was set is given, over a query that is none.
fn set_first(alloc: Global) -> Made<bool> {
    let mut request = Request::new(alloc, "%")?;
    if let Ok(document) = gql_doc::parse_query(alloc, "  { a }")? {
        request.set_parsed_query(document);
    }
    let stands = stands_at(request.parsed_query(alloc)?, Some(3));
    Ok(stands)
}

#[test]
fn documents_are_kept(rt: HostRuntime) -> Result<(), Fail> {
    assert!(rt; asked(rt.alloc(), "%", None)?);
    assert!(rt; asked(rt.alloc(), " { a }", Some(2))?);
    assert!(rt; set_first(rt.alloc())?);
    Ok(())
}
