//! What the resolvers of a bench answer where no run of the program shows it: which of them answer
//! with the start, values of the set's own, headers, and the cells that are left.
use crate::asking::told;
use crate::bench_tests::bench;
use crate::parts::Parts;
use gql_base::{Items, Made, Value, from_json};
use gql_bench::Table;
use gql_form::Command;
use gql_resolve::ResolverSet;
use serde_json::Value as Json;
use std::alloc::Global;
use std::test::Fail;

/// The parent of each call.
const PARENT: &str = r#"{"name":"Ann","n":1}"#;

/// Answers of a field in a bench with the cells 4 and -9, each with what is told of its resolver.
const ANSWERS: [(&str, &str); 11] = [
    (r#"{"const":{"$own":-3}}"#, "now own -3"),
    (r#"{"const":{"$list":[1,{"$own":2}]}}"#, "now list of 2"),
    (r#"{"const":{"$type":"T","of":null}}"#, "now a T"),
    (r#"{"none":true}"#, "now none"),
    (r#"{"fail":"oops"}"#, "0 error oops"),
    (r#"{"member":"name"}"#, r#"now "Ann""#),
    (r#"{"read":1}"#, "now -9"),
    (r#"{"bump":0}"#, "0 4"),
    (r#"{"delay":2,"const":null}"#, "2 null"),
    (
        r#"{"headers":[["insert","X-A","b"]],"const":1}"#,
        "0 1 insert x-a",
    ),
    (
        r#"{"delay":1,"added":["v"],"headers":[["append","b","c"]],"fail":"e"}"#,
        "1 error e + v append b",
    ),
];

/// The text of a bench whose resolver 0 answers so.
fn bench_text(alloc: Global, answer: &str) -> Made<String> {
    format!(in alloc;
        "{{\"schema\":{{\"query\":\"Q\",\"types\":[{{\"kind\":\"object\",\"name\":\"Q\",\
\"fields\":[{{\"name\":\"f\",\"type\":\"Int\",\"answer\":{answer}}}]}}]}},\"cells\":[4,-9],\
\"request\":{{}}}}"
    )
}

/// The table of a bench whose resolver 0 answers so.
fn table(alloc: Global, answer: &str) -> Made<Option<Table>> {
    let text = bench_text(alloc, answer)?;
    match bench(alloc, Command::Execute, text.as_str())? {
        Some(bench) => Ok(Some(Table::of(alloc, &bench)?)),
        None => Ok(None),
    }
}

/// What is told of a resolver of a bench, or that there is no bench.
fn answer_told(alloc: Global, parts: &Parts, resolver: u32, answer: &str) -> Made<String> {
    match table(alloc, answer)? {
        Some(mut table) => told(alloc, &mut table, &parts.context(resolver)),
        None => String::from_str(alloc, "no bench"),
    }
}

/// The first answer of a table of which something else is told than stands beside it.
fn first_wrong(
    alloc: Global,
    parts: &Parts,
    rows: &[(&'static str, &'static str)],
) -> Made<Option<&'static str>> {
    for (answer, expected) in rows {
        if answer_told(alloc, parts, 0, *answer)?.as_str() != *expected {
            return Ok(Some(*answer));
        }
    }
    Ok(None)
}

/// The value of a text, where it is the JSON of one.
fn value(alloc: Global, text: &str) -> Made<Option<Value>> {
    match Json::from_str(alloc, text) {
        Ok(json) => Ok(from_json(alloc, &json)?.ok()),
        Err(_) => Ok(None),
    }
}

/// The parts of the calls.
fn parts(alloc: Global) -> Result<Parts, Fail> {
    let parent = value(alloc, PARENT)?.ok_or("no parent")?;
    Ok(Parts::new(alloc, parent)?)
}

#[test]
fn answers_of_each_rule(rt: HostRuntime) -> Result<(), Fail> {
    let parts = parts(rt.alloc())?;
    let wrong = first_wrong(rt.alloc(), &parts, &ANSWERS);
    let unruled = answer_told(rt.alloc(), &parts, 1, r#"{"const":1}"#);
    drop(parts);
    assert_eq!(rt; wrong?, None);
    assert!(rt; unruled?.as_str() == "now none");
    Ok(())
}

/// The cells of a bench's table, of which there are two.
fn cells(alloc: Global) -> Made<Option<Items<i64>>> {
    match table(alloc, r#"{"read":0}"#)? {
        Some(table) => Ok(Some(table.snapshot(alloc)?)),
        None => Ok(None),
    }
}

#[test]
fn the_world_of_a_table(rt: HostRuntime) -> Result<(), Fail> {
    let cells = cells(rt.alloc())?.ok_or("no bench")?;
    assert!(rt; cells.as_slice() == [4, -9].as_slice());
    Ok(())
}
