//! Benches as they are made of JSON.
use gql_base::Made;
use gql_bench::{Bench, bench_of};
use gql_form::Command;
use serde_json::Value as Json;
use std::alloc::Global;
use std::test::Fail;

/// The bench of a text for a command, where it is the JSON of one.
pub fn bench(alloc: Global, command: Command, text: &str) -> Made<Option<Bench>> {
    match Json::from_str(alloc, text) {
        Ok(json) => bench_in(alloc, command, json),
        Err(_) => Ok(None),
    }
}

fn bench_in(alloc: Global, command: Command, json: Json) -> Made<Option<Bench>> {
    let made = bench_of(alloc, command, &json);
    drop(json);
    Ok(made?.ok())
}

/// A bench with all members but a session.
const WHOLE: &str = r#"{"schema":{"query":"Q","types":[
{"kind":"object","name":"Q","fields":[
{"name":"f","type":"Int","answer":{"const":1,"delay":3}}]},
{"kind":"subscription","name":"S","fields":[
{"name":"s","type":"Int","events":[{"value":1},{"delay":2,"fail":"e"}]}]}]},
"cells":[4],"root":{"$own":6},"turns":[7,0],"hooks":"log","request":{}}"#;

/// Whether a bench has one rule with a delay of 3, and one source of two events.
fn has_rule_and_source(bench: &Bench) -> bool {
    let rule = bench.rules.len() == 1 && bench.rules.get(0).map(|rule| rule.delay) == Some(3);
    let source = bench.sources.len() == 1 && bench.sources.get(0).map(|it| it.len()) == Some(2);
    rule && source
}

/// Whether a bench has logged hooks, and one request.
fn has_request(bench: &Bench) -> bool {
    bench.log && bench.requests.len() == 1 && bench.ws.is_none()
}

#[test]
fn the_members_of_a_bench(rt: HostRuntime) -> Result<(), Fail> {
    let made = bench(rt.alloc(), Command::Execute, WHOLE)?.ok_or("no bench")?;
    assert!(rt; has_rule_and_source(&made) && has_request(&made));
    Ok(())
}

/// A session: its bench has no request.
const SESSION: &str = r#"{"schema":{"query":"Q","types":[]},
"ws":{"protocol":"graphql-ws","script":[]}}"#;

/// A batch of one request.
const BATCH: &str = r#"{"schema":{"query":"Q","types":[]},"requests":[{}]}"#;

/// Whether the bench of a text is built, where it is one.
fn is_built(alloc: Global, command: Command, text: &str) -> Made<Option<bool>> {
    match bench(alloc, command, text)? {
        Some(bench) => Ok(Some(bench.is_built())),
        None => Ok(None),
    }
}

#[test]
fn which_benches_are_built(rt: HostRuntime) -> Result<(), Fail> {
    assert!(rt; is_built(rt.alloc(), Command::Ws, SESSION)? == Some(false));
    assert!(rt; is_built(rt.alloc(), Command::Batch, BATCH)? == Some(true));
    Ok(())
}
