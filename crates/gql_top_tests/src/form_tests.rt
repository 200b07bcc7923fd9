//! Benches for commands that are no words of the program, each with its first bad place.
use gql_base::Made;
use gql_form::{Command, form_of};
use serde_json::Value as Json;
use std::alloc::Global;
use std::test::Fail;

/// A bench for a command, and its first bad place; `good` stands for none.
type Row = (Command, &'static str, &'static str);

const BENCHES: [Row; 13] = [
    (
        Command::Stream,
        r#"{"schema":{"query":"Q","types":[]},"request":{}}"#,
        "good",
    ),
    (
        Command::Threads,
        r#"{"schema":{"query":"Q","types":[]},"requests":[{}]}"#,
        "good",
    ),
    (Command::Ws, r#"{"schema":{"query":"Q","types":[]}}"#, "ws"),
    (
        Command::Ws,
        r#"{"schema":{"query":"Q","types":[]},"ws":{"protocol":"GraphQL-WS","keepalive":5,"script":[{"at":0},{"at":9,"text":"x"}]}}"#,
        "good",
    ),
    (
        Command::Ws,
        r#"{"schema":{"query":"Q","types":[]},"ws":[]}"#,
        "ws",
    ),
    (
        Command::Ws,
        r#"{"schema":{"query":"Q","types":[]},"ws":{}}"#,
        "ws.protocol",
    ),
    (
        Command::Ws,
        r#"{"schema":{"query":"Q","types":[]},"ws":{"protocol":"graphql","script":[]}}"#,
        "ws.protocol",
    ),
    (
        Command::Ws,
        r#"{"schema":{"query":"Q","types":[]},"ws":{"protocol":"graphql-ws","keepalive":-1,"script":[]}}"#,
        "ws.keepalive",
    ),
    (
        Command::Ws,
        r#"{"schema":{"query":"Q","types":[]},"ws":{"protocol":"graphql-ws"}}"#,
        "ws.script",
    ),
    (
        Command::Ws,
        r#"{"schema":{"query":"Q","types":[]},"ws":{"protocol":"graphql-ws","script":[{"at":0},{}]}}"#,
        "ws.script[1].at",
    ),
    (
        Command::Ws,
        r#"{"schema":{"query":"Q","types":[]},"ws":{"protocol":"graphql-ws","script":[{"at":0,"text":1}]}}"#,
        "ws.script[0].text",
    ),
    (
        Command::Ws,
        r#"{"schema":{"query":"Q","types":[]},"ws":{"protocol":"graphql-ws","script":[{"at":0,"to":1}]}}"#,
        "ws.script[0].to",
    ),
    (
        Command::Ws,
        r#"{"schema":{"query":"Q","types":[]},"ws":{"protocol":"graphql-ws","script":[],"url":""}}"#,
        "ws.url",
    ),
];

/// The first bench of a table that has another first bad place than the one beside it.
fn first_wrong(alloc: Global, rows: &[Row]) -> Made<Option<&'static str>> {
    for (command, bench, place) in rows {
        if !has_place(alloc, *command, *bench, *place)? {
            return Ok(Some(*bench));
        }
    }
    Ok(None)
}

/// Whether a text has this first bad place for a command, or is a good bench where that is `good`.
fn has_place(alloc: Global, command: Command, bench: &str, place: &str) -> Made<bool> {
    match Json::from_str(alloc, bench) {
        Ok(json) => has_place_in(alloc, command, json, place),
        Err(_) => Ok(false),
    }
}

fn has_place_in(alloc: Global, command: Command, json: Json, place: &str) -> Made<bool> {
    let read = form_of(alloc, command, &json);
    drop(json);
    match read? {
        Ok(_) => Ok(place == "good"),
        Err(found) => Ok(found.as_str() == place),
    }
}

#[test]
fn benches_of_commands_to_come(rt: HostRuntime) -> Result<(), Fail> {
    assert_eq!(rt; first_wrong(rt.alloc(), &BENCHES)?, None);
    Ok(())
}
