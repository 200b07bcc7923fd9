use gql_base::{Made, Text, Value, json_of};
use gql_ws::{ClientMessage, MessageFault};
use std::alloc::Global;
use std::test::Fail;

/// The JSON text of a payload, if there is one.
fn payload_text(alloc: Global, payload: &Option<Value>) -> Made<Text> {
    match payload {
        None => Text::new(alloc, "none"),
        Some(payload) => json_of(alloc, payload),
    }
}

fn with_payload(alloc: Global, kind: &str, payload: &Option<Value>) -> Made<String> {
    let payload = payload_text(alloc, payload)?;
    format!(in alloc; "{kind} {payload}")
}

/// A message in words.
fn message_text(alloc: Global, message: &ClientMessage) -> Made<String> {
    match message {
        ClientMessage::ConnectionInit { payload } => with_payload(alloc, "init", payload),
        ClientMessage::Start { id, payload } => format!(in alloc; "start {id} {}", payload.query),
        ClientMessage::Stop { id } => format!(in alloc; "stop {id}"),
        ClientMessage::ConnectionTerminate => String::from_str(alloc, "terminate"),
        ClientMessage::Ping { payload } => with_payload(alloc, "ping", payload),
        ClientMessage::Pong { payload } => with_payload(alloc, "pong", payload),
    }
}

/// What is read of bytes, in words.
fn read_text(alloc: Global, bytes: &[u8]) -> Made<String> {
    match ClientMessage::from_bytes(alloc, bytes)? {
        Ok(message) => message_text(alloc, &message),
        Err(fault) => String::from_str(alloc, fault.text()),
    }
}

/// Messages that are read.
const MESSAGES: [(&str, &str); 17] = [
    (r#"{"type":"connection_init"}"#, "init none"),
    (r#"{"type":"connection_init","payload":null}"#, "init none"),
    (
        r#"{"type":"connection_init","payload":{"a":[1,"x"]}}"#,
        r#"init {"a":[1,"x"]}"#,
    ),
    (
        r#"{"type":"subscribe","id":"1","payload":{"query":"{ a }"}}"#,
        "start 1 { a }",
    ),
    (
        r#"{"payload":{"query":"{ a }","x":1},"id":"é","type":"start"}"#,
        "start é { a }",
    ),
    (r#"{"type":"start","id":"","payload":{}}"#, "start  "),
    (r#"{"type":"complete","id":"7"}"#, "stop 7"),
    (r#"{"type":"stop","id":"7","payload":5}"#, "stop 7"),
    (r#"{"type":"connection_terminate"}"#, "terminate"),
    (r#"{"type":"connection_terminate","id":5}"#, "terminate"),
    (r#"{"type":"ping"}"#, "ping none"),
    (r#"{"type":"ping","payload":null}"#, "ping none"),
    (r#"{"type":"ping","payload":"x","more":[]}"#, r#"ping "x""#),
    (r#"{"type":"pong","payload":-7}"#, "pong -7"),
    (r#"{"type":"ping","type":"pong"}"#, "pong none"),
    (r#" { "type" : "pong" } "#, "pong none"),
    (r#"{"type":"pi\u006eg"}"#, "ping none"),
];

/// Texts that are no messages: those without JSON, then those with a number past the limits, then
/// those of another shape, and last those of an unknown type.
const NO_MESSAGES: [(&str, &str); 32] = [
    ("", "Invalid message: not JSON"),
    ("{", "Invalid message: not JSON"),
    (r#"{"type":"ping"} x"#, "Invalid message: not JSON"),
    (r#"{"type":ping}"#, "Invalid message: not JSON"),
    (
        r#"{"type":"ping","payload":01}"#,
        "Invalid message: not JSON",
    ),
    (
        r#"{"type":"ping","payload":18446744073709551616}"#,
        "Invalid message: number",
    ),
    (r#"{"type":"x","payload":1.5}"#, "Invalid message: number"),
    (r#"[-9223372036854775809]"#, "Invalid message: number"),
    ("1e3", "Invalid message: number"),
    ("[]", "Invalid message: bad shape"),
    (r#"[{"type":"ping"}]"#, "Invalid message: bad shape"),
    ("null", "Invalid message: bad shape"),
    (r#""ping""#, "Invalid message: bad shape"),
    ("{}", "Invalid message: bad shape"),
    (r#"{"type":5}"#, "Invalid message: bad shape"),
    (r#"{"type":null}"#, "Invalid message: bad shape"),
    (r#"{"type":["ping"]}"#, "Invalid message: bad shape"),
    (
        r#"{"type":"subscribe","payload":{"query":"{ a }"}}"#,
        "Invalid message: bad shape",
    ),
    (
        r#"{"type":"start","id":1,"payload":{"query":"{ a }"}}"#,
        "Invalid message: bad shape",
    ),
    (r#"{"type":"start","id":"1"}"#, "Invalid message: bad shape"),
    (
        r#"{"type":"start","id":"1","payload":null}"#,
        "Invalid message: bad shape",
    ),
    (
        r#"{"type":"start","id":"1","payload":"{ a }"}"#,
        "Invalid message: bad shape",
    ),
    (
        r#"{"type":"start","id":"1","payload":[{"query":"{ a }"}]}"#,
        "Invalid message: bad shape",
    ),
    (
        r#"{"type":"start","id":"1","payload":{"query":5}}"#,
        "Invalid message: bad shape",
    ),
    (
        r#"{"type":"start","id":"1","payload":{"operationName":5}}"#,
        "Invalid message: bad shape",
    ),
    (
        r#"{"type":"start","id":"1","payload":{"variables":[]}}"#,
        "Invalid message: bad shape",
    ),
    (
        r#"{"type":"start","id":"1","payload":{"extensions":true}}"#,
        "Invalid message: bad shape",
    ),
    (r#"{"type":"stop"}"#, "Invalid message: bad shape"),
    (
        r#"{"type":"complete","id":null}"#,
        "Invalid message: bad shape",
    ),
    (r#"{"type":"x"}"#, "Invalid message: unknown type"),
    (r#"{"type":"Ping"}"#, "Invalid message: unknown type"),
    (
        r#"{"type":"connection_ack"}"#,
        "Invalid message: unknown type",
    ),
];

/// The first text of a table of which something else is read.
fn first_wrong(
    alloc: Global,
    table: &[(&'static str, &'static str)],
) -> Made<Option<&'static str>> {
    for (text, read) in table {
        if read_text(alloc, text.as_bytes())?.as_str() != *read {
            return Ok(Some(*text));
        }
    }
    Ok(None)
}

#[test]
fn messages_are_read(rt: HostRuntime) -> Result<(), Fail> {
    assert_eq!(rt; first_wrong(rt.alloc(), &MESSAGES)?, None);
    Ok(())
}

#[test]
fn other_texts_have_the_first_fault(rt: HostRuntime) -> Result<(), Fail> {
    assert_eq!(rt; first_wrong(rt.alloc(), &NO_MESSAGES)?, None);
    Ok(())
}

/// Whether these bytes are told to be no JSON.
fn is_not_json(alloc: Global, bytes: &[u8]) -> Made<bool> {
    match ClientMessage::from_bytes(alloc, bytes)? {
        Ok(_) => Ok(false),
        Err(fault) => Ok(fault == MessageFault::NotJson),
    }
}

/// The place of the first of these messages that is told to be JSON.
fn first_json(alloc: Global, messages: &[&[u8]]) -> Made<Option<usize>> {
    for (place, message) in messages.iter().enumerate() {
        if !is_not_json(alloc, message)? {
            return Ok(Some(place));
        }
    }
    Ok(None)
}

#[test]
fn bytes_that_are_no_text(rt: HostRuntime) -> Result<(), Fail> {
    let messages: [&[u8]; 4] = [
        b"\xff",
        b"{\"type\":\"ping\",\"payload\":\"\x80\"}",
        b"{\"type\":\"ping\"}\xc3",
        b"\xef\xbb\xbf{\"type\":\"ping\"}",
    ];
    assert_eq!(rt; first_json(rt.alloc(), &messages)?, None);
    Ok(())
}
