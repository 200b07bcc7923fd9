use crate::script::{Entry, lines, one_value};
use gql_base::{Made, Value};
use gql_request::{Data, DataKey};
use gql_ws::{ClientMessage, Protocols, WsCore, WsEvent};
use std::alloc::Global;
use std::test::Fail;

/// A script by one protocol, with what a session writes and asks for, line by line.
type Row = (Protocols, &'static [Entry], &'static [&'static str]);

const OLDER: Protocols = Protocols::SubscriptionsTransportWS;

const NEWER: Protocols = Protocols::GraphQLWS;

const INIT: Entry = Entry::Says(r#"{"type":"connection_init"}"#);

const BYE: Entry = Entry::Says(r#"{"type":"connection_terminate"}"#);

const FIRST: Entry = Entry::Says(r#"{"type":"subscribe","id":"1","payload":{"query":"{ a }"}}"#);

const SECOND: Entry = Entry::Says(r#"{"type":"start","id":"2","payload":{"query":"{ b }"}}"#);

const STOP: Entry = Entry::Says(r#"{"type":"complete","id":"1"}"#);

const PING: Entry = Entry::Says(r#"{"type":"ping","payload":{"a":1}}"#);

const PONG: Entry = Entry::Says(r#"{"type":"pong"}"#);

const QUOTED: Entry = Entry::Says(r#"{"type":"start","id":"a\"b","payload":{}}"#);

const ASKED: &str = "init null";

const ACK: &str = r#"text {"type":"connection_ack"}"#;

const COMPLETE: &str = r#"text {"type":"complete","id":"1"}"#;

const OTHER_COMPLETE: &str = r#"text {"type":"complete","id":"2"}"#;

/// How sessions begin.
const BEGINNINGS: [Row; 12] = [
    (
        NEWER,
        &[INIT, Entry::Welcome("x"), INIT],
        &[ASKED, ACK, "close 4429 Too many initialisation requests."],
    ),
    (
        OLDER,
        &[INIT, Entry::Welcome("x"), INIT],
        &[
            ASKED,
            ACK,
            r#"text {"type":"connection_error","payload":{"message":"Too many initialisation requests."}}"#,
        ],
    ),
    (
        NEWER,
        &[INIT, INIT],
        &[ASKED, "close 4429 Too many initialisation requests."],
    ),
    (
        NEWER,
        &[Entry::Says(r#"{"type":"connection_init","payload":{"k":[]}}"#)],
        &[r#"init {"k":[]}"#],
    ),
    (NEWER, &[FIRST, INIT], &["close 4401 Unauthorized"]),
    (
        OLDER,
        &[FIRST, INIT],
        &["close 1011 The handshake is not completed."],
    ),
    (NEWER, &[INIT, FIRST], &[ASKED, "close 4401 Unauthorized"]),
    (
        OLDER,
        &[INIT, FIRST],
        &[ASKED, "close 1011 The handshake is not completed."],
    ),
    (
        NEWER,
        &[INIT, Entry::Unwelcome("no"), Entry::Welcome("x")],
        &[ASKED, "close 1002 no"],
    ),
    (
        OLDER,
        &[INIT, Entry::Unwelcome("n\"o"), Entry::Welcome("x")],
        &[
            ASKED,
            r#"text {"type":"connection_error","payload":{"message":"n\"o"}}"#,
        ],
    ),
    (
        NEWER,
        &[Entry::Welcome("x"), Entry::Unwelcome("no"), PONG, STOP],
        &[],
    ),
    (
        NEWER,
        &[
            INIT,
            Entry::Welcome("x"),
            Entry::Unwelcome("no"),
            Entry::Welcome("y"),
        ],
        &[ASKED, ACK],
    ),
];

/// How sessions end.
const ENDINGS: [Row; 9] = [
    (NEWER, &[Entry::Timeout, INIT], &["close 3008 timeout"]),
    (
        OLDER,
        &[Entry::Timeout, INIT],
        &[r#"text {"type":"connection_error","payload":{"message":"timeout"}}"#],
    ),
    (
        NEWER,
        &[Entry::Says("{"), INIT],
        &["close 1002 Invalid message: not JSON"],
    ),
    (
        OLDER,
        &[Entry::Says(r#"{"type":"x"}"#), INIT],
        &["close 1002 Invalid message: unknown type"],
    ),
    (NEWER, &[BYE, INIT, Entry::Timeout], &[]),
    (OLDER, &[Entry::Gone, INIT, Entry::Timeout], &[]),
    (
        NEWER,
        &[PING, Entry::Deaf("no"), PING],
        &[r#"ping {"a":1}"#, "close 1002 no"],
    ),
    (
        OLDER,
        &[PING, Entry::Deaf("no"), PING],
        &[
            r#"ping {"a":1}"#,
            r#"text {"type":"connection_error","payload":{"message":"no"}}"#,
        ],
    ),
    (
        NEWER,
        &[
            FIRST,
            Entry::Says("{"),
            Entry::Gone,
            Entry::Welcome("x"),
            Entry::Unwelcome("x"),
            Entry::Quiet,
            Entry::Deaf("x"),
            Entry::Item(0, "x"),
            Entry::Ended(0),
            Entry::Refused(0, "x"),
            Entry::Timeout,
            PING,
            STOP,
            BYE,
        ],
        &["close 4401 Unauthorized"],
    ),
];

/// Pings, at any time.
const PINGS: [Row; 4] = [
    (
        NEWER,
        &[PING, Entry::Quiet, Entry::Quiet],
        &[r#"ping {"a":1}"#, r#"text {"type":"pong"}"#],
    ),
    (
        OLDER,
        &[Entry::Says(r#"{"type":"ping"}"#), Entry::Echo("x")],
        &["ping", r#"text {"type":"pong","payload":"x"}"#],
    ),
    (
        NEWER,
        &[PING, PING],
        &[r#"ping {"a":1}"#, r#"ping {"a":1}"#],
    ),
    (
        NEWER,
        &[Entry::Quiet, Entry::Echo("x"), Entry::Deaf("x")],
        &[],
    ),
];

/// What follows the first start of a session.
const STARTS: [Row; 14] = [
    (
        NEWER,
        &[FIRST],
        &["close 4409 Subscriber for 1 already exists"],
    ),
    (
        OLDER,
        &[
            FIRST,
            Entry::Item(0, "x"),
            Entry::Item(1, "y"),
            Entry::Ended(0),
            Entry::Ended(1),
        ],
        &[
            "start 1 1 { a } for 0",
            r#"text {"type":"data","id":"1","payload":{"data":"y"}}"#,
            COMPLETE,
        ],
    ),
    (
        NEWER,
        &[
            Entry::Item(0, "x"),
            Entry::Ended(0),
            Entry::Item(0, "y"),
            Entry::Ended(0),
        ],
        &[
            r#"text {"type":"next","id":"1","payload":{"data":"x"}}"#,
            COMPLETE,
        ],
    ),
    (
        NEWER,
        &[STOP, Entry::Item(0, "x"), STOP, Entry::Ended(0)],
        &[COMPLETE, "drop 0"],
    ),
    (
        NEWER,
        &[STOP, FIRST, Entry::Item(0, "x"), Entry::Item(1, "y")],
        &[
            COMPLETE,
            "drop 0",
            "start 1 1 { a }",
            r#"text {"type":"next","id":"1","payload":{"data":"y"}}"#,
        ],
    ),
    (
        NEWER,
        &[
            Entry::Refused(0, "no"),
            Entry::Ended(0),
            Entry::Refused(0, "no"),
        ],
        &[
            r#"text {"type":"error","id":"1","payload":[{"message":"no"}]}"#,
            "drop 0",
        ],
    ),
    (
        OLDER,
        &[
            Entry::Refused(0, "no"),
            Entry::Ended(0),
            Entry::Refused(0, "no"),
        ],
        &[
            r#"text {"type":"data","id":"1","payload":{"data":null,"errors":[{"message":"no"}]}}"#,
            COMPLETE,
        ],
    ),
    (
        NEWER,
        &[SECOND, STOP, Entry::Item(1, "x"), Entry::Ended(1)],
        &[
            "start 1 2 { b }",
            COMPLETE,
            "drop 0",
            r#"text {"type":"next","id":"2","payload":{"data":"x"}}"#,
            OTHER_COMPLETE,
        ],
    ),
    (
        OLDER,
        &[SECOND, FIRST, Entry::Ended(1), Entry::Ended(2)],
        &[
            "start 1 2 { b }",
            "start 2 1 { a } for 0",
            OTHER_COMPLETE,
            COMPLETE,
        ],
    ),
    (
        NEWER,
        &[QUOTED, Entry::Item(1, "x"), QUOTED],
        &[
            r#"start 1 a"b "#,
            r#"text {"type":"next","id":"a\"b","payload":{"data":"x"}}"#,
            r#"close 4409 Subscriber for a"b already exists"#,
        ],
    ),
    (
        NEWER,
        &[
            Entry::Item(7, "x"),
            Entry::Ended(7),
            Entry::Refused(7, "x"),
            PONG,
        ],
        &[],
    ),
    (
        NEWER,
        &[BYE, Entry::Item(0, "x"), Entry::Ended(0), FIRST],
        &[],
    ),
    (OLDER, &[Entry::Gone, Entry::Item(0, "x"), STOP, FIRST], &[]),
    (
        NEWER,
        &[Entry::Timeout, Entry::Item(0, "x"), STOP],
        &["close 3008 timeout"],
    ),
];

/// Whether a text has these lines and no more.
fn has_lines(alloc: Global, text: &str, lines: &[&str]) -> Made<bool> {
    let mut all = String::new(alloc);
    for line in lines {
        all.push_str(line)?;
        all.push('\n')?;
    }
    Ok(all.as_str() == text)
}

/// Whether this is what a session writes and asks for.
fn tells(alloc: Global, row: &Row) -> Made<bool> {
    let (protocol, script, told) = *row;
    let text = lines(alloc, protocol, script)?;
    has_lines(alloc, text.as_str(), told)
}

/// The place of the first row that doesn't hold.
fn first_wrong(alloc: Global, rows: &[Row]) -> Made<Option<usize>> {
    for (place, row) in rows.iter().enumerate() {
        if !tells(alloc, row)? {
            return Ok(Some(place));
        }
    }
    Ok(None)
}

#[test]
fn sessions_begin(rt: HostRuntime) -> Result<(), Fail> {
    assert_eq!(rt; first_wrong(rt.alloc(), &BEGINNINGS)?, None);
    Ok(())
}

#[test]
fn sessions_end(rt: HostRuntime) -> Result<(), Fail> {
    assert_eq!(rt; first_wrong(rt.alloc(), &ENDINGS)?, None);
    Ok(())
}

#[test]
fn pings_are_answered(rt: HostRuntime) -> Result<(), Fail> {
    assert_eq!(rt; first_wrong(rt.alloc(), &PINGS)?, None);
    Ok(())
}

/// What a session writes and asks for up to its first start.
const STARTED: &str = "init null\ntext {\"type\":\"connection_ack\"}\nstart 0 1 { a }\n";

/// What a session writes and asks for in all of a script after a start of the id 1.
fn after_start(alloc: Global, protocol: Protocols, script: &[Entry]) -> Made<String> {
    let mut all = Vec::from_slice(alloc, &[INIT, Entry::Welcome("x"), FIRST])?;
    all.extend_from_slice(script)?;
    lines(alloc, protocol, all.as_slice())
}

/// Whether this is what a session writes and asks for after a start.
fn tells_behind(alloc: Global, row: &Row) -> Made<bool> {
    let (protocol, script, told) = *row;
    let text = after_start(alloc, protocol, script)?;
    match text.as_str().strip_prefix(STARTED) {
        Some(rest) => has_lines(alloc, rest, told),
        None => Ok(false),
    }
}

/// The place of the first row that doesn't hold after a start.
fn first_wrong_start(alloc: Global, rows: &[Row]) -> Made<Option<usize>> {
    for (place, row) in rows.iter().enumerate() {
        if !tells_behind(alloc, row)? {
            return Ok(Some(place));
        }
    }
    Ok(None)
}

#[test]
fn starts_are_served(rt: HostRuntime) -> Result<(), Fail> {
    assert_eq!(rt; first_wrong_start(rt.alloc(), &STARTS)?, None);
    Ok(())
}

/// The values of a session under the keys 1 and 2, or that it has no data.
fn session_text(alloc: Global, core: &WsCore) -> Made<String> {
    match core.session() {
        None => String::from_str(alloc, "none"),
        Some(data) => data_text(alloc, data),
    }
}

fn data_text(alloc: Global, data: &Data) -> Made<String> {
    let mut out = String::new(alloc);
    for key in 1..3 {
        if let Some(Value::String(text)) = data.get(DataKey(key)) {
            write!(out, "{text} ")?;
        }
    }
    Ok(out)
}

/// Welcomes the client of a session.
fn welcome(alloc: Global, core: &mut WsCore) -> Made<()> {
    let added = one_value(alloc, 1, "new")?;
    core.step(alloc, WsEvent::Init(Ok(added)))?;
    Ok(())
}

/// The data of a session before its acknowledgement, and after it.
fn sessions_text(alloc: Global) -> Made<String> {
    let mut connection = one_value(alloc, 1, "old")?;
    connection.merge(one_value(alloc, 2, "kept")?)?;
    let mut core = WsCore::new(alloc, NEWER, connection);
    core.step(
        alloc,
        WsEvent::Message(Ok(ClientMessage::ConnectionInit { payload: None })),
    )?;
    let before = session_text(alloc, &core)?;
    welcome(alloc, &mut core)?;
    let after = session_text(alloc, &core)?;
    format!(in alloc; "{before}; {after}")
}

#[test]
fn data_of_a_session_are_merged(rt: HostRuntime) -> Result<(), Fail> {
    assert_eq!(rt; sessions_text(rt.alloc())?.as_str(), "none; new kept ");
    Ok(())
}
