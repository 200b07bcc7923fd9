use crate::script::{Entry, copied_lines, lines};
use gql_base::{Copied, Made, Text};
use gql_ws::laws::{data_once_acknowledged, every_session_is_safe, kinds_of_messages_differ};
use gql_ws::{Protocols, WsMessage};
use std::alloc::Global;
use std::test::Fail;

/// A message of this text, or with a code a close.
fn message(alloc: Global, code: u16, text: &str) -> Made<WsMessage> {
    let text = Text::new(alloc, text)?;
    if code == 0 {
        Ok(WsMessage::Text(text))
    } else {
        Ok(WsMessage::Close(code, text))
    }
}

/// Two messages, and whether they are equal.
const PAIRS: [(u16, &str, u16, &str, bool); 6] = [
    (0, "a", 0, "a", true),
    (0, "a", 0, "b", false),
    (0, "a", 1002, "a", false),
    (1002, "a", 1002, "a", true),
    (1002, "a", 1011, "a", false),
    (1002, "a", 1002, "b", false),
];

/// Whether two messages are equal, read off a copy of the second.
fn are_equal(alloc: Global, pair: &(u16, &str, u16, &str, bool)) -> Made<bool> {
    let (code, text, other_code, other_text, _) = *pair;
    let first = message(alloc, code, text)?;
    let second = message(alloc, other_code, other_text)?;
    Ok(first == second.try_clone(alloc)?)
}

/// The place of the first pair that is told otherwise.
fn first_wrong(alloc: Global) -> Made<Option<usize>> {
    for (place, pair) in PAIRS.iter().enumerate() {
        if are_equal(alloc, pair)? != pair.4 {
            return Ok(Some(place));
        }
    }
    Ok(None)
}

#[test]
fn messages_are_compared(rt: HostRuntime) -> Result<(), Fail> {
    assert_eq!(rt; first_wrong(rt.alloc())?, None);
    Ok(())
}

/// The text of a text message, and the code and the reason of a close.
fn unwrapped(alloc: Global) -> Made<String> {
    let text = WsMessage::Text(Text::new(alloc, "a")?).unwrap_text();
    let (code, reason) = WsMessage::Close(1002, Text::new(alloc, "b")?).unwrap_close();
    format!(in alloc; "{text} {code} {reason}")
}

#[test]
fn messages_are_unwrapped(rt: HostRuntime) -> Result<(), Fail> {
    assert_eq!(rt; unwrapped(rt.alloc())?.as_str(), "a 1002 b");
    Ok(())
}

const INIT: Entry = Entry::Says(r#"{"type":"connection_init","payload":[1]}"#);

const FIRST: Entry = Entry::Says(r#"{"type":"start","id":"1","payload":{"query":"{ a }"}}"#);

const SECOND: Entry = Entry::Says(r#"{"type":"start","id":"2","payload":{"query":"{ b }"}}"#);

const STOP: Entry = Entry::Says(r#"{"type":"stop","id":"2"}"#);

const PING: Entry = Entry::Says(r#"{"type":"ping","payload":{"a":1}}"#);

const PONG: Entry = Entry::Says(r#"{"type":"pong","payload":"x"}"#);

/// A session in which all that can happen happens.
const SCRIPT: [Entry; 17] = [
    INIT,
    Entry::Welcome("x"),
    FIRST,
    SECOND,
    FIRST,
    Entry::Item(2, "y"),
    PING,
    Entry::Echo("z"),
    PONG,
    STOP,
    Entry::Refused(2, "no"),
    Entry::Ended(2),
    PING,
    Entry::Quiet,
    Entry::Unwelcome("no"),
    Entry::Timeout,
    Entry::Gone,
];

/// Whether copies do as their sources do.
fn copies_serve(alloc: Global, protocol: Protocols) -> Made<bool> {
    let told = lines(alloc, protocol, &SCRIPT)?;
    let copied = copied_lines(alloc, protocol, &SCRIPT)?;
    Ok(told.as_str() == copied.as_str())
}

#[test]
fn sessions_are_copied(rt: HostRuntime) -> Result<(), Fail> {
    assert!(rt; copies_serve(rt.alloc(), Protocols::SubscriptionsTransportWS)?);
    assert!(rt; copies_serve(rt.alloc(), Protocols::GraphQLWS)?);
    Ok(())
}

#[test]
fn laws_are_calls(_rt: HostRuntime) -> Result<(), Fail> {
    every_session_is_safe();
    kinds_of_messages_differ();
    data_once_acknowledged();
    Ok(())
}
