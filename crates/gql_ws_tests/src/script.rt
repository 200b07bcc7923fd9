//! Sessions by scripts: what happens to a session, and what it writes and asks for.
use gql_base::{Copied, Error, Made, ServerError, Text, Value, json_of};
use gql_request::{Data, DataKey, Response};
use gql_ws::{ClientMessage, Job, Protocols, WsCore, WsEvent, WsMessage, WsStep};
use std::alloc::Global;

/// What happens to a session.
#[derive(Clone, Copy)]
pub(crate) enum Entry {
    /// The client says this.
    Says(&'static str),
    /// The inbox ends.
    Gone,
    /// The init is answered with this under key 1.
    Welcome(&'static str),
    /// The init is answered with this error.
    Unwelcome(&'static str),
    /// The ping is answered with nothing.
    Quiet,
    /// The ping is answered with this.
    Echo(&'static str),
    /// The ping is answered with this error.
    Deaf(&'static str),
    /// The start of this number gives a response with this as its data.
    Item(u64, &'static str),
    Ended(u64),
    /// The request of the start of this number is refused with this error.
    Refused(u64, &'static str),
    Timeout,
}

fn string(alloc: Global, text: &str) -> Made<Value> {
    Ok(Value::String(Text::new(alloc, text)?))
}

/// Data with this under a key.
pub(crate) fn one_value(alloc: Global, key: u32, text: &str) -> Made<Data> {
    let value = string(alloc, text)?;
    let mut data = Data::new(alloc);
    data.insert(DataKey(key), value)?;
    Ok(data)
}

fn refused(alloc: Global, number: u64, message: &str) -> Made<WsEvent> {
    let errors = ServerError::new(alloc, message, None)?.into_list(alloc)?;
    Ok(WsEvent::Refused(number, errors))
}

fn event_of(alloc: Global, entry: Entry) -> Made<WsEvent> {
    match entry {
        Entry::Says(text) => Ok(WsEvent::Message(ClientMessage::from_bytes(
            alloc,
            text.as_bytes(),
        )?)),
        Entry::Gone => Ok(WsEvent::InboxEnded),
        Entry::Welcome(text) => Ok(WsEvent::Init(Ok(one_value(alloc, 1, text)?))),
        Entry::Unwelcome(text) => Ok(WsEvent::Init(Err(Error::new(alloc, text)?))),
        Entry::Quiet => Ok(WsEvent::Ping(Ok(None))),
        Entry::Echo(text) => Ok(WsEvent::Ping(Ok(Some(string(alloc, text)?)))),
        Entry::Deaf(text) => Ok(WsEvent::Ping(Err(Error::new(alloc, text)?))),
        Entry::Item(number, text) => {
            let value = string(alloc, text)?;
            Ok(WsEvent::Item(number, Response::new(alloc, value)))
        }
        Entry::Ended(number) => Ok(WsEvent::Ended(number)),
        Entry::Refused(number, message) => refused(alloc, number, message),
        Entry::Timeout => Ok(WsEvent::Timeout),
    }
}

fn push_out(out: &mut String, message: &Option<WsMessage>) -> Made<()> {
    match message {
        None => Ok(()),
        Some(WsMessage::Text(text)) => write!(out, "text {text}\n"),
        Some(WsMessage::Close(code, reason)) => write!(out, "close {code} {reason}\n"),
    }
}

fn push_payload(out: &mut String, alloc: Global, kind: &str, payload: &Value) -> Made<()> {
    let payload = json_of(alloc, payload)?;
    write!(out, "{kind} {payload}\n")
}

fn push_job(out: &mut String, alloc: Global, job: &Job) -> Made<()> {
    match job {
        Job::Nothing => Ok(()),
        Job::Init(payload) => push_payload(out, alloc, "init", payload),
        Job::Ping(None) => out.push_str("ping\n"),
        Job::Ping(Some(payload)) => push_payload(out, alloc, "ping", payload),
        Job::Start {
            number,
            id,
            request,
            replaced: None,
        } => write!(out, "start {number} {id} {}\n", request.query),
        Job::Start {
            number,
            id,
            request,
            replaced: Some(old),
        } => write!(out, "start {number} {id} {} for {old}\n", request.query),
        Job::Drop(number) => write!(out, "drop {number}\n"),
    }
}

fn push_step(out: &mut String, alloc: Global, step: &WsStep) -> Made<()> {
    push_out(out, &step.out)?;
    push_job(out, alloc, &step.job)
}

fn happen(out: &mut String, alloc: Global, core: &mut WsCore, entry: Entry) -> Made<()> {
    let event = event_of(alloc, entry)?;
    let step = core.step(alloc, event)?;
    push_step(out, alloc, &step)
}

/// What a session writes and asks for in a script, a line for each message and each job.
pub(crate) fn lines(alloc: Global, protocol: Protocols, script: &[Entry]) -> Made<String> {
    let mut out = String::new(alloc);
    let mut core = WsCore::new(alloc, protocol, Data::new(alloc));
    for entry in script {
        happen(&mut out, alloc, &mut core, *entry)?;
    }
    Ok(out)
}

/// The same step by a copy of the session, with a copy of the event, read off a copy of the step.
fn happen_copied(out: &mut String, alloc: Global, core: &WsCore, entry: Entry) -> Made<WsCore> {
    let event = event_of(alloc, entry)?.try_clone(alloc)?;
    let mut core = core.try_clone(alloc)?;
    let step = core.step(alloc, event)?.try_clone(alloc)?;
    push_step(out, alloc, &step)?;
    Ok(core)
}

/// What a session writes and asks for in a script, where all is copied in each step.
pub(crate) fn copied_lines(alloc: Global, protocol: Protocols, script: &[Entry]) -> Made<String> {
    let mut out = String::new(alloc);
    let mut core = WsCore::new(alloc, protocol, Data::new(alloc));
    for entry in script {
        core = happen_copied(&mut out, alloc, &core, *entry)?;
    }
    Ok(out)
}
