//! The messages of a client, and how they are read.
ghost use Rattle.std.specs.Prelude.{◌≡◌, IfOk, Ok, option_map};
ghost use Rattle.std.specs.Option.{option_copied};
ghost use Rattle.serde_json.specs.View.{view};
ghost use Rattle.gql_ws.specs.Reading.{GivesMessage, GivesNotJson, IsRead, IsTold, message_in};
ghost use Rattle.gql_ws.specs.Reading.{value_message, members_message, typed_message};
ghost use Rattle.gql_ws.specs.Reading.{type_named, text_in};
ghost use Rattle.gql_ws.specs.Reading.{payload_in, id_in, request_in};

use crate::message_fault::MessageFault;
use gql_base::{Copied, Made, Pairs, Text, Value, from_json};
use gql_request::{ParseRequestError, Request};
use std::alloc::{AllocError, Global};

/// A message of a client.
#[derive(Debug, Drop)]
pub enum ClientMessage {
    /// The first one, with what the client tells of itself.
    ConnectionInit { payload: Option<Value> },
    /// A request under an id of the client's.
    Start { id: Text, payload: Request },
    /// That no more is wanted under an id.
    Stop { id: Text },
    ConnectionTerminate,
    Ping { payload: Option<Value> },
    Pong { payload: Option<Value> },
}

/// Why reading stops.
#[derive(Clone, Copy, Debug)]
pub enum Fault {
    Bad(MessageFault),
    NoMemory,
}

impl From<AllocError> for Fault {
    ghost use Rattle.std.specs.Prelude.{◌≡◌};
    ghost use Rattle.gql_ws.specs.declared.client_message.Fault.TheVariants.{NoMemory};

    ghost from_gives = { λ _ fault. fault ≡ NoMemory };

    fn from(_error: AllocError) -> Fault {
        Fault::NoMemory
    }
}

impl ClientMessage {
    /// The message that these bytes are, or the first fault of theirs.
    pub fn from_bytes(alloc: Global, message: &[u8]) -> Made<Result<ClientMessage, MessageFault>>
        ensures json { IfOk result (λ read. GivesMessage message.now read) }
        ensures other { IfOk result (λ read. GivesNotJson message.now read) }
    {
        match serde_json::Value::from_slice(alloc, message) {
            Ok(json) => read_json(alloc, &json),
            Err(error) if error.is_memory() => Err(AllocError),
            Err(_) => Ok(Err(MessageFault::NotJson)),
        }
    }
}

/// The message of a JSON value.
fn read_json(alloc: Global, json: &serde_json::Value) -> Made<Result<ClientMessage, MessageFault>>
    ensures { IfOk result (λ read. read ≡ message_in (view json.now)) }
{
    match from_json(alloc, json)? {
        Ok(value) => told(read_value(alloc, &value)),
        Err(_) => Ok(Err(MessageFault::Number)),
    }
}

/// What was read, with that memory ran out outside.
fn told(read: Result<ClientMessage, Fault>) -> Made<Result<ClientMessage, MessageFault>>
    ensures { IfOk result (λ outside. IsTold read outside) }
{
    match read {
        Ok(message) => Ok(Ok(message)),
        Err(Fault::Bad(fault)) => Ok(Err(fault)),
        Err(Fault::NoMemory) => Err(AllocError),
    }
}

/// The message of a value.
fn read_value(alloc: Global, value: &Value) -> Result<ClientMessage, Fault>
    ensures { IsRead result (value_message value.now) }
{
    match value {
        Value::Object(members) => read_members(alloc, members),
        _ => Err(Fault::Bad(MessageFault::Shape)),
    }
}

/// The message of an object's members.
fn read_members(alloc: Global, members: &Pairs<Value>) -> Result<ClientMessage, Fault>
    ensures { IsRead result (members_message members.now) }
{
    let Some(kind) = read_type(members.get("type")) else {
        return Err(Fault::Bad(MessageFault::Shape));
    };
    match type_named(kind) {
        Some(kind) => read_of_type(alloc, kind, members),
        None => Err(Fault::Bad(MessageFault::Unknown)),
    }
}

/// The types of messages.
#[derive(Clone, Copy)]
pub enum MessageType {
    Init,
    Start,
    Stop,
    Terminate,
    Ping,
    Pong,
}

/// The text of the member `type`.
fn read_type(member: Option<&Value>) -> Option<&str>
    ensures { option_map (λ text. text.now) result ≡ text_in (option_copied member.entry) }
{
    match member {
        Some(Value::String(text)) => Some(text.as_str()),
        _ => None,
    }
}

/// The type of a name. Two types have two names: that of the older protocol and of the newer.
fn type_named(name: &str) -> Option<MessageType>
    ensures { result ≡ type_named name.now }
{
    match name {
        "connection_init" => Some(MessageType::Init),
        "start" => Some(MessageType::Start),
        "subscribe" => Some(MessageType::Start),
        "stop" => Some(MessageType::Stop),
        "complete" => Some(MessageType::Stop),
        "connection_terminate" => Some(MessageType::Terminate),
        "ping" => Some(MessageType::Ping),
        "pong" => Some(MessageType::Pong),
        _ => None,
    }
}

/// The message of a type.
fn read_of_type(
    alloc: Global,
    kind: MessageType,
    members: &Pairs<Value>,
) -> Result<ClientMessage, Fault>
    ensures { IsRead result (typed_message kind members.now) }
{
    match kind {
        MessageType::Init => {
            let payload = read_payload(alloc, members.get("payload"))?;
            Ok(ClientMessage::ConnectionInit { payload })
        }
        MessageType::Start => {
            let id = read_id(alloc, members.get("id"))?;
            let payload = read_request(alloc, members.get("payload"))?;
            Ok(ClientMessage::Start { id, payload })
        }
        MessageType::Stop => {
            let id = read_id(alloc, members.get("id"))?;
            Ok(ClientMessage::Stop { id })
        }
        MessageType::Terminate => Ok(ClientMessage::ConnectionTerminate),
        MessageType::Ping => {
            let payload = read_payload(alloc, members.get("payload"))?;
            Ok(ClientMessage::Ping { payload })
        }
        MessageType::Pong => {
            let payload = read_payload(alloc, members.get("payload"))?;
            Ok(ClientMessage::Pong { payload })
        }
    }
}

/// The payload of an init, a ping or a pong; null is none.
fn read_payload(alloc: Global, member: Option<&Value>) -> Result<Option<Value>, Fault>
    ensures { IsRead result (Ok (payload_in (option_copied member.entry))) }
{
    match member {
        None => Ok(None),
        Some(Value::Null) => Ok(None),
        Some(value) => Ok(Some(value.try_clone(alloc)?)),
    }
}

/// The text of the member `id`.
fn read_id(alloc: Global, member: Option<&Value>) -> Result<Text, Fault>
    ensures { IsRead result (id_in (option_copied member.entry)) }
{
    match member {
        Some(Value::String(id)) => Ok(id.try_clone(alloc)?),
        _ => Err(Fault::Bad(MessageFault::Shape)),
    }
}

/// The request of the member `payload` of a start.
fn read_request(alloc: Global, member: Option<&Value>) -> Result<Request, Fault>
    ensures { IsRead result (request_in (option_copied member.entry)) }
{
    let Some(value) = member else {
        return Err(Fault::Bad(MessageFault::Shape));
    };
    match Request::from_json(alloc, value)? {
        Ok(request) => Ok(request),
        Err(ParseRequestError::InvalidRequest(_)) => Err(Fault::Bad(MessageFault::Shape)),
        Err(ParseRequestError::UnsupportedBatch) => Err(Fault::Bad(MessageFault::Shape)),
    }
}

impl Copied for ClientMessage {
    fn try_clone(&self, alloc: Global) -> Made<ClientMessage> {
        match self {
            ClientMessage::ConnectionInit { payload } => Ok(ClientMessage::ConnectionInit {
                payload: payload.try_clone(alloc)?,
            }),
            ClientMessage::Start { id, payload } => Ok(ClientMessage::Start {
                id: id.try_clone(alloc)?,
                payload: payload.try_clone(alloc)?,
            }),
            ClientMessage::Stop { id } => Ok(ClientMessage::Stop {
                id: id.try_clone(alloc)?,
            }),
            ClientMessage::ConnectionTerminate => Ok(ClientMessage::ConnectionTerminate),
            ClientMessage::Ping { payload } => Ok(ClientMessage::Ping {
                payload: payload.try_clone(alloc)?,
            }),
            ClientMessage::Pong { payload } => Ok(ClientMessage::Pong {
                payload: payload.try_clone(alloc)?,
            }),
        }
    }
}
