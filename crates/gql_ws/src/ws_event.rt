ghost use Rattle.std.specs.Prelude.{◌≡◌, IfOk};

use crate::client_message::ClientMessage;
use crate::message_fault::MessageFault;
use gql_base::{Copied, Error, Items, Made, ServerError, Value};
use gql_request::{Data, Response};
use std::alloc::Global;

/// What happens to a session.
#[derive(Debug, Drop)]
pub enum WsEvent {
    /// A message of the client, or why it is none.
    Message(Result<ClientMessage, MessageFault>),
    /// That no message comes any more.
    InboxEnded,
    /// The answer to the job `Init`: what is added to the data of the connection, or a refusal.
    Init(Result<Data, Error>),
    /// The answer to the job `Ping`: the payload of the pong, or a refusal.
    Ping(Result<Option<Value>, Error>),
    /// A response of the start of a number.
    Item(u64, Response),
    /// That the start of a number gives no more.
    Ended(u64),
    /// That the request of the start of a number is refused with these errors.
    Refused(u64, Items<ServerError>),
    /// That the client was silent for too long.
    Timeout,
}

impl Copied for WsEvent {
    fn try_clone(&self, alloc: Global) -> Made<WsEvent> {
        match self {
            WsEvent::Message(message) => copy_message(alloc, message),
            WsEvent::InboxEnded => Ok(WsEvent::InboxEnded),
            WsEvent::Init(answer) => copy_init(alloc, answer),
            WsEvent::Ping(answer) => copy_ping(alloc, answer),
            WsEvent::Item(number, response) => {
                Ok(WsEvent::Item(*number, response.try_clone(alloc)?))
            }
            WsEvent::Ended(number) => Ok(WsEvent::Ended(*number)),
            WsEvent::Refused(number, errors) => {
                Ok(WsEvent::Refused(*number, errors.try_clone(alloc)?))
            }
            WsEvent::Timeout => Ok(WsEvent::Timeout),
        }
    }
}

fn copy_message(alloc: Global, message: &Result<ClientMessage, MessageFault>) -> Made<WsEvent>
    ensures { IfOk result (λ copy. copy ≡ WsEvent.Message message.now) }
{
    match message {
        Ok(message) => Ok(WsEvent::Message(Ok(message.try_clone(alloc)?))),
        Err(fault) => Ok(WsEvent::Message(Err(*fault))),
    }
}

fn copy_init(alloc: Global, answer: &Result<Data, Error>) -> Made<WsEvent>
    ensures { IfOk result (λ copy. copy ≡ WsEvent.Init answer.now) }
{
    match answer {
        Ok(added) => Ok(WsEvent::Init(Ok(added.try_clone(alloc)?))),
        Err(error) => Ok(WsEvent::Init(Err(error.try_clone(alloc)?))),
    }
}

fn copy_ping(alloc: Global, answer: &Result<Option<Value>, Error>) -> Made<WsEvent>
    ensures { IfOk result (λ copy. copy ≡ WsEvent.Ping answer.now) }
{
    match answer {
        Ok(payload) => Ok(WsEvent::Ping(Ok(payload.try_clone(alloc)?))),
        Err(error) => Ok(WsEvent::Ping(Err(error.try_clone(alloc)?))),
    }
}
