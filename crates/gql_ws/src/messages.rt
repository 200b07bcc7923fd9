//! The messages to a client, written.
ghost use Rattle.std.specs.Prelude.{◌≡◌, IfOk, Some, string_bytes};
ghost use Rattle.gql_base.specs.ErrorJson.{error_json, list_json};
ghost use Rattle.gql_request.specs.Response.{response_json};
ghost use Rattle.gql_ws.specs.Frames.{carrying, error_front, message_of, opened};
ghost use Rattle.gql_ws.specs.Frames as frame;
ghost use Rattle.gql_ws.specs.Session.{delivery, refusal, taken_id, unready};

use crate::ws_message::WsMessage;
use gql_base::{JsonText, Made, ServerError, Text, Value, push_errors, push_json, push_quoted};
use gql_protocols::Protocols;
use gql_request::Response;
use std::alloc::Global;

/// A message of this text.
fn text_message(alloc: Global, text: &str) -> Made<WsMessage>
    ensures { IfOk result (λ message. message ≡ WsMessage.Text text.now) }
{
    Ok(WsMessage::Text(Text::new(alloc, text)?))
}

/// The acknowledgement.
pub(crate) fn ack(alloc: Global) -> Made<WsMessage>
    ensures { IfOk result (λ message. message ≡ message_of frame.Ack) }
{
    text_message(alloc, "{\"type\":\"connection_ack\"}")
}

/// A close.
pub(crate) fn close(alloc: Global, code: u16, reason: &str) -> Made<WsMessage>
    ensures { IfOk result (λ message. message ≡ message_of (frame.Close code reason.now)) }
{
    Ok(WsMessage::Close(code, Text::new(alloc, reason)?))
}

/// That the session failed.
fn failed(alloc: Global, text: &str) -> Made<WsMessage>
    ensures { IfOk result (λ message. message ≡ message_of (frame.Failed text.now)) }
{
    let mut out = String::from_str(
        alloc,
        "{\"type\":\"connection_error\",\"payload\":{\"message\":",
    )?;
    push_quoted(&mut out, text)?;
    out.push_str("}}")?;
    Ok(WsMessage::Text(Text::from_string(out)?))
}

/// What refuses a client.
pub(crate) fn refusal(alloc: Global, protocol: Protocols, text: &str, code: u16) -> Made<WsMessage>
    ensures { IfOk result (λ message. message ≡ message_of (refusal protocol text.now code)) }
{
    match protocol {
        Protocols::SubscriptionsTransportWS => failed(alloc, text),
        Protocols::GraphQLWS => close(alloc, code, text),
    }
}

/// What answers a start before the acknowledgement.
pub(crate) fn unready(alloc: Global, protocol: Protocols) -> Made<WsMessage>
    ensures { IfOk result (λ message. message ≡ message_of (unready protocol)) }
{
    match protocol {
        Protocols::SubscriptionsTransportWS => {
            close(alloc, 1011, "The handshake is not completed.")
        }
        Protocols::GraphQLWS => close(alloc, 4401, "Unauthorized"),
    }
}

/// What answers a start of an id that is live.
pub(crate) fn taken_id(alloc: Global, id: &str) -> Made<WsMessage>
    ensures { IfOk result (λ message. message ≡ message_of (taken_id id.now)) }
{
    let mut reason = String::from_str(alloc, "Subscriber for ")?;
    reason.push_str(id)?;
    reason.push_str(" already exists")?;
    Ok(WsMessage::Close(4409, Text::from_string(reason)?))
}

/// A text that begins so, with an id, up to its payload.
fn opened(alloc: Global, front: &str, id: &str) -> Made<String>
    ensures { IfOk result (λ out. string_bytes out ≡ opened front.now id.now) }
{
    let mut out = String::from_str(alloc, front)?;
    push_quoted(&mut out, id)?;
    out.push_str(",\"payload\":")?;
    Ok(out)
}

/// A text that begins so, with a response under an id.
fn response_text(alloc: Global, front: &str, id: &str, response: &Response) -> Made<String>
    ensures { IfOk result (λ out. string_bytes out
        ≡ carrying front.now id.now (response_json response.now)) }
{
    let mut out = opened(alloc, front, id)?;
    response.push_text(&mut out)?;
    out.push_str("}")?;
    Ok(out)
}

/// A response under an id by the older protocol.
pub(crate) fn data(alloc: Global, id: &str, response: &Response) -> Made<WsMessage>
    ensures { IfOk result (λ message. message ≡ message_of (frame.Data id.now response.now)) }
{
    let text = response_text(alloc, "{\"type\":\"data\",\"id\":", id, response)?;
    Ok(WsMessage::Text(Text::from_string(text)?))
}

/// A response under an id by the newer protocol.
fn next(alloc: Global, id: &str, response: &Response) -> Made<WsMessage>
    ensures { IfOk result (λ message. message ≡ message_of (frame.Next id.now response.now)) }
{
    let text = response_text(alloc, "{\"type\":\"next\",\"id\":", id, response)?;
    Ok(WsMessage::Text(Text::from_string(text)?))
}

/// A response under an id.
pub(crate) fn delivery(
    alloc: Global,
    protocol: Protocols,
    id: &str,
    response: &Response,
) -> Made<WsMessage>
    ensures { IfOk result (λ message. message
        ≡ message_of (delivery protocol id.now response.now)) }
{
    match protocol {
        Protocols::SubscriptionsTransportWS => data(alloc, id, response),
        Protocols::GraphQLWS => next(alloc, id, response),
    }
}

/// The text of the errors of a refused request under an id.
fn error_text(alloc: Global, id: &str, errors: &[ServerError]) -> Made<String>
    ensures { IfOk result (λ out. string_bytes out
        ≡ carrying error_front id.now (list_json error_json errors.now)) }
{
    let mut out = opened(alloc, "{\"type\":\"error\",\"id\":", id)?;
    push_errors(&mut out, errors)?;
    out.push_str("}")?;
    Ok(out)
}

/// The errors of a refused request under an id.
pub(crate) fn error(alloc: Global, id: &str, errors: &[ServerError]) -> Made<WsMessage>
    ensures { IfOk result (λ message. message ≡ message_of (frame.Error id.now errors.now)) }
{
    let text = error_text(alloc, id, errors)?;
    Ok(WsMessage::Text(Text::from_string(text)?))
}

/// That no more comes under an id.
pub(crate) fn complete(alloc: Global, id: &str) -> Made<WsMessage>
    ensures { IfOk result (λ message. message ≡ message_of (frame.Complete id.now)) }
{
    let mut out = String::from_str(alloc, "{\"type\":\"complete\",\"id\":")?;
    push_quoted(&mut out, id)?;
    out.push('}')?;
    Ok(WsMessage::Text(Text::from_string(out)?))
}

/// The answer to a ping.
pub(crate) fn pong(alloc: Global, payload: &Option<Value>) -> Made<WsMessage>
    ensures { IfOk result (λ message. message ≡ message_of (frame.Pong payload.now)) }
{
    match payload {
        None => text_message(alloc, "{\"type\":\"pong\"}"),
        Some(payload) => pong_with(alloc, payload),
    }
}

fn pong_with(alloc: Global, payload: &Value) -> Made<WsMessage>
    ensures { IfOk result (λ message. message ≡ message_of (frame.Pong (Some payload.now))) }
{
    let mut out = String::from_str(alloc, "{\"type\":\"pong\",\"payload\":")?;
    push_json(&mut out, payload)?;
    out.push('}')?;
    Ok(WsMessage::Text(Text::from_string(out)?))
}
