//! GraphQL over WebSocket: a session as a table of events.
#![tactic(auto)]

mod client_message;
mod job;
pub mod laws;
mod live;
mod lives;
mod message_fault;
mod messages;
mod session;
mod shared;
mod starts;
mod ws_event;
mod ws_message;

pub use client_message::ClientMessage;
pub use gql_multipart::{MultipartMixed, is_accept_multipart_mixed};
pub use gql_protocols::{ALL_WEBSOCKET_PROTOCOLS, Protocols, UnsupportedProtocol};
pub use job::{Job, WsStep};
pub use message_fault::MessageFault;
pub use session::WsCore;
pub use ws_event::WsEvent;
pub use ws_message::WsMessage;
