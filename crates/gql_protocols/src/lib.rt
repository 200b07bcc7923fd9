//! The subprotocols of GraphQL over WebSocket, by their names.
#![tactic(auto)]

mod protocols;

pub use protocols::{ALL_WEBSOCKET_PROTOCOLS, Protocols, UnsupportedProtocol};
