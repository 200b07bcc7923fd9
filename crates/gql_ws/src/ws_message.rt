ghost use Rattle.std.specs.Prelude.{◌≡◌, ◌↔◌, IsTrue};
ghost use Rattle.gql_ws.specs.WsMessage.{IsText, IsClose};

use gql_base::{Copied, Made, Text};
use std::alloc::Global;

/// A message to the client.
#[derive(Debug, Drop)]
pub enum WsMessage {
    Text(Text),
    /// A close with its code and its reason (RFC 6455, section 7.4).
    Close(u16, Text),
}

impl WsMessage {
    /// The text of a text message.
    pub fn unwrap_text(self) -> Text
        requires { IsText self }
        ensures { self ≡ WsMessage.Text result }
    {
        match self {
            WsMessage::Text(text) => text,
            WsMessage::Close(_, _) => unreachable!(),
        }
    }

    /// The code and the reason of a close.
    pub fn unwrap_close(self) -> (u16, Text)
        requires { IsClose self }
        ensures { self ≡ WsMessage.Close result.0 result.1 }
    {
        match self {
            WsMessage::Close(code, reason) => (code, reason),
            WsMessage::Text(_) => unreachable!(),
        }
    }
}

impl Copied for WsMessage {
    fn try_clone(&self, alloc: Global) -> Made<WsMessage> {
        match self {
            WsMessage::Text(text) => Ok(WsMessage::Text(text.try_clone(alloc)?)),
            WsMessage::Close(code, reason) => {
                Ok(WsMessage::Close(*code, reason.try_clone(alloc)?))
            }
        }
    }
}

/// Equal where both are of one kind and all their parts are.
impl PartialEq for WsMessage {
    ghost use Rattle.std.specs.Prelude.{◌≡◌, ◌↔◌, IsTrue};
    ghost use Rattle.gql_base.specs.Same.{is_same, is_same_laws};
    ghost use Rattle.gql_ws.specs.contracts.ws_message.WsMessage.{the_row};

    ghost eq = { is_same the_row.coded };

    ghost laws = { is_same_laws the_row.coded };

    fn eq(&self, other: &WsMessage) -> bool
        ensures value { result ≡ is_same the_row.coded self.now other.now }
        ensures decides { IsTrue result ↔ (self.now ≡ other.now) }
    {
        same_message(self, other)
    }
}

impl Eq for WsMessage {
    ghost use Rattle.gql_base.specs.Same.{is_same_equivalence};
    ghost use Rattle.gql_ws.specs.contracts.ws_message.WsMessage.{the_row};

    ghost laws = { is_same_equivalence the_row.coded };
}

fn same_message(a: &WsMessage, b: &WsMessage) -> bool
    ensures { IsTrue result ↔ (a.now ≡ b.now) }
{
    match (a, b) {
        (WsMessage::Text(x), WsMessage::Text(y)) => x == y,
        (WsMessage::Close(c, x), WsMessage::Close(d, y)) => *c == *d && x == y,
        _ => false,
    }
}
