ghost use Rattle.std.specs.Prelude.{◌≡◌};
ghost use Rattle.std.specs.Str.{str_eq_ignore_ascii_case};

use std::str::FromStr;

/// The names of the subprotocols, as in the header `Sec-WebSocket-Protocol` (RFC 6455, section
/// 11.3.4).
pub const ALL_WEBSOCKET_PROTOCOLS: [&str; 2] = ["graphql-transport-ws", "graphql-ws"];

/// A subprotocol that a session speaks.
#[derive(Clone, Copy, PartialEq, Eq, Hash, Debug)]
pub enum Protocols {
    /// The older one, `graphql-ws`, of subscriptions-transport-ws.
    SubscriptionsTransportWS,
    /// The newer one, `graphql-transport-ws`.
    GraphQLWS,
}

/// That no known protocol has a name.
#[derive(Clone, Copy, PartialEq, Eq, Debug)]
pub struct UnsupportedProtocol;

impl Protocols {
    ghost use Rattle.gql_protocols.specs.Protocols.{protocol_name};

    /// The name in the header.
    pub fn sec_websocket_protocol(&self) -> &'static str
        ensures { result.now ≡ protocol_name self.now }
    {
        match self {
            Protocols::SubscriptionsTransportWS => "graphql-ws",
            Protocols::GraphQLWS => "graphql-transport-ws",
        }
    }
}

/// The protocol of a name, whatever its letters' case.
impl FromStr for Protocols {
    ghost use Rattle.std.specs.Prelude.{◌≡◌};
    ghost use Rattle.std.specs.Result.{result_ok};
    ghost use Rattle.gql_protocols.specs.Protocols.{protocol_named};

    type Err = UnsupportedProtocol;

    ghost from_str_gives = { λ name result. result_ok result ≡ protocol_named name };

    fn from_str(name: &str) -> Result<Protocols, UnsupportedProtocol> {
        if is_same_name(name, "graphql-ws") {
            Ok(Protocols::SubscriptionsTransportWS)
        } else if is_same_name(name, "graphql-transport-ws") {
            Ok(Protocols::GraphQLWS)
        } else {
            Err(UnsupportedProtocol)
        }
    }
}

/// Whether two names are the same but for the case of their letters.
fn is_same_name(a: &str, b: &str) -> bool
    ensures { result ≡ str_eq_ignore_ascii_case a.now b.now }
{
    a.eq_ignore_ascii_case(b)
}
