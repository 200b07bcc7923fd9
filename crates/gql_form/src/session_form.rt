use crate::fault::Fault;
use crate::form::{Form, Reader};
use crate::kit::{bad, needed};
use crate::members::Members;
use gql_base::{Items, Text};
use gql_protocols::Protocols;
use serde_json::Value as Json;
use std::str::FromStr;

/// A WebSocket session, with the script of its client.
#[derive(Drop)]
pub struct SessionForm {
    pub protocol: Protocols,
    /// How long the client may be silent, in milliseconds.
    pub keepalive: Option<u64>,
    pub script: Items<EntryForm>,
}

/// A moment at which the session is polled.
#[derive(Drop)]
pub struct EntryForm {
    /// The moment, in milliseconds.
    pub at: u64,
    /// What the client sends.
    pub text: Option<Text>,
}

impl Form for Protocols {
    ghost use Rattle.gql_form.specs.SessionForm.{protocol_of};

    ghost reading = { λ cells. protocol_of };

    fn read(reader: Reader, json: &Json) -> Result<Protocols, Fault> {
        let Some(text) = json.as_str() else {
            return bad(reader);
        };
        needed(reader, Protocols::from_str(text).ok())
    }
}

impl Form for EntryForm {
    ghost use Rattle.gql_form.specs.SessionForm.{entry_of};

    ghost reading = { λ cells. entry_of };

    fn read(reader: Reader, json: &Json) -> Result<EntryForm, Fault> {
        let mut members = Members::of(reader, json);
        let at = members.needed("at")?;
        let text = members.optional("text")?;
        members.no_others(EntryForm { at, text })
    }
}

impl Form for SessionForm {
    ghost use Rattle.gql_form.specs.SessionForm.{session_of};

    ghost reading = { λ cells. session_of };

    fn read(reader: Reader, json: &Json) -> Result<SessionForm, Fault> {
        let mut members = Members::of(reader, json);
        let protocol = members.needed("protocol")?;
        let keepalive = members.optional("keepalive")?;
        let script = members.needed("script")?;
        members.no_others(SessionForm {
            protocol,
            keepalive,
            script,
        })
    }
}
