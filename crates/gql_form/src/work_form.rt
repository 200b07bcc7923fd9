//! What a command does with a bench.
ghost use Rattle.std.specs.Prelude.{◌≡◌, [], ◌∷◌, ◌++◌, OnOk};
ghost use Rattle.serde_json.specs.View.{view};
ghost use Rattle.gql_form.specs.Faults.{IsRead};
ghost use Rattle.gql_form.specs.WorkForm.{own_word, work_in};

use crate::command::Command;
use crate::fault::Fault;
use crate::form::{Form, Reader};
use crate::kit::bad;
use crate::members::Members;
use crate::plain::value_in;
use crate::session_form::SessionForm;
use gql_base::EnumForm;
use gql_request::{BatchRequest, ParseRequestError, Request};
use serde_json::Value as Json;

/// What a command does with a bench.
#[derive(Drop)]
pub enum WorkForm {
    /// It answers a request.
    One(Request),
    /// It answers a batch of requests.
    Batch(BatchRequest),
    /// It plays a WebSocket session.
    Session(SessionForm),
}

impl Form for Request {
    ghost use Rattle.gql_form.specs.WorkForm.{request_in};

    ghost reading = { λ cells. request_in };

    fn read(reader: Reader, json: &Json) -> Result<Request, Fault> {
        let value = value_in(reader, EnumForm::Plain, json)?;
        match Request::from_json(reader.alloc, &value)? {
            Ok(request) => Ok(request),
            Err(ParseRequestError::InvalidRequest(_)) => bad(reader),
            Err(ParseRequestError::UnsupportedBatch) => bad(reader),
        }
    }
}

impl Form for BatchRequest {
    ghost use Rattle.gql_form.specs.WorkForm.{batch_in};

    ghost reading = { λ cells. batch_in };

    fn read(reader: Reader, json: &Json) -> Result<BatchRequest, Fault> {
        let value = value_in(reader, EnumForm::Plain, json)?;
        match BatchRequest::from_json(reader.alloc, &value)? {
            Ok(batch) => Ok(batch),
            Err(ParseRequestError::InvalidRequest(_)) => bad(reader),
            Err(ParseRequestError::UnsupportedBatch) => bad(reader),
        }
    }
}

/// What the command's own member says.
pub(crate) fn read_work(members: &mut Members, command: Command) -> Result<WorkForm, Fault>
    ensures read { IsRead result (work_in command (view members.old.json.now)) }
    ensures asked { OnOk result (members.new.asked ≡ members.old.asked ++ own_word command ∷ []) }
    ensures reader { members.new.reader ≡ members.old.reader }
    ensures json { members.new.json ≡ members.old.json }
{
    match command {
        Command::Execute | Command::Record | Command::Stream => {
            Ok(WorkForm::One(members.needed("request")?))
        }
        Command::Batch | Command::Threads => Ok(WorkForm::Batch(members.needed("requests")?)),
        Command::Ws => Ok(WorkForm::Session(members.needed("ws")?)),
    }
}
