ghost use Rattle.std.specs.Prelude.{◌≡◌, OnOk};
ghost use Rattle.serde_json.specs.View.{view};
ghost use Rattle.gql_form.specs.Asked.{asked_after};
ghost use Rattle.gql_form.specs.EventForm.{outcome_of, outcome_words};
ghost use Rattle.gql_form.specs.Faults.{IsRead};

use crate::answered::Answered;
use crate::delay::{Delay, read_delay};
use crate::fault::Fault;
use crate::form::{Form, Reader};
use crate::members::Members;
use gql_base::Text;
use serde_json::Value as Json;

/// An event of a subscription.
#[derive(Drop)]
pub struct EventForm {
    pub delay: Delay,
    pub outcome: OutcomeForm,
}

/// What comes with an event.
#[derive(Drop)]
pub enum OutcomeForm {
    Value(Answered),
    /// An error with this message.
    Fail(Text),
}

impl Form for EventForm {
    ghost use Rattle.gql_form.specs.EventForm.{event_of};

    ghost reading = { λ cells. event_of };

    fn read(reader: Reader, json: &Json) -> Result<EventForm, Fault> {
        let mut members = Members::of(reader, json);
        let delay = read_delay(&mut members)?;
        let outcome = read_outcome(&mut members)?;
        members.no_others(EventForm { delay, outcome })
    }
}

/// The one outcome among the members of an event.
fn read_outcome(members: &mut Members) -> Result<OutcomeForm, Fault>
    ensures read { IsRead result (outcome_of (view members.old.json.now)) }
    ensures asked { OnOk result
        (members.new.asked ≡ asked_after members.old.asked outcome_words) }
    ensures reader { members.new.reader ≡ members.old.reader }
    ensures json { members.new.json ≡ members.old.json }
{
    match members.sole(&["value", "fail"])? {
        "value" => Ok(OutcomeForm::Value(members.under("value")?)),
        _ => Ok(OutcomeForm::Fail(members.under("fail")?)),
    }
}
