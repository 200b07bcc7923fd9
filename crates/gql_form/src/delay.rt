ghost use Rattle.std.specs.Prelude.{◌≡◌, [], ◌∷◌, ◌++◌, codes, OnOk};
ghost use Rattle.serde_json.specs.View.{view};
ghost use Rattle.gql_form.specs.Faults.{IsRead};
ghost use Rattle.gql_form.specs.Delay.{delay_in};

use crate::fault::Fault;
use crate::form::{Form, Reader};
use crate::members::Members;
use crate::plain::read_count_within;
use serde_json::Value as Json;

/// How many polls are pending before an answer or an event.
#[derive(Clone, Copy, PartialEq, Eq)]
pub struct Delay {
    pub polls: u64,
}

impl Delay {
    /// The longest delay of a bench.
    pub const LONGEST: u64 = 1_000_000;
}

impl Form for Delay {
    ghost use Rattle.gql_form.specs.Delay.{delay_of};

    ghost reading = { λ cells. delay_of };

    fn read(reader: Reader, json: &Json) -> Result<Delay, Fault> {
        let polls = read_count_within(reader, json, Delay::LONGEST)?;
        Ok(Delay { polls })
    }
}

/// The member `delay`, or no delay without one.
pub(crate) fn read_delay(members: &mut Members) -> Result<Delay, Fault>
    ensures read { IsRead result (delay_in (view members.old.json.now)) }
    ensures asked { OnOk result (members.new.asked ≡ members.old.asked ++ codes "delay" ∷ []) }
    ensures reader { members.new.reader ≡ members.old.reader }
    ensures json { members.new.json ≡ members.old.json }
{
    match members.optional("delay")? {
        Some(delay) => Ok(delay),
        None => Ok(Delay { polls: 0 }),
    }
}
