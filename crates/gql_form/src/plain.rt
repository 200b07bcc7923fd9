//! Texts, names, numbers and truth values.
ghost use Rattle.std.specs.Prelude.{◌≤◌, IfOk};
ghost use Rattle.serde_json.specs.View.{view};
ghost use Rattle.gql_base.specs.ReadJson.{read_in};
ghost use Rattle.gql_form.specs.Faults.{IsRead};
ghost use Rattle.gql_form.specs.Plain.{count_within};

use crate::fault::Fault;
use crate::form::{Form, Reader};
use crate::kit::{bad, needed};
use gql_base::{EnumForm, Name, Text, Value, is_name, read_value};
use serde_json::Value as Json;

impl Form for Text {
    ghost use Rattle.gql_form.specs.Plain.{text_of};

    ghost reading = { λ cells. text_of };

    fn read(reader: Reader, json: &Json) -> Result<Text, Fault> {
        match json.as_str() {
            Some(text) => Ok(Text::new(reader.alloc, text)?),
            None => bad(reader),
        }
    }
}

impl Form for Name {
    ghost use Rattle.gql_form.specs.Plain.{name_of};

    ghost reading = { λ cells. name_of };

    fn read(reader: Reader, json: &Json) -> Result<Name, Fault> {
        match json.as_str() {
            Some(text) if is_name(text) => Ok(Name::new(reader.alloc, text)?),
            _ => bad(reader),
        }
    }
}

/// A whole number from 0 on.
impl Form for u64 {
    ghost use Rattle.gql_form.specs.Plain.{count_of};

    ghost reading = { λ cells. count_of };

    fn read(reader: Reader, json: &Json) -> Result<u64, Fault> {
        needed(reader, json.as_u64())
    }
}

/// A whole number with a sign.
impl Form for i64 {
    ghost use Rattle.gql_form.specs.Plain.{signed_of};

    ghost reading = { λ cells. signed_of };

    fn read(reader: Reader, json: &Json) -> Result<i64, Fault> {
        needed(reader, json.as_i64())
    }
}

impl Form for bool {
    ghost use Rattle.gql_form.specs.Plain.{truth_of};

    ghost reading = { λ cells. truth_of };

    fn read(reader: Reader, json: &Json) -> Result<bool, Fault> {
        needed(reader, json.as_bool())
    }
}

/// A value, in which enums stand in this form.
pub(crate) fn value_in(reader: Reader, form: EnumForm, json: &Json) -> Result<Value, Fault>
    ensures { IsRead result (read_in form (view json.now)) }
{
    match read_value(reader.alloc, form, json)? {
        Ok(value) => Ok(value),
        Err(place) => Err(Fault::Bad(place)),
    }
}

/// A whole number from 0 to a limit.
pub(crate) fn read_count_within(reader: Reader, json: &Json, limit: u64) -> Result<u64, Fault>
    ensures read { IsRead result (count_within limit (view json.now)) }
    ensures within { IfOk result (λ count. count ≤ limit) }
{
    let count = u64::read(reader, json)?;
    if count <= limit {
        Ok(count)
    } else {
        bad(reader)
    }
}
