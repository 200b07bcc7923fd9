ghost use Rattle.std.specs.Prelude.{◌≡◌, [], IfOk, option_map};
ghost use Rattle.std.specs.Option.{ok_or};
ghost use Rattle.serde_json.specs.View.{view, items_view, members_view, number_view};
ghost use Rattle.gql_base.specs.ReadJson.{number_in, enum_text_in, enum_in, has_mark, read_in};
ghost use Rattle.gql_base.specs.ReadJson.{items_in, members_in, value_of};
ghost use Rattle.gql_base.specs.Readings.{IsRead, IsInside};

use crate::items::Items;
use crate::json_place::JsonPlace;
use crate::letters::is_name;
use crate::made::Made;
use crate::name::Name;
use crate::number::Number;
use crate::pairs::Pairs;
use crate::path_segment::PathSegment;
use crate::text::Text;
use crate::value::Value;
use std::alloc::{AllocError, Global};
use std::collections::BTreeMap;
use thiserror::Error;

/// Why a JSON value is no value.
#[derive(Clone, Copy, PartialEq, Eq, Debug, Error)]
pub enum JsonFault {
    /// It holds a number that isn't a whole one from -2^63 to 2^64-1.
    #[error("a number is not supported")]
    Number,
}

/// How an enum stands in JSON.
#[derive(Clone, Copy, PartialEq, Eq, Debug)]
pub enum EnumForm {
    /// Nowhere: each object is an object.
    Plain,
    /// As an object with its name under `$enum`, and with no other member.
    Marked,
}

/// Why reading stops.
#[derive(Debug, Drop)]
pub(crate) enum Fault {
    Bad(JsonPlace),
    NoMemory,
}

impl From<AllocError> for Fault {
    ghost use Rattle.std.specs.Prelude.{◌≡◌};
    ghost use Rattle.gql_base.specs.declared.read_json.Fault.TheVariants.{NoMemory};

    ghost from_gives = { λ _ fault. fault ≡ NoMemory };

    fn from(_error: AllocError) -> Fault {
        Fault::NoMemory
    }
}

impl Fault {
    /// This fault, seen from before the member of this name.
    fn in_member(self, alloc: Global, name: &str) -> Fault
        ensures { IsInside (PathSegment.Field name.now) self result }
    {
        match Text::new(alloc, name) {
            Ok(name) => self.behind(PathSegment::Field(name)),
            Err(_) => Fault::NoMemory,
        }
    }

    fn behind(self, step: PathSegment) -> Fault
        ensures { IsInside step self result }
    {
        match self {
            Fault::Bad(place) => match place.behind(step) {
                Ok(outer) => Fault::Bad(outer),
                Err(_) => Fault::NoMemory,
            },
            Fault::NoMemory => Fault::NoMemory,
        }
    }
}

/// The value of a JSON value that `serde_json` read. Objects have their members in byte order of
/// their names. The fault comes exactly where a number in it is read neither as `i64` nor as `u64`.
pub fn from_json(alloc: Global, json: &serde_json::Value) -> Made<Result<Value, JsonFault>>
    ensures { IfOk result (λ read. read ≡ ok_or (value_of (view json.now)) JsonFault.Number) }
{
    match read_value(alloc, EnumForm::Plain, json)? {
        Ok(value) => Ok(Ok(value)),
        Err(_) => Ok(Err(JsonFault::Number)),
    }
}

/// The same with enums in this form, or the place of the first part that is no value.
pub fn read_value(
    alloc: Global,
    form: EnumForm,
    json: &serde_json::Value,
) -> Made<Result<Value, JsonPlace>>
    ensures { IfOk result (λ read. read ≡ read_in form (view json.now)) }
{
    match read_any(alloc, form, json) {
        Ok(value) => Ok(Ok(value)),
        Err(Fault::Bad(place)) => Ok(Err(place)),
        Err(Fault::NoMemory) => Err(AllocError),
    }
}

#[cycle(read)]
fn read_any(alloc: Global, form: EnumForm, json: &serde_json::Value) -> Result<Value, Fault>
    ensures { IsRead result (read_in form (view json.now)) }
{
    match json {
        serde_json::Value::Null => Ok(Value::Null),
        serde_json::Value::Bool(truth) => Ok(Value::Boolean(*truth)),
        serde_json::Value::Number(number) => read_number(alloc, number),
        serde_json::Value::String(text) => Ok(Value::String(Text::new(alloc, text.as_str())?)),
        serde_json::Value::Array(items) => {
            let values = read_items(alloc, form, items.as_slice())?;
            Ok(Value::list(alloc, values)?)
        }
        serde_json::Value::Object(members) => {
            if form == EnumForm::Marked && has_mark(members) {
                return read_enum(alloc, members);
            }
            let pairs = read_members(alloc, form, members)?;
            Ok(Value::object(alloc, pairs)?)
        }
    }
}

fn read_number(alloc: Global, number: &serde_json::Number) -> Result<Value, Fault>
    ensures { IsRead result (number_in (number_view number.now)) }
{
    match (number.as_u64(), number.as_i64()) {
        (Some(unsigned), _) => Ok(Value::Number(Number::from_u64(unsigned))),
        (None, Some(signed)) => Ok(Value::Number(Number::from_i64(signed))),
        (None, None) => Err(Fault::Bad(JsonPlace::here(alloc))),
    }
}

#[cycle(read)]
fn read_items(
    alloc: Global,
    form: EnumForm,
    items: &[serde_json::Value],
) -> Result<Items<Value>, Fault>
    ensures { IsRead result (items_in form [] (items_view items.now)) }
{
    let mut values = Items::new(alloc);
    for item in items {
        match read_any(alloc, form, item) {
            Ok(value) => values.push(value)?,
            Err(fault) => return Err(fault.behind(PathSegment::Index(values.len()))),
        }
    }
    Ok(values)
}

#[cycle(read)]
fn read_members(
    alloc: Global,
    form: EnumForm,
    members: &BTreeMap<String, serde_json::Value>,
) -> Result<Pairs<Value>, Fault>
    ensures { IsRead result (members_in form [] (members_view members.now.entries)) }
{
    let mut pairs = Pairs::new(alloc);
    for (name, member) in members.iter() {
        match read_any(alloc, form, member) {
            Ok(value) => pairs.add(Name::new(alloc, name.as_str())?, value)?,
            Err(fault) => return Err(fault.in_member(alloc, name.as_str())),
        }
    }
    Ok(pairs)
}

/// True exactly where an object has the mark of an enum.
fn has_mark(members: &BTreeMap<String, serde_json::Value>) -> bool
    ensures { result ≡ has_mark (members_view members.now.entries) }
{
    for (name, _) in members.iter() {
        if name.as_str() == "$enum" {
            return true;
        }
    }
    false
}

/// The enum of an object whose member is its mark.
fn read_enum(alloc: Global, members: &BTreeMap<String, serde_json::Value>) -> Result<Value, Fault>
    ensures { IsRead result (enum_in (members_view members.now.entries)) }
{
    let mut members = members.iter();
    let Some((mark, json)) = members.next() else {
        return Err(Fault::Bad(JsonPlace::here(alloc)));
    };
    if members.next().is_some() {
        return Err(Fault::Bad(JsonPlace::here(alloc)));
    }
    match read_enum_text(alloc, json) {
        Ok(value) => Ok(value),
        Err(fault) => Err(fault.in_member(alloc, mark.as_str())),
    }
}

fn read_enum_text(alloc: Global, json: &serde_json::Value) -> Result<Value, Fault>
    ensures { IsRead result (enum_text_in (view json.now)) }
{
    match json.as_str() {
        Some(name) if is_name(name) => Ok(Value::Enum(Name::new(alloc, name)?)),
        _ => Err(Fault::Bad(JsonPlace::here(alloc))),
    }
}
