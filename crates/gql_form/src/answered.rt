//! What a bench answers.
ghost use Rattle.std.specs.Prelude.{◌≡◌, []};
ghost use Rattle.serde_json.specs.Data.{member as one_member, no_members};
ghost use Rattle.serde_json.specs.View.{view, items_view, members_view};
ghost use Rattle.gql_form.specs.Answered.{answered_of, plain_of, own_of, enum_of, without_of};
ghost use Rattle.gql_form.specs.Answered.{is_special, has_special, special_of, typed_of, parts_of};
ghost use Rattle.gql_form.specs.Answered.{parts_behind};
ghost use Rattle.gql_form.specs.Faults.{IsRead};

use crate::fault::Fault;
use crate::form::{Form, Reader};
use crate::kit::{bad, bad_member};
use crate::plain::value_in;
use gql_base::{Boxed, EnumForm, Items, Name, Value};
use serde_json::Value as Json;
use std::collections::BTreeMap;

/// What a bench answers: a value, or what isn't plain JSON.
#[derive(Drop)]
pub enum Answered {
    Value(Value),
    /// A value of the caller's type.
    Own(i64),
    List(Items<Answered>),
    /// What is answered as an object of this type.
    Typed(Name, Boxed<Answered>),
}

impl Form for Answered {
    ghost use Rattle.gql_form.specs.Answered.{answered_of};

    ghost reading = { λ cells. answered_of };

    fn read(reader: Reader, json: &Json) -> Result<Answered, Fault> {
        read_answered(reader, json)
    }
}

#[cycle(answered)]
fn read_answered(reader: Reader, json: &Json) -> Result<Answered, Fault>
    ensures { IsRead result (answered_of (view json.now)) }
{
    match json {
        Json::Object(members) => {
            if has_special(members) {
                read_special(reader, members)
            } else {
                read_plain(reader, json)
            }
        }
        Json::Null | Json::Bool(_) | Json::Number(_) | Json::String(_) | Json::Array(_) => {
            read_plain(reader, json)
        }
    }
}

/// A value that is no special object.
fn read_plain(reader: Reader, json: &Json) -> Result<Answered, Fault>
    ensures { IsRead result (plain_of (view json.now)) }
{
    Ok(Answered::Value(value_in(reader, EnumForm::Plain, json)?))
}

/// Whether an object has a member that makes it special.
fn has_special(members: &BTreeMap<String, Json>) -> bool
    ensures { result ≡ has_special (members_view members.now.entries) }
{
    for (name, _) in members.iter() {
        if is_special(name.as_str()) {
            return true;
        }
    }
    false
}

fn is_special(name: &str) -> bool
    ensures { result ≡ is_special name.now }
{
    name == "$own" || name == "$list" || name == "$type" || name == "$enum"
}

/// An object that has a special member.
#[cycle(answered)]
fn read_special(reader: Reader, members: &BTreeMap<String, Json>) -> Result<Answered, Fault>
    ensures { IsRead result (special_of (members_view members.now.entries)) }
{
    let mut members = members.iter();
    let Some((name, json)) = members.next() else {
        return bad(reader);
    };
    let Some((other, inner)) = members.next() else {
        return read_lone(reader, name.as_str(), json);
    };
    if members.next().is_some() {
        return bad(reader);
    }
    if name.as_str() == "$type" && other.as_str() == "of" {
        read_typed(reader, inner, json)
    } else {
        bad(reader)
    }
}

/// An object of one special member.
#[cycle(answered)]
fn read_lone(reader: Reader, name: &str, json: &Json) -> Result<Answered, Fault>
    ensures { IsRead result (special_of (one_member name.now (view json.now) no_members)) }
{
    let read = match name {
        "$own" => read_own(reader, json),
        "$list" => read_parts(reader, json),
        "$enum" => read_enum(reader, json),
        _ => return read_without_of(reader, name, json),
    };
    match read {
        Ok(answered) => Ok(answered),
        Err(fault) => Err(fault.in_member(reader.alloc, name)),
    }
}

fn read_own(reader: Reader, json: &Json) -> Result<Answered, Fault>
    ensures { IsRead result (own_of (view json.now)) }
{
    Ok(Answered::Own(i64::read(reader, json)?))
}

fn read_enum(reader: Reader, json: &Json) -> Result<Answered, Fault>
    ensures { IsRead result (enum_of (view json.now)) }
{
    Ok(Answered::Value(Value::Enum(Name::read(reader, json)?)))
}

/// A type without its value.
fn read_without_of(reader: Reader, name: &str, json: &Json) -> Result<Answered, Fault>
    ensures { IsRead result (without_of name.now (view json.now)) }
{
    match Name::read(reader, json) {
        Ok(_) => bad_member(reader, "of"),
        Err(fault) => Err(fault.in_member(reader.alloc, name)),
    }
}

/// A value under its type.
#[cycle(answered)]
fn read_typed(reader: Reader, inner: &Json, ty: &Json) -> Result<Answered, Fault>
    ensures { IsRead result (typed_of (view ty.now) (view inner.now)) }
{
    let name = match Name::read(reader, ty) {
        Ok(name) => name,
        Err(fault) => return Err(fault.in_member(reader.alloc, "$type")),
    };
    match read_answered(reader, inner) {
        Ok(value) => Ok(Answered::Typed(name, Boxed::new(reader.alloc, value)?)),
        Err(fault) => Err(fault.in_member(reader.alloc, "of")),
    }
}

/// A list of what is answered.
#[cycle(answered)]
fn read_parts(reader: Reader, json: &Json) -> Result<Answered, Fault>
    ensures { IsRead result (parts_of (view json.now)) }
{
    match json {
        Json::Array(items) => Ok(Answered::List(read_items(reader, items.as_slice())?)),
        Json::Null | Json::Bool(_) | Json::Number(_) | Json::String(_) | Json::Object(_) => {
            bad(reader)
        }
    }
}

#[cycle(answered)]
fn read_items(reader: Reader, items: &[Json]) -> Result<Items<Answered>, Fault>
    ensures { IsRead result (parts_behind [] (items_view items.now)) }
{
    let mut parts = Items::new(reader.alloc);
    for item in items {
        match read_answered(reader, item) {
            Ok(part) => parts.push(part)?,
            Err(fault) => return Err(fault.in_item(parts.len())),
        }
    }
    Ok(parts)
}
