//! Readers of the parts of an object or a list.
ghost use Rattle.std.specs.Prelude.{◌≡◌, [], ◌∷◌, Err, map, option_map};
ghost use Rattle.std.specs.List.{list_any};
ghost use Rattle.std.specs.Str.{bytes_eq};
ghost use Rattle.serde_json.specs.View.{view, items_view, members_view};
ghost use Rattle.gql_base.specs.Pairs.{under};
ghost use Rattle.gql_base.specs.declared.path_segment.PathSegment.TheVariants.{Field};
ghost use Rattle.gql_form.specs.Faults.{IsRead, IsReadAs};
ghost use Rattle.gql_form.specs.Plain.{needed};
ghost use Rattle.gql_form.specs.Read.{there, perhaps, member, optional, items_behind, listed};
ghost use Rattle.gql_form.specs.Read.{is_fresh, named_item, named_behind, first_other, only};
ghost use Rattle.gql_form.specs.Read.{present, the_only, sole, long, nth};

use crate::fault::Fault;
use crate::form::{Form, Named, Reader};
use crate::members::Members;
use gql_base::{Items, JsonPlace, Name, Pairs};
use serde_json::Value as Json;
use std::collections::BTreeMap;

/// This place is bad.
pub(crate) fn bad<T>(reader: Reader) -> Result<T, Fault>
    ensures { IsRead result (Err []) }
{
    Err(Fault::Bad(JsonPlace::here(reader.alloc)))
}

/// The member of this name is bad.
pub(crate) fn bad_member<T>(reader: Reader, name: &str) -> Result<T, Fault>
    ensures { IsRead result (Err (Field name.now ∷ [])) }
{
    Err(Fault::Bad(JsonPlace::here(reader.alloc)).in_member(reader.alloc, name))
}

/// What has to be there.
pub(crate) fn needed<T>(reader: Reader, found: Option<T>) -> Result<T, Fault>
    ensures { IsRead result (needed found) }
{
    match found {
        Some(found) => Ok(found),
        None => bad(reader),
    }
}

/// The member of this name, which has to be there.
pub(crate) fn member<T: Form>(reader: Reader, json: &Json, name: &str) -> Result<T, Fault>
    ensures { IsRead result (member name.now (T.reading reader.cells) (view json.now)) }
{
    if !json.is_object() {
        return bad(reader);
    }
    match read_there(reader, json.get(name)) {
        Ok(value) => Ok(value),
        Err(fault) => Err(fault.in_member(reader.alloc, name)),
    }
}

/// What is read of a part that has to be there.
fn read_there<T: Form>(reader: Reader, found: Option<&Json>) -> Result<T, Fault>
    ensures { IsRead result (there (T.reading reader.cells) (option_map (λ d. view d.now) found.entry)) }
{
    match found {
        Some(json) => T::read(reader, json),
        None => bad(reader),
    }
}

/// The member of this name, if there is one.
pub(crate) fn optional<T: Form>(reader: Reader, json: &Json, name: &str) -> Result<Option<T>, Fault>
    ensures { IsRead result (optional name.now (T.reading reader.cells) (view json.now)) }
{
    if !json.is_object() {
        return bad(reader);
    }
    match read_perhaps(reader, json.get(name)) {
        Ok(found) => Ok(found),
        Err(fault) => Err(fault.in_member(reader.alloc, name)),
    }
}

/// What is read of a part that may be missing.
fn read_perhaps<T: Form>(reader: Reader, found: Option<&Json>) -> Result<Option<T>, Fault>
    ensures { IsRead result
        (perhaps (T.reading reader.cells) (option_map (λ d. view d.now) found.entry)) }
{
    match found {
        Some(json) => Ok(Some(T::read(reader, json)?)),
        None => Ok(None),
    }
}

/// The list that is the member of this name, or the empty list without one.
pub(crate) fn listed<T: Form>(reader: Reader, json: &Json, name: &str) -> Result<Items<T>, Fault>
    ensures { IsRead result (listed name.now (T.reading reader.cells) (view json.now)) }
{
    let found: Option<Items<T>> = optional(reader, json, name)?;
    match found {
        Some(items) => Ok(items),
        None => Ok(Items::new(reader.alloc)),
    }
}

/// A list, item by item.
impl<T: Form> Form for Items<T> {
    ghost use Rattle.gql_form.specs.Read.{each};

    ghost reading = { λ cells. each (T.reading cells) };

    fn read(reader: Reader, json: &Json) -> Result<Items<T>, Fault> {
        match json.as_array() {
            Some(items) => read_items(reader, items.as_slice()),
            None => bad(reader),
        }
    }
}

fn read_items<T: Form>(reader: Reader, items: &[Json]) -> Result<Items<T>, Fault>
    ensures { IsRead result (items_behind (T.reading reader.cells) [] (items_view items.now)) }
{
    let mut values = Items::new(reader.alloc);
    for item in items {
        match T::read(reader, item) {
            Ok(value) => values.push(value)?,
            Err(fault) => return Err(fault.in_item(values.len())),
        }
    }
    Ok(values)
}

/// A list of objects with distinct names.
impl<T: Named> Form for Pairs<T> {
    ghost use Rattle.gql_form.specs.Read.{named};

    ghost reading = { λ cells. named (T.behind cells) };

    fn read(reader: Reader, json: &Json) -> Result<Pairs<T>, Fault> {
        match json.as_array() {
            Some(items) => read_named(reader, items.as_slice()),
            None => bad(reader),
        }
    }
}

fn read_named<T: Named>(reader: Reader, items: &[Json]) -> Result<Pairs<T>, Fault>
    ensures { IsRead result (named_behind (T.behind reader.cells) [] (items_view items.now)) }
{
    let mut pairs = Pairs::new(reader.alloc);
    for item in items {
        match read_named_item(reader, &pairs, item) {
            Ok((name, value)) => pairs.add(name, value)?,
            Err(fault) => return Err(fault.in_item(pairs.len())),
        }
    }
    Ok(pairs)
}

/// An object under its name, which is to be none of the earlier ones'.
fn read_named_item<T: Named>(
    reader: Reader,
    earlier: &Pairs<T>,
    json: &Json,
) -> Result<(Name, T), Fault>
    ensures { IsRead result (named_item (T.behind reader.cells) earlier.now (view json.now)) }
{
    let mut members = Members::of(reader, json);
    let name: Name = members.needed("name")?;
    if earlier.get(name.as_str()).is_some() {
        return bad_member(reader, "name");
    }
    let value = T::read_behind(members)?;
    Ok((name, value))
}

/// Members of these names alone.
pub(crate) fn only(reader: Reader, json: &Json, names: &[&str]) -> Result<(), Fault>
    ensures { IsRead result (only (map (λ n. n.now) names.now) (view json.now)) }
{
    match json.as_object() {
        Some(members) => read_only(reader, members, names),
        None => bad(reader),
    }
}

fn read_only(reader: Reader, members: &BTreeMap<String, Json>, names: &[&str]) -> Result<(), Fault>
    ensures { IsRead result
        (first_other (map (λ n. n.now) names.now) (members_view members.now.entries)) }
{
    for (name, _) in members.iter() {
        if !is_among(name.as_str(), names) {
            return bad_member(reader, name.as_str());
        }
    }
    Ok(())
}

/// Whether a name is one of these.
fn is_among(name: &str, names: &[&str]) -> bool
    ensures { result ≡ list_any (bytes_eq name.now) (map (λ n. n.now) names.now) }
{
    for other in names {
        if name == *other {
            return true;
        }
    }
    false
}

/// The one of these names that an object has.
pub(crate) fn sole<'a>(reader: Reader, json: &Json, names: &[&'a str]) -> Result<&'a str, Fault>
    ensures { IsReadAs (λ n. n.now) result (sole (map (λ n. n.now) names.now) (view json.now)) }
{
    if !json.is_object() {
        return Err(Fault::Bad(JsonPlace::here(reader.alloc)));
    }
    match only_present(json, names) {
        Some(name) => Ok(name),
        None => Err(Fault::Bad(JsonPlace::here(reader.alloc))),
    }
}

/// The name of these that an object has, where it has just one.
fn only_present<'a>(json: &Json, names: &[&'a str]) -> Option<&'a str>
    ensures { option_map (λ n. n.now) result
        ≡ the_only (present (map (λ n. n.now) names.now) (view json.now)) }
{
    let mut found = None;
    for name in names {
        if json.get(*name).is_some() {
            if found.is_some() {
                return None;
            }
            found = Some(*name);
        }
    }
    found
}

/// A list of so many items.
#[tactic(auto, using(crate::proofs::ReadLemmas::items_long))]
pub(crate) fn long(reader: Reader, json: &Json, count: usize) -> Result<(), Fault>
    ensures { IsRead result (long count (view json.now)) }
{
    match json.as_array() {
        Some(items) => {
            if items.len() == count {
                Ok(())
            } else {
                bad(reader)
            }
        }
        None => bad(reader),
    }
}

/// The item at a place, counted from 0.
pub(crate) fn nth<T: Form>(reader: Reader, json: &Json, place: usize) -> Result<T, Fault>
    ensures { IsRead result (nth place (T.reading reader.cells) (view json.now)) }
{
    match read_there(reader, json.get(place)) {
        Ok(value) => Ok(value),
        Err(fault) => Err(fault.in_item(place)),
    }
}
