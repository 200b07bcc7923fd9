//! A list of live starts, and the number of each id beside it.
ghost use Rattle.std.specs.Prelude.{◌≡◌, ◌<◌, IfOk, OnErr, OnOk, Some, remove, slice_get};
ghost use Rattle.std.specs.Prelude.{vec_len, vec_capacity};
ghost use Rattle.std.specs.Option.{option_copied};
ghost use Rattle.gql_ws.specs.Found.{found, without, placed, place_in, has_id, has_number};
ghost use Rattle.gql_ws.specs.Found.{is_start};
ghost use Rattle.gql_ws.specs.Found.{number_of};
ghost use Rattle.gql_ws.specs.Lives.{HasNumbers, AreSingle};

use crate::live::Live;
use gql_base::{Made, Text};
use std::alloc::{AllocError, Global};
use std::collections::BTreeMap;

/// Whether a start has a number.
fn has_number(start: &Live, number: u64) -> bool
    ensures { result ≡ has_number number start.now }
{
    start.number == number
}

/// Whether a start has a number and an id.
fn is_start(start: &Live, number: u64, id: &Text) -> bool
    ensures { result ≡ is_start number id.now start.now }
{
    start.number == number && start.id == *id
}

/// The place of the start of a number, or the end of the list without one.
#[tactic(auto, using(crate::proofs::FoundLemmas::by_places))]
fn place_of_number(list: &[Live], number: u64) -> usize
    ensures { result ≡ place_in (has_number number) list.now }
{
    for place in 0..list.len() {
        if has_number(&list[place], number) {
            return place;
        }
    }
    list.len()
}

/// The place of the start of a number and an id, or the end of the list without one.
#[tactic(auto, using(crate::proofs::FoundLemmas::by_places))]
fn place_of_start(list: &[Live], number: u64, id: &Text) -> usize
    ensures { result ≡ place_in (is_start number id.now) list.now }
{
    for place in 0..list.len() {
        if is_start(&list[place], number, id) {
            return place;
        }
    }
    list.len()
}

/// The place of the start of an id, whose number is known. Numbers are compared faster than ids.
#[tactic(auto, using(crate::proofs::FoundLemmas::place_of_both))]
fn place_of_id(list: &[Live], number: u64, id: &Text) -> usize
    requires { number_of id.now list.now ≡ Some number }
    ensures { result ≡ place_in (has_id id.now) list.now }
{
    place_of_start(list, number, id)
}

/// The start at a place, if there is one.
fn start_at(list: &[Live], place: usize) -> Option<&Live>
    ensures { option_copied result ≡ slice_get list.now place }
{
    list.get(place)
}

/// The start of a number.
#[tactic(auto, using(crate::proofs::FoundLemmas::taken_found))]
pub(crate) fn start_of(list: &[Live], number: u64) -> Option<&Live>
    ensures { option_copied result ≡ found (has_number number) list.now }
{
    start_at(list, place_of_number(list, number))
}

/// Takes the start at a place out, if there is one.
fn take_at(list: &mut Vec<Live>, place: usize) -> Option<Live>
    ensures taken { result ≡ slice_get list.old.items place }
    ensures rest { list.new.items ≡ remove list.old.items place }
{
    if place < list.len() {
        return Some(list.remove(place));
    }
    None
}

/// Takes the start of an id out, whose number is known.
#[tactic(auto, using(crate::proofs::FoundLemmas::taken_rest))]
pub(crate) fn take_by_id(
    list: &mut Vec<Live>,
    numbers: &mut BTreeMap<String, u64>,
    number: u64,
    id: &Text,
)
    requires live { number_of id.now list.old.items ≡ Some number }
    requires numbers { HasNumbers numbers.old list.old.items }
    requires single { AreSingle list.old.items }
    ensures rest { list.new.items ≡ without (has_id id.now) list.old.items }
    ensures numbers { HasNumbers numbers.new list.new.items }
    ensures single { AreSingle list.new.items }
{
    let place = place_of_id(list.as_slice(), number, id);
    let _start = take_at(list, place);
    let _number = numbers.remove(id.as_str());
}

/// Takes the start of a number out, if it is live.
#[tactic(auto, using(crate::proofs::FoundLemmas::taken))]
pub(crate) fn take_by_number(
    list: &mut Vec<Live>,
    numbers: &mut BTreeMap<String, u64>,
    number: u64,
) -> Option<Live>
    requires numbers { HasNumbers numbers.old list.old.items }
    requires single { AreSingle list.old.items }
    ensures taken { result ≡ found (has_number number) list.old.items }
    ensures rest { list.new.items ≡ without (has_number number) list.old.items }
    ensures numbers { HasNumbers numbers.new list.new.items }
    ensures single { AreSingle list.new.items }
{
    let place = place_of_number(list.as_slice(), number);
    match take_at(list, place) {
        None => None,
        Some(start) => {
            let _number = numbers.remove(start.id.as_str());
            Some(start)
        }
    }
}

/// Puts a start in the place of that of its id, whose number it answers, or at the end.
pub(crate) fn place_start(
    alloc: Global,
    list: &mut Vec<Live>,
    numbers: &mut BTreeMap<String, u64>,
    id: Text,
    number: u64,
) -> Made<Option<u64>>
    requires numbers { HasNumbers numbers.old list.old.items }
    requires single { AreSingle list.old.items }
    ensures replaced { IfOk result (λ old. old ≡ number_of id list.old.items) }
    ensures ok { OnOk result (list.new.items ≡ placed id number list.old.items) }
    ensures err { OnErr result (list.new.items ≡ list.old.items) }
    ensures numbers { HasNumbers numbers.new list.new.items }
    ensures single { AreSingle list.new.items }
{
    let key = String::from_str(alloc, id.as_str())?;
    list.reserve(1)?;
    match numbers.insert(key, number) {
        Ok(old) => {
            put_start(list, old, id, number);
            Ok(old)
        }
        Err(_) => Err(AllocError),
    }
}

/// The same, where it is known whether the id is live.
#[tactic(auto, using(crate::proofs::FoundLemmas::placing))]
fn put_start(list: &mut Vec<Live>, old: Option<u64>, id: Text, number: u64)
    requires old { old ≡ number_of id list.old.items }
    requires room { vec_len list.old < vec_capacity list.old }
    ensures { list.new.items ≡ placed id number list.old.items }
{
    match old {
        Some(old) => {
            let place = place_of_id(list.as_slice(), old, &id);
            list[place] = Live { id, number };
        }
        None => list.push_reserved(Live { id, number }),
    }
}
