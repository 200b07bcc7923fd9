//! The places of tasks, put together from the one that was answered last to the first. So the
//! places under a task stand after all others when it is its turn, and are moved into its own.
ghost use Rattle.std.specs.Prelude.{ℕ, ◌≡◌, ◌<◌, ◌≤◌, [], List, None, Some};
ghost use Rattle.std.specs.Prelude.{drop, length, take, IfOk, OnOk};
ghost use Rattle.gql_objects.specs.Assembly.{AllHeldSince, ArePlaced, IsMade};
ghost use Rattle.gql_objects.specs.Assembly.{IsMadeAlone, IsPutOpen};
ghost use Rattle.gql_objects.specs.Entries.{laid};
ghost use Rattle.gql_objects.specs.KeptTasks.{entries_in};
ghost use Rattle.gql_objects.specs.KeptTasks.{store_in};
ghost use Rattle.gql_objects.specs.Jobs.{Job};
ghost use Rattle.gql_objects.specs.PlaceStore.{present, stands_for, put_open, PutsAt};
ghost use Rattle.gql_resolve.specs.Call.{Call};
ghost use Rattle.gql_resolve.specs.declared.answer.Answer.{Answer};

use crate::assembly::kept::{Filled, Kept};
use gql_base::Made;
use gql_place::{Piece, Place};
use std::alloc::Global;
use std::collections::VecDeque;
use std::mem;

/// How much room a list of what is kept may have without giving it back.
const ROOM: usize = 1024;

/// Puts together the open places, each of what is kept of its task, and leaves the first ones.
pub fn assemble<'a, V: Drop>(
    alloc: Global,
    kept: Vec<Kept<'a, V>>,
    roots: usize,
    places: &mut Vec<Option<Piece>>,
) -> Made<()>
    requires { laid roots (entries_in kept.items) ≡ Some (length places.old.items) }
    ensures length { OnOk result (length places.new.items ≡ roots) }
    ensures placed { (base : ℕ) (jobs : List (Job V)) (answer : Call V → Answer V)
        → base ≤ roots → length jobs ≡ length places.old.items
        → AllHeldSince answer base jobs (store_in kept.entry.items places.old.items)
        → OnOk result (ArePlaced answer base jobs places.new.items) }
{
    let mut kept = kept;
    'kept: while let Some(last) = kept.pop() {
        put_place(alloc, last, places)?;
        give_back(&mut kept);
    }
    Ok(())
}

/// Gives back the memory of what was taken off, where that is most of a long list's.
fn give_back<'a, V: Drop>(kept: &mut Vec<Kept<'a, V>>)
    ensures { kept.new.items ≡ kept.old.items }
{
    let room = kept.capacity();
    if room > ROOM && room / 4 > kept.len() {
        kept.shrink_to_fit();
    }
}

/// Adds open places up to this count.
#[tactic(auto, using(crate::proofs::PutLemmas::put_more))]
pub fn add_open(places: &mut Vec<Option<Piece>>, count: usize) -> Made<()>
    requires { length places.old.items ≤ count }
    ensures length { OnOk result (length places.new.items ≡ count) }
    ensures within { length places.new.items ≤ count }
    ensures same { OnOk result
        ((k : ℕ) → stands_for places.new.items k ≡ stands_for places.old.items k) }
{
    for i in places.len()..count {
        places.push(None)?;
    }
    Ok(())
}

/// Takes room for the places of so many tasks, so that their list grows once.
pub fn reserve_places(places: &mut Vec<Option<Piece>>, tasks: usize) -> Made<()>
    ensures { places.new.items ≡ places.old.items }
{
    if places.len() < tasks {
        places.reserve(tasks - places.len())?;
    }
    Ok(())
}

/// Puts the place of a task, whatever stood there.
pub fn put_place_at(places: &mut Vec<Option<Piece>>, number: usize, place: Piece) -> Made<()>
    ensures puts { OnOk result
        (PutsAt (Some place) number places.old.items places.new.items) }
    ensures within { (n : ℕ) → number < n → length places.old.items ≤ n
        → length places.new.items ≤ n }
{
    if number < places.len() {
        places[number] = Some(place);
        return Ok(());
    }
    add_open(places, number)?;
    places.push(Some(place))?;
    Ok(())
}

/// Leaves the place of a task open, whatever stood there.
#[tactic(auto, using(crate::proofs::PutLemmas::puts_none))]
pub fn open_place(places: &mut Vec<Option<Piece>>, number: usize)
    ensures opens { PutsAt None number places.old.items places.new.items }
    ensures length { length places.new.items ≡ length places.old.items }
{
    if number < places.len() {
        places[number] = None;
    }
}

/// Puts the place of a task where it is open, of the places under it, which stand after all
/// others.
fn put_place<'a, V: Drop>(
    alloc: Global,
    kept: Kept<'a, V>,
    places: &mut Vec<Option<Piece>>,
) -> Made<()>
    requires number { kept.number < kept.first }
    requires first { kept.first ≤ length places.old.items }
    ensures { OnOk result (IsPutOpen kept.entry places.old.items places.new.items) }
{
    let Kept {
        number,
        first,
        count: _,
        filled,
    } = kept;
    let mut own = take_behind(places, first)?;
    let place = piece_from(alloc, filled, &mut own)?;
    put_if_open(places, number, place);
    Ok(())
}

/// Puts a place where it is open.
fn put_if_open(places: &mut Vec<Option<Piece>>, number: usize, place: Piece)
    requires { number < length places.old.items }
    ensures { places.new.items ≡ put_open place places.old.items number }
{
    if places[number].is_none() {
        places[number] = Some(place);
    }
}

/// Takes the places from the one of a number on, and leaves those before it. The fewer ones are
/// moved.
fn take_behind(places: &mut Vec<Option<Piece>>, first: usize) -> Made<VecDeque<Option<Piece>>>
    requires { first ≤ length places.old.items }
    ensures left { OnOk result (places.new.items ≡ take first places.old.items) }
    ensures behind { IfOk result (λ behind. behind.items ≡ drop first places.old.items) }
{
    if first < places.len() - first {
        move_before(places, first)
    } else {
        split_behind(places, first)
    }
}

/// Moves the places before the one of a number to a list of their own, and gives the list of all,
/// in which the others are left.
#[tactic(auto, using(crate::proofs::MovingLemmas::moving))]
fn move_before(places: &mut Vec<Option<Piece>>, first: usize) -> Made<VecDeque<Option<Piece>>>
    requires { first ≤ length places.old.items }
    ensures left { OnOk result (places.new.items ≡ take first places.old.items) }
    ensures behind { IfOk result (λ behind. behind.items ≡ drop first places.old.items) }
{
    let alloc = *places.allocator();
    let before = Vec::with_capacity(alloc, first)?;
    let mut behind = VecDeque::from_vec(mem::replace(places, before));
    for _place in 0..first {
        let Some(front) = behind.pop_front() else {
            return Ok(behind);
        };
        places.push(front)?;
    }
    Ok(behind)
}

/// Moves the places from the one of a number on to a list of their own.
fn split_behind(places: &mut Vec<Option<Piece>>, first: usize) -> Made<VecDeque<Option<Piece>>>
    requires { first ≤ length places.old.items }
    ensures left { OnOk result (places.new.items ≡ take first places.old.items) }
    ensures behind { IfOk result (λ behind. behind.items ≡ drop first places.old.items) }
{
    let behind = places.split_off(first)?;
    Ok(VecDeque::from_vec(behind))
}

/// What is kept of the place of what a task came to, where it came to no object.
pub fn piece_alone<'a, V: Drop>(alloc: Global, filled: Filled<'a, V>) -> Made<Piece>
    ensures { IfOk result (λ piece. IsMadeAlone filled.entry piece) }
{
    piece_from(alloc, filled, &mut VecDeque::new(alloc))
}

/// What is kept of the place of what a task came to, of what is kept of the places under it.
fn piece_from<'a, V: Drop>(
    alloc: Global,
    filled: Filled<'a, V>,
    own: &mut VecDeque<Option<Piece>>,
) -> Made<Piece>
    ensures { IfOk result (λ piece. IsMade filled.entry (present own.old.items) piece) }
{
    let Filled {
        pos,
        non_null,
        added,
        headers,
        whole,
        shape,
        parents,
    } = filled;
    let tree = shape.fill(alloc, pos, whole, parents, own)?;
    let place = Place {
        pos,
        non_null,
        added,
        headers,
        tree,
    };
    Piece::new(alloc, whole, place)
}
