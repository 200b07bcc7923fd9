//! Places under their keys, those under one key joined.
ghost use Rattle.std.specs.Prelude.{◌≡◌, [], length, IfOk, OnOk};
ghost use Rattle.std.specs.List.{zip};
ghost use Rattle.gql_base.specs.Pairs.{names_of, unite};
ghost use Rattle.gql_place.specs.Join.{join as joined};
ghost use Rattle.gql_place.specs.Pieces.{members_in, places_in};
ghost use Rattle.gql_objects.specs.Members.{united_members};
ghost use Rattle.gql_collect.specs.KeyNames.{names_in};

use gql_base::{Copied, Made, Name, Pairs};
use gql_collect::Keys;
use gql_place::{MemberPieces, Pieces, Place, join_onto};
use std::alloc::Global;
use std::collections::VecDeque;

/// Places under keys: those under one key are joined, the first with each one after it.
pub(crate) fn members_under(alloc: Global, keys: &Keys, own: Pieces) -> Made<MemberPieces>
    requires { length (places_in own) ≡ length (names_in keys.now) }
    ensures { IfOk result (λ members. members_in members
        ≡ united_members (names_in keys.now) (places_in own)) }
{
    match keys {
        Keys::Once(keys) => members_once(alloc, keys, own),
        Keys::Each(names) => {
            let own = VecDeque::from_vec(own.into_places(alloc)?);
            let members = members_joined(alloc, names.as_slice(), own)?;
            Ok(MemberPieces::Whole(members))
        }
    }
}

/// The same under keys that stand once each, so that nothing is to be joined.
#[tactic(auto, using(crate::proofs::JoiningLemmas::once_united, gql_select::proofs::ZipLemmas::names_long))]
fn members_once(alloc: Global, keys: &Pairs<()>, own: Pieces) -> Made<MemberPieces>
    requires { length (places_in own) ≡ length (names_of keys.now) }
    ensures { IfOk result (λ members. members_in members
        ≡ united_members (names_of keys.now) (places_in own)) }
{
    // (asking the number shows that no key is there twice)
    let _count = keys.len();
    own.under(alloc, keys)
}

/// The same under the keys of all occurrences.
#[tactic(auto, using(crate::proofs::JoiningLemmas::joined_more, crate::proofs::JoiningLemmas::joined_none))]
fn members_joined(alloc: Global, names: &[Name], own: VecDeque<Place>) -> Made<Pairs<Place>>
    ensures { IfOk result (λ members. members ≡ united_members names.now own.items) }
{
    let mut own = own;
    let mut members = Pairs::new(alloc);
    for name in names {
        if let Some(place) = own.pop_front() {
            unite_place(alloc, &mut members, name, place)?;
        }
    }
    Ok(members)
}

/// Adds a place under its key, joined to the one that stands there, if any does.
#[tactic(auto, using(gql_place::proofs::JoinStepLemmas::joined_alone))]
fn unite_place(alloc: Global, members: &mut Pairs<Place>, key: &Name, place: Place) -> Made<()>
    ensures { OnOk result (members.new ≡ unite joined members.old key.now place) }
{
    match members.get_mut(key.as_str()) {
        Some(member) => join_onto(alloc, place, member),
        None => members.add_fresh(key.try_clone(alloc)?, place),
    }
}
