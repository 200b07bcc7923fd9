//! Whether each argument is given the same in two lists (GraphQL, October 2021, section 5.3.2). Of a
//! doubled one the first counts.
ghost use Rattle.std.specs.Prelude.{◌≡◌, IfOk, IsTrue, map};
ghost use Rattle.std.specs.List.{list_all};
ghost use Rattle.std.specs.Option.{option_copied};
ghost use Rattle.gql_base.specs.Same.{is_same};
ghost use Rattle.gql_doc.specs.contracts.document.DocValue.{the_row};
ghost use Rattle.gql_select.specs.Alike.{same_arguments, same_written};
ghost use Rattle.gql_select.specs.Given.{argument_same, as_written, name_same, pair_same};

use crate::given::Given;
use crate::same_written::same_value;
use gql_base::{Made, Pairs};
use gql_doc::{Argument, DocValue};
use std::alloc::Global;

/// True exactly where each argument is given the same in both lists.
#[tactic(auto, using(crate::proofs::GivenLemmas::same_written_out))]
pub fn same_arguments(alloc: Global, one: &[Argument], other: &[Argument]) -> Made<bool>
    ensures { IfOk result (λ same. same ≡ same_arguments one.now other.now) }
{
    if same_in_order(one, other) {
        return Ok(true);
    }
    let one = Given::new(alloc, one)?;
    let other = Given::new(alloc, other)?;
    Ok(same_by_name(&one, &other))
}

/// The same where the names of the first list are at hand. What it costs goes by the second list.
#[tactic(auto, using(crate::proofs::GivenLemmas::same_written_out))]
pub fn same_as_given(alloc: Global, one: &Given<'_>, other: &[Argument]) -> Made<bool>
    ensures { IfOk result (λ same. same ≡ same_arguments one.now other.now) }
{
    if same_in_order(one.written(), other) {
        return Ok(true);
    }
    let other = Given::new(alloc, other)?;
    Ok(same_by_name(one, &other))
}

/// True only where both lists are written out alike, but for places.
fn same_in_order(one: &[Argument], other: &[Argument]) -> bool
    ensures { IsTrue result → map as_written one.now ≡ map as_written other.now }
{
    if one.len() != other.len() {
        return false;
    }
    for place in 0..one.len() {
        if !same_argument(&one[place], &other[place]) {
            return false;
        }
    }
    true
}

fn same_argument(one: &Argument, other: &Argument) -> bool
    ensures { IsTrue result → as_written one.now ≡ as_written other.now }
{
    one.name.node == other.name.node && same_value(&one.value.node, &other.value.node)
}

/// True exactly where each name of one of two lists is given the same in both.
#[tactic(auto, using(gql_lists::proofs::AllLemmas::all_append))]
fn same_by_name(one: &Given<'_>, other: &Given<'_>) -> bool
    ensures { result ≡ same_arguments one.now other.now }
{
    first_same(one, other) && second_same(one, other)
}

/// True exactly where each name of the first of two lists is given the same in both. Each name of an
/// index is looked at once, however often it is written.
#[tactic(auto, using(crate::proofs::GivenLemmas::indexed_names))]
fn first_same(one: &Given<'_>, other: &Given<'_>) -> bool
    ensures { result ≡ list_all (argument_same one.now other.now) one.now }
{
    match one.index() {
        Some(index) => names_same(index, one, other),
        None => written_same(one.written(), one, other),
    }
}

/// True exactly where each name of the second of two lists is given the same in both.
#[tactic(auto, using(crate::proofs::GivenLemmas::indexed_names))]
fn second_same(one: &Given<'_>, other: &Given<'_>) -> bool
    ensures { result ≡ list_all (argument_same one.now other.now) other.now }
{
    match other.index() {
        Some(index) => names_same(index, one, other),
        None => written_same(other.written(), one, other),
    }
}

/// True exactly where each name of an index is given the same in two lists.
#[tactic(auto, using(gql_lists::proofs::AllLemmas::all_more, gql_lists::proofs::AllLemmas::all_fails, gql_lists::proofs::AllLemmas::all_passed))]
fn names_same(index: &Pairs<&DocValue>, one: &Given<'_>, other: &Given<'_>) -> bool
    ensures { result ≡ list_all (pair_same one.now other.now) index.now }
{
    for place in 0..index.len() {
        let (name, _) = index.at(place);
        if !same_under(name, one, other) {
            return false;
        }
    }
    true
}

/// True exactly where each of some arguments is given the same in two lists.
#[tactic(auto, using(gql_lists::proofs::AllLemmas::all_more, gql_lists::proofs::AllLemmas::all_fails, gql_lists::proofs::AllLemmas::all_passed))]
fn written_same(some: &[Argument], one: &Given<'_>, other: &Given<'_>) -> bool
    ensures { result ≡ list_all (argument_same one.now other.now) some.now }
{
    for argument in some {
        if !same_under(argument.name.node.as_str(), one, other) {
            return false;
        }
    }
    true
}

fn same_under(name: &str, one: &Given<'_>, other: &Given<'_>) -> bool
    ensures { result ≡ name_same one.now other.now name.now }
{
    same_given(one.get(name), other.get(name))
}

/// True exactly where both values are written alike, or both are wanting.
fn same_given(one: Option<&DocValue>, other: Option<&DocValue>) -> bool
    ensures { result ≡ same_written (option_copied one.entry) (option_copied other.entry) }
{
    match (one, other) {
        (None, None) => true,
        (Some(one), Some(other)) => is_written_as(one, other),
        _ => false,
    }
}

/// True exactly where both values are equal.
fn is_written_as(one: &DocValue, other: &DocValue) -> bool
    ensures { result ≡ is_same the_row.coded one.now other.now }
{
    same_value(one, other)
}
