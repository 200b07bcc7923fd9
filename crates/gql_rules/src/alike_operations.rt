//! Operations that define their variables alike, and so ask the same of the fragments that they
//! reach.
ghost use Rattle.std.specs.Prelude.{◌≡◌, ◌<◌, Some, length, slice_get, true};
ghost use Rattle.gql_fields.specs.declared.listed.OperationPlaces.{OperationPlaces as Listed};
ghost use Rattle.gql_request.specs.Defined.{defined_name};
ghost use Rattle.gql_rules.specs.AlikeOperations.{AskAlike, IsAlike, IsHead};

use crate::usage_allowed::has_value_default;
use gql_base::{Made, TypeRef};
use gql_doc::{Positioned, VariableDefinition};
use gql_fields::OperationPlaces;
use gql_schema::Same;
use std::alloc::Global;

/// For each operation the place of the first of its mark, which tells of its definitions. Nothing
/// is promised of what it proposes.
pub fn proposed_heads(alloc: Global, operations: &[OperationPlaces<'_>]) -> Made<Vec<usize>> {
    let mut marks = Vec::with_capacity(alloc, operations.len())?;
    for place in 0..operations.len() {
        marks.push((mark_of(&operations[place]), place))?;
    }
    marks.sort_unstable();
    first_of_each(alloc, marks.as_slice())
}

/// For each place the first place of its mark, where they stand in the order of their marks.
fn first_of_each(alloc: Global, marks: &[(u64, usize)]) -> Made<Vec<usize>> {
    let mut heads = vec![in alloc; 0; marks.len()]?;
    let mut last = None;
    let mut head = 0;
    for (mark, place) in marks {
        if last != Some(*mark) {
            last = Some(*mark);
            head = *place;
        }
        put_at(heads.as_mut_slice(), *place, head);
    }
    Ok(heads)
}

fn put_at(heads: &mut [usize], place: usize, head: usize) {
    if place < heads.len() {
        heads[place] = head;
    }
}

/// A number that is computed of what an operation asks. Those that ask the same have one.
fn mark_of(operation: &OperationPlaces<'_>) -> u64 {
    let mut mark = 0;
    for definition in operation.operation.node.variable_definitions.as_slice() {
        mark = mark_of_definition(mark, &definition.node);
    }
    mark
}

fn mark_of_definition(mark: u64, definition: &VariableDefinition) -> u64 {
    let named = mark_of_text(mixed(mark, 256), definition.name.node.as_str());
    let typed = mark_of_type(mixed(named, 257), &definition.var_type.node);
    mixed(
        typed,
        if has_value_default(&definition.default) {
            258
        } else {
            259
        },
    )
}

fn mark_of_type(mark: u64, ty: &TypeRef) -> u64 {
    match ty {
        TypeRef::Named(name) => mark_of_text(mixed(mark, 260), name.as_str()),
        TypeRef::List(inner) => mark_of_type(mixed(mark, 261), inner.get()),
        TypeRef::NonNull(inner) => mark_of_type(mixed(mark, 262), inner.get()),
    }
}

fn mark_of_text(mark: u64, text: &str) -> u64 {
    let mut mark = mark;
    for byte in text.as_bytes() {
        mark = mixed(mark, u64::from(*byte));
    }
    mark
}

/// A mark with one more number.
fn mixed(mark: u64, next: u64) -> u64 {
    (mark ^ next).wrapping_mul(0x0100_0000_01b3)
}

/// The place of an operation that asks the same as that at a place: the proposed one where it does,
/// and else its own.
#[tactic(auto, using(crate::proofs::GatheringLemmas::own_head))]
pub fn head_of(operations: &[OperationPlaces<'_>], heads: &[usize], place: usize) -> usize
    requires { place < length operations.now }
    ensures within { result < length operations.now }
    ensures head { (one : Listed) → slice_get operations.now place ≡ Some one
        → IsHead operations.now result one }
{
    let head = proposed_at(heads, place);
    if asks_as(operations, head, place) {
        return head;
    }
    place
}

/// True only where an operation stands at the first place and asks the same as that at the second.
fn asks_as(operations: &[OperationPlaces<'_>], other: usize, place: usize) -> bool
    requires { place < length operations.now }
    ensures within { result ≡ true → other < length operations.now }
    ensures head { result ≡ true → (one : Listed) → slice_get operations.now place ≡ Some one
        → IsHead operations.now other one }
{
    if other >= operations.len() {
        return false;
    }
    ask_alike(&operations[other], &operations[place])
}

/// The number at a place, and past the end the place.
fn proposed_at(heads: &[usize], place: usize) -> usize {
    if place < heads.len() {
        heads[place]
    } else {
        place
    }
}

/// True where two operations define their variables alike, one after another.
fn ask_alike(one: &OperationPlaces<'_>, other: &OperationPlaces<'_>) -> bool
    ensures { result ≡ true → AskAlike one.now.operation.now.node.variable_definitions
        other.now.operation.now.node.variable_definitions }
{
    are_alike(
        one.operation.node.variable_definitions.as_slice(),
        other.operation.node.variable_definitions.as_slice(),
    )
}

fn are_alike(
    one: &[Positioned<VariableDefinition>],
    other: &[Positioned<VariableDefinition>],
) -> bool
    ensures { result ≡ true → AskAlike one.now other.now }
{
    if one.len() != other.len() {
        return false;
    }
    for place in 0..one.len() {
        if !is_alike(&one[place], &other[place]) {
            return false;
        }
    }
    true
}

/// True where two definitions are of one name and type, and both or none has a default other than
/// null.
fn is_alike(one: &Positioned<VariableDefinition>, other: &Positioned<VariableDefinition>) -> bool
    ensures name { result ≡ true → defined_name one.now ≡ defined_name other.now }
    ensures alike { result ≡ true → IsAlike one.now other.now }
{
    one.node.name.node.same(&other.node.name.node)
        && one.node.var_type.node.same(&other.node.var_type.node)
        && has_value_default(&one.node.default) == has_value_default(&other.node.default)
}
