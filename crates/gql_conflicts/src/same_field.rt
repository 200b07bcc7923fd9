//! Which sets of a document are one and the same. Places are compared first, so that sets of
//! different places are told apart at once.
ghost use Rattle.std.specs.Prelude.{◌≡◌, IsTrue};

use gql_base::{Items, Name, Pos};
use gql_doc::{
    Argument, Directive, Field, FragmentSpread, InlineFragment, Positioned, Selection, SelectionSet,
};
use gql_select::same_value;

/// True only where both fields are the same, with their places and all under them.
#[cycle(same)]
fn same_field(one: &Positioned<Field>, other: &Positioned<Field>) -> bool
    ensures { IsTrue result → one.now ≡ other.now }
{
    same_pos(&one.pos, &other.pos) && same_parts(&one.node, &other.node)
}

#[cycle(same)]
#[tactic(auto, using(crate::proofs::SameFieldLemmas::same_by_parts))]
fn same_parts(one: &Field, other: &Field) -> bool
    ensures { IsTrue result → one.now ≡ other.now }
{
    if !same_name(&one.name, &other.name) {
        return false;
    }
    if !same_optional_name(&one.alias, &other.alias) {
        return false;
    }
    if !same_arguments(&one.arguments, &other.arguments) {
        return false;
    }
    if !same_directives(&one.directives, &other.directives) {
        return false;
    }
    same_set(&one.selection_set, &other.selection_set)
}

/// True only where both sets are the same, with their places and all in them.
#[cycle(same)]
pub(crate) fn same_set(one: &Positioned<SelectionSet>, other: &Positioned<SelectionSet>) -> bool
    ensures { IsTrue result → one.now ≡ other.now }
{
    same_pos(&one.pos, &other.pos)
        && same_selections(one.node.items.as_slice(), other.node.items.as_slice())
}

#[cycle(same)]
fn same_selections(one: &[Positioned<Selection>], other: &[Positioned<Selection>]) -> bool
    ensures { IsTrue result → one.now ≡ other.now }
{
    if one.len() != other.len() {
        return false;
    }
    for place in 0..one.len() {
        if !same_pos(&one[place].pos, &other[place].pos) {
            return false;
        }
        if !same_selection(&one[place].node, &other[place].node) {
            return false;
        }
    }
    true
}

#[cycle(same)]
fn same_selection(one: &Selection, other: &Selection) -> bool
    ensures { IsTrue result → one.now ≡ other.now }
{
    match (one, other) {
        (Selection::Field(x), Selection::Field(y)) => same_field(x, y),
        (Selection::FragmentSpread(x), Selection::FragmentSpread(y)) => same_spread(x, y),
        (Selection::InlineFragment(x), Selection::InlineFragment(y)) => same_inline(x, y),
        _ => false,
    }
}

#[cycle(same)]
fn same_inline(one: &Positioned<InlineFragment>, other: &Positioned<InlineFragment>) -> bool
    ensures { IsTrue result → one.now ≡ other.now }
{
    same_pos(&one.pos, &other.pos) && same_inline_parts(&one.node, &other.node)
}

#[cycle(same)]
#[tactic(auto, using(crate::proofs::SameFieldLemmas::same_inline_by_parts))]
fn same_inline_parts(one: &InlineFragment, other: &InlineFragment) -> bool
    ensures { IsTrue result → one.now ≡ other.now }
{
    if !same_optional_name(&one.type_condition, &other.type_condition) {
        return false;
    }
    if !same_directives(&one.directives, &other.directives) {
        return false;
    }
    same_set(&one.selection_set, &other.selection_set)
}

fn same_spread(one: &Positioned<FragmentSpread>, other: &Positioned<FragmentSpread>) -> bool
    ensures { IsTrue result → one.now ≡ other.now }
{
    same_pos(&one.pos, &other.pos)
        && same_name(&one.node.fragment_name, &other.node.fragment_name)
        && same_directives(&one.node.directives, &other.node.directives)
}

fn same_directives(one: &Items<Positioned<Directive>>, other: &Items<Positioned<Directive>>) -> bool
    ensures { IsTrue result → one.now ≡ other.now }
{
    let (first, second) = (one.as_slice(), other.as_slice());
    if first.len() != second.len() {
        return false;
    }
    for place in 0..first.len() {
        if !same_directive(&first[place], &second[place]) {
            return false;
        }
    }
    true
}

fn same_directive(one: &Positioned<Directive>, other: &Positioned<Directive>) -> bool
    ensures { IsTrue result → one.now ≡ other.now }
{
    same_pos(&one.pos, &other.pos)
        && same_name(&one.node.name, &other.node.name)
        && same_arguments(&one.node.arguments, &other.node.arguments)
}

fn same_arguments(one: &Items<Argument>, other: &Items<Argument>) -> bool
    ensures { IsTrue result → one.now ≡ other.now }
{
    let (first, second) = (one.as_slice(), other.as_slice());
    if first.len() != second.len() {
        return false;
    }
    for place in 0..first.len() {
        if !same_argument(&first[place], &second[place]) {
            return false;
        }
    }
    true
}

fn same_argument(one: &Argument, other: &Argument) -> bool
    ensures { IsTrue result → one.now ≡ other.now }
{
    same_name(&one.name, &other.name)
        && same_pos(&one.value.pos, &other.value.pos)
        && same_value(&one.value.node, &other.value.node)
}

fn same_optional_name(one: &Option<Positioned<Name>>, other: &Option<Positioned<Name>>) -> bool
    ensures { IsTrue result → one.now ≡ other.now }
{
    match (one, other) {
        (None, None) => true,
        (Some(x), Some(y)) => same_name(x, y),
        _ => false,
    }
}

fn same_name(one: &Positioned<Name>, other: &Positioned<Name>) -> bool
    ensures { IsTrue result → one.now ≡ other.now }
{
    same_pos(&one.pos, &other.pos) && one.node == other.node
}

fn same_pos(one: &Pos, other: &Pos) -> bool
    ensures { IsTrue result → one.now ≡ other.now }
{
    one.line == other.line && one.column == other.column
}
