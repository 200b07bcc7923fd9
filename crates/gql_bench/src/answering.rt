//! What a resolver answers to a call in a world of cells, by its rule.
ghost use Rattle.std.specs.Prelude.{◌≡◌, ◌<◌, [], map, option_and_then, IfOk, IfSome, IsTrue};
ghost use Rattle.std.specs.Prelude.{length, Ok};
ghost use Rattle.std.specs.Option.{option_copied};
ghost use Rattle.gql_base.specs.Kinds.{object_of};
ghost use Rattle.gql_resolve.specs.Call.{call_of};
ghost use Rattle.gql_resolve.specs.FieldValue.{value_in};
ghost use Rattle.gql_resolve.specs.Lawful.{plain_answer};
ghost use Rattle.gql_bench.specs.Answer.{answer_by, bump_or_read, cell_at, given_under};
ghost use Rattle.gql_bench.specs.Answer.{kind_outcome, parent_member, parent_members};
ghost use Rattle.gql_bench.specs.Bump.{IsPlainRule, kind_effect};
ghost use Rattle.gql_bench.specs.Cells.{kind_below, rule_below};
ghost use Rattle.gql_bench.specs.Outcome.{plain_error};

use crate::built::bumps;
use crate::bump::{bump_of, is_root};
use crate::entities::entities_of;
use crate::rule::{Rule, RuleKind};
use crate::sum::{Outcome, message_error, sum_of};
use gql_base::{Copied, Error, Items, Made, Number, Pairs, Text, Value};
use gql_resolve::{Answer, FieldValue, ResolverContext};
use std::alloc::Global;

/// The answer by a rule, with the rule's added errors and its headers. A cell that the rule names
/// is one of these.
pub(crate) fn answer_of(
    alloc: Global,
    rule: &Rule,
    call: &ResolverContext<'_, i64>,
    cells: &[i64],
) -> Made<Answer<i64>>
    requires { IsTrue (rule_below (length cells.now) rule.now) }
    ensures { IfOk result
        (λ answer. answer ≡ answer_by rule.now (call_of call.now) cells.now) }
{
    let added = errors_of(alloc, rule.added.as_slice())?;
    let headers = rule.headers.try_clone(alloc)?;
    let result = outcome_of(alloc, &rule.kind, call, cells)?;
    Ok(Answer {
        result,
        added,
        headers,
    })
}

/// The value by a rule, if any, where the rule gives it at once and nothing else, and changes no
/// cell. A cell that the rule names is one of these.
#[tactic(auto, using(crate::proofs::PlainRuleLemmas::plain_is, crate::proofs::PlainRuleLemmas::plain_stays))]
pub(crate) fn value_of(
    alloc: Global,
    rule: &Rule,
    call: &ResolverContext<'_, i64>,
    cells: &[i64],
) -> Made<Option<Option<FieldValue<i64>>>>
    requires { IsTrue (rule_below (length cells.now) rule.now) }
    ensures value { IfOk result (λ found. IfSome found (λ value. (rule.now.delay ≡ 0)
        × (plain_answer value ≡ answer_by rule.now (call_of call.now) cells.now))) }
    ensures effect { IfOk result (λ found. IfSome found (λ value.
        kind_effect rule.now.kind (call_of call.now) cells.now ≡ cells.now)) }
{
    if !is_plain(rule) {
        return Ok(None);
    }
    value_by(alloc, &rule.kind, call, cells)
}

/// The value, if any, that comes by a rule, where it is no error. A member, which most values are,
/// is given as it is.
fn value_by(
    alloc: Global,
    kind: &RuleKind,
    call: &ResolverContext<'_, i64>,
    cells: &[i64],
) -> Made<Option<Option<FieldValue<i64>>>>
    requires { IsTrue (kind_below (length cells.now) kind.now) }
    ensures { IfOk result (λ found. IfSome found (λ value.
        kind_outcome kind.now (call_of call.now) cells.now ≡ Ok value)) }
{
    match kind {
        RuleKind::Member(name) => Ok(Some(member_of(alloc, name.as_str(), call.parent_value)?)),
        kind => Ok(outcome_of(alloc, kind, call, cells)?.ok()),
    }
}

/// Whether a rule gives a value or an error at once and nothing else, and changes no cell.
fn is_plain(rule: &Rule) -> bool
    ensures { IsTrue result → IsPlainRule rule.now }
{
    let alone = rule.added.is_empty() && rule.headers.is_empty();
    rule.delay == 0 && alone && !bumps(rule)
}

/// Errors with these messages.
fn errors_of(alloc: Global, messages: &[Text]) -> Made<Items<Error>>
    ensures { IfOk result (λ errors. errors ≡ map plain_error messages.now) }
{
    let mut errors = Items::new(alloc);
    for message in messages {
        errors.push(message_error(alloc, message.as_str())?)?;
    }
    Ok(errors)
}

/// What comes by a rule.
fn outcome_of(
    alloc: Global,
    kind: &RuleKind,
    call: &ResolverContext<'_, i64>,
    cells: &[i64],
) -> Made<Outcome>
    requires { IsTrue (kind_below (length cells.now) kind.now) }
    ensures { IfOk result
        (λ outcome. outcome ≡ kind_outcome kind.now (call_of call.now) cells.now) }
{
    let arguments = call.args.as_index_map();
    match kind {
        RuleKind::Const(given) => Ok(Ok(Some(given.try_clone(alloc)?))),
        RuleKind::None => Ok(Ok(None)),
        RuleKind::Fail(message) => Ok(Err(message_error(alloc, message.as_str())?)),
        RuleKind::Member(name) => Ok(Ok(member_of(alloc, name.as_str(), call.parent_value)?)),
        RuleKind::Arg(name) => Ok(Ok(value_under(alloc, name.as_str(), arguments)?)),
        RuleKind::Sum(paths) => sum_of(alloc, paths.as_slice(), arguments),
        RuleKind::Entities => entities_of(alloc, arguments),
        RuleKind::Read(place) => Ok(Ok(Some(cell_of(*place, cells)))),
        RuleKind::Bump(place) => bump_or_read(alloc, *place, call, cells),
    }
}

/// What comes of the cell that `bump` names: a root of a mutation raises it, others read it.
fn bump_or_read(
    alloc: Global,
    place: u64,
    call: &ResolverContext<'_, i64>,
    cells: &[i64],
) -> Made<Outcome>
    requires { place < length cells.now }
    ensures { IfOk result
        (λ outcome. outcome ≡ bump_or_read place (call_of call.now) cells.now) }
{
    if is_root(call) {
        bump_of(alloc, call.args.as_index_map(), cells[place as usize])
    } else {
        Ok(Ok(Some(cell_of(place, cells))))
    }
}

/// The member of this name of a parent, where it is an object value that has it.
fn member_of(alloc: Global, name: &str, parent: &FieldValue<i64>) -> Made<Option<FieldValue<i64>>>
    ensures { IfOk result (λ given. given ≡ parent_member name.now parent.now) }
{
    match members_of(parent) {
        Some(members) => value_under(alloc, name, members),
        None => Ok(None),
    }
}

/// The members of a parent that is an object value.
fn members_of(parent: &FieldValue<i64>) -> Option<&Pairs<Value>>
    ensures { option_copied result ≡ parent_members parent.now }
{
    match parent {
        FieldValue::Value(Value::Object(members)) => Some(members),
        _ => None,
    }
}

/// A copy of the value of this name, where there is one.
fn value_under(alloc: Global, name: &str, members: &Pairs<Value>) -> Made<Option<FieldValue<i64>>>
    ensures { IfOk result (λ given. given ≡ given_under name.now members.now) }
{
    match members.get(name) {
        Some(value) => Ok(Some(FieldValue::Value(value.try_clone(alloc)?))),
        None => Ok(None),
    }
}

/// The cell at a place.
fn cell_of(place: u64, cells: &[i64]) -> FieldValue<i64>
    requires { place < length cells.now }
    ensures { result ≡ cell_at place cells.now }
{
    FieldValue::Value(Value::Number(Number::from_i64(cells[place as usize])))
}
