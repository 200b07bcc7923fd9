//! The rules of a bench's resolvers.
ghost use Rattle.std.specs.Prelude.{◌≡◌, IfOk};
ghost use Rattle.gql_bench.specs.Rule.{entity_rule, kind_of, rule_of};

use crate::given::given_from;
use gql_base::{Items, Made, Name, Text};
use gql_form::{AnswerForm, Path, RuleForm};
use gql_request::HeaderOp;
use gql_resolve::FieldValue;
use std::alloc::Global;

/// How a resolver answers, and when.
#[derive(Drop)]
pub struct Rule {
    /// The number of polls that are pending before the answer.
    pub delay: u64,
    /// The messages of errors beside the answer.
    pub added: Items<Text>,
    /// What the answer does to the headers of the HTTP response.
    pub headers: Items<HeaderOp>,
    /// The answer.
    pub kind: RuleKind,
}

/// What a resolver answers.
#[derive(Drop)]
pub enum RuleKind {
    /// This.
    Const(FieldValue<i64>),
    /// No value.
    None,
    /// An error with this message.
    Fail(Text),
    /// The parent's member of this name, where the parent is an object value that has it.
    Member(Name),
    /// The value of the argument of this name, where there is one.
    Arg(Name),
    /// The sum of the arguments at these paths.
    Sum(Items<Path>),
    /// The representations of the arguments, each under the name of its type.
    Entities,
    /// The cell at this place.
    Read(u64),
    /// The cell at this place, to which a root of a mutation adds first.
    Bump(u64),
}

/// The rule of an answer. Its values are moved.
pub(crate) fn rule_from(alloc: Global, form: AnswerForm) -> Made<Rule>
    ensures { IfOk result (λ made. made ≡ rule_of form) }
{
    let AnswerForm {
        delay,
        added,
        headers,
        rule,
    } = form;
    let kind = kind_from(alloc, rule)?;
    Ok(Rule {
        delay: delay.polls,
        added,
        headers,
        kind,
    })
}

/// The rule of entities.
pub(crate) fn entity_rule(alloc: Global) -> Rule
    ensures { result ≡ entity_rule }
{
    Rule {
        delay: 0,
        added: Items::new(alloc),
        headers: Items::new(alloc),
        kind: RuleKind::Entities,
    }
}

fn kind_from(alloc: Global, form: RuleForm) -> Made<RuleKind>
    ensures { IfOk result (λ made. made ≡ kind_of form) }
{
    match form {
        RuleForm::Const(answered) => Ok(RuleKind::Const(given_from(alloc, answered)?)),
        RuleForm::None => Ok(RuleKind::None),
        RuleForm::Fail(message) => Ok(RuleKind::Fail(message)),
        RuleForm::Member(name) => Ok(RuleKind::Member(name)),
        RuleForm::Arg(name) => Ok(RuleKind::Arg(name)),
        RuleForm::Sum(paths) => Ok(RuleKind::Sum(paths)),
        RuleForm::Read(cell) => Ok(RuleKind::Read(cell.place)),
        RuleForm::Bump(cell) => Ok(RuleKind::Bump(cell.place)),
    }
}
