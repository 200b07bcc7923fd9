//! Answers that come to the data that they are as they stand, with nothing beside it, which are
//! most (GraphQL, October 2021, section 6.4.3).
ghost use Rattle.std.specs.Prelude.{◌≡◌, IsTrue, MatchResult, true};
ghost use Rattle.gql_tasks.specs.declared.given.Given.TheVariants.{Answered};
ghost use Rattle.gql_place.specs.declared.piece.Piece.TheVariants as kept;
ghost use Rattle.gql_collect.specs.Asks.{is_call};
ghost use Rattle.gql_engine.specs.PlanHolds.{ComesAlone, IsDataAlone};
ghost use Rattle.gql_objects.specs.Tasks.{job_of_task};

use gql_base::Value;
use gql_collect::Node;
use gql_complete::{data_in, is_data};
use gql_objects::{Parent, Task, known_of};
use gql_resolve::Answer;
use gql_tasks::Given;
use std::alloc::Global;
use std::rc::Rc;

/// The value that a task comes to with what it is given, where that is data as it stands and all
/// that is kept of its place; else what it is given.
pub(crate) fn data_alone<'a, V: Drop>(
    alloc: Global,
    task: &Task<'a, V>,
    given: Given<V>,
) -> Result<Value, Given<V>>
    ensures { MatchResult result
        (λ value. ComesAlone given (job_of_task task.entry.now) (kept.Data value))
        (λ other. other ≡ given) }
{
    match given {
        Given::Answered(answer) => data_of_answer(alloc, task, answer),
        Given::Put(put) => Err(Given::Put(put)),
    }
}

/// The same of an answer.
fn data_of_answer<'a, V: Drop>(
    alloc: Global,
    task: &Task<'a, V>,
    answer: Answer<V>,
) -> Result<Value, Given<V>>
    ensures { MatchResult result
        (λ value. ComesAlone (Answered answer) (job_of_task task.entry.now) (kept.Data value))
        (λ other. other ≡ Answered answer) }
{
    if !is_data_alone(task.node.as_ref(), &answer) {
        return Err(Given::Answered(answer));
    }
    let none: Vec<Rc<Parent<'a, V>>> = Vec::new(alloc);
    let Answer {
        result,
        added: _,
        headers: _,
    } = answer;
    Ok(data_in(result))
}

/// Whether an answer is data as it stands, with nothing beside it, and its value is all that is
/// kept of its place.
fn is_data_alone<V>(node: &Node<'_>, answer: &Answer<V>) -> bool
    requires { is_call node.now.asks ≡ true }
    ensures { IsTrue result → IsDataAlone node.now answer.now }
{
    let known = known_of(node);
    let alone = answer.added.is_empty() && answer.headers.is_empty();
    !node.basis.grouping.keeps_whole() && alone && is_data(&known, node.asks.ty(), &answer.result)
}
