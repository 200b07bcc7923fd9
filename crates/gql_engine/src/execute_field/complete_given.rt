//! What a task comes to with what it is given, and the tasks under it.
ghost use Rattle.std.specs.Prelude.{◌≡◌, ◌++◌, true, IfOk, OnOk};
ghost use Rattle.std.specs.List.{AllByRecursion};
ghost use Rattle.gql_collect.specs.Asks.{is_call};
ghost use Rattle.gql_objects.specs.KeptTasks.{IsFilled};
ghost use Rattle.gql_engine.specs.GivenTasks.{IsFilledWith, made_beneath, put_shape};
ghost use Rattle.gql_objects.specs.Jobs.{jobs_beneath};
ghost use Rattle.gql_objects.specs.Tasks.{IsDeep, job_of_task, jobs_in, job_with};

use gql_base::{Error, Items, Made, Value};
use gql_collect::Node;
use gql_objects::{Bare, Filled, Parent, Task, place_answer};
use gql_place::Shape;
use gql_resolve::Answer;
use gql_tasks::Given;
use std::alloc::Global;

/// What a task comes to with what it is given. The tasks under it are made after the others.
pub(crate) fn fill_given<'a, V: Drop>(
    alloc: Global,
    task: &Task<'a, V>,
    given: Given<V>,
    tasks: &mut Vec<Task<'a, V>>,
) -> Made<Filled<'a, V>>
    ensures filled { IfOk result (λ filled. IsFilledWith given (job_of_task task.entry.now)
        filled) }
    ensures tasks { OnOk result (jobs_in tasks.new.items ≡ jobs_in tasks.old.items
        ++ made_beneath given (job_of_task task.entry.now)) }
    ensures deep { OnOk result (AllByRecursion IsDeep
        (made_beneath given (job_of_task task.entry.now))) }
{
    let parent = task.parent.as_ref();
    let node = task.node.as_ref();
    match given {
        Given::Answered(answer) => fill_answer(alloc, parent, node, answer, tasks),
        Given::Put(put) => Ok(fill_put(alloc, node, put)),
    }
}

/// What a task comes to with its answer.
fn fill_answer<'a, V: Drop>(
    alloc: Global,
    parent: &Parent<'a, V>,
    node: &Node<'a>,
    answer: Answer<V>,
    tasks: &mut Vec<Task<'a, V>>,
) -> Made<Filled<'a, V>>
    requires { is_call node.now.asks ≡ true }
    ensures filled { IfOk result (λ filled. IsFilled (job_with parent.entry.now node.entry.now)
        answer filled) }
    ensures tasks { OnOk result (jobs_in tasks.new.items ≡ jobs_in tasks.old.items
        ++ jobs_beneath (job_with parent.entry.now node.entry.now) answer) }
    ensures deep { OnOk result (AllByRecursion IsDeep
        (jobs_beneath (job_with parent.entry.now node.entry.now) answer)) }
{
    let Answer {
        result,
        added,
        headers,
    } = answer;
    let placed = place_answer(alloc, &parent.held, node, result, tasks)?;
    Ok(Filled {
        pos: node.group.first.pos,
        non_null: !node.asks.ty().is_nullable(),
        added,
        headers,
        whole: node.basis.grouping.keeps_whole(),
        shape: placed.shape,
        parents: placed.parents,
    })
}

/// What a task comes to with what a hook puts in the place of its answer.
fn fill_put<'a, V>(
    alloc: Global,
    node: &Node<'a>,
    put: Result<Option<Value>, Error>,
) -> Filled<'a, V>
    requires { is_call node.now.asks ≡ true }
    ensures { result.shape ≡ put_shape put }
{
    Filled {
        pos: node.group.first.pos,
        non_null: !node.asks.ty().is_nullable(),
        added: Items::new(alloc),
        headers: Items::new(alloc),
        whole: node.basis.grouping.keeps_whole(),
        shape: Bare::of(shape_put(put)),
        parents: Vec::new(alloc),
    }
}

/// What a hook puts, as a shape.
fn shape_put(put: Result<Option<Value>, Error>) -> Shape<(), ()>
    ensures { result ≡ put_shape put }
{
    match put {
        Ok(None) => Shape::Absent,
        Ok(Some(value)) => Shape::Leaf(value),
        Err(error) => Shape::Fault(error),
    }
}
