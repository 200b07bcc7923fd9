//! The tasks of an object, one for each of its fields that asks an answer, in the order of the
//! response.
ghost use Rattle.std.specs.Prelude.{◌≡◌, ◌++◌, OnOk};
ghost use Rattle.gql_objects.specs.Jobs.{job_by};
ghost use Rattle.gql_collect.specs.Levels.{asked_behind};
ghost use Rattle.gql_objects.specs.Parents.{jobs_here, rooted, standing_behind};
ghost use Rattle.gql_objects.specs.Tasks.{jobs_in};

use crate::parent::Parent;
use crate::task::Task;
use gql_base::Made;
use gql_collect::Node;
use std::rc::Rc;

/// Makes the tasks of an object.
#[tactic(auto, using(crate::proofs::TaskLemmas::tasks_more, gql_collect::proofs::LevelLemmas::members_values))]
pub fn make_tasks<'a, V: Drop>(parent: &Rc<Parent<'a, V>>, tasks: &mut Vec<Task<'a, V>>) -> Made<()>
    ensures { OnOk result (jobs_in tasks.new.items ≡ jobs_in tasks.old.items
        ++ jobs_here parent.entry.now.value) }
{
    for node in parent.level.nodes.as_slice() {
        make_task(parent, node, tasks)?;
    }
    Ok(())
}

/// Makes the task of a field, where it asks an answer.
#[tactic(auto, using(crate::proofs::TaskLemmas::one_task, crate::proofs::TaskLemmas::no_task))]
fn make_task<'a, V: Drop>(
    parent: &Rc<Parent<'a, V>>,
    node: &Rc<Node<'a>>,
    tasks: &mut Vec<Task<'a, V>>,
) -> Made<()>
    ensures { OnOk result (jobs_in tasks.new.items ≡ jobs_in tasks.old.items
        ++ job_by (rooted parent.entry.now.value.held) (standing_behind parent.entry.now).spot
        (asked_behind node.entry.now)) }
{
    if node.asks.is_call() {
        let parent = parent.clone()?;
        let node = node.clone()?;
        tasks.push(Task { parent, node })?;
    }
    Ok(())
}
