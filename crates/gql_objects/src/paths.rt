//! The paths of tasks.
ghost use Rattle.std.specs.Prelude.{◌≡◌, ◌<◌, ◌≤◌, [], ◌∷◌, ◌++◌, drop, length, take, IfOk, OnOk};
ghost use Rattle.gql_collect.specs.Groups.{united};
ghost use Rattle.gql_objects.specs.Parents.{index_of, steps_before, value_of};
ghost use Rattle.gql_objects.specs.Paths.{index_step, path_of, segment_of, written};
ghost use Rattle.gql_objects.specs.Tasks.{path_with};
ghost use Rattle.gql_collect.specs.KeyNames.{key_text};

use crate::find_objects::copy_steps;
use crate::parent::Held;
use crate::step::Step;
use gql_base::{Copied, Made, Name, PathSegment};
use gql_collect::Node;
use gql_resolve::FieldValue;
use std::alloc::Global;

/// The value of which fields are asked.
pub fn value_in<'c, 'a, V>(held: &'c Held<'a, V>) -> &'c FieldValue<V>
    ensures { result.now ≡ value_of held.now }
{
    match held {
        Held::Root(root) => *root,
        Held::Found(value, _) => value,
    }
}

/// The steps to the object whose fields are asked, or to the list of which it is an item.
fn steps_in<'c, 'a, V>(held: &'c Held<'a, V>) -> &'c [Step<'a>]
    ensures { result.now ≡ steps_before held.now }
{
    match held {
        Held::Root(_) => &[],
        Held::Found(_, trail) => trail.steps.as_slice(),
    }
}

/// The index of that object in its list.
fn index_in<V>(held: &Held<'_, V>) -> Option<usize>
    ensures { result ≡ index_of held.now }
{
    match held {
        Held::Root(_) => None,
        Held::Found(_, trail) => trail.index,
    }
}

/// The key of a field.
#[tactic(auto, using(gql_collect::proofs::UnitingLemmas::key_with_others))]
fn key_at<'a>(node: &Node<'a>) -> &'a Name
    ensures { result.now ≡ key_text (united node.entry.now.group) }
{
    &node.group.first.node.response_key().node
}

/// The steps to a field of an object.
pub(crate) fn steps_with<'a, V>(
    alloc: Global,
    held: &Held<'a, V>,
    node: &Node<'a>,
) -> Made<Vec<Step<'a>>>
    ensures path { IfOk result (λ steps. path_of steps.items
        ≡ path_with held.entry.now node.entry.now) }
    ensures some { IfOk result (λ steps. 0 < length steps.items) }
{
    let mut steps = copy_steps(alloc, steps_in(held))?;
    push_index(&mut steps, index_in(held))?;
    steps.push(Step::Key(key_at(node)))?;
    Ok(steps)
}

/// Adds the step to the item of an index, if there is one.
fn push_index(steps: &mut Vec<Step<'_>>, index: Option<usize>) -> Made<()>
    ensures { OnOk result (steps.new.items ≡ steps.old.items ++ index_step index) }
{
    match index {
        None => Ok(()),
        Some(index) => {
            steps.push(Step::Index(index))?;
            Ok(())
        }
    }
}

/// Writes the path of a field of an object over what stands in the buffer, segment by segment.
pub fn write_path<V>(
    alloc: Global,
    held: &Held<'_, V>,
    node: &Node<'_>,
    path: &mut Vec<PathSegment>,
) -> Made<()>
    ensures { OnOk result (path.new.items ≡ path_with held.now node.now) }
{
    let steps = steps_in(held);
    write_steps(alloc, steps, path)?;
    match index_in(held) {
        None => write_last(alloc, path, steps.len(), Step::Key(key_at(node))),
        Some(index) => {
            write_step(alloc, path, steps.len(), Step::Index(index))?;
            write_last(alloc, path, steps.len() + 1, Step::Key(key_at(node)))
        }
    }
}

/// Writes steps over the front of a path.
#[tactic(auto, using(crate::proofs::PathLemmas::front_ends))]
fn write_steps(alloc: Global, steps: &[Step<'_>], path: &mut Vec<PathSegment>) -> Made<()>
    ensures { OnOk result (path.new.items
        ≡ path_of steps.entry.now ++ drop (length steps.entry.now) path.old.items) }
{
    for (place, step) in steps.iter().enumerate() {
        write_step(alloc, path, place, *step)?;
    }
    Ok(())
}

/// Writes a step at a place of a path, with nothing after it.
#[tactic(auto, using(crate::proofs::PathLemmas::written_last))]
fn write_last(alloc: Global, path: &mut Vec<PathSegment>, place: usize, step: Step<'_>) -> Made<()>
    requires { place ≤ length path.old.items }
    ensures { OnOk result (path.new.items
        ≡ take place path.old.items ++ segment_of step.entry ∷ []) }
{
    path.truncate(place + 1);
    write_step(alloc, path, place, step)
}

/// Writes a step at a place of a path, over what stands there, or after all.
#[tactic(auto, using(crate::proofs::PathLemmas::written_over))]
fn write_step(alloc: Global, path: &mut Vec<PathSegment>, place: usize, step: Step<'_>) -> Made<()>
    requires { place ≤ length path.old.items }
    ensures { OnOk result (path.new.items
        ≡ written place (segment_of step.entry) path.old.items) }
{
    if place < path.len() {
        write_over(alloc, &mut path[place], step)
    } else {
        path.push(segment_at(alloc, step)?)?;
        Ok(())
    }
}

/// Writes a step over a segment.
fn write_over(alloc: Global, segment: &mut PathSegment, step: Step<'_>) -> Made<()>
    ensures { OnOk result (segment.new ≡ segment_of step.entry) }
{
    *segment = segment_at(alloc, step)?;
    Ok(())
}

/// A step of a path, as it is told. A long key is shared.
fn segment_at(alloc: Global, step: Step<'_>) -> Made<PathSegment>
    ensures { IfOk result (λ made. made ≡ segment_of step.entry) }
{
    match step {
        Step::Key(key) => Ok(PathSegment::Field(key.text().try_clone(alloc)?)),
        Step::Index(index) => Ok(PathSegment::Index(index)),
    }
}
