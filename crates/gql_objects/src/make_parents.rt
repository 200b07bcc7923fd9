//! The objects of an answer, each with its fields and its tasks.
ghost use Rattle.std.specs.Prelude.{◌≡◌, ◌++◌, Some, map, option_map, IfOk, OnOk};
ghost use Rattle.std.specs.List.{flat_map};
ghost use Rattle.gql_base.specs.Pairs.{under};
ghost use Rattle.gql_select.specs.Collected.{own_selections};
ghost use Rattle.gql_objects.specs.ObjectLevels.{AreBeneath, IsBeneath, level_behind};
ghost use Rattle.gql_collect.specs.Groups.{united};
ghost use Rattle.gql_objects.specs.Parents.{jobs_here, jobs_of_standing, spot_found};
ghost use Rattle.gql_objects.specs.Parents.{standing_at, standing_behind};
ghost use Rattle.gql_objects.specs.Tasks.{jobs_in};

use crate::parent::{Found, Held, Parent};
use crate::task::Task;
use crate::task_making::make_tasks;
use gql_base::{Made, Name, Pairs};
use gql_collect::{Level, Node, fields_beneath, level_of};
use std::alloc::Global;
use std::rc::Rc;

/// Objects that were found under a field, each with its fields, and their tasks after the
/// others.
#[tactic(auto, using(crate::proofs::ObjectLevelLemmas::none_beneath, crate::proofs::ObjectLevelLemmas::parents_more, crate::proofs::ObjectLevelLemmas::placed_more))]
pub(crate) fn place_found<'a, V: Drop>(
    alloc: Global,
    node: &Node<'a>,
    found: Vec<Found<'a, V>>,
    tasks: &mut Vec<Task<'a, V>>,
) -> Made<Vec<Rc<Parent<'a, V>>>>
    ensures parents { IfOk result (λ parents. map standing_behind parents.items
        ≡ map (standing_at node.entry.now.basis (own_selections (united node.entry.now.group)))
        (map spot_found found.entry.items)) }
    ensures tasks { OnOk result (jobs_in tasks.new.items ≡ jobs_in tasks.old.items
        ++ flat_map jobs_of_standing
        (map (standing_at node.entry.now.basis (own_selections (united node.entry.now.group)))
        (map spot_found found.entry.items))) }
{
    let mut levels = Pairs::new(alloc);
    let mut parents = Vec::with_capacity(alloc, found.len())?;
    for one in found {
        let parent = parent_of(alloc, node, one, &mut levels)?;
        make_tasks(&parent, tasks)?;
        parents.push(parent)?;
    }
    Ok(parents)
}

/// An object with its fields.
fn parent_of<'a, V: Drop>(
    alloc: Global,
    node: &Node<'a>,
    found: Found<'a, V>,
    levels: &mut Pairs<Rc<Level<'a>>>,
) -> Made<Rc<Parent<'a, V>>>
    requires { AreBeneath node.now levels.old }
    ensures kept { OnOk result (AreBeneath node.entry.now levels.new) }
    ensures parent { IfOk result (λ parent. standing_behind parent
        ≡ standing_at node.entry.now.basis (own_selections (united node.entry.now.group))
        (spot_found found.entry)) }
    ensures jobs { IfOk result (λ parent. jobs_here parent.value
        ≡ jobs_of_standing (standing_behind parent)) }
{
    let Found {
        object,
        value,
        trail,
    } = found;
    let level = level_beneath(alloc, node, object.as_str(), levels)?;
    let parent = Rc::new(
        alloc,
        Parent {
            level,
            held: Held::Found(value, trail),
        },
    )?;
    Ok(parent)
}

/// The fields of the objects of a name under a field, which are made once.
#[tactic(auto, using(crate::proofs::ObjectLevelLemmas::known_beneath))]
fn level_beneath<'a>(
    alloc: Global,
    node: &Node<'a>,
    object: &str,
    levels: &mut Pairs<Rc<Level<'a>>>,
) -> Made<Rc<Level<'a>>>
    requires { AreBeneath node.now levels.old }
    ensures kept { OnOk result (AreBeneath node.entry.now levels.new) }
    ensures level { IfOk result (λ level. IsBeneath node.entry.now object.now level.value) }
{
    match known_level(levels, object)? {
        Some(level) => Ok(level),
        None => add_level(alloc, node, object, levels),
    }
}

/// The level that is kept under a name.
fn known_level<'a>(levels: &Pairs<Rc<Level<'a>>>, object: &str) -> Made<Option<Rc<Level<'a>>>>
    ensures { IfOk result (λ known. option_map level_behind known
        ≡ option_map level_behind (under object.now levels.entry.now)) }
{
    match levels.get(object) {
        Some(level) => Ok(Some(level.clone()?)),
        None => Ok(None),
    }
}

/// Makes a level, and keeps it under its name.
#[tactic(auto, using(crate::proofs::ObjectLevelLemmas::more_beneath))]
fn add_level<'a>(
    alloc: Global,
    node: &Node<'a>,
    object: &str,
    levels: &mut Pairs<Rc<Level<'a>>>,
) -> Made<Rc<Level<'a>>>
    requires { AreBeneath node.now levels.old }
    ensures kept { OnOk result (AreBeneath node.entry.now levels.new) }
    ensures level { IfOk result (λ level. IsBeneath node.entry.now object.now level.value) }
{
    let level = Rc::new(alloc, make_level(alloc, node, object)?)?;
    levels.add(Name::new(alloc, object)?, level.clone()?)?;
    Ok(level)
}

/// The fields of the objects of a name under a field.
pub(crate) fn make_level<'a>(alloc: Global, node: &Node<'a>, object: &str) -> Made<Level<'a>>
    ensures { IfOk result (λ level. IsBeneath node.entry.now object.now level) }
{
    let fields = fields_beneath(alloc, &node.basis, object, &node.group)?;
    level_of(alloc, &node.basis, node.basis.grouping, object, fields)
}
