//! The objects of a list, each with its tasks. They share their fields and the steps to the list.
ghost use Rattle.std.specs.Prelude.{◌≡◌, [], ◌++◌, map, true, IfOk, MatchOption, OnOk, Some};
ghost use Rattle.std.specs.List.{flat_map};
ghost use Rattle.gql_base.specs.Kinds.{list_of};
ghost use Rattle.gql_base.specs.TypeRef.{innermost};
ghost use Rattle.gql_collect.specs.Asks.{is_call, type_in};
ghost use Rattle.gql_resolve.specs.declared.field_value.FieldValue.TheVariants as kind;
ghost use Rattle.gql_objects.specs.ObjectLevels.{IsBeneath};
ghost use Rattle.gql_objects.specs.ListParents.{item_standing};
ghost use Rattle.gql_complete.specs.ObjectLists.{items_behind, items_given};
ghost use Rattle.gql_objects.specs.ListParents.{items_standing};
ghost use Rattle.gql_complete.specs.ObjectLists.{objects_in};
ghost use Rattle.gql_objects.specs.Parents.{jobs_here, jobs_of_standing, standing_behind};
ghost use Rattle.gql_objects.specs.CompletedObjects.{IsPlaced};
ghost use Rattle.gql_objects.specs.Paths.{path_of};
ghost use Rattle.gql_objects.specs.Tasks.{jobs_in, path_with};

use crate::assembly::bare::Bare;
use crate::assembly::kept::Placed;
use crate::make_parents::make_level;
use crate::parent::{Held, Parent, Shared, Trail};
use crate::paths::steps_with;
use crate::task::Task;
use crate::task_making::make_tasks;
use gql_base::{Error, Items, Made, Value};
use gql_collect::Node;
use gql_resolve::FieldValue;
use std::alloc::Global;
use std::rc::Rc;

/// What the objects of a field's type share in a list under it.
fn shared_by<'a, V>(alloc: Global, held: &Held<'a, V>, node: &Node<'a>) -> Made<Shared<'a>>
    requires { is_call node.now.asks ≡ true }
    ensures level { IfOk result (λ shared. IsBeneath node.entry.now
        (innermost (type_in node.entry.now.asks)) shared.level.value) }
    ensures path { IfOk result (λ shared. path_of shared.steps.value.items
        ≡ path_with held.entry.now node.entry.now) }
{
    let object = node.asks.ty().type_name();
    let level = Rc::new(alloc, make_level(alloc, node, object)?)?;
    let steps = Rc::new(alloc, steps_with(alloc, held, node)?)?;
    Ok(Shared { level, steps })
}

/// The objects of a field's type that a result is a list of, each with its tasks after the others.
pub(crate) fn place_list<'a, V: Drop>(
    alloc: Global,
    held: &Held<'a, V>,
    node: &Node<'a>,
    non_null: bool,
    outcome: Result<Option<FieldValue<V>>, Error>,
    tasks: &mut Vec<Task<'a, V>>,
) -> Made<Placed<'a, V>>
    requires { is_call node.now.asks ≡ true }
    ensures { IfOk result (IsPlaced node.entry.now (path_with held.entry.now node.entry.now)
        (jobs_in tasks.old.items) (jobs_in tasks.new.items)
        (objects_in (innermost (type_in node.entry.now.asks)) non_null (items_given outcome))) }
{
    let shared = shared_by(alloc, held, node)?;
    let parents = place_objects(alloc, &shared, outcome, tasks)?;
    Ok(Placed {
        shape: Bare::objects(non_null, parents.len()),
        parents,
    })
}

/// The objects that a result is a list of.
fn place_objects<'a, V: Drop>(
    alloc: Global,
    shared: &Shared<'a>,
    outcome: Result<Option<FieldValue<V>>, Error>,
    tasks: &mut Vec<Task<'a, V>>,
) -> Made<Vec<Rc<Parent<'a, V>>>>
    ensures parents { IfOk result (λ parents. map standing_behind parents.items
        ≡ items_standing shared.entry.now 0 (items_given outcome)) }
    ensures tasks { OnOk result (jobs_in tasks.new.items ≡ jobs_in tasks.old.items
        ++ flat_map jobs_of_standing (items_standing shared.entry.now 0 (items_given outcome))) }
{
    match outcome {
        Ok(Some(given)) => place_given(alloc, shared, given, tasks),
        Ok(None) => Ok(Vec::new(alloc)),
        Err(_) => Ok(Vec::new(alloc)),
    }
}

/// The same of what is given.
fn place_given<'a, V: Drop>(
    alloc: Global,
    shared: &Shared<'a>,
    given: FieldValue<V>,
    tasks: &mut Vec<Task<'a, V>>,
) -> Made<Vec<Rc<Parent<'a, V>>>>
    ensures parents { IfOk result (λ parents. map standing_behind parents.items
        ≡ items_standing shared.entry.now 0 (items_behind (Some given))) }
    ensures tasks { OnOk result (jobs_in tasks.new.items ≡ jobs_in tasks.old.items
        ++ flat_map jobs_of_standing
        (items_standing shared.entry.now 0 (items_behind (Some given)))) }
{
    match given {
        FieldValue::List(items) => place_items(alloc, shared, items, tasks),
        FieldValue::Value(value) => place_value(alloc, shared, value, tasks),
        FieldValue::Own(_) => Ok(Vec::new(alloc)),
        FieldValue::WithType { value: _, ty: _ } => Ok(Vec::new(alloc)),
    }
}

/// The same of a value.
fn place_value<'a, V: Drop>(
    alloc: Global,
    shared: &Shared<'a>,
    value: Value,
    tasks: &mut Vec<Task<'a, V>>,
) -> Made<Vec<Rc<Parent<'a, V>>>>
    ensures parents { IfOk result (λ parents. map standing_behind parents.items
        ≡ items_standing shared.entry.now 0 (items_behind (Some (kind.Value value)))) }
    ensures tasks { OnOk result (jobs_in tasks.new.items ≡ jobs_in tasks.old.items
        ++ flat_map jobs_of_standing
        (items_standing shared.entry.now 0 (items_behind (Some (kind.Value value))))) }
{
    let values = values_in(alloc, value)?;
    reserve_tasks(shared, values.len(), tasks)?;
    place_values(alloc, shared, values, tasks)
}

/// Takes room for the tasks of so many objects, so that their list grows once.
fn reserve_tasks<'a, V: Drop>(
    shared: &Shared<'a>,
    objects: usize,
    tasks: &mut Vec<Task<'a, V>>,
) -> Made<()>
    ensures { tasks.new.items ≡ tasks.old.items }
{
    let fields = shared.level.nodes.len();
    tasks.reserve(fields.saturating_mul(objects))?;
    Ok(())
}

/// The items of a value that is a list; others have none.
fn values_in(alloc: Global, value: Value) -> Made<Items<Value>>
    ensures { IfOk result (λ values. MatchOption (list_of value)
        (values ≡ []) (λ items. values ≡ items)) }
{
    match value {
        Value::List(items) => items.into_inner(alloc),
        _ => Ok(Items::new(alloc)),
    }
}

/// Items as objects, each with its tasks.
#[tactic(auto, using(crate::proofs::ListParentLemmas::items_more, crate::proofs::ListParentLemmas::item_tasks_more))]
fn place_items<'a, V: Drop>(
    alloc: Global,
    shared: &Shared<'a>,
    items: Items<FieldValue<V>>,
    tasks: &mut Vec<Task<'a, V>>,
) -> Made<Vec<Rc<Parent<'a, V>>>>
    ensures parents { IfOk result (λ parents. map standing_behind parents.items
        ≡ items_standing shared.entry.now 0 items) }
    ensures tasks { OnOk result (jobs_in tasks.new.items ≡ jobs_in tasks.old.items
        ++ flat_map jobs_of_standing (items_standing shared.entry.now 0 items)) }
{
    let mut parents = Vec::with_capacity(alloc, items.len())?;
    for item in items.into_vec() {
        let parent = item_parent(alloc, shared, parents.len(), item)?;
        make_tasks(&parent, tasks)?;
        parents.push(parent)?;
    }
    Ok(parents)
}

/// The items of a value that is a list, as objects.
#[tactic(auto, using(crate::proofs::ListParentLemmas::items_more, crate::proofs::ListParentLemmas::item_tasks_more))]
fn place_values<'a, V: Drop>(
    alloc: Global,
    shared: &Shared<'a>,
    items: Items<Value>,
    tasks: &mut Vec<Task<'a, V>>,
) -> Made<Vec<Rc<Parent<'a, V>>>>
    ensures parents { IfOk result (λ parents. map standing_behind parents.items
        ≡ items_standing shared.entry.now 0 (map kind.Value items)) }
    ensures tasks { OnOk result (jobs_in tasks.new.items ≡ jobs_in tasks.old.items
        ++ flat_map jobs_of_standing
        (items_standing shared.entry.now 0 (map kind.Value items))) }
{
    let mut parents = Vec::with_capacity(alloc, items.len())?;
    for item in items.into_vec() {
        let parent = item_parent(alloc, shared, parents.len(), FieldValue::Value(item))?;
        make_tasks(&parent, tasks)?;
        parents.push(parent)?;
    }
    Ok(parents)
}

/// The item of an index, as an object.
fn item_parent<'a, V: Drop>(
    alloc: Global,
    shared: &Shared<'a>,
    index: usize,
    value: FieldValue<V>,
) -> Made<Rc<Parent<'a, V>>>
    ensures stands { IfOk result (λ parent. standing_behind parent
        ≡ item_standing shared.entry.now index value) }
    ensures jobs { IfOk result (λ parent. jobs_here parent.value
        ≡ jobs_of_standing (standing_behind parent)) }
{
    let level = shared.level.clone()?;
    let trail = trail_to(shared, index)?;
    let parent = Rc::new(
        alloc,
        Parent {
            level,
            held: Held::Found(value, trail),
        },
    )?;
    Ok(parent)
}

/// The way to the item of an index.
fn trail_to<'a>(shared: &Shared<'a>, index: usize) -> Made<Trail<'a>>
    ensures steps { IfOk result (λ trail. trail.steps.value ≡ shared.entry.now.steps.value) }
    ensures index { IfOk result (λ trail. trail.index ≡ Some index) }
{
    let steps = shared.steps.clone()?;
    Ok(Trail {
        steps,
        index: Some(index),
    })
}
