//! A plan of numbers: each is a task, and under each first one there are 0 and 1.
ghost use Rattle.std.specs.Prelude.{◌≡◌, OnOk};
ghost use Rattle.std.specs.Option.{option_copied};
ghost use Rattle.gql_tasks.specs.Plan.{alias_in};
ghost use Rattle.gql_tasks_tests.specs.Numbers.{path_of};

use crate::ground::Ground;
use gql_base::{Made, PathSegment, Value};
use gql_doc::Field;
use gql_input::ObjectAccessor;
use gql_request::{QueryPathNode, ResolveInfo};
use gql_resolve::{FieldValue, ResolverContext};
use gql_tasks::{Given, Plan};
use std::alloc::Global;

/// A number, and the one above it, if there is one.
#[derive(Clone, Copy)]
pub struct Number<'a> {
    pub value: u16,
    pub above: Option<u16>,
    pub ground: &'a Ground,
}

impl<'a> Number<'a> {
    ghost use Rattle.gql_tasks_tests.specs.Numbers.{number_below};

    /// A number under it.
    fn below(self, value: u16) -> Number<'a>
        ensures { result ≡ number_below self.entry value }
    {
        Number {
            value,
            above: Some(self.value),
            ground: self.ground,
        }
    }
}

/// Numbers as tasks, the path to one of them, and a text of what each was given.
#[derive(Drop)]
pub struct Numbers<'a> {
    pub tasks: Vec<Number<'a>>,
    pub path: Vec<PathSegment>,
    pub given: String,
}

impl<'a> Numbers<'a> {
    ghost use Rattle.std.specs.Prelude.{◌≡◌, ◌++◌, ◌∷◌, [], None, IfOk, OnOk};
    ghost use Rattle.gql_tasks.specs.Plan.{HasMade};
    ghost use Rattle.gql_tasks_tests.specs.Numbers.{below};

    /// No numbers.
    pub fn new(alloc: Global) -> Numbers<'a>
        ensures { result.tasks.items ≡ [] }
    {
        Numbers {
            tasks: Vec::new(alloc),
            path: Vec::new(alloc),
            given: String::new(alloc),
        }
    }

    /// One more first number.
    pub fn push(&mut self, ground: &'a Ground, value: u16) -> Made<()>
        ensures { OnOk result (self.new.tasks.items ≡ self.old.tasks.items
            ++ record { value = value; above = None; ground = ground.entry } ∷ []) }
    {
        self.tasks.push(Number {
            value,
            above: None,
            ground,
        })?;
        Ok(())
    }

    /// The text of what each was given.
    pub fn into_given(self) -> String {
        let Numbers {
            tasks: _,
            path: _,
            given,
        } = self;
        given
    }

    /// The numbers under one, of which a first one has some. Tells how many these are.
    fn push_below(&mut self, task: Number<'a>) -> Made<usize>
        ensures { IfOk result
            (HasMade self.old.tasks.items self.new.tasks.items (below task.entry.above task.entry)) }
    {
        match task.above {
            Some(_) => Ok(0),
            None => {
                self.tasks.push(task.below(0))?;
                self.tasks.push(task.below(1))?;
                Ok(2)
            }
        }
    }
}

impl<'a> Plan<u32> for Numbers<'a> {
    ghost use Rattle.std.specs.Prelude.{ℕ, ◌≡◌, ◌<◌, Some, length, slice_get, IfOk, OnOk};
    ghost use Rattle.gql_tasks.specs.Given.{beneath_given};
    ghost use Rattle.gql_tasks.specs.Plan.{HasMade};
    ghost use Rattle.gql_tasks.specs.declared.given.Given.{Given as GivenTo};
    ghost use Rattle.gql_tasks_tests.specs.Numbers.{asking_of, none_is_root, numbers_below};
    ghost use Rattle.gql_tasks_tests.specs.Numbers.{IsAimed};
    ghost use Rattle.gql_tasks_tests.specs.declared.numbers.Number.{Number as Task_};

    ghost Task = { Task_ };

    ghost tasks = { λ plan. plan.tasks.items };

    ghost asks = { λ task. asking_of task };

    ghost beneath = { λ task answer. numbers_below task answer };

    ghost holds = { λ plan number given. Unit {0} };

    ghost aims = { λ plan number. IsAimed plan.tasks.items plan.path.items number };

    ghost never_roots = { λ task answer place below is. none_is_root task answer place below is };

    fn aim(&mut self, _alloc: Global, number: usize) -> Made<()> {
        write_path(&mut self.path, self.tasks[number])
    }

    fn context<'c>(&'c self, number: usize) -> ResolverContext<'c, u32> {
        let task = &self.tasks[number];
        ResolverContext {
            resolver: u32::from(task.value),
            task: number as u64,
            args: ObjectAccessor::new(&task.ground.arguments),
            parent_value: &task.ground.root,
            path_node: QueryPathNode {
                segments: self.path.as_slice(),
            },
            item: &task.ground.field,
            env: &task.ground.env,
            layers: task.ground.layers(),
        }
    }

    fn info<'c>(&'c self, number: usize) -> ResolveInfo<'c> {
        let ground = self.tasks[number].ground;
        ResolveInfo {
            path_node: QueryPathNode {
                segments: self.path.as_slice(),
            },
            parent_type: ground.object.as_str(),
            return_type: &ground.ty,
            name: ground.field.name.node.as_str(),
            alias: alias_of(&ground.field),
            field: &ground.field,
        }
    }

    fn complete(&mut self, _alloc: Global, number: usize, given: Given<u32>) -> Made<usize>
        requires { number < length self.old.tasks.items }
        ensures made { (task : Task_) → slice_get self.old.tasks.items number ≡ Some task
            → IfOk result (HasMade self.old.tasks.items self.new.tasks.items
            (beneath_given numbers_below task given)) }
        ensures holds { OnOk result (Unit {0}) }
        ensures keeps { OnOk result
            ((other : ℕ) (g : GivenTo ℕ) → (other ≡ number → ⊥) → Unit {0} → Unit {0}) }
    {
        let task = self.tasks[number];
        push_given(&mut self.given, number, &given)?;
        match given {
            Given::Answered(_) => self.push_below(task),
            Given::Put(_) => Ok(0),
        }
    }
}

/// Writes the path to a number over another one.
fn write_path(path: &mut Vec<PathSegment>, task: Number<'_>) -> Made<()>
    ensures { OnOk result (path.new.items ≡ path_of task.entry) }
{
    path.clear();
    match task.above {
        None => {
            path.push(PathSegment::Index(usize::from(task.value)))?;
            Ok(())
        }
        Some(above) => {
            path.push(PathSegment::Index(usize::from(above)))?;
            path.push(PathSegment::Index(usize::from(task.value)))?;
            Ok(())
        }
    }
}

/// The alias of a field, where it has one.
fn alias_of(field: &Field) -> Option<&str>
    ensures { option_copied result ≡ alias_in field.now }
{
    match &field.alias {
        Some(alias) => Some(alias.node.as_str()),
        None => None,
    }
}

/// Appends what the task of a number was given.
fn push_given(out: &mut String, number: usize, given: &Given<u32>) -> Made<()> {
    let Given::Answered(answer) = given else {
        return write!(out, "{number} is put;");
    };
    match &answer.result {
        Ok(Some(FieldValue::Value(Value::Number(value)))) => write!(out, "{number}={value};"),
        Ok(_) => write!(out, "{number};"),
        Err(error) => {
            let message = error.message.as_str();
            write!(out, "{number}!{message};")
        }
    }
}
