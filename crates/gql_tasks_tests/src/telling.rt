//! Hooks that write down what they are told, for tests.
ghost use Rattle.std.specs.Prelude.{◌≡◌};

use gql_base::{Error, Made, Value, push_type};
use gql_request::{Entered, ExtensionContext, ResolveInfo};
use gql_tasks::Rounds;
use std::alloc::Global;

/// A line for each task whose hooks were entered.
#[derive(Drop)]
pub struct Telling {
    pub text: String,
}

impl Telling {
    pub fn new(alloc: Global) -> Telling {
        Telling {
            text: String::new(alloc),
        }
    }
}

impl Rounds for Telling {
    ghost use Rattle.std.specs.Prelude.{None};

    ghost Event = { Unit {0} };

    ghost entered = { λ ctx info. tt };

    ghost told = { λ hooks. None };

    ghost are_quiet = { λ hooks. Unit {0} };

    fn enter(
        &mut self,
        _ctx: &ExtensionContext<'_>,
        info: &ResolveInfo<'_>,
    ) -> Made<Entered<Result<Option<Value>, Error>>> {
        push_info(&mut self.text, info)?;
        Ok(Entered::Go)
    }
}

/// Appends what hooks are told of a task: its path, its type and field with its alias, and the
/// type.
fn push_info(out: &mut String, info: &ResolveInfo<'_>) -> Made<()> {
    for segment in info.path_node.segments {
        write!(out, "{segment} ")?;
    }
    let (parent, name) = (info.parent_type, info.name);
    write!(out, "is {parent}.{name}")?;
    if let Some(alias) = info.alias {
        write!(out, " as {alias}")?;
    }
    out.push_str(": ")?;
    push_type(out, info.return_type)?;
    out.push(';')
}
