//! The values of arguments (GraphQL, October 2021, section 6.4.1).
ghost use Rattle.std.specs.Prelude.{◌≡◌, IfOk, OnOk};
ghost use Rattle.std.specs.Option.{option_copied};
ghost use Rattle.gql_base.specs.Pairs.{later, unite_all};
ghost use Rattle.gql_resolve.specs.Variables.{known_in};
ghost use Rattle.gql_select.specs.Constants.{constant, constants};
ghost use Rattle.gql_collect.specs.CoerceArguments.{declared_of};

use gql_base::{Copied, Made, Name, Pairs, Value};
use gql_doc::{Argument, DocValue};
use gql_request::QueryEnv;
use gql_resolve::resolved_value;
use gql_schema::{ByName, InputValue};
use gql_select::Given;
use std::alloc::Global;

/// The values of the declared arguments that have one, in the order in which they are declared.
pub(crate) fn argument_values(
    alloc: Global,
    env: &QueryEnv,
    declared: &ByName<InputValue>,
    written: &[Argument],
) -> Made<Pairs<Value>>
    ensures { IfOk result (λ values. values
        ≡ constants (known_in env.now) (declared_of declared.now) written.now) }
{
    let given = Given::new(alloc, written)?;
    let mut values = Pairs::new(alloc);
    for place in 0..declared.len() {
        let (name, input) = declared.at(place);
        add_argument(
            alloc,
            env,
            &mut values,
            name,
            given.get(name),
            input.default(),
        )?;
    }
    Ok(values)
}

/// Adds the value of an argument of this name, as it is written or else by its default, where it
/// has one.
pub(crate) fn add_argument(
    alloc: Global,
    env: &QueryEnv,
    values: &mut Pairs<Value>,
    name: &str,
    written: Option<&DocValue>,
    default: Option<&Value>,
) -> Made<()>
    ensures { OnOk result (values.new ≡ unite_all later values.old
        (constant (known_in env.now) name.now (option_copied written.entry)
        (option_copied default.entry))) }
{
    match written {
        Some(written) => {
            let name = Name::new(alloc, name)?;
            values.add(name, resolved_value(alloc, env, written)?)
        }
        None => match default {
            Some(default) => {
                let name = Name::new(alloc, name)?;
                values.add(name, default.try_clone(alloc)?)
            }
            None => Ok(()),
        },
    }
}
