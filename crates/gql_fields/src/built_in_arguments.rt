//! The arguments of what every schema has.
ghost use Rattle.std.specs.Prelude.{◌≡◌, [], ◌∷◌, IfOk};
ghost use Rattle.gql_schema.specs.InputValue.{input_name};
ghost use Rattle.gql_fields.specs.BuiltIn.{built_in as the_built_in, if_argument};
ghost use Rattle.gql_fields.specs.BuiltIn.{representations_argument};

use gql_base::{Made, TypeRef};
use gql_schema::{ByName, InputValue};
use std::alloc::Global;

/// The arguments of `__typename`, of `_entities`, and of `@skip` and `@include`.
#[derive(Drop)]
pub struct BuiltIn {
    pub typename: ByName<InputValue>,
    pub entities: ByName<InputValue>,
    pub condition: ByName<InputValue>,
}

/// These arguments.
pub fn built_in(alloc: Global) -> Made<BuiltIn>
    ensures { IfOk result (λ made. made ≡ the_built_in) }
{
    let typename = ByName::new(alloc);
    let entities = lone(alloc, representations(alloc)?)?;
    let condition = lone(alloc, condition(alloc)?)?;
    Ok(BuiltIn {
        typename,
        entities,
        condition,
    })
}

fn lone(alloc: Global, input: InputValue) -> Made<ByName<InputValue>>
    ensures { IfOk result (λ made. made ≡ (input_name input, input) ∷ []) }
{
    let mut list = ByName::new(alloc);
    list.add(alloc, input)?;
    Ok(list)
}

fn representations(alloc: Global) -> Made<InputValue>
    ensures { IfOk result (λ made. made ≡ representations_argument) }
{
    let ty = TypeRef::named_nn_list_nn(alloc, "_Any")?;
    InputValue::new(alloc, "representations", ty)
}

fn condition(alloc: Global) -> Made<InputValue>
    ensures { IfOk result (λ made. made ≡ if_argument) }
{
    let ty = TypeRef::named_nn(alloc, "Boolean")?;
    InputValue::new(alloc, "if", ty)
}
