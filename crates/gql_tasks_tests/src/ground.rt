//! What the contexts of numbers stand on: a query or a mutation of one field, for tests.
ghost use Rattle.std.specs.Prelude.{◌≡◌, [], None, IfOk};
ghost use Rattle.std.proofs.Props.{props};
ghost use Rattle.gql_doc.specs.Depth.{deep_from, field_set, selections_of};
ghost use Rattle.gql_doc.specs.declared.document.Field.{out-Field};
ghost use Rattle.gql_request.specs.QueryEnv.{levels_of, NestsIn};

use gql_base::{Items, Made, Name, Pairs, Pos, Text, TypeRef, Value, Variables};
use gql_doc::{Field, OperationDefinition, OperationType, Positioned, Selection, SelectionSet};
use gql_request::{Data, IntrospectionMode, QueryEnv};
use gql_resolve::{FieldValue, Layers};
use std::alloc::Global;

/// A request, the field that each number asks as the resolver of its own number, and no data.
#[derive(Drop)]
pub struct Ground {
    pub env: QueryEnv,
    pub field: Field,
    pub object: Text,
    pub ty: TypeRef,
    pub arguments: Pairs<Value>,
    pub layer: Data,
    pub root: FieldValue<u32>,
    pub ghost nests: { NestsIn env (out-Field field).selection_set } by { Prim.hlevel props },
}

impl Ground {
    ghost use Rattle.std.specs.Prelude.{◌≡◌, ◌∷◌, [], IfOk};
    ghost use Rattle.gql_resolve.specs.Layers.{layers_of};

    /// An operation of this type.
    pub fn new(alloc: Global, ty: OperationType) -> Made<Ground>
        ensures { IfOk result (λ ground. ground.env.operation.node.ty ≡ ty) }
    {
        let field = aliased_field(alloc, "x", "b")?;
        let env = environment(alloc, ty, no_selections(alloc))?;
        Ok(Ground {
            env,
            field: field.node,
            object: Text::new(alloc, "Query")?,
            ty: TypeRef::named(alloc, TypeRef::INT)?,
            arguments: Pairs::new(alloc),
            layer: Data::new(alloc),
            root: FieldValue::NULL,
        })
    }

    /// The data of its layers.
    pub fn layers(&self) -> Layers<'_>
        ensures { layers_of result
            ≡ self.now.layer ∷ self.now.layer ∷ self.now.layer ∷ [] }
    {
        Layers {
            execute: None,
            query: &self.layer,
            session: &self.layer,
            schema: &self.layer,
        }
    }
}

fn at<T>(node: T) -> Positioned<T>
    ensures { result.node ≡ node }
{
    Positioned {
        pos: Pos { line: 1, column: 1 },
        node,
    }
}

fn no_selections(alloc: Global) -> Positioned<SelectionSet>
    ensures { selections_of result ≡ [] }
{
    at(SelectionSet {
        items: Items::new(alloc),
    })
}

/// A field without selections under an alias.
fn aliased_field(alloc: Global, alias: &str, name: &str) -> Made<Positioned<Field>>
    ensures { IfOk result (λ field. selections_of (field_set field) ≡ []) }
{
    let alias = at(Name::new(alloc, alias)?);
    let name = at(Name::new(alloc, name)?);
    Ok(at(Field {
        alias: Some(alias),
        name,
        arguments: Items::new(alloc),
        directives: Items::new(alloc),
        selection_set: no_selections(alloc),
    }))
}

/// A request of a set.
fn environment(alloc: Global, ty: OperationType, set: Positioned<SelectionSet>) -> Made<QueryEnv>
    requires { deep_from [] 1 set ≡ None }
    ensures ty { IfOk result (λ env. env.operation.node.ty ≡ ty) }
    ensures levels { IfOk result (λ env. levels_of env ≡ 1) }
{
    let operation = at(OperationDefinition {
        ty,
        variable_definitions: Items::new(alloc),
        directives: Items::new(alloc),
        selection_set: set,
    });
    QueryEnv::new(
        alloc,
        Variables::from_value(alloc, Value::Null),
        None,
        operation,
        Pairs::new(alloc),
        IntrospectionMode::default(),
        1,
    )
}
