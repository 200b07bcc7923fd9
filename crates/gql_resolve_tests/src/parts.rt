//! What a resolver's context borrows, for tests: a field and an operation without selections, and
//! few data.

ghost use Rattle.std.specs.Prelude.{◌≡◌, ◌<◌, [], IfOk, length};
ghost use Rattle.std.proofs.Props.{props};
ghost use Rattle.gql_doc.specs.Depth.{selections_of};
ghost use Rattle.gql_doc.specs.declared.document.Field.{out-Field};
ghost use Rattle.gql_request.specs.QueryEnv.{levels_of, NestsIn};

use gql_base::{Items, Made, Name, Pairs, PathSegment, Pos, Value, Variables};
use gql_doc::{Field, OperationDefinition, OperationType, Positioned, SelectionSet};
use gql_input::ObjectAccessor;
use gql_request::{Data, DataKey, IntrospectionMode, QueryEnv, QueryPathNode};
use gql_resolve::{FieldValue, Layers, ResolverContext};
use std::alloc::Global;

#[derive(Drop)]
pub struct Parts {
    item: Field,
    env: QueryEnv,
    arguments: Pairs<Value>,
    root: FieldValue<u64>,
    data: Data,
    segments: Items<PathSegment>,
    ghost placed: { 0 < length segments },
    ghost nests: { NestsIn env (out-Field item).selection_set } by { Prim.hlevel props },
}

impl Parts {
    /// Parts for an operation of this kind.
    #[tactic(auto, using(gql_request::proofs::NestLemmas::empty_nests))]
    pub fn new(alloc: Global, ty: OperationType) -> Made<Parts> {
        let env = environment(alloc, ty)?;
        let item = field(alloc)?;
        let segments = path(alloc)?;
        let data = data(alloc)?;
        Ok(Parts {
            item,
            env,
            arguments: Pairs::new(alloc),
            root: FieldValue::NULL,
            data,
            segments,
        })
    }

    /// A context of the task 3 of resolver 7, without arguments, with the value null above it.
    pub fn context(&self) -> ResolverContext<'_, u64> {
        self.context_over(self.layers())
    }

    /// The same context over these layers.
    pub fn context_over<'a>(&'a self, layers: Layers<'a>) -> ResolverContext<'a, u64> {
        self.context_with(&self.arguments, &self.root, layers)
    }

    /// Layers of which all but that of the execution have the same data.
    pub fn layers(&self) -> Layers<'_> {
        Layers {
            execute: None,
            query: &self.data,
            session: &self.data,
            schema: &self.data,
        }
    }

    /// The same context with these arguments, this value above it and these layers.
    pub fn context_with<'a>(
        &'a self,
        arguments: &'a Pairs<Value>,
        parent_value: &'a FieldValue<u64>,
        layers: Layers<'a>,
    ) -> ResolverContext<'a, u64> {
        let args = ObjectAccessor::new(arguments);
        let path_node = QueryPathNode {
            segments: self.segments.as_slice(),
        };
        ResolverContext {
            resolver: 7,
            task: 3,
            args,
            parent_value,
            path_node,
            item: &self.item,
            env: &self.env,
            layers,
        }
    }
}

fn at<T>(node: T) -> Positioned<T>
    ensures { result.node ≡ node }
{
    Positioned {
        pos: Pos { line: 1, column: 1 },
        node,
    }
}

fn no_selections(alloc: Global) -> Positioned<SelectionSet>
    ensures { selections_of result ≡ [] }
{
    at(SelectionSet {
        items: Items::new(alloc),
    })
}

fn field(alloc: Global) -> Made<Field>
    ensures { IfOk result (λ field. selections_of (out-Field field).selection_set ≡ []) }
{
    Ok(Field {
        alias: None,
        name: at(Name::new(alloc, "hero")?),
        arguments: Items::new(alloc),
        directives: Items::new(alloc),
        selection_set: no_selections(alloc),
    })
}

fn operation(alloc: Global, ty: OperationType) -> Positioned<OperationDefinition>
    ensures { selections_of result.node.selection_set ≡ [] }
{
    at(OperationDefinition {
        ty,
        variable_definitions: Items::new(alloc),
        directives: Items::new(alloc),
        selection_set: no_selections(alloc),
    })
}

#[tactic(auto, using(gql_request::proofs::NestLemmas::empty_within))]
fn environment(alloc: Global, ty: OperationType) -> Made<QueryEnv>
    ensures { IfOk result (λ env. levels_of env ≡ 1) }
{
    QueryEnv::new(
        alloc,
        Variables::from_value(alloc, Value::Null),
        None,
        operation(alloc, ty),
        Pairs::new(alloc),
        IntrospectionMode::default(),
        1,
    )
}

/// The path `2.5`.
fn path(alloc: Global) -> Made<Items<PathSegment>>
    ensures { IfOk result (λ segments. 0 < length segments) }
{
    let mut segments = Items::new(alloc);
    segments.push(PathSegment::Index(2))?;
    segments.push(PathSegment::Index(5))?;
    Ok(segments)
}

/// The value true under the key 1.
fn data(alloc: Global) -> Made<Data> {
    let mut data = Data::new(alloc);
    data.insert(DataKey(1), Value::Boolean(true))?;
    Ok(data)
}
