//! What a resolver's context borrows, for tests: a field and an operation without selections, a
//! parent, and no arguments.
ghost use Rattle.std.specs.Prelude.{◌≡◌, ◌<◌, [], IfOk, length};
ghost use Rattle.std.proofs.Props.{props};
ghost use Rattle.gql_doc.specs.Depth.{selections_of};
ghost use Rattle.gql_doc.specs.declared.document.Field.{out-Field};
ghost use Rattle.gql_request.specs.QueryEnv.{levels_of, NestsIn};

use gql_base::{Items, Made, Name, Pairs, PathSegment, Pos, Value, Variables};
use gql_doc::{Field, OperationDefinition, OperationType, Positioned, SelectionSet};
use gql_input::ObjectAccessor;
use gql_request::{Data, IntrospectionMode, QueryEnv, QueryPathNode};
use gql_resolve::{FieldValue, Layers, ResolverContext};
use std::alloc::Global;

#[derive(Drop)]
pub struct Parts {
    item: Field,
    env: QueryEnv,
    parent: FieldValue<i64>,
    arguments: Pairs<Value>,
    data: Data,
    segments: Items<PathSegment>,
    ghost placed: { 0 < length segments },
    ghost nests: { NestsIn env (out-Field item).selection_set } by { Prim.hlevel props },
}

impl Parts {
    /// Parts for a query, of a field under this parent.
    #[tactic(auto, using(gql_request::proofs::NestLemmas::empty_nests))]
    pub fn new(alloc: Global, parent: Value) -> Made<Parts> {
        let env = environment(alloc)?;
        let item = field(alloc)?;
        let segments = path(alloc)?;
        Ok(Parts {
            item,
            env,
            parent: FieldValue::value(parent),
            arguments: Pairs::new(alloc),
            data: Data::new(alloc),
            segments,
        })
    }

    /// A context of the task 1 of a resolver.
    pub fn context(&self, resolver: u32) -> ResolverContext<'_, i64> {
        let args = ObjectAccessor::new(&self.arguments);
        let path_node = QueryPathNode {
            segments: self.segments.as_slice(),
        };
        let layers = Layers {
            execute: None,
            query: &self.data,
            session: &self.data,
            schema: &self.data,
        };
        ResolverContext {
            resolver,
            task: 1,
            args,
            parent_value: &self.parent,
            path_node,
            item: &self.item,
            env: &self.env,
            layers,
        }
    }
}

fn at<T>(node: T) -> Positioned<T>
    ensures { result.node ≡ node }
{
    Positioned {
        pos: Pos { line: 1, column: 1 },
        node,
    }
}

fn no_selections(alloc: Global) -> Positioned<SelectionSet>
    ensures { selections_of result ≡ [] }
{
    at(SelectionSet {
        items: Items::new(alloc),
    })
}

fn field(alloc: Global) -> Made<Field>
    ensures { IfOk result (λ field. selections_of (out-Field field).selection_set ≡ []) }
{
    Ok(Field {
        alias: None,
        name: at(Name::new(alloc, "f")?),
        arguments: Items::new(alloc),
        directives: Items::new(alloc),
        selection_set: no_selections(alloc),
    })
}

fn operation(alloc: Global) -> Positioned<OperationDefinition>
    ensures { selections_of result.node.selection_set ≡ [] }
{
    at(OperationDefinition {
        ty: OperationType::Query,
        variable_definitions: Items::new(alloc),
        directives: Items::new(alloc),
        selection_set: no_selections(alloc),
    })
}

#[tactic(auto, using(gql_request::proofs::NestLemmas::empty_within))]
fn environment(alloc: Global) -> Made<QueryEnv>
    ensures { IfOk result (λ env. levels_of env ≡ 1) }
{
    QueryEnv::new(
        alloc,
        Variables::from_value(alloc, Value::Null),
        None,
        operation(alloc),
        Pairs::new(alloc),
        IntrospectionMode::default(),
        1,
    )
}

/// The path `0`.
fn path(alloc: Global) -> Made<Items<PathSegment>>
    ensures { IfOk result (λ segments. 0 < length segments) }
{
    let mut segments = Items::new(alloc);
    segments.push(PathSegment::Index(0))?;
    Ok(segments)
}
