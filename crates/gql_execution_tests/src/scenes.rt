//! A table of types, and the response to a query or a mutation over it, for tests.
ghost use Rattle.std.specs.Prelude.{◌≡◌, ◌<◌, true, false, None};
ghost use Rattle.gql_doc.specs.Depth.{deep_from};
ghost use Rattle.gql_doc.specs.declared.document.ExecutableDocument.{ExecutableDocument as Document};
ghost use Rattle.gql_doc.specs.declared.document.DocumentOperations.TheVariants.{Single};
ghost use Rattle.gql_resolve.specs.Call.{is_mutation};

use crate::answers::Answers;
use crate::schemas::{Row, object, with};
use gql_admit::check_depth;
use gql_base::{
    Made, NoMemory, Pairs, Steps, Text, TypeRef, Value, Variables, json_of, push_errors,
};
use gql_collect::Grouping;
use gql_doc::{
    DocumentOperations, ExecutableDocument, FragmentDefinition, OperationDefinition, OperationType,
    Positioned, parse_query,
};
use gql_engine::{Scene, run_apart, run_grouped, run_merged, run_mutation_grouped};
use gql_place::{Place, faults, raise};
use gql_request::{Data, Hooks, IntrospectionMode, QueryEnv};
use gql_resolve::{FieldValue, Layers, Turns};
use gql_schema::{Enum, Interface, Object, Scalar, ScalarRule, SchemaType, Types, Union};
use gql_tasks::Run;
use std::alloc::Global;
use std::marker::Brand;
use std::sync::ledger::{Blank, Ledger};

/// How many levels under that of an operation the sets of a query may lie.
const DEPTH: usize = 64;

/// How many lists stand around the number of the field `nested`.
pub const LISTS: usize = 127;

/// The fields of `Query`, but for `nested`.
const QUERY: [Row; 6] = [
    ("rows", "[Row!]!", 0),
    ("any", "[Any]", 6),
    ("one", "Row", 5),
    ("node", "Node", 7),
    ("red", "Color", 10),
    ("none", "Int!", 8),
];

/// The fields of `Row`.
const ROW: [Row; 5] = [
    ("id", "Int", 1),
    ("name", "String", 2),
    ("kids", "[[Row]!]", 3),
    ("fail", "Int!", 4),
    ("next", "Row!", 5),
];

/// The type of numbers in so many lists, each in the next.
fn nested_lists(alloc: Global, levels: usize) -> Made<TypeRef> {
    let mut ty = TypeRef::named(alloc, "Int")?;
    for _ in 0..levels {
        ty = ty.list(alloc)?;
    }
    Ok(ty)
}

/// The root of queries.
fn query_object(alloc: Global) -> Made<Object> {
    let object = object(alloc, "Query", &QUERY)?;
    let nested = nested_lists(alloc, LISTS)?;
    with(alloc, object, "nested", nested, 14)
}

fn row_object(alloc: Global) -> Made<Object> {
    object(alloc, "Row", &ROW)?.implement(alloc, "Node")
}

fn add_objects(alloc: Global, types: &mut Types) -> Made<()> {
    types.register(alloc, SchemaType::Object(query_object(alloc)?))?;
    types.register(alloc, SchemaType::Object(row_object(alloc)?))?;
    let other = object(alloc, "Other", &[("x", "Int", 1)])?;
    types.register(alloc, SchemaType::Object(other))
}

fn add_abstract(alloc: Global, types: &mut Types) -> Made<()> {
    let any = Union::new(alloc, "Any")?.possible_type(alloc, "Row")?;
    let any = any.possible_type(alloc, "Other")?;
    types.register(alloc, SchemaType::Union(any))?;
    types.register(alloc, SchemaType::Interface(Interface::new(alloc, "Node")?))
}

fn add_scalar(alloc: Global, types: &mut Types, name: &str, rule: ScalarRule) -> Made<()> {
    let scalar = Scalar::new(alloc, name)?.rule(rule);
    types.register(alloc, SchemaType::Scalar(scalar))
}

fn add_leaves(alloc: Global, types: &mut Types) -> Made<()> {
    add_scalar(alloc, types, "Int", ScalarRule::Int)?;
    add_scalar(alloc, types, "String", ScalarRule::Text)?;
    let color = Enum::new(alloc, "Color")?.item(alloc, "RED")?;
    types.register(alloc, SchemaType::Enum(color))
}

fn table(alloc: Global) -> Made<Types> {
    let mut types = Types::new(alloc);
    add_objects(alloc, &mut types)?;
    add_abstract(alloc, &mut types)?;
    add_leaves(alloc, &mut types)?;
    Ok(types)
}

/// What a scene stands on beside its request.
#[derive(Drop)]
struct Ground {
    types: Types,
    object: Object,
    data: Data,
    root: FieldValue<u64>,
}

impl Ground {
    fn new(alloc: Global) -> Made<Ground> {
        let object = query_object(alloc)?;
        let types = table(alloc)?;
        Ok(Ground {
            types,
            object,
            data: Data::new(alloc),
            root: FieldValue::NULL,
        })
    }

    /// The scene of a request.
    fn scene<'a>(&'a self, env: &'a QueryEnv) -> Scene<'a, u64>
        ensures { result.env.now ≡ env.entry.now }
    {
        Scene {
            env,
            types: &self.types,
            object: &self.object,
            query: "Query",
            entities: None,
            root: &self.root,
            layers: Layers {
                execute: None,
                query: &self.data,
                session: &self.data,
                schema: &self.data,
            },
            serial: env.operation.node.ty == OperationType::Mutation,
        }
    }
}

/// The data of a response, and its errors where there are some.
fn response_text(alloc: Global, place: &Place) -> Made<String> {
    let value = raise(alloc, place)?;
    let data = json_of(alloc, &value)?;
    let mut out = String::from_str(alloc, data.as_str())?;
    push_faults(alloc, &mut out, place)?;
    Ok(out)
}

fn push_faults(alloc: Global, out: &mut String, place: &Place) -> Made<()> {
    let errors = faults(alloc, place)?;
    if !errors.is_empty() {
        push_errors(out, errors.as_slice())?;
    }
    Ok(())
}

/// A place that tells what a query comes to, its occurrences grouped so.
fn place_of<P: Turns, S: Ledger>(
    alloc: Global,
    by: Grouping,
    scene: &Scene<'_, u64>,
    set: &mut Answers,
    turns: &mut P,
    blank: Blank,
) -> Result<Place, NoMemory>
    requires name { blank.name ≡ S.name }
    requires parts { blank.parts ≡ S.parts }
    requires some { 0 < blank.parts }
    requires kind { is_mutation scene.now.env.now.operation.node.ty ≡ false }
{
    let mut hooks = Hooks::none(alloc);
    match by {
        Grouping::ByKey => {
            let mut steps: Steps<S> = Steps::new(blank);
            let mut run = Run::over(set, &mut hooks, turns, &mut steps);
            let piece = run_grouped(alloc, by, scene, &mut run)?;
            Ok(piece.into_place(alloc))
        }
        Grouping::ByKeyWhole => run_merged(alloc, scene, set, &mut hooks, turns),
        Grouping::Each => run_apart(alloc, scene, set, &mut hooks, turns),
    }
}

/// The place of a mutation, and the number of its root keys.
fn place_in_turn<P: Turns, S: Ledger>(
    alloc: Global,
    by: Grouping,
    scene: &Scene<'_, u64>,
    set: &mut Answers,
    turns: &mut P,
    blank: Blank,
) -> Result<(Place, u64), NoMemory>
    requires name { blank.name ≡ S.name }
    requires parts { blank.parts ≡ S.parts }
    requires some { 0 < blank.parts }
    requires kind { is_mutation scene.now.env.now.operation.node.ty ≡ true }
{
    let mut steps: Steps<S> = Steps::new(blank);
    let mut hooks = Hooks::none(alloc);
    let mut run = Run::over(set, &mut hooks, turns, &mut steps);
    let (piece, roots) = run_mutation_grouped(alloc, by, scene, &mut run)?;
    Ok((piece.into_place(alloc), roots))
}

/// The response to a mutation, after the number of its root keys.
fn response_in_turn<P: Turns, S: Ledger>(
    alloc: Global,
    by: Grouping,
    env: &QueryEnv,
    set: &mut Answers,
    turns: &mut P,
    blank: Blank,
) -> Result<String, NoMemory>
    requires name { blank.name ≡ S.name }
    requires parts { blank.parts ≡ S.parts }
    requires some { 0 < blank.parts }
    requires kind { is_mutation env.now.operation.node.ty ≡ true }
{
    let ground = Ground::new(alloc)?;
    let scene = ground.scene(env);
    let (place, roots) = place_in_turn::<P, S>(alloc, by, &scene, set, turns, blank)?;
    let response = response_text(alloc, &place)?;
    Ok(format!(in alloc; "{roots}{response}")?)
}

/// The response to a query.
fn response_at_once<P: Turns, S: Ledger>(
    alloc: Global,
    by: Grouping,
    env: &QueryEnv,
    set: &mut Answers,
    turns: &mut P,
    blank: Blank,
) -> Result<String, NoMemory>
    requires name { blank.name ≡ S.name }
    requires parts { blank.parts ≡ S.parts }
    requires some { 0 < blank.parts }
    requires kind { is_mutation env.now.operation.node.ty ≡ false }
{
    let ground = Ground::new(alloc)?;
    let scene = ground.scene(env);
    let place = place_of::<P, S>(alloc, by, &scene, set, turns, blank)?;
    Ok(response_text(alloc, &place)?)
}

/// The response to a request that is a query or a mutation.
fn response_to<P: Turns>(
    alloc: Global,
    by: Grouping,
    env: &QueryEnv,
    set: &mut Answers,
    turns: &mut P,
) -> Result<String, NoMemory> {
    match env.operation.node.ty {
        OperationType::Query => {
            response_at_once::<P, Brand>(alloc, by, env, set, turns, Blank::new(1))
        }
        OperationType::Mutation => {
            response_in_turn::<P, Brand>(alloc, by, env, set, turns, Blank::new(1))
        }
        OperationType::Subscription => Ok(String::from_str(alloc, "no response")?),
    }
}

fn environment(
    alloc: Global,
    operation: Positioned<OperationDefinition>,
    fragments: Pairs<Positioned<FragmentDefinition>>,
) -> Made<QueryEnv>
    requires { deep_from fragments 65 operation.node.selection_set ≡ None }
{
    QueryEnv::new(
        alloc,
        Variables::from_value(alloc, Value::Null),
        None,
        operation,
        fragments,
        IntrospectionMode::default(),
        DEPTH + 1,
    )
}

/// The request of a document of one operation, if its sets don't lie too deep.
fn request_of(alloc: Global, document: ExecutableDocument) -> Made<Option<QueryEnv>> {
    if check_depth(alloc, &document, DEPTH)?.is_err() {
        return Ok(None);
    }
    let ExecutableDocument {
        operations,
        fragments,
    } = document;
    match operations {
        DocumentOperations::Single(operation) => Ok(Some(environment(
            alloc, operation, fragments,
        )?)),
        DocumentOperations::Multiple(_) => Ok(None),
    }
}

/// The response to a request, its occurrences grouped so, its data before its errors.
pub fn response_of<P: Turns>(
    alloc: Global,
    by: Grouping,
    query: &str,
    set: &mut Answers,
    turns: &mut P,
) -> Result<String, NoMemory> {
    let Ok(document) = parse_query(alloc, query)? else {
        return Ok(String::from_str(alloc, "no document")?);
    };
    match request_of(alloc, document)? {
        Some(env) => response_to(alloc, by, &env, set, turns),
        None => Ok(String::from_str(alloc, "no request")?),
    }
}
