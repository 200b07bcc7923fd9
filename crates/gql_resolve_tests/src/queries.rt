//! What a resolver's context borrows, for tests: a query that was read from a text.

ghost use Rattle.std.specs.Prelude.{◌≡◌, ◌<◌, IfOk, IfSome, None, length};
ghost use Rattle.std.proofs.Props.{props};
ghost use Rattle.gql_doc.specs.Depth.{deep, deep_from};
ghost use Rattle.gql_doc.specs.declared.document.Field.{out-Field};
ghost use Rattle.gql_request.specs.QueryEnv.{NestsIn};

use gql_admit::{Chosen, check_depth, choose_operation};
use gql_base::{Items, Made, Pairs, PathSegment, ServerError, Text, Value, Variables};
use gql_doc::{ExecutableDocument, Field, Selection, parse_query};
use gql_input::ObjectAccessor;
use gql_request::{Data, IntrospectionMode, QueryEnv, QueryPathNode};
use gql_resolve::{FieldValue, Layers, ResolverContext};
use std::alloc::Global;

/// A query, and what else a context of it borrows.
#[derive(Drop)]
pub struct Ground {
    pub env: QueryEnv,
    arguments: Pairs<Value>,
    root: FieldValue<u64>,
    data: Data,
    segments: Items<PathSegment>,
    ghost placed: { 0 < length segments },
}

impl Ground {
    /// The only operation of a text, with these variables, or none where there isn't one whose
    /// sets lie within the depth 32.
    pub fn of(alloc: Global, text: &str, variables: Variables) -> Made<Option<Ground>> {
        match parse_query(alloc, text)? {
            Ok(document) => within(alloc, document, variables),
            Err(_) => Ok(None),
        }
    }

    /// A context of a field of the query.
    pub fn context<'a>(&'a self, item: &'a Field) -> ResolverContext<'a, u64>
        requires { NestsIn self.now.env (out-Field item.now).selection_set }
    {
        let args = ObjectAccessor::new(&self.arguments);
        let path_node = QueryPathNode {
            segments: self.segments.as_slice(),
        };
        let layers = Layers {
            execute: None,
            query: &self.data,
            session: &self.data,
            schema: &self.data,
        };
        ResolverContext {
            resolver: 0,
            task: 0,
            args,
            parent_value: &self.root,
            path_node,
            item,
            env: &self.env,
            layers,
        }
    }

    /// A context of the first field, if the query begins with one.
    pub fn first(&self) -> Option<ResolverContext<'_, u64>> {
        match first_field(&self.env) {
            Some(item) => Some(self.context(item)),
            None => None,
        }
    }
}

#[tactic(auto, using(crate::proofs::QueryLemmas::not_deep))]
fn within(
    alloc: Global,
    document: ExecutableDocument,
    variables: Variables,
) -> Made<Option<Ground>> {
    match check_depth(alloc, &document, 32)? {
        Ok(()) => chosen(alloc, document, variables),
        Err(_) => Ok(None),
    }
}

#[tactic(auto, using(gql_admit::proofs::NestingLemmas::chosen_nests))]
fn chosen(alloc: Global, doc: ExecutableDocument, variables: Variables) -> Made<Option<Ground>>
    requires { deep doc 32 ≡ None }
{
    match choose_operation(alloc, doc, None)? {
        Ok(chosen) => Ok(Some(grounded(alloc, chosen, variables)?)),
        Err(_) => Ok(None),
    }
}

fn grounded(alloc: Global, chosen: Chosen, variables: Variables) -> Made<Ground>
    requires { deep_from chosen.fragments 33 chosen.operation.node.selection_set ≡ None }
{
    let segments = path(alloc)?;
    let env = QueryEnv::new(
        alloc,
        variables,
        chosen.operation_name,
        chosen.operation,
        chosen.fragments,
        IntrospectionMode::default(),
        33,
    )?;
    Ok(Ground {
        env,
        arguments: Pairs::new(alloc),
        root: FieldValue::NULL,
        data: Data::new(alloc),
        segments,
    })
}

/// The path `0`.
fn path(alloc: Global) -> Made<Items<PathSegment>>
    ensures { IfOk result (λ segments. 0 < length segments) }
{
    let mut segments = Items::new(alloc);
    segments.push(PathSegment::Index(0))?;
    Ok(segments)
}

/// The first selection of the operation, if it is a field.
#[tactic(auto, using(crate::proofs::QueryLemmas::first_nests))]
fn first_field(env: &QueryEnv) -> Option<&Field>
    ensures { IfSome result (λ field. NestsIn env.now (out-Field field.now).selection_set) }
{
    let _levels = env.levels();
    let selections = env.operation.node.selection_set.node.items.as_slice();
    match selections.first() {
        Some(selection) => match &selection.node {
            Selection::Field(field) => Some(&field.node),
            _ => None,
        },
        None => None,
    }
}

/// The query of a text without variables.
pub fn query(alloc: Global, text: &str) -> Made<Option<Ground>> {
    Ground::of(alloc, text, Variables::from_value(alloc, Value::Null))
}

/// The message of an error, with its places. It has no path.
pub fn error_text(alloc: Global, error: &ServerError) -> Made<Text> {
    let mut out = String::new(alloc);
    write!(out, "{}", error.message.as_str())?;
    for pos in error.locations.as_slice() {
        write!(out, " {}:{}", pos.line, pos.column)?;
    }
    if !error.path.is_empty() {
        out.push_str(" with a path")?;
    }
    Text::from_string(out)
}
