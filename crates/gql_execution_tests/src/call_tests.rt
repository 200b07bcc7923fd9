//! Calls that no response shows: the objects at the roots of schemas, a request that is ready, and the
//! out of memory of a batch.
use crate::schemas::{Roots, schema};
use gql_base::Made;
use gql_doc::OperationType;
use gql_exec::{Ready, Schema};
use gql_request::{Data, Hooks, Request};
use gql_schema::Object;
use std::alloc::Global;
use std::test::Fail;

/// Roots, and the objects at those of queries, of mutations and of subscriptions, each with the
/// number of its fields.
type Rooted = (Roots, &'static str);

const ROOTS: [Rooted; 3] = [
    (Roots::QueryAlone, "Query 1, none, none, "),
    (Roots::All, "Obj 2, Query 1, Obj 2, "),
    (Roots::NoObjects, "none, none, none, "),
];

/// Pushes the name of an object and the number of its fields, or that there is none.
fn push_object(out: &mut String, object: Option<&Object>) -> Made<()> {
    match object {
        Some(object) => {
            let fields = object.len();
            write!(out, "{} {fields}, ", object.type_name())?;
        }
        None => out.push_str("none, ")?,
    }
    Ok(())
}

fn roots_text(alloc: Global, schema: &Schema) -> Made<String> {
    let mut out = String::new(alloc);
    push_object(&mut out, schema.root_object(OperationType::Query))?;
    push_object(&mut out, schema.root_object(OperationType::Mutation))?;
    push_object(&mut out, schema.root_object(OperationType::Subscription))?;
    Ok(out)
}

fn has_roots(alloc: Global, roots: Roots, text: &str) -> Made<bool> {
    let schema = schema(alloc, roots)?;
    Ok(roots_text(alloc, &schema)?.as_str() == text)
}

/// The objects of the first schema that has others.
fn first_wrong(alloc: Global, table: &[Rooted]) -> Made<Option<&'static str>> {
    for (roots, text) in table {
        if !has_roots(alloc, *roots, *text)? {
            return Ok(Some(*text));
        }
    }
    Ok(None)
}

#[test]
fn objects_at_the_roots(rt: HostRuntime) -> Result<(), Fail> {
    assert_eq!(rt; first_wrong(rt.alloc(), &ROOTS)?, None);
    Ok(())
}

/// Whether a ready request is the one for `mutation { b }`.
fn is_ready(ready: &Ready) -> bool {
    ready.request.query.as_str() == "mutation { b }"
        && ready.env.operation.node.ty == OperationType::Mutation
        && ready.entities.is_none()
}

/// Whether the request for a text is made ready so.
fn is_made_ready(alloc: Global, text: &str) -> Made<bool> {
    let request = Request::new(alloc, text)?;
    let schema = schema(alloc, Roots::QueryAlone)?;
    makes_ready(alloc, &schema, &request)
}

fn makes_ready(alloc: Global, schema: &Schema, request: &Request) -> Made<bool> {
    let mut hooks = Hooks::none(alloc);
    match schema.ready(alloc, &mut hooks, request, &Data::new(alloc))? {
        Ok(ready) => Ok(is_ready(&ready)),
        Err(_) => Ok(false),
    }
}

#[test]
fn requests_are_made_ready(rt: HostRuntime) -> Result<(), Fail> {
    assert!(rt; is_made_ready(rt.alloc(), "mutation { b }")?);
    Ok(())
}
