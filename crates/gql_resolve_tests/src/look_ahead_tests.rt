//! What is selected under a field, looked at ahead, and the fields themselves.
use crate::queries::{Ground, query};
use gql_base::{Made, Text};
use gql_resolve::{Lookahead, SelectionField};
use std::alloc::Global;
use std::test::Fail;

/// Whether a field stands under the fields of some names, each under the one before, of which
/// the first stands under the first field of a query.
fn stands(alloc: Global, text: &str, names: &[&str]) -> Made<bool> {
    match query(alloc, text)? {
        Some(ground) => stands_in(alloc, &ground, names),
        None => Ok(false),
    }
}

fn stands_in(alloc: Global, ground: &Ground, names: &[&str]) -> Made<bool> {
    match ground.first() {
        Some(context) => reaches(alloc, context.look_ahead(alloc)?, names),
        None => Ok(false),
    }
}

fn reaches(alloc: Global, mut ahead: Lookahead<'_>, names: &[&str]) -> Made<bool> {
    for name in names {
        ahead = ahead.field(alloc, name)?;
    }
    Ok(ahead.exists())
}

const NESTED: &str = "{ obj(n: 3) { detail { c } } }";

const THROUGH: &str = "{ o { ... on T { a } ... { ...F } ...Lost k: e @skip(if: true) } } \
    fragment F on U { b { d } b { f } }";

#[test]
fn what_stands_in_fragments(rt: HostRuntime) -> Result<(), Fail> {
    let alloc = rt.alloc();
    assert!(rt; stands(alloc, THROUGH, &["b", "f"])?);
    assert!(rt; stands(alloc, THROUGH, &["e"])?);
    assert!(rt; !stands(alloc, THROUGH, &["k"])?);
    Ok(())
}

/// The aliases and names of the fields of the first field's set, in their order.
fn names(alloc: Global, text: &str) -> Made<Text> {
    match query(alloc, text)? {
        Some(ground) => names_in(alloc, &ground),
        None => Text::new(alloc, "none"),
    }
}

fn names_in(alloc: Global, ground: &Ground) -> Made<Text> {
    match ground.first() {
        Some(context) => names_beneath(alloc, &context.field()),
        None => Text::new(alloc, "none"),
    }
}

fn names_beneath(alloc: Global, field: &SelectionField<'_>) -> Made<Text> {
    let mut out = String::new(alloc);
    let mut beneath = field.selection_set(alloc)?;
    while let Some(inner) = beneath.next()? {
        let alias = inner.alias().unwrap_or("");
        write!(out, "{alias}:{} ", inner.name())?;
    }
    Text::from_string(out)
}

#[test]
fn fields_in_their_order(rt: HostRuntime) -> Result<(), Fail> {
    assert!(rt; names(rt.alloc(), THROUGH)?.as_str() == ":a :b :b k:e ");
    Ok(())
}

/// Whether a look at these fields is one at as many of them, or none where there is none.
fn looks_at(alloc: Global, fields: &[SelectionField<'_>]) -> Made<bool> {
    match Lookahead::from_fields(alloc, fields)? {
        Some(ahead) => Ok(ahead.selection_fields(alloc)?.len() == fields.len() && ahead.exists()),
        None => Ok(fields.is_empty()),
    }
}

fn looks_at_one(alloc: Global, ground: &Ground) -> Made<bool> {
    match ground.first() {
        Some(context) => {
            let field = context.field();
            Ok(looks_at(alloc, &[field, field])? && Lookahead::from_field(alloc, field)?.exists())
        }
        None => Ok(false),
    }
}

fn looks_again(alloc: Global) -> Made<bool> {
    match query(alloc, NESTED)? {
        Some(ground) => Ok(looks_at(alloc, &[])? && looks_at_one(alloc, &ground)?),
        None => Ok(false),
    }
}

#[test]
fn looks_at_fields(rt: HostRuntime) -> Result<(), Fail> {
    assert!(rt; looks_again(rt.alloc())?);
    Ok(())
}
