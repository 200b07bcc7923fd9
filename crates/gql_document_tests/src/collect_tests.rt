//! The fields of objects of the sample of types, by their keys, in document order.

use crate::sample::{document_of, types};
use gql_base::Made;
use gql_collect::{Collector, collect_fields, collect_merged_fields};
use gql_doc::{DocumentOperations, ExecutableDocument, Field, Positioned, Selection};
use std::alloc::Global;
use std::test::Fail;

/// Texts, the object, how many levels of fragments are entered, and the keys of its fields.
const SETS: [(&str, &str, usize, &str); 8] = [
    ("{ b x: a b }", "A", 1, "b x b "),
    ("{ a ... { b } c }", "C", 2, "a b c "),
    ("{ a ...F b } fragment F on A { c }", "A", 2, "a c b "),
    ("{ a ...F b } fragment F on A { c }", "B", 2, "a b "),
    (
        "{ ...F } fragment F on I { c ... on B { d } e }",
        "B",
        3,
        "c d e ",
    ),
    (
        "{ ...F } fragment F on I { c ... on B { d } e }",
        "B",
        2,
        "c e ",
    ),
    ("{ ... on U { a } ... on I { b } }", "C", 2, "a "),
    ("{ a ...Lost b }", "A", 2, "a b "),
];

/// Texts of a set of one key, and the keys of the fields of `A` in the merged sets of all its
/// occurrences.
const MERGED: [(&str, &str); 3] = [
    ("{ o { a } }", "a "),
    (
        "{ o { a b } o o { ... on A { c } ... on B { d } } }",
        "a b c ",
    ),
    ("{ o o { b } o { a } }", "b a "),
];

pub(crate) fn keys_of(alloc: Global, fields: &[&Positioned<Field>]) -> Made<String> {
    let mut keys = String::new(alloc);
    for field in fields {
        keys.push_str(field.node.response_key().node.as_str())?;
        keys.push_str(" ")?;
    }
    Ok(keys)
}

/// The selections of a document's only operation.
pub(crate) fn selections_of(document: &ExecutableDocument) -> &[Positioned<Selection>] {
    match &document.operations {
        DocumentOperations::Single(operation) => {
            operation.node.selection_set.node.items.as_slice()
        }
        DocumentOperations::Multiple(_) => &[],
    }
}

fn keys_in(alloc: Global, text: &str, object: &str, levels: usize) -> Made<String> {
    let types = types(alloc)?;
    let document = document_of(alloc, text)?;
    let collector = Collector {
        types: &types,
        fragments: &document.fragments,
        levels,
    };
    let fields = collect_fields(alloc, &collector, object, selections_of(&document))?;
    keys_of(alloc, fields.as_slice())
}

fn merged_keys_in(alloc: Global, text: &str) -> Made<String> {
    let types = types(alloc)?;
    let document = document_of(alloc, text)?;
    let collector = Collector {
        types: &types,
        fragments: &document.fragments,
        levels: 8,
    };
    let occurrences = collect_fields(alloc, &collector, "A", selections_of(&document))?;
    let Some((first, more)) = occurrences.as_slice().split_first() else {
        return String::from_str(alloc, "no field");
    };
    let fields = collect_merged_fields(alloc, &collector, "A", *first, more)?;
    keys_of(alloc, fields.as_slice())
}

/// The first text of a table whose object has other fields.
fn first_wrong_set(
    alloc: Global,
    table: &[(&'static str, &'static str, usize, &'static str)],
) -> Made<Option<&'static str>> {
    for (text, object, levels, want) in table {
        if keys_in(alloc, *text, *object, *levels)?.as_str() != *want {
            return Ok(Some(*text));
        }
    }
    Ok(None)
}

/// The same of merged sets.
fn first_wrong_merged(
    alloc: Global,
    table: &[(&'static str, &'static str)],
) -> Made<Option<&'static str>> {
    for (text, want) in table {
        if merged_keys_in(alloc, *text)?.as_str() != *want {
            return Ok(Some(*text));
        }
    }
    Ok(None)
}

#[test]
fn fields_are_collected(rt: HostRuntime) -> Result<(), Fail> {
    assert_eq!(rt; first_wrong_set(rt.alloc(), &SETS)?, None);
    Ok(())
}

#[test]
fn fields_of_merged_sets_are_collected(rt: HostRuntime) -> Result<(), Fail> {
    assert_eq!(rt; first_wrong_merged(rt.alloc(), &MERGED)?, None);
    Ok(())
}
