//! The fields of objects of the sample of types, where each fragment is entered once.
ghost use Rattle.std.specs.Prelude.{◌≡◌, ◌<◌};

use crate::collect_tests::{keys_of, selections_of};
use crate::sample::{document_of, types};
use gql_base::{Copied, Made, Steps};
use gql_collect::{Collector, collect_counted, collect_once_fields, collect_once_merged_fields};
use gql_doc::{ExecutableDocument, SelectionSet};
use gql_schema::{Object, Types};
use std::alloc::Global;
use std::marker::Brand;
use std::sync::ledger::{Blank, Ledger};
use std::test::Fail;

/// Texts, the object, and the keys of its fields.
const SETS: [(&str, &str, &str); 6] = [
    ("{ ...F ...F } fragment F on A { a b }", "A", "a b "),
    ("{ ...F ...F } fragment F on A { a b }", "B", ""),
    (
        "{ ...G a ...F } fragment F on A { a } fragment G on I { ...F b }",
        "A",
        "a b a ",
    ),
    (
        "{ ... on B { ...F } ...F } fragment F on I { c }",
        "A",
        "c ",
    ),
    ("{ o { ...F } ...F } fragment F on A { a }", "A", "o a "),
    ("{ ...Lost ...F } fragment F on A { ...F a }", "A", "a "),
];

/// Texts of a set of one key, and the keys of the fields of `A` in the merged sets of all its
/// occurrences.
const MERGED: [(&str, &str); 2] = [
    ("{ o { ...F } o { ...F b } } fragment F on A { a }", "a b "),
    ("{ o { a } o { a } }", "a a "),
];

fn keys_in(alloc: Global, text: &str, object: &str) -> Made<String> {
    let types = types(alloc)?;
    let document = document_of(alloc, text)?;
    let collector = Collector {
        types: &types,
        fragments: &document.fragments,
        levels: 8,
    };
    let fields = collect_once_fields(alloc, &collector, object, selections_of(&document))?;
    keys_of(alloc, fields.as_slice())
}

fn merged_keys_in(alloc: Global, text: &str) -> Made<String> {
    let types = types(alloc)?;
    let document = document_of(alloc, text)?;
    let collector = Collector {
        types: &types,
        fragments: &document.fragments,
        levels: 8,
    };
    let occurrences = collect_once_fields(alloc, &collector, "A", selections_of(&document))?;
    let Some((first, more)) = occurrences.as_slice().split_first() else {
        return String::from_str(alloc, "no field");
    };
    let fields = collect_once_merged_fields(alloc, &collector, "A", *first, more)?;
    keys_of(alloc, fields.as_slice())
}

/// The sets of a document's fragments, in order.
fn sets_of(alloc: Global, document: &ExecutableDocument) -> Made<Vec<SelectionSet>> {
    let mut sets = Vec::new(alloc);
    for place in 0..document.fragments.len() {
        let (_, fragment) = document.fragments.at(place);
        sets.push(fragment.node.selection_set.node.try_clone(alloc)?)?;
    }
    Ok(sets)
}

/// How many fields `A` has in the sets of a document's fragments together.
fn count_on_blank<L: Ledger>(
    alloc: Global,
    types: &Types,
    document: &ExecutableDocument,
    blank: Blank,
) -> Made<usize>
    requires name { blank.name ≡ L.name }
    requires parts { blank.parts ≡ L.parts }
    requires some { 0 < blank.parts }
{
    let mut steps: Steps<L> = Steps::new(blank);
    let object = Object::new(alloc, "A")?;
    let sets = sets_of(alloc, document)?;
    let fragments = &document.fragments;
    let fields = collect_counted(
        alloc,
        types,
        &object,
        sets.as_slice(),
        fragments,
        &mut steps,
    )?;
    Ok(fields.len())
}

fn count_in(alloc: Global, text: &str) -> Made<usize> {
    let types = types(alloc)?;
    let document = document_of(alloc, text)?;
    count_on_blank::<Brand>(alloc, &types, &document, Blank::new(1))
}

/// The first text of a table whose object has other fields.
fn first_wrong_set(
    alloc: Global,
    table: &[(&'static str, &'static str, &'static str)],
) -> Made<Option<&'static str>> {
    for (text, object, want) in table {
        if keys_in(alloc, *text, *object)?.as_str() != *want {
            return Ok(Some(*text));
        }
    }
    Ok(None)
}

/// The same of merged sets.
fn first_wrong_merged(
    alloc: Global,
    table: &[(&'static str, &'static str)],
) -> Made<Option<&'static str>> {
    for (text, want) in table {
        if merged_keys_in(alloc, *text)?.as_str() != *want {
            return Ok(Some(*text));
        }
    }
    Ok(None)
}

#[test]
fn fragments_are_entered_once(rt: HostRuntime) -> Result<(), Fail> {
    assert_eq!(rt; first_wrong_set(rt.alloc(), &SETS)?, None);
    Ok(())
}

#[test]
fn fragments_are_entered_once_in_merged_sets(rt: HostRuntime) -> Result<(), Fail> {
    assert_eq!(rt; first_wrong_merged(rt.alloc(), &MERGED)?, None);
    Ok(())
}

#[test]
fn fields_are_counted(rt: HostRuntime) -> Result<(), Fail> {
    let text = "{a} fragment F on A {a ...G} fragment G on I {b b} fragment H on U {...G c}";
    assert_eq!(rt; count_in(rt.alloc(), text)?, 6);
    Ok(())
}
