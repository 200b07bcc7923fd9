//! Conflicts that are told of documents over the sample of types. More of them stand among the stored
//! runs of `gql_cases`.

use crate::sample::{document_of, types};
use gql_base::{Items, Made};
use gql_conflicts::{Conflict, RootedTypes, conflicts_in};
use std::alloc::Global;
use std::test::Fail;

/// A conflict on the first line of a text: its column and its key.
type Told = (usize, &'static str);

/// A text over the sample of types, and its conflicts. All fields that it hasn't are leaves.
const TEXT: &str = "{ o { k: a } o: p { k: b } o { k: c } }";

const TOLD: [Told; 2] = [(14, "o"), (32, "k")];

/// A text without a conflict, which the coarse test doesn't clear.
const OTHER_TEXT: &str = "{ n { ... on A { k: a } ... on B { k: b } } }";

/// How deep the sets of these texts nest at most.
const LEVELS: usize = 8;

/// What is told of a text.
fn answer(alloc: Global, text: &str) -> Made<Items<Conflict>> {
    let types = types(alloc)?;
    let rooted = RootedTypes {
        types: &types,
        query: "Query",
        mutation: None,
        subscription: None,
        entities: false,
    };
    let document = document_of(alloc, text)?;
    conflicts_in(alloc, &rooted, &document, LEVELS)
}

fn is_same(conflict: &Conflict, told: &Told) -> bool {
    let (column, key) = told;
    conflict.pos.line == 1 && conflict.pos.column == *column && conflict.key.as_str() == *key
}

fn is_wanted(conflict: &Conflict, wanted: &[Told]) -> bool {
    for told in wanted {
        if is_same(conflict, told) {
            return true;
        }
    }
    false
}

fn is_told(told: &Told, conflicts: &[Conflict]) -> bool {
    for conflict in conflicts {
        if is_same(conflict, told) {
            return true;
        }
    }
    false
}

/// Whether the conflicts are those that are wanted, in whichever order and how often whatever.
fn are_wanted(conflicts: &[Conflict], wanted: &[Told]) -> bool {
    for conflict in conflicts {
        if !is_wanted(conflict, wanted) {
            return false;
        }
    }
    for told in wanted {
        if !is_told(told, conflicts) {
            return false;
        }
    }
    true
}

#[test]
fn conflicts_are_told(rt: HostRuntime) -> Result<(), Fail> {
    let conflicts = answer(rt.alloc(), TEXT)?;
    assert!(rt; are_wanted(conflicts.as_slice(), &TOLD));
    Ok(())
}

#[test]
fn fields_of_other_objects_dont_conflict(rt: HostRuntime) -> Result<(), Fail> {
    let conflicts = answer(rt.alloc(), OTHER_TEXT)?;
    assert!(rt; conflicts.is_empty());
    Ok(())
}
