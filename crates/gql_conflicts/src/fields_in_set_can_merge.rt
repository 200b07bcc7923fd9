//! FieldsInSetCanMerge (GraphQL, October 2021, section 5.3.2) for each set of a document: all
//! conflicts.
ghost use Rattle.std.specs.Prelude.{◌≡◌, [], true, IfOk};
ghost use Rattle.std.specs.List.{flat_map};
ghost use Rattle.gql_base.specs.Pairs.{values_of};
ghost use Rattle.gql_doc.specs.Depth.{operations_in};
ghost use Rattle.gql_conflicts.specs.DocumentConflicts.{Lists};
ghost use Rattle.gql_conflicts.specs.Nested.{AreNested};
ghost use Rattle.gql_conflicts.specs.Nesting.{OperationNests, OperationsNest};
ghost use Rattle.gql_conflicts.specs.Rooted.{rooted_of};
ghost use Rattle.gql_conflicts.specs.Walk.{operation_tells};
ghost use Rattle.gql_conflicts.specs.Walked.{Walks};

use crate::clean_pairs::CleanPairs;
use crate::coarse::is_clear;
use crate::conflict::Conflict;
use crate::reader::Reader;
use crate::rooted_types::RootedTypes;
use crate::roots::root_of;
use crate::seen::Seen;
use crate::sets::sets_of;
use crate::walk::add_in_set;
use crate::walked::Walked;
use gql_base::{Items, Made, Pairs};
use gql_doc::{DocumentOperations, ExecutableDocument, OperationDefinition, Positioned};
use std::alloc::Global;

/// The conflicts of a document whose sets nest within so many levels, in no order; one may be told
/// more than once. A document that the coarse test clears is not walked through.
pub fn conflicts_in(
    alloc: Global,
    rooted: &RootedTypes<'_>,
    doc: &ExecutableDocument,
    levels: usize,
) -> Made<Items<Conflict>>
    ensures { IfOk result (Lists (rooted_of rooted.now) doc.now levels) }
{
    conflicts_by(alloc, rooted, doc, levels, false)
}

/// The same where it is known that the sets nest so. Then each fragment is entered once within a
/// set, so that no set is longer than all that stands in the document.
pub fn conflicts_in_nested(
    alloc: Global,
    rooted: &RootedTypes<'_>,
    doc: &ExecutableDocument,
    levels: usize,
) -> Made<Items<Conflict>>
    requires { AreNested doc.now levels }
    ensures { IfOk result (Lists (rooted_of rooted.now) doc.now levels) }
{
    conflicts_by(alloc, rooted, doc, levels, true)
}

/// The conflicts of a document, where each fragment is entered once within a set, or as often as it
/// is spread.
fn conflicts_by(
    alloc: Global,
    rooted: &RootedTypes<'_>,
    doc: &ExecutableDocument,
    levels: usize,
    once: bool,
) -> Made<Items<Conflict>>
    requires { once ≡ true → AreNested doc.now levels }
    ensures { IfOk result (Lists (rooted_of rooted.now) doc.now levels) }
{
    if is_clear(alloc, doc)? {
        return Ok(Items::new(alloc));
    }
    walk_document(alloc, rooted, doc, levels, once)
}

/// What the walk through all operations finds.
fn walk_document<'a>(
    alloc: Global,
    rooted: &'a RootedTypes<'a>,
    doc: &'a ExecutableDocument,
    levels: usize,
    once: bool,
) -> Made<Items<Conflict>>
    requires { once ≡ true → AreNested doc.now levels }
    ensures { IfOk result (Lists (rooted_of rooted.entry.now) doc.entry.now levels) }
{
    let sets = sets_of(alloc, doc)?;
    let reader = Reader {
        rooted,
        fragments: &doc.fragments,
        sets,
        levels,
        once,
    };
    let mut walked = nothing_walked(alloc);
    add_operations(alloc, &reader, &doc.operations, &mut walked)?;
    let Walked { found, seen, pairs } = walked;
    drop(seen);
    drop(pairs);
    Ok(found)
}

/// A walk that has told nothing and been through nothing.
fn nothing_walked<'a>(alloc: Global) -> Walked<'a>
    ensures found { result.found ≡ [] }
    ensures seen { result.seen.visits.items ≡ [] }
    ensures pairs { result.pairs.pairs.items ≡ [] }
{
    let found = Items::new(alloc);
    let seen = Seen::new(alloc);
    let pairs = CleanPairs::new(alloc);
    Walked { found, seen, pairs }
}

/// Tells the conflicts of all operations. True exactly where there are none.
fn add_operations<'a>(
    alloc: Global,
    reader: &Reader<'a>,
    operations: &'a DocumentOperations,
    walked: &mut Walked<'a>,
) -> Made<bool>
    ensures { IfOk result (λ clean. OperationsNest reader.entry.now
        (operations_in operations.entry.now) → Walks reader.entry.now
        (flat_map (operation_tells reader.entry.now) (operations_in operations.entry.now))
        clean walked.old walked.new) }
{
    match operations {
        DocumentOperations::Single(operation) => add_operation(alloc, reader, operation, walked),
        DocumentOperations::Multiple(operations) => add_several(alloc, reader, operations, walked),
    }
}

fn add_several<'a>(
    alloc: Global,
    reader: &Reader<'a>,
    operations: &'a Pairs<Positioned<OperationDefinition>>,
    walked: &mut Walked<'a>,
) -> Made<bool>
    ensures { IfOk result (λ clean. OperationsNest reader.entry.now
        (values_of operations.entry.now) → Walks reader.entry.now
        (flat_map (operation_tells reader.entry.now) (values_of operations.entry.now))
        clean walked.old walked.new) }
{
    let mut clean = true;
    for place in 0..operations.len() {
        let (_, operation) = operations.at(place);
        clean &= add_operation(alloc, reader, operation, walked)?;
    }
    Ok(clean)
}

/// Tells the conflicts of an operation, where it has a root.
fn add_operation<'a>(
    alloc: Global,
    reader: &Reader<'a>,
    operation: &'a Positioned<OperationDefinition>,
    walked: &mut Walked<'a>,
) -> Made<bool>
    ensures { IfOk result (λ clean. OperationNests reader.entry.now operation.entry.now
        → Walks reader.entry.now (operation_tells reader.entry.now operation.entry.now)
        clean walked.old walked.new) }
{
    match root_of(reader.rooted, operation.node.ty) {
        None => Ok(true),
        Some(root) => {
            let selections = operation.node.selection_set.node.items.as_slice();
            add_in_set(alloc, reader, reader.levels, root, selections, walked)
        }
    }
}
