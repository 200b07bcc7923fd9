//! The walk over a whole document: its operations with a root, and its fragments, spread or not.
ghost use Rattle.std.specs.Prelude.{◌≡◌, ◌++◌, [], ◌∷◌, IfOk, OnOk, false, map};
ghost use Rattle.std.specs.List.{flat_map};
ghost use Rattle.gql_base.specs.Pairs.{values_of};
ghost use Rattle.gql_doc.specs.Depth.{operations_in};
ghost use Rattle.gql_fields.specs.Places.{document_places, fragment_places, operation_places};
ghost use Rattle.gql_fields.specs.Places.{rooted_places, variable_places};
ghost use Rattle.gql_fields.specs.UsePlaceViews.{listed_behind, listed_of, shown};
ghost use Rattle.gql_fields.specs.UsePlaces.{kept};
ghost use Rattle.gql_fields.specs.Walk.{inner_places, tells, terms_in};

use crate::against::Against;
use crate::breach::Breach;
use crate::listed::{Listed, OperationPlaces};
use crate::selections::tell_directives;
use crate::use_place::UsePlace;
use crate::walk::{tell_condition, walk_named, walk_set};
use gql_base::{Items, Made, Pairs};
use gql_doc::{
    DocumentOperations, ExecutableDocument, FragmentDefinition, OperationDefinition, Positioned,
    VariableDefinition,
};
use gql_schema::SchemaType;

/// Tells the rules that are broken at the places of a document, and lists those that matter to the
/// uses of variables.
#[tactic(auto, using(crate::proofs::ToldLemmas::told_both))]
pub fn walk_document<'a>(
    doc: &'a ExecutableDocument,
    against: &Against<'a>,
    found: &mut Items<Breach>,
) -> Made<Listed<'a>>
    ensures found { OnOk result (found.new ≡ found.old
        ++ tells against.now (document_places (terms_in against.now) doc.now)) }
    ensures operations { IfOk result (λ listed. map listed_behind listed.operations
        ≡ map (listed_of (terms_in against.now)) (operations_in doc.now.operations)) }
    ensures fragments { IfOk result (λ listed. map shown listed.fragments
        ≡ map (λ fragment. kept (fragment_places (terms_in against.now) fragment))
        (values_of doc.now.fragments)) }
{
    let operations = walk_all(&doc.operations, against, found)?;
    let fragments = walk_fragments(&doc.fragments, against, found)?;
    Ok(Listed {
        operations,
        fragments,
    })
}

/// Walks through all operations.
fn walk_all<'a>(
    operations: &'a DocumentOperations,
    against: &Against<'a>,
    found: &mut Items<Breach>,
) -> Made<Items<OperationPlaces<'a>>>
    ensures found { OnOk result (found.new ≡ found.old ++ tells against.now
        (flat_map (operation_places (terms_in against.now)) (operations_in operations.now))) }
    ensures listed { IfOk result (λ listed. map listed_behind listed
        ≡ map (listed_of (terms_in against.now)) (operations_in operations.now)) }
{
    match operations {
        DocumentOperations::Single(operation) => walk_only(operation, against, found),
        DocumentOperations::Multiple(operations) => walk_operations(operations, against, found),
    }
}

/// Walks through the only operation.
fn walk_only<'a>(
    operation: &'a Positioned<OperationDefinition>,
    against: &Against<'a>,
    found: &mut Items<Breach>,
) -> Made<Items<OperationPlaces<'a>>>
    ensures found { OnOk result (found.new ≡ found.old
        ++ tells against.now (operation_places (terms_in against.now) operation.now)) }
    ensures listed { IfOk result (λ listed. map listed_behind listed
        ≡ listed_of (terms_in against.now) operation.now ∷ []) }
{
    let mut listed = Items::with_capacity(against.alloc, 1)?;
    listed.push(walk_operation(operation, against, found)?)?;
    Ok(listed)
}

fn walk_operations<'a>(
    operations: &'a Pairs<Positioned<OperationDefinition>>,
    against: &Against<'a>,
    found: &mut Items<Breach>,
) -> Made<Items<OperationPlaces<'a>>>
    ensures found { OnOk result (found.new ≡ found.old ++ tells against.now
        (flat_map (operation_places (terms_in against.now)) (values_of operations.now))) }
    ensures listed { IfOk result (λ listed. map listed_behind listed
        ≡ map (listed_of (terms_in against.now)) (values_of operations.now)) }
{
    let mut listed = Items::with_capacity(against.alloc, operations.len())?;
    for place in 0..operations.len() {
        let (_, operation) = operations.at(place);
        listed.push(walk_operation(operation, against, found)?)?;
    }
    Ok(listed)
}

fn walk_operation<'a>(
    operation: &'a Positioned<OperationDefinition>,
    against: &Against<'a>,
    found: &mut Items<Breach>,
) -> Made<OperationPlaces<'a>>
    ensures found { OnOk result (found.new ≡ found.old
        ++ tells against.now (operation_places (terms_in against.now) operation.now)) }
    ensures listed { IfOk result
        (λ listed. listed_behind listed ≡ listed_of (terms_in against.now) operation.now) }
{
    let places = walk_places(operation, against, found)?;
    Ok(OperationPlaces { operation, places })
}

/// Walks through an operation, where its kind has a root.
fn walk_places<'a>(
    operation: &'a Positioned<OperationDefinition>,
    against: &Against<'a>,
    found: &mut Items<Breach>,
) -> Made<Items<UsePlace<'a>>>
    ensures found { OnOk result (found.new ≡ found.old
        ++ tells against.now (operation_places (terms_in against.now) operation.now)) }
    ensures places { IfOk result
        (λ places. shown places ≡ kept (operation_places (terms_in against.now) operation.now)) }
{
    match against.site.root(operation.node.ty) {
        None => Ok(Items::new(against.alloc)),
        Some(ty) => walk_rooted(operation, ty, against, found),
    }
}

/// Walks through an operation on the type of its root.
#[tactic(auto, using(crate::proofs::ToldLemmas::told_both, crate::proofs::KeptLemmas::kept_rooted))]
fn walk_rooted<'a>(
    operation: &'a Positioned<OperationDefinition>,
    ty: &'a SchemaType,
    against: &Against<'a>,
    found: &mut Items<Breach>,
) -> Made<Items<UsePlace<'a>>>
    ensures found { OnOk result (found.new ≡ found.old
        ++ tells against.now (rooted_places (terms_in against.now) operation.now ty.now)) }
    ensures places { IfOk result (λ places. shown places
        ≡ kept (rooted_places (terms_in against.now) operation.now ty.now)) }
{
    let variables = operation.node.variable_definitions.as_slice();
    tell_on_variables(variables, against, found)?;
    tell_directives(operation.node.directives.as_slice(), false, against, found)?;
    let mut places = Items::new(against.alloc);
    walk_set(
        &operation.node.selection_set.node,
        ty,
        against,
        found,
        &mut places,
    )?;
    Ok(places)
}

/// Tells of the directives of the definitions of variables.
fn tell_on_variables(
    variables: &[Positioned<VariableDefinition>],
    against: &Against<'_>,
    found: &mut Items<Breach>,
) -> Made<()>
    ensures { OnOk result (found.new ≡ found.old
        ++ tells against.now (variable_places variables.now)) }
{
    for variable in variables {
        tell_directives(variable.node.directives.as_slice(), false, against, found)?;
    }
    Ok(())
}

fn walk_fragments<'a>(
    fragments: &'a Pairs<Positioned<FragmentDefinition>>,
    against: &Against<'a>,
    found: &mut Items<Breach>,
) -> Made<Items<Items<UsePlace<'a>>>>
    ensures found { OnOk result (found.new ≡ found.old ++ tells against.now
        (flat_map (fragment_places (terms_in against.now)) (values_of fragments.now))) }
    ensures listed { IfOk result (λ lists. map shown lists
        ≡ map (λ fragment. kept (fragment_places (terms_in against.now) fragment))
        (values_of fragments.now)) }
{
    let mut lists = Items::with_capacity(against.alloc, fragments.len())?;
    for place in 0..fragments.len() {
        let (_, fragment) = fragments.at(place);
        lists.push(walk_fragment(fragment, against, found)?)?;
    }
    Ok(lists)
}

fn walk_fragment<'a>(
    fragment: &'a Positioned<FragmentDefinition>,
    against: &Against<'a>,
    found: &mut Items<Breach>,
) -> Made<Items<UsePlace<'a>>>
    ensures found { OnOk result (found.new ≡ found.old
        ++ tells against.now (fragment_places (terms_in against.now) fragment.now)) }
    ensures listed { IfOk result (λ places. shown places
        ≡ kept (fragment_places (terms_in against.now) fragment.now)) }
{
    tell_condition(&fragment.node.type_condition, against, found)?;
    walk_inner(fragment, against, found)
}

/// Walks through what stands after the condition of a fragment.
#[tactic(auto, using(crate::proofs::ToldLemmas::told_both, crate::proofs::KeptLemmas::kept_fragment))]
fn walk_inner<'a>(
    fragment: &'a Positioned<FragmentDefinition>,
    against: &Against<'a>,
    found: &mut Items<Breach>,
) -> Made<Items<UsePlace<'a>>>
    ensures found { OnOk result (found.new ≡ found.old
        ++ tells against.now (inner_places (terms_in against.now) fragment.now)) }
    ensures listed { IfOk result (λ places. shown places
        ≡ kept (fragment_places (terms_in against.now) fragment.now)) }
{
    let set = &fragment.node.selection_set.node;
    let condition = fragment.node.type_condition.node.as_str();
    tell_directives(fragment.node.directives.as_slice(), false, against, found)?;
    let mut places = Items::new(against.alloc);
    walk_named(set, condition, against, found, &mut places)?;
    Ok(places)
}
