//! The preparation of a request: its document, its limits, the rules and its operation (section
//! 6.1).
ghost use Rattle.std.specs.Prelude.{◌≡◌, ◌<◌, ◌+◌, [], ◌∷◌, suc, map, take, IfOk, OnOk, None};
ghost use Rattle.std.specs.Option.{option_copied};
ghost use Rattle.gql_doc.specs.Depth.{deep, deep_from};
ghost use Rattle.gql_request.specs.Defined.{definition_places};
ghost use Rattle.gql_request.specs.Request.{GivesParsed, set_document};
ghost use Rattle.gql_select.specs.Constants.{variable_value};
ghost use Rattle.gql_select.specs.Kept.{kept_fragment, kept_fragments};
ghost use Rattle.gql_fields.specs.Terms.{terms_of};
ghost use Rattle.gql_rules.specs.Nesting.{IsWithinDepth};
ghost use Rattle.gql_admit.specs.KnownVariables.{known_by};
ghost use Rattle.gql_admit.specs.KeptParts.{left_set};
ghost use Rattle.gql_admit.specs.Prepared.{Admits, IsKept, IsKeptOf, IsPrepared, kept_operation};
ghost use Rattle.gql_admit.specs.Stages.{directives_limited, fault_error as error_of_fault};
ghost use Rattle.gql_admit.specs.Stages.{IsLimited, IsLooked, limits_checked, settled};
ghost use Rattle.gql_admit.specs.Choice.{choice};

use crate::chosen::Chosen;
use crate::conditions::Known;
use crate::depth::check_depth;
use crate::directives::check_directives;
use crate::keeping::keep_known;
use crate::operation::choose_operation;
use gql_base::{Copied, Items, Made, Pairs, ServerError, Variables};
use gql_doc::{
    ExecutableDocument, FragmentDefinition, OperationDefinition, ParseFault, Positioned,
    SelectionSet, VariableDefinition, parse_query,
};
use gql_fields::Site;
use gql_request::{QueryEnv, Request, definition_places};
use gql_rules::{check_rules, refuse};
use std::alloc::Global;

/// What an execution knows of a request, or the errors of the first stage that the request breaks:
/// its document is read, unless one is set, lies within the limits and breaks no rule, and the
/// operation that is asked for is there.
#[tactic(auto, using(crate::proofs::StagesLemmas::read_on, crate::proofs::StagesLemmas::not_read))]
pub fn prepare(
    alloc: Global,
    site: &Site<'_>,
    request: &Request,
) -> Made<Result<QueryEnv, Items<ServerError>>>
    requires { site.now.depth < usize.MAX }
    ensures { IfOk result (λ prepared. IsPrepared (terms_of site.now) request.now prepared) }
{
    match document_of(alloc, request)? {
        Ok(document) => prepare_document(alloc, site, request, document),
        Err(fault) => {
            let error = fault_error(alloc, fault)?;
            Ok(Err(alone(alloc, error)?))
        }
    }
}

/// The document that is set, or else the one that the query is the text of.
fn document_of(alloc: Global, request: &Request) -> Made<Result<ExecutableDocument, ParseFault>>
    ensures { IfOk result (λ read. GivesParsed (set_document request.now) request.now.query read) }
{
    if request.has_document() {
        copied_document(alloc, request)
    } else {
        parse_query(alloc, request.query.as_str())
    }
}

fn copied_document(alloc: Global, request: &Request) -> Made<Result<ExecutableDocument, ParseFault>>
    ensures { IfOk result (λ read. GivesParsed (set_document request.now) request.now.query read) }
{
    let mut copy = request.try_clone(alloc)?;
    match copy.parsed_query(alloc)? {
        Ok(document) => Ok(Ok(document.try_clone(alloc)?)),
        Err(fault) => Ok(Err(fault)),
    }
}

fn fault_error(alloc: Global, fault: ParseFault) -> Made<ServerError>
    ensures { IfOk result (λ error. error ≡ error_of_fault fault) }
{
    refuse(alloc, fault.message(), Some(fault.pos))
}

fn alone(alloc: Global, error: ServerError) -> Made<Items<ServerError>>
    ensures { IfOk result (λ errors. errors ≡ error ∷ []) }
{
    let mut errors = Items::new(alloc);
    errors.push(error)?;
    Ok(errors)
}

#[tactic(auto, using(crate::proofs::StagesLemmas::limited_on))]
fn prepare_document(
    alloc: Global,
    site: &Site<'_>,
    request: &Request,
    document: ExecutableDocument,
) -> Made<Result<QueryEnv, Items<ServerError>>>
    requires { site.now.depth < usize.MAX }
    ensures { IfOk result (IsKeptOf (terms_of site.now) request.now (IsLimited (terms_of site.now)
        request.now document (limits_checked (terms_of site.now) document))) }
{
    match check_limits(alloc, site, &document)? {
        Ok(()) => prepare_limited(alloc, site, request, document),
        Err(error) => Ok(Err(alone(alloc, error)?)),
    }
}

/// The limits on the depth and on directives.
fn check_limits(
    alloc: Global,
    site: &Site<'_>,
    document: &ExecutableDocument,
) -> Made<Result<(), ServerError>>
    requires { site.now.depth < usize.MAX }
    ensures checked { IfOk result
        (λ checked. checked ≡ limits_checked (terms_of site.now) document.now) }
    ensures within { IfOk result
        (λ checked. OnOk checked (deep document.now site.now.depth ≡ None)) }
{
    match check_depth(alloc, document, site.depth)? {
        Err(error) => Ok(Err(error)),
        Ok(()) => check_site_directives(alloc, site, document),
    }
}

fn check_site_directives(
    alloc: Global,
    site: &Site<'_>,
    document: &ExecutableDocument,
) -> Made<Result<(), ServerError>>
    requires within { IsWithinDepth document.now }
    requires deep { deep document.now site.now.depth ≡ None }
    ensures { IfOk result (λ checked. checked
        ≡ directives_limited document.now site.now.depth site.now.directives) }
{
    match site.directives {
        None => Ok(Ok(())),
        Some(limit) => check_directives(alloc, document, limit),
    }
}

/// The rules of a document within its limits, and its operation.
#[tactic(auto, using(crate::proofs::StagesLemmas::ruled_on, crate::proofs::StagesLemmas::breaks_rules))]
fn prepare_limited(
    alloc: Global,
    site: &Site<'_>,
    request: &Request,
    document: ExecutableDocument,
) -> Made<Result<QueryEnv, Items<ServerError>>>
    requires depth { site.now.depth < usize.MAX }
    requires deep { deep document site.now.depth ≡ None }
    ensures { IfOk result (IsKeptOf (terms_of site.now) request.now
        (IsLooked (terms_of site.now) request.now document)) }
{
    match check_rules(
        alloc,
        site,
        &document,
        &request.variables,
        asked_name(request),
    )? {
        Ok(()) => prepare_ruled(alloc, site, request, document),
        Err(errors) => Ok(Err(errors)),
    }
}

fn prepare_ruled(
    alloc: Global,
    site: &Site<'_>,
    request: &Request,
    document: ExecutableDocument,
) -> Made<Result<QueryEnv, Items<ServerError>>>
    requires depth { site.now.depth < usize.MAX }
    requires deep { deep document site.now.depth ≡ None }
    ensures { IfOk result (IsKept (terms_of site.now) request.now
        (settled (choice document request.now.operation_name))) }
{
    match choose_operation(alloc, document, asked_name(request))? {
        Ok(chosen) => prepare_chosen(alloc, site, request, chosen),
        Err(error) => Ok(Err(alone(alloc, error)?)),
    }
}

/// The name of the operation that is asked for.
fn asked_name(request: &Request) -> Option<&str>
    ensures { option_copied result ≡ request.now.operation_name }
{
    match &request.operation_name {
        None => None,
        Some(name) => Some(name.as_str()),
    }
}

/// What an execution knows of a request whose operation is chosen.
fn prepare_chosen(
    alloc: Global,
    site: &Site<'_>,
    request: &Request,
    chosen: Chosen,
) -> Made<Result<QueryEnv, Items<ServerError>>>
    requires depth { site.now.depth < usize.MAX }
    requires deep { deep_from chosen.fragments (suc site.now.depth)
        chosen.operation.node.selection_set ≡ None }
    ensures { IfOk result (λ prepared. Admits (terms_of site.now) request.now chosen prepared) }
{
    let Chosen {
        operation_name,
        operation,
        fragments,
    } = chosen;
    let variables = request.variables.try_clone(alloc)?;
    let definitions = operation.node.variable_definitions.as_slice();
    let places = definition_places(alloc, definitions)?;
    let fragments = keep_fragments(alloc, fragments, definitions, &places, &variables)?;
    let operation = keep_operation(alloc, operation, &places, &variables)?;
    let env = QueryEnv::new(
        alloc,
        variables,
        operation_name,
        operation,
        fragments,
        request.introspection_mode,
        site.depth + 1,
    )?;
    Ok(Ok(env))
}

/// An operation of which the set is kept.
fn keep_operation(
    alloc: Global,
    operation: Positioned<OperationDefinition>,
    places: &Pairs<usize>,
    variables: &Variables,
) -> Made<Positioned<OperationDefinition>>
    requires { places.now ≡ definition_places operation.node.variable_definitions }
    ensures { IfOk result (λ kept. kept ≡ kept_operation
        (variable_value variables.now operation.node.variable_definitions) operation) }
{
    let Positioned { pos, node } = operation;
    let OperationDefinition {
        ty,
        variable_definitions,
        directives,
        selection_set,
    } = node;
    let definitions = variable_definitions.as_slice();
    let selection_set = keep_own_set(alloc, selection_set, definitions, places, variables)?;
    Ok(Positioned {
        pos,
        node: OperationDefinition {
            ty,
            variable_definitions,
            directives,
            selection_set,
        },
    })
}

/// The set of an operation with these definitions, which is kept.
fn keep_own_set(
    alloc: Global,
    set: Positioned<SelectionSet>,
    definitions: &[Positioned<VariableDefinition>],
    places: &Pairs<usize>,
    variables: &Variables,
) -> Made<Positioned<SelectionSet>>
    requires { places.now ≡ definition_places definitions.now }
    ensures { IfOk result
        (λ kept. kept ≡ left_set (variable_value variables.now definitions.now) set) }
{
    let known = Known::new(definitions, places, variables);
    let Positioned { pos, node } = set;
    let node = keep_known(alloc, node, &known)?;
    Ok(Positioned { pos, node })
}

/// The fragments of which the sets are kept.
#[tactic(auto, using(crate::proofs::FragmentLemmas::kept_whole, crate::proofs::FragmentLemmas::kept_long))]
fn keep_fragments(
    alloc: Global,
    fragments: Pairs<Positioned<FragmentDefinition>>,
    definitions: &[Positioned<VariableDefinition>],
    places: &Pairs<usize>,
    variables: &Variables,
) -> Made<Pairs<Positioned<FragmentDefinition>>>
    requires { places.now ≡ definition_places definitions.now }
    ensures { IfOk result (λ kept. kept
        ≡ kept_fragments (variable_value variables.now definitions.now) fragments) }
{
    let known = Known::new(definitions, places, variables);
    let (names, fragments) = fragments.into_parts();
    let kept = keep_each(alloc, fragments, &known)?;
    Ok(Pairs::from_parts(names, kept))
}

fn keep_each(
    alloc: Global,
    fragments: Vec<Positioned<FragmentDefinition>>,
    known: &Known<'_>,
) -> Made<Vec<Positioned<FragmentDefinition>>>
    ensures { IfOk result
        (λ kept. kept.items ≡ map (kept_fragment (known_by known.now)) fragments.items) }
{
    let mut kept = Vec::with_capacity(alloc, fragments.len())?;
    for fragment in fragments {
        kept.push(keep_fragment(alloc, fragment, known)?)?;
    }
    Ok(kept)
}

/// A fragment of which the set is kept.
fn keep_fragment(
    alloc: Global,
    fragment: Positioned<FragmentDefinition>,
    known: &Known<'_>,
) -> Made<Positioned<FragmentDefinition>>
    ensures { IfOk result (λ kept. kept ≡ kept_fragment (known_by known.now) fragment) }
{
    let Positioned { pos, node } = fragment;
    let FragmentDefinition {
        type_condition,
        directives,
        selection_set,
    } = node;
    let selection_set = Positioned {
        pos: selection_set.pos,
        node: keep_known(alloc, selection_set.node, known)?,
    };
    Ok(Positioned {
        pos,
        node: FragmentDefinition {
            type_condition,
            directives,
            selection_set,
        },
    })
}
