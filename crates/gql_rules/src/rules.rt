//! The check of a document against a table of types.
ghost use Rattle.std.specs.Prelude.{◌≡◌, IfOk, map};
ghost use Rattle.std.specs.Option.{option_copied};
ghost use Rattle.gql_fields.specs.BuiltIn.{built_in as the_built_in};
ghost use Rattle.gql_fields.specs.Terms.{terms_of};
ghost use Rattle.gql_fields.specs.Walk.{terms_in};
ghost use Rattle.gql_rules.specs.Asked.{asking};
ghost use Rattle.gql_fields.specs.BreachOrder.{Lists};
ghost use Rattle.gql_rules.specs.Nesting.{IsWithinDepth};
ghost use Rattle.gql_rules.specs.RulesChecked.{IsBreach, IsChecked, error_of, refused_with};

use crate::field_merging::tell_conflicts;
use crate::fragment_cycles::tell_circular;
use crate::reached_uses::tell_wrong_uses;
use crate::refusal::refuse;
use crate::variable_definitions::tell_variables;
use gql_base::{Items, Made, ServerError, Variables};
use gql_doc::ExecutableDocument;
use gql_fields::{Against, Breach, BuiltIn, Site, built_in, sorted_once, walk_document};
use std::alloc::Global;

/// Refuses a document that breaks a rule of the specification over the site's types, with all that
/// it breaks, in the order of the document, each once (GraphQL, October 2021, section 5). Looked at
/// are unknown fields, leaves with a set and other types without one, conditions on types that
/// aren't composite, directives, arguments and the literals that they are given, unknown fragments,
/// fragments that reach themselves, the definitions of variables, their uses at the places that an
/// operation reaches, and fields that can't be merged under one key, however deep they lie. Of the
/// operation that this name asks for, or without a name the only one, the values of the variables
/// are looked at. The document lies within some limit on the depth.
pub fn check_rules(
    alloc: Global,
    site: &Site<'_>,
    doc: &ExecutableDocument,
    variables: &Variables,
    name: Option<&str>,
) -> Made<Result<(), Items<ServerError>>>
    requires { IsWithinDepth doc.now }
    ensures { IfOk result (λ checked. IsChecked (terms_of site.now)
        (asking variables.now (option_copied name.entry)) doc.now checked) }
{
    let built = built_in(alloc)?;
    let breaches = breaches_of(against(alloc, site, doc, &built), doc, variables, name)?;
    refused(alloc, breaches.as_slice())
}

fn against<'a>(
    alloc: Global,
    site: &'a Site<'a>,
    doc: &'a ExecutableDocument,
    built: &'a BuiltIn,
) -> Against<'a>
    ensures site { result.site.now ≡ site.now }
    ensures fragments { result.fragments.now ≡ doc.now.fragments }
    ensures built { result.built.now ≡ built.now }
{
    Against {
        alloc,
        site,
        fragments: &doc.fragments,
        built,
    }
}

/// All breaches of a document in their order, each once.
#[tactic(auto, using(crate::proofs::BreachLemmas::all_listed))]
fn breaches_of<'a>(
    against: Against<'a>,
    doc: &'a ExecutableDocument,
    variables: &Variables,
    name: Option<&str>,
) -> Made<Items<Breach>>
    requires fragments { against.fragments.now ≡ doc.now.fragments }
    requires built { against.built.now ≡ the_built_in }
    requires within { IsWithinDepth doc.now }
    ensures { IfOk result
        (λ breaches. Lists (IsBreach (terms_in against.entry)
        (asking variables.now (option_copied name.entry)) doc.now) breaches) }
{
    let mut found = Items::new(against.alloc);
    let listed = walk_document(doc, &against, &mut found)?;
    tell_variables(&doc.operations, variables, name, &against, &mut found)?;
    tell_wrong_uses(&listed, &against, &mut found)?;
    tell_circular(against.alloc, &doc.fragments, &mut found)?;
    tell_conflicts(against.alloc, against.site, doc, &mut found)?;
    Ok(sorted_once(found))
}

#[tactic(auto, using(crate::proofs::BreachLemmas::some_refused))]
fn refused(alloc: Global, breaches: &[Breach]) -> Made<Result<(), Items<ServerError>>>
    ensures { IfOk result (λ checked. checked ≡ refused_with breaches.now) }
{
    if breaches.is_empty() {
        return Ok(Ok(()));
    }
    let errors = errors_of(alloc, breaches)?;
    Ok(Err(errors))
}

fn errors_of(alloc: Global, breaches: &[Breach]) -> Made<Items<ServerError>>
    ensures { IfOk result (λ errors. errors ≡ map error_of breaches.now) }
{
    let mut errors = Items::with_capacity(alloc, breaches.len())?;
    for breach in breaches {
        errors.push(refuse(alloc, breach.text.as_str(), Some(breach.pos))?)?;
    }
    Ok(errors)
}
