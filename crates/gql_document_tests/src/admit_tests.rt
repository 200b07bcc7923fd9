//! The stages of the admission of a request: its limits, the rules, the choice of its operation, what
//! `@skip` and `@include` leave of it, and its preparation as a whole. Texts that are refused stand
//! among the stored runs of `gql_cases`; here is one of each kind.
ghost use Rattle.std.specs.Prelude.{◌≡◌};
ghost use Rattle.gql_rules.specs.Nesting.{IsWithinDepth};

use crate::sample::{document_of, types, variables};
use crate::summary::set_summary;
use gql_admit::{
    Chosen, Site, check_depth, check_directives, check_rules, choose_operation, chosen_kind, keep,
    prepare,
};
use gql_base::{Copied, Items, Made, Pairs, ServerError, Text, Variables};
use gql_doc::{
    ExecutableDocument, FragmentDefinition, OperationDefinition, OperationType, Positioned,
    SelectionSet,
};
use gql_request::{QueryEnv, Request};
use gql_schema::Types;
use std::alloc::Global;
use std::test::Fail;

/// An error's message and its places.
fn error_text(alloc: Global, error: &ServerError) -> Made<String> {
    let mut out = String::from_str(alloc, error.message.as_str())?;
    for place in error.locations.as_slice() {
        let (line, column) = (place.line, place.column);
        write!(out, " {line}:{column}")?;
    }
    Ok(out)
}

/// Each error's text and place.
fn errors_text(alloc: Global, errors: &Items<ServerError>) -> Made<String> {
    let mut out = String::new(alloc);
    for error in errors.as_slice() {
        out.push_str(error_text(alloc, error)?.as_str())?;
        out.push_str("; ")?;
    }
    Ok(out)
}

/// What a check that tells at most one error answers.
fn checked_text(alloc: Global, checked: Result<(), ServerError>) -> Made<String> {
    match checked {
        Ok(()) => String::from_str(alloc, "passes"),
        Err(error) => error_text(alloc, &error),
    }
}

/// A text, a limit, and what the check answers.
type Limited = (&'static str, usize, &'static str);

/// Documents and the limit on their depth.
const DEPTHS: [Limited; 2] = [
    ("{ a { b } }", 1, "passes"),
    (
        "{ a { b } }",
        0,
        "The recursion depth of the query cannot be greater than `0` 1:5",
    ),
];

/// Documents within a depth of 32, and the limit on their directives.
const DIRECTIVES: [Limited; 2] = [
    (
        "{ value @skip(if: false) @include(if: true) }",
        1,
        "The number of directives on the field `value` cannot be greater than `1` 1:3",
    ),
    ("{ value @skip(if: false) @include(if: true) }", 2, "passes"),
];

fn depth_answer(alloc: Global, document: &ExecutableDocument, limit: usize) -> Made<String> {
    if limit == usize::MAX {
        return String::from_str(alloc, "no such limit");
    }
    let checked = check_depth(alloc, document, limit)?;
    checked_text(alloc, checked)
}

fn directives_answer(alloc: Global, document: &ExecutableDocument, limit: usize) -> Made<String> {
    match check_depth(alloc, document, 32)? {
        Err(error) => error_text(alloc, &error),
        Ok(()) => {
            let checked = check_directives(alloc, document, limit)?;
            checked_text(alloc, checked)
        }
    }
}

fn first_wrong_depth(alloc: Global, table: &[Limited]) -> Made<Option<&'static str>> {
    for (text, limit, want) in table {
        let document = document_of(alloc, *text)?;
        if depth_answer(alloc, &document, *limit)?.as_str() != *want {
            return Ok(Some(*text));
        }
    }
    Ok(None)
}

fn first_wrong_directives(alloc: Global, table: &[Limited]) -> Made<Option<&'static str>> {
    for (text, limit, want) in table {
        let document = document_of(alloc, *text)?;
        if directives_answer(alloc, &document, *limit)?.as_str() != *want {
            return Ok(Some(*text));
        }
    }
    Ok(None)
}

#[test]
fn depths_are_checked(rt: HostRuntime) -> Result<(), Fail> {
    assert_eq!(rt; first_wrong_depth(rt.alloc(), &DEPTHS)?, None);
    Ok(())
}

#[test]
fn directives_are_counted(rt: HostRuntime) -> Result<(), Fail> {
    assert_eq!(rt; first_wrong_directives(rt.alloc(), &DIRECTIVES)?, None);
    Ok(())
}

/// A text, the name that is asked for, if any, and the answer.
type Asked = (&'static str, Option<&'static str>, &'static str);

/// The names of the operations that are chosen, and their places.
const CHOICES: [Asked; 4] = [
    ("{ a }", None, "anonymous 1:1"),
    ("query A { a }", None, "A 1:1"),
    ("query A { a } mutation B { b }", Some("B"), "B 1:15"),
    ("query A { a }", Some("A"), "A 1:1"),
];

/// The name of an operation.
fn name_text(alloc: Global, name: &Option<Text>) -> Made<String> {
    match name {
        Some(name) => String::from_str(alloc, name.as_str()),
        None => String::from_str(alloc, "anonymous"),
    }
}

fn chosen_text(alloc: Global, chosen: &Chosen) -> Made<String> {
    let mut out = name_text(alloc, &chosen.operation_name)?;
    let (line, column) = (chosen.operation.pos.line, chosen.operation.pos.column);
    write!(out, " {line}:{column}")?;
    Ok(out)
}

fn choice_answer(alloc: Global, text: &str, name: Option<&str>) -> Made<String> {
    match choose_operation(alloc, document_of(alloc, text)?, name)? {
        Ok(chosen) => chosen_text(alloc, &chosen.try_clone(alloc)?),
        Err(error) => error_text(alloc, &error),
    }
}

fn first_wrong_choice(alloc: Global, table: &[Asked]) -> Made<Option<&'static str>> {
    for (text, name, want) in table {
        if choice_answer(alloc, *text, *name)?.as_str() != *want {
            return Ok(Some(*text));
        }
    }
    Ok(None)
}

#[test]
fn operations_are_chosen(rt: HostRuntime) -> Result<(), Fail> {
    assert_eq!(rt; first_wrong_choice(rt.alloc(), &CHOICES)?, None);
    Ok(())
}

/// The kind of the operation of a name in a text.
fn kind(alloc: Global, text: &str, name: Option<&str>) -> Made<Option<OperationType>> {
    let document = document_of(alloc, text)?;
    Ok(chosen_kind(&document, name))
}

#[test]
fn kinds_of_chosen_operations(rt: HostRuntime) -> Result<(), Fail> {
    let alloc = rt.alloc();
    let two = "mutation A { a } query B { b }";
    assert!(rt; kind(alloc, two, Some("A"))? == Some(OperationType::Mutation));
    assert!(rt; kind(alloc, "subscription { a }", None)? == Some(OperationType::Subscription));
    assert!(rt; kind(alloc, two, None)? == None);
    Ok(())
}

/// An operation's text, and what is kept of its set where `$on` is true and `$no` is 1.
const KEPT: [(&str, &str); 5] = [
    (
        "query($on: Boolean) { a @skip(if: $on) b @include(if: $on) }",
        "{b }",
    ),
    (
        "query($no: Int) { a @skip(if: $no) b @include(if: $no) }",
        "{a }",
    ),
    (
        "{ a @skip b @include c @skip(if: $v) d @include(if: $v) }",
        "{a b c }",
    ),
    (
        "{ a @x @skip(if: false) @y { b @skip(if: true) c } }",
        "{a@x@y{c } }",
    ),
    (
        "{ ...F @include(if: false) ...F @include(if: true) ...@x @skip(if: false) { a } }",
        "{...F ...@x{a } }",
    ),
];

/// What is kept of the set of the only operation.
fn kept_answer(alloc: Global, text: &str, variables: &Variables) -> Made<String> {
    match choose_operation(alloc, document_of(alloc, text)?, None)? {
        Ok(chosen) => kept_text(alloc, chosen, variables),
        Err(error) => error_text(alloc, &error),
    }
}

fn kept_text(alloc: Global, chosen: Chosen, variables: &Variables) -> Made<String> {
    let Chosen { operation, .. } = chosen;
    let Positioned { node, .. } = operation;
    let OperationDefinition {
        variable_definitions,
        selection_set,
        ..
    } = node;
    let Positioned { node: set, .. } = selection_set;
    let kept = keep(alloc, set, variable_definitions.as_slice(), variables)?;
    set_summary(alloc, &kept)
}

fn first_wrong_kept(
    alloc: Global,
    table: &[(&'static str, &'static str)],
) -> Made<Option<&'static str>> {
    let variables = variables(alloc)?;
    for (text, want) in table {
        if kept_answer(alloc, *text, &variables)?.as_str() != *want {
            return Ok(Some(*text));
        }
    }
    Ok(None)
}

#[test]
fn selections_are_kept(rt: HostRuntime) -> Result<(), Fail> {
    assert_eq!(rt; first_wrong_kept(rt.alloc(), &KEPT)?, None);
    Ok(())
}

/// Requests where sets may lie 2 deep and a field may have one directive, over the sample of types,
/// and what is prepared of them. `$on` is true.
const REQUESTS: [Asked; 4] = [
    ("{ value }", None, "anonymous: {value }, 3 levels"),
    (
        "query A { value } query B { o { a } }",
        Some("B"),
        "B: {o{a } }, 3 levels",
    ),
    (
        "query A($on: Boolean!) { value @skip(if: $on) o { ...F } } \
        fragment F on A { a @include(if: $on) __typename @skip(if: $on) }",
        None,
        "A: {o{...F } } F: {a }, 3 levels",
    ),
    (
        "{ lost @x @x }",
        Some("X"),
        "The number of directives on the field `lost` cannot be greater than `1` 1:3; ",
    ),
];

/// Documents over the sample of types, and what is told of the rules that they break. The last one
/// lies deeper than its site's limit.
const RULES: [Asked; 3] = [
    ("{ value o { a } }", None, ""),
    (
        "query A($on: Int) { value1 } query B($no: Int) { value }",
        Some("A"),
        r#"Variable "$on" has no fitting value. 1:9; Unknown field "value1" on type "Query". 1:21; "#,
    ),
    (
        "{ ...A } fragment A on Query { ...B } fragment B on Query { ...C } \
        fragment C on Query { k: value k: __typename }",
        None,
        r#"Fields "k" conflict. 1:99; "#,
    ),
];

fn site<'a>(types: &'a Types) -> Site<'a>
    ensures { result.depth ≡ 2 }
{
    Site {
        types,
        query: "Query",
        mutation: None,
        subscription: None,
        depth: 2,
        directives: Some(1),
        entities: false,
    }
}

/// The operation and the fragments in short, and the levels that suffice for them.
fn env_text(alloc: Global, env: &QueryEnv) -> Made<String> {
    let mut out = name_text(alloc, &env.operation_name)?;
    push_set(alloc, &mut out, &env.operation.node.selection_set)?;
    push_fragments(alloc, &mut out, &env.fragments)?;
    let levels = env.levels();
    write!(out, ", {levels} levels")?;
    Ok(out)
}

fn push_fragments(
    alloc: Global,
    out: &mut String,
    fragments: &Pairs<Positioned<FragmentDefinition>>,
) -> Made<()> {
    for place in 0..fragments.len() {
        let (name, fragment) = fragments.at(place);
        out.push_str(" ")?;
        out.push_str(name)?;
        push_set(alloc, out, &fragment.node.selection_set)?;
    }
    Ok(())
}

/// Pushes a set after its owner's name.
fn push_set(alloc: Global, out: &mut String, set: &Positioned<SelectionSet>) -> Made<()> {
    out.push_str(": ")?;
    out.push_str(set_summary(alloc, &set.node)?.as_str())
}

fn answer(alloc: Global, types: &Types, request: &Request) -> Made<String> {
    match prepare(alloc, &site(types), request)? {
        Ok(env) => env_text(alloc, &env),
        Err(errors) => errors_text(alloc, &errors),
    }
}

/// A request for a text with the variables.
fn request_of(alloc: Global, text: &str, name: Option<&str>) -> Made<Request> {
    let variables = variables(alloc)?;
    let request = Request::new(alloc, text)?.variables(variables);
    match name {
        None => Ok(request),
        Some(name) => request.operation_name(alloc, name),
    }
}

fn first_wrong_request(alloc: Global, table: &[Asked]) -> Made<Option<&'static str>> {
    let types = types(alloc)?;
    for (text, name, want) in table {
        let request = request_of(alloc, *text, *name)?;
        if answer(alloc, &types, &request)?.as_str() != *want {
            return Ok(Some(*text));
        }
    }
    Ok(None)
}

#[test]
fn requests_are_prepared(rt: HostRuntime) -> Result<(), Fail> {
    assert_eq!(rt; first_wrong_request(rt.alloc(), &REQUESTS)?, None);
    Ok(())
}

/// What is told of a text, where `$on` is true and `$no` is 1.
fn rules_answer(alloc: Global, types: &Types, text: &str, name: Option<&str>) -> Made<String> {
    let document = document_of(alloc, text)?;
    match check_depth(alloc, &document, 8)? {
        Ok(()) => rules_text(alloc, types, &document, name),
        Err(error) => error_text(alloc, &error),
    }
}

/// The same of a document that lies within some limit on the depth.
fn rules_text(
    alloc: Global,
    types: &Types,
    document: &ExecutableDocument,
    name: Option<&str>,
) -> Made<String>
    requires { IsWithinDepth document.now }
{
    let variables = variables(alloc)?;
    match check_rules(alloc, &site(types), document, &variables, name)? {
        Ok(()) => Ok(String::new(alloc)),
        Err(errors) => errors_text(alloc, &errors),
    }
}

fn first_wrong_rules(alloc: Global, table: &[Asked]) -> Made<Option<&'static str>> {
    let types = types(alloc)?;
    for (text, name, want) in table {
        if rules_answer(alloc, &types, *text, *name)?.as_str() != *want {
            return Ok(Some(*text));
        }
    }
    Ok(None)
}

#[test]
fn rules_are_checked(rt: HostRuntime) -> Result<(), Fail> {
    assert_eq!(rt; first_wrong_rules(rt.alloc(), &RULES)?, None);
    Ok(())
}

/// Whether a copy of a site has what the site has.
fn site_is_copied(alloc: Global) -> Made<bool> {
    let types = Types::new(alloc);
    let site = Site {
        types: &types,
        query: "Query",
        mutation: Some("Mutation"),
        subscription: None,
        depth: 32,
        directives: Some(2),
        entities: false,
    };
    let copy = site.try_clone(alloc)?;
    Ok(
        copy.query == "Query"
            && copy.mutation.is_some()
            && copy.subscription.is_none()
            && copy.depth == 32
            && copy.directives == Some(2)
            && !copy.entities
            && copy.types.len() == 0,
    )
}

#[test]
fn sites_are_copied(rt: HostRuntime) -> Result<(), Fail> {
    assert!(rt; site_is_copied(rt.alloc())?);
    Ok(())
}
