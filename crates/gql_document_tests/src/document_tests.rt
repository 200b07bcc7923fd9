//! Documents in short, and types as they are written.
use crate::sample::document_of;
use crate::summary::summary;
use gql_base::{Copied, Made, Value};
use gql_doc::{DocumentOperations, ExecutableDocument, OperationDefinition, Selection, parse_type};
use std::alloc::Global;
use std::test::Fail;

/// The first text of a table that spells another document than the one beside it.
pub(crate) fn first_wrong(
    alloc: Global,
    table: &[(&'static str, &'static str)],
    places: bool,
) -> Made<Option<&'static str>> {
    for (text, want) in table {
        let document = document_of(alloc, *text)?;
        if summary(alloc, &document, places)?.as_str() != *want {
            return Ok(Some(*text));
        }
    }
    Ok(None)
}

/// Documents in short.
const DOCUMENTS: [(&str, &str); 14] = [
    (
        "mutation { likeStory(storyID: 12345) { story { likeCount } } }",
        "single mutation {likeStory(storyID:12345){story{likeCount } } }",
    ),
    (
        "{ me { id, firstName birthday { month day } } }",
        "single query {me{id firstName birthday{month day } } }",
    ),
    (
        "query A { user(id: 4) { name profilePic(width: 100, height: 50) } }",
        "query A{user(id:4){name profilePic(width:100)(height:50) } } ",
    ),
    (
        "subscription S { zuck: user(id: -4) { bigPic: profilePic } }",
        "subscription S{zuck:user(id:-4){bigPic:profilePic } } ",
    ),
    ("query Q {a} mutation M {b}", "query Q{a } mutation M{b } "),
    ("{ query on fragment }", "single query {query on fragment }"),
    (
        "query withFragments { user(id: 4) { ...friendFields } } fragment friendFields on User { id name }",
        "query withFragments{user(id:4){...friendFields } }  fragment friendFields on User{id name }",
    ),
    (
        r#"{ profiles(handles: ["zuck", "coca-cola"]) { handle ... on User { friends } } }"#,
        r#"single query {profiles(handles:["zuck" "coca-cola" ]){handle ...on User{friends } } }"#,
    ),
    (
        "query inlineFragmentNoType($expandedInfo: Boolean) { ... @include(if: $expandedInfo) { birthday } }",
        "query inlineFragmentNoType($expandedInfo:Boolean){...@include(if:$expandedInfo){birthday } } ",
    ),
    (
        "{ a @skip(if: true) @b ...F @c } fragment F on A @d { e }",
        "single query {a@skip(if:true)@b ...F@c } fragment F on A@d{e }",
    ),
    (
        "{ a(x: 18446744073709551615, y: [1 2, []], z: {}) }",
        "single query {a(x:18446744073709551615)(y:[1 2 [] ])(z:{}) }",
    ),
    (
        "{ a(l: {lon: MOBILE_WEB, lat: {b: null}} t: false) }",
        "single query {a(l:{lon:MOBILE_WEB lat:{b:null } })(t:false) }",
    ),
    (
        r#"query getZuckProfile($size: [Int!]! = [1] @d $o: In = {a: "b"}) { pic(size: $size) }"#,
        r#"query getZuckProfile($size:[Int!]!=[1 ]@d)($o:In={a:"b" }){pic(size:$size) } "#,
    ),
    (
        r#"{ a(x: """
  a
    b
""") }"#,
        r#"single query {a(x:"a
  b") }"#,
    ),
];

#[test]
fn documents(rt: HostRuntime) -> Result<(), Fail> {
    assert_eq!(rt; first_wrong(rt.alloc(), &DOCUMENTS, false)?, None);
    Ok(())
}

/// A document in short with its places.
const PLACED: [(&str, &str); 1] = [(
    "query A($v: Int = 1 @d) @e { x: a(b: 2) @f ...F ... on B { c } }",
    "^1query A^9($^10v:^13Int=^191^21@^22d)^25@^26e^28{^30^30^30x:^33a(^35b:^382)^41@^42f^30 ^44^44...^47F ^49^49...on ^56B^58{^60^60^60c^60 } } ",
)];

#[test]
fn places(rt: HostRuntime) -> Result<(), Fail> {
    assert_eq!(rt; first_wrong(rt.alloc(), &PLACED, true)?, None);
    Ok(())
}

/// What a text gives as a type: the type as it is written, or its first fault.
fn type_answer(alloc: Global, text: &str) -> Made<String> {
    match parse_type(alloc, text)? {
        Ok(ty) => String::from_str(alloc, ty.text(alloc)?.as_str()),
        Err(fault) => {
            let (line, column) = (fault.pos.line, fault.pos.column);
            format!(in alloc; "{} {line}:{column}", fault.message())
        }
    }
}

/// Texts with the types that they spell, or their first faults. The last one
/// nests 65 lists.
const TYPES: [(&str, &str); 8] = [
    ("Int", "Int"),
    (" [Int] # a list", "[Int]"),
    ("Int!", "Int!"),
    ("[ [ Int! ] ! ]", "[[Int!]!]"),
    ("A!!", "Syntax error: unexpected token 1:3"),
    ("", "Syntax error: unexpected token 1:1"),
    ("[A", "Syntax error: unexpected token 1:3"),
    (
        "[[[[[[[[[[[[[[[[[[[[[[[[[[[[[[[[[[[[[[[[[[[[[[[[[[[[[[[[[[[[[[[[[]]]]]]]]]]]]]]]]]]]]]]]]]]]]]]]]]]]]]]]]]]]]]]]]]]]]]]]]]]]]]]]]]",
        "Syntax error: nested too deep 1:65",
    ),
];

fn first_wrong_type(
    alloc: Global,
    table: &[(&'static str, &'static str)],
) -> Made<Option<&'static str>> {
    for (text, want) in table {
        if type_answer(alloc, *text)?.as_str() != *want {
            return Ok(Some(*text));
        }
    }
    Ok(None)
}

#[test]
fn types(rt: HostRuntime) -> Result<(), Fail> {
    assert_eq!(rt; first_wrong_type(rt.alloc(), &TYPES)?, None);
    Ok(())
}

/// Whether a document is `query($v: Int) { x: a @skip(if: 7) }`, by what its parts answer.
fn answers_for_its_parts(document: &ExecutableDocument) -> bool {
    match &document.operations {
        DocumentOperations::Single(operation) => {
            has_null_default(&operation.node) && has_key_and_argument(&operation.node)
        }
        DocumentOperations::Multiple(_) => false,
    }
}

/// Whether the first variable has null for its default.
fn has_null_default(operation: &OperationDefinition) -> bool {
    match operation.variable_definitions.get(0) {
        Some(variable) => variable.node.default_value(&Value::Null).is_some(),
        None => false,
    }
}

/// Whether the first field has the key `x`, and its directive the argument `if` and no `unless`.
fn has_key_and_argument(operation: &OperationDefinition) -> bool {
    let Some(selection) = operation.selection_set.node.items.get(0) else {
        return false;
    };
    let Selection::Field(field) = &selection.node else {
        return false;
    };
    let Some(directive) = field.node.directives.get(0) else {
        return false;
    };
    field.node.response_key().node.as_str() == "x"
        && directive.node.get_argument("if").is_some()
        && directive.node.get_argument("unless").is_none()
}

/// Whether a copy of such a document answers for its parts.
fn copy_answers(alloc: Global, text: &str) -> Made<bool> {
    let copy = document_of(alloc, text)?.try_clone(alloc)?;
    Ok(answers_for_its_parts(&copy))
}

#[test]
fn parts_answer(rt: HostRuntime) -> Result<(), Fail> {
    assert!(rt; copy_answers(rt.alloc(), "query($v: Int) { x: a @skip(if: 7) }")?);
    Ok(())
}
