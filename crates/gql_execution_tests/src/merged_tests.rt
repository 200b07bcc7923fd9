//! Responses to queries and mutations, by merged and by apart execution, under turns that take the
//! first task that waits and under such that take the last.
use crate::answers::{Answers, Ends};
use crate::scenes::{LISTS, response_of};
use gql_base::{Made, NoMemory};
use gql_collect::Grouping;
use std::alloc::Global;
use std::test::Fail;

/// A way to a response: by apart execution or by merged execution, under turns that take the last
/// task or the first.
#[derive(Clone, Copy)]
struct Way {
    by: Grouping,
    last: bool,
}

const WAYS: [Way; 5] = [
    Way {
        by: Grouping::ByKey,
        last: false,
    },
    Way {
        by: Grouping::ByKey,
        last: true,
    },
    Way {
        by: Grouping::ByKeyWhole,
        last: true,
    },
    Way {
        by: Grouping::Each,
        last: false,
    },
    Way {
        by: Grouping::Each,
        last: true,
    },
];

/// Objects and lists, with fragments on them, each query with its response.
const OBJECTS: [(&str, &str); 6] = [
    (
        "{ rows { id name } }",
        r#"{"rows":[{"id":1,"name":"n"},{"id":2,"name":"n"}]}"#,
    ),
    (
        "{ rows { k: kids { id } } }",
        r#"{"rows":[{"k":[[{"id":10},{"id":11}],[]]},{"k":[[{"id":20},{"id":21}],[]]}]}"#,
    ),
    (
        "{ any { __typename ... on Row { id ...F } ... on Other { x } } } fragment F on Node { __typename ... on Row { name } }",
        r#"{"any":[{"__typename":"Row","id":1,"name":"n"},{"__typename":"Other","x":2},null]}"#,
    ),
    (
        "{ node { ... on Row { id } ... on Other { x } } }",
        r#"{"node":{"id":7}}"#,
    ),
    (
        "{ rows { id } rows { id name } __typename }",
        r#"{"rows":[{"id":1,"name":"n"},{"id":2,"name":"n"}],"__typename":"Query"}"#,
    ),
    (
        "{ red lost gone: none }",
        r#"null[{"message":"internal: non-null types require a return value","locations":[{"line":1,"column":12}],"path":["gone"]}]"#,
    ),
];

/// Documents that admission refuses, since they have fields that their objects don't declare: these
/// are no members, whatever stands under them, and the others are answered as without them.
const UNDECLARED: [(&str, &str); 6] = [
    ("{ lost red gone }", r#"{"red":"RED"}"#),
    ("{ x: lost x: red }", r#"{"x":"RED"}"#),
    (
        "{ lost { id } rows { lost { id } id } }",
        r#"{"rows":[{"id":1},{"id":2}]}"#,
    ),
    (
        "{ any { x ...F } } fragment F on Row { x id }",
        r#"{"any":[{"id":1},{"x":2},null]}"#,
    ),
    (
        "{ rows { ...F ...F } ... { rows { ...F } } } fragment F on Row { lost id }",
        r#"{"rows":[{"id":1},{"id":2}]}"#,
    ),
    ("{ lost }", "{}"),
];

/// Answers with errors beside them, and such that fail under lists and objects.
const ERRORS: [(&str, &str); 4] = [
    (
        "{ one { id } one { next { id } } }",
        r#"{"one":{"id":1,"next":{"id":2}}}[{"message":"beside","locations":[{"line":1,"column":3}],"path":["one"]},{"message":"beside","locations":[{"line":1,"column":20}],"path":["one","next"]}]"#,
    ),
    (
        "{ rows { kids { fail } } }",
        r#"{"rows":[{"kids":[[null,null],[]]},{"kids":[[null,null],[]]}]}[{"message":"boom","locations":[{"line":1,"column":17}],"path":["rows",0,"kids",0,0,"fail"]},{"message":"boom","locations":[{"line":1,"column":17}],"path":["rows",0,"kids",0,1,"fail"]},{"message":"boom","locations":[{"line":1,"column":17}],"path":["rows",1,"kids",0,0,"fail"]},{"message":"boom","locations":[{"line":1,"column":17}],"path":["rows",1,"kids",0,1,"fail"]}]"#,
    ),
    (
        "{ rows { fail } rows { fail } }",
        r#"null[{"message":"boom","locations":[{"line":1,"column":10}],"path":["rows",0,"fail"]},{"message":"boom","locations":[{"line":1,"column":10}],"path":["rows",1,"fail"]}]"#,
    ),
    (
        "{ rows { id fail } }",
        r#"null[{"message":"boom","locations":[{"line":1,"column":13}],"path":["rows",0,"fail"]},{"message":"boom","locations":[{"line":1,"column":13}],"path":["rows",1,"fail"]}]"#,
    ),
];

/// Mutations, each with the number of its root keys and its response.
const MUTATIONS: [(&str, &str); 4] = [
    (
        "mutation { red one { id } red one { next { id } } }",
        r#"2{"red":"RED","one":{"id":1,"next":{"id":2}}}[{"message":"beside","locations":[{"line":1,"column":16}],"path":["one"]},{"message":"beside","locations":[{"line":1,"column":37}],"path":["one","next"]}]"#,
    ),
    (
        "mutation { gone: none red }",
        r#"2null[{"message":"internal: non-null types require a return value","locations":[{"line":1,"column":12}],"path":["gone"]}]"#,
    ),
    (
        "mutation { __typename lost rows { id } }",
        r#"1{"__typename":"Query","rows":[{"id":1},{"id":2}]}"#,
    ),
    ("mutation { __typename }", r#"0{"__typename":"Query"}"#),
];

/// Whether a query has this response by a way.
fn has_response(alloc: Global, query: &str, wanted: &str, way: &Way) -> Result<bool, NoMemory> {
    let mut turns = Ends { last: way.last };
    let mut set = Answers::new(alloc);
    let response = response_of(alloc, way.by, query, &mut set, &mut turns)?;
    Ok(response.as_str() == wanted)
}

/// The first query whose response is another by a way.
fn first_wrong_by(
    alloc: Global,
    table: &[(&'static str, &'static str)],
    way: &Way,
) -> Result<Option<&'static str>, NoMemory> {
    for (query, wanted) in table {
        if !has_response(alloc, query, wanted, way)? {
            return Ok(Some(*query));
        }
    }
    Ok(None)
}

/// The first query whose response is another by some way.
fn first_wrong(
    alloc: Global,
    table: &[(&'static str, &'static str)],
) -> Result<Option<&'static str>, NoMemory> {
    for way in &WAYS {
        let wrong = first_wrong_by(alloc, table, way)?;
        if wrong.is_some() {
            return Ok(wrong);
        }
    }
    Ok(None)
}

#[test]
fn objects_and_lists_have_their_members(rt: HostRuntime) -> Result<(), Fail> {
    assert_eq!(rt; first_wrong(rt.alloc(), &OBJECTS)?, None);
    Ok(())
}

#[test]
fn undeclared_fields_are_no_members(rt: HostRuntime) -> Result<(), Fail> {
    assert_eq!(rt; first_wrong(rt.alloc(), &UNDECLARED)?, None);
    Ok(())
}

#[test]
fn errors_have_their_paths(rt: HostRuntime) -> Result<(), Fail> {
    assert_eq!(rt; first_wrong(rt.alloc(), &ERRORS)?, None);
    Ok(())
}

#[test]
fn mutations_have_their_root_keys(rt: HostRuntime) -> Result<(), Fail> {
    assert_eq!(rt; first_wrong(rt.alloc(), &MUTATIONS)?, None);
    Ok(())
}

const APART: Way = Way {
    by: Grouping::Each,
    last: true,
};

/// A query whose occurrences of one key disagree, and its response by apart execution.
const DISAGREEING: [(&str, &str); 1] = [(
    "{ x: one { v: id } x: one { v: name w: name } x: red }",
    r#"{"x":{"v":1,"w":"n"}}[{"message":"beside","locations":[{"line":1,"column":3}],"path":["x"]}]"#,
)];

#[test]
fn apart_the_first_tree_stays(rt: HostRuntime) -> Result<(), Fail> {
    assert_eq!(rt; first_wrong_by(rt.alloc(), &DISAGREEING, &APART)?, None);
    Ok(())
}

/// Queries and mutations, and how many resolvers apart execution starts.
const STARTS: [(&str, usize); 4] = [
    ("{ one { id } one { id name } }", 5),
    ("{ rows { id } rows { id name } }", 8),
    ("mutation { one { id } red one { id name } }", 5),
    ("{ lost red lost { id } }", 1),
];

/// How many resolvers a query starts by apart execution.
fn starts_of(alloc: Global, query: &str) -> Result<usize, NoMemory> {
    let mut turns = Ends { last: false };
    let mut set = Answers::new(alloc);
    let _response = response_of(alloc, Grouping::Each, query, &mut set, &mut turns)?;
    Ok(set.begun.len())
}

/// The first query that starts another number of them.
fn first_wrong_start(
    alloc: Global,
    table: &[(&'static str, usize)],
) -> Result<Option<&'static str>, NoMemory> {
    for (query, starts) in table {
        if starts_of(alloc, query)? != *starts {
            return Ok(Some(*query));
        }
    }
    Ok(None)
}

#[test]
fn apart_each_occurrence_is_asked(rt: HostRuntime) -> Result<(), Fail> {
    assert_eq!(rt; first_wrong_start(rt.alloc(), &STARTS)?, None);
    Ok(())
}

/// The response of a number in so many lists.
fn nested_response(alloc: Global, levels: usize) -> Made<String> {
    let mut text = String::from_str(alloc, r#"{"nested":"#)?;
    for _ in 0..levels {
        text.push_str("[")?;
    }
    text.push_str("5")?;
    for _ in 0..levels {
        text.push_str("]")?;
    }
    text.push_str("}")?;
    Ok(text)
}

/// Whether the response of a number in so many lists comes of a way.
fn nests(alloc: Global, levels: usize, way: &Way) -> Result<bool, NoMemory> {
    let wanted = nested_response(alloc, levels)?;
    has_response(alloc, "{ nested }", wanted.as_str(), way)
}

#[test]
fn lists_nest_as_deep_as_they_are(rt: HostRuntime) -> Result<(), Fail> {
    let way = Way {
        by: Grouping::ByKey,
        last: true,
    };
    assert!(rt; nests(rt.alloc(), LISTS, &way)?);
    Ok(())
}
