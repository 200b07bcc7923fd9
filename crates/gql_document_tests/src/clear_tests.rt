//! Which documents the coarse test clears.

use crate::sample::document_of;
use gql_base::Made;
use gql_conflicts::is_clear;
use std::alloc::Global;
use std::test::Fail;

/// Texts, and whether they are cleared.
const TEXTS: [(&'static str, bool); 22] = [
    ("{ a b c }", true),
    ("{ x: a x: a }", true),
    ("{ x: a x: b }", false),
    ("{ x: add(a: 1) x: add(a: 2) }", false),
    ("{ x: f(a: 1, b: $v) x: f(b: $v, a: 1) }", true),
    ("{ x: f(a: 1) x: f(a: 1, a: 2) }", true),
    ("{ x: f(a: 1) x: f }", false),
    ("{ x: f(a: {b: 1, c: 2}) x: f(a: {c: 2, b: 1}) }", false),
    (r#"{ x: f(a: "t") x: f(a: "\u0074") }"#, true),
    ("{ o { k: a } o { k: b } }", false),
    ("{ o { k: a } p { k: b } }", true),
    ("{ o { k: a } ... { o { k: b } } }", false),
    ("{ o { k: a } ... on A { ... on B { o { k: b } } } }", false),
    ("{ n { ... on A { k: a } ... on B { k: b } } }", false),
    ("{ o { ...F k: b } } fragment F on A { k: a }", false),
    ("{ o { ...F } p { ...F } } fragment F on A { k: a }", true),
    (
        "{ o { ...F l: a } p { ...F l: b } } fragment F on A { k: a }",
        false,
    ),
    ("query A { k: a } query B { k: b }", true),
    ("{ a } fragment F on A { k: a k: b }", false),
    (
        "{ o { ...F ...G } } fragment F on A { i { k: a } } fragment G on A { i { k: b } }",
        false,
    ),
    (
        "{ ...F } fragment F on A { ...G } fragment G on A { ...F }",
        true,
    ),
    ("{ ...Lost x: a }", true),
];

fn is_cleared(alloc: Global, text: &str) -> Made<bool> {
    is_clear(alloc, &document_of(alloc, text)?)
}

/// The first text of a table of which the coarse test answers otherwise.
fn first_wrong(alloc: Global, table: &[(&'static str, bool)]) -> Made<Option<&'static str>> {
    for (text, want) in table {
        if is_cleared(alloc, *text)? != *want {
            return Ok(Some(*text));
        }
    }
    Ok(None)
}

#[test]
fn documents_are_cleared(rt: HostRuntime) -> Result<(), Fail> {
    assert_eq!(rt; first_wrong(rt.alloc(), &TEXTS)?, None);
    Ok(())
}

/// `{ ...F0 } fragment F0 on T { a { ...F1 } b { ...F1 } } ..`: selections double with each level.
fn doubling_text(alloc: Global, levels: u32) -> Made<String> {
    let mut text = String::from_str(alloc, "{ ...F0 }")?;
    for level in 0..levels {
        let next = level.wrapping_add(1);
        write!(
            text,
            " fragment F{level} on T {{ a {{ ...F{next} }} b {{ ...F{next} }} }}"
        )?;
    }
    write!(text, " fragment F{levels} on T {{ x: a }}")?;
    Ok(text)
}

/// `{ k: f(a0: 0 a1: 0 ..) k: f(.. a1: 0 a0: 0) }`, with another value for the last argument.
fn turned_text(alloc: Global, times: u32, last: u32) -> Made<String> {
    let mut text = String::from_str(alloc, "{ k: f(")?;
    for number in 0..times {
        write!(text, "a{number}: 0 ")?;
    }
    text.push_str(") k: f(")?;
    for number in 1..times {
        let turned = times.wrapping_sub(number);
        write!(text, "a{turned}: 0 ")?;
    }
    write!(text, "a0: {last}) }}")?;
    Ok(text)
}

#[test]
fn long_documents_are_cleared(rt: HostRuntime) -> Result<(), Fail> {
    let alloc = rt.alloc();
    let doubling = doubling_text(alloc, 29)?;
    assert!(rt; is_cleared(alloc, doubling.as_str())?);
    Ok(())
}

#[test]
fn arguments_are_compared_in_any_order(rt: HostRuntime) -> Result<(), Fail> {
    let alloc = rt.alloc();
    let turned = turned_text(alloc, 10_000, 0)?;
    assert!(rt; is_cleared(alloc, turned.as_str())?);
    let other = turned_text(alloc, 10_000, 1)?;
    assert!(rt; !is_cleared(alloc, other.as_str())?);
    Ok(())
}
