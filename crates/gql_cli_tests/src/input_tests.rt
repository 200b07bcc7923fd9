//! Inputs and words that are no lines: they are very long, or a word holds a blank or nothing.
use crate::runs::ends_with;
use gql_base::{Items, Made};
use std::alloc::Global;
use std::test::Fail;

/// Whether the input of so many blanks ends so, in each row.
fn blanks_end_with(alloc: Global, rows: &[(usize, u8, &str)]) -> Made<bool> {
    for (count, status, line) in rows {
        let blanks = Items::from_vec(vec![in alloc; b' '; *count]?);
        if !ends_with(alloc, &["execute"], blanks, *status, *line)? {
            return Ok(false);
        }
    }
    Ok(true)
}

#[test]
fn a_byte_past_the_limit_is_too_long(rt: HostRuntime) -> Result<(), Fail> {
    assert!(rt;
        blanks_end_with(
            rt.alloc(),
            &[
                (16_777_216, 3, "bench: not JSON\n"),
                (16_777_217, 7, "input: too long\n"),
            ]
        )?
    );
    Ok(())
}

/// Whether `load` and each of these counts are told how the program is used.
fn are_no_counts(alloc: Global, counts: &[&str]) -> Made<bool> {
    let usage = "usage: gqlrun execute | record | batch | threads | stream | ws | load N\n";
    for count in counts {
        if !ends_with(alloc, &["load", *count], Items::new(alloc), 2, usage)? {
            return Ok(false);
        }
    }
    Ok(true)
}

#[test]
fn other_counts_are_no_form(rt: HostRuntime) -> Result<(), Fail> {
    assert!(rt; are_no_counts(rt.alloc(), &["", "1 "])?);
    Ok(())
}

/// A bench that asks for so many aliases of one field.
fn asked(alloc: Global, count: usize) -> Made<String> {
    let mut bench = String::from_str(
        alloc,
        "{\"schema\":{\"query\":\"Query\",\"types\":[{\"kind\":\"object\",\"name\":\"Query\",\
\"fields\":[{\"name\":\"value\",\"type\":\"Int\",\"answer\":{\"const\":100}}]}]},\
\"request\":{\"query\":\"{",
    )?;
    for place in 0..count {
        write!(bench, " a{place}: value")?;
    }
    bench.push_str(" }\"}}")?;
    Ok(bench)
}

/// The response that they come to.
fn answered(alloc: Global, count: usize) -> Made<String> {
    let mut line = String::from_str(alloc, "{\"data\":{")?;
    for place in 0..count {
        let comma = if place == 0 { "" } else { "," };
        write!(line, "{comma}\"a{place}\":100")?;
    }
    line.push_str("}}\n")?;
    Ok(line)
}

/// Whether so many aliases are answered.
fn are_answered(alloc: Global, count: usize) -> Made<bool> {
    let bench = asked(alloc, count)?;
    let line = answered(alloc, count)?;
    let input = Items::from_slice(alloc, bench.as_bytes())?;
    ends_with(alloc, &["execute"], input, 0, line.as_str())
}

#[test]
fn aliases_of_one_field(rt: HostRuntime) -> Result<(), Fail> {
    assert!(rt; are_answered(rt.alloc(), 65_536)?);
    Ok(())
}
