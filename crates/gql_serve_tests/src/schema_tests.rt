//! Schemas that are equal, and some that aren't.
use crate::schemas::schema;
use gql_base::Made;
use std::alloc::Global;
use std::test::Fail;

/// Whether the schemas with these defaults are equal.
fn are_equal(alloc: Global, one: i64, other: i64) -> Made<bool> {
    let one = schema(alloc, one)?;
    let other = schema(alloc, other)?;
    Ok(one.equals(&other))
}

#[test]
fn a_schema_that_is_built_twice(rt: HostRuntime) -> Result<(), Fail> {
    assert!(rt; are_equal(rt.alloc(), 7, 7)?);
    Ok(())
}

#[test]
fn schemas_that_differ_in_a_default(rt: HostRuntime) -> Result<(), Fail> {
    assert!(rt; !are_equal(rt.alloc(), 7, 8)?);
    Ok(())
}
