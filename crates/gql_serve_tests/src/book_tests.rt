//! Which schemas books keep.
use crate::cells::{Cells, Last};
use crate::requests::request;
use crate::schemas::schema;
use gql_base::{Made, NoMemory};
use gql_exec::{DynamicRequest, Schema};
use gql_serve::Book;
use std::alloc::{AllocError, Global};
use std::test::Fail;

/// A call of a book. Of one without response comes an error, so that the test fails.
fn call(
    alloc: Global,
    book: &mut Book<Cells>,
    schema: &Schema,
    request: &DynamicRequest<u64>,
) -> Made<()> {
    match book.serve(alloc, schema, 0, request, &mut Last) {
        Ok(_) => Ok(()),
        Err(NoMemory { .. }) => Err(AllocError),
    }
}

/// So many calls of a book, under one schema.
fn call_often(
    alloc: Global,
    book: &mut Book<Cells>,
    schema: &Schema,
    request: &DynamicRequest<u64>,
    many: u64,
) -> Made<()> {
    for _call in 0..many {
        call(alloc, book, schema, request)?;
    }
    Ok(())
}

/// A call of a book under a schema with this default, which is built for it.
fn call_anew(
    alloc: Global,
    book: &mut Book<Cells>,
    default: i64,
    request: &DynamicRequest<u64>,
) -> Made<()> {
    let schema = schema(alloc, default)?;
    call(alloc, book, &schema, request)
}

/// A call of a book for each default, under a schema with it.
fn call_for_each(
    alloc: Global,
    book: &mut Book<Cells>,
    defaults: &[i64],
    request: &DynamicRequest<u64>,
) -> Made<()> {
    for default in defaults {
        call_anew(alloc, book, *default, request)?;
    }
    Ok(())
}

/// How many schemas and how many entries a book keeps.
type Kept = (usize, usize);

/// What a new book keeps of a call for each default.
fn kept(alloc: Global, request: &DynamicRequest<u64>, defaults: &[i64]) -> Made<Kept> {
    let mut book = Book::new(alloc, Cells { cell: 0 })?;
    let called = call_for_each(alloc, &mut book, defaults, request);
    let kept = (book.schemas().len(), book.entries().len());
    drop(book);
    called?;
    Ok(kept)
}

/// What a new book keeps of so many calls under one schema.
fn kept_of_many(
    alloc: Global,
    request: &DynamicRequest<u64>,
    schema: &Schema,
    many: u64,
) -> Made<Kept> {
    let mut book = Book::new(alloc, Cells { cell: 0 })?;
    let called = call_often(alloc, &mut book, schema, request, many);
    let kept = (book.schemas().len(), book.entries().len());
    drop(book);
    called?;
    Ok(kept)
}

/// What a thousand calls under one schema leave.
fn kept_of_a_thousand(alloc: Global, request: &DynamicRequest<u64>) -> Made<Kept> {
    let schema = schema(alloc, 7)?;
    kept_of_many(alloc, request, &schema, 1000)
}

#[test]
fn equal_schemas_are_kept_once(rt: HostRuntime) -> Result<(), Fail> {
    let request = request(rt.alloc(), "{ cell }")?;
    assert_eq!(rt; kept(rt.alloc(), &request, &[7, 7, 7])?, (1, 3));
    Ok(())
}

#[test]
fn a_schema_with_another_default_is_another(rt: HostRuntime) -> Result<(), Fail> {
    let request = request(rt.alloc(), "{ cell }")?;
    assert_eq!(rt; kept(rt.alloc(), &request, &[7, 8, 8, 7])?, (3, 4));
    Ok(())
}

#[test]
fn a_thousand_calls_keep_one_schema(rt: HostRuntime) -> Result<(), Fail> {
    let request = request(rt.alloc(), "{ cell }")?;
    assert_eq!(rt; kept_of_a_thousand(rt.alloc(), &request)?, (1, 1000));
    Ok(())
}
