//! What the journal of a book tells of its calls.
use crate::cells::{Cells, Last};
use crate::requests::{is_answer, request};
use crate::schemas::schema;
use gql_base::Made;
use gql_exec::{DynamicRequest, Schema};
use gql_serve::{Book, Entry, Outcome};
use std::alloc::Global;
use std::test::Fail;

/// A call: the default of its schema, who calls, and its request. Then what comes of it: the JSON
/// of its response, and the place of its schema in the journal.
type Call = (i64, u32, &'static str, &'static str, usize);

/// Calls of one book, whose cell is 0 at first. A schema that isn't the last one kept is kept anew.
const CALLS: [Call; 6] = [
    (7, 4, "mutation { bump }", r#"{"data":{"bump":1}}"#, 0),
    (7, 5, "mutation { bump }", r#"{"data":{"bump":2}}"#, 0),
    (8, 4, "{ cell }", r#"{"data":{"cell":2}}"#, 1),
    (
        8,
        6,
        "{ nope }",
        r#"{"data":null,"errors":[{"message":"Unknown field \"nope\" on type \"Query\".","locations":[{"line":1,"column":3}]}]}"#,
        1,
    ),
    (
        7,
        4,
        "mutation { a: bump b: bump }",
        r#"{"data":{"a":3,"b":4}}"#,
        2,
    ),
    (7, 4, "{ cell }", r#"{"data":{"cell":4}}"#, 2),
];

/// Whether a request under a schema is answered so.
fn answers(
    alloc: Global,
    book: &mut Book<Cells>,
    schema: &Schema,
    caller: u32,
    request: &DynamicRequest<u64>,
    json: &str,
) -> Made<bool> {
    let answer = book.serve(alloc, schema, caller, request, &mut Last);
    is_answer(alloc, &answer, json)
}

/// Whether a text is answered so, under a schema that is built for this call.
fn is_answered(
    alloc: Global,
    book: &mut Book<Cells>,
    schema: &Schema,
    caller: u32,
    text: &str,
    json: &str,
) -> Made<bool> {
    let request = request(alloc, text)?;
    answers(alloc, book, schema, caller, &request, json)
}

/// Whether a call has its response.
fn has_response(alloc: Global, book: &mut Book<Cells>, call: &Call) -> Made<bool> {
    let (default, caller, text, json, _) = call;
    let schema = schema(alloc, *default)?;
    is_answered(alloc, book, &schema, *caller, *text, *json)
}

/// Whether an outcome is that a request had this response, and that it was kept.
fn is_kept(alloc: Global, outcome: &Outcome, json: &str) -> Made<bool> {
    match outcome {
        Outcome::Done(response) => {
            let text = response.json(alloc)?;
            Ok(text.as_str() == json)
        }
        _ => Ok(false),
    }
}

/// Whether an entry tells this call.
fn tells(alloc: Global, entry: &Entry<u64>, call: &Call) -> Made<bool> {
    let (_, caller, text, json, schema) = call;
    let kept = is_kept(alloc, &entry.outcome, *json)?;
    Ok(
        kept && entry.caller == *caller
            && entry.schema == *schema
            && entry.request.inner.query.as_str() == *text,
    )
}

/// Whether the last entry tells this call.
fn last_tells(alloc: Global, entries: &[Entry<u64>], call: &Call) -> Made<bool> {
    match entries.last() {
        Some(entry) => tells(alloc, entry, call),
        None => Ok(false),
    }
}

/// The request of the first call whose response or last entry is another.
fn first_wrong(
    alloc: Global,
    book: &mut Book<Cells>,
    calls: &[Call],
) -> Made<Option<&'static str>> {
    for call in calls {
        let answered = has_response(alloc, book, call)?;
        if !answered || !last_tells(alloc, book.entries(), call)? {
            return Ok(Some(call.2));
        }
    }
    Ok(None)
}

/// The same over a new book, and how many entries it has then.
fn told(alloc: Global, calls: &[Call]) -> Made<(Option<&'static str>, usize)> {
    let mut book = Book::new(alloc, Cells { cell: 0 })?;
    let wrong = first_wrong(alloc, &mut book, calls);
    let entries = book.entries().len();
    drop(book);
    Ok((wrong?, entries))
}

#[test]
fn each_reply_is_its_entrys(rt: HostRuntime) -> Result<(), Fail> {
    assert_eq!(rt; told(rt.alloc(), &CALLS)?, (None, 6));
    Ok(())
}
