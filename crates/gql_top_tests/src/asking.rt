//! What the resolvers of a bench answer to calls, as texts.
ghost use Rattle.gql_resolve.specs.Call.{call_of};

use gql_base::{Error, Made, push_json};
use gql_request::HeaderOp;
use gql_resolve::{Answer, FieldFuture, FieldValue, Polled, ResolverContext, ResolverSet};
use std::alloc::Global;

/// What a resolver answers to a call: `now` where it comes with the start, and else how many polls
/// were pending; then what comes.
pub fn told<R: ResolverSet<Own = i64>>(
    alloc: Global,
    set: &mut R,
    call: &ResolverContext<'_, i64>,
) -> Made<String> {
    match set.start(alloc, call)? {
        FieldFuture::Value(value) => text_at_once(alloc, value),
        FieldFuture::Future(mut future) => told_later(alloc, set, &mut future, call),
    }
}

/// The same of a resolver that gave a future, which is polled five times at most.
fn told_later<R: ResolverSet<Own = i64>>(
    alloc: Global,
    set: &mut R,
    future: &mut R::Future,
    call: &ResolverContext<'_, i64>,
) -> Made<String>
    requires { R.is_for future.old (call_of call.now) }
{
    for pending in 0..5u64 {
        match set.poll(alloc, future, call)? {
            Polled::Ready(answer) => return text_after(alloc, pending, answer),
            Polled::Pending => {}
        }
    }
    String::from_str(alloc, "late")
}

fn text_at_once(alloc: Global, value: Option<FieldValue<i64>>) -> Made<String> {
    let mut out = String::new(alloc);
    let pushed = push_at_once(&mut out, &value);
    drop(value);
    pushed?;
    Ok(out)
}

fn push_at_once(out: &mut String, value: &Option<FieldValue<i64>>) -> Made<()> {
    out.push_str("now ")?;
    push_value(out, value)
}

fn text_after(alloc: Global, pending: u64, answer: Answer<i64>) -> Made<String> {
    let mut out = String::new(alloc);
    let pushed = push_answer(&mut out, pending, &answer);
    drop(answer);
    pushed?;
    Ok(out)
}

/// An answer: its value or its error, its added errors, and its headers.
fn push_answer(out: &mut String, pending: u64, answer: &Answer<i64>) -> Made<()> {
    write!(out, "{pending} ")?;
    push_outcome(out, &answer.result)?;
    push_added(out, answer.added.as_slice())?;
    push_headers(out, answer.headers.as_slice())
}

fn push_outcome(out: &mut String, outcome: &Result<Option<FieldValue<i64>>, Error>) -> Made<()> {
    match outcome {
        Ok(value) => push_value(out, value),
        Err(error) => push_word(out, "error ", error.message.as_str()),
    }
}

fn push_word(out: &mut String, word: &str, text: &str) -> Made<()> {
    out.push_str(word)?;
    out.push_str(text)
}

fn push_value(out: &mut String, value: &Option<FieldValue<i64>>) -> Made<()> {
    match value {
        Some(given) => push_given(out, given),
        None => out.push_str("none"),
    }
}

fn push_given(out: &mut String, given: &FieldValue<i64>) -> Made<()> {
    match given {
        FieldValue::Value(value) => push_json(out, value),
        FieldValue::Own(own) => push_own(out, *own),
        FieldValue::List(items) => push_count(out, items.len()),
        FieldValue::WithType { value: _, ty } => push_word(out, "a ", ty.as_str()),
    }
}

fn push_own(out: &mut String, own: i64) -> Made<()> {
    write!(out, "own {own}")
}

fn push_count(out: &mut String, count: usize) -> Made<()> {
    write!(out, "list of {count}")
}

fn push_added(out: &mut String, errors: &[Error]) -> Made<()> {
    for error in errors {
        push_word(out, " + ", error.message.as_str())?;
    }
    Ok(())
}

fn push_headers(out: &mut String, headers: &[HeaderOp]) -> Made<()> {
    for header in headers {
        match header {
            HeaderOp::Insert(name, _) => push_word(out, " insert ", name.as_str())?,
            HeaderOp::Append(name, _) => push_word(out, " append ", name.as_str())?,
        }
    }
    Ok(())
}
