//! Public calls with ample memory. What a test looks at is made by small functions beside it, since
//! a test is proved too.
use crate::parts::Parts;
use crate::sample::Last;
use gql_base::{Copied, Error, Items, Made, Value};
use gql_doc::OperationType;
use gql_request::{DataContext, DataKey};
use gql_resolve::{Answer, FieldFuture, FieldValue, Polled, RecordEntry, ResolverContext, Turns};
use http_header::{HeaderName, HeaderValue};
use std::alloc::Global;
use std::test::Fail;

/// The resolver's own number that an answer has.
fn own_of(answer: &Answer<u64>) -> Option<u64> {
    match &answer.result {
        Ok(Some(given)) => given.as_own().copied(),
        _ => None,
    }
}

fn has_path(entry: &RecordEntry) -> bool {
    entry.path.as_str() == "2.5"
}

/// Whether an entry is a ready one of task 3, resolver 7 and the path `2.5`.
fn is_of_the_task(entry: &RecordEntry) -> bool {
    entry.task == 3 && entry.resolver == 7 && entry.ready && has_path(entry)
}

/// Whether a key has the truth value true.
fn is_true<'a, C: DataContext<'a>>(context: &C, key: DataKey) -> bool {
    context.data(key).is_ok() && context.data_unchecked(key) == &Value::Boolean(true)
}

/// Whether the key 1 is true and the key 2 isn't there.
fn has_one<'a, C: DataContext<'a>>(context: &C) -> bool {
    is_true(context, DataKey(1)) && context.data_opt(DataKey(2)).is_none()
}

/// Whether a copy of an entry of the task is one too.
fn is_copied(alloc: Global, call: &ResolverContext<'_, u64>) -> Made<bool> {
    let entry = RecordEntry::of(alloc, call, true)?;
    let copy = entry.try_clone(alloc);
    drop(entry);
    let copy = copy?;
    Ok(is_of_the_task(&copy))
}

#[test]
fn what_a_context_serves(rt: HostRuntime) -> Result<(), Fail> {
    let parts = Parts::new(rt.alloc(), OperationType::Mutation)?;
    let copied = is_copied(rt.alloc(), &parts.context());
    let data = has_one(&parts.context()) && has_one(&parts.layers());
    drop(parts);
    assert!(rt; copied?);
    assert!(rt; data);
    Ok(())
}

fn picked<P: Turns>(turns: &mut P) -> usize {
    turns.pick(5)
}

#[test]
fn turns_through_their_bound(rt: HostRuntime) {
    assert!(rt; picked(&mut Last) == 4);
}

/// Whether each reader of what a resolver gave reads its own kind alone.
fn reads_its_kind(given: &FieldValue<u64>, kind: usize) -> bool {
    let is_value = given.as_value().is_some() == (kind == 0)
        && given.try_to_value().is_ok() == (kind == 0);
    let is_list = given.as_list().is_some() == (kind == 1)
        && given.try_to_list().is_ok() == (kind == 1);
    let is_own = given.as_own().is_some() == (kind == 2) && given.try_own().is_ok() == (kind == 2);
    is_value && is_list && is_own
}

/// The same of what is given up then.
fn is_of_kind(given: FieldValue<u64>, kind: usize) -> bool {
    reads_its_kind(&given, kind)
}

#[test]
fn what_resolvers_give(rt: HostRuntime) -> Result<(), Fail> {
    assert!(rt; is_of_kind(FieldValue::value(Value::Boolean(true)), 0));
    assert!(rt; is_of_kind(FieldValue::list(Items::new(rt.alloc())), 1));
    assert!(rt; is_of_kind(FieldValue::own(4), 2));
    assert!(rt; is_of_kind(FieldValue::own(4).with_type(rt.alloc(), "Hero")?, 3));
    assert!(rt; FieldValue::<u64>::none().is_none());
    Ok(())
}

fn is_given(given: &FieldValue<u64>, value: &Value) -> bool {
    match given.as_value() {
        Some(found) => found == value,
        None => false,
    }
}

/// Whether a resolver begins with this value at once. No value isn't the value null.
fn begins_with(begun: FieldFuture<u64, u64>, value: Value) -> bool {
    match &begun {
        FieldFuture::Value(Some(given)) => is_given(given, &value),
        _ => false,
    }
}

#[test]
fn beginnings_with_values(rt: HostRuntime) {
    let truth = FieldFuture::from_value(Some(Value::Boolean(true)));
    assert!(rt; begins_with(truth, Value::Boolean(true)));
    assert!(rt; !begins_with(FieldFuture::from_value(None), Value::Null));
}

/// The answer 3 with two headers and an error.
fn answer(alloc: Global) -> Made<Answer<u64>> {
    let mut answer = Answer {
        result: Ok(Some(FieldValue::own(3))),
        added: Items::new(alloc),
        headers: Items::new(alloc),
    };
    let (one, two) = (
        HeaderName::from_static("x-a"),
        HeaderName::from_static("x-b"),
    );
    answer.insert_http_header(one, HeaderValue::from_static("1"))?;
    answer.append_http_header(two, HeaderValue::from_static("2"))?;
    answer.add_error(Error::new(alloc, "lost")?)?;
    Ok(answer)
}

/// Whether an answer is that one.
fn is_whole(answer: &Answer<u64>) -> bool {
    let has_second = answer.http_header_contains(&HeaderName::from_static("x-b"));
    let has_third = answer.http_header_contains(&HeaderName::from_static("x-c"));
    has_second
        && !has_third
        && answer.headers.len() == 2
        && answer.added.len() == 1
        && own_of(answer) == Some(3)
}

/// Whether a copy of a poll that gave that answer gives it too.
fn is_copied_whole(alloc: Global) -> Made<bool> {
    let polled = Polled::Ready(answer(alloc)?);
    let copy = polled.try_clone(alloc);
    drop(polled);
    match copy? {
        Polled::Ready(answer) => Ok(is_whole(&answer)),
        Polled::Pending => Ok(false),
    }
}

#[test]
fn answers_and_their_copies(rt: HostRuntime) -> Result<(), Fail> {
    assert!(rt; is_copied_whole(rt.alloc())?);
    Ok(())
}

fn is_send_sync<T: Send + Sync>() {}

#[test]
fn types_can_be_shared() {
    is_send_sync::<FieldFuture<u64, u64>>();
    is_send_sync::<RecordEntry>();
}
