//! Copies of what resolvers give.

ghost use Rattle.std.specs.Prelude.{◌≡◌, IfOk};

use crate::answer::{Answer, Polled};
use crate::field_value::FieldValue;
use crate::record_entry::RecordEntry;
use gql_base::{Boxed, Copied, Items, Made};
use std::alloc::Global;

impl<V: Copied + Drop> Copied for FieldValue<V> {
    fn try_clone(&self, alloc: Global) -> Made<FieldValue<V>> {
        copy_given(alloc, self)
    }
}

#[cycle(copy)]
fn copy_given<V: Copied + Drop>(alloc: Global, given: &FieldValue<V>) -> Made<FieldValue<V>>
    ensures { IfOk result (λ copy. copy ≡ given.now) }
{
    match given {
        FieldValue::Value(value) => Ok(FieldValue::Value(value.try_clone(alloc)?)),
        FieldValue::Own(own) => Ok(FieldValue::Own(own.try_clone(alloc)?)),
        FieldValue::List(items) => Ok(FieldValue::List(copy_list(alloc, items.as_slice())?)),
        FieldValue::WithType { value, ty } => {
            let ty = ty.try_clone(alloc)?;
            let value = Boxed::new(alloc, copy_given(alloc, value.get())?)?;
            Ok(FieldValue::WithType { value, ty })
        }
    }
}

#[cycle(copy)]
fn copy_list<V: Copied + Drop>(alloc: Global, items: &[FieldValue<V>]) -> Made<Items<FieldValue<V>>>
    ensures { IfOk result (λ copies. copies ≡ items.now) }
{
    let mut copies = Items::new(alloc);
    for item in items {
        copies.push(copy_given(alloc, item)?)?;
    }
    Ok(copies)
}

impl<V: Copied + Drop> Copied for Answer<V> {
    fn try_clone(&self, alloc: Global) -> Made<Answer<V>> {
        let result = match &self.result {
            Ok(given) => Ok(given.try_clone(alloc)?),
            Err(error) => Err(error.try_clone(alloc)?),
        };
        Ok(Answer {
            result,
            added: self.added.try_clone(alloc)?,
            headers: self.headers.try_clone(alloc)?,
        })
    }
}

impl<V: Copied + Drop> Copied for Polled<V> {
    fn try_clone(&self, alloc: Global) -> Made<Polled<V>> {
        match self {
            Polled::Ready(answer) => Ok(Polled::Ready(answer.try_clone(alloc)?)),
            Polled::Pending => Ok(Polled::Pending),
        }
    }
}

impl Copied for RecordEntry {
    fn try_clone(&self, alloc: Global) -> Made<RecordEntry> {
        Ok(RecordEntry {
            task: self.task,
            resolver: self.resolver,
            path: self.path.try_clone(alloc)?,
            ready: self.ready,
        })
    }
}
