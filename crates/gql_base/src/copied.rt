ghost use Rattle.std.specs.Prelude.{◌≡◌, IfOk, map, take};
ghost use Rattle.gql_base.specs.Pairs.{names_of};

use crate::boxed::Boxed;
use crate::items::Items;
use crate::made::Made;
use crate::name::Name;
use crate::number::Number;
use crate::pairs::Pairs;
use crate::pos::Pos;
use crate::type_ref::TypeRef;
use crate::value::Value;
use std::alloc::Global;

/// What can be copied, where a copy may want memory.
pub trait Copied: Sized {
    /// A copy, which equals its source.
    fn try_clone(&self, alloc: Global) -> Made<Self>
        ensures { IfOk result (λ copy. copy ≡ self.now) };
}

impl Copied for i64 {
    fn try_clone(&self, _alloc: Global) -> Made<i64> {
        Ok(*self)
    }
}

impl Copied for u64 {
    fn try_clone(&self, _alloc: Global) -> Made<u64> {
        Ok(*self)
    }
}

impl Copied for bool {
    fn try_clone(&self, _alloc: Global) -> Made<bool> {
        Ok(*self)
    }
}

impl Copied for Number {
    fn try_clone(&self, _alloc: Global) -> Made<Number> {
        Ok(*self)
    }
}

impl Copied for Pos {
    fn try_clone(&self, _alloc: Global) -> Made<Pos> {
        Ok(*self)
    }
}

impl<T: Copied + Drop> Copied for Option<T> {
    fn try_clone(&self, alloc: Global) -> Made<Option<T>> {
        match self {
            None => Ok(None),
            Some(value) => Ok(Some(value.try_clone(alloc)?)),
        }
    }
}

impl<T: Copied + Drop> Copied for Boxed<T> {
    fn try_clone(&self, alloc: Global) -> Made<Boxed<T>> {
        Boxed::new(alloc, self.get().try_clone(alloc)?)
    }
}

impl<T: Copied + Drop> Copied for Items<T> {
    fn try_clone(&self, alloc: Global) -> Made<Items<T>> {
        Ok(Items::from_vec(copies(alloc, self.as_slice())?))
    }
}

/// A copy of each item.
pub fn copies<T: Copied + Drop>(alloc: Global, items: &[T]) -> Made<Vec<T>>
    ensures { IfOk result (λ made. made.items ≡ items.now) }
{
    let mut made = Vec::with_capacity(alloc, items.len())?;
    for item in items {
        made.push(item.try_clone(alloc)?)?;
    }
    Ok(made)
}

impl Copied for Value {
    fn try_clone(&self, alloc: Global) -> Made<Value> {
        match self {
            Value::Null => Ok(Value::Null),
            Value::Boolean(truth) => Ok(Value::Boolean(*truth)),
            Value::Number(number) => Ok(Value::Number(*number)),
            Value::String(text) => Ok(Value::String(text.try_clone(alloc)?)),
            Value::Enum(name) => Ok(Value::Enum(name.try_clone(alloc)?)),
            Value::List(items) => Ok(Value::List(items.try_clone(alloc)?)),
            Value::Object(members) => Ok(Value::Object(members.try_clone(alloc)?)),
        }
    }
}

impl Copied for TypeRef {
    fn try_clone(&self, alloc: Global) -> Made<TypeRef> {
        copy_type(alloc, self)
    }
}

fn copy_type(alloc: Global, ty: &TypeRef) -> Made<TypeRef>
    ensures { IfOk result (λ copy. copy ≡ ty.now) }
{
    match ty {
        TypeRef::Named(name) => Ok(TypeRef::Named(name.try_clone(alloc)?)),
        TypeRef::NonNull(inner) => copy_type(alloc, inner.get())?.non_null(alloc),
        TypeRef::List(inner) => copy_type(alloc, inner.get())?.list(alloc),
    }
}
