ghost use Rattle.std.specs.Prelude.{◌≡◌, IfOk, MatchResult, Some, None};
ghost use Rattle.std.specs.Option.{option_copied};
ghost use Rattle.gql_resolve.specs.FieldValue.{value_in, items_in, own_in};

use gql_base::{Boxed, Items, Made, Name, Value};
use gql_input::AccessFault;
use std::alloc::Global;

/// What a resolver gives for a field: a value, a value of the resolver's own kind, which the fields
/// under get as their parent, a list, or any of them with the name of its object type.
#[derive(Debug, Drop)]
pub enum FieldValue<V> {
    Value(Value),
    Own(V),
    List(Items<FieldValue<V>>),
    WithType {
        value: Boxed<FieldValue<V>>,
        ty: Name,
    },
}

impl<V> FieldValue<V> {
    /// The value null.
    pub const NULL: FieldValue<V> = FieldValue::Value(Value::Null);

    /// No value, which a response shows as null.
    pub fn none() -> Option<FieldValue<V>>
        ensures { result ≡ None }
    {
        None
    }

    /// A value.
    pub fn value(value: Value) -> FieldValue<V>
        ensures { result ≡ FieldValue.Value value }
    {
        FieldValue::Value(value)
    }

    /// A value of the resolver's own kind.
    pub fn own(own: V) -> FieldValue<V>
        ensures { result ≡ FieldValue.Own own }
    {
        FieldValue::Own(own)
    }

    /// A list.
    pub fn list(items: Items<FieldValue<V>>) -> FieldValue<V>
        ensures { result ≡ FieldValue.List items }
    {
        FieldValue::List(items)
    }

    /// The value, or none where this is of another kind.
    pub fn as_value(&self) -> Option<&Value>
        ensures { option_copied result ≡ value_in self.now }
    {
        match self {
            FieldValue::Value(value) => Some(value),
            _ => None,
        }
    }

    /// The value, or that this is of another kind.
    pub fn try_to_value(&self) -> Result<&Value, AccessFault<'static>>
        ensures { MatchResult result (λ given. value_in self.now ≡ Some given.now)
            (λ fault. (fault ≡ AccessFault.NotValue) × (value_in self.now ≡ None)) }
    {
        match self.as_value() {
            Some(value) => Ok(value),
            None => Err(AccessFault::NotValue),
        }
    }

    /// The items of a list, or none where this is of another kind.
    pub fn as_list(&self) -> Option<&[FieldValue<V>]>
        ensures { option_copied result ≡ items_in self.now }
    {
        match self {
            FieldValue::List(items) => Some(items.as_slice()),
            _ => None,
        }
    }

    /// The items of a list, or that this is of another kind.
    pub fn try_to_list(&self) -> Result<&[FieldValue<V>], AccessFault<'static>>
        ensures { MatchResult result (λ given. items_in self.now ≡ Some given.now)
            (λ fault. (fault ≡ AccessFault.NotFieldList) × (items_in self.now ≡ None)) }
    {
        match self.as_list() {
            Some(items) => Ok(items),
            None => Err(AccessFault::NotFieldList),
        }
    }

    /// The resolver's own value, or none where this is of another kind.
    pub fn as_own(&self) -> Option<&V>
        ensures { option_copied result ≡ own_in self.now }
    {
        match self {
            FieldValue::Own(own) => Some(own),
            _ => None,
        }
    }

    /// The resolver's own value, or that this is of another kind.
    pub fn try_own(&self) -> Result<&V, AccessFault<'static>>
        ensures { MatchResult result (λ given. own_in self.now ≡ Some given.now)
            (λ fault. (fault ≡ AccessFault.NotOwn) × (own_in self.now ≡ None)) }
    {
        match self.as_own() {
            Some(own) => Ok(own),
            None => Err(AccessFault::NotOwn),
        }
    }
}

impl<V: Drop> FieldValue<V> {
    /// This, with the name of its object type.
    pub fn with_type(self, alloc: Global, ty: &str) -> Made<FieldValue<V>>
        ensures { IfOk result (λ made. made ≡ FieldValue.WithType self ty.now) }
    {
        let ty = Name::new(alloc, ty)?;
        let value = Boxed::new(alloc, self)?;
        Ok(FieldValue::WithType { value, ty })
    }
}
