ghost use Rattle.std.specs.Prelude.{◌≡◌, ◌↔◌, ℤ, IsTrue, MatchResult, None, Some, FitsSigned};
ghost use Rattle.std.specs.Int.{w64};
ghost use Rattle.std.specs.Option.{ok_or};
ghost use Rattle.gql_input.specs.Accessor.{value_behind, members_behind, items_behind};
ghost use Rattle.gql_base.specs.Kinds.{boolean_of, enum_name_of, number_of, unsigned_number_of};
ghost use Rattle.gql_base.specs.Kinds.{string_of, object_of, list_of};

use crate::access_fault::AccessFault;
use crate::list_accessor::ListAccessor;
use crate::object_accessor::ObjectAccessor;
use gql_base::Value;

/// One value, to be read as what it is.
#[derive(Clone, Copy)]
pub struct ValueAccessor<'a> {
    value: &'a Value,
}

impl<'a> ValueAccessor<'a> {
    /// An accessor of a value.
    pub fn new(value: &'a Value) -> ValueAccessor<'a>
        ensures { value_behind result ≡ value.now }
    {
        ValueAccessor { value }
    }

    /// The value.
    pub fn as_value(&self) -> &'a Value
        ensures { result.now ≡ value_behind self.now }
    {
        self.value
    }

    /// True exactly where the value is null.
    pub fn is_null(&self) -> bool
        ensures { IsTrue result ↔ (value_behind self.now ≡ Value.Null) }
    {
        match self.value {
            Value::Null => true,
            _ => false,
        }
    }

    /// The truth value, where the value is one.
    pub fn boolean(&self) -> Result<bool, AccessFault<'static>>
        ensures { result ≡ ok_or (boolean_of (value_behind self.now)) AccessFault.NotBoolean }
    {
        match self.value {
            Value::Boolean(truth) => Ok(*truth),
            _ => Err(AccessFault::NotBoolean),
        }
    }

    /// The name of an enum's value, which may stand in a string.
    pub fn enum_name(&self) -> Result<&'a str, AccessFault<'static>>
        ensures { MatchResult result (λ name. enum_name_of (value_behind self.now) ≡ Some name.now)
            (λ fault. (fault ≡ AccessFault.NotEnumName)
            × (enum_name_of (value_behind self.now) ≡ None)) }
    {
        match self.value {
            Value::Enum(name) => Ok(name.as_str()),
            Value::String(text) => Ok(text.as_str()),
            _ => Err(AccessFault::NotEnumName),
        }
    }

    /// The number, where the value is one that fits `i64`.
    pub fn i64(&self) -> Result<i64, AccessFault<'static>>
        ensures { MatchResult result (λ number. number_of (value_behind self.now) ≡ Some number)
            (λ fault. (fault ≡ AccessFault.NotSigned)
            × ((number : ℤ) → number_of (value_behind self.now) ≡ Some number
            → ¬ (FitsSigned w64 number))) }
    {
        if let Value::Number(number) = self.value
            && let Some(signed) = number.as_i64()
        {
            return Ok(signed);
        }
        Err(AccessFault::NotSigned)
    }

    /// The number, where the value is one that isn't negative.
    pub fn u64(&self) -> Result<u64, AccessFault<'static>>
        ensures { result
            ≡ ok_or (unsigned_number_of (value_behind self.now)) AccessFault.NotUnsigned }
    {
        if let Value::Number(number) = self.value
            && let Some(unsigned) = number.as_u64()
        {
            return Ok(unsigned);
        }
        Err(AccessFault::NotUnsigned)
    }

    /// The text, where the value is a string.
    pub fn string(&self) -> Result<&'a str, AccessFault<'static>>
        ensures { MatchResult result (λ text. string_of (value_behind self.now) ≡ Some text.now)
            (λ fault. (fault ≡ AccessFault.NotString) × (string_of (value_behind self.now) ≡ None)) }
    {
        match self.value {
            Value::String(text) => Ok(text.as_str()),
            _ => Err(AccessFault::NotString),
        }
    }

    /// The members, where the value is an object.
    pub fn object(&self) -> Result<ObjectAccessor<'a>, AccessFault<'static>>
        ensures { MatchResult result (λ object. object_of (value_behind self.now)
            ≡ Some (members_behind object))
            (λ fault. (fault ≡ AccessFault.NotObject) × (object_of (value_behind self.now) ≡ None)) }
    {
        match self.value {
            Value::Object(members) => Ok(ObjectAccessor::new(members)),
            _ => Err(AccessFault::NotObject),
        }
    }

    /// The items, where the value is a list.
    pub fn list(&self) -> Result<ListAccessor<'a>, AccessFault<'static>>
        ensures { MatchResult result (λ list. list_of (value_behind self.now)
            ≡ Some (items_behind list))
            (λ fault. (fault ≡ AccessFault.NotList) × (list_of (value_behind self.now) ≡ None)) }
    {
        match self.value {
            Value::List(items) => Ok(ListAccessor::new(items.as_slice())),
            _ => Err(AccessFault::NotList),
        }
    }
}
