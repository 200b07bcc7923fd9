ghost use Rattle.std.specs.Prelude.{◌≡◌, IfOk, IsSome, Some, map, option_map};
ghost use Rattle.std.specs.List.{Contains};
ghost use Rattle.std.specs.Option.{option_copied};
ghost use Rattle.gql_base.specs.Kinds.{enum_name_of};
ghost use Rattle.gql_base.specs.declared.value.Value.TheVariants as values;
ghost use Rattle.gql_base.specs.Pairs.{HasDistinctNames, under};
ghost use Rattle.gql_input.specs.EnumType.{item_pair, name_of_item, no_item_text, read_enum};
ghost use Rattle.gql_input.specs.EnumType.{AreApart, IsReadAs, IsReadBack, read_item, values_of};
ghost use Rattle.gql_input.specs.InputType.{IsReading};

use crate::input_type::InputType;
use crate::input_value_error::{InputValueError, InputValueResult};
use gql_base::{Made, Name, Text, Value};
use std::alloc::Global;

/// A name of an enum beside the value that it stands for.
#[derive(Clone, Copy, Debug)]
pub struct EnumItem<T> {
    pub name: &'static str,
    pub value: T,
}

/// An enum of values that names stand for.
pub trait EnumType: Sized + Eq + Copy + 'static {
    ghost use Rattle.std.specs.Prelude.{ℕ, List};

    /// The names, each with its value, in order.
    ghost listed: { List (List ℕ × Self) };

    /// The items of the enum.
    fn items() -> &'static [EnumItem<Self>]
        ensures { map item_pair result.now ≡ listed };
}

/// The value that an enum's name stands for, also where the name is in a string.
pub fn parse_enum<T: EnumType + InputType>(alloc: Global, value: Value) -> Made<InputValueResult<T>>
    ensures { IfOk result (IsReading (read_enum T.name T.listed value)) }
{
    parse_enum_named(alloc, T::type_name(), value)
}

/// What `parse_enum` gives at an enum of this name, for the reading of an `InputType` itself.
pub fn parse_enum_named<T: EnumType>(
    alloc: Global,
    type_name: &str,
    value: Value,
) -> Made<InputValueResult<T>>
    ensures { IfOk result (IsReading (read_enum type_name.now T.listed value)) }
{
    match name_in(&value) {
        Some(name) => parse_item(alloc, type_name, name),
        None => Ok(Err(InputValueError::expected(alloc, type_name, value)?)),
    }
}

/// The name that a value is, or that stands in its string.
fn name_in(value: &Value) -> Option<&str>
    ensures { option_copied result ≡ enum_name_of value.now }
{
    match value {
        Value::Enum(name) => Some(name.as_str()),
        Value::String(text) => Some(text.as_str()),
        _ => None,
    }
}

/// The value that a name stands for.
fn parse_item<T: EnumType>(alloc: Global, type_name: &str, name: &str) -> Made<InputValueResult<T>>
    ensures { IfOk result (IsReading (read_item type_name.now T.listed name.now)) }
{
    match value_under(T::items(), name) {
        Some(found) => Ok(Ok(found)),
        None => {
            let reason = no_item(alloc, name)?;
            Ok(Err(InputValueError::refused(alloc, type_name, reason.as_str())?))
        }
    }
}

/// The enum value whose name stands for a value, which has to be that of an item. Where no two
/// items have one name, `parse_enum` gives the value back: up to the enum's own `==`, and itself
/// where that tells the values of the items apart.
pub fn enum_value<T: EnumType>(alloc: Global, value: T) -> Made<Value>
    requires { IsSome (name_of_item T.eq value T.listed) }
    ensures value { IfOk result
        (λ made. option_map values.Enum (name_of_item T.eq value T.listed) ≡ Some made) }
    ensures reads_back { IfOk result
        (λ made. HasDistinctNames T.listed → IsReadBack T.eq T.listed value made) }
    ensures gives_back { IfOk result
        (λ made. HasDistinctNames T.listed → AreApart T.eq (values_of T.listed)
        → Contains (values_of T.listed) value → IsReadAs T.listed value made) }
{
    match name_for(T::items(), value) {
        Some(name) => Ok(Value::Enum(Name::new(alloc, name)?)),
        None => unreachable!(),
    }
}

/// The value of the first item of a name, or none.
fn value_under<T: EnumType>(items: &[EnumItem<T>], name: &str) -> Option<T>
    ensures { result ≡ under name.now (map item_pair items.now) }
{
    for item in items {
        if name == item.name {
            return Some(item.value);
        }
    }
    None
}

/// The name of the first item of a value, or none.
fn name_for<T: EnumType>(items: &[EnumItem<T>], value: T) -> Option<&'static str>
    ensures { option_map (λ name. name.now) result
        ≡ name_of_item T.eq value (map item_pair items.now) }
{
    for item in items {
        if item.value == value {
            return Some(item.name);
        }
    }
    None
}

/// That an enum has no item of this name.
fn no_item(alloc: Global, name: &str) -> Made<Text>
    ensures { IfOk result (λ text. text ≡ no_item_text name.now) }
{
    let mut out = String::new(alloc);
    write!(out, "Enumeration type does not contain value \"{name}\".")?;
    Text::from_string(out)
}
