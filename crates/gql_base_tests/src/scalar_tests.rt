//! A scalar of the tests' own, each call of which is compared.
ghost use Rattle.std.specs.Prelude.{◌≡◌, if◌then◌else◌};
ghost use Rattle.gql_base_tests.specs.declared.scalar_tests.Switch.TheVariants.{On, Off};

use gql_base::{Made, Text, Value, literal_of};
use gql_input::{InputValueError, InputValueResult, ScalarType};
use std::alloc::Global;
use std::test::Fail;

/// A switch, for which a truth value stands.
#[derive(Clone, Copy, PartialEq)]
enum Switch {
    On,
    Off,
}

fn turned(on: bool) -> Switch
    ensures { result ≡ (if on then On else Off) }
{
    if on { Switch::On } else { Switch::Off }
}

impl ScalarType for Switch {
    ghost use Rattle.std.specs.Prelude.{true, false, codes, is_some, option_map};
    ghost use Rattle.std.specs.Prelude.{if◌then◌else◌};
    ghost use Rattle.std.specs.Option.{ok_or};
    ghost use Rattle.gql_base.specs.Kinds.{boolean_of};
    ghost use Rattle.gql_base.specs.declared.value.Value.TheVariants as value;
    ghost use Rattle.gql_input.specs.InputValueError.{expected_text, plain};
    ghost use Rattle.gql_base_tests.specs.declared.scalar_tests.Switch.TheVariants.{On, Off};

    ghost read = { λ given. ok_or (option_map (λ on. if on then On else Off) (boolean_of given))
        (plain (expected_text (codes "Switch") given)) };

    ghost valid = { λ given. is_some (boolean_of given) };

    ghost shown = { elim [ On ↦ value.Boolean true | Off ↦ value.Boolean false ] };

    fn parse(alloc: Global, value: Value) -> Made<InputValueResult<Switch>> {
        match value {
            Value::Boolean(on) => Ok(Ok(turned(on))),
            other => Ok(Err(InputValueError::expected(alloc, "Switch", other)?)),
        }
    }

    fn is_valid(value: &Value) -> bool {
        match value {
            Value::Boolean(_) => true,
            _ => false,
        }
    }

    fn to_value(&self, _alloc: Global) -> Made<Value> {
        match self {
            Switch::On => Ok(Value::Boolean(true)),
            Switch::Off => Ok(Value::Boolean(false)),
        }
    }
}

/// Whether a value gives this at a scalar, or is refused.
fn gives<T: ScalarType + PartialEq + Drop>(
    alloc: Global,
    value: Value,
    scalar: Option<T>,
) -> Made<bool> {
    Ok(T::parse(alloc, value)?.ok() == scalar)
}

#[test]
fn values_at_a_scalar(rt: HostRuntime) -> Result<(), Fail> {
    let alloc = rt.alloc();
    assert!(rt; gives(alloc, Value::Boolean(true), Some(Switch::On))?);
    assert!(rt; gives(alloc, Value::Boolean(false), Some(Switch::Off))?);
    assert!(rt; gives::<Switch>(alloc, Value::Null, None)?);
    Ok(())
}

/// Whether a value may stand in a document at a scalar.
fn is_valid<T: ScalarType>(value: &Value) -> bool {
    T::is_valid(value)
}

#[test]
fn values_that_may_stand_at_a_scalar(rt: HostRuntime) -> Result<(), Fail> {
    assert!(rt; is_valid::<Switch>(&Value::Boolean(false)));
    assert!(rt; !is_valid::<Switch>(&Value::Null));
    Ok(())
}

/// The literal of the value that stands for one of a scalar.
fn shown<T: ScalarType>(alloc: Global, scalar: &T) -> Made<Text> {
    let value = scalar.to_value(alloc)?;
    literal_of(alloc, &value)
}

#[test]
fn values_of_a_scalar(rt: HostRuntime) -> Result<(), Fail> {
    assert!(rt; shown(rt.alloc(), &Switch::On)?.as_str() == "true");
    assert!(rt; shown(rt.alloc(), &Switch::Off)?.as_str() == "false");
    Ok(())
}
