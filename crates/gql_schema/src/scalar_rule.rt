ghost use Rattle.std.specs.Prelude.{◌≡◌};
ghost use Rattle.gql_schema.specs.NameSet.{is_among};
ghost use Rattle.gql_schema.specs.ScalarRule.{always, bare_of, is_boolean, is_number, is_string};
ghost use Rattle.gql_schema.specs.ScalarRule.{is_between, is_int32};

use crate::name_set::NameSet;
use crate::same::Same;
use gql_base::{Copied, Made, Value};
use std::alloc::Global;

/// Which values a scalar takes (GraphQL, October 2021, section 3.5).
#[derive(Debug, Drop)]
pub enum ScalarRule {
    /// Every value.
    Any,
    /// The two truth values.
    Bool,
    /// The whole numbers of 32 bits with a sign.
    Int,
    /// Strings.
    Text,
    /// Strings and whole numbers.
    Id,
    /// The whole numbers from the first to the second.
    IntBetween(i64, i64),
    /// These strings.
    OneOf(NameSet),
}

impl ScalarRule {
    ghost use Rattle.gql_schema.specs.ScalarRule.{takes};

    /// True exactly where a scalar of this rule takes the value.
    pub fn takes(&self, value: &Value) -> bool
        ensures { result ≡ takes self.now value.now }
    {
        match self {
            ScalarRule::Any => true,
            ScalarRule::Bool => is_boolean_value(value),
            ScalarRule::Int => is_small_number(value),
            ScalarRule::Text => is_any_string(value),
            ScalarRule::Id => is_any_string(value) || is_any_number(value),
            ScalarRule::IntBetween(least, most) => is_within(value, *least, *most),
            ScalarRule::OneOf(texts) => is_listed(value, texts),
        }
    }
}

fn is_boolean_value(value: &Value) -> bool
    ensures { result ≡ is_boolean (bare_of value.now) }
{
    matches!(value, Value::Boolean(_))
}

fn is_any_string(value: &Value) -> bool
    ensures { result ≡ is_string always (bare_of value.now) }
{
    matches!(value, Value::String(_))
}

fn is_any_number(value: &Value) -> bool
    ensures { result ≡ is_number always (bare_of value.now) }
{
    matches!(value, Value::Number(_))
}

/// True exactly where the value is a whole number of 32 bits with a sign.
#[tactic(auto, using(gql_base::proofs::NumberLemmas::int32_there))]
fn is_small_number(value: &Value) -> bool
    ensures { result ≡ is_number is_int32 (bare_of value.now) }
{
    match value {
        Value::Number(number) => number.as_i32().is_some(),
        _ => false,
    }
}

/// True exactly where the value is a whole number from the first to the second.
fn is_within(value: &Value, least: i64, most: i64) -> bool
    ensures { result ≡ is_number (is_between least most) (bare_of value.now) }
{
    match value {
        Value::Number(number) => match number.as_i64() {
            Some(whole) => least <= whole && whole <= most,
            None => false,
        },
        _ => false,
    }
}

/// True exactly where the value is one of these strings.
fn is_listed(value: &Value, texts: &NameSet) -> bool
    ensures { result ≡ is_string (λ text. is_among text texts.now) (bare_of value.now) }
{
    match value {
        Value::String(text) => texts.has(text.as_str()),
        _ => false,
    }
}

impl Copied for ScalarRule {
    fn try_clone(&self, alloc: Global) -> Made<ScalarRule> {
        match self {
            ScalarRule::Any => Ok(ScalarRule::Any),
            ScalarRule::Bool => Ok(ScalarRule::Bool),
            ScalarRule::Int => Ok(ScalarRule::Int),
            ScalarRule::Text => Ok(ScalarRule::Text),
            ScalarRule::Id => Ok(ScalarRule::Id),
            ScalarRule::IntBetween(least, most) => Ok(ScalarRule::IntBetween(*least, *most)),
            ScalarRule::OneOf(texts) => Ok(ScalarRule::OneOf(texts.try_clone(alloc)?)),
        }
    }
}

impl Same for ScalarRule {
    fn same(&self, other: &ScalarRule) -> bool {
        match (self, other) {
            (ScalarRule::Any, ScalarRule::Any) => true,
            (ScalarRule::Bool, ScalarRule::Bool) => true,
            (ScalarRule::Int, ScalarRule::Int) => true,
            (ScalarRule::Text, ScalarRule::Text) => true,
            (ScalarRule::Id, ScalarRule::Id) => true,
            (ScalarRule::IntBetween(least, most), ScalarRule::IntBetween(low, high)) => {
                *least == *low && *most == *high
            }
            (ScalarRule::OneOf(texts), ScalarRule::OneOf(others)) => texts.same(others),
            _ => false,
        }
    }
}
