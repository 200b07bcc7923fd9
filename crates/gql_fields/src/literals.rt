//! Which values of a document fit a type of inputs.
ghost use Rattle.std.specs.Prelude.{◌≡◌};
ghost use Rattle.std.specs.Option.{option_copied};
ghost use Rattle.gql_schema.specs.Fits.{are_given, fits_whole, has_number, is_given, is_item};
ghost use Rattle.gql_schema.specs.Fits.{is_one};
ghost use Rattle.gql_schema.specs.NameSet.{is_among};
ghost use Rattle.gql_schema.specs.ScalarRule.{always, is_between, is_boolean, is_number, is_string};
ghost use Rattle.gql_schema.specs.ScalarRule.{is_int32, takes_bare};
ghost use Rattle.gql_schema.specs.Table.{types_of};
ghost use Rattle.gql_fields.specs.Literals.{all_fit, bare_literal, declares, fills_field};
ghost use Rattle.gql_fields.specs.Literals.{fits_field, fits_members, fittings};
ghost use Rattle.gql_fields.specs.Literals.{has_other_number, is_oneof_type, is_single};
ghost use Rattle.gql_fields.specs.Literals.{literal_fits as fits, wants_one as asks_for_one};

use gql_base::{Pairs, TypeRef};
use gql_doc::DocValue;
use gql_schema::{
    InputObject, InputValue, NameSet, ScalarRule, SchemaType, Types, nullable, stands_at_inputs,
    type_of_items,
};

/// True exactly where a value of a document fits a type of inputs. A variable fits each.
#[cycle(fitting)]
pub fn literal_fits(value: &DocValue, ty: &TypeRef, types: &Types) -> bool
    ensures { result ≡ fits (types_of types.now) value.now ty.now }
{
    match value {
        DocValue::Variable(_) => true,
        DocValue::Null => ty.is_nullable(),
        DocValue::List(items) => match type_of_items(ty) {
            Some(item) => items_fit(items.as_slice(), item, types),
            None => fits_as_whole(types.get(ty.type_name()), value),
        },
        DocValue::Object(members) => match types.get(ty.type_name()) {
            Some(SchemaType::InputObject(input)) => members_fit(members, input, types),
            other => fits_as_whole(other, value),
        },
        DocValue::Boolean(_) | DocValue::Number(_) | DocValue::String(_) | DocValue::Enum(_) => {
            fits_as_whole(types.get(ty.type_name()), value)
        }
    }
}

#[cycle(fitting)]
fn items_fit(items: &[DocValue], item: &TypeRef, types: &Types) -> bool
    ensures { result ≡ all_fit (types_of types.now) items.now item.now }
{
    for value in items {
        if !literal_fits(value, item, types) {
            return false;
        }
    }
    true
}

/// True exactly where an object with these members fits an input object.
#[cycle(fitting)]
fn members_fit(members: &Pairs<DocValue>, input: &InputObject, types: &Types) -> bool
    ensures { result ≡ fits_members (types_of types.now) input.now members.now }
{
    if !members_are_declared(members, input, types) {
        return false;
    }
    if !fields_are_given(members, input) {
        return false;
    }
    has_its_number(members, input, types)
}

#[cycle(fitting)]
fn members_are_declared(members: &Pairs<DocValue>, input: &InputObject, types: &Types) -> bool
    ensures { result ≡ declares (types_of types.now) input.now members.now }
{
    for place in 0..members.len() {
        let (name, value) = members.at(place);
        if !member_fits(value, input.get(name), types) {
            return false;
        }
    }
    true
}

#[cycle(fitting)]
fn member_fits(value: &DocValue, declared: Option<&InputValue>, types: &Types) -> bool
    ensures { result ≡ fits_field (types_of types.now) value.now (option_copied declared.entry) }
{
    match declared {
        Some(input) => stands_at_inputs(types, input.ty())
            && literal_fits(value, input.ty(), types),
        None => false,
    }
}

/// True exactly where there are as many members as a oneof input object has: one, which isn't null.
#[cycle(fitting)]
fn has_its_number(members: &Pairs<DocValue>, input: &InputObject, types: &Types) -> bool
    ensures { result ≡ has_number input.now (fittings (types_of types.now) members.now) }
{
    if input.is_oneof() {
        is_one_member(members, input, types)
    } else {
        true
    }
}

#[cycle(fitting)]
fn is_one_member(members: &Pairs<DocValue>, input: &InputObject, types: &Types) -> bool
    ensures { result ≡ is_one input.now (fittings (types_of types.now) members.now) }
{
    if members.len() != 1 {
        return false;
    }
    let (name, value) = members.at(0);
    is_non_null_member(value, input.get(name), types)
}

#[cycle(fitting)]
fn is_non_null_member(value: &DocValue, declared: Option<&InputValue>, types: &Types) -> bool
    ensures { result ≡ fills_field (types_of types.now) value.now (option_copied declared.entry) }
{
    match declared {
        Some(input) => match value {
            DocValue::Null => false,
            DocValue::Variable(_)
            | DocValue::Boolean(_)
            | DocValue::Number(_)
            | DocValue::String(_)
            | DocValue::Enum(_)
            | DocValue::List(_)
            | DocValue::Object(_) => literal_fits(value, input.ty(), types),
        },
        None => false,
    }
}

/// True exactly where each field that can't be left out is among the members.
fn fields_are_given(members: &Pairs<DocValue>, input: &InputObject) -> bool
    ensures { result ≡ are_given input.now members.now }
{
    for place in 0..input.len() {
        let (name, field) = input.entry(place);
        if !field_is_given(members, name, field) {
            return false;
        }
    }
    true
}

fn field_is_given(members: &Pairs<DocValue>, name: &str, field: &InputValue) -> bool
    ensures { result ≡ is_given members.now (name.now, field.now) }
{
    field.ty().is_nullable() || field.default().is_some() || members.get(name).is_some()
}

/// True exactly where a value other than null or a variable fits a type that takes values whole.
fn fits_as_whole(ty: Option<&SchemaType>, value: &DocValue) -> bool
    ensures { result ≡ fits_whole (option_copied ty.entry) (bare_literal value.now) }
{
    match ty {
        Some(SchemaType::Scalar(scalar)) => takes(scalar.taking(), value),
        Some(SchemaType::Enum(items)) => is_item_of(items.items(), value),
        _ => false,
    }
}

fn is_item_of(items: &NameSet, value: &DocValue) -> bool
    ensures { result ≡ is_item items.now (bare_literal value.now) }
{
    match value {
        DocValue::String(text) => items.has(text.as_str()),
        DocValue::Enum(name) => items.has(name.as_str()),
        _ => false,
    }
}

/// True exactly where a scalar of this rule takes a value other than a variable.
fn takes(rule: &ScalarRule, value: &DocValue) -> bool
    ensures { result ≡ takes_bare rule.now (bare_literal value.now) }
{
    match rule {
        ScalarRule::Any => true,
        ScalarRule::Bool => is_boolean_literal(value),
        ScalarRule::Int => is_small_number(value),
        ScalarRule::Text => is_any_string(value),
        ScalarRule::Id => is_any_string(value) || is_any_number(value),
        ScalarRule::IntBetween(least, most) => is_within(value, *least, *most),
        ScalarRule::OneOf(texts) => is_listed(value, texts),
    }
}

fn is_boolean_literal(value: &DocValue) -> bool
    ensures { result ≡ is_boolean (bare_literal value.now) }
{
    matches!(value, DocValue::Boolean(_))
}

fn is_any_string(value: &DocValue) -> bool
    ensures { result ≡ is_string always (bare_literal value.now) }
{
    matches!(value, DocValue::String(_))
}

fn is_any_number(value: &DocValue) -> bool
    ensures { result ≡ is_number always (bare_literal value.now) }
{
    matches!(value, DocValue::Number(_))
}

/// True exactly where the value is a whole number of 32 bits with a sign.
#[tactic(auto, using(gql_base::proofs::NumberLemmas::int32_there))]
fn is_small_number(value: &DocValue) -> bool
    ensures { result ≡ is_number is_int32 (bare_literal value.now) }
{
    match value {
        DocValue::Number(number) => number.as_i32().is_some(),
        _ => false,
    }
}

/// True exactly where the value is a whole number from the first to the second.
fn is_within(value: &DocValue, least: i64, most: i64) -> bool
    ensures { result ≡ is_number (is_between least most) (bare_literal value.now) }
{
    match value {
        DocValue::Number(number) => match number.as_i64() {
            Some(whole) => least <= whole && whole <= most,
            None => false,
        },
        _ => false,
    }
}

/// True exactly where the value is one of these strings.
fn is_listed(value: &DocValue, texts: &NameSet) -> bool
    ensures { result ≡ is_string (λ text. is_among text texts.now) (bare_literal value.now) }
{
    match value {
        DocValue::String(text) => texts.has(text.as_str()),
        _ => false,
    }
}

/// True exactly where a type is a oneof input object, non-null or not.
pub fn wants_one(ty: &TypeRef, types: &Types) -> bool
    ensures { result ≡ asks_for_one (types_of types.now) ty.now }
{
    match nullable(ty) {
        TypeRef::Named(name) => is_oneof(types.get(name.as_str())),
        _ => false,
    }
}

fn is_oneof(ty: Option<&SchemaType>) -> bool
    ensures { result ≡ is_oneof_type (option_copied ty.entry) }
{
    match ty {
        Some(SchemaType::InputObject(input)) => input.is_oneof(),
        _ => false,
    }
}

/// True exactly where a value is an object without exactly one member.
pub fn is_other_than_one(value: &DocValue) -> bool
    ensures { result ≡ has_other_number value.now }
{
    match value {
        DocValue::Object(members) => !has_one(members),
        _ => false,
    }
}

#[tactic(auto, using(crate::proofs::LiteralLemmas::one_or_other_length))]
fn has_one(members: &Pairs<DocValue>) -> bool
    ensures { result ≡ is_single members.now }
{
    if members.len() == 1 { true } else { false }
}
