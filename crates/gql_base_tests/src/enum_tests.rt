//! Enums of values that names stand for.
use crate::input_error_tests::message_of;
use crate::input_type_tests::{heart, is_qualified, named, shown};
use gql_base::{Made, Name, Text, Value, literal_of};
use gql_input::{
    EnumItem, EnumType, InputType, InputValueResult, enum_value, parse_enum, parse_enum_named,
};
use std::alloc::Global;
use std::test::Fail;

/// Two colours.
#[derive(Clone, Copy, PartialEq, Eq)]
pub(crate) enum Colour {
    Red,
    Green,
}

const COLOURS: [EnumItem<Colour>; 2] = [
    EnumItem {
        name: "RED",
        value: Colour::Red,
    },
    EnumItem {
        name: "GREEN",
        value: Colour::Green,
    },
];

impl EnumType for Colour {
    ghost use Rattle.std.specs.Prelude.{[], ◌∷◌, codes};
    ghost use Rattle.gql_base_tests.specs.declared.enum_tests.Colour.TheVariants.{Red};
    ghost use Rattle.gql_base_tests.specs.declared.enum_tests.Colour.TheVariants.{Green};

    ghost listed = { (codes "RED", Red) ∷ (codes "GREEN", Green) ∷ [] };

    fn items() -> &'static [EnumItem<Colour>] {
        &COLOURS
    }
}

impl InputType for Colour {
    ghost use Rattle.std.specs.Prelude.{[], ◌∷◌, Some, codes};
    ghost use Rattle.gql_base.specs.declared.value.Value.TheVariants as value;
    ghost use Rattle.gql_base_tests.specs.declared.enum_tests.Colour.{Colour as OneColour};
    ghost use Rattle.gql_base_tests.specs.declared.enum_tests.Colour.TheVariants.{Red};
    ghost use Rattle.gql_base_tests.specs.declared.enum_tests.Colour.TheVariants.{Green};
    ghost use Rattle.gql_input.specs.EnumType.{read_enum};
    ghost use Rattle.gql_input.specs.InputType.{or_null};

    type RawValueType = Colour;

    ghost name = { codes "Colour" };

    ghost qualified = { codes "Colour!" };

    ghost read = { λ given. read_enum (codes "Colour") ((codes "RED", Red) ∷ (codes "GREEN", Green)
        ∷ []) (or_null given) };

    ghost shown = { elim [ Red ↦ value.Enum (codes "RED") | Green ↦ value.Enum (codes "GREEN") ] };

    ghost raw = { λ colour. Some colour };

    fn type_name() -> &'static str {
        "Colour"
    }

    fn qualified_type_name(alloc: Global) -> Made<Text> {
        Text::new(alloc, "Colour!")
    }

    fn parse(alloc: Global, value: Option<Value>) -> Made<InputValueResult<Colour>> {
        parse_enum_named(alloc, "Colour", value.unwrap_or(Value::Null))
    }

    fn to_value(&self, alloc: Global) -> Made<Value> {
        enum_value(alloc, *self)
    }

    fn as_raw_value(&self) -> Option<&Colour> {
        Some(self)
    }
}

/// The colour that a value gives, or the message of its refusal.
fn read(alloc: Global, value: Value) -> Made<Result<Colour, Text>> {
    match parse_enum::<Colour>(alloc, value)? {
        Ok(colour) => Ok(Ok(colour)),
        Err(error) => Ok(Err(message_of(alloc, error)?)),
    }
}

/// Whether a name gives this colour, or none.
fn gives(alloc: Global, name: &str, colour: Option<Colour>) -> Made<bool> {
    Ok(read(alloc, Value::Enum(Name::new(alloc, name)?))?.ok() == colour)
}

#[test]
fn colours_of_names(rt: HostRuntime) -> Result<(), Fail> {
    assert!(rt; gives(rt.alloc(), "RED", Some(Colour::Red))?);
    assert!(rt; gives(rt.alloc(), "GREEN", Some(Colour::Green))?);
    assert!(rt; gives(rt.alloc(), "BLUE", None)?);
    Ok(())
}

/// The literal of the value that stands for a colour.
fn literal(alloc: Global, colour: Colour) -> Made<Text> {
    let value = enum_value(alloc, colour)?;
    literal_of(alloc, &value)
}

/// Whether a colour is the value of this name, by each of its calls, and is its own heart.
fn stands(alloc: Global, colour: Colour, name: &str) -> Made<bool> {
    let is_named = literal(alloc, colour)?.as_str() == name;
    let is_shown = shown(alloc, &colour)?.as_str() == name;
    Ok(is_named && is_shown && heart(&colour) == Some(colour))
}

#[test]
fn values_of_colours(rt: HostRuntime) -> Result<(), Fail> {
    assert!(rt; stands(rt.alloc(), Colour::Red, "RED")?);
    assert!(rt; stands(rt.alloc(), Colour::Green, "GREEN")?);
    Ok(())
}

#[test]
fn names_of_the_type(rt: HostRuntime) -> Result<(), Fail> {
    assert!(rt; named::<Colour>() == "Colour");
    assert!(rt; is_qualified::<Colour>(rt.alloc(), "Colour!")?);
    Ok(())
}
