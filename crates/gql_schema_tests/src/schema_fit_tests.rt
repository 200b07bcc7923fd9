//! What a type of inputs is of, where types stand, and which values fit.
use crate::schema_sample::table;
use gql_base::{Made, Name, TypeRef, Value};
use gql_schema::{
    Scalar, SchemaType, Types, nullable, stands_at_inputs, type_of_items, value_fits,
};
use std::alloc::Global;
use std::test::Fail;

/// Whether the items of a list have this type, or a type has none where that is `none`.
fn has_items(alloc: Global, ty: TypeRef, text: &str) -> Made<bool> {
    match type_of_items(&ty) {
        Some(item) => Ok(item.text(alloc)?.as_str() == text),
        None => Ok(text == "none"),
    }
}

/// Whether this is a type without its outermost non-null.
fn is_nullable_as(alloc: Global, ty: TypeRef, text: &str) -> Made<bool> {
    Ok(nullable(&ty).text(alloc)?.as_str() == text)
}

#[test]
fn what_lists_and_non_nulls_are_of(rt: HostRuntime) -> Result<(), Fail> {
    let alloc = rt.alloc();
    assert!(rt; has_items(alloc, TypeRef::named(alloc, "Int")?, "none")?);
    assert!(rt; has_items(alloc, TypeRef::named_nn_list_nn(alloc, "Int")?, "Int!")?);
    assert!(rt; is_nullable_as(alloc, TypeRef::named(alloc, "Int")?, "Int")?);
    assert!(rt; is_nullable_as(alloc, TypeRef::named_nn_list_nn(alloc, "Int")?, "[Int!]")?);
    Ok(())
}

/// A table with a type of each kind, and a scalar of a name that no type may have.
fn table_with_float(alloc: Global) -> Made<Types> {
    let mut types = table(alloc)?;
    types.register(alloc, SchemaType::Scalar(Scalar::new(alloc, "Float")?))?;
    Ok(types)
}

/// The first name of a table whose type stands at inputs and shouldn't, or the other way round.
fn first_wrong(
    alloc: Global,
    types: &Types,
    rows: &[(&'static str, bool)],
) -> Made<Option<&'static str>> {
    for (name, expected) in rows {
        let ty = TypeRef::named(alloc, *name)?;
        if stands_at_inputs(types, &ty) != *expected {
            return Ok(Some(*name));
        }
    }
    Ok(None)
}

#[test]
fn some_kinds_stand_at_inputs(rt: HostRuntime) -> Result<(), Fail> {
    let types = table_with_float(rt.alloc())?;
    let rows = [("E", true), ("O", false), ("Float", false), ("Nope", false)];
    assert!(rt; first_wrong(rt.alloc(), &types, &rows)? == None);
    Ok(())
}

/// Whether the item `A` of the enum fits a type.
fn fits(alloc: Global, types: &Types, ty: TypeRef) -> Made<bool> {
    let value = Value::Enum(Name::new(alloc, "A")?);
    Ok(value_fits(&value, &ty, types))
}

#[test]
fn values_fit_types(rt: HostRuntime) -> Result<(), Fail> {
    let types = table(rt.alloc())?;
    assert!(rt; fits(rt.alloc(), &types, TypeRef::named_list(rt.alloc(), "E")?)?);
    assert!(rt; !fits(rt.alloc(), &types, TypeRef::named(rt.alloc(), "D")?)?);
    Ok(())
}
