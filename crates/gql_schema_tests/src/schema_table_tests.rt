//! Tables of types, called as their users call them.
use crate::schema_sample::table;
use gql_base::{Copied, Items, Made, Name, TypeRef};
use gql_schema::{
    ByName, Field, InputObject, InputValue, NameSet, Object, Same, SchemaType, Types,
    component_numbers, rank_at,
};
use std::alloc::Global;
use std::test::Fail;

/// Whether a table is refused by this rule with this text.
fn is_refused(alloc: Global, types: Types, rule: u8, text: &str) -> Made<bool> {
    match types.finish(alloc)? {
        Ok(_) => Ok(false),
        Err(error) => Ok(error.rule == rule && error.text.as_str() == text),
    }
}

/// The name of the input object of this number.
fn link_name(alloc: Global, number: usize) -> Made<String> {
    format!(in alloc; "I{number}")
}

/// A field of the type of the input object of this number.
fn link_field(alloc: Global, number: usize) -> Made<InputValue> {
    let name = link_name(alloc, number)?;
    InputValue::new(alloc, "next", TypeRef::named_nn(alloc, name.as_str())?)
}

/// The input object of this number, with a field of the type of the next one.
fn link(alloc: Global, number: usize, next: usize) -> Made<InputObject> {
    let name = link_name(alloc, number)?;
    let field = link_field(alloc, next)?;
    InputObject::new(alloc, name.as_str())?.field(alloc, field)
}

/// Twenty thousand input objects, of which each needs the next one, and the last the one at ten
/// thousand.
fn long_circle(alloc: Global) -> Made<Types> {
    let mut types = Types::new(alloc);
    for number in 0..20000usize {
        let next = if number == 19999 { 10000 } else { number + 1 };
        types.register(alloc, SchemaType::InputObject(link(alloc, number, next)?))?;
    }
    Ok(types)
}

#[test]
fn a_long_circle_is_refused_at_its_first(rt: HostRuntime) -> Result<(), Fail> {
    let text = "Input object \"I10000\" contains itself";
    let types = long_circle(rt.alloc())?;
    assert!(rt; is_refused(rt.alloc(), types, 7, text)?);
    Ok(())
}

/// The list of these places.
fn places(alloc: Global, places: &[usize]) -> Made<Items<usize>> {
    let mut list = Items::new(alloc);
    for place in places {
        list.push(*place)?;
    }
    Ok(list)
}

/// The numbers of a graph whose place 0 leads to 1 and 2, and 1 to 2.
fn numbers(alloc: Global) -> Made<Vec<usize>> {
    let mut graph = Vec::new(alloc);
    graph.push(places(alloc, &[1, 2])?)?;
    graph.push(places(alloc, &[2])?)?;
    graph.push(places(alloc, &[])?)?;
    component_numbers(alloc, graph.as_slice())
}

/// Whether the numbers fall along the graph.
fn numbers_fall(alloc: Global) -> Made<bool> {
    let numbers = numbers(alloc)?;
    let ranks = numbers.as_slice();
    Ok(rank_at(ranks, 0) == 3 && rank_at(ranks, 1) == 2 && rank_at(ranks, 2) == 1)
}

#[test]
fn places_of_a_graph_are_numbered(rt: HostRuntime) -> Result<(), Fail> {
    assert!(rt; numbers_fall(rt.alloc())?);
    Ok(())
}

/// An object with one field of the type `Int`, of the resolver 7.
fn object(alloc: Global, name: &str, field: &str) -> Made<Object> {
    let field = Field::new(alloc, field, TypeRef::named(alloc, "Int")?, 7)?;
    Object::new(alloc, name)?.field(alloc, field)
}

/// A table to which a second object of the first one's name was given last.
fn replaced(alloc: Global) -> Made<Types> {
    let mut types = Types::new(alloc);
    for (name, field) in &[("Query", "a"), ("Other", "b"), ("Query", "c")] {
        types.register(alloc, SchemaType::Object(object(alloc, *name, *field)?))?;
    }
    Ok(types)
}

/// The number of the resolver of a field of the object `Query`.
fn resolver_of(types: &Types, field: &str) -> Option<u32> {
    match types.get("Query") {
        Some(SchemaType::Object(object)) => Some(object.get(field)?.resolver()),
        _ => None,
    }
}

/// Whether the table has two types, of which the first is the second object `Query`.
fn is_replaced(types: &Types) -> bool {
    types.len() == 2 && types.at(0).name() == "Query" && resolver_of(types, "c") == Some(7)
}

#[test]
fn the_last_type_of_a_name_stands(rt: HostRuntime) -> Result<(), Fail> {
    let types = replaced(rt.alloc())?;
    assert!(rt; is_replaced(&types));
    Ok(())
}

/// The number of a field's resolver, or none where there is no such field.
fn number_at(types: &Types, type_name: &str, field_name: &str) -> Option<u32> {
    types.field(type_name, field_name)?.number
}

/// Whether fields are found in the table under their types, where these have fields.
fn has_fields(types: &Types) -> bool {
    number_at(types, "O", "f") == Some(7) && types.field("U", "f").is_none()
}

/// Whether the interface and the union of the table cover its object, and nothing else does.
fn covers_its_object(types: &Types) -> bool {
    let is_covered = types.covers(Some("I"), "O") && types.is_possible("U", "O");
    is_covered && !types.covers(Some("S"), "O") && !types.is_possible("U", "U")
}

/// Whether the object of the table is the only one that is possible for the union.
fn has_one_possible(alloc: Global, types: &Types) -> Made<bool> {
    let possible = types.possible(alloc, "U")?;
    Ok(possible.has("O") && possible.len() == 1)
}

/// Whether the object of the table is its only entity.
fn has_one_entity(alloc: Global, types: &Types) -> Made<bool> {
    let names = types.entities(alloc)?;
    Ok(types.has_entities() && names.len() == 1 && names.has("O"))
}

#[test]
fn a_table_tells_fields_and_objects(rt: HostRuntime) -> Result<(), Fail> {
    let types = table(rt.alloc())?;
    assert!(rt; has_fields(&types));
    assert!(rt; covers_its_object(&types));
    assert!(rt; has_one_possible(rt.alloc(), &types)?);
    assert!(rt; has_one_entity(rt.alloc(), &types)?);
    Ok(())
}

/// Whether the table has nine types, of which `_Entity` is the union of its object.
fn has_entity_types(types: &Types) -> bool {
    match types.get("_Entity") {
        Some(SchemaType::Union(members)) => types.len() == 9 && members.members().has("O"),
        _ => false,
    }
}

fn is_sound(alloc: Global, types: Types) -> Made<bool> {
    Ok(types.finish(alloc)?.is_ok())
}

#[test]
fn entities_have_two_types(rt: HostRuntime) -> Result<(), Fail> {
    let types = table(rt.alloc())?.with_entities(rt.alloc())?;
    assert!(rt; has_entity_types(&types));
    assert!(rt; is_sound(rt.alloc(), types)?);
    Ok(())
}

/// A set to which one name was added twice.
fn one_name(alloc: Global) -> Made<NameSet> {
    let mut names = NameSet::new(alloc);
    names.add_fresh(Name::new(alloc, "A")?)?;
    names.add(Name::new(alloc, "A")?)?;
    Ok(names)
}

fn names_are_read(alloc: Global) -> Made<bool> {
    let names = one_name(alloc)?;
    let copy = names.try_clone(alloc)?;
    Ok(names.len() == 1 && names.at(0) == "A" && names.same(&copy))
}

/// An item of a named type.
fn item(alloc: Global, name: &str, ty: &str) -> Made<InputValue> {
    InputValue::new(alloc, name, TypeRef::named(alloc, ty)?)
}

/// The items `a` and `b`, of which `a` was put again last.
fn two_items(alloc: Global) -> Made<ByName<InputValue>> {
    let mut items = ByName::new(alloc);
    items.add(alloc, item(alloc, "a", "Int")?)?;
    items.put(alloc, item(alloc, "b", "ID")?)?;
    items.put(alloc, item(alloc, "a", "String")?)?;
    Ok(items)
}

/// Whether an item of this name and this type stands at a place.
fn has_item(items: &ByName<InputValue>, place: usize, name: &str, ty: &str) -> bool {
    if place >= items.len() {
        return false;
    }
    let (own, item) = items.at(place);
    let is_found = items.place_of(name) == Some(place) && items.get(name).is_some();
    own == name && item.ty().type_name() == ty && is_found
}

fn items_are_read(alloc: Global) -> Made<bool> {
    let items = two_items(alloc)?;
    let both = has_item(&items, 0, "a", "String") && has_item(&items, 1, "b", "ID");
    Ok(both && items.len() == 2)
}

#[test]
fn what_has_a_name_stands_once(rt: HostRuntime) -> Result<(), Fail> {
    assert!(rt; names_are_read(rt.alloc())?);
    assert!(rt; items_are_read(rt.alloc())?);
    Ok(())
}
