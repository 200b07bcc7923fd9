//! Printed texts of small places and of a response of one. Each public call is called with ample
//! memory.
use gql_base::{
    Copied, Error, Items, Made, Name, Number, Pairs, Pos, Text, Value, json_of, push_errors,
};
use gql_exec::response_at;
use gql_place::{Piece, Pieces, Place, Tree, faults, header_ops, join, raise};
use gql_request::HeaderOp;
use http_header::{HeaderName, HeaderValue};
use std::alloc::Global;
use std::test::Fail;

/// An error beside a list, and that of its first item.
const TWO_ERRORS: &str =
    r#"[{"message":"beside","locations":[{"line":1,"column":3}],"path":["values"]},{"message":"bad","locations":[{"line":1,"column":3}],"path":["values",0]}]"#;

/// The response of an object whose list has a failed item.
const ONE_ERROR: &str =
    r#"{"data":{"values":null},"errors":[{"message":"bad","locations":[{"line":1,"column":3}],"path":["values",0]}]}"#;

/// A place that may be null.
fn place(alloc: Global, tree: Tree) -> Place {
    Place {
        pos: Pos { line: 1, column: 3 },
        non_null: false,
        added: Items::new(alloc),
        headers: Items::new(alloc),
        tree,
    }
}

fn leaf(alloc: Global, number: i64) -> Place {
    place(alloc, Tree::Leaf(Value::Number(Number::from_i64(number))))
}

/// A failed place that may not be null.
fn failed(alloc: Global) -> Made<Place> {
    let mut failed = place(alloc, Tree::Fault(Error::new(alloc, "bad")?));
    failed.non_null = true;
    Ok(failed)
}

/// An object of numbers under their names.
fn object(alloc: Global, members: &[(&str, i64)]) -> Made<Place> {
    let mut places = Pairs::new(alloc);
    for member in members {
        places.add(Name::new(alloc, member.0)?, leaf(alloc, member.1))?;
    }
    Ok(place(alloc, Tree::Object(places)))
}

/// An object of one member.
fn around(alloc: Global, key: &str, member: Place) -> Made<Place> {
    let mut places = Pairs::new(alloc);
    places.add(Name::new(alloc, key)?, member)?;
    Ok(place(alloc, Tree::Object(places)))
}

/// A list of one item.
fn list(alloc: Global, item: Place) -> Made<Place> {
    let mut items = Items::new(alloc);
    items.push(item)?;
    Ok(place(alloc, Tree::List(items)))
}

/// The place with one more header.
fn with_header(place: Place) -> Made<Place> {
    let mut place = place;
    let name = HeaderName::from_static("x-told");
    let value = HeaderValue::from_static("1");
    place.headers.push(HeaderOp::Insert(name, value))?;
    Ok(place)
}

/// The place with one more error beside it, and one header.
fn told(alloc: Global, place: Place) -> Made<Place> {
    let mut place = place;
    place.added.push(Error::new(alloc, "beside")?)?;
    with_header(place)
}

fn data(alloc: Global, place: &Place) -> Made<Text> {
    let value = raise(alloc, place)?;
    json_of(alloc, &value)
}

/// The errors of a response as JSON.
fn errors(alloc: Global, place: &Place) -> Made<String> {
    let errors = faults(alloc, place)?;
    let mut out = String::new(alloc);
    push_errors(&mut out, errors.as_slice())?;
    Ok(out)
}

/// The number of header operations of a response.
fn header_count(alloc: Global, place: &Place) -> Made<usize> {
    Ok(header_ops(alloc, place)?.len())
}

/// What is kept of two items, and then of their list.
fn kept_list(alloc: Global, first: Place, second: Place) -> Made<Place> {
    let mut items = Pieces::with_capacity(alloc, false, 2)?;
    items.push(alloc, Piece::new(alloc, false, first)?)?;
    items.push(alloc, Piece::new(alloc, false, second)?)?;
    let tree = items.into_list(alloc, false)?;
    Ok(Piece::new(alloc, false, place(alloc, tree))?.into_place(alloc))
}

/// Whether all that is kept of a place is its data.
fn is_data(place: &Place) -> bool {
    matches!(&place.tree, Tree::Leaf(_))
}

fn joined_objects(alloc: Global) -> Made<Place> {
    let first = object(alloc, &[("a", 1)])?;
    join(alloc, first, object(alloc, &[("a", 2), ("b", 3)])?)
}

/// Whether a place has this data.
fn has_data(alloc: Global, place: &Place, wanted: &str) -> Made<bool> {
    Ok(data(alloc, place)?.as_str() == wanted)
}

#[test]
fn places_are_joined(rt: HostRuntime) -> Result<(), Fail> {
    let joined = joined_objects(rt.alloc())?;
    assert!(rt; has_data(rt.alloc(), &joined, r#"{"a":1,"b":3}"#)?);
    Ok(())
}

/// An object whose list has a failed item.
fn failed_list(alloc: Global) -> Made<Place> {
    let values = list(alloc, failed(alloc)?)?;
    around(alloc, "values", values)
}

/// The same with an error beside the list, and a header.
fn told_list(alloc: Global) -> Made<Place> {
    let values = list(alloc, failed(alloc)?)?;
    around(alloc, "values", told(alloc, values)?)
}

/// Whether a place has these errors, and a header.
fn tells(alloc: Global, place: &Place, wanted: &str) -> Made<bool> {
    let count = header_count(alloc, place)?;
    let told = errors(alloc, place)?;
    Ok(count == 1 && told.as_str() == wanted)
}

#[test]
fn a_failed_item_makes_its_list_null(rt: HostRuntime) -> Result<(), Fail> {
    let place = told_list(rt.alloc())?;
    assert!(rt; has_data(rt.alloc(), &place, r#"{"values":null}"#)?);
    assert!(rt; tells(rt.alloc(), &place, TWO_ERRORS)?);
    Ok(())
}

/// The JSON of the response of a place.
fn response_json(alloc: Global, place: Place) -> Made<Text> {
    response_at(alloc, place)?.json(alloc)
}

#[test]
fn the_response_of_a_place(rt: HostRuntime) -> Result<(), Fail> {
    let json = response_json(rt.alloc(), failed_list(rt.alloc())?)?;
    assert!(rt; json.as_str() == ONE_ERROR);
    Ok(())
}

#[test]
fn of_items_without_errors_data_is_kept(rt: HostRuntime) -> Result<(), Fail> {
    let list = kept_list(rt.alloc(), leaf(rt.alloc(), 1), leaf(rt.alloc(), 2))?;
    assert!(rt; is_data(&list));
    assert!(rt; has_data(rt.alloc(), &list, "[1,2]")?);
    Ok(())
}

/// The copy of an object that has an error beside it and a header.
fn copied(alloc: Global) -> Made<Place> {
    let response = told(alloc, object(alloc, &[("a", 1)])?)?;
    response.try_clone(alloc)
}

#[test]
fn a_copy_is_told_like_its_source(rt: HostRuntime) -> Result<(), Fail> {
    let copy = copied(rt.alloc())?;
    assert!(rt; has_data(rt.alloc(), &copy, r#"{"a":1}"#)?);
    Ok(())
}
