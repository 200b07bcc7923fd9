//! Each public call with ample memory. What a test looks at is made by small functions beside it,
//! since a test is proved too.
ghost use Rattle.std.specs.Prelude.{◌≡◌, [], ◌∷◌, IfOk};

use gql_base::{Copied, Items, Made, Number, PathSegment, Text, Value};
use gql_request::{
    Data, DataKey, HeaderOp, Hooks, IntrospectionMode, NoData, Parents, QueryPathNode,
};
use http_header::{HeaderName, HeaderValue};
use std::alloc::Global;
use std::test::Fail;

fn number(number: u64) -> Value {
    Value::Number(Number::from_u64(number))
}

/// The number under a key.
fn number_under(data: &Data, key: u32) -> Option<u64> {
    match data.get(DataKey(key)) {
        Some(Value::Number(number)) => number.as_u64(),
        _ => None,
    }
}

/// Data of these keys and numbers.
fn data_of(alloc: Global, pairs: &[(u32, u64)]) -> Made<Data> {
    let mut data = Data::new(alloc);
    for (key, value) in pairs {
        data.insert(DataKey(*key), number(*value))?;
    }
    Ok(data)
}

#[test]
fn data_keep_one_value_a_key(rt: HostRuntime) -> Result<(), Fail> {
    assert!(rt; Data::new(rt.alloc()).is_empty());
    let data = data_of(rt.alloc(), &[(7, 1), (4, 2), (7, 3)])?;
    assert!(rt; !data.is_empty());
    assert!(rt; number_under(&data, 7) == Some(3));
    assert!(rt; number_under(&data, 4) == Some(2));
    assert!(rt; number_under(&data, 5) == None);
    Ok(())
}

/// Whether data equal those of these keys and numbers.
fn is_data_of(alloc: Global, data: &Data, pairs: &[(u32, u64)]) -> Made<bool> {
    let other = data_of(alloc, pairs)?;
    Ok(data.equals(&other))
}

/// Whether a copy of data equals them.
fn equals_its_copy(alloc: Global, data: &Data) -> Made<bool> {
    let copy = data.try_clone(alloc)?;
    Ok(copy == *data)
}

/// Data of the first pairs, with those of the second merged into them.
fn merged(alloc: Global, first: &[(u32, u64)], second: &[(u32, u64)]) -> Made<Data> {
    let mut data = data_of(alloc, first)?;
    data.merge(data_of(alloc, second)?)?;
    Ok(data)
}

/// The pairs 7: 1 and 4: 2, with 5: 4 and 7: 3 merged into them.
fn merged_pairs(alloc: Global) -> Made<Data> {
    merged(alloc, &[(7, 1), (4, 2)], &[(5, 4), (7, 3)])
}

#[test]
fn merged_data_are_equal_pair_by_pair(rt: HostRuntime) -> Result<(), Fail> {
    let data = merged_pairs(rt.alloc())?;
    assert!(rt; equals_its_copy(rt.alloc(), &data)?);
    assert!(rt; is_data_of(rt.alloc(), &data, &[(7, 3), (4, 2), (5, 4)])?);
    assert!(rt; !is_data_of(rt.alloc(), &data, &[(4, 2), (7, 3), (5, 4)])?);
    Ok(())
}

/// The path `hero.friends.1.name`.
fn path(alloc: Global) -> Made<[PathSegment; 4]> {
    Ok([
        PathSegment::Field(Text::new(alloc, "hero")?),
        PathSegment::Field(Text::new(alloc, "friends")?),
        PathSegment::Index(1),
        PathSegment::Field(Text::new(alloc, "name")?),
    ])
}

/// Whether a place has this text.
fn has_text(alloc: Global, node: QueryPathNode<'_>, text: &str) -> Made<bool> {
    Ok(node.text(alloc)?.as_str() == text)
}

/// Whether the segments of a place have four texts, the third of them `1`.
fn has_four_texts(alloc: Global, node: QueryPathNode<'_>) -> Made<bool> {
    let texts = node.to_string_vec(alloc)?;
    match texts.get(2) {
        Some(text) => Ok(texts.len() == 4 && text.as_str() == "1"),
        None => Ok(false),
    }
}

/// Whether the next parent has this text, and is the current place then.
fn next_has_text(alloc: Global, parents: &mut Parents<'_>, text: &str) -> Made<bool> {
    match parents.next() {
        Some(parent) => {
            Ok(has_text(alloc, parent, text)? && has_text(alloc, parents.current(), text)?)
        }
        None => Ok(false),
    }
}

/// Whether the parents of a place are three, from the innermost on.
fn has_three_parents(alloc: Global, node: QueryPathNode<'_>) -> Made<bool> {
    let mut parents = node.parents();
    for text in &["hero.friends.1", "hero.friends", "hero"] {
        if !next_has_text(alloc, &mut parents, text)? {
            return Ok(false);
        }
    }
    Ok(parents.next().is_none())
}

#[test]
fn paths_and_their_parents(rt: HostRuntime) -> Result<(), Fail> {
    let segments = path(rt.alloc())?;
    let node = QueryPathNode {
        segments: &segments,
    };
    assert!(rt; has_text(rt.alloc(), node, "hero.friends.1.name")?);
    assert!(rt; has_four_texts(rt.alloc(), node)?);
    assert!(rt; has_three_parents(rt.alloc(), node)?);
    Ok(())
}

/// The path of one key.
fn one_key(alloc: Global, key: &str) -> Made<Items<PathSegment>>
    ensures { IfOk result (λ segments. segments ≡ PathSegment.Field key.now ∷ []) }
{
    let mut segments = Items::new(alloc);
    segments.push(PathSegment::Field(Text::new(alloc, key)?))?;
    Ok(segments)
}

#[test]
fn the_innermost_key(rt: HostRuntime) -> Result<(), Fail> {
    let segments = one_key(rt.alloc(), "name")?;
    let node = QueryPathNode {
        segments: segments.as_slice(),
    };
    assert!(rt; node.field_name() == "name");
    Ok(())
}

/// Whether an operation adds the value 1 to the header x-a.
fn is_expected(op: &HeaderOp) -> bool {
    match op {
        HeaderOp::Append(name, value) => name.as_str() == "x-a" && value.len() == 1,
        HeaderOp::Insert(_, _) => false,
    }
}

fn copied(alloc: Global, op: &HeaderOp) -> Made<bool> {
    let copy = op.try_clone(alloc)?;
    Ok(is_expected(&copy))
}

#[test]
fn header_operations_and_hooks(rt: HostRuntime) -> Result<(), Fail> {
    let alloc = rt.alloc();
    let op = HeaderOp::Append(
        HeaderName::from_static("x-a"),
        HeaderValue::from_static("1"),
    );
    assert!(rt; copied(alloc, &op)?);
    let _hooks = Hooks::none(alloc);
    assert!(rt; IntrospectionMode::default() == IntrospectionMode::Enabled);
    Ok(())
}

fn is_send_sync<T: Send + Sync>() {}

#[test]
fn types_can_be_shared() {
    is_send_sync::<Data>();
    is_send_sync::<DataKey>();
    is_send_sync::<HeaderOp>();
    is_send_sync::<IntrospectionMode>();
    is_send_sync::<NoData>();
    is_send_sync::<Parents<'static>>();
    is_send_sync::<QueryPathNode<'static>>();
}
