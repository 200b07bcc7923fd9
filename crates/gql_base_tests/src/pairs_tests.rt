//! Tests of names and pairs past the few that are searched in order, and of what is lent to be
//! changed.
use crate::tests::copies;
use gql_base::{Items, Made, Name, Names, Pairs, Value, Variables};
use std::alloc::Global;
use std::test::Fail;

const TEN: [(&str, i64); 10] = [
    ("a", 1),
    ("b", 2),
    ("c", 3),
    ("d", 4),
    ("e", 5),
    ("f", 6),
    ("g", 7),
    ("h", 8),
    ("i", 9),
    ("j", 10),
];

/// Ten numbers under the names from "a" to "j".
fn ten(alloc: Global) -> Made<Pairs<i64>> {
    let mut pairs = Pairs::with_capacity(alloc, 4)?;
    for (name, number) in &TEN {
        pairs.add(Name::new(alloc, name)?, *number)?;
    }
    Ok(pairs)
}

/// Ten numbers, of which one was set anew where there was room for more.
fn ten_again(alloc: Global) -> Made<Pairs<i64>> {
    let mut pairs = ten(alloc)?;
    pairs.reserve(3)?;
    pairs.add(Name::new(alloc, "c")?, 30)?;
    Ok(pairs)
}

#[test]
fn ten_pairs(rt: HostRuntime) -> Result<(), Fail> {
    let pairs = ten_again(rt.alloc())?;
    assert!(rt; !pairs.is_empty());
    assert!(rt; pairs.get("c").copied() == Some(30));
    assert!(rt; copies(rt.alloc(), &pairs)?);
    Ok(())
}

fn ten_names(alloc: Global) -> Made<(Names, Vec<i64>)> {
    Ok(ten(alloc)?.into_parts())
}

#[test]
fn parts(rt: HostRuntime) -> Result<(), Fail> {
    let alloc = rt.alloc();
    let (mut names, numbers) = ten_names(alloc)?;
    names.reserve(1)?;
    assert!(rt; numbers.len() == 10 && names.len() == 10 && names.at(9) == "j");
    assert!(rt; names.place_of("j") == Some(9));
    assert!(rt; copies(alloc, &names)?);
    Ok(())
}

/// Doubles the number under a name, and the number at a place.
fn doubled(pairs: &mut Pairs<i64>, name: &str, place: usize) {
    if let Some(number) = pairs.get_mut(name) {
        *number = number.wrapping_mul(2);
    }
    if place < pairs.len() {
        let number = pairs.at_mut(place);
        *number = number.wrapping_mul(2);
    }
}

#[test]
fn changed_pairs(rt: HostRuntime) -> Result<(), Fail> {
    let alloc = rt.alloc();
    let mut pairs = Pairs::new(alloc);
    pairs.add(Name::new(alloc, "a")?, 3)?;
    pairs.add(Name::new(alloc, "b")?, 4)?;
    doubled(&mut pairs, "b", 0);
    assert!(rt; pairs.get("a").copied() == Some(6));
    assert!(rt; pairs.get("b").copied() == Some(8));
    Ok(())
}

#[test]
fn changed_items(rt: HostRuntime) -> Result<(), Fail> {
    let mut items: Items<i64> = Items::with_capacity(rt.alloc(), 2)?;
    items.push(5)?;
    items.reserve(1)?;
    assert_eq!(rt; items.len(), 1);
    *items.at_mut(0) = 7;
    assert_eq!(rt; items.as_slice(), [7].as_slice());
    Ok(())
}

#[test]
fn members_of_variables(rt: HostRuntime) -> Result<(), Fail> {
    let variables = Variables::from_value(rt.alloc(), Value::Null);
    assert!(rt; variables.as_pairs().is_empty());
    Ok(())
}
