//! Each public call with ample memory, against texts and values from outside. What a test looks at
//! is made by small functions beside it, since a test is proved too.
use gql_base::{
    Boxed, Common, Copied, Items, Made, Name, NoMemory, Number, Pairs, Text, Value, Variables,
    json_of, push_object,
};
use std::alloc::{AllocError, Global};
use std::test::Fail;

/// Whether a copy of a value equals it, through the bounds alone.
pub(crate) fn copies<T: Copied + PartialEq + Drop>(alloc: Global, value: &T) -> Made<bool> {
    let copy = value.try_clone(alloc)?;
    Ok(copy == *value)
}

/// The object a: 1, b: list of "x" and null.
pub(crate) fn sample(alloc: Global) -> Made<Value> {
    let mut list = Items::new(alloc);
    list.push(Value::String(Text::new(alloc, "x")?))?;
    list.push(Value::Null)?;
    let mut members = Pairs::new(alloc);
    members.add(Name::new(alloc, "a")?, Value::Number(Number::from_i64(1)))?;
    members.add(Name::new(alloc, "b")?, Value::list(alloc, list)?)?;
    Value::object(alloc, members)
}

pub(crate) const SAMPLE: &str = r#"{"a":1,"b":["x",null]}"#;

#[test]
fn texts(rt: HostRuntime) -> Result<(), Fail> {
    let alloc = rt.alloc();
    let text = Text::new(alloc, "né")?;
    assert!(rt; text.as_str() == "né");
    assert!(rt; text.len() == 3);
    assert!(rt; format!(in alloc; "<{text}>")?.as_str() == "<né>");
    assert!(rt; copies(alloc, &text)?);
    assert!(rt; text == Text::from_string(String::from_str(alloc, "né")?)?);
    Ok(())
}

#[test]
fn names(rt: HostRuntime) -> Result<(), Fail> {
    let alloc = rt.alloc();
    let name = Name::new(alloc, "hero")?;
    assert!(rt; name.as_str() == "hero");
    assert!(rt; format!(in alloc; "{name}!")?.as_str() == "hero!");
    assert!(rt; copies(alloc, &name)?);
    Ok(())
}

/// The numbers 5, 8 and 7, of which the second was another.
fn numbers(alloc: Global) -> Made<Items<i64>> {
    let mut items = Items::new(alloc);
    items.push(5)?;
    items.append(Items::from_slice(alloc, &[6, 7])?)?;
    if items.len() == 3 {
        items.set(1, 8);
    }
    Ok(items)
}

/// Whether a list has these numbers, by each of its readers.
fn has_numbers(items: &Items<i64>, numbers: &[i64]) -> bool {
    items.len() == numbers.len()
        && items.as_slice() == numbers
        && items.get(1).copied() == numbers.get(1).copied()
}

/// Whether the last number is taken off a list, and two are left.
fn leaves_two(alloc: Global) -> Made<bool> {
    let mut items = numbers(alloc)?;
    let last = items.pop();
    let two = Items::from_vec(vec![in alloc; 5, 8]?);
    Ok(last == Some(7) && items == two)
}

#[test]
fn lists(rt: HostRuntime) -> Result<(), Fail> {
    let alloc = rt.alloc();
    assert!(rt; Items::<i64>::new(alloc).is_empty());
    assert!(rt; leaves_two(alloc)?);
    let items = numbers(alloc)?;
    assert!(rt; has_numbers(&items, &[5, 8, 7]));
    assert!(rt; copies::<Items<i64>>(alloc, &items)?);
    assert!(rt; items.into_vec().as_slice() == [5, 8, 7].as_slice());
    Ok(())
}

#[test]
fn boxes_and_options(rt: HostRuntime) -> Result<(), Fail> {
    let alloc = rt.alloc();
    let boxed = Boxed::new(alloc, 5u64)?;
    assert!(rt; *boxed.get() == 5);
    assert!(rt; copies(alloc, &boxed)?);
    assert!(rt; boxed.into_inner() == 5);
    assert!(rt; copies(alloc, &Some(true))?);
    assert!(rt; NoMemory::from(AllocError) == NoMemory { roots: 0 });
    Ok(())
}

/// Sets the value under a name, and gives what stood there.
fn inserted(alloc: Global, pairs: &mut Pairs<i64>, name: &str, value: i64) -> Made<Option<i64>> {
    pairs.insert(Name::new(alloc, name)?, value)
}

/// Whether pairs begin with the number 3 under the name b, and one more stands after it.
fn begin_with_three(pairs: &Pairs<i64>) -> bool {
    pairs.len() == 2 && pairs.pair_at(0).0.as_str() == "b" && *pairs.at(0).1 == 3
}

/// Whether a number takes the place of another under its name.
fn takes_its_place(alloc: Global) -> Made<bool> {
    let mut pairs = Pairs::new(alloc);
    let first = inserted(alloc, &mut pairs, "b", 1)?;
    pairs.add(Name::new(alloc, "a")?, 2)?;
    let second = inserted(alloc, &mut pairs, "b", 3)?;
    Ok(first == None && second == Some(1) && begin_with_three(&pairs))
}

#[test]
fn pairs(rt: HostRuntime) -> Result<(), Fail> {
    assert!(rt; takes_its_place(rt.alloc())?);
    Ok(())
}

/// The numbers 1 and 2, which copies have in common.
fn common_numbers(alloc: Global) -> Made<Common<Items<u64>>> {
    let mut numbers = Items::new(alloc);
    numbers.push(1)?;
    numbers.push(2)?;
    Common::new(alloc, numbers)
}

#[test]
fn numbers_in_common(rt: HostRuntime) -> Result<(), Fail> {
    let one = common_numbers(rt.alloc())?;
    let other = one.try_clone(rt.alloc())?;
    assert!(rt; one == other);
    assert!(rt; other.into_inner(rt.alloc())?.as_slice() == [1, 2].as_slice());
    assert!(rt; one.into_inner(rt.alloc())?.as_slice() == [1, 2].as_slice());
    Ok(())
}

/// The JSON text of the variables that a value gives.
fn variables_of(alloc: Global, value: Value) -> Made<Text> {
    let copy = Variables::from_value(alloc, value).try_clone(alloc)?;
    let object = copy.into_value(alloc)?;
    json_of(alloc, &object)
}

/// The JSON text of the same variables, which stay as they are.
fn variables_by_reference(alloc: Global, value: Value) -> Made<Text> {
    let variables = Variables::from_value(alloc, value);
    let mut out = String::new(alloc);
    push_object(&mut out, variables.as_pairs())?;
    Text::from_string(out)
}

#[test]
fn variables_as_objects(rt: HostRuntime) -> Result<(), Fail> {
    let alloc = rt.alloc();
    assert_eq!(rt; variables_of(alloc, sample(alloc)?)?.as_str(), SAMPLE);
    assert_eq!(rt;
        variables_by_reference(alloc, sample(alloc)?)?.as_str(),
        SAMPLE
    );
    Ok(())
}

#[test]
fn variables_by_name(rt: HostRuntime) -> Result<(), Fail> {
    let variables = Variables::from_value(rt.alloc(), sample(rt.alloc())?);
    assert!(rt; !variables.is_empty());
    assert!(rt; variables.get("a") == Some(&Value::Number(Number::from_i64(1))));
    Ok(())
}
