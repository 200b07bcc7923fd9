//! Calls of small types that no other test makes: orders, places, pairs that are made of others,
//! and errors as they are.
use gql_base::{
    Copied, Error, ErrorExtensionValues, ErrorExtensions, Items, JsonPlace, JsonText, Made, Name,
    Names, Pairs, PathSegment, Pos, ResultExt, Text, Told, Value, push_extension_values, push_list,
};
use std::alloc::Global;
use std::cmp::Ordering;
use std::hash::{DefaultHasher, Hash, Hasher};
use std::test::Fail;

/// Adds a number under a name, unless the name is there.
fn add(alloc: Global, pairs: &mut Pairs<i64>, name: &str, number: i64) -> Made<()> {
    if pairs.get(name).is_none() {
        pairs.add_fresh(Name::new(alloc, name)?, number)
    } else {
        Ok(())
    }
}

/// The numbers b: 1 and a: 2, in this order.
fn numbers(alloc: Global) -> Made<Pairs<i64>> {
    let mut pairs = Pairs::new(alloc);
    add(alloc, &mut pairs, "b", 1)?;
    add(alloc, &mut pairs, "a", 2)?;
    Ok(pairs)
}

/// Truth values in place of two numbers, or none where there are not two.
fn truths(alloc: Global, pairs: &Pairs<i64>) -> Made<Pairs<bool>> {
    let values = vec![in alloc; true, false]?;
    if values.len() != pairs.len() {
        return Ok(Pairs::new(alloc));
    }
    pairs.with_values(alloc, values)
}

fn truths_of_numbers(alloc: Global) -> Made<Pairs<bool>> {
    let pairs = numbers(alloc)?;
    truths(alloc, &pairs)
}

#[test]
fn other_values_stand_under_the_same_names(rt: HostRuntime) -> Result<(), Fail> {
    let pairs = truths_of_numbers(rt.alloc())?;
    assert!(rt; pairs.len() == 2);
    assert!(rt; pairs.place_of("a") == Some(1));
    assert!(rt; pairs.get("b").copied() == Some(true));
    assert!(rt; pairs.get("a").copied() == Some(false));
    Ok(())
}

/// The name "a" alone, for which room was taken before.
fn name_with_room(alloc: Global) -> Made<Names> {
    let mut names = Names::with_capacity(alloc, 2)?;
    names.add_fresh(Name::new(alloc, "a")?)?;
    Ok(names)
}

/// Whether names begin with this one, by both readers.
fn begin_with(names: &Names, name: &str) -> bool {
    names.len() > 0 && names.at(0) == name && names.name_at(0).as_str() == name
}

#[test]
fn names_have_room(rt: HostRuntime) -> Result<(), Fail> {
    let names = name_with_room(rt.alloc())?;
    assert_eq!(rt; names.len(), 1);
    assert_eq!(rt; names.place_of("a"), Some(0));
    assert!(rt; begin_with(&names, "a"));
    Ok(())
}

#[test]
fn a_text_is_a_name(rt: HostRuntime) -> Result<(), Fail> {
    let name = Name::from_text(Text::new(rt.alloc(), "hero")?);
    assert_eq!(rt; name.as_str(), "hero");
    assert_eq!(rt; name.text().as_str(), "hero");
    Ok(())
}

/// Whether two texts are ordered so by both calls.
fn are_ordered(alloc: Global, first: &str, second: &str, order: Ordering) -> Made<bool> {
    let first = Text::new(alloc, first)?;
    let second = Text::new(alloc, second)?;
    Ok(first.cmp(&second) == order && first.partial_cmp(&second) == Some(order))
}

/// Pairs of texts, each with its order.
const ORDERS: [(&str, &str, Ordering); 4] = [
    ("", "a", Ordering::Less),
    ("ab", "ab", Ordering::Equal),
    ("ab", "b", Ordering::Less),
    ("é", "z", Ordering::Greater),
];

/// The first pair of a table that is ordered otherwise.
fn first_wrong_order(
    alloc: Global,
    table: &[(&'static str, &'static str, Ordering)],
) -> Made<Option<(&'static str, &'static str)>> {
    for (first, second, order) in table {
        if !are_ordered(alloc, first, second, *order)? {
            return Ok(Some((*first, *second)));
        }
    }
    Ok(None)
}

#[test]
fn texts_are_ordered_by_bytes(rt: HostRuntime) -> Result<(), Fail> {
    assert_eq!(rt; first_wrong_order(rt.alloc(), &ORDERS)?, None);
    Ok(())
}

/// Whether a place is ordered so beside line 2, column 5, by both calls.
fn is_placed(line: usize, column: usize, order: Ordering) -> bool {
    let place = Pos { line, column };
    let fixed = Pos { line: 2, column: 5 };
    place.cmp(&fixed) == order && place.partial_cmp(&fixed) == Some(order)
}

#[test]
fn places_are_ordered_by_line_and_column(rt: HostRuntime) -> Result<(), Fail> {
    assert!(rt; is_placed(2, 4, Ordering::Less));
    assert!(rt; is_placed(2, 5, Ordering::Equal));
    assert!(rt; is_placed(3, 1, Ordering::Greater));
    Ok(())
}

/// Appends a step that was taken off, or that there was none.
fn push_step(out: &mut String, step: Option<PathSegment>) -> Made<()> {
    match step {
        Some(step) => write!(out, "{step};"),
        None => out.push_str("end;"),
    }
}

/// The place 1 of a list, seen from the member `a` that holds the list.
fn place_behind(alloc: Global) -> Made<JsonPlace> {
    let member = PathSegment::Field(Text::new(alloc, "a")?);
    JsonPlace::here(alloc)
        .behind(PathSegment::Index(1))?
        .behind(member)
}

/// Three steps that are taken off a place of two.
fn steps_text(alloc: Global) -> Made<Text> {
    let mut out = String::new(alloc);
    let mut place = place_behind(alloc)?;
    push_step(&mut out, place.next_step())?;
    push_step(&mut out, place.next_step())?;
    push_step(&mut out, place.next_step())?;
    Text::from_string(out)
}

#[test]
fn steps_are_taken_from_outside(rt: HostRuntime) -> Result<(), Fail> {
    let mut whole = JsonPlace::here(rt.alloc());
    assert!(rt; whole.next_step().is_none());
    assert_eq!(rt; steps_text(rt.alloc())?.as_str(), "a;1;end;");
    Ok(())
}

/// The list of no place, and of two.
fn places_text(alloc: Global) -> Made<Text> {
    let mut out = String::new(alloc);
    let none: Items<Pos> = Items::new(alloc);
    push_list(&mut out, none.as_slice())?;
    let two = [Pos { line: 1, column: 2 }, Pos { line: 3, column: 4 }];
    push_list(&mut out, &two)?;
    Text::from_string(out)
}

/// The texts of a member, of a place in a list and of a place in a document.
fn texts_of_parts(alloc: Global) -> Made<Text> {
    let mut out = String::new(alloc);
    let member = PathSegment::Field(Text::new(alloc, r#"a"b"#)?);
    member.push_text(&mut out)?;
    out.push(' ')?;
    let item = PathSegment::Index(12);
    item.push_text(&mut out)?;
    out.push(' ')?;
    Pos { line: 5, column: 6 }.push_text(&mut out)?;
    Text::from_string(out)
}

/// The hash of a text.
fn hash_of(text: &Text) -> u64 {
    let mut state = DefaultHasher::new();
    text.hash(&mut state);
    state.finish()
}

/// Whether two texts have one hash and these bytes.
fn have_bytes(one: &Text, other: &Text, text: &str) -> bool {
    one == other
        && one.as_str() == text
        && one.len() == text.len()
        && hash_of(one) == hash_of(other)
}

/// Whether a text of a string, and a copy whose source is gone, have these bytes.
fn is_kept(alloc: Global, text: &str) -> Made<bool> {
    let moved = Text::from_string(String::from_str(alloc, text)?)?;
    let copy = Text::new(alloc, text)?.try_clone(alloc)?;
    Ok(have_bytes(&copy, &moved, text))
}

/// Texts of no byte and of 22, which lie in the value, and longer ones, which copies share.
const KEPT: [&str; 4] = [
    "",
    "abcdefghijklmnopqrstuv",
    "abcdefghijklmnopqrstuvw",
    "éééééééééééééééééééé",
];

/// The first text of a table that has other bytes.
fn first_wrong_text(alloc: Global, table: &[&'static str]) -> Made<Option<&'static str>> {
    for text in table {
        if !is_kept(alloc, text)? {
            return Ok(Some(*text));
        }
    }
    Ok(None)
}

#[test]
fn texts_lie_in_place_or_are_shared(rt: HostRuntime) -> Result<(), Fail> {
    assert_eq!(rt; first_wrong_text(rt.alloc(), &KEPT)?, None);
    assert_eq!(rt; Text::empty().as_str(), "");
    Ok(())
}

#[test]
fn lists_are_written_item_by_item(rt: HostRuntime) -> Result<(), Fail> {
    assert!(rt;
        places_text(rt.alloc())?.as_str() == r#"[][{"line":1,"column":2},{"line":3,"column":4}]"#
    );
    assert!(rt; texts_of_parts(rt.alloc())?.as_str() == r#""a\"b" 12 {"line":5,"column":6}"#);
    Ok(())
}

/// The value a: true or a: false alone.
fn told_values(alloc: Global, truth: bool) -> Made<ErrorExtensionValues> {
    let mut values = ErrorExtensionValues::new(alloc);
    values.set("a", Value::Boolean(truth))?;
    Ok(values)
}

/// The error "e", which tells a truth value beside its message.
fn telling_error(alloc: Global, truth: bool) -> Made<Error> {
    let mut error = Error::new(alloc, "e")?;
    error.extensions = Some(told_values(alloc, truth)?);
    Ok(error)
}

/// The message of an error, and after it what it tells, if anything.
fn error_text(alloc: Global, error: &Error) -> Made<Text> {
    let mut out = String::from_str(alloc, error.message.as_str())?;
    if let Some(values) = &error.extensions {
        push_extension_values(&mut out, values)?;
    }
    Text::from_string(out)
}

fn text_of_copy(alloc: Global) -> Made<Text> {
    let copy = telling_error(alloc, true)?.try_clone(alloc)?;
    error_text(alloc, &copy)
}

fn text_of_told(alloc: Global) -> Made<Text> {
    let told = Told("t").extend(alloc)?;
    error_text(alloc, &told)
}

#[test]
fn errors_are_told_as_they_are(rt: HostRuntime) -> Result<(), Fail> {
    assert!(rt; text_of_copy(rt.alloc())?.as_str() == r#"e{"a":true}"#);
    assert!(rt; text_of_told(rt.alloc())?.as_str() == "t");
    Ok(())
}

/// The text of a failure, or that there is a value.
fn failure_text(alloc: Global, answer: Result<u8, Error>) -> Made<Text> {
    match answer {
        Ok(_) => Text::new(alloc, "a value"),
        Err(error) => error_text(alloc, &error),
    }
}

fn text_of_told_failure(alloc: Global) -> Made<Text> {
    let result: Result<u8, Told<'static>> = Err(Told("f"));
    failure_text(alloc, result.extend(alloc)?)
}

#[test]
fn failures_are_told_as_they_are(rt: HostRuntime) -> Result<(), Fail> {
    assert_eq!(rt; text_of_told_failure(rt.alloc())?.as_str(), "f");
    Ok(())
}

/// Whether the error "e" alone equals one of this message.
fn equals_bare(alloc: Global, message: &str) -> Made<bool> {
    let error = Error::new(alloc, "e")?;
    let other = Error::new(alloc, message)?;
    Ok(error == other)
}

#[test]
fn errors_are_compared(rt: HostRuntime) -> Result<(), Fail> {
    assert!(rt; equals_bare(rt.alloc(), "e")?);
    assert!(rt; !equals_bare(rt.alloc(), "f")?);
    Ok(())
}
