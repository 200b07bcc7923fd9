//! Data in the layers that hooks see, each public call with ample memory.
use gql_base::{Made, Text, Value};
use gql_request::{Data, DataContext, DataKey, ExtensionContext, NoData, found_or};
use std::alloc::Global;
use std::test::Fail;

/// A layer of data, with its name under each of some keys.
fn layer(alloc: Global, name: &str, keys: &[u32]) -> Made<Data> {
    let mut data = Data::new(alloc);
    for key in keys {
        let value = Value::String(Text::new(alloc, name)?);
        data.insert(DataKey(*key), value)?;
    }
    Ok(data)
}

/// A value, if it is there to be seen.
fn seen_if<T>(value: &T, is_seen: bool) -> Option<&T> {
    if is_seen { Some(value) } else { None }
}

/// The layers that hooks see.
#[derive(Drop)]
struct Seen {
    query: Data,
    session: Data,
    schema: Data,
}

impl Seen {
    /// The key 1 is in each layer, 2 in the session's and the schema's, 3 in the schema's, and 4 in
    /// the request's and the schema's.
    fn new(alloc: Global) -> Made<Seen> {
        let query = layer(alloc, "query", &[1, 4])?;
        let session = layer(alloc, "session", &[1, 2])?;
        let schema = layer(alloc, "schema", &[1, 2, 3, 4])?;
        Ok(Seen {
            query,
            session,
            schema,
        })
    }

    /// What hooks are called with, once the request's layer is known or before.
    fn context(&self, known: bool) -> ExtensionContext<'_> {
        ExtensionContext {
            schema_data: &self.schema,
            session_data: &self.session,
            query_data: seen_if(&self.query, known),
        }
    }
}

/// The name that a layer has under a key, if a value was found.
fn name_in(found: Option<&Value>) -> &str {
    match found {
        Some(Value::String(name)) => name.as_str(),
        _ => "none",
    }
}

/// A key without a value, and how that is told.
fn no_text(alloc: Global, no: NoData) -> Made<Text> {
    let key = no.0;
    Text::from_string(format!(in alloc; "{}: {no}", key.0)?)
}

fn answer_text(alloc: Global, answer: Result<&Value, NoData>) -> Made<Text> {
    match answer {
        Ok(value) => Text::new(alloc, name_in(Some(value))),
        Err(no) => no_text(alloc, no),
    }
}

/// The name under a key that is there.
fn unchecked_name<'a, C: DataContext<'a>>(context: &C, key: DataKey) -> &'a str {
    if context.data(key).is_ok() {
        name_in(Some(context.data_unchecked(key)))
    } else {
        "none"
    }
}

/// What the three calls answer for a key.
fn answer_texts<'a, C: DataContext<'a>>(alloc: Global, context: &C, key: DataKey) -> Made<Text> {
    let optional = name_in(context.data_opt(key));
    let answer = answer_text(alloc, context.data(key))?;
    let unchecked = unchecked_name(context, key);
    Text::from_string(format!(in alloc; "{optional}, {answer}, {unchecked}")?)
}

/// The same for a key of the layers that hooks see.
fn seen_text(alloc: Global, known: bool, key: u32) -> Made<Text> {
    let seen = Seen::new(alloc)?;
    let context = seen.context(known);
    answer_texts(alloc, &context, DataKey(key))
}

/// Whether the request's layer is known, a key, and what is answered for it.
const ANSWERS: [(bool, u32, &str); 10] = [
    (true, 1, "query, query, query"),
    (true, 2, "session, session, session"),
    (true, 3, "schema, schema, schema"),
    (true, 4, "query, query, query"),
    (true, 5, "none, 5: no data is under this key, none"),
    (false, 1, "session, session, session"),
    (false, 2, "session, session, session"),
    (false, 3, "schema, schema, schema"),
    (false, 4, "schema, schema, schema"),
    (false, 5, "none, 5: no data is under this key, none"),
];

/// Whether this is answered for a key of the layers that hooks see.
fn is_answered(alloc: Global, known: bool, key: u32, text: &str) -> Made<bool> {
    Ok(seen_text(alloc, known, key)?.as_str() == text)
}

/// The first row of a table for which something else is answered.
fn first_wrong_answer(
    alloc: Global,
    table: &[(bool, u32, &'static str)],
) -> Made<Option<(bool, u32)>> {
    for (known, key, text) in table {
        if !is_answered(alloc, *known, *key, text)? {
            return Ok(Some((*known, *key)));
        }
    }
    Ok(None)
}

#[test]
fn layers_are_searched(rt: HostRuntime) -> Result<(), Fail> {
    assert_eq!(rt; first_wrong_answer(rt.alloc(), &ANSWERS)?, None);
    Ok(())
}

/// Whether this is found under a key where an earlier layer may have had a value, and this one has
/// the key 1 alone.
fn is_found(alloc: Global, earlier: bool, key: u32, name: &str) -> Made<bool> {
    let text = Text::new(alloc, "earlier")?;
    let layer = layer(alloc, "layer", &[1])?;
    let value = Value::String(text);
    let found = found_or(seen_if(&value, earlier), &layer, DataKey(key));
    Ok(name_in(found) == name)
}

#[test]
fn an_earlier_layer_comes_first(rt: HostRuntime) -> Result<(), Fail> {
    assert!(rt; is_found(rt.alloc(), true, 1, "earlier")?);
    assert!(rt; is_found(rt.alloc(), true, 2, "earlier")?);
    assert!(rt; is_found(rt.alloc(), false, 1, "layer")?);
    assert!(rt; is_found(rt.alloc(), false, 2, "none")?);
    Ok(())
}
