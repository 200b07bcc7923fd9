//! Parameters that are there, absent, out of range and of a variable that isn't defined.
use crate::queries::{error_text, query};
use gql_base::{Made, Pos, ServerResult, Text, json_of};
use gql_resolve::{ResolverContext, resolved_value};
use std::alloc::Global;
use std::test::Fail;

/// What a parameter gave: the number and its place, or the message and its place.
fn told(alloc: Global, given: ServerResult<(Pos, i32)>) -> Made<Text> {
    match given {
        Ok((pos, number)) => found(alloc, number, pos),
        Err(error) => error_text(alloc, &error),
    }
}

fn found(alloc: Global, number: i32, pos: Pos) -> Made<Text> {
    let mut out = String::new(alloc);
    write!(out, "{number} {}:{}", pos.line, pos.column)?;
    Text::from_string(out)
}

fn asked(alloc: Global, context: &ResolverContext<'_, u64>, default: Option<i32>) -> Made<Text> {
    let given = context.param_value::<i32>(alloc, "n", default)?;
    told(alloc, given)
}

/// What the parameter `n` of the first field of a query gives as an `Int`, by a default.
fn number(alloc: Global, text: &str, default: Option<i32>) -> Made<Text> {
    match query(alloc, text)? {
        Some(ground) => match ground.first() {
            Some(context) => asked(alloc, &context, default),
            None => Text::new(alloc, "no field"),
        },
        None => Text::new(alloc, "no query"),
    }
}

/// Whether the parameter gives this.
fn gives(alloc: Global, text: &str, default: Option<i32>, given: &str) -> Made<bool> {
    Ok(number(alloc, text, default)?.as_str() == given)
}

#[test]
fn numbers_as_parameters(rt: HostRuntime) -> Result<(), Fail> {
    let alloc = rt.alloc();
    assert!(rt; gives(alloc, "{ o(m: 1, n: 3, n: 4) }", None, "3 1:14")?);
    assert!(rt; gives(alloc, "{ o(m: 1) }", Some(5), "5 0:0")?);
    Ok(())
}

#[test]
fn parameters_that_are_no_numbers(rt: HostRuntime) -> Result<(), Fail> {
    let alloc = rt.alloc();
    let far = r#"Expected input type "Int", found 2147483648. 1:8"#;
    assert!(rt; gives(alloc, "{ o(n: 2147483648) }", None, far)?);
    let lost = "Variable lost is not defined. 1:8";
    assert!(rt; gives(alloc, "{ o(n: $lost) }", Some(5), lost)?);
    Ok(())
}

fn first_argument(alloc: Global, context: &ResolverContext<'_, u64>) -> Made<Text> {
    match context.item.arguments.as_slice().first() {
        Some(argument) => {
            let value = resolved_value(alloc, context.env, &argument.value.node)?;
            json_of(alloc, &value)
        }
        None => Text::new(alloc, "no argument"),
    }
}

/// What the first argument of the first field of a query comes to, as JSON.
fn resolved(alloc: Global, text: &str) -> Made<Text> {
    match query(alloc, text)? {
        Some(ground) => match ground.first() {
            Some(context) => first_argument(alloc, &context),
            None => Text::new(alloc, "no field"),
        },
        None => Text::new(alloc, "no query"),
    }
}

#[test]
fn arguments_with_their_variables(rt: HostRuntime) -> Result<(), Fail> {
    let text = r#"query($v: Int = 6) { o(n: [1, {a: $v, b: E}, "t"]) }"#;
    let json = r#"[1,{"a":6,"b":"E"},"t"]"#;
    assert!(rt; resolved(rt.alloc(), text)?.as_str() == json);
    Ok(())
}
