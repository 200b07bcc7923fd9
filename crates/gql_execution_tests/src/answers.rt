//! A set of resolvers that answer at their second poll, by their numbers and their parents, and
//! turns, for tests. Its objects are numbers.
use crate::scenes::LISTS;
use gql_base::{Error, Items, Made, Name, Number, Text, Value};
use gql_resolve::{Answer, FieldFuture, FieldValue, Polled, ResolverContext, ResolverSet, Turns};
use http_header::{HeaderName, HeaderValue};
use std::alloc::Global;

/// Answers that are there at the second poll. The set promises nothing of them, and tells which
/// tasks it began.
#[derive(Drop)]
pub struct Answers {
    pub begun: Items<u64>,
}

impl Answers {
    pub fn new(alloc: Global) -> Answers {
        Answers {
            begun: Items::new(alloc),
        }
    }
}

#[derive(Drop)]
pub struct Later {
    polls: u64,
}

impl ResolverSet for Answers {
    ghost use Rattle.std.specs.Prelude.{ℕ, Some, None};
    ghost use Rattle.gql_resolve.specs.Lawful.{plain_answer};

    type Own = u64;

    type World = u64;

    type Future = Later;

    ghost Rules = { ℕ };

    ghost rules = { λ set. 0 };

    ghost world = { λ set. 0 };

    ghost answer = { λ rules call world. plain_answer None };

    ghost effect = { λ rules call world. world };

    ghost is_lawful = { λ set. ⊥ };

    ghost is_paced = { λ set. ⊥ };

    ghost delay = { λ rules resolver. 0 };

    ghost told = { λ set. None };

    ghost begun = { λ set. Some set.begun };

    ghost number = { λ future. future.polls };

    ghost is_for = { λ future call. Unit {0} };

    fn start(
        &mut self,
        _alloc: Global,
        call: &ResolverContext<'_, u64>,
    ) -> Made<FieldFuture<u64, Later>> {
        self.begun.push(call.task)?;
        Ok(FieldFuture::new(Later { polls: 1 }))
    }

    fn poll(
        &mut self,
        alloc: Global,
        future: &mut Later,
        call: &ResolverContext<'_, u64>,
    ) -> Made<Polled<u64>> {
        if future.polls > 0 {
            future.polls -= 1;
            return Ok(Polled::Pending);
        }
        let own = own_of(call.parent_value);
        Ok(Polled::Ready(answer_at(alloc, call.resolver, own)?))
    }

    fn poll_root(
        &mut self,
        alloc: Global,
        future: &mut Later,
        call: &ResolverContext<'_, u64>,
    ) -> Made<Polled<u64>> {
        self.poll(alloc, future, call)
    }

    fn snapshot(&self, _alloc: Global) -> Made<u64> {
        Ok(0)
    }
}

fn own_of(parent: &FieldValue<u64>) -> u64 {
    match parent.as_own() {
        Some(own) => *own,
        None => 0,
    }
}

fn number(n: u64) -> FieldValue<u64> {
    FieldValue::value(Value::Number(Number::from_u64(n)))
}

fn text(alloc: Global, text: &str) -> Made<FieldValue<u64>> {
    Ok(FieldValue::value(Value::String(Text::new(alloc, text)?)))
}

fn item(alloc: Global, name: &str) -> Made<FieldValue<u64>> {
    Ok(FieldValue::value(Value::Enum(Name::new(alloc, name)?)))
}

/// An object with the name of its type.
fn typed(alloc: Global, own: u64, ty: &str) -> Made<FieldValue<u64>> {
    FieldValue::own(own).with_type(alloc, ty)
}

/// Two objects, with these numbers.
fn pair(alloc: Global, first: u64, second: u64) -> Made<FieldValue<u64>> {
    let mut items = Items::new(alloc);
    items.push(FieldValue::own(first))?;
    items.push(FieldValue::own(second))?;
    Ok(FieldValue::list(items))
}

/// A list of two objects, and one of none.
fn lists(alloc: Global, own: u64) -> Made<FieldValue<u64>> {
    let mut items = Items::new(alloc);
    items.push(pair(
        alloc,
        own.wrapping_mul(10),
        own.wrapping_mul(10).wrapping_add(1),
    )?)?;
    items.push(FieldValue::list(Items::new(alloc)))?;
    Ok(FieldValue::list(items))
}

/// A row, an object of another type, and null.
fn mixed(alloc: Global) -> Made<FieldValue<u64>> {
    let mut items = Items::new(alloc);
    items.push(typed(alloc, 1, "Row")?)?;
    items.push(typed(alloc, 2, "Other")?)?;
    items.push(FieldValue::value(Value::Null))?;
    Ok(FieldValue::list(items))
}

/// The number 5 in so many lists, each in the next.
fn nested(alloc: Global, levels: usize) -> Made<FieldValue<u64>> {
    let mut value = number(5);
    for _ in 0..levels {
        let mut items = Items::new(alloc);
        items.push(value)?;
        value = FieldValue::list(items);
    }
    Ok(value)
}

/// What the resolver of a number gives, but for the one that fails and the one that gives nothing.
fn value_at(alloc: Global, resolver: u32, own: u64) -> Made<FieldValue<u64>> {
    match resolver {
        0 => pair(alloc, 1, 2),
        1 => Ok(number(own)),
        2 => text(alloc, "n"),
        3 => lists(alloc, own),
        5 => Ok(FieldValue::own(own.wrapping_add(1))),
        6 => mixed(alloc),
        7 => typed(alloc, 7, "Row"),
        10 => item(alloc, "RED"),
        14 => nested(alloc, LISTS),
        20 => Ok(FieldValue::NULL),
        _ => Ok(FieldValue::own(own)),
    }
}

fn result_at(
    alloc: Global,
    resolver: u32,
    own: u64,
) -> Made<Result<Option<FieldValue<u64>>, Error>> {
    if resolver == 4 {
        return Ok(Err(Error::new(alloc, "boom")?));
    }
    if resolver == 8 {
        return Ok(Ok(None));
    }
    Ok(Ok(Some(value_at(alloc, resolver, own)?)))
}

/// The errors beside an answer: one of the resolver that makes the next object.
fn beside(alloc: Global, resolver: u32) -> Made<Items<Error>> {
    let mut added = Items::new(alloc);
    if resolver == 5 {
        added.push(Error::new(alloc, "beside")?)?;
    }
    Ok(added)
}

fn answer_at(alloc: Global, resolver: u32, own: u64) -> Made<Answer<u64>> {
    match resolver {
        21 => failed(alloc),
        22 => counted(alloc),
        _ => plain_at(alloc, resolver, own),
    }
}

/// An answer that does nothing to headers.
fn plain_at(alloc: Global, resolver: u32, own: u64) -> Made<Answer<u64>> {
    let added = beside(alloc, resolver)?;
    let result = result_at(alloc, resolver, own)?;
    Ok(Answer {
        result,
        added,
        headers: Items::new(alloc),
    })
}

/// An error, and 1 as the value of the header `a`.
fn failed(alloc: Global) -> Made<Answer<u64>> {
    let mut answer = Answer {
        result: Err(Error::new(alloc, "x")?),
        added: Items::new(alloc),
        headers: Items::new(alloc),
    };
    let name = HeaderName::from_static("a");
    answer.insert_http_header(name, HeaderValue::from_static("1"))?;
    Ok(answer)
}

/// The number 1, and 2 as a further value of that header.
fn counted(alloc: Global) -> Made<Answer<u64>> {
    let mut answer = Answer {
        result: Ok(Some(number(1))),
        added: Items::new(alloc),
        headers: Items::new(alloc),
    };
    let name = HeaderName::from_static("a");
    answer.append_http_header(name, HeaderValue::from_static("2"))?;
    Ok(answer)
}

/// Turns that take the last task that waits, or the first.
#[derive(Drop)]
pub struct Ends {
    pub last: bool,
}

impl Turns for Ends {
    ghost use Rattle.std.specs.Prelude.{Bool, None};

    ghost State = { Bool };

    ghost state = { λ turns. None };

    ghost choice = { λ state n. 0 };

    ghost after = { λ state n. state };

    fn pick(&mut self, n: usize) -> usize {
        if self.last { n - 1 } else { 0 }
    }
}
