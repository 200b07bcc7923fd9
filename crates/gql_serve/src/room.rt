//! Room for an entry, which is taken before its request is executed.
ghost use Rattle.std.specs.Prelude.{◌≡◌, ◌++◌, [], ◌∷◌, IfOk, IfSome, MatchResult, Some, slice_get};
ghost use Rattle.gql_serve.specs.Adding.{entry_of, IsMore, Keeping};
ghost use Rattle.gql_serve.specs.Room.{HasRoom, StandsAt};
ghost use Rattle.gql_serve.specs.declared.entry.Outcome.TheVariants as outcomes;

use crate::entry::{Entry, Outcome};
use gql_base::{Copied, Made, NoMemory};
use gql_exec::{DynamicRequest, Schema};
use gql_request::Response;
use std::alloc::Global;

/// What an entry will be made of: the place of its schema, a copy of the schema where it is a new
/// one, and a copy of the request.
#[derive(Drop)]
pub(crate) struct Room<V> {
    pub(crate) place: usize,
    pub(crate) kept: Option<Schema>,
    pub(crate) request: DynamicRequest<V>,
}

/// Room for one more entry, and for its schema where that isn't the last one kept.
pub(crate) fn make_room<V: Copied + Drop>(
    alloc: Global,
    schemas: &mut Vec<Schema>,
    entries: &mut Vec<Entry<V>>,
    schema: &Schema,
    request: &DynamicRequest<V>,
) -> Made<Room<V>>
    ensures schemas { schemas.new.items ≡ schemas.old.items }
    ensures entries { entries.new.items ≡ entries.old.items }
    ensures room { IfOk result (HasRoom schemas.new entries.new schema.now request.now) }
{
    entries.reserve(1)?;
    let (place, kept) = place_for(alloc, schemas, schema)?;
    let request = request.try_clone(alloc)?;
    Ok(Room {
        place,
        kept,
        request,
    })
}

/// The place of a schema, and a copy of it where it has to be kept.
fn place_for(
    alloc: Global,
    schemas: &mut Vec<Schema>,
    schema: &Schema,
) -> Made<(usize, Option<Schema>)>
    ensures same { schemas.new.items ≡ schemas.old.items }
    ensures place { IfOk result (λ r. StandsAt schemas.new schema.now r.0 r.1) }
{
    if let Some(place) = last_equal(schemas.as_slice(), schema) {
        return Ok((place, None));
    }
    schemas.reserve(1)?;
    let kept = schema.try_clone(alloc)?;
    Ok((schemas.len(), Some(kept)))
}

/// The place of the last schema, where it equals this one.
fn last_equal(schemas: &[Schema], schema: &Schema) -> Option<usize>
    ensures { IfSome result (λ place. slice_get schemas.now place ≡ Some schema.now) }
{
    let last = schemas.len().checked_sub(1)?;
    if schemas[last].equals(schema) {
        Some(last)
    } else {
        None
    }
}

/// Writes an entry.
pub(crate) fn write<V>(
    schemas: &mut Vec<Schema>,
    entries: &mut Vec<Entry<V>>,
    room: Room<V>,
    caller: u32,
    outcome: Outcome,
    _schema: &Schema,
    _request: &DynamicRequest<V>,
)
    requires { HasRoom schemas.old entries.old _schema.now _request.now room }
    ensures entries { entries.new.items
        ≡ entries.old.items ++ entry_of caller room.place _request.now outcome ∷ [] }
    ensures schemas { IsMore schemas.old.items schemas.new.items }
    ensures there { slice_get schemas.new.items room.place ≡ Some _schema.now }
{
    let Room {
        place,
        kept,
        request,
    } = room;
    match kept {
        None => {}
        Some(kept) => schemas.push_reserved(kept),
    }
    entries.push_reserved(Entry {
        caller,
        schema: place,
        request,
        outcome,
    });
}

/// What became of a request with this answer, which is copied for it.
pub(crate) fn outcome_of(alloc: Global, answer: &Result<Response, NoMemory>) -> Outcome
    ensures { MatchResult answer.now (λ response. Keeping response result)
        (λ want. result ≡ outcomes.Cut want.roots) }
{
    match answer {
        Ok(response) => match response.try_clone(alloc) {
            Ok(copy) => Outcome::Done(copy),
            Err(_) => Outcome::Unkept,
        },
        Err(want) => Outcome::Cut(want.roots),
    }
}
