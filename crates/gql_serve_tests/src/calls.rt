//! Calls of a service over a cell, on two threads and on one.
use crate::cells::{Cells, Last};
use crate::pair::Pair;
use crate::requests::{answer_json, request};
use crate::schemas::schema;
use gql_base::{Made, Text};
use gql_exec::{DynamicRequest, Schema};
use gql_serve::{Roll, Seat, Served};
use std::alloc::Global;
use std::sync::Wait;
use std::thread::{Threads, join};

/// What a request of a seat is answered under a schema.
fn answer<L: Roll<Cells>, R: Wait>(
    rt: &R,
    alloc: Global,
    served: &Served<Cells, L>,
    schema: &Schema,
    seat: &mut Seat<L>,
    request: &DynamicRequest<u64>,
) -> Made<Text> {
    let answer = served.serve(rt, alloc, schema, seat, request, &mut Last);
    answer_json(alloc, &answer)
}

/// What a text of a seat is answered under a schema.
fn answer_to<L: Roll<Cells>, R: Wait>(
    rt: &R,
    alloc: Global,
    served: &Served<Cells, L>,
    schema: &Schema,
    seat: &mut Seat<L>,
    text: &str,
) -> Made<Text> {
    let request = request(alloc, text)?;
    answer(rt, alloc, served, schema, seat, &request)
}

/// What a text of a seat is answered, under a schema that is built for this call.
pub fn call<L: Roll<Cells>, R: Wait>(
    rt: &R,
    alloc: Global,
    served: &Served<Cells, L>,
    seat: &mut Seat<L>,
    text: &str,
) -> Made<Text> {
    let schema = schema(alloc, 0)?;
    answer_to(rt, alloc, served, &schema, seat, text)
}

/// Bumps the cell from a seat, which is given back.
fn bumped<L: Roll<Cells>, R: Wait>(
    rt: &R,
    alloc: Global,
    served: &Served<Cells, L>,
    mut seat: Seat<L>,
) -> Seat<L> {
    let _ = call(rt, alloc, served, &mut seat, "mutation { bump }");
    seat
}

/// A call on each of two threads, on a value that they share.
fn on_two<S: Sync, A: Drop + Send, F: Fn(&S, A) -> A + Sync, T: Threads + Sync>(
    rt: &T,
    shared: &S,
    one: A,
    two: A,
    call: &F,
) -> (A, A)
    requires { F.IsAlwaysCallable call.now }
{
    join(rt, move || call(shared, one), move || call(shared, two))
}

/// Bumps the cell from both seats, on a thread each.
pub fn both_bump<L: Roll<Cells> + Send + Sync, R: Threads + Wait + Sync>(
    rt: &R,
    alloc: Global,
    pair: Pair<L>,
) -> Pair<L> {
    let Pair { served, one, two } = pair;
    let (one, two) = on_two(
        rt,
        &served,
        one,
        two,
        &|served: &Served<Cells, L>, seat: Seat<L>| { bumped(rt, alloc, served, seat) },
    );
    Pair { served, one, two }
}

/// What a text of the first seat is answered.
pub fn ask<L: Roll<Cells>, R: Wait>(
    rt: &R,
    alloc: Global,
    pair: &mut Pair<L>,
    text: &str,
) -> Made<Text> {
    let Pair { served, one, .. } = pair;
    call(rt, alloc, served, one, text)
}
