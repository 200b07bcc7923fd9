//! The service that README.md shows.
ghost use Rattle.std.specs.Prelude.{◌≡◌, Some};

use crate::cells::{Cells, Last};
use crate::closing::entries_after;
use crate::requests::request;
use crate::schemas::schema;
use gql_base::Made;
use gql_exec::{DynamicRequest, Schema};
use gql_serve::{Roll, Served};
use std::alloc::Global;
use std::marker::Brand;
use std::sync::Wait;
use std::sync::ledger::Blank;
use std::test::Fail;

/// A day of a service with two seats, the second of which makes a call: how many entries its
/// journal has at the end.
fn day<L: Roll<Cells>, R: Wait>(
    rt: &R,
    alloc: Global,
    blank: Blank,
    set: Cells,
    schema: &Schema,
    request: &DynamicRequest<u64>,
) -> Made<Option<usize>>
    requires name { blank.name ≡ L.name }
    requires parts { blank.parts ≡ L.parts }
    requires all { L.all ≡ L.parts }
    requires begins { L.begins ≡ Some set }
    requires two { blank.parts ≡ 2 }
{
    let (served, mut seats) = Served::<Cells, L>::new(alloc, blank, set, 2)?;
    let Some(mut seat) = seats.pop() else {
        return Ok(None);
    };
    let _ = served.serve(rt, alloc, schema, &mut seat, request, &mut Last);
    seats.push(seat)?;
    Ok(entries_after(served, seats))
}

/// How many entries a day with this request leaves, under a schema that is built for it.
fn entries_of_a_day<R: Wait>(
    rt: &R,
    alloc: Global,
    request: &DynamicRequest<u64>,
) -> Made<Option<usize>> {
    let schema = schema(alloc, 0)?;
    let set = Cells { cell: 0 };
    day::<Brand, _>(rt, alloc, Blank::new(2), set, &schema, request)
}

#[test]
fn a_call_leaves_an_entry(rt: HostRuntime) -> Result<(), Fail> {
    let request = request(rt.alloc(), "mutation { bump }")?;
    assert_eq!(rt; entries_of_a_day(&rt, rt.alloc(), &request)?, Some(1));
    Ok(())
}
