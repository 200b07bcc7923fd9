//! A close with too few seats gives all back, so that a second one is taken.
ghost use Rattle.std.specs.Prelude.{◌≡◌, Some};

use crate::calls::ask;
use crate::cells::Cells;
use crate::closing::entries_after;
use crate::pair::{Pair, opened};
use gql_base::Made;
use gql_serve::{CloseFault, Roll, Seat, Served};
use std::alloc::Global;
use std::marker::Brand;
use std::sync::Wait;
use std::sync::ledger::Blank;
use std::test::Fail;

/// The fault of a close with this seat alone.
fn fault_of<L: Roll<Cells>>(
    alloc: Global,
    served: Served<Cells, L>,
    seat: Seat<L>,
) -> Made<Option<CloseFault<Cells, L>>>
    requires { L.all ≡ L.parts }
{
    let mut seats = Vec::new(alloc);
    seats.push(seat)?;
    Ok(served.close(seats).err())
}

/// How many entries the journal has after a close with what a fault gave back and one seat more.
fn entries_again<L: Roll<Cells>>(fault: CloseFault<Cells, L>, seat: Seat<L>) -> Made<Option<usize>>
    requires { L.all ≡ L.parts }
{
    let CloseFault {
        served,
        mut seats,
        ..
    } = fault;
    seats.push(seat)?;
    Ok(entries_after(served, seats))
}

/// What a fault tells: how many seats were made and given, and how many came back.
type Told = (u32, u32, usize);

fn told_by<L: Roll<Cells>>(fault: &CloseFault<Cells, L>) -> Told {
    (fault.made, fault.given, fault.seats.len())
}

/// What a close with the first seat tells, and how many entries the journal has after one with
/// both, if that is taken.
fn closed_twice<L: Roll<Cells>>(alloc: Global, pair: Pair<L>) -> Made<Option<(Told, Option<usize>)>>
    requires { L.all ≡ L.parts }
{
    let Pair { served, one, two } = pair;
    let Some(fault) = fault_of(alloc, served, one)? else {
        return Ok(None);
    };
    let told = told_by(&fault);
    Ok(Some((told, entries_again(fault, two)?)))
}

/// The same of a service of which the first seat made one call.
fn closed_after_a_call<L: Roll<Cells>, R: Wait>(
    rt: &R,
    alloc: Global,
    blank: Blank,
    set: Cells,
) -> Made<Option<(Told, Option<usize>)>>
    requires name { blank.name ≡ L.name }
    requires parts { blank.parts ≡ L.parts }
    requires all { L.all ≡ L.parts }
    requires begins { L.begins ≡ Some set }
    requires two { blank.parts ≡ 2 }
{
    let mut pair = opened::<L>(alloc, blank, set)?;
    let _ = ask(rt, alloc, &mut pair, "mutation { bump }");
    closed_twice(alloc, pair)
}

#[test]
fn one_seat_is_too_few(rt: HostRuntime) -> Result<(), Fail> {
    let set = Cells { cell: 0 };
    let told = closed_after_a_call::<Brand, _>(&rt, rt.alloc(), Blank::new(2), set)?;
    assert_eq!(rt; told, Some(((2, 1, 1), Some(1))));
    Ok(())
}
