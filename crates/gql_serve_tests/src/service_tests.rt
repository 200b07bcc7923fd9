//! A service that callers on two threads share.
ghost use Rattle.std.specs.Prelude.{◌≡◌, Some};

use crate::calls::{ask, both_bump};
use crate::cells::Cells;
use crate::closing::entries_of;
use crate::pair::opened;
use gql_base::{Made, Text};
use gql_serve::Roll;
use std::alloc::Global;
use std::marker::Brand;
use std::sync::Wait;
use std::sync::ledger::Blank;
use std::test::Fail;
use std::thread::Threads;

/// What a seat is told of the cell, once both have bumped it.
fn cell_after<L: Roll<Cells> + Send + Sync, R: Threads + Wait + Sync>(
    rt: &R,
    alloc: Global,
    blank: Blank,
    set: Cells,
) -> Made<Text>
    requires name { blank.name ≡ L.name }
    requires parts { blank.parts ≡ L.parts }
    requires all { L.all ≡ L.parts }
    requires begins { L.begins ≡ Some set }
    requires two { blank.parts ≡ 2 }
{
    let mut pair = both_bump(rt, alloc, opened::<L>(alloc, blank, set)?);
    ask(rt, alloc, &mut pair, "{ cell }")
}

#[test]
fn two_seats_on_two_threads(rt: HostRuntime) -> Result<(), Fail> {
    let set = Cells { cell: 0 };
    let json = cell_after::<Brand, _>(&rt, rt.alloc(), Blank::new(2), set)?;
    assert_eq!(rt; json.as_str(), r#"{"data":{"cell":2}}"#);
    Ok(())
}

/// How many entries the journal has after two calls of one seat and one of the other, and how many
/// they counted.
fn counts<L: Roll<Cells> + Send + Sync, R: Threads + Wait + Sync>(
    rt: &R,
    alloc: Global,
    blank: Blank,
    set: Cells,
) -> Made<(Option<usize>, u64, u64)>
    requires name { blank.name ≡ L.name }
    requires parts { blank.parts ≡ L.parts }
    requires all { L.all ≡ L.parts }
    requires begins { L.begins ≡ Some set }
    requires two { blank.parts ≡ 2 }
{
    let mut pair = both_bump(rt, alloc, opened::<L>(alloc, blank, set)?);
    let _ = ask(rt, alloc, &mut pair, "{ cell }");
    let (one, two) = (pair.one.entries(), pair.two.entries());
    Ok((entries_of(alloc, pair)?, one, two))
}

#[test]
fn the_journal_has_what_the_seats_counted(rt: HostRuntime) -> Result<(), Fail> {
    let set = Cells { cell: 0 };
    let counts = counts::<Brand, _>(&rt, rt.alloc(), Blank::new(2), set)?;
    assert_eq!(rt; counts, (Some(3), 2, 1));
    Ok(())
}
