//! From the bytes of a bench to what is to be written.
ghost use Rattle.std.specs.Prelude.{◌≡◌, IfOk, option_map};
ghost use Rattle.serde_json.specs.View.{view};
ghost use Rattle.gql_cli.specs.Gives.{Gives, HoldsTold, JsonGives, WithRecord, json_of};
ghost use Rattle.gql_cli.specs.Gives.{shape_line};

use crate::bench_outcome::bench_outcome;
use crate::lines::line_after;
use crate::outcome::Outcome;
use gql_base::{Items, Made};
use gql_bench::{Tables, bench_of};
use gql_form::Command;
use serde_json::Value;
use std::alloc::{AllocError, Global};

/// What the bytes of a bench give to a command. They are let go of once their JSON is read.
pub(crate) fn outcome_of<M: Tables>(
    alloc: Global,
    command: Command,
    bytes: Items<u8>,
    tables: &mut M,
) -> Made<Outcome>
    ensures { IfOk result
        (WithRecord (Gives command bytes) (HoldsTold (M.held tables.new) M.Set.told)) }
{
    let json = json_value(alloc, bytes.as_slice());
    drop(bytes);
    match json? {
        None => Ok(Outcome::NotJson),
        Some(json) => json_outcome(alloc, command, json, tables),
    }
}

/// The JSON value of the bytes, where they have one.
fn json_value(alloc: Global, bytes: &[u8]) -> Made<Option<Value>>
    ensures { IfOk result (λ found. option_map view found ≡ json_of bytes.now) }
{
    match Value::from_slice(alloc, bytes) {
        Ok(json) => Ok(Some(json)),
        Err(error) if error.is_memory() => Err(AllocError),
        Err(_) => Ok(None),
    }
}

/// What a JSON value gives to a command. The value is let go of once it is read, so that its room
/// serves the run.
fn json_outcome<M: Tables>(
    alloc: Global,
    command: Command,
    json: Value,
    tables: &mut M,
) -> Made<Outcome>
    ensures { IfOk result
        (WithRecord (JsonGives command (view json)) (HoldsTold (M.held tables.new) M.Set.told)) }
{
    let read = bench_of(alloc, command, &json);
    drop(json);
    match read? {
        Ok(bench) => bench_outcome(alloc, command, bench, tables),
        Err(place) => {
            let line = line_after(alloc, "bench: bad shape at ", place.as_str())?;
            Ok(Outcome::BadShape(line))
        }
    }
}
