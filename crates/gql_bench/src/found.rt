//! From the JSON of a bench to the bench.
ghost use Rattle.std.specs.Prelude.{IfOk, MatchResult};
ghost use Rattle.serde_json.specs.View.{view};
ghost use Rattle.gql_bench.specs.Found.{HasTables, IsBadAt};

use crate::bench::Bench;
use crate::making::bench_over;
use gql_base::{Made, Text};
use gql_form::{Command, form_of};
use serde_json::Value;
use std::alloc::Global;

/// The bench that a JSON value is for a command, or the text of its first bad place. Its schema
/// isn't checked, and forms that aren't built are taken as others are.
pub fn bench_of(alloc: Global, command: Command, json: &Value) -> Made<Result<Bench, Text>>
    ensures { IfOk result (λ made. MatchResult made
        (HasTables command (view json.now)) (IsBadAt command (view json.now))) }
{
    match form_of(alloc, command, json)? {
        Ok(form) => Ok(Ok(bench_over(alloc, form)?)),
        Err(place) => Ok(Err(place)),
    }
}
