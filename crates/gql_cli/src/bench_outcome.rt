//! From a bench to what is to be written.
ghost use Rattle.std.specs.Prelude.{◌≡◌, IfOk};
ghost use Rattle.gql_cli.specs.Gives.{BenchGives, HoldsTold, WithRecord, errors_in, lines_for};
ghost use Rattle.gql_cli.specs.Gives.{outcome_for, response_text};
ghost use Rattle.gql_request.specs.BatchResponse.{responses_of};

use crate::answer::{Answer, answer_by};
use crate::lines::{line_after, line_of};
use crate::outcome::Outcome;
use gql_base::{Made, Text};
use gql_bench::{Bench, Tables, text_behind};
use gql_form::Command;
use gql_request::BatchResponse;
use gql_resolve::RecordEntry;
use std::alloc::Global;

/// What a bench gives to a command. Its requests are executed over a set that `tables` makes, and
/// that is given back to them before the command writes of its record.
pub(crate) fn bench_outcome<M: Tables>(
    alloc: Global,
    command: Command,
    bench: Bench,
    tables: &mut M,
) -> Made<Outcome>
    ensures { IfOk result
        (WithRecord (BenchGives command bench) (HoldsTold (M.held tables.new) M.Set.told)) }
{
    if !bench.is_built() {
        return Ok(Outcome::NotBuilt);
    }
    match answer_by(alloc, bench, tables)? {
        Answer::Response(response) => { response_outcome(alloc, command, tables.told(), &response) }
        Answer::BadSchema(text) => {
            let line = line_after(alloc, "schema: ", text.as_str())?;
            Ok(Outcome::BadSchema(line))
        }
    }
}

/// What a response is to a run, with the record of its polls.
#[tactic(auto, using(crate::proofs::ErrorLemmas::all_answered, crate::proofs::ErrorLemmas::one_failed))]
fn response_outcome(
    alloc: Global,
    command: Command,
    entries: &[RecordEntry],
    response: &BatchResponse,
) -> Made<Outcome>
    ensures { IfOk result (λ outcome. outcome ≡ outcome_for (errors_in (responses_of response.now))
        (response_text command entries.now response.now)) }
{
    let text = written_text(alloc, command, entries, response)?;
    if response.is_ok() {
        Ok(Outcome::Answered(text))
    } else {
        Ok(Outcome::HasErrors(text))
    }
}

/// What a command writes of a response: the lines of a record stand before it.
fn written_text(
    alloc: Global,
    command: Command,
    entries: &[RecordEntry],
    response: &BatchResponse,
) -> Made<Text>
    ensures { IfOk result (λ text. text ≡ response_text command entries.now response.now) }
{
    let line = line_of(alloc, response)?;
    match command {
        Command::Record => text_behind(alloc, entries, &line),
        _ => Ok(line),
    }
}
