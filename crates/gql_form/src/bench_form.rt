//! The whole bench.
ghost use Rattle.std.specs.Prelude.{◌≡◌, IfOk};
ghost use Rattle.serde_json.specs.View.{view};
ghost use Rattle.gql_form.specs.BenchForm.{bench_of, cell_count, form_in};
ghost use Rattle.gql_form.specs.Faults.{IsRead};

use crate::command::Command;
use crate::fault::Fault;
use crate::form::Reader;
use crate::members::Members;
use crate::place::place_text;
use crate::setup_form::{SetupForm, read_setup};
use crate::work_form::{WorkForm, read_work};
use gql_base::{Made, Text};
use serde_json::Value as Json;
use std::alloc::{AllocError, Global};

/// A bench as it is read.
#[derive(Drop)]
pub struct BenchForm {
    pub setup: SetupForm,
    pub work: WorkForm,
}

/// The bench that a JSON value is for a command, or the text of its first bad place.
pub fn form_of(alloc: Global, command: Command, json: &Json) -> Made<Result<BenchForm, Text>>
    ensures { IfOk result (λ read. read ≡ form_in command (view json.now)) }
{
    let cells = count_cells(json);
    match read_bench(Reader { alloc, cells }, command, json) {
        Ok(bench) => Ok(Ok(bench)),
        Err(Fault::Bad(place)) => Ok(Err(place_text(alloc, place)?)),
        Err(Fault::NoMemory) => Err(AllocError),
    }
}

/// How many cells a bench has.
#[tactic(auto, using(crate::proofs::ReadLemmas::items_long))]
fn count_cells(json: &Json) -> usize
    ensures { result ≡ cell_count (view json.now) }
{
    let Some(cells) = json.get("cells") else {
        return 0;
    };
    match cells.as_array() {
        Some(cells) => cells.len(),
        None => 0,
    }
}

fn read_bench(reader: Reader, command: Command, json: &Json) -> Result<BenchForm, Fault>
    ensures { IsRead result (bench_of reader.cells command (view json.now)) }
{
    let mut members = Members::of(reader, json);
    let setup = read_setup(&mut members)?;
    let work = read_work(&mut members, command)?;
    members.no_others(BenchForm { setup, work })
}
