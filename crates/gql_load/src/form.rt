//! The whole bench.
ghost use Rattle.std.specs.Prelude.{◌≡◌, IfOk};
ghost use Rattle.gql_load.specs.Form.{load_form, load_setup, load_work};

use crate::schema::load_schema;
use crate::turns::load_turns;
use gql_base::{Items, Made, Value};
use gql_form::{Answered, BenchForm, HooksForm, SetupForm, WorkForm};
use gql_request::Request;
use std::alloc::Global;

/// The bench of `load` with so many rows, as it would be read.
pub fn load_form(alloc: Global, rows: usize) -> Made<BenchForm>
    ensures { IfOk result (λ form. form ≡ load_form rows) }
{
    let work = load_work(alloc)?;
    let setup = load_setup(alloc, rows)?;
    Ok(BenchForm { setup, work })
}

/// Its request: the two occurrences of `rows` are one key of the response.
fn load_work(alloc: Global) -> Made<WorkForm>
    ensures { IfOk result (λ work. work ≡ load_work) }
{
    let request = Request::new(alloc, "{ rows { id tag } rows { id twice: id } }")?;
    Ok(WorkForm::One(request))
}

/// Its schema and its turns: there are neither cells nor hooks.
fn load_setup(alloc: Global, rows: usize) -> Made<SetupForm>
    ensures { IfOk result (λ setup. setup ≡ load_setup rows) }
{
    let turns = load_turns(alloc)?;
    let schema = load_schema(alloc, rows)?;
    Ok(SetupForm {
        schema,
        cells: Items::new(alloc),
        root: Answered::Value(Value::Null),
        turns,
        hooks: HooksForm::None,
    })
}
