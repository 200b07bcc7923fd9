//! The run of `load`, which reads nothing.
ghost use Rattle.std.specs.Prelude.{IfOk};
ghost use Rattle.gql_cli.specs.Gives.{HoldsTold, WithRecord};
ghost use Rattle.gql_cli.specs.Load.{LoadGives};

use crate::answer::{Answer, answer_by};
use crate::lines::load_line;
use crate::outcome::Outcome;
use gql_base::Made;
use gql_bench::{Tables, bench_over};
use gql_load::load_form;
use std::alloc::Global;

/// What `load` gives with so many rows: the line of its response, and of the record that the set
/// told which `tables` hold.
pub(crate) fn load_outcome<M: Tables>(alloc: Global, rows: usize, tables: &mut M) -> Made<Outcome>
    ensures { IfOk result
        (WithRecord (LoadGives rows) (HoldsTold (M.held tables.new) M.Set.told)) }
{
    let form = load_form(alloc, rows)?;
    let bench = bench_over(alloc, form)?;
    match answer_by(alloc, bench, tables)? {
        Answer::Response(response) => {
            let line = load_line(alloc, rows, tables.told(), &response)?;
            Ok(Outcome::Loaded(line))
        }
        Answer::BadSchema(_) => unreachable!(),
    }
}
