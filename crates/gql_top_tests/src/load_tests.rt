//! The bench of `load`, as it is made.
use gql_form::BenchForm;
use gql_load::load_form;
use std::test::Fail;

/// Whether a bench has two types, no cells, and a thousand turns in steps of 37.
fn is_load(form: &BenchForm) -> bool {
    let turns = form.setup.turns.as_slice();
    let is_alone = form.setup.schema.types.len() == 2 && form.setup.cells.is_empty();
    is_alone && turns.len() == 1000 && turns.starts_with(&[0, 37, 74, 10, 47, 84])
}

#[test]
fn the_bench_of_a_load(rt: HostRuntime) -> Result<(), Fail> {
    let form = load_form(rt.alloc(), 2)?;
    assert!(rt; is_load(&form));
    Ok(())
}
