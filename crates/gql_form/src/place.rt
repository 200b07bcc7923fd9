ghost use Rattle.std.specs.Prelude.{◌≡◌, IfOk, OnOk, ◌++◌, string_bytes};
ghost use Rattle.gql_form.specs.Place.{place_text, steps_text, first_step_text, step_text};
ghost use Rattle.gql_form.specs.Place.{index_text};

use gql_base::{JsonPlace, Made, PathSegment, Text};
use std::alloc::Global;

/// A place as it is written, such as `schema.types[0].name`. The whole is `bench`.
pub(crate) fn place_text(alloc: Global, place: JsonPlace) -> Made<Text>
    ensures { IfOk result (λ text. text ≡ place_text place) }
{
    let mut place = place;
    let mut out = String::new(alloc);
    match place.next_step() {
        Some(step) => {
            push_first_step(&mut out, step)?;
            push_steps(&mut out, place)?;
        }
        None => out.push_str("bench")?,
    }
    Text::from_string(out)
}

/// Appends the first step.
fn push_first_step(out: &mut String, step: PathSegment) -> Made<()>
    ensures { OnOk result (string_bytes out.new ≡ string_bytes out.old ++ first_step_text step) }
{
    match step {
        PathSegment::Field(name) => out.push_str(name.as_str()),
        PathSegment::Index(place) => push_index(out, place),
    }
}

/// Appends the steps after the first.
fn push_steps(out: &mut String, place: JsonPlace) -> Made<()>
    ensures { OnOk result (string_bytes out.new ≡ string_bytes out.old ++ steps_text place) }
{
    let mut place = place;
    while let Some(step) = place.next_step() {
        push_step(out, step)?;
    }
    Ok(())
}

fn push_step(out: &mut String, step: PathSegment) -> Made<()>
    ensures { OnOk result (string_bytes out.new ≡ string_bytes out.old ++ step_text step) }
{
    match step {
        PathSegment::Field(name) => {
            out.push('.')?;
            out.push_str(name.as_str())
        }
        PathSegment::Index(place) => push_index(out, place),
    }
}

fn push_index(out: &mut String, place: usize) -> Made<()>
    ensures { OnOk result (string_bytes out.new ≡ string_bytes out.old ++ index_text place) }
{
    write!(out, "[{place}]")
}
