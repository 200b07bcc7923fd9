//! A bench as it is made of what was read.
ghost use Rattle.std.specs.Prelude.{◌≡◌, IfOk, length};
ghost use Rattle.gql_bench.specs.Bench.{requests_in, session_in, IsBenchOf};
ghost use Rattle.gql_bench.specs.Built.{is_logged};
ghost use Rattle.gql_bench.specs.Cells.{AreBelow};
ghost use Rattle.gql_bench.specs.Given.{given_of};
ghost use Rattle.gql_bench.specs.Rule.{schema_rules, sources_of};

use crate::bench::Bench;
use crate::built::{is_built_form, is_logged};
use crate::given::given_from;
use crate::rule::Rule;
use crate::rule_table::RuleTable;
use crate::schema_table::builder_of;
use gql_base::{Common, Items, Made};
use gql_form::{BenchForm, EventForm, SchemaForm, SessionForm, SetupForm, TypeForm, WorkForm};
use gql_request::BatchRequest;
use gql_resolve::FieldValue;
use std::alloc::Global;

/// What a bench has beside its schema, its requests and its session.
#[derive(Drop)]
struct Contents {
    rules: Common<Items<Rule>>,
    sources: Items<Items<EventForm>>,
    cells: Items<i64>,
    root: FieldValue<i64>,
    turns: Items<u64>,
    log: bool,
}

/// The bench that is read as this form. What was read is moved.
pub fn bench_over(alloc: Global, form: BenchForm) -> Made<Bench>
    requires { AreBelow (length form.setup.cells) (schema_rules form.setup.schema) }
    ensures { IfOk result (IsBenchOf form) }
{
    let builder = builder_of(alloc, &form.setup.schema)?;
    let built = is_built_form(&form);
    let BenchForm { setup, work } = form;
    let Contents {
        rules,
        sources,
        cells,
        root,
        turns,
        log,
    } = contents_of(alloc, setup)?;
    let (requests, ws) = work_of(alloc, work);
    Ok(Bench {
        builder,
        rules,
        sources,
        cells,
        root,
        turns,
        log,
        requests,
        ws,
        built,
    })
}

/// What a setup has beside its schema.
fn contents_of(alloc: Global, setup: SetupForm) -> Made<Contents>
    ensures rules { IfOk result (λ contents. contents.rules ≡ schema_rules setup.schema) }
    ensures sources { IfOk result (λ contents. contents.sources ≡ sources_of setup.schema.types) }
    ensures cells { IfOk result (λ contents. contents.cells ≡ setup.cells) }
    ensures root { IfOk result (λ contents. contents.root ≡ given_of setup.root) }
    ensures turns { IfOk result (λ contents. contents.turns ≡ setup.turns) }
    ensures log { IfOk result (λ contents. contents.log ≡ is_logged setup.hooks) }
{
    let SetupForm {
        schema,
        cells,
        root,
        turns,
        hooks,
    } = setup;
    let root = given_from(alloc, root)?;
    let entities = schema.settings.entities;
    let RuleTable { rules, sources } = RuleTable::of(alloc, types_of(schema), entities)?;
    Ok(Contents {
        rules: Common::new(alloc, rules)?,
        sources,
        cells,
        root,
        turns,
        log: is_logged(hooks),
    })
}

/// The types of a schema. The rest of it is let go of.
fn types_of(schema: SchemaForm) -> Items<TypeForm>
    ensures { result ≡ schema.types }
{
    let SchemaForm {
        query,
        mutation,
        subscription,
        types,
        settings: _,
    } = schema;
    drop(query);
    drop(mutation);
    drop(subscription);
    types
}

/// The requests and the session that a command has.
fn work_of(alloc: Global, work: WorkForm) -> (BatchRequest, Option<SessionForm>)
    ensures requests { result.0 ≡ requests_in work }
    ensures session { result.1 ≡ session_in work }
{
    match work {
        WorkForm::One(request) => (BatchRequest::Single(request), None),
        WorkForm::Batch(requests) => (requests, None),
        WorkForm::Session(session) => (BatchRequest::Batch(Items::new(alloc)), Some(session)),
    }
}
