//! Which benches are built.
ghost use Rattle.std.specs.Prelude.{◌≡◌, ◌&&◌, not, is_some};
ghost use Rattle.std.specs.List.{list_any};
ghost use Rattle.gql_bench.specs.Built.{bumps, has_requests, has_subscription, is_built_form};
ghost use Rattle.gql_bench.specs.Built.{is_logged, is_subscription};

use crate::rule::{Rule, RuleKind};
use gql_form::{BenchForm, HooksForm, SchemaForm, TypeForm, WorkForm};

/// Whether a bench is built.
pub(crate) fn is_built_form(form: &BenchForm) -> bool
    ensures { result ≡ is_built_form form.now }
{
    let command = !is_logged(form.setup.hooks) && has_requests(&form.work);
    command && !has_subscription(&form.setup.schema)
}

/// Whether hooks log each stage.
pub(crate) fn is_logged(hooks: HooksForm) -> bool
    ensures { result ≡ is_logged hooks }
{
    match hooks {
        HooksForm::None => false,
        HooksForm::Log => true,
    }
}

/// Whether a command answers requests.
fn has_requests(work: &WorkForm) -> bool
    ensures { result ≡ has_requests work.now }
{
    match work {
        WorkForm::One(_) | WorkForm::Batch(_) => true,
        WorkForm::Session(_) => false,
    }
}

/// Whether a schema has the name of a subscription root, or a subscription.
fn has_subscription(schema: &SchemaForm) -> bool
    ensures { result ≡ has_subscription schema.now }
{
    schema.subscription.is_some() || has_one(schema.types.as_slice())
}

/// Whether one of these types is a subscription.
fn has_one(types: &[TypeForm]) -> bool
    ensures { result ≡ list_any is_subscription types.now }
{
    types.iter().any(|form| is_subscription(form))
}

/// Whether a type is a subscription.
fn is_subscription(form: &TypeForm) -> bool
    ensures { result ≡ is_subscription form.now }
{
    match form {
        TypeForm::Subscription(_) => true,
        TypeForm::Object(_)
        | TypeForm::Interface(_)
        | TypeForm::Union(_)
        | TypeForm::Enum(_)
        | TypeForm::Input(_)
        | TypeForm::Scalar(_) => false,
    }
}

/// Whether a rule changes a cell.
pub(crate) fn bumps(rule: &Rule) -> bool
    ensures { result ≡ bumps rule.now }
{
    match &rule.kind {
        RuleKind::Bump(_) => true,
        RuleKind::Const(_)
        | RuleKind::None
        | RuleKind::Fail(_)
        | RuleKind::Member(_)
        | RuleKind::Arg(_)
        | RuleKind::Sum(_)
        | RuleKind::Entities
        | RuleKind::Read(_) => false,
    }
}
