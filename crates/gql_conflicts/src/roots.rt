//! The roots of operations.
ghost use Rattle.std.specs.Prelude.{◌≡◌};
ghost use Rattle.std.specs.Option.{option_copied};
ghost use Rattle.gql_schema.specs.Table.{types_of};
ghost use Rattle.gql_conflicts.specs.Rooted.{events_named, object_named, root_of, rooted_of};

use crate::rooted_types::RootedTypes;
use gql_doc::OperationType;
use gql_schema::{SchemaType, Types};

/// The name of the root of a kind of operation, where there is one.
pub(crate) fn root_of<'a>(rooted: &RootedTypes<'a>, kind: OperationType) -> Option<&'a str>
    ensures { option_copied result ≡ root_of (rooted_of rooted.entry.now) kind }
{
    match kind {
        OperationType::Query => object_named(rooted.types, rooted.query),
        OperationType::Mutation => object_named(rooted.types, rooted.mutation?),
        OperationType::Subscription => events_named(rooted.types, rooted.subscription?),
    }
}

/// The name, where it is that of an object.
fn object_named<'a>(types: &Types, name: &'a str) -> Option<&'a str>
    ensures { option_copied result ≡ object_named (types_of types.now) name.entry.now }
{
    match types.get(name) {
        Some(SchemaType::Object(_)) => Some(name),
        _ => None,
    }
}

/// The name, where it is that of a type of events.
fn events_named<'a>(types: &Types, name: &'a str) -> Option<&'a str>
    ensures { option_copied result ≡ events_named (types_of types.now) name.entry.now }
{
    match types.get(name) {
        Some(SchemaType::Subscription(_)) => Some(name),
        _ => None,
    }
}
