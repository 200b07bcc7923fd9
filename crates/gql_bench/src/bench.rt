//! A bench with all its members.
ghost use Rattle.std.specs.Prelude.{length};
ghost use Rattle.gql_bench.specs.Cells.{AreBelow};

use crate::rule::Rule;
use gql_base::{Common, Items};
use gql_form::{EventForm, SessionForm};
use gql_request::BatchRequest;
use gql_resolve::FieldValue;
use gql_settings::SchemaBuilder;

/// A bench: what a command runs over, and the requests that it answers. Each cell that a rule names
/// is one of its cells.
#[derive(Drop)]
pub struct Bench {
    /// The builder of the schema, with the bench's types and settings. Fields of objects have their
    /// resolvers, and fields of subscriptions their sources, by their numbers in the order of the
    /// bench.
    pub builder: SchemaBuilder,
    /// The rules of the resolvers by their numbers, which the resolver sets that are made of the
    /// bench share. Where the entity rule is set, it is the last.
    pub rules: Common<Items<Rule>>,
    /// The events of the sources by their numbers.
    pub sources: Items<Items<EventForm>>,
    /// The cells of the world.
    pub cells: Items<i64>,
    /// The value of the object at the root.
    pub root: FieldValue<i64>,
    /// The numbers by which the turns go.
    pub turns: Items<u64>,
    /// Whether hooks log each stage.
    pub log: bool,
    /// The requests: of a session there are none.
    pub requests: BatchRequest,
    /// The session with a WebSocket client, where there is one.
    pub ws: Option<SessionForm>,
    /// Whether the bench was read without a form that isn't built.
    pub(crate) built: bool,
    pub ghost placed: { AreBelow (length cells) rules },
}

impl Bench {
    ghost use Rattle.std.specs.Prelude.{◌≡◌};
    ghost use Rattle.gql_bench.specs.Built.{is_built};

    /// True exactly where the bench was read without a form that isn't built.
    pub fn is_built(&self) -> bool
        ensures { result ≡ is_built self.now }
    {
        self.built
    }
}
