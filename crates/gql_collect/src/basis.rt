//! What ExecuteSelectionSet goes by, and how it groups the occurrences of fields (GraphQL, October
//! 2021, section 6.3).
use crate::collect::Collector;
use gql_request::QueryEnv;
use gql_resolve::Layers;
use gql_schema::Types;

/// How the occurrences of fields that an object has are put into groups, each of which asks one
/// answer, and what is kept of their places.
#[derive(Clone, Copy)]
pub enum Grouping {
    /// One group for each key, which is merged execution. Of a place that tells a response nothing
    /// beside its data, the data alone is kept.
    ByKey,
    /// One group for each key, and whole places.
    ByKeyWhole,
    /// Each occurrence alone, which is apart execution, and whole places: those of one key are
    /// joined.
    Each,
}

impl Grouping {
    ghost use Rattle.std.specs.Prelude.{◌≡◌};
    ghost use Rattle.gql_collect.specs.GroupFields.{keeps_whole};

    /// Whether places are kept whole.
    pub fn keeps_whole(self) -> bool
        ensures { result ≡ keeps_whole self }
    {
        match self {
            Grouping::ByKey => false,
            Grouping::ByKeyWhole | Grouping::Each => true,
        }
    }
}

/// What an execution stands on, but for its root, its answers and its world: the request, the types
/// of its schema, the entities, the data of the layers, and how occurrences are grouped. The root
/// keys of a mutation are merged in any case.
#[derive(Clone, Copy)]
pub struct Basis<'a> {
    pub env: &'a QueryEnv,
    pub types: &'a Types,
    /// The name of the query root.
    pub query: &'a str,
    /// The resolver of entities, where there is one.
    pub entities: Option<u32>,
    pub layers: Layers<'a>,
    pub grouping: Grouping,
}

impl<'a> Basis<'a> {
    ghost use Rattle.gql_collect.specs.CollectFields.{ReadsAlike};
    ghost use Rattle.gql_collect.specs.Basis.{setting_by};

    /// What CollectFields needs of it.
    pub fn collector(&self) -> Collector<'a>
        ensures { ReadsAlike result (setting_by self.now) }
    {
        Collector {
            types: self.types,
            fragments: &self.env.fragments,
            levels: self.env.levels(),
        }
    }
}
