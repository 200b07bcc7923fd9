ghost use Rattle.std.specs.Prelude.{◌≡◌, IsSome, Some, None, MatchResult};
ghost use Rattle.std.specs.Option.{option_copied};

use gql_base::Value;
use gql_request::{Data, DataContext, DataKey, NoData, found_or};

/// The data that a resolver sees, in layers. A key is searched in the order in which they stand
/// here.
#[derive(Clone, Copy)]
pub struct Layers<'a> {
    /// What hooks added for this execution, if any.
    pub execute: Option<&'a Data>,
    /// What the request brought.
    pub query: &'a Data,
    /// What the session brought.
    pub session: &'a Data,
    /// What the schema was built with.
    pub schema: &'a Data,
}

impl<'a> DataContext<'a> for Layers<'a> {
    ghost use Rattle.gql_request.specs.Data.{found};
    ghost use Rattle.gql_resolve.specs.Layers.{layers_of};

    ghost held = { λ layers key. found key (layers_of layers) };

    fn data_opt(&self, key: DataKey) -> Option<&'a Value> {
        let added = match self.execute {
            Some(layer) => layer.get(key),
            None => None,
        };
        found_or(
            found_or(found_or(added, self.query, key), self.session, key),
            self.schema,
            key,
        )
    }

    fn data(&self, key: DataKey) -> Result<&'a Value, NoData> {
        match self.data_opt(key) {
            Some(value) => Ok(value),
            None => Err(NoData(key)),
        }
    }

    fn data_unchecked(&self, key: DataKey) -> &'a Value {
        match self.data_opt(key) {
            Some(value) => value,
            None => unreachable!(),
        }
    }
}
