ghost use Rattle.std.specs.Prelude.{◌≡◌, IsSome, Some, None, MatchResult};
ghost use Rattle.std.specs.Option.{option_copied};

use crate::data::{Data, DataKey, NoData};
use crate::data_context::{DataContext, found_or};
use gql_base::Value;

/// What hooks are called with: the data of the layers, without what hooks themselves added.
#[derive(Clone, Copy)]
pub struct ExtensionContext<'a> {
    /// What the schema was built with.
    pub schema_data: &'a Data,
    /// What the session brought.
    pub session_data: &'a Data,
    /// What the request brought, once it is known.
    pub query_data: Option<&'a Data>,
}

/// A key is searched in the request's layer, then in the session's, then in the schema's.
impl<'a> DataContext<'a> for ExtensionContext<'a> {
    ghost use Rattle.gql_request.specs.ExtensionContext.{held_by};

    ghost held = { held_by };

    fn data_opt(&self, key: DataKey) -> Option<&'a Value> {
        let queried = match self.query_data {
            Some(layer) => layer.get(key),
            None => None,
        };
        found_or(
            found_or(queried, self.session_data, key),
            self.schema_data,
            key,
        )
    }

    fn data(&self, key: DataKey) -> Result<&'a Value, NoData> {
        match self.data_opt(key) {
            Some(value) => Ok(value),
            None => Err(NoData(key)),
        }
    }

    fn data_unchecked(&self, key: DataKey) -> &'a Value {
        match self.data_opt(key) {
            Some(value) => value,
            None => unreachable!(),
        }
    }
}
