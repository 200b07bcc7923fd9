ghost use Rattle.std.specs.Prelude.{◌≡◌, IsSome, Some, None, MatchResult, Option};
ghost use Rattle.std.specs.Option.{option_copied, option_or};
ghost use Rattle.gql_request.specs.Data.{under_key};

use crate::data::{Data, DataKey, NoData};
use gql_base::Value;

/// What tells the values of one or more layers by their keys.
pub trait DataContext<'a> {
    ghost use Rattle.std.specs.Prelude.{ℕ, Option};
    ghost use Rattle.gql_base.specs.declared.value.Value.{Value as OneValue};

    /// The value under the number of a key, if any.
    ghost held: { Self → ℕ → Option OneValue };

    /// The value under a key, or none where no layer has the key.
    fn data_opt(&self, key: DataKey) -> Option<&'a Value>
        ensures { option_copied result ≡ held self.now key.0 };

    /// The value under a key, or that there is none.
    fn data(&self, key: DataKey) -> Result<&'a Value, NoData>
        ensures { MatchResult result (λ value. held self.now key.0 ≡ Some value.now)
            (λ no. (no.0 ≡ key) × (held self.now key.0 ≡ None)) };

    /// The value under a key that is there.
    fn data_unchecked(&self, key: DataKey) -> &'a Value
        requires { IsSome (held self.now key.0) }
        ensures { held self.now key.0 ≡ Some result.now };
}

/// What was found in an earlier layer, else what this one has.
pub fn found_or<'a>(earlier: Option<&'a Value>, layer: &'a Data, key: DataKey) -> Option<&'a Value>
    ensures { option_copied result
        ≡ option_or (option_copied earlier.entry) (under_key key.0 layer.now) }
{
    match earlier {
        Some(value) => Some(value),
        None => layer.get(key),
    }
}
