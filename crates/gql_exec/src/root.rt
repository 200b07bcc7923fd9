//! The objects at the roots of operations.
ghost use Rattle.std.specs.Prelude.{◌≡◌, MatchResult, Ok, Err};
ghost use Rattle.std.specs.Option.{option_copied};
ghost use Rattle.gql_exec.specs.Root.{root_for, root_object};

use crate::schema::Schema;
use gql_doc::OperationType;
use gql_schema::{Object, SchemaType};

impl Schema {
    /// The object at the root of the operations of a kind.
    pub fn root_object(&self, ty: OperationType) -> Option<&Object>
        ensures { option_copied result ≡ root_object self.now ty }
    {
        match self.types().get(self.root(ty)?) {
            Some(SchemaType::Object(object)) => Some(object),
            _ => None,
        }
    }

    /// The object of which the operations of a kind are executed, or why there is none.
    pub(crate) fn root_for(&self, ty: OperationType) -> Result<&Object, &'static str>
        ensures { MatchResult result (λ object. root_for self.now ty ≡ Ok object.now)
            (λ text. root_for self.now ty ≡ Err text.now) }
    {
        let root = self.root_object(ty);
        match (ty, root) {
            (OperationType::Query | OperationType::Mutation, Some(object)) => Ok(object),
            (OperationType::Query, None) => Err("Query root not found"),
            (OperationType::Mutation, None) => Err("Mutation root not found"),
            (OperationType::Subscription, _) => {
                Err("Subscriptions are not supported on this transport.")
            }
        }
    }
}
