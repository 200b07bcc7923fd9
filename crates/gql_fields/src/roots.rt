//! The types at the roots of operations.
ghost use Rattle.std.specs.Prelude.{◌≡◌};
ghost use Rattle.std.specs.Option.{option_copied};
ghost use Rattle.gql_fields.specs.Places.{as_object, as_subscription, root_of, type_named};
ghost use Rattle.gql_fields.specs.Terms.{terms_of};

use crate::site::Site;
use gql_doc::OperationType;
use gql_schema::SchemaType;

impl<'a> Site<'a> {
    /// The type at the root of a kind of operation, where there is one.
    pub fn root(&self, kind: OperationType) -> Option<&'a SchemaType>
        ensures { option_copied result ≡ root_of (terms_of self.now) kind }
    {
        match kind {
            OperationType::Query => object_of(self.types.get(self.query)),
            OperationType::Mutation => object_of(self.named(self.mutation)),
            OperationType::Subscription => subscription_of(self.named(self.subscription)),
        }
    }

    /// The type of a name, where there is one.
    fn named(&self, name: Option<&str>) -> Option<&'a SchemaType>
        ensures { option_copied result ≡ type_named (terms_of self.now) (option_copied name.entry) }
    {
        match name {
            None => None,
            Some(name) => self.types.get(name),
        }
    }
}

fn object_of(ty: Option<&SchemaType>) -> Option<&SchemaType>
    ensures { option_copied result ≡ as_object (option_copied ty.entry) }
{
    match ty {
        Some(SchemaType::Object(_)) => ty,
        _ => None,
    }
}

fn subscription_of(ty: Option<&SchemaType>) -> Option<&SchemaType>
    ensures { option_copied result ≡ as_subscription (option_copied ty.entry) }
{
    match ty {
        Some(SchemaType::Subscription(_)) => ty,
        _ => None,
    }
}
