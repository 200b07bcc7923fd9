ghost use Rattle.std.specs.Prelude.{◌≡◌};
ghost use Rattle.gql_schema.specs.DeclaredField.{declared_behind};

use crate::by_name::ByName;
use crate::field::Field;
use crate::input_value::InputValue;
use crate::interface_field::InterfaceField;
use crate::subscription_field::SubscriptionField;
use gql_base::TypeRef;

/// A field as an object, an interface or a subscription declares it: its type, the number of its
/// resolver or source, which a field of an interface lacks, and its arguments.
#[derive(Clone, Copy)]
pub struct DeclaredField<'a> {
    pub ty: &'a TypeRef,
    pub number: Option<u32>,
    pub arguments: &'a ByName<InputValue>,
}

/// What declares a field: a field of an object, of an interface or of a subscription.
pub trait Declares {
    ghost use Rattle.gql_schema.specs.TableReading.{Declared};

    /// The field that it declares.
    ghost declares: { Self → Declared };

    /// The field that it declares.
    fn declared(&self) -> DeclaredField<'_>
        ensures { declared_behind result ≡ declares self.now };
}

impl Declares for Field {
    ghost use Rattle.gql_schema.specs.TableReading.{of_object};

    ghost declares = { of_object };

    fn declared(&self) -> DeclaredField<'_> {
        DeclaredField {
            ty: self.ty(),
            number: Some(self.resolver()),
            arguments: self.arguments(),
        }
    }
}

impl Declares for InterfaceField {
    ghost use Rattle.gql_schema.specs.TableReading.{of_interface};

    ghost declares = { of_interface };

    fn declared(&self) -> DeclaredField<'_> {
        DeclaredField {
            ty: self.ty(),
            number: None,
            arguments: self.arguments(),
        }
    }
}

impl Declares for SubscriptionField {
    ghost use Rattle.gql_schema.specs.TableReading.{of_subscription};

    ghost declares = { of_subscription };

    fn declared(&self) -> DeclaredField<'_> {
        DeclaredField {
            ty: self.ty(),
            number: Some(self.source()),
            arguments: self.arguments(),
        }
    }
}
