ghost use Rattle.std.specs.Prelude.{◌≡◌, ◌↔◌, [], ◌<◌, None, IsTrue, IsSome, IfOk, length};
ghost use Rattle.std.specs.Prelude.{slice_get, Some};
ghost use Rattle.std.specs.Option.{option_copied};
ghost use Rattle.gql_base.specs.Pairs.{under, values_of, HasDistinctNames};
ghost use Rattle.gql_schema.specs.Keyed.{IsKeyed};

use crate::by_name::ByName;
use crate::named::Named;
use crate::same::Same;
use crate::subscription_field::SubscriptionField;
use gql_base::{Copied, Made, Name};
use std::alloc::Global;

/// The type of the root of subscriptions: its name, and its fields.
#[derive(Debug, Drop)]
pub struct Subscription {
    name: Name,
    fields: ByName<SubscriptionField>,
}

impl Subscription {
    ghost use Rattle.gql_schema.specs.SubscriptionField.{event_name};
    ghost use Rattle.gql_schema.specs.Subscription.{subscription_name, event_fields, with_field};

    /// A subscription without fields.
    pub fn new(alloc: Global, name: &str) -> Made<Subscription>
        ensures name { IfOk result (λ subscription. subscription_name subscription ≡ name.now) }
        ensures fields { IfOk result (λ subscription. event_fields subscription ≡ []) }
    {
        Ok(Subscription::with_name(alloc, Name::new(alloc, name)?))
    }

    /// A subscription without fields, which takes the name.
    pub fn with_name(alloc: Global, name: Name) -> Subscription
        ensures name { subscription_name result ≡ name }
        ensures fields { event_fields result ≡ [] }
    {
        Subscription {
            name,
            fields: ByName::new(alloc),
        }
    }

    /// Adds a field, whose name isn't there yet, after the others.
    pub fn field(self, alloc: Global, field: SubscriptionField) -> Made<Subscription>
        requires { under (event_name field) (event_fields self) ≡ None }
        ensures { IfOk result (λ subscription. subscription ≡ with_field self field) }
    {
        let mut subscription = self;
        subscription.fields.add(alloc, field)?;
        Ok(subscription)
    }

    /// True exactly where a field has this name.
    pub fn has_field(&self, name: &str) -> bool
        ensures { IsTrue result ↔ IsSome (under name.now (event_fields self.now)) }
    {
        self.fields.get(name).is_some()
    }

    /// The name of the type.
    pub fn type_name(&self) -> &str
        ensures { result.now ≡ subscription_name self.now }
    {
        self.name.as_str()
    }

    /// The field of this name, or none where there is no such field.
    pub fn get(&self, name: &str) -> Option<&SubscriptionField>
        ensures { option_copied result ≡ under name.now (event_fields self.now) }
    {
        self.fields.get(name)
    }

    /// The fields, under their names.
    pub(crate) fn fields(&self) -> &ByName<SubscriptionField>
        ensures { result.now ≡ event_fields self.now }
    {
        &self.fields
    }

    /// The number of fields. Their keys are their own names, which differ.
    pub fn len(&self) -> usize
        ensures length { result ≡ length (event_fields self.now) }
        ensures keyed { IsKeyed event_name (event_fields self.now) }
        ensures distinct { HasDistinctNames (event_fields self.now) }
    {
        self.fields.len()
    }

    /// The field at a place, counted from 0.
    pub fn at(&self, index: usize) -> &SubscriptionField
        requires { index < length (event_fields self.now) }
        ensures { slice_get (values_of (event_fields self.now)) index ≡ Some result.now }
    {
        let (_, field) = self.fields.at(index);
        field
    }

    /// The field at a place, counted from 0, under its name.
    pub fn entry(&self, place: usize) -> (&str, &SubscriptionField)
        requires { place < length (event_fields self.now) }
        ensures { slice_get (event_fields self.now) place ≡ Some (result.0.now, result.1.now) }
    {
        self.fields.at(place)
    }
}

impl Named for Subscription {
    ghost use Rattle.gql_schema.specs.Subscription.{subscription_name};

    ghost name_of = { subscription_name };

    fn own_name(&self) -> &str {
        self.type_name()
    }
}

impl Copied for Subscription {
    fn try_clone(&self, alloc: Global) -> Made<Subscription> {
        Ok(Subscription {
            name: self.name.try_clone(alloc)?,
            fields: self.fields.try_clone(alloc)?,
        })
    }
}

impl Same for Subscription {
    fn same(&self, other: &Subscription) -> bool {
        self.name == other.name && self.fields.same(&other.fields)
    }
}
