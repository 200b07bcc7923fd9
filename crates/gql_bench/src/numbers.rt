//! The numbers of resolvers and sources, in the order of the bench.
ghost use Rattle.std.specs.Prelude.{◌≡◌, ◌+◌, IfOk};

use gql_base::Made;
use gql_form::TypeForm;
use std::alloc::AllocError;

/// The numbers of the next resolver and of the next source.
#[derive(Clone, Copy, PartialEq, Eq)]
pub struct Numbers {
    pub resolver: u32,
    pub source: u32,
}

impl Numbers {
    ghost use Rattle.std.specs.Prelude.{◌≡◌, IfOk};
    ghost use Rattle.gql_bench.specs.SchemaTable.{after, first_numbers};

    /// Those of the first ones.
    pub fn first() -> Numbers
        ensures { result ≡ first_numbers }
    {
        Numbers {
            resolver: 0,
            source: 0,
        }
    }

    /// The next numbers after a type.
    pub(crate) fn after(self, form: &TypeForm) -> Made<Numbers>
        ensures { IfOk result (λ numbers. numbers ≡ after self form.now) }
    {
        let Numbers { resolver, source } = self;
        match form {
            TypeForm::Object(object) => Ok(Numbers {
                resolver: number_behind(resolver, object.fields.len())?,
                source,
            }),
            TypeForm::Subscription(subscription) => Ok(Numbers {
                resolver,
                source: number_behind(source, subscription.fields.len())?,
            }),
            TypeForm::Interface(_)
            | TypeForm::Union(_)
            | TypeForm::Enum(_)
            | TypeForm::Input(_)
            | TypeForm::Scalar(_) => Ok(self),
        }
    }
}

/// The number that stands so far after another. A number beyond 32 bits counts as out of memory.
pub(crate) fn number_behind(number: u32, count: usize) -> Made<u32>
    ensures { IfOk result (λ next. next ≡ number + count) }
{
    let Ok(count) = u32::try_from(count) else {
        return Err(AllocError);
    };
    match number.checked_add(count) {
        Some(next) => Ok(next),
        None => Err(AllocError),
    }
}
