ghost use Rattle.std.specs.Prelude.{IfOk, IfErr};
ghost use Rattle.gql_base.specs.ErrorExtensions.{IsCallableOn, IsExtended};

use crate::copied::Copied;
use crate::error::Error;
use crate::error_extension_values::ErrorExtensionValues;
use crate::made::Made;
use std::alloc::Global;

/// What can be told as an error of a resolver.
pub trait ErrorExtensions: Sized + Drop {
    ghost use Rattle.std.specs.Prelude.{◌≡◌, IfOk};
    ghost use Rattle.gql_base.specs.declared.error.Error.{Error};
    ghost use Rattle.gql_base.specs.ErrorExtensions.{IsCallableOn, IsExtended};

    /// The error that it is told as.
    ghost told: { Self → Error };

    /// This value as an error.
    fn extend(&self, alloc: Global) -> Made<Error>
        ensures { IfOk result (λ error. error ≡ told self.now) };

    /// This value as an error, with values that a callback adds in place of those of the same
    /// names.
    final fn extend_with<C>(self, alloc: Global, callback: C) -> Made<Error>
    where
        C: FnOnce(&Self, &mut ErrorExtensionValues) -> Made<()>,
        requires { IsCallableOn C.FnOnce callback self }
        ensures { IfOk result (λ error. IsExtended C.FnOnce callback self (told self) error) }
    {
        let mut values = ErrorExtensionValues::new(alloc);
        callback(&self, &mut values)?;
        self.extend(alloc)?.with_values(alloc, values)
    }
}

/// An error as it is.
impl ErrorExtensions for Error {
    ghost told = { λ error. error };

    fn extend(&self, alloc: Global) -> Made<Error> {
        self.try_clone(alloc)
    }
}

/// A text that is told as the message of an error.
#[derive(Clone, Copy, Debug)]
pub struct Told<'a>(pub &'a str);

impl<'a> ErrorExtensions for Told<'a> {
    ghost use Rattle.gql_base.specs.ErrorExtensions.{bare};

    ghost told = { λ text. bare text.0.now };

    fn extend(&self, alloc: Global) -> Made<Error> {
        Error::new(alloc, self.0)
    }
}
