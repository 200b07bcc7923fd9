use crate::error::Error;
use crate::error_extension_values::ErrorExtensionValues;
use crate::error_extensions::ErrorExtensions;
use crate::made::Made;
use std::alloc::Global;

/// A result, whose error can be told as an error of a resolver.
pub trait ResultExt<T: Drop, E: ErrorExtensions>: Sized {
    ghost use Rattle.std.specs.Prelude.{◌≡◌, IfOk, IfErr, Result};
    ghost use Rattle.gql_base.specs.ErrorExtensions.{IsCallableOn, IsExtendedResult, told_result};

    /// The result that it is.
    ghost held: { Self → Result T E };

    /// This result as std's.
    fn into_result(self) -> Result<T, E>
        ensures { result ≡ held self };

    /// This result, with what its error is told as.
    final fn extend(self, alloc: Global) -> Made<Result<T, Error>>
        ensures { IfOk result (λ made. made ≡ told_result E.told (held self)) }
    {
        match self.into_result() {
            Ok(value) => Ok(Ok(value)),
            Err(error) => Ok(Err(error.extend(alloc)?)),
        }
    }

    /// This result, with what its error is told as and values that a callback adds on it.
    final fn extend_err<C>(self, alloc: Global, callback: C) -> Made<Result<T, Error>>
    where
        C: FnOnce(&E, &mut ErrorExtensionValues) -> Made<()>,
        requires { IfErr (held self) (IsCallableOn C.FnOnce callback) }
        ensures { IfOk result (λ made. IsExtendedResult C.FnOnce callback E.told (held self) made) }
    {
        match self.into_result() {
            Ok(value) => Ok(Ok(value)),
            Err(error) => Ok(Err(error.extend_with(alloc, callback)?)),
        }
    }
}

impl<T: Drop, E: ErrorExtensions> ResultExt<T, E> for Result<T, E> {
    ghost held = { λ held. held };

    fn into_result(self) -> Result<T, E> {
        self
    }
}
