use gql_base::{Copied, Made};
use http_header::HeaderMapError;
use std::alloc::{AllocError, Global};
use thiserror::Error;

/// Why there is no map of headers.
#[derive(Clone, Copy, PartialEq, Eq, Debug, Error)]
pub enum HeaderFault {
    /// An operation met a full map.
    #[error("an operation met a full map of headers")]
    MaxSizeReached,
    /// Memory was wanting.
    #[error("out of memory")]
    NoMemory,
}

impl From<AllocError> for HeaderFault {
    ghost use Rattle.std.specs.Prelude.{◌≡◌};
    ghost use Rattle.gql_request.specs.declared.header_fault.HeaderFault.TheVariants.{NoMemory};

    ghost from_gives = { λ _ fault. fault ≡ NoMemory };

    fn from(_error: AllocError) -> HeaderFault {
        HeaderFault::NoMemory
    }
}

impl From<HeaderMapError> for HeaderFault {
    ghost use Rattle.std.specs.Prelude.{◌≡◌};
    ghost use Rattle.gql_request.specs.HeaderFault.{fault_of};

    ghost from_gives = { λ error fault. fault ≡ fault_of error };

    fn from(error: HeaderMapError) -> HeaderFault {
        match error {
            HeaderMapError::MaxSizeReached => HeaderFault::MaxSizeReached,
            HeaderMapError::OutOfMemory => HeaderFault::NoMemory,
        }
    }
}

impl Copied for HeaderFault {
    fn try_clone(&self, _alloc: Global) -> Made<HeaderFault> {
        Ok(*self)
    }
}
