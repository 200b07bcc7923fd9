use crate::error::Error;

/// A result of a resolver, where no other error is named.
pub type Result<T, E = Error> = std::result::Result<T, E>;
