use std::alloc::AllocError;

/// What stops the reading of tokens.
#[derive(Clone, Copy, PartialEq, Eq)]
pub enum Trouble {
    /// Nothing goes on with this token.
    Unexpected,
    /// This token opens what is nested too deep.
    TooDeep,
}

/// Why a reader has no value: memory runs out, or there is trouble at the next token.
#[derive(Clone, Copy, PartialEq, Eq)]
pub enum ReadError {
    Memory,
    Stopped(Trouble),
}

impl From<AllocError> for ReadError {
    ghost use Rattle.std.specs.Prelude.{◌≡◌};
    ghost use Rattle.gql_doc.specs.declared.trouble.ReadError.TheVariants.{Memory};

    ghost from_gives = { λ _ e. e ≡ Memory };

    fn from(_error: AllocError) -> ReadError {
        ReadError::Memory
    }
}
