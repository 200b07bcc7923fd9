//! What is wrong in the definition of a variable (GraphQL, October 2021, section 5.8).

/// What is wrong in the definition of a variable. The first of these is told that holds.
#[derive(Clone, Copy)]
pub enum DefinitionFault {
    /// Its name stands before in the same list (GraphQL, October 2021, section 5.8.1).
    Twice,
    /// Its type is none of inputs (section 5.8.2).
    NoInput,
    /// Its default doesn't fit (section 5.6.1).
    Default,
    /// The request's value doesn't fit, or is wanting (section 6.1.2).
    NoValue,
}
