//! The rules of validation that a document can break (GraphQL, October 2021, section 5), and what
//! is told of each.
use gql_base::{Pos, Text};

/// The rules that a document can break. Breaches at one place are told in this order.
#[derive(Clone, Copy)]
pub enum BreachKind {
    /// A condition names no object, interface or union (GraphQL, October 2021, sections 5.5.1.2 and
    /// 5.5.1.3).
    Condition,
    /// A type has no such field (section 5.3.1).
    UnknownField,
    /// A leaf has a set, or another type has none (section 5.3.3).
    Selection,
    /// A directive isn't known, or isn't known where it stands (sections 5.7.1 and 5.7.2).
    Directive,
    /// An argument isn't declared (section 5.4.1).
    UnknownArgument,
    /// An argument that is required isn't given (section 5.4.2.1).
    MissingArgument,
    /// An argument is given twice (section 5.4.2).
    DoubledArgument,
    /// A literal doesn't fit the type of its argument (section 5.6.1).
    Value,
    /// A spread names no fragment (section 5.5.2.1).
    UnknownFragment,
    /// A fragment reaches itself by spreads (section 5.5.2.2).
    CircularFragment,
    /// A variable isn't defined by an operation that reaches it, or doesn't fit where it stands
    /// (sections 5.8.3 and 5.8.5).
    Variable,
    /// A variable is defined twice, has no input type, has a default that doesn't fit, or has no
    /// fitting value (sections 5.6.1, 5.8.1, 5.8.2 and 6.1.2).
    Definition,
    /// A field can't be merged with the first one of its key (section 5.3.2).
    Conflict,
}

/// A rule that a document breaks: where, which, the name that it is about, and what is told of it.
/// Breaches are ordered by these.
#[derive(Drop)]
pub struct Breach {
    pub pos: Pos,
    pub kind: BreachKind,
    pub name: Text,
    pub text: Text,
}
