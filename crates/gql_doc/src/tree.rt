//! The tree of a text: what is written, in its order and with its places. A name that stands twice
//! is kept twice.
use crate::document::{OperationType, Positioned};
use gql_base::{Items, Name, Number, Pos, Text, TypeRef};

/// Whether a variable may stand in a value: in a constant, as a default, it may not.
#[derive(Clone, Copy, PartialEq, Eq)]
pub enum Variables {
    Allowed,
    Forbidden,
}

/// A value (section 2.9).
#[cycle(value)]
#[derive(Drop)]
pub enum ValueTree {
    Variable(Name),
    Number(Number),
    String(Text),
    Boolean(bool),
    Null,
    Enum(Name),
    List(Items<ValueTree>),
    Object(Items<MemberTree>),
}

/// A member of an object value.
#[cycle(value)]
#[derive(Drop)]
pub struct MemberTree {
    pub name: Positioned<Name>,
    pub value: ValueTree,
}

/// An argument (section 2.6).
#[derive(Drop)]
pub struct ArgumentTree {
    pub name: Positioned<Name>,
    pub value: Positioned<ValueTree>,
}

/// A directive (section 2.12) and the place of its `@`.
#[derive(Drop)]
pub struct DirectiveTree {
    pub pos: Pos,
    pub name: Positioned<Name>,
    pub arguments: Items<ArgumentTree>,
}

/// The definition of a variable (section 2.10) and the place of its `$`.
#[derive(Drop)]
pub struct VariableTree {
    pub pos: Pos,
    pub name: Positioned<Name>,
    pub ty: Positioned<TypeRef>,
    pub default: Option<Positioned<ValueTree>>,
    pub directives: Items<DirectiveTree>,
}

/// A selection (sections 2.5 and 2.8). `set` is the place of a set's `{`, and a field without a set
/// has no selections and its own place there. A spread and an inline fragment stand at their `...`.
#[derive(Drop)]
pub enum SelectionTree {
    Field {
        alias: Option<Positioned<Name>>,
        name: Positioned<Name>,
        arguments: Items<ArgumentTree>,
        directives: Items<DirectiveTree>,
        set: Pos,
        selections: Items<SelectionTree>,
    },
    Spread {
        pos: Pos,
        name: Positioned<Name>,
        directives: Items<DirectiveTree>,
    },
    Inline {
        pos: Pos,
        condition: Option<Positioned<Name>>,
        directives: Items<DirectiveTree>,
        set: Pos,
        selections: Items<SelectionTree>,
    },
}

/// A set of selections (section 2.4) and the place of its `{`.
#[derive(Drop)]
pub struct SetTree {
    pub pos: Pos,
    pub selections: Items<SelectionTree>,
}

/// An operation (section 2.3) and the place of its first token.
#[derive(Drop)]
pub struct OperationTree {
    pub pos: Pos,
    pub ty: OperationType,
    pub name: Option<Positioned<Name>>,
    pub variables: Items<VariableTree>,
    pub directives: Items<DirectiveTree>,
    pub set: SetTree,
}

/// The definition of a fragment (section 2.8) and the place of its first token.
#[derive(Drop)]
pub struct FragmentTree {
    pub pos: Pos,
    pub name: Positioned<Name>,
    pub condition: Positioned<Name>,
    pub directives: Items<DirectiveTree>,
    pub set: SetTree,
}

/// A definition (section 2.2).
#[derive(Drop)]
pub enum DefinitionTree {
    Operation(OperationTree),
    Fragment(FragmentTree),
}
