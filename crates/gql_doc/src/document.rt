//! Executable documents (GraphQL, October 2021, section 2).

ghost use Rattle.std.specs.Prelude.{◌≡◌};
ghost use Rattle.std.specs.Option.{option_copied};
ghost use Rattle.gql_doc.specs.Document.{key_of, default_of, argument_named};

use gql_base::{Items, Name, Number, Pairs, Pos, Text, TypeRef, Value};

/// What stands at a place.
#[derive(Debug, Drop)]
pub struct Positioned<T> {
    pub pos: Pos,
    pub node: T,
}

/// A document: its operations, and its fragments under their names, each in the order of the
/// document.
#[derive(Debug, Drop)]
pub struct ExecutableDocument {
    pub operations: DocumentOperations,
    pub fragments: Pairs<Positioned<FragmentDefinition>>,
}

/// The operations of a document: one without a name, or those under their names.
#[derive(Debug, Drop)]
pub enum DocumentOperations {
    Single(Positioned<OperationDefinition>),
    Multiple(Pairs<Positioned<OperationDefinition>>),
}

/// The kind of an operation (section 2.3).
#[derive(Clone, Copy, PartialEq, Eq, Debug)]
pub enum OperationType {
    Query,
    Mutation,
    Subscription,
}

/// An operation (section 2.3).
#[derive(Debug, Drop)]
pub struct OperationDefinition {
    pub ty: OperationType,
    pub variable_definitions: Items<Positioned<VariableDefinition>>,
    pub directives: Items<Positioned<Directive>>,
    pub selection_set: Positioned<SelectionSet>,
}

/// The definition of a variable (section 2.10).
#[derive(Debug, Drop)]
pub struct VariableDefinition {
    pub name: Positioned<Name>,
    pub var_type: Positioned<TypeRef>,
    pub directives: Items<Positioned<Directive>>,
    pub default: Option<Positioned<Value>>,
}

/// The definition of a fragment (section 2.8).
#[derive(Debug, Drop)]
pub struct FragmentDefinition {
    pub type_condition: Positioned<Name>,
    pub directives: Items<Positioned<Directive>>,
    pub selection_set: Positioned<SelectionSet>,
}

/// A set of selections (section 2.4).
#[cycle(set)]
#[derive(Debug, Drop)]
pub struct SelectionSet {
    pub items: Items<Positioned<Selection>>,
}

/// A selection (section 2.4).
#[cycle(set)]
#[derive(Debug, Drop)]
pub enum Selection {
    Field(Positioned<Field>),
    FragmentSpread(Positioned<FragmentSpread>),
    InlineFragment(Positioned<InlineFragment>),
}

/// A field (section 2.5). One without a set has an empty one at its own place.
#[cycle(set)]
#[derive(Debug, Drop)]
pub struct Field {
    pub alias: Option<Positioned<Name>>,
    pub name: Positioned<Name>,
    pub arguments: Items<Argument>,
    pub directives: Items<Positioned<Directive>>,
    pub selection_set: Positioned<SelectionSet>,
}

/// The spread of a fragment (section 2.8).
#[derive(Debug, Drop)]
pub struct FragmentSpread {
    pub fragment_name: Positioned<Name>,
    pub directives: Items<Positioned<Directive>>,
}

/// An inline fragment (section 2.8.2).
#[cycle(set)]
#[derive(Debug, Drop)]
pub struct InlineFragment {
    pub type_condition: Option<Positioned<Name>>,
    pub directives: Items<Positioned<Directive>>,
    pub selection_set: Positioned<SelectionSet>,
}

/// A directive (section 2.12).
#[derive(Debug, Drop)]
pub struct Directive {
    pub name: Positioned<Name>,
    pub arguments: Items<Argument>,
}

/// An argument (section 2.6).
#[derive(Debug, Drop)]
pub struct Argument {
    pub name: Positioned<Name>,
    pub value: Positioned<DocValue>,
}

/// A value as it stands in a document (section 2.9), where variables may stand.
#[derive(Debug, Drop)]
pub enum DocValue {
    Variable(Name),
    Null,
    Boolean(bool),
    Number(Number),
    String(Text),
    Enum(Name),
    List(Items<DocValue>),
    Object(Pairs<DocValue>),
}

impl Field {
    /// The key of the field in a response: its alias, else its name.
    pub fn response_key(&self) -> &Positioned<Name>
        ensures { result.now ≡ key_of self.now }
    {
        match &self.alias {
            Some(alias) => alias,
            None => &self.name,
        }
    }
}

impl VariableDefinition {
    /// The default; without one `null` where the type is nullable, else none. The caller hands in
    /// the null value, which the answer may refer to.
    pub fn default_value<'a>(&'a self, null: &'a Value) -> Option<&'a Value>
        ensures { option_copied result ≡ default_of self.now null.now }
    {
        match &self.default {
            Some(default) => Some(&default.node),
            None if self.var_type.node.is_nullable() => Some(null),
            None => None,
        }
    }
}

impl Directive {
    /// The first argument of a name.
    pub fn get_argument(&self, name: &str) -> Option<&Argument>
        ensures { option_copied result ≡ argument_named name.now self.now.arguments }
    {
        self.arguments
            .as_slice()
            .iter()
            .find(|argument| argument.name.node.as_str() == name)
    }
}
