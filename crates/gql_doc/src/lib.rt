//! Executable documents of GraphQL and their grammar (GraphQL, October 2021, section 2).
#![tactic(auto)]

mod arguments;
mod constants;
mod copied;
mod cursor;
mod definitions;
mod depth;
mod document;
mod draft;
mod fault;
mod gathering;
mod lists;
mod outcome;
mod parse;
mod selections;
mod shared;
mod tree;
mod trouble;
mod types;
mod values;
mod variables;

pub use depth::more_levels_find_no_more;
pub use document::{
    Argument, Directive, DocValue, DocumentOperations, ExecutableDocument, Field,
    FragmentDefinition, FragmentSpread, InlineFragment, OperationDefinition, OperationType,
    Positioned, Selection, SelectionSet, VariableDefinition,
};
pub use fault::{ParseFault, ParseKind};
pub use parse::{one_reading_of_a_document, one_reading_of_a_type, parse_query, parse_type};
