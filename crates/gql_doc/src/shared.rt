//! Documents can be moved to threads and shared between them.
use crate::{
    Argument, Directive, DocValue, DocumentOperations, ExecutableDocument, Field,
    FragmentDefinition, FragmentSpread, InlineFragment, OperationDefinition, OperationType,
    ParseFault, ParseKind, Positioned, Selection, SelectionSet, VariableDefinition,
};

fn shared<T: Send + Sync>() {}

fn public_types<T: Send + Sync>() {
    shared::<OperationType>();
    shared::<ParseFault>();
    shared::<ParseKind>();
    shared::<Positioned<T>>();
}

fn of_doc_value() {
    shared::<DocValue>();
}

fn of_argument() {
    shared::<Argument>();
}

fn of_directive() {
    shared::<Directive>();
}

fn of_fragment_spread() {
    shared::<FragmentSpread>();
}

fn of_variable_definition() {
    shared::<VariableDefinition>();
}

fn of_selection_set() {
    shared::<SelectionSet>();
}

fn of_selection() {
    shared::<Selection>();
}

fn of_field() {
    shared::<Field>();
}

fn of_inline_fragment() {
    shared::<InlineFragment>();
}

fn of_fragment_definition() {
    shared::<FragmentDefinition>();
}

fn of_operation_definition() {
    shared::<OperationDefinition>();
}

fn of_document_operations() {
    shared::<DocumentOperations>();
}

fn of_executable_document() {
    shared::<ExecutableDocument>();
}
