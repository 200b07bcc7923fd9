//! What users name of values, inputs and documents.
pub use gql_base::{
    Copied, Error, ErrorExtensionValues, ErrorExtensions, Items, JsonFault, Made, Name, NoMemory,
    Number, Pairs, PathSegment, Pos, Result, ResultExt, ServerError, ServerResult, Text, Told,
    TypeRef, Value, Variables, from_json, json_of, literal_of,
};
pub use gql_doc::{
    Argument, Directive, DocValue, DocumentOperations, ExecutableDocument, Field,
    FragmentDefinition, FragmentSpread, InlineFragment, OperationDefinition, OperationType,
    ParseFault, ParseKind, Positioned, Selection, SelectionSet, VariableDefinition, parse_query,
    parse_type,
};
pub use gql_input::{
    AccessFault, EnumItem, EnumType, InputType, InputValueError, InputValueResult, Keys,
    ListAccessor, ListItems, Members, ObjectAccessor, ScalarType, ValueAccessor, Values,
    enum_value, parse_enum,
};
