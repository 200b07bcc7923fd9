use crate::query_path_node::QueryPathNode;
use gql_base::TypeRef;
use gql_doc::Field;

/// What the hooks of a field's resolver are told of it.
#[derive(Clone, Copy)]
pub struct ResolveInfo<'a> {
    /// The path to the field.
    pub path_node: QueryPathNode<'a>,
    /// The name of the object type that has the field.
    pub parent_type: &'a str,
    /// The type of the field.
    pub return_type: &'a TypeRef,
    /// The name of the field.
    pub name: &'a str,
    /// The key that the field is asked for under, where it isn't its name.
    pub alias: Option<&'a str>,
    /// The field as it stands in the document.
    pub field: &'a Field,
}
