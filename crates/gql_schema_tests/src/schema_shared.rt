//! A field as it is declared can be moved to threads and shared between them.
use gql_schema::DeclaredField;

fn shared<T: Send + Sync>() {}

fn of_declared_field<'a>() {
    shared::<DeclaredField<'a>>();
}
