use gql_base::Text;

/// A live start: the id that the client gave it, and its number.
#[derive(Debug, Drop)]
pub struct Live {
    pub id: Text,
    pub number: u64,
}
