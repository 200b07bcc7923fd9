/// A place in a text. Lines and columns count from 1, and a column is one character
/// (GraphQL, October 2021, section 7.1.2). Places are ordered by line and then by column.
#[derive(Clone, Copy, PartialEq, Eq, PartialOrd, Ord, Debug)]
pub struct Pos {
    pub line: usize,
    pub column: usize,
}
