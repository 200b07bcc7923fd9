//! Merged sets as they are looked up.
/// A merged set, as it is looked up: how many levels are left, of which type its objects are, and
/// the numbers of the sets that it is put together of.
#[derive(Drop)]
pub(crate) struct Merged<'a> {
    pub left: usize,
    pub ty: &'a str,
    pub sets: Vec<usize>,
}
