//! Two sets that agree, as they are kept.
/// Two sets that agree on each object of a type, with so many levels left, by their numbers.
#[derive(Drop)]
pub(crate) struct CleanPair<'a> {
    pub left: usize,
    pub ty: &'a str,
    pub one: usize,
    pub other: usize,
}
