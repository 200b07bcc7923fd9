//! The entries of a journal.
use gql_exec::DynamicRequest;
use gql_request::Response;

/// What became of a request.
#[derive(Drop)]
pub enum Outcome {
    /// It had this response.
    Done(Response),
    /// It had a response, and there was no memory for a copy of it.
    Unkept,
    /// Memory ran out, with so many root keys of a mutation after their effects.
    Cut(u64),
}

/// A request that was executed: who called, the place of its schema among those of the journal, and
/// what became of it.
#[derive(Drop)]
pub struct Entry<V> {
    pub caller: u32,
    pub schema: usize,
    pub request: DynamicRequest<V>,
    pub outcome: Outcome,
}
