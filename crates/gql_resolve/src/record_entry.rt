ghost use Rattle.std.specs.Prelude.{◌≡◌, IfOk};
ghost use Rattle.gql_resolve.specs.Record.{entry_of};

use crate::resolver_context::ResolverContext;
use gql_base::{Made, Text};
use std::alloc::Global;

/// One entry of the record of an execution: that a task was polled, or that it was started and gave
/// its value at once.
#[derive(Drop)]
pub struct RecordEntry {
    /// The task's number, in the order of making.
    pub task: u64,
    /// The text of the path to the task's place.
    pub path: Text,
    /// The number of the task's resolver.
    pub resolver: u32,
    /// Whether the answer was there.
    pub ready: bool,
}

impl RecordEntry {
    /// The entry of a task's turn.
    pub fn of<V>(alloc: Global, context: &ResolverContext<'_, V>, ready: bool) -> Made<RecordEntry>
        ensures { IfOk result (λ entry. entry ≡ entry_of context.now ready) }
    {
        let path = context.path_node.text(alloc)?;
        Ok(RecordEntry {
            task: context.task,
            resolver: context.resolver,
            path,
            ready,
        })
    }
}
