//! What is read through the clone of a context: its arguments, its path and the value above it.
use crate::parts::Parts;
use gql_base::{Made, Text};
use gql_doc::OperationType;
use gql_input::AccessFault;
use gql_resolve::ResolverContext;
use std::alloc::Global;
use std::test::Fail;

/// The whole number that the argument `n` is.
fn number(context: &ResolverContext<'_, u64>) -> Result<i64, AccessFault<'static>> {
    let value = context.args.try_get("n")?;
    value.i64()
}

/// The resolver, the task, the path, the field, the number above it, and what `n` is.
fn context_text(alloc: Global, context: &ResolverContext<'_, u64>) -> Made<Text> {
    let path = context.path_node.text(alloc)?;
    let (resolver, task) = (context.resolver, context.task);
    let field = context.field().name();
    let parent = context.parent_value.as_own().copied().unwrap_or(0);
    let number = number(context).unwrap_or(0);
    let mut out = String::new(alloc);
    write!(out, "{resolver} {task} {path} {field} {parent} {number}")?;
    Text::from_string(out)
}

/// The same of its clone.
fn clone_text(alloc: Global, context: &ResolverContext<'_, u64>) -> Made<Text> {
    match context.clone() {
        Ok(copy) => context_text(alloc, &copy),
        Err(want) => Err(want),
    }
}

#[test]
fn clones_of_contexts(rt: HostRuntime) -> Result<(), Fail> {
    let parts = Parts::new(rt.alloc(), OperationType::Query)?;
    let read = clone_text(rt.alloc(), &parts.context());
    drop(parts);
    assert!(rt; read?.as_str() == "7 3 2.5 hero 0 0");
    Ok(())
}
