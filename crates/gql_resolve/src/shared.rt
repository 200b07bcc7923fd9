//! What resolvers answer can be moved to threads and shared between them, where their own values
//! can.
use crate::{
    And, Answer, ConstDirective, FieldFuture, FieldValue, FnGuard, Layers, Lookahead, Or, Polled,
    ResolverContext, SelectionField, SelectionFieldsIter,
};

fn moved<T: Send>() {}

fn read<T: Sync>() {}

fn shared<T: Send + Sync>() {}

fn of_moved_value<V: Send>() {
    moved::<FieldValue<V>>();
}

fn of_read_value<V: Sync>() {
    read::<FieldValue<V>>();
}

fn of_moved_answer<V: Send>() {
    moved::<Answer<V>>();
}

fn of_read_answer<V: Sync>() {
    read::<Answer<V>>();
}

fn of_moved_polled<V: Send>() {
    moved::<Polled<V>>();
}

fn of_read_polled<V: Sync>() {
    read::<Polled<V>>();
}

fn of_moved_future<V: Send, F: Send>() {
    moved::<FieldFuture<V, F>>();
}

fn of_read_future<V: Sync, F: Sync>() {
    read::<FieldFuture<V, F>>();
}

fn of_moved_guards<A: Send, B: Send>() {
    moved::<And<A, B>>();
    moved::<Or<A, B>>();
    moved::<FnGuard<A>>();
}

fn of_read_guards<A: Sync, B: Sync>() {
    read::<And<A, B>>();
    read::<Or<A, B>>();
    read::<FnGuard<A>>();
}

fn of_layers<'a>() {
    shared::<Layers<'a>>();
}

fn of_resolver_context<'a, V: Sync + 'a>() {
    shared::<ResolverContext<'a, V>>();
}

fn of_selection_field<'a>() {
    shared::<SelectionField<'a>>();
}

fn of_selection_fields<'a>() {
    shared::<SelectionFieldsIter<'a>>();
}

fn of_lookahead<'a>() {
    shared::<Lookahead<'a>>();
}

fn of_const_directive() {
    shared::<ConstDirective>();
}
