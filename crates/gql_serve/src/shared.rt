//! What can be moved to threads, and shared between them.
use crate::locked::Locked;
use crate::roll::Roll;
use crate::{Book, Entry, Seat, Served, Work};
use gql_resolve::{ResolverSet, Turns};
use std::sync::ledger::Ledger;

fn moved<T: Send>() {}

fn shared<T: Send + Sync>() {}

fn of_entry<V: Send>() {
    moved::<Entry<V>>();
}

fn of_seat<L: Ledger>() {
    moved::<Seat<L>>();
}

fn of_work<R: ResolverSet + Drop + Send, P: Turns + Drop + Send>()
where
    R::Own: Send,
    R::World: Send,
    R::Future: Send,
{
    moved::<Work<R, P>>();
}

fn of_book<R: ResolverSet + Drop + Send>()
where
    R::Own: Send,
    R::World: Send,
    R::Future: Send,
{
    moved::<Book<R>>();
}

fn of_locked<R: ResolverSet + Drop + Send, L: Roll<R>>()
where
    R::Own: Send,
    R::World: Send,
    R::Future: Send,
{
    moved::<Locked<R, L>>();
}

fn of_served<R: ResolverSet + Drop + Send, L: Roll<R>>()
where
    R::Own: Send,
    R::World: Send,
    R::Future: Send,
{
    shared::<Served<R, L>>();
}
