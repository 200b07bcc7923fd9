//! Sets of resolvers with a journal of what was executed over them.
ghost use Rattle.std.specs.Prelude.{◌≡◌, [], IfErr, IfOk, length};
ghost use Rattle.gql_serve.specs.Adding.{AddsErr, AddsOk};
ghost use Rattle.gql_serve.specs.Executing.{Executes};
ghost use Rattle.gql_serve.specs.Journal.{journal_with, KeepsJournal};
ghost use Rattle.gql_tasks.specs.Progress.{seen};

use crate::entry::Entry;
use crate::executing::execute_bare;
use crate::room::{make_room, outcome_of, write};
use gql_base::{Copied, Made, NoMemory};
use gql_exec::{DynamicRequest, Schema};
use gql_request::Response;
use gql_resolve::{ResolverSet, Turns};
use std::alloc::Global;
use std::snapshot::Snapshot;

/// A resolver set with the journal of the requests that were executed over it. Over a set that was
/// lawful at first the journal is legal, and leads from the world at first to the set's world.
#[derive(Drop)]
pub struct Book<R: ResolverSet + Drop> {
    resolvers: R,
    first: Snapshot<R>,
    origin: R::World,
    schemas: Vec<Schema>,
    entries: Vec<Entry<R::Own>>,
    pub ghost keeps: { ∥ KeepsJournal R.ResolverSet first.value resolvers origin
        (journal_with schemas.items entries.items) ∥₁ },
}

impl<R: ResolverSet + Drop> Book<R> {
    ghost use Rattle.gql_serve.specs.Books.{first_set, journal_of, origin_of, set_of};

    /// A book of a set with an empty journal.
    pub fn new(alloc: Global, resolvers: R) -> Made<Book<R>>
        ensures journal { IfOk result (λ book. journal_of book ≡ journal_with [] []) }
        ensures set { IfOk result (λ book. set_of book ≡ resolvers) }
        ensures first { IfOk result (λ book. first_set book ≡ resolvers) }
        ensures origin { R.is_lawful resolvers
            → IfOk result (λ book. origin_of book ≡ R.world resolvers) }
    {
        let first = Snapshot::of(&resolvers);
        let origin = resolvers.snapshot(alloc)?;
        Ok(Book {
            resolvers,
            first,
            origin,
            schemas: Vec::new(alloc),
            entries: Vec::new(alloc),
        })
    }

    /// The entries of the journal, in order.
    pub fn entries(&self) -> &[Entry<R::Own>]
        ensures entries { result.now ≡ (journal_of self.now).entries }
        ensures keeps { ∥ KeepsJournal R.ResolverSet (first_set self.now) (set_of self.now)
            (origin_of self.now) (journal_of self.now) ∥₁ }
    {
        self.entries.as_slice()
    }

    /// The schemas under which the journal's entries were executed, each in its place. One is kept
    /// once while calls pass equal ones.
    pub fn schemas(&self) -> &[Schema]
        ensures { result.now ≡ (journal_of self.now).schemas }
    {
        self.schemas.as_slice()
    }

    /// How many entries the journal has.
    pub(crate) fn len(&self) -> usize
        ensures { result ≡ length (journal_of self.now).entries }
    {
        self.entries.len()
    }

    /// Executes a request without hooks, and adds to the journal what became of it. Room for the
    /// entry is made first; where that is refused, nothing was executed and nothing is added.
    pub fn serve<P: Turns>(
        &mut self,
        alloc: Global,
        schema: &Schema,
        caller: u32,
        request: &DynamicRequest<R::Own>,
        turns: &mut P,
    ) -> Result<Response, NoMemory>
    where
        R::Own: Copied,
        ensures executed { Executes R.ResolverSet P.Turns schema.now request.now
            (seen (set_of self.old) turns.old) (seen (set_of self.new) turns.new) result }
        ensures ok { IfOk result (AddsOk caller schema.now request.now
            (journal_of self.old) (journal_of self.new)) }
        ensures err { IfErr result (AddsErr caller schema.now request.now
            (journal_of self.old) (journal_of self.new)
            (seen (set_of self.old) turns.old) (seen (set_of self.new) turns.new)) }
        ensures first { first_set self.new ≡ first_set self.old }
        ensures origin { origin_of self.new ≡ origin_of self.old }
    {
        let Book {
            resolvers,
            schemas,
            entries,
            ..
        } = self;
        let Ok(room) = make_room(alloc, schemas, entries, schema, request) else {
            return Err(NoMemory { roots: 0 });
        };
        let answer = execute_bare(alloc, schema, resolvers, request, turns);
        let outcome = outcome_of(alloc, &answer);
        write(schemas, entries, room, caller, outcome, schema, request);
        answer
    }
}
