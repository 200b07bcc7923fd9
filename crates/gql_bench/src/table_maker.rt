//! What makes the resolver sets of benches, and holds the last one.
ghost use Rattle.std.specs.Prelude.{◌≡◌, ℕ, ℤ, List, [], Some, None, IfOk, IfSome, MatchOption};
ghost use Rattle.gql_resolve.specs.Call.{Call};
ghost use Rattle.gql_bench.specs.Table.{table_answer, table_effect, table_delay};

use crate::bench::Bench;
use crate::table::Table;
use gql_base::{Items, Made};
use gql_resolve::{RecordEntry, ResolverSet};
use std::alloc::Global;

/// Makes the resolver sets of benches, and holds the set that was given back last.
pub trait Tables {
    ghost use Rattle.std.specs.Prelude.{Option};

    type Set: ResolverSet<Own = i64, World = Items<i64>>;

    /// The set that is held, if any.
    ghost held: { Self → Option Self.Set };

    /// The resolver set of a bench's rules over its cells.
    fn make(&mut self, alloc: Global, bench: &Bench) -> Made<Self::Set>
        ensures held { held self.new ≡ held self.old }
        ensures lawful { IfOk result Self.Set.is_lawful }
        ensures paced { IfOk result Self.Set.is_paced }
        ensures world { IfOk result (λ set. Self.Set.world set ≡ bench.now.cells) }
        ensures answer { IfOk result (λ set. (call : Call ℤ) (world : List ℤ)
            → Self.Set.answer (Self.Set.rules set) call world
            ≡ table_answer bench.now.rules call world) }
        ensures effect { IfOk result (λ set. (call : Call ℤ) (world : List ℤ)
            → Self.Set.effect (Self.Set.rules set) call world
            ≡ table_effect bench.now.rules call world) }
        ensures delay { IfOk result (λ set. (resolver : ℕ)
            → Self.Set.delay (Self.Set.rules set) resolver
            ≡ table_delay bench.now.rules resolver) }
        ensures told { IfOk result (λ set. Self.Set.told set ≡ Some []) }
        ensures begun { IfOk result (λ set. Self.Set.begun set ≡ Some []) };

    /// Holds this set from now on, and lets another go that was held.
    fn take_back(&mut self, set: Self::Set)
        ensures { held self.new ≡ Some set };

    /// The record of the set that is held, and no entry where none is held.
    fn told(&self) -> &[RecordEntry]
        ensures { MatchOption (held self.now) (result.now
            ≡ []) (λ set. IfSome (Self.Set.told set) (λ entries. result.now ≡ entries)) };
}

/// Makes tables.
#[derive(Drop)]
pub struct TableMaker {
    held: Option<Table>,
}

impl TableMaker {
    /// It holds no table at first.
    pub fn new() -> TableMaker
        ensures { ⟦<TableMaker as Tables>⟧.held result ≡ None }
    {
        TableMaker { held: None }
    }
}

impl Tables for TableMaker {
    type Set = Table;

    ghost held = { λ maker. maker.held };

    fn make(&mut self, alloc: Global, bench: &Bench) -> Made<Table> {
        Table::of(alloc, bench)
    }

    fn take_back(&mut self, set: Table) {
        self.held = Some(set);
    }

    fn told(&self) -> &[RecordEntry] {
        match &self.held {
            Some(table) => table.record(),
            None => &[],
        }
    }
}
