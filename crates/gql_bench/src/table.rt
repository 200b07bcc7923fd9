//! The program's resolver set: the rules of a bench, over its cells.
ghost use Rattle.std.specs.Prelude.{◌≡◌, ◌<◌, IsTrue, length};
ghost use Rattle.gql_resolve.specs.Call.{call_of};
ghost use Rattle.gql_bench.specs.Bump.{bump_effect, kind_effect};
ghost use Rattle.gql_bench.specs.Cells.{AreBelow, kind_below};
ghost use Rattle.gql_bench.specs.Table.{table_effect};

use crate::answering::{answer_of, value_of};
use crate::bench::Bench;
use crate::bump::{bumped, is_root};
use crate::rule::{Rule, RuleKind};
use gql_base::{Common, Copied, Items, Made};
use gql_resolve::{
    Answer, FieldFuture, FieldValue, Polled, RecordEntry, ResolverContext, ResolverSet,
};
use std::alloc::Global;

/// The resolvers of a bench. A resolver answers by the rule of its number, after as many pending
/// polls as the rule's delay; a number without a rule answers no value at once. The set tells its
/// record, and the tasks that it began.
#[derive(Drop)]
pub struct Table {
    rules: Common<Items<Rule>>,
    cells: Items<i64>,
    told: Items<RecordEntry>,
    begun: Vec<u64>,
    ghost placed: { AreBelow (length cells) rules },
}

/// A resolver of a table that has begun: its number, and how many polls are pending still.
#[derive(Drop)]
pub struct TableFuture {
    resolver: u32,
    left: u64,
}

impl Table {
    ghost use Rattle.std.specs.Prelude.{◌≡◌, ◌++◌, ◌∷◌, [], Some, IfOk, IfSome, OnOk, OnErr};
    ghost use Rattle.std.specs.Prelude.{length, slice_get};
    ghost use Rattle.gql_resolve.specs.Lawful.{plain_answer};
    ghost use Rattle.gql_resolve.specs.Call.{call_of};
    ghost use Rattle.gql_resolve.specs.Record.{entry_of};
    ghost use Rattle.gql_bench.specs.Rule.{rule_delay};
    ghost use Rattle.gql_bench.specs.Cells.{AreBelow};
    ghost use Rattle.gql_bench.specs.Table.{table_answer, table_effect};

    /// The resolver set of a bench's rules over its cells, which has begun nothing. The rules are
    /// shared with the bench, and the cells are copied.
    pub fn of(alloc: Global, bench: &Bench) -> Made<Table>
        ensures lawful { IfOk result ⟦<Table as ResolverSet>⟧.is_lawful }
        ensures paced { IfOk result ⟦<Table as ResolverSet>⟧.is_paced }
        ensures rules { IfOk result
            (λ table. ⟦<Table as ResolverSet>⟧.rules table ≡ bench.now.rules) }
        ensures world { IfOk result
            (λ table. ⟦<Table as ResolverSet>⟧.world table ≡ bench.now.cells) }
        ensures told { IfOk result (λ table. ⟦<Table as ResolverSet>⟧.told table ≡ Some []) }
        ensures begun { IfOk result (λ table. ⟦<Table as ResolverSet>⟧.begun table ≡ Some []) }
    {
        let rules = bench.rules.try_clone(alloc)?;
        let cells = bench.cells.try_clone(alloc)?;
        Ok(Table {
            rules,
            cells,
            told: Items::new(alloc),
            begun: Vec::new(alloc),
        })
    }

    /// The record so far.
    pub(crate) fn record(&self) -> &[RecordEntry]
        ensures { ⟦<Table as ResolverSet>⟧.told self.now ≡ Some result.now }
    {
        self.told.as_slice()
    }

    /// The number of polls of a resolver that are pending before its answer.
    fn delay_of(&self, resolver: u32) -> u64
        ensures { result ≡ rule_delay (slice_get self.now.rules resolver) }
    {
        match self.rules.get(resolver as usize) {
            Some(rule) => rule.delay,
            None => 0,
        }
    }

    /// The answer of a resolver to a call.
    fn answer_to(&self, alloc: Global, call: &ResolverContext<'_, i64>) -> Made<Answer<i64>>
        ensures { IfOk result
            (λ answer. answer ≡ table_answer self.now.rules (call_of call.now) self.now.cells) }
    {
        match self.rules.get(call.resolver as usize) {
            Some(rule) => answer_of(alloc, rule, call, self.cells.as_slice()),
            None => Ok(Answer {
                result: Ok(None),
                added: Items::new(alloc),
                headers: Items::new(alloc),
            }),
        }
    }

    /// The value of a resolver, if any, where it answers at once and nothing else, and changes no
    /// cell.
    fn value_at_once(
        &self,
        alloc: Global,
        call: &ResolverContext<'_, i64>,
    ) -> Made<Option<Option<FieldValue<i64>>>>
        ensures value { IfOk result (λ found. IfSome found (λ value.
            (rule_delay (slice_get self.now.rules call.now.resolver) ≡ 0) × (plain_answer value
            ≡ table_answer self.now.rules (call_of call.now) self.now.cells))) }
        ensures effect { IfOk result (λ found. IfSome found (λ value.
            table_effect self.now.rules (call_of call.now) self.now.cells ≡ self.now.cells)) }
    {
        match self.rules.get(call.resolver as usize) {
            Some(rule) => value_of(alloc, rule, call, self.cells.as_slice()),
            None => Ok(Some(None)),
        }
    }

    /// Adds an entry to the record.
    fn tell(&mut self, alloc: Global, call: &ResolverContext<'_, i64>, ready: bool) -> Made<()>
        ensures told { OnOk result (self.new ≡ record self.old { told = self.new.told }) }
        ensures entry { OnOk result
            (self.new.told ≡ self.old.told ++ entry_of call.now ready ∷ []) }
        ensures err { OnErr result (self.new ≡ self.old) }
    {
        let entry = RecordEntry::of(alloc, call, ready)?;
        self.told.push(entry)
    }
}

/// Changes the cells by the effect of a call.
fn leave_effect(rules: &Items<Rule>, cells: &mut Items<i64>, call: &ResolverContext<'_, i64>)
    requires { AreBelow (length cells.old) rules.now }
    ensures { cells.new ≡ table_effect rules.now (call_of call.now) cells.old }
{
    match rules.get(call.resolver as usize) {
        Some(rule) => bump_cell(&rule.kind, cells, call),
        None => {}
    }
}

/// The same by what the resolver of the call answers.
fn bump_cell(kind: &RuleKind, cells: &mut Items<i64>, call: &ResolverContext<'_, i64>)
    requires { IsTrue (kind_below (length cells.old) kind.now) }
    ensures { cells.new ≡ kind_effect kind.now (call_of call.now) cells.old }
{
    match kind {
        RuleKind::Bump(place) => raise_cell(*place, cells, call),
        _ => {}
    }
}

/// Raises the cell at a place, where the call is for a root of a mutation.
fn raise_cell(place: u64, cells: &mut Items<i64>, call: &ResolverContext<'_, i64>)
    requires { place < length cells.old }
    ensures { cells.new ≡ bump_effect place (call_of call.now) cells.old }
{
    if is_root(call) {
        let cell = cells.as_slice()[place as usize];
        cells.set(place as usize, bumped(call.args.as_index_map(), cell));
    }
}

impl ResolverSet for Table {
    ghost use Rattle.std.specs.Prelude.{◌≡◌, List, Some};
    ghost use Rattle.gql_bench.specs.declared.rule.Rule.{Rule as OneRule};
    ghost use Rattle.gql_bench.specs.Table.{table_answer, table_effect, table_delay};

    type Own = i64;

    type World = Items<i64>;

    type Future = TableFuture;

    ghost Rules = { List OneRule };

    ghost rules = { λ table. table.rules };

    ghost world = { λ table. table.cells };

    ghost answer = { table_answer };

    ghost effect = { table_effect };

    ghost is_lawful = { λ table. Unit {0} };

    ghost is_paced = { λ table. Unit {0} };

    ghost delay = { table_delay };

    ghost told = { λ table. Some table.told };

    ghost begun = { λ table. Some table.begun.items };

    ghost number = { λ future. future.left };

    ghost is_for = { λ future call. future.resolver ≡ call.resolver };

    fn start(
        &mut self,
        alloc: Global,
        call: &ResolverContext<'_, i64>,
    ) -> Made<FieldFuture<i64, TableFuture>> {
        match self.value_at_once(alloc, call)? {
            Some(value) => {
                self.begun.reserve(1)?;
                self.tell(alloc, call, true)?;
                self.begun.push_reserved(call.task);
                Ok(FieldFuture::Value(value))
            }
            None => {
                let left = self.delay_of(call.resolver);
                self.begun.push(call.task)?;
                Ok(FieldFuture::Future(TableFuture {
                    resolver: call.resolver,
                    left,
                }))
            }
        }
    }

    fn poll(
        &mut self,
        alloc: Global,
        future: &mut TableFuture,
        call: &ResolverContext<'_, i64>,
    ) -> Made<Polled<i64>> {
        if future.left > 0 {
            self.tell(alloc, call, false)?;
            future.left -= 1;
            return Ok(Polled::Pending);
        }
        let answer = self.answer_to(alloc, call)?;
        self.tell(alloc, call, true)?;
        Ok(Polled::Ready(answer))
    }

    fn poll_root(
        &mut self,
        alloc: Global,
        future: &mut TableFuture,
        call: &ResolverContext<'_, i64>,
    ) -> Made<Polled<i64>> {
        match self.poll(alloc, future, call)? {
            Polled::Ready(answer) => {
                let rules: &Items<Rule> = &self.rules;
                leave_effect(rules, &mut self.cells, call);
                Ok(Polled::Ready(answer))
            }
            Polled::Pending => Ok(Polled::Pending),
        }
    }

    fn snapshot(&self, alloc: Global) -> Made<Items<i64>> {
        self.cells.try_clone(alloc)
    }
}
