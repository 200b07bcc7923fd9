//! The public types can be moved to threads and shared between them.
use crate::{Bench, ListTurns, Numbers, Rule, RuleKind, Table, TableFuture, TableMaker};

fn shared<T: Send + Sync>() {}

fn public_types() {
    shared::<ListTurns>();
    shared::<Numbers>();
    shared::<TableFuture>();
}

fn of_rule() {
    shared::<Rule>();
}

fn of_rule_kind() {
    shared::<RuleKind>();
}

fn of_table() {
    shared::<Table>();
}

fn of_table_maker() {
    shared::<TableMaker>();
}

fn of_bench() {
    shared::<Bench>();
}
