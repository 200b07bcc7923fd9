//! A bench with all its members: its schema, the rules of its resolvers, the requests that are made
//! of it, and the resolver set and the turns that serve them.
#![tactic(auto)]

mod answering;
mod bench;
mod built;
mod bump;
mod entities;
mod field_table;
mod found;
mod given;
mod list_turns;
mod making;
mod numbers;
mod record_text;
mod rule;
mod rule_table;
mod schema_table;
mod settings;
mod shared;
mod sum;
mod table;
mod table_maker;
mod type_table;

pub use bench::Bench;
pub use found::bench_of;
pub use list_turns::ListTurns;
pub use making::bench_over;
pub use numbers::Numbers;
pub use record_text::text_behind;
pub use rule::{Rule, RuleKind};
pub use table::{Table, TableFuture};
pub use table_maker::{TableMaker, Tables};
