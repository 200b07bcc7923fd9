//! Conflicts between fields of one key (GraphQL, October 2021, section 5.3.2): which fields of a
//! document can't be merged, on which of a table's objects whatever.
//!
//! Fields are looked at on each object that is possible where they stand, in sets that are merged
//! with the sets of equal keys. A coarse test clears nearly every document without a conflict in
//! near-linear time: it merges by keys whatever the conditions on types are.
#![tactic(auto)]

mod alike;
mod asked;
mod beneath;
mod clean_pair;
mod clean_pairs;
mod coarse;
mod conflict;
mod entry;
mod fields_in_set_can_merge;
mod fitting;
mod group;
mod grouping;
mod heads;
mod known;
mod marks;
mod merged;
mod merging;
mod proposal;
mod proposing;
mod reader;
mod rooted_types;
mod roots;
mod same_field;
mod seen;
mod sets;
mod survey;
mod visit;
mod walk;
mod walked;

pub use coarse::is_clear;
pub use conflict::Conflict;
pub use fields_in_set_can_merge::{conflicts_in, conflicts_in_nested};
pub use rooted_types::RootedTypes;
