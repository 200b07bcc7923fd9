//! The fields of an object (GraphQL, October 2021, sections 6.3.2, 6.4.1 and 6.4.3): CollectFields
//! over a table of types, in one set or in the merged sets of all occurrences of a key; the fields
//! in groups, by their keys or each occurrence apart; and what each asks there, with the values of
//! its arguments.
#![tactic(auto)]

mod asks;
mod asks_for;
mod basis;
mod coerce_arguments;
mod collect;
mod collect_once;
mod declared_fields;
mod group;
mod group_fields;
mod key_names;
mod level;
mod merge_selection_sets;
mod object_fields;

pub use asks::Asks;
pub use basis::{Basis, Grouping};
pub use collect::{Collector, collect_fields, collect_merged_fields};
pub use collect_once::{
    collect_counted, collect_fields_counted, collect_merged_counted, collect_once_fields,
    collect_once_merged_fields,
};
pub use group::Group;
pub use key_names::Keys;
pub use level::{Level, Node};
pub use object_fields::{fields_beneath, fields_in, level_of};
