//! What a resolver set is: the answers of resolvers, the calls that ask for them, and what makes a
//! set lawful.
#![tactic(auto)]

mod answer;
mod const_directive;
mod constants;
mod copied;
mod field_future;
mod field_value;
mod guard;
mod laws;
mod layers;
mod look_ahead;
mod naming;
mod open_set;
mod parameter;
mod record_entry;
mod resolver_context;
mod resolver_set;
mod selection_field;
mod selection_fields_iter;
mod shared;
mod stepping;
mod turns;
mod variables;
mod walking;

pub use answer::{Answer, Polled};
pub use const_directive::ConstDirective;
pub use field_future::FieldFuture;
pub use field_value::FieldValue;
pub use guard::{And, FnGuard, Guard, GuardExt, Or};
pub use laws::fields_are_found_where_they_stand;
pub use layers::Layers;
pub use look_ahead::Lookahead;
pub use record_entry::RecordEntry;
pub use resolver_context::ResolverContext;
pub use resolver_set::ResolverSet;
pub use selection_field::SelectionField;
pub use selection_fields_iter::SelectionFieldsIter;
pub use turns::Turns;
pub use variables::resolved_value;
