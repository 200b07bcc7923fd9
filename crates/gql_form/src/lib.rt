//! The JSON of a bench as a tree of forms, or its first bad place.
#![tactic(auto)]

mod answer_form;
mod answered;
mod bench_form;
mod command;
mod delay;
mod event_form;
mod fault;
mod fields;
mod form;
mod header;
mod kit;
mod members;
mod path;
mod place;
mod plain;
mod rule_form;
mod scalar_rule;
mod schema_form;
mod session_form;
mod setup_form;
mod type_form;
mod type_text;
mod work_form;

pub use answer_form::AnswerForm;
pub use answered::Answered;
pub use bench_form::{BenchForm, form_of};
pub use command::Command;
pub use delay::Delay;
pub use event_form::{EventForm, OutcomeForm};
pub use fields::{
    ArgumentForm, FieldForm, InputFieldForm, InterfaceFieldForm, SubscriptionFieldForm,
};
pub use path::Path;
pub use rule_form::{Cell, RuleForm};
pub use schema_form::{Depth, SchemaForm, Settings};
pub use session_form::{EntryForm, SessionForm};
pub use setup_form::{HooksForm, SetupForm};
pub use type_form::{
    EnumTypeForm, InputForm, InterfaceForm, ObjectForm, ScalarForm, SubscriptionForm, TypeForm,
    UnionForm,
};
pub use work_form::WorkForm;
