ghost use Rattle.std.specs.Prelude.{◌≡◌, OnOk};
ghost use Rattle.serde_json.specs.View.{view};
ghost use Rattle.gql_form.specs.Asked.{asked_after};
ghost use Rattle.gql_form.specs.Faults.{IsRead};
ghost use Rattle.gql_form.specs.SetupForm.{null_or, setup_of, setup_words};

use crate::answered::Answered;
use crate::fault::Fault;
use crate::form::{Form, Reader};
use crate::kit::bad;
use crate::members::Members;
use crate::schema_form::SchemaForm;
use gql_base::{Items, Value};
use serde_json::Value as Json;

/// What a bench has for every command: its schema, and what runs over it start with.
#[derive(Drop)]
pub struct SetupForm {
    pub schema: SchemaForm,
    pub cells: Items<i64>,
    /// The value of the object at the root.
    pub root: Answered,
    pub turns: Items<u64>,
    pub hooks: HooksForm,
}

/// The hooks of a bench.
#[derive(Clone, Copy, PartialEq, Eq)]
pub enum HooksForm {
    None,
    /// Each stage is logged.
    Log,
}

impl Form for HooksForm {
    ghost use Rattle.gql_form.specs.SetupForm.{hooks_of};

    ghost reading = { λ cells. hooks_of };

    fn read(reader: Reader, json: &Json) -> Result<HooksForm, Fault> {
        match json.as_str() {
            Some("none") => Ok(HooksForm::None),
            Some("log") => Ok(HooksForm::Log),
            _ => bad(reader),
        }
    }
}

/// The members of a bench before the command's own.
pub(crate) fn read_setup(members: &mut Members) -> Result<SetupForm, Fault>
    ensures read { IsRead result
        (setup_of members.old.reader.cells (view members.old.json.now)) }
    ensures asked { OnOk result (members.new.asked ≡ asked_after members.old.asked setup_words) }
    ensures reader { members.new.reader ≡ members.old.reader }
    ensures json { members.new.json ≡ members.old.json }
{
    let schema = members.needed("schema")?;
    let cells = members.listed("cells")?;
    let root: Option<Answered> = members.optional("root")?;
    let turns = members.listed("turns")?;
    let hooks: Option<HooksForm> = members.optional("hooks")?;
    Ok(SetupForm {
        schema,
        cells,
        root: root_or_null(root),
        turns,
        hooks: hooks.unwrap_or(HooksForm::None),
    })
}

/// The value of the object at the root, which is null if the bench says none.
fn root_or_null(root: Option<Answered>) -> Answered
    ensures { result ≡ null_or root }
{
    match root {
        Some(root) => root,
        None => Answered::Value(Value::Null),
    }
}
