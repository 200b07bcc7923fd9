ghost use Rattle.std.specs.Prelude.{◌≡◌, OnOk};
ghost use Rattle.serde_json.specs.View.{view};
ghost use Rattle.gql_form.specs.Asked.{asked_after};
ghost use Rattle.gql_form.specs.Faults.{IsRead};
ghost use Rattle.gql_form.specs.SchemaForm.{settings_of, settings_words};

use crate::fault::Fault;
use crate::form::{Form, Reader};
use crate::kit::bad;
use crate::members::Members;
use crate::plain::read_count_within;
use crate::type_form::TypeForm;
use gql_base::{Items, Text};
use gql_request::IntrospectionMode;
use serde_json::Value as Json;

/// The schema of a bench.
#[derive(Drop)]
pub struct SchemaForm {
    pub query: Text,
    pub mutation: Option<Text>,
    pub subscription: Option<Text>,
    pub types: Items<TypeForm>,
    pub settings: Settings,
}

/// The limits of requests, and what the schema answers of itself.
#[derive(Clone, Copy, PartialEq, Eq)]
pub struct Settings {
    /// How deep sets may nest, if the bench says so.
    pub depth: Option<Depth>,
    /// How many directives a field may have, if the bench says so.
    pub directives: Option<u64>,
    pub introspection: IntrospectionMode,
    pub federation: bool,
    /// Whether entities are answered.
    pub entities: bool,
}

/// How many levels of sets a request may have.
#[derive(Clone, Copy, PartialEq, Eq)]
pub struct Depth {
    pub levels: u16,
}

impl Depth {
    /// The most levels that a bench may allow.
    pub const DEEPEST: u64 = 256;
}

impl Form for Depth {
    ghost use Rattle.gql_form.specs.SchemaForm.{depth_of};

    ghost reading = { λ cells. depth_of };

    fn read(reader: Reader, json: &Json) -> Result<Depth, Fault> {
        let levels = read_count_within(reader, json, Depth::DEEPEST)?;
        Ok(Depth {
            levels: levels as u16,
        })
    }
}

impl Form for IntrospectionMode {
    ghost use Rattle.gql_form.specs.SchemaForm.{introspection_of};

    ghost reading = { λ cells. introspection_of };

    fn read(reader: Reader, json: &Json) -> Result<IntrospectionMode, Fault> {
        match json.as_str() {
            Some("enabled") => Ok(IntrospectionMode::Enabled),
            Some("only") => Ok(IntrospectionMode::IntrospectionOnly),
            Some("disabled") => Ok(IntrospectionMode::Disabled),
            _ => bad(reader),
        }
    }
}

impl Form for SchemaForm {
    ghost use Rattle.gql_form.specs.SchemaForm.{schema_of};

    ghost reading = { schema_of };

    fn read(reader: Reader, json: &Json) -> Result<SchemaForm, Fault> {
        let mut members = Members::of(reader, json);
        let query = members.needed("query")?;
        let mutation = members.optional("mutation")?;
        let subscription = members.optional("subscription")?;
        let types = members.needed("types")?;
        let settings = read_settings(&mut members)?;
        members.no_others(SchemaForm {
            query,
            mutation,
            subscription,
            types,
            settings,
        })
    }
}

/// The settings among the members of a schema.
fn read_settings(members: &mut Members) -> Result<Settings, Fault>
    ensures read { IsRead result (settings_of (view members.old.json.now)) }
    ensures asked { OnOk result
        (members.new.asked ≡ asked_after members.old.asked settings_words) }
    ensures reader { members.new.reader ≡ members.old.reader }
    ensures json { members.new.json ≡ members.old.json }
{
    let depth = members.optional("limitRecursiveDepth")?;
    let directives = members.optional("limitDirectives")?;
    let introspection: Option<IntrospectionMode> = members.optional("introspection")?;
    let federation: Option<bool> = members.optional("federation")?;
    let entities: Option<bool> = members.optional("entities")?;
    Ok(Settings {
        depth,
        directives,
        introspection: introspection.unwrap_or(IntrospectionMode::Enabled),
        federation: federation.unwrap_or(false),
        entities: entities.unwrap_or(false),
    })
}
