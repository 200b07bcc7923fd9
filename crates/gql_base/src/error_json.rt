ghost use Rattle.std.specs.Prelude.{◌≡◌, ◌++◌, ◌∷◌, map, codes, IfOk, OnOk, string_bytes, Some};
ghost use Rattle.gql_base.specs.ErrorJson.{list_json, locations_member, path_member};
ghost use Rattle.gql_base.specs.ErrorJson.{extensions_member, error_json};
ghost use Rattle.gql_base.specs.Json.{json};

use crate::error_extension_values::ErrorExtensionValues;
use crate::json::{push_comma, push_json, push_name, push_quoted};
use crate::json_list::{JsonText, push_list};
use crate::made::Made;
use crate::path_segment::PathSegment;
use crate::pos::Pos;
use crate::server_error::ServerError;
use crate::text::Text;
use crate::value::Value;
use std::alloc::Global;

impl ServerError {
    /// The JSON text of this error: its message, and then its locations, path and extensions, each
    /// if it isn't empty (GraphQL, October 2021, section 7.1.2).
    pub fn json(&self, alloc: Global) -> Made<Text>
        ensures { IfOk result (λ text. text ≡ error_json self.now) }
    {
        let mut out = String::new(alloc);
        push_error(&mut out, self)?;
        Text::from_string(out)
    }
}

impl JsonText for ServerError {
    ghost use Rattle.gql_base.specs.ErrorJson.{error_json};

    ghost text = { error_json };

    fn push_text(&self, out: &mut String) -> Made<()> {
        push_error(out, self)
    }
}

impl JsonText for Pos {
    ghost use Rattle.gql_base.specs.ErrorJson.{location_json};

    ghost text = { location_json };

    fn push_text(&self, out: &mut String) -> Made<()> {
        let Pos { line, column } = *self;
        write!(out, "{{\"line\":{line},\"column\":{column}}}")
    }
}

impl JsonText for PathSegment {
    ghost use Rattle.gql_base.specs.ErrorJson.{segment_json};

    ghost text = { segment_json };

    fn push_text(&self, out: &mut String) -> Made<()> {
        match self {
            PathSegment::Field(key) => push_quoted(out, key.as_str()),
            PathSegment::Index(place) => write!(out, "{place}"),
        }
    }
}

/// Appends the JSON text of a list of errors.
pub fn push_errors(out: &mut String, errors: &[ServerError]) -> Made<()>
    ensures { OnOk result (string_bytes out.new ≡ string_bytes out.old
        ++ list_json error_json errors.now) }
{
    push_list(out, errors)
}

/// Appends the JSON text of an error.
pub fn push_error(out: &mut String, error: &ServerError) -> Made<()>
    ensures { OnOk result (string_bytes out.new ≡ string_bytes out.old ++ error_json error.now) }
{
    out.push_str("{\"message\":")?;
    push_quoted(out, error.message.as_str())?;
    push_locations(out, error.locations.as_slice())?;
    push_path(out, error.path.as_slice())?;
    push_extensions(out, &error.extensions)?;
    out.push('}')
}

fn push_locations(out: &mut String, locations: &[Pos]) -> Made<()>
    ensures { OnOk result (string_bytes out.new ≡ string_bytes out.old
        ++ locations_member locations.now) }
{
    if locations.is_empty() {
        return Ok(());
    }
    out.push_str(",\"locations\":")?;
    push_list(out, locations)
}

fn push_path(out: &mut String, path: &[PathSegment]) -> Made<()>
    ensures { OnOk result (string_bytes out.new ≡ string_bytes out.old ++ path_member path.now) }
{
    if path.is_empty() {
        return Ok(());
    }
    out.push_str(",\"path\":")?;
    push_list(out, path)
}

fn push_extensions(out: &mut String, extensions: &Option<ErrorExtensionValues>) -> Made<()>
    ensures { OnOk result (string_bytes out.new ≡ string_bytes out.old
        ++ extensions_member extensions.now) }
{
    match extensions {
        Some(values) if values.len() > 0 => {
            out.push_str(",\"extensions\":")?;
            push_extension_values(out, values)
        }
        _ => Ok(()),
    }
}

/// Appends the values of an error as a JSON object.
pub fn push_extension_values(out: &mut String, values: &ErrorExtensionValues) -> Made<()>
    ensures { OnOk result (string_bytes out.new ≡ string_bytes out.old
        ++ json (Value.Object values.now)) }
{
    out.push('{')?;
    for place in 0..values.len() {
        push_comma(out, place)?;
        let (name, value) = values.at(place);
        push_name(out, name)?;
        push_json(out, value)?;
    }
    out.push('}')
}
