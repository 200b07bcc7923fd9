ghost use Rattle.std.specs.Prelude.{◌≡◌, IfOk};
ghost use Rattle.std.specs.Result.{result_ok};
ghost use Rattle.gql_form.specs.TypeText.{type_in};

use crate::fault::Fault;
use crate::form::{Form, Reader};
use crate::kit::{bad, needed};
use gql_base::{Made, TypeRef};
use gql_doc::parse_type;
use serde_json::Value as Json;
use std::alloc::Global;

impl Form for TypeRef {
    ghost use Rattle.gql_form.specs.TypeText.{type_ref_of};

    ghost reading = { λ cells. type_ref_of };

    fn read(reader: Reader, json: &Json) -> Result<TypeRef, Fault> {
        let Some(text) = json.as_str() else {
            return bad(reader);
        };
        needed(reader, type_of_text(reader.alloc, text)?)
    }
}

/// The type that a text spells, if it spells one.
#[tactic(auto, using(crate::proofs::TypeTextLemmas::type_found))]
fn type_of_text(alloc: Global, text: &str) -> Made<Option<TypeRef>>
    ensures { IfOk result (λ found. found ≡ type_in text.now) }
{
    Ok(parse_type(alloc, text)?.ok())
}
