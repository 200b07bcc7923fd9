ghost use Rattle.std.specs.Prelude.{◌≡◌, [], Ok, Err, if◌then◌else◌};
ghost use Rattle.std.specs.List.{list_all};
ghost use Rattle.gql_base.specs.Letters.{is_name};
ghost use Rattle.gql_form.specs.Faults.{IsRead};
ghost use Rattle.gql_form.specs.Path.{parts};

use crate::fault::Fault;
use crate::form::{Form, Reader};
use crate::kit::bad;
use gql_base::{Items, Name, is_name};
use serde_json::Value as Json;

/// A path into the arguments of a field.
#[derive(Drop)]
pub struct Path {
    /// The names, from outside.
    pub names: Items<Name>,
}

impl Form for Path {
    ghost use Rattle.gql_form.specs.Path.{path_of};

    ghost reading = { λ cells. path_of };

    fn read(reader: Reader, json: &Json) -> Result<Path, Fault> {
        let Some(text) = json.as_str() else {
            return bad(reader);
        };
        let names = read_names(reader, text)?;
        Ok(Path { names })
    }
}

/// The names that dots join in a text.
fn read_names(reader: Reader, text: &str) -> Result<Items<Name>, Fault>
    ensures { IsRead result (if list_all is_name (parts text.now)
        then Ok (parts text.now) else Err []) }
{
    let mut names = Items::new(reader.alloc);
    let mut left = text;
    while let Some((front, behind)) = left.split_once('.') {
        if !is_name(front) {
            return bad(reader);
        }
        names.push(Name::new(reader.alloc, front)?)?;
        left = behind;
    }
    if !is_name(left) {
        return bad(reader);
    }
    names.push(Name::new(reader.alloc, left)?)?;
    Ok(names)
}
