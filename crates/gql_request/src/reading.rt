//! Reading a request from a value: the readers of its members, and the reasons against it.
ghost use Rattle.std.specs.Prelude.{◌≡◌};
ghost use Rattle.std.specs.Option.{option_copied};
ghost use Rattle.gql_request.specs.Reading.{IsRead, reason_text};
ghost use Rattle.gql_request.specs.Request.{query_in, operation_name_in, variables_in};
ghost use Rattle.gql_request.specs.Request.{extensions_in};

use gql_base::{Copied, Made, Pairs, Text, Value, Variables};
use std::alloc::{AllocError, Global};

/// A reason why a value is no request.
#[derive(Clone, Copy, PartialEq, Eq, Debug)]
pub enum Reason {
    NoObject,
    NoQueryText,
    NoNameText,
    VariablesList,
    NoVariables,
    NoExtensions,
    /// A batch is empty.
    NoRequest,
}

impl Reason {
    /// The reason in words.
    pub fn text(self) -> &'static str
        ensures { result.now ≡ reason_text self }
    {
        match self {
            Reason::NoObject => "expected an object",
            Reason::NoQueryText => "query must be a text",
            Reason::NoNameText => "operationName must be a text or null",
            Reason::VariablesList => "invalid type: sequence, expected a map",
            Reason::NoVariables => "variables must be an object or null",
            Reason::NoExtensions => "extensions must be an object or null",
            Reason::NoRequest => "expected a non-empty list",
        }
    }
}

/// Why reading stops.
#[derive(Clone, Copy, Debug)]
pub enum Fault {
    Refused(Reason),
    NoMemory,
}

impl From<AllocError> for Fault {
    ghost use Rattle.std.specs.Prelude.{◌≡◌};
    ghost use Rattle.gql_request.specs.declared.reading.Fault.TheVariants.{NoMemory};

    ghost from_gives = { λ _ fault. fault ≡ NoMemory };

    fn from(_error: AllocError) -> Fault {
        Fault::NoMemory
    }
}

/// The text of the member `query`.
pub fn read_query(alloc: Global, member: Option<&Value>) -> Result<Text, Fault>
    ensures { IsRead result (query_in (option_copied member.entry)) }
{
    match member {
        None => Ok(Text::new(alloc, "")?),
        Some(Value::String(text)) => Ok(text.try_clone(alloc)?),
        Some(_) => Err(Fault::Refused(Reason::NoQueryText)),
    }
}

/// The text of the member `operationName`, if any.
pub fn read_operation_name(alloc: Global, member: Option<&Value>) -> Result<Option<Text>, Fault>
    ensures { IsRead result (operation_name_in (option_copied member.entry)) }
{
    match member {
        None | Some(Value::Null) => Ok(None),
        Some(Value::String(text)) => Ok(Some(text.try_clone(alloc)?)),
        Some(_) => Err(Fault::Refused(Reason::NoNameText)),
    }
}

/// The values of the member `variables`.
pub fn read_variables(alloc: Global, member: Option<&Value>) -> Result<Variables, Fault>
    ensures { IsRead result (variables_in (option_copied member.entry)) }
{
    match member {
        None | Some(Value::Null) => Ok(Variables::from_value(alloc, Value::Null)),
        Some(Value::Object(members)) => {
            let members = members.try_clone(alloc)?;
            Ok(Variables::from_value(alloc, Value::Object(members)))
        }
        Some(Value::List(_)) => Err(Fault::Refused(Reason::VariablesList)),
        Some(_) => Err(Fault::Refused(Reason::NoVariables)),
    }
}

/// The values of the member `extensions`.
pub fn read_extensions(alloc: Global, member: Option<&Value>) -> Result<Pairs<Value>, Fault>
    ensures { IsRead result (extensions_in (option_copied member.entry)) }
{
    match member {
        None | Some(Value::Null) => Ok(Pairs::new(alloc)),
        Some(Value::Object(members)) => Ok(members.try_clone(alloc)?.into_inner(alloc)?),
        Some(_) => Err(Fault::Refused(Reason::NoExtensions)),
    }
}
