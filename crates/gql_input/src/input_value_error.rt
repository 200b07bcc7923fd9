ghost use Rattle.std.specs.Prelude.{◌≡◌, [], ◌∷◌, IfOk, None, Some};
ghost use Rattle.std.specs.Option.{unwrap_or};
ghost use Rattle.gql_base.specs.ErrorExtensionValues.{set_in_order};
ghost use Rattle.gql_input.specs.InputValueError.{custom_text, expected_text, extensions_of};
ghost use Rattle.gql_input.specs.InputValueError.{message_of, propagated};

use crate::input_type::InputType;
use gql_base::{ErrorExtensionValues, Items, Made, Pos, ServerError, Text, Value, literal_of};
use std::alloc::Global;
use std::marker::PhantomData;

/// Why a value is no value of the input type `T`.
#[derive(Debug, Drop)]
pub struct InputValueError<T> {
    message: Text,
    extensions: Option<ErrorExtensionValues>,
    of: PhantomData<T>,
}

/// What a value gives at an input type.
pub type InputValueResult<T> = Result<T, InputValueError<T>>;

impl<T: InputType> InputValueError<T> {
    /// That a value isn't of the type.
    pub fn expected_type(alloc: Global, actual: Value) -> Made<InputValueError<T>>
        ensures message { IfOk result (λ error. message_of error ≡ expected_text T.name actual) }
        ensures extensions { IfOk result (λ error. extensions_of error ≡ None) }
    {
        InputValueError::expected(alloc, T::type_name(), actual)
    }

    /// That a value is refused for a reason.
    pub fn custom(alloc: Global, msg: &str) -> Made<InputValueError<T>>
        ensures message { IfOk result (λ error. message_of error ≡ custom_text T.name msg.now) }
        ensures extensions { IfOk result (λ error. extensions_of error ≡ None) }
    {
        InputValueError::refused(alloc, T::type_name(), msg)
    }

    /// The error as one of another type, whose name the message tells where it is another name.
    pub fn propagate<U: InputType>(self, alloc: Global) -> Made<InputValueError<U>>
        ensures message { IfOk result
            (λ error. message_of error ≡ propagated T.name U.name (message_of self)) }
        ensures same_name { IfOk result
            (λ error. T.name ≡ U.name → message_of error ≡ message_of self) }
        ensures extensions { IfOk result (λ error. extensions_of error ≡ extensions_of self) }
    {
        let InputValueError {
            message,
            extensions,
            of: _,
        } = self;
        let message = propagated_text(alloc, message, T::type_name(), U::type_name())?;
        Ok(InputValueError {
            message,
            extensions,
            of: PhantomData,
        })
    }

    /// The error with a value under a name of its extensions.
    pub fn with_extension(self, alloc: Global, name: &str, value: Value) -> Made<InputValueError<T>>
        ensures message { IfOk result (λ error. message_of error ≡ message_of self) }
        ensures extensions { IfOk result (λ error. extensions_of error
            ≡ Some (set_in_order (unwrap_or (extensions_of self) []) name.now value)) }
    {
        let InputValueError {
            message,
            extensions,
            of,
        } = self;
        let extensions = extended(alloc, extensions, name, value)?;
        Ok(InputValueError {
            message,
            extensions: Some(extensions),
            of,
        })
    }

    /// The error of a response at a place of the document.
    pub fn into_server_error(self, alloc: Global, pos: Pos) -> Made<ServerError>
        ensures message { IfOk result (λ error. error.message ≡ message_of self) }
        ensures locations { IfOk result (λ error. error.locations ≡ pos ∷ []) }
        ensures path { IfOk result (λ error. error.path ≡ []) }
        ensures extensions { IfOk result (λ error. error.extensions ≡ extensions_of self) }
    {
        let InputValueError {
            message,
            extensions,
            of: _,
        } = self;
        let mut locations = Items::new(alloc);
        locations.push(pos)?;
        Ok(ServerError {
            message,
            locations,
            path: Items::new(alloc),
            extensions,
        })
    }
}

impl<T> InputValueError<T> {
    ghost use Rattle.std.specs.Prelude.{string_bytes};

    /// That a value isn't of the type of a name, for the reading of an `InputType` itself.
    pub fn expected(alloc: Global, name: &str, actual: Value) -> Made<InputValueError<T>>
        ensures message { IfOk result (λ error. message_of error ≡ expected_text name.now actual) }
        ensures extensions { IfOk result (λ error. extensions_of error ≡ None) }
    {
        let found = literal_of(alloc, &actual)?;
        let mut out = String::new(alloc);
        write!(out, "Expected input type \"{name}\", found {found}.")?;
        Ok(InputValueError::of_text(Text::from_string(out)?))
    }

    /// That a value is refused for a reason, for the reading of an `InputType` of this name itself.
    pub fn refused(alloc: Global, name: &str, msg: &str) -> Made<InputValueError<T>>
        ensures message { IfOk result (λ error. message_of error ≡ custom_text name.now msg.now) }
        ensures extensions { IfOk result (λ error. extensions_of error ≡ None) }
    {
        let mut out = String::new(alloc);
        write!(out, "Failed to parse \"{name}\": {msg}")?;
        Ok(InputValueError::of_text(Text::from_string(out)?))
    }

    /// The same error as one of another type.
    pub fn retyped<U>(self) -> InputValueError<U>
        ensures message { message_of result ≡ message_of self }
        ensures extensions { extensions_of result ≡ extensions_of self }
    {
        let InputValueError {
            message,
            extensions,
            of: _,
        } = self;
        InputValueError {
            message,
            extensions,
            of: PhantomData,
        }
    }

    /// An error with this message alone.
    fn of_text(message: Text) -> InputValueError<T>
        ensures message { message_of result ≡ message }
        ensures extensions { extensions_of result ≡ None }
    {
        InputValueError {
            message,
            extensions: None,
            of: PhantomData,
        }
    }
}

fn propagated_text(alloc: Global, message: Text, name: &str, other: &str) -> Made<Text>
    ensures { IfOk result (λ text. text ≡ propagated name.now other.now message) }
{
    if name == other {
        return Ok(message);
    }
    let mut out = String::new(alloc);
    write!(out, "{message} (occurred while parsing \"{other}\")")?;
    Text::from_string(out)
}

/// Extensions with a value under a name; none are like empty ones.
fn extended(
    alloc: Global,
    extensions: Option<ErrorExtensionValues>,
    name: &str,
    value: Value,
) -> Made<ErrorExtensionValues>
    ensures { IfOk result (λ made. made ≡ set_in_order (unwrap_or extensions []) name.now value) }
{
    let mut extensions = match extensions {
        Some(extensions) => extensions,
        None => ErrorExtensionValues::new(alloc),
    };
    extensions.set(name, value)?;
    Ok(extensions)
}
