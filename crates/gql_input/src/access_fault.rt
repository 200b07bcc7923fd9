ghost use Rattle.std.specs.Prelude.{◌≡◌, IfOk, None};
ghost use Rattle.gql_input.specs.AccessFault.{fault_text};

use gql_base::{Error, Made, Text};
use std::alloc::Global;
use std::fmt;

/// Why an accessor refuses.
#[derive(Clone, Copy, Debug)]
pub enum AccessFault<'k> {
    NotBoolean,
    NotEnumName,
    NotSigned,
    NotUnsigned,
    NotString,
    NotObject,
    NotList,
    /// An object has no member of this name.
    NoKey(&'k str),
    /// A list has no item at this place.
    NoIndex(usize),
    /// A part of a list begins after its end, or ends after the list.
    BadSlice,
    /// What a resolver gave is no value.
    NotValue,
    /// What a resolver gave is no list.
    NotFieldList,
    /// What a resolver gave is no value of its own kind.
    NotOwn,
}

impl<'k> AccessFault<'k> {
    /// The fault as an error with its text.
    pub fn into_error(self, alloc: Global) -> Made<Error>
        ensures message { IfOk result (λ error. error.message ≡ fault_text self.entry) }
        ensures extensions { IfOk result (λ error. error.extensions ≡ None) }
    {
        let mut out = String::new(alloc);
        write!(out, "{self}")?;
        Ok(Error {
            message: Text::from_string(out)?,
            extensions: None,
        })
    }
}

impl<'k> fmt::Display for AccessFault<'k> {
    ghost use Rattle.std.specs.Prelude.{Some};
    ghost use Rattle.gql_input.specs.AccessFault.{fault_text};

    ghost output = { λ fault. Some (fault_text fault) };

    fn fmt<W: fmt::Write>(&self, f: &mut fmt::Formatter<W>) -> fmt::Result {
        match self {
            AccessFault::NotBoolean => f.write_str("internal: not a boolean"),
            AccessFault::NotEnumName => f.write_str("internal: not an enum name"),
            AccessFault::NotSigned => f.write_str("internal: not an signed integer"),
            AccessFault::NotUnsigned => f.write_str("internal: not an unsigned integer"),
            AccessFault::NotString => f.write_str("internal: not a string"),
            AccessFault::NotObject => f.write_str("internal: not an object"),
            AccessFault::NotList => f.write_str("internal: not a list"),
            AccessFault::NoKey(key) => write!(f, "internal: key \"{key}\" not found"),
            AccessFault::NoIndex(place) => write!(f, "internal: index \"{place}\" not found"),
            AccessFault::BadSlice => f.write_str("internal: invalid slice indices"),
            AccessFault::NotValue => f.write_str("internal: not a Value"),
            AccessFault::NotFieldList => f.write_str("internal: not a List"),
            AccessFault::NotOwn => f.write_str("internal: not an own value"),
        }
    }
}
