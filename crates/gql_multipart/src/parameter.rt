ghost use Rattle.std.specs.Prelude.{◌≡◌, None, Some, MatchOption, IfSome, ◌<◌, length};
ghost use Rattle.gql_multipart.specs.Parameter.{parameter_at};
ghost use Rattle.gql_multipart.specs.Read.{given};

use crate::quoted::value_at;
use crate::token::{behind, token_at, unspaced};

/// A parameter that was read: its name, its value with the backslashes in it, and what is after
/// it.
#[derive(Clone, Copy, Debug)]
pub struct Parameter<'a> {
    pub name: &'a [u8],
    pub value: &'a [u8],
    pub rest: &'a [u8],
}

/// The parameter that the text begins with, after a semicolon.
#[tactic(auto, unfolding(crate::specs::Parameter::parameter_at))]
pub fn parameter_at(text: &[u8]) -> Option<Parameter<'_>>
    ensures value { MatchOption result (parameter_at text.now ≡ None)
        (λ found. parameter_at text.now ≡ Some (given found, found.rest.now)) }
    ensures within { IfSome result (λ found. length found.rest.now < length text.now) }
{
    let more = behind(unspaced(text), b';')?;
    let (name, more) = token_at(unspaced(more))?;
    let (value, rest) = value_at(behind(more, b'=')?)?;
    Some(Parameter { name, value, rest })
}
