ghost use Rattle.std.specs.Prelude.{◌≡◌, [], ◌∷◌, codes, false, length};
ghost use Rattle.std.specs.Option.{option_map, option_or};
ghost use Rattle.gql_multipart.specs.Parameter.{is_said, parameters_in, quality_said};
ghost use Rattle.gql_multipart.specs.Read.{given};
ghost use Rattle.gql_multipart.specs.Told.{is_graphql, told_and, told_of};

use crate::parameter::{Parameter, parameter_at};
use crate::quality::quality;
use crate::quoted::says;
use crate::token::is_same_word;

/// What the parameters of a media range say: of each name the first one counts.
#[derive(Clone, Copy, Debug)]
pub struct Told {
    /// Whether the boundary is `graphql`.
    pub boundary: Option<bool>,
    /// Whether the specification of subscriptions is `1.0`.
    pub specification: Option<bool>,
    /// The quality, in thousandths.
    pub q: Option<u16>,
}

/// Whether the parameter of a name says a text, where there is one.
fn text_told(
    known: Option<bool>,
    parameter: &Parameter<'_>,
    name: &[u8],
    text: &[u8],
) -> Option<bool>
    ensures { result ≡ option_or known (is_said name.now text.now (given parameter.now ∷ [])) }
{
    if known.is_none() && is_same_word(parameter.name, name) {
        Some(says(parameter.value, text))
    } else {
        known
    }
}

/// The quality, where a parameter tells it.
fn quality_told(known: Option<u16>, parameter: &Parameter<'_>) -> Option<u16>
    ensures { result ≡ option_or known (quality_said (given parameter.now ∷ [])) }
{
    if known.is_none() && is_same_word(parameter.name, b"q") {
        Some(quality(parameter.value))
    } else {
        known
    }
}

impl Told {
    /// What is told, with one more parameter.
    fn and(self, parameter: &Parameter<'_>) -> Told
        ensures { result ≡ told_and self (given parameter.now ∷ []) }
    {
        Told {
            boundary: text_told(self.boundary, parameter, b"boundary", b"graphql"),
            specification: text_told(self.specification, parameter, b"subscriptionSpec", b"1.0"),
            q: quality_told(self.q, parameter),
        }
    }

    /// True exactly where boundary and specification are those of GraphQL.
    pub fn is_graphql(&self) -> bool
        ensures { result ≡ is_graphql self.now }
    {
        self.boundary.unwrap_or(false) && self.specification.unwrap_or(false)
    }
}

/// What the parameters say that the text consists of.
#[tactic(auto, using(crate::proofs::TellingLemmas::going))]
pub fn told_by(text: &[u8]) -> Option<Told>
    ensures { result ≡ option_map told_of (parameters_in (length text.now) text.now) }
{
    let mut told = Told {
        boundary: None,
        specification: None,
        q: None,
    };
    let mut rest = text;
    while !rest.is_empty() {
        let parameter = parameter_at(rest)?;
        told = told.and(&parameter);
        rest = parameter.rest;
    }
    Some(told)
}
