ghost use Rattle.std.specs.Prelude.{◌≡◌, None, MatchOption};
ghost use Rattle.gql_multipart.specs.MediaRange.{range_of};
ghost use Rattle.gql_multipart.specs.Read.{IsRead};

use crate::token::{behind, token_at};
use crate::told::{Told, told_by};

/// A media range that was read: its type, its subtype, and what its parameters say.
#[derive(Clone, Copy, Debug)]
pub struct MediaRange<'a> {
    pub kind: &'a [u8],
    pub subtype: &'a [u8],
    pub told: Told,
}

/// The media range that the text is.
#[tactic(auto, using(crate::proofs::OfferLemmas::telling), unfolding(crate::specs::MediaRange::range_of))]
pub fn range_of(text: &[u8]) -> Option<MediaRange<'_>>
    ensures { MatchOption result (range_of text.now ≡ None)
        (λ found. IsRead text.now found.kind.now found.subtype.now found.told) }
{
    let (kind, more) = token_at(text)?;
    let (subtype, parameters) = token_at(behind(more, b'/')?)?;
    let told = told_by(parameters)?;
    Some(MediaRange {
        kind,
        subtype,
        told,
    })
}
