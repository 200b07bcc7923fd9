ghost use Rattle.std.specs.Prelude.{◌≡◌, codes};
ghost use Rattle.gql_multipart.specs.Offer.{are_words, offer_at, offered};

use crate::media_range::{MediaRange, range_of};
use crate::token::is_same_word;

/// What a media range asks for: a multipart body or JSON, and how much it is wanted, in
/// thousandths.
#[derive(Clone, Copy, Debug)]
pub struct Offer {
    pub is_multipart: bool,
    pub q: u16,
}

/// True exactly where a range is of this type and this subtype.
fn is_of(range: &MediaRange<'_>, kind: &[u8], subtype: &[u8]) -> bool
    ensures { result ≡ are_words range.now.kind.now range.now.subtype.now kind.now subtype.now }
{
    is_same_word(range.kind, kind) && is_same_word(range.subtype, subtype)
}

/// True exactly for `application/json`.
fn is_json(range: &MediaRange<'_>) -> bool
    ensures { result ≡ are_words range.now.kind.now range.now.subtype.now
        (codes "application") (codes "json") }
{
    is_of(range, b"application", b"json")
}

/// True exactly for `multipart/mixed`.
fn is_mixed(range: &MediaRange<'_>) -> bool
    ensures { result ≡ are_words range.now.kind.now range.now.subtype.now
        (codes "multipart") (codes "mixed") }
{
    is_of(range, b"multipart", b"mixed")
}

/// What a range asks for, if it's one of the two.
fn offer_of(range: &MediaRange<'_>) -> Option<Offer>
    ensures { result ≡ offered range.now.kind.now range.now.subtype.now range.now.told }
{
    let q = range.told.q.unwrap_or(1000);
    if is_json(range) {
        Some(Offer {
            is_multipart: false,
            q,
        })
    } else if is_mixed(range) && range.told.is_graphql() {
        Some(Offer {
            is_multipart: true,
            q,
        })
    } else {
        None
    }
}

/// What the text of a media range asks for.
#[tactic(auto, using(crate::proofs::OfferLemmas::offer_read, crate::proofs::OfferLemmas::offer_none))]
pub fn offer_at(text: &[u8]) -> Option<Offer>
    ensures { result ≡ offer_at text.now }
{
    let range = range_of(text)?;
    offer_of(&range)
}
