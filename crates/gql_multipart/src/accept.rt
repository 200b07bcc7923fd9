ghost use Rattle.std.specs.Prelude.{◌≡◌, ◌↔◌, IsTrue, true};
ghost use Rattle.gql_multipart.specs.Accept.{IsBest, best_offer, better, offers, prefers_multipart};
ghost use Rattle.gql_multipart.specs.declared.offer.Offer.{Offer};

use crate::offer::{Offer, offer_at};
use crate::token::trimmed;

/// The offer that is wanted more, and the first where both are wanted alike.
fn better(known: Option<Offer>, other: Option<Offer>) -> Option<Offer>
    ensures { result ≡ better known other }
{
    match (known, other) {
        (Some(first), Some(second)) if first.q < second.q => other,
        (Some(_), _) => known,
        (None, _) => other,
    }
}

/// The best of the offers of a header.
fn best_offer(accept: &[u8]) -> Option<Offer>
    ensures { result ≡ best_offer accept.now }
{
    accept
        .split(|c| *c == b',')
        .map(|piece| offer_at(trimmed(piece)))
        .fold(None, |best, offer| better(best, offer))
}

/// True exactly where the best of the offers is a multipart body.
fn prefers_multipart(accept: &[u8]) -> bool
    ensures { result ≡ prefers_multipart accept.now }
{
    match best_offer(accept) {
        Some(offer) => offer.is_multipart,
        None => false,
    }
}

/// True exactly where an `Accept` header asks for multipart bodies: of the media ranges that are
/// `application/json`, or `multipart/mixed` with the boundary `graphql` and the `subscriptionSpec`
/// `1.0`, the one with the greatest `q` decides, the first of several.
pub fn is_accept_multipart_mixed(accept: &str) -> bool
    ensures value { result ≡ prefers_multipart accept.now }
    ensures decided { IsTrue result
        ↔ ((best : Offer) × IsBest (offers accept.now) best × (best.is_multipart ≡ true)) }
{
    prefers_multipart(accept.as_bytes())
}
