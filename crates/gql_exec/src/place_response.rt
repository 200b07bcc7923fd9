//! The response of a place.
ghost use Rattle.std.specs.Prelude.{◌≡◌, [], IfOk};
ghost use Rattle.gql_place.specs.Pieces.{place_in};
ghost use Rattle.gql_meaning.specs.PlaceResponse.{response_at};

use gql_base::{ErrorExtensionValues, Items, Made, ServerError, Value};
use gql_place::{Piece, Place, faults, header_ops, raise_moved};
use gql_request::{HeaderOp, Response};
use std::alloc::Global;

/// The response of a place, which is used up: the data that is raised from it, its errors, and what
/// its places do to the headers of the HTTP response (GraphQL, October 2021, sections 6.4.4 and
/// 7.1).
pub fn response_at(alloc: Global, place: Place) -> Made<Response>
    ensures { IfOk result (λ response. response ≡ response_at place) }
{
    let errors = faults(alloc, &place)?;
    let headers = header_ops(alloc, &place)?;
    let result = raise_moved(alloc, place)?;
    Ok(response_with(alloc, result, errors, headers))
}

/// The response of what is kept of a place: data alone is the response as it stands.
pub(crate) fn response_of(alloc: Global, piece: Piece) -> Made<Response>
    ensures { IfOk result (λ response. response ≡ response_at (place_in piece)) }
{
    match piece {
        Piece::Data(value) => {
            let errors = Items::new(alloc);
            let headers = Items::new(alloc);
            Ok(response_with(alloc, value, errors, headers))
        }
        Piece::Whole(place) => response_at(alloc, place.into_inner()),
    }
}

/// A response with this data, these errors and these operations on headers.
fn response_with(
    alloc: Global,
    value: Value,
    errors: Items<ServerError>,
    headers: Items<HeaderOp>,
) -> Response
    ensures value { result.result ≡ value }
    ensures extensions { result.extensions ≡ [] }
    ensures errors { result.errors ≡ errors }
    ensures headers { result.headers ≡ headers }
{
    Response {
        result: value,
        extensions: ErrorExtensionValues::new(alloc),
        errors,
        headers,
    }
}
