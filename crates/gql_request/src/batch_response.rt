ghost use Rattle.std.specs.Prelude.{◌≡◌, ◌↔◌, [], All, IsTrue, IfOk, OnOk, IsErrOf};
ghost use Rattle.gql_request.specs.BatchResponse.{responses_of, batch_json};
ghost use Rattle.gql_request.specs.HeaderPairs.{pairs_left};
ghost use Rattle.gql_request.specs.Headers.{BatchOverflows, batch_headers};
ghost use Rattle.http_header.specs.HeaderMap.{pairs};

use crate::header_fault::HeaderFault;
use crate::header_folding::fold_responses;
use crate::header_pairs::HeaderPairs;
use crate::response::Response;
use gql_base::{Copied, Items, JsonText, Made, Text, push_list};
use http_header::HeaderMap;
use std::alloc::Global;

/// The response to one request, or those to the requests of a batch, in their order.
#[derive(Debug, Drop)]
pub enum BatchResponse {
    Single(Response),
    Batch(Items<Response>),
}

impl BatchResponse {
    /// True exactly where no response has an error.
    pub fn is_ok(&self) -> bool
        ensures { IsTrue result ↔ All (λ response. response.errors ≡ []) (responses_of self.now) }
    {
        match self {
            BatchResponse::Single(response) => response.is_ok(),
            BatchResponse::Batch(responses) => are_ok(responses.as_slice()),
        }
    }

    /// The headers of the single response, or those of all: each response takes its own over, in
    /// their order, and its names replace all earlier values of theirs. Where an operation meets a
    /// full map, that is the answer.
    pub fn http_headers(&self, alloc: Global) -> Result<HeaderMap, HeaderFault>
        ensures ok { IfOk result (λ headers. headers ≡ batch_headers self.now) }
        ensures room { OnOk result (¬ (BatchOverflows self.now)) }
        ensures full { IsErrOf result HeaderFault.MaxSizeReached → BatchOverflows self.now }
    {
        match self {
            BatchResponse::Single(response) => response.http_headers(alloc),
            BatchResponse::Batch(responses) => fold_responses(alloc, responses.as_slice()),
        }
    }

    /// The pairs of the map that `http_headers` answers, in its order.
    pub fn http_headers_iter(&self, alloc: Global) -> Result<HeaderPairs, HeaderFault>
        ensures ok { IfOk result (λ left. pairs_left left ≡ pairs (batch_headers self.now)) }
        ensures room { OnOk result (¬ (BatchOverflows self.now)) }
        ensures full { IsErrOf result HeaderFault.MaxSizeReached → BatchOverflows self.now }
    {
        let map = self.http_headers(alloc)?;
        Ok(HeaderPairs::of(alloc, &map)?)
    }

    /// The JSON text of the single response, or of the list of them all.
    pub fn json(&self, alloc: Global) -> Made<Text>
        ensures { IfOk result (λ text. text ≡ batch_json self.now) }
    {
        let mut out = String::new(alloc);
        self.push_text(&mut out)?;
        Text::from_string(out)
    }
}

impl JsonText for BatchResponse {
    ghost use Rattle.gql_request.specs.BatchResponse.{batch_json};

    ghost text = { batch_json };

    fn push_text(&self, out: &mut String) -> Made<()> {
        match self {
            BatchResponse::Single(response) => response.push_text(out),
            BatchResponse::Batch(responses) => push_list(out, responses.as_slice()),
        }
    }
}

fn are_ok(responses: &[Response]) -> bool
    ensures { IsTrue result ↔ All (λ response. response.errors ≡ []) responses.now }
{
    responses.iter().all(|response| response.is_ok())
}

impl Copied for BatchResponse {
    fn try_clone(&self, alloc: Global) -> Made<BatchResponse> {
        match self {
            BatchResponse::Single(response) => {
                Ok(BatchResponse::Single(response.try_clone(alloc)?))
            }
            BatchResponse::Batch(responses) => {
                Ok(BatchResponse::Batch(responses.try_clone(alloc)?))
            }
        }
    }
}
