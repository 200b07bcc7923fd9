ghost use Rattle.std.specs.Prelude.{◌≡◌, ◌<◌, [], length, map, slice_get, Some, IfOk, MatchResult};
ghost use Rattle.std.specs.Borrow.{Lends, sem};
ghost use Rattle.gql_request.specs.BatchRequest.{requests_of, each_request, with_request};
ghost use Rattle.gql_request.specs.BatchRequest.{requests_in, some_requests_in, batch_of};
ghost use Rattle.gql_request.specs.Data.{put_key};
ghost use Rattle.gql_request.specs.ParseRequestError.{Tells};
ghost use Rattle.gql_request.specs.Reading.{IsRead};
ghost use Rattle.gql_request.specs.Requests.{requests_left};

use crate::data::DataKey;
use crate::parse_request_error::ParseRequestError;
use crate::query_env::IntrospectionMode;
use crate::reading::{Fault, Reason};
use crate::request::{Request, read_request};
use gql_base::{Copied, Items, Made, Value, Variables};
use std::alloc::{AllocError, Global};
use std::slice;

/// One request, or a list of them that are answered one after another.
#[derive(Debug, Drop)]
pub enum BatchRequest {
    Single(Request),
    Batch(Items<Request>),
}

impl BatchRequest {
    ghost use Rattle.gql_request.specs.contracts.batch_request.BatchRequest.{the_row};
    ghost use Rattle.gql_request.specs.contracts.request.Request.{the_row as request_row};

    /// The single request. It refuses exactly batches.
    pub fn into_single(self) -> Result<Request, ParseRequestError>
        ensures { MatchResult result (λ request. self ≡ BatchRequest.Single request)
            (λ error. (error ≡ ParseRequestError.UnsupportedBatch)
            × (self ≡ BatchRequest.Batch (requests_of self))) }
    {
        match self {
            BatchRequest::Single(request) => Ok(request),
            BatchRequest::Batch(_) => Err(ParseRequestError::UnsupportedBatch),
        }
    }

    /// The requests, one after another.
    pub fn iter(&self) -> Requests<'_>
        ensures { requests_left result ≡ requests_of self.now }
    {
        Requests {
            left: self.as_slice(),
        }
    }

    /// The number of requests, which is 1 for a single one.
    pub fn len(&self) -> usize
        ensures { result ≡ length (requests_of self.now) }
    {
        self.as_slice().len()
    }

    fn as_slice(&self) -> &[Request]
        ensures { result.now ≡ requests_of self.now }
    {
        match self {
            BatchRequest::Single(request) => slice::from_ref(request),
            BatchRequest::Batch(requests) => requests.as_slice(),
        }
    }

    /// The request at a place, counted from 0, to be changed.
    pub fn at_mut(&mut self, place: usize) -> &mut Request
        requires { place < length (requests_of self.old) }
        ensures* writes_back { sem 𝓛 (Lends the_row request_row self.entry result
            (with_request self.old place)) }
        ensures value { slice_get (requests_of self.old) place ≡ Some result.now }
    {
        match self {
            BatchRequest::Single(request) => request,
            BatchRequest::Batch(requests) => requests.at_mut(place),
        }
    }

    /// This batch, each request with a copy of these variables in place of its own.
    #[tactic(auto, using(crate::proofs::BatchLemmas::none_changed, crate::proofs::BatchLemmas::one_changed, crate::proofs::BatchLemmas::all_changed))]
    pub fn variables(mut self, alloc: Global, variables: &Variables) -> Made<BatchRequest>
        ensures { IfOk result
            (λ batch. batch
            ≡ each_request (λ request. record request { variables = variables.now }) self) }
    {
        for place in 0..self.len() {
            self.at_mut(place).variables = variables.try_clone(alloc)?;
        }
        Ok(self)
    }

    /// This batch, each request with a copy of a value under a key of its layer of data.
    #[tactic(auto, using(crate::proofs::BatchLemmas::none_changed, crate::proofs::BatchLemmas::one_changed, crate::proofs::BatchLemmas::all_changed))]
    pub fn data(mut self, alloc: Global, key: DataKey, value: &Value) -> Made<BatchRequest>
        ensures { IfOk result
            (λ batch. batch
            ≡ each_request
            (λ request. record request
            { query_data = put_key request.query_data key.0 value.now }) self) }
    {
        for place in 0..self.len() {
            let copy = value.try_clone(alloc)?;
            self.at_mut(place).query_data.insert(key, copy)?;
        }
        Ok(self)
    }

    /// This batch, to whose requests fields of the schema have no values.
    pub fn disable_introspection(self) -> BatchRequest
        ensures { result ≡ each_request
            (λ request. record request { introspection_mode = IntrospectionMode.Disabled }) self }
    {
        self.in_mode(IntrospectionMode::Disabled)
    }

    /// This batch, to whose requests fields of the schema alone have values.
    pub fn introspection_only(self) -> BatchRequest
        ensures { result ≡ each_request
            (λ request. record request { introspection_mode = IntrospectionMode.IntrospectionOnly })
            self }
    {
        self.in_mode(IntrospectionMode::IntrospectionOnly)
    }

    #[tactic(auto, using(crate::proofs::BatchLemmas::none_changed, crate::proofs::BatchLemmas::one_changed, crate::proofs::BatchLemmas::all_changed))]
    fn in_mode(mut self, mode: IntrospectionMode) -> BatchRequest
        ensures { result
            ≡ each_request (λ request. record request { introspection_mode = mode }) self }
    {
        for place in 0..self.len() {
            self.at_mut(place).introspection_mode = mode;
        }
        self
    }

    /// The batch that a value holds, or the first reason why it holds none: a list of requests, or
    /// one request.
    pub fn from_json(alloc: Global, value: &Value) -> Made<Result<BatchRequest, ParseRequestError>>
        ensures { IfOk result (λ read. Tells read (batch_of value.now)) }
    {
        match read_batch(alloc, value) {
            Ok(batch) => Ok(Ok(batch)),
            Err(Fault::Refused(reason)) => {
                Ok(Err(ParseRequestError::InvalidRequest(reason.text())))
            }
            Err(Fault::NoMemory) => Err(AllocError),
        }
    }
}

fn read_batch(alloc: Global, value: &Value) -> Result<BatchRequest, Fault>
    ensures { IsRead result (batch_of value.now) }
{
    match value {
        Value::List(values) => Ok(BatchRequest::Batch(read_requests(alloc, values.as_slice())?)),
        other => Ok(BatchRequest::Single(read_request(alloc, other)?)),
    }
}

/// Reads the requests of a list, which isn't empty.
fn read_requests(alloc: Global, values: &[Value]) -> Result<Items<Request>, Fault>
    ensures { IsRead result (some_requests_in values.now) }
{
    if values.is_empty() {
        return Err(Fault::Refused(Reason::NoRequest));
    }
    let mut requests = Items::with_capacity(alloc, values.len())?;
    for value in values {
        requests.push(read_request(alloc, value)?)?;
    }
    Ok(requests)
}

impl Copied for BatchRequest {
    fn try_clone(&self, alloc: Global) -> Made<BatchRequest> {
        match self {
            BatchRequest::Single(request) => Ok(BatchRequest::Single(request.try_clone(alloc)?)),
            BatchRequest::Batch(requests) => Ok(BatchRequest::Batch(requests.try_clone(alloc)?)),
        }
    }
}

/// The requests of a batch, one after another.
#[derive(Clone, Copy)]
pub struct Requests<'a> {
    left: &'a [Request],
}

impl<'a> Iterator for Requests<'a> {
    type Item = &'a Request;

    ghost use Rattle.std.specs.Iterator.{YieldsFirstRef, item_count};
    ghost use Rattle.gql_request.specs.Requests.{requests_left};

    ghost next_gives = { YieldsFirstRef requests_left };

    ghost remaining = { item_count requests_left };

    fn next(&mut self) -> Option<&'a Request> {
        match self.left.split_first() {
            Some((first, rest)) => {
                self.left = rest;
                Some(first)
            }
            None => None,
        }
    }
}
