//! Requests with the initial value of their root (GraphQL, October 2021, section 6.1).
ghost use Rattle.std.specs.Prelude.{◌≡◌};

use gql_base::{Copied, Made, Value};
use gql_request::Request;
use gql_resolve::FieldValue;
use std::alloc::Global;

/// A request with the value that the fields of its root get as their parent.
#[derive(Drop)]
pub struct DynamicRequest<V> {
    pub inner: Request,
    pub root_value: FieldValue<V>,
}

/// What can be sent with a value of the root.
pub trait DynamicRequestExt {
    ghost use Rattle.gql_exec.specs.DynamicRequest.{rooted};
    ghost use Rattle.gql_request.specs.declared.request.Request.{Request as OneRequest};

    ghost request_in: { Self → OneRequest };

    /// This request with a value for its root.
    fn root_value<V>(self, value: FieldValue<V>) -> DynamicRequest<V>
        ensures { result ≡ rooted (request_in self) value };
}

impl DynamicRequestExt for Request {
    ghost request_in = { λ request. request };

    fn root_value<V>(self, value: FieldValue<V>) -> DynamicRequest<V> {
        DynamicRequest {
            inner: self,
            root_value: value,
        }
    }
}

/// A request whose root has the value null.
impl<V> From<Request> for DynamicRequest<V> {
    ghost use Rattle.gql_exec.specs.DynamicRequest.{unrooted};

    ghost from_gives = { λ request made. made ≡ unrooted request };

    fn from(request: Request) -> DynamicRequest<V> {
        request.root_value(FieldValue::value(Value::Null))
    }
}

impl<V: Copied + Drop> Copied for DynamicRequest<V> {
    fn try_clone(&self, alloc: Global) -> Made<DynamicRequest<V>> {
        Ok(DynamicRequest {
            inner: self.inner.try_clone(alloc)?,
            root_value: self.root_value.try_clone(alloc)?,
        })
    }
}
