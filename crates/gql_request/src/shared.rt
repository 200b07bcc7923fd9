//! Requests, responses and what they hold can be moved to threads and shared between them.
use crate::{
    BatchNoMemory, BatchRequest, BatchResponse, Data, DataKey, ExtensionContext, HeaderFault,
    HeaderOp, HeaderPairs, HookEvent, HookStage, Hooks, IntrospectionMode, NoData, Parents,
    ParseRequestError, QueryEnv, QueryPathNode, Request, Response, StreamPoll,
};

fn shared<T: Send + Sync>() {}

fn public_types<'a>() {
    shared::<BatchNoMemory>();
    shared::<Data>();
    shared::<DataKey>();
    shared::<HeaderFault>();
    shared::<HeaderOp>();
    shared::<HookEvent>();
    shared::<HookStage>();
    shared::<Hooks>();
    shared::<IntrospectionMode>();
    shared::<NoData>();
    shared::<Parents<'a>>();
    shared::<ParseRequestError>();
    shared::<QueryPathNode<'a>>();
}

fn of_query_env() {
    shared::<QueryEnv>();
}

fn of_extension_context<'a>() {
    shared::<ExtensionContext<'a>>();
}

fn of_request() {
    shared::<Request>();
}

fn of_response() {
    shared::<Response>();
}

fn of_batch_request() {
    shared::<BatchRequest>();
}

fn of_batch_response() {
    shared::<BatchResponse>();
}

fn of_stream_poll() {
    shared::<StreamPoll>();
}

fn of_header_pairs() {
    shared::<HeaderPairs>();
}
