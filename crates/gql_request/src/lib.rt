//! Requests and responses, and what a request brings to its execution: data of the layers, the
//! environment of a query, and the path to a place.
#![tactic(auto)]

mod batch_no_memory;
mod batch_request;
mod batch_response;
mod data;
mod data_context;
mod defined;
mod entered;
mod executor;
mod extension_context;
mod header_fault;
mod header_folding;
mod header_op;
mod header_pairs;
mod hook_event;
mod hooks;
mod key_tree;
mod parse_request_error;
mod query_env;
mod query_path_node;
mod reading;
mod request;
mod resolve_info;
mod response;
mod shared;
mod stream_poll;

pub use batch_no_memory::BatchNoMemory;
pub use batch_request::{BatchRequest, Requests};
pub use batch_response::BatchResponse;
pub use data::{Data, DataKey, NoData};
pub use data_context::{DataContext, found_or};
pub use defined::{Defined, definition_places};
pub use entered::Entered;
pub use executor::Executor;
pub use extension_context::ExtensionContext;
pub use header_fault::HeaderFault;
pub use header_op::HeaderOp;
pub use header_pairs::HeaderPairs;
pub use hook_event::{HookEvent, HookStage};
pub use hooks::Hooks;
pub use parse_request_error::ParseRequestError;
pub use query_env::{IntrospectionMode, QueryEnv};
pub use query_path_node::{Parents, QueryPathNode};
pub use request::Request;
pub use resolve_info::ResolveInfo;
pub use response::Response;
pub use stream_poll::StreamPoll;
