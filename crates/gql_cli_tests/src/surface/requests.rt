//! What users name of requests, responses and sessions.
pub use gql_request::{
    BatchNoMemory, BatchRequest, BatchResponse, Data, DataContext, DataKey, Entered, Executor,
    ExtensionContext, HeaderFault, HeaderOp, HeaderPairs, HookEvent, HookStage, Hooks,
    IntrospectionMode, NoData, Parents, ParseRequestError, QueryEnv, QueryPathNode, Request,
    Requests, ResolveInfo, Response, StreamPoll,
};
pub use gql_ws::{
    ALL_WEBSOCKET_PROTOCOLS, ClientMessage, Job, MessageFault, MultipartMixed, Protocols,
    UnsupportedProtocol, WsCore, WsEvent, WsMessage, WsStep, is_accept_multipart_mixed,
};
