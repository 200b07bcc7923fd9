ghost use Rattle.std.specs.Prelude.{◌≡◌};

use gql_base::{Copied, Made};
use std::alloc::Global;

/// The stages of a request at which hooks are called.
#[derive(Clone, Copy, PartialEq, Eq, Debug)]
pub enum HookStage {
    Request,
    Subscribe,
    PrepareRequest,
    ParseQuery,
    Validation,
    Execute,
    Resolve,
}

/// That hooks were called before a stage, or after it.
#[derive(Clone, Copy, PartialEq, Eq, Debug)]
pub struct HookEvent {
    pub stage: HookStage,
    /// Whether the stage was over.
    pub ended: bool,
}

impl HookEvent {
    ghost use Rattle.gql_request.specs.HookEvent.{event_text};

    /// The event as it is printed, such as `parse_query_start`.
    pub fn text(&self) -> &'static str
        ensures { result.now ≡ event_text self.now }
    {
        match (self.stage, self.ended) {
            (HookStage::Request, false) => "request_start",
            (HookStage::Request, true) => "request_end",
            (HookStage::Subscribe, false) => "subscribe_start",
            (HookStage::Subscribe, true) => "subscribe_end",
            (HookStage::PrepareRequest, false) => "prepare_request_start",
            (HookStage::PrepareRequest, true) => "prepare_request_end",
            (HookStage::ParseQuery, false) => "parse_query_start",
            (HookStage::ParseQuery, true) => "parse_query_end",
            (HookStage::Validation, false) => "validation_start",
            (HookStage::Validation, true) => "validation_end",
            (HookStage::Execute, false) => "execute_start",
            (HookStage::Execute, true) => "execute_end",
            (HookStage::Resolve, false) => "resolve_start",
            (HookStage::Resolve, true) => "resolve_end",
        }
    }
}

impl Copied for HookStage {
    fn try_clone(&self, _alloc: Global) -> Made<HookStage> {
        Ok(*self)
    }
}

impl Copied for HookEvent {
    fn try_clone(&self, _alloc: Global) -> Made<HookEvent> {
        Ok(*self)
    }
}
