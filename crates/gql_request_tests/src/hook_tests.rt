//! What the events of hooks are called.
use gql_request::{HookEvent, HookStage};

/// What the event before a stage is called, or the one after it.
fn event_text(stage: HookStage, ended: bool) -> &'static str {
    let event = HookEvent { stage, ended };
    event.text()
}

/// Stages, each with what the events before and after it are called.
const EVENTS: [(HookStage, &str, &str); 7] = [
    (HookStage::Request, "request_start", "request_end"),
    (HookStage::Subscribe, "subscribe_start", "subscribe_end"),
    (
        HookStage::PrepareRequest,
        "prepare_request_start",
        "prepare_request_end",
    ),
    (
        HookStage::ParseQuery,
        "parse_query_start",
        "parse_query_end",
    ),
    (HookStage::Validation, "validation_start", "validation_end"),
    (HookStage::Execute, "execute_start", "execute_end"),
    (HookStage::Resolve, "resolve_start", "resolve_end"),
];

/// What is wanted of the first stage of a table whose events are called otherwise.
fn first_wrong_event(table: &[(HookStage, &'static str, &'static str)]) -> Option<&'static str> {
    for (stage, start, end) in table {
        if event_text(*stage, false) != *start || event_text(*stage, true) != *end {
            return Some(*start);
        }
    }
    None
}

#[test]
fn events_are_called(rt: HostRuntime) {
    assert_eq!(rt; first_wrong_event(&EVENTS), None);
}
