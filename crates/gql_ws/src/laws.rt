//! Laws of sessions, each the contract of a function.
ghost use Rattle.gql_ws.specs.Kinds.{KindsDiffer};
ghost use Rattle.gql_ws.specs.Safe.{DataOnceAcknowledged, EverySessionIsSafe};

/// The steps of a session are safe, whatever the events are.
pub fn every_session_is_safe()
    ensures { EverySessionIsSafe }
{}

/// The texts of two kinds of messages are never equal.
pub fn kinds_of_messages_differ()
    ensures { KindsDiffer }
{}

/// The data of a session are there exactly once there was an acknowledgement.
pub fn data_once_acknowledged()
    ensures { DataOnceAcknowledged }
{}
