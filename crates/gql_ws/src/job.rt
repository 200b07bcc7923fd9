use crate::ws_message::WsMessage;
use gql_base::{Copied, Made, Text, Value};
use gql_request::Request;
use std::alloc::Global;

/// What a step asks of the owner of a session.
#[derive(Debug, Drop)]
pub enum Job {
    Nothing,
    /// To ask whether the client is welcome, with what it told of itself. The answer comes as
    /// `WsEvent::Init`.
    Init(Value),
    /// To ask for the payload of a pong, with that of the ping. The answer comes as
    /// `WsEvent::Ping`.
    Ping(Option<Value>),
    /// To execute a request. What it gives comes as events of this number. The start of the number
    /// `replaced`, if any, is over.
    Start {
        number: u64,
        id: Text,
        request: Request,
        replaced: Option<u64>,
    },
    /// To let go of the execution of a number.
    Drop(u64),
}

/// What one event gives: a message to the client, if any, and a job.
#[derive(Debug, Drop)]
pub struct WsStep {
    pub out: Option<WsMessage>,
    pub job: Job,
}

impl Copied for Job {
    fn try_clone(&self, alloc: Global) -> Made<Job> {
        match self {
            Job::Nothing => Ok(Job::Nothing),
            Job::Init(payload) => Ok(Job::Init(payload.try_clone(alloc)?)),
            Job::Ping(payload) => Ok(Job::Ping(payload.try_clone(alloc)?)),
            Job::Start {
                number,
                id,
                request,
                replaced,
            } => Ok(Job::Start {
                number: *number,
                id: id.try_clone(alloc)?,
                request: request.try_clone(alloc)?,
                replaced: *replaced,
            }),
            Job::Drop(number) => Ok(Job::Drop(*number)),
        }
    }
}

impl Copied for WsStep {
    fn try_clone(&self, alloc: Global) -> Made<WsStep> {
        Ok(WsStep {
            out: self.out.try_clone(alloc)?,
            job: self.job.try_clone(alloc)?,
        })
    }
}
