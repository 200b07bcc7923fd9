//! A session over the events of its connection, without streams or sockets.
ghost use Rattle.std.specs.Prelude.{◌≡◌, None, Some, Ok, codes, nat_le, true, false};
ghost use Rattle.std.specs.Option.{option_copied};
ghost use Rattle.gql_ws.specs.Found.{found, has_number, number_of};
ghost use Rattle.gql_ws.specs.Frames as frame;
ghost use Rattle.gql_ws.specs.Session.{Gives, asks, says, quiet, shut, refuses, limit, ws_step};
ghost use Rattle.gql_ws.specs.Session.{new_core, session_of, on_message, on_init, or_null};
ghost use Rattle.gql_ws.specs.Session.{on_init_answered, on_start, on_accepted, on_allowed, begins};
ghost use Rattle.gql_ws.specs.Session.{on_stop, on_ping_answered, on_item, on_end, on_refused};
ghost use Rattle.gql_ws.specs.Session.{shown, step_of, taken_id, unready};
ghost use Rattle.gql_ws.specs.declared.job.Job.TheVariants.{Nothing};

use crate::client_message::ClientMessage;
use crate::job::{Job, WsStep};
use crate::lives::Lives;
use crate::messages;
use crate::ws_event::WsEvent;
use crate::ws_message::WsMessage;
use gql_base::{Copied, Error, Items, Made, ServerError, Text, Value};
use gql_protocols::Protocols;
use gql_request::{Data, Request, Response};
use std::alloc::Global;

/// How far a session has come.
#[derive(Clone, Copy, PartialEq, Eq, Debug)]
pub enum Stage {
    New,
    /// The client's init waits for its answer.
    Initialising,
    Acknowledged,
}

/// A session: what it says and asks for at each event.
#[derive(Debug, Drop)]
pub struct WsCore {
    protocol: Protocols,
    /// The data of the connection, and from the acknowledgement on those of the session.
    connection: Data,
    stage: Stage,
    /// Whether a ping waits for its answer.
    ping: bool,
    live: Lives,
    /// How many starts were made.
    starts: u64,
    closed: bool,
}

impl WsCore {
    /// A session before its first event.
    pub fn new(alloc: Global, protocol: Protocols, connection: Data) -> WsCore
        ensures { result ≡ new_core protocol connection }
    {
        WsCore {
            protocol,
            connection,
            stage: Stage::New,
            ping: false,
            live: Lives::new(alloc),
            starts: 0,
            closed: false,
        }
    }

    /// The data of the session, which are there exactly after the acknowledgement.
    pub fn session(&self) -> Option<&Data>
        ensures { option_copied result ≡ session_of self.now }
    {
        match self.stage {
            Stage::Acknowledged => Some(&self.connection),
            Stage::New => None,
            Stage::Initialising => None,
        }
    }

    /// What an event gives. Where memory runs out, the session is as it was.
    pub fn step(&mut self, alloc: Global, event: WsEvent) -> Made<WsStep>
        ensures { Gives self.old result self.new (ws_step self.old event) }
    {
        if self.closed {
            return Ok(quiet());
        }
        match event {
            WsEvent::Message(Ok(message)) => self.on_message(alloc, message),
            WsEvent::Message(Err(fault)) => self.close(alloc, 1002, fault.text()),
            WsEvent::InboxEnded => Ok(self.end(alloc)),
            WsEvent::Init(answer) => self.on_init_answered(alloc, answer),
            WsEvent::Ping(answer) => self.on_ping_answered(alloc, answer),
            WsEvent::Item(number, response) => self.on_item(alloc, number, response),
            WsEvent::Ended(number) => self.on_end(alloc, number),
            WsEvent::Refused(number, errors) => self.on_refused(alloc, number, errors),
            WsEvent::Timeout => self.refuse(alloc, "timeout", 3008),
        }
    }

    fn shut(&mut self, alloc: Global)
        ensures { self.new ≡ shut self.old }
    {
        self.closed = true;
        self.live = Lives::new(alloc);
    }

    /// Closes the session with nothing said.
    fn end(&mut self, alloc: Global) -> WsStep
        ensures step { result ≡ shown (quiet self.old).1 }
        ensures state { self.new ≡ shut self.old }
    {
        self.shut(alloc);
        quiet()
    }

    /// Closes the session with this said.
    fn end_with(&mut self, alloc: Global, out: WsMessage) -> WsStep
        ensures step { result ≡ record { out = Some out; job = Nothing } }
        ensures state { self.new ≡ shut self.old }
    {
        self.shut(alloc);
        said(out)
    }

    fn close(&mut self, alloc: Global, code: u16, reason: &str) -> Made<WsStep>
        ensures { Gives self.old result self.new
            (says (shut self.old) (frame.Close code reason.now)) }
    {
        let out = messages::close(alloc, code, reason)?;
        Ok(self.end_with(alloc, out))
    }

    fn refuse(&mut self, alloc: Global, text: &str, code: u16) -> Made<WsStep>
        ensures { Gives self.old result self.new (refuses self.old text.now code) }
    {
        let out = messages::refusal(alloc, self.protocol, text, code)?;
        Ok(self.end_with(alloc, out))
    }

    fn on_message(&mut self, alloc: Global, message: ClientMessage) -> Made<WsStep>
        ensures { Gives self.old result self.new (on_message self.old message) }
    {
        match message {
            ClientMessage::ConnectionInit { payload } => self.on_init(alloc, payload),
            ClientMessage::Start { id, payload } => self.on_start(alloc, id, payload),
            ClientMessage::Stop { id } => self.on_stop(alloc, id),
            ClientMessage::ConnectionTerminate => Ok(self.end(alloc)),
            ClientMessage::Ping { payload } => Ok(self.on_ping(payload)),
            ClientMessage::Pong { payload: _ } => Ok(quiet()),
        }
    }

    fn on_ping(&mut self, payload: Option<Value>) -> WsStep
        ensures step { result ≡ shown (asks self.old (Job.Ping payload)).1 }
        ensures state { self.new ≡ record self.old { ping = true } }
    {
        self.ping = true;
        asked(Job::Ping(payload))
    }

    fn on_init(&mut self, alloc: Global, payload: Option<Value>) -> Made<WsStep>
        ensures { Gives self.old result self.new (on_init self.old self.old.stage payload) }
    {
        match self.stage {
            Stage::New => {
                self.stage = Stage::Initialising;
                Ok(asked(Job::Init(or_null(payload))))
            }
            Stage::Initialising => self.refuse_init(alloc),
            Stage::Acknowledged => self.refuse_init(alloc),
        }
    }

    fn refuse_init(&mut self, alloc: Global) -> Made<WsStep>
        ensures { Gives self.old result self.new
            (refuses self.old (codes "Too many initialisation requests.") 4429) }
    {
        self.refuse(alloc, "Too many initialisation requests.", 4429)
    }

    fn on_init_answered(&mut self, alloc: Global, answer: Result<Data, Error>) -> Made<WsStep>
        ensures { Gives self.old result self.new
            (on_init_answered self.old self.old.stage answer) }
    {
        match self.stage {
            Stage::Initialising => match answer {
                Ok(added) => self.acknowledge(alloc, added),
                Err(error) => self.refuse(alloc, error.message.as_str(), 1002),
            },
            Stage::New => Ok(quiet()),
            Stage::Acknowledged => Ok(quiet()),
        }
    }

    /// Welcomes the client, with these data added.
    fn acknowledge(&mut self, alloc: Global, added: Data) -> Made<WsStep>
        ensures { Gives self.old result self.new
            (on_init_answered self.old Stage.Initialising (Ok added)) }
    {
        let out = messages::ack(alloc)?;
        self.connection.merge(added)?;
        self.stage = Stage::Acknowledged;
        Ok(said(out))
    }

    fn on_ping_answered(
        &mut self,
        alloc: Global,
        answer: Result<Option<Value>, Error>,
    ) -> Made<WsStep>
        ensures { Gives self.old result self.new
            (on_ping_answered self.old self.old.ping answer) }
    {
        if !self.ping {
            return Ok(quiet());
        }
        match answer {
            Ok(payload) => {
                let out = messages::pong(alloc, &payload)?;
                self.ping = false;
                Ok(said(out))
            }
            Err(error) => self.refuse(alloc, error.message.as_str(), 1002),
        }
    }

    fn on_start(&mut self, alloc: Global, id: Text, request: Request) -> Made<WsStep>
        ensures { Gives self.old result self.new (on_start self.old id request) }
    {
        if self.starts == u64::MAX {
            return Ok(self.end(alloc));
        }
        self.on_accepted(alloc, id, request)
    }

    fn on_accepted(&mut self, alloc: Global, id: Text, request: Request) -> Made<WsStep>
        requires { nat_le limit self.old.starts ≡ false }
        ensures { Gives self.old result self.new
            (on_accepted self.old self.old.stage id request) }
    {
        match self.stage {
            Stage::Acknowledged => self.on_allowed(alloc, id, request),
            Stage::New => self.refuse_start(alloc),
            Stage::Initialising => self.refuse_start(alloc),
        }
    }

    /// Closes the session at a start before the acknowledgement.
    fn refuse_start(&mut self, alloc: Global) -> Made<WsStep>
        ensures { Gives self.old result self.new
            (says (shut self.old) (unready self.old.protocol)) }
    {
        let out = messages::unready(alloc, self.protocol)?;
        Ok(self.end_with(alloc, out))
    }

    fn on_allowed(&mut self, alloc: Global, id: Text, request: Request) -> Made<WsStep>
        requires { nat_le limit self.old.starts ≡ false }
        ensures { Gives self.old result self.new
            (on_allowed self.old self.old.protocol id request (number_of id self.old.live)) }
    {
        match self.protocol {
            Protocols::SubscriptionsTransportWS => self.begin(alloc, id, request),
            Protocols::GraphQLWS => match self.live.number_of(&id) {
                Some(_) => self.refuse_id(alloc, &id),
                None => self.begin(alloc, id, request),
            },
        }
    }

    /// Closes the session at a start of an id that is live.
    fn refuse_id(&mut self, alloc: Global, id: &Text) -> Made<WsStep>
        ensures { Gives self.old result self.new (says (shut self.old) (taken_id id.now)) }
    {
        let out = messages::taken_id(alloc, id.as_str())?;
        Ok(self.end_with(alloc, out))
    }

    fn begin(&mut self, alloc: Global, id: Text, request: Request) -> Made<WsStep>
        requires { nat_le limit self.old.starts ≡ false }
        ensures { Gives self.old result self.new (begins self.old id request) }
    {
        let kept = Text::new(alloc, id.as_str())?;
        let number = self.starts;
        let replaced = self.live.place(alloc, kept, number)?;
        self.starts += 1;
        Ok(asked(Job::Start {
            number,
            id,
            request,
            replaced,
        }))
    }

    fn on_stop(&mut self, alloc: Global, id: Text) -> Made<WsStep>
        ensures { Gives self.old result self.new
            (on_stop self.old id (number_of id self.old.live)) }
    {
        let Some(number) = self.live.number_of(&id) else {
            return Ok(quiet());
        };
        let out = messages::complete(alloc, id.as_str())?;
        self.live.take_id(number, &id);
        Ok(WsStep {
            out: Some(out),
            job: Job::Drop(number),
        })
    }

    fn on_item(&mut self, alloc: Global, number: u64, response: Response) -> Made<WsStep>
        ensures { Gives self.old result self.new
            (on_item self.old response (found (has_number number) self.old.live)) }
    {
        match self.live.start_of(number) {
            None => Ok(quiet()),
            Some(start) => {
                let id = start.id.as_str();
                Ok(said(messages::delivery(alloc, self.protocol, id, &response)?))
            }
        }
    }

    fn on_end(&mut self, alloc: Global, number: u64) -> Made<WsStep>
        ensures { Gives self.old result self.new
            (on_end self.old number (found (has_number number) self.old.live)) }
    {
        let Some(start) = self.live.start_of(number) else {
            return Ok(quiet());
        };
        let out = messages::complete(alloc, start.id.as_str())?;
        let _ended = self.live.take_number(number);
        Ok(said(out))
    }

    fn on_refused(&mut self, alloc: Global, number: u64, errors: Items<ServerError>) -> Made<WsStep>
        ensures { Gives self.old result self.new
            (on_refused self.old self.old.protocol number errors
            (found (has_number number) self.old.live)) }
    {
        match self.protocol {
            Protocols::SubscriptionsTransportWS => self.deliver_errors(alloc, number, errors),
            Protocols::GraphQLWS => self.drop_refused(alloc, number, errors),
        }
    }

    /// A refusal under the older protocol: a response of the start, which goes on.
    fn deliver_errors(
        &mut self,
        alloc: Global,
        number: u64,
        errors: Items<ServerError>,
    ) -> Made<WsStep>
        ensures { Gives self.old result self.new
            (on_refused self.old Protocols.SubscriptionsTransportWS number errors
            (found (has_number number) self.old.live)) }
    {
        match self.live.start_of(number) {
            None => Ok(quiet()),
            Some(start) => {
                let response = Response::from_errors(alloc, errors);
                let id = start.id.as_str();
                Ok(said(messages::data(alloc, id, &response)?))
            }
        }
    }

    /// A refusal under the newer protocol: an error message, and the start is over.
    fn drop_refused(
        &mut self,
        alloc: Global,
        number: u64,
        errors: Items<ServerError>,
    ) -> Made<WsStep>
        ensures { Gives self.old result self.new
            (on_refused self.old Protocols.GraphQLWS number errors
            (found (has_number number) self.old.live)) }
    {
        let Some(start) = self.live.start_of(number) else {
            return Ok(quiet());
        };
        let out = messages::error(alloc, start.id.as_str(), errors.as_slice())?;
        let _refused = self.live.take_number(number);
        Ok(WsStep {
            out: Some(out),
            job: Job::Drop(number),
        })
    }
}

impl Copied for WsCore {
    fn try_clone(&self, alloc: Global) -> Made<WsCore> {
        Ok(WsCore {
            protocol: self.protocol,
            connection: self.connection.try_clone(alloc)?,
            stage: self.stage,
            ping: self.ping,
            live: self.live.try_clone(alloc)?,
            starts: self.starts,
            closed: self.closed,
        })
    }
}

/// The payload of an init; none is null.
fn or_null(payload: Option<Value>) -> Value
    ensures { result ≡ or_null payload }
{
    match payload {
        Some(payload) => payload,
        None => Value::Null,
    }
}

/// A step that says nothing and asks for nothing.
fn quiet() -> WsStep
    ensures { result ≡ record { out = None; job = Nothing } }
{
    WsStep {
        out: None,
        job: Job::Nothing,
    }
}

/// A step that says this.
fn said(out: WsMessage) -> WsStep
    ensures { result ≡ record { out = Some out; job = Nothing } }
{
    WsStep {
        out: Some(out),
        job: Job::Nothing,
    }
}

/// A step that asks for a job.
fn asked(job: Job) -> WsStep
    ensures { result ≡ record { out = None; job = job } }
{
    WsStep { out: None, job }
}
