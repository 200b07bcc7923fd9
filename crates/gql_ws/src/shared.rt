//! Sessions and what they take and give can be moved to threads and shared between them.
use crate::{ClientMessage, Job, MessageFault, WsCore, WsEvent, WsMessage, WsStep};

fn shared<T: Send + Sync>() {}

fn of_messages() {
    shared::<MessageFault>();
    shared::<WsMessage>();
}

fn of_client_message() {
    shared::<ClientMessage>();
}

fn of_event() {
    shared::<WsEvent>();
}

fn of_job() {
    shared::<Job>();
}

fn of_step() {
    shared::<WsStep>();
}

fn of_core() {
    shared::<WsCore>();
}
