use kapi_model::Identity;
use kapi_policy::PolicyStep;
use kapi_text::{Memory, Sequence, Text};
use thiserror::Error;

/// The number of a connection. Numbers count up from 0 and are not used again.
#[derive(Clone, Copy, PartialEq, Eq)]
pub struct ConnId(pub u64);

/// What happens to the machine.
#[derive(Drop)]
pub enum Event {
    /// A connection is opened for an identity.
    Open(Identity),
    /// Bytes come in on a connection.
    Feed(ConnId, Sequence<u8>),
    /// The next whole request of a connection is answered.
    Serve(ConnId),
    /// The next event of a connection's watch is shown.
    Pump(ConnId),
    /// The controller makes its next write.
    Turn,
    /// A connection is closed.
    Close(ConnId),
}

/// A write of the controller: its revision, the name of the written role, and what the write changed in the policy.
#[derive(Drop)]
pub struct Turned {
    pub revision: u64,
    pub name: Text,
    /// The changes of the policy: one put.
    pub policy_changes: PolicyStep,
}

/// The bytes that are sent on a connection, and what the step changed in the policy.
#[derive(Drop)]
pub struct Output {
    pub bytes: Sequence<u8>,
    /// The connection has ended with these bytes.
    pub close: bool,
    /// The changes of the policy: none, one put, or deletions alone.
    pub policy_changes: PolicyStep,
}

/// What the machine answers to an event.
#[derive(Drop)]
pub enum Answer {
    /// The answer to an open: the new connection.
    Opened(ConnId),
    /// The answer to a feed or a close.
    Done,
    /// The answer to a serve, a pump or a turn that had nothing to do.
    Nothing,
    /// The answer to a serve or a pump.
    Sent(Output),
    /// The answer to a turn.
    Turned(Turned),
    /// The answer to an open: 256 connections are open, or the numbers are used up.
    TooMany,
    /// The answer to a feed: the bytes not yet served would be more than 2,097,152.
    Full,
    /// The answer to a feed: there is no such connection, or it has ended.
    Ended,
}

/// Why no connection was opened.
#[derive(Clone, Copy, Debug, PartialEq, Eq, Error)]
pub enum OpenError {
    #[error("too many connections")]
    TooMany,
    #[error("out of memory")]
    Memory,
}

/// The answers of a run: one for each step made, and what stopped the run before the last event, if anything did.
#[derive(Drop)]
pub struct Outputs {
    pub answers: Sequence<Answer>,
    pub stopped: Option<Memory>,
}
