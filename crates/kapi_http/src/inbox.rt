//! The bytes of a connection that were not served yet.

ghost use Rattle.std.specs.Prelude.{◌≡◌, ◌+◌, ◌<◌, ◌≤◌, ◌++◌, [], ◌↔◌, IfOk, IsFalse, IsTrue, OnOk, OnErr, Some, Ok, false, length};

use crate::head::{EMPTY_HEAD, HeadParts};
use crate::item::{Decision, Progress, advance, continued, item};
use crate::message::{HttpFault, HttpRequest, Method};
use crate::scan::BEGIN;
use kapi_text::Memory;
use std::alloc::Global;
use std::marker::Model;
use thiserror::Error;

/// The most bytes that a connection may have unserved.
pub const KEPT_LIMIT: usize = 2_097_152;

/// Why bytes were not taken.
#[derive(Clone, Copy, Debug, PartialEq, Eq, Error)]
pub enum FeedError {
    /// The unserved bytes would be above the limit.
    #[error("too many unserved bytes")]
    Full,
    /// An allocation fails.
    #[error("out of memory")]
    Memory,
    /// A fault was taken out, so that nothing more is read.
    #[error("the connection has ended")]
    Ended,
}

/// The bytes that were fed and not yet taken out.
#[derive(Drop)]
pub struct Inbox {
    alloc: Global,
    // The bytes before `start` were taken out.
    bytes: Vec<u8>,
    start: usize,
    progress: Progress,
    // The parts of the head at `start`, if it is whole.
    parts: HeadParts,
    ended: bool,
}

const NOTHING_READ: Progress = Progress {
    scan: BEGIN,
    decision: Decision::Waits,
};

impl Model for Inbox {
    ghost use Rattle.std.specs.Prelude.{drop};
    ghost use Rattle.kapi_http.specs.Inbox.{Unserved};
    ghost use Rattle.kapi_http.specs.Tied.{IsTied};

    ghost Value = { Unserved };

    ghost view = { λ i. record { kept = drop i.start i.bytes.items; ended = i.ended } };

    ghost invariant = { λ i. IsTied i.bytes.items i.start i.progress i.parts };
}

impl Inbox {
    ghost use Rattle.std.specs.Prelude.{drop};
    ghost use Rattle.kapi_http.specs.Inbox.{after_next, next_of};
    ghost use Rattle.kapi_http.specs.Limits.{kept_limit};

    /// An inbox without bytes; allocates nothing.
    pub fn new(alloc: Global) -> Inbox
        ensures { result ≡ record { kept = []; ended = false } }
    {
        Inbox {
            alloc,
            bytes: Vec::new(alloc),
            start: 0,
            progress: NOTHING_READ,
            parts: EMPTY_HEAD,
            ended: false,
        }
    }

    /// Takes bytes in, or none of them. After a fault was taken out, `Ended`; above 2,097,152 unserved bytes, `Full`.
    pub fn feed(&mut self, piece: &[u8]) -> Result<(), FeedError>
        ensures ok { OnOk result (self.new ≡ record { kept = self.old.kept ++ piece.now; ended = false }) }
        ensures fits { OnOk result (length self.old.kept + length piece.now ≤ kept_limit) }
        ensures err { OnErr result (self.new ≡ self.old) }

        // The limits are tested in this order, and before any allocation.
        ensures ended { result ≡ Err FeedError.Ended ↔ IsTrue self.old.ended }
        ensures full { result ≡ Err FeedError.Full
            ↔ (IsFalse self.old.ended × (kept_limit < length self.old.kept + length piece.now)) }
    {
        if self.ended {
            return Err(FeedError::Ended);
        }
        if piece.len() > KEPT_LIMIT - (self.bytes.len() - self.start) {
            return Err(FeedError::Full);
        }
        if self.bytes.extend_from_slice(piece).is_err() {
            return Err(FeedError::Memory);
        }
        let kept = &self.bytes[self.start..];
        self.progress = continued(self.progress, kept, piece.len(), &mut self.parts);
        Ok(())
    }

    /// The first request or fault of the bytes, which stay; None if neither is whole, and after a fault was taken
    /// out.
    pub fn next(&self) -> Result<Option<Result<HttpRequest, HttpFault>>, Memory>
        ensures { IfOk result (λ o. o ≡ next_of self.now) }
    {
        if self.ended {
            return Ok(None);
        }
        item(
            self.alloc,
            &self.bytes[self.start..],
            self.progress.decision,
            &self.parts,
        )
    }

    /// Whether the next request has a whole head and is a DELETE. Allocates nothing.
    pub fn is_deletion(&self) -> bool {
        match self.progress.decision {
            Decision::Accepted(_, _) => self.parts.method == Method::Delete,
            Decision::Chunked(_, _) => self.parts.method == Method::Delete,
            Decision::Waits => false,
            Decision::Refused(_, _) => false,
        }
    }

    /// Takes out the item that `next` returns; after a fault nothing is read any more.
    pub fn done(&mut self, item: &Result<HttpRequest, HttpFault>)
        requires { next_of self.old ≡ Some item.now }
        ensures { self.new ≡ after_next self.old item.now }
    {
        match item {
            Ok(request) => self.pass(request.length),
            Err(_) => {
                self.bytes.clear();
                self.start = 0;
                self.progress = NOTHING_READ;
                self.ended = true;
            }
        }
    }

    /// Goes on behind so many bytes, which were served.
    fn pass(&mut self, served: usize)
        requires { served ≤ length self.old.kept }
        ensures { self.new ≡ record { kept = drop served self.old.kept; ended = self.old.ended } }
    {
        if served < self.bytes.len() - self.start {
            return self.keep_behind(served);
        }
        self.bytes.clear();
        self.start = 0;
        self.progress = NOTHING_READ;
    }

    /// Keeps the bytes behind the first ones, and reads them again.
    fn keep_behind(&mut self, served: usize)
        requires { served ≤ length self.old.kept }
        ensures { self.new ≡ record { kept = drop served self.old.kept; ended = self.old.ended } }
    {
        let start = self.start + served;
        // The rest is moved only where it is shorter than what was served before it.
        if start > self.bytes.len() / 2 {
            self.bytes.drain(..start);
            self.start = 0;
        } else {
            self.start = start;
        }
        self.progress = advance(BEGIN, &self.bytes[self.start..], &mut self.parts);
    }
}
