ghost use Rattle.std.specs.Prelude.{◌≡◌, ◌≤◌, ◌<◌, ◌%◌, ◌++◌, [], drop, take, get_or, length, nat_le, nat_lt, true, ◌↔◌, OnOk};
ghost use Rattle.std.specs.VecDeque.{deque_len, deque_capacity};
ghost use Rattle.kapi_serve.specs.Private.Pieces.{IsCounted, IsSent, owed};

use kapi_text::{Memory, Sequence};
use std::alloc::Global;
use std::collections::VecDeque;

/// The number of pending bytes at which a connection is neither served nor pumped.
const PENDING_LIMIT: usize = 1_048_576;

/// The number of bytes that are yet to be sent to a user, above which the user's requests wait.
const MOST_UNSENT: usize = 33_554_432;

/// The number of users whose bytes are counted apart: as many as there are listeners at most.
const USERS: usize = 16;

/// The number of bytes that are yet to be sent to each user, on all connections together.
#[derive(Drop)]
pub(crate) struct Unsent {
    bytes: [usize; USERS],
}

impl Unsent {
    pub(crate) fn new() -> Unsent {
        Unsent { bytes: [0; USERS] }
    }

    /// Notes how many bytes were pending on a connection of a user, and how many are now.
    pub(crate) fn settle(&mut self, user: usize, before: usize, now: usize) {
        let bytes = self.bytes[user % USERS].saturating_sub(before);
        self.bytes[user % USERS] = bytes.saturating_add(now);
    }

    /// Whether so much is yet to be sent to a user that the user's requests wait.
    pub(crate) fn is_much(&self, user: usize) -> bool
        ensures { result ≡ nat_lt 33554432 (get_or self.now.bytes (user % 16) 0) }
    {
        self.bytes[user % USERS] > MOST_UNSENT
    }
}

/// The bytes that are yet to be sent on a connection, in their order.
#[derive(Drop)]
pub struct Pending {
    head: Sequence<u8>,
    /// The number of bytes of the head that were sent.
    sent: usize,
    behind: VecDeque<Sequence<u8>>,
    /// The number of pending bytes, which stops at `usize::MAX`.
    count: usize,
}

impl Pending {
    #[tactic(auto, using(crate::proofs::Joining::owed_none))]
    pub(crate) fn new(alloc: Global) -> Pending
        ensures owed { owed result ≡ [] }
        ensures counted { IsCounted result }
    {
        Pending {
            head: Sequence::new(Vec::new(alloc)),
            sent: 0,
            behind: VecDeque::new(alloc),
            count: 0,
        }
    }

    /// Whether `PENDING_LIMIT` bytes or more are pending, so that no more are to be pushed.
    pub(crate) fn is_full(&self) -> bool
        ensures { result ≡ nat_le 1048576 self.now.count }
    {
        self.count >= PENDING_LIMIT
    }

    /// The number of pending bytes.
    pub(crate) fn count(&self) -> usize
        ensures { result ≡ self.now.count }
    {
        self.count
    }

    /// Makes room for the bytes that are pushed next.
    pub(crate) fn reserve(&mut self) -> Result<(), Memory>
        ensures same { owed self.new ≡ owed self.old }
        ensures count { self.new.count ≡ self.old.count }
        ensures room { OnOk result (deque_len self.new.behind < deque_capacity self.new.behind) }
    {
        self.behind.reserve(1)
    }

    /// Appends bytes.
    #[tactic(auto, using(crate::proofs::Joining::owed_push))]
    pub(crate) fn push(&mut self, bytes: Sequence<u8>)
        requires { deque_len self.old.behind < deque_capacity self.old.behind }
        ensures owed { owed self.new ≡ owed self.old ++ bytes }
        ensures counted { IsCounted self.old → IsCounted self.new }
    {
        let count = bytes.as_slice().len();
        if count == 0 {
            return;
        }
        self.count = self.count.saturating_add(count);
        self.behind.push_back_reserved(bytes);
    }

    /// Whether all bytes were sent.
    pub(crate) fn is_empty(&self) -> bool
        ensures { (result ≡ true) ↔ IsSent self.now }
    {
        self.sent >= self.head.as_slice().len() && self.behind.is_empty()
    }

    /// Lets the next bytes become the head, if the head was sent.
    #[tactic(auto, using(crate::proofs::Joining::owed_next))]
    pub(crate) fn advance(&mut self)
        ensures owed { owed self.new ≡ owed self.old }
        ensures count { self.new.count ≡ self.old.count }
    {
        if self.sent < self.head.as_slice().len() {
            return;
        }
        if let Some(bytes) = self.behind.pop_front() {
            self.head = bytes;
            self.sent = 0;
        }
    }

    /// What is left of the head.
    pub(crate) fn next(&self) -> &[u8]
        ensures { result.now ≡ drop self.now.sent self.now.head }
    {
        match self.head.as_slice().get(self.sent..) {
            Some(bytes) => bytes,
            None => &[],
        }
    }

    /// Notes that `count` of the next bytes were sent.
    #[tactic(auto, using(crate::proofs::Joining::owed_pass))]
    pub(crate) fn pass(&mut self, count: usize)
        requires { count ≤ length (drop self.old.sent self.old.head) }
        ensures owed { owed self.old ≡ take count (drop self.old.sent self.old.head) ++ owed self.new }
        ensures counted { IsCounted self.old → IsCounted self.new }
    {
        let end = self.head.as_slice().len();
        self.sent = self.sent.saturating_add(count).min(end);
        self.count = self.count.saturating_sub(count);
    }
}
