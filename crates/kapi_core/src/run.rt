ghost use Rattle.std.specs.Prelude.{◌≡◌, length, take, OnOk, OnErr, IsNone};
ghost use Rattle.kapi_aggregation.specs.Roles.{roles_in};
ghost use Rattle.kapi_core.specs.Gains.{NobodyGains, acting_in};
ghost use Rattle.kapi_core.specs.Machine.{Machine, answers as answers_of, after};
ghost use Rattle.kapi_core.specs.Rechecks.{RechecksWatches};
ghost use Rattle.kapi_core.specs.Refines.{Keeps, Pushes, Refines, Steps, sent_if, turned_if};
ghost use Rattle.kapi_core.specs.declared.event.Event.TheVariants as Events;

use crate::event::{Answer, ConnId, Event, OpenError, Output, Outputs, Turned};
use crate::machine::Core;
use kapi_http::FeedError;
use kapi_model::Identity;
use kapi_policy::Policy;
use kapi_text::{Memory, Sequence, TryCopy};
use std::alloc::AllocError;

impl<P: Policy + Drop> Core<P> {
    /// Makes one step. If an allocation fails nothing has changed.
    pub fn step(&mut self, event: &Event) -> Result<Answer, Memory>
        ensures { Steps self.old self.new event.now result }
    {
        match event {
            Event::Open(identity) => self.open_for(identity),
            Event::Feed(conn, piece) => self.take_in(*conn, piece.as_slice()),
            Event::Serve(conn) => Ok(sent(self.serve(*conn)?)),
            Event::Pump(conn) => Ok(sent(self.pump(*conn)?)),
            Event::Turn => Ok(turned(self.turn()?)),
            Event::Close(conn) => {
                self.close(*conn);
                Ok(Answer::Done)
            }
        }
    }

    fn open_for(&mut self, identity: &Identity) -> Result<Answer, Memory>
        ensures { Steps self.old self.new (Events.Open identity.now) result }
    {
        if !self.has_room() {
            return Ok(Answer::TooMany);
        }
        let identity = identity.copy(self.allocator())?;
        match self.open(identity) {
            Ok(id) => Ok(Answer::Opened(id)),
            Err(OpenError::TooMany) => Ok(Answer::TooMany),
            Err(OpenError::Memory) => Err(AllocError),
        }
    }

    fn take_in(&mut self, conn: ConnId, piece: &[u8]) -> Result<Answer, Memory>
        ensures { Steps self.old self.new (Events.Feed conn piece.now) result }
    {
        match self.feed(conn, piece) {
            Ok(()) => Ok(Answer::Done),
            Err(FeedError::Full) => Ok(Answer::Full),
            Err(FeedError::Ended) => Ok(Answer::Ended),
            Err(FeedError::Memory) => Err(AllocError),
        }
    }

    /// Makes the steps of a list of events, one after the other, until an allocation fails.
    ///
    /// Nobody gains by the events what no actor held: if the aggregated cluster roles have their unions, and the
    /// identities of all served connections are unprivileged by the policy before the events, the policy after them
    /// allows an identity only what the policy before allowed to it or to one of the served identities.
    ///
    /// If the rights of watches are rechecked, whatever is sent on a watch is sent while the roles and bindings of
    /// the moment allow its identity to start it, or is the refusal that ends it.
    pub fn run(&mut self, events: &[Event]) -> Outputs
        ensures answers { (m : Machine) → Refines self.old m → result.answers ≡ answers_of m (take (length result.answers) events.now) }
        ensures state { (m : Machine) → Refines self.old m → Refines self.new (after m (take (length result.answers) events.now)) }
        ensures gains { (m : Machine) → Refines self.old m
            → NobodyGains (roles_in m.store.objects) (acting_in m (take (length result.answers) events.now)) self.old.policy self.new.policy }
        ensures rechecked { (m : Machine) → Refines self.old m → RechecksWatches m (take (length result.answers) events.now) }
        ensures all { IsNone result.stopped → length result.answers ≡ length events.now }
    {
        let mut answers = Vec::new(self.allocator());
        for event in events {
            if let Err(stopped) = self.step_into(&mut answers, event) {
                return Outputs {
                    answers: Sequence::new(answers),
                    stopped: Some(stopped),
                };
            }
        }
        Outputs {
            answers: Sequence::new(answers),
            stopped: None,
        }
    }

    /// Makes the step of an event and appends its answer. Room for it is made first, so each step made is reported.
    fn step_into(&mut self, answers: &mut Vec<Answer>, event: &Event) -> Result<(), Memory>
        ensures made { OnOk result (Pushes self.old self.new event.now answers.old.items answers.new.items) }
        ensures kept { OnErr result (Keeps self.old self.new) }
        ensures same { OnErr result (answers.new.items ≡ answers.old.items) }
    {
        answers.reserve(1)?;
        let answer = self.step(event)?;
        answers.push(answer)?;
        Ok(())
    }
}

fn sent(output: Option<Output>) -> Answer
    ensures { result ≡ sent_if output }
{
    match output {
        Some(output) => Answer::Sent(output),
        None => Answer::Nothing,
    }
}

fn turned(turned: Option<Turned>) -> Answer
    ensures { result ≡ turned_if turned }
{
    match turned {
        Some(turned) => Answer::Turned(turned),
        None => Answer::Nothing,
    }
}
