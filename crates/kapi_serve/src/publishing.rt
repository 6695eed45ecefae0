ghost use Rattle.std.specs.Prelude.{◌≡◌, List, Option, [], ◌∷◌, None, true, false};
ghost use Rattle.kapi_policy.specs.declared.change.PolicyChange.{PolicyChange as AChange};
ghost use Rattle.kapi_serve.specs.Acts.{ClientState};
ghost use Rattle.kapi_serve.specs.Advances.{Advances};
ghost use Rattle.kapi_publishing.specs.Steps.{step_of};
ghost use Rattle.kapi_serve.specs.Private.ServerStates.{stage};
ghost use Rattle.kapi_serve.specs.Private.ClientsMatch.{PassesBy};
ghost use Rattle.kapi_serve.specs.Publishes.{Publishes, Takes};

use crate::progress::Progress;
use kapi_core::Core;
use kapi_policy::{Policy, PolicyStep};
use kapi_publishing::{Desk, PublishError};
use std::sync::Wait;

/// The largest number of turns after a step that changed the policy.
const TURNS: u32 = 64;

/// Work left after steps of the machine: policy changes not yet taken by the desk, and turns of the aggregation
/// controller.
#[derive(Drop)]
pub struct Publishing {
    kept: Option<PolicyStep>,
    turns: u32,
    /// A turn found no memory, and is not made again before the next event of the ports.
    held: bool,
}

impl Publishing {
    pub(crate) fn new() -> Publishing
        ensures { result.kept ≡ None }
    {
        Publishing {
            kept: None,
            turns: 0,
            held: false,
        }
    }

    /// Whether all steps are published, so that the next one may be made.
    pub(crate) fn is_free(&self, desk: &Desk) -> bool
        ensures waiting { result ≡ true → desk.now.waiting ≡ [] }
        ensures kept { result ≡ true → self.now.kept ≡ None }
    {
        match &self.kept {
            Some(_step) => false,
            None => !waits(desk),
        }
    }

    /// Publishes what the step of a client changed in the policy, if anything. Turns follow it.
    pub(crate) fn publish_step<R: Wait>(&mut self, rt: &R, desk: &mut Desk, step: PolicyStep)
        requires waiting { desk.old.waiting ≡ [] }
        requires kept { self.old.kept ≡ None }
        ensures { Publishes desk.old desk.new self.old.kept self.new.kept (step_of step) }
    {
        if !step.as_slice().is_empty() {
            self.turns = TURNS;
        }
        self.publish(rt, desk, step);
    }

    /// Publishes what a step changed in the policy, if anything.
    fn publish<R: Wait>(&mut self, rt: &R, desk: &mut Desk, step: PolicyStep)
        requires waiting { desk.old.waiting ≡ [] }
        requires kept { self.old.kept ≡ None }
        ensures { Publishes desk.old desk.new self.old.kept self.new.kept (step_of step) }
    {
        if step.as_slice().is_empty() {
            return;
        }
        self.show(rt, desk, step);
    }

    /// Publishes a step, or keeps it if the desk is out of memory.
    #[tactic(auto, using(crate::proofs::Showing::shows_taken_or_kept))]
    fn show<R: Wait>(&mut self, rt: &R, desk: &mut Desk, step: PolicyStep)
        requires waiting { desk.old.waiting ≡ [] }
        requires kept { self.old.kept ≡ None }
        ensures { Publishes desk.old desk.new self.old.kept self.new.kept (step ∷ []) }
    {
        self.kept = refused(rt, desk, step);
    }

    /// Tries again to publish a step that was refused, and lets a turn be made again.
    #[tactic(auto, using(crate::proofs::Showing::shows_on_nothing, crate::proofs::Showing::shows_again))]
    pub(crate) fn retry<R: Wait>(&mut self, rt: &R, desk: &mut Desk)
        ensures { Publishes desk.old desk.new self.old.kept self.new.kept [] }
    {
        self.held = false;
        retry(rt, desk);
        if waits(desk) {
            return;
        }
        match self.kept.take() {
            Some(step) => self.show(rt, desk, step),
            None => {}
        }
    }

    /// Makes the turns that are due, while they are published.
    pub(crate) fn make_turns<R: Wait, P: Policy + Drop>(
        &mut self,
        rt: &R,
        core: &mut Core<P>,
        desk: &mut Desk,
    ) -> Progress
        ensures goes { (s : List ClientState) → Advances (stage core.old desk.old self.old s) (stage core.new desk.new self.new s) }
        ensures passes { PassesBy core.old core.new }
    {
        let mut progress = Progress::Still;
        for _ in 0..TURNS {
            let turned = self.make_turn(rt, core, desk);
            progress = progress.and(turned);
            if turned != Progress::Made {
                return progress;
            }
        }
        progress
    }

    /// Makes a turn, if one is due and may be made. If there is no memory for it, it is tried again later.
    fn make_turn<R: Wait, P: Policy + Drop>(
        &mut self,
        rt: &R,
        core: &mut Core<P>,
        desk: &mut Desk,
    ) -> Progress
        ensures goes { (s : List ClientState) → Advances (stage core.old desk.old self.old s) (stage core.new desk.new self.new s) }
        ensures passes { PassesBy core.old core.new }
    {
        if self.turns == 0 {
            return Progress::Still;
        }
        if self.held {
            return Progress::Starved;
        }
        if !self.is_free(desk) {
            return Progress::Starved;
        }
        match core.turn() {
            Ok(Some(turned)) => {
                self.turns = self.turns.saturating_sub(1);
                self.publish(rt, desk, turned.policy_changes);
                Progress::Made
            }
            Ok(None) => {
                self.turns = 0;
                Progress::Still
            }
            Err(_refused) => {
                self.held = true;
                Progress::Starved
            }
        }
    }
}

/// Whether a step waits in the desk.
#[tactic(auto, using(crate::proofs::Showing::none_waits))]
fn waits(desk: &Desk) -> bool
    ensures { result ≡ false → desk.now.waiting ≡ [] }
{
    desk.pending()
}

/// Publishes the step that waits in the desk, if there is one.
#[tactic(auto, using(crate::proofs::Showing::shows_waiting, crate::proofs::Showing::shows_same))]
fn retry<R: Wait>(rt: &R, desk: &mut Desk)
    ensures { (k : Option (List AChange)) → Publishes desk.old desk.new k k [] }
{
    match desk.retry(rt) {
        Ok(_count) => {}
        Err(_pending) => {}
    }
}

/// Publishes a step. The desk takes the step, even if it publishes it only later, or hands it back for want of memory.
fn refused<R: Wait>(rt: &R, desk: &mut Desk, step: PolicyStep) -> Option<PolicyStep>
    requires { desk.old.waiting ≡ [] }
    ensures { Takes desk.old desk.new step result }
{
    match desk.publish(rt, step) {
        Ok(_count) => None,
        Err(PublishError::Pending) => None,
        Err(PublishError::Memory(step)) => Some(step),
    }
}
