//! Writes of the store and of the policy, in one step.
ghost use Rattle.std.specs.Prelude.{◌≡◌, IfOk, IfSome, OnErr, OnOk};
ghost use Rattle.kapi_aggregation.specs.Marks.{CoversAsMuch};
ghost use Rattle.kapi_answer.specs.Responses.{changes_data};
ghost use Rattle.kapi_core.specs.Private.Writes.{LoadsInto, TurnsInto, Writes};
ghost use Rattle.kapi_store.specs.State.{Fits};
ghost use Rattle.kapi_escalation.specs.Reading as reading;

use crate::event::Turned;
use kapi_aggregation::{Tracker, Turn, rewrite};
use kapi_answer::{LoadError, load};
use kapi_escalation::policy_changes;
use kapi_policy::{Policy, PolicyStep};
use kapi_store::{Ready, Store, StoreError};
use kapi_text::Memory;
use std::alloc::{AllocError, Global};

/// Makes a prepared write, if there is one, in the store and in the policy, marks the cluster roles that it affects,
/// and answers what it changed in the policy. The store comes last, since all before it may fail to allocate: marks
/// that were made by then do no harm.
pub fn make_write<P: Policy>(
    alloc: Global,
    policy: &mut P,
    tracker: &mut Tracker,
    store: &mut Store,
    write: Option<Ready>,
) -> Result<PolicyStep, Memory>
    requires { IfSome write (Fits store.old) }
    ensures made { IfOk result (λ s. s ≡ reading.policy_changes (changes_data write)) }
    ensures writes { OnOk result (Writes store.old (P.content policy.old) tracker.old store.new (P.content policy.new) tracker.new (changes_data write)) }
    ensures same_store { OnErr result (store.new ≡ store.old) }
    ensures same_policy { OnErr result (P.content policy.new ≡ P.content policy.old) }
    ensures covers { CoversAsMuch tracker.old tracker.new }
{
    let Some(ready) = write else {
        return Ok(PolicyStep::nothing(alloc));
    };
    let changes = policy_changes(alloc, &ready)?;
    tracker.note_write(store, ready.changes())?;
    changes.apply_to(policy)?;
    store.commit(ready);
    Ok(changes)
}

/// Creates the object in a text, at the place that the object names, and returns the changes of the policy.
pub fn load_object<P: Policy>(
    alloc: Global,
    policy: &mut P,
    tracker: &mut Tracker,
    store: &mut Store,
    text: &[u8],
) -> Result<PolicyStep, LoadError>
    ensures { LoadsInto store.old (P.content policy.old) tracker.old store.new (P.content policy.new) tracker.new text.now result }
{
    let ready = load(alloc, store, text)?;
    let step = make_write(alloc, policy, tracker, store, Some(ready))?;
    Ok(step)
}

/// Makes the write of a turn, and reports it; none if the store refuses it.
pub fn make_turn<P: Policy>(
    alloc: Global,
    policy: &mut P,
    tracker: &mut Tracker,
    store: &mut Store,
    turn: Turn,
) -> Result<Option<Turned>, Memory>
    ensures { TurnsInto store.old (P.content policy.old) tracker.old store.new (P.content policy.new) tracker.new turn result }
{
    match rewrite(alloc, store, &turn) {
        Ok(ready) => {
            let revision = store.revision() + 1;
            let changes = make_write(alloc, policy, tracker, store, Some(ready))?;
            Ok(Some(Turned {
                revision,
                name: turn.name,
                policy_changes: changes,
            }))
        }
        Err(StoreError::Memory) => Err(AllocError),
        Err(_refused) => Ok(None),
    }
}
