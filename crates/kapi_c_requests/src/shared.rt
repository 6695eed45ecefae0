//! A policy that threads share.
ghost use Rattle.std.specs.Prelude.{◌≡◌, IfOk};
ghost use Rattle.kapi_c_requests.specs.Answers.{IsAnswered};

use crate::answering::{Answer, answer_call};
use crate::passed::Call;
use kapi_engine::LoadedPolicy;
use kapi_text::Memory;
use std::alloc::Global;
use std::marker::Model;
use std::sync::Arc;

/// One of those who hold a policy, each maybe in a thread of its own. Contracts see its loaded policy.
#[derive(Drop)]
pub struct Shared {
    loaded: Arc<LoadedPolicy>,
}

impl Model for Shared {
    ghost use Rattle.std.specs.Arc.{arc_value};
    ghost use Rattle.kapi_engine.specs.declared.loaded_policy.LoadedPolicy.{LoadedPolicy};

    ghost Value = { LoadedPolicy };

    ghost view = { λ s. arc_value s.loaded };
}

impl Shared {
    /// The first holder.
    pub fn new(alloc: Global, loaded: LoadedPolicy) -> Result<Shared, Memory>
        ensures { IfOk result (λ s. s ≡ loaded) }
    {
        Ok(Shared {
            loaded: Arc::new(alloc, loaded)?,
        })
    }
}

/// A value that another thread may have.
fn sendable<T: Send>(value: T) -> T
    ensures { result ≡ value }
{
    value
}

/// One more holder of the same policy, for another thread. The policy is not copied.
pub fn share(holder: &Shared) -> Result<Shared, Memory>
    ensures { IfOk result (λ s. s ≡ holder.now) }
{
    let loaded = holder.loaded.clone()?;
    Ok(sendable(Shared { loaded }))
}

/// Answers a call to a holder.
pub fn answer_shared(
    alloc: Global,
    holder: &Shared,
    call: &Call<'_>,
    answer: &mut Answer,
    room: &mut [u8],
) -> u32
    ensures { IsAnswered holder.now call.now answer.old answer.new room.old room.new result }
{
    answer_call(alloc, &holder.loaded, call, answer, room)
}
