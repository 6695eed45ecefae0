//! The C library: `include/kapi.h` is its other side. Each export calls one function. A policy crosses as a pointer to a
//! struct that C never sees into, which is a holder of a loaded policy here.
#![tactic(auto)]

ghost use Rattle.std.specs.Prelude.{◌≡◌, ℕ, suc, MatchResult, Ok};
ghost use Rattle.std.specs.Borrow.{sem};
ghost use Rattle.kapi_engine.specs.LoadedPolicies.{loaded_of};
ghost use Rattle.kapi_engine.specs.declared.loaded_policy.LoadedPolicy.{LoadedPolicy as Loaded};
ghost use Rattle.kapi_c_requests.specs.Answers.{IsAnswered};
ghost use Rattle.kapi_c_requests.specs.Batches.{IsBatch};
ghost use Rattle.kapi_c.specs.Handles.{IsLoaded, handed, holds_at};

mod loading;

use kapi_c_requests::{Answer, CQuestion, Call, Shared, answer_shared, decide_batch};
use loading::{let_go, make_another, make_engine, put};
use std::alloc::Global;

/// What a handle points to, as C knows it: nothing.
#[repr(C)]
#[derive(Drop)]
pub struct Policy {
    opaque: u8,
}

/// The number of the interface, which is raised with each change of a layout, a number or a meaning.
#[unsafe(no_mangle)]
pub extern "C" fn kapi_abi() -> u32
    ensures { result ≡ 2 }
{
    2
}

/// Loads a policy, which the caller then holds by the handle that is put out. The status is 0, or the reason of the failure.
#[unsafe(no_mangle)]
pub extern "C" fn kapi_load(
    alloc: Global,
    objects: &[u8],
    line: &mut usize,
    policy: &mut *mut Policy,
) -> u32
    ensures* { sem 𝓛 (handed result policy.old policy.new (loaded_of objects.now)) ∗ ⌜ IsLoaded (loaded_of objects.now) line.old line.new result ⌝ }
{
    match make_engine(alloc, objects, line) {
        Ok(made) => put(policy, Box::into_raw(made)),
        Err(status) => status,
    }
}

/// Loads a policy, decides each question by it, and frees it. There are as many decisions as questions.
#[unsafe(no_mangle)]
pub extern "C" fn kapi_decide(
    alloc: Global,
    objects: &[u8],
    questions: &[CQuestion<'_>],
    decisions: &mut [u32],
    line: &mut usize,
) -> u32
    ensures { IsBatch (loaded_of objects.now) questions.now decisions.old decisions.new line.old line.new result }
{
    decide_batch(alloc, objects, questions, decisions, line)
}

/// Answers a call by the policy, which the caller holds before and after.
#[unsafe(no_mangle)]
pub unsafe extern "C" fn kapi_ask(
    alloc: Global,
    policy: *const Policy,
    call: &Call<'_>,
    answer: &mut Answer,
    room: &mut [u8],
) -> u32
    ghost held: { Loaded }
    requires* { sem 𝓛 (holds_at policy held) }
    ensures* { sem 𝓛 (holds_at policy held) ∗ ⌜ IsAnswered held call.now answer.old answer.new room.old room.new result ⌝ }
{
    answer_shared(alloc, &*(policy as *const Shared), call, answer, room)
}

/// Hands out one more handle of the policy, for another thread. The caller holds the first before and after, and the new
/// one if the status is 0.
#[unsafe(no_mangle)]
pub unsafe extern "C" fn kapi_share(
    alloc: Global,
    policy: *const Policy,
    other: &mut *mut Policy,
) -> u32
    ghost held: { Loaded }
    requires* { sem 𝓛 (holds_at policy held) }
    ensures* { sem 𝓛 (holds_at policy held) ∗ sem 𝓛 (handed result other.old other.new (Ok held)) }
{
    match make_another(alloc, &*(policy as *const Shared)) {
        Ok(made) => put(other, Box::into_raw(made)),
        Err(status) => status,
    }
}

/// Frees a policy.
#[unsafe(no_mangle)]
pub unsafe extern "C" fn kapi_drop(alloc: Global, policy: *mut Policy)
    ghost held: { Loaded }
    requires* { sem 𝓛 (holds_at policy held) }
{
    let_go(Box::from_raw(alloc, policy as *mut Shared));
}
