ghost use Rattle.std.specs.Prelude.{◌≡◌, ℕ, suc, MatchResult, Ok};
ghost use Rattle.kapi_engine.specs.LoadedPolicies.{loaded_of};
ghost use Rattle.kapi_c.specs.Handles.{IsLoaded};
ghost use Rattle.kapi_c.specs.Statuses.{status_in};

use crate::Policy;
use kapi_c_requests::{Shared, share};
use kapi_engine::{StartError, load};
use std::alloc::Global;

/// The status if memory runs out.
const NO_MEMORY: u32 = 1;

/// The status if a line is not loaded.
const BAD_LINE: u32 = 2;

/// A holder on the heap.
fn boxed(alloc: Global, holder: Shared) -> Result<Box<Shared, Global>, u32>
    ensures { MatchResult result (λ b. b.value ≡ holder) (λ status. status ≡ 1) }
{
    match Box::new(alloc, holder) {
        Ok(made) => Ok(made),
        Err(_refused) => Err(NO_MEMORY),
    }
}

/// The loaded policy of objects on the heap, or the status of a load that fails.
pub fn make_engine(
    alloc: Global,
    objects: &[u8],
    line: &mut usize,
) -> Result<Box<Shared, Global>, u32>
    ensures made { MatchResult result (λ b. loaded_of objects.now ≡ Ok b.value) (λ status. (n : ℕ) × (status ≡ suc n)) }
    ensures line { IsLoaded (loaded_of objects.now) line.old line.new (status_in result) }
{
    let made = match load(alloc, objects) {
        Ok(made) => made,
        Err(StartError::Line(number)) => {
            *line = number;
            return Err(BAD_LINE);
        }
        Err(StartError::Memory) => return Err(NO_MEMORY),
    };
    match Shared::new(alloc, made) {
        Ok(holder) => boxed(alloc, holder),
        Err(_refused) => Err(NO_MEMORY),
    }
}

/// One more holder of the same policy on the heap.
pub fn make_another(alloc: Global, holder: &Shared) -> Result<Box<Shared, Global>, u32>
    ensures { MatchResult result (λ b. b.value ≡ holder.now) (λ status. status ≡ 1) }
{
    match share(holder) {
        Ok(other) => boxed(alloc, other),
        Err(_refused) => Err(NO_MEMORY),
    }
}

/// Puts a handle out, and gives the status of success.
pub fn put(policy: &mut *mut Policy, at: *mut Shared) -> u32
    ensures handle { policy.new ≡ at }
    ensures status { result ≡ 0 }
{
    *policy = at as *mut Policy;
    0
}

/// Drops a holder, and frees its block.
pub fn let_go(holder: Box<Shared, Global>) {
    drop(holder);
}
