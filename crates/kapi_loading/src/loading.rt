//! The machine that the lines of a file make.
ghost use Rattle.std.specs.Prelude.{◌≡◌, OnOk, map, Ok};
ghost use Rattle.kapi_core.specs.Machine.{Machine, policy_of};
ghost use Rattle.kapi_core.specs.Refines.{Refines};
ghost use Rattle.kapi_policy.specs.Objects.{PolicyObjects};
ghost use Rattle.kapi_policy.specs.Steps.{after_changes};
ghost use Rattle.kapi_publishing.specs.Boards.{Chair};
ghost use Rattle.kapi_lines.specs.Lines.{line_of, lines_of};
ghost use Rattle.kapi_loading.specs.Loading.{Reaches, load_fault, loaded, made_of, turned};

use crate::fault::StartError;
use kapi_core::{Core, LoadError};
use kapi_index::IndexedPolicy;
use kapi_lines::{Line, numbered_lines};
use kapi_policy::PolicyStep;
use kapi_text::Memory;
use std::alloc::Global;

/// The largest number of turns after the last line.
pub const TURNS: usize = 64;

/// What is done with the changes of the policy while a machine loads.
pub trait Steps {
    /// By the changes taken the policy became these roles and bindings; a desk that publishes them gives such seats.
    ghost Follows: { Chair → Self → PolicyObjects → Type 0 };

    /// Takes what a line or a turn changed in the policy, which may be nothing.
    fn take(&mut self, step: PolicyStep) -> Result<(), Memory>
        ensures { (seat : Chair) (objects : PolicyObjects) → Follows seat self.old objects → OnOk result (Follows seat self.new (after_changes step objects)) };
}

/// Nothing is done with them.
#[derive(Drop)]
pub struct Unpublished;

impl Steps for Unpublished {
    ghost Follows = { λ _ _ _. Unit {0} };

    fn take(&mut self, _step: PolicyStep) -> Result<(), Memory> {
        Ok(())
    }
}

/// Loads each line as an object.
fn load_lines<S: Steps>(
    core: &mut Core<IndexedPolicy>,
    steps: &mut S,
    lines: &[Line<'_>],
) -> Result<(), StartError>
    ensures { (seat : Chair) (m : Machine) → Refines core.old m → S.Follows seat steps.old (policy_of m) → Reaches core.new (S.Follows seat steps.new) result (loaded m (map line_of lines.now)) }
{
    for line in lines {
        match core.load(line.text) {
            Ok(step) => steps.take(step)?,
            Err(error) => return Err(fault_at(line.number, error)),
        }
    }
    Ok(())
}

/// Why no machine is made if a line of this number is not loaded.
fn fault_at(number: usize, error: LoadError) -> StartError
    ensures { result ≡ load_fault number error }
{
    match error {
        LoadError::Memory => StartError::Memory,
        _ => StartError::Line(number),
    }
}

/// Makes turns while one is due, 64 at most.
fn make_turns<S: Steps>(core: &mut Core<IndexedPolicy>, steps: &mut S) -> Result<(), StartError>
    ensures { (seat : Chair) (m : Machine) → Refines core.old m → S.Follows seat steps.old (policy_of m) → Reaches core.new (S.Follows seat steps.new) result (Ok (turned TURNS m)) }
{
    for _ in 0..TURNS {
        match core.turn()? {
            Some(turned) => steps.take(turned.policy_changes)?,
            None => return Ok(()),
        }
    }
    Ok(())
}

/// Loads all lines of a file, and makes the turns that follow.
pub fn load_file<S: Steps>(
    alloc: Global,
    core: &mut Core<IndexedPolicy>,
    steps: &mut S,
    objects: &[u8],
) -> Result<(), StartError>
    ensures { (seat : Chair) (m : Machine) → Refines core.old m → S.Follows seat steps.old (policy_of m) → Reaches core.new (S.Follows seat steps.new) result (made_of m (lines_of objects.now)) }
{
    let lines = numbered_lines(alloc, objects)?;
    load_lines(core, steps, lines.as_slice())?;
    make_turns(core, steps)
}
