ghost use Rattle.std.specs.Prelude.{◌≡◌, ◌≤◌, true, [], IfOk, replicate, OnOk};
ghost use Rattle.kapi_publishing.specs.Boards.{fresh};
ghost use Rattle.kapi_core.specs.Machine.{Machine};
ghost use Rattle.kapi_core.specs.Opening.{empty, opening};
ghost use Rattle.kapi_core.specs.Refines.{Refines};
ghost use Rattle.kapi_core.specs.Table.{fits};
ghost use Rattle.kapi_lines.specs.Lines.{lines_of};
ghost use Rattle.kapi_loading.specs.Loading.{machine_alone, machine_from, made_of, policy_machine};
ghost use Rattle.kapi_loading.specs.Starting.{Holds, Starts};
ghost use Rattle.kapi_policy.specs.Steps.{after_changes};
ghost use Rattle.kapi_publishing.specs.Steps.{after};

use crate::fault::StartError;
use crate::loading::{Steps, Unpublished, load_file};
use kapi_core::{Core, program_table};
use kapi_index::IndexedPolicy;
use kapi_model::ResourceRow;
use kapi_policy::PolicyStep;
use kapi_publishing::{Desk, Seat};
use kapi_text::{Memory, Sequence, TryCopy};
use std::alloc::{AllocError, Global};
use std::sync::Wait;

// ---- machines alone

/// The machine that the objects of a policy make alone, of the resource types of the programs.
///
/// # Errors
/// `Line` at the first line that cannot be loaded, `Memory` if an allocation fails.
pub fn load_policy(alloc: Global, objects: &[u8]) -> Result<Core<IndexedPolicy>, StartError>
    ensures machine { Holds result (policy_machine objects.now) }
    ensures unopened { IfOk result (λ core. core.next_id ≡ 0) }
{
    let table = program_table(alloc)?;
    load_into(alloc, emptied(alloc, &table, 0)?, objects)
}

/// The machine that begins with the opening objects.
pub fn opened(
    alloc: Global,
    table: &Sequence<ResourceRow>,
    first: u64,
) -> Result<Core<IndexedPolicy>, Memory>
    requires table { fits table.now ≡ true }
    requires first { first ≤ 281474976710650 }
    ensures { IfOk result (λ core. Refines core (opening table.now first)) }
{
    Core::new(alloc, table.copy(alloc)?, IndexedPolicy::new(alloc), first)
}

/// The machine that begins without objects.
pub fn emptied(
    alloc: Global,
    table: &Sequence<ResourceRow>,
    first: u64,
) -> Result<Core<IndexedPolicy>, Memory>
    requires table { fits table.now ≡ true }
    requires first { first ≤ 281474976710650 }
    ensures { IfOk result (λ core. Refines core (empty table.now first)) }
{
    Core::without_objects(alloc, table.copy(alloc)?, IndexedPolicy::new(alloc), first)
}

/// Loads the objects of a file into a machine, and makes the turns that follow.
fn load_into(
    alloc: Global,
    core: Core<IndexedPolicy>,
    objects: &[u8],
) -> Result<Core<IndexedPolicy>, StartError>
    ensures { (m : Machine) → Refines core m → Holds result (made_of m (lines_of objects.now)) }
{
    let mut core = core;
    load_file(alloc, &mut core, &mut Unpublished, objects)?;
    Ok(core)
}

// ---- machines with a desk

/// A machine, the desk that publishes its policy, and the seats of the desk.
pub struct Started {
    pub core: Core<IndexedPolicy>,
    pub desk: Desk,
    pub seats: Vec<Seat>,
}

/// A machine whose revisions begin after `first` and whose resource types are those of the table, with the objects of a
/// file, a JSON object a line, whose policy is published to so many seats. The turns that follow the objects are made, 64
/// at most.
///
/// # Errors
/// `Line` at the first line that cannot be loaded, `Memory` if an allocation fails.
pub fn start<R: Wait>(
    alloc: Global,
    rt: &R,
    table: &Sequence<ResourceRow>,
    objects: &[u8],
    first: u64,
    seats: usize,
) -> Result<Started, StartError>
    requires table { fits table.now ≡ true }
    requires first { first ≤ 281474976710650 }
    requires seats { (1 ≤ seats) × (seats ≤ 16) }
    ensures machine { Starts result (machine_from table.now first objects.now) }
    ensures unopened { IfOk result (λ s. s.core.next_id ≡ 0) }
    ensures waiting { IfOk result (λ s. s.desk.waiting ≡ []) }
    ensures seats { IfOk result (λ s. s.seats.items ≡ replicate seats (fresh s.desk)) }
{
    start_on(alloc, rt, opened(alloc, table, first)?, objects, seats)
}

/// Like `start`, but the machine has the objects of the file alone, without the objects that every other machine begins
/// with.
///
/// # Errors
/// `Line` at the first line that cannot be loaded, `Memory` if an allocation fails.
pub fn start_without_objects<R: Wait>(
    alloc: Global,
    rt: &R,
    table: &Sequence<ResourceRow>,
    objects: &[u8],
    first: u64,
    seats: usize,
) -> Result<Started, StartError>
    requires table { fits table.now ≡ true }
    requires first { first ≤ 281474976710650 }
    requires seats { (1 ≤ seats) × (seats ≤ 16) }
    ensures machine { Starts result (machine_alone table.now first objects.now) }
    ensures unopened { IfOk result (λ s. s.core.next_id ≡ 0) }
    ensures waiting { IfOk result (λ s. s.desk.waiting ≡ []) }
    ensures seats { IfOk result (λ s. s.seats.items ≡ replicate seats (fresh s.desk)) }
{
    start_on(alloc, rt, emptied(alloc, table, first)?, objects, seats)
}

/// The machine that the objects of a policy make alone, of the resource types of the programs; the rest is as of `start`.
///
/// # Errors
/// `Line` at the first line that cannot be loaded, `Memory` if an allocation fails.
pub fn start_policy<R: Wait>(
    alloc: Global,
    rt: &R,
    objects: &[u8],
    seats: usize,
) -> Result<Started, StartError>
    requires seats { (1 ≤ seats) × (seats ≤ 16) }
    ensures machine { Starts result (policy_machine objects.now) }
    ensures unopened { IfOk result (λ s. s.core.next_id ≡ 0) }
    ensures waiting { IfOk result (λ s. s.desk.waiting ≡ []) }
    ensures seats { IfOk result (λ s. s.seats.items ≡ replicate seats (fresh s.desk)) }
{
    let table = program_table(alloc)?;
    start_without_objects(alloc, rt, &table, objects, 0, seats)
}

/// Loads the objects of a file into a machine, makes the turns that follow, and publishes its policy.
fn start_on<R: Wait>(
    alloc: Global,
    rt: &R,
    core: Core<IndexedPolicy>,
    objects: &[u8],
    seats: usize,
) -> Result<Started, StartError>
    requires seats { (1 ≤ seats) × (seats ≤ 16) }
    ensures machine { (m : Machine) → Refines core m → Starts result (made_of m (lines_of objects.now)) }
    ensures waiting { (m : Machine) → Refines core m → IfOk result (λ s. s.desk.waiting ≡ []) }
    ensures seats { (m : Machine) → Refines core m → IfOk result (λ s. s.seats.items ≡ replicate seats (fresh s.desk)) }
{
    let mut core = core;
    let opening = core.policy().copy()?;
    let (desk, seats) = Desk::new(alloc, rt, opening, seats)?;
    let mut publishing = Publishing { rt, desk };
    let loaded = load_file(alloc, &mut core, &mut publishing, objects);
    let Publishing { rt: _rt, desk } = publishing;
    match loaded {
        Ok(()) => Ok(Started { core, desk, seats }),
        Err(error) => {
            drop(desk.close(rt));
            Err(error)
        }
    }
}

/// A desk that publishes each step with a change.
pub struct Publishing<'a, R> {
    pub rt: &'a R,
    pub desk: Desk,
}

impl<R: Wait> Steps for Publishing<'_, R> {
    ghost use Rattle.kapi_loading.specs.Loading.{HasPublished};

    ghost Follows = { λ seat p objects. HasPublished seat p.desk objects };

    /// A step that still waits was not published for lack of memory.
    fn take(&mut self, step: PolicyStep) -> Result<(), Memory> {
        if self.desk.pending() {
            return Err(AllocError);
        }
        publish(self.rt, &mut self.desk, step)
    }
}

/// Publishes a step, if it changes something.
#[tactic(auto, using(crate::proofs::Published::published_none, crate::proofs::Published::published_step))]
fn publish<R: Wait>(rt: &R, desk: &mut Desk, step: PolicyStep) -> Result<(), Memory>
    requires free { desk.old.waiting ≡ [] }
    ensures desk { desk.new.desk ≡ desk.old.desk }
    ensures opening { desk.new.opening ≡ desk.old.opening }
    ensures waiting { OnOk result (desk.new.waiting ≡ []) }
    ensures policy { OnOk result (after desk.new.opening desk.new.list ≡ after_changes step (after desk.old.opening desk.old.list)) }
{
    if step.is_empty() {
        return Ok(());
    }
    match desk.publish(rt, step) {
        Ok(_published) => Ok(()),
        Err(_refused) => Err(AllocError),
    }
}
