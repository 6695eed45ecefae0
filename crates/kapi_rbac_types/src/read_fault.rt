ghost use Rattle.std.specs.Prelude.{◌≡◌};
ghost use Rattle.kapi_text.specs.ResultIs.{ResultIs};
ghost use Rattle.kapi_object.specs.Object.{tree_of};
ghost use Rattle.kapi_rbac_types.specs.Trees.{read_as, told};

use kapi_model::{FieldFault, Schema};
use kapi_object::{Object, collect_faults};
use kapi_text::Sequence;
use std::alloc::{AllocError, Global};

/// Why an object is not read as a role or a binding.
#[derive(Drop)]
pub enum ReadFault {
    /// Members of the object are at fault: each fault in order.
    Invalid(Sequence<FieldFault>),
    Memory,
}

impl From<AllocError> for ReadFault {
    ghost use Rattle.kapi_rbac_types.specs.declared.read_fault.ReadFault.TheVariants.{Memory as WantOfMemory};

    ghost from_gives = { λ _ e. e ≡ WantOfMemory };

    fn from(_error: AllocError) -> ReadFault {
        ReadFault::Memory
    }
}

/// Whether an object has no fault for a resource type with this schema.
#[tactic(auto, unfolding(crate::specs::Trees::read_as))]
pub fn check(alloc: Global, object: &Object, schema: Schema) -> Result<(), ReadFault>
    ensures { ResultIs told (λ u. u) result (read_as schema (λ d. tt) (tree_of object.now)) }
{
    let faults = collect_faults(alloc, schema, object.as_tree())?;
    if faults.is_empty() {
        Ok(())
    } else {
        Err(ReadFault::Invalid(Sequence::new(faults)))
    }
}
