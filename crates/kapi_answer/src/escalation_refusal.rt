ghost use Rattle.std.specs.Prelude.{◌≡◌, Some, IfOk};
ghost use Rattle.std.specs.Option.{option_map};
ghost use Rattle.kapi_escalation.specs.Checks.{fault_of};
ghost use Rattle.kapi_reply.specs.Refusals.{named};
ghost use Rattle.kapi_answer.specs.Escalation as escalation;

use kapi_escalation::{Refused as WriteRefused, WrittenObject, plural};
use kapi_model::RoleRef;
use kapi_reply::{NamedRole, Refusal, Refused};
use kapi_text::{Memory, Text, TryCopy};
use std::alloc::{AllocError, Global};

/// The error of a request that writes the object `name`, if the guard refuses the write.
pub fn refused_for(
    alloc: Global,
    name: &str,
    object: &WrittenObject,
    refused: WriteRefused,
) -> Result<Refused, Memory>
    ensures { IfOk result (λ r. option_map (λ fault. named name.now (escalation.refusal_of object.now fault)) (fault_of refused) ≡ Some r) }
{
    let why = refusal_of(alloc, object, refused)?;
    Ok(Refused::named(Text::copy_of(alloc, name)?, why))
}

/// The refusal that reports a fault found by the guard in a write.
#[tactic(auto, unfolding(crate::specs::Escalation::refusal_of))]
fn refusal_of(
    alloc: Global,
    object: &WrittenObject,
    refused: WriteRefused,
) -> Result<Refusal, Memory>
    ensures { IfOk result (λ r. option_map (escalation.refusal_of object.now) (fault_of refused) ≡ Some r) }
{
    match refused {
        WriteRefused::Missing(atoms) => Ok(Refusal::Escalation(atoms)),
        WriteRefused::NeedsFullAuthority(atoms) => Ok(Refusal::Escalation(atoms)),
        WriteRefused::RoleNotFound => Ok(Refusal::RoleNotFound(role_sought(alloc, object)?)),
        WriteRefused::RoleRefChanged => Ok(Refusal::RoleRefChanged),
        WriteRefused::Memory => Err(AllocError),
    }
}

/// The role that a binding refers to; a role refers to none.
fn role_sought(alloc: Global, object: &WrittenObject) -> Result<NamedRole, Memory>
    ensures { IfOk result (λ r. r ≡ escalation.role_sought object.now) }
{
    match object {
        WrittenObject::RoleBinding(_, versions) => role_named(alloc, &versions.new.role_ref),
        WrittenObject::ClusterRoleBinding(_, versions) => role_named(alloc, &versions.new.role_ref),
        WrittenObject::Role(_, _) | WrittenObject::ClusterRole(_, _) => Ok(NamedRole {
            resource: Text::copy_of(alloc, "")?,
            name: Text::copy_of(alloc, "")?,
        }),
    }
}

/// A role by the resource of its kind and its name.
fn role_named(alloc: Global, role: &RoleRef) -> Result<NamedRole, Memory>
    ensures { IfOk result (λ r. r ≡ escalation.role_named role.now) }
{
    Ok(NamedRole {
        resource: Text::copy_of(alloc, plural(role.kind))?,
        name: role.name.copy(alloc)?,
    })
}
