ghost use Rattle.std.specs.Prelude.{◌≡◌, ◌++◌, [], ◌∷◌, IfOk, OnOk, map, option_copied, option_map};
ghost use Rattle.kapi_object.specs.Object.{tree_of};
ghost use Rattle.kapi_store.specs.Changes.{IsLeft};
ghost use Rattle.kapi_store.specs.Plain.{plain_change};
ghost use Rattle.kapi_store.specs.Stored.{stored_tree};
ghost use Rattle.kapi_escalation.specs.declared.kind.PolicyKind.TheVariants as of_kind;
ghost use Rattle.kapi_escalation.specs.Reading as reading;

use crate::kind::{PolicyKind, place_of, policy_kind};
use kapi_model::{ClusterRole, ClusterRoleBinding, Role, RoleBinding};
use kapi_object::Object;
use kapi_policy::{PolicyChange, PolicyKey, PolicyPut, PolicyStep};
use kapi_rbac_types::{
    admitted_cluster_role, admitted_cluster_role_binding, admitted_role, admitted_role_binding,
};
use kapi_store::{Change, Key, Ready};
use kapi_text::{Memory, TryCopy};
use std::alloc::Global;

/// The changes of the policy by a write, in their order: a put for each role and binding written, a deletion for each
/// removed. The objects are admitted ones.
#[tactic(auto, using(crate::proofs::Steps::changes_step))]
pub fn policy_changes(alloc: Global, write: &Ready) -> Result<PolicyStep, Memory>
    ensures { IfOk result (λ s. s ≡ reading.policy_changes (map plain_change write.now)) }
{
    let found = found_changes(alloc, write.changes(), write.left())?;
    Ok(PolicyStep::of(found))
}

/// The changes of the policy by some changes; the object that the first one leaves may be at hand as a tree.
fn found_changes(
    alloc: Global,
    changes: &[Change],
    left: Option<&Object>,
) -> Result<Vec<PolicyChange>, Memory>
    requires { IsLeft (option_copied left) changes.now }
    ensures { IfOk result (λ v. v.items ≡ reading.policy_changes (map plain_change changes.now)) }
{
    match changes {
        [change] => one_change(alloc, change, left),
        _others => collect(alloc, changes),
    }
}

/// The change of the policy by the only change of a write, if it is of a policy object; the object that it leaves may be
/// at hand as a tree.
#[tactic(auto, unfolding(crate::specs::Reading::policy_changes))]
fn one_change(
    alloc: Global,
    change: &Change,
    left: Option<&Object>,
) -> Result<Vec<PolicyChange>, Memory>
    requires { IsLeft (option_copied left) (change.now ∷ []) }
    ensures { IfOk result (λ v. v.items ≡ reading.policy_changes (plain_change change.now ∷ [])) }
{
    let mut found = Vec::new(alloc);
    match (policy_kind(&change.key), left) {
        (Some(kind), Some(object)) => {
            found.push(PolicyChange::Put(put_at(alloc, kind, &change.key, object)?))?;
        }
        _other => push_change(alloc, &mut found, change)?,
    }
    Ok(found)
}

#[tactic(auto, unfolding(crate::specs::Reading::policy_changes))]
fn collect(alloc: Global, changes: &[Change]) -> Result<Vec<PolicyChange>, Memory>
    ensures { IfOk result (λ v. v.items ≡ reading.policy_changes (map plain_change changes.now)) }
{
    let mut found = Vec::new(alloc);
    for change in changes {
        push_change(alloc, &mut found, change)?;
    }
    Ok(found)
}

fn push_change(alloc: Global, found: &mut Vec<PolicyChange>, change: &Change) -> Result<(), Memory>
    ensures { OnOk result (found.new.items ≡ found.old.items ++ reading.policy_change (plain_change change.now)) }
{
    if let Some(kind) = policy_kind(&change.key) {
        found.push(change_at(alloc, kind, change)?)?;
    }
    Ok(())
}

fn change_at(alloc: Global, kind: PolicyKind, change: &Change) -> Result<PolicyChange, Memory>
    ensures { IfOk result (λ c. c ≡ reading.change_at kind change.now.key (option_map stored_tree change.now.new)) }
{
    match &change.new {
        Some(object) => {
            let object = object.get().object(alloc)?;
            Ok(PolicyChange::Put(put_at(alloc, kind, &change.key, &object)?))
        }
        None => Ok(PolicyChange::Delete(key_at(alloc, kind, &change.key)?)),
    }
}

fn put_at(alloc: Global, kind: PolicyKind, key: &Key, object: &Object) -> Result<PolicyPut, Memory>
    ensures { IfOk result (λ p. p ≡ reading.put_at kind key.now (tree_of object.now)) }
{
    match kind {
        PolicyKind::Role => put_role(alloc, key, object),
        PolicyKind::RoleBinding => put_role_binding(alloc, key, object),
        PolicyKind::ClusterRole => put_cluster_role(alloc, key, object),
        PolicyKind::ClusterRoleBinding => put_cluster_role_binding(alloc, key, object),
    }
}

/// The put of a role at a key.
fn put_role(alloc: Global, key: &Key, object: &Object) -> Result<PolicyPut, Memory>
    ensures { IfOk result (λ p. p ≡ reading.put_at of_kind.Role key.now (tree_of object.now)) }
{
    let role = admitted_role(alloc, object)?;
    Ok(PolicyPut::Role(place_of(alloc, key)?, role))
}

/// The put of a role binding at a key.
fn put_role_binding(alloc: Global, key: &Key, object: &Object) -> Result<PolicyPut, Memory>
    ensures { IfOk result (λ p. p ≡ reading.put_at of_kind.RoleBinding key.now (tree_of object.now)) }
{
    let binding = admitted_role_binding(alloc, object)?;
    Ok(PolicyPut::RoleBinding(place_of(alloc, key)?, binding))
}

/// The put of a cluster role at a key.
fn put_cluster_role(alloc: Global, key: &Key, object: &Object) -> Result<PolicyPut, Memory>
    ensures { IfOk result (λ p. p ≡ reading.put_at of_kind.ClusterRole key.now (tree_of object.now)) }
{
    let role = admitted_cluster_role(alloc, object)?;
    Ok(PolicyPut::ClusterRole(key.name.copy(alloc)?, role))
}

/// The put of a cluster role binding at a key.
fn put_cluster_role_binding(alloc: Global, key: &Key, object: &Object) -> Result<PolicyPut, Memory>
    ensures { IfOk result (λ p. p ≡ reading.put_at of_kind.ClusterRoleBinding key.now (tree_of object.now)) }
{
    let binding = admitted_cluster_role_binding(alloc, object)?;
    Ok(PolicyPut::ClusterRoleBinding(key.name.copy(alloc)?, binding))
}

fn key_at(alloc: Global, kind: PolicyKind, key: &Key) -> Result<PolicyKey, Memory>
    ensures { IfOk result (λ k. k ≡ reading.key_at kind key.now) }
{
    match kind {
        PolicyKind::Role => Ok(PolicyKey::Role(place_of(alloc, key)?)),
        PolicyKind::RoleBinding => Ok(PolicyKey::RoleBinding(place_of(alloc, key)?)),
        PolicyKind::ClusterRole => Ok(PolicyKey::ClusterRole(key.name.copy(alloc)?)),
        PolicyKind::ClusterRoleBinding => Ok(PolicyKey::ClusterRoleBinding(key.name.copy(alloc)?)),
    }
}
