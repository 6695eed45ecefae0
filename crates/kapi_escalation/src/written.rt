ghost use Rattle.std.specs.Prelude.{◌≡◌, IfOk};
ghost use Rattle.std.specs.Option.{option_map};
ghost use Rattle.kapi_object.specs.Object.{tree_of};
ghost use Rattle.kapi_rbac_types.specs.Trees.{cluster_role_binding_of, cluster_role_of, role_binding_of, role_of};
ghost use Rattle.kapi_escalation.specs.Kind.{place_of as place_of_key};
ghost use Rattle.kapi_escalation.specs.declared.kind.PolicyKind.TheVariants as of_kind;
ghost use Rattle.kapi_escalation.specs.declared.write.WrittenObject.TheVariants as object;
ghost use Rattle.kapi_escalation.specs.Written as stored;
ghost use Rattle.kapi_escalation.specs.Written.{versions_of};

use crate::kind::{PolicyKind, place_of};
use crate::write::{Versions, WrittenObject};
use kapi_model::{ClusterRole, ClusterRoleBinding, RoleBinding};
use kapi_object::Object;
use kapi_rbac_types::{
    admitted_cluster_role, admitted_cluster_role_binding, admitted_role, admitted_role_binding,
};
use kapi_store::Key;
use kapi_text::{Memory, TryCopy};
use std::alloc::Global;

/// A role or binding written at a key: the new version, and the old one, if there is one and it counts; both admitted.
pub fn written_at(
    alloc: Global,
    kind: PolicyKind,
    key: &Key,
    old: Option<&Object>,
    new: &Object,
) -> Result<WrittenObject, Memory>
    ensures { IfOk result (λ w. w ≡ stored.written_at kind key.now (option_map (λ o. tree_of o.now) old.entry) (tree_of new.now)) }
{
    match kind {
        PolicyKind::Role => written_role(alloc, key, new),
        PolicyKind::RoleBinding => written_role_binding(alloc, key, old, new),
        PolicyKind::ClusterRole => written_cluster_role(alloc, key, old, new),
        PolicyKind::ClusterRoleBinding => written_cluster_role_binding(alloc, key, old, new),
    }
}

/// A role that is written at a key.
fn written_role(alloc: Global, key: &Key, new: &Object) -> Result<WrittenObject, Memory>
    ensures { IfOk result (λ w. w ≡ object.Role (place_of_key key.now) (role_of (tree_of new.now))) }
{
    let role = admitted_role(alloc, new)?;
    Ok(WrittenObject::Role(place_of(alloc, key)?, role))
}

/// A role binding that is written at a key.
fn written_role_binding(
    alloc: Global,
    key: &Key,
    old: Option<&Object>,
    new: &Object,
) -> Result<WrittenObject, Memory>
    ensures { IfOk result (λ w. w ≡ stored.written_at of_kind.RoleBinding key.now (option_map (λ o. tree_of o.now) old.entry) (tree_of new.now)) }
{
    let versions = role_bindings(alloc, old, new)?;
    Ok(WrittenObject::RoleBinding(place_of(alloc, key)?, versions))
}

/// A cluster role that is written at a key.
fn written_cluster_role(
    alloc: Global,
    key: &Key,
    old: Option<&Object>,
    new: &Object,
) -> Result<WrittenObject, Memory>
    ensures { IfOk result (λ w. w ≡ stored.written_at of_kind.ClusterRole key.now (option_map (λ o. tree_of o.now) old.entry) (tree_of new.now)) }
{
    let versions = cluster_roles(alloc, old, new)?;
    Ok(WrittenObject::ClusterRole(key.name.copy(alloc)?, versions))
}

/// A cluster role binding that is written at a key.
fn written_cluster_role_binding(
    alloc: Global,
    key: &Key,
    old: Option<&Object>,
    new: &Object,
) -> Result<WrittenObject, Memory>
    ensures { IfOk result (λ w. w ≡ stored.written_at of_kind.ClusterRoleBinding key.now (option_map (λ o. tree_of o.now) old.entry) (tree_of new.now)) }
{
    let versions = cluster_role_bindings(alloc, old, new)?;
    Ok(WrittenObject::ClusterRoleBinding(key.name.copy(alloc)?, versions))
}

fn cluster_roles(
    alloc: Global,
    old: Option<&Object>,
    new: &Object,
) -> Result<Versions<ClusterRole>, Memory>
    ensures { IfOk result (λ v. v ≡ versions_of cluster_role_of (option_map (λ o. tree_of o.now) old.entry) (tree_of new.now)) }
{
    let old = match old {
        Some(old) => Some(admitted_cluster_role(alloc, old)?),
        None => None,
    };
    Ok(Versions {
        old,
        new: admitted_cluster_role(alloc, new)?,
    })
}

fn role_bindings(
    alloc: Global,
    old: Option<&Object>,
    new: &Object,
) -> Result<Versions<RoleBinding>, Memory>
    ensures { IfOk result (λ v. v ≡ versions_of role_binding_of (option_map (λ o. tree_of o.now) old.entry) (tree_of new.now)) }
{
    let old = match old {
        Some(old) => Some(admitted_role_binding(alloc, old)?),
        None => None,
    };
    Ok(Versions {
        old,
        new: admitted_role_binding(alloc, new)?,
    })
}

fn cluster_role_bindings(
    alloc: Global,
    old: Option<&Object>,
    new: &Object,
) -> Result<Versions<ClusterRoleBinding>, Memory>
    ensures { IfOk result (λ v. v ≡ versions_of cluster_role_binding_of (option_map (λ o. tree_of o.now) old.entry) (tree_of new.now)) }
{
    let old = match old {
        Some(old) => Some(admitted_cluster_role_binding(alloc, old)?),
        None => None,
    };
    Ok(Versions {
        old,
        new: admitted_cluster_role_binding(alloc, new)?,
    })
}
