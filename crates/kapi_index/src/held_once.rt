//! The rules that an identity holds. Those of a role come once for each scope, however many of its bindings refer to it.
ghost use Rattle.std.specs.Prelude.{◌≡◌, ◌==◌, ◌++◌, [], length, map, if◌then◌else◌, IfOk, OnOk};
ghost use Rattle.std.specs.List.{flat_map};
ghost use Rattle.std.specs.Option.{unwrap_or};
ghost use Rattle.kapi_policy.specs.Decided.{bindings_of, held as held_by, rules_of};
ghost use Rattle.kapi_policy.specs.Laws.{AreSameRules, rules_by};
ghost use Rattle.kapi_index.specs.Contents.{binding_at};
ghost use Rattle.kapi_index.specs.Taken.{AreListed, AreTaken};

use crate::indexed::IndexedPolicy;
use crate::scope::ScopeBindings;
use crate::walk::push_of;
use kapi_model::{Identity, PolicyRule, RoleKind, RoleRef};
use kapi_policy::BindingKind;
use kapi_text::Memory;
use std::alloc::Global;
use std::collections::BTreeSet;
use std::ops::Bound;

/// The names of the roles of each kind whose rules were taken in a scope.
#[derive(Drop)]
pub struct Taken<'a> {
    roles: BTreeSet<&'a str>,
    cluster_roles: BTreeSet<&'a str>,
}

// The rules of a role, unless its name is one of those that were taken.
fn push_new<'a>(
    alloc: Global,
    list: &mut Vec<PolicyRule>,
    names: &mut BTreeSet<&'a str>,
    policy: &IndexedPolicy,
    role: &'a RoleRef,
    namespace: &str,
) -> Result<(), Memory>
    requires { AreListed policy.now namespace.now role.now.kind names.old list.old.items }
    ensures same { OnOk result (AreSameRules list.new.items (list.old.items ++ unwrap_or (rules_of policy.now role.now namespace.now) [])) }
    ensures listed { OnOk result (AreListed policy.now namespace.now role.now.kind names.new list.new.items) }
{
    if !names.insert(role.name.as_str())? {
        return Ok(());
    }
    push_of(alloc, list, policy, role, namespace)?;
    Ok(())
}

// The rules of a role, unless they were taken.
fn push_once<'a>(
    alloc: Global,
    list: &mut Vec<PolicyRule>,
    taken: &mut Taken<'a>,
    policy: &IndexedPolicy,
    role: &'a RoleRef,
    namespace: &str,
) -> Result<(), Memory>
    requires { AreTaken policy.now namespace.now taken.old list.old.items }
    ensures same { OnOk result (AreSameRules list.new.items (list.old.items ++ unwrap_or (rules_of policy.now role.now namespace.now) [])) }
    ensures taken { OnOk result (AreTaken policy.now namespace.now taken.new list.new.items) }
{
    match role.kind {
        RoleKind::Role => push_new(alloc, list, &mut taken.roles, policy, role, namespace)?,
        RoleKind::ClusterRole => push_new(
            alloc,
            list,
            &mut taken.cluster_roles,
            policy,
            role,
            namespace,
        )?,
    }
    Ok(())
}

fn push_scope(
    alloc: Global,
    list: &mut Vec<PolicyRule>,
    policy: &IndexedPolicy,
    kind: BindingKind,
    scope: &ScopeBindings,
    identity: &Identity,
) -> Result<(), Memory>
    ensures { OnOk result (AreSameRules list.new.items (list.old.items ++ flat_map (rules_by policy.now identity.now) (map (binding_at kind scope.now.namespace) scope.now.bindings))) }
{
    let mut taken = Taken {
        roles: BTreeSet::new(alloc),
        cluster_roles: BTreeSet::new(alloc),
    };
    let mut start = Bound::Unbounded;
    while let Some((name, binding)) = scope.next(identity, start) {
        push_once(
            alloc,
            list,
            &mut taken,
            policy,
            &binding.role_ref,
            scope.namespace(),
        )?;
        start = Bound::Excluded(name);
    }
    Ok(())
}

// Cluster-wide nothing is held in a namespace.
fn push_in_namespace(
    alloc: Global,
    list: &mut Vec<PolicyRule>,
    policy: &IndexedPolicy,
    identity: &Identity,
    namespace: &str,
) -> Result<(), Memory>
    ensures { OnOk result (AreSameRules list.new.items (list.old.items ++ flat_map (rules_by policy.now identity.now) (if length namespace.now == 0 then [] else bindings_of namespace.now policy.now.role_bindings))) }
{
    if namespace.is_empty() {
        return Ok(());
    }
    match policy.scope_in(namespace) {
        Some(scope) => push_scope(
            alloc,
            list,
            policy,
            BindingKind::RoleBinding,
            scope,
            identity,
        ),
        None => Ok(()),
    }
}

/// The rules that the identity holds in the namespace, those of a role once among the cluster-wide bindings and once
/// among those of the namespace.
pub fn held_once(
    alloc: Global,
    policy: &IndexedPolicy,
    identity: &Identity,
    namespace: &str,
) -> Result<Vec<PolicyRule>, Memory>
    ensures { IfOk result (λ v. AreSameRules v.items (held_by policy.now identity.now namespace.now)) }
{
    let mut list = Vec::new(alloc);
    push_scope(
        alloc,
        &mut list,
        policy,
        BindingKind::ClusterRoleBinding,
        policy.cluster(),
        identity,
    )?;
    push_in_namespace(alloc, &mut list, policy, identity, namespace)?;
    Ok(list)
}
