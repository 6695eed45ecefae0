//! The walk over the bindings that match an identity.
ghost use Rattle.std.specs.Prelude.{◌≡◌, ◌++◌, [], map, IfOk, OnOk, option_copied};
ghost use Rattle.std.specs.List.{flat_map, list_any, position};
ghost use Rattle.std.specs.Option.{unwrap_or};
ghost use Rattle.kapi_policy.specs.Decided.{bindings_of, cluster_binding, decided, first_some, given, granted, granted_at, granted_by, held as held_by, rules_of, rules_of_kind};
ghost use Rattle.kapi_policy.specs.Views.{binding_of, decision_of, granted_if};
ghost use Rattle.kapi_model.specs.Subjects.{subject_matches as matches_of};
ghost use Rattle.kapi_rules.specs.Rules.{allows as rule_allows};
ghost use Rattle.kapi_index.specs.Points.{point_of};
ghost use Rattle.kapi_index.specs.Contents.{binding_at, grant_of};

use crate::asker::Asker;
use crate::indexed::IndexedPolicy;
use crate::prepared_point::{PreparedPoint, ask};
use crate::rules::CompiledRules;
use crate::scope::ScopeBindings;
use kapi_model::{Identity, PolicyRule, RoleBinding, RoleKind, RoleRef};
use kapi_policy::{Binding, BindingKind, Decision, Grant};
use kapi_rules::Point;
use kapi_text::{Memory, Text, TryCopy};
use std::alloc::Global;
use std::ops::Bound;

// ---- roles

// The rules of a role in a namespace; cluster-wide there is none.
fn rules_of_role<'a>(
    policy: &'a IndexedPolicy,
    name: &Text,
    namespace: &str,
) -> Option<&'a CompiledRules>
    ensures { option_copied result ≡ rules_of_kind policy.now RoleKind.Role name.now namespace.now }
{
    if namespace.is_empty() {
        None
    } else {
        policy.rules_at(name, namespace)
    }
}

// The rules of the role that a binding in the namespace refers to, if it exists.
#[tactic(auto, unfolding(kapi_policy::specs::Decided::rules_of))]
fn compiled_rules<'a>(
    policy: &'a IndexedPolicy,
    role: &RoleRef,
    namespace: &str,
) -> Option<&'a CompiledRules>
    ensures { option_copied result ≡ rules_of policy.now role.now namespace.now }
{
    match role.kind {
        RoleKind::Role => rules_of_role(policy, &role.name, namespace),
        RoleKind::ClusterRole => policy.rules_of_cluster_role(&role.name),
    }
}

/// The rules of the role that a binding in the namespace refers to, as they are written.
pub fn role_rules<'a>(
    policy: &'a IndexedPolicy,
    role: &RoleRef,
    namespace: &str,
) -> Option<&'a [PolicyRule]>
    ensures { option_copied result ≡ rules_of policy.now role.now namespace.now }
{
    match compiled_rules(policy, role, namespace) {
        Some(rules) => Some(rules.as_slice()),
        None => None,
    }
}

// ---- one binding

fn binding_in<'a>(
    kind: BindingKind,
    scope: &'a ScopeBindings,
    name: &'a Text,
    binding: &'a RoleBinding,
) -> Binding<'a>
    ensures { binding_of result ≡ binding_at kind scope.now.namespace (name.now, binding.now) }
{
    Binding {
        kind,
        namespace: scope.namespace(),
        name: name.as_str(),
        subjects: binding.subjects.as_slice(),
        role: &binding.role_ref,
    }
}

fn is_bound(binding: &Binding<'_>, asker: &Asker<'_>) -> bool
    ensures { result ≡ list_any (λ s. matches_of s (binding_of binding.now).namespace asker.now.identity.now) (binding_of binding.now).subjects }
{
    binding
        .subjects
        .iter()
        .any(|subject| asker.is_meant(subject, binding.namespace))
}

// The grant of a binding by the first of some rules that allows the point.
fn grant_in<'a>(
    binding: &Binding<'a>,
    rules: &CompiledRules,
    asked: &PreparedPoint<'_>,
) -> Option<Grant<'a>>
    ensures { granted_if result ≡ granted_at (binding_of binding.now) (position (λ rule. rule_allows rule (point_of asked.now)) rules.now) }
{
    match rules.first_allowing(asked) {
        Some(rule) => Some(Grant {
            kind: binding.kind,
            binding: binding.name,
            role: binding.role,
            rule,
        }),
        None => None,
    }
}

// The grant of a binding by the first rule of its role that allows the point.
fn grant_by<'a>(
    policy: &'a IndexedPolicy,
    binding: &Binding<'a>,
    asked: &PreparedPoint<'_>,
) -> Option<Grant<'a>>
    ensures { granted_if result ≡ grant_of policy.now (point_of asked.now) (binding_of binding.now) }
{
    match compiled_rules(policy, binding.role, binding.namespace) {
        Some(rules) => grant_in(binding, rules, asked),
        None => None,
    }
}

// Puts copies of rules at the end of a list.
fn push_rules(alloc: Global, list: &mut Vec<PolicyRule>, rules: &[PolicyRule]) -> Result<(), Memory>
    ensures { OnOk result (list.new.items ≡ list.old.items ++ rules.now) }
{
    for rule in rules {
        list.push(rule.copy(alloc)?)?;
    }
    Ok(())
}

/// Puts the rules of the role that a binding in the namespace refers to at the end, if it exists.
pub fn push_of(
    alloc: Global,
    list: &mut Vec<PolicyRule>,
    policy: &IndexedPolicy,
    role: &RoleRef,
    namespace: &str,
) -> Result<(), Memory>
    ensures { OnOk result (list.new.items ≡ list.old.items ++ unwrap_or (rules_of policy.now role.now namespace.now) []) }
{
    match role_rules(policy, role, namespace) {
        Some(rules) => push_rules(alloc, list, rules),
        None => Ok(()),
    }
}

// ---- the bindings of a scope

// The grant of a binding by the first rule of its role that allows the point, if a subject of it matches the identity.
#[tactic(auto, unfolding(kapi_policy::specs::Decided::granted_by, kapi_policy::specs::Decided::given))]
fn grant_to<'a>(
    policy: &'a IndexedPolicy,
    asker: &Asker<'_>,
    binding: &Binding<'a>,
    asked: &PreparedPoint<'_>,
) -> Option<Grant<'a>>
    ensures { granted_if result ≡ granted_by policy.now asker.now.identity.now (point_of asked.now) (binding_of binding.now) }
{
    if is_bound(binding, asker) {
        grant_by(policy, binding, asked)
    } else {
        None
    }
}

// The first grant among all bindings: each is checked.
fn grant_of_each<'a>(
    policy: &'a IndexedPolicy,
    kind: BindingKind,
    scope: &'a ScopeBindings,
    asker: &Asker<'_>,
    asked: &PreparedPoint<'_>,
) -> Option<Grant<'a>>
    ensures { granted_if result ≡ first_some (granted_by policy.now asker.now.identity.now (point_of asked.now)) (map (binding_at kind scope.now.namespace) scope.now.bindings) }
{
    for (name, bound) in scope.bindings() {
        let binding = binding_in(kind, scope, name, &bound.binding);
        let found = grant_to(policy, asker, &binding, asked);
        if found.is_some() {
            return found;
        }
    }
    None
}

// The first grant among many bindings: those that match the identity are looked up. All are checked once so many have
// matched that looking up all groups for each takes longer.
fn grant_of_many<'a>(
    policy: &'a IndexedPolicy,
    kind: BindingKind,
    scope: &'a ScopeBindings,
    identity: &Identity,
    asked: &PreparedPoint<'_>,
) -> Option<Grant<'a>>
    ensures { granted_if result ≡ first_some (granted_by policy.now identity.now (point_of asked.now)) (map (binding_at kind scope.now.namespace) scope.now.bindings) }
{
    let asker = Asker::of_many_looks(identity);
    let mut look_ups = asker.look_ups(scope.bindings().len());
    let mut start = Bound::Unbounded;
    while let Some((name, binding)) = scope.next(identity, start) {
        let found = grant_by(policy, &binding_in(kind, scope, name, binding), asked);
        if found.is_some() {
            return found;
        }
        if look_ups == 0 {
            return grant_of_each(policy, kind, scope, &asker, asked);
        }
        look_ups -= 1;
        start = Bound::Excluded(name);
    }
    None
}

fn scope_grant<'a>(
    policy: &'a IndexedPolicy,
    kind: BindingKind,
    scope: &'a ScopeBindings,
    identity: &Identity,
    asked: &PreparedPoint<'_>,
) -> Option<Grant<'a>>
    ensures { granted_if result ≡ first_some (granted_by policy.now identity.now (point_of asked.now)) (map (binding_at kind scope.now.namespace) scope.now.bindings) }
{
    if scope.has_few() {
        grant_of_each(policy, kind, scope, &Asker::of_few_looks(identity), asked)
    } else {
        grant_of_many(policy, kind, scope, identity, asked)
    }
}

fn push_scope(
    alloc: Global,
    list: &mut Vec<PolicyRule>,
    policy: &IndexedPolicy,
    kind: BindingKind,
    scope: &ScopeBindings,
    identity: &Identity,
) -> Result<(), Memory>
    ensures { OnOk result (list.new.items ≡ list.old.items ++ flat_map (λ b. unwrap_or (given policy.now identity.now b) []) (map (binding_at kind scope.now.namespace) scope.now.bindings)) }
{
    let mut start = Bound::Unbounded;
    while let Some((name, binding)) = scope.next(identity, start) {
        push_of(alloc, list, policy, &binding.role_ref, scope.namespace())?;
        start = Bound::Excluded(name);
    }
    Ok(())
}

// ---- all bindings

fn cluster_grant<'a>(
    policy: &'a IndexedPolicy,
    identity: &Identity,
    asked: &PreparedPoint<'_>,
) -> Option<Grant<'a>>
    ensures { granted_if result ≡ first_some (granted_by policy.now identity.now (point_of asked.now)) (map cluster_binding policy.now.cluster_role_bindings) }
{
    scope_grant(
        policy,
        BindingKind::ClusterRoleBinding,
        policy.cluster(),
        identity,
        asked,
    )
}

fn namespace_grant<'a>(
    policy: &'a IndexedPolicy,
    identity: &Identity,
    namespace: &str,
    asked: &PreparedPoint<'_>,
) -> Option<Grant<'a>>
    ensures { granted_if result ≡ first_some (granted_by policy.now identity.now (point_of asked.now)) (bindings_of namespace.now policy.now.role_bindings) }
{
    match policy.scope_in(namespace) {
        Some(scope) => scope_grant(policy, BindingKind::RoleBinding, scope, identity, asked),
        None => None,
    }
}

// The first of the rules held by the identity in the namespace to allow the point.
#[tactic(auto, unfolding(kapi_policy::specs::Decided::granted, kapi_policy::specs::Decided::bindings_in), using(kapi_policy::proofs::Firsts::first_some_append))]
fn grant<'a>(
    policy: &'a IndexedPolicy,
    identity: &Identity,
    namespace: &str,
    asked: &PreparedPoint<'_>,
) -> Option<Grant<'a>>
    ensures { granted_if result ≡ granted policy.now identity.now namespace.now (point_of asked.now) }
{
    let found = cluster_grant(policy, identity, asked);
    if found.is_some() || namespace.is_empty() {
        return found;
    }
    namespace_grant(policy, identity, namespace, asked)
}

/// Whether the identity may do this in the namespace, and the first rule that allows it. Allocates nothing.
#[tactic(auto, unfolding(kapi_policy::specs::Decided::decided))]
pub fn decide<'a>(
    policy: &'a IndexedPolicy,
    identity: &Identity,
    namespace: &str,
    point: &Point,
) -> Decision<'a>
    ensures { decision_of result ≡ decided policy.now identity.now namespace.now point.now }
{
    if identity.is_master() {
        return Decision::Masters;
    }
    match grant(policy, identity, namespace, &ask(point)) {
        Some(grant) => Decision::Allowed(grant),
        None => Decision::Denied,
    }
}

fn push_cluster_wide(
    alloc: Global,
    list: &mut Vec<PolicyRule>,
    policy: &IndexedPolicy,
    identity: &Identity,
) -> Result<(), Memory>
    ensures { OnOk result (list.new.items ≡ list.old.items ++ flat_map (λ b. unwrap_or (given policy.now identity.now b) []) (map cluster_binding policy.now.cluster_role_bindings)) }
{
    push_scope(
        alloc,
        list,
        policy,
        BindingKind::ClusterRoleBinding,
        policy.cluster(),
        identity,
    )
}

fn push_in_namespace(
    alloc: Global,
    list: &mut Vec<PolicyRule>,
    policy: &IndexedPolicy,
    identity: &Identity,
    namespace: &str,
) -> Result<(), Memory>
    ensures { OnOk result (list.new.items ≡ list.old.items ++ flat_map (λ b. unwrap_or (given policy.now identity.now b) []) (bindings_of namespace.now policy.now.role_bindings)) }
{
    match policy.scope_in(namespace) {
        Some(scope) => push_scope(
            alloc,
            list,
            policy,
            BindingKind::RoleBinding,
            scope,
            identity,
        ),
        None => Ok(()),
    }
}

/// The rules that the identity holds in the namespace, in order, those of each binding once.
#[tactic(auto, unfolding(kapi_policy::specs::Decided::held, kapi_policy::specs::Decided::bindings_in), using(kapi_policy::proofs::Firsts::flat_map_append))]
pub fn held(
    alloc: Global,
    policy: &IndexedPolicy,
    identity: &Identity,
    namespace: &str,
) -> Result<Vec<PolicyRule>, Memory>
    ensures { IfOk result (λ v. v.items ≡ held_by policy.now identity.now namespace.now) }
{
    let mut list = Vec::new(alloc);
    push_cluster_wide(alloc, &mut list, policy, identity)?;
    if !namespace.is_empty() {
        push_in_namespace(alloc, &mut list, policy, identity, namespace)?;
    }
    Ok(list)
}
