ghost use Rattle.std.specs.Prelude.{◌≡◌, [], map, IfOk, MatchOption, OnErr, OnOk, option_copied};
ghost use Rattle.std.specs.Map.{lookup};
ghost use Rattle.std.specs.Str.{bytes_eq};
ghost use Rattle.kapi_policy.specs.All.{all_bindings};
ghost use Rattle.kapi_policy.specs.Views.{binding_of};
ghost use Rattle.kapi_policy.specs.Decided.{bindings_of, cluster_binding, cluster_rules_in, is_place, rules_in};
ghost use Rattle.kapi_policy.specs.Objects.{no_objects, with_object, without_object};
ghost use Rattle.kapi_index.specs.Contents.{binding_at};

use crate::all::{cluster_bindings, push_spaces};
use crate::held_once::held_once;
use crate::roles::{PreparedClusterRole, PreparedRole};
use crate::rules::CompiledRules;
use crate::scope::ScopeBindings;
use crate::spaces::{
    Spaces, copy_spaces, put_binding, put_role, rules_at, scope_in, take_binding, take_role,
};
use crate::walk;
use kapi_model::{Identity, PolicyRule, RoleBinding, RoleRef};
use kapi_policy::{
    Binding, BindingKind, Decision, Policy, PolicyChange, PolicyKey, PolicyPut, copy_map,
};
use kapi_rules::Point;
use kapi_text::{Memory, Text, TryCopy};
use std::alloc::Global;
use std::collections::BTreeMap;
use std::marker::Model;

/// A policy that finds bindings by user, group and service account: a decision does not grow with their number.
#[derive(Drop)]
pub struct IndexedPolicy {
    alloc: Global,
    cluster_roles: BTreeMap<Text, PreparedClusterRole>,
    cluster: ScopeBindings,
    spaces: Spaces,
}

impl Model for IndexedPolicy {
    ghost use Rattle.std.specs.Prelude.{map};
    ghost use Rattle.kapi_policy.specs.Objects.{PolicyObjects};
    ghost use Rattle.kapi_index.specs.Contents.{IsWhole, bindings_in, by_text, cluster_wide, in_all, roles_in};

    ghost Value = { PolicyObjects };

    ghost view = { λ p. record { roles = in_all roles_in (by_text p.spaces.entries); cluster_roles = p.cluster_roles.entries; role_bindings = in_all bindings_in (by_text p.spaces.entries); cluster_role_bindings = map cluster_wide p.cluster.bindings } };

    ghost invariant = { λ p. IsWhole p.cluster (by_text p.spaces.entries) };
}

impl IndexedPolicy {
    /// A policy without roles and bindings. Allocates nothing.
    pub fn new(alloc: Global) -> IndexedPolicy
        ensures { result ≡ no_objects }
    {
        IndexedPolicy {
            alloc,
            cluster_roles: BTreeMap::new(alloc),
            cluster: ScopeBindings::new(alloc, Text::new(String::new(alloc))),
            spaces: BTreeMap::new(alloc),
        }
    }

    /// An owned policy with the same roles and bindings.
    #[tactic(auto, using(crate::proofs::Copied::same_roles, crate::proofs::Copied::same_bindings, crate::proofs::Copied::same_spread))]
    pub fn copy(&self) -> Result<IndexedPolicy, Memory>
        ensures { IfOk result (λ p. p ≡ self.now) }
    {
        let alloc = self.alloc;
        let cluster_roles = copy_map(alloc, &self.cluster_roles)?;
        let cluster = self.cluster.copy()?;
        let spaces = copy_spaces(alloc, &self.spaces)?;
        Ok(IndexedPolicy {
            alloc,
            cluster_roles,
            cluster,
            spaces,
        })
    }

    /// The bindings that count somewhere, in the order in which they are checked: the cluster-wide ones, then those of
    /// namespaces.
    pub fn bindings(&self) -> Result<Vec<Binding<'_>>, Memory>
        ensures { IfOk result (λ v. map binding_of v.items ≡ all_bindings self.now) }
    {
        let mut list = cluster_bindings(self.alloc, &self.cluster)?;
        push_spaces(&mut list, &self.spaces)?;
        Ok(list)
    }

    /// The rules of the role of a name in a namespace, if it is there.
    pub(crate) fn rules_at(&self, name: &Text, namespace: &str) -> Option<&CompiledRules>
        ensures { option_copied result ≡ rules_in (lookup (is_place namespace.now name.now) self.now.roles) }
    {
        rules_at(&self.spaces, name, namespace)
    }

    /// The rules of the cluster role of a name, if it is there.
    #[tactic(auto, using(kapi_policy::proofs::Keys::lookup_name))]
    pub(crate) fn rules_of_cluster_role(&self, name: &Text) -> Option<&CompiledRules>
        ensures { option_copied result ≡ cluster_rules_in (lookup (bytes_eq name.now) self.now.cluster_roles) }
    {
        match self.cluster_roles.get(name) {
            Some(role) => Some(role.rules()),
            None => None,
        }
    }

    /// The cluster-wide bindings.
    pub(crate) fn cluster(&self) -> &ScopeBindings
        ensures { map cluster_binding self.now.cluster_role_bindings ≡ map (binding_at BindingKind.ClusterRoleBinding result.now.namespace) result.now.bindings }
    {
        &self.cluster
    }

    /// The bindings of a namespace, if it is there.
    pub(crate) fn scope_in(&self, namespace: &str) -> Option<&ScopeBindings>
        ensures { MatchOption result (bindings_of namespace.now self.now.role_bindings ≡ []) (λ s. bindings_of namespace.now self.now.role_bindings ≡ map (binding_at BindingKind.RoleBinding s.now.namespace) s.now.bindings) }
    {
        scope_in(&self.spaces, namespace)
    }

    /// Puts the object at its place. A failed allocation changes nothing.
    #[tactic(auto, unfolding(kapi_policy::specs::Objects::with_object))]
    fn put(&mut self, object: &PolicyPut) -> Result<(), Memory>
        ensures done { OnOk result (self.new ≡ with_object object.now self.old) }
        ensures kept { OnErr result (self.new ≡ self.old) }
    {
        let alloc = self.alloc;
        match object {
            PolicyPut::Role(place, role) => {
                let role = PreparedRole::of(alloc, role)?;
                put_role(alloc, &mut self.spaces, place, role)
            }
            PolicyPut::ClusterRole(name, role) => {
                let name = name.copy(alloc)?;
                let role = PreparedClusterRole::of(alloc, role)?;
                drop(self.cluster_roles.insert(name, role)?);
                Ok(())
            }
            PolicyPut::RoleBinding(place, binding) => {
                let binding = binding.copy(alloc)?;
                put_binding(alloc, &mut self.spaces, place, binding)
            }
            PolicyPut::ClusterRoleBinding(name, binding) => {
                let subjects = binding.subjects.copy(alloc)?;
                let role_ref = binding.role_ref.copy(alloc)?;
                self.cluster.put(name, RoleBinding { subjects, role_ref })
            }
        }
    }

    /// Takes the object at that place out, if there is one.
    #[tactic(auto, unfolding(kapi_policy::specs::Objects::without_object))]
    fn delete(&mut self, key: &PolicyKey)
        ensures { self.new ≡ without_object key.now self.old }
    {
        match key {
            PolicyKey::Role(place) => take_role(&mut self.spaces, place),
            PolicyKey::ClusterRole(name) => drop(self.cluster_roles.remove(name)),
            PolicyKey::RoleBinding(place) => take_binding(&mut self.spaces, place),
            PolicyKey::ClusterRoleBinding(name) => self.cluster.take(name),
        }
    }
}

impl Policy for IndexedPolicy {
    ghost content = { λ p. p };

    #[tactic(auto, unfolding(kapi_policy::specs::Objects::applied))]
    fn apply(&mut self, change: &PolicyChange) -> Result<(), Memory> {
        match change {
            PolicyChange::Put(object) => self.put(object),
            PolicyChange::Delete(key) => {
                self.delete(key);
                Ok(())
            }
        }
    }

    fn decide<'a>(&'a self, identity: &Identity, namespace: &str, point: &Point) -> Decision<'a> {
        walk::decide(self, identity, namespace, point)
    }

    fn held(&self, identity: &Identity, namespace: &str) -> Result<Vec<PolicyRule>, Memory> {
        walk::held(self.alloc, self, identity, namespace)
    }

    fn held_once(&self, identity: &Identity, namespace: &str) -> Result<Vec<PolicyRule>, Memory> {
        held_once(self.alloc, self, identity, namespace)
    }

    fn role_rules<'a>(&'a self, role: &RoleRef, namespace: &str) -> Option<&'a [PolicyRule]> {
        walk::role_rules(self, role, namespace)
    }
}
