//! All bindings of a policy.
ghost use Rattle.std.specs.Prelude.{◌≡◌, ◌++◌, [], map, IfOk, OnOk};
ghost use Rattle.kapi_policy.specs.All.{bindings_in_namespaces};
ghost use Rattle.kapi_policy.specs.Views.{binding_of};
ghost use Rattle.kapi_index.specs.Contents.{binding_at as binding_in, bindings_in, bindings_of_space, by_text, in_all};

use crate::scope::ScopeBindings;
use crate::spaces::{Namespace, Spaces};
use kapi_model::RoleBinding;
use kapi_policy::{Binding, BindingKind};
use kapi_text::{Memory, Text};
use std::alloc::Global;

fn binding_at<'a>(
    kind: BindingKind,
    namespace: &'a str,
    name: &'a Text,
    binding: &'a RoleBinding,
) -> Binding<'a>
    ensures { binding_of result ≡ binding_in kind namespace.now (name.now, binding.now) }
{
    Binding {
        kind,
        namespace,
        name: name.as_str(),
        subjects: binding.subjects.as_slice(),
        role: &binding.role_ref,
    }
}

// Puts the bindings of a scope at the end of the list.
fn push_scope<'a>(
    list: &mut Vec<Binding<'a>>,
    kind: BindingKind,
    namespace: &'a str,
    scope: &'a ScopeBindings,
) -> Result<(), Memory>
    ensures { OnOk result (map binding_of list.new.items ≡ map binding_of list.old.items ++ map (binding_in kind namespace.now) scope.now.bindings) }
{
    for (name, bound) in scope.bindings() {
        list.push(binding_at(kind, namespace, name, &bound.binding))?;
    }
    Ok(())
}

/// The cluster-wide bindings.
pub fn cluster_bindings<'a>(
    alloc: Global,
    cluster: &'a ScopeBindings,
) -> Result<Vec<Binding<'a>>, Memory>
    ensures { IfOk result (λ v. map binding_of v.items ≡ map (binding_in BindingKind.ClusterRoleBinding []) cluster.now.bindings) }
{
    let mut list = Vec::new(alloc);
    push_scope(&mut list, BindingKind::ClusterRoleBinding, "", cluster)?;
    Ok(list)
}

#[tactic(auto, unfolding(crate::specs::Contents::bindings_of_space))]
fn push_space<'a>(
    list: &mut Vec<Binding<'a>>,
    namespace: &'a str,
    space: &'a Namespace,
) -> Result<(), Memory>
    ensures { OnOk result (map binding_of list.new.items ≡ map binding_of list.old.items ++ bindings_of_space namespace.now space.now) }
{
    if namespace.is_empty() {
        return Ok(());
    }
    push_scope(list, BindingKind::RoleBinding, namespace, &space.bound)
}

/// Puts the bindings of all namespaces at the end of the list.
pub fn push_spaces<'a>(list: &mut Vec<Binding<'a>>, spaces: &'a Spaces) -> Result<(), Memory>
    ensures { OnOk result (map binding_of list.new.items ≡ map binding_of list.old.items ++ bindings_in_namespaces (in_all bindings_in (by_text spaces.now.entries))) }
{
    for (name, space) in spaces {
        push_space(list, name.as_str(), space)?;
    }
    Ok(())
}
