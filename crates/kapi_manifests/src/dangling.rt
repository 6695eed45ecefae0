//! Bindings whose role is not in a policy.
ghost use Rattle.std.specs.Prelude.{◌≡◌, ◌++◌, [], IfOk, OnOk, map, string_bytes};
ghost use Rattle.serde_json.specs.View.{view};
ghost use Rattle.kapi_manifests.specs.Dangling as loose;
ghost use Rattle.kapi_manifests.specs.Dangling.{dangling, dangling_if, home_of, is_dangling, named_key, origin_of, own_key, with_role, with_roles};

use crate::fault::Origin;
use crate::kinds::{metadata_text, text_at};
use crate::sorted::Manifest;
use kapi_text::{Memory, Text};
use serde_json::Value;
use std::alloc::Global;
use std::collections::BTreeMap;

/// A binding whose role is not in the policy: where it begins, its kind and place, and the kind and name of the role.
#[derive(Drop)]
pub struct Dangling {
    pub origin: Origin,
    pub binding: String,
    pub role: String,
}

/// The bindings among objects whose role is neither among them nor among others.
pub fn dangling_bindings(
    alloc: Global,
    others: &[Manifest],
    objects: &[Manifest],
) -> Result<Vec<Dangling>, Memory>
    ensures { IfOk result (λ v. map origin_of v.items ≡ dangling others.now objects.now) }
{
    let mut keys = BTreeMap::new(alloc);
    add_roles(alloc, &mut keys, others)?;
    add_roles(alloc, &mut keys, objects)?;
    let mut found = Vec::new(alloc);
    for manifest in objects {
        push_dangling(alloc, &mut found, &keys, manifest)?;
    }
    Ok(found)
}

/// Adds the keys of the roles among objects.
#[tactic(auto, unfolding(crate::specs::Dangling::with_roles))]
fn add_roles(
    alloc: Global,
    keys: &mut BTreeMap<Text, Origin>,
    objects: &[Manifest],
) -> Result<(), Memory>
    ensures { OnOk result (keys.new.entries ≡ with_roles keys.old.entries objects.now) }
{
    for manifest in objects {
        add_role(alloc, keys, &manifest.object, manifest.origin)?;
    }
    Ok(())
}

fn add_role(
    alloc: Global,
    keys: &mut BTreeMap<Text, Origin>,
    object: &Value,
    origin: Origin,
) -> Result<(), Memory>
    ensures { OnOk result (keys.new.entries ≡ with_role keys.old.entries (view object.now) origin) }
{
    if !is_role(object) {
        return Ok(());
    }
    let key = key_of_role(alloc, object)?;
    drop(keys.insert(key, origin)?);
    Ok(())
}

fn is_role(object: &Value) -> bool
    ensures { result ≡ loose.is_role (view object.now) }
{
    text_at(object, "kind") == "Role" || text_at(object, "kind") == "ClusterRole"
}

fn is_binding(object: &Value) -> bool
    ensures { result ≡ loose.is_binding (view object.now) }
{
    text_at(object, "kind") == "RoleBinding" || text_at(object, "kind") == "ClusterRoleBinding"
}

/// A role's own key.
fn key_of_role(alloc: Global, role: &Value) -> Result<Text, Memory>
    ensures { IfOk result (λ t. t ≡ own_key (view role.now)) }
{
    let kind = text_at(role, "kind");
    let namespace = home(kind, metadata_text(role, "namespace"));
    role_key(alloc, kind, namespace, metadata_text(role, "name"))
}

/// The key of the role that a binding names.
fn key_named(alloc: Global, binding: &Value) -> Result<Text, Memory>
    ensures { IfOk result (λ t. t ≡ named_key (view binding.now)) }
{
    let kind = reference_text(binding, "kind");
    let namespace = home(kind, metadata_text(binding, "namespace"));
    role_key(alloc, kind, namespace, reference_text(binding, "name"))
}

#[tactic(auto, unfolding(crate::specs::Dangling::role_key))]
fn role_key(alloc: Global, kind: &str, namespace: &str, name: &str) -> Result<Text, Memory>
    ensures { IfOk result (λ t. t ≡ loose.role_key kind.now namespace.now name.now) }
{
    Ok(Text::new(format!(in alloc; "{kind}/{namespace}/{name}")?))
}

/// The namespace of a role of that kind, if objects beside it are in this one.
fn home<'a>(kind: &str, namespace: &'a str) -> &'a str
    ensures { result.now ≡ home_of kind.now namespace.now }
{
    if kind == "Role" { namespace } else { "" }
}

/// The text at a key of the reference to a role; empty if there is none.
fn reference_text<'a>(binding: &'a Value, key: &str) -> &'a str
    ensures { result.now ≡ loose.reference_text key.now (view binding.now) }
{
    match binding.get("roleRef") {
        Some(reference) => text_at(reference, key),
        None => "",
    }
}

/// Keeps a binding, if its role is of none of the keys.
fn push_dangling(
    alloc: Global,
    found: &mut Vec<Dangling>,
    keys: &BTreeMap<Text, Origin>,
    manifest: &Manifest,
) -> Result<(), Memory>
    ensures { OnOk result (map origin_of found.new.items ≡ map origin_of found.old.items ++ dangling_if keys.now.entries manifest.now) }
{
    if !dangles(alloc, keys, &manifest.object)? {
        return Ok(());
    }
    let binding = place_of(alloc, &manifest.object)?;
    let role = role_of(alloc, &manifest.object)?;
    found.push(Dangling {
        origin: manifest.origin,
        binding,
        role,
    })?;
    Ok(())
}

/// Whether an object is a binding to a role of none of the keys.
fn dangles(alloc: Global, keys: &BTreeMap<Text, Origin>, object: &Value) -> Result<bool, Memory>
    ensures { IfOk result (λ b. b ≡ is_dangling keys.now.entries (view object.now)) }
{
    if !is_binding(object) {
        return Ok(false);
    }
    let key = key_named(alloc, object)?;
    Ok(!keys.contains_key(&key))
}

/// The kind of an object, its namespace where it names one, and its name.
fn place_of(alloc: Global, object: &Value) -> Result<String, Memory> {
    let kind = text_at(object, "kind");
    let namespace = metadata_text(object, "namespace");
    let name = metadata_text(object, "name");
    if namespace.is_empty() {
        return format!(in alloc; "{kind} {name}");
    }
    format!(in alloc; "{kind} {namespace}/{name}")
}

/// The kind and the name of the role that a binding names.
fn role_of(alloc: Global, binding: &Value) -> Result<String, Memory> {
    let kind = reference_text(binding, "kind");
    let name = reference_text(binding, "name");
    format!(in alloc; "{kind} {name}")
}
