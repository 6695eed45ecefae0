//! What is suggested as objects, one a line or in a list.
ghost use Rattle.std.specs.Prelude.{◌≡◌, ◌++◌, false, string_bytes, IfOk, OnOk};
ghost use Rattle.serde_json.specs.View.{members_view, view};
ghost use Rattle.std.specs.List.{enumerate_from, flat_map};
ghost use Rattle.serde_json.specs.Written.{compact_text, has_float};
ghost use Rattle.kapi_suggest.specs.Printed as printed;

use crate::suggested::Suggested;
use kapi_model::{RoleKind, RoleRef, Subject};
use kapi_object::contents::{binding_content, role_content};
use kapi_object::tree_form::{put_string, put_text};
use kapi_text::{Memory, Text, TryCopy};
use serde_json::{Map, Value, put};
use std::alloc::Global;

fn name_of(alloc: Global, number: usize) -> Result<String, Memory>
    ensures { IfOk result (λ s. string_bytes s ≡ printed.name_of number) }
{
    format!(in alloc; "suggested-{number}")
}

fn role_kind_in(namespace: &str) -> RoleKind
    ensures { result ≡ printed.role_kind_in namespace.now }
{
    if namespace.is_empty() {
        RoleKind::ClusterRole
    } else {
        RoleKind::Role
    }
}

fn binding_kind_in(namespace: &str) -> &'static str
    ensures { result.now ≡ printed.binding_kind_in namespace.now }
{
    if namespace.is_empty() {
        "ClusterRoleBinding"
    } else {
        "RoleBinding"
    }
}

fn metadata_of(alloc: Global, name: &str, namespace: &str) -> Result<Value, Memory>
    ensures { IfOk result (λ v. view v ≡ printed.metadata_of name.now namespace.now) }
{
    let mut members = Map::new(alloc);
    put_string(alloc, &mut members, "name", name)?;
    put_text(alloc, &mut members, "namespace", namespace)?;
    Ok(Value::Object(members))
}

/// The object of a kind with this content.
fn manifest(
    alloc: Global,
    kind: &str,
    name: &str,
    namespace: &str,
    content: Map<String, Value>,
) -> Result<Value, Memory>
    ensures { IfOk result (λ v. view v ≡ printed.manifest kind.now name.now namespace.now (members_view content.entries)) }
{
    let mut members = content;
    put_string(
        alloc,
        &mut members,
        "apiVersion",
        "rbac.authorization.k8s.io/v1",
    )?;
    put_string(alloc, &mut members, "kind", kind)?;
    put(
        &mut members,
        alloc,
        "metadata",
        metadata_of(alloc, name, namespace)?,
    )?;
    Ok(Value::Object(members))
}

#[tactic(auto, unfolding(crate::specs::Printed::role_manifest))]
fn role_manifest(alloc: Global, name: &str, suggested: &Suggested) -> Result<Value, Memory>
    ensures { IfOk result (λ v. view v ≡ printed.role_manifest name.now suggested.now) }
{
    let namespace = suggested.at.namespace.as_str();
    let kind = role_kind_in(namespace).as_str();
    let content = role_content(alloc, suggested.rules.as_slice())?;
    manifest(alloc, kind, name, namespace, content)
}

fn subjects_for(alloc: Global, suggested: &Suggested) -> Result<Vec<Subject>, Memory>
    ensures { IfOk result (λ v. v.items ≡ printed.subjects_for suggested.now) }
{
    let mut subjects = Vec::new(alloc);
    subjects.push(Subject::User(suggested.at.user.copy(alloc)?))?;
    Ok(subjects)
}

#[tactic(auto, unfolding(crate::specs::Printed::binding_manifest))]
fn binding_manifest(alloc: Global, name: &str, suggested: &Suggested) -> Result<Value, Memory>
    ensures { IfOk result (λ v. view v ≡ printed.binding_manifest name.now suggested.now) }
{
    let namespace = suggested.at.namespace.as_str();
    let subjects = subjects_for(alloc, suggested)?;
    let role = RoleRef {
        kind: role_kind_in(namespace),
        name: Text::copy_of(alloc, name)?,
    };
    let content = binding_content(alloc, subjects.as_slice(), &role)?;
    manifest(alloc, binding_kind_in(namespace), name, namespace, content)
}

fn push_tree(alloc: Global, text: &mut Vec<u8>, tree: &Value) -> Result<(), Memory>
    requires { has_float (view tree.now) ≡ false }
    ensures { OnOk result (text.new.items ≡ text.old.items ++ compact_text (view tree.now)) }
{
    let written = tree.to_vec(alloc)?;
    text.extend_from_slice(written.as_slice())
}

/// Appends the role and the binding of one number, with a text between them.
#[tactic(auto, using(crate::proofs::Floatless::role_has_no_float, crate::proofs::Floatless::binding_has_no_float))]
fn push_pair(
    alloc: Global,
    text: &mut Vec<u8>,
    number: usize,
    suggested: &Suggested,
    between: &[u8],
) -> Result<(), Memory>
    ensures { OnOk result (text.new.items ≡ text.old.items ++ printed.pair_for between.now (number, suggested.now)) }
{
    let name = name_of(alloc, number)?;
    let role = role_manifest(alloc, name.as_str(), suggested)?;
    let binding = binding_manifest(alloc, name.as_str(), suggested)?;
    push_tree(alloc, text, &role)?;
    text.extend_from_slice(between)?;
    push_tree(alloc, text, &binding)
}

/// What is suggested as JSON, an object a line: of each its role and then the binding, both named `suggested-` and its number, from 1.
pub fn manifests(alloc: Global, suggested: &[Suggested]) -> Result<Vec<u8>, Memory>
    ensures { IfOk result (λ v. v.items ≡ printed.manifests suggested.now) }
{
    let mut text = Vec::new(alloc);
    for (index, one) in suggested.iter().enumerate() {
        push_lines(alloc, &mut text, index + 1, one)?;
    }
    Ok(text)
}

fn push_lines(
    alloc: Global,
    text: &mut Vec<u8>,
    number: usize,
    suggested: &Suggested,
) -> Result<(), Memory>
    ensures { OnOk result (text.new.items ≡ text.old.items ++ printed.lines_for (number, suggested.now)) }
{
    push_pair(alloc, text, number, suggested, b"\n")?;
    text.extend_from_slice(b"\n")
}

/// The suggested roles and bindings as one document, a List.
pub fn list(alloc: Global, suggested: &[Suggested]) -> Result<Vec<u8>, Memory>
    ensures { IfOk result (λ v. v.items ≡ printed.list suggested.now) }
{
    let mut text = items(alloc, suggested)?;
    text.extend_from_slice(b"],\"kind\":\"List\"}\n")?;
    Ok(text)
}

/// A list up to its last item.
fn items(alloc: Global, suggested: &[Suggested]) -> Result<Vec<u8>, Memory>
    ensures { IfOk result (λ v. v.items ≡ printed.begun_list ++ flat_map printed.items_for (enumerate_from 1 suggested.now)) }
{
    let mut text = Vec::new(alloc);
    text.extend_from_slice(b"{\"apiVersion\":\"v1\",\"items\":[")?;
    for (index, one) in suggested.iter().enumerate() {
        push_items(alloc, &mut text, index + 1, one)?;
    }
    Ok(text)
}

fn push_items(
    alloc: Global,
    text: &mut Vec<u8>,
    number: usize,
    suggested: &Suggested,
) -> Result<(), Memory>
    ensures { OnOk result (text.new.items ≡ text.old.items ++ printed.items_for (number, suggested.now)) }
{
    if number != 1 {
        text.push(b',')?;
    }
    push_pair(alloc, text, number, suggested, b",")
}
