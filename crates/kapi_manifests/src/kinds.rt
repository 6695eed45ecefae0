//! What an object says of itself, and what it is to a policy.
ghost use Rattle.std.specs.Prelude.{◌≡◌};
ghost use Rattle.std.specs.List.{list_any};
ghost use Rattle.serde_json.specs.View.{members_view, view};
ghost use Rattle.kapi_manifests.specs.Kinds as kinds;

use kapi_model::ResourceRow;
use serde_json::{Map, Value};

/// The text at a key; empty if there is none.
pub fn text_at<'a>(object: &'a Value, key: &str) -> &'a str
    ensures { result.now ≡ kinds.text_at key.now (view object.now) }
{
    match object.get(key) {
        Some(Value::String(text)) => text.as_str(),
        _ => "",
    }
}

/// The text at a key of the metadata; empty if there is none.
pub fn metadata_text<'a>(object: &'a Value, key: &str) -> &'a str
    ensures { result.now ≡ kinds.metadata_text key.now (view object.now) }
{
    match object.get("metadata") {
        Some(metadata) => text_at(metadata, key),
        None => "",
    }
}

/// Whether the object says something about policy: it is of the group of Kubernetes' roles and bindings, or its kind is
/// named as one of theirs.
pub fn is_policy(object: &Value) -> bool
    ensures { result ≡ kinds.is_policy (view object.now) }
{
    is_policy_version(text_at(object, "apiVersion")) || is_policy_kind(text_at(object, "kind"))
}

#[tactic(auto, unfolding(crate::specs::Kinds::is_policy_version))]
fn is_policy_version(version: &str) -> bool
    ensures { result ≡ kinds.is_policy_version version.now }
{
    version.as_bytes().starts_with(b"rbac.authorization.k8s.io")
}

fn is_policy_kind(kind: &str) -> bool
    ensures { result ≡ kinds.is_policy_kind kind.now }
{
    match kind {
        "Role" | "RoleBinding" | "ClusterRole" | "ClusterRoleBinding" => true,
        _ => false,
    }
}

/// Whether the object is a namespace.
pub fn is_namespace(object: &Value) -> bool
    ensures { result ≡ kinds.is_namespace (view object.now) }
{
    text_at(object, "kind") == "Namespace" && text_at(object, "apiVersion") == "v1"
}

/// Whether objects of the group and the kind of this one live in a namespace, by a table of resource types.
pub fn lives_in_namespace(table: &[ResourceRow], object: &Value) -> bool
    ensures { result ≡ kinds.lives_in_namespace table.now (view object.now) }
{
    let group = group_of(text_at(object, "apiVersion"));
    let kind = text_at(object, "kind");
    table.iter().any(|row| is_namespaced(group, kind, row))
}

fn is_namespaced(group: &str, kind: &str, row: &ResourceRow) -> bool
    ensures { result ≡ kinds.is_namespaced group.now kind.now row.now }
{
    row.namespaced && (row.kind.as_str() == kind && row.group.as_str() == group)
}

/// The API group of a version; empty for the core group.
#[tactic(auto, unfolding(crate::specs::Kinds::group_of))]
fn group_of(version: &str) -> &str
    ensures { result.now ≡ kinds.group_of version.now }
{
    match version.split_once('/') {
        Some((group, _version)) => group,
        None => "",
    }
}

/// The kind of the items of a document that name no kind: that of a list without `List`, for lists of namespaces,
/// definitions of kinds, roles or bindings (apimachinery, `UnstructuredJSONScheme`); empty for other documents.
pub fn item_kind(kind: &str) -> &'static str
    ensures { result.now ≡ kinds.item_kind kind.now }
{
    match kind {
        "NamespaceList" | "Namespace" => "Namespace",
        "CustomResourceDefinitionList" => "CustomResourceDefinition",
        "RoleList" | "Role" => "Role",
        "RoleBindingList" | "RoleBinding" => "RoleBinding",
        "ClusterRoleList" | "ClusterRole" => "ClusterRole",
        "ClusterRoleBindingList" | "ClusterRoleBinding" => "ClusterRoleBinding",
        _ => "",
    }
}

/// Whether a member of the document is like `items`: some readers take it for that (Go, `encoding/json`).
pub fn has_like_items(document: &Value) -> bool
    ensures { result ≡ kinds.has_like_items (view document.now) }
{
    match document {
        Value::Object(members) => names_like_items(members),
        _ => false,
    }
}

fn names_like_items(members: &Map<String, Value>) -> bool
    ensures { result ≡ list_any kinds.is_like_items (kinds.names_of (members_view members.now.entries)) }
{
    for (name, _value) in members {
        if is_like_items(name.as_str()) {
            return true;
        }
    }
    false
}

/// Whether a name differs from `items` in the case of letters alone, or by a long s.
fn is_like_items(name: &str) -> bool
    ensures { result ≡ kinds.is_like_items name.now }
{
    name != "items"
        && (name.eq_ignore_ascii_case("items") || name.eq_ignore_ascii_case("item\u{17f}"))
}
