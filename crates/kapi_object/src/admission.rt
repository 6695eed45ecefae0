ghost use Rattle.std.specs.Prelude.{◌≡◌, ◌≤◌, [], true, false, Some, IfOk, ok_or, string_bytes};
ghost use Rattle.serde_json.specs.Data.{Data, depth, object};
ghost use Rattle.serde_json.specs.Find.{get};
ghost use Rattle.serde_json.specs.Read.{max_depth};
ghost use Rattle.serde_json.specs.View.{view, members_view, items_view};
ghost use Rattle.serde_json.specs.Written as written;
ghost use Rattle.kapi_text.specs.ResultIs.{ResultIs};
ghost use Rattle.kapi_object.specs.Admission.{is_other, not_json, object_of, read_as, told, version_of, admitted, faults_on};
ghost use Rattle.kapi_object.specs.Admission as admission;
ghost use Rattle.kapi_object.specs.Private.Kept.{is_kept as is_kept_of, kept_members};
ghost use Rattle.kapi_object.specs.Given.{given_of};
ghost use Rattle.kapi_object.specs.Given as gives;
ghost use Rattle.kapi_object.specs.Object.{tree_of};
ghost use Rattle.kapi_object.specs.Order.{is_ordered};
ghost use Rattle.kapi_object.specs.Tree.{json_object};
ghost use Rattle.kapi_object.specs.Tree as trees;
ghost use Rattle.serde_json.specs.Written.{items_have_float, members_have_float};

use crate::body_fields::{Given, GivenText, given_in};
use crate::contents::content;
use crate::metadata::collect_metadata_faults;
use crate::object::Object;
use crate::object_error::ObjectError;
use crate::table_faults::push_typed_faults;
use crate::tree::{has_no_members, into_members, put_entry, take_metadata};
use crate::tree_form::put_string;
use kapi_model::{FieldFault, ResourceRow, Schema};
use kapi_text::{Memory, Sequence};
use serde_json::{Map, Value, put};
use std::alloc::Global;

fn is_empty_object(value: &Value) -> bool
    ensures { result ≡ trees.is_empty_object (view value.now) }
{
    match value {
        Value::Object(members) => has_no_members(members),
        _other => false,
    }
}

/// Whether a member of the metadata is kept; null is as if it were absent.
fn is_kept(row: &ResourceRow, key: &str, value: &Value) -> bool
    ensures { result ≡ is_kept_of row.now key.now (view value.now) }
{
    if value.is_null() {
        return false;
    }
    if key == "labels" || key == "annotations" {
        return !is_empty_object(value);
    }
    key == "name" || key == "resourceVersion" || (key == "namespace" && row.namespaced)
}

/// What is kept of the metadata, in its place.
fn kept_metadata(row: &ResourceRow, metadata: Map<String, Value>) -> Map<String, Value>
    ensures { members_view result.entries ≡ kept_members row.now (members_view metadata.entries) }
{
    let mut kept = metadata;
    kept.retain(|key, value| is_kept(row, key.as_str(), value));
    kept
}

/// What is kept beside the metadata, with kind and version filled in; `version` is the resource type's.
fn filled(
    alloc: Global,
    row: &ResourceRow,
    version: String,
    tree: Value,
) -> Result<Map<String, Value>, Memory>
    requires { string_bytes version ≡ version_of row.now }
    ensures { IfOk result (λ m. object (members_view m.entries) ≡ admission.filled row.now (view tree)) }
{
    let mut members = content(alloc, row.schema, tree)?;
    put(&mut members, alloc, "apiVersion", Value::String(version))?;
    put_string(alloc, &mut members, "kind", row.kind.as_str())?;
    Ok(members)
}

/// The tree as the resource type keeps it; `version` is the resource type's.
fn kept_tree(
    alloc: Global,
    row: &ResourceRow,
    version: String,
    tree: Value,
) -> Result<Value, Memory>
    requires version { string_bytes version ≡ version_of row.now }
    requires ordered { is_ordered (view tree) ≡ true }
    ensures { IfOk result (λ v. view v ≡ admission.kept_tree row.now (view tree)) }
{
    let mut rest = into_members(alloc, tree);
    let (name, metadata) = take_metadata(alloc, &mut rest)?;
    let kept = kept_metadata(row, metadata);
    let mut members = filled(alloc, row, version, Value::Object(rest))?;
    put_entry(&mut members, name, Value::Object(kept))?;
    Ok(Value::Object(members))
}

/// What the body's metadata specifies, for the resource type.
#[tactic(auto, unfolding(crate::specs::Given::given_on))]
fn given_on(alloc: Global, row: &ResourceRow, tree: &Value) -> Result<Given, Memory>
    ensures { IfOk result (λ g. g ≡ gives.given_on row.now (view tree.now)) }
{
    let given = given_in(alloc, tree)?;
    if row.namespaced {
        Ok(given)
    } else {
        Ok(Given {
            name: given.name,
            namespace: GivenText::Absent,
            resource_version: given.resource_version,
        })
    }
}

/// The `apiVersion` of the resource type's objects: with the group before the version, if the group has a name.
fn api_version(alloc: Global, row: &ResourceRow) -> Result<String, Memory>
    ensures { IfOk result (λ s. string_bytes s ≡ version_of row.now) }
{
    if row.group.as_str().is_empty() {
        return String::from_str(alloc, row.version.as_str());
    }
    let mut version = String::from_str(alloc, row.group.as_str())?;
    version.push_str("/")?;
    version.push_str(row.version.as_str())?;
    Ok(version)
}

/// Whether the key has another value than the text.
fn has_other(tree: &Value, key: &str, text: &str) -> bool
    ensures { result ≡ is_other text.now (get key.now (view tree.now)) }
{
    match tree.get(key) {
        Some(Value::String(found)) => found.as_str() != text,
        Some(_other) => true,
        None => false,
    }
}

/// The JSON object that the bytes are (RFC 8259).
#[tactic(auto, unfolding(crate::specs::Tree::json_object))]
pub fn read_tree(alloc: Global, bytes: &[u8]) -> Result<Value, ObjectError>
    ensures object { ResultIs told view result (ok_or (json_object bytes.now) not_json) }
    ensures ordered { IfOk result (λ v. is_ordered (view v) ≡ true) }
    ensures nests { IfOk result (λ v. depth (view v) ≤ max_depth) }
{
    match Value::from_slice(alloc, bytes) {
        Ok(tree) => {
            if tree.is_object() {
                Ok(tree)
            } else {
                Err(ObjectError::NotJson)
            }
        }
        Err(error) => {
            if error.is_memory() {
                Err(ObjectError::Memory)
            } else {
                Err(ObjectError::NotJson)
            }
        }
    }
}

/// What is wrong with a tree of a resource type with this schema, in order.
#[tactic(auto, unfolding(crate::specs::Admission::faults_on))]
pub fn collect_faults(
    alloc: Global,
    schema: Schema,
    tree: &Value,
) -> Result<Vec<FieldFault>, Memory>
    ensures { IfOk result (λ v. v.items ≡ faults_on schema (view tree.now)) }
{
    let mut faults = collect_metadata_faults(alloc, tree)?;
    push_typed_faults(alloc, &mut faults, schema, tree)?;
    Ok(faults)
}

/// The tree as its resource type keeps it, or the list of its faults.
#[tactic(auto, unfolding(crate::specs::Admission::admitted))]
fn admit(
    alloc: Global,
    row: &ResourceRow,
    version: String,
    tree: Value,
) -> Result<Value, ObjectError>
    requires version { string_bytes version ≡ version_of row.now }
    requires whole { written.has_float (view tree) ≡ false }
    requires ordered { is_ordered (view tree) ≡ true }
    ensures tree { ResultIs told view result (admitted row.now (view tree)) }
    ensures given { IfOk result (λ v. given_of (view v) ≡ gives.given_on row.now (view tree)) }
    ensures clean { IfOk result (λ v. faults_on row.now.schema (view v) ≡ []) }
    ensures whole { IfOk result (λ v. written.has_float (view v) ≡ false) }
    ensures ordered { IfOk result (λ v. is_ordered (view v) ≡ true) }
    ensures nests { IfOk result (λ v. depth (view tree) ≤ max_depth → depth (view v) ≤ max_depth) }
{
    let faults = collect_faults(alloc, row.schema, &tree)?;
    if !faults.is_empty() {
        let given = given_on(alloc, row, &tree)?;
        return Err(ObjectError::Invalid(given, Sequence::new(faults)));
    }
    let kept = kept_tree(alloc, row, version, tree)?;
    Ok(kept)
}

/// The tree of the object of a resource type that a JSON object is, as the resource type keeps it.
///
/// The Open schema keeps the members of the body as they are, but for `apiVersion` and `kind`, which are filled in
/// if they are missing, and `metadata`, of which name, namespace, resource version, labels and annotations are kept.
/// A resource type of roles or bindings keeps the members of its kind alone (Kubernetes API,
/// rbac.authorization.k8s.io/v1).
#[tactic(auto, unfolding(crate::specs::Admission::read_as))]
pub fn admitted_tree(alloc: Global, row: &ResourceRow, tree: Value) -> Result<Value, ObjectError>
    requires ordered { is_ordered (view tree) ≡ true }
    ensures tree { ResultIs told view result (read_as row.now (Some (view tree))) }

    // what is kept specifies what the tree specifies
    ensures given { IfOk result (λ v. given_of (view v) ≡ gives.given_on row.now (view tree)) }

    // what is kept of a tree without faults has no faults
    ensures clean { IfOk result (λ v. faults_on row.now.schema (view v) ≡ []) }
    ensures whole { IfOk result (λ v. written.has_float (view v) ≡ false) }
    ensures ordered { IfOk result (λ v. is_ordered (view v) ≡ true) }

    // and is no deeper than what is read, if the tree is not
    ensures nests { IfOk result (λ v. depth (view tree) ≤ max_depth → depth (view v) ≤ max_depth) }
{
    if has_float(&tree) {
        return Err(ObjectError::Float);
    }
    if has_other(&tree, "kind", row.kind.as_str()) {
        return Err(ObjectError::WrongKind);
    }
    let version = api_version(alloc, row)?;
    if has_other(&tree, "apiVersion", version.as_str()) {
        return Err(ObjectError::WrongVersion);
    }
    admit(alloc, row, version, tree)
}

/// The object of a resource type that a JSON object is, as the resource type keeps it.
pub fn admit_tree(alloc: Global, row: &ResourceRow, tree: Value) -> Result<Object, ObjectError>
    requires ordered { is_ordered (view tree) ≡ true }
    requires nests { depth (view tree) ≤ max_depth }
    ensures object { ResultIs told tree_of result (read_as row.now (Some (view tree))) }

    // the object specifies what the tree specifies
    ensures given { IfOk result (λ o. given_of (tree_of o) ≡ gives.given_on row.now (view tree)) }

    // what is kept of a tree without faults has no faults
    ensures clean { IfOk result (λ o. faults_on row.now.schema (tree_of o) ≡ []) }
{
    let kept = admitted_tree(alloc, row, tree)?;
    Ok(Object::new(kept))
}

/// The object of a resource type that a body is, as the resource type keeps it.
#[tactic(auto, unfolding(crate::specs::Admission::read_as))]
pub fn read_object(alloc: Global, row: &ResourceRow, bytes: &[u8]) -> Result<Object, ObjectError>
    ensures object { ResultIs told tree_of result (object_of row.now bytes.now) }

    // the object specifies what the body specifies
    ensures given { IfOk result (λ o. (tree : Data)
        → json_object bytes.now ≡ Some tree → given_of (tree_of o) ≡ gives.given_on row.now tree) }

    // what is kept of a body without faults has no faults
    ensures clean { IfOk result (λ o. faults_on row.now.schema (tree_of o) ≡ []) }
{
    admit_tree(alloc, row, read_tree(alloc, bytes)?)
}

/// Whether a number anywhere in the value reads as a float.
#[cycle(float)]
fn has_float(value: &Value) -> bool
    ensures { result ≡ written.has_float (view value.now) }
{
    match value {
        Value::Number(number) => number.is_f64(),
        Value::Array(items) => some_item_has_float(items),
        Value::Object(members) => some_member_has_float(members),
        _other => false,
    }
}

#[cycle(float)]
fn some_item_has_float(items: &Vec<Value>) -> bool
    ensures { result ≡ items_have_float (items_view items.now.items) }
{
    for item in items {
        if has_float(item) {
            return true;
        }
    }
    false
}

#[cycle(float)]
fn some_member_has_float(members: &Map<String, Value>) -> bool
    ensures { result ≡ members_have_float (members_view members.now.entries) }
{
    for (_key, member) in members {
        if has_float(member) {
            return true;
        }
    }
    false
}
