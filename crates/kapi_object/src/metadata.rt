ghost use Rattle.std.specs.Prelude.{◌≡◌, codes, ◌++◌, ◌∷◌, [], Some, OnOk, IfOk};
ghost use Rattle.kapi_object.specs.Tree.{member_of};
ghost use Rattle.serde_json.specs.View.{view, members_view};
ghost use Rattle.kapi_model.specs.FaultKind.{fault};
ghost use Rattle.kapi_object.specs.Faults.{faults_in, faults_of, metadata_faults, key_of, field_of};
ghost use Rattle.kapi_object.specs.Faults as wrong;

use crate::tree::{member, member_of_metadata};
use kapi_model::names::{check_label_key, check_label_value};
use kapi_model::{FaultKind, FieldFault};
use kapi_text::{Memory, Text};
use serde_json::{Map, Value};
use std::alloc::Global;

/// The two sorts of entries that metadata has.
#[derive(Clone, Copy, PartialEq, Eq)]
pub enum Entries {
    Labels,
    Annotations,
}

/// The member of the metadata that holds the entries.
fn entries_key(sort: Entries) -> &'static str
    ensures { result.now ≡ key_of sort }
{
    match sort {
        Entries::Labels => "labels",
        Entries::Annotations => "annotations",
    }
}

/// The field at which a fault of an entry is reported.
fn entries_field(sort: Entries) -> &'static str
    ensures { result.now ≡ field_of sort }
{
    match sort {
        Entries::Labels => "metadata.labels",
        Entries::Annotations => "metadata.annotations",
    }
}

/// Whether the key and the text are an entry.
fn is_entry(sort: Entries, key: &str, text: &str) -> bool
    ensures { result ≡ wrong.is_entry sort key.now text.now }
{
    match sort {
        Entries::Labels => check_label_key(key) && check_label_value(text),
        Entries::Annotations => check_label_key(key),
    }
}

/// Adds a fault.
pub fn push_fault(
    alloc: Global,
    faults: &mut Vec<FieldFault>,
    field: &str,
    cause: FaultKind,
) -> Result<(), Memory>
    ensures { OnOk result (faults.new.items ≡ faults.old.items ++ fault field.now cause ∷ []) }
{
    let field = Text::copy_of(alloc, field)?;
    faults.push(FieldFault { field, cause })?;
    Ok(())
}

/// Adds what is wrong with one entry, if anything, at the field.
#[tactic(auto, unfolding(crate::specs::Faults::entry_faults))]
fn push_entry_faults(
    alloc: Global,
    faults: &mut Vec<FieldFault>,
    sort: Entries,
    field: &str,
    key: &str,
    value: &Value,
) -> Result<(), Memory>
    ensures { OnOk result (faults.new.items
        ≡ faults.old.items ++ wrong.entry_faults sort field.now key.now (view value.now)) }
{
    match value {
        Value::String(text) => {
            if is_entry(sort, key, text.as_str()) {
                Ok(())
            } else {
                push_fault(alloc, faults, field, FaultKind::BadValue)
            }
        }
        _other => push_fault(alloc, faults, field, FaultKind::WrongType),
    }
}

/// Adds what is wrong with each entry, by key.
#[tactic(auto, using(std::proofs::Common::append_assoc), unfolding(crate::specs::Faults::members_faults))]
fn push_members_faults(
    alloc: Global,
    faults: &mut Vec<FieldFault>,
    sort: Entries,
    field: &str,
    members: &Map<String, Value>,
) -> Result<(), Memory>
    ensures { OnOk result (faults.new.items
        ≡ faults.old.items ++ wrong.members_faults sort field.now (members_view members.now.entries)) }
{
    for (key, value) in members {
        push_entry_faults(alloc, faults, sort, field, key.as_str(), value)?;
    }
    Ok(())
}

/// Adds what is wrong with the value if entries are expected.
#[tactic(auto, unfolding(crate::specs::Faults::entries_faults))]
pub fn push_entries_faults(
    alloc: Global,
    faults: &mut Vec<FieldFault>,
    sort: Entries,
    field: &str,
    value: &Value,
) -> Result<(), Memory>
    ensures { OnOk result (faults.new.items
        ≡ faults.old.items ++ wrong.entries_faults sort field.now (Some (view value.now))) }
{
    match value {
        Value::Object(members) => push_members_faults(alloc, faults, sort, field, members),
        _other => push_fault(alloc, faults, field, FaultKind::WrongType),
    }
}

/// Adds what is wrong with the labels or the annotations of a tree.
#[tactic(auto, unfolding(crate::specs::Faults::entries_faults))]
fn push_faults_in(
    alloc: Global,
    faults: &mut Vec<FieldFault>,
    sort: Entries,
    tree: &Value,
) -> Result<(), Memory>
    ensures { OnOk result (faults.new.items ≡ faults.old.items ++ faults_in sort (view tree.now)) }
{
    match member_of_metadata(tree, entries_key(sort)) {
        Some(value) => push_entries_faults(alloc, faults, sort, entries_field(sort), value),
        None => Ok(()),
    }
}

/// Adds what is wrong with the value if the metadata is expected.
fn push_value_fault(
    alloc: Global,
    faults: &mut Vec<FieldFault>,
    value: &Value,
) -> Result<(), Memory>
    ensures { OnOk result (faults.new.items ≡ faults.old.items ++ metadata_faults (Some (view value.now))) }
{
    match value {
        Value::Object(_members) => Ok(()),
        _other => push_fault(alloc, faults, "metadata", FaultKind::WrongType),
    }
}

fn push_metadata_fault(
    alloc: Global,
    faults: &mut Vec<FieldFault>,
    tree: &Value,
) -> Result<(), Memory>
    ensures { OnOk result (faults.new.items
        ≡ faults.old.items ++ metadata_faults (member_of (codes "metadata") (view tree.now))) }
{
    match member(tree, "metadata") {
        Some(value) => push_value_fault(alloc, faults, value),
        None => Ok(()),
    }
}

/// What is wrong with the metadata, in order.
#[tactic(auto, unfolding(crate::specs::Faults::faults_of))]
pub fn collect_metadata_faults(alloc: Global, tree: &Value) -> Result<Vec<FieldFault>, Memory>
    ensures { IfOk result (λ v. v.items ≡ faults_of (view tree.now)) }
{
    let mut faults = Vec::new(alloc);
    push_metadata_fault(alloc, &mut faults, tree)?;
    push_faults_in(alloc, &mut faults, Entries::Labels, tree)?;
    push_faults_in(alloc, &mut faults, Entries::Annotations, tree)?;
    Ok(faults)
}
