ghost use Rattle.std.specs.Prelude.{◌≡◌, ◌++◌, List, ℕ, true, Some, OnOk};
ghost use Rattle.serde_json.specs.Data.{Data};
ghost use Rattle.serde_json.specs.View.{view, items_view};
ghost use Rattle.kapi_model.specs.declared.fault.FieldFault.{FieldFault as Fault};
ghost use Rattle.kapi_object.specs.Typed.{need_faults, items_faults, list_faults, list_faults_at};
ghost use Rattle.kapi_object.specs.Tree.{member_of};
ghost use Rattle.kapi_object.specs.Typed as typed;
ghost use Rattle.kapi_object.specs.Tree as trees;

use crate::metadata::push_fault;
use crate::path::{item_path, member_path};
use crate::text_rule::{TextRule, push_text_faults};
use crate::tree::member;
use crate::tree_form::is_empty;
use kapi_model::{FaultKind, FieldFault};
use kapi_text::Memory;
use serde_json::Value;
use std::alloc::Global;

/// Whether a list may be empty.
#[derive(Clone, Copy)]
pub enum Presence {
    /// The list must have an element.
    Required,
    /// The list may be absent or empty.
    Optional,
    /// The list must be absent or empty.
    Forbidden,
}

/// A sort of elements of lists.
pub trait Element {
    ghost faults_of: { Self → List ℕ → Data → List Fault };

    /// Adds what is wrong with an element at the path.
    fn push_faults(
        &self,
        alloc: Global,
        faults: &mut Vec<FieldFault>,
        path: &str,
        value: &Value,
    ) -> Result<(), Memory>
        ensures { OnOk result (faults.new.items ≡ faults.old.items ++ faults_of self.now path.now (view value.now)) };
}

impl Element for TextRule {
    ghost use Rattle.kapi_object.specs.Typed.{text_item_faults};

    ghost faults_of = { text_item_faults };

    fn push_faults(
        &self,
        alloc: Global,
        faults: &mut Vec<FieldFault>,
        path: &str,
        value: &Value,
    ) -> Result<(), Memory> {
        push_text_faults(alloc, faults, *self, path, value)
    }
}

/// Whether the member of a key is anything but an empty list.
pub fn is_given(tree: &Value, key: &str) -> bool
    ensures { result ≡ typed.is_given (member_of key.now (view tree.now)) }
{
    match member(tree, key) {
        Some(Value::Array(items)) => !is_empty(items),
        Some(_other) => true,
        None => false,
    }
}

/// Adds what is wrong with a list for being empty or not.
pub fn push_need_faults(
    alloc: Global,
    faults: &mut Vec<FieldFault>,
    need: Presence,
    is_empty: bool,
    path: &str,
) -> Result<(), Memory>
    ensures { OnOk result (faults.new.items ≡ faults.old.items ++ need_faults need is_empty path.now) }
{
    match (need, is_empty) {
        (Presence::Required, true) => push_fault(alloc, faults, path, FaultKind::Required),
        (Presence::Forbidden, false) => push_fault(alloc, faults, path, FaultKind::NotAllowedHere),
        _other => Ok(()),
    }
}

/// Adds what is wrong with each element, by index.
#[tactic(auto, using(std::proofs::Common::append_assoc), unfolding(crate::specs::Typed::items_faults))]
fn push_items_faults<E: Element>(
    alloc: Global,
    faults: &mut Vec<FieldFault>,
    element: &E,
    path: &str,
    items: &Vec<Value>,
) -> Result<(), Memory>
    ensures { OnOk result (faults.new.items
        ≡ faults.old.items ++ items_faults (E.faults_of element.now) path.now 0 (items_view items.now.items)) }
{
    for (index, value) in items.iter().enumerate() {
        let item = item_path(alloc, path, index)?;
        element.push_faults(alloc, faults, item.as_str(), value)?;
    }
    Ok(())
}

/// Adds what is wrong with a list and with its elements.
fn push_array_faults<E: Element>(
    alloc: Global,
    faults: &mut Vec<FieldFault>,
    element: &E,
    need: Presence,
    path: &str,
    items: &Vec<Value>,
) -> Result<(), Memory>
    ensures { OnOk result (faults.new.items ≡ faults.old.items
        ++ (need_faults need (trees.is_empty (items_view items.now.items)) path.now
        ++ items_faults (E.faults_of element.now) path.now 0 (items_view items.now.items))) }
{
    push_need_faults(alloc, faults, need, is_empty(items), path)?;
    push_items_faults(alloc, faults, element, path, items)
}

/// Adds what is wrong with a value if a list is expected.
#[tactic(auto, unfolding(crate::specs::Typed::list_faults))]
fn push_list_faults<E: Element>(
    alloc: Global,
    faults: &mut Vec<FieldFault>,
    element: &E,
    need: Presence,
    path: &str,
    value: &Value,
) -> Result<(), Memory>
    ensures { OnOk result (faults.new.items
        ≡ faults.old.items ++ list_faults (E.faults_of element.now) need path.now (Some (view value.now))) }
{
    match value {
        Value::Array(items) => push_array_faults(alloc, faults, element, need, path, items),
        _other => push_fault(alloc, faults, path, FaultKind::WrongType),
    }
}

/// Adds what is wrong with the list that is the member of a key.
#[tactic(auto, unfolding(crate::specs::Typed::list_faults))]
pub fn push_list_faults_at<E: Element>(
    alloc: Global,
    faults: &mut Vec<FieldFault>,
    element: &E,
    need: Presence,
    path: &str,
    key: &str,
    tree: &Value,
) -> Result<(), Memory>
    ensures { OnOk result (faults.new.items
        ≡ faults.old.items ++ list_faults_at (E.faults_of element.now) need path.now key.now (view tree.now)) }
{
    let field = member_path(alloc, path, key)?;
    match member(tree, key) {
        Some(value) => push_list_faults(alloc, faults, element, need, field.as_str(), value),
        None => push_need_faults(alloc, faults, need, true, field.as_str()),
    }
}
