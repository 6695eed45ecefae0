//! The labels of a tree.

ghost use Rattle.std.specs.Prelude.{◌≡◌, ◌++◌, IfOk, OnOk};
ghost use Rattle.serde_json.specs.View.{view, members_view};
ghost use Rattle.kapi_store.specs.Private.Alike.{same_label, same_labels};
ghost use Rattle.kapi_store.specs.Labels.{label_of, labels_among, labels_of as labels_of_tree};

use kapi_model::Label;
use kapi_object::tree::in_metadata;
use kapi_text::{Memory, Sequence, Text};
use serde_json::{Map, Value};
use std::alloc::Global;

fn push_label(
    alloc: Global,
    labels: &mut Vec<Label>,
    key: &str,
    value: &Value,
) -> Result<(), Memory>
    ensures { OnOk result (labels.new.items ≡ labels.old.items ++ label_of key.now (view value.now)) }
{
    if let Value::String(text) = value {
        labels.push(Label {
            key: Text::copy_of(alloc, key)?,
            value: Text::copy_of(alloc, text.as_str())?,
        })?;
    }
    Ok(())
}

fn labels_among_members(alloc: Global, members: &Map<String, Value>) -> Result<Vec<Label>, Memory>
    ensures { IfOk result (λ v. v.items ≡ labels_among (members_view members.now.entries)) }
{
    let mut labels = Vec::with_capacity(alloc, members.len())?;
    for (key, value) in members {
        push_label(alloc, &mut labels, key.as_str(), value)?;
    }
    Ok(labels)
}

/// The labels of a tree that are texts, in the order of their keys; allocates nothing if there is none.
pub(crate) fn labels_of(alloc: Global, tree: &Value) -> Result<Sequence<Label>, Memory>
    ensures { IfOk result (λ s. s ≡ labels_of_tree (view tree.now)) }
{
    match in_metadata(tree, "labels") {
        Some(Value::Object(members)) => Ok(Sequence::new(labels_among_members(alloc, members)?)),
        _other => Ok(Sequence::new(Vec::new(alloc))),
    }
}

/// Whether the labels have the same key and the same value.
fn is_same(a: &Label, b: &Label) -> bool
    ensures { result ≡ same_label a.now b.now }
{
    a.key == b.key && a.value == b.value
}

/// Whether the lists have the same labels, in the same order. Allocates nothing.
pub(crate) fn are_same(a: &[Label], b: &[Label]) -> bool
    ensures { result ≡ same_labels a.now b.now }
{
    let mut left = a;
    let mut right = b;
    while let [x, xs @ ..] = left {
        let [y, ys @ ..] = right else {
            return false;
        };
        if !is_same(x, y) {
            return false;
        }
        left = xs;
        right = ys;
    }
    right.is_empty()
}
