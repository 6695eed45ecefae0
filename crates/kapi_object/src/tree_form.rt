ghost use Rattle.std.specs.Prelude.{◌≡◌, IfOk, OnOk};
ghost use Rattle.json.specs.Print.{quoted};
ghost use Rattle.serde_json.specs.Data.{Data, string};
ghost use Rattle.serde_json.specs.Data.{put as put_member};
ghost use Rattle.serde_json.specs.View.{view, items_view, members_view};
ghost use Rattle.kapi_object.specs.Tree as trees;
ghost use Rattle.kapi_object.specs.Contents as form;
ghost use Rattle.kapi_object.specs.Contents.{text_at, items_at};

use crate::tree::member;
use kapi_text::{Memory, Sequence, Text};
use serde_json::{Map, Value, put};
use std::alloc::Global;

/// A value that is read of a tree without faults.
pub trait FromTree {
    ghost read_of: { Data → Self };

    /// What the tree is read as.
    fn read(alloc: Global, tree: &Value) -> Result<Self, Memory>
        ensures { IfOk result (λ x. x ≡ read_of (view tree.now)) };
}

/// A value that is written as a tree.
pub trait ToTree {
    ghost tree_of: { Self → Data };

    /// The tree that the value is written as.
    fn to_tree(&self, alloc: Global) -> Result<Value, Memory>
        ensures { IfOk result (λ v. view v ≡ tree_of self.now) };
}

/// Whether a list has no elements.
#[tactic(auto, using(crate::proofs::Lists::no_items_left))]
pub fn is_empty(items: &Vec<Value>) -> bool
    ensures { result ≡ trees.is_empty (items_view items.now.items) }
{
    items.len() == 0
}

/// A text as a tree.
pub fn text_value(alloc: Global, text: &str) -> Result<Value, Memory>
    ensures { IfOk result (λ v. view v ≡ string text.now) }
{
    Ok(Value::String(String::from_str(alloc, text)?))
}

/// A text as a JSON string.
pub fn quote(alloc: Global, text: &str) -> Result<Vec<u8>, Memory>
    ensures { IfOk result (λ b. b.items ≡ quoted text.now) }
{
    Value::try_from_str(alloc, text)?.to_vec(alloc)
}

impl FromTree for Text {
    ghost use Rattle.kapi_object.specs.Contents.{text_of};

    ghost read_of = { text_of };

    fn read(alloc: Global, tree: &Value) -> Result<Text, Memory> {
        match tree {
            Value::String(text) => Text::copy_of(alloc, text.as_str()),
            _other => Text::copy_of(alloc, ""),
        }
    }
}

impl ToTree for Text {
    ghost use Rattle.serde_json.specs.Data.{string};

    ghost tree_of = { string };

    fn to_tree(&self, alloc: Global) -> Result<Value, Memory> {
        text_value(alloc, self.as_str())
    }
}

/// The text that is the member of a key; an absent one is empty.
pub fn read_text(alloc: Global, tree: &Value, key: &str) -> Result<Text, Memory>
    ensures { IfOk result (λ t. t ≡ text_at key.now (view tree.now)) }
{
    match member(tree, key) {
        Some(value) => Text::read(alloc, value),
        None => Text::copy_of(alloc, ""),
    }
}

/// What each element is read as.
fn read_items<T: FromTree + Drop>(alloc: Global, items: &Vec<Value>) -> Result<Vec<T>, Memory>
    ensures { IfOk result (λ v. v.items ≡ form.read_items T.read_of (items_view items.now.items)) }
{
    let mut found = Vec::new(alloc);
    for item in items {
        found.push(T::read(alloc, item)?)?;
    }
    Ok(found)
}

/// What each element of the list that is the member of a key is read as; an absent list is empty.
pub fn read_list<T: FromTree + Drop>(
    alloc: Global,
    tree: &Value,
    key: &str,
) -> Result<Sequence<T>, Memory>
    ensures { IfOk result (λ s. s ≡ form.read_items T.read_of (items_at key.now (view tree.now))) }
{
    match member(tree, key) {
        Some(Value::Array(items)) => Ok(Sequence::new(read_items(alloc, items)?)),
        _other => Ok(Sequence::new(Vec::new(alloc))),
    }
}

/// The trees that the values are written as.
pub fn write_items<T: ToTree>(alloc: Global, values: &[T]) -> Result<Vec<Value>, Memory>
    ensures { IfOk result (λ v. items_view v.items ≡ form.write_items T.tree_of values.now) }
{
    let mut items = Vec::new(alloc);
    for value in values {
        items.push(value.to_tree(alloc)?)?;
    }
    Ok(items)
}

/// Puts a text at a key, also if it is empty.
pub fn put_string(
    alloc: Global,
    members: &mut Map<String, Value>,
    key: &str,
    text: &str,
) -> Result<(), Memory>
    ensures { OnOk result (members_view members.new.entries ≡ put_member key.now (string text.now) (members_view members.old.entries)) }
{
    put(members, alloc, key, text_value(alloc, text)?)
}

/// Puts a text at a key, unless it is empty.
pub fn put_text(
    alloc: Global,
    members: &mut Map<String, Value>,
    key: &str,
    text: &str,
) -> Result<(), Memory>
    ensures { OnOk result (members_view members.new.entries
        ≡ form.put_text key.now text.now (members_view members.old.entries)) }
{
    if text.is_empty() {
        return Ok(());
    }
    put_string(alloc, members, key, text)
}

/// Puts a list at a key, unless it is empty.
pub fn put_items(
    alloc: Global,
    members: &mut Map<String, Value>,
    key: &str,
    items: Vec<Value>,
) -> Result<(), Memory>
    ensures { OnOk result (members_view members.new.entries
        ≡ form.put_items key.now (items_view items.items) (members_view members.old.entries)) }
{
    if is_empty(&items) {
        return Ok(());
    }
    put(members, alloc, key, Value::Array(items))
}

/// Puts a list of texts at a key, unless it is empty.
pub fn put_texts(
    alloc: Global,
    members: &mut Map<String, Value>,
    key: &str,
    texts: &[Text],
) -> Result<(), Memory>
    ensures { OnOk result (members_view members.new.entries
        ≡ form.put_texts key.now texts.now (members_view members.old.entries)) }
{
    put_items(alloc, members, key, write_items(alloc, texts)?)
}
