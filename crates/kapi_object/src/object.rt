ghost use Rattle.std.specs.Prelude.{◌≡◌, ◌≤◌, true, false};
ghost use Rattle.serde_json.specs.Data.{depth};
ghost use Rattle.serde_json.specs.Read.{max_depth};
ghost use Rattle.serde_json.specs.View.{view};
ghost use Rattle.serde_json.specs.Written.{has_float};
ghost use Rattle.kapi_object.specs.Order.{is_ordered};

use crate::body_fields::{Given, given_in};
use crate::tree::{has_text, with_content, with_member_of, with_text, without_member};
use kapi_text::Memory;
use serde_json::{Map, Value};
use std::alloc::Global;

/// A declared object: a JSON tree (RFC 8259) whose numbers are integers. The members of each JSON object are in the
/// order of their keys. It nests no deeper than a text that is read as JSON.
#[derive(Drop)]
pub struct Object {
    tree: Value,
    ghost whole: { has_float (view tree) ≡ false },
    ghost ordered: { is_ordered (view tree) ≡ true },
    ghost nests: { depth (view tree) ≤ max_depth },
}

impl Object {
    ghost use Rattle.std.specs.Prelude.{◌≡◌, ◌≤◌, ◌<◌, true, false, codes, IfOk, string_bytes};
    ghost use Rattle.serde_json.specs.Data.{depth, members_depth};
    ghost use Rattle.serde_json.specs.Read.{max_depth};
    ghost use Rattle.serde_json.specs.View.{view, members_view};
    ghost use Rattle.serde_json.specs.Written.{compact_text, members_have_float};
    ghost use Rattle.kapi_object.specs.Given.{given_of};
    ghost use Rattle.kapi_object.specs.Object.{tree_of, stamped_tree};
    ghost use Rattle.kapi_object.specs.Order.{is_ordered, in_order};
    ghost use Rattle.kapi_object.specs.Tree as trees;

    /// The object of an ordered tree without floats, no deeper than a tree that is read.
    pub fn new(tree: Value) -> Object
        requires whole { has_float (view tree) ≡ false }
        requires ordered { is_ordered (view tree) ≡ true }
        requires nests { depth (view tree) ≤ max_depth }
        ensures { tree_of result ≡ view tree }
    {
        Object { tree }
    }

    /// The object's tree as JSON text: compact, keys in the order of their bytes.
    pub fn render(&self, alloc: Global) -> Result<Vec<u8>, Memory>
        ensures text { IfOk result (λ b. b.items ≡ compact_text (tree_of self.now)) }
        ensures ordered { is_ordered (tree_of self.now) ≡ true }
    {
        self.tree.to_vec(alloc)
    }

    /// What the object's metadata specifies as its name, its namespace and its resource version.
    pub fn given(&self, alloc: Global) -> Result<Given, Memory>
        ensures { IfOk result (λ g. g ≡ given_of (tree_of self.now)) }
    {
        given_in(alloc, &self.tree)
    }

    /// The object's tree, borrowed; allocates nothing.
    pub fn as_tree(&self) -> &Value
        ensures { view result.now ≡ tree_of self.now }
    {
        &self.tree
    }

    /// The object of the same version, kind and metadata that has these members beside them, and no other.
    pub fn with_content(&self, alloc: Global, content: Map<String, Value>) -> Result<Object, Memory>
        requires whole { members_have_float (members_view content.entries) ≡ false }
        requires ordered { in_order (members_view content.entries) ≡ true }
        requires nests { members_depth (members_view content.entries) < max_depth }
        ensures { IfOk result (λ o. tree_of o ≡ trees.with_content (members_view content.entries) (tree_of self.now)) }
    {
        Ok(Object {
            tree: with_content(alloc, &self.tree, content)?,
        })
    }

    /// The object without its member `status`; allocates nothing.
    pub fn without_status(self) -> Object
        ensures { tree_of result ≡ trees.without_member (codes "status") (tree_of self) }
    {
        Object {
            tree: without_member(self.tree, "status"),
        }
    }

    /// The object with another's status, and without one if the other has none (Kubernetes API conventions, 'Spec
    /// and Status').
    pub fn with_status_of(self, alloc: Global, other: &Object) -> Result<Object, Memory>
        ensures { IfOk result (λ o. tree_of o ≡ trees.with_member_of (codes "status") (tree_of other.now) (tree_of self)) }
    {
        Ok(Object {
            tree: with_member_of(alloc, self.tree, "status", &other.tree)?,
        })
    }

    /// The object with one text set in its metadata.
    fn with_text(self, alloc: Global, key: &str, text: String) -> Result<Object, Memory>
        ensures { IfOk result (λ o. tree_of o ≡ trees.with_text key.now (string_bytes text) (tree_of self)) }
    {
        Ok(Object {
            tree: with_text(alloc, self.tree, key, text)?,
        })
    }

    /// The object with a copy of one text set in its metadata; nothing is copied if the text is there already.
    fn with_copied_text(self, alloc: Global, key: &str, text: &str) -> Result<Object, Memory>
        ensures { IfOk result (λ o. tree_of o ≡ trees.with_text key.now text.now (tree_of self)) }
    {
        if has_text(&self.tree, key, text) {
            return Ok(self);
        }
        self.with_text(alloc, key, String::from_str(alloc, text)?)
    }

    /// The object with a name: with that text as `metadata.name`.
    pub fn named(self, alloc: Global, name: &str) -> Result<Object, Memory>
        ensures { IfOk result (λ o. tree_of o ≡ trees.with_text (codes "name") name.now (tree_of self)) }
    {
        self.with_copied_text(alloc, "name", name)
    }

    /// The object in a namespace: with that text as `metadata.namespace`.
    pub fn in_namespace(self, alloc: Global, namespace: &str) -> Result<Object, Memory>
        ensures { IfOk result (λ o. tree_of o ≡ trees.with_text (codes "namespace") namespace.now (tree_of self)) }
    {
        self.with_copied_text(alloc, "namespace", namespace)
    }

    /// The object as a write leaves it: with its unique id and its resource version.
    pub fn stamped(self, alloc: Global, uid: String, version: String) -> Result<Object, Memory>
        ensures { IfOk result (λ o. tree_of o ≡ stamped_tree (string_bytes uid) (string_bytes version) (tree_of self)) }
    {
        self.with_text(alloc, "uid", uid)?.versioned(alloc, version)
    }

    /// The object at a version: with that text as `metadata.resourceVersion`.
    pub fn versioned(self, alloc: Global, version: String) -> Result<Object, Memory>
        ensures { IfOk result (λ o. tree_of o ≡ trees.with_text (codes "resourceVersion") (string_bytes version) (tree_of self)) }
    {
        self.with_text(alloc, "resourceVersion", version)
    }
}
