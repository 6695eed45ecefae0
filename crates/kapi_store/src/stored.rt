ghost use Rattle.std.specs.Prelude.{◌≡◌, ◌<◌, ◌^◌, true, false, Some, codes, is_some, option_and_then};
ghost use Rattle.std.specs.Fmt.{decimal};
ghost use Rattle.serde_json.specs.Find.{as_str};
ghost use Rattle.serde_json.specs.Read.{read};
ghost use Rattle.serde_json.specs.Written.{compact_text, has_float};
ghost use Rattle.kapi_object.specs.Contents.{aggregation_in};
ghost use Rattle.kapi_object.specs.Tree.{in_metadata};
ghost use Rattle.kapi_store.specs.UidAndVersion.{uid_of};
ghost use Rattle.kapi_store.specs.Labels.{labels_of as labels_of_tree, told_by};

use crate::cut::{around, joined, version_text};
use crate::labels::{are_same, labels_of};
use crate::uid_and_version::{text_of, uid, version};
use kapi_model::{AggregationRule, Label, Labels, Selector};
use kapi_object::Object;
use kapi_object::selector_form::read_aggregation;
use kapi_text::{Memory, Sequence, Text};
use serde_json::Value;
use std::alloc::{AllocError, Global};

/// A declared object as it is kept: its JSON text, compact, with keys in the order of their bytes (RFC 8259). What is
/// asked for often stands beside it, so the text need not be read for it: labels with text values, the rule by which a
/// cluster role takes rules from others, and the revisions of the object's creation and last write.
#[derive(Drop)]
pub struct StoredObject {
    text: Text,
    labels: Sequence<Label>,
    aggregation_rule: Option<AggregationRule>,
    created: u64,
    revision: u64,
    ghost reads: { is_some (read text) ≡ true },
    ghost whole: { has_float (told_by text) ≡ false },
    ghost canonical: { text ≡ compact_text (told_by text) },
    ghost labelled: { labels ≡ labels_of_tree (told_by text) },
    ghost aggregated: { aggregation_rule ≡ aggregation_in (told_by text) },
    ghost born: { option_and_then as_str (in_metadata (codes "uid") (told_by text)) ≡ Some (uid_of created) },
    ghost versioned: { option_and_then as_str (in_metadata (codes "resourceVersion") (told_by text)) ≡ Some (decimal revision) },
    ghost numbered: { created < 2 ^ 48 },
}

impl StoredObject {
    ghost use Rattle.std.specs.Prelude.{◌≡◌, ◌<◌, ◌≤◌, ◌^◌, true, false, Some, codes, string_bytes, option_and_then, option_copied, IfOk};
    ghost use Rattle.std.specs.Bool.{Decides};
    ghost use Rattle.std.specs.Fmt.{decimal};
    ghost use Rattle.serde_json.specs.Find.{as_str};
    ghost use Rattle.serde_json.specs.View.{view};
    ghost use Rattle.serde_json.specs.Data.{depth};
    ghost use Rattle.serde_json.specs.Read.{max_depth};
    ghost use Rattle.serde_json.specs.Written.{compact_text, has_float};
    ghost use Rattle.kapi_model.specs.Selector.{label_in, matches, values_of};
    ghost use Rattle.kapi_object.specs.Object.{tree_of};
    ghost use Rattle.kapi_object.specs.Contents.{aggregation_in};
    ghost use Rattle.kapi_object.specs.Order.{is_ordered};
    ghost use Rattle.kapi_object.specs.Tree.{in_metadata};
    ghost use Rattle.kapi_store.specs.Gone.{at_version};
    ghost use Rattle.kapi_store.specs.UidAndVersion.{uid_of, uid_in, version_in};
    ghost use Rattle.kapi_store.specs.Stored.{stored_tree};
    ghost use Rattle.kapi_store.specs.Labels.{labels_of as labels_of_tree};

    /// The object as it is kept: it has the unique id of one revision and the version of another.
    pub(crate) fn kept(
        alloc: Global,
        object: &Object,
        created: u64,
        revision: u64,
    ) -> Result<StoredObject, Memory>
        requires numbered { created < 2 ^ 48 }
        requires born { option_and_then as_str (in_metadata (codes "uid") (tree_of object.now)) ≡ Some (uid_of created) }
        requires versioned { option_and_then as_str (in_metadata (codes "resourceVersion") (tree_of object.now)) ≡ Some (decimal revision) }
        ensures { IfOk result (λ s. stored_tree s ≡ tree_of object.now) }
    {
        Ok(StoredObject {
            text: text_of(alloc, object)?,
            labels: labels_of(alloc, object.as_tree())?,
            aggregation_rule: read_aggregation(alloc, object.as_tree())?,
            created,
            revision,
        })
    }

    /// The text of the object with a revision as its version; all else of it stays.
    pub(crate) fn text_at(&self, alloc: Global, revision: u64) -> Result<Text, Memory>
        ensures { IfOk result (λ t. t ≡ compact_text (at_version revision (stored_tree self.now))) }
    {
        let own = version_text(alloc, self.revision)?;
        match around(self.text.as_str(), own.as_str()) {
            Some((before, behind)) => {
                let other = version_text(alloc, revision)?;
                Ok(joined(alloc, before, other.as_str(), behind)?)
            }
            None => self.written_at(alloc, revision),
        }
    }

    /// The object's text at another revision, written from its tree.
    #[tactic(auto, using(crate::proofs::Versions::versioned_again))]
    fn written_at(&self, alloc: Global, revision: u64) -> Result<Text, Memory>
        ensures { IfOk result (λ t. t ≡ compact_text (at_version revision (stored_tree self.now))) }
    {
        let version = version(alloc, revision)?;
        let object = self.object(alloc)?;
        text_of(alloc, &object.versioned(alloc, version)?)
    }

    /// The revision that created the object.
    pub(crate) fn created(&self) -> u64
        ensures limit { result < 2 ^ 48 }
        ensures uid { uid_of result ≡ uid_in (stored_tree self.now) }
    {
        self.created
    }

    /// Whether the object has the labels of another.
    pub(crate) fn is_labelled_as(&self, other: &StoredObject) -> bool
        ensures { Decides result (labels_of_tree (stored_tree self.now) ≡ labels_of_tree (stored_tree other.now)) }
    {
        are_same(self.labels.as_slice(), other.labels.as_slice())
    }

    /// Whether the other object is equal. Labels and rule follow from the text, so they are not compared.
    pub(crate) fn is_same(&self, other: &StoredObject) -> bool
        ensures { Decides result (self.now ≡ other.now) }
    {
        self.revision == other.revision
            && (self.created == other.created && self.text == other.text)
    }

    /// The object as JSON text: compact, keys in the order of their bytes.
    pub fn text(&self) -> &str
        ensures { result.now ≡ compact_text (stored_tree self.now) }
    {
        self.text.as_str()
    }

    /// A copy of the object's text.
    pub fn render(&self, alloc: Global) -> Result<Vec<u8>, Memory>
        ensures { IfOk result (λ b. b.items ≡ compact_text (stored_tree self.now)) }
    {
        let text = self.text.as_str().as_bytes();
        let mut copy = Vec::with_capacity(alloc, text.len())?;
        copy.extend_from_slice(text)?;
        Ok(copy)
    }

    /// The object's tree, read of its text.
    #[tactic(auto, using(crate::proofs::Labelled::told_ordered))]
    pub fn tree(&self, alloc: Global) -> Result<Value, Memory>
        ensures tree { IfOk result (λ v. view v ≡ stored_tree self.now) }
        ensures whole { has_float (stored_tree self.now) ≡ false }
        ensures ordered { is_ordered (stored_tree self.now) ≡ true }
        ensures nests { IfOk result (λ v. depth (view v) ≤ max_depth) }
    {
        match Value::from_str(alloc, self.text.as_str()) {
            Ok(tree) => Ok(tree),
            Err(_memory) => Err(AllocError),
        }
    }

    /// The object, read of its text.
    pub fn object(&self, alloc: Global) -> Result<Object, Memory>
        ensures { IfOk result (λ o. tree_of o ≡ stored_tree self.now) }
    {
        Ok(Object::new(self.tree(alloc)?))
    }

    /// Whether the selector matches the object's labels; allocates nothing.
    pub fn is_selected(&self, selector: &Selector) -> bool
        ensures { result ≡ matches selector.now (in_metadata (codes "labels") (stored_tree self.now)) }
    {
        selector.matches(&self.labels())
    }

    /// The object's labels, borrowed.
    fn labels(&self) -> Labels<'_>
        ensures { values_of result ≡ label_in (in_metadata (codes "labels") (stored_tree self.now)) }
    {
        Labels::new(self.labels.as_slice())
    }

    /// The object's labels that are texts, in the order of their keys; allocates nothing.
    pub fn label_list(&self) -> &[Label]
        ensures { result.now ≡ labels_of_tree (stored_tree self.now) }
    {
        self.labels.as_slice()
    }

    /// The rule by which the object takes rules from others, if it is such a cluster role; allocates nothing.
    pub fn aggregation_rule(&self) -> Option<&AggregationRule>
        ensures { option_copied result ≡ aggregation_in (stored_tree self.now) }
    {
        self.aggregation_rule.as_ref()
    }

    /// The unique id.
    pub fn uid(&self, alloc: Global) -> Result<String, Memory>
        ensures { IfOk result (λ s. string_bytes s ≡ uid_in (stored_tree self.now)) }
    {
        uid(alloc, self.created)
    }

    /// The resource version.
    pub fn version(&self, alloc: Global) -> Result<String, Memory>
        ensures { IfOk result (λ s. string_bytes s ≡ version_in (stored_tree self.now)) }
    {
        version(alloc, self.revision)
    }
}
