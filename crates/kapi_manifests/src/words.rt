//! The words that objects name: verbs and resources of rules, subjects of bindings, and namespaces; and their members that
//! nobody reads.

use crate::kinds::{is_namespace, metadata_text, text_at};
use kapi_model::ResourceRow;
use kapi_text::{Memory, Text};
use serde_json::Value;
use std::alloc::Global;
use std::collections::BTreeSet;

/// The kinds of objects whose members are known.
const POLICY: [&str; 4] = ["ClusterRole", "ClusterRoleBinding", "Role", "RoleBinding"];

/// Words of objects, each behind what it is, as `verb get`, `resource pods`, `namespace shop`, `User ann`, and
/// `unread Role shop/reader: resourceName in rules`.
#[derive(Drop)]
pub struct Words {
    named: BTreeSet<Text>,
}

impl Words {
    /// No words.
    pub fn new(alloc: Global) -> Words {
        Words {
            named: BTreeSet::new(alloc),
        }
    }

    /// Adds the words that an object names.
    pub fn add(&mut self, alloc: Global, object: &Value) -> Result<(), Memory> {
        for rule in elements(object, "rules") {
            for verb in elements(rule, "verbs") {
                self.insert(alloc, "verb", verb.as_str().unwrap_or(""))?;
            }
            for resource in elements(rule, "resources") {
                self.insert(alloc, "resource", resource.as_str().unwrap_or(""))?;
            }
        }
        for subject in elements(object, "subjects") {
            self.insert(alloc, text_at(subject, "kind"), text_at(subject, "name"))?;
        }
        let key = if is_namespace(object) {
            "name"
        } else {
            "namespace"
        };
        self.insert(alloc, "namespace", metadata_text(object, key))?;
        if POLICY.contains(&text_at(object, "kind")) {
            self.add_unread_parts(alloc, object)?;
        }
        Ok(())
    }

    /// Adds the members that are not read of a role or binding and of what it holds.
    fn add_unread_parts(&mut self, alloc: Global, object: &Value) -> Result<(), Memory> {
        self.add_unread(alloc, object, text_at(object, "kind"), Some(object))?;
        self.add_unread(alloc, object, "roleRef", object.get("roleRef"))?;
        self.add_unread_items(alloc, object, "rules", Some(object))?;
        self.add_unread_items(alloc, object, "subjects", Some(object))?;
        let aggregation = object.get("aggregationRule");
        self.add_unread(alloc, object, "aggregationRule", aggregation)?;
        self.add_unread_items(alloc, object, "clusterRoleSelectors", aggregation)?;
        for selector in items_of(aggregation, "clusterRoleSelectors") {
            self.add_unread_items(alloc, object, "matchExpressions", Some(selector))?;
        }
        Ok(())
    }

    fn add_unread_items(
        &mut self,
        alloc: Global,
        object: &Value,
        part: &str,
        holder: Option<&Value>,
    ) -> Result<(), Memory> {
        for item in items_of(holder, part) {
            self.add_unread(alloc, object, part, Some(item))?;
        }
        Ok(())
    }

    /// Adds the members that are not read of a part of an object.
    fn add_unread(
        &mut self,
        alloc: Global,
        object: &Value,
        part: &str,
        value: Option<&Value>,
    ) -> Result<(), Memory> {
        let Some(Value::Object(members)) = value else {
            return Ok(());
        };
        let (kind, name) = (text_at(object, "kind"), metadata_text(object, "name"));
        let namespace = metadata_text(object, "namespace");
        let slash = if namespace.is_empty() { "" } else { "/" };
        for (key, _value) in members {
            if !members_read(part).contains(&key.as_str()) {
                let word = format!(in alloc; "{kind} {namespace}{slash}{name}: {key} in {part}")?;
                self.insert(alloc, "unread", word.as_str())?;
            }
        }
        Ok(())
    }

    /// Adds the resource of a resource type that is served.
    pub fn add_served(&mut self, alloc: Global, row: &ResourceRow) -> Result<(), Memory> {
        self.insert(alloc, "resource", row.plural.as_str())
    }

    fn insert(&mut self, alloc: Global, what: &str, word: &str) -> Result<(), Memory> {
        let word = Text::new(format!(in alloc; "{what} {word}")?);
        self.named.insert(word)?;
        Ok(())
    }

    /// Whether the word is named as what it is.
    pub fn has(&self, alloc: Global, what: &str, word: &str) -> Result<bool, Memory> {
        let word = Text::new(format!(in alloc; "{what} {word}")?);
        Ok(self.named.contains(&word))
    }

    /// The words that are named as what that is, in order.
    pub fn of(&self, alloc: Global, what: &str) -> Result<Vec<&str>, Memory> {
        self.named
            .iter()
            .filter_map(|named| named.as_str().split_once(' '))
            .filter(|(sort, _word)| *sort == what)
            .map(|(_sort, word)| word)
            .collect(alloc)
    }
}

/// The members that are read of a role or binding, and of a part of it (Kubernetes API, rbac.authorization.k8s.io/v1).
fn members_read(part: &str) -> &'static [&'static str] {
    match part {
        "ClusterRole" => &["apiVersion", "kind", "metadata", "rules", "aggregationRule"],
        "Role" => &["apiVersion", "kind", "metadata", "rules"],
        "rules" => &[
            "verbs",
            "apiGroups",
            "resources",
            "resourceNames",
            "nonResourceURLs",
        ],
        "subjects" => &["kind", "apiGroup", "name", "namespace"],
        "roleRef" => &["apiGroup", "kind", "name"],
        "aggregationRule" => &["clusterRoleSelectors"],
        "clusterRoleSelectors" => &["matchLabels", "matchExpressions"],
        "matchExpressions" => &["key", "operator", "values"],
        _ => &["apiVersion", "kind", "metadata", "roleRef", "subjects"],
    }
}

/// The elements of the list at a key of what holds it, if that is there.
fn items_of<'a>(holder: Option<&'a Value>, key: &str) -> &'a [Value] {
    match holder {
        Some(holder) => elements(holder, key),
        None => &[],
    }
}

/// The elements of the list at a key; none if there is no list.
fn elements<'a>(object: &'a Value, key: &str) -> &'a [Value] {
    match object.get(key) {
        Some(Value::Array(items)) => items.as_slice(),
        _ => &[],
    }
}
