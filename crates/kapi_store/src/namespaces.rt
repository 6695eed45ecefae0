//! The objects of a namespace.

ghost use Rattle.std.specs.Prelude.{◌≡◌, true, None, Some, IfOk};
ghost use Rattle.std.specs.List.{list_any};
ghost use Rattle.kapi_store.specs.Private.Hidden.{visible};
ghost use Rattle.kapi_store.specs.Plain.{Plain, has_namespace, is_namespace as is_namespace_of};
ghost use Rattle.kapi_store.specs.Private.Existing.{Exists};
ghost use Rattle.kapi_store.specs.declared.stored.StoredObject.{StoredObject};
ghost use Rattle.kapi_store.specs.Private.Span.{is_of as is_of_row, row_holds, namespace_start as namespace_start_of, namespace_end as namespace_end_of};

use crate::change::{Change, Shared};
use crate::key::Key;
use crate::listing::after;
use crate::rows::is_namespaced;
use crate::slots::{Hidden, is_hidden};
use kapi_model::ResourceRow;
use kapi_text::{Memory, Text, TryCopy};
use std::alloc::Global;
use std::collections::BTreeMap;

/// Whether the key is of a Namespace object.
pub fn is_namespace(key: &Key) -> bool
    ensures { result ≡ is_namespace_of key.now }
{
    key.group.as_str() == ""
        && (key.resource.as_str() == "namespaces" && key.namespace.as_str() == "")
}

/// Whether the key is of the resource type, in the namespace.
fn is_of(row: &ResourceRow, namespace: &Text, key: &Key) -> bool
    ensures { result ≡ is_of_row row.now namespace.now key.now }
{
    row.group == key.group && (row.plural == key.resource && key.namespace == *namespace)
}

/// The first key of the resource type in the namespace.
fn namespace_start(alloc: Global, row: &ResourceRow, namespace: &Text) -> Result<Key, Memory>
    ensures { IfOk result (λ k. k ≡ namespace_start_of row.now namespace.now) }
{
    Ok(Key {
        group: row.group.copy(alloc)?,
        resource: row.plural.copy(alloc)?,
        namespace: namespace.copy(alloc)?,
        name: Text::copy_of(alloc, "")?,
    })
}

/// The first key after all of the resource type in the namespace.
fn namespace_end(alloc: Global, row: &ResourceRow, namespace: &Text) -> Result<Key, Memory>
    ensures { IfOk result (λ k. k ≡ namespace_end_of row.now namespace.now) }
{
    Ok(Key {
        group: row.group.copy(alloc)?,
        resource: row.plural.copy(alloc)?,
        namespace: after(alloc, namespace.as_str())?,
        name: Text::copy_of(alloc, "")?,
    })
}

/// Whether the namespace holds an object of the resource type. No other object is read.
#[tactic(auto, unfolding(crate::specs::Private::Hidden::visible))]
fn stands_in(
    alloc: Global,
    slots: &BTreeMap<Key, Shared>,
    hidden: &Option<Hidden>,
    row: &ResourceRow,
    namespace: &Text,
) -> Result<bool, Memory>
    ensures { IfOk result (λ b. b ≡ list_any (λ e. is_of_row row.now namespace.now e.0) (visible hidden.now slots.now.entries)) }
{
    let start = namespace_start(alloc, row, namespace)?;
    let end = namespace_end(alloc, row, namespace)?;
    for (key, _object) in slots.range(&start..&end) {
        if !is_hidden(hidden, key) && is_of(row, namespace, key) {
            return Ok(true);
        }
    }
    Ok(false)
}

/// Whether the resource type is namespaced, and the namespace holds an object of it.
fn row_stands_in(
    alloc: Global,
    slots: &BTreeMap<Key, Shared>,
    hidden: &Option<Hidden>,
    row: &ResourceRow,
    namespace: &Text,
) -> Result<bool, Memory>
    ensures { IfOk result (λ b. b ≡ row_holds (visible hidden.now slots.now.entries) namespace.now row.now) }
{
    if row.namespaced {
        stands_in(alloc, slots, hidden, row, namespace)
    } else {
        Ok(false)
    }
}

/// Whether the namespace holds an object of one of the table's namespaced resource types.
pub fn any_stands_in(
    alloc: Global,
    slots: &BTreeMap<Key, Shared>,
    hidden: &Option<Hidden>,
    table: &[ResourceRow],
    namespace: &Text,
) -> Result<bool, Memory>
    ensures { IfOk result (λ b. b ≡ list_any (row_holds (visible hidden.now slots.now.entries) namespace.now) table.now) }
{
    for row in table {
        if row_stands_in(alloc, slots, hidden, row, namespace)? {
            return Ok(true);
        }
    }
    Ok(false)
}

/// Whether the namespace is the one that is known to exist.
pub fn is_known(known: &Option<Text>, namespace: &Text) -> bool
    ensures { (s : Plain) → Exists known.now s → result ≡ true → Exists (Some namespace.now) s }
{
    match known {
        Some(known) => known == namespace,
        None => false,
    }
}

/// Keeps the name of the key's namespace, which exists, if the key is in one.
pub fn keep_namespace(
    alloc: Global,
    table: &[ResourceRow],
    known: &mut Option<Text>,
    key: &Key,
) -> Result<(), Memory>
    ensures { (s : Plain) → s.table ≡ table.now → has_namespace key.now s ≡ true → Exists known.old s → Exists known.new s }
{
    if !is_known(known, &key.namespace) && is_namespaced(table, key) {
        *known = Some(key.namespace.copy(alloc)?);
    }
    Ok(())
}

/// Forgets the namespace that is known to exist if a change removes an object, which it may be.
pub fn forget_if_removed(known: &mut Option<Text>, change: &Change)
    ensures removed { change.now.new ≡ None → known.new ≡ None }
    ensures stays { (o : StoredObject) → change.now.new ≡ Some o → known.new ≡ known.old }
{
    if change.new.is_none() {
        *known = None;
    }
}
