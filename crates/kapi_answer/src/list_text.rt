//! Lists of objects as JSON texts.
ghost use Rattle.std.specs.Prelude.{◌≡◌, ◌++◌, ◌∷◌, IfOk, OnOk, codes, map, string_bytes};
ghost use Rattle.json.specs.Print.{quoted};
ghost use Rattle.kapi_store.specs.Stored.{stored_tree};
ghost use Rattle.kapi_object.specs.Admission.{version_of};
ghost use Rattle.kapi_answer.specs.List.{list_tree};
ghost use Rattle.serde_json.specs.Data.{array};
ghost use Rattle.serde_json.specs.View.{items_of};
ghost use Rattle.serde_json.specs.Written.{comma_if, compact_text};

use kapi_model::ResourceRow;
use kapi_object::tree_form::quote;
use kapi_store::{Listed, StoredObject};
use kapi_text::Memory;
use std::alloc::Global;

/// A list of objects as JSON text (Kubernetes API conventions, 'Lists and Simple kinds'), at a revision. It is written
/// object by object: no tree is copied, and the time is linear in what it shows.
pub fn list_text(
    alloc: Global,
    row: &ResourceRow,
    listed: &[Listed<'_>],
    revision: u64,
) -> Result<Vec<u8>, Memory>
    ensures { IfOk result (λ b. b.items ≡ compact_text (list_tree row.now (map (λ l. stored_tree l.object.now) listed.now) revision)) }
{
    let version = api_version(alloc, row)?;
    let kind = list_kind(alloc, row)?;
    let revision = format!(in alloc; "{revision}")?;
    let mut text = Vec::new(alloc);
    push_member(alloc, &mut text, b"{", "apiVersion", version.as_str())?;
    text.extend_from_slice(br#","items":"#)?;
    push_array(&mut text, listed)?;
    push_member(alloc, &mut text, b",", "kind", kind.as_str())?;
    push_member(
        alloc,
        &mut text,
        br#","metadata":{"#,
        "resourceVersion",
        revision.as_str(),
    )?;
    text.extend_from_slice(b"}}")?;
    Ok(text)
}

/// The `apiVersion` of objects of the resource type: with the group before the version, if the group has a name.
fn api_version(alloc: Global, row: &ResourceRow) -> Result<String, Memory>
    ensures { IfOk result (λ s. string_bytes s ≡ version_of row.now) }
{
    if row.group.as_str().is_empty() {
        return String::from_str(alloc, row.version.as_str());
    }
    let mut version = String::from_str(alloc, row.group.as_str())?;
    version.push_str("/")?;
    version.push_str(row.version.as_str())?;
    Ok(version)
}

/// The kind of a list of objects of the resource type.
fn list_kind(alloc: Global, row: &ResourceRow) -> Result<String, Memory>
    ensures { IfOk result (λ s. string_bytes s ≡ row.now.kind ++ codes "List") }
{
    let mut kind = String::from_str(alloc, row.kind.as_str())?;
    kind.push_str("List")?;
    Ok(kind)
}

/// Writes the objects as an array.
fn push_array(text: &mut Vec<u8>, listed: &[Listed<'_>]) -> Result<(), Memory>
    ensures { OnOk result (text.new.items ≡ text.old.items ++ compact_text (array (items_of (map (λ l. stored_tree l.object.now) listed.now)))) }
{
    text.push(b'[')?;
    let mut later = false;
    for one in listed {
        push_item(text, later, one.object.get())?;
        later = true;
    }
    text.push(b']')?;
    Ok(())
}

/// Writes a member whose value is a text behind the text so far: the key, a colon and the value.
fn push_member(
    alloc: Global,
    text: &mut Vec<u8>,
    before: &[u8],
    key: &str,
    value: &str,
) -> Result<(), Memory>
    ensures { OnOk result (text.new.items ≡ text.old.items ++ (before.now ++ (quoted key.now ++ 58 ∷ quoted value.now))) }
{
    text.extend_from_slice(before)?;
    push_text(alloc, text, key)?;
    text.push(b':')?;
    push_text(alloc, text, value)
}

/// Writes a text as a JSON string.
fn push_text(alloc: Global, text: &mut Vec<u8>, value: &str) -> Result<(), Memory>
    ensures { OnOk result (text.new.items ≡ text.old.items ++ quoted value.now) }
{
    let quoted = quote(alloc, value)?;
    text.extend_from_slice(quoted.as_slice())
}

/// Writes an object as an item of an array: after a comma, if an item comes before it.
fn push_item(text: &mut Vec<u8>, later: bool, object: &StoredObject) -> Result<(), Memory>
    ensures { OnOk result (text.new.items ≡ text.old.items ++ (comma_if later ++ compact_text (stored_tree object.now))) }
{
    if later {
        text.push(b',')?;
    }
    text.extend_from_slice(object.text().as_bytes())
}
