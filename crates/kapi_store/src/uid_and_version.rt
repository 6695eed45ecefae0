//! What a write sets in the metadata of an object.

ghost use Rattle.std.specs.Prelude.{◌≡◌, ◌<◌, ◌^◌, None, IfOk, IfSome, string_bytes};
ghost use Rattle.serde_json.specs.Read.{read};
ghost use Rattle.serde_json.specs.Written.{compact_text};
ghost use Rattle.std.specs.Bool.{Decides};
ghost use Rattle.std.specs.Fmt.{decimal};
ghost use Rattle.kapi_object.specs.Object.{tree_of};
ghost use Rattle.kapi_store.specs.UidAndVersion.{uid_of, created_tree, replaced_tree};
ghost use Rattle.kapi_store.specs.Plain.{admits as admits_of, admitted as admitted_of};
ghost use Rattle.kapi_text.specs.ResultIs.{ResultIs};
ghost use Rattle.kapi_store.specs.Faults.{fault_of};
ghost use Rattle.kapi_store.specs.Same.{same_tree};
ghost use Rattle.kapi_store.specs.UidAndVersion.{with_stamps_of as with_stamps_of_tree};
ghost use Rattle.kapi_store.specs.Stored.{stored_tree};

use crate::change::Shared;
use crate::cut::is_near;
use crate::error::StoreError;
use crate::written::Written;
use kapi_object::{GivenText, Object};
use kapi_text::{Memory, Text};
use std::alloc::Global;

/// The unique id of the object that a revision created, in the form of a UUID (RFC 9562).
pub fn uid(alloc: Global, revision: u64) -> Result<String, Memory>
    requires { revision < 2 ^ 48 }
    ensures { IfOk result (λ s. string_bytes s ≡ uid_of revision) }
{
    let mut text = String::with_capacity(alloc, 36)?;
    write!(text, "00000000-0000-4000-8000-{revision:012x}")?;
    Ok(text)
}

/// The version that a revision gives.
pub fn version(alloc: Global, revision: u64) -> Result<String, Memory>
    ensures { IfOk result (λ s. string_bytes s ≡ decimal revision) }
{
    format!(in alloc; "{revision}")
}

/// The object as the revision creates it.
pub(crate) fn created(alloc: Global, object: Object, revision: u64) -> Result<Written, Memory>
    requires { revision < 2 ^ 48 }
    ensures tree { IfOk result (λ w. stored_tree w.stored ≡ created_tree revision (tree_of object)) }
    ensures same { IfOk result (λ w. stored_tree w.stored ≡ tree_of w.object) }
{
    Written::stamped(alloc, object, revision, revision)
}

/// The object if nothing else is changed: with the old one's unique id and version.
pub fn with_stamps_of(alloc: Global, object: Object, old: &Shared) -> Result<Object, Memory>
    ensures { IfOk result (λ o. tree_of o ≡ with_stamps_of_tree (stored_tree old.now) (tree_of object)) }
{
    let old = old.get();
    let (uid, version) = (old.uid(alloc)?, old.version(alloc)?);
    object.stamped(alloc, uid, version)
}

/// The object's text: compact, keys in the order of their bytes.
pub fn text_of(alloc: Global, object: &Object) -> Result<Text, Memory>
    ensures text { IfOk result (λ t. t ≡ compact_text (tree_of object.now)) }
    ensures reads { IfOk result (λ t. read t ≡ Some (tree_of object.now)) }
{
    let mut text = object.as_tree().to_string(alloc)?;
    text.shrink_to_fit();
    Ok(Text::new(text))
}

/// Whether an object is the old one.
pub fn is_unchanged(alloc: Global, object: &Object, old: &Shared) -> Result<bool, Memory>
    ensures test { IfOk result (λ b. b ≡ same_tree (tree_of object.now) (stored_tree old.now)) }
    ensures decides { IfOk result (λ b. Decides b (tree_of object.now ≡ stored_tree old.now)) }
{
    let text = object.as_tree().to_string(alloc)?;
    Ok(text.as_str() == old.get().text())
}

/// The object in the place of the old one, at the version of a revision.
fn in_place_of(
    alloc: Global,
    object: Object,
    old: &Shared,
    revision: u64,
) -> Result<Written, Memory>
    ensures tree { IfOk result (λ w. stored_tree w.stored ≡ replaced_tree revision (stored_tree old.now) (tree_of object)) }
    ensures same { IfOk result (λ w. stored_tree w.stored ≡ tree_of w.object) }
{
    let written = Written::stamped(alloc, object, old.get().created(), revision)?;
    Ok(written)
}

/// The object in the place of the old one, at the version of a revision; none if all else of it is that of the old
/// one. Texts that differ in more than a number are found at once, so the object is written once.
pub(crate) fn replacing(
    alloc: Global,
    object: Object,
    old: &Shared,
    revision: u64,
) -> Result<Option<Written>, Memory>
    ensures none { IfOk result (λ o. o ≡ None → with_stamps_of_tree (stored_tree old.now) (tree_of object) ≡ stored_tree old.now) }
    ensures other { IfOk result (λ o. IfSome o (λ w. with_stamps_of_tree (stored_tree old.now) (tree_of object) ≡ stored_tree old.now → ⊥)) }
    ensures tree { IfOk result (λ o. IfSome o (λ w. stored_tree w.stored ≡ replaced_tree revision (stored_tree old.now) (tree_of object))) }
    ensures same { IfOk result (λ o. IfSome o (λ w. stored_tree w.stored ≡ tree_of w.object)) }
{
    let written = in_place_of(alloc, object, old, revision)?;
    if !is_near(
        written.stored.text().as_bytes(),
        old.get().text().as_bytes(),
    ) {
        return Ok(Some(written));
    }
    let object = with_stamps_of(alloc, written.into_object(), old)?;
    if is_unchanged(alloc, &object, old)? {
        return Ok(None);
    }
    let again = in_place_of(alloc, object, old, revision)?;
    Ok(Some(again))
}

/// Whether a write with this given version may change the object of the current one.
pub fn admits(current: &str, given: &GivenText) -> bool
    ensures { result ≡ admits_of current.now given.now }
{
    match given {
        GivenText::Absent => true,
        GivenText::Text(version) => version.as_str().is_empty() || version.as_str() == current,
        GivenText::Mistyped => false,
    }
}

/// The stored object, if the given version admits a write.
pub fn admitted<'a>(
    alloc: Global,
    object: &'a Shared,
    given: &GivenText,
) -> Result<&'a Shared, StoreError>
    ensures gives { ResultIs fault_of (λ o. stored_tree o.now) result (admitted_of (Some (stored_tree object.now)) given.now) }
    ensures same { IfOk result (λ o. o.now ≡ object.now) }
{
    let current = Text::new(object.get().version(alloc)?);
    if !admits(current.as_str(), given) {
        return Err(StoreError::Conflict(current));
    }
    Ok(object)
}
