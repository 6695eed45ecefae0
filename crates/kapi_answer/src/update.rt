//! The update of an object, whole or in its status, and its patch.
ghost use Rattle.std.specs.Prelude.{◌≡◌, ◌≤◌, Ok, Some, true, IfOk, IfSome};
ghost use Rattle.std.specs.Map.{lookup};
ghost use Rattle.serde_json.specs.Data.{depth};
ghost use Rattle.serde_json.specs.Read.{max_depth};
ghost use Rattle.serde_json.specs.View.{view};
ghost use Rattle.kapi_text.specs.ResultIs.{ResultIs, ◌>>=◌ as and_then};
ghost use Rattle.kapi_object.specs.Object.{tree_of};
ghost use Rattle.kapi_object.specs.Order.{is_ordered};
ghost use Rattle.kapi_object.specs.Merge.{merged};
ghost use Rattle.kapi_reply.specs.Refusals.{refused_by};
ghost use Rattle.kapi_store.specs.Keys.{is_key};
ghost use Rattle.kapi_store.specs.Plain.{plain_of};
ghost use Rattle.kapi_store.specs.State.{Fits};
ghost use Rattle.kapi_store.specs.Stored.{stored_tree};
ghost use Rattle.kapi_answer.specs.Create.{stored, valid};
ghost use Rattle.kapi_answer.specs.Responses.{IsReplaced, admitted_data, new_data, object_data, response_data};
ghost use Rattle.kapi_answer.specs.Update as updates;
ghost use Rattle.kapi_answer.specs.Update.{keeping_status, patch_of, replaces, to_patch, to_replace, to_update};

use crate::create::{
    Admitted, admit, bad_request, check_namespace, check_validity, is_as_in_path, read_body,
    refused, refused_by_store, text_after, with_namespace,
};
use crate::delete::existing;
use crate::response::{NewObject, Replacement, Response};
use crate::route::ObjectPart;
use kapi_http::StatusCode;
use kapi_model::{FieldFault, ResourceRow};
use kapi_object::{GivenText, Object, ObjectError, merge_patch, read_tree};
use kapi_reply::{BadRequestReason, CheckError, Content, Refusal};
use kapi_store::{Key, Shared, Store, StoredObject};
use kapi_text::{Memory, Sequence, Text, TryCopy};
use serde_json::Value;
use std::alloc::Global;

/// The checks of an update from its body on, in their order: body, name, namespace, existence and version, validity.
#[tactic(auto, unfolding(crate::specs::Update::to_update))]
pub fn check_update(
    alloc: Global,
    store: &Store,
    row: &ResourceRow,
    part: ObjectPart,
    key: Key,
    body: &[u8],
) -> Result<Replacement, CheckError>
    ensures gives { ResultIs refused_by (λ r. new_data r.new) result (to_update (plain_of store.now) row.now part key body.now) }
    ensures stands { IfOk result (IsReplaced (plain_of store.now)) }
{
    let body = read_body(alloc, row, body)?;
    check_replacement(alloc, store, row, part, key, body)
}

/// The checks of a patch: it is a JSON object, and its target exists; the result is checked as the body of an update.
#[tactic(auto, unfolding(crate::specs::Update::to_patch))]
pub fn check_patch(
    alloc: Global,
    store: &Store,
    row: &ResourceRow,
    part: ObjectPart,
    key: Key,
    body: &[u8],
) -> Result<Replacement, CheckError>
    ensures gives { ResultIs refused_by (λ r. new_data r.new) result (to_patch (plain_of store.now) row.now part key body.now) }
    ensures stands { IfOk result (IsReplaced (plain_of store.now)) }
{
    let patch = read_json(alloc, body)?;
    let merged = merge(alloc, existing(store, &key)?, &patch)?;
    let body = admit(alloc, row, merged)?;
    check_replacement(alloc, store, row, part, key, body)
}

/// The JSON object that a body is.
pub fn read_json(alloc: Global, body: &[u8]) -> Result<Value, CheckError>
    ensures gives { ResultIs refused_by view result (patch_of body.now) }
    ensures ordered { IfOk result (λ v. is_ordered (view v) ≡ true) }
    ensures nests { IfOk result (λ v. depth (view v) ≤ max_depth) }
{
    match read_tree(alloc, body) {
        Ok(patch) => Ok(patch),
        Err(ObjectError::Memory) => Err(CheckError::Memory),
        Err(_other) => Err(bad_request(BadRequestReason::Json)),
    }
}

/// The stored object's tree with a patch applied.
fn merge(alloc: Global, object: &StoredObject, patch: &Value) -> Result<Value, Memory>
    requires ordered { is_ordered (view patch.now) ≡ true }
    requires nests { depth (view patch.now) ≤ max_depth }
    ensures tree { IfOk result (λ v. view v ≡ merged (stored_tree object.now) (view patch.now)) }
    ensures ordered { IfOk result (λ v. is_ordered (view v) ≡ true) }
    ensures nests { IfOk result (λ v. depth (view v) ≤ max_depth) }
{
    let tree = object.tree(alloc)?;
    let merged = merge_patch(alloc, tree, patch)?;
    Ok(merged)
}

/// The checks of the object that a body was read as, in their order: name, namespace, existence and version, validity.
#[tactic(auto, unfolding(crate::specs::Update::to_replace))]
fn check_replacement(
    alloc: Global,
    store: &Store,
    row: &ResourceRow,
    part: ObjectPart,
    key: Key,
    body: Admitted,
) -> Result<Replacement, CheckError>
    ensures gives { ResultIs refused_by (λ r. new_data r.new) result (to_replace (plain_of store.now) row.now part key (admitted_data body)) }
    ensures stands { IfOk result (IsReplaced (plain_of store.now)) }
{
    check_name(alloc, &key.name, &body.given.name)?;
    check_namespace(
        alloc,
        key.namespace.as_str(),
        &key.name,
        &body.given.namespace,
    )?;
    let old = replaceable(alloc, store, &key, &body.given.resource_version)?;
    in_place_of(alloc, row, part, key, old, body.object)
}

/// The object that a body was read as in place of the stored one, if it is valid.
fn in_place_of(
    alloc: Global,
    row: &ResourceRow,
    part: ObjectPart,
    key: Key,
    old: Shared,
    object: Result<Object, Sequence<FieldFault>>,
) -> Result<Replacement, CheckError>
    ensures gives { ResultIs refused_by (λ r. new_data r.new) result (and_then (valid key.name (object_data object)) (λ tree. Ok (key, updates.replacing part row.now key (stored_tree old) tree))) }
    ensures key { IfOk result (λ r. r.new.key ≡ key) }
    ensures old { IfOk result (λ r. r.old ≡ old) }
{
    let object = check_validity(alloc, &key.name, object)?;
    let object = replacing(alloc, part, row, &key, old.get(), object)?;
    Ok(Replacement {
        new: NewObject { key, object },
        old,
    })
}

/// A name that the body gives must be the path's.
#[tactic(auto, unfolding(crate::specs::Update::in_name))]
fn check_name(alloc: Global, name: &Text, given: &GivenText) -> Result<(), CheckError>
    ensures { ResultIs refused_by (λ u. u) result (updates.in_name name.now given.now) }
{
    if is_as_in_path(name.as_str(), given) {
        return Ok(());
    }
    let name = name.copy(alloc)?;
    Err(refused(name, Refusal::BadRequest(BadRequestReason::Name)))
}

/// The stored object, provided the body's `resourceVersion` admits a write.
fn replaceable(
    alloc: Global,
    store: &Store,
    key: &Key,
    given: &GivenText,
) -> Result<Shared, CheckError>
    ensures gives { ResultIs refused_by stored_tree result (stored key.now.name (Rattle.kapi_store.specs.Plain.replaceable (plain_of store.now) key.now given.now)) }
    ensures found { IfOk result (λ o. lookup (is_key key.now) (plain_of store.now).objects ≡ Some (stored_tree o)) }
{
    match store.replaceable(key, given) {
        Ok(object) => Ok(object.share()?),
        Err(error) => Err(refused_by_store(key.name.copy(alloc)?, error)),
    }
}

/// The object that is stored once a part of the old one is replaced by the same part of `object`.
#[tactic(auto, unfolding(crate::specs::Update::replacing))]
fn replacing(
    alloc: Global,
    part: ObjectPart,
    row: &ResourceRow,
    key: &Key,
    old: &StoredObject,
    object: Object,
) -> Result<Object, Memory>
    ensures { IfOk result (λ o. tree_of o ≡ updates.replacing part row.now key.now (stored_tree old.now) (tree_of object)) }
{
    match part {
        ObjectPart::Object => {
            let object = object.named(alloc, key.name.as_str())?;
            let object = with_namespace(alloc, row, key.namespace.as_str(), object)?;
            keep_status(alloc, row, old, object)
        }
        ObjectPart::Status => old.object(alloc)?.with_status_of(alloc, &object),
    }
}

/// The object with the old one's status, if the status is a subresource of its own (Kubernetes API conventions,
/// 'Spec and Status').
fn keep_status(
    alloc: Global,
    row: &ResourceRow,
    old: &StoredObject,
    object: Object,
) -> Result<Object, Memory>
    ensures { IfOk result (λ o. tree_of o ≡ keeping_status row.now (stored_tree old.now) (tree_of object)) }
{
    if row.has_status {
        object.with_status_of(alloc, &old.object(alloc)?)
    } else {
        Ok(object)
    }
}

/// Prepares the write of an object in place of the stored one, and the reply with the object as it will be stored.
#[tactic(auto, unfolding(crate::specs::Update::replaces))]
pub fn replace(
    alloc: Global,
    store: &Store,
    replacement: Replacement,
) -> Result<Response, CheckError>
    requires { IsReplaced (plain_of store.now) replacement }
    ensures gives { ResultIs refused_by response_data result (replaces (plain_of store.now) (new_data replacement.new)) }
    ensures fits { IfOk result (λ o. IfSome o.write (Fits store.now)) }
{
    let Replacement { new, old } = replacement;
    let name = new.key.name.copy(alloc)?;
    match store.replace_in_place(new.key, new.object, &old) {
        Ok(ready) => Ok(Response {
            code: StatusCode::Ok,
            content: Content::Json,
            body: text_after(alloc, Some(old.get()), ready.changes())?,
            write: Some(ready),
        }),
        Err(error) => Err(refused_by_store(name, error)),
    }
}
