//! The deletion of an object.
ghost use Rattle.std.specs.Prelude.{◌≡◌, Some, IfOk, IfSome, option_map};
ghost use Rattle.serde_json.specs.View.{view};
ghost use Rattle.kapi_text.specs.ResultIs.{ResultIs};
ghost use Rattle.kapi_reply.specs.Refusals.{refused_by};
ghost use Rattle.std.specs.List.{IsDistinct};
ghost use Rattle.kapi_store.specs.Keys.{is_key};
ghost use Rattle.kapi_store.specs.Plain.{plain_of};
ghost use Rattle.kapi_store.specs.State.{Fits};
ghost use Rattle.kapi_store.specs.Stored.{stored_tree};
ghost use Rattle.kapi_answer.specs.Delete as deletions;
ghost use Rattle.kapi_answer.specs.Delete.{asks_nothing, deletable, removes, to_delete};
ghost use Rattle.kapi_answer.specs.Responses.{deletion_data, response_data};

use crate::create::{bad_request, refused_by_store};
use crate::response::{Deletion, Response};
use kapi_http::StatusCode;
use kapi_object::tree::has_no_members;
use kapi_object::tree_form::is_empty;
use kapi_object::{ObjectError, member, read_tree};
use kapi_reply::{
    BadRequestReason, CheckError, Content, Nonexistent, Refusal, Refused, Subject, deletion_text,
};
use kapi_store::{Key, Store, StoredObject};
use kapi_text::{Memory, TryCopy};
use serde_json::Value;
use std::alloc::Global;

/// The checks of a deletion from its body on, in their order: body, existence.
#[tactic(auto, unfolding(crate::specs::Delete::to_delete))]
pub fn check_delete(
    alloc: Global,
    store: &Store,
    key: Key,
    body: &[u8],
) -> Result<Deletion, CheckError>
    ensures gives { ResultIs refused_by deletion_data result (to_delete (plain_of store.now) key body.now) }
    ensures distinct { IfOk result (λ d. IsDistinct is_key d.keys.items) }
{
    check_options(alloc, body)?;
    let object = existing(store, &key)?;
    Ok(Deletion {
        name: key.name.copy(alloc)?,
        reply: deletion_reply(alloc, &key, object)?,
        keys: key.alone(alloc)?,
    })
}

/// The stored object at the key; refused if there is none.
pub fn existing<'a>(store: &'a Store, key: &Key) -> Result<&'a StoredObject, Refused>
    ensures { ResultIs (λ r. Some r) (λ o. stored_tree o.now) result (deletions.existing (plain_of store.now) key.now) }
{
    match store.get(key) {
        Some(object) => Ok(object),
        None => Err(Refused::asked_for(Refusal::NotFound(Nonexistent::Object))),
    }
}

/// The reply to the deletion of the object at a place.
fn deletion_reply(alloc: Global, key: &Key, object: &StoredObject) -> Result<Vec<u8>, Memory>
    ensures { IfOk result (λ b. b.items ≡ deletions.deletion_text key.now (stored_tree object.now)) }
{
    let subject = Subject {
        group: key.group.as_str(),
        resource: key.resource.as_str(),
        name: key.name.as_str(),
    };
    let uid = object.uid(alloc)?;
    deletion_text(alloc, subject, uid.as_str())
}

/// A body is empty, or options that ask for nothing but to delete.
#[tactic(auto, unfolding(crate::specs::Delete::deletable, crate::specs::Delete::options_of))]
pub fn check_options(alloc: Global, body: &[u8]) -> Result<(), CheckError>
    ensures { ResultIs refused_by (λ u. u) result (deletable body.now) }
{
    if body.is_empty() {
        return Ok(());
    }
    match read_tree(alloc, body) {
        Ok(options) if asks_for_nothing(&options) => Ok(()),
        Ok(_options) => Err(bad_request(BadRequestReason::Option)),
        Err(ObjectError::Memory) => Err(CheckError::Memory),
        Err(_other) => Err(bad_request(BadRequestReason::Json)),
    }
}

fn asks_for_nothing(options: &Value) -> bool
    ensures { result ≡ asks_nothing (view options.now) }
{
    member(options, "preconditions").is_none() && is_unset(member(options, "dryRun"))
}

fn is_unset(value: Option<&Value>) -> bool
    ensures { result ≡ deletions.is_unset (option_map (λ v. view v.now) value.entry) }
{
    match value {
        None => true,
        Some(Value::String(text)) => text.is_empty(),
        Some(Value::Array(items)) => is_empty(items),
        Some(Value::Object(members)) => has_no_members(members),
        Some(_other) => false,
    }
}

/// Prepares the removal of objects, and the reply that reports it.
#[tactic(auto, unfolding(crate::specs::Delete::removes))]
pub fn delete(store: &Store, deletion: Deletion) -> Result<Response, CheckError>
    requires { IsDistinct is_key deletion.keys.items }
    ensures gives { ResultIs refused_by response_data result (removes (plain_of store.now) (deletion_data deletion)) }
    ensures fits { IfOk result (λ o. IfSome o.write (Fits store.now)) }
{
    match store.remove(deletion.keys) {
        Ok(ready) => Ok(Response {
            code: StatusCode::Ok,
            content: Content::Json,
            body: deletion.reply,
            write: Some(ready),
        }),
        Err(error) => Err(refused_by_store(deletion.name, error)),
    }
}
