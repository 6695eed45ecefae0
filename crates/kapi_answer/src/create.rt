//! The creation of an object.
ghost use Rattle.std.specs.Prelude.{◌≡◌, ◌≤◌, [], true, Ok, Some, IfOk, IfSome, OnOk, map as map_of};
ghost use Rattle.std.specs.Option.{option_map};
ghost use Rattle.kapi_text.specs.ResultIs.{ResultIs, ◌>>=◌ as and_then};
ghost use Rattle.serde_json.specs.Data.{depth};
ghost use Rattle.serde_json.specs.Read.{max_depth};
ghost use Rattle.serde_json.specs.View.{view};
ghost use Rattle.kapi_object.specs.Admission.{read_as};
ghost use Rattle.kapi_object.specs.Object.{tree_of};
ghost use Rattle.kapi_object.specs.Order.{is_ordered};
ghost use Rattle.kapi_reply.specs.Refusals as table;
ghost use Rattle.kapi_reply.specs.Refusals.{asked_for, refused_by};
ghost use Rattle.kapi_store.specs.Plain.{free_place, plain_change, plain_of};
ghost use Rattle.kapi_store.specs.Faults.{fault_of};
ghost use Rattle.kapi_store.specs.State.{Same, Fits};
ghost use Rattle.kapi_store.specs.Stored.{stored_tree};
ghost use Rattle.kapi_answer.specs.Create as creation;
ghost use Rattle.kapi_answer.specs.Create.{admitted, admitted_from, creates, given_name, with_namespace_on, in_place, name_text, refusal_of, stored, to_create, to_place, tree_text, valid};
ghost use Rattle.kapi_answer.specs.Responses.{admitted_data, new_data, object_data, response_data};

use crate::response::{NewObject, Response};
use kapi_http::StatusCode;
use kapi_model::{FaultKind, FieldFault, ResourceRow, check_name};
use kapi_object::{Given, GivenText, Object, ObjectError, admit_tree, read_tree};
use kapi_reply::{BadRequestReason, CheckError, Content, Nonexistent, Refusal, Refused};
use kapi_store::{Change, Key, Shared, Store, StoreError, StoredObject};
use kapi_text::{Memory, Sequence, Text, TryCopy};
use serde_json::Value;
use std::alloc::Global;

/// What a body was read as: its name, namespace and generated name, and its object or its faults.
#[derive(Drop)]
pub struct Admitted {
    pub given: Given,
    pub object: Result<Object, Sequence<FieldFault>>,
}

/// The checks of a create from its body on, in their order: body, name, namespace, place, validity.
#[tactic(auto, unfolding(crate::specs::Create::to_create))]
pub fn check_create(
    alloc: Global,
    store: &Store,
    row: &ResourceRow,
    namespace: &str,
    body: &[u8],
) -> Result<NewObject, CheckError>
    ensures gives { ResultIs refused_by new_data result (to_create (plain_of store.now) row.now namespace.now body.now) }
    ensures free { IfOk result (λ new. free_place (plain_of store.now) new.key ≡ Ok tt) }
{
    let body = read_body(alloc, row, body)?;
    check_body(alloc, store, row, namespace, body)
}

/// The checks of the object that a body was read as, in their order: name, namespace, place, validity.
#[tactic(auto, unfolding(crate::specs::Create::to_place))]
pub fn check_body(
    alloc: Global,
    store: &Store,
    row: &ResourceRow,
    namespace: &str,
    body: Admitted,
) -> Result<NewObject, CheckError>
    ensures gives { ResultIs refused_by new_data result (to_place (plain_of store.now) row.now namespace.now (admitted_data body)) }
    ensures free { IfOk result (λ new. free_place (plain_of store.now) new.key ≡ Ok tt) }
{
    let name = check_given_name(alloc, row, &body.given.name)?;
    check_namespace(alloc, namespace, &name, &body.given.namespace)?;
    let key = key_at(alloc, row, namespace_on(row, namespace), name)?;
    check_place(alloc, store, &key)?;
    at_place(alloc, row, namespace, key, body.object)
}

/// The object that a body was read as at its place, if it is valid.
fn at_place(
    alloc: Global,
    row: &ResourceRow,
    namespace: &str,
    key: Key,
    object: Result<Object, Sequence<FieldFault>>,
) -> Result<NewObject, CheckError>
    ensures gives { ResultIs refused_by new_data result (and_then (valid key.name (object_data object)) (λ tree. Ok (key, in_place row.now namespace.now tree))) }
    ensures key { IfOk result (λ new. new.key ≡ key) }
{
    let object = check_validity(alloc, &key.name, object)?;
    let object = placed(alloc, row, namespace, object)?;
    Ok(NewObject { key, object })
}

/// Checks that the namespace exists and the place is free.
fn check_place(alloc: Global, store: &Store, key: &Key) -> Result<(), CheckError>
    ensures gives { ResultIs refused_by (λ u. u) result (stored key.now.name (free_place (plain_of store.now) key.now)) }
    ensures free { OnOk result (free_place (plain_of store.now) key.now ≡ Ok tt) }
{
    match store.check_place(key) {
        Ok(()) => Ok(()),
        Err(error) => Err(refused_by_store(key.name.copy(alloc)?, error)),
    }
}

/// The refusal that reports a fault of the store, about the object `name`.
#[tactic(auto, unfolding(crate::specs::Create::refusal_of))]
pub fn refused_by_store(name: Text, error: StoreError) -> CheckError
    ensures { refused_by result ≡ option_map (λ fault. table.named name (refusal_of fault)) (fault_of error) }
{
    match error {
        StoreError::Exists => refused(name, Refusal::AlreadyExists),
        StoreError::NoNamespace => refused(name, Refusal::NotFound(Nonexistent::Namespace)),
        StoreError::RevisionsUsedUp => refused(name, Refusal::NoRevisionLeft),
        StoreError::Missing => refused(name, Refusal::NotFound(Nonexistent::Object)),
        StoreError::Conflict(version) => refused(name, Refusal::Conflict(version)),
        StoreError::NamespaceNotEmpty => refused(name, Refusal::NamespaceNotEmpty),
        StoreError::Memory => CheckError::Memory,
    }
}

/// Prepares the write of a new object, and the reply with the object as it will be stored.
#[tactic(auto, unfolding(crate::specs::Create::creates))]
pub fn create(alloc: Global, store: &mut Store, new: NewObject) -> Result<Response, CheckError>
    requires { free_place (plain_of store.old) new.key ≡ Ok tt }
    ensures same { Same store.old store.new }
    ensures gives { ResultIs refused_by response_data result (creates (plain_of store.old) (new_data new)) }
    ensures fits { IfOk result (λ o. IfSome o.write (Fits store.new)) }
{
    let name = new.key.name.copy(alloc)?;
    match store.create_in_place(new.key, new.object) {
        Ok(ready) => Ok(Response {
            code: StatusCode::Created,
            content: Content::Json,
            body: text_after(alloc, None, ready.changes())?,
            write: Some(ready),
        }),
        Err(error) => Err(refused_by_store(name, error)),
    }
}

/// The object that a write leaves at a place where an object may have been, as JSON text.
pub fn text_after(
    alloc: Global,
    old: Option<&StoredObject>,
    changes: &[Change],
) -> Result<Vec<u8>, Memory>
    ensures { IfOk result (λ b. b.items ≡ creation.text_after (option_map (λ o. stored_tree o.now) old.entry) (map_of plain_change changes.now)) }
{
    match changes {
        [change, ..] => shared_text(alloc, &change.new),
        [] => object_text(alloc, old),
    }
}

fn shared_text(alloc: Global, object: &Option<Shared>) -> Result<Vec<u8>, Memory>
    ensures { IfOk result (λ b. b.items ≡ tree_text (option_map stored_tree object.now)) }
{
    match object {
        Some(object) => object.get().render(alloc),
        None => Ok(Vec::new(alloc)),
    }
}

fn object_text(alloc: Global, object: Option<&StoredObject>) -> Result<Vec<u8>, Memory>
    ensures { IfOk result (λ b. b.items ≡ tree_text (option_map (λ o. stored_tree o.now) object.entry)) }
{
    match object {
        Some(object) => object.render(alloc),
        None => Ok(Vec::new(alloc)),
    }
}

/// Reads a body; a body that is no JSON object of the resource type's kind and version is a bad request.
#[tactic(auto, unfolding(crate::specs::Create::admitted_from, kapi_object::specs::Admission::read_as))]
pub fn read_body(alloc: Global, row: &ResourceRow, body: &[u8]) -> Result<Admitted, CheckError>
    ensures { ResultIs refused_by admitted_data result (admitted row.now body.now) }
{
    match read_tree(alloc, body) {
        Ok(tree) => admit(alloc, row, tree),
        Err(ObjectError::Memory) => Err(CheckError::Memory),
        Err(_other) => Err(bad_request(BadRequestReason::Json)),
    }
}

/// What a JSON object was read as; an object of another kind or version than the resource type's is a bad request.
#[tactic(auto, unfolding(crate::specs::Create::admitted_from))]
pub fn admit(alloc: Global, row: &ResourceRow, tree: Value) -> Result<Admitted, CheckError>
    requires ordered { is_ordered (view tree) ≡ true }
    requires nests { depth (view tree) ≤ max_depth }
    ensures { ResultIs refused_by admitted_data result (admitted_from (read_as row.now (Some (view tree)))) }
{
    match admit_tree(alloc, row, tree) {
        Ok(object) => Ok(Admitted {
            given: object.given(alloc)?,
            object: Ok(object),
        }),
        Err(ObjectError::Invalid(given, faults)) => Ok(Admitted {
            given,
            object: Err(faults),
        }),
        Err(ObjectError::NotJson) => Err(bad_request(BadRequestReason::Json)),
        Err(ObjectError::Float) => Err(bad_request(BadRequestReason::Float)),
        Err(ObjectError::WrongKind) => Err(bad_request(BadRequestReason::Kind)),
        Err(ObjectError::WrongVersion) => Err(bad_request(BadRequestReason::Version)),
        Err(ObjectError::Memory) => Err(CheckError::Memory),
    }
}

/// A refusal of the whole request.
pub fn bad_request(word: BadRequestReason) -> CheckError
    ensures { refused_by result ≡ Some (asked_for (Refusal.BadRequest word)) }
{
    CheckError::Refused(Refused::asked_for(Refusal::BadRequest(word)))
}

/// A refusal of the object of that name.
pub fn refused(name: Text, why: Refusal) -> CheckError
    ensures { refused_by result ≡ Some (table.named name why) }
{
    CheckError::Refused(Refused::named(name, why))
}

/// The name that the body gives, if objects of the resource type may have it.
#[tactic(auto, unfolding(crate::specs::Create::given_name))]
fn check_given_name(alloc: Global, row: &ResourceRow, given: &GivenText) -> Result<Text, CheckError>
    ensures { ResultIs refused_by (λ t. t) result (given_name row.now given.now) }
{
    match given {
        GivenText::Absent => Err(invalid_name(
            alloc,
            Text::copy_of(alloc, "")?,
            FaultKind::Required,
        )?),
        GivenText::Mistyped => Err(invalid_name(
            alloc,
            Text::copy_of(alloc, "")?,
            FaultKind::WrongType,
        )?),
        GivenText::Text(name) => check_name_text(alloc, row, name.copy(alloc)?),
    }
}

#[tactic(auto, unfolding(crate::specs::Create::name_text))]
fn check_name_text(alloc: Global, row: &ResourceRow, name: Text) -> Result<Text, CheckError>
    ensures { ResultIs refused_by (λ t. t) result (name_text row.now name) }
{
    if name.as_str().is_empty() {
        return Err(invalid_name(alloc, name, FaultKind::Required)?);
    }
    if check_name(row, name.as_str()) {
        Ok(name)
    } else {
        Err(invalid_name(alloc, name, FaultKind::BadValue)?)
    }
}

/// A refusal of a body whose name is the one fault that is reported.
fn invalid_name(alloc: Global, name: Text, cause: FaultKind) -> Result<CheckError, Memory>
    ensures { IfOk result (λ e. refused_by e ≡ Some (creation.invalid_name name cause)) }
{
    let mut faults = Vec::with_capacity(alloc, 1)?;
    faults.push(FieldFault {
        field: Text::copy_of(alloc, "metadata.name")?,
        cause,
    })?;
    Ok(refused(name, Refusal::Invalid(Sequence::new(faults))))
}

/// A namespace that the body gives must be the path's.
#[tactic(auto, unfolding(crate::specs::Create::in_namespace))]
pub fn check_namespace(
    alloc: Global,
    namespace: &str,
    name: &Text,
    given: &GivenText,
) -> Result<(), CheckError>
    ensures { ResultIs refused_by (λ u. u) result (creation.in_namespace namespace.now name.now given.now) }
{
    if is_as_in_path(namespace, given) {
        return Ok(());
    }
    let name = name.copy(alloc)?;
    Err(refused(name, Refusal::BadRequest(BadRequestReason::Namespace)))
}

/// Whether a name or a namespace that the body gives is the path's.
pub fn is_as_in_path(text: &str, given: &GivenText) -> bool
    ensures { result ≡ creation.is_as_in_path text.now given.now }
{
    match given {
        GivenText::Absent => true,
        GivenText::Mistyped => false,
        GivenText::Text(given) => given.as_str() == text,
    }
}

/// The place of the object of a resource type, a namespace and a name.
pub fn key_at(alloc: Global, row: &ResourceRow, namespace: &str, name: Text) -> Result<Key, Memory>
    ensures { IfOk result (λ k. k ≡ creation.key_at row.now namespace.now name) }
{
    Ok(Key {
        group: row.group.copy(alloc)?,
        resource: row.plural.copy(alloc)?,
        namespace: Text::copy_of(alloc, namespace)?,
        name,
    })
}

/// The namespace of a place of a resource type: cluster-scoped objects have none.
pub fn namespace_on<'a>(row: &ResourceRow, namespace: &'a str) -> &'a str
    ensures { result.now ≡ creation.namespace_on row.now namespace.entry.now }
{
    if row.namespaced { namespace } else { "" }
}

/// The object, if the body has no fault.
#[tactic(auto, unfolding(crate::specs::Create::valid))]
pub fn check_validity(
    alloc: Global,
    name: &Text,
    object: Result<Object, Sequence<FieldFault>>,
) -> Result<Object, CheckError>
    ensures { ResultIs refused_by tree_of result (valid name.now (object_data object)) }
{
    match object {
        Ok(object) => Ok(object),
        Err(faults) => Err(refused(name.copy(alloc)?, Refusal::Invalid(faults))),
    }
}

/// The object as it is stored at first.
fn placed(
    alloc: Global,
    row: &ResourceRow,
    namespace: &str,
    object: Object,
) -> Result<Object, Memory>
    ensures { IfOk result (λ o. tree_of o ≡ in_place row.now namespace.now (tree_of object)) }
{
    with_namespace(alloc, row, namespace, without_status(row, object))
}

/// The object with the namespace of its path, where objects of the resource type live in namespaces.
pub fn with_namespace(
    alloc: Global,
    row: &ResourceRow,
    namespace: &str,
    object: Object,
) -> Result<Object, Memory>
    ensures { IfOk result (λ o. tree_of o ≡ with_namespace_on row.now namespace.now (tree_of object)) }
{
    if row.namespaced {
        object.in_namespace(alloc, namespace)
    } else {
        Ok(object)
    }
}

/// The object without its status, if that is a subresource of its own (Kubernetes API conventions, 'Spec and
/// Status').
fn without_status(row: &ResourceRow, object: Object) -> Object
    ensures { tree_of result ≡ creation.without_status row.now (tree_of object) }
{
    if row.has_status {
        object.without_status()
    } else {
        object
    }
}
