//! Loading the objects that a server begins with.
ghost use Rattle.std.specs.Prelude.{◌≡◌, ◌≤◌, ◌&&◌, Ok, Some, true, not, is_some, IfOk, map as map_of, option_map};
ghost use Rattle.std.specs.Option.{option_copied};
ghost use Rattle.std.specs.List.{find};
ghost use Rattle.std.specs.Str.{bytes_eq};
ghost use Rattle.serde_json.specs.Data.{depth};
ghost use Rattle.serde_json.specs.Read.{max_depth};
ghost use Rattle.serde_json.specs.View.{view};
ghost use Rattle.kapi_text.specs.ResultIs.{ResultIs};
ghost use Rattle.kapi_object.specs.Admission.{version_of};
ghost use Rattle.kapi_object.specs.Order.{is_ordered};
ghost use Rattle.kapi_store.specs.Plain.{free_place, plain_change, plain_of};
ghost use Rattle.kapi_store.specs.State.{Same, Fits};
ghost use Rattle.kapi_answer.specs.Load as loading;
ghost use Rattle.kapi_answer.specs.Review as reviews;
ghost use Rattle.kapi_answer.specs.Load.{creates_named, fault_for, model_of_fault, is_text, loads, to_named};
ghost use Rattle.kapi_answer.specs.Responses.{new_data};
ghost use Rattle.kapi_reply.specs.Refusals.{refused_by};

use crate::create::{admit, bad_request, check_body, refused_by_store};
use crate::response::NewObject;
use crate::review::review_kind;
use crate::update::read_json;
use kapi_model::ResourceRow;
use kapi_object::GivenText;
use kapi_object::body_fields::given_at;
use kapi_reply::{BadRequestReason, CheckError, Refusal, Refused};
use kapi_store::{Ready, Store};
use kapi_text::{Memory, TryCopy, is_joined};
use serde_json::Value;
use std::alloc::Global;

/// Why an object is not loaded, with the refusal that a server answers to its creation.
#[derive(Drop)]
pub enum LoadError {
    /// The object names no version and kind that are served.
    UnknownKind,
    /// The text is no JSON object, or one with a fault, or names no place.
    Object(Refused),
    /// The object's namespace does not exist, its place is taken, or no revision is left.
    Store(Refused),
    Memory,
}

impl From<Memory> for LoadError {
    ghost use Rattle.std.specs.Prelude.{◌≡◌};
    ghost use Rattle.kapi_answer.specs.declared.loading.LoadError.TheVariants.{Memory as NoMemory};

    ghost from_gives = { λ _ e. e ≡ NoMemory };

    fn from(_error: Memory) -> LoadError {
        LoadError::Memory
    }
}

/// Prepares the creation of the object in a text, at the place that the object names.
#[tactic(auto, unfolding(crate::specs::Load::loads))]
pub fn load(alloc: Global, store: &mut Store, text: &[u8]) -> Result<Ready, LoadError>
    ensures same { Same store.old store.new }
    ensures gives { ResultIs model_of_fault (map_of plain_change) result (loads (plain_of store.old) text.now) }
    ensures fits { IfOk result (Fits store.new) }
{
    match create_named(alloc, store, text) {
        Ok(ready) => Ok(ready),
        Err(CheckError::Refused(refused)) => Err(error_for(refused)),
        Err(CheckError::Memory) => Err(LoadError::Memory),
    }
}

/// Prepares the creation of the object in a text, or refuses it as a server does.
#[tactic(auto, unfolding(crate::specs::Load::creates_named))]
fn create_named(alloc: Global, store: &mut Store, text: &[u8]) -> Result<Ready, CheckError>
    ensures same { Same store.old store.new }
    ensures gives { ResultIs refused_by (map_of plain_change) result (creates_named (plain_of store.old) text.now) }
    ensures fits { IfOk result (Fits store.new) }
{
    let tree = read_json(alloc, text)?;
    let new = check_named(alloc, store, tree)?;
    let name = new.key.name.copy(alloc)?;
    match store.create_in_place(new.key, new.object) {
        Ok(ready) => Ok(ready),
        Err(error) => Err(refused_by_store(name, error)),
    }
}

/// The object that a tree is, if it could be created, and its place.
#[tactic(auto, unfolding(crate::specs::Load::to_named))]
fn check_named(alloc: Global, store: &Store, tree: Value) -> Result<NewObject, CheckError>
    requires ordered { is_ordered (view tree) ≡ true }
    requires nests { depth (view tree) ≤ max_depth }
    ensures gives { ResultIs refused_by new_data result (to_named (plain_of store.now) (view tree)) }
    ensures free { IfOk result (λ new. free_place (plain_of store.now) new.key ≡ Ok tt) }
{
    let Some(row) = find_row(store.table(), &tree) else {
        return Err(CheckError::Refused(Refused::asked_for(Refusal::NoSuchResource)));
    };
    let given = given_at(alloc, &tree, "namespace")?;
    let Some(namespace) = namespace_in(row, &given) else {
        return Err(bad_request(BadRequestReason::Namespace));
    };
    let body = admit(alloc, row, tree)?;
    check_body(alloc, store, row, namespace, body)
}

/// Why an object is not loaded whose creation is refused so.
#[tactic(auto, unfolding(crate::specs::Load::fault_for))]
fn error_for(refused: Refused) -> LoadError
    ensures { model_of_fault result ≡ Some (fault_for refused.why refused) }
{
    match &refused.why {
        Refusal::NoSuchResource => LoadError::UnknownKind,
        Refusal::NotFound(_) | Refusal::AlreadyExists | Refusal::NoRevisionLeft => {
            LoadError::Store(refused)
        }
        _ => LoadError::Object(refused),
    }
}

/// The resource type of the kind and version that a tree has, but for reviews.
#[tactic(auto, using(crate::proofs::Sought::found_alike))]
fn find_row<'a>(table: &'a [ResourceRow], tree: &Value) -> Option<&'a ResourceRow>
    ensures { option_copied result ≡ find (loading.is_kept_kind (view tree.now)) table.now }
{
    find_kept(table, tree.get("kind"), tree.get("apiVersion"))
}

/// The resource type of the kind and version, but for reviews.
fn find_kept<'a>(
    table: &'a [ResourceRow],
    kind: Option<&Value>,
    version: Option<&Value>,
) -> Option<&'a ResourceRow>
    ensures { option_copied result ≡ find (λ row. not (is_some (reviews.review_kind row)) && (is_text row.kind (option_map (λ v. view v.now) kind.entry) && is_text (version_of row) (option_map (λ v. view v.now) version.entry))) table.now }
{
    table.iter().find(|row| is_kept_kind(row, kind, version))
}

/// Whether the kind and the version are the resource type's, and its objects are kept (reviews are not). The kind is
/// compared first, since most resource types have another.
#[tactic(auto, using(crate::proofs::Sought::and_swaps))]
fn is_kept_kind(row: &ResourceRow, kind: Option<&Value>, version: Option<&Value>) -> bool
    ensures { result ≡ not (is_some (reviews.review_kind row.now)) && (is_text row.now.kind (option_map (λ v. view v.now) kind.entry) && is_text (version_of row.now) (option_map (λ v. view v.now) version.entry)) }
{
    is_kind_of(row, kind, version) && !review_kind(row).is_some()
}

fn is_kind_of(row: &ResourceRow, kind: Option<&Value>, version: Option<&Value>) -> bool
    ensures { result ≡ is_text row.now.kind (option_map (λ v. view v.now) kind.entry) && is_text (version_of row.now) (option_map (λ v. view v.now) version.entry) }
{
    match kind {
        Some(Value::String(kind)) => {
            kind.as_str() == row.kind.as_str() && is_version_of(row, version)
        }
        _ => false,
    }
}

fn is_version_of(row: &ResourceRow, version: Option<&Value>) -> bool
    ensures { result ≡ is_text (version_of row.now) (option_map (λ v. view v.now) version.entry) }
{
    match version {
        Some(Value::String(text)) => is_version(row, text.as_str()),
        _ => false,
    }
}

/// Whether the text is the resource type's `apiVersion` (Kubernetes, 'API Overview').
fn is_version(row: &ResourceRow, text: &str) -> bool
    ensures { result ≡ bytes_eq text.now (version_of row.now) }
{
    let version = row.version.as_str();
    if row.group.as_str().is_empty() {
        return text == version;
    }
    is_joined(
        text.as_bytes(),
        row.group.as_str().as_bytes(),
        b'/',
        version.as_bytes(),
    )
}

/// The namespace of the place of an object, which must be named if the resource type has namespaces.
#[tactic(auto, unfolding(crate::specs::Load::namespace_in))]
fn namespace_in<'a>(row: &ResourceRow, given: &'a GivenText) -> Option<&'a str>
    ensures { option_map (λ s. s.now) result ≡ loading.namespace_in row.now given.now }
{
    if !row.namespaced {
        return Some("");
    }
    match given {
        GivenText::Text(text) if !text.as_str().is_empty() => Some(text.as_str()),
        _ => None,
    }
}
