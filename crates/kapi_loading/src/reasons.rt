//! Why the lines of a file are not loaded, in words.
ghost use Rattle.std.specs.Prelude.{◌≡◌, ◌≤◌, true, IfOk, IfSome, OnOk, is_err, is_some, map, string_bytes};
ghost use Rattle.kapi_answer.specs.Load.{model_of_fault};
ghost use Rattle.kapi_core.specs.Machine.{Machine};
ghost use Rattle.kapi_core.specs.Refines.{Refines};
ghost use Rattle.kapi_core.specs.Table.{fits};
ghost use Rattle.kapi_lines.specs.Lines.{line_of};
ghost use Rattle.kapi_loading.specs.Loading.{loaded, machine_from};
ghost use Rattle.kapi_loading.specs.Reasons.{is_reason};

use crate::shown::one_line;
use crate::starting::{emptied, opened};
use kapi_core::{Core, LoadError};
use kapi_index::IndexedPolicy;
use kapi_lines::{Line, numbered_lines};
use kapi_model::{FieldFault, ResourceRow};
use kapi_object::table_faults::text_in;
use kapi_reply::{BadRequestReason, Refusal};
use kapi_text::{Memory, Sequence};
use serde_json::{Error, Value};
use std::alloc::{AllocError, Global};

/// Why a text with a number that is not kept is refused.
pub const FLOAT: &str =
    "it has a number with a fraction or an exponent, or one of more than 64 bits";

/// Why the first faulty line of a file of objects is not loaded, on a machine of the table whose revisions begin after
/// `first`; `None` if all lines are loaded.
#[tactic(auto, using(crate::proofs::Unloaded::made_fails))]
pub fn object_reason(
    alloc: Global,
    table: &Sequence<ResourceRow>,
    first: u64,
    objects: &[u8],
) -> Result<Option<String>, Memory>
    requires table { fits table.now ≡ true }
    requires first { first ≤ 281474976710650 }
    ensures bad { IfOk result (λ reason. is_some reason ≡ is_err (machine_from table.now first objects.now)) }
    ensures line { IfOk result (λ reason. IfSome reason (λ r. is_reason (string_bytes r) ≡ true)) }
{
    let lines = numbered_lines(alloc, objects)?;
    let mut core = opened(alloc, table, first)?;
    first_reason(alloc, table.as_slice(), &mut core, lines.as_slice())
}

/// Why a machine does not load the first of some lines that it does not.
fn first_reason(
    alloc: Global,
    table: &[ResourceRow],
    core: &mut Core<IndexedPolicy>,
    lines: &[Line<'_>],
) -> Result<Option<String>, Memory>
    ensures bad { (m : Machine) → Refines core.old m → IfOk result (λ reason. is_some reason ≡ is_err (loaded m (map line_of lines.now))) }
    ensures line { IfOk result (λ reason. IfSome reason (λ r. is_reason (string_bytes r) ≡ true)) }
{
    for line in lines {
        match core.load(line.text) {
            Ok(_step) => {}
            Err(error) => return Ok(Some(line_reason(alloc, table, line.text, &error)?)),
        }
    }
    Ok(None)
}

/// A line of a file of objects that is not loaded, by its number from 1, and why.
#[derive(Drop)]
pub struct LineReason {
    pub number: usize,
    pub reason: String,
}

/// Each line of a file of objects that is not loaded where the objects of the file stand alone, and why: no others stand
/// beside them, and lines that are loaded stay where others are not.
pub fn line_reasons(
    alloc: Global,
    table: &Sequence<ResourceRow>,
    objects: &[u8],
) -> Result<Vec<LineReason>, Memory>
    requires { fits table.now ≡ true }
{
    let lines = numbered_lines(alloc, objects)?;
    let mut core = emptied(alloc, table, 0)?;
    let mut reasons = Vec::new(alloc);
    for line in lines.as_slice() {
        if let Err(error) = core.load(line.text) {
            reasons.push(LineReason {
                number: line.number,
                reason: line_reason(alloc, table.as_slice(), line.text, &error)?,
            })?;
        }
    }
    Ok(reasons)
}

/// Why a machine did not load a line, with this error.
fn line_reason(
    alloc: Global,
    table: &[ResourceRow],
    line: &[u8],
    error: &LoadError,
) -> Result<String, Memory>
    ensures fault { OnOk result (is_some (model_of_fault error.now) ≡ true) }
    ensures line { IfOk result (λ r. is_reason (string_bytes r) ≡ true) }
{
    if let LoadError::Memory = error {
        return Err(AllocError);
    }
    let reason = match read_line(alloc, line)? {
        Ok(object) => object_words(alloc, table, &object, error)?,
        Err(reason) => reason,
    };
    one_line(alloc, reason.as_str())
}

/// Reads a line as a JSON object, or says why it is none.
pub fn read_line(alloc: Global, line: &[u8]) -> Result<Result<Value, String>, Memory> {
    match Value::from_slice(alloc, line) {
        Ok(tree) if tree.is_object() => Ok(Ok(tree)),
        Ok(_other) => Ok(Err(String::from_str(alloc, "it is JSON, and no object")?)),
        Err(error) if error.is_memory() => Err(AllocError),
        Err(error) => Ok(Err(json_reason(alloc, &error)?)),
    }
}

/// Where a text stops to be JSON.
fn json_reason(alloc: Global, error: &Error) -> Result<String, Memory> {
    if error.is_eof() {
        return String::from_str(
            alloc,
            "it is no whole JSON object; each line has one, as 'jq -c' writes it",
        );
    }
    let column = error.column();
    format!(in alloc; "it is no JSON: the fault is at column {column}")
}

/// Why a machine did not load an object, with this error.
fn object_words(
    alloc: Global,
    table: &[ResourceRow],
    object: &Value,
    error: &LoadError,
) -> Result<String, Memory> {
    match error {
        LoadError::UnknownKind => kind_words(alloc, table, object),
        LoadError::Object(refused) | LoadError::Store(refused) => {
            refusal_words(alloc, table, object, &refused.why)
        }
        LoadError::Memory => Err(AllocError),
    }
}

/// Why the creation of an object is refused, in the words of a server, or for what only a file can lack.
fn refusal_words(
    alloc: Global,
    table: &[ResourceRow],
    object: &Value,
    why: &Refusal,
) -> Result<String, Memory> {
    match why {
        Refusal::Invalid(faults) => fault_words(alloc, faults.as_slice()),
        Refusal::AlreadyExists => {
            let plural = row_of(table, object).map_or("", |row| row.plural.as_str());
            let name = in_metadata(object, "name");
            format!(in alloc; "{plural} {name} already exists")
        }
        Refusal::NotFound(_sought) => {
            let namespace = in_metadata(object, "namespace");
            format!(in alloc; "namespaces {namespace} not found")
        }
        Refusal::NoRevisionLeft => String::from_str(alloc, "no revision is left"),
        Refusal::BadRequest(BadRequestReason::Namespace) => String::from_str(
            alloc,
            "metadata.namespace: required, as objects of this kind live in a namespace",
        ),
        _ => String::from_str(alloc, FLOAT),
    }
}

/// Each field at fault and its fault, as `rules[0].verbs: required`.
pub fn fault_words(alloc: Global, faults: &[FieldFault]) -> Result<String, Memory> {
    let mut words = String::new(alloc);
    for fault in faults {
        if !words.is_empty() {
            words.push_str("; ")?;
        }
        words.push_str(fault.field.as_str())?;
        words.push_str(": ")?;
        words.push_str(fault.cause.as_str())?;
    }
    Ok(words)
}

/// Why an object is of no kind whose objects are kept.
fn kind_words(alloc: Global, table: &[ResourceRow], object: &Value) -> Result<String, Memory> {
    let version = text_in(object, "apiVersion");
    let kind = text_in(object, "kind");
    if version.is_empty() || kind.is_empty() {
        return String::from_str(alloc, "apiVersion and kind: required, each a text");
    }
    match row_of(table, object) {
        Some(row) => version_words(alloc, row, version),
        None => format!(in alloc;
            "kind '{kind}' of apiVersion '{version}' is not served; docs/PROFILE.md names those that are"
        ),
    }
}

/// Why an object of this `apiVersion` is not kept, though its kind is served.
fn version_words(alloc: Global, row: &ResourceRow, given: &str) -> Result<String, Memory> {
    let kind = row.kind.as_str();
    let version = row.version.as_str();
    let group = row.group.as_str();
    let served = if group.is_empty() {
        String::from_str(alloc, version)?
    } else {
        format!(in alloc; "{group}/{version}")?
    };
    if served.as_str() == given {
        return format!(in alloc; "a {kind} is answered and not kept, so none can be loaded");
    }
    format!(in alloc; "apiVersion: a {kind} has '{served}', and not '{given}'")
}

/// The resource type of an object.
fn row_of<'a>(table: &'a [ResourceRow], object: &Value) -> Option<&'a ResourceRow> {
    let kind = text_in(object, "kind");
    table.iter().find(|row| row.kind.as_str() == kind)
}

/// The text at a key of an object's metadata; empty if there is none.
fn in_metadata<'a>(object: &'a Value, key: &str) -> &'a str {
    match object.get("metadata") {
        Some(metadata) => text_in(metadata, key),
        None => "",
    }
}
