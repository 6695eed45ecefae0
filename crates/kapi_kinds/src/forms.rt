//! The two forms of a kind: a line as `kubectl api-resources` names it, and a CustomResourceDefinition.
ghost use Rattle.std.specs.Prelude.{◌≡◌, IfOk, codes, find, is_some, map, option_map};
ghost use Rattle.std.specs.Result.{result_ok};
ghost use Rattle.serde_json.specs.View.{view};
ghost use Rattle.kapi_kinds.specs.Rows as rows;
ghost use Rattle.kapi_kinds.specs.Rows.{row_named, scope_named};

use crate::fault::Reason;
use crate::members::{
    is_true, items_in, other_member, text_in, text_of, text_unless_absent, truth_of,
    truth_unless_absent,
};
use crate::named::Named;
use kapi_text::{Memory, Text};
use serde_json::{Map, Value};
use std::alloc::Global;

/// The resource type that an object names, or why it names none for a table.
#[tactic(auto, unfolding(crate::specs::Rows::row_in))]
pub fn named_in<'a>(alloc: Global, object: &'a Value) -> Result<Result<Named<'a>, Reason>, Memory>
    ensures { IfOk result (λ r. option_map row_named (result_ok r) ≡ rows.row_in (view object.now)) }
{
    match form_in(alloc, object)? {
        Ok(named) => match named.fault(alloc)? {
            Some(reason) => Ok(Err(reason)),
            None => Ok(Ok(named)),
        },
        Err(reason) => Ok(Err(reason)),
    }
}

fn form_in<'a>(alloc: Global, object: &'a Value) -> Result<Result<Named<'a>, Reason>, Memory>
    ensures { IfOk result (λ r. option_map row_named (result_ok r) ≡ rows.form_in (view object.now)) }
{
    if is_definition(object) {
        return Ok(definition_in(object));
    }
    match object {
        Value::Object(members) => match other_member(members) {
            Some(name) => Ok(Err(unknown(alloc, name)?)),
            None => Ok(line_in(object)),
        },
        _ => Ok(Err(Reason::Neither)),
    }
}

/// Whether an object is a CustomResourceDefinition.
fn is_definition(object: &Value) -> bool
    ensures { result ≡ rows.is_definition (view object.now) }
{
    text_in(object.get("apiVersion")) == "apiextensions.k8s.io/v1"
        && text_in(object.get("kind")) == "CustomResourceDefinition"
}

/// Why an object with a member that a line of a kind has not is none: it is another object of Kubernetes, or a wrong line.
fn unknown(alloc: Global, name: &str) -> Result<Reason, Memory> {
    if name == "apiVersion" {
        return Ok(Reason::Neither);
    }
    Ok(Reason::Unknown(Text::copy_of(alloc, name)?))
}

#[tactic(auto, unfolding(crate::specs::Rows::line_in))]
fn line_in(object: &Value) -> Result<Named<'_>, Reason>
    ensures { option_map row_named (result_ok result) ≡ rows.line_in (view object.now) }
{
    let group = text_unless_absent(object.get("group"), "group: a text, or absent")?;
    let version = text_of(object.get("version"), "version: required, a text")?;
    let resource = text_of(object.get("resource"), "resource: required, a text")?;
    let kind = text_of(object.get("kind"), "kind: required, a text")?;
    let namespaced = truth_of(
        object.get("namespaced"),
        "namespaced: required, true or false",
    )?;
    let has_status = truth_unless_absent(object.get("status"), "status: true, false or absent")?;
    Ok(Named {
        group,
        version,
        resource,
        kind,
        namespaced,
        has_status,
    })
}

#[tactic(auto, unfolding(crate::specs::Rows::definition_in))]
fn definition_in(object: &Value) -> Result<Named<'_>, Reason>
    ensures { option_map row_named (result_ok result) ≡ rows.definition_in (view object.now) }
{
    let group = text_of(
        object.pointer("/spec/group"),
        "spec.group: required, a text",
    )?;
    let resource = text_of(
        object.pointer("/spec/names/plural"),
        "spec.names.plural: required, a text",
    )?;
    let kind = text_of(
        object.pointer("/spec/names/kind"),
        "spec.names.kind: required, a text",
    )?;
    let namespaced = scope_of(text_in(object.pointer("/spec/scope")))?;
    let served = served_of(items_in(object.pointer("/spec/versions")))?;
    let version = text_of(
        served.get("name"),
        "spec.versions: required of the first that is served, a name that is a text",
    )?;
    Ok(Named {
        group,
        version,
        resource,
        kind,
        namespaced,
        has_status: has_status(served),
    })
}

/// Whether the objects of a scope live in namespaces.
fn scope_of(scope: &str) -> Result<bool, Reason>
    ensures { result_ok result ≡ scope_named scope.now }
{
    match scope {
        "Namespaced" => Ok(true),
        "Cluster" => Ok(false),
        _ => Err(Reason::Wanted("spec.scope: required, Namespaced or Cluster")),
    }
}

/// The first version that is served.
fn served_of(versions: &[Value]) -> Result<&Value, Reason>
    ensures { option_map (λ v. view v.now) (result_ok result) ≡ find rows.is_served (map view versions.now) }
{
    for version in versions {
        if is_true(version.get("served")) {
            return Ok(version);
        }
    }
    Err(Reason::Wanted("spec.versions: required, one of them served"))
}

/// Whether a version has the subresource `status`.
fn has_status(version: &Value) -> bool
    ensures { result ≡ rows.has_status (view version.now) }
{
    match version.pointer("/subresources/status") {
        Some(status) => status.is_object(),
        None => false,
    }
}
