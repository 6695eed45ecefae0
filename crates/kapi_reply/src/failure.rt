//! The table of refusals: the whole failure of each.
ghost use Rattle.std.specs.Prelude.{◌≡◌, [], ◌++◌, codes, map as map_of, string_bytes, IfOk};
ghost use Rattle.std.specs.Option.{option_map};
ghost use Rattle.kapi_reply.specs.Refusals as table;
ghost use Rattle.kapi_reply.specs.Refusals.{denied_text, escalation_text, fault_failure};
ghost use Rattle.kapi_reply.specs.Views.{asked_data, cause_data, failure_data, subject_data};

use crate::refusal::{NamedRole, Nonexistent, OldRevision, Refusal, Revisions};
use crate::reply::RefusedRequest;
use crate::status::{
    Cause, Failure, Subject, changed_role_ref, invalid_fields, missing_atoms, missing_permission,
    missing_permissions,
};
use kapi_http::{Method, StatusCode};
use kapi_model::FieldFault;
use kapi_rules::{Atom, Point};
use kapi_text::Memory;
use std::alloc::Global;

/// The methods that the server knows.
const METHODS: [Method; 5] = [
    Method::Get,
    Method::Post,
    Method::Put,
    Method::Patch,
    Method::Delete,
];

/// The failure for a refusal about the object of that name.
#[tactic(auto, unfolding(crate::specs::Refusals::failure_of))]
pub fn failure_of(
    alloc: Global,
    asked: RefusedRequest<'_>,
    name: &str,
    refusal: &Refusal,
) -> Result<Failure, Memory>
    ensures { IfOk result (λ f. failure_data f ≡ table.failure_of (asked_data asked.entry) name.now refusal.now) }
{
    match refusal {
        Refusal::BadRequest(word) => bad_request(alloc, word.as_str()),
        Refusal::Impersonation(points) => impersonation(alloc, asked, points.as_slice()),
        Refusal::Forbidden => denied(alloc, asked),
        Refusal::Escalation(atoms) => escalation(alloc, asked, atoms.as_slice()),
        Refusal::NoSuchResource => no_such_resource(alloc),
        Refusal::NotFound(what) => not_found(alloc, asked, name, *what),
        Refusal::RoleNotFound(role) => role_not_found(alloc, role),
        Refusal::MethodNotAllowed(place) => {
            not_allowed(alloc, asked.method.as_str(), place.methods())
        }
        Refusal::UnsupportedMediaType => failed(
            alloc,
            StatusCode::UnsupportedMediaType,
            "UnsupportedMediaType",
            "this body is not accepted",
        ),
        Refusal::AlreadyExists => already_exists(alloc, asked, name),
        Refusal::Conflict(version) => other_version(alloc, asked, name, version.as_str()),
        Refusal::Invalid(faults) => faulty(alloc, asked, name, faults.as_slice()),
        Refusal::RoleRefChanged => role_ref_changed(alloc, asked, name),
        Refusal::NamespaceNotEmpty => still_full(alloc, asked, name),
        Refusal::NoRevisionLeft => failed(
            alloc,
            StatusCode::ServiceUnavailable,
            "ServiceUnavailable",
            "no revision is left",
        ),
        Refusal::NotYetReached(revisions) => not_yet_reached(alloc, *revisions),
        Refusal::Expired(old) => expired(alloc, *old),
    }
}

/// The failure if nothing is served of the resource that is asked for.
fn no_such_resource(alloc: Global) -> Result<Failure, Memory>
    ensures { IfOk result (λ f. failure_data f ≡ table.failed StatusCode.NotFound (codes "NotFound") (codes "no such resource")) }
{
    failed(alloc, StatusCode::NotFound, "NotFound", "no such resource")
}

/// The failure if a revision is asked for that is not reached yet.
fn not_yet_reached(alloc: Global, revisions: Revisions) -> Result<Failure, Memory>
    ensures { IfOk result (λ f. failure_data f ≡ table.not_yet_reached revisions) }
{
    let message = format!(in alloc;
        "resourceVersion {} is above the current {}",
        revisions.asked, revisions.current
    )?;
    Ok(with_message(alloc, StatusCode::GatewayTimeout, "Timeout", message))
}

/// The failure where a watch would begin, or goes on, below the window of the changes that are kept.
pub fn expired(alloc: Global, old: OldRevision) -> Result<Failure, Memory>
    ensures { IfOk result (λ f. failure_data f ≡ table.expired old) }
{
    let message = format!(in alloc;
        "resourceVersion {} is below the window, which begins at {}",
        old.asked, old.begins
    )?;
    Ok(with_message(alloc, StatusCode::Gone, "Expired", message))
}

/// The failure for bytes that are no request.
#[tactic(auto, unfolding(crate::specs::Refusals::fault_failure))]
pub fn failure_of_fault(alloc: Global, code: StatusCode, word: &str) -> Result<Failure, Memory>
    ensures { IfOk result (λ f. failure_data f ≡ fault_failure code word.now) }
{
    match code {
        StatusCode::BadRequest => bad_request(alloc, word),
        StatusCode::MethodNotAllowed => not_allowed(alloc, word, &METHODS),
        StatusCode::ContentTooLarge => failed(
            alloc,
            code,
            "RequestEntityTooLarge",
            "the body is too large",
        ),
        code => failed(alloc, code, "", code.phrase()),
    }
}

/// A failure with a code, a word for programs and a message, and no more.
fn failed(
    alloc: Global,
    code: StatusCode,
    reason: &'static str,
    message: &str,
) -> Result<Failure, Memory>
    ensures { IfOk result (λ f. failure_data f ≡ table.failed code reason.now message.now) }
{
    Ok(with_message(alloc, code, reason, String::from_str(alloc, message)?))
}

fn with_message(alloc: Global, code: StatusCode, reason: &'static str, message: String) -> Failure
    ensures { failure_data result ≡ table.failed code reason.now (string_bytes message) }
{
    Failure {
        code,
        reason,
        message,
        causes: Vec::new(alloc),
        allow: &[],
    }
}

/// The failure of a bad request.
pub fn bad_request(alloc: Global, word: &str) -> Result<Failure, Memory>
    ensures { IfOk result (λ f. failure_data f ≡ table.bad_request word.now) }
{
    let message = format!(in alloc; "bad request: {word}")?;
    Ok(with_message(alloc, StatusCode::BadRequest, "BadRequest", message))
}

/// The failure of a method that is not served, with the served methods.
fn not_allowed(alloc: Global, method: &str, allow: &'static [Method]) -> Result<Failure, Memory>
    ensures { IfOk result (λ f. failure_data f ≡ table.not_allowed method.now allow.now) }
{
    Ok(Failure {
        code: StatusCode::MethodNotAllowed,
        reason: "MethodNotAllowed",
        message: format!(in alloc; "{method} is not served here")?,
        causes: Vec::new(alloc),
        allow,
    })
}

/// The failure of an impersonation, with each point that no rule allows as a cause.
#[tactic(auto, unfolding(crate::specs::Refusals::failure_of))]
fn impersonation(
    alloc: Global,
    asked: RefusedRequest<'_>,
    points: &[Point],
) -> Result<Failure, Memory>
    ensures { IfOk result (λ f. failure_data f ≡ table.failure_of (asked_data asked.entry) [] (Refusal.Impersonation points.now)) }
{
    let user = asked.user;
    Ok(Failure {
        code: StatusCode::Forbidden,
        reason: "Forbidden",
        message: format!(in alloc; "{user} may not impersonate")?,
        causes: missing_permissions(alloc, points)?,
        allow: &[],
    })
}

/// The failure of a denial, with the point that no rule allows as its cause.
#[tactic(auto, unfolding(crate::specs::Refusals::failure_of))]
fn denied(alloc: Global, asked: RefusedRequest<'_>) -> Result<Failure, Memory>
    ensures { IfOk result (λ f. failure_data f ≡ table.failure_of (asked_data asked.entry) [] Refusal.Forbidden) }
{
    let mut causes = Vec::new(alloc);
    causes.push(missing_permission(alloc, &asked.attributes.point)?)?;
    Ok(Failure {
        code: StatusCode::Forbidden,
        reason: "Forbidden",
        message: denied_message(alloc, asked.user, asked.attributes.namespace.as_str())?,
        causes,
        allow: &[],
    })
}

#[tactic(auto, unfolding(crate::specs::Refusals::denied_text))]
fn denied_message(alloc: Global, user: &str, namespace: &str) -> Result<String, Memory>
    ensures { IfOk result (λ s. string_bytes s ≡ denied_text user.now namespace.now) }
{
    if namespace.is_empty() {
        format!(in alloc; "{user} may not do this cluster-wide")
    } else {
        joined(alloc, user, " may not do this in namespace ", namespace)
    }
}

/// The failure of a write that would grant what the caller does not hold, each part of it a cause.
#[tactic(auto, unfolding(crate::specs::Refusals::failure_of))]
fn escalation(alloc: Global, asked: RefusedRequest<'_>, atoms: &[Atom]) -> Result<Failure, Memory>
    ensures { IfOk result (λ f. failure_data f ≡ table.failure_of (asked_data asked.entry) [] (Refusal.Escalation atoms.now)) }
{
    Ok(Failure {
        code: StatusCode::Forbidden,
        reason: "Forbidden",
        message: escalation_message(alloc, asked.user, asked.attributes.namespace.as_str())?,
        causes: missing_atoms(alloc, atoms)?,
        allow: &[],
    })
}

#[tactic(auto, unfolding(crate::specs::Refusals::escalation_text))]
fn escalation_message(alloc: Global, user: &str, namespace: &str) -> Result<String, Memory>
    ensures { IfOk result (λ s. string_bytes s ≡ escalation_text user.now namespace.now) }
{
    if namespace.is_empty() {
        format!(in alloc; "{user} does not hold these permissions cluster-wide")
    } else {
        joined(
            alloc,
            user,
            " does not hold these permissions in namespace ",
            namespace,
        )
    }
}

fn joined(alloc: Global, first: &str, second: &str, third: &str) -> Result<String, Memory>
    ensures { IfOk result (λ s. string_bytes s ≡ first.now ++ second.now ++ third.now) }
{
    let mut text = String::from_str(alloc, first)?;
    text.push_str(second)?;
    text.push_str(third)?;
    Ok(text)
}

/// The failure if an object or a namespace is not found.
#[tactic(auto, unfolding(crate::specs::Refusals::not_found))]
fn not_found(
    alloc: Global,
    asked: RefusedRequest<'_>,
    name: &str,
    what: Nonexistent,
) -> Result<Failure, Memory>
    ensures { IfOk result (λ f. failure_data f ≡ table.not_found (asked_data asked.entry) name.now what) }
{
    let message = match what {
        Nonexistent::Object => said_of(alloc, asked, name, " not found")?,
        Nonexistent::Namespace => format!(in alloc;
            "namespaces {} not found",
            asked.attributes.namespace.as_str()
        )?,
    };
    Ok(with_message(alloc, StatusCode::NotFound, "NotFound", message))
}

/// The failure if a binding refers to a role that does not exist.
fn role_not_found(alloc: Global, role: &NamedRole) -> Result<Failure, Memory>
    ensures { IfOk result (λ f. failure_data f ≡ table.role_not_found role.now) }
{
    let mut message = joined(alloc, role.resource.as_str(), " ", role.name.as_str())?;
    message.push_str(" not found")?;
    Ok(with_message(alloc, StatusCode::NotFound, "NotFound", message))
}

#[tactic(auto, unfolding(crate::specs::Refusals::failure_of))]
fn already_exists(alloc: Global, asked: RefusedRequest<'_>, name: &str) -> Result<Failure, Memory>
    ensures { IfOk result (λ f. failure_data f ≡ table.failure_of (asked_data asked.entry) name.now Refusal.AlreadyExists) }
{
    let message = said_of(alloc, asked, name, " already exists")?;
    Ok(with_message(alloc, StatusCode::Conflict, "AlreadyExists", message))
}

/// The failure if the object is at another version than the body gives.
#[tactic(auto, unfolding(crate::specs::Refusals::failure_of))]
fn other_version(
    alloc: Global,
    asked: RefusedRequest<'_>,
    name: &str,
    version: &str,
) -> Result<Failure, Memory>
    ensures { IfOk result (λ f. failure_data f ≡ table.failure_of (asked_data asked.entry) name.now (Refusal.Conflict version.now)) }
{
    let mut message = said_of(alloc, asked, name, " is at resourceVersion ")?;
    message.push_str(version)?;
    Ok(with_message(alloc, StatusCode::Conflict, "Conflict", message))
}

#[tactic(auto, unfolding(crate::specs::Refusals::failure_of))]
fn still_full(alloc: Global, asked: RefusedRequest<'_>, name: &str) -> Result<Failure, Memory>
    ensures { IfOk result (λ f. failure_data f ≡ table.failure_of (asked_data asked.entry) name.now Refusal.NamespaceNotEmpty) }
{
    let message = said_of(alloc, asked, name, " still holds objects")?;
    Ok(with_message(alloc, StatusCode::Conflict, "Conflict", message))
}

/// The failure of a body with faults.
#[tactic(auto, unfolding(crate::specs::Refusals::failure_of))]
fn faulty(
    alloc: Global,
    asked: RefusedRequest<'_>,
    name: &str,
    faults: &[FieldFault],
) -> Result<Failure, Memory>
    ensures { IfOk result (λ f. failure_data f ≡ table.failure_of (asked_data asked.entry) name.now (Refusal.Invalid faults.now)) }
{
    invalid(alloc, asked, name, invalid_fields(alloc, faults)?)
}

/// The failure if a binding is to refer to another role.
#[tactic(auto, unfolding(crate::specs::Refusals::failure_of))]
fn role_ref_changed(alloc: Global, asked: RefusedRequest<'_>, name: &str) -> Result<Failure, Memory>
    ensures { IfOk result (λ f. failure_data f ≡ table.failure_of (asked_data asked.entry) name.now Refusal.RoleRefChanged) }
{
    let mut causes = Vec::new(alloc);
    causes.push(changed_role_ref(alloc)?)?;
    invalid(alloc, asked, name, causes)
}

/// The failure of a body with faults, each of them a cause.
fn invalid(
    alloc: Global,
    asked: RefusedRequest<'_>,
    name: &str,
    causes: Vec<Cause>,
) -> Result<Failure, Memory>
    ensures { IfOk result (λ f. failure_data f ≡ table.invalid (asked_data asked.entry) name.now (map_of cause_data causes.items)) }
{
    Ok(Failure {
        code: StatusCode::UnprocessableContent,
        reason: "Invalid",
        message: said_of(alloc, asked, name, " is invalid")?,
        causes,
        allow: &[],
    })
}

/// What is said of an object: its resource, its name and the words.
fn said_of(
    alloc: Global,
    asked: RefusedRequest<'_>,
    name: &str,
    words: &str,
) -> Result<String, Memory>
    ensures { IfOk result (λ s. string_bytes s ≡ table.said_of (asked_data asked.entry) name.now words.now) }
{
    let mut text = joined(alloc, resource_of(&asked.attributes.point), " ", name)?;
    text.push_str(words)?;
    Ok(text)
}

/// The subject of a failure about an object of that name; none if the request is about no resource.
#[tactic(auto, unfolding(crate::specs::Refusals::subject_of))]
pub fn subject_of<'a>(point: &'a Point, name: &'a str) -> Option<Subject<'a>>
    ensures { option_map subject_data result ≡ table.subject_of point.entry.now name.entry.now }
{
    match point {
        Point::Url(_) => None,
        Point::Resource(point) => Some(Subject {
            group: point.group.as_str(),
            resource: point.resource.as_str(),
            name,
        }),
    }
}

fn resource_of(point: &Point) -> &str
    ensures { result.now ≡ table.resource_of point.now }
{
    match point {
        Point::Resource(point) => point.resource.as_str(),
        Point::Url(_) => "",
    }
}

/// The name of a point.
pub fn name_of(point: &Point) -> &str
    ensures { result.now ≡ table.name_of point.now }
{
    match point {
        Point::Resource(point) => point.name.as_str(),
        Point::Url(_) => "",
    }
}
