//! What a review of access asks.
ghost use Rattle.std.specs.Prelude.{◌≡◌, IfOk, codes};
ghost use Rattle.serde_json.specs.View.{view};
ghost use Rattle.kapi_rules.specs.Points.{HasPlainResource};
ghost use Rattle.kapi_reviews.specs.Questions as asks;

use crate::attributes::resource_and_subresource;
use crate::kind::ReviewKind;
use kapi_model::Identity;
use kapi_object::member;
use kapi_object::table_faults::text_in;
use kapi_object::tree_form::{read_list, read_text};
use kapi_rules::{Point, ResourcePoint, UrlPoint};
use kapi_text::{Memory, Text, TryCopy};
use serde_json::Value;
use std::alloc::Global;

/// Whether an identity may do something in a namespace, or cluster-wide if the namespace is empty.
#[derive(Drop)]
pub struct Question {
    pub identity: Identity,
    pub namespace: Text,
    pub point: Point,
}

fn asked_identity(
    alloc: Global,
    kind: ReviewKind,
    caller: &Identity,
    spec: &Value,
) -> Result<Identity, Memory>
    ensures { IfOk result (λ i. i ≡ asks.asked_identity kind caller.now (view spec.now)) }
{
    if !kind.tells_subject() {
        return caller.copy(alloc);
    }
    Ok(Identity {
        user: read_text(alloc, spec, "user")?,
        groups: read_list(alloc, spec, "groups")?,
    })
}

fn asked_namespace<'a>(kind: ReviewKind, namespace: &'a str, attributes: &'a Value) -> &'a str
    ensures { result.now ≡ asks.asked_namespace kind namespace.now (view attributes.now) }
{
    if kind.is_local() {
        namespace
    } else {
        text_in(attributes, "namespace")
    }
}

/// The point of the attributes of a resource.
#[tactic(auto, using(crate::proofs::Slashes::no_slash_before))]
fn resource_point(alloc: Global, attributes: &Value) -> Result<Point, Memory>
    ensures point { IfOk result (λ p. p ≡ asks.resource_point (view attributes.now)) }
    ensures plain { HasPlainResource (asks.resource_point (view attributes.now)) }
{
    let (resource, subresource) = resource_and_subresource(attributes);
    Ok(Point::Resource(ResourcePoint {
        verb: read_text(alloc, attributes, "verb")?,
        group: read_text(alloc, attributes, "group")?,
        resource: Text::copy_of(alloc, resource)?,
        subresource: Text::copy_of(alloc, subresource)?,
        name: read_text(alloc, attributes, "name")?,
    }))
}

/// The point of the attributes of a path.
fn url_point(alloc: Global, attributes: &Value) -> Result<Point, Memory>
    ensures { IfOk result (λ p. p ≡ asks.url_point (view attributes.now)) }
{
    Ok(Point::Url(UrlPoint {
        verb: read_text(alloc, attributes, "verb")?,
        path: read_text(alloc, attributes, "path")?,
    }))
}

/// The point of the attributes of a path, if there are any.
fn asked_url_point(alloc: Global, spec: &Value) -> Result<Point, Memory>
    ensures { IfOk result (λ p. p ≡ asks.url_point (asks.at (codes "nonResourceAttributes") (view spec.now))) }
{
    match member(spec, "nonResourceAttributes") {
        Some(attributes) => url_point(alloc, attributes),
        None => url_point(alloc, &Value::Null),
    }
}

/// The question of a review's `spec`.
#[tactic(auto, unfolding(crate::specs::Questions::question))]
pub(crate) fn read_question(
    alloc: Global,
    kind: ReviewKind,
    namespace: &str,
    caller: &Identity,
    spec: &Value,
) -> Result<Question, Memory>
    ensures question { IfOk result (λ q. q ≡ asks.question kind namespace.now caller.now (view spec.now)) }

    // the resource that is asked about never has a slash
    ensures plain { IfOk result (λ q. HasPlainResource q.point) }
{
    let identity = asked_identity(alloc, kind, caller, spec)?;
    let Some(attributes) = member(spec, "resourceAttributes") else {
        return Ok(Question {
            identity,
            namespace: Text::copy_of(alloc, "")?,
            point: asked_url_point(alloc, spec)?,
        });
    };
    let namespace = asked_namespace(kind, namespace, attributes);
    Ok(Question {
        identity,
        namespace: Text::copy_of(alloc, namespace)?,
        point: resource_point(alloc, attributes)?,
    })
}
