//! The text of the answer to a review.
ghost use Rattle.std.specs.Prelude.{◌≡◌, IfOk};
ghost use Rattle.serde_json.specs.View.{view, members_view};
ghost use Rattle.kapi_policy.specs.Views.{decision_of};
ghost use Rattle.kapi_reviews.specs.Answers as written;

use crate::kind::ReviewKind;
use crate::question::Question;
use crate::reasons::reason;
use kapi_model::Identity;
use kapi_object::tree_form::{put_string, put_text, put_texts};
use kapi_policy::Decision;
use kapi_rules::{Point, ResourcePoint};
use kapi_text::Memory;
use serde_json::{Map, Value, put};
use std::alloc::Global;

fn attributes_key(point: &Point) -> &'static str
    ensures { result.now ≡ written.attributes_key point.now }
{
    match point {
        Point::Resource(_point) => "resourceAttributes",
        Point::Url(_point) => "nonResourceAttributes",
    }
}

#[tactic(auto, unfolding(crate::specs::Answers::attributes_members))]
fn resource_members(
    alloc: Global,
    namespace: &str,
    point: &ResourcePoint,
) -> Result<Map<String, Value>, Memory>
    ensures { IfOk result (λ m. members_view m.entries ≡ written.attributes_members namespace.now (Point.Resource point.now)) }
{
    let mut members = Map::new(alloc);
    put_text(alloc, &mut members, "namespace", namespace)?;
    put_text(alloc, &mut members, "verb", point.verb.as_str())?;
    put_text(alloc, &mut members, "group", point.group.as_str())?;
    put_text(alloc, &mut members, "resource", point.resource.as_str())?;
    put_text(
        alloc,
        &mut members,
        "subresource",
        point.subresource.as_str(),
    )?;
    put_text(alloc, &mut members, "name", point.name.as_str())?;
    Ok(members)
}

/// The attributes of a point, with the namespace of a resource.
#[tactic(auto, unfolding(crate::specs::Answers::attributes_members))]
fn attributes_members(
    alloc: Global,
    namespace: &str,
    point: &Point,
) -> Result<Map<String, Value>, Memory>
    ensures { IfOk result (λ m. members_view m.entries ≡ written.attributes_members namespace.now point.now) }
{
    let point = match point {
        Point::Resource(point) => return resource_members(alloc, namespace, point),
        Point::Url(point) => point,
    };
    let mut members = Map::new(alloc);
    put_text(alloc, &mut members, "path", point.path.as_str())?;
    put_text(alloc, &mut members, "verb", point.verb.as_str())?;
    Ok(members)
}

/// The user and the groups, in a review that names them.
fn subject_members(
    alloc: Global,
    kind: ReviewKind,
    identity: &Identity,
) -> Result<Map<String, Value>, Memory>
    ensures { IfOk result (λ m. members_view m.entries ≡ written.subject_members kind identity.now) }
{
    let mut members = Map::new(alloc);
    if kind.tells_subject() {
        put_text(alloc, &mut members, "user", identity.user.as_str())?;
        put_texts(alloc, &mut members, "groups", identity.groups.as_slice())?;
    }
    Ok(members)
}

/// The question as the `spec` of a review.
#[tactic(auto, unfolding(crate::specs::Answers::question_tree))]
pub fn question_tree(alloc: Global, kind: ReviewKind, question: &Question) -> Result<Value, Memory>
    ensures { IfOk result (λ v. view v ≡ written.question_tree kind question.now) }
{
    let mut members = subject_members(alloc, kind, &question.identity)?;
    let attributes = attributes_members(alloc, question.namespace.as_str(), &question.point)?;
    let key = attributes_key(&question.point);
    put(&mut members, alloc, key, Value::Object(attributes))?;
    Ok(Value::Object(members))
}

/// A decision as the `status` of a review: whether the point is allowed, and if so by what.
#[tactic(auto, unfolding(crate::specs::Answers::decision_tree))]
pub fn decision_tree(alloc: Global, decision: &Decision<'_>) -> Result<Value, Memory>
    ensures { IfOk result (λ v. view v ≡ written.decision_tree (decision_of decision.now)) }
{
    let mut members = Map::new(alloc);
    let allowed = Value::Bool(decision.is_allowed());
    put(&mut members, alloc, "allowed", allowed)?;
    if let Some(reason) = reason(alloc, decision)? {
        put_string(alloc, &mut members, "reason", reason.as_str())?;
    }
    Ok(Value::Object(members))
}

/// The namespace of a review that is in one.
fn metadata_members(
    alloc: Global,
    kind: ReviewKind,
    namespace: &str,
) -> Result<Map<String, Value>, Memory>
    ensures { IfOk result (λ m. members_view m.entries ≡ written.metadata_members kind namespace.now) }
{
    let mut members = Map::new(alloc);
    if kind.is_local() {
        put_text(alloc, &mut members, "namespace", namespace)?;
    }
    Ok(members)
}

/// The review with its answer.
#[tactic(auto, unfolding(crate::specs::Answers::review_tree))]
pub fn review_tree(
    alloc: Global,
    kind: ReviewKind,
    namespace: &str,
    spec: Value,
    status: Value,
) -> Result<Value, Memory>
    ensures { IfOk result (λ v. view v ≡ written.review_tree kind namespace.now (view spec) (view status)) }
{
    let metadata = metadata_members(alloc, kind, namespace)?;
    let mut members = Map::new(alloc);
    put_string(alloc, &mut members, "apiVersion", "authorization.k8s.io/v1")?;
    put_string(alloc, &mut members, "kind", kind.as_str())?;
    put(&mut members, alloc, "metadata", Value::Object(metadata))?;
    put(&mut members, alloc, "spec", spec)?;
    put(&mut members, alloc, "status", status)?;
    Ok(Value::Object(members))
}
