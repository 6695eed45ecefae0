//! The questions about the caller of an impersonation (Kubernetes, 'Authenticating', 'User impersonation').
ghost use Rattle.std.specs.Prelude.{◌≡◌, ◌++◌, IfOk, OnOk};
ghost use Rattle.std.specs.Prelude.{map};
ghost use Rattle.kapi_escalation.specs.Impersonation as asking;

use crate::service_account::service_account;
use kapi_model::Identity;
use kapi_policy::Policy;
use kapi_request_info::Impersonation;
use kapi_rules::{Point, ResourcePoint};
use kapi_text::{Memory, Text, TryCopy};
use std::alloc::Global;

/// Whether a point is allowed in a namespace, or cluster-wide if the namespace is empty.
#[derive(Drop)]
pub struct Question {
    pub namespace: Text,
    pub point: Point,
}

/// The questions of an impersonation: the user, then the groups in their order.
pub fn questions(alloc: Global, wanted: &Impersonation) -> Result<Vec<Question>, Memory>
    ensures { IfOk result (λ v. v.items ≡ asking.questions wanted.now) }
{
    let mut questions = Vec::new(alloc);
    questions.push(user_question(alloc, wanted.user.as_str())?)?;
    push_groups(alloc, &mut questions, wanted.groups.as_slice())?;
    Ok(questions)
}

fn push_groups(alloc: Global, questions: &mut Vec<Question>, groups: &[Text]) -> Result<(), Memory>
    ensures { OnOk result (questions.new.items ≡ questions.old.items ++ map asking.group_question groups.now) }
{
    for group in groups {
        questions.push(question_about(alloc, "", "groups", group.as_str())?)?;
    }
    Ok(())
}

/// A service account is asked for in its namespace, every other user cluster-wide.
#[tactic(auto, unfolding(crate::specs::Impersonation::user_question))]
fn user_question(alloc: Global, user: &str) -> Result<Question, Memory>
    ensures { IfOk result (λ q. q ≡ asking.user_question user.now) }
{
    match service_account(alloc, user)? {
        Some(account) => question_about(
            alloc,
            account.namespace.as_str(),
            "serviceaccounts",
            account.name.as_str(),
        ),
        None => question_about(alloc, "", "users", user),
    }
}

fn question_about(
    alloc: Global,
    namespace: &str,
    resource: &str,
    name: &str,
) -> Result<Question, Memory>
    ensures { IfOk result (λ q. q ≡ asking.question_about namespace.now resource.now name.now) }
{
    Ok(Question {
        namespace: Text::copy_of(alloc, namespace)?,
        point: impersonating(alloc, resource, name)?,
    })
}

/// The point of impersonating the user, group or service account of that name.
fn impersonating(alloc: Global, resource: &str, name: &str) -> Result<Point, Memory>
    ensures { IfOk result (λ p. p ≡ asking.impersonating resource.now name.now) }
{
    Ok(Point::Resource(ResourcePoint {
        verb: Text::copy_of(alloc, "impersonate")?,
        group: Text::copy_of(alloc, "")?,
        resource: Text::copy_of(alloc, resource)?,
        subresource: Text::copy_of(alloc, "")?,
        name: Text::copy_of(alloc, name)?,
    }))
}

/// The points of the questions that are denied to the identity, in their order.
pub fn denied<P: Policy>(
    alloc: Global,
    policy: &P,
    identity: &Identity,
    questions: &[Question],
) -> Result<Vec<Point>, Memory>
    ensures { IfOk result (λ v. v.items ≡ asking.denied (P.content policy.now) identity.now questions.now) }
{
    let mut points = Vec::new(alloc);
    for question in questions {
        if is_denied(policy, identity, question) {
            points.push(question.point.copy(alloc)?)?;
        }
    }
    Ok(points)
}

fn is_denied<P: Policy>(policy: &P, identity: &Identity, question: &Question) -> bool
    ensures { result ≡ asking.is_denied (P.content policy.now) identity.now question.now }
{
    let decision = policy.decide(identity, question.namespace.as_str(), &question.point);
    !decision.is_allowed()
}
