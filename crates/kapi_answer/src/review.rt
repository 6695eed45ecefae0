//! Reviews, which are answered and not kept.
ghost use Rattle.std.specs.Prelude.{◌≡◌, [], None, Ok, IfOk};
ghost use Rattle.kapi_http.specs.declared.message.StatusCode.TheVariants as status;
ghost use Rattle.kapi_text.specs.ResultIs.{ResultIs, ◌>>=◌ as and_then};
ghost use Rattle.kapi_object.specs.Object.{tree_of};
ghost use Rattle.kapi_reply.specs.Refusals.{refused_by};
ghost use Rattle.kapi_reviews.specs.Reviews.{reviewed};
ghost use Rattle.kapi_answer.specs.Create.{valid};
ghost use Rattle.kapi_answer.specs.Response.{told};
ghost use Rattle.kapi_answer.specs.Responses.{admitted_data, response_data};
ghost use Rattle.kapi_answer.specs.Review as reviews;
ghost use Rattle.kapi_answer.specs.Review.{in_review_namespace, to_answer, to_review};

use crate::create::{
    Admitted, check_namespace, check_validity, read_body, refused, with_namespace,
};
use crate::response::Response;
use crate::route::is_review_group;
use crate::task::Task;
use kapi_http::StatusCode;
use kapi_model::{Identity, ResourceRow};
use kapi_object::{GivenText, Object};
use kapi_policy::Policy;
use kapi_reply::{CheckError, Content, Refusal};
use kapi_reviews::{ReviewError, ReviewKind, review};
use kapi_text::Text;
use std::alloc::Global;

/// The kind of the reviews that a resource type takes, if any.
#[tactic(auto, unfolding(crate::specs::Review::review_kind))]
pub fn review_kind(row: &ResourceRow) -> Option<ReviewKind>
    ensures { result ≡ reviews.review_kind row.now }
{
    if is_review_group(row) {
        ReviewKind::read(row.kind.as_str())
    } else {
        None
    }
}

/// The answer to a review, from its body on. Nothing is changed.
#[tactic(auto, unfolding(crate::specs::Review::to_review))]
pub fn tell_review<P: Policy>(
    alloc: Global,
    policy: &P,
    kind: ReviewKind,
    task: Task<'_>,
) -> Result<Response, CheckError>
    ensures gives { ResultIs refused_by response_data result (to_review (P.content policy.now) task.entry.identity.now kind task.entry.row.now task.entry.namespace.now task.entry.body.now) }
    ensures told { IfOk result (λ o. o.write ≡ None) }
{
    let body = read_body(alloc, task.row, task.body)?;
    answer_body(
        alloc,
        policy,
        task.identity,
        kind,
        task.row,
        task.namespace,
        body,
    )
}

/// The answer to the review that a body was read as: its namespace, its validity, what it asks.
#[tactic(auto, unfolding(crate::specs::Review::to_answer))]
fn answer_body<P: Policy>(
    alloc: Global,
    policy: &P,
    identity: &Identity,
    kind: ReviewKind,
    row: &ResourceRow,
    namespace: &str,
    body: Admitted,
) -> Result<Response, CheckError>
    ensures gives { ResultIs refused_by response_data result (to_answer (P.content policy.now) identity.now kind row.now namespace.now (admitted_data body)) }
    ensures told { IfOk result (λ o. o.write ≡ None) }
{
    check_review_namespace(alloc, row, namespace, &body.given.namespace)?;
    let object = check_validity(alloc, &Text::copy_of(alloc, "")?, body.object)?;
    let object = with_namespace(alloc, row, namespace, object)?;
    answer_review(alloc, policy, identity, kind, &object)
}

/// The response of a review of its resource type's kind, or its faults.
fn answer_review<P: Policy>(
    alloc: Global,
    policy: &P,
    identity: &Identity,
    kind: ReviewKind,
    object: &Object,
) -> Result<Response, CheckError>
    ensures gives { ResultIs refused_by response_data result (and_then (valid [] (reviewed (P.content policy.now) identity.now kind (tree_of object.now))) (λ answer. Ok (told status.Created answer))) }
    ensures told { IfOk result (λ o. o.write ≡ None) }
{
    let answer = answer_valid(alloc, policy, identity, kind, object)?;
    Ok(Response {
        code: StatusCode::Created,
        content: Content::Json,
        body: answer.render(alloc)?,
        write: None,
    })
}

/// Checks that the body gives no other namespace than the path's, where reviews live in namespaces.
#[tactic(auto, unfolding(crate::specs::Review::in_review_namespace))]
fn check_review_namespace(
    alloc: Global,
    row: &ResourceRow,
    namespace: &str,
    given: &GivenText,
) -> Result<(), CheckError>
    ensures { ResultIs refused_by (λ u. u) result (in_review_namespace row.now namespace.now given.now) }
{
    if row.namespaced {
        check_namespace(alloc, namespace, &Text::copy_of(alloc, "")?, given)
    } else {
        Ok(())
    }
}

/// The answer to a review of its resource type's kind, or its faults.
#[tactic(auto, unfolding(crate::specs::Create::valid))]
fn answer_valid<P: Policy>(
    alloc: Global,
    policy: &P,
    identity: &Identity,
    kind: ReviewKind,
    object: &Object,
) -> Result<Object, CheckError>
    ensures { ResultIs refused_by tree_of result (valid [] (reviewed (P.content policy.now) identity.now kind (tree_of object.now))) }
{
    match review(alloc, policy, identity, kind, object.as_tree()) {
        Ok(answer) => Ok(answer),
        Err(ReviewError::Invalid(faults)) => {
            Err(refused(Text::copy_of(alloc, "")?, Refusal::Invalid(faults)))
        }
        Err(ReviewError::Memory) => Err(CheckError::Memory),
    }
}
