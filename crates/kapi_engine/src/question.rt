//! Questions: each is the `spec` of a SubjectAccessReview (Kubernetes API, authorization.k8s.io/v1), as a server reads
//! it.
ghost use Rattle.std.specs.Prelude.{◌≡◌, true, IfOk, Some};
ghost use Rattle.serde_json.specs.View.{view};
ghost use Rattle.kapi_object.specs.Admission.{read_as};
ghost use Rattle.kapi_object.specs.Order.{is_ordered};
ghost use Rattle.kapi_engine.specs.Questions as asks;
ghost use Rattle.kapi_engine.specs.Questions.{review_of};

use kapi_model::{Identity, ResourceRow};
use kapi_object::{ObjectError, admitted_tree, read_tree};
use kapi_reviews::{Question, ReviewError, ReviewKind, read_review};
use kapi_text::{Memory, Sequence, Text};
use serde_json::{Map, Value, put};
use std::alloc::{AllocError, Global};

/// The question that a line is; none if the line is no question. `row` is that of access reviews.
#[tactic(auto, unfolding(crate::specs::Questions::question_of))]
pub fn question_of(
    alloc: Global,
    row: &ResourceRow,
    line: &[u8],
) -> Result<Option<Question>, Memory>
    ensures { IfOk result (λ q. q ≡ asks.question_of row.now line.now) }
{
    match read_tree(alloc, line) {
        Ok(spec) => question_in(alloc, row, spec),
        Err(ObjectError::Memory) => Err(AllocError),
        Err(_other) => Ok(None),
    }
}

/// The question that the review with this `spec` asks, if a server takes it.
fn question_in(alloc: Global, row: &ResourceRow, spec: Value) -> Result<Option<Question>, Memory>
    requires ordered { is_ordered (view spec) ≡ true }
    ensures { IfOk result (λ q. q ≡ asks.asked_if (read_as row.now (Some (review_of (view spec))))) }
{
    let mut members = Map::new(alloc);
    put(&mut members, alloc, "spec", spec)?;
    match admitted_tree(alloc, row, Value::Object(members)) {
        Ok(review) => question_by(alloc, &review),
        Err(ObjectError::Memory) => Err(AllocError),
        Err(_other) => Ok(None),
    }
}

/// The question that a review asks, if it has no fault.
#[tactic(auto, unfolding(crate::specs::Questions::asked_by))]
fn question_by(alloc: Global, tree: &Value) -> Result<Option<Question>, Memory>
    ensures { IfOk result (λ q. q ≡ asks.asked_by (view tree.now)) }
{
    match read_review(
        alloc,
        &nobody(alloc)?,
        ReviewKind::SubjectAccessReview,
        tree,
    ) {
        Ok(question) => Ok(Some(question)),
        Err(ReviewError::Invalid(_faults)) => Ok(None),
        Err(ReviewError::Memory) => Err(AllocError),
    }
}

/// The identity that makes the review of a question: it does not count, as the review names a user and groups.
fn nobody(alloc: Global) -> Result<Identity, Memory>
    ensures { IfOk result (λ i. i ≡ asks.nobody) }
{
    Ok(Identity {
        user: Text::copy_of(alloc, "")?,
        groups: Sequence::new(Vec::new(alloc)),
    })
}
