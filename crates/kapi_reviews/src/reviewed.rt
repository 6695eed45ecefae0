//! Reviews and their answers.
ghost use Rattle.std.specs.Prelude.{◌≡◌, ℕ, List, IfOk};
ghost use Rattle.serde_json.specs.View.{view};
ghost use Rattle.kapi_text.specs.ResultIs.{ResultIs};
ghost use Rattle.kapi_object.specs.Object.{tree_of};
ghost use Rattle.kapi_policy.specs.Decided.{decided};
ghost use Rattle.kapi_policy.specs.Objects.{PolicyObjects};
ghost use Rattle.kapi_rules.specs.declared.point.Point.{Point};
ghost use Rattle.kapi_rules.specs.Points.{HasPlainResource};
ghost use Rattle.kapi_reviews.specs.Reviews as answers;
ghost use Rattle.kapi_reviews.specs.Reviews.{reviewed, told, unless_faulty};

use crate::answer::{decision_tree, question_tree, review_tree};
use crate::faults::{collect_review_faults, namespace_of};
use crate::kind::ReviewKind;
use crate::question::{Question, read_question};
use crate::review_error::ReviewError;
use crate::rules::rules_tree;
use kapi_model::Identity;
use kapi_object::table_faults::text_in;
use kapi_object::tree_form::put_text;
use kapi_object::{Object, member};
use kapi_policy::Policy;
use kapi_text::{Memory, Sequence};
use serde_json::{Map, Value};
use std::alloc::Global;

/// The identity with its groups in the order of their bytes, in which a policy finds each of them without a walk: what is
/// decided depends on which groups there are, and not on how they are listed.
fn in_order(identity: Identity) -> Identity
    ensures { (objects : PolicyObjects) (namespace : List ℕ) (point : Point) → decided objects result namespace point ≡ decided objects identity namespace point }
{
    let Identity { user, groups } = identity;
    let mut groups = groups.into_vec();
    groups.sort_unstable();
    Identity {
        user,
        groups: Sequence::new(groups),
    }
}

/// The answer to a review without faults: the question and the decision, or the namespace and the rules that the caller
/// holds there.
#[tactic(auto, unfolding(crate::specs::Reviews::spec_answer, crate::specs::Reviews::access_answer, crate::specs::Reviews::rules_answer))]
fn answer<P: Policy>(
    alloc: Global,
    policy: &P,
    caller: &Identity,
    kind: ReviewKind,
    namespace: &str,
    spec: &Value,
) -> Result<Value, Memory>
    ensures { IfOk result (λ v. view v ≡ answers.spec_answer (P.content policy.now) caller.now kind namespace.now (view spec.now)) }
{
    if kind.asks_rules() {
        let asked = text_in(spec, "namespace");
        let held = policy.held(caller, asked)?;
        let status = rules_tree(alloc, held.as_slice())?;
        let mut members = Map::new(alloc);
        put_text(alloc, &mut members, "namespace", asked)?;
        return review_tree(alloc, kind, namespace, Value::Object(members), status);
    }
    let question = read_question(alloc, kind, namespace, caller, spec)?;
    let asked = question_tree(alloc, kind, &question)?;
    let asker = in_order(question.identity);
    let decision = policy.decide(&asker, question.namespace.as_str(), &question.point);
    let status = decision_tree(alloc, &decision)?;
    review_tree(alloc, kind, namespace, asked, status)
}

/// Checks a review. An error has the whole list of its faults in order.
fn check(alloc: Global, kind: ReviewKind, tree: &Value) -> Result<(), ReviewError>
    ensures { ResultIs told (λ u. u) result (unless_faulty kind (view tree.now) tt) }
{
    let faults = collect_review_faults(alloc, kind, tree)?;
    if faults.is_empty() {
        Ok(())
    } else {
        Err(ReviewError::Invalid(Sequence::new(faults)))
    }
}

/// What a review of access that `caller` makes asks, or the whole list of its faults in order.
pub fn read_review(
    alloc: Global,
    caller: &Identity,
    kind: ReviewKind,
    tree: &Value,
) -> Result<Question, ReviewError>
    ensures question { ResultIs told (λ q. q) result (unless_faulty kind (view tree.now) (answers.asked kind caller.now (view tree.now))) }

    // the resource that is asked about never has a slash
    ensures plain { IfOk result (λ q. HasPlainResource q.point) }
{
    check(alloc, kind, tree)?;
    let nothing = Value::Null;
    let spec = member(tree, "spec").unwrap_or(&nothing);
    Ok(read_question(alloc, kind, namespace_of(tree), caller, spec)?)
}

/// The answer to a review that `caller` makes, or the whole list of its faults in order. A local review is in the
/// namespace that its metadata names. The answer is an object of its own: `spec` has what was understood of the review,
/// and `status` the answer; all else of the review is left out. Nothing is changed.
#[tactic(auto, unfolding(crate::specs::Reviews::reviewed), using(crate::proofs::Written::answer_has_no_float, crate::proofs::Written::answer_in_order, crate::proofs::Written::answer_is_shallow))]
pub fn review<P: Policy>(
    alloc: Global,
    policy: &P,
    caller: &Identity,
    kind: ReviewKind,
    tree: &Value,
) -> Result<Object, ReviewError>
    ensures { ResultIs told tree_of result (reviewed (P.content policy.now) caller.now kind (view tree.now)) }
{
    check(alloc, kind, tree)?;
    let nothing = Value::Null;
    let spec = member(tree, "spec").unwrap_or(&nothing);
    let answered = answer(alloc, policy, caller, kind, namespace_of(tree), spec)?;
    Ok(Object::new(answered))
}
