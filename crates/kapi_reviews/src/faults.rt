//! What is wrong with a review, in the order of its members.
ghost use Rattle.std.specs.Prelude.{◌≡◌, ◌++◌, codes, IfOk, OnOk};
ghost use Rattle.serde_json.specs.View.{view};
ghost use Rattle.kapi_object.specs.Tree.{member_of};
ghost use Rattle.kapi_reviews.specs.Faults as wrong;

use crate::attributes::{has, is_right_namespace, is_right_resource, is_right_subresource};
use crate::kind::ReviewKind;
use kapi_model::{FaultKind, FieldFault, Schema};
use kapi_object::text_rule::{TextRule, push_text_faults_at};
use kapi_object::tree::member_of_metadata;
use kapi_object::typed_list::{Presence, is_given, push_list_faults_at};
use kapi_object::{collect_faults, member, push_fault};
use kapi_text::Memory;
use serde_json::Value;
use std::alloc::Global;

/// The path of the attributes of a resource.
const RESOURCE: &str = "spec.resourceAttributes";

/// The path of the attributes of a URL.
const URL: &str = "spec.nonResourceAttributes";

/// What the faults of a `spec` depend on beside it: the kind of its review, and the namespace that the review is in.
#[derive(Clone, Copy)]
struct Review<'a> {
    alloc: Global,
    kind: ReviewKind,
    namespace: &'a str,
}

/// The rule of a text that may be any, or else has a rule.
#[tactic(auto, unfolding(crate::specs::Faults::any_or))]
fn any_or(is_free: bool, rule: TextRule) -> TextRule
    ensures { result ≡ wrong.any_or is_free rule }
{
    if is_free { TextRule::Any } else { rule }
}

impl Review<'_> {
    /// Adds what is wrong with the attributes of a resource, member by member.
    #[tactic(auto, using(std::proofs::Common::append_assoc), unfolding(crate::specs::Faults::resource_member_faults))]
    fn push_resource_members(self, faults: &mut Vec<FieldFault>, tree: &Value) -> Result<(), Memory>
        ensures { OnOk result (faults.new.items ≡ faults.old.items ++ wrong.resource_member_faults self.entry.kind self.entry.namespace.now (codes "spec.resourceAttributes") (view tree.now)) }
    {
        let alloc = self.alloc;
        let namespace = is_right_namespace(self.kind, self.namespace, tree);
        let namespace = any_or(namespace, TextRule::Empty);
        let resource = any_or(is_right_resource(tree), TextRule::Empty);
        let subresource = any_or(is_right_subresource(tree), TextRule::Empty);
        push_text_faults_at(alloc, faults, namespace, RESOURCE, "namespace", tree)?;
        push_text_faults_at(alloc, faults, TextRule::Any, RESOURCE, "verb", tree)?;
        push_text_faults_at(alloc, faults, TextRule::Any, RESOURCE, "group", tree)?;
        push_text_faults_at(alloc, faults, resource, RESOURCE, "resource", tree)?;
        push_text_faults_at(alloc, faults, subresource, RESOURCE, "subresource", tree)?;
        push_text_faults_at(alloc, faults, TextRule::Any, RESOURCE, "name", tree)
    }

    /// Adds what is wrong with the attributes of a resource: they must be there in a local review, and if those of a
    /// path are not.
    #[tactic(auto, unfolding(crate::specs::Faults::resource_faults))]
    fn push_resource(self, faults: &mut Vec<FieldFault>, spec: &Value) -> Result<(), Memory>
        ensures { OnOk result (faults.new.items ≡ faults.old.items
            ++ wrong.resource_faults self.entry.kind self.entry.namespace.now (view spec.now) (member_of (codes "resourceAttributes") (view spec.now))) }
    {
        match member(spec, "resourceAttributes") {
            Some(tree) if tree.is_object() => self.push_resource_members(faults, tree),
            Some(_other) => push_fault(self.alloc, faults, RESOURCE, FaultKind::WrongType),
            None if self.kind.is_local() || !has(spec, "nonResourceAttributes") => {
                push_fault(self.alloc, faults, RESOURCE, FaultKind::Required)
            }
            None => Ok(()),
        }
    }

    /// Adds what is wrong with the attributes of a path: they may not be there in a local review, nor beside those of a
    /// resource.
    #[tactic(auto, using(std::proofs::Common::append_assoc), unfolding(crate::specs::Faults::url_faults))]
    fn push_url(self, faults: &mut Vec<FieldFault>, spec: &Value) -> Result<(), Memory>
        ensures { OnOk result (faults.new.items ≡ faults.old.items
            ++ wrong.url_faults self.entry.kind (view spec.now) (member_of (codes "nonResourceAttributes") (view spec.now))) }
    {
        let Some(tree) = member(spec, "nonResourceAttributes") else {
            return Ok(());
        };
        if self.kind.is_local() || has(spec, "resourceAttributes") {
            return push_fault(self.alloc, faults, URL, FaultKind::NotAllowedHere);
        }
        if !tree.is_object() {
            return push_fault(self.alloc, faults, URL, FaultKind::WrongType);
        }
        push_text_faults_at(self.alloc, faults, TextRule::Any, URL, "path", tree)?;
        push_text_faults_at(self.alloc, faults, TextRule::Any, URL, "verb", tree)
    }

    /// Adds what is wrong with the user and the groups: a user must be named if no group is.
    #[tactic(auto, using(std::proofs::Common::append_assoc), unfolding(crate::specs::Faults::subject_faults))]
    fn push_subject(self, faults: &mut Vec<FieldFault>, spec: &Value) -> Result<(), Memory>
        ensures { OnOk result (faults.new.items ≡ faults.old.items ++ wrong.subject_faults (view spec.now)) }
    {
        let user = any_or(is_given(spec, "groups"), TextRule::NotEmpty);
        push_text_faults_at(self.alloc, faults, user, "spec", "user", spec)?;
        let (rule, need) = (TextRule::Any, Presence::Optional);
        push_list_faults_at(self.alloc, faults, &rule, need, "spec", "groups", spec)
    }

    /// Adds what is wrong with the members of a `spec`.
    #[tactic(auto, using(std::proofs::Common::append_assoc), unfolding(crate::specs::Faults::spec_member_faults))]
    fn push_members(self, faults: &mut Vec<FieldFault>, spec: &Value) -> Result<(), Memory>
        ensures { OnOk result (faults.new.items ≡ faults.old.items ++ wrong.spec_member_faults self.entry.kind self.entry.namespace.now (codes "spec") (view spec.now)) }
    {
        if self.kind.asks_rules() {
            let rule = TextRule::NotEmpty;
            return push_text_faults_at(self.alloc, faults, rule, "spec", "namespace", spec);
        }
        self.push_resource(faults, spec)?;
        self.push_url(faults, spec)?;
        if self.kind.tells_subject() {
            return self.push_subject(faults, spec);
        }
        Ok(())
    }

    /// Adds what is wrong with the `spec` of a review.
    #[tactic(auto, unfolding(crate::specs::Faults::spec_faults))]
    fn push_spec(self, faults: &mut Vec<FieldFault>, review: &Value) -> Result<(), Memory>
        ensures { OnOk result (faults.new.items ≡ faults.old.items
            ++ wrong.spec_faults self.entry.kind self.entry.namespace.now (member_of (codes "spec") (view review.now))) }
    {
        match member(review, "spec") {
            Some(spec) if spec.is_object() => self.push_members(faults, spec),
            Some(_other) => push_fault(self.alloc, faults, "spec", FaultKind::WrongType),
            None => push_fault(self.alloc, faults, "spec", FaultKind::Required),
        }
    }
}

/// The namespace that a review is in; the empty text if it names none.
pub fn namespace_of(tree: &Value) -> &str
    ensures { result.now ≡ wrong.namespace_of (view tree.now) }
{
    match member_of_metadata(tree, "namespace") {
        Some(Value::String(text)) => text.as_str(),
        _other => "",
    }
}

/// What is wrong with a review: with its metadata, or else with its `spec`.
#[tactic(auto, unfolding(crate::specs::Faults::review_faults))]
pub fn collect_review_faults(
    alloc: Global,
    kind: ReviewKind,
    tree: &Value,
) -> Result<Vec<FieldFault>, Memory>
    ensures { IfOk result (λ v. v.items ≡ wrong.review_faults kind (view tree.now)) }
{
    let mut faults = collect_faults(alloc, Schema::Open, tree)?;
    if faults.is_empty() {
        let namespace = namespace_of(tree);
        let review = Review {
            alloc,
            kind,
            namespace,
        };
        review.push_spec(&mut faults, tree)?;
    }
    Ok(faults)
}
