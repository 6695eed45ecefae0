ghost use Rattle.std.specs.Prelude.{◌≡◌, ◌++◌, Some, OnOk};
ghost use Rattle.serde_json.specs.View.{view};
ghost use Rattle.kapi_object.specs.Typed.{text_faults, text_faults_at, absent_text_faults, given_text_faults};
ghost use Rattle.kapi_object.specs.Typed as typed;

use crate::metadata::push_fault;
use crate::path::member_path;
use crate::tree::member;
use kapi_model::kinds::{RBAC_GROUP, RoleKind, SubjectKind};
use kapi_model::names::{check_label_key, check_label_value, check_object_name, check_rbac_name};
use kapi_model::selector::Operator;
use kapi_model::{FaultKind, FieldFault};
use kapi_text::Memory;
use serde_json::Value;
use std::alloc::Global;

/// What a text of a typed body has to be. A text may be absent or empty unless its rule says otherwise.
#[derive(Clone, Copy)]
pub enum TextRule {
    Any,
    /// Any text, which must be there.
    NotEmpty,
    /// A label's key, which must be there.
    LabelKey,
    LabelValue,
    /// A selector's operator, which must be there.
    Operator,
    /// A kind of roles, which must be there.
    RoleKind,
    /// The kind of cluster roles, which must be there.
    ClusterRoleKind,
    /// A name of a role, which must be there.
    RoleName,
    /// A kind of subjects, which must be there.
    SubjectKind,
    /// A name of a service account, which must be there.
    AccountName,
    /// The API group of roles, not empty.
    RbacGroup,
    /// The API group of roles.
    RbacGroupOrEmpty,
    /// No text but the empty one.
    Empty,
}

/// Whether the text must be there and not be empty.
fn is_required(rule: TextRule) -> bool
    ensures { result ≡ typed.is_required rule }
{
    match rule {
        TextRule::Any
        | TextRule::LabelValue
        | TextRule::RbacGroup
        | TextRule::RbacGroupOrEmpty
        | TextRule::Empty => false,
        _other => true,
    }
}

/// Whether the text obeys its rule.
pub fn is_right(rule: TextRule, text: &str) -> bool
    ensures { result ≡ typed.is_right rule text.now }
{
    match rule {
        TextRule::Any | TextRule::NotEmpty => true,
        TextRule::LabelKey => check_label_key(text),
        TextRule::LabelValue => check_label_value(text),
        TextRule::Operator => Operator::read(text).is_some(),
        TextRule::RoleKind => RoleKind::read(text).is_some(),
        TextRule::ClusterRoleKind => text == "ClusterRole",
        TextRule::RoleName => check_rbac_name(text),
        TextRule::SubjectKind => SubjectKind::read(text).is_some(),
        TextRule::AccountName => check_object_name(text),
        TextRule::RbacGroup => text == RBAC_GROUP,
        TextRule::RbacGroupOrEmpty => text.is_empty() || text == RBAC_GROUP,
        TextRule::Empty => text.is_empty(),
    }
}

/// Adds what is wrong with a text, if anything.
fn push_given_text_faults(
    alloc: Global,
    faults: &mut Vec<FieldFault>,
    rule: TextRule,
    path: &str,
    text: &str,
) -> Result<(), Memory>
    ensures { OnOk result (faults.new.items ≡ faults.old.items ++ given_text_faults rule path.now text.now) }
{
    if is_required(rule) && text.is_empty() {
        push_fault(alloc, faults, path, FaultKind::Required)
    } else if is_right(rule, text) {
        Ok(())
    } else {
        push_fault(alloc, faults, path, FaultKind::BadValue)
    }
}

/// Adds what is wrong with a value if a text is expected.
#[tactic(auto, unfolding(crate::specs::Typed::text_faults))]
pub fn push_text_faults(
    alloc: Global,
    faults: &mut Vec<FieldFault>,
    rule: TextRule,
    path: &str,
    value: &Value,
) -> Result<(), Memory>
    ensures { OnOk result (faults.new.items ≡ faults.old.items ++ text_faults rule path.now (Some (view value.now))) }
{
    match value {
        Value::String(text) => push_given_text_faults(alloc, faults, rule, path, text.as_str()),
        _other => push_fault(alloc, faults, path, FaultKind::WrongType),
    }
}

/// Adds what is wrong if a text is absent.
fn push_absent_text_faults(
    alloc: Global,
    faults: &mut Vec<FieldFault>,
    rule: TextRule,
    path: &str,
) -> Result<(), Memory>
    ensures { OnOk result (faults.new.items ≡ faults.old.items ++ absent_text_faults rule path.now) }
{
    if is_required(rule) {
        push_fault(alloc, faults, path, FaultKind::Required)
    } else {
        Ok(())
    }
}

/// Adds what is wrong with the text that is the member of a key.
#[tactic(auto, unfolding(crate::specs::Typed::text_faults))]
pub fn push_text_faults_at(
    alloc: Global,
    faults: &mut Vec<FieldFault>,
    rule: TextRule,
    path: &str,
    key: &str,
    tree: &Value,
) -> Result<(), Memory>
    ensures { OnOk result (faults.new.items
        ≡ faults.old.items ++ text_faults_at rule path.now key.now (view tree.now)) }
{
    let field = member_path(alloc, path, key)?;
    match member(tree, key) {
        Some(value) => push_text_faults(alloc, faults, rule, field.as_str(), value),
        None => push_absent_text_faults(alloc, faults, rule, field.as_str()),
    }
}
