ghost use Rattle.std.specs.Prelude.{◌≡◌, IfOk};
ghost use Rattle.serde_json.specs.View.{view, members_view};
ghost use Rattle.kapi_model.specs.declared.row.Schema.TheVariants as schemas;
ghost use Rattle.kapi_object.specs.Contents as form;
ghost use Rattle.kapi_object.specs.Contents.{content_of};

use crate::rules_form::read_rules;
use crate::selector_form::{put_aggregation, read_aggregation};
use crate::subjects_form::{read_role_ref, read_subjects, role_ref_tree};
use crate::tree::into_members;
use crate::tree_form::{put_items, write_items};
use kapi_model::{AggregationRule, PolicyRule, RoleRef, Schema, Subject};
use kapi_text::Memory;
use serde_json::{Map, Value, put};
use std::alloc::Global;

/// What a role has beside its metadata.
pub fn role_content(alloc: Global, rules: &[PolicyRule]) -> Result<Map<String, Value>, Memory>
    ensures { IfOk result (λ m. members_view m.entries ≡ form.role_content rules.now) }
{
    let mut members = Map::new(alloc);
    let rules = Value::Array(write_items(alloc, rules)?);
    put(&mut members, alloc, "rules", rules)?;
    Ok(members)
}

/// What a cluster role has beside its metadata.
pub fn cluster_role_content(
    alloc: Global,
    aggregation: &Option<AggregationRule>,
    rules: &[PolicyRule],
) -> Result<Map<String, Value>, Memory>
    ensures { IfOk result (λ m. members_view m.entries ≡ form.cluster_role_content aggregation.now rules.now) }
{
    let mut members = role_content(alloc, rules)?;
    if let Some(rule) = aggregation {
        put_aggregation(alloc, &mut members, rule)?;
    }
    Ok(members)
}

/// What a binding has beside its metadata.
pub fn binding_content(
    alloc: Global,
    subjects: &[Subject],
    role_ref: &RoleRef,
) -> Result<Map<String, Value>, Memory>
    ensures { IfOk result (λ m. members_view m.entries ≡ form.binding_content subjects.now role_ref.now) }
{
    let mut members = Map::new(alloc);
    put(
        &mut members,
        alloc,
        "roleRef",
        role_ref_tree(alloc, role_ref)?,
    )?;
    put_items(
        alloc,
        &mut members,
        "subjects",
        write_items(alloc, subjects)?,
    )?;
    Ok(members)
}

/// What is kept of a role beside its metadata.
#[tactic(auto, unfolding(crate::specs::Contents::content_of))]
fn kept_role(alloc: Global, tree: &Value) -> Result<Map<String, Value>, Memory>
    ensures { IfOk result (λ m. members_view m.entries ≡ content_of schemas.Role (view tree.now)) }
{
    let rules = read_rules(alloc, tree)?;
    role_content(alloc, rules.as_slice())
}

/// What is kept of a cluster role beside its metadata.
#[tactic(auto, unfolding(crate::specs::Contents::content_of))]
fn kept_cluster_role(alloc: Global, tree: &Value) -> Result<Map<String, Value>, Memory>
    ensures { IfOk result (λ m. members_view m.entries ≡ content_of schemas.ClusterRole (view tree.now)) }
{
    let aggregation = read_aggregation(alloc, tree)?;
    let rules = read_rules(alloc, tree)?;
    cluster_role_content(alloc, &aggregation, rules.as_slice())
}

/// What is kept of a binding beside its metadata.
#[tactic(auto, unfolding(crate::specs::Contents::content_of))]
fn kept_binding(alloc: Global, tree: &Value) -> Result<Map<String, Value>, Memory>
    ensures { IfOk result (λ m. members_view m.entries ≡ content_of schemas.RoleBinding (view tree.now)) }
{
    let subjects = read_subjects(alloc, tree)?;
    let role_ref = read_role_ref(alloc, tree)?;
    binding_content(alloc, subjects.as_slice(), &role_ref)
}

/// What is kept of a tree beside its metadata, by the resource type's schema; the Open schema keeps all members.
#[tactic(auto, unfolding(crate::specs::Contents::content_of))]
pub fn content(alloc: Global, schema: Schema, tree: Value) -> Result<Map<String, Value>, Memory>
    ensures { IfOk result (λ m. members_view m.entries ≡ content_of schema (view tree)) }
{
    match schema {
        Schema::Open => Ok(into_members(alloc, tree)),
        Schema::Role => kept_role(alloc, &tree),
        Schema::ClusterRole => kept_cluster_role(alloc, &tree),
        Schema::RoleBinding | Schema::ClusterRoleBinding => kept_binding(alloc, &tree),
    }
}
