ghost use Rattle.std.specs.Prelude.{◌≡◌, length, Ok, IfOk};
ghost use Rattle.serde_json.specs.View.{view};
ghost use Rattle.kapi_text.specs.ResultIs.{ResultIs};
ghost use Rattle.kapi_model.specs.declared.row.Schema.TheVariants as schema;
ghost use Rattle.kapi_object.specs.Contents as form;
ghost use Rattle.kapi_object.specs.Object.{tree_of};
ghost use Rattle.kapi_object.specs.Tree.{with_content};
ghost use Rattle.kapi_object.specs.Admission.{faults_on};
ghost use Rattle.kapi_rbac_types.specs.Laws.{IsKept, IsOrdered};
ghost use Rattle.kapi_rbac_types.specs.Trees.{told, read_as, role_of, cluster_role_of};

use crate::read_fault::{ReadFault, check};
use kapi_model::{ClusterRole, Role, Schema};
use kapi_object::Object;
use kapi_object::contents::{cluster_role_content, role_content};
use kapi_object::rules_form::read_rules;
use kapi_object::selector_form::read_aggregation;
use kapi_text::Memory;
use serde_json::Value;
use std::alloc::Global;

fn role(alloc: Global, tree: &Value) -> Result<Role, Memory>
    ensures { IfOk result (λ r. r ≡ role_of (view tree.now)) }
{
    let rules = read_rules(alloc, tree)?;
    Ok(Role { rules })
}

/// The cluster role that a tree is read as, whatever its faults.
pub fn cluster_role(alloc: Global, tree: &Value) -> Result<ClusterRole, Memory>
    ensures { IfOk result (λ r. r ≡ cluster_role_of (view tree.now)) }
{
    let aggregation_rule = read_aggregation(alloc, tree)?;
    let rules = read_rules(alloc, tree)?;
    Ok(ClusterRole {
        aggregation_rule,
        rules,
    })
}

/// The role that an object is, or what is wrong with it.
#[tactic(auto, unfolding(crate::specs::Trees::read_as), using(crate::proofs::Laws::role_writes_back))]
pub fn read_role(alloc: Global, object: &Object) -> Result<Role, ReadFault>
    ensures read { ResultIs told (λ r. r) result (read_as schema.Role role_of (tree_of object.now)) }

    // the role, written again, is the object, where the object is as it was admitted
    ensures writes_back { IfOk result (λ r. IsKept schema.Role (tree_of object.now)
        → with_content (form.role_content r.rules) (tree_of object.now) ≡ tree_of object.now) }
{
    check(alloc, object, Schema::Role)?;
    Ok(role(alloc, object.as_tree())?)
}

/// The cluster role that an object is, or what is wrong with it.
#[tactic(auto, unfolding(crate::specs::Trees::read_as), using(crate::proofs::Laws::cluster_role_writes_back))]
pub fn read_cluster_role(alloc: Global, object: &Object) -> Result<ClusterRole, ReadFault>
    ensures read { ResultIs told (λ r. r) result (read_as schema.ClusterRole cluster_role_of (tree_of object.now)) }

    // the cluster role, written again, is the object, where the object is as it was admitted
    ensures writes_back { IfOk result (λ r. IsKept schema.ClusterRole (tree_of object.now)
        → with_content (form.cluster_role_content r.aggregation_rule r.rules) (tree_of object.now) ≡ tree_of object.now) }
{
    check(alloc, object, Schema::ClusterRole)?;
    Ok(cluster_role(alloc, object.as_tree())?)
}

/// The role that an admitted object is.
pub fn admitted_role(alloc: Global, object: &Object) -> Result<Role, Memory>
    ensures { IfOk result (λ r. r ≡ role_of (tree_of object.now)) }
{
    role(alloc, object.as_tree())
}

/// The role as an object with the version, the kind and the metadata of another.
#[tactic(auto, unfolding(crate::specs::Trees::read_as), using(kapi_object::proofs::Written::role_has_no_float, kapi_object::proofs::Written::role_in_order, kapi_object::proofs::Written::role_is_shallow, crate::proofs::Laws::role_reads_back))]
pub fn role_object(alloc: Global, value: &Role, of: &Object) -> Result<Object, Memory>
    ensures written { IfOk result (λ o. tree_of o ≡ with_content (form.role_content value.now.rules) (tree_of of.now)) }

    // the object, read again, is the role, unless it has faults
    ensures reads_back { IfOk result (λ o. length (faults_on schema.Role (tree_of o)) ≡ 0
        → read_as schema.Role role_of (tree_of o) ≡ Ok value.now) }
{
    of.with_content(alloc, role_content(alloc, value.rules.as_slice())?)
}

/// The cluster role that an admitted object is.
pub fn admitted_cluster_role(alloc: Global, object: &Object) -> Result<ClusterRole, Memory>
    ensures { IfOk result (λ r. r ≡ cluster_role_of (tree_of object.now)) }
{
    cluster_role(alloc, object.as_tree())
}

/// The cluster role as an object with the version, the kind and the metadata of another.
#[tactic(auto, unfolding(crate::specs::Trees::read_as), using(kapi_object::proofs::Written::cluster_role_has_no_float, kapi_object::proofs::Written::cluster_role_in_order, kapi_object::proofs::Written::cluster_role_is_shallow, crate::proofs::Laws::cluster_role_reads_back))]
pub fn cluster_role_object(
    alloc: Global,
    value: &ClusterRole,
    of: &Object,
) -> Result<Object, Memory>
    ensures written { IfOk result (λ o. tree_of o
        ≡ with_content (form.cluster_role_content value.now.aggregation_rule value.now.rules) (tree_of of.now)) }

    // the object, read again, is the cluster role, unless it has faults, if the labels of its selectors are in order
    ensures reads_back { IfOk result (λ o. IsOrdered value.now.aggregation_rule
        → length (faults_on schema.ClusterRole (tree_of o)) ≡ 0
        → read_as schema.ClusterRole cluster_role_of (tree_of o) ≡ Ok value.now) }
{
    of.with_content(
        alloc,
        cluster_role_content(alloc, &value.aggregation_rule, value.rules.as_slice())?,
    )
}
