ghost use Rattle.std.specs.Prelude.{◌≡◌, length, Ok, IfOk};
ghost use Rattle.serde_json.specs.View.{view};
ghost use Rattle.kapi_text.specs.ResultIs.{ResultIs};
ghost use Rattle.kapi_model.specs.declared.row.Schema.TheVariants as schema;
ghost use Rattle.kapi_object.specs.Contents as form;
ghost use Rattle.kapi_object.specs.Object.{tree_of};
ghost use Rattle.kapi_object.specs.Tree.{with_content};
ghost use Rattle.kapi_object.specs.Admission.{faults_on};
ghost use Rattle.kapi_rbac_types.specs.Laws.{IsKept};
ghost use Rattle.kapi_rbac_types.specs.Trees.{told, read_as, role_binding_of, cluster_role_binding_of};

use crate::read_fault::{ReadFault, check};
use kapi_model::{ClusterRoleBinding, RoleBinding, Schema};
use kapi_object::Object;
use kapi_object::contents::binding_content;
use kapi_object::subjects_form::{read_role_ref, read_subjects};
use kapi_text::Memory;
use serde_json::Value;
use std::alloc::Global;

fn role_binding(alloc: Global, tree: &Value) -> Result<RoleBinding, Memory>
    ensures { IfOk result (λ b. b ≡ role_binding_of (view tree.now)) }
{
    let subjects = read_subjects(alloc, tree)?;
    let role_ref = read_role_ref(alloc, tree)?;
    Ok(RoleBinding { subjects, role_ref })
}

fn cluster_role_binding(alloc: Global, tree: &Value) -> Result<ClusterRoleBinding, Memory>
    ensures { IfOk result (λ b. b ≡ cluster_role_binding_of (view tree.now)) }
{
    let subjects = read_subjects(alloc, tree)?;
    let role_ref = read_role_ref(alloc, tree)?;
    Ok(ClusterRoleBinding { subjects, role_ref })
}

/// The role binding that an object is, or what is wrong with it.
#[tactic(auto, unfolding(crate::specs::Trees::read_as), using(crate::proofs::Laws::role_binding_writes_back))]
pub fn read_role_binding(alloc: Global, object: &Object) -> Result<RoleBinding, ReadFault>
    ensures read { ResultIs told (λ b. b) result (read_as schema.RoleBinding role_binding_of (tree_of object.now)) }

    // the binding, written again, is the object, where the object is as it was admitted
    ensures writes_back { IfOk result (λ b. IsKept schema.RoleBinding (tree_of object.now)
        → with_content (form.binding_content b.subjects b.role_ref) (tree_of object.now) ≡ tree_of object.now) }
{
    check(alloc, object, Schema::RoleBinding)?;
    Ok(role_binding(alloc, object.as_tree())?)
}

/// The cluster role binding that an object is, or what is wrong with it.
#[tactic(auto, unfolding(crate::specs::Trees::read_as), using(crate::proofs::Laws::cluster_role_binding_writes_back))]
pub fn read_cluster_role_binding(
    alloc: Global,
    object: &Object,
) -> Result<ClusterRoleBinding, ReadFault>
    ensures read { ResultIs told (λ b. b) result
        (read_as schema.ClusterRoleBinding cluster_role_binding_of (tree_of object.now)) }

    // the binding, written again, is the object, where the object is as it was admitted
    ensures writes_back { IfOk result (λ b. IsKept schema.ClusterRoleBinding (tree_of object.now)
        → with_content (form.binding_content b.subjects b.role_ref) (tree_of object.now) ≡ tree_of object.now) }
{
    check(alloc, object, Schema::ClusterRoleBinding)?;
    Ok(cluster_role_binding(alloc, object.as_tree())?)
}

/// The role binding that an admitted object is.
pub fn admitted_role_binding(alloc: Global, object: &Object) -> Result<RoleBinding, Memory>
    ensures { IfOk result (λ b. b ≡ role_binding_of (tree_of object.now)) }
{
    role_binding(alloc, object.as_tree())
}

/// The role binding as an object with the version, the kind and the metadata of another.
#[tactic(auto, unfolding(crate::specs::Trees::read_as), using(kapi_object::proofs::Written::binding_has_no_float, kapi_object::proofs::Written::binding_in_order, kapi_object::proofs::Written::binding_is_shallow, crate::proofs::Laws::role_binding_reads_back))]
pub fn role_binding_object(
    alloc: Global,
    value: &RoleBinding,
    of: &Object,
) -> Result<Object, Memory>
    ensures written { IfOk result (λ o. tree_of o
        ≡ with_content (form.binding_content value.now.subjects value.now.role_ref) (tree_of of.now)) }

    // the object, read again, is the role binding, unless it has faults
    ensures reads_back { IfOk result (λ o. length (faults_on schema.RoleBinding (tree_of o)) ≡ 0
        → read_as schema.RoleBinding role_binding_of (tree_of o) ≡ Ok value.now) }
{
    of.with_content(
        alloc,
        binding_content(alloc, value.subjects.as_slice(), &value.role_ref)?,
    )
}

/// The cluster role binding that an admitted object is.
pub fn admitted_cluster_role_binding(
    alloc: Global,
    object: &Object,
) -> Result<ClusterRoleBinding, Memory>
    ensures { IfOk result (λ b. b ≡ cluster_role_binding_of (tree_of object.now)) }
{
    cluster_role_binding(alloc, object.as_tree())
}

/// The cluster role binding as an object with the version, the kind and the metadata of another.
#[tactic(auto, unfolding(crate::specs::Trees::read_as), using(kapi_object::proofs::Written::binding_has_no_float, kapi_object::proofs::Written::binding_in_order, kapi_object::proofs::Written::binding_is_shallow, crate::proofs::Laws::cluster_role_binding_reads_back))]
pub fn cluster_role_binding_object(
    alloc: Global,
    value: &ClusterRoleBinding,
    of: &Object,
) -> Result<Object, Memory>
    ensures written { IfOk result (λ o. tree_of o
        ≡ with_content (form.binding_content value.now.subjects value.now.role_ref) (tree_of of.now)) }

    // the object, read again, is the cluster role binding, unless it has faults
    ensures reads_back { IfOk result (λ o. length (faults_on schema.ClusterRoleBinding (tree_of o)) ≡ 0
        → read_as schema.ClusterRoleBinding cluster_role_binding_of (tree_of o) ≡ Ok value.now) }
{
    of.with_content(
        alloc,
        binding_content(alloc, value.subjects.as_slice(), &value.role_ref)?,
    )
}
