ghost use Rattle.std.specs.Prelude.{◌≡◌, codes, IfOk, OnOk};
ghost use Rattle.serde_json.specs.Data.{object, no_members};
ghost use Rattle.serde_json.specs.View.{view, members_view};
ghost use Rattle.kapi_model.specs.declared.kinds.SubjectKind.TheVariants as kinds;
ghost use Rattle.kapi_object.specs.Contents as form;
ghost use Rattle.kapi_object.specs.Contents.{of_rbac_group, role_kind_at, role_ref_of, subject_kind_at, subjects_of};

use crate::tree::member;
use crate::tree_form::{FromTree, ToTree, put_text, read_list, read_text, text_value};
use kapi_model::{RBAC_GROUP, RoleKind, RoleRef, ServiceAccount, Subject, SubjectKind};
use kapi_text::{Memory, Sequence, Text};
use serde_json::{Map, Value, put};
use std::alloc::Global;

/// The kind of subjects that is the member of a key; any other text is as ServiceAccount.
fn read_subject_kind(alloc: Global, tree: &Value, key: &str) -> Result<SubjectKind, Memory>
    ensures { IfOk result (λ k. k ≡ subject_kind_at key.now (view tree.now)) }
{
    let text = read_text(alloc, tree, key)?;
    match SubjectKind::read(text.as_str()) {
        Some(kind) => Ok(kind),
        None => Ok(SubjectKind::ServiceAccount),
    }
}

impl FromTree for Subject {
    ghost use Rattle.kapi_object.specs.Contents.{subject_of};

    ghost read_of = { subject_of };

    fn read(alloc: Global, tree: &Value) -> Result<Subject, Memory> {
        let name = read_text(alloc, tree, "name")?;
        let namespace = read_text(alloc, tree, "namespace")?;
        match read_subject_kind(alloc, tree, "kind")? {
            SubjectKind::User => Ok(Subject::User(name)),
            SubjectKind::Group => Ok(Subject::Group(name)),
            SubjectKind::ServiceAccount => {
                Ok(Subject::ServiceAccount(ServiceAccount { namespace, name }))
            }
        }
    }
}

/// Puts the kind and the name of a subject.
fn put_named(
    alloc: Global,
    members: &mut Map<String, Value>,
    kind: SubjectKind,
    name: &str,
) -> Result<(), Memory>
    ensures { OnOk result (members_view members.new.entries
        ≡ form.put_named kind name.now (members_view members.old.entries)) }
{
    put(members, alloc, "kind", text_value(alloc, kind.as_str())?)?;
    put(members, alloc, "name", text_value(alloc, name)?)
}

/// The member that names the API group of roles.
fn in_rbac_group(alloc: Global) -> Result<Map<String, Value>, Memory>
    ensures { IfOk result (λ m. members_view m.entries ≡ of_rbac_group) }
{
    let mut members = Map::new(alloc);
    put(
        &mut members,
        alloc,
        "apiGroup",
        text_value(alloc, RBAC_GROUP)?,
    )?;
    Ok(members)
}

/// The tree of a user or a group.
fn named_tree(alloc: Global, kind: SubjectKind, name: &str) -> Result<Value, Memory>
    ensures { IfOk result (λ v. view v ≡ object (form.put_named kind name.now of_rbac_group)) }
{
    let mut members = in_rbac_group(alloc)?;
    put_named(alloc, &mut members, kind, name)?;
    Ok(Value::Object(members))
}

/// The tree of a service account.
fn account_tree(alloc: Global, account: &ServiceAccount) -> Result<Value, Memory>
    ensures { IfOk result (λ v. view v ≡ object (form.put_text (codes "namespace") account.now.namespace
        (form.put_named kinds.ServiceAccount account.now.name no_members))) }
{
    let mut members = Map::new(alloc);
    put_named(
        alloc,
        &mut members,
        SubjectKind::ServiceAccount,
        account.name.as_str(),
    )?;
    put_text(alloc, &mut members, "namespace", account.namespace.as_str())?;
    Ok(Value::Object(members))
}

impl ToTree for Subject {
    ghost use Rattle.kapi_object.specs.Contents.{subject_tree};

    ghost tree_of = { subject_tree };

    #[tactic(auto, unfolding(crate::specs::Contents::subject_tree))]
    fn to_tree(&self, alloc: Global) -> Result<Value, Memory> {
        match self {
            Subject::User(name) => named_tree(alloc, SubjectKind::User, name.as_str()),
            Subject::Group(name) => named_tree(alloc, SubjectKind::Group, name.as_str()),
            Subject::ServiceAccount(account) => account_tree(alloc, account),
        }
    }
}

/// The subjects of a binding.
pub fn read_subjects(alloc: Global, tree: &Value) -> Result<Sequence<Subject>, Memory>
    ensures { IfOk result (λ s. s ≡ subjects_of (view tree.now)) }
{
    read_list(alloc, tree, "subjects")
}

/// The kind of roles that is the member of a key; any other text is as ClusterRole.
fn read_role_kind(alloc: Global, tree: &Value, key: &str) -> Result<RoleKind, Memory>
    ensures { IfOk result (λ k. k ≡ role_kind_at key.now (view tree.now)) }
{
    let text = read_text(alloc, tree, key)?;
    match RoleKind::read(text.as_str()) {
        Some(kind) => Ok(kind),
        None => Ok(RoleKind::ClusterRole),
    }
}

/// The reference of a binding to a role.
pub fn read_role_ref(alloc: Global, tree: &Value) -> Result<RoleRef, Memory>
    ensures { IfOk result (λ r. r ≡ role_ref_of (view tree.now)) }
{
    let Some(value) = member(tree, "roleRef") else {
        let name = Text::copy_of(alloc, "")?;
        return Ok(RoleRef {
            kind: RoleKind::ClusterRole,
            name,
        });
    };
    let kind = read_role_kind(alloc, value, "kind")?;
    let name = read_text(alloc, value, "name")?;
    Ok(RoleRef { kind, name })
}

/// The tree of a reference to a role.
#[tactic(auto, unfolding(crate::specs::Contents::role_ref_tree))]
pub fn role_ref_tree(alloc: Global, role_ref: &RoleRef) -> Result<Value, Memory>
    ensures { IfOk result (λ v. view v ≡ form.role_ref_tree role_ref.now) }
{
    let mut members = in_rbac_group(alloc)?;
    let kind = text_value(alloc, role_ref.kind.as_str())?;
    put(&mut members, alloc, "kind", kind)?;
    let name = text_value(alloc, role_ref.name.as_str())?;
    put(&mut members, alloc, "name", name)?;
    Ok(Value::Object(members))
}
