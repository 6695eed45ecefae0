//! Whom a binding gives its role.
ghost use Rattle.std.specs.Prelude.{◌≡◌, ◌++◌, IfOk, OnOk};
ghost use Rattle.std.specs.List.{flat_map};
ghost use Rattle.kapi_policy.specs.Views.{binding_of};
ghost use Rattle.kapi_access.specs.Grantees.{account as account_of, grantees as grantees_of, whom};

use kapi_model::{Subject, account_namespace, account_user};
use kapi_policy::Binding;
use kapi_text::{Memory, Text, TryCopy};
use std::alloc::{AllocError, Global};

/// A user or a group to whom a binding gives its role. A service account is the user that it is.
#[derive(Drop)]
pub enum Grantee {
    User(Text),
    Group(Text),
}

impl TryCopy for Grantee {
    fn copy(&self, alloc: Global) -> Result<Grantee, AllocError> {
        match self {
            Grantee::User(name) => Ok(Grantee::User(name.copy(alloc)?)),
            Grantee::Group(name) => Ok(Grantee::Group(name.copy(alloc)?)),
        }
    }
}

fn push_account(
    alloc: Global,
    list: &mut Vec<Grantee>,
    namespace: &str,
    name: &str,
) -> Result<(), Memory>
    ensures { OnOk result (list.new.items ≡ list.old.items ++ account_of namespace.now name.now) }
{
    if namespace.is_empty() {
        return Ok(());
    }
    let user = account_user(alloc, namespace, name)?;
    list.push(Grantee::User(user))?;
    Ok(())
}

fn push_whom(
    alloc: Global,
    list: &mut Vec<Grantee>,
    namespace: &str,
    subject: &Subject,
) -> Result<(), Memory>
    ensures { OnOk result (list.new.items ≡ list.old.items ++ whom namespace.now subject.now) }
{
    match subject {
        Subject::User(name) => {
            list.push(Grantee::User(name.copy(alloc)?))?;
            Ok(())
        }
        Subject::Group(name) => {
            list.push(Grantee::Group(name.copy(alloc)?))?;
            Ok(())
        }
        Subject::ServiceAccount(account) => {
            push_account(
                alloc,
                list,
                account_namespace(account, namespace),
                account.name.as_str(),
            )
        }
    }
}

fn grantees_in(alloc: Global, namespace: &str, subjects: &[Subject]) -> Result<Vec<Grantee>, Memory>
    ensures { IfOk result (λ v. v.items ≡ flat_map (whom namespace.now) subjects.now) }
{
    let mut list = Vec::new(alloc);
    for subject in subjects {
        push_whom(alloc, &mut list, namespace, subject)?;
    }
    Ok(list)
}

/// The users and groups to whom a binding gives its role.
pub fn grantees(alloc: Global, binding: &Binding<'_>) -> Result<Vec<Grantee>, Memory>
    ensures { IfOk result (λ v. v.items ≡ grantees_of (binding_of binding.now)) }
{
    grantees_in(alloc, binding.namespace, binding.subjects)
}
