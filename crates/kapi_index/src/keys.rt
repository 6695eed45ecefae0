//! The users and groups that the subjects of a binding match, prepared when the binding is put.
ghost use Rattle.std.specs.Prelude.{◌≡◌, ◌++◌, IfOk, OnOk};
ghost use Rattle.kapi_index.specs.Prepared.{account_users, group_of, groups_of, user_of, users_of};

use crate::key_list::KeyList;
use kapi_model::{Subject, account_namespace, account_user};
use kapi_text::{Memory, Text, TryCopy};
use std::alloc::Global;

/// The users and groups that the subjects of a binding match. A service account is the user that it is.
#[derive(Drop)]
pub struct Keys {
    pub users: KeyList,
    pub groups: KeyList,
}

impl Keys {
    ghost use Rattle.std.specs.Prelude.{◌≡◌, [], IfOk};
    ghost use Rattle.kapi_index.specs.Listed.{AreKeys};
    ghost use Rattle.kapi_index.specs.Prepared.{groups_of, users_of};

    /// The keys of no subject. Allocates nothing.
    pub fn none(alloc: Global) -> Keys
        ensures users { result.users ≡ [] }
        ensures groups { result.groups ≡ [] }
    {
        Keys {
            users: KeyList::none(alloc),
            groups: KeyList::none(alloc),
        }
    }

    /// The keys of the subjects of a binding in the namespace.
    pub fn of(alloc: Global, namespace: &str, subjects: &[Subject]) -> Result<Keys, Memory>
        ensures users { IfOk result (λ k. AreKeys k.users (users_of namespace.now subjects.now)) }
        ensures groups { IfOk result (λ k. AreKeys k.groups (groups_of subjects.now)) }
    {
        let users = users(alloc, namespace, subjects)?;
        let groups = groups(alloc, subjects)?;
        Ok(Keys {
            users: KeyList::of(users),
            groups: KeyList::of(groups),
        })
    }
}

fn is_group(subject: &Subject) -> bool {
    match subject {
        Subject::Group(_) => true,
        _ => false,
    }
}

// The number of subjects that are groups: the capacity of a list of them.
fn group_count(subjects: &[Subject]) -> usize {
    subjects.iter().filter(|subject| is_group(subject)).count()
}

fn user_count(subjects: &[Subject]) -> usize {
    subjects.iter().filter(|subject| !is_group(subject)).count()
}

fn users(alloc: Global, namespace: &str, subjects: &[Subject]) -> Result<Vec<Text>, Memory>
    ensures { IfOk result (λ v. v.items ≡ users_of namespace.now subjects.now) }
{
    let mut list = Vec::with_capacity(alloc, user_count(subjects))?;
    for subject in subjects {
        push_user(alloc, &mut list, namespace, subject)?;
    }
    Ok(list)
}

fn push_user(
    alloc: Global,
    list: &mut Vec<Text>,
    namespace: &str,
    subject: &Subject,
) -> Result<(), Memory>
    ensures { OnOk result (list.new.items ≡ list.old.items ++ user_of namespace.now subject.now) }
{
    match subject {
        Subject::User(name) => {
            list.push(name.copy(alloc)?)?;
            Ok(())
        }
        Subject::Group(_) => Ok(()),
        Subject::ServiceAccount(account) => {
            push_account(
                alloc,
                list,
                account_namespace(account, namespace),
                account.name.as_str(),
            )
        }
    }
}

fn push_account(
    alloc: Global,
    list: &mut Vec<Text>,
    namespace: &str,
    name: &str,
) -> Result<(), Memory>
    ensures { OnOk result (list.new.items ≡ list.old.items ++ account_users namespace.now name.now) }
{
    if namespace.is_empty() {
        return Ok(());
    }
    list.push(account_user(alloc, namespace, name)?)?;
    Ok(())
}

fn groups(alloc: Global, subjects: &[Subject]) -> Result<Vec<Text>, Memory>
    ensures { IfOk result (λ v. v.items ≡ groups_of subjects.now) }
{
    let mut list = Vec::with_capacity(alloc, group_count(subjects))?;
    for subject in subjects {
        push_group(alloc, &mut list, subject)?;
    }
    Ok(list)
}

fn push_group(alloc: Global, list: &mut Vec<Text>, subject: &Subject) -> Result<(), Memory>
    ensures { OnOk result (list.new.items ≡ list.old.items ++ group_of subject.now) }
{
    if let Subject::Group(name) = subject {
        list.push(name.copy(alloc)?)?;
    }
    Ok(())
}
