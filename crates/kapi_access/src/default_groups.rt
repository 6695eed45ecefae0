//! The identity by which a grantee is looked at.
ghost use Rattle.std.specs.Prelude.{◌≡◌, ◌∷◌, ◌++◌, map, string_bytes, IfOk, OnOk};
ghost use Rattle.std.specs.List.{flat_map};
ghost use Rattle.kapi_policy.specs.All.{all_bindings};
ghost use Rattle.kapi_policy.specs.Views.{binding_of};
ghost use Rattle.kapi_access.specs.Grantees.{alone as alone_of, unbound_user as unbound_user_of, user_in, usual_member as usual_member_of};
ghost use Rattle.kapi_access.specs.Usual.{with_default_groups as with_default_groups_of, usual_groups as usual_groups_of};
ghost use Rattle.kapi_access.specs.declared.identities.Identities.TheVariants as identities;

use crate::grantee::Grantee;
use crate::identities::Identities;
use kapi_escalation::own_groups;
use kapi_model::{Identity, Subject};
use kapi_policy::{Binding, Policy};
use kapi_text::{Memory, Sequence, Text, TryCopy};
use std::alloc::Global;

// ---- a user whom no binding names

fn push_user(text: &mut String, subject: &Subject) -> Result<(), Memory>
    ensures { OnOk result (string_bytes text.new ≡ string_bytes text.old ++ user_in subject.now) }
{
    match subject {
        Subject::User(name) => {
            text.push_str(name.as_str())?;
            Ok(())
        }
        Subject::Group(_) => Ok(()),
        Subject::ServiceAccount(_) => Ok(()),
    }
}

fn push_users(text: &mut String, subjects: &[Subject]) -> Result<(), Memory>
    ensures { OnOk result (string_bytes text.new ≡ string_bytes text.old ++ flat_map user_in subjects.now) }
{
    for subject in subjects {
        push_user(text, subject)?;
    }
    Ok(())
}

fn longest(alloc: Global, bindings: &[Binding<'_>]) -> Result<Text, Memory>
    ensures { IfOk result (λ t. t ≡ 120 ∷ flat_map (λ b. flat_map user_in (binding_of b).subjects) bindings.now) }
{
    let mut text = String::from_str(alloc, "x")?;
    for binding in bindings {
        push_users(&mut text, binding.subjects)?;
    }
    Ok(Text::new(text))
}

/// A user whom no binding names, given all bindings of the policy.
pub fn unbound_user<P: Policy>(
    alloc: Global,
    policy: &P,
    bindings: &[Binding<'_>],
) -> Result<Text, Memory>
    requires { map binding_of bindings.now ≡ all_bindings (P.content policy.now) }
    ensures { IfOk result (λ t. t ≡ unbound_user_of (P.content policy.now)) }
{
    let text = longest(alloc, bindings)?;
    Ok(text)
}

// ---- identities

fn bare(alloc: Global, other: &Text, to: &Grantee) -> Result<Identity, Memory>
    ensures { IfOk result (λ i. i ≡ alone_of identities.Any other.now to.now) }
{
    match to {
        Grantee::User(name) => Ok(Identity {
            user: name.copy(alloc)?,
            groups: Sequence::new(Vec::new(alloc)),
        }),
        Grantee::Group(name) => {
            let mut groups = Vec::new(alloc);
            groups.push(name.copy(alloc)?)?;
            Ok(Identity {
                user: other.copy(alloc)?,
                groups: Sequence::new(groups),
            })
        }
    }
}

// The groups that a user has by itself.
fn usual_groups(alloc: Global, user: &str) -> Result<Sequence<Text>, Memory>
    ensures { IfOk result (λ s. s ≡ usual_groups_of user.now) }
{
    if user == "system:anonymous" {
        let mut groups = Vec::new(alloc);
        groups.push(Text::copy_of(alloc, "system:unauthenticated")?)?;
        return Ok(Sequence::new(groups));
    }
    let mut groups = own_groups(alloc, user)?.into_vec();
    groups.push(Text::copy_of(alloc, "system:authenticated")?)?;
    Ok(Sequence::new(groups))
}

/// The identity that a question about a user in some groups is about: it has besides the groups that the user has by itself.
pub fn with_default_groups(alloc: Global, user: &str, groups: &[Text]) -> Result<Identity, Memory>
    ensures { IfOk result (λ i. i ≡ with_default_groups_of user.now groups.now) }
{
    let mut all = Vec::new(alloc);
    for group in groups {
        all.push(group.copy(alloc)?)?;
    }
    all.append(&mut usual_groups(alloc, user)?.into_vec())?;
    Ok(Identity {
        user: Text::copy_of(alloc, user)?,
        groups: Sequence::new(all),
    })
}

fn usual_user(alloc: Global, user: &str) -> Result<Identity, Memory>
    ensures { IfOk result (λ i. i ≡ record { user = user.now; groups = usual_groups_of user.now }) }
{
    Ok(Identity {
        user: Text::copy_of(alloc, user)?,
        groups: usual_groups(alloc, user)?,
    })
}

fn usual_member(alloc: Global, other: &Text, group: &str) -> Result<Identity, Memory>
    ensures { IfOk result (λ i. i ≡ usual_member_of other.now group.now) }
{
    if group == "system:unauthenticated" {
        return usual_user(alloc, "system:anonymous");
    }
    let mut groups = Vec::new(alloc);
    groups.push(Text::copy_of(alloc, group)?)?;
    groups.push(Text::copy_of(alloc, "system:authenticated")?)?;
    Ok(Identity {
        user: other.copy(alloc)?,
        groups: Sequence::new(groups),
    })
}

fn usual(alloc: Global, other: &Text, to: &Grantee) -> Result<Identity, Memory>
    ensures { IfOk result (λ i. i ≡ alone_of identities.Usual other.now to.now) }
{
    match to {
        Grantee::User(name) => usual_user(alloc, name.as_str()),
        Grantee::Group(name) => usual_member(alloc, other, name.as_str()),
    }
}

/// The identities as which each grantee is asked about: users by name, groups by a user in them whom no binding names.
#[derive(Drop)]
pub struct Alone {
    pub identities: Identities,
    pub other: Text,
}

impl Alone {
    /// The identity that is the grantee, in no group more than such an identity must be in.
    pub fn identity(&self, alloc: Global, to: &Grantee) -> Result<Identity, Memory>
        ensures { IfOk result (λ i. i ≡ alone_of self.now.identities self.now.other to.now) }
    {
        match self.identities {
            Identities::Any => bare(alloc, &self.other, to),
            Identities::Usual => usual(alloc, &self.other, to),
        }
    }
}
