//! The bindings of a namespace, or the cluster-wide ones, with their index by user and group.
ghost use Rattle.std.specs.Prelude.{◌≡◌, ◌∷◌, [], nat_le, true, IfSome, MatchOption, OnErr, OnOk, option_copied};
ghost use Rattle.std.specs.BTreeMap.{insert_entry, is_at};
ghost use Rattle.std.specs.List.Sorted.{IsStrictlySortedBy};
ghost use Rattle.std.specs.Map.{keys_of, lookup, remove_entry};
ghost use Rattle.std.specs.Range.Bound.{bound_map};
ghost use Rattle.kapi_policy.specs.Objects.{name_cmp};
ghost use Rattle.kapi_index.specs.Listed.{Adds, AreOrdered, AreSame, HasAt, Removes};
ghost use Rattle.kapi_index.specs.Scopes.{IsIndex, bare, first_name as first_name_of, group_keys, keys_in, least, left as left_of, looks, matches, named_now, user_keys, with_name};

use crate::keys::Keys;
use crate::sets::{NameSets, add_all, first_under, remove_all};
use kapi_model::{Identity, RoleBinding};
use kapi_text::{Memory, Text, TryCopy};
use std::alloc::{AllocError, Global};
use std::cmp::Ordering;
use std::collections::BTreeMap;
use std::marker::Model;
use std::ops::Bound as Start;

/// A binding and the users and groups that its subjects match.
#[derive(Drop)]
pub struct Bound {
    pub binding: RoleBinding,
    pub keys: Keys,
}

pub type Bindings = BTreeMap<Text, Bound>;

/// The number of looks, at a binding or at one of its subjects, up to which a walk over all bindings is faster than
/// looking up a user and the user's groups.
const FEW_LOOKS: usize = 8;

/// The bindings of one namespace by name, or, if the namespace is empty, the cluster-wide ones.
#[derive(Drop)]
pub struct ScopeBindings {
    alloc: Global,
    namespace: Text,
    bindings: Bindings,
    users: NameSets,
    groups: NameSets,
}

impl Model for ScopeBindings {
    ghost use Rattle.kapi_index.specs.Scopes.{IsExact, Scoped, bare};

    ghost Value = { Scoped };

    ghost view = { λ s. record { namespace = s.namespace; bindings = bare s.bindings.entries } };

    ghost invariant = { λ s. IsExact s.namespace s.bindings.entries s.users.entries s.groups.entries };
}

// ---- the index

// Puts the name under the keys. A failed allocation changes nothing.
fn index(
    alloc: Global,
    users: &mut NameSets,
    groups: &mut NameSets,
    keys: &Keys,
    kept: &Keys,
    name: &Text,
) -> Result<(), Memory>
    requires had_users { HasAt kept.now.users name.now users.old.entries }
    requires had_groups { HasAt kept.now.groups name.now groups.old.entries }
    ensures users { OnOk result (Adds keys.now.users name.now users.old.entries users.new.entries) }
    ensures groups { OnOk result (Adds keys.now.groups name.now groups.old.entries groups.new.entries) }
    ensures same_users { OnErr result (AreSame users.old.entries users.new.entries) }
    ensures same_groups { OnErr result (AreSame groups.old.entries groups.new.entries) }
    ensures ordered_users { AreOrdered users.old.entries → AreOrdered users.new.entries }
    ensures ordered_groups { AreOrdered groups.old.entries → AreOrdered groups.new.entries }
{
    add_all(alloc, users, keys.users.as_slice(), &kept.users, name)?;
    match add_all(alloc, groups, keys.groups.as_slice(), &kept.groups, name) {
        Ok(_) => Ok(()),
        Err(refused) => {
            remove_all(users, keys.users.as_slice(), &kept.users, name);
            Err(refused)
        }
    }
}

// Removes the name from all keys except the kept ones.
fn unindex(users: &mut NameSets, groups: &mut NameSets, keys: &Keys, kept: &Keys, name: &Text)
    ensures users { Removes keys.now.users kept.now.users name.now users.old.entries users.new.entries }
    ensures groups { Removes keys.now.groups kept.now.groups name.now groups.old.entries groups.new.entries }
    ensures ordered_users { AreOrdered users.old.entries → AreOrdered users.new.entries }
    ensures ordered_groups { AreOrdered groups.old.entries → AreOrdered groups.new.entries }
{
    remove_all(users, keys.users.as_slice(), &kept.users, name);
    remove_all(groups, keys.groups.as_slice(), &kept.groups, name);
}

// The keys of the binding of a name, or none.
fn keys_at<'a>(bindings: &'a Bindings, name: &Text, none: &'a Keys) -> &'a Keys
    requires no_users { none.now.users ≡ [] }
    requires no_groups { none.now.groups ≡ [] }
    ensures users { result.now.users ≡ keys_in user_keys (lookup (is_at (name_cmp name.now)) bindings.now.entries) }
    ensures groups { result.now.groups ≡ keys_in group_keys (lookup (is_at (name_cmp name.now)) bindings.now.entries) }
{
    match bindings.get(name) {
        Some(bound) => &bound.keys,
        None => none,
    }
}

// The keys of a binding, or none.
fn into_keys(alloc: Global, bound: Option<Bound>) -> Keys
    ensures users { result.users ≡ keys_in user_keys bound }
    ensures groups { result.groups ≡ keys_in group_keys bound }
{
    match bound {
        Some(bound) => bound.keys,
        None => Keys::none(alloc),
    }
}

// Puts a binding under its name. A failed allocation changes nothing.
fn put_bound(
    alloc: Global,
    bindings: &mut Bindings,
    users: &mut NameSets,
    groups: &mut NameSets,
    name: &Text,
    bound: Bound,
) -> Result<(), Memory>
    requires sorted { IsStrictlySortedBy name_cmp (keys_of bindings.old.entries) }
    requires by_user { IsIndex user_keys bindings.old.entries users.old.entries }
    requires by_group { IsIndex group_keys bindings.old.entries groups.old.entries }
    ensures done { OnOk result (bindings.new.entries ≡ insert_entry name_cmp bindings.old.entries name.now bound) }
    ensures kept { OnErr result (bindings.new.entries ≡ bindings.old.entries) }
    ensures sorted { IsStrictlySortedBy name_cmp (keys_of bindings.new.entries) }
    ensures by_user { IsIndex user_keys bindings.new.entries users.new.entries }
    ensures by_group { IsIndex group_keys bindings.new.entries groups.new.entries }
{
    let own_name = name.copy(alloc)?;
    let none = Keys::none(alloc);
    index(
        alloc,
        users,
        groups,
        &bound.keys,
        keys_at(bindings, name, &none),
        name,
    )?;
    match bindings.insert(own_name, bound) {
        Ok(old) => {
            let stale = into_keys(alloc, old);
            unindex(users, groups, &stale, keys_at(bindings, name, &none), name);
            Ok(())
        }
        Err(refused) => {
            let (_name, bound) = refused.value;
            unindex(
                users,
                groups,
                &bound.keys,
                keys_at(bindings, name, &none),
                name,
            );
            Err(AllocError)
        }
    }
}

// Takes the binding of a name out, if there is one.
fn take_bound(
    alloc: Global,
    bindings: &mut Bindings,
    users: &mut NameSets,
    groups: &mut NameSets,
    name: &Text,
)
    requires sorted { IsStrictlySortedBy name_cmp (keys_of bindings.old.entries) }
    requires by_user { IsIndex user_keys bindings.old.entries users.old.entries }
    requires by_group { IsIndex group_keys bindings.old.entries groups.old.entries }
    ensures done { bindings.new.entries ≡ remove_entry (is_at (name_cmp name.now)) bindings.old.entries }
    ensures sorted { IsStrictlySortedBy name_cmp (keys_of bindings.new.entries) }
    ensures by_user { IsIndex user_keys bindings.new.entries users.new.entries }
    ensures by_group { IsIndex group_keys bindings.new.entries groups.new.entries }
{
    let stale = into_keys(alloc, bindings.remove(name));
    unindex(users, groups, &stale, &Keys::none(alloc), name);
}

// Puts copies of bindings into a scope that has none.
fn put_copies(alloc: Global, copied: &mut ScopeBindings, bindings: &Bindings) -> Result<(), Memory>
    requires { copied.old.bindings ≡ [] }
    ensures { OnOk result (copied.new ≡ record copied.old { bindings = bare bindings.now.entries }) }
{
    for (name, bound) in bindings {
        copied.put(name, bound.binding.copy(alloc)?)?;
    }
    Ok(())
}

// ---- the walk

fn lesser<'a>(one: Option<&'a Text>, other: Option<&'a Text>) -> Option<&'a Text>
    ensures { option_copied result ≡ least (option_copied one.entry) (option_copied other.entry) }
{
    match (one, other) {
        (Some(one), Some(other)) => match one.cmp(other) {
            Ordering::Greater => Some(other),
            _ => Some(one),
        },
        (None, other) => other,
        (one, None) => one,
    }
}

// The least name from a start on of a binding that names the user or one of the groups.
fn first_name<'a>(
    users: &'a NameSets,
    groups: &'a NameSets,
    identity: &Identity,
    start: Start<&Text>,
) -> Option<&'a Text>
    ensures { option_copied result ≡ first_name_of users.now.entries groups.now.entries identity.now (bound_map (λ x. x.now) start.entry) }
{
    let mut found = first_under(users, &identity.user, start);
    for group in identity.groups.as_slice() {
        found = lesser(found, first_under(groups, group, start));
    }
    found
}

/// Whether a walk over the bindings takes few looks. It looks itself at no more bindings than that, and at none if they
/// are more.
#[tactic(auto, using(crate::proofs::Looks::a_look_for_each))]
fn takes_few_looks(bindings: &Bindings) -> bool
    ensures { result ≡ nat_le (looks (bare bindings.now.entries)) 8 }
{
    if bindings.len() > FEW_LOOKS {
        return false;
    }
    let mut left = FEW_LOOKS;
    for (_name, bound) in bindings {
        let subjects = bound.binding.subjects.as_slice().len();
        if left <= subjects {
            return false;
        }
        left -= subjects + 1;
    }
    true
}

fn named<'a>(bindings: &'a Bindings, name: &'a Text) -> Option<(&'a Text, &'a RoleBinding)>
    ensures { named_now result ≡ with_name name.now (lookup (is_at (name_cmp name.now)) bindings.now.entries) }
{
    match bindings.get(name) {
        Some(bound) => Some((name, &bound.binding)),
        None => None,
    }
}

impl ScopeBindings {
    ghost use Rattle.std.specs.Prelude.{◌≡◌, ◌∷◌, [], true, nat_le, IfOk, IfSome, MatchOption, OnErr, OnOk};
    ghost use Rattle.std.specs.BTreeMap.{insert_entry, is_at};
    ghost use Rattle.std.specs.Map.{remove_entry};
    ghost use Rattle.std.specs.Range.Bound.{bound_map};
    ghost use Rattle.kapi_policy.specs.Objects.{name_cmp};
    ghost use Rattle.kapi_index.specs.Scopes.{bare, left as left_of, looks, matches};

    /// The scope of a namespace, without bindings.
    pub fn new(alloc: Global, namespace: Text) -> ScopeBindings
        ensures { result ≡ record { namespace = namespace; bindings = [] } }
    {
        ScopeBindings {
            alloc,
            namespace,
            bindings: BTreeMap::new(alloc),
            users: BTreeMap::new(alloc),
            groups: BTreeMap::new(alloc),
        }
    }

    /// The namespace, empty if the bindings are cluster-wide.
    pub fn namespace(&self) -> &str
        ensures { result.now ≡ self.now.namespace }
    {
        self.namespace.as_str()
    }

    /// The bindings, in the order of their names.
    pub fn bindings(&self) -> &Bindings
        ensures { bare result.now.entries ≡ self.now.bindings }
    {
        &self.bindings
    }

    /// Whether checking each binding is faster than looking up those that match an identity.
    pub fn has_few(&self) -> bool
        ensures { result ≡ nat_le (looks self.now.bindings) 8 }
    {
        takes_few_looks(&self.bindings)
    }

    /// Puts a binding under its name. A failed allocation changes nothing.
    pub fn put(&mut self, name: &Text, binding: RoleBinding) -> Result<(), Memory>
        ensures done { OnOk result (self.new ≡ record self.old { bindings = insert_entry name_cmp self.old.bindings name.now binding }) }
        ensures kept { OnErr result (self.new ≡ self.old) }
    {
        let keys = Keys::of(
            self.alloc,
            self.namespace.as_str(),
            binding.subjects.as_slice(),
        )?;
        put_bound(
            self.alloc,
            &mut self.bindings,
            &mut self.users,
            &mut self.groups,
            name,
            Bound { binding, keys },
        )
    }

    /// Takes the binding of a name out, if there is one.
    pub fn take(&mut self, name: &Text)
        ensures { self.new ≡ record self.old { bindings = remove_entry (is_at (name_cmp name.now)) self.old.bindings } }
    {
        take_bound(
            self.alloc,
            &mut self.bindings,
            &mut self.users,
            &mut self.groups,
            name,
        );
    }

    /// An owned scope with the same bindings.
    pub fn copy(&self) -> Result<ScopeBindings, Memory>
        ensures { IfOk result (λ s. s ≡ self.now) }
    {
        let mut copied = ScopeBindings::new(self.alloc, self.namespace.copy(self.alloc)?);
        put_copies(self.alloc, &mut copied, &self.bindings)?;
        Ok(copied)
    }

    /// The first binding from the start on that matches the identity.
    pub fn next<'a>(
        &'a self,
        identity: &Identity,
        start: Start<&Text>,
    ) -> Option<(&'a Text, &'a RoleBinding)>
        ensures steps { MatchOption result (left_of identity.now (bound_map (λ x. x.now) start.entry) self.now ≡ []) (λ p. left_of identity.now (bound_map (λ x. x.now) start.entry) self.now ≡ (p.0.now, p.1.now) ∷ left_of identity.now (Start.Excluded p.0.now) self.now) }
        ensures meant { IfSome result (λ p. matches self.now.namespace identity.now p.1.now ≡ true) }
    {
        match first_name(&self.users, &self.groups, identity, start) {
            Some(name) => named(&self.bindings, name),
            None => None,
        }
    }
}
