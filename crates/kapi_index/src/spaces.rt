//! The roles and bindings of all namespaces.
ghost use Rattle.std.specs.Prelude.{◌≡◌, [], None, map, IfOk, MatchOption, OnErr, OnOk, option_copied};
ghost use Rattle.std.specs.BTreeMap.{insert_entry, is_at};
ghost use Rattle.std.specs.Map.{lookup, remove_entry};
ghost use Rattle.kapi_policy.specs.Decided.{bindings_of, is_place, rules_in};
ghost use Rattle.kapi_policy.specs.Objects.{name_cmp, place_cmp};
ghost use Rattle.kapi_index.specs.Contents.{AreDistinct, binding_at, bindings_in, by_text, in_all, part, parts, roles_in};

use crate::roles::PreparedRole;
use crate::rules::CompiledRules;
use crate::scope::ScopeBindings;
use kapi_model::RoleBinding;
use kapi_policy::{BindingKind, NamespacedName, copy_map};
use kapi_text::{Memory, Text, TryCopy};
use std::alloc::Global;
use std::collections::BTreeMap;

/// The roles and bindings of one namespace.
#[derive(Drop)]
pub struct Namespace {
    pub roles: BTreeMap<Text, PreparedRole>,
    pub bound: ScopeBindings,
}

pub type Spaces = BTreeMap<String, Namespace>;

// A namespace without roles and bindings.
fn empty(alloc: Global, name: &Text) -> Result<Namespace, Memory>
    ensures roles { IfOk result (λ v. v.roles.entries ≡ []) }
    ensures bindings { IfOk result (λ v. v.bound.bindings ≡ []) }
    ensures named { IfOk result (λ v. v.bound.namespace ≡ name.now) }
{
    Ok(Namespace {
        roles: BTreeMap::new(alloc),
        bound: ScopeBindings::new(alloc, name.copy(alloc)?),
    })
}

// Puts a role in its namespace.
fn insert_role(space: &mut Namespace, name: Text, role: PreparedRole) -> Result<(), Memory>
    ensures done { OnOk result (space.new.roles.entries ≡ insert_entry name_cmp space.old.roles.entries name role) }
    ensures kept { OnErr result (space.new.roles.entries ≡ space.old.roles.entries) }
    ensures bound { space.new.bound ≡ space.old.bound }
{
    drop(space.roles.insert(name, role)?);
    Ok(())
}

// Puts a role in a namespace that is not there yet.
fn put_first_role(
    alloc: Global,
    spaces: &mut Spaces,
    place: &NamespacedName,
    role: PreparedRole,
) -> Result<(), Memory>
    requires spread { AreDistinct (by_text spaces.old.entries) }
    requires absent { lookup (is_at (name_cmp place.now.namespace)) (by_text spaces.old.entries) ≡ None }
    ensures done { OnOk result (in_all roles_in (by_text spaces.new.entries) ≡ insert_entry place_cmp (in_all roles_in (by_text spaces.old.entries)) place.now role) }
    ensures kept { OnErr result (in_all roles_in (by_text spaces.new.entries) ≡ in_all roles_in (by_text spaces.old.entries)) }
    ensures bindings { in_all bindings_in (by_text spaces.new.entries) ≡ in_all bindings_in (by_text spaces.old.entries) }
    ensures spread { AreDistinct (by_text spaces.new.entries) }
{
    let mut space = empty(alloc, &place.namespace)?;
    let name = place.name.copy(alloc)?;
    insert_role(&mut space, name, role)?;
    let key = String::from_str(alloc, place.namespace.as_str())?;
    drop(spaces.insert(key, space)?);
    Ok(())
}

/// Puts a role at its place.
pub fn put_role(
    alloc: Global,
    spaces: &mut Spaces,
    place: &NamespacedName,
    role: PreparedRole,
) -> Result<(), Memory>
    requires spread { AreDistinct (by_text spaces.old.entries) }
    ensures done { OnOk result (in_all roles_in (by_text spaces.new.entries) ≡ insert_entry place_cmp (in_all roles_in (by_text spaces.old.entries)) place.now role) }
    ensures kept { OnErr result (in_all roles_in (by_text spaces.new.entries) ≡ in_all roles_in (by_text spaces.old.entries)) }
    ensures bindings { in_all bindings_in (by_text spaces.new.entries) ≡ in_all bindings_in (by_text spaces.old.entries) }
    ensures spread { AreDistinct (by_text spaces.new.entries) }
{
    let name = place.name.copy(alloc)?;
    match spaces.get_mut(place.namespace.as_str()) {
        Some(space) => insert_role(space, name, role),
        None => put_first_role(alloc, spaces, place, role),
    }
}

// Puts a binding in a namespace that is not there yet.
fn put_first_binding(
    alloc: Global,
    spaces: &mut Spaces,
    place: &NamespacedName,
    binding: RoleBinding,
) -> Result<(), Memory>
    requires spread { AreDistinct (by_text spaces.old.entries) }
    requires absent { lookup (is_at (name_cmp place.now.namespace)) (by_text spaces.old.entries) ≡ None }
    ensures done { OnOk result (in_all bindings_in (by_text spaces.new.entries) ≡ insert_entry place_cmp (in_all bindings_in (by_text spaces.old.entries)) place.now binding) }
    ensures kept { OnErr result (in_all bindings_in (by_text spaces.new.entries) ≡ in_all bindings_in (by_text spaces.old.entries)) }
    ensures roles { in_all roles_in (by_text spaces.new.entries) ≡ in_all roles_in (by_text spaces.old.entries) }
    ensures spread { AreDistinct (by_text spaces.new.entries) }
{
    let mut space = empty(alloc, &place.namespace)?;
    space.bound.put(&place.name, binding)?;
    let key = String::from_str(alloc, place.namespace.as_str())?;
    drop(spaces.insert(key, space)?);
    Ok(())
}

/// Puts a binding at its place.
pub fn put_binding(
    alloc: Global,
    spaces: &mut Spaces,
    place: &NamespacedName,
    binding: RoleBinding,
) -> Result<(), Memory>
    requires spread { AreDistinct (by_text spaces.old.entries) }
    ensures done { OnOk result (in_all bindings_in (by_text spaces.new.entries) ≡ insert_entry place_cmp (in_all bindings_in (by_text spaces.old.entries)) place.now binding) }
    ensures kept { OnErr result (in_all bindings_in (by_text spaces.new.entries) ≡ in_all bindings_in (by_text spaces.old.entries)) }
    ensures roles { in_all roles_in (by_text spaces.new.entries) ≡ in_all roles_in (by_text spaces.old.entries) }
    ensures spread { AreDistinct (by_text spaces.new.entries) }
{
    match spaces.get_mut(place.namespace.as_str()) {
        Some(space) => space.bound.put(&place.name, binding),
        None => put_first_binding(alloc, spaces, place, binding),
    }
}

/// Takes the role at a place out, if there is one.
pub fn take_role(spaces: &mut Spaces, place: &NamespacedName)
    requires spread { AreDistinct (by_text spaces.old.entries) }
    ensures done { in_all roles_in (by_text spaces.new.entries) ≡ remove_entry (is_at (place_cmp place.now)) (in_all roles_in (by_text spaces.old.entries)) }
    ensures bindings { in_all bindings_in (by_text spaces.new.entries) ≡ in_all bindings_in (by_text spaces.old.entries) }
    ensures spread { AreDistinct (by_text spaces.new.entries) }
{
    match spaces.get_mut(place.namespace.as_str()) {
        Some(space) => drop(space.roles.remove(&place.name)),
        None => {}
    }
}

/// Takes the binding at a place out, if there is one.
pub fn take_binding(spaces: &mut Spaces, place: &NamespacedName)
    requires spread { AreDistinct (by_text spaces.old.entries) }
    ensures done { in_all bindings_in (by_text spaces.new.entries) ≡ remove_entry (is_at (place_cmp place.now)) (in_all bindings_in (by_text spaces.old.entries)) }
    ensures roles { in_all roles_in (by_text spaces.new.entries) ≡ in_all roles_in (by_text spaces.old.entries) }
    ensures spread { AreDistinct (by_text spaces.new.entries) }
{
    match spaces.get_mut(place.namespace.as_str()) {
        Some(space) => space.bound.take(&place.name),
        None => {}
    }
}

// The rules of a role, if it is there.
fn rules_named<'a>(
    roles: &'a BTreeMap<Text, PreparedRole>,
    name: &Text,
) -> Option<&'a CompiledRules>
    ensures { option_copied result ≡ rules_in (lookup (is_at (name_cmp name.now)) roles.now.entries) }
{
    match roles.get(name) {
        Some(role) => Some(role.rules()),
        None => None,
    }
}

/// The rules of the role of a name in a namespace, if it is there.
pub fn rules_at<'a>(spaces: &'a Spaces, name: &Text, namespace: &str) -> Option<&'a CompiledRules>
    requires spread { AreDistinct (by_text spaces.now.entries) }
    ensures { option_copied result ≡ rules_in (lookup (is_place namespace.now name.now) (in_all roles_in (by_text spaces.now.entries))) }
{
    match spaces.get(namespace) {
        Some(space) => rules_named(&space.roles, name),
        None => None,
    }
}

/// The bindings of a namespace, if it is there.
pub fn scope_in<'a>(spaces: &'a Spaces, namespace: &str) -> Option<&'a ScopeBindings>
    requires spread { AreDistinct (by_text spaces.now.entries) }
    ensures { MatchOption result (bindings_of namespace.now (in_all bindings_in (by_text spaces.now.entries)) ≡ []) (λ s. bindings_of namespace.now (in_all bindings_in (by_text spaces.now.entries)) ≡ map (binding_at BindingKind.RoleBinding s.now.namespace) s.now.bindings) }
{
    match spaces.get(namespace) {
        Some(space) => Some(&space.bound),
        None => None,
    }
}

fn copy_space(alloc: Global, space: &Namespace) -> Result<Namespace, Memory>
    ensures { IfOk result (λ s. part s ≡ part space.now) }
{
    let roles = copy_map(alloc, &space.roles)?;
    let bound = space.bound.copy()?;
    Ok(Namespace { roles, bound })
}

/// Owned namespaces with the same roles and bindings.
pub fn copy_spaces(alloc: Global, spaces: &Spaces) -> Result<Spaces, Memory>
    requires spread { AreDistinct (by_text spaces.now.entries) }
    ensures { IfOk result (λ s. parts (by_text s.entries) ≡ parts (by_text spaces.now.entries)) }
{
    let mut copied = BTreeMap::new(alloc);
    for (name, space) in spaces {
        let key = String::from_str(alloc, name.as_str())?;
        drop(copied.insert(key, copy_space(alloc, space)?)?);
    }
    Ok(copied)
}
