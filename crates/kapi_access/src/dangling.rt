//! What stands in a policy without use.
ghost use Rattle.std.specs.Prelude.{◌≡◌, ◌++◌, ◌||◌, map, not, IfOk, OnErr, OnOk};
ghost use Rattle.std.specs.BTreeSet.{contains};
ghost use Rattle.std.specs.List.{enumerate_from, flat_map, list_any};
ghost use Rattle.kapi_policy.specs.Objects.{place_cmp};
ghost use Rattle.kapi_policy.specs.Views.{binding_of};
ghost use Rattle.kapi_policy.specs.declared.change.NamespacedName.{NamespacedName as Place};
ghost use Rattle.kapi_access.specs.Dangling as idle;

use kapi_missing::missing;
use kapi_model::{PolicyRule, RoleKind, ServiceAccount, Subject, account_namespace};
use kapi_policy::{Binding, NamespacedName, Policy};
use kapi_text::{Memory, Text, TryCopy};
use std::alloc::Global;
use std::collections::BTreeSet;

// ---- bindings

/// Whether the role that the binding refers to does not exist.
pub fn dangles<P: Policy>(policy: &P, binding: &Binding<'_>) -> bool
    ensures { result ≡ idle.dangles (P.content policy.now) (binding_of binding.now) }
{
    policy.role_rules(binding.role, binding.namespace).is_none()
}

/// The place of that name in the namespace.
pub fn place_at(alloc: Global, namespace: &str, name: &Text) -> Result<NamespacedName, Memory>
    ensures { IfOk result (λ p. p ≡ record { namespace = namespace.now; name = name.now }) }
{
    Ok(NamespacedName {
        namespace: Text::copy_of(alloc, namespace)?,
        name: name.copy(alloc)?,
    })
}

fn push_account(
    alloc: Global,
    list: &mut Vec<NamespacedName>,
    accounts: &BTreeSet<NamespacedName>,
    namespace: &str,
    account: &ServiceAccount,
) -> Result<(), Memory>
    ensures { OnOk result (list.new.items ≡ list.old.items ++ idle.absent accounts.now namespace.now (Subject.ServiceAccount account.now)) }
{
    let place = place_at(alloc, account_namespace(account, namespace), &account.name)?;
    if !accounts.contains(&place) {
        list.push(place)?;
    }
    Ok(())
}

fn push_absent(
    alloc: Global,
    list: &mut Vec<NamespacedName>,
    accounts: &BTreeSet<NamespacedName>,
    namespace: &str,
    subject: &Subject,
) -> Result<(), Memory>
    ensures { OnOk result (list.new.items ≡ list.old.items ++ idle.absent accounts.now namespace.now subject.now) }
{
    match subject {
        Subject::User(_name) => Ok(()),
        Subject::Group(_name) => Ok(()),
        Subject::ServiceAccount(account) => push_account(alloc, list, accounts, namespace, account),
    }
}

/// The service accounts among the binding's subjects that are not among the others.
pub fn absent_accounts(
    alloc: Global,
    binding: &Binding<'_>,
    accounts: &BTreeSet<NamespacedName>,
) -> Result<Vec<NamespacedName>, Memory>
    ensures { IfOk result (λ v. v.items ≡ flat_map (idle.absent accounts.now (binding_of binding.now).namespace) (binding_of binding.now).subjects) }
{
    let mut list = Vec::new(alloc);
    for subject in binding.subjects {
        push_absent(alloc, &mut list, accounts, binding.namespace, subject)?;
    }
    Ok(list)
}

// ---- roles

fn put_place(places: &mut BTreeSet<NamespacedName>, place: NamespacedName) -> Result<(), Memory>
    ensures { OnOk result ((q : Place) → contains place_cmp places.new q ≡ (idle.same_place q place || contains place_cmp places.old q)) }
{
    drop(places.insert(place)?);
    Ok(())
}

fn put_role(
    alloc: Global,
    places: &mut BTreeSet<NamespacedName>,
    binding: &Binding<'_>,
) -> Result<(), Memory>
    ensures { OnOk result ((q : Place) → contains place_cmp places.new q
        ≡ (list_any (idle.same_place q) (idle.role_place (binding_of binding.now).role.kind (binding_of binding.now).namespace (binding_of binding.now).role.name) || contains place_cmp places.old q)) }
{
    match binding.role.kind {
        RoleKind::Role => {
            if binding.namespace.is_empty() {
                return Ok(());
            }
            put_place(
                places,
                place_at(alloc, binding.namespace, &binding.role.name)?,
            )
        }
        RoleKind::ClusterRole => put_place(places, place_at(alloc, "", &binding.role.name)?),
    }
}

/// The places of the roles that bindings refer to: a cluster role's has no namespace.
pub fn bound_places(
    alloc: Global,
    bindings: &[Binding<'_>],
) -> Result<BTreeSet<NamespacedName>, Memory>
    ensures { IfOk result (λ s. (q : Place) → contains place_cmp s q ≡ idle.is_bound (map binding_of bindings.now) q) }
{
    let mut places = BTreeSet::new(alloc);
    for binding in bindings {
        put_role(alloc, &mut places, binding)?;
    }
    Ok(places)
}

// ---- rules

/// A rule that another of its role covers, by their indices.
#[derive(Clone, Copy, PartialEq, Eq)]
pub struct Covered {
    pub rule: usize,
    pub by: usize,
}

fn covers(alloc: Global, one: &PolicyRule, other: &PolicyRule) -> Result<bool, Memory>
    ensures { IfOk result (λ b. b ≡ idle.covers one.now other.now) }
{
    let atoms = missing(
        alloc,
        std::slice::from_ref(one),
        std::slice::from_ref(other),
    )?;
    Ok(atoms.is_empty())
}

fn stands_for(
    alloc: Global,
    place: usize,
    other: &PolicyRule,
    index: usize,
    rule: &PolicyRule,
) -> Result<bool, Memory>
    ensures { IfOk result (λ b. b ≡ idle.stands_for place other.now index rule.now) }
{
    if place == index {
        return Ok(false);
    }
    if !covers(alloc, other, rule)? {
        return Ok(false);
    }
    if place < index {
        return Ok(true);
    }
    Ok(!covers(alloc, rule, other)?)
}

fn first_for(
    alloc: Global,
    index: usize,
    rule: &PolicyRule,
    rules: &[PolicyRule],
) -> Result<Option<usize>, Memory>
    ensures { IfOk result (λ o. o ≡ idle.first_for index rule.now (enumerate_from 0 rules.now)) }
{
    for (place, other) in rules.iter().enumerate() {
        if stands_for(alloc, place, other, index, rule)? {
            return Ok(Some(place));
        }
    }
    Ok(None)
}

/// The rules of a role that another of them covers: they can go, and the role allows what it did. Of two that cover each other the
/// later one is listed.
#[tactic(auto, unfolding(crate::specs::Dangling::covered))]
pub fn covered_rules(alloc: Global, rules: &[PolicyRule]) -> Result<Vec<Covered>, Memory>
    ensures { IfOk result (λ v. v.items ≡ idle.covered rules.now) }
{
    let mut list = Vec::new(alloc);
    for (index, rule) in rules.iter().enumerate() {
        if let Some(by) = first_for(alloc, index, rule, rules)? {
            list.push(Covered { rule: index, by })?;
        }
    }
    Ok(list)
}
