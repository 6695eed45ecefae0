//! What an aggregated cluster role takes from the others.
ghost use Rattle.std.specs.Prelude.{◌≡◌, ◌++◌, map, IfOk, OnOk, option_copied, []};
ghost use Rattle.std.specs.List.{find, flat_map, fold};
ghost use Rattle.std.specs.Str.{bytes_eq};
ghost use Rattle.kapi_store.specs.Plain.{plain_of};
ghost use Rattle.kapi_aggregation.specs.Roles.{roles_in, selectors_of};
ghost use Rattle.kapi_aggregation.specs.Unions.{is_meant as is_meant_by, rules_meant, union, union_for as union_for_role, with_rule};
ghost use Rattle.kapi_aggregation.specs.Lent.{roles_of};
ghost use Rattle.kapi_aggregation.specs.Marks.{keys_if, rules_given, union_given};
ghost use Rattle.kapi_aggregation.specs.Views.{labelled};
ghost use Rattle.kapi_aggregation.specs.Keyed.{picked, rule_of_key};

use crate::roles::{ClusterRoles, NamedRole, roles_named, roles_selected};
use crate::takers::{Taker, names_at};
use kapi_model::{PolicyRule, Selector};
use kapi_store::Store;
use kapi_text::{Memory, Text};
use std::alloc::Global;
use std::collections::BTreeSet;

/// The union of the cluster role of the name: the rules of the cluster roles that its selectors match, by the selectors
/// in their order, then by name, without its own, each rule once, at its first place. It is empty if the role takes
/// nothing from others, or is not there.
#[tactic(auto, using(crate::proofs::Named::named_mapped))]
pub fn union_of(
    alloc: Global,
    roles: &ClusterRoles<'_>,
    name: &str,
) -> Result<Vec<PolicyRule>, Memory>
    ensures { IfOk result (λ v. v.items ≡ union (roles_of roles.now) name.now) }
{
    match named(roles.as_slice(), name) {
        Some(role) => union_for(alloc, roles.as_slice(), role),
        None => Ok(Vec::new(alloc)),
    }
}

/// The role of the name.
fn named<'a, 'b>(roles: &'a [NamedRole<'b>], name: &str) -> Option<&'a NamedRole<'b>>
    ensures { option_copied result ≡ find (λ r. bytes_eq r.name.now name.now) roles.now }
{
    roles.iter().find(|role| role.name.as_str() == name)
}

/// The union of the role.
#[tactic(auto, unfolding(crate::specs::Unions::union_for))]
pub(crate) fn union_for(
    alloc: Global,
    roles: &[NamedRole<'_>],
    role: &NamedRole<'_>,
) -> Result<Vec<PolicyRule>, Memory>
    ensures { IfOk result (λ v. v.items ≡ union_for_role (map labelled roles.now) (labelled role.now)) }
{
    each_once(alloc, meant(alloc, roles, role)?)
}

/// The union of a role of the store, from the roles that its selectors may match by the givers.
pub(crate) fn union_in(
    alloc: Global,
    store: &Store,
    givers: &Option<BTreeSet<Taker>>,
    role: &NamedRole<'_>,
) -> Result<Vec<PolicyRule>, Memory>
    ensures { IfOk result (λ v. v.items ≡ union_given (plain_of store.now).objects (keys_if givers.now) (labelled role.now)) }
{
    each_once(alloc, meant_in(alloc, store, givers, role)?)
}

/// The rules of the roles of the store that the role's selectors match, by the selectors in their order.
fn meant_in(
    alloc: Global,
    store: &Store,
    givers: &Option<BTreeSet<Taker>>,
    role: &NamedRole<'_>,
) -> Result<Vec<PolicyRule>, Memory>
    ensures { IfOk result (λ v. v.items ≡ flat_map (rules_given (plain_of store.now).objects (keys_if givers.now) (labelled role.now).name) (selectors_of (labelled role.now))) }
{
    let mut rules = Vec::new(alloc);
    for selector in role.selectors() {
        add_given(
            alloc,
            &mut rules,
            store,
            givers,
            role.name.as_str(),
            selector,
        )?;
    }
    Ok(rules)
}

/// Adds the rules of the store's roles that the selector matches, but for the role `name`. If the selector lists
/// a label and the givers are known, only the givers at its first label are read.
fn add_given(
    alloc: Global,
    rules: &mut Vec<PolicyRule>,
    store: &Store,
    givers: &Option<BTreeSet<Taker>>,
    name: &str,
    selector: &Selector,
) -> Result<(), Memory>
    ensures { OnOk result (rules.new.items ≡ rules.old.items ++ rules_given (plain_of store.now).objects (keys_if givers.now) name.now selector.now) }
{
    match givers {
        Some(givers) => match selector.match_labels.as_slice() {
            [label, ..] => {
                let names = names_at(alloc, givers, label)?;
                let roles = roles_named(alloc, store, &names)?;
                add_meant(alloc, rules, roles.as_slice(), name, selector)
            }
            [] => add_selected(alloc, rules, store, name, selector),
        },
        None => add_selected(alloc, rules, store, name, selector),
    }
}

/// Adds the rules of the store's roles that the selector matches, but for the role `name`.
#[tactic(auto, using(crate::proofs::Read::selected_meant))]
fn add_selected(
    alloc: Global,
    rules: &mut Vec<PolicyRule>,
    store: &Store,
    name: &str,
    selector: &Selector,
) -> Result<(), Memory>
    ensures { OnOk result (rules.new.items ≡ rules.old.items ++ rules_meant (roles_in (plain_of store.now).objects) name.now selector.now) }
{
    let roles = roles_selected(alloc, store, selector)?;
    add_meant(alloc, rules, roles.as_slice(), name, selector)
}

/// The rules of the roles that the role's selectors match, by the selectors in their order.
fn meant(
    alloc: Global,
    roles: &[NamedRole<'_>],
    role: &NamedRole<'_>,
) -> Result<Vec<PolicyRule>, Memory>
    ensures { IfOk result (λ v. v.items ≡ flat_map (rules_meant (map labelled roles.now) (labelled role.now).name) (selectors_of (labelled role.now))) }
{
    let mut rules = Vec::new(alloc);
    for selector in role.selectors() {
        add_meant(alloc, &mut rules, roles, role.name.as_str(), selector)?;
    }
    Ok(rules)
}

/// Adds the rules of the given roles that the selector matches, but for the role `name`.
fn add_meant(
    alloc: Global,
    rules: &mut Vec<PolicyRule>,
    roles: &[NamedRole<'_>],
    name: &str,
    selector: &Selector,
) -> Result<(), Memory>
    ensures { OnOk result (rules.new.items ≡ rules.old.items ++ rules_meant (map labelled roles.now) name.now selector.now) }
{
    for role in roles {
        if is_meant(role, name, selector) {
            add_rules(rules, role.rules(alloc)?.into_vec())?;
        }
    }
    Ok(())
}

/// Whether the selector matches the role, and the role has another name than `name`.
fn is_meant(role: &NamedRole<'_>, name: &str, selector: &Selector) -> bool
    ensures { result ≡ is_meant_by name.now selector.now (labelled role.now) }
{
    role.name.as_str() != name && role.object.is_selected(selector)
}

/// Adds the rules at the end.
fn add_rules(rules: &mut Vec<PolicyRule>, others: Vec<PolicyRule>) -> Result<(), Memory>
    ensures { OnOk result (rules.new.items ≡ rules.old.items ++ others.items) }
{
    for other in others {
        rules.push(other)?;
    }
    Ok(())
}

/// A rule as a key of a set: the lists of its entries, borrowed, which are compared in turn.
#[derive(PartialEq, Eq, PartialOrd, Ord, Drop)]
struct RuleKey<'a> {
    verbs: &'a [Text],
    api_groups: &'a [Text],
    resources: &'a [Text],
    resource_names: &'a [Text],
    non_resource_urls: &'a [Text],
}

/// The rule as a key; allocates nothing.
fn key_of(rule: &PolicyRule) -> RuleKey<'_>
    ensures { rule_of_key result ≡ rule.now }
{
    RuleKey {
        verbs: rule.verbs.as_slice(),
        api_groups: rule.api_groups.as_slice(),
        resources: rule.resources.as_slice(),
        resource_names: rule.resource_names.as_slice(),
        non_resource_urls: rule.non_resource_urls.as_slice(),
    }
}

/// For each rule, whether it is the first of its equals. A set holds those seen, so that no list is searched.
fn first_places(alloc: Global, rules: &[PolicyRule]) -> Result<Vec<bool>, Memory>
    ensures { IfOk result (λ v. picked v.items rules.now ≡ fold with_rule [] rules.now) }
{
    let mut seen = BTreeSet::new(alloc);
    let mut first = Vec::with_capacity(alloc, rules.len())?;
    for rule in rules {
        first.push(seen.insert(key_of(rule))?)?;
    }
    Ok(first)
}

/// The rules in their order, each once, at its first place.
pub(crate) fn each_once(alloc: Global, rules: Vec<PolicyRule>) -> Result<Vec<PolicyRule>, Memory>
    ensures { IfOk result (λ v. v.items ≡ fold with_rule [] rules.items) }
{
    let mut first = first_places(alloc, rules.as_slice())?.into_iter();
    let mut kept = Vec::with_capacity(alloc, rules.len())?;
    for rule in rules {
        if first.next() == Some(true) {
            kept.push(rule)?;
        }
    }
    Ok(kept)
}
