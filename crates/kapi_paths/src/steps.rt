//! Who can become whom in one step.
ghost use Rattle.std.specs.Prelude.{◌≡◌, ◌∷◌, ◌++◌, ◌||◌, [], map, true, IfOk, OnOk};
ghost use Rattle.std.specs.List.{flat_map, list_any};
ghost use Rattle.std.specs.Option.{unwrap_or};
ghost use Rattle.kapi_model.specs.Subjects.{subject_matches as matches_of};
ghost use Rattle.kapi_policy.specs.Decided.{rules_of};
ghost use Rattle.kapi_rules.specs.Entries as entries;
ghost use Rattle.kapi_policy.specs.Views.{binding_of};
ghost use Rattle.kapi_paths.specs.Rights.{row_of};
ghost use Rattle.kapi_paths.specs.Steps as steps;
ghost use Rattle.kapi_paths.specs.Steps.{named};

use crate::bound::{Bound, is_marked};
use crate::node::{Node, NodeKind, push_node};
use crate::right::{Leads, Names, Right};
use kapi_escalation::own_groups;
use kapi_model::{Identity, PolicyRule, RoleKind, RoleRef, account_user, subject_matches};
use kapi_policy::{Binding, NamespacedName, Policy};
use kapi_rules::{is_listed, some_word_matches, word_matches};
use kapi_text::{Memory, Sequence, Text, TryCopy, is_joined};
use std::alloc::Global;

/// The namespaces, service accounts and users that are known.
#[derive(Drop)]
pub struct Known {
    pub namespaces: Sequence<Text>,
    pub accounts: Sequence<NamespacedName>,
    pub users: Sequence<Text>,
}

// ---- by a right

fn resource_matches(entry: &str, resource: &str, subresource: &str) -> bool
    ensures { result ≡ entries.resource_matches entry.now resource.now subresource.now }
{
    if subresource.is_empty() {
        return word_matches(entry, resource);
    }
    let (bytes, last) = (entry.as_bytes(), subresource.as_bytes());
    (entry == "*" || is_joined(bytes, resource.as_bytes(), b'/', last))
        || is_joined(bytes, b"*", b'/', last)
}

fn some_resource_matches(list: &[Text], resource: &str, subresource: &str) -> bool
    ensures { result ≡ list_any (λ e. entries.resource_matches e resource.now subresource.now) list.now }
{
    list.iter().any(|entry| resource_matches(entry.as_str(), resource, subresource))
}

fn is_name_matched(names: &[Text], name: &str) -> bool
    ensures { result ≡ entries.names_match names.now name.now }
{
    names.is_empty() || is_listed(names, name)
}

fn are_asked(names: Names, listed: &[Text]) -> bool
    ensures { result ≡ steps.are_asked names listed.now }
{
    match names {
        Names::Unnamed => is_name_matched(listed, ""),
        Names::Any => true,
        Names::Signer => {
            is_name_matched(listed, "kubernetes.io/kube-apiserver-client")
                || is_name_matched(listed, "kubernetes.io/*")
        }
    }
}

fn has_right(right: &Right, rule: &PolicyRule) -> bool
    ensures { result ≡ steps.has_right (row_of right.now) rule.now }
{
    some_word_matches(rule.verbs.as_slice(), right.1)
        && (some_word_matches(rule.api_groups.as_slice(), right.2)
            && (some_resource_matches(rule.resources.as_slice(), right.3, right.4)
                && are_asked(right.5, rule.resource_names.as_slice())))
}

fn push_each_space(
    alloc: Global,
    list: &mut Vec<Node>,
    kind: NodeKind,
    places: &[Text],
) -> Result<(), Memory>
    ensures { OnOk result (list.new.items ≡ list.old.items ++ steps.each_space kind places.now) }
{
    for place in places {
        push_node(alloc, list, kind, place.as_str(), "")?;
    }
    Ok(())
}

fn push_named(
    alloc: Global,
    list: &mut Vec<Node>,
    kind: NodeKind,
    names: &[Text],
    place: &str,
) -> Result<(), Memory>
    ensures { OnOk result (list.new.items ≡ list.old.items ++ named kind names.now place.now) }
{
    for name in names {
        push_node(alloc, list, kind, place, name.as_str())?;
    }
    Ok(())
}

fn push_in_known(
    alloc: Global,
    list: &mut Vec<Node>,
    known: &Known,
    kind: NodeKind,
    names: &[Text],
) -> Result<(), Memory>
    ensures { OnOk result (list.new.items ≡ list.old.items ++ flat_map (named kind names.now) known.now.namespaces) }
{
    for place in known.namespaces.as_slice() {
        push_named(alloc, list, kind, names, place.as_str())?;
    }
    Ok(())
}

fn push_in_each(
    alloc: Global,
    list: &mut Vec<Node>,
    known: &Known,
    kind: NodeKind,
    names: &[Text],
    place: &str,
) -> Result<(), Memory>
    ensures { OnOk result (list.new.items ≡ list.old.items ++ steps.in_each known.now kind names.now place.now) }
{
    if place.is_empty() {
        push_in_known(alloc, list, known, kind, names)
    } else {
        push_named(alloc, list, kind, names, place)
    }
}

fn push_if_wide(alloc: Global, list: &mut Vec<Node>, place: &str) -> Result<(), Memory>
    ensures { OnOk result (list.new.items ≡ list.old.items ++ steps.if_wide place.now (steps.everything ∷ [])) }
{
    if place.is_empty() {
        push_node(alloc, list, NodeKind::Everything, "", "")
    } else {
        Ok(())
    }
}

// The nodes of the names, or all of the kind if no name is listed.
fn push_by_names(
    alloc: Global,
    list: &mut Vec<Node>,
    known: &Known,
    all: NodeKind,
    kind: NodeKind,
    place: &str,
    listed: &[Text],
) -> Result<(), Memory>
    ensures { OnOk result (list.new.items ≡ list.old.items ++ steps.by_names listed.now (steps.many all place.now) (steps.in_each known.now kind listed.now place.now)) }
{
    if listed.is_empty() {
        push_node(alloc, list, all, place, "")
    } else {
        push_in_each(alloc, list, known, kind, listed, place)
    }
}

fn push_if_named(
    alloc: Global,
    list: &mut Vec<Node>,
    all: NodeKind,
    kind: NodeKind,
    place: &str,
    listed: &[Text],
) -> Result<(), Memory>
    ensures { OnOk result (list.new.items ≡ list.old.items ++ steps.if_wide place.now (steps.by_names listed.now (steps.many all []) (named kind listed.now []))) }
{
    if !place.is_empty() {
        return Ok(());
    }
    if listed.is_empty() {
        push_node(alloc, list, all, "", "")
    } else {
        push_named(alloc, list, kind, listed, "")
    }
}

fn push_all_there(alloc: Global, list: &mut Vec<Node>, place: &str) -> Result<(), Memory>
    ensures { OnOk result (list.new.items ≡ list.old.items ++ steps.all_there place.now) }
{
    if place.is_empty() {
        push_node(alloc, list, NodeKind::Everything, "", "")
    } else {
        push_node(alloc, list, NodeKind::All, place, "")
    }
}

fn push_cluster_roles(
    alloc: Global,
    list: &mut Vec<Node>,
    place: &str,
    listed: &[Text],
) -> Result<(), Memory>
    ensures { OnOk result (list.new.items ≡ list.old.items ++ steps.by_names listed.now (steps.all_there place.now) (named NodeKind.ClusterRole listed.now place.now)) }
{
    if listed.is_empty() {
        push_all_there(alloc, list, place)
    } else {
        push_named(alloc, list, NodeKind::ClusterRole, listed, place)
    }
}

fn push_limits(
    alloc: Global,
    list: &mut Vec<Node>,
    place: &str,
    listed: &[Text],
) -> Result<(), Memory>
    ensures { OnOk result (list.new.items ≡ list.old.items ++ steps.limits_of place.now listed.now) }
{
    if is_name_matched(listed, place) {
        push_node(alloc, list, NodeKind::Limits, place, "")
    } else if place.is_empty() {
        push_each_space(alloc, list, NodeKind::Limits, listed)
    } else {
        Ok(())
    }
}

fn push_led_to(
    alloc: Global,
    list: &mut Vec<Node>,
    known: &Known,
    leads: Leads,
    place: &str,
    listed: &[Text],
) -> Result<(), Memory>
    ensures { OnOk result (list.new.items ≡ list.old.items ++ steps.led_to known.now leads place.now listed.now) }
{
    match leads {
        Leads::Everything => push_if_wide(alloc, list, place),
        Leads::All => push_node(alloc, list, NodeKind::All, place, ""),
        Leads::Accounts => push_node(alloc, list, NodeKind::Accounts, place, ""),
        Leads::NamedAccounts => {
            push_by_names(
                alloc,
                list,
                known,
                NodeKind::Accounts,
                NodeKind::Account,
                place,
                listed,
            )
        }
        Leads::NamedUsers => push_if_named(
            alloc,
            list,
            NodeKind::EveryUser,
            NodeKind::User,
            place,
            listed,
        ),
        Leads::NamedGroups => {
            push_if_named(
                alloc,
                list,
                NodeKind::Everything,
                NodeKind::Group,
                place,
                listed,
            )
        }
        Leads::NamedRoles => push_by_names(
            alloc,
            list,
            known,
            NodeKind::All,
            NodeKind::Role,
            place,
            listed,
        ),
        Leads::NamedLimits => push_limits(alloc, list, place, listed),
        Leads::NamedClusterRoles => push_cluster_roles(alloc, list, place, listed),
    }
}

/// Puts those at the end of a list whom a rule leads to by a right, if it has it.
#[tactic(auto, unfolding(crate::specs::Steps::by_right))]
pub fn push_by_right(
    alloc: Global,
    list: &mut Vec<Node>,
    known: &Known,
    place: &str,
    rule: &PolicyRule,
    right: &Right,
) -> Result<(), Memory>
    ensures { OnOk result (list.new.items ≡ list.old.items ++ steps.by_right known.now place.now rule.now (row_of right.now)) }
{
    if !has_right(right, rule) {
        return Ok(());
    }
    push_led_to(
        alloc,
        list,
        known,
        right.6,
        place,
        rule.resource_names.as_slice(),
    )
}

fn push_by_rule(
    alloc: Global,
    list: &mut Vec<Node>,
    known: &Known,
    rights: &[Right],
    place: &str,
    rule: &PolicyRule,
) -> Result<(), Memory>
    ensures { OnOk result (list.new.items ≡ list.old.items ++ flat_map (steps.by_right known.now place.now rule.now) (map row_of rights.now)) }
{
    for right in rights {
        push_by_right(alloc, list, known, place, rule, right)?;
    }
    Ok(())
}

#[tactic(auto, unfolding(crate::specs::Steps::by_rules))]
fn push_by_rules(
    alloc: Global,
    list: &mut Vec<Node>,
    known: &Known,
    rights: &[Right],
    place: &str,
    rules: &[PolicyRule],
) -> Result<(), Memory>
    ensures { OnOk result (list.new.items ≡ list.old.items ++ steps.by_rules known.now (map row_of rights.now) place.now rules.now) }
{
    for rule in rules {
        push_by_rule(alloc, list, known, rights, place, rule)?;
    }
    Ok(())
}

/// The rules of a role that is held in the namespace, none if it does not exist.
pub fn rules_held<'a, P: Policy>(policy: &'a P, role: &RoleRef, place: &str) -> &'a [PolicyRule]
    ensures { result.now ≡ unwrap_or (rules_of (P.content policy.now) role.now place.now) [] }
{
    match policy.role_rules(role, place) {
        Some(rules) => rules,
        None => &[],
    }
}

// ---- by bindings

fn usual_groups(alloc: Global, user: &str) -> Result<Sequence<Text>, Memory>
    ensures { IfOk result (λ s. s ≡ steps.usual_groups user.now) }
{
    if user == "system:anonymous" {
        let mut groups = Vec::new(alloc);
        groups.push(Text::copy_of(alloc, "system:unauthenticated")?)?;
        return Ok(Sequence::new(groups));
    }
    let mut groups = own_groups(alloc, user)?.into_vec();
    groups.push(Text::copy_of(alloc, "system:authenticated")?)?;
    Ok(Sequence::new(groups))
}

fn user_alone(alloc: Global, user: &str) -> Result<Identity, Memory>
    ensures { IfOk result (λ i. i ≡ steps.user_alone user.now) }
{
    Ok(Identity {
        user: Text::copy_of(alloc, user)?,
        groups: usual_groups(alloc, user)?,
    })
}

fn member_of(alloc: Global, group: &str) -> Result<Identity, Memory>
    ensures { IfOk result (λ i. i ≡ steps.member_of group.now) }
{
    if group == "system:unauthenticated" {
        return user_alone(alloc, "system:anonymous");
    }
    let mut groups = Vec::new(alloc);
    groups.push(Text::copy_of(alloc, group)?)?;
    groups.push(Text::copy_of(alloc, "system:authenticated")?)?;
    Ok(Identity {
        user: Text::copy_of(alloc, "")?,
        groups: Sequence::new(groups),
    })
}

#[tactic(auto, unfolding(crate::specs::Steps::account_alone))]
fn account_alone(alloc: Global, namespace: &str, name: &str) -> Result<Identity, Memory>
    ensures { IfOk result (λ i. i ≡ steps.account_alone namespace.now name.now) }
{
    user_alone(alloc, account_user(alloc, namespace, name)?.as_str())
}

/// The kind of a node that holds a role of the kind.
pub fn held_kind(kind: RoleKind) -> NodeKind
    ensures { result ≡ steps.held_kind kind }
{
    match kind {
        RoleKind::Role => NodeKind::Role,
        RoleKind::ClusterRole => NodeKind::ClusterRole,
    }
}

/// Whether the binding gives the identity its role.
pub fn is_bound(binding: &Binding<'_>, identity: &Identity) -> bool
    ensures { result ≡ list_any (λ s. matches_of s (binding_of binding.now).namespace identity.now) (binding_of binding.now).subjects }
{
    binding.subjects.iter().any(|subject| subject_matches(subject, binding.namespace, identity))
}

fn push_bound(
    alloc: Global,
    list: &mut Vec<Node>,
    identity: &Identity,
    binding: &Binding<'_>,
) -> Result<(), Memory>
    ensures { OnOk result (list.new.items ≡ list.old.items ++ steps.bound identity.now (binding_of binding.now)) }
{
    if !is_bound(binding, identity) {
        return Ok(());
    }
    let kind = held_kind(binding.role.kind);
    push_node(
        alloc,
        list,
        kind,
        binding.namespace,
        binding.role.name.as_str(),
    )
}

// The role of a binding that may give it to the identity.
fn push_if_marked(
    alloc: Global,
    list: &mut Vec<Node>,
    identity: &Identity,
    binding: &Binding<'_>,
    is_marked: bool,
) -> Result<(), Memory>
    requires { list_any (λ s. matches_of s (binding_of binding.now).namespace identity.now) (binding_of binding.now).subjects ≡ true → is_marked ≡ true }
    ensures { OnOk result (list.new.items ≡ list.old.items ++ steps.bound identity.now (binding_of binding.now)) }
{
    if is_marked {
        push_bound(alloc, list, identity, binding)
    } else {
        Ok(())
    }
}

fn push_all_bound(
    alloc: Global,
    list: &mut Vec<Node>,
    identity: &Identity,
    bindings: &Bound<'_>,
) -> Result<(), Memory>
    ensures { OnOk result (list.new.items ≡ list.old.items ++ flat_map (steps.bound identity.now) bindings.now) }
{
    let marks = bindings.marks(alloc, identity)?;
    for (position, binding) in bindings.list().iter().enumerate() {
        let may_be = is_marked(marks.as_slice(), position);
        push_if_marked(alloc, list, identity, binding, may_be)?;
    }
    Ok(())
}

#[tactic(auto, unfolding(crate::specs::Steps::by_bindings))]
fn push_by_bindings(
    alloc: Global,
    list: &mut Vec<Node>,
    bindings: &Bound<'_>,
    identity: &Identity,
) -> Result<(), Memory>
    ensures { OnOk result (list.new.items ≡ list.old.items ++ steps.by_bindings bindings.now identity.now) }
{
    if identity.is_master() {
        push_node(alloc, list, NodeKind::Everything, "", "")?;
    }
    push_all_bound(alloc, list, identity, bindings)
}

// ---- of many

fn push_account(
    alloc: Global,
    list: &mut Vec<Node>,
    place: &str,
    account: &NamespacedName,
) -> Result<(), Memory>
    ensures { OnOk result (list.new.items ≡ list.old.items ++ steps.account_in place.now account.now) }
{
    if account.namespace.as_str() != place {
        return Ok(());
    }
    push_node(alloc, list, NodeKind::Account, place, account.name.as_str())
}

fn push_accounts_in(
    alloc: Global,
    list: &mut Vec<Node>,
    known: &Known,
    place: &str,
) -> Result<(), Memory>
    ensures { OnOk result (list.new.items ≡ list.old.items ++ steps.accounts_in known.now place.now) }
{
    for account in known.accounts.as_slice() {
        push_account(alloc, list, place, account)?;
    }
    Ok(())
}

fn push_accounts(
    alloc: Global,
    list: &mut Vec<Node>,
    known: &Known,
    place: &str,
) -> Result<(), Memory>
    ensures { OnOk result (list.new.items ≡ list.old.items ++ steps.all_accounts known.now place.now) }
{
    if place.is_empty() {
        push_each_space(alloc, list, NodeKind::Accounts, known.namespaces.as_slice())
    } else {
        push_accounts_in(alloc, list, known, place)
    }
}

fn push_all_in(
    alloc: Global,
    list: &mut Vec<Node>,
    known: &Known,
    place: &str,
) -> Result<(), Memory>
    ensures { OnOk result (list.new.items ≡ list.old.items ++ steps.all_in known.now place.now) }
{
    if place.is_empty() {
        return push_each_space(alloc, list, NodeKind::All, known.namespaces.as_slice());
    }
    push_node(alloc, list, NodeKind::Accounts, place, "")?;
    push_node(alloc, list, NodeKind::Limits, place, "")
}

// ---- of each node

/// The identity of a user, group or account; of another node that of nobody.
pub fn identity_of(alloc: Global, node: &Node) -> Result<Identity, Memory>
    ensures { IfOk result (λ i. i ≡ steps.identity_of node.now.kind node.now.place node.now.name) }
{
    match node.kind {
        NodeKind::User => user_alone(alloc, node.name.as_str()),
        NodeKind::Group => member_of(alloc, node.name.as_str()),
        NodeKind::Account => account_alone(alloc, node.place.as_str(), node.name.as_str()),
        _ => user_alone(alloc, ""),
    }
}

/// A policy, all its bindings, what is known of the cluster, and the rights that are looked at.
#[derive(Drop)]
pub struct Question<'a, P> {
    pub policy: &'a P,
    pub bindings: &'a Bound<'a>,
    pub known: &'a Known,
    pub rights: &'a [Right],
}

#[tactic(auto, unfolding(crate::specs::Steps::by_role))]
fn push_by_role<P: Policy>(
    alloc: Global,
    list: &mut Vec<Node>,
    asked: &Question<'_, P>,
    kind: RoleKind,
    node: &Node,
) -> Result<(), Memory>
    ensures { OnOk result (list.new.items ≡ list.old.items ++ steps.by_role (P.content asked.now.policy.now) asked.now.known.now (map row_of asked.now.rights.now) kind node.now.place node.now.name) }
{
    let role = RoleRef {
        kind,
        name: node.name.copy(alloc)?,
    };
    let place = node.place.as_str();
    let rules = rules_held(asked.policy, &role, place);
    push_by_rules(alloc, list, asked.known, asked.rights, place, rules)
}

#[tactic(auto, unfolding(crate::specs::Steps::next))]
fn push_next<P: Policy>(
    alloc: Global,
    list: &mut Vec<Node>,
    asked: &Question<'_, P>,
    node: &Node,
) -> Result<(), Memory>
    ensures { OnOk result (list.new.items ≡ list.old.items ++ steps.next (P.content asked.now.policy.now) asked.now.bindings.now asked.now.known.now (map row_of asked.now.rights.now) node.now.kind node.now.place node.now.name) }
{
    let place = node.place.as_str();
    let bindings = asked.bindings;
    let users = asked.known.users.as_slice();
    match node.kind {
        NodeKind::Everything => Ok(()),
        NodeKind::Limits => Ok(()),
        NodeKind::EveryUser => push_named(alloc, list, NodeKind::User, users, ""),
        NodeKind::All => push_all_in(alloc, list, asked.known, place),
        NodeKind::Accounts => push_accounts(alloc, list, asked.known, place),
        NodeKind::User => push_by_bindings(alloc, list, bindings, &identity_of(alloc, node)?),
        NodeKind::Group => push_by_bindings(alloc, list, bindings, &identity_of(alloc, node)?),
        NodeKind::Account => push_by_bindings(alloc, list, bindings, &identity_of(alloc, node)?),
        NodeKind::Role => push_by_role(alloc, list, asked, RoleKind::Role, node),
        NodeKind::ClusterRole => push_by_role(alloc, list, asked, RoleKind::ClusterRole, node),
    }
}

/// Whom one can become in a step from a node.
pub fn next<P: Policy>(
    alloc: Global,
    asked: &Question<'_, P>,
    node: &Node,
) -> Result<Vec<Node>, Memory>
    ensures { IfOk result (λ v. v.items ≡ steps.next (P.content asked.now.policy.now) asked.now.bindings.now asked.now.known.now (map row_of asked.now.rights.now) node.now.kind node.now.place node.now.name) }
{
    let mut list = Vec::new(alloc);
    push_next(alloc, &mut list, asked, node)?;
    Ok(list)
}
