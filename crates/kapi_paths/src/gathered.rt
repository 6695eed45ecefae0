//! What bindings say of a cluster.
ghost use Rattle.std.specs.Prelude.{◌≡◌, ◌∷◌, ◌++◌, [], map, IfOk, OnOk};
ghost use Rattle.std.specs.List.{flat_map};
ghost use Rattle.kapi_policy.specs.Views.{binding_of};
ghost use Rattle.kapi_paths.specs.Sources.{sources as sources_of, subjects_of};
ghost use Rattle.kapi_paths.specs.Steps.{who_is as who_is_of};
ghost use Rattle.kapi_paths.specs.Gathered as known;

use crate::node::{Node, NodeKind, push_node};
use crate::steps::Known;
use kapi_model::{Subject, account_namespace};
use kapi_policy::{Binding, NamespacedName};
use kapi_text::{Memory, Sequence, Text, TryCopy};
use std::alloc::Global;
use std::collections::BTreeSet;

// ---- sources

fn push_subject(
    alloc: Global,
    list: &mut Vec<Node>,
    namespace: &str,
    subject: &Subject,
) -> Result<(), Memory>
    ensures { OnOk result (list.new.items ≡ list.old.items ++ who_is_of namespace.now subject.now ∷ []) }
{
    match subject {
        Subject::User(name) => push_node(alloc, list, NodeKind::User, "", name.as_str()),
        Subject::Group(name) => push_node(alloc, list, NodeKind::Group, "", name.as_str()),
        Subject::ServiceAccount(account) => {
            let place = account_namespace(account, namespace);
            push_node(alloc, list, NodeKind::Account, place, account.name.as_str())
        }
    }
}

#[tactic(auto, unfolding(crate::specs::Sources::subjects_of))]
fn push_subjects(alloc: Global, list: &mut Vec<Node>, binding: &Binding<'_>) -> Result<(), Memory>
    ensures { OnOk result (list.new.items ≡ list.old.items ++ subjects_of (binding_of binding.now)) }
{
    for subject in binding.subjects {
        push_subject(alloc, list, binding.namespace, subject)?;
    }
    Ok(())
}

/// The subjects of bindings.
pub fn sources(alloc: Global, bindings: &[Binding<'_>]) -> Result<Vec<Node>, Memory>
    ensures { IfOk result (λ v. v.items ≡ sources_of (map binding_of bindings.now)) }
{
    let mut list = Vec::new(alloc);
    for binding in bindings {
        push_subjects(alloc, &mut list, binding)?;
    }
    Ok(list)
}

// ---- what is known

fn push_account(
    alloc: Global,
    list: &mut Vec<NamespacedName>,
    namespace: &str,
    name: &str,
) -> Result<(), Memory>
    ensures { OnOk result (list.new.items ≡ list.old.items ++ known.account namespace.now name.now ∷ []) }
{
    let namespace = Text::copy_of(alloc, namespace)?;
    let name = Text::copy_of(alloc, name)?;
    list.push(NamespacedName { namespace, name })?;
    Ok(())
}

fn push_default(
    alloc: Global,
    list: &mut Vec<NamespacedName>,
    namespace: &str,
) -> Result<(), Memory>
    ensures { OnOk result (list.new.items ≡ list.old.items ++ known.default_in namespace.now) }
{
    if namespace.is_empty() {
        return Ok(());
    }
    push_account(alloc, list, namespace, "default")
}

// The account `default` of the namespaces `default` and `kube-system`, and of each namespace of a binding.
fn defaults(alloc: Global, bindings: &[Binding<'_>]) -> Result<Vec<NamespacedName>, Memory>
    ensures { IfOk result (λ v. v.items ≡ known.defaults (map binding_of bindings.now)) }
{
    let mut list = Vec::new(alloc);
    push_default(alloc, &mut list, "default")?;
    push_default(alloc, &mut list, "kube-system")?;
    for binding in bindings {
        push_default(alloc, &mut list, binding.namespace)?;
    }
    Ok(list)
}

fn push_known_account(
    alloc: Global,
    list: &mut Vec<NamespacedName>,
    node: &Node,
) -> Result<(), Memory>
    ensures { OnOk result (list.new.items ≡ list.old.items ++ known.account_named node.now.kind node.now.place node.now.name) }
{
    match node.kind {
        NodeKind::Account => push_account(alloc, list, node.place.as_str(), node.name.as_str()),
        _ => Ok(()),
    }
}

#[tactic(auto, unfolding(crate::specs::Gathered::is_account))]
fn is_account(name: &str) -> bool
    ensures { result ≡ known.is_account name.now }
{
    name.as_bytes().starts_with(b"system:serviceaccount:")
}

// A user, unless it is an account by its name.
fn push_user(alloc: Global, list: &mut Vec<Text>, name: &Text) -> Result<(), Memory>
    ensures { OnOk result (list.new.items ≡ list.old.items ++ known.user_named NodeKind.User name.now) }
{
    if is_account(name.as_str()) {
        return Ok(());
    }
    list.push(name.copy(alloc)?)?;
    Ok(())
}

fn push_known_user(alloc: Global, list: &mut Vec<Text>, node: &Node) -> Result<(), Memory>
    ensures { OnOk result (list.new.items ≡ list.old.items ++ known.user_named node.now.kind node.now.name) }
{
    match node.kind {
        NodeKind::User => push_user(alloc, list, &node.name),
        _ => Ok(()),
    }
}

fn accounts(
    alloc: Global,
    bindings: &[Binding<'_>],
    subjects: &[Node],
) -> Result<Vec<NamespacedName>, Memory>
    requires { subjects.now ≡ sources_of (map binding_of bindings.now) }
    ensures { IfOk result (λ v. v.items ≡ known.accounts (map binding_of bindings.now)) }
{
    let mut list = defaults(alloc, bindings)?;
    for node in subjects {
        push_known_account(alloc, &mut list, node)?;
    }
    Ok(list)
}

fn users(alloc: Global, subjects: &[Node]) -> Result<Vec<Text>, Memory>
    ensures { IfOk result (λ v. v.items ≡ flat_map (λ n. known.user_named n.kind n.name) subjects.now) }
{
    let mut list = Vec::new(alloc);
    for node in subjects {
        push_known_user(alloc, &mut list, node)?;
    }
    Ok(list)
}

fn namespaces(alloc: Global, accounts: &[NamespacedName]) -> Result<Vec<Text>, Memory>
    ensures { IfOk result (λ v. v.items ≡ map (λ a. a.namespace) accounts.now) }
{
    let mut list = Vec::new(alloc);
    for account in accounts {
        list.push(account.namespace.copy(alloc)?)?;
    }
    Ok(list)
}

// The items in their order, each once.
fn in_order<T: Ord + Drop>(alloc: Global, list: Vec<T>) -> Result<Sequence<T>, Memory>
    ensures { IfOk result (λ s. s ≡ known.in_order T.cmp list.items) }
{
    let mut set = BTreeSet::new(alloc);
    for item in list {
        set.insert(item)?;
    }
    Ok(Sequence::new(set.into_iter().collect(alloc)?))
}

/// The namespaces, accounts and users that the bindings name, with the account `default` of each namespace, and the namespaces
/// `default` and `kube-system`.
#[tactic(auto, unfolding(crate::specs::Gathered::known_of))]
pub fn known_of(alloc: Global, bindings: &[Binding<'_>]) -> Result<Known, Memory>
    ensures { IfOk result (λ k. k ≡ known.known_of (map binding_of bindings.now)) }
{
    let subjects = sources(alloc, bindings)?;
    let accounts = accounts(alloc, bindings, subjects.as_slice())?;
    Ok(Known {
        namespaces: in_order(alloc, namespaces(alloc, accounts.as_slice())?)?,
        accounts: in_order(alloc, accounts)?,
        users: in_order(alloc, users(alloc, subjects.as_slice())?)?,
    })
}
