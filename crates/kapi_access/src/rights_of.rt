//! What an identity has, and by what.
ghost use Rattle.std.specs.Prelude.{◌≡◌, ◌++◌, [], map, IfOk, OnOk};
ghost use Rattle.std.specs.List.{flat_map, list_any};
ghost use Rattle.std.specs.Option.{unwrap_or};
ghost use Rattle.kapi_model.specs.Subjects.{subject_matches as matches_of};
ghost use Rattle.kapi_policy.specs.All.{all_bindings};
ghost use Rattle.kapi_policy.specs.Views.{binding_of};
ghost use Rattle.kapi_access.specs.Given.{all_given, counting_in as counting_of, given_as as given_of, given_at, given_by, is_bare as is_bare_rule, lines_of, what as what_of, with_given};

use crate::scoped::ScopedRule;
use crate::way::rules_by;
use kapi_model::{Identity, PolicyRule, RoleRef, subject_matches};
use kapi_policy::{Binding, BindingKind, Policy};
use kapi_text::{Memory, Sequence, Text, TryCopy};
use std::alloc::Global;
use std::collections::BTreeMap;

/// A binding, and the index of its role's rule.
#[derive(Drop)]
pub struct GivenBy {
    pub kind: BindingKind,
    /// The binding's name.
    pub binding: Text,
    pub role: RoleRef,
    /// The index of the rule among the role's own, from 0.
    pub rule: usize,
}

/// A rule that a binding gives, where the binding counts.
#[derive(Drop)]
pub struct Given {
    pub at: ScopedRule,
    pub by: GivenBy,
}

// ---- rules

fn is_bound(binding: &Binding<'_>, identity: &Identity) -> bool
    ensures { result ≡ list_any (λ s. matches_of s (binding_of binding.now).namespace identity.now) (binding_of binding.now).subjects }
{
    binding.subjects.iter().any(|subject| subject_matches(subject, binding.namespace, identity))
}

// What of the rule counts in the namespace: URLs are asked for cluster-wide alone.
fn counting_in(alloc: Global, namespace: &str, rule: &PolicyRule) -> Result<PolicyRule, Memory>
    ensures { IfOk result (λ r. r ≡ counting_of namespace.now rule.now) }
{
    let mut counting = rule.copy(alloc)?;
    if !namespace.is_empty() {
        counting.non_resource_urls = Sequence::new(Vec::new(alloc));
    }
    Ok(counting)
}

fn is_bare(rule: &PolicyRule) -> bool
    ensures { result ≡ is_bare_rule rule.now }
{
    rule.resources.as_slice().is_empty() && rule.non_resource_urls.as_slice().is_empty()
}

fn given_as(
    alloc: Global,
    binding: &Binding<'_>,
    index: usize,
    rule: PolicyRule,
) -> Result<Given, Memory>
    ensures { IfOk result (λ g. g ≡ given_of (binding_of binding.now) index rule) }
{
    Ok(Given {
        at: ScopedRule {
            rule,
            namespace: Text::copy_of(alloc, binding.namespace)?,
        },
        by: GivenBy {
            kind: binding.kind,
            binding: Text::copy_of(alloc, binding.name)?,
            role: binding.role.copy(alloc)?,
            rule: index,
        },
    })
}

fn push_rule(
    alloc: Global,
    list: &mut Vec<Given>,
    binding: &Binding<'_>,
    index: usize,
    rule: &PolicyRule,
) -> Result<(), Memory>
    ensures { OnOk result (list.new.items ≡ list.old.items ++ given_at (binding_of binding.now) (index, rule.now)) }
{
    let counting = counting_in(alloc, binding.namespace, rule)?;
    if !is_bare(&counting) {
        list.push(given_as(alloc, binding, index, counting)?)?;
    }
    Ok(())
}

fn push_rules(
    alloc: Global,
    list: &mut Vec<Given>,
    binding: &Binding<'_>,
    rules: &[PolicyRule],
) -> Result<(), Memory>
    ensures { OnOk result (list.new.items ≡ list.old.items ++ all_given (binding_of binding.now) rules.now) }
{
    for (index, rule) in rules.iter().enumerate() {
        push_rule(alloc, list, binding, index, rule)?;
    }
    Ok(())
}

#[tactic(auto, unfolding(crate::specs::Given::given_by, kapi_policy::specs::Decided::given))]
fn push_given<P: Policy>(
    alloc: Global,
    list: &mut Vec<Given>,
    policy: &P,
    identity: &Identity,
    binding: &Binding<'_>,
) -> Result<(), Memory>
    ensures { OnOk result (list.new.items ≡ list.old.items ++ given_by (P.content policy.now) identity.now (binding_of binding.now)) }
{
    if !is_bound(binding, identity) {
        return Ok(());
    }
    push_rules(alloc, list, binding, rules_by(policy, binding))
}

fn given_by_all<P: Policy>(
    alloc: Global,
    policy: &P,
    bindings: &[Binding<'_>],
    identity: &Identity,
) -> Result<Vec<Given>, Memory>
    ensures { IfOk result (λ v. v.items ≡ flat_map (λ b. given_by (P.content policy.now) identity.now (binding_of b)) bindings.now) }
{
    let mut list = Vec::new(alloc);
    for binding in bindings {
        push_given(alloc, &mut list, policy, identity, binding)?;
    }
    Ok(list)
}

/// What the identity has, given all bindings of the policy: each rule that a binding gives it, in the order of the bindings; of a
/// RoleBinding without its URLs. A member of `system:masters` may do everything besides.
pub fn what<P: Policy>(
    alloc: Global,
    policy: &P,
    bindings: &[Binding<'_>],
    identity: &Identity,
) -> Result<Vec<Given>, Memory>
    requires { map binding_of bindings.now ≡ all_bindings (P.content policy.now) }
    ensures { IfOk result (λ v. v.items ≡ what_of (P.content policy.now) identity.now) }
{
    let list = given_by_all(alloc, policy, bindings, identity)?;
    Ok(list)
}

// ---- lines

fn items_of(alloc: Global, found: Option<Sequence<GivenBy>>) -> Vec<GivenBy>
    ensures { result.items ≡ unwrap_or found [] }
{
    match found {
        Some(list) => list.into_vec(),
        None => Vec::new(alloc),
    }
}

fn add_given(
    alloc: Global,
    lines: &mut BTreeMap<ScopedRule, Sequence<GivenBy>>,
    given: Given,
) -> Result<(), Memory>
    ensures { OnOk result (lines.new.entries ≡ with_given lines.old.entries given) }
{
    let Given { at, by } = given;
    let mut all = items_of(alloc, lines.remove(&at));
    all.push(by)?;
    drop(lines.insert(at, Sequence::new(all))?);
    Ok(())
}

/// A line for each rule and scope, with all by what it is given, in the order of the rules' entries: `*` before names.
#[tactic(auto, using(crate::proofs::Lists::fold_last))]
pub fn given_lines(
    alloc: Global,
    list: Vec<Given>,
) -> Result<BTreeMap<ScopedRule, Sequence<GivenBy>>, Memory>
    ensures { IfOk result (λ m. m.entries ≡ lines_of list.items) }
{
    let mut lines = BTreeMap::new(alloc);
    for given in list {
        add_given(alloc, &mut lines, given)?;
    }
    Ok(lines)
}
