//! What a policy gives and nobody used, and which uses it allows.
ghost use Rattle.std.specs.Prelude.{◌≡◌, ◌++◌, map, IfOk, OnOk};
ghost use Rattle.std.specs.List.{filter, list_any};
ghost use Rattle.kapi_model.specs.Subjects.{subject_matches as matches_of};
ghost use Rattle.kapi_escalation_laws.specs.Access.{may};
ghost use Rattle.kapi_policy.specs.All.{all_bindings};
ghost use Rattle.kapi_policy.specs.Views.{binding_of};
ghost use Rattle.kapi_access.specs.Grantees.{role_of};
ghost use Rattle.kapi_suggest.specs.Idle as idle;
ghost use Rattle.kapi_suggest.specs.Idle.{unused as unused_in, unused_of};
ghost use Rattle.kapi_suggest.specs.Uses.{counts as counts_of};

use kapi_model::{Identity, PolicyRule, subject_matches};
use kapi_policy::{Binding, Policy};
use kapi_reviews::Question;
use kapi_rules::allows;
use kapi_text::Memory;
use std::alloc::Global;

/// A binding, and the index of its role's rule, which nobody used by it.
#[derive(Drop)]
pub struct Unused<'a> {
    pub binding: Binding<'a>,
    /// The index of the rule among the role's own, from 0.
    pub rule: usize,
}

fn is_bound(binding: &Binding<'_>, identity: &Identity) -> bool
    ensures { result ≡ list_any (λ s. matches_of s (binding_of binding.now).namespace identity.now) (binding_of binding.now).subjects }
{
    binding.subjects.iter().any(|subject| subject_matches(subject, binding.namespace, identity))
}

fn counts(given: &str, namespace: &str) -> bool
    ensures { result ≡ counts_of given.now namespace.now }
{
    given.is_empty() || given == namespace
}

fn serves(binding: &Binding<'_>, rule: &PolicyRule, used: &Question) -> bool
    ensures { result ≡ idle.serves (binding_of binding.now) rule.now used.now }
{
    is_bound(binding, &used.identity)
        && (counts(binding.namespace, used.namespace.as_str()) && allows(rule, &used.point))
}

fn is_used(uses: &[Question], binding: &Binding<'_>, rule: &PolicyRule) -> bool
    ensures { result ≡ idle.is_used uses.now (binding_of binding.now) rule.now }
{
    uses.iter().any(|used| serves(binding, rule, used))
}

fn again<'a>(binding: &Binding<'a>) -> Binding<'a>
    ensures { binding_of result ≡ binding_of binding.now }
{
    Binding {
        kind: binding.kind,
        namespace: binding.namespace,
        name: binding.name,
        subjects: binding.subjects,
        role: binding.role,
    }
}

fn push_rule<'a>(
    list: &mut Vec<Unused<'a>>,
    uses: &[Question],
    binding: &Binding<'a>,
    index: usize,
    rule: &PolicyRule,
) -> Result<(), Memory>
    ensures { OnOk result (map unused_of list.new.items ≡ map unused_of list.old.items ++ idle.unused_rule uses.now (binding_of binding.now) (index, rule.now)) }
{
    if is_used(uses, binding, rule) {
        return Ok(());
    }
    list.push(Unused {
        binding: again(binding),
        rule: index,
    })?;
    Ok(())
}

fn push_rules<'a>(
    list: &mut Vec<Unused<'a>>,
    uses: &[Question],
    binding: &Binding<'a>,
    rules: &[PolicyRule],
) -> Result<(), Memory>
    ensures { OnOk result (map unused_of list.new.items ≡ map unused_of list.old.items ++ idle.unused_rules uses.now (binding_of binding.now) (0, rules.now)) }
{
    for (index, rule) in rules.iter().enumerate() {
        push_rule(list, uses, binding, index, rule)?;
    }
    Ok(())
}

fn rules_by<'a, P: Policy>(policy: &'a P, binding: &Binding<'_>) -> &'a [PolicyRule]
    ensures { result.now ≡ role_of (P.content policy.now) (binding_of binding.now) }
{
    match policy.role_rules(binding.role, binding.namespace) {
        Some(rules) => rules,
        None => &[],
    }
}

/// The rules that no use needed, as bindings give them, given all bindings of the policy.
#[tactic(auto, unfolding(crate::specs::Idle::unused))]
pub fn unused_rules<'a, P: Policy>(
    alloc: Global,
    policy: &P,
    bindings: &[Binding<'a>],
    uses: &[Question],
) -> Result<Vec<Unused<'a>>, Memory>
    requires { map binding_of bindings.now ≡ all_bindings (P.content policy.now) }
    ensures { IfOk result (λ v. map unused_of v.items ≡ unused_in (P.content policy.now) uses.now) }
{
    let mut list = Vec::new(alloc);
    for binding in bindings {
        push_rules(&mut list, uses, binding, rules_by(policy, binding))?;
    }
    Ok(list)
}

/// The uses that the policy allows, in their order.
pub fn allowed_uses<P: Policy>(
    alloc: Global,
    policy: &P,
    uses: Vec<Question>,
) -> Result<Vec<Question>, Memory>
    ensures { IfOk result (λ v. v.items ≡ filter (λ u. may (P.content policy.now) u.identity u.namespace u.point) uses.items) }
{
    let mut allowed = Vec::new(alloc);
    for used in uses {
        let namespace = used.namespace.as_str();
        if policy
            .decide(&used.identity, namespace, &used.point)
            .is_allowed()
        {
            allowed.push(used)?;
        }
    }
    Ok(allowed)
}
