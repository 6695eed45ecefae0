//! By what a user or group may do something.
ghost use Rattle.std.specs.Prelude.{◌≡◌, ◌||◌, map, OnOk};
ghost use Rattle.std.specs.List.{fold};
ghost use Rattle.kapi_policy.specs.Views.{binding_of};
ghost use Rattle.kapi_access.specs.Grantees.{role_of};
ghost use Rattle.kapi_access.specs.Who.{counts as counts_there, ways_by, with_way};

use crate::first_ways::FirstWays;
use crate::grantee::{Grantee, grantees};
use kapi_model::PolicyRule;
use kapi_policy::{Binding, Policy};
use kapi_text::{Memory, TryCopy};
use std::alloc::Global;

/// A user or group, with the binding and the index of its role's rule by which it may do something.
#[derive(Drop)]
pub struct Way<'a> {
    pub to: Grantee,
    pub binding: Binding<'a>,
    /// The index of the rule among the role's own, from 0.
    pub rule: usize,
}

/// The binding once more.
pub fn again<'a>(binding: &Binding<'a>) -> Binding<'a>
    ensures { binding_of result ≡ binding_of binding.now }
{
    Binding {
        kind: binding.kind,
        namespace: binding.namespace,
        name: binding.name,
        subjects: binding.subjects,
        role: binding.role,
    }
}

/// The rules of the binding's role, none if it does not exist.
pub fn rules_by<'a, P: Policy>(policy: &'a P, binding: &Binding<'_>) -> &'a [PolicyRule]
    ensures { result.now ≡ role_of (P.content policy.now) (binding_of binding.now) }
{
    match policy.role_rules(binding.role, binding.namespace) {
        Some(rules) => rules,
        None => &[],
    }
}

/// Whether the binding counts in the namespace.
pub fn counts(binding: &Binding<'_>, namespace: &str) -> bool
    ensures { result ≡ counts_there namespace.now (binding_of binding.now) }
{
    binding.namespace.is_empty() || binding.namespace == namespace
}

fn push_each<'a>(
    alloc: Global,
    found: &mut FirstWays<'a>,
    binding: &Binding<'a>,
    rule: usize,
    to: &[Grantee],
) -> Result<(), Memory>
    ensures { OnOk result (found.new ≡ fold with_way found.old (map (λ g. record { to = g; binding = binding_of binding.now; rule = rule }) to.now)) }
{
    for grantee in to {
        let to = grantee.copy(alloc)?;
        found.add(
            alloc,
            Way {
                to,
                binding: again(binding),
                rule,
            },
        )?;
    }
    Ok(())
}

/// Puts the grantees of the binding by that rule, if there is one, at the end of what was found.
pub fn push_ways<'a>(
    alloc: Global,
    found: &mut FirstWays<'a>,
    binding: &Binding<'a>,
    rule: Option<usize>,
) -> Result<(), Memory>
    ensures { OnOk result (found.new ≡ fold with_way found.old (ways_by (binding_of binding.now) rule)) }
{
    match rule {
        Some(rule) => push_each(
            alloc,
            found,
            binding,
            rule,
            grantees(alloc, binding)?.as_slice(),
        ),
        None => Ok(()),
    }
}
