//! Who may do something.
ghost use Rattle.std.specs.Prelude.{◌≡◌, map, IfOk, OnOk};
ghost use Rattle.std.specs.List.{flat_map, fold, position};
ghost use Rattle.kapi_rules.specs.Rules.{allows as rule_allows};
ghost use Rattle.kapi_policy.specs.All.{all_bindings};
ghost use Rattle.kapi_policy.specs.Views.{binding_of};
ghost use Rattle.kapi_access.specs.Views.{way_of, ways_there};
ghost use Rattle.kapi_access.specs.Who.{counts_in as counts_there, first_ways, listed_in as how_listed, who_in, with_way};

use crate::first_ways::{FirstWays, Listed};
use crate::question::Scope;
use crate::way::{Way, counts, push_ways, rules_by};
use kapi_model::PolicyRule;
use kapi_policy::{Binding, Policy};
use kapi_rules::{Point, allows};
use kapi_text::Memory;
use std::alloc::Global;

// The index of the first rule that allows the point.
fn first_allowing(rules: &[PolicyRule], point: &Point) -> Option<usize>
    ensures { result ≡ position (λ rule. rule_allows rule point.now) rules.now }
{
    rules.iter().position(|rule| allows(rule, point))
}

fn counts_in(binding: &Binding<'_>, scope: &Scope) -> bool
    ensures { result ≡ counts_there scope.now (binding_of binding.now) }
{
    match scope {
        Scope::Namespace(namespace) => counts(binding, namespace.as_str()),
        Scope::Cluster => counts(binding, ""),
        Scope::Everywhere => true,
    }
}

#[tactic(auto, unfolding(crate::specs::Views::ways_there))]
fn push_who<'a, P: Policy>(
    alloc: Global,
    found: &mut FirstWays<'a>,
    policy: &P,
    binding: &Binding<'a>,
    scope: &Scope,
    point: &Point,
) -> Result<(), Memory>
    ensures { OnOk result (found.new ≡ fold with_way found.old (ways_there (P.content policy.now) (λ rule. rule_allows rule point.now) scope.now (binding_of binding.now))) }
{
    if !counts_in(binding, scope) {
        return Ok(());
    }
    let rule = first_allowing(rules_by(policy, binding), point);
    push_ways(alloc, found, binding, rule)
}

fn ways<'a, P: Policy>(
    alloc: Global,
    policy: &P,
    bindings: &[Binding<'a>],
    scope: &Scope,
    point: &Point,
    listed: Listed,
) -> Result<Vec<Way<'a>>, Memory>
    ensures { IfOk result (λ v. map way_of v.items ≡ first_ways listed (flat_map (λ b. ways_there (P.content policy.now) (λ rule. rule_allows rule point.now) scope.now (binding_of b)) bindings.now)) }
{
    let mut found = FirstWays::new(alloc, listed);
    for binding in bindings {
        push_who(alloc, &mut found, policy, binding, scope, point)?;
    }
    Ok(found.into_vec())
}

fn listed_in(scope: &Scope) -> Listed
    ensures { result ≡ how_listed scope.now }
{
    match scope {
        Scope::Namespace(_) => Listed::Once,
        Scope::Cluster => Listed::Once,
        Scope::Everywhere => Listed::InEachScope,
    }
}

/// Who may make the request in the scope, given all bindings of the policy: each user and group once, or everywhere once in each
/// scope, with the first binding by which it may, and the first rule of its role that allows it. Members of `system:masters`, who
/// may do everything, are listed only if they are bound.
pub fn who<'a, P: Policy>(
    alloc: Global,
    policy: &P,
    bindings: &[Binding<'a>],
    scope: &Scope,
    point: &Point,
) -> Result<Vec<Way<'a>>, Memory>
    requires { map binding_of bindings.now ≡ all_bindings (P.content policy.now) }
    ensures { IfOk result (λ v. map way_of v.items ≡ who_in (P.content policy.now) scope.now point.now) }
{
    let listed = listed_in(scope);
    let list = ways(alloc, policy, bindings, scope, point, listed)?;
    Ok(list)
}
