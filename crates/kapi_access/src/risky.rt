//! Who may gain more than a policy gives.
ghost use Rattle.std.specs.Prelude.{◌≡◌, ◌||◌, codes, map, IfOk, OnOk};
ghost use Rattle.std.specs.List.{flat_map, fold, list_any, position};
ghost use Rattle.kapi_rules.specs.Entries.{word_matches};
ghost use Rattle.kapi_policy.specs.All.{all_bindings};
ghost use Rattle.kapi_policy.specs.Views.{binding_of};
ghost use Rattle.kapi_access.specs.Risks.{goes_on_after as goes_on, has_one_of as has_some_of, has_word as has_word_of, is_about_details as details_in_rule, is_about_users as users_in_rule, is_grave as is_grave_rule, is_risky as is_risky_rule, lets_impersonate as lets_act, lets_on_roles as lets_role, matches_extra as matches_field, risks as risks_of};
ghost use Rattle.kapi_access.specs.Views.{way_of};
ghost use Rattle.kapi_access.specs.Who.{first_ways, ways_of, with_way};

use crate::first_ways::{FirstWays, Listed};
use crate::way::{Way, push_ways, rules_by};
use kapi_model::PolicyRule;
use kapi_policy::{Binding, Policy};
use kapi_text::{Memory, Text};
use std::alloc::Global;

fn is_word(entry: &str, word: &str) -> bool
    ensures { result ≡ word_matches entry.now word.now }
{
    entry == "*" || entry == word
}

fn has_word(entries: &[Text], word: &str) -> bool
    ensures { result ≡ has_word_of entries.now word.now }
{
    entries.iter().any(|entry| is_word(entry.as_str(), word))
}

fn goes_on_after(start: &[u8], text: &[u8]) -> bool
    ensures { result ≡ goes_on start.now text.now }
{
    let mut left = start;
    let mut rest = text;
    while let [first, more @ ..] = left {
        let [byte, after @ ..] = rest else {
            return false;
        };
        if first != byte {
            return false;
        }
        left = more;
        rest = after;
    }
    !rest.is_empty()
}

/// Whether the resource entry matches some extra field.
fn matches_extra(entry: &str) -> bool
    ensures { result ≡ matches_field entry.now }
{
    is_word(entry, "userextras")
        || (goes_on_after(b"userextras/", entry.as_bytes())
            || goes_on_after(b"*/", entry.as_bytes()))
}

fn has_extra(entries: &[Text]) -> bool
    ensures { result ≡ list_any matches_field entries.now }
{
    entries.iter().any(|entry| matches_extra(entry.as_str()))
}

fn is_about_users(rule: &PolicyRule) -> bool
    ensures { result ≡ users_in_rule rule.now }
{
    let resources = rule.resources.as_slice();
    has_word(rule.api_groups.as_slice(), "")
        && (has_word(resources, "users")
            || (has_word(resources, "groups") || has_word(resources, "serviceaccounts")))
}

fn is_about_details(rule: &PolicyRule) -> bool
    ensures { result ≡ details_in_rule rule.now }
{
    let resources = rule.resources.as_slice();
    has_word(rule.api_groups.as_slice(), "authentication.k8s.io")
        && (has_word(resources, "uids") || has_extra(resources))
}

fn lets_impersonate(rule: &PolicyRule) -> bool
    ensures { result ≡ lets_act rule.now }
{
    has_word(rule.verbs.as_slice(), "impersonate")
        && (is_about_users(rule) || is_about_details(rule))
}

fn has_roles(resources: &[Text]) -> bool
    ensures { result ≡ (has_word_of resources.now (codes "roles") || has_word_of resources.now (codes "clusterroles")) }
{
    has_word(resources, "roles") || has_word(resources, "clusterroles")
}

fn lets_on_roles(verb: &str, rule: &PolicyRule) -> bool
    ensures { result ≡ lets_role verb.now rule.now }
{
    has_word(rule.verbs.as_slice(), verb)
        && has_word(rule.api_groups.as_slice(), "rbac.authorization.k8s.io")
        && has_roles(rule.resources.as_slice())
}

/// Whether the rule lets one act as somebody else, or write or bind roles whose rules one does not hold.
#[tactic(auto, unfolding(crate::specs::Risks::is_risky))]
fn is_risky(rule: &PolicyRule) -> bool
    ensures { result ≡ is_risky_rule rule.now }
{
    lets_impersonate(rule) || lets_on_roles("escalate", rule) || lets_on_roles("bind", rule)
}

fn has_one_of(entries: &[Text], first: &str, second: &str, third: &str) -> bool
    ensures { result ≡ has_some_of entries.now first.now second.now third.now }
{
    has_word(entries, first) || has_word(entries, second) || has_word(entries, third)
}

/// Whether the rule has a verb that escalates on anything, or reads Secrets.
pub fn is_grave(rule: &PolicyRule) -> bool
    ensures { result ≡ is_grave_rule rule.now }
{
    let verbs = rule.verbs.as_slice();
    has_one_of(verbs, "escalate", "bind", "impersonate")
        || has_word(rule.api_groups.as_slice(), "")
            && has_word(rule.resources.as_slice(), "secrets")
            && has_one_of(verbs, "get", "list", "watch")
}

// The index of the first rule that is risky.
fn first_risky(rules: &[PolicyRule]) -> Option<usize>
    ensures { result ≡ position is_risky_rule rules.now }
{
    rules.iter().position(|rule| is_risky(rule))
}

fn push_risks<'a, P: Policy>(
    alloc: Global,
    found: &mut FirstWays<'a>,
    policy: &P,
    binding: &Binding<'a>,
) -> Result<(), Memory>
    ensures { OnOk result (found.new ≡ fold with_way found.old (ways_of (P.content policy.now) is_risky_rule (binding_of binding.now))) }
{
    push_ways(
        alloc,
        found,
        binding,
        first_risky(rules_by(policy, binding)),
    )
}

fn ways<'a, P: Policy>(
    alloc: Global,
    policy: &P,
    bindings: &[Binding<'a>],
) -> Result<Vec<Way<'a>>, Memory>
    ensures { IfOk result (λ v. map way_of v.items ≡ first_ways Listed.InEachScope (flat_map (λ b. ways_of (P.content policy.now) is_risky_rule (binding_of b)) bindings.now)) }
{
    let mut found = FirstWays::new(alloc, Listed::InEachScope);
    for binding in bindings {
        push_risks(alloc, &mut found, policy, binding)?;
    }
    Ok(found.into_vec())
}

/// Who may write or bind roles whose rules one does not hold, or act as somebody else, anywhere, given all bindings of the policy:
/// each user and group once in each scope, with the first binding there by which it may, and the first such rule of its role.
pub fn risks<'a, P: Policy>(
    alloc: Global,
    policy: &P,
    bindings: &[Binding<'a>],
) -> Result<Vec<Way<'a>>, Memory>
    requires { map binding_of bindings.now ≡ all_bindings (P.content policy.now) }
    ensures { IfOk result (λ v. map way_of v.items ≡ risks_of (P.content policy.now)) }
{
    let list = ways(alloc, policy, bindings)?;
    Ok(list)
}
