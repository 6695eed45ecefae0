//! A rule with its entries prepared.
ghost use Rattle.std.specs.Prelude.{◌≡◌, IfOk};
ghost use Rattle.kapi_index.specs.Compiled.{compiled, compiled_allows, resources_match};
ghost use Rattle.kapi_index.specs.Points.{point_of};
ghost use Rattle.kapi_rules.specs.declared.point.Point.{Point as AnyPoint};

use crate::prepared_point::{PreparedPoint, PreparedResource, PreparedUrl};
use crate::urls::{Url, compile_urls, some_admits};
use crate::words::{Words, compile_names, compile_words};
use kapi_model::PolicyRule;
use kapi_text::{Memory, Sequence};
use std::alloc::Global;

/// A rule with its entries prepared.
#[derive(Drop)]
pub struct CompiledRule {
    verbs: Words,
    groups: Words,
    resources: Words,
    names: Words,
    urls: Sequence<Url>,
}

/// Prepares the entries of a rule.
#[tactic(auto, unfolding(crate::specs::Compiled::compiled))]
pub fn compile(alloc: Global, rule: &PolicyRule) -> Result<CompiledRule, Memory>
    ensures { IfOk result (λ c. c ≡ compiled rule.now) }
{
    Ok(CompiledRule {
        verbs: compile_words(alloc, &rule.verbs)?,
        groups: compile_words(alloc, &rule.api_groups)?,
        resources: compile_words(alloc, &rule.resources)?,
        names: compile_names(alloc, &rule.resource_names)?,
        urls: compile_urls(alloc, rule.non_resource_urls.as_slice())?,
    })
}

fn some_resource_matches(resources: &Words, asked: &PreparedResource<'_>) -> bool
    ensures { result ≡ resources_match resources.now asked.now.resource asked.now.subresource }
{
    if asked.has_subresource() {
        resources.has_joined(&asked.own) || resources.has_joined(&asked.any)
    } else {
        resources.has(&asked.resource)
    }
}

// The resource is asked first, since rules differ most in it.
#[tactic(auto, unfolding(crate::specs::Compiled::compiled_allows))]
fn allows_on_resource(rule: &CompiledRule, asked: &PreparedResource<'_>) -> bool
    ensures { result ≡ compiled_allows rule.now (AnyPoint.Resource asked.now) }
{
    some_resource_matches(&rule.resources, asked)
        && (rule.verbs.has(&asked.verb)
            && (rule.groups.has(&asked.group) && rule.names.has(&asked.name)))
}

#[tactic(auto, unfolding(crate::specs::Compiled::compiled_allows))]
fn allows_on_url(rule: &CompiledRule, asked: &PreparedUrl<'_>) -> bool
    ensures { result ≡ compiled_allows rule.now (AnyPoint.Url asked.now) }
{
    rule.verbs.has(&asked.verb) && some_admits(rule.urls.as_slice(), asked.point.path.as_str())
}

/// Whether the rule allows what is asked.
pub fn compiled_rule_allows(rule: &CompiledRule, asked: &PreparedPoint<'_>) -> bool
    ensures { result ≡ compiled_allows rule.now (point_of asked.now) }
{
    match asked {
        PreparedPoint::Resource(asked) => allows_on_resource(rule, asked),
        PreparedPoint::Url(asked) => allows_on_url(rule, asked),
    }
}
