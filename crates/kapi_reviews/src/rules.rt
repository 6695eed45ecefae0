//! Held rules as a review reports them.
ghost use Rattle.std.specs.Prelude.{◌≡◌, not, IfOk, OnOk};
ghost use Rattle.std.specs.List.{filter};
ghost use Rattle.serde_json.specs.View.{view, items_view, members_view};
ghost use Rattle.kapi_object.specs.Contents.{write_items};
ghost use Rattle.kapi_reviews.specs.Answers as written;

use kapi_model::PolicyRule;
use kapi_object::tree_form::{put_texts, write_items};
use kapi_text::{Memory, Text};
use serde_json::{Map, Value, put};
use std::alloc::Global;

fn is_url_rule(rule: &PolicyRule) -> bool
    ensures { result ≡ written.is_url_rule rule.now }
{
    !rule.non_resource_urls.as_slice().is_empty()
}

/// Puts a list of texts at a key, also if it is empty.
fn put_list(
    alloc: Global,
    members: &mut Map<String, Value>,
    key: &str,
    texts: &[Text],
) -> Result<(), Memory>
    ensures { OnOk result (members_view members.new.entries ≡ written.put_list key.now texts.now (members_view members.old.entries)) }
{
    let items = write_items(alloc, texts)?;
    put(members, alloc, key, Value::Array(items))
}

#[tactic(auto, unfolding(crate::specs::Answers::url_rule_tree))]
fn url_rule_tree(alloc: Global, rule: &PolicyRule) -> Result<Value, Memory>
    ensures { IfOk result (λ v. view v ≡ written.url_rule_tree rule.now) }
{
    let mut members = Map::new(alloc);
    let urls = rule.non_resource_urls.as_slice();
    put_list(alloc, &mut members, "nonResourceURLs", urls)?;
    put_list(alloc, &mut members, "verbs", rule.verbs.as_slice())?;
    Ok(Value::Object(members))
}

#[tactic(auto, unfolding(crate::specs::Answers::resource_rule_tree))]
fn resource_rule_tree(alloc: Global, rule: &PolicyRule) -> Result<Value, Memory>
    ensures { IfOk result (λ v. view v ≡ written.resource_rule_tree rule.now) }
{
    let mut members = Map::new(alloc);
    put_list(alloc, &mut members, "apiGroups", rule.api_groups.as_slice())?;
    let names = rule.resource_names.as_slice();
    put_texts(alloc, &mut members, "resourceNames", names)?;
    put_list(alloc, &mut members, "resources", rule.resources.as_slice())?;
    put_list(alloc, &mut members, "verbs", rule.verbs.as_slice())?;
    Ok(Value::Object(members))
}

/// The rules of URLs, in order.
fn url_rules(alloc: Global, rules: &[PolicyRule]) -> Result<Vec<Value>, Memory>
    ensures { IfOk result (λ v. items_view v.items ≡ write_items written.url_rule_tree (filter written.is_url_rule rules.now)) }
{
    let mut items = Vec::new(alloc);
    for rule in rules {
        if is_url_rule(rule) {
            items.push(url_rule_tree(alloc, rule)?)?;
        }
    }
    Ok(items)
}

/// The other rules, in order.
fn resource_rules(alloc: Global, rules: &[PolicyRule]) -> Result<Vec<Value>, Memory>
    ensures { IfOk result (λ v. items_view v.items
        ≡ write_items written.resource_rule_tree (filter (λ r. not (written.is_url_rule r)) rules.now)) }
{
    let mut items = Vec::new(alloc);
    for rule in rules {
        if !is_url_rule(rule) {
            items.push(resource_rule_tree(alloc, rule)?)?;
        }
    }
    Ok(items)
}

/// The rules of each sort as the `status` of a review.
#[tactic(auto, unfolding(crate::specs::Answers::rules_tree))]
pub fn rules_tree(alloc: Global, rules: &[PolicyRule]) -> Result<Value, Memory>
    ensures { IfOk result (λ v. view v ≡ written.rules_tree rules.now) }
{
    let mut members = Map::new(alloc);
    put(&mut members, alloc, "incomplete", Value::Bool(false))?;
    let urls = url_rules(alloc, rules)?;
    put(&mut members, alloc, "nonResourceRules", Value::Array(urls))?;
    let resources = resource_rules(alloc, rules)?;
    let resources = Value::Array(resources);
    put(&mut members, alloc, "resourceRules", resources)?;
    Ok(Value::Object(members))
}
