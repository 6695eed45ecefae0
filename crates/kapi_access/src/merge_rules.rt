//! Atoms put together to rules.
ghost use Rattle.std.specs.Prelude.{◌≡◌, ◌<◌, ◌&&◌, ◌++◌, ◌∷◌, [], Some, true, length, map, string_bytes, IfOk, OnOk};
ghost use Rattle.std.specs.BTreeMap.{get};
ghost use Rattle.std.specs.Cmp.Lexicographic.{slice_cmp};
ghost use Rattle.std.specs.List.{list_any};
ghost use Rattle.std.specs.Ordering.{nat_cmp};
ghost use Rattle.kapi_rules.specs.Atoms.{atom_allows, only_names, rule_of as rule_of_atom};
ghost use Rattle.kapi_rules.specs.Rules.{allows as rule_allows};
ghost use Rattle.kapi_rules.specs.declared.point.Point.{Point};
ghost use Rattle.kapi_access.specs.Private.Places as at;
ghost use Rattle.kapi_access.specs.Together as put;

use kapi_model::PolicyRule;
use kapi_rules::{Atom, Names, ResourceAtom, UrlAtom};
use kapi_text::{Memory, Sequence, Text, TryCopy};
use std::alloc::Global;

/// The lists of a rule by which two are put together, all others being equal.
#[derive(Clone, Copy)]
pub enum RuleList {
    Names,
    Verbs,
    Resources,
    Groups,
    Urls,
}

use std::collections::BTreeMap;
use std::mem::replace;

// ---- rules that are alike

fn same_texts(a: &Sequence<Text>, b: &Sequence<Text>) -> bool
    ensures { result ≡ put.same_texts a.now b.now }
{
    a.as_slice() == b.as_slice()
}

fn lists_names(rule: &PolicyRule) -> bool
    ensures { result ≡ put.lists_names rule.now }
{
    !rule.resource_names.as_slice().is_empty()
}

fn same_names_and_urls(a: &PolicyRule, b: &PolicyRule) -> bool
    ensures { result ≡ (put.same_texts a.now.resource_names b.now.resource_names && put.same_texts a.now.non_resource_urls b.now.non_resource_urls) }
{
    same_texts(&a.resource_names, &b.resource_names)
        && same_texts(&a.non_resource_urls, &b.non_resource_urls)
}

/// Whether the rules have all lists but one in common.
fn are_alike(part: RuleList, a: &PolicyRule, b: &PolicyRule) -> bool
    ensures { result ≡ put.are_alike part a.now b.now }
{
    match part {
        RuleList::Names => {
            same_texts(&a.verbs, &b.verbs)
                && (same_texts(&a.api_groups, &b.api_groups)
                    && (same_texts(&a.resources, &b.resources)
                        && (same_texts(&a.non_resource_urls, &b.non_resource_urls)
                            && (lists_names(a) && lists_names(b)))))
        }
        RuleList::Verbs => {
            same_texts(&a.api_groups, &b.api_groups)
                && (same_texts(&a.resources, &b.resources) && same_names_and_urls(a, b))
        }
        RuleList::Resources => {
            same_texts(&a.verbs, &b.verbs)
                && (same_texts(&a.api_groups, &b.api_groups) && same_names_and_urls(a, b))
        }
        RuleList::Groups => {
            same_texts(&a.verbs, &b.verbs)
                && (same_texts(&a.resources, &b.resources) && same_names_and_urls(a, b))
        }
        RuleList::Urls => {
            same_texts(&a.verbs, &b.verbs)
                && (same_texts(&a.api_groups, &b.api_groups)
                    && (same_texts(&a.resources, &b.resources)
                        && same_texts(&a.resource_names, &b.resource_names)))
        }
    }
}

// ---- keys

fn push_list(key: &mut String, texts: &Sequence<Text>) -> Result<(), Memory>
    ensures { OnOk result (string_bytes key.new ≡ string_bytes key.old ++ at.list_key texts.now) }
{
    for text in texts.as_slice() {
        key.push_str(text.as_str())?;
        key.push_str("\n")?;
    }
    key.push_str("\n")
}

fn key_of_lists(
    alloc: Global,
    first: &Sequence<Text>,
    second: &Sequence<Text>,
    third: &Sequence<Text>,
    fourth: &Sequence<Text>,
) -> Result<Text, Memory>
    ensures { IfOk result (λ k. k ≡ at.key_of_lists first.now second.now third.now fourth.now) }
{
    let mut key = String::new(alloc);
    push_list(&mut key, first)?;
    push_list(&mut key, second)?;
    push_list(&mut key, third)?;
    push_list(&mut key, fourth)?;
    Ok(Text::new(key))
}

/// A text that rules which are alike have in common: all lists but the one that is joined.
fn key_of(alloc: Global, part: RuleList, rule: &PolicyRule) -> Result<Text, Memory>
    ensures { IfOk result (λ k. k ≡ at.key_of part rule.now) }
{
    let PolicyRule {
        verbs,
        api_groups,
        resources,
        resource_names,
        non_resource_urls,
    } = rule;
    match part {
        RuleList::Names => key_of_lists(alloc, verbs, api_groups, resources, non_resource_urls),
        RuleList::Verbs => key_of_lists(
            alloc,
            api_groups,
            resources,
            resource_names,
            non_resource_urls,
        ),
        RuleList::Resources => {
            key_of_lists(alloc, verbs, api_groups, resource_names, non_resource_urls)
        }
        RuleList::Groups => key_of_lists(
            alloc,
            verbs,
            resources,
            resource_names,
            non_resource_urls,
        ),
        RuleList::Urls => key_of_lists(alloc, verbs, api_groups, resources, resource_names),
    }
}

fn can_be_joined(part: RuleList, rule: &PolicyRule) -> bool
    ensures { result ≡ at.can_be_joined part rule.now }
{
    match part {
        RuleList::Names => lists_names(rule),
        RuleList::Verbs => true,
        RuleList::Resources => true,
        RuleList::Groups => true,
        RuleList::Urls => true,
    }
}

// ---- joining

fn append(alloc: Global, texts: &mut Sequence<Text>, more: Sequence<Text>) -> Result<(), Memory>
    ensures { OnOk result (texts.new ≡ texts.old ++ more) }
{
    let mut all = replace(texts, Sequence::new(Vec::new(alloc))).into_vec();
    all.append(&mut more.into_vec())?;
    *texts = Sequence::new(all);
    Ok(())
}

/// Adds to the rule what the other lists besides.
fn join(
    alloc: Global,
    part: RuleList,
    rule: &mut PolicyRule,
    other: PolicyRule,
) -> Result<(), Memory>
    ensures { OnOk result (rule.new ≡ put.joined part rule.old other) }
{
    match part {
        RuleList::Names => append(alloc, &mut rule.resource_names, other.resource_names),
        RuleList::Verbs => append(alloc, &mut rule.verbs, other.verbs),
        RuleList::Resources => append(alloc, &mut rule.resources, other.resources),
        RuleList::Groups => append(alloc, &mut rule.api_groups, other.api_groups),
        RuleList::Urls => append(alloc, &mut rule.non_resource_urls, other.non_resource_urls),
    }
}

fn join_at(
    alloc: Global,
    part: RuleList,
    rules: &mut Vec<PolicyRule>,
    place: usize,
    rule: PolicyRule,
) -> Result<(), Memory>
    requires place { place ≡ put.place_of part rules.old.items rule }
    requires inside { place < length rules.old.items }
    ensures { OnOk result (rules.new.items ≡ put.with_rule part rules.old.items rule) }
{
    join(alloc, part, &mut rules[place], rule)
}

// ---- places

/// The index of the first rule that is like the other, or of all of them.
fn place_of(part: RuleList, rules: &[PolicyRule], rule: &PolicyRule) -> usize
    ensures { result ≡ put.place_of part rules.now rule.now }
{
    let mut place = 0;
    for first in rules {
        if are_alike(part, first, rule) {
            return place;
        }
        place += 1;
    }
    place
}

#[tactic(auto, using(crate::proofs::Joined::added_last))]
fn add_by_search(
    alloc: Global,
    part: RuleList,
    rules: &mut Vec<PolicyRule>,
    rule: PolicyRule,
) -> Result<(), Memory>
    ensures { OnOk result (rules.new.items ≡ put.with_rule part rules.old.items rule) }
{
    let place = place_of(part, rules.as_slice(), &rule);
    if place < rules.len() {
        return join_at(alloc, part, rules, place, rule);
    }
    rules.push(rule)?;
    Ok(())
}

/// Adds a rule, with the place of the first that has its key: if they are not alike (an entry has a line feed, say), the rules are
/// searched.
fn add_at(
    alloc: Global,
    part: RuleList,
    rules: &mut Vec<PolicyRule>,
    place: usize,
    rule: PolicyRule,
) -> Result<(), Memory>
    requires { at.first_with part (at.key_of part rule) rules.old.items ≡ Some place }
    ensures { OnOk result (rules.new.items ≡ put.with_rule part rules.old.items rule) }
{
    if are_alike(part, &rules[place], &rule) {
        join_at(alloc, part, rules, place, rule)
    } else {
        add_by_search(alloc, part, rules, rule)
    }
}

fn noted(places: &BTreeMap<Text, usize>, key: &Text) -> Option<usize>
    ensures { result ≡ get (slice_cmp nat_cmp) places.now key.now }
{
    places.get(key).copied()
}

fn add_with_key(
    alloc: Global,
    part: RuleList,
    rules: &mut Vec<PolicyRule>,
    places: &mut BTreeMap<Text, usize>,
    key: Text,
    rule: PolicyRule,
) -> Result<(), Memory>
    requires places { at.ArePlaces part rules.old.items places.old }
    requires key { key ≡ at.key_of part rule }
    requires can { at.can_be_joined part rule ≡ true }
    ensures rules { OnOk result (rules.new.items ≡ put.with_rule part rules.old.items rule) }
    ensures places { OnOk result (at.ArePlaces part rules.new.items places.new) }
{
    match noted(places, &key) {
        Some(place) => add_at(alloc, part, rules, place, rule),
        None => {
            drop(places.insert(key, rules.len())?);
            rules.push(rule)?;
            Ok(())
        }
    }
}

fn add(
    alloc: Global,
    part: RuleList,
    rules: &mut Vec<PolicyRule>,
    places: &mut BTreeMap<Text, usize>,
    rule: PolicyRule,
) -> Result<(), Memory>
    requires { at.ArePlaces part rules.old.items places.old }
    ensures rules { OnOk result (rules.new.items ≡ put.with_rule part rules.old.items rule) }
    ensures places { OnOk result (at.ArePlaces part rules.new.items places.new) }
{
    if can_be_joined(part, &rule) {
        let key = key_of(alloc, part, &rule)?;
        return add_with_key(alloc, part, rules, places, key, rule);
    }
    rules.push(rule)?;
    Ok(())
}

#[tactic(auto, using(crate::proofs::Lists::fold_last))]
fn put_together(
    alloc: Global,
    part: RuleList,
    rules: Vec<PolicyRule>,
) -> Result<Vec<PolicyRule>, Memory>
    ensures { IfOk result (λ v. v.items ≡ put.put_together part rules.items) }
{
    let mut list = Vec::new(alloc);
    let mut places = BTreeMap::new(alloc);
    for rule in rules {
        add(alloc, part, &mut list, &mut places, rule)?;
    }
    Ok(list)
}

// ---- atoms

fn one(alloc: Global, text: &Text) -> Result<Sequence<Text>, Memory>
    ensures { IfOk result (λ s. s ≡ text.now ∷ []) }
{
    let mut texts = Vec::new(alloc);
    texts.push(text.copy(alloc)?)?;
    Ok(Sequence::new(texts))
}

fn no_texts(alloc: Global) -> Sequence<Text>
    ensures { result ≡ [] }
{
    Sequence::new(Vec::new(alloc))
}

fn names_of(alloc: Global, names: &Names) -> Result<Sequence<Text>, Memory>
    ensures { IfOk result (λ s. s ≡ only_names names.now) }
{
    match names {
        Names::All => Ok(no_texts(alloc)),
        Names::One(name) => one(alloc, name),
    }
}

fn rule_of_resource(alloc: Global, atom: &ResourceAtom) -> Result<PolicyRule, Memory>
    ensures { IfOk result (λ r. r ≡ rule_of_atom (Atom.Resource atom.now)) }
{
    Ok(PolicyRule {
        verbs: one(alloc, &atom.verb)?,
        api_groups: one(alloc, &atom.group)?,
        resources: one(alloc, &atom.resource)?,
        resource_names: names_of(alloc, &atom.names)?,
        non_resource_urls: no_texts(alloc),
    })
}

fn rule_of_url(alloc: Global, atom: &UrlAtom) -> Result<PolicyRule, Memory>
    ensures { IfOk result (λ r. r ≡ rule_of_atom (Atom.Url atom.now)) }
{
    Ok(PolicyRule {
        verbs: one(alloc, &atom.verb)?,
        api_groups: no_texts(alloc),
        resources: no_texts(alloc),
        resource_names: no_texts(alloc),
        non_resource_urls: one(alloc, &atom.url)?,
    })
}

/// The rule that has the atom alone.
fn rule_of(alloc: Global, atom: &Atom) -> Result<PolicyRule, Memory>
    ensures { IfOk result (λ r. r ≡ rule_of_atom atom.now) }
{
    match atom {
        Atom::Resource(atom) => rule_of_resource(alloc, atom),
        Atom::Url(atom) => rule_of_url(alloc, atom),
    }
}

fn rules_of(alloc: Global, atoms: &[Atom]) -> Result<Vec<PolicyRule>, Memory>
    ensures { IfOk result (λ v. v.items ≡ map rule_of_atom atoms.now) }
{
    let mut rules = Vec::with_capacity(alloc, atoms.len())?;
    for atom in atoms {
        rules.push(rule_of(alloc, atom)?)?;
    }
    Ok(rules)
}

/// The atoms as rules, those put together that differ in one list alone: a point is allowed by some rule exactly if some atom
/// allows it.
#[tactic(auto, unfolding(crate::specs::Together::together), using(crate::proofs::Joined::together_allows))]
pub fn together(alloc: Global, atoms: &[Atom]) -> Result<Vec<PolicyRule>, Memory>
    ensures rules { IfOk result (λ v. v.items ≡ put.together atoms.now) }
    ensures law { IfOk result (λ v. (p : Point) → list_any (λ rule. rule_allows rule p) v.items ≡ list_any (λ a. atom_allows a p) atoms.now) }
{
    let rules = rules_of(alloc, atoms)?;
    let rules = put_together(alloc, RuleList::Names, rules)?;
    let rules = put_together(alloc, RuleList::Verbs, rules)?;
    let rules = put_together(alloc, RuleList::Resources, rules)?;
    let rules = put_together(alloc, RuleList::Groups, rules)?;
    put_together(alloc, RuleList::Urls, rules)
}
