//! The rules that may stop atoms, by their entries.
ghost use Rattle.std.specs.Prelude.{◌≡◌, ◌==◌, ◌∷◌, [], ◌++◌, ◌&&◌, ◌||◌, ℕ, List, Bool, true, false, length, map, IfOk, OnOk};
ghost use Rattle.std.specs.List.{list_any};
ghost use Rattle.std.specs.Str.{bytes_eq};
ghost use Rattle.std.specs.Prelude.{MatchOption};
ghost use Rattle.kapi_rules.specs.Entries.{star};
ghost use Rattle.kapi_missing.specs.Private.Index.{IsCovered, IsIndex, IsListed, has_at, is_any_with, is_beginning};
ghost use Rattle.kapi_missing.specs.Private.Numbers.{has, has_number};
ghost use Rattle.kapi_missing.specs.Private.Stoppers.{Stopper, earlier_one, held_one, lists as lists_text, stoppers};

use crate::numbers::{Numbers, add};
use kapi_model::PolicyRule;
use kapi_rules::{is_listed, without_stars};
use kapi_text::{Memory, Text};
use std::alloc::Global;
use std::collections::BTreeMap;

/// The numbers of rules, by texts.
pub type Sets<'a> = BTreeMap<&'a [u8], Numbers>;

/// The rules that may stop atoms, held and wanted ones, by each entry of each list and by what held ones cover besides.
#[derive(Drop)]
pub struct Rules<'a> {
    pub verbs: Sets<'a>,
    pub groups: Sets<'a>,
    pub resources: Sets<'a>,
    pub names: Sets<'a>,
    pub urls: Sets<'a>,
    /// The rules that list no names.
    pub nameless: Numbers,
    /// Held ones that list `*`, or no names.
    pub any_verb: Numbers,
    pub any_group: Numbers,
    pub any_resource: Numbers,
    pub any_name: Numbers,
    /// Held ones by the text behind the slash of `*/SUBRESOURCE`.
    pub subresources: Sets<'a>,
    /// Held ones by the text before the stars at the end of a URL.
    pub beginnings: Sets<'a>,
    /// The lengths of these texts.
    pub lengths: Vec<usize>,
}

fn no_rules<'a>(alloc: Global) -> Rules<'a>
    ensures { IsIndex [] result }
{
    Rules {
        verbs: BTreeMap::new(alloc),
        groups: BTreeMap::new(alloc),
        resources: BTreeMap::new(alloc),
        names: BTreeMap::new(alloc),
        urls: BTreeMap::new(alloc),
        nameless: Numbers::Few(Vec::new(alloc)),
        any_verb: Numbers::Few(Vec::new(alloc)),
        any_group: Numbers::Few(Vec::new(alloc)),
        any_resource: Numbers::Few(Vec::new(alloc)),
        any_name: Numbers::Few(Vec::new(alloc)),
        subresources: BTreeMap::new(alloc),
        beginnings: BTreeMap::new(alloc),
        lengths: Vec::new(alloc),
    }
}

/// The number of a rule, and how many rules there are.
#[derive(Clone, Copy, Drop)]
pub struct Numbered {
    pub number: usize,
    pub all: usize,
}

// The numbers under the key, which stand there no more.
fn taken(alloc: Global, sets: &mut Sets<'_>, key: &[u8]) -> Numbers
    ensures those { (n : ℕ) → has result n ≡ has_at sets.old key.now n }
    ensures others { (text : List ℕ) (n : ℕ) → bytes_eq key.now text ≡ false → has_at sets.new text n ≡ has_at sets.old text n }
{
    match sets.remove(key) {
        Some(numbers) => numbers,
        None => Numbers::Few(Vec::new(alloc)),
    }
}

fn put<'a>(alloc: Global, sets: &mut Sets<'a>, key: &'a [u8], this: Numbered) -> Result<(), Memory>
    ensures { OnOk result ((text : List ℕ) (n : ℕ) → has_at sets.new text n ≡ (has_at sets.old text n || (bytes_eq key.now text && (this.number == n)))) }
{
    let mut numbers = taken(alloc, sets, key);
    add(alloc, &mut numbers, this.number, this.all)?;
    sets.insert(key, numbers)?;
    Ok(())
}

fn put_each<'a>(
    alloc: Global,
    sets: &mut Sets<'a>,
    entries: &'a [Text],
    this: Numbered,
) -> Result<(), Memory>
    ensures { OnOk result ((text : List ℕ) (n : ℕ) → has_at sets.new text n ≡ (has_at sets.old text n || (lists_text entries.now text && (this.number == n)))) }
{
    for entry in entries {
        put(alloc, sets, entry.as_str().as_bytes(), this)?;
    }
    Ok(())
}

fn add_if(alloc: Global, numbers: &mut Numbers, is_one: bool, this: Numbered) -> Result<(), Memory>
    ensures { OnOk result ((n : ℕ) → has numbers.new n ≡ (has numbers.old n || (is_one && (this.number == n)))) }
{
    if is_one {
        add(alloc, numbers, this.number, this.all)
    } else {
        Ok(())
    }
}

// The text behind `*/`.
fn subresource(entry: &[u8]) -> Option<&[u8]>
    ensures { MatchOption result ((text : List ℕ) → is_any_with text entry.now ≡ false) (λ behind. (text : List ℕ) → is_any_with text entry.now ≡ bytes_eq behind.now text) }
{
    match entry {
        [b'*', b'/', subresource @ ..] => Some(subresource),
        _ => None,
    }
}

fn put_subresource<'a>(
    alloc: Global,
    sets: &mut Sets<'a>,
    entry: &'a [u8],
    this: Numbered,
) -> Result<(), Memory>
    ensures { OnOk result ((text : List ℕ) (n : ℕ) → has_at sets.new text n ≡ (has_at sets.old text n || (is_any_with text entry.now && (this.number == n)))) }
{
    match subresource(entry) {
        Some(text) => put(alloc, sets, text, this),
        None => Ok(()),
    }
}

fn put_subresources<'a>(
    alloc: Global,
    sets: &mut Sets<'a>,
    entries: &'a [Text],
    this: Numbered,
) -> Result<(), Memory>
    ensures { OnOk result ((text : List ℕ) (n : ℕ) → has_at sets.new text n ≡ (has_at sets.old text n || (list_any (is_any_with text) entries.now && (this.number == n)))) }
{
    for entry in entries {
        put_subresource(alloc, sets, entry.as_str().as_bytes(), this)?;
    }
    Ok(())
}

// The text before the stars at the end, if there are some.
#[tactic(auto, unfolding(crate::specs::Private::Index::is_beginning))]
fn beginning(entry: &[u8]) -> Option<&[u8]>
    ensures { MatchOption result ((text : List ℕ) → is_beginning text entry.now ≡ false) (λ front. (text : List ℕ) → is_beginning text entry.now ≡ bytes_eq front.now text) }
{
    if entry.ends_with(b"*") {
        Some(without_stars(entry))
    } else {
        None
    }
}

fn put_beginning<'a>(
    alloc: Global,
    sets: &mut Sets<'a>,
    entry: &'a [u8],
    this: Numbered,
) -> Result<(), Memory>
    ensures { OnOk result ((text : List ℕ) (n : ℕ) → has_at sets.new text n ≡ (has_at sets.old text n || (is_beginning text entry.now && (this.number == n)))) }
{
    match beginning(entry) {
        Some(text) => put(alloc, sets, text, this),
        None => Ok(()),
    }
}

fn put_beginnings<'a>(
    alloc: Global,
    sets: &mut Sets<'a>,
    entries: &'a [Text],
    this: Numbered,
) -> Result<(), Memory>
    ensures { OnOk result ((text : List ℕ) (n : ℕ) → has_at sets.new text n ≡ (has_at sets.old text n || (list_any (is_beginning text) entries.now && (this.number == n)))) }
{
    for entry in entries {
        put_beginning(alloc, sets, entry.as_str().as_bytes(), this)?;
    }
    Ok(())
}

fn add_length(lengths: &mut Vec<usize>, length: usize) -> Result<(), Memory>
    ensures { OnOk result ((n : ℕ) → has_number lengths.new.items n ≡ (has_number lengths.old.items n || (length == n))) }
{
    if !lengths.iter().any(|known| *known == length) {
        lengths.push(length)?;
    }
    Ok(())
}

fn add_lengths(lengths: &mut Vec<usize>, entries: &[Text]) -> Result<(), Memory>
    ensures kept { OnOk result ((n : ℕ) → has_number lengths.old.items n ≡ true → has_number lengths.new.items n ≡ true) }
    ensures added { OnOk result ((text : List ℕ) → list_any (is_beginning text) entries.now ≡ true → has_number lengths.new.items (length text) ≡ true) }
{
    for entry in entries {
        if let Some(front) = beginning(entry.as_str().as_bytes()) {
            add_length(lengths, front.len())?;
        }
    }
    Ok(())
}

fn place_held<'a>(
    alloc: Global,
    rules: &mut Rules<'a>,
    rule: &'a PolicyRule,
    this: Numbered,
) -> Result<(), Memory>
    ensures covered { OnOk result ((all : List Stopper) → this.number ≡ length all → IsCovered all rules.old → IsCovered (all ++ held_one rule.now ∷ []) rules.new) }
    ensures listed { OnOk result ((all : List Stopper) → IsListed all rules.old → IsListed all rules.new) }
{
    add_if(
        alloc,
        &mut rules.any_verb,
        is_listed(rule.verbs.as_slice(), "*"),
        this,
    )?;
    add_if(
        alloc,
        &mut rules.any_group,
        is_listed(rule.api_groups.as_slice(), "*"),
        this,
    )?;
    add_if(
        alloc,
        &mut rules.any_resource,
        is_listed(rule.resources.as_slice(), "*"),
        this,
    )?;
    add_if(
        alloc,
        &mut rules.any_name,
        rule.resource_names.as_slice().is_empty(),
        this,
    )?;
    put_subresources(
        alloc,
        &mut rules.subresources,
        rule.resources.as_slice(),
        this,
    )?;
    put_beginnings(
        alloc,
        &mut rules.beginnings,
        rule.non_resource_urls.as_slice(),
        this,
    )?;
    add_lengths(&mut rules.lengths, rule.non_resource_urls.as_slice())
}

fn place<'a>(
    alloc: Global,
    rules: &mut Rules<'a>,
    rule: &'a PolicyRule,
    this: Numbered,
) -> Result<(), Memory>
    ensures listed { OnOk result ((all : List Stopper) (s : Stopper) → s.rule ≡ rule.now → this.number ≡ length all → IsListed all rules.old → IsListed (all ++ s ∷ []) rules.new) }
    ensures covered { OnOk result ((all : List Stopper) → IsCovered all rules.old → IsCovered all rules.new) }
{
    put_each(alloc, &mut rules.verbs, rule.verbs.as_slice(), this)?;
    put_each(alloc, &mut rules.groups, rule.api_groups.as_slice(), this)?;
    put_each(alloc, &mut rules.resources, rule.resources.as_slice(), this)?;
    put_each(
        alloc,
        &mut rules.names,
        rule.resource_names.as_slice(),
        this,
    )?;
    put_each(
        alloc,
        &mut rules.urls,
        rule.non_resource_urls.as_slice(),
        this,
    )?;
    add_if(
        alloc,
        &mut rules.nameless,
        rule.resource_names.as_slice().is_empty(),
        this,
    )
}

fn add_held<'a>(
    alloc: Global,
    rules: &mut Rules<'a>,
    rule: &'a PolicyRule,
    this: Numbered,
) -> Result<(), Memory>
    ensures { OnOk result ((all : List Stopper) → this.number ≡ length all → IsIndex all rules.old → IsIndex (all ++ held_one rule.now ∷ []) rules.new) }
{
    place(alloc, rules, rule, this)?;
    place_held(alloc, rules, rule, this)
}

fn add_wanted<'a>(
    alloc: Global,
    rules: &mut Rules<'a>,
    rule: &'a PolicyRule,
    this: Numbered,
) -> Result<(), Memory>
    ensures { OnOk result ((all : List Stopper) → this.number ≡ length all → IsIndex all rules.old → IsIndex (all ++ earlier_one rule.now ∷ []) rules.new) }
{
    place(alloc, rules, rule, this)
}

fn held_rules<'a>(alloc: Global, held: &'a [PolicyRule], all: usize) -> Result<Rules<'a>, Memory>
    ensures { IfOk result (λ r. IsIndex (map held_one held.now) r) }
{
    let mut rules = no_rules(alloc);
    for (number, rule) in held.iter().enumerate() {
        add_held(alloc, &mut rules, rule, Numbered { number, all })?;
    }
    Ok(rules)
}

/// The held rules, which have the first numbers, and the wanted ones.
pub fn rules_of<'a>(
    alloc: Global,
    held: &'a [PolicyRule],
    wanted: &'a [PolicyRule],
) -> Result<Rules<'a>, Memory>
    ensures { IfOk result (λ r. IsIndex (stoppers held.now wanted.now) r) }
{
    let all = held.len() + wanted.len();
    let mut rules = held_rules(alloc, held, all)?;
    for (position, rule) in wanted.iter().enumerate() {
        let number = held.len() + position;
        add_wanted(alloc, &mut rules, rule, Numbered { number, all })?;
    }
    Ok(rules)
}
