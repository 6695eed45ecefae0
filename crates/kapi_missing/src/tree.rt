//! What is left of a wanted rule, entry by entry.
ghost use Rattle.std.specs.Prelude.{◌≡◌, ◌&&◌, ◌∷◌, ◌++◌, [], ℕ, Bool, List as ListValue, true, map, IfOk, IfSome, OnOk};
ghost use Rattle.std.specs.List.{flat_map, list_all, list_any};
ghost use Rattle.kapi_rules.specs.Atoms.{resource_atom as resource_atom_of};
ghost use Rattle.kapi_missing.specs.Private.Index.{IsIndex};
ghost use Rattle.kapi_missing.specs.Private.Left.{AreClasses, AreLevels, AreRows, IsCounted, IsRow, Sees, atoms_behind, atoms_of, entries_in, item, items_in, left, lists_in, names_in, on_resource, on_url, resource_lists, text_in, url_lists};
ghost use Rattle.kapi_missing.specs.Private.Numbers.{has_bit, some_has};
ghost use Rattle.kapi_missing.specs.Private.Once.{once};
ghost use Rattle.kapi_missing.specs.Private.Stoppers.{Item, Stopper, meets};

use crate::index::Rules;
use crate::numbers::{Numbers, common, is_any_common, shares};
use crate::rows::{List, ListEntry, names, parts, row};
use kapi_model::PolicyRule;
use kapi_rules::{Atom, Names, UrlAtom, resource_atom};
use kapi_text::{Memory, Text, TryCopy};
use std::alloc::Global;

/// Of so many classes of entries each list remembers what is left.
const CLASSES: usize = 64;

/// An entry, and the rules that meet it.
#[derive(Drop)]
pub struct Entry<'a, 'i> {
    pub part: ListEntry<'a>,
    pub row: Vec<&'i Numbers>,
}

/// A list of a wanted rule, and the rules that meet every entry of it and of the lists behind.
#[derive(Drop)]
pub struct Level<'a, 'i> {
    pub entries: Vec<Entry<'a, 'i>>,
    pub full: Vec<u64>,
}

/// The lists of a rule's atoms: the first one, and those behind.
#[derive(Drop)]
pub struct Levels<'a, 'i> {
    pub first: Level<'a, 'i>,
    pub behind: Vec<Level<'a, 'i>>,
}

/// The rules that meet some entries, and how many atoms are left below each of these.
#[derive(Drop)]
pub struct Class {
    pub rules: Vec<u64>,
    pub left: usize,
}

// The rules that meet all the entries.
fn meeting_all(alloc: Global, rules: &[u64], entries: &[Entry<'_, '_>]) -> Result<Vec<u64>, Memory>
    ensures { IfOk result (λ v. (all others : ListValue Stopper) (test : Stopper → Bool) → Sees all test rules.now → AreRows (all ++ others) entries.now
        → Sees all (λ s. test s && list_all (λ i. meets i s) (entries_in entries.now)) v.items) }
{
    let mut full = Vec::new(alloc);
    full.extend_from_slice(rules)?;
    for entry in entries {
        full = common(alloc, full.as_slice(), entry.row.as_slice())?;
    }
    Ok(full)
}

fn entries_of<'a, 'i>(
    alloc: Global,
    rules: &'i Rules<'_>,
    parts: Vec<ListEntry<'a>>,
) -> Result<Vec<Entry<'a, 'i>>, Memory>
    ensures items { IfOk result (λ v. entries_in v.items ≡ items_in parts.entry.items) }
    ensures rows { IfOk result (λ v. (all : ListValue Stopper) → IsIndex all rules.now → AreRows all v.items) }
{
    let mut entries = Vec::new(alloc);
    for part in parts {
        let row = row(alloc, rules, part)?;
        entries.push(Entry { part, row })?;
    }
    Ok(entries)
}

// The list of those entries, before lists that the rules behind meet in full.
fn level_of<'a, 'i>(
    alloc: Global,
    rules: &'i Rules<'_>,
    parts: Vec<ListEntry<'a>>,
    behind: &[u64],
) -> Result<Level<'a, 'i>, Memory>
    ensures items { IfOk result (λ l. entries_in l.entries.items ≡ items_in parts.entry.items) }
    ensures rows { IfOk result (λ l. (all others : ListValue Stopper) → IsIndex (all ++ others) rules.now → AreRows (all ++ others) l.entries.items) }
    ensures full { IfOk result (λ l. (all others : ListValue Stopper) (test : Stopper → Bool) → IsIndex (all ++ others) rules.now → Sees all test behind.now
        → Sees all (λ s. test s && list_all (λ i. meets i s) (entries_in l.entries.items)) l.full.items) }
{
    let entries = entries_of(alloc, rules, parts)?;
    let full = meeting_all(alloc, behind, entries.as_slice())?;
    Ok(Level { entries, full })
}

/// The lists of the rule's atoms on resources.
pub fn resource_levels<'a, 'i>(
    alloc: Global,
    rules: &'i Rules<'_>,
    before: &[u64],
    rule: &'a PolicyRule,
) -> Result<Levels<'a, 'i>, Memory>
    ensures lists { IfOk result (λ l. lists_in (l.first ∷ l.behind.items) ≡ resource_lists (once rule.now)) }
    ensures levels { IfOk result (λ l. (all others : ListValue Stopper) → IsIndex (all ++ others) rules.now → Sees all (λ s. true) before.now → AreLevels all others (l.first ∷ l.behind.items)) }
{
    let names = level_of(
        alloc,
        rules,
        names(alloc, rule.resource_names.as_slice())?,
        before,
    )?;
    let verbs = level_of(
        alloc,
        rules,
        parts(alloc, List::Verbs, rule.verbs.as_slice())?,
        names.full.as_slice(),
    )?;
    let resources = level_of(
        alloc,
        rules,
        parts(alloc, List::Resources, rule.resources.as_slice())?,
        verbs.full.as_slice(),
    )?;
    let first = level_of(
        alloc,
        rules,
        parts(alloc, List::Groups, rule.api_groups.as_slice())?,
        resources.full.as_slice(),
    )?;
    let mut behind = Vec::new(alloc);
    behind.push(resources)?;
    behind.push(verbs)?;
    behind.push(names)?;
    Ok(Levels { first, behind })
}

/// The lists of the rule's atoms on URLs.
pub fn url_levels<'a, 'i>(
    alloc: Global,
    rules: &'i Rules<'_>,
    before: &[u64],
    rule: &'a PolicyRule,
) -> Result<Levels<'a, 'i>, Memory>
    ensures lists { IfOk result (λ l. lists_in (l.first ∷ l.behind.items) ≡ url_lists (once rule.now)) }
    ensures levels { IfOk result (λ l. (all others : ListValue Stopper) → IsIndex (all ++ others) rules.now → Sees all (λ s. true) before.now → AreLevels all others (l.first ∷ l.behind.items)) }
{
    let verbs = level_of(
        alloc,
        rules,
        parts(alloc, List::Verbs, rule.verbs.as_slice())?,
        before,
    )?;
    let first = level_of(
        alloc,
        rules,
        parts(alloc, List::Urls, rule.non_resource_urls.as_slice())?,
        verbs.full.as_slice(),
    )?;
    let mut behind = Vec::new(alloc);
    behind.push(verbs)?;
    Ok(Levels { first, behind })
}

// One more, unless one of the rules meets the entry.
fn counted(left: usize, rules: &[u64], entry: &Entry<'_, '_>) -> usize
    ensures left { result ≡ 0 → left ≡ 0 }
    ensures met { result ≡ 0 → (n : ℕ) × ((has_bit rules.now n && some_has entry.now.row.items n) ≡ true) }
{
    if is_any_common(rules, entry.row.as_slice()) {
        left
    } else {
        left.saturating_add(1)
    }
}

fn count_last(rules: &[u64], entries: &[Entry<'_, '_>]) -> usize
    ensures { (all others : ListValue Stopper) → AreRows (all ++ others) entries.now → IsCounted all (entries_in entries.now ∷ []) rules.now result }
{
    let mut left: usize = 0;
    for entry in entries {
        left = counted(left, rules, entry);
    }
    left
}

fn known(classes: &[Class], rules: &[u64]) -> Option<usize>
    ensures { (all : ListValue Stopper) (lists : ListValue (ListValue Item)) → AreClasses all lists classes.now → IfSome result (λ n. IsCounted all lists rules.now n) }
{
    for class in classes {
        if class.rules.as_slice() == rules {
            return Some(class.left);
        }
    }
    None
}

/// How many atoms are left of the lists, if those rules meet what is chosen.
#[cycle(count)]
pub fn count(
    alloc: Global,
    rules: &[u64],
    level: &Level<'_, '_>,
    behind: &[Level<'_, '_>],
) -> Result<usize, Memory>
    ensures { IfOk result (λ n. (all others : ListValue Stopper) → AreLevels all others (level.now ∷ behind.now) → IsCounted all (lists_in (level.now ∷ behind.now)) rules.now n) }
{
    if shares(rules, level.full.as_slice()) {
        return Ok(0);
    }
    match behind.split_first() {
        None => Ok(count_last(rules, level.entries.as_slice())),
        Some((next, rest)) => count_each(alloc, rules, level.entries.as_slice(), next, rest),
    }
}

#[cycle(count)]
fn count_each(
    alloc: Global,
    rules: &[u64],
    entries: &[Entry<'_, '_>],
    next: &Level<'_, '_>,
    rest: &[Level<'_, '_>],
) -> Result<usize, Memory>
    ensures { IfOk result (λ n. (all others : ListValue Stopper) → AreRows (all ++ others) entries.now → AreLevels all others (next.now ∷ rest.now)
        → IsCounted all (entries_in entries.now ∷ lists_in (next.now ∷ rest.now)) rules.now n) }
{
    let mut classes = Vec::new(alloc);
    let mut total: usize = 0;
    for entry in entries {
        let near = common(alloc, rules, entry.row.as_slice())?;
        total = total.saturating_add(count_below(alloc, &mut classes, near, next, rest)?);
    }
    Ok(total)
}

#[cycle(count)]
fn count_below(
    alloc: Global,
    classes: &mut Vec<Class>,
    rules: Vec<u64>,
    next: &Level<'_, '_>,
    rest: &[Level<'_, '_>],
) -> Result<usize, Memory>
    ensures { IfOk result (λ n. (all others : ListValue Stopper) → AreLevels all others (next.now ∷ rest.now) → AreClasses all (lists_in (next.now ∷ rest.now)) classes.old.items
        → AreClasses all (lists_in (next.now ∷ rest.now)) classes.new.items × IsCounted all (lists_in (next.now ∷ rest.now)) rules.items n) }
{
    if let Some(left) = known(classes.as_slice(), rules.as_slice()) {
        return Ok(left);
    }
    let left = count(alloc, rules.as_slice(), next, rest)?;
    if classes.len() < CLASSES {
        classes.push(Class { rules, left })?;
    }
    Ok(left)
}

fn names_of(alloc: Global, name: Option<&Text>) -> Result<Names, Memory>
    ensures { IfOk result (λ n. n ≡ names_in (text_in name.entry)) }
{
    match name {
        Some(name) => Ok(Names::One(name.copy(alloc)?)),
        None => Ok(Names::All),
    }
}

fn push_on_url(
    alloc: Global,
    list: &mut Vec<Atom>,
    url: Option<&Text>,
    verb: Option<&Text>,
) -> Result<(), Memory>
    ensures { OnOk result (list.new.items ≡ list.old.items ++ on_url (text_in url.entry) (text_in verb.entry)) }
{
    if let (Some(url), Some(verb)) = (url, verb) {
        list.push(Atom::Url(UrlAtom {
            verb: verb.copy(alloc)?,
            url: url.copy(alloc)?,
        }))?;
    }
    Ok(())
}

fn push_on_resource(
    alloc: Global,
    list: &mut Vec<Atom>,
    group: Option<&Text>,
    resource: Option<&Text>,
    verb: Option<&Text>,
    name: Option<&Text>,
) -> Result<(), Memory>
    ensures { OnOk result (list.new.items ≡ list.old.items ++ on_resource (text_in group.entry) (text_in resource.entry) (text_in verb.entry) (text_in name.entry)) }
{
    if let (Some(group), Some(resource), Some(verb)) = (group, resource, verb) {
        let names = names_of(alloc, name)?;
        list.push(resource_atom(alloc, verb, group, resource, names)?)?;
    }
    Ok(())
}

/// The atom of what is chosen: a URL and a verb, or a group, a resource, a verb and names.
pub fn push_atom(
    alloc: Global,
    list: &mut Vec<Atom>,
    chosen: &[ListEntry<'_>],
) -> Result<(), Memory>
    ensures { OnOk result (list.new.items ≡ list.old.items ++ atoms_of (items_in chosen.now)) }
{
    match chosen {
        [url, verb] => push_on_url(alloc, list, url.text, verb.text),
        [group, resource, verb, name] => push_on_resource(
            alloc,
            list,
            group.text,
            resource.text,
            verb.text,
            name.text,
        ),
        _ => Ok(()),
    }
}

fn push_chosen<'a>(
    alloc: Global,
    list: &mut Vec<Atom>,
    chosen: &mut Vec<ListEntry<'a>>,
    part: ListEntry<'a>,
) -> Result<(), Memory>
    ensures chosen { OnOk result (chosen.new.items ≡ chosen.old.items) }
    ensures list { OnOk result (list.new.items ≡ list.old.items ++ atoms_of (items_in chosen.old.items ++ item part.entry ∷ [])) }
{
    chosen.push(part)?;
    push_atom(alloc, list, chosen.as_slice())?;
    chosen.pop();
    Ok(())
}

// The atom of the entry, unless one of the rules meets it.
fn push_unmet<'a>(
    alloc: Global,
    list: &mut Vec<Atom>,
    chosen: &mut Vec<ListEntry<'a>>,
    rules: &[u64],
    entry: &Entry<'a, '_>,
) -> Result<(), Memory>
    ensures chosen { OnOk result (chosen.new.items ≡ chosen.old.items) }
    ensures list { OnOk result ((all others : ListValue Stopper) (test : Stopper → Bool) → Sees all test rules.now → IsRow (all ++ others) (item entry.now.part) entry.now.row.items
        → list.new.items ≡ list.old.items ++ atoms_behind (items_in chosen.old.items ++ item entry.now.part ∷ []) (left all (λ s. test s && meets (item entry.now.part) s) [])) }
{
    if is_any_common(rules, entry.row.as_slice()) {
        return Ok(());
    }
    push_chosen(alloc, list, chosen, entry.part)
}

fn push_last<'a>(
    alloc: Global,
    list: &mut Vec<Atom>,
    chosen: &mut Vec<ListEntry<'a>>,
    rules: &[u64],
    entries: &[Entry<'a, '_>],
) -> Result<(), Memory>
    ensures chosen { OnOk result (chosen.new.items ≡ chosen.old.items) }
    ensures list { OnOk result ((all others : ListValue Stopper) (test : Stopper → Bool) → Sees all test rules.now → AreRows (all ++ others) entries.now
        → list.new.items ≡ list.old.items ++ atoms_behind (items_in chosen.old.items) (left all test (entries_in entries.now ∷ []))) }
{
    for entry in entries {
        push_unmet(alloc, list, chosen, rules, entry)?;
    }
    Ok(())
}

/// The atoms that are left of the lists behind the chosen entries, if these rules meet the chosen ones.
#[cycle(push)]
pub fn push<'a>(
    alloc: Global,
    list: &mut Vec<Atom>,
    chosen: &mut Vec<ListEntry<'a>>,
    rules: &[u64],
    level: &Level<'a, '_>,
    behind: &[Level<'a, '_>],
) -> Result<(), Memory>
    ensures chosen { OnOk result (chosen.new.items ≡ chosen.old.items) }
    ensures list { OnOk result ((all others : ListValue Stopper) (test : Stopper → Bool) → Sees all test rules.now → AreLevels all others (level.now ∷ behind.now)
        → list.new.items ≡ list.old.items ++ atoms_behind (items_in chosen.old.items) (left all test (lists_in (level.now ∷ behind.now)))) }
{
    match behind.split_first() {
        None => push_last(alloc, list, chosen, rules, level.entries.as_slice()),
        Some((next, rest)) => push_each(
            alloc,
            list,
            chosen,
            rules,
            level.entries.as_slice(),
            next,
            rest,
        ),
    }
}

#[cycle(push)]
fn push_each<'a>(
    alloc: Global,
    list: &mut Vec<Atom>,
    chosen: &mut Vec<ListEntry<'a>>,
    rules: &[u64],
    entries: &[Entry<'a, '_>],
    next: &Level<'a, '_>,
    rest: &[Level<'a, '_>],
) -> Result<(), Memory>
    ensures chosen { OnOk result (chosen.new.items ≡ chosen.old.items) }
    ensures list { OnOk result ((all others : ListValue Stopper) (test : Stopper → Bool) → Sees all test rules.now → AreRows (all ++ others) entries.now → AreLevels all others (next.now ∷ rest.now)
        → list.new.items ≡ list.old.items ++ atoms_behind (items_in chosen.old.items) (left all test (entries_in entries.now ∷ lists_in (next.now ∷ rest.now)))) }
{
    for entry in entries {
        let near = common(alloc, rules, entry.row.as_slice())?;
        push_below(alloc, list, chosen, near.as_slice(), entry.part, next, rest)?;
    }
    Ok(())
}

// Nothing is pushed below an entry of which nothing is left.
#[cycle(push)]
fn push_below<'a>(
    alloc: Global,
    list: &mut Vec<Atom>,
    chosen: &mut Vec<ListEntry<'a>>,
    rules: &[u64],
    part: ListEntry<'a>,
    next: &Level<'a, '_>,
    rest: &[Level<'a, '_>],
) -> Result<(), Memory>
    ensures chosen { OnOk result (chosen.new.items ≡ chosen.old.items) }
    ensures list { OnOk result ((all others : ListValue Stopper) (test : Stopper → Bool) → Sees all test rules.now → AreLevels all others (next.now ∷ rest.now)
        → list.new.items ≡ list.old.items ++ atoms_behind (items_in chosen.old.items ++ item part.entry ∷ []) (left all test (lists_in (next.now ∷ rest.now)))) }
{
    if count(alloc, rules, next, rest)? > 0 {
        chosen.push(part)?;
        push(alloc, list, chosen, rules, next, rest)?;
        chosen.pop();
    }
    Ok(())
}
