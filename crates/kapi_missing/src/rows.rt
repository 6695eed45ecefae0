//! Entries of a wanted rule, and the rules that meet each of them.
ghost use Rattle.std.specs.Prelude.{◌≡◌, ◌&&◌, ◌||◌, ◌==◌, ℕ, List as ListValue, [], true, not, map, IfOk, OnOk};
ghost use Rattle.std.specs.Str.{bytes_eq};
ghost use Rattle.kapi_rules.specs.Atoms.{after_slash as behind_slash, names_of};
ghost use Rattle.kapi_missing.specs.Private.Index.{IsIndex, has_at, has_beginning, has_behind};
ghost use Rattle.kapi_missing.specs.Private.Left.{IsRow, item, items_in};
ghost use Rattle.kapi_missing.specs.Private.Numbers.{has, some_has};
ghost use Rattle.kapi_missing.specs.Private.Once.{HasWords, is_in, once_each, with_word};
ghost use Rattle.kapi_missing.specs.Private.Stoppers.{Stopper, at, meets, names_item, word_in};

use crate::index::{Rules, Sets};
use crate::numbers::Numbers;
use kapi_rules::after_slash;
use kapi_text::{Memory, Text};
use std::alloc::Global;
use std::collections::BTreeSet;

/// The lists of a rule.
#[derive(Clone, Copy, Drop, PartialEq)]
pub enum List {
    Groups,
    Resources,
    Verbs,
    Names,
    Urls,
}

/// An entry of a list of a wanted rule; without a text all names, of a rule that lists none.
#[derive(Clone, Copy, Drop)]
pub struct ListEntry<'a> {
    pub list: List,
    pub text: Option<&'a Text>,
}

fn add_word<'a>(seen: &mut BTreeSet<&'a str>, word: &'a str) -> Result<(), Memory>
    ensures { OnOk result ((w : ListValue ℕ) → is_in seen.new w ≡ (bytes_eq word.now w || is_in seen.old w)) }
{
    seen.insert(word)?;
    Ok(())
}

fn has_word(seen: &BTreeSet<&str>, word: &str) -> bool
    ensures { result ≡ is_in seen.now word.now }
{
    seen.contains(word)
}

// The word too, unless it is among those that were seen.
fn push_new<'a>(
    parts: &mut Vec<ListEntry<'a>>,
    seen: &mut BTreeSet<&'a str>,
    list: List,
    word: &'a Text,
) -> Result<(), Memory>
    ensures { OnOk result ((words : ListValue (ListValue ℕ)) → items_in parts.old.items ≡ map (word_in list) words → HasWords seen.old words
        → (items_in parts.new.items ≡ map (word_in list) (with_word words word.now)) × HasWords seen.new (with_word words word.now)) }
{
    if !has_word(seen, word.as_str()) {
        add_word(seen, word.as_str())?;
        parts.push(ListEntry {
            list,
            text: Some(word),
        })?;
    }
    Ok(())
}

/// Each entry of the list once, in the order in which they come first.
#[tactic(auto, unfolding(crate::specs::Private::Once::once_each))]
pub fn parts<'a>(
    alloc: Global,
    list: List,
    entries: &'a [Text],
) -> Result<Vec<ListEntry<'a>>, Memory>
    ensures { IfOk result (λ v. items_in v.items ≡ map (word_in list) (once_each entries.now)) }
{
    let mut parts = Vec::new(alloc);
    let mut seen = BTreeSet::new(alloc);
    for entry in entries {
        push_new(&mut parts, &mut seen, list, entry)?;
    }
    Ok(parts)
}

fn all_names<'a>(alloc: Global) -> Result<Vec<ListEntry<'a>>, Memory>
    ensures { IfOk result (λ v. items_in v.items ≡ map names_item (names_of [])) }
{
    let mut parts = Vec::new(alloc);
    parts.push(ListEntry {
        list: List::Names,
        text: None,
    })?;
    Ok(parts)
}

/// The names of a rule, or all names.
pub fn names<'a>(alloc: Global, entries: &'a [Text]) -> Result<Vec<ListEntry<'a>>, Memory>
    ensures { IfOk result (λ v. items_in v.items ≡ map names_item (names_of (once_each entries.now))) }
{
    if entries.is_empty() {
        all_names(alloc)
    } else {
        parts(alloc, List::Names, entries)
    }
}

fn push_under<'i>(row: &mut Vec<&'i Numbers>, sets: &'i Sets<'_>, text: &[u8]) -> Result<(), Memory>
    ensures { OnOk result ((n : ℕ) → some_has row.new.items n ≡ (some_has row.old.items n || has_at sets.now text.now n)) }
{
    if let Some(numbers) = sets.get(text) {
        row.push(numbers)?;
    }
    Ok(())
}

// The rules listing the word, and the rules meeting any word.
fn push_word<'i>(
    row: &mut Vec<&'i Numbers>,
    any: &'i Numbers,
    sets: &'i Sets<'_>,
    word: &Text,
) -> Result<(), Memory>
    ensures { OnOk result ((n : ℕ) → some_has row.new.items n ≡ (some_has row.old.items n || (has any.now n || has_at sets.now word.now n))) }
{
    row.push(any)?;
    push_under(row, sets, word.as_str().as_bytes())
}

fn push_behind<'i>(
    row: &mut Vec<&'i Numbers>,
    sets: &'i Sets<'_>,
    resource: &[u8],
) -> Result<(), Memory>
    ensures { OnOk result ((n : ℕ) → some_has row.new.items n ≡ (some_has row.old.items n || has_behind sets.now (behind_slash resource.now) n)) }
{
    match after_slash(resource) {
        Some(subresource) => push_under(row, sets, subresource),
        None => Ok(()),
    }
}

fn push_resource<'i>(
    row: &mut Vec<&'i Numbers>,
    rules: &'i Rules<'_>,
    resource: &Text,
) -> Result<(), Memory>
    ensures { OnOk result ((n : ℕ) → some_has row.new.items n
        ≡ (some_has row.old.items n || ((has rules.now.any_resource n || has_at rules.now.resources resource.now n) || has_behind rules.now.subresources (behind_slash resource.now) n))) }
{
    push_word(row, &rules.any_resource, &rules.resources, resource)?;
    push_behind(row, &rules.subresources, resource.as_str().as_bytes())
}

fn push_beginnings<'i>(
    row: &mut Vec<&'i Numbers>,
    sets: &'i Sets<'_>,
    lengths: &[usize],
    url: &[u8],
) -> Result<(), Memory>
    ensures { OnOk result ((n : ℕ) → some_has row.new.items n ≡ (some_has row.old.items n || has_beginning sets.now lengths.now url.now n)) }
{
    for length in lengths {
        if *length <= url.len() {
            push_under(row, sets, &url[..*length])?;
        }
    }
    Ok(())
}

fn push_url<'i>(row: &mut Vec<&'i Numbers>, rules: &'i Rules<'_>, url: &Text) -> Result<(), Memory>
    ensures { OnOk result ((n : ℕ) → some_has row.new.items n
        ≡ (some_has row.old.items n || (has_at rules.now.urls url.now n || has_beginning rules.now.beginnings rules.now.lengths.items url.now n))) }
{
    let text = url.as_str().as_bytes();
    push_under(row, &rules.urls, text)?;
    push_beginnings(row, &rules.beginnings, rules.lengths.as_slice(), text)
}

fn push_text<'i>(
    row: &mut Vec<&'i Numbers>,
    rules: &'i Rules<'_>,
    list: List,
    text: &Text,
) -> Result<(), Memory>
    ensures { OnOk result ((all : ListValue Stopper) → IsIndex all rules.now → (n : ℕ) → some_has row.new.items n ≡ (some_has row.old.items n || at (map (meets (word_in list text.now)) all) n)) }
{
    match list {
        List::Groups => push_word(row, &rules.any_group, &rules.groups, text),
        List::Resources => push_resource(row, rules, text),
        List::Verbs => push_word(row, &rules.any_verb, &rules.verbs, text),
        List::Names => push_word(row, &rules.any_name, &rules.names, text),
        List::Urls => push_url(row, rules, text),
    }
}

/// The rules meeting the entry: held ones cover it, wanted ones list it.
pub fn row<'i>(
    alloc: Global,
    rules: &'i Rules<'_>,
    part: ListEntry<'_>,
) -> Result<Vec<&'i Numbers>, Memory>
    ensures { IfOk result (λ v. (all : ListValue Stopper) → IsIndex all rules.now → IsRow all (item part.entry) v.items) }
{
    let mut row = Vec::new(alloc);
    match part.text {
        Some(text) => push_text(&mut row, rules, part.list, text)?,
        None => row.push(&rules.nameless)?,
    }
    Ok(row)
}
