//! Which aggregated cluster roles may take rules from an object, by its labels.
ghost use Rattle.std.specs.Prelude.{◌≡◌, ◌++◌, [], ◌∷◌, IfOk, OnErr, OnOk, map};
ghost use Rattle.std.specs.BTreeSet.{insert_key};
ghost use Rattle.kapi_store.specs.Plain.{plain_change};
ghost use Rattle.kapi_store.specs.Stored.{stored_tree};
ghost use Rattle.kapi_store.specs.Labels.{labels_of};
ghost use Rattle.kapi_aggregation.specs.Marks.{Keeps, KeepsTakers, all_givers, all_takers, end_at, first_text, label_text as label_text_of, names_for as names_for_labels, start_at, taker_cmp, with_all_left, with_giver, with_mark, with_names_at, with_takers};
ghost use Rattle.kapi_aggregation.specs.Views.{labelled};

use crate::roles::NamedRole;
use kapi_model::{Label, Selector};
use kapi_store::{Change, StoredObject};
use kapi_text::{Memory, Text, TryCopy};
use std::alloc::Global;
use std::collections::BTreeSet;

/// A cluster role at a label. A role that takes rules is at the first label of one of its selectors, or at an empty one
/// if the selector lists none; a role that gives rules is at one of its own labels.
#[derive(PartialEq, Eq, PartialOrd, Ord, Drop)]
pub struct Taker {
    pub label: Text,
    pub name: Text,
}

/// Puts the name among the others.
#[tactic(auto, using(crate::proofs::Marking::with_mark_keeps))]
pub(crate) fn put_name(alloc: Global, names: &mut BTreeSet<Text>, name: &Text) -> Result<(), Memory>
    ensures put { OnOk result (names.new.keys ≡ with_mark names.old.keys name.now) }
    ensures kept { Keeps names.old.keys names.new.keys }
{
    if !names.contains(name) {
        names.insert(name.copy(alloc)?)?;
    }
    Ok(())
}

/// A label as one text, its key first.
fn label_text(alloc: Global, label: &Label) -> Result<Text, Memory>
    ensures { IfOk result (λ t. t ≡ label_text_of label.now) }
{
    let mut text = String::from_str(alloc, label.key.as_str())?;
    text.push_str("=")?;
    text.push_str(label.value.as_str())?;
    Ok(Text::new(text))
}

/// The label that stands first, as text; empty if there is none.
fn first_label(alloc: Global, labels: &[Label]) -> Result<Text, Memory>
    ensures { IfOk result (λ t. t ≡ first_text labels.now) }
{
    match labels {
        [label, ..] => label_text(alloc, label),
        [] => Ok(Text::copy_of(alloc, "")?),
    }
}

/// Puts in a cluster role for one of its selectors.
fn put_selector(
    alloc: Global,
    takers: &mut BTreeSet<Taker>,
    name: &Text,
    selector: &Selector,
) -> Result<(), Memory>
    ensures put { OnOk result (takers.new.keys ≡ with_takers takers.old.keys name.now (selector.now ∷ [])) }
    ensures kept { KeepsTakers takers.old.keys takers.new.keys }
{
    let label = first_label(alloc, selector.match_labels.as_slice())?;
    let name = name.copy(alloc)?;
    takers.insert(Taker { label, name })?;
    Ok(())
}

/// Puts in a cluster role for each of its selectors.
pub(crate) fn put_selectors(
    alloc: Global,
    takers: &mut BTreeSet<Taker>,
    name: &Text,
    selectors: &[Selector],
) -> Result<(), Memory>
    ensures put { OnOk result (takers.new.keys ≡ with_takers takers.old.keys name.now selectors.now) }
    ensures kept { KeepsTakers takers.old.keys takers.new.keys }
{
    for selector in selectors {
        put_selector(alloc, takers, name, selector)?;
    }
    Ok(())
}

/// The aggregated ones among some cluster roles.
pub(crate) fn takers_of(alloc: Global, roles: &[NamedRole<'_>]) -> Result<BTreeSet<Taker>, Memory>
    ensures { IfOk result (λ s. s.keys ≡ all_takers (map labelled roles.now)) }
{
    let mut takers = BTreeSet::new(alloc);
    for role in roles {
        put_selectors(alloc, &mut takers, role.name, role.selectors())?;
    }
    Ok(takers)
}

/// Puts in an object for one of its labels.
fn put_label(
    alloc: Global,
    givers: &mut BTreeSet<Taker>,
    name: &Text,
    label: &Label,
) -> Result<(), Memory>
    ensures put { OnOk result (givers.new.keys ≡ with_giver givers.old.keys name.now (label.now ∷ [])) }
    ensures kept { KeepsTakers givers.old.keys givers.new.keys }
{
    let label = label_text(alloc, label)?;
    let name = name.copy(alloc)?;
    givers.insert(Taker { label, name })?;
    Ok(())
}

/// Puts in an object for each of its labels.
fn put_labels(
    alloc: Global,
    givers: &mut BTreeSet<Taker>,
    name: &Text,
    object: &StoredObject,
) -> Result<(), Memory>
    ensures put { OnOk result (givers.new.keys ≡ with_giver givers.old.keys name.now (labels_of (stored_tree object.now))) }
    ensures kept { KeepsTakers givers.old.keys givers.new.keys }
{
    for label in object.label_list() {
        put_label(alloc, givers, name, label)?;
    }
    Ok(())
}

/// Puts in what the changes leave, for each of its labels.
pub(crate) fn put_left(
    alloc: Global,
    givers: &mut BTreeSet<Taker>,
    changes: &[Change],
) -> Result<(), Memory>
    ensures put { OnOk result (givers.new.keys ≡ with_all_left givers.old.keys (map plain_change changes.now)) }
    ensures kept { KeepsTakers givers.old.keys givers.new.keys }
{
    for change in changes {
        if let Some(object) = &change.new {
            put_labels(alloc, givers, &change.key.name, object.get())?;
        }
    }
    Ok(())
}

/// Some cluster roles, by their labels.
pub(crate) fn givers_of(alloc: Global, roles: &[NamedRole<'_>]) -> Result<BTreeSet<Taker>, Memory>
    ensures { IfOk result (λ s. s.keys ≡ all_givers (map labelled roles.now)) }
{
    let mut givers = BTreeSet::new(alloc);
    for role in roles {
        put_labels(alloc, &mut givers, role.name, role.object)?;
    }
    Ok(givers)
}

/// Where the cluster roles at a label begin.
fn start(alloc: Global, label: &str) -> Result<Taker, Memory>
    ensures { IfOk result (λ t. t ≡ start_at label.now) }
{
    Ok(Taker {
        label: Text::copy_of(alloc, label)?,
        name: Text::copy_of(alloc, "")?,
    })
}

/// What comes after all cluster roles at a label.
fn end(alloc: Global, label: &str) -> Result<Taker, Memory>
    ensures { IfOk result (λ t. t ≡ end_at label.now) }
{
    let mut after = String::from_str(alloc, label)?;
    after.push('\0')?;
    Ok(Taker {
        label: Text::new(after),
        name: Text::copy_of(alloc, "")?,
    })
}

/// Puts the names of the cluster roles at a label among others.
fn put_names_at(
    alloc: Global,
    names: &mut BTreeSet<Text>,
    takers: &BTreeSet<Taker>,
    label: &str,
) -> Result<(), Memory>
    ensures { OnOk result (names.new.keys ≡ with_names_at takers.now.keys names.old.keys label.now) }
{
    let (start, end) = (start(alloc, label)?, end(alloc, label)?);
    for taker in takers.range(&start..&end) {
        put_name(alloc, names, &taker.name)?;
    }
    Ok(())
}

/// The names of the cluster roles at a label.
pub(crate) fn names_at(
    alloc: Global,
    givers: &BTreeSet<Taker>,
    label: &Label,
) -> Result<BTreeSet<Text>, Memory>
    ensures { IfOk result (λ s. s.keys ≡ with_names_at givers.now.keys [] (label_text_of label.now)) }
{
    let mut names = BTreeSet::new(alloc);
    let label = label_text(alloc, label)?;
    put_names_at(alloc, &mut names, givers, label.as_str())?;
    Ok(names)
}

/// The names of the cluster roles that may take rules from the object: those with a selector that lists a label of the
/// object's first, or lists none.
pub(crate) fn names_for(
    alloc: Global,
    takers: &BTreeSet<Taker>,
    object: &StoredObject,
) -> Result<BTreeSet<Text>, Memory>
    ensures { IfOk result (λ s. s.keys ≡ names_for_labels takers.now.keys (labels_of (stored_tree object.now))) }
{
    let mut names = BTreeSet::new(alloc);
    put_names_at(alloc, &mut names, takers, "")?;
    for label in object.label_list() {
        let label = label_text(alloc, label)?;
        put_names_at(alloc, &mut names, takers, label.as_str())?;
    }
    Ok(names)
}
