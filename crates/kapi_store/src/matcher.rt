//! Selectors in a form that is made once for a list or a watch, so that an object costs as many steps as it has labels,
//! each a search, however many requirements the selector has.

ghost use Rattle.std.specs.Prelude.{◌≡◌, ◌&&◌, if◌then◌else◌, ℕ, List, [], map, Option, None, Some, true, not, IfOk, OnOk};
ghost use Rattle.std.specs.Option.{option_map_or};
ghost use Rattle.std.specs.Str.{bytes_eq};
ghost use Rattle.std.specs.List.{list_all};
ghost use Rattle.kapi_model.specs.Selector.{holds, is_listed};
ghost use Rattle.kapi_store.specs.Private.Matching.{are_there, is_there, lets, presence_of, passes as passes_of, passes_at as passes_at_of};

use crate::stored::StoredObject;
use kapi_model::{Label, Labels, Operator, Requirement, Selector};
use kapi_text::{Memory, Sequence, Text, TryCopy};
use std::alloc::Global;
use std::collections::{BTreeMap, BTreeSet};

/// Which values the requirements on one key let pass: of the noted ones those that are noted so, of the others all or none.
#[derive(Drop)]
pub(crate) struct Checks {
    noted: BTreeMap<Text, bool>,
    others: bool,
}

impl Checks {
    /// All values pass, or none.
    fn new(alloc: Global, others: bool) -> Checks
        ensures { (v : List ℕ) → passes_of result v ≡ others }
    {
        Checks {
            noted: BTreeMap::new(alloc),
            others,
        }
    }

    /// Whether the value passes.
    fn passes(&self, value: &Text) -> bool
        ensures { result ≡ passes_of self.now value.now }
    {
        match self.noted.get(value) {
            Some(passes) => *passes,
            None => self.others,
        }
    }

    /// Notes whether a value passes.
    fn note(&mut self, alloc: Global, value: &Text, passes: bool) -> Result<(), Memory>
        ensures { OnOk result ((v : List ℕ) → passes_of self.new v ≡ (if bytes_eq value.now v then passes else passes_of self.old v)) }
    {
        drop(self.noted.insert(value.copy(alloc)?, passes)?);
        Ok(())
    }

    /// Of the values that pass those that are listed.
    fn only(&self, alloc: Global, listed: &[Text]) -> Result<Checks, Memory>
        ensures { IfOk result (λ c. (v : List ℕ) → passes_of c v ≡ (is_listed listed.now v && passes_of self.now v)) }
    {
        let mut checks = Checks::new(alloc, false);
        for value in listed {
            checks.note(alloc, value, self.passes(value))?;
        }
        Ok(checks)
    }

    /// Of the values that pass those that are not listed.
    fn without(self, alloc: Global, listed: &[Text]) -> Result<Checks, Memory>
        ensures { IfOk result (λ c. (v : List ℕ) → passes_of c v ≡ (not (is_listed listed.now v) && passes_of self v)) }
    {
        let mut checks = self;
        for value in listed {
            checks.note(alloc, value, false)?;
        }
        Ok(checks)
    }

    /// Of the values that pass those that meet the requirement.
    fn narrowed(self, alloc: Global, requirement: &Requirement) -> Result<Checks, Memory>
        ensures { IfOk result (λ c. (v : List ℕ) → passes_of c v ≡ (holds requirement.now.operator requirement.now.values (Some v) && passes_of self v)) }
    {
        match requirement.operator {
            Operator::In => self.only(alloc, requirement.values.as_slice()),
            Operator::NotIn => self.without(alloc, requirement.values.as_slice()),
            Operator::Exists => Ok(self),
            Operator::DoesNotExist => Ok(Checks::new(alloc, false)),
        }
    }
}

/// The checks that are there, or else those that all values pass.
fn or_all(alloc: Global, found: Option<Checks>) -> Checks
    ensures { (v : List ℕ) → passes_of result v ≡ option_map_or (λ c. passes_of c v) found true }
{
    match found {
        Some(checks) => checks,
        None => Checks::new(alloc, true),
    }
}

/// Notes what a requirement asks of the values of its key.
fn narrow(
    alloc: Global,
    keys: &mut BTreeMap<Text, Checks>,
    requirement: &Requirement,
) -> Result<(), Memory>
    ensures { OnOk result ((key v : List ℕ) → passes_at_of keys.new key v ≡ (passes_at_of keys.old key v && lets requirement.now key v)) }
{
    let checks = or_all(alloc, keys.remove(&requirement.key));
    let narrowed = checks.narrowed(alloc, requirement)?;
    drop(keys.insert(requirement.key.copy(alloc)?, narrowed)?);
    Ok(())
}

/// What the requirements ask of the values of each key.
fn checks_of(alloc: Global, requirements: &[Requirement]) -> Result<BTreeMap<Text, Checks>, Memory>
    ensures { IfOk result (λ keys. (key v : List ℕ) → passes_at_of keys key v ≡ list_all (λ r. lets r key v) requirements.now) }
{
    let mut keys = BTreeMap::new(alloc);
    for requirement in requirements {
        narrow(alloc, &mut keys, requirement)?;
    }
    Ok(keys)
}

/// Whether a requirement is met only by labels that have its key.
fn needs_key(operator: Operator) -> bool
    ensures { result ≡ not (holds operator [] None) }
{
    matches!(operator, Operator::In | Operator::Exists)
}

/// Notes the requirement's key, if it needs it.
fn need(alloc: Global, keys: &mut BTreeSet<Text>, requirement: &Requirement) -> Result<(), Memory>
    ensures { OnOk result ((at : List ℕ → Option (List ℕ)) → are_there at keys.new.keys ≡ (are_there at keys.old.keys && is_there requirement.now (at requirement.now.key))) }
{
    if needs_key(requirement.operator) {
        keys.insert(requirement.key.copy(alloc)?)?;
    }
    Ok(())
}

/// The keys that the requirements need, each once.
fn needed_keys(alloc: Global, requirements: &[Requirement]) -> Result<BTreeSet<Text>, Memory>
    ensures { IfOk result (λ keys. (at : List ℕ → Option (List ℕ)) → are_there at keys.keys ≡ list_all (λ r. is_there r (at r.key)) requirements.now) }
{
    let mut keys = BTreeSet::new(alloc);
    for requirement in requirements {
        need(alloc, &mut keys, requirement)?;
    }
    Ok(keys)
}

/// The requirements that the keys are there.
fn presence(alloc: Global, keys: &BTreeSet<Text>) -> Result<Vec<Requirement>, Memory>
    ensures { IfOk result (λ v. v.items ≡ map presence_of keys.now.keys) }
{
    let mut requirements = Vec::new(alloc);
    for key in keys {
        requirements.push(Requirement {
            key: key.copy(alloc)?,
            operator: Operator::Exists,
            values: Sequence::new(Vec::new(alloc)),
        })?;
    }
    Ok(requirements)
}

/// A selector in the form in which labels are looked up in it: the labels meet all requirements if each key that one of
/// them needs is there, and the value of each label passes.
#[derive(Drop)]
pub struct Matcher {
    /// The labels and the keys that must be there. Each key stands once, and the first that is lacking ends the walk, so
    /// it takes at most one step more than an object has labels.
    needed: Selector,
    keys: BTreeMap<Text, Checks>,
}

impl Matcher {
    ghost use Rattle.std.specs.Prelude.{◌≡◌, codes, IfOk};
    ghost use Rattle.std.specs.List.{list_all};
    ghost use Rattle.kapi_model.specs.Selector.{matches as matches_of};
    ghost use Rattle.kapi_model.specs.declared.selector.Selector.{Selector};
    ghost use Rattle.kapi_object.specs.Tree.{in_metadata};
    ghost use Rattle.kapi_store.specs.Matching.{Meets};
    ghost use Rattle.kapi_store.specs.Private.Matching.{meets, passes_at as passes_at_of};
    ghost use Rattle.kapi_store.specs.Stored.{stored_tree};

    /// The form of a selector.
    pub fn of(alloc: Global, selector: &Selector) -> Result<Matcher, Memory>
        ensures { IfOk result (λ m. Meets m selector.now) }
    {
        let requirements = selector.match_expressions.as_slice();
        let keys = needed_keys(alloc, requirements)?;
        Ok(Matcher {
            needed: Selector {
                match_labels: selector.match_labels.copy(alloc)?,
                match_expressions: Sequence::new(presence(alloc, &keys)?),
            },
            keys: checks_of(alloc, requirements)?,
        })
    }

    /// Whether the value of a label passes what is asked of its key.
    fn passes(&self, label: &Label) -> bool
        ensures { result ≡ passes_at_of self.now.keys label.now.key label.now.value }
    {
        match self.keys.get(&label.key) {
            Some(checks) => checks.passes(&label.value),
            None => true,
        }
    }

    /// Whether the value of each label passes what is asked of its key.
    fn all_pass(&self, labels: &[Label]) -> bool
        ensures { result ≡ list_all (λ l. passes_at_of self.now.keys l.key l.value) labels.now }
    {
        labels.iter().all(|label| self.passes(label))
    }

    /// Whether the needed labels are there, and each label passes.
    fn matches(&self, labels: &[Label]) -> bool
        ensures { result ≡ meets self.now labels.now }
    {
        self.needed.matches(&Labels::new(labels)) && self.all_pass(labels)
    }

    /// Whether the selector that this is the form of matches the object's labels. Allocates nothing.
    pub fn selects(&self, object: &StoredObject) -> bool
        ensures { (selector : Selector) → Meets self.now selector → result ≡ matches_of selector (in_metadata (codes "labels") (stored_tree object.now)) }
    {
        self.matches(object.label_list())
    }
}
