//! The atoms of a rule.
ghost use Rattle.std.specs.Prelude.{◌≡◌, ◌++◌, IfOk, OnOk, map};
ghost use Rattle.std.specs.List.{flat_map};
ghost use Rattle.kapi_rules.specs.Atoms.{atoms as atoms_of, group_atoms, resource_atom as named_atom, resource_atoms, url_atoms, verb_atoms};

use kapi_model::PolicyRule;
use kapi_text::{Memory, Text, TryCopy};
use std::alloc::{AllocError, Global};

/// The smallest part of a rule: one entry of each list, taken literally, so that the verb `*` is an entry and not all
/// verbs.
#[derive(Drop)]
pub enum Atom {
    Resource(ResourceAtom),
    Url(UrlAtom),
}

/// One verb on one resource of one group, with all names or one.
#[derive(Drop)]
pub struct ResourceAtom {
    pub verb: Text,
    pub group: Text,
    pub resource: Text,
    pub names: Names,
}

/// The names of an atom.
#[derive(Drop)]
pub enum Names {
    /// The names of a rule that lists no names.
    All,
    One(Text),
}

/// One verb on one URL.
#[derive(Drop)]
pub struct UrlAtom {
    pub verb: Text,
    pub url: Text,
}

impl TryCopy for Names {
    fn copy(&self, alloc: Global) -> Result<Names, AllocError> {
        match self {
            Names::All => Ok(Names::All),
            Names::One(name) => Ok(Names::One(name.copy(alloc)?)),
        }
    }
}

impl TryCopy for ResourceAtom {
    fn copy(&self, alloc: Global) -> Result<ResourceAtom, AllocError> {
        Ok(ResourceAtom {
            verb: self.verb.copy(alloc)?,
            group: self.group.copy(alloc)?,
            resource: self.resource.copy(alloc)?,
            names: self.names.copy(alloc)?,
        })
    }
}

impl TryCopy for UrlAtom {
    fn copy(&self, alloc: Global) -> Result<UrlAtom, AllocError> {
        Ok(UrlAtom {
            verb: self.verb.copy(alloc)?,
            url: self.url.copy(alloc)?,
        })
    }
}

impl TryCopy for Atom {
    fn copy(&self, alloc: Global) -> Result<Atom, AllocError> {
        match self {
            Atom::Resource(atom) => Ok(Atom::Resource(atom.copy(alloc)?)),
            Atom::Url(atom) => Ok(Atom::Url(atom.copy(alloc)?)),
        }
    }
}

/// The atoms of a rule: for each group, each resource, each verb and each name (or once for all names, if none is
/// listed); then for each URL and each verb.
#[tactic(auto, unfolding(crate::specs::Atoms::atoms))]
pub fn atoms(alloc: Global, rule: &PolicyRule) -> Result<Vec<Atom>, Memory>
    ensures { IfOk result (λ v. v.items ≡ atoms_of rule.now) }
{
    let mut list = Vec::new(alloc);
    push_resource_part(alloc, &mut list, rule)?;
    push_url_part(alloc, &mut list, rule)?;
    Ok(list)
}

fn push_resource_part(alloc: Global, list: &mut Vec<Atom>, rule: &PolicyRule) -> Result<(), Memory>
    ensures { OnOk result (list.new.items ≡ list.old.items ++ flat_map (group_atoms rule.now) rule.now.api_groups) }
{
    for group in rule.api_groups.as_slice() {
        push_group(alloc, list, rule, group)?;
    }
    Ok(())
}

fn push_group(
    alloc: Global,
    list: &mut Vec<Atom>,
    rule: &PolicyRule,
    group: &Text,
) -> Result<(), Memory>
    ensures { OnOk result (list.new.items ≡ list.old.items ++ group_atoms rule.now group.now) }
{
    for resource in rule.resources.as_slice() {
        push_resource(alloc, list, rule, group, resource)?;
    }
    Ok(())
}

fn push_resource(
    alloc: Global,
    list: &mut Vec<Atom>,
    rule: &PolicyRule,
    group: &Text,
    resource: &Text,
) -> Result<(), Memory>
    ensures { OnOk result (list.new.items ≡ list.old.items ++ resource_atoms rule.now group.now resource.now) }
{
    for verb in rule.verbs.as_slice() {
        push_verb(alloc, list, rule, group, resource, verb)?;
    }
    Ok(())
}

fn push_verb(
    alloc: Global,
    list: &mut Vec<Atom>,
    rule: &PolicyRule,
    group: &Text,
    resource: &Text,
    verb: &Text,
) -> Result<(), Memory>
    ensures { OnOk result (list.new.items ≡ list.old.items ++ verb_atoms rule.now group.now resource.now verb.now) }
{
    let names = rule.resource_names.as_slice();
    if names.is_empty() {
        list.push(resource_atom(alloc, verb, group, resource, Names::All)?)?;
        Ok(())
    } else {
        push_named(alloc, list, names, group, resource, verb)
    }
}

fn push_named(
    alloc: Global,
    list: &mut Vec<Atom>,
    names: &[Text],
    group: &Text,
    resource: &Text,
    verb: &Text,
) -> Result<(), Memory>
    ensures { OnOk result (list.new.items ≡ list.old.items ++ map (named_atom verb.now group.now resource.now) (map Names.One names.now)) }
{
    for name in names {
        let names = Names::One(name.copy(alloc)?);
        list.push(resource_atom(alloc, verb, group, resource, names)?)?;
    }
    Ok(())
}

/// The atom of a verb on a resource of a group, of these names.
pub fn resource_atom(
    alloc: Global,
    verb: &Text,
    group: &Text,
    resource: &Text,
    names: Names,
) -> Result<Atom, Memory>
    ensures { IfOk result (λ a. a ≡ named_atom verb.now group.now resource.now names) }
{
    Ok(Atom::Resource(ResourceAtom {
        verb: verb.copy(alloc)?,
        group: group.copy(alloc)?,
        resource: resource.copy(alloc)?,
        names,
    }))
}

fn push_url_part(alloc: Global, list: &mut Vec<Atom>, rule: &PolicyRule) -> Result<(), Memory>
    ensures { OnOk result (list.new.items ≡ list.old.items ++ flat_map (url_atoms rule.now) rule.now.non_resource_urls) }
{
    for url in rule.non_resource_urls.as_slice() {
        push_url(alloc, list, rule, url)?;
    }
    Ok(())
}

fn push_url(
    alloc: Global,
    list: &mut Vec<Atom>,
    rule: &PolicyRule,
    url: &Text,
) -> Result<(), Memory>
    ensures { OnOk result (list.new.items ≡ list.old.items ++ url_atoms rule.now url.now) }
{
    for verb in rule.verbs.as_slice() {
        list.push(Atom::Url(UrlAtom {
            verb: verb.copy(alloc)?,
            url: url.copy(alloc)?,
        }))?;
    }
    Ok(())
}
