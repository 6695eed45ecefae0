//! Used atoms, and look-ups of those implying one.
ghost use Rattle.std.specs.Prelude.{◌≡◌, ◌||◌, ◌++◌, ◌∷◌, [], IfOk, OnOk};
ghost use Rattle.std.specs.Option.{unwrap_or};
ghost use Rattle.kapi_rules.specs.Entries.{star};
ghost use Rattle.kapi_suggest.specs.Needs.{is_implied};
ghost use Rattle.kapi_suggest.specs.Private.Keyed as keyed;

use kapi_rules::{Atom, Names, implies};
use kapi_text::{Memory, Sequence, Text, TryCopy};
use std::alloc::Global;
use std::collections::BTreeMap;
use std::marker::Model;

/// Atoms in the order of their use, and by keys: whatever implies an atom lies under one of three.
#[derive(Drop)]
pub struct UsedAtoms {
    atoms: Sequence<Atom>,
    sets: BTreeMap<Text, Sequence<Atom>>,
}

impl Model for UsedAtoms {
    ghost use Rattle.std.specs.Prelude.{List};
    ghost use Rattle.kapi_rules.specs.declared.atom.Atom.{Atom};
    ghost use Rattle.kapi_suggest.specs.Private.Keyed.{IsIndex};

    ghost Value = { List Atom };

    ghost view = { λ u. u.atoms };

    ghost invariant = { λ u. IsIndex u.atoms u.sets.entries };
}

// ---- keys

fn target(atom: &Atom) -> &str
    ensures { result.now ≡ keyed.target atom.now }
{
    match atom {
        Atom::Resource(atom) => atom.resource.as_str(),
        Atom::Url(atom) => atom.url.as_str(),
    }
}

fn name_among(names: &Names) -> &str
    ensures { result.now ≡ keyed.name_among names.now }
{
    match names {
        Names::All => "",
        Names::One(name) => name.as_str(),
    }
}

fn name(atom: &Atom) -> &str
    ensures { result.now ≡ keyed.name atom.now }
{
    match atom {
        Atom::Resource(atom) => name_among(&atom.names),
        Atom::Url(_atom) => "",
    }
}

fn is_wide(target: &str) -> bool
    ensures { result ≡ keyed.is_wide target.now }
{
    target.as_bytes().starts_with(b"*") || target.as_bytes().ends_with(b"*")
}

fn named(alloc: Global, atom: &Atom) -> Result<Text, Memory>
    ensures { IfOk result (λ k. k ≡ keyed.named atom.now) }
{
    let target = target(atom);
    let name = name(atom);
    Ok(Text::new(format!(in alloc; "{target} {name}")?))
}

fn unnamed(alloc: Global, atom: &Atom) -> Result<Text, Memory>
    ensures { IfOk result (λ k. k ≡ keyed.unnamed atom.now) }
{
    let target = target(atom);
    Ok(Text::new(format!(in alloc; "{target} ")?))
}

fn wide(alloc: Global) -> Result<Text, Memory>
    ensures { IfOk result (λ k. k ≡ star) }
{
    Text::copy_of(alloc, "*")
}

/// The key under which an atom lies.
fn key_of(alloc: Global, atom: &Atom) -> Result<Text, Memory>
    ensures { IfOk result (λ k. k ≡ keyed.key_of atom.now) }
{
    if is_wide(target(atom)) {
        wide(alloc)
    } else {
        named(alloc, atom)
    }
}

// ---- look-ups

fn list_in(alloc: Global, found: Option<Sequence<Atom>>) -> Sequence<Atom>
    ensures { result ≡ unwrap_or found [] }
{
    match found {
        Some(list) => list,
        None => Sequence::new(Vec::new(alloc)),
    }
}

fn with_last(list: Sequence<Atom>, atom: Atom) -> Result<Sequence<Atom>, Memory>
    ensures { IfOk result (λ s. s ≡ list ++ atom ∷ []) }
{
    let mut items = list.into_vec();
    items.push(atom)?;
    Ok(Sequence::new(items))
}

fn add_under(
    alloc: Global,
    sets: &mut BTreeMap<Text, Sequence<Atom>>,
    key: Text,
    atom: Atom,
) -> Result<(), Memory>
    ensures { OnOk result (sets.new.entries ≡ keyed.with_under sets.old.entries key atom) }
{
    let list = list_in(alloc, sets.remove(&key));
    let list = with_last(list, atom)?;
    drop(sets.insert(key, list)?);
    Ok(())
}

fn is_implied_under(sets: &BTreeMap<Text, Sequence<Atom>>, key: &Text, atom: &Atom) -> bool
    ensures { result ≡ is_implied (keyed.under sets.now.entries key.now) atom.now }
{
    match sets.get(key) {
        Some(list) => list.as_slice().iter().any(|other| implies(other, atom)),
        None => false,
    }
}

/// Whether an atom under one of the keys implies this one.
fn is_implied_under_some(
    sets: &BTreeMap<Text, Sequence<Atom>>,
    named: &Text,
    unnamed: &Text,
    wide: &Text,
    atom: &Atom,
) -> bool
    ensures { result ≡ (is_implied (keyed.under sets.now.entries named.now) atom.now || (is_implied (keyed.under sets.now.entries unnamed.now) atom.now || is_implied (keyed.under sets.now.entries wide.now) atom.now)) }
{
    is_implied_under(sets, named, atom)
        || (is_implied_under(sets, unnamed, atom) || is_implied_under(sets, wide, atom))
}

impl UsedAtoms {
    pub fn new(alloc: Global) -> UsedAtoms
        ensures { result ≡ [] }
    {
        UsedAtoms {
            atoms: Sequence::new(Vec::new(alloc)),
            sets: BTreeMap::new(alloc),
        }
    }

    pub fn copies(&self, alloc: Global) -> Result<Vec<Atom>, Memory>
        ensures { IfOk result (λ v. v.items ≡ self.now) }
    {
        Ok(self.atoms.copy(alloc)?.into_vec())
    }

    pub fn into_vec(self) -> Vec<Atom>
        ensures { result.items ≡ self }
    {
        let UsedAtoms { atoms, sets } = self;
        drop(sets);
        atoms.into_vec()
    }

    /// Whether some atom implies this one.
    pub fn imply(&self, alloc: Global, atom: &Atom) -> Result<bool, Memory>
        ensures { IfOk result (λ b. b ≡ is_implied self.now atom.now) }
    {
        let named = named(alloc, atom)?;
        let unnamed = unnamed(alloc, atom)?;
        let wide = wide(alloc)?;
        Ok(is_implied_under_some(&self.sets, &named, &unnamed, &wide, atom))
    }

    /// The atoms with one more at the end.
    pub fn with(self, alloc: Global, atom: Atom) -> Result<UsedAtoms, Memory>
        ensures { IfOk result (λ u. u ≡ self ++ atom ∷ []) }
    {
        let UsedAtoms { atoms, mut sets } = self;
        let key = key_of(alloc, &atom)?;
        let copy = atom.copy(alloc)?;
        add_under(alloc, &mut sets, key, copy)?;
        let atoms = with_last(atoms, atom)?;
        Ok(UsedAtoms { atoms, sets })
    }
}
