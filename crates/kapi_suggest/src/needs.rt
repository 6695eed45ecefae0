//! What was used at each place, and the rules that this takes.
ghost use Rattle.std.specs.Prelude.{◌≡◌, ◌++◌, [], not, reverse, IfOk, OnOk};
ghost use Rattle.std.specs.List.{filter, flat_map, fold};
ghost use Rattle.std.specs.Option.{unwrap_or};
ghost use Rattle.kapi_suggest.specs.Needs as least;
ghost use Rattle.kapi_suggest.specs.Uses as using_of;

use crate::suggested::Suggested;
use crate::used::UsedAtoms;
use crate::user_scope::UserScope;
use kapi_access::together;
use kapi_reviews::Question;
use kapi_rules::{Atom, Names, Point, UrlAtom, resource_atom};
use kapi_text::{Memory, Sequence, Text, TryCopy};
use std::alloc::Global;
use std::collections::BTreeMap;

// ---- atoms

fn entry_of(alloc: Global, resource: &str, subresource: &str) -> Result<Text, Memory>
    ensures { IfOk result (λ t. t ≡ using_of.entry_of resource.now subresource.now) }
{
    if subresource.is_empty() {
        return Text::copy_of(alloc, resource);
    }
    Ok(Text::new(format!(in alloc; "{resource}/{subresource}")?))
}

fn names_used(alloc: Global, name: &Text) -> Result<Names, Memory>
    ensures { IfOk result (λ n. n ≡ using_of.names_used name.now) }
{
    if name.as_str().is_empty() {
        return Ok(Names::All);
    }
    Ok(Names::One(name.copy(alloc)?))
}

/// What a request asks for, as one entry of each list of a rule.
fn atom_used(alloc: Global, request: &Point) -> Result<Atom, Memory>
    ensures { IfOk result (λ a. a ≡ using_of.atom_used request.now) }
{
    match request {
        Point::Resource(point) => {
            let entry = entry_of(alloc, point.resource.as_str(), point.subresource.as_str())?;
            let names = names_used(alloc, &point.name)?;
            resource_atom(alloc, &point.verb, &point.group, &entry, names)
        }
        Point::Url(point) => Ok(Atom::Url(UrlAtom {
            verb: point.verb.copy(alloc)?,
            url: point.path.copy(alloc)?,
        })),
    }
}

/// The atoms with one more, unless one implies it.
#[tactic(auto, unfolding(crate::specs::Needs::with_atom))]
fn with_atom(alloc: Global, atoms: UsedAtoms, atom: Atom) -> Result<UsedAtoms, Memory>
    ensures { IfOk result (λ u. u ≡ least.with_atom atoms atom) }
{
    if atoms.imply(alloc, &atom)? {
        return Ok(atoms);
    }
    atoms.with(alloc, atom)
}

/// The atoms that none before them implies.
fn each_new(alloc: Global, atoms: Vec<Atom>) -> Result<UsedAtoms, Memory>
    ensures { IfOk result (λ u. u ≡ fold least.with_atom [] atoms.items) }
{
    let mut kept = UsedAtoms::new(alloc);
    for atom in atoms {
        kept = with_atom(alloc, kept, atom)?;
    }
    Ok(kept)
}

/// The atoms that none behind them implies.
fn widest(alloc: Global, atoms: &UsedAtoms) -> Result<Vec<Atom>, Memory>
    ensures { IfOk result (λ v. v.items ≡ least.widest atoms.now) }
{
    let mut atoms = atoms.copies(alloc)?;
    atoms.reverse();
    let mut widest = each_new(alloc, atoms)?.into_vec();
    widest.reverse();
    Ok(widest)
}

// ---- places

fn place_used(alloc: Global, used: &Question) -> Result<UserScope, Memory>
    ensures { IfOk result (λ p. p ≡ least.place_used used.now) }
{
    Ok(UserScope {
        user: used.identity.user.copy(alloc)?,
        namespace: used.namespace.copy(alloc)?,
    })
}

fn atoms_in(alloc: Global, found: Option<UsedAtoms>) -> UsedAtoms
    ensures { result ≡ unwrap_or found [] }
{
    match found {
        Some(atoms) => atoms,
        None => UsedAtoms::new(alloc),
    }
}

#[tactic(auto, unfolding(crate::specs::Needs::with_use))]
fn add_use(
    alloc: Global,
    list: &mut BTreeMap<UserScope, UsedAtoms>,
    used: &Question,
) -> Result<(), Memory>
    ensures { OnOk result (list.new.entries ≡ least.with_use list.old.entries used.now) }
{
    if used.identity.is_master() {
        return Ok(());
    }
    let place = place_used(alloc, used)?;
    let atom = atom_used(alloc, &used.point)?;
    let atoms = atoms_in(alloc, list.remove(&place));
    let atoms = with_atom(alloc, atoms, atom)?;
    drop(list.insert(place, atoms)?);
    Ok(())
}

fn used_at_places(
    alloc: Global,
    uses: &[Question],
) -> Result<BTreeMap<UserScope, UsedAtoms>, Memory>
    ensures { IfOk result (λ m. m.entries ≡ least.used uses.now) }
{
    let mut list = BTreeMap::new(alloc);
    for used in uses {
        add_use(alloc, &mut list, used)?;
    }
    Ok(list)
}

// ---- what is needed

/// What the user of a place in a namespace used cluster-wide.
fn used_everywhere<'a>(
    alloc: Global,
    list: &'a BTreeMap<UserScope, UsedAtoms>,
    place: &UserScope,
    nothing: &'a UsedAtoms,
) -> Result<&'a UsedAtoms, Memory>
    requires { nothing.now ≡ [] }
    ensures { IfOk result (λ u. u.now ≡ least.used_everywhere list.now.entries place.now) }
{
    if place.namespace.as_str().is_empty() {
        return Ok(nothing);
    }
    let everywhere = UserScope {
        user: place.user.copy(alloc)?,
        namespace: Text::copy_of(alloc, "")?,
    };
    match list.get(&everywhere) {
        Some(atoms) => Ok(atoms),
        None => Ok(nothing),
    }
}

fn without_implied(alloc: Global, atoms: Vec<Atom>, by: &UsedAtoms) -> Result<Vec<Atom>, Memory>
    ensures { IfOk result (λ v. v.items ≡ filter (λ a. not (least.is_implied by.now a)) atoms.items) }
{
    let mut kept = Vec::new(alloc);
    for atom in atoms {
        if !by.imply(alloc, &atom)? {
            kept.push(atom)?;
        }
    }
    Ok(kept)
}

/// The atoms needed at a place, given those used there.
fn needed_at(
    alloc: Global,
    list: &BTreeMap<UserScope, UsedAtoms>,
    place: &UserScope,
    atoms: &UsedAtoms,
) -> Result<Vec<Atom>, Memory>
    ensures { IfOk result (λ v. v.items ≡ least.needed_at list.now.entries (place.now, atoms.now)) }
{
    let nothing = UsedAtoms::new(alloc);
    let everywhere = used_everywhere(alloc, list, place, &nothing)?;
    without_implied(alloc, widest(alloc, atoms)?, everywhere)
}

fn push_suggested(
    alloc: Global,
    suggested: &mut Vec<Suggested>,
    list: &BTreeMap<UserScope, UsedAtoms>,
    place: &UserScope,
    atoms: &UsedAtoms,
) -> Result<(), Memory>
    ensures { OnOk result (suggested.new.items ≡ suggested.old.items ++ least.suggested_at list.now.entries (place.now, atoms.now)) }
{
    let needed = needed_at(alloc, list, place, atoms)?;
    if needed.is_empty() {
        return Ok(());
    }
    let rules = Sequence::new(together(alloc, needed.as_slice())?);
    let at = place.copy(alloc)?;
    suggested.push(Suggested { at, rules })?;
    Ok(())
}

fn suggested_at_places(
    alloc: Global,
    list: &BTreeMap<UserScope, UsedAtoms>,
) -> Result<Vec<Suggested>, Memory>
    ensures { IfOk result (λ v. v.items ≡ flat_map (least.suggested_at list.now.entries) list.now.entries) }
{
    let mut suggested = Vec::new(alloc);
    for (place, atoms) in list {
        push_suggested(alloc, &mut suggested, list, place, atoms)?;
    }
    Ok(suggested)
}

/// The rules for what was used, in the order of users and namespaces: for each place those of the atoms that were used there and not
/// everywhere, put together. The uses of members of `system:masters` need none.
#[tactic(auto, unfolding(crate::specs::Needs::suggested))]
pub fn suggest(alloc: Global, uses: &[Question]) -> Result<Vec<Suggested>, Memory>
    ensures { IfOk result (λ v. v.items ≡ least.suggested uses.now) }
{
    let list = used_at_places(alloc, uses)?;
    suggested_at_places(alloc, &list)
}
