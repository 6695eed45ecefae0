//! Gains put together by the rules that give them.
ghost use Rattle.std.specs.Prelude.{◌≡◌, ◌++◌, ◌∷◌, [], map, IfOk, OnOk};
ghost use Rattle.std.specs.List.{flat_map, fold};
ghost use Rattle.kapi_access.specs.Gained.{by_rule as by_rule_of, is_alike as is_alike_of, rules_gained, with_gain};
ghost use Rattle.kapi_access.specs.Views.{gain_of, gained_atoms_of, gained_rule_of};
ghost use Rattle.kapi_access.specs.Who.{same_grantee as same_grantee_of};

use crate::gained::Gain;
use crate::grantee::Grantee;
use crate::merge_rules::together;
use crate::way::again;
use kapi_model::PolicyRule;
use kapi_policy::Binding;
use kapi_rules::Atom;
use kapi_text::{Memory, TryCopy};
use std::alloc::Global;

/// The atoms that a user or group gains by a binding and one rule of its role, given by its index.
#[derive(Drop)]
struct GainedAtoms<'a> {
    to: Grantee,
    binding: Binding<'a>,
    rule: usize,
    atoms: Vec<Atom>,
}

/// A user or group that gains what a rule allows, and by what: a binding, and a rule of its role.
#[derive(Drop)]
pub struct GainedRule<'a> {
    pub to: Grantee,
    pub binding: Binding<'a>,
    /// The index of the rule among the role's own, from 0.
    pub rule: usize,
    pub gain: PolicyRule,
}

fn same_grantee(a: &Grantee, b: &Grantee) -> bool
    ensures { result ≡ same_grantee_of a.now b.now }
{
    match (a, b) {
        (Grantee::User(x), Grantee::User(y)) => x == y,
        (Grantee::Group(x), Grantee::Group(y)) => x == y,
        _ => false,
    }
}

fn is_alike(line: &GainedAtoms<'_>, gain: &Gain<'_>) -> bool
    ensures { result ≡ is_alike_of (gained_atoms_of line.now) (gain_of gain.now) }
{
    line.rule == gain.rule
        && (same_grantee(&line.to, &gain.to)
            && (line.binding.namespace == gain.binding.namespace
                && line.binding.name == gain.binding.name))
}

fn one_atom(alloc: Global, gain: Gain<'_>) -> Result<GainedAtoms<'_>, Memory>
    ensures { IfOk result (λ l. gained_atoms_of l ≡ record { to = (gain_of gain.entry).to; binding = (gain_of gain.entry).binding; rule = (gain_of gain.entry).rule; atoms = (gain_of gain.entry).gain ∷ [] }) }
{
    let mut atoms = Vec::new(alloc);
    atoms.push(gain.gain)?;
    Ok(GainedAtoms {
        to: gain.to,
        binding: gain.binding,
        rule: gain.rule,
        atoms,
    })
}

// Puts the gain into the last line if it is alike, else into one of its own.
#[tactic(auto, unfolding(crate::specs::Gained::with_gain))]
fn add_gain<'a>(
    alloc: Global,
    lines: &mut Vec<GainedAtoms<'a>>,
    gain: Gain<'a>,
) -> Result<(), Memory>
    ensures { OnOk result (map gained_atoms_of lines.new.items ≡ with_gain (map gained_atoms_of lines.old.items) (gain_of gain.entry)) }
{
    let Some(last) = lines.pop() else {
        lines.push(one_atom(alloc, gain)?)?;
        return Ok(());
    };
    if !is_alike(&last, &gain) {
        lines.push(last)?;
        lines.push(one_atom(alloc, gain)?)?;
        return Ok(());
    }
    let mut last = last;
    last.atoms.push(gain.gain)?;
    lines.push(last)?;
    Ok(())
}

#[tactic(auto, using(crate::proofs::Lists::fold_last))]
fn atoms_by_rule<'a>(alloc: Global, gains: Vec<Gain<'a>>) -> Result<Vec<GainedAtoms<'a>>, Memory>
    ensures { IfOk result (λ v. map gained_atoms_of v.items ≡ fold with_gain [] (map gain_of gains.entry.items)) }
{
    let mut lines = Vec::new(alloc);
    for gain in gains {
        add_gain(alloc, &mut lines, gain)?;
    }
    Ok(lines)
}

fn push_rules<'a>(
    alloc: Global,
    list: &mut Vec<GainedRule<'a>>,
    line: &GainedAtoms<'a>,
) -> Result<(), Memory>
    ensures { OnOk result (map gained_rule_of list.new.items ≡ map gained_rule_of list.old.items ++ rules_gained (gained_atoms_of line.now)) }
{
    for rule in together(alloc, line.atoms.as_slice())? {
        list.push(GainedRule {
            to: line.to.copy(alloc)?,
            binding: again(&line.binding),
            rule: line.rule,
            gain: rule,
        })?;
    }
    Ok(())
}

fn rules_of<'a>(alloc: Global, lines: &[GainedAtoms<'a>]) -> Result<Vec<GainedRule<'a>>, Memory>
    ensures { IfOk result (λ v. map gained_rule_of v.items ≡ flat_map rules_gained (map gained_atoms_of lines.now)) }
{
    let mut list = Vec::new(alloc);
    for line in lines {
        push_rules(alloc, &mut list, line)?;
    }
    Ok(list)
}

/// The gains in their order, those of one user or group by one binding and rule put together to rules.
#[tactic(auto, unfolding(crate::specs::Gained::by_rule))]
pub fn by_rule<'a>(alloc: Global, gains: Vec<Gain<'a>>) -> Result<Vec<GainedRule<'a>>, Memory>
    ensures { IfOk result (λ v. map gained_rule_of v.items ≡ by_rule_of (map gain_of gains.entry.items)) }
{
    let lines = atoms_by_rule(alloc, gains)?;
    rules_of(alloc, lines.as_slice())
}
