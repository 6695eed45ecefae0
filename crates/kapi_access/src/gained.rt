//! What one policy gives that another did not.
ghost use Rattle.std.specs.Prelude.{◌≡◌, ◌++◌, map, IfOk, OnOk, Some};
ghost use Rattle.std.specs.List.{flat_map};
ghost use Rattle.kapi_rules.specs.Atoms.{after_slash};
ghost use Rattle.kapi_policy.specs.All.{all_bindings};
ghost use Rattle.kapi_policy.specs.Views.{binding_of};
ghost use Rattle.kapi_access.specs.Gained.{can_match as can_match_of, gained, gained_as, gained_from, is_nothing, lines_by, lines_of};
ghost use Rattle.kapi_access.specs.Grantees.{alone as alone_of, unbound_user as unbound_user_of};
ghost use Rattle.kapi_access.specs.Earlier.{AreAmong, bindings_at};
ghost use Rattle.kapi_access.specs.Views.{gain_of, line_for};

use crate::default_groups::{Alone, unbound_user};
use crate::earlier::{first_gives_same, from_place};
use crate::grantee::{Grantee, grantees};
use crate::identities::Identities;
use crate::way::{again, rules_by};
use kapi_missing::missing;
use kapi_model::{Identity, PolicyRule};
use kapi_policy::{Binding, Policy};
use kapi_rules::Atom;
use kapi_text::{Memory, TryCopy};
use std::alloc::Global;

/// A user or group that gains an atom, and by what: a binding, and a rule of its role.
#[derive(Drop)]
pub struct Gain<'a> {
    pub to: Grantee,
    pub binding: Binding<'a>,
    /// The index of the rule among the role's own, from 0.
    pub rule: usize,
    pub gain: Atom,
}

// ---- atoms that requests match

fn is_end(rest: &[u8]) -> bool
    ensures { result ≡ is_nothing (Some rest.now) }
{
    match rest {
        [] => true,
        _ => false,
    }
}

// The first slash of the text is its last byte.
fn ends_at_slash(text: &[u8]) -> bool
    ensures { result ≡ is_nothing (after_slash text.now) }
{
    let mut rest = text;
    while let [first, after @ ..] = rest {
        if *first == b'/' {
            return is_end(after);
        }
        rest = after;
    }
    false
}

fn can_match(namespace: &str, atom: &Atom) -> bool
    ensures { result ≡ can_match_of namespace.now atom.now }
{
    match atom {
        Atom::Resource(resource) => !ends_at_slash(resource.resource.as_str().as_bytes()),
        Atom::Url(_) => namespace.is_empty(),
    }
}

// ---- lines

#[tactic(auto, unfolding(crate::specs::Views::line_for))]
fn push_atom<'a>(
    alloc: Global,
    list: &mut Vec<Gain<'a>>,
    to: &Grantee,
    binding: &Binding<'a>,
    rule: usize,
    atom: &Atom,
) -> Result<(), Memory>
    ensures { OnOk result (map gain_of list.new.items ≡ map gain_of list.old.items ++ line_for to.now (binding_of binding.now) rule atom.now) }
{
    if can_match(binding.namespace, atom) {
        list.push(Gain {
            to: to.copy(alloc)?,
            binding: again(binding),
            rule,
            gain: atom.copy(alloc)?,
        })?;
    }
    Ok(())
}

fn push_atoms<'a>(
    alloc: Global,
    list: &mut Vec<Gain<'a>>,
    to: &Grantee,
    binding: &Binding<'a>,
    rule: usize,
    atoms: &[Atom],
) -> Result<(), Memory>
    ensures { OnOk result (map gain_of list.new.items ≡ map gain_of list.old.items ++ flat_map (line_for to.now (binding_of binding.now) rule) atoms.now) }
{
    for atom in atoms {
        push_atom(alloc, list, to, binding, rule, atom)?;
    }
    Ok(())
}

#[tactic(auto, unfolding(crate::specs::Gained::new_atoms), using(crate::proofs::Walks::lines_alike))]
fn push_rule<'a>(
    alloc: Global,
    list: &mut Vec<Gain<'a>>,
    own: &[PolicyRule],
    to: &Grantee,
    binding: &Binding<'a>,
    index: usize,
    rule: &PolicyRule,
) -> Result<(), Memory>
    ensures { OnOk result (map gain_of list.new.items ≡ map gain_of list.old.items ++ lines_by own.now to.now (binding_of binding.now) (index, rule.now)) }
{
    let atoms = missing(alloc, own, std::slice::from_ref(rule))?;
    push_atoms(alloc, list, to, binding, index, atoms.as_slice())
}

fn push_rules<'a>(
    alloc: Global,
    list: &mut Vec<Gain<'a>>,
    own: &[PolicyRule],
    to: &Grantee,
    binding: &Binding<'a>,
    rules: &[PolicyRule],
) -> Result<(), Memory>
    ensures { OnOk result (map gain_of list.new.items ≡ map gain_of list.old.items ++ lines_of own.now to.now (binding_of binding.now) rules.now) }
{
    for (index, rule) in rules.iter().enumerate() {
        push_rule(alloc, list, own, to, binding, index, rule)?;
    }
    Ok(())
}

fn push_gained_as<'a, P: Policy>(
    alloc: Global,
    list: &mut Vec<Gain<'a>>,
    before: &P,
    own: &Identity,
    to: &Grantee,
    binding: &Binding<'a>,
    rules: &[PolicyRule],
) -> Result<(), Memory>
    ensures { OnOk result (map gain_of list.new.items ≡ map gain_of list.old.items ++ gained_as (P.content before.now) own.now to.now (binding_of binding.now) rules.now) }
{
    if own.is_master() {
        return Ok(());
    }
    let held = before.held(own, binding.namespace)?;
    push_rules(alloc, list, held.as_slice(), to, binding, rules)
}

fn push_gained_by<'a, P: Policy>(
    alloc: Global,
    list: &mut Vec<Gain<'a>>,
    before: &P,
    alone: &Alone,
    to: &Grantee,
    binding: &Binding<'a>,
    rules: &[PolicyRule],
) -> Result<(), Memory>
    ensures { OnOk result (map gain_of list.new.items ≡ map gain_of list.old.items ++ gained_as (P.content before.now) (alone_of alone.now.identities alone.now.other to.now) to.now (binding_of binding.now) rules.now) }
{
    let own = alone.identity(alloc, to)?;
    push_gained_as(alloc, list, before, &own, to, binding, rules)
}

fn push_grantees<'a, P: Policy>(
    alloc: Global,
    list: &mut Vec<Gain<'a>>,
    before: &P,
    alone: &Alone,
    grantees: &[Grantee],
    binding: &Binding<'a>,
    rules: &[PolicyRule],
) -> Result<(), Memory>
    ensures { OnOk result (map gain_of list.new.items ≡ map gain_of list.old.items ++ flat_map (λ to. gained_as (P.content before.now) (alone_of alone.now.identities alone.now.other to) to (binding_of binding.now) rules.now) grantees.now) }
{
    for to in grantees {
        push_gained_by(alloc, list, before, alone, to, binding, rules)?;
    }
    Ok(())
}

#[tactic(auto, unfolding(crate::specs::Gained::gained_from))]
fn push_gained_from<'a, P: Policy, Q: Policy>(
    alloc: Global,
    list: &mut Vec<Gain<'a>>,
    before: &P,
    alone: &Alone,
    after: &Q,
    binding: &Binding<'a>,
) -> Result<(), Memory>
    requires { alone.now.other ≡ unbound_user_of (P.content before.now) }
    ensures { OnOk result (map gain_of list.new.items ≡ map gain_of list.old.items ++ gained_from alone.now.identities (P.content before.now) (Q.content after.now) (binding_of binding.now)) }
{
    let grantees = grantees(alloc, binding)?;
    let rules = rules_by(after, binding);
    push_grantees(
        alloc,
        list,
        before,
        alone,
        grantees.as_slice(),
        binding,
        rules,
    )
}

// By a binding that gave the same before nobody gains.
fn push_unless_earlier<'a, P: Policy, Q: Policy>(
    alloc: Global,
    list: &mut Vec<Gain<'a>>,
    before: &P,
    alone: &Alone,
    earlier: &[Binding<'_>],
    after: &Q,
    binding: &Binding<'a>,
) -> Result<(), Memory>
    requires unbound_user { alone.now.other ≡ unbound_user_of (P.content before.now) }
    requires earlier { AreAmong (bindings_at earlier.now) (all_bindings (P.content before.now)) }
    ensures { OnOk result (map gain_of list.new.items ≡ map gain_of list.old.items ++ gained_from alone.now.identities (P.content before.now) (Q.content after.now) (binding_of binding.now)) }
{
    if first_gives_same(before, earlier, after, binding) {
        return Ok(());
    }
    push_gained_from(alloc, list, before, alone, after, binding)
}

// Both lists are in their policies' order, so one walk over each finds what stood.
fn gains<'a, P: Policy, Q: Policy>(
    alloc: Global,
    before: &P,
    alone: &Alone,
    earlier: &[Binding<'_>],
    after: &Q,
    bindings: &[Binding<'a>],
) -> Result<Vec<Gain<'a>>, Memory>
    requires unbound_user { alone.now.other ≡ unbound_user_of (P.content before.now) }
    requires earlier { bindings_at earlier.now ≡ all_bindings (P.content before.now) }
    ensures { IfOk result (λ v. map gain_of v.items ≡ flat_map (λ b. gained_from alone.now.identities (P.content before.now) (Q.content after.now) (binding_of b)) bindings.now) }
{
    let mut list = Vec::new(alloc);
    let mut rest = earlier;
    for binding in bindings {
        rest = from_place(rest, binding);
        push_unless_earlier(alloc, &mut list, before, alone, rest, after, binding)?;
    }
    Ok(list)
}

/// What the policy after gives those identities that the policy before did not, given all bindings of both: a line for each user
/// and group, each binding and each atom of its role's rules that it lacked. What a binding gave before costs no more than to see
/// that it did.
pub fn compare<'a, P: Policy, Q: Policy>(
    alloc: Global,
    identities: Identities,
    before: &P,
    earlier: &[Binding<'_>],
    after: &Q,
    bindings: &[Binding<'a>],
) -> Result<Vec<Gain<'a>>, Memory>
    requires before { map binding_of earlier.now ≡ all_bindings (P.content before.now) }
    requires after { map binding_of bindings.now ≡ all_bindings (Q.content after.now) }
    ensures { IfOk result (λ v. map gain_of v.items ≡ gained identities (P.content before.now) (Q.content after.now)) }
{
    let other = unbound_user(alloc, before, earlier)?;
    let alone = Alone { identities, other };
    let list = gains(alloc, before, &alone, earlier, after, bindings)?;
    Ok(list)
}
