//! The answers as they are printed.
ghost use Rattle.std.specs.Prelude.{◌≡◌, ◌==◌, length, map, not, IfOk};
ghost use Rattle.kapi_access.specs.Gained.{gained};
ghost use Rattle.kapi_access.specs.Risks.{risks as risks_of};
ghost use Rattle.kapi_access.specs.Views.{gain_of, gained_rule_of, way_of};
ghost use Rattle.kapi_policy.specs.All.{all_bindings};
ghost use Rattle.kapi_policy.specs.Views.{binding_of};
ghost use Rattle.kapi_access.specs.Answers as answers;

use crate::allowed::who;
use crate::gained::{Gain, compare};
use crate::gained_rules::{GainedRule, by_rule};
use crate::grantee::Grantee;
use crate::identities::Identities;
use crate::question::ScopedPoint;
use crate::risky::{is_grave, risks};
use crate::way::Way;
use kapi_lines::Form;
use kapi_policy::{Binding, Policy};
use kapi_report::{Row, Words, report};
use kapi_text::Memory;
use std::alloc::Global;

/// By what a table of gains has a line.
#[derive(Clone, Copy, PartialEq, Eq)]
pub enum Shown {
    /// By the rules that the atoms make together.
    Rules,
    /// By each atom.
    Atoms,
}

// ---- gains

/// The rules that give much, and then the others.
fn grave_first<'a>(alloc: Global, gains: Vec<GainedRule<'a>>) -> Result<Vec<GainedRule<'a>>, Memory>
    ensures { IfOk result (λ v. map gained_rule_of v.items ≡ answers.grave_first (map gained_rule_of gains.entry.items)) }
{
    let mut grave = Vec::new(alloc);
    let mut others = Vec::new(alloc);
    for gain in gains {
        if is_grave(&gain.gain) {
            grave.push(gain)?;
        } else {
            others.push(gain)?;
        }
    }
    grave.append(&mut others)?;
    Ok(grave)
}

fn gains_report<R: Row>(alloc: Global, form: Form, gains: &[R]) -> Result<Vec<u8>, Memory>
    ensures { IfOk result (λ v. v.items ≡ answers.gains_report form (map R.told gains.now)) }
{
    let heads = ["SUBJECT", "NAMESPACE", "GAINS", "BY"];
    report(alloc, form, &heads, "Nobody gains.\n", &[], gains)
}

// As JSON all atoms are told.
fn shown_in(form: Form, shown: Shown) -> Shown
    ensures { result ≡ answers.shown_in form shown }
{
    match form {
        Form::Json => Shown::Atoms,
        Form::Table | Form::Markdown => shown,
    }
}

fn gains_text(
    alloc: Global,
    form: Form,
    shown: Shown,
    gains: Vec<Gain<'_>>,
) -> Result<Vec<u8>, Memory>
    ensures { IfOk result (λ v. v.items ≡ answers.gains_text form shown (map gain_of gains.entry.items)) }
{
    match shown_in(form, shown) {
        Shown::Atoms => gains_report(alloc, form, gains.as_slice()),
        Shown::Rules => {
            let rules = grave_first(alloc, by_rule(alloc, gains)?)?;
            gains_report(alloc, form, rules.as_slice())
        }
    }
}

/// What is printed of a comparison, and whether anybody gains.
#[derive(Drop)]
pub struct Compared {
    pub text: Vec<u8>,
    pub gains: bool,
}

/// What the policy after grants those identities that the policy before did not, given all bindings of both.
pub fn answer_compare<P: Policy, Q: Policy>(
    alloc: Global,
    form: Form,
    shown: Shown,
    identities: Identities,
    before: &P,
    earlier: &[Binding<'_>],
    after: &Q,
    bindings: &[Binding<'_>],
) -> Result<Compared, Memory>
    requires before { map binding_of earlier.now ≡ all_bindings (P.content before.now) }
    requires after { map binding_of bindings.now ≡ all_bindings (Q.content after.now) }
    ensures text { IfOk result (λ c. c.text.items ≡ answers.gains_text form shown (gained identities (P.content before.now) (Q.content after.now))) }
    ensures gains { IfOk result (λ c. c.gains ≡ not (length (gained identities (P.content before.now) (Q.content after.now)) == 0)) }
{
    let list = compare(alloc, identities, before, earlier, after, bindings)?;
    let gains = !list.is_empty();
    Ok(Compared {
        text: gains_text(alloc, form, shown, list)?,
        gains,
    })
}

// ---- ways

/// The group whose members may do everything, as JSON.
pub const MASTERS_OBJECT: &str = "{\"subject\":\"system:masters\",\"subjectKind\":\"Group\"}";

fn is_masters(to: &Grantee) -> bool
    ensures { result ≡ answers.is_masters to.now }
{
    match to {
        Grantee::Group(name) => name.as_str() == "system:masters",
        Grantee::User(_) => false,
    }
}

fn besides_masters<'a>(alloc: Global, ways: Vec<Way<'a>>) -> Result<Vec<Way<'a>>, Memory>
    ensures { IfOk result (λ v. map way_of v.items ≡ answers.besides_masters (map way_of ways.entry.items)) }
{
    let mut list = Vec::new(alloc);
    for way in ways {
        if !is_masters(&way.to) {
            list.push(way)?;
        }
    }
    Ok(list)
}

fn ways_text(alloc: Global, form: Form, ways: Vec<Way<'_>>) -> Result<Vec<u8>, Memory>
    ensures { IfOk result (λ v. v.items ≡ answers.ways_text form (map way_of ways.entry.items)) }
{
    let heads = ["SUBJECT", "NAMESPACE", "BINDING", "RULE"];
    let masters = Words {
        cells: &["Group system:masters", "*", "-", "everything"],
        object: MASTERS_OBJECT,
    };
    let others = besides_masters(alloc, ways)?;
    report(alloc, form, &heads, "", &[masters], others.as_slice())
}

/// Who may do what is asked, given all bindings of the policy: a line for each user and group, or everywhere one for each scope.
pub fn answer_who<P: Policy>(
    alloc: Global,
    form: Form,
    policy: &P,
    bindings: &[Binding<'_>],
    wanted: &ScopedPoint,
) -> Result<Vec<u8>, Memory>
    requires { map binding_of bindings.now ≡ all_bindings (P.content policy.now) }
    ensures { IfOk result (λ v. v.items ≡ answers.who_text form (P.content policy.now) wanted.now) }
{
    let list = who(alloc, policy, bindings, &wanted.scope, &wanted.point)?;
    ways_text(alloc, form, list)
}

/// Who may gain more than the policy gives, given all its bindings: a line for each user and group and each scope in which it may.
pub fn answer_risks<P: Policy>(
    alloc: Global,
    form: Form,
    policy: &P,
    bindings: &[Binding<'_>],
) -> Result<Vec<u8>, Memory>
    requires { map binding_of bindings.now ≡ all_bindings (P.content policy.now) }
    ensures { IfOk result (λ v. v.items ≡ answers.ways_text form (risks_of (P.content policy.now))) }
{
    let list = risks(alloc, policy, bindings)?;
    ways_text(alloc, form, list)
}

/// The last line of risks: what holds of all who are not listed, if the roles are settled.
pub fn settled_line(form: Form, settled: bool) -> &'static [u8]
    ensures { result.now ≡ answers.settled_line form settled }
{
    match (form, settled) {
        (Form::Table, true) =>
            b"Through roles and bindings, nothing that others without the verb impersonate write lets anybody do what neither that one nor any of them was allowed. kapi paths lists other ways.\n",
        (Form::Table, false) =>
            b"The roles are not settled after 64 turns, so that nothing is said of all others.\n",
        (Form::Markdown, true) =>
            b"\nThrough roles and bindings, nothing that others without the verb impersonate write lets anybody do what neither that one nor any of them was allowed. kapi paths lists other ways.\n",
        (Form::Markdown, false) =>
            b"\nThe roles are not settled after 64 turns, so that nothing is said of all others.\n",
        (Form::Json, true) => b"{\"settled\":true}\n",
        (Form::Json, false) => b"{\"settled\":false}\n",
    }
}
