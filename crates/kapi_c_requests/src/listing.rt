//! Answers about a whole policy: who may do something, what somebody has, who may gain more, what somebody lacks of a role,
//! and what other objects give besides.
ghost use Rattle.std.specs.Prelude.{◌≡◌, ◌++◌, ℕ, List, IfOk, OnOk};
ghost use Rattle.std.specs.List.{flat_map, list_all};
ghost use Rattle.kapi_text.specs.ResultIs.{ResultIs};
ghost use Rattle.kapi_paths.specs.Rights.{is_kind as is_kind_of_rights};
ghost use Rattle.kapi_c_requests.specs.Faults.{model_of_fault};
ghost use Rattle.kapi_c_requests.specs.Lists as lists;
ghost use Rattle.kapi_c_requests.specs.Views.{told};

use crate::answering::NumberedText;
use crate::fault::CallFault;
use crate::passed::{CQuestion, Call};
use crate::reading::{read_identity, read_question, read_text, read_texts, text_in};
use kapi_engine::{
    Form, Holder, Identities, LoadedPolicy, Scope, ScopedPoint, Shown, StartError, compare, load,
};
use kapi_model::{RoleKind, RoleRef};
use kapi_paths::is_kind;
use kapi_reply::atom_list;
use kapi_rules::{Atom, Point};
use kapi_text::{Memory, Sequence, Text};
use std::alloc::Global;

/// A text, and whether the roles are settled.
pub fn settled_with(loaded: &LoadedPolicy, text: Vec<u8>) -> NumberedText
    ensures { told result ≡ lists.settled_with loaded.now text.items }
{
    NumberedText {
        number: u32::from(loaded.settled),
        text,
    }
}

// ---- who may do something

/// Where it is asked about: a path cluster-wide, a resource anywhere, in its namespace, or cluster-wide if that is empty.
fn scope_of(anywhere: bool, namespace: Text, point: &Point) -> Scope
    ensures { result ≡ lists.scope_of anywhere namespace point.now }
{
    match point {
        Point::Url(_point) => Scope::Cluster,
        Point::Resource(_point) => {
            if anywhere {
                return Scope::Everywhere;
            }
            if namespace.as_str().is_empty() {
                return Scope::Cluster;
            }
            Scope::Namespace(namespace)
        }
    }
}

/// Who may do what is asked, whoever the user is.
#[tactic(auto, unfolding(crate::specs::Lists::who_given))]
fn who(
    alloc: Global,
    loaded: &LoadedPolicy,
    form: Form,
    anywhere: bool,
    passed: &CQuestion<'_>,
) -> Result<NumberedText, CallFault>
    ensures { ResultIs model_of_fault told result (lists.who_given loaded.now form anywhere passed.now) }
{
    let asked = read_question(alloc, passed)?;
    let scope = scope_of(anywhere, asked.namespace, &asked.point);
    let wanted = ScopedPoint {
        scope,
        point: asked.point,
    };
    Ok(settled_with(loaded, loaded.who(alloc, form, &wanted)?))
}

// ---- what somebody has

/// A namespace, unless it is empty.
fn within(namespace: Text) -> Option<Text>
    ensures { result ≡ lists.within namespace }
{
    if namespace.as_str().is_empty() {
        return None;
    }
    Some(namespace)
}

/// What the user has in the namespace, or everywhere if that is empty.
#[tactic(auto, unfolding(crate::specs::Lists::what_given))]
fn what(
    alloc: Global,
    loaded: &LoadedPolicy,
    form: Form,
    passed: &CQuestion<'_>,
) -> Result<NumberedText, CallFault>
    ensures { ResultIs model_of_fault told result (lists.what_given loaded.now form passed.now) }
{
    let identity = read_identity(alloc, passed)?;
    let namespace = read_text(alloc, passed.namespace)?;
    let holder = Holder {
        identity,
        within: within(namespace),
    };
    Ok(settled_with(loaded, loaded.what(alloc, form, &holder)?))
}

// ---- risks and paths

/// Who may gain more than the policy gives.
fn risks(alloc: Global, loaded: &LoadedPolicy, form: Form) -> Result<NumberedText, Memory>
    ensures { IfOk result (λ g. told g ≡ lists.risks_given loaded.now form) }
{
    Ok(settled_with(loaded, loaded.risks(alloc, form)?))
}

fn are_kinds(words: &[Text]) -> bool
    ensures { result ≡ list_all is_kind_of_rights words.now }
{
    words.iter().all(|word| is_kind(word.as_str()))
}

/// The kinds of rights that are left out.
#[tactic(auto, unfolding(crate::specs::Lists::kinds_of))]
fn read_kinds(alloc: Global, call: &Call<'_>) -> Result<Sequence<Text>, CallFault>
    ensures { ResultIs model_of_fault (λ t. t) result (lists.kinds_of call.now) }
{
    let kinds = read_texts(alloc, call.without)?;
    if are_kinds(kinds.as_slice()) {
        Ok(kinds)
    } else {
        Err(CallFault::Question)
    }
}

/// Who can become whom.
#[tactic(auto, unfolding(crate::specs::Lists::paths_given))]
pub fn paths(
    alloc: Global,
    loaded: &LoadedPolicy,
    call: &Call<'_>,
) -> Result<NumberedText, CallFault>
    ensures { (text : List ℕ) × ResultIs model_of_fault told result (lists.paths_given text loaded.now call.now) × IfOk result (λ _. lists.ArePaths text loaded.now call.now) }
{
    let form = form_of(call.form)?;
    let to = text_in(call.other)?;
    let without = read_kinds(alloc, call)?;
    let text = loaded.paths(alloc, form, to, without.as_slice())?;
    Ok(settled_with(loaded, text))
}

// ---- what somebody lacks

fn push_atom(alloc: Global, text: &mut Vec<u8>, atom: &Atom) -> Result<(), Memory>
    ensures { OnOk result (text.new.items ≡ text.old.items ++ lists.atom_line atom.now) }
{
    let written = atom_list(alloc, atom)?.to_vec(alloc)?;
    text.extend_from_slice(written.as_slice())?;
    text.extend_from_slice(b"\n")
}

/// A line for each atom.
fn atom_lines(alloc: Global, atoms: &[Atom]) -> Result<Vec<u8>, Memory>
    ensures { IfOk result (λ v. v.items ≡ flat_map lists.atom_line atoms.now) }
{
    let mut text = Vec::new(alloc);
    for atom in atoms {
        push_atom(alloc, &mut text, atom)?;
    }
    Ok(text)
}

/// Whether nothing is missing, and a line for each atom that is.
fn lacking(alloc: Global, atoms: &[Atom]) -> Result<NumberedText, Memory>
    ensures { IfOk result (λ g. told g ≡ lists.lacking_told atoms.now) }
{
    Ok(NumberedText {
        number: u32::from(atoms.is_empty()),
        text: atom_lines(alloc, atoms)?,
    })
}

/// The role that is meant.
#[tactic(auto, unfolding(crate::specs::Lists::role_in))]
fn role_in(alloc: Global, passed: &CQuestion<'_>) -> Result<RoleRef, CallFault>
    ensures { ResultIs model_of_fault (λ r. r) result (lists.role_in passed.now) }
{
    let kind = text_in(passed.resource)?;
    let name = read_text(alloc, passed.name)?;
    match RoleKind::read(kind) {
        Some(kind) => Ok(RoleRef { kind, name }),
        None => Err(CallFault::Question),
    }
}

/// What the user lacks of the role.
#[tactic(auto, unfolding(crate::specs::Lists::missing_given))]
fn missing(
    alloc: Global,
    loaded: &LoadedPolicy,
    passed: &CQuestion<'_>,
) -> Result<NumberedText, CallFault>
    ensures { ResultIs model_of_fault told result (lists.missing_given loaded.now passed.now) }
{
    let identity = read_identity(alloc, passed)?;
    let namespace = read_text(alloc, passed.namespace)?;
    let role = role_in(alloc, passed)?;
    match loaded.missing(alloc, &identity, namespace.as_str(), &role)? {
        Some(atoms) => Ok(lacking(alloc, atoms.as_slice())?),
        None => Err(CallFault::Question),
    }
}

// ---- what other objects give

/// What the later policy gives that the earlier one does not.
fn gains_over(
    alloc: Global,
    loaded: &LoadedPolicy,
    form: Form,
    after: &LoadedPolicy,
) -> Result<NumberedText, Memory>
    ensures { IfOk result (λ g. told g ≡ lists.gains_told form loaded.now after.now) }
{
    let compared = compare(alloc, form, Shown::Rules, Identities::Any, loaded, after)?;
    let is_none = !compared.gains && loaded.settled && after.settled;
    Ok(NumberedText {
        number: u32::from(is_none),
        text: compared.text,
    })
}

/// The fault of objects that are not loaded.
fn other_fault(fault: StartError) -> CallFault
    ensures { result ≡ lists.other_fault fault }
{
    match fault {
        StartError::Line(number) => CallFault::Line(number),
        StartError::Memory => CallFault::Memory,
    }
}

/// What the policy of the objects gives that this one does not.
#[tactic(auto, unfolding(crate::specs::Lists::gains_given))]
fn gains(
    alloc: Global,
    loaded: &LoadedPolicy,
    form: Form,
    objects: &[u8],
) -> Result<NumberedText, CallFault>
    ensures { ResultIs model_of_fault told result (lists.gains_given loaded.now form objects.now) }
{
    match load(alloc, objects) {
        Ok(after) => Ok(gains_over(alloc, loaded, form, &after)?),
        Err(fault) => Err(other_fault(fault)),
    }
}

// ---- by what is wanted

/// How a text is printed.
fn form_of(number: u32) -> Result<Form, CallFault>
    ensures { ResultIs model_of_fault (λ f. f) result (lists.form_of number) }
{
    match number {
        0 => Ok(Form::Table),
        1 => Ok(Form::Markdown),
        2 => Ok(Form::Json),
        _ => Err(CallFault::Question),
    }
}

/// The text that is wanted, of those but paths.
#[tactic(auto, unfolding(crate::specs::Lists::listed))]
pub fn list(
    alloc: Global,
    loaded: &LoadedPolicy,
    call: &Call<'_>,
) -> Result<NumberedText, CallFault>
    ensures { ResultIs model_of_fault told result (lists.listed loaded.now call.now) }
{
    let form = form_of(call.form)?;
    match call.wants {
        3 => who(alloc, loaded, form, false, &call.question),
        4 => who(alloc, loaded, form, true, &call.question),
        5 => what(alloc, loaded, form, &call.question),
        6 => Ok(risks(alloc, loaded, form)?),
        8 => missing(alloc, loaded, &call.question),
        9 => gains(alloc, loaded, form, call.other),
        _ => Err(CallFault::Question),
    }
}
