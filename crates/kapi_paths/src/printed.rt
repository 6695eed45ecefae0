//! Paths as they are printed.
ghost use Rattle.std.specs.Prelude.{◌≡◌, ◌++◌, ◌∷◌, [], IfOk, OnOk, map, option_map, string_bytes};
ghost use Rattle.std.specs.List.{find, flat_map};
ghost use Rattle.serde_json.specs.View.{items_of, items_view, view};
ghost use Rattle.kapi_policy.specs.Views.{binding_of};
ghost use Rattle.kapi_paths.specs.Asked.{rules_at as rules_at_of};
ghost use Rattle.kapi_paths.specs.Printed as printed;
ghost use Rattle.kapi_paths.specs.Printed.{IsAnswer, reason_of};
ghost use Rattle.kapi_paths.specs.Rights.{rights_without as rows_without, row_of};
ghost use Rattle.kapi_paths.specs.Steps.{held_kind as held_kind_of};

use crate::bound::Bound;
use crate::gathered::known_of;
use crate::node::{Node, NodeKind};
use crate::path::{Path, is_listed, paths};
use crate::right::{Right, rights_without};
use crate::steps::{Question, held_kind, identity_of, is_bound, push_by_right, rules_held};
use kapi_lines::Form;
use kapi_model::{Identity, PolicyRule, RoleKind, RoleRef};
use kapi_policy::{Binding, BindingKind, Policy};
use kapi_report::escape;
use kapi_text::{Memory, Text, TryCopy};
use serde_json::{Value, json};
use std::alloc::Global;

/// What no path takes into account.
const UNSEEN: &str =
    "Not looked at: pod security, admission, the rights of nodes, and what runs in the cluster.\n";

/// What begins and ends a block of text in Markdown.
const FENCE: &str = "```\n";

/// A step as it is printed: by which right, given by what, and to whom.
#[derive(Drop)]
struct Step {
    right: Text,
    by: Text,
    to: Text,
}

/// A right that leads from a role to a node, and the index of its rule.
#[derive(Clone, Copy)]
struct Reason {
    rule: usize,
    right: Right,
}

// ---- names

fn place_of(place: &str) -> &str
    ensures { result.now ≡ printed.place_of place.now }
{
    if place.is_empty() {
        "every namespace"
    } else {
        place
    }
}

fn held_at(alloc: Global, what: &str, place: &str) -> Result<String, Memory>
    ensures { IfOk result (λ s. string_bytes s ≡ printed.held_at what.now place.now) }
{
    if place.is_empty() {
        return format!(in alloc; "{what} cluster-wide");
    }
    format!(in alloc; "{what} in {place}")
}

fn role_text(alloc: Global, role: &Node) -> Result<String, Memory>
    ensures { IfOk result (λ s. string_bytes s ≡ printed.role_text role.now.kind role.now.name) }
{
    let name = role.name.as_str();
    match role.kind {
        NodeKind::Role => format!(in alloc; "Role {name}"),
        _ => format!(in alloc; "ClusterRole {name}"),
    }
}

fn node_text(alloc: Global, node: &Node) -> Result<Text, Memory>
    ensures { IfOk result (λ t. t ≡ printed.node_text node.now) }
{
    let name = node.name.as_str();
    let namespace = node.place.as_str();
    let place = place_of(namespace);
    let text = match node.kind {
        NodeKind::Everything => String::from_str(alloc, "everything")?,
        NodeKind::EveryUser => String::from_str(alloc, "every user")?,
        NodeKind::All => format!(in alloc; "all in {place}")?,
        NodeKind::Accounts => format!(in alloc; "accounts of {place}")?,
        NodeKind::Limits => format!(in alloc; "limits of {place}")?,
        NodeKind::User => format!(in alloc; "User {name}")?,
        NodeKind::Group => format!(in alloc; "Group {name}")?,
        NodeKind::Account => format!(in alloc; "ServiceAccount {namespace}/{name}")?,
        NodeKind::Role | NodeKind::ClusterRole => {
            held_at(alloc, role_text(alloc, node)?.as_str(), namespace)?
        }
    };
    Ok(Text::new(text))
}

fn binding_text(alloc: Global, binding: &Binding<'_>) -> Result<Text, Memory>
    ensures { IfOk result (λ t. t ≡ printed.binding_text (binding_of binding.now)) }
{
    let namespace = binding.namespace;
    let name = binding.name;
    let text = match binding.kind {
        BindingKind::RoleBinding => format!(in alloc; "RoleBinding {namespace}/{name}")?,
        BindingKind::ClusterRoleBinding => format!(in alloc; "ClusterRoleBinding {name}")?,
    };
    Ok(Text::new(text))
}

fn right_words(alloc: Global, right: &Right) -> Result<String, Memory>
    ensures { IfOk result (λ s. string_bytes s ≡ printed.right_words (row_of right.now)) }
{
    let verb = right.1;
    let resource = right.3;
    let subresource = right.4;
    if subresource.is_empty() {
        return format!(in alloc; "{verb} {resource}");
    }
    format!(in alloc; "{verb} {resource}/{subresource}")
}

fn right_text(alloc: Global, right: &Right, place: &str) -> Result<Text, Memory>
    ensures { IfOk result (λ t. t ≡ printed.right_text (row_of right.now) place.now) }
{
    Ok(Text::new(held_at(alloc, right_words(alloc, right)?.as_str(), place)?))
}

fn by_text(alloc: Global, binding: &str, role: &Node, rule: usize) -> Result<Text, Memory>
    ensures { IfOk result (λ t. t ≡ printed.by_text binding.now (printed.role_text role.now.kind role.now.name) rule) }
{
    let role = role_text(alloc, role)?;
    let role = role.as_str();
    if binding.is_empty() {
        return Ok(Text::new(format!(in alloc; "{role}, rule {rule}")?));
    }
    Ok(Text::new(format!(in alloc; "{binding}, {role}, rule {rule}")?))
}

// ---- reasons

fn gives(binding: &Binding<'_>, identity: &Identity, role: &Node) -> bool
    ensures { result ≡ printed.gives identity.now role.now (binding_of binding.now) }
{
    (held_kind(binding.role.kind) == role.kind
        && (binding.namespace == role.place.as_str() && binding.role.name == role.name))
        && is_bound(binding, identity)
}

// The first binding that gives the node the role.
fn binding_to(alloc: Global, bindings: &Bound<'_>, from: &Node, role: &Node) -> Result<Text, Memory>
    ensures { IfOk result (λ t. t ≡ printed.binding_to bindings.now from.now role.now) }
{
    let identity = identity_of(alloc, from)?;
    for binding in bindings.list() {
        if gives(binding, &identity, role) {
            return binding_text(alloc, binding);
        }
    }
    Text::copy_of(alloc, "")
}

fn leads<P: Policy>(
    alloc: Global,
    asked: &Question<'_, P>,
    place: &str,
    rule: &PolicyRule,
    right: &Right,
    to: &Node,
) -> Result<bool, Memory>
    ensures { IfOk result (λ b. b ≡ printed.leads asked.now.known.now place.now to.now rule.now (row_of right.now)) }
{
    let mut list = Vec::new(alloc);
    push_by_right(alloc, &mut list, asked.known, place, rule, right)?;
    Ok(list.iter().any(|node| node == to))
}

fn first_right<P: Policy>(
    alloc: Global,
    asked: &Question<'_, P>,
    place: &str,
    rule: &PolicyRule,
    to: &Node,
) -> Result<Option<Right>, Memory>
    ensures { IfOk result (λ o. option_map row_of o ≡ find (printed.leads asked.now.known.now place.now to.now rule.now) (map row_of asked.now.rights.now)) }
{
    for right in asked.rights {
        if leads(alloc, asked, place, rule, right, to)? {
            return Ok(Some(*right));
        }
    }
    Ok(None)
}

// The rules of a role; another node has none.
fn rules_at<'a, P: Policy>(
    alloc: Global,
    policy: &'a P,
    node: &Node,
) -> Result<&'a [PolicyRule], Memory>
    ensures { IfOk result (λ s. s.now ≡ rules_at_of (P.content policy.now) node.now.kind node.now.place node.now.name) }
{
    let kind = match node.kind {
        NodeKind::Role => RoleKind::Role,
        NodeKind::ClusterRole => RoleKind::ClusterRole,
        _ => return Ok(&[]),
    };
    let name = node.name.copy(alloc)?;
    Ok(rules_held(policy, &RoleRef { kind, name }, node.place.as_str()))
}

// The first rule of the role that leads to the node, and the first right by which it does.
fn first_reason<P: Policy>(
    alloc: Global,
    asked: &Question<'_, P>,
    role: &Node,
    to: &Node,
) -> Result<Option<Reason>, Memory>
    ensures { IfOk result (λ o. option_map reason_of o ≡ printed.reason (P.content asked.now.policy.now) asked.now.known.now (map row_of asked.now.rights.now) role.now to.now) }
{
    let place = role.place.as_str();
    let rules = rules_at(alloc, asked.policy, role)?;
    for (rule, held) in rules.iter().enumerate() {
        if let Some(right) = first_right(alloc, asked, place, held, to)? {
            return Ok(Some(Reason { rule, right }));
        }
    }
    Ok(None)
}

fn step_to<P: Policy>(
    alloc: Global,
    asked: &Question<'_, P>,
    binding: &str,
    from: &Node,
    to: &Node,
) -> Result<Step, Memory>
    ensures { IfOk result (λ s. s ≡ printed.step (P.content asked.now.policy.now) asked.now.known.now (map row_of asked.now.rights.now) binding.now from.now to.now) }
{
    match first_reason(alloc, asked, from, to)? {
        Some(reason) => Ok(Step {
            right: right_text(alloc, &reason.right, from.place.as_str())?,
            by: by_text(alloc, binding, from, reason.rule)?,
            to: node_text(alloc, to)?,
        }),
        None => Ok(Step {
            right: node_text(alloc, from)?,
            by: Text::copy_of(alloc, "")?,
            to: node_text(alloc, to)?,
        }),
    }
}

// The steps of a path; the binding by which one comes to a role is printed with the step from there.
fn steps<P: Policy>(
    alloc: Global,
    asked: &Question<'_, P>,
    path: &Path,
) -> Result<Vec<Step>, Memory>
    ensures { IfOk result (λ v. v.items ≡ printed.steps_of (P.content asked.now.policy.now) asked.now.bindings.now asked.now.known.now (map row_of asked.now.rights.now) path.now) }
{
    let mut list = Vec::new(alloc);
    let mut from = &path.from;
    let mut binding = Text::copy_of(alloc, "")?;
    for to in path.nodes.as_slice() {
        if is_listed(from.kind) && !is_listed(to.kind) {
            binding = binding_to(alloc, asked.bindings, from, to)?;
        } else {
            list.push(step_to(alloc, asked, binding.as_str(), from, to)?)?;
            binding = Text::copy_of(alloc, "")?;
        }
        from = to;
    }
    Ok(list)
}

// ---- lines

fn push_line(alloc: Global, text: &mut Vec<u8>, line: &str) -> Result<(), Memory>
    ensures { OnOk result (text.new.items ≡ text.old.items ++ printed.line line.now) }
{
    text.extend_from_slice(escape(alloc, line.as_bytes())?.as_slice())?;
    text.extend_from_slice(b"\n")
}

fn push_step(alloc: Global, text: &mut Vec<u8>, step: &Step) -> Result<(), Memory>
    ensures { OnOk result (text.new.items ≡ text.old.items ++ printed.step_line step.now) }
{
    text.extend_from_slice(b"  ")?;
    push_line(alloc, text, step_text(alloc, step)?.as_str())
}

fn ends_text(alloc: Global, path: &Path) -> Result<String, Memory>
    ensures { IfOk result (λ s. string_bytes s ≡ printed.ends_text path.now) }
{
    let from = node_text(alloc, &path.from)?;
    let to = node_text(alloc, &path.to)?;
    let (from, to) = (from.as_str(), to.as_str());
    format!(in alloc; "{from} -> {to}")
}

fn step_text(alloc: Global, step: &Step) -> Result<String, Memory>
    ensures { IfOk result (λ s. string_bytes s ≡ printed.step_text step.now) }
{
    let right = step.right.as_str();
    let by = step.by.as_str();
    let to = step.to.as_str();
    if by.is_empty() {
        return format!(in alloc; "{right} -> {to}");
    }
    format!(in alloc; "{right} ({by}) -> {to}")
}

// Writes a path as a line, and its steps below.
fn push_lines(alloc: Global, text: &mut Vec<u8>, path: &Path, steps: &[Step]) -> Result<(), Memory>
    ensures { OnOk result (text.new.items ≡ text.old.items ++ printed.path_lines path.now steps.now) }
{
    push_line(alloc, text, ends_text(alloc, path)?.as_str())?;
    for step in steps {
        push_step(alloc, text, step)?;
    }
    Ok(())
}

// ---- JSON

fn step_tree(alloc: Global, step: &Step) -> Result<Value, Memory>
    ensures { IfOk result (λ v. view v ≡ printed.step_tree step.now) }
{
    let by = step.by.as_str();
    let right = step.right.as_str();
    let to = step.to.as_str();
    json!(in alloc; {"by": by, "right": right, "to": to})
}

fn step_trees(alloc: Global, steps: &[Step]) -> Result<Vec<Value>, Memory>
    ensures { IfOk result (λ v. items_view v.items ≡ items_of (map printed.step_tree steps.now)) }
{
    let mut items = Vec::new(alloc);
    for step in steps {
        items.push(step_tree(alloc, step)?)?;
    }
    Ok(items)
}

fn path_tree(alloc: Global, path: &Path, steps: &[Step]) -> Result<Value, Memory>
    ensures { IfOk result (λ v. view v ≡ printed.path_tree path.now steps.now) }
{
    let from = node_text(alloc, &path.from)?;
    let to = node_text(alloc, &path.to)?;
    let steps = step_trees(alloc, steps)?;
    json!(in alloc; {"from": (from.as_str()), "steps": steps, "to": (to.as_str())})
}

// Writes a path as a JSON object on a line.
#[tactic(auto, using(crate::proofs::Printing::path_has_no_float))]
fn push_object(alloc: Global, text: &mut Vec<u8>, path: &Path, steps: &[Step]) -> Result<(), Memory>
    ensures { OnOk result (text.new.items ≡ text.old.items ++ printed.path_object path.now steps.now) }
{
    let written = path_tree(alloc, path, steps)?.to_vec(alloc)?;
    text.extend_from_slice(written.as_slice())?;
    text.extend_from_slice(b"\n")
}

// ---- answers

// Whether the path leads to whom it is to, or to everything.
fn is_wanted(alloc: Global, path: &Path, to: &str) -> Result<bool, Memory>
    ensures { IfOk result (λ b. b ≡ printed.is_wanted to.now path.now) }
{
    if to.is_empty() || path.to.kind == NodeKind::Everything {
        return Ok(true);
    }
    Ok(node_text(alloc, &path.to)?.as_str() == to)
}

fn push_wanted<P: Policy>(
    alloc: Global,
    text: &mut Vec<u8>,
    asked: &Question<'_, P>,
    form: Form,
    to: &str,
    path: &Path,
) -> Result<(), Memory>
    ensures { OnOk result (text.new.items ≡ text.old.items ++ printed.wanted_text (P.content asked.now.policy.now) asked.now.bindings.now asked.now.known.now (map row_of asked.now.rights.now) form to.now path.now) }
{
    if !is_wanted(alloc, path, to)? {
        return Ok(());
    }
    let steps = steps(alloc, asked, path)?;
    match form {
        Form::Json => push_object(alloc, text, path, steps.as_slice()),
        Form::Table | Form::Markdown => push_lines(alloc, text, path, steps.as_slice()),
    }
}

// In Markdown, paths are a block of text.
fn push_fence(text: &mut Vec<u8>, form: Form) -> Result<(), Memory>
    ensures { OnOk result (text.new.items ≡ text.old.items ++ printed.fence form) }
{
    match form {
        Form::Markdown => text.extend_from_slice(FENCE.as_bytes()),
        Form::Json | Form::Table => Ok(()),
    }
}

fn push_unseen(text: &mut Vec<u8>, form: Form) -> Result<(), Memory>
    ensures { OnOk result (text.new.items ≡ text.old.items ++ printed.end form) }
{
    match form {
        Form::Json => Ok(()),
        Form::Table | Form::Markdown => text.extend_from_slice(UNSEEN.as_bytes()),
    }
}

fn text_of<P: Policy>(
    alloc: Global,
    asked: &Question<'_, P>,
    form: Form,
    to: &str,
    paths: &[Path],
) -> Result<Vec<u8>, Memory>
    ensures { IfOk result (λ v. v.items ≡ printed.printed (P.content asked.now.policy.now) asked.now.bindings.now asked.now.known.now (map row_of asked.now.rights.now) form to.now paths.now) }
{
    let mut text = Vec::new(alloc);
    push_fence(&mut text, form)?;
    for path in paths {
        push_wanted(alloc, &mut text, asked, form, to, path)?;
    }
    push_unseen(&mut text, form)?;
    push_fence(&mut text, form)?;
    Ok(text)
}

/// Who can become whom, given all bindings of the policy: only paths to that node, as it is printed, unless the name is empty, and
/// without the rights of some kinds. As text the last line says what was not looked at; in Markdown the text is a block.
pub fn answer_paths<P: Policy>(
    alloc: Global,
    form: Form,
    policy: &P,
    bindings: &[Binding<'_>],
    to: &str,
    without: &[Text],
) -> Result<Vec<u8>, Memory>
    ensures { IfOk result (λ v. IsAnswer (P.content policy.now) (map binding_of bindings.now) (rows_without without.now) form to.now v.items) }
{
    let known = known_of(alloc, bindings)?;
    let rights = rights_without(alloc, without)?;
    let bound = Bound::new(alloc, bindings)?;
    let asked = Question {
        policy,
        bindings: &bound,
        known: &known,
        rights: rights.as_slice(),
    };
    let paths = paths(alloc, &asked)?;
    text_of(alloc, &asked, form, to, paths.as_slice())
}
