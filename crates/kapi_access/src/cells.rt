//! The cells of rows.
ghost use Rattle.std.specs.Prelude.{◌≡◌, ◌++◌, ◌∷◌, ◌==◌, IfOk, OnOk, string_bytes};
ghost use Rattle.std.specs.List.{flat_map, list_any};
ghost use Rattle.kapi_access.specs.Risks.{is_grave as grave};
ghost use Rattle.kapi_access.specs.Cells as cells;

use crate::grantee::Grantee;
use crate::question::split_at_slash;
use crate::risky::is_grave;
use kapi_lines::copy_of;
use kapi_model::{PolicyRule, RoleRef};
use kapi_policy::BindingKind;
use kapi_text::{Memory, Sequence, Text};
use std::alloc::Global;

/// `User` or `Group`.
pub fn subject_kind(to: &Grantee) -> &'static str
    ensures { result.now ≡ cells.subject_kind to.now }
{
    match to {
        Grantee::User(_) => "User",
        Grantee::Group(_) => "Group",
    }
}

/// The name of the user or group.
pub fn subject_name(to: &Grantee) -> &str
    ensures { result.now ≡ cells.subject_name to.now }
{
    match to {
        Grantee::User(name) => name.as_str(),
        Grantee::Group(name) => name.as_str(),
    }
}

/// The kind of a binding as objects name it.
pub fn binding_kind(kind: BindingKind) -> &'static str
    ensures { result.now ≡ cells.binding_kind kind }
{
    match kind {
        BindingKind::RoleBinding => "RoleBinding",
        BindingKind::ClusterRoleBinding => "ClusterRoleBinding",
    }
}

/// A kind and a name.
pub fn joined(alloc: Global, kind: &str, name: &str) -> Result<Sequence<u8>, Memory>
    ensures { IfOk result (λ s. s ≡ cells.joined kind.now name.now) }
{
    Ok(Sequence::new(format!(in alloc; "{kind} {name}")?.into_bytes()))
}

/// A user or group.
pub fn subject_cell(alloc: Global, to: &Grantee) -> Result<Sequence<u8>, Memory>
    ensures { IfOk result (λ s. s ≡ cells.subject_text to.now) }
{
    joined(alloc, subject_kind(to), subject_name(to))
}

/// A namespace, or `*` for all of them.
pub fn namespace_cell(alloc: Global, namespace: &str) -> Result<Sequence<u8>, Memory>
    ensures { IfOk result (λ s. s ≡ cells.namespace_text namespace.now) }
{
    if namespace.is_empty() {
        return copy_of(alloc, b"*");
    }
    copy_of(alloc, namespace.as_bytes())
}

/// A rule of a role.
pub fn rule_text(alloc: Global, role: &RoleRef, rule: usize) -> Result<String, Memory>
    ensures { IfOk result (λ s. string_bytes s ≡ cells.rule_text role.now rule) }
{
    let kind = role.kind.as_str();
    let name = role.name.as_str();
    format!(in alloc; "{kind} {name}, rule {rule}")
}

/// A rule of the role of a binding of that kind and name.
pub fn text_of_grant(
    alloc: Global,
    kind: BindingKind,
    name: &str,
    role: &RoleRef,
    rule: usize,
) -> Result<String, Memory>
    ensures { IfOk result (λ s. string_bytes s ≡ cells.text_of_grant kind name.now role.now rule) }
{
    let kind = binding_kind(kind);
    let rule = rule_text(alloc, role, rule)?;
    let rule = rule.as_str();
    format!(in alloc; "{kind} {name}, {rule}")
}

// ---- rules

fn push_behind(text: &mut Vec<u8>, byte: u8, rest: &[u8]) -> Result<(), Memory>
    ensures { OnOk result (text.new.items ≡ text.old.items ++ byte ∷ rest.now) }
{
    text.push(byte)?;
    text.extend_from_slice(rest)
}

fn push_texts(text: &mut Vec<u8>, texts: &[Text]) -> Result<(), Memory>
    ensures { OnOk result (text.new.items ≡ text.old.items ++ cells.behind_commas texts.now) }
{
    for entry in texts {
        push_behind(text, b',', entry.as_str().as_bytes())?;
    }
    Ok(())
}

fn has_slash(text: &str) -> bool
    ensures { result ≡ list_any (λ b. b == 47) text.now }
{
    text.as_bytes().iter().any(|byte| *byte == b'/')
}

fn push_in_group(text: &mut Vec<u8>, group: &str, resource: &str) -> Result<(), Memory>
    ensures { OnOk result (text.new.items ≡ text.old.items ++ cells.in_group group.now resource.now) }
{
    if group.is_empty() {
        return text.extend_from_slice(resource.as_bytes());
    }
    let (kind, subresource) = split_at_slash(resource);
    text.extend_from_slice(kind.as_bytes())?;
    push_behind(text, b'.', group.as_bytes())?;
    if has_slash(resource) {
        return push_behind(text, b'/', subresource.as_bytes());
    }
    Ok(())
}

fn push_resources(text: &mut Vec<u8>, resources: &[Text], group: &str) -> Result<(), Memory>
    ensures { OnOk result (text.new.items ≡ text.old.items ++ cells.resources_of resources.now group.now) }
{
    for resource in resources {
        text.push(b',')?;
        push_in_group(text, group, resource.as_str())?;
    }
    Ok(())
}

fn push_groups(text: &mut Vec<u8>, resources: &[Text], groups: &[Text]) -> Result<(), Memory>
    ensures { OnOk result (text.new.items ≡ text.old.items ++ flat_map (cells.resources_of resources.now) groups.now) }
{
    for group in groups {
        push_resources(text, resources, group.as_str())?;
    }
    Ok(())
}

fn without_comma(text: &[u8]) -> &[u8]
    ensures { result.now ≡ cells.without_comma text.now }
{
    match text {
        [_comma, rest @ ..] => rest,
        [] => b"-",
    }
}

/// Texts with commas between.
pub fn texts_cell(alloc: Global, texts: &[Text]) -> Result<Sequence<u8>, Memory>
    ensures { IfOk result (λ s. s ≡ cells.listed texts.now) }
{
    let mut list = Vec::new(alloc);
    push_texts(&mut list, texts)?;
    copy_of(alloc, without_comma(list.as_slice()))
}

/// The resources and URLs of a rule.
pub fn targets_cell(alloc: Global, rule: &PolicyRule) -> Result<Sequence<u8>, Memory>
    ensures { IfOk result (λ s. s ≡ cells.without_comma (cells.targets rule.now)) }
{
    let mut list = Vec::new(alloc);
    push_groups(
        &mut list,
        rule.resources.as_slice(),
        rule.api_groups.as_slice(),
    )?;
    push_texts(&mut list, rule.non_resource_urls.as_slice())?;
    copy_of(alloc, without_comma(list.as_slice()))
}

fn push_named(alloc: Global, text: &mut Vec<u8>, names: &[Text]) -> Result<(), Memory>
    ensures { OnOk result (text.new.items ≡ text.old.items ++ cells.named names.now) }
{
    if names.is_empty() {
        return Ok(());
    }
    text.extend_from_slice(b" names ")?;
    text.extend_from_slice(texts_cell(alloc, names)?.as_slice())
}

fn push_rule(alloc: Global, text: &mut Vec<u8>, rule: &PolicyRule) -> Result<(), Memory>
    ensures { OnOk result (text.new.items ≡ text.old.items ++ cells.words_of_rule rule.now) }
{
    text.extend_from_slice(texts_cell(alloc, rule.verbs.as_slice())?.as_slice())?;
    text.extend_from_slice(b" ")?;
    text.extend_from_slice(targets_cell(alloc, rule)?.as_slice())?;
    push_named(alloc, text, rule.resource_names.as_slice())
}

/// A rule, with a mark if it gives much.
pub fn marked_cell(alloc: Global, rule: &PolicyRule) -> Result<Sequence<u8>, Memory>
    ensures { IfOk result (λ s. s ≡ cells.mark (grave rule.now) ++ cells.words_of_rule rule.now) }
{
    let mut text = Vec::new(alloc);
    if is_grave(rule) {
        text.extend_from_slice(b"! ")?;
    }
    push_rule(alloc, &mut text, rule)?;
    Ok(Sequence::new(text))
}
