//! Questions of whom a policy allows something, read from words.
ghost use Rattle.std.specs.Prelude.{◌≡◌, IfOk, codes, map};
ghost use Rattle.kapi_access.specs.Questions as asks;
ghost use Rattle.kapi_access.specs.Questions.{after, before, kind_of, words_in};

use kapi_lines::as_text;
use kapi_rules::{Point, ResourcePoint, UrlPoint};
use kapi_text::{Memory, Text};
use std::alloc::Global;

/// Where something is asked about.
#[derive(Drop)]
pub enum Scope {
    /// In this namespace.
    Namespace(Text),
    /// Cluster-wide, where RoleBindings do not count.
    Cluster,
    /// In each namespace that has bindings, and cluster-wide.
    Everywhere,
}

/// What somebody may do, and where.
#[derive(Drop)]
pub struct ScopedPoint {
    pub scope: Scope,
    pub point: Point,
}

/// What stands before the first slash, and what after it.
#[tactic(auto, using(crate::proofs::Parted::all_before, crate::proofs::Parted::none_after))]
pub fn split_at_slash(text: &str) -> (&str, &str)
    ensures first { result.0.now ≡ before 47 text.now }
    ensures rest { result.1.now ≡ after 47 text.now }
{
    match text.split_once('/') {
        Some(parts) => parts,
        None => (text, ""),
    }
}

/// What stands before the first dot, and what after it.
#[tactic(auto, using(crate::proofs::Parted::all_before, crate::proofs::Parted::none_after))]
fn split_at_dot(text: &str) -> (&str, &str)
    ensures first { result.0.now ≡ before 46 text.now }
    ensures rest { result.1.now ≡ after 46 text.now }
{
    match text.split_once('.') {
        Some(parts) => parts,
        None => (text, ""),
    }
}

// ---- short and singular names

/// The short and the singular name of a kind, its resource and group.
#[derive(Drop)]
struct KindNames {
    short: &'static str,
    singular: &'static str,
    resource: &'static str,
    group: &'static str,
}

fn core_kind(short: &'static str, singular: &'static str, resource: &'static str) -> KindNames
    ensures { kind_of result ≡ asks.core_kind short.now singular.now resource.now }
{
    KindNames {
        short,
        singular,
        resource,
        group: "",
    }
}

fn rbac_kind(singular: &'static str, resource: &'static str) -> KindNames
    ensures { kind_of result ≡ asks.rbac_kind singular.now resource.now }
{
    KindNames {
        short: singular,
        singular,
        resource,
        group: "rbac.authorization.k8s.io",
    }
}

fn deployments() -> KindNames
    ensures { kind_of result ≡ record { short = codes "deploy"; singular = codes "deployment"; resource = codes "deployments"; group = codes "apps" } }
{
    KindNames {
        short: "deploy",
        singular: "deployment",
        resource: "deployments",
        group: "apps",
    }
}

/// The kinds that Kapi keeps, by their names in `kubectl api-resources`.
#[tactic(auto, unfolding(crate::specs::Questions::kinds))]
fn kinds() -> [KindNames; 11]
    ensures { map kind_of result ≡ asks.kinds }
{
    [
        core_kind("po", "pod", "pods"),
        core_kind("cm", "configmap", "configmaps"),
        core_kind("secret", "secret", "secrets"),
        core_kind("sa", "serviceaccount", "serviceaccounts"),
        core_kind("no", "node", "nodes"),
        core_kind("ns", "namespace", "namespaces"),
        deployments(),
        rbac_kind("role", "roles"),
        rbac_kind("rolebinding", "rolebindings"),
        rbac_kind("clusterrole", "clusterroles"),
        rbac_kind("clusterrolebinding", "clusterrolebindings"),
    ]
}

fn is_called(kind: &KindNames, word: &str, group: &str) -> bool
    ensures { result ≡ asks.is_called word.now group.now (kind_of kind.now) }
{
    (kind.short == word || kind.singular == word) && (group.is_empty() || kind.group == group)
}

fn full_among<'a>(kinds: &[KindNames], word: &'a str, group: &'a str) -> (&'a str, &'a str)
    ensures resource { result.0.now ≡ (asks.full_among (map kind_of kinds.now) word.now group.now).0 }
    ensures group { result.1.now ≡ (asks.full_among (map kind_of kinds.now) word.now group.now).1 }
{
    for kind in kinds {
        if is_called(kind, word, group) {
            return (kind.resource, kind.group);
        }
    }
    (word, group)
}

/// A resource and its group, in full.
#[tactic(auto, unfolding(crate::specs::Questions::in_full))]
fn in_full<'a>(word: &'a str, group: &'a str) -> (&'a str, &'a str)
    ensures resource { result.0.now ≡ (asks.in_full word.now group.now).0 }
    ensures group { result.1.now ≡ (asks.in_full word.now group.now).1 }
{
    full_among(kinds().as_slice(), word, group)
}

// ---- questions

fn resource_point(alloc: Global, verb: &str, resource: &str, name: &str) -> Result<Point, Memory>
    ensures { IfOk result (λ p. p ≡ asks.resource_point verb.now resource.now name.now) }
{
    let (kind, subresource) = split_at_slash(resource);
    let (word, group) = split_at_dot(kind);
    let (resource, group) = in_full(word, group);
    Ok(Point::Resource(ResourcePoint {
        verb: Text::copy_of(alloc, verb)?,
        group: Text::copy_of(alloc, group)?,
        resource: Text::copy_of(alloc, resource)?,
        subresource: Text::copy_of(alloc, subresource)?,
        name: Text::copy_of(alloc, name)?,
    }))
}

fn begins_with_slash(text: &str) -> bool
    ensures { result ≡ asks.begins_with_slash text.now }
{
    match text.as_bytes() {
        [first, ..] => *first == b'/',
        [] => false,
    }
}

/// What the words ask: `RESOURCE`, `RESOURCE/SUBRESOURCE`, either with `.GROUP` behind the resource, or a path that begins with a
/// slash, which is asked about cluster-wide and has no name. A kind that Kapi keeps may have its short or singular name, as `cm`
/// and `deployment`; its group may then be left out.
pub fn question_of(
    alloc: Global,
    verb: &str,
    resource: &str,
    scope: Scope,
    name: &str,
) -> Result<ScopedPoint, Memory>
    ensures { IfOk result (λ w. w ≡ asks.question_of verb.now resource.now scope name.now) }
{
    if begins_with_slash(resource) {
        return Ok(ScopedPoint {
            scope: Scope::Cluster,
            point: Point::Url(UrlPoint {
                verb: Text::copy_of(alloc, verb)?,
                path: Text::copy_of(alloc, resource)?,
            }),
        });
    }
    Ok(ScopedPoint {
        scope,
        point: resource_point(alloc, verb, resource, name)?,
    })
}

fn split_words(alloc: Global, text: &str) -> Result<Vec<&str>, Memory>
    ensures { IfOk result (λ v. map (λ s. s.now) v.items ≡ words_in text.now) }
{
    text.split(' ').collect(alloc)
}

/// A namespace; `*` asks cluster-wide.
fn scope_in(alloc: Global, word: &str) -> Result<Scope, Memory>
    ensures { IfOk result (λ s. s ≡ asks.scope_in word.now) }
{
    if word == "*" {
        return Ok(Scope::Cluster);
    }
    Ok(Scope::Namespace(Text::copy_of(alloc, word)?))
}

fn question_by(alloc: Global, words: &[&str]) -> Result<Option<ScopedPoint>, Memory>
    ensures { IfOk result (λ o. o ≡ asks.question_by (map (λ s. s.now) words.now)) }
{
    match words {
        [verb, resource] => Ok(Some(question_of(alloc, verb, resource, Scope::Cluster, "")?)),
        [verb, resource, namespace] => {
            let scope = scope_in(alloc, namespace)?;
            Ok(Some(question_of(alloc, verb, resource, scope, "")?))
        }
        [verb, resource, namespace, name] => {
            let scope = scope_in(alloc, namespace)?;
            Ok(Some(question_of(alloc, verb, resource, scope, name)?))
        }
        _ => Ok(None),
    }
}

/// A line without the carriage return at its end, if it has one.
#[tactic(auto, unfolding(crate::specs::Questions::without_return))]
fn without_return(line: &[u8]) -> &[u8]
    ensures { result.now ≡ asks.without_return line.now }
{
    let (rest, end) = line.split_at(line.len().saturating_sub(1));
    if end == b"\r".as_slice() { rest } else { line }
}

/// The question of a line `VERB RESOURCE [NAMESPACE [NAME]]`, where the namespace `*` asks cluster-wide; none where it is none.
#[tactic(auto, unfolding(crate::specs::Questions::question_in))]
pub fn read_question_line(alloc: Global, line: &[u8]) -> Result<Option<ScopedPoint>, Memory>
    ensures { IfOk result (λ o. o ≡ asks.question_in line.now) }
{
    match as_text(without_return(line)) {
        Some(text) => question_by(alloc, split_words(alloc, text)?.as_slice()),
        None => Ok(None),
    }
}
