//! What dangles in a policy: `kapi check`.
use crate::asking::{doubts_of, tell_unsettled};
use crate::policies::{FilesFault, load_first};
use crate::rows::finding_row;
use crate::served::is_served;
use kapi_access::{absent_accounts, bound_places, covered_rules, dangles};
use kapi_command_line::Asking;
use kapi_files::{Ending, ReadPolicy, place_of, print, read_kinds, read_policy, tell_refused};
use kapi_index::IndexedPolicy;
use kapi_lines::{Form, numbered_lines};
use kapi_manifests::{Origin, text_at};
use kapi_model::{PolicyRule, ResourceRow, RoleKind, RoleRef};
use kapi_policy::{Binding, BindingKind, NamespacedName, Policy};
use kapi_report::report;
use kapi_reviews::Question;
use kapi_rules::Point;
use kapi_text::{Memory, Text};
use serde_json::Value;
use std::alloc::Global;
use std::collections::{BTreeMap, BTreeSet};
use std::fs::Files;
use std::io;

/// What dangles at an object of a file.
#[derive(Drop)]
struct Finding {
    origin: Origin,
    text: String,
}

/// What the objects of a policy are checked against.
#[derive(Drop)]
struct PolicyFacts<'a> {
    policy: &'a IndexedPolicy,
    bindings: &'a [Binding<'a>],
    /// The index of each binding by its kind and place.
    places: BTreeMap<Text, usize>,
    /// The roles that some binding names.
    bound: BTreeSet<NamespacedName>,
    /// The service accounts of the files.
    accounts: BTreeSet<NamespacedName>,
    /// The resource types that are served besides those of Kubernetes.
    table: &'a [ResourceRow],
}

/// An object of a policy: its kind, its namespace and its name.
#[derive(Clone, Copy)]
struct Named<'a> {
    kind: &'a str,
    namespace: &'a str,
    name: &'a str,
}

/// Prints what dangles: status 0 if nothing does, 3 if something does, 4 if the roles are not settled, or 1 after a
/// line on standard error.
pub fn run_check<R: Files + Input + Print + Eprint + AllocGlobal + Clone + Drop>(
    rt: &R,
    asking: &Asking,
    kinds: &[Text],
) -> io::Result<Ending> {
    let Some(table) = read_kinds(rt, kinds)? else {
        return Ok(Ending::Stopped);
    };
    let Some(policy) = read_policy(rt, asking.policy.as_str(), &asking.reading)? else {
        return Ok(Ending::Stopped);
    };
    let loaded = match load_first(rt.alloc(), policy.lines()) {
        Ok(loaded) => loaded,
        Err(FilesFault::Memory) => {
            eprintln!(rt; "out of memory")?;
            return Ok(Ending::Stopped);
        }
        Err(_refused) => {
            tell_refused(rt, &policy)?;
            return Ok(Ending::Stopped);
        }
    };
    let namespace = asking.reading.namespace.as_str();
    let namespace = if namespace.is_empty() {
        "default"
    } else {
        namespace
    };
    let accounts = policy.accounts(rt.alloc(), namespace)?;
    let findings = findings(
        rt.alloc(),
        &policy,
        &loaded.policy,
        accounts,
        table.as_slice(),
    )?;
    let text = text_of(rt.alloc(), asking.form, &policy, findings.as_slice())?;
    print(rt, text.as_slice())?;
    tell_unsettled(rt, asking.policy.as_str(), loaded.settled)?;
    let doubted = asking.reading.strict && !policy.has_policy();
    if !policy.has_policy() {
        drop(doubts_of(rt, asking.policy.as_str(), &policy)?);
    }
    let ending = if findings.is_empty() {
        Ending::Done
    } else {
        Ending::Dangles
    };
    Ok(ending.or_doubted(doubted).or_unsettled(loaded.settled))
}

/// The findings as they are printed.
fn text_of(
    alloc: Global,
    form: Form,
    policy: &ReadPolicy,
    findings: &[Finding],
) -> Result<Vec<u8>, Memory> {
    let mut rows = Vec::new(alloc);
    for finding in findings {
        let (file, line) = policy.place_of(finding.origin);
        rows.push(finding_row(alloc, file, line, finding.text.as_str())?)?;
    }
    let heads = ["WHERE", "FINDING"];
    report(
        alloc,
        form,
        &heads,
        "Nothing dangles.\n",
        &[],
        rows.as_slice(),
    )
}

/// What dangles, in the order of the files' objects.
fn findings(
    alloc: Global,
    read: &ReadPolicy,
    policy: &IndexedPolicy,
    accounts: BTreeSet<NamespacedName>,
    table: &[ResourceRow],
) -> Result<Vec<Finding>, Memory> {
    let bindings = policy.bindings()?;
    let looks = PolicyFacts {
        policy,
        bindings: bindings.as_slice(),
        places: places_of(alloc, bindings.as_slice())?,
        bound: bound_places(alloc, bindings.as_slice())?,
        accounts,
        table,
    };
    let mut found = Vec::new(alloc);
    let lines = numbered_lines(alloc, read.lines())?;
    for (line, origin) in lines.iter().zip(read.prepared.origins.iter()) {
        // Objects that stand beneath the files have no line.
        if origin.line > 0 {
            if let Ok(object) = Value::from_slice(alloc, line.text) {
                look_at(alloc, &looks, *origin, &object, &mut found)?;
            }
        }
    }
    Ok(found)
}

fn look_at(
    alloc: Global,
    looks: &PolicyFacts<'_>,
    origin: Origin,
    object: &Value,
    found: &mut Vec<Finding>,
) -> Result<(), Memory> {
    let named = named_by(object);
    match named.kind {
        "Role" => look_at_role(alloc, looks, RoleKind::Role, named, false, origin, found),
        "ClusterRole" => {
            let fed = feeds_another(object);
            look_at_role(
                alloc,
                looks,
                RoleKind::ClusterRole,
                named,
                fed,
                origin,
                found,
            )
        }
        "RoleBinding" | "ClusterRoleBinding" => {
            look_at_binding(alloc, looks, named, origin, found)
        }
        _ => Ok(()),
    }
}

// ---- bindings

/// The index of each binding by its kind and place.
fn places_of(alloc: Global, bindings: &[Binding<'_>]) -> Result<BTreeMap<Text, usize>, Memory> {
    let mut places = BTreeMap::new(alloc);
    for (index, binding) in bindings.iter().enumerate() {
        let kind = binding_kind(binding.kind);
        let named = Named {
            kind,
            namespace: binding.namespace,
            name: binding.name,
        };
        drop(places.insert(Text::new(words_of(alloc, named)?), index)?);
    }
    Ok(places)
}

fn look_at_binding(
    alloc: Global,
    looks: &PolicyFacts<'_>,
    named: Named<'_>,
    origin: Origin,
    found: &mut Vec<Finding>,
) -> Result<(), Memory> {
    let words = words_of(alloc, named)?;
    let key = Text::copy_of(alloc, words.as_str())?;
    let Some(index) = looks.places.get(&key) else {
        return Ok(());
    };
    let Some(binding) = looks.bindings.get(*index) else {
        return Ok(());
    };
    if dangles(looks.policy, binding) {
        let kind = binding.role.kind.as_str();
        let role = binding.role.name.as_str();
        let text = format!(in alloc;
            "{words}: {kind} {role} is not in the policy: it gives nothing"
        )?;
        found.push(Finding { origin, text })?;
    }
    if looks.accounts.len() == 0 {
        return Ok(());
    }
    for account in absent_accounts(alloc, binding, &looks.accounts)?.iter() {
        let namespace = account.namespace.as_str();
        let name = account.name.as_str();
        // Each namespace has this one (Kubernetes, 'Service Accounts', 'Default service accounts').
        if name == "default" {
            continue;
        }
        let text = format!(in alloc; "{words}: there is no ServiceAccount {namespace}/{name}")?;
        found.push(Finding { origin, text })?;
    }
    Ok(())
}

/// The kind of a binding, in words.
pub fn binding_kind(kind: BindingKind) -> &'static str {
    match kind {
        BindingKind::RoleBinding => "RoleBinding",
        BindingKind::ClusterRoleBinding => "ClusterRoleBinding",
    }
}

// ---- roles

fn look_at_role(
    alloc: Global,
    looks: &PolicyFacts<'_>,
    kind: RoleKind,
    named: Named<'_>,
    fed: bool,
    origin: Origin,
    found: &mut Vec<Finding>,
) -> Result<(), Memory> {
    let words = words_of(alloc, named)?;
    let place = NamespacedName {
        namespace: Text::copy_of(alloc, named.namespace)?,
        name: Text::copy_of(alloc, named.name)?,
    };
    if !fed && !looks.bound.contains(&place) {
        let text = format!(in alloc; "{words}: nothing binds it")?;
        found.push(Finding { origin, text })?;
    }
    let role = RoleRef {
        kind,
        name: Text::copy_of(alloc, named.name)?,
    };
    let Some(rules) = looks.policy.role_rules(&role, named.namespace) else {
        return Ok(());
    };
    look_for_covered(alloc, words.as_str(), rules, origin, found)?;
    for (index, rule) in rules.iter().enumerate() {
        look_at_resources(
            alloc,
            looks.table,
            words.as_str(),
            index,
            rule,
            origin,
            found,
        )?;
    }
    Ok(())
}

/// The number of rules up to which each rule of a role is compared with each other one.
const MOST_COMPARED: usize = 300;

/// Notes the rules of a role that another rule of it covers.
fn look_for_covered(
    alloc: Global,
    words: &str,
    rules: &[PolicyRule],
    origin: Origin,
    found: &mut Vec<Finding>,
) -> Result<(), Memory> {
    if rules.len() > MOST_COMPARED {
        let text = format!(in alloc;
            "{words}: over 300 rules: whether one covers another was not looked at"
        )?;
        found.push(Finding { origin, text })?;
        return Ok(());
    }
    for covered in covered_rules(alloc, rules)?.iter() {
        let rule = covered.rule;
        let by = covered.by;
        let text = format!(in alloc; "{words}: rule {by} covers rule {rule}")?;
        found.push(Finding { origin, text })?;
    }
    Ok(())
}

/// Notes the resources of a rule that no kind of its group serves.
fn look_at_resources(
    alloc: Global,
    table: &[ResourceRow],
    words: &str,
    index: usize,
    rule: &PolicyRule,
    origin: Origin,
    found: &mut Vec<Finding>,
) -> Result<(), Memory> {
    for resource in rule.resources.as_slice() {
        let resource = resource.as_str();
        if !is_served(table, rule, resource) {
            let text = format!(in alloc;
                "{words}: rule {index}: no kind serves the resource {resource}"
            )?;
            found.push(Finding { origin, text })?;
        }
    }
    Ok(())
}

// ---- names

fn named_by(object: &Value) -> Named<'_> {
    let (kind, namespace, name) = place_of(object);
    Named {
        kind,
        namespace,
        name,
    }
}

/// Whether a cluster role has a label by which Kubernetes' own roles take its rules (Kubernetes, 'Using RBAC
/// Authorization', 'Aggregated ClusterRoles').
fn feeds_another(object: &Value) -> bool {
    let labels = match object.get("metadata") {
        Some(metadata) => metadata.get("labels"),
        None => None,
    };
    match labels {
        Some(Value::Object(labels)) => labels.iter().any(|(key, _value)| key.starts_with(
            "rbac.authorization.k8s.io/aggregate-to-",
        )),
        _ => false,
    }
}

fn words_of(alloc: Global, named: Named<'_>) -> Result<String, Memory> {
    place_words(alloc, named.kind, named.namespace, named.name)
}

/// A request in words, as `User ann: get pods/log named web of apps in namespace shop`.
pub fn request_words(alloc: Global, question: &Question) -> Result<String, Memory> {
    let user = question.identity.user.as_str();
    let point = match &question.point {
        Point::Url(point) => {
            let verb = point.verb.as_str();
            let path = point.path.as_str();
            return format!(in alloc; "User {user}: {verb} {path}");
        }
        Point::Resource(point) => point,
    };
    let verb = point.verb.as_str();
    let resource = point.resource.as_str();
    let mut words = format!(in alloc; "User {user}: {verb} {resource}")?;
    push_word(&mut words, "/", point.subresource.as_str())?;
    push_word(&mut words, " of ", point.group.as_str())?;
    push_word(&mut words, " named ", point.name.as_str())?;
    push_word(&mut words, " in namespace ", question.namespace.as_str())?;
    Ok(words)
}

/// Appends a separator and a word, unless the word is empty.
fn push_word(words: &mut String, part: &str, word: &str) -> Result<(), Memory> {
    if word.is_empty() {
        return Ok(());
    }
    words.push_str(part)?;
    words.push_str(word)
}

/// The kind, the namespace if there is one, and the name.
pub fn place_words(
    alloc: Global,
    kind: &str,
    namespace: &str,
    name: &str,
) -> Result<String, Memory> {
    if namespace.is_empty() {
        return format!(in alloc; "{kind} {name}");
    }
    format!(in alloc; "{kind} {namespace}/{name}")
}
