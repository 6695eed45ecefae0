//! Doubts about policies and questions: what is likely not meant, reported on standard error.
use kapi_access::{Scope, question_of};
use kapi_files::{Plain, ReadPolicy};
use kapi_lines::{as_text, numbered_lines};
use kapi_manifests::{Words, text_at};
use kapi_rules::Point;
use kapi_text::{Memory, Text};
use serde_json::Value;
use std::alloc::Global;
use std::collections::BTreeSet;
use std::io;
use strsim::levenshtein;

/// What is said of a policy without roles and bindings.
pub const EMPTY: &str = "there is no role and no binding in it";

/// Whom paths lead to.
const NODES: &str =
    "paths lead to everything, every user, User NAME, Group NAME, ServiceAccount NAMESPACE/NAME, and to all in, accounts of or limits of a namespace";

/// Kinds of objects that make others, which no file has (kustomize, Flux, Argo CD, Helm and OpenShift).
const MAKERS: [&str; 6] = [
    "Application",
    "ApplicationSet",
    "HelmChart",
    "HelmRelease",
    "Kustomization",
    "Template",
];

/// The largest number of changed characters between a word and the one that is likely meant.
const CHANGES: usize = 2;

/// What a word of a question may be.
struct Sort {
    /// What it is, as the words of a policy name it.
    what: &'static str,
    /// What it is, as messages name it.
    called: &'static str,
    /// What would name it.
    by: &'static str,
    /// The words that a question may name whatever the policy does.
    known: &'static str,
}

/// The verbs of requests and of the check against escalation are known (Kubernetes, 'Authorization Overview',
/// 'Determine the Request Verb').
const VERB: Sort = Sort {
    what: "verb",
    called: "verb",
    by: "rule",
    known: "get list watch create update patch delete deletecollection bind escalate impersonate",
};

/// The resources that the server has are known.
const RESOURCE: Sort = Sort {
    what: "resource",
    called: "resource",
    by: "rule",
    known: "namespaces configmaps secrets serviceaccounts pods deployments roles rolebindings clusterroles \
        clusterrolebindings subjectaccessreviews localsubjectaccessreviews selfsubjectaccessreviews \
        selfsubjectrulesreviews",
};

const NAMESPACE: Sort = Sort {
    what: "namespace",
    called: "namespace",
    by: "object",
    known: "default",
};

const USER: Sort = Sort {
    what: "User",
    called: "user",
    by: "binding",
    known: "",
};

const GROUP: Sort = Sort {
    what: "Group",
    called: "group",
    by: "binding",
    known: "system:masters system:authenticated system:unauthenticated system:serviceaccounts",
};

const ACCOUNT: Sort = Sort {
    what: "ServiceAccount",
    called: "service account",
    by: "binding",
    known: "",
};

/// The doubts that were reported.
#[derive(Drop)]
pub struct Doubts {
    told: BTreeSet<Text>,
}

impl Doubts {
    /// No doubts.
    pub fn new(alloc: Global) -> Doubts {
        Doubts {
            told: BTreeSet::new(alloc),
        }
    }

    /// Whether there is a doubt.
    pub fn are_some(&self) -> bool {
        !self.told.is_empty()
    }

    /// Reports the policy under this name, if it has no role and no binding.
    pub fn tell_empty<R: Eprint + AllocGlobal>(
        &mut self,
        rt: &R,
        name: &str,
        policy: &ReadPolicy,
    ) -> io::Result<()> {
        if policy.has_policy() {
            return Ok(());
        }
        self.tell_line(rt, format!(in rt.alloc(); "{name}: {EMPTY}")?)
    }

    /// Reports the bindings of a policy whose role is not in it, how many objects of its files make others elsewhere, and
    /// the members of roles and bindings that nobody reads.
    pub fn tell<R: Eprint + AllocGlobal>(&mut self, rt: &R, policy: &ReadPolicy) -> io::Result<()> {
        for kind in MAKERS {
            let word = Text::copy_of(rt.alloc(), kind)?;
            if let Some(count) = policy.prepared.skipped.get(&word) {
                let line = format!(in rt.alloc(); "{count} {kind}: what it makes is not read")?;
                self.tell_line(rt, line)?;
            }
        }
        for dangling in policy.prepared.dangling.as_slice() {
            let (binding, role) = (dangling.binding.as_str(), dangling.role.as_str());
            let line = format!(in rt.alloc();
                "{binding}: {role} is not in the policy: it gives nothing"
            )?;
            self.tell_line(rt, line)?;
        }
        for unread in policy.prepared.words.of(rt.alloc(), "unread")?.iter() {
            let line = format!(in rt.alloc();
                "{unread}: Kubernetes has no such member, and it is not read"
            )?;
            self.tell_line(rt, line)?;
        }
        Ok(())
    }

    /// Reports the words of a question that no rule and no object of the policy names.
    pub fn tell_question<R: Eprint + AllocGlobal>(
        &mut self,
        rt: &R,
        words: &Words,
        verb: &str,
        resource: &str,
        namespace: &str,
    ) -> io::Result<()> {
        self.tell_word(rt, words, &VERB, verb)?;
        if !resource.starts_with('/') {
            self.tell_word(rt, words, &RESOURCE, kind_in(resource))?;
        }
        self.tell_word(rt, words, &NAMESPACE, namespace)
    }

    /// Reports the words of the questions of a file, each a line VERB RESOURCE [NAMESPACE [NAME]].
    pub fn tell_lines<R: Eprint + AllocGlobal>(
        &mut self,
        rt: &R,
        words: &Words,
        questions: &[u8],
    ) -> io::Result<()> {
        for line in numbered_lines(rt.alloc(), questions)?.iter() {
            let mut parts = as_text(line.text).unwrap_or("").trim_end().split(' ');
            if let (Some(verb), Some(resource)) = (parts.next(), parts.next()) {
                let resource = full_resource(rt.alloc(), resource)?;
                let namespace = parts.next().unwrap_or("");
                self.tell_question(rt, words, verb, resource.as_str(), namespace)?;
            }
        }
        Ok(())
    }

    /// Reports the words of the questions of a file, each the spec of an access review.
    pub fn tell_reviews<R: Eprint + AllocGlobal>(
        &mut self,
        rt: &R,
        words: &Words,
        questions: &[u8],
    ) -> io::Result<()> {
        for line in numbered_lines(rt.alloc(), questions)?.iter() {
            if let Ok(review) = Value::from_slice(rt.alloc(), line.text) {
                self.tell_review(rt, words, &review)?;
            }
        }
        Ok(())
    }

    fn tell_review<R: Eprint + AllocGlobal>(
        &mut self,
        rt: &R,
        words: &Words,
        review: &Value,
    ) -> io::Result<()> {
        if let Some(attributes) = review.get("resourceAttributes") {
            let (verb, resource) = (text_at(attributes, "verb"), text_at(attributes, "resource"));
            self.tell_question(rt, words, verb, resource, text_at(attributes, "namespace"))?;
        }
        if is_in_a_named_group(rt.alloc(), words, review)? {
            return Ok(());
        }
        self.tell_user(rt, words, text_at(review, "user"))
    }

    /// Reports the groups of a user that no binding of the policy names and, if it names none of them, the user; and a
    /// namespace that no object names.
    pub fn tell_holder<R: Eprint + AllocGlobal>(
        &mut self,
        rt: &R,
        words: &Words,
        user: &str,
        groups: &[Text],
        namespace: &str,
    ) -> io::Result<()> {
        let mut is_in_one = false;
        for group in groups {
            self.tell_word(rt, words, &GROUP, group.as_str())?;
            is_in_one = is_in_one || words.has(rt.alloc(), "Group", group.as_str())?;
        }
        if !is_in_one {
            self.tell_user(rt, words, user)?;
        }
        self.tell_word(rt, words, &NAMESPACE, namespace)
    }

    /// Reports to whom paths are asked for, as they print it, if nothing names it or paths print no such words.
    pub fn tell_whom<R: Eprint + AllocGlobal>(
        &mut self,
        rt: &R,
        words: &Words,
        to: &str,
    ) -> io::Result<()> {
        for before in ["all in ", "accounts of ", "limits of "] {
            match to.strip_prefix(before) {
                Some("every namespace") => return Ok(()),
                Some(namespace) => return self.tell_word(rt, words, &NAMESPACE, namespace),
                None => {}
            }
        }
        match to.split_once(' ') {
            Some(("User", name)) => self.tell_user(rt, words, name),
            Some(("Group", name)) => self.tell_word(rt, words, &GROUP, name),
            Some(("ServiceAccount", place)) => match place.split_once('/') {
                Some((_namespace, name)) => self.tell_word(rt, words, &ACCOUNT, name),
                None => self.tell_word(rt, words, &ACCOUNT, place),
            },
            _ if ["", "everything", "every user"].contains(&to) => Ok(()),
            _ => self.tell_line(rt, format!(in rt.alloc(); "--to {to}: {NODES}")?),
        }
    }

    /// Reports a user that no binding of the policy names.
    fn tell_user<R: Eprint + AllocGlobal>(
        &mut self,
        rt: &R,
        words: &Words,
        user: &str,
    ) -> io::Result<()> {
        let account = user.strip_prefix("system:serviceaccount:");
        match account.and_then(|account| account.split_once(':')) {
            Some((_namespace, name)) => self.tell_word(rt, words, &ACCOUNT, name),
            None => self.tell_word(rt, words, &USER, user),
        }
    }

    /// Reports a word of a question, unless the policy names it or it is empty, `*` or generally known, and suggests a
    /// similar known word, if there is one.
    fn tell_word<R: Eprint + AllocGlobal>(
        &mut self,
        rt: &R,
        words: &Words,
        sort: &Sort,
        word: &str,
    ) -> io::Result<()> {
        let is_known = sort.known.split_whitespace().any(|known| known == word);
        if word.is_empty() || word == "*" || is_known || words.has(rt.alloc(), sort.what, word)? {
            return Ok(());
        }
        let (called, by) = (sort.called, sort.by);
        let mut line = format!(in rt.alloc(); "no {by} names the {called} {word}")?;
        if let Some(meant) = likely(rt.alloc(), words, sort, word)? {
            write!(line, "; did you mean {meant}?")?;
        }
        self.tell_line(rt, line)
    }

    /// Reports a doubt, unless it was reported before.
    fn tell_line<R: Eprint>(&mut self, rt: &R, line: String) -> io::Result<()> {
        let line = Text::new(line);
        if self.told.contains(&line) {
            return Ok(());
        }
        let text = Plain(line.as_str());
        eprintln!(rt; "{text}")?;
        self.told.insert(line)?;
        Ok(())
    }
}

/// A resource in full, as `pods` for `po`.
pub fn full_resource(alloc: Global, resource: &str) -> Result<Text, Memory> {
    let asked = question_of(alloc, "", resource, Scope::Cluster, "")?;
    match &asked.point {
        Point::Resource(point) => Text::copy_of(alloc, point.resource.as_str()),
        Point::Url(_) => Text::copy_of(alloc, resource),
    }
}

/// The resource without its subresource and its group.
fn kind_in(resource: &str) -> &str {
    resource.split(['/', '.']).next().unwrap_or("")
}

/// Whether a binding names one of the groups of a review.
fn is_in_a_named_group(alloc: Global, words: &Words, review: &Value) -> Result<bool, Memory> {
    let Some(Value::Array(groups)) = review.get("groups") else {
        return Ok(false);
    };
    for group in groups.as_slice() {
        let group = group.as_str().unwrap_or("");
        if group == "system:masters" || words.has(alloc, "Group", group)? {
            return Ok(true);
        }
    }
    Ok(false)
}

/// The word that differs least, if one differs little.
fn likely(
    alloc: Global,
    words: &Words,
    sort: &Sort,
    asked: &str,
) -> Result<Option<String>, Memory> {
    let named = words.of(alloc, sort.what)?;
    let mut fewest = CHANGES.saturating_add(1).min(asked.len());
    let mut meant = String::new(alloc);
    for word in sort.known.split_whitespace().chain(named.iter().copied()) {
        let changes = levenshtein(alloc, asked, word)?;
        if changes < fewest {
            fewest = changes;
            meant = String::from_str(alloc, word)?;
        }
    }
    Ok(if meant.is_empty() { None } else { Some(meant) })
}
