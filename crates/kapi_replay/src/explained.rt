//! Why a request with an unexpected answer was allowed or not. Another machine plays the case up to the request, for
//! the policy at that moment.
ghost use Rattle.std.specs.Prelude.{◌≡◌, [], IfOk, IfSome, map};
ghost use Rattle.kapi_replay.specs.Failures.{bare};

use crate::kinds::known_table;
use crate::manifests::read_manifests;
use crate::play::script_text;
use kapi_core::Core;
use kapi_index::IndexedPolicy;
use kapi_lines::{as_text, read_identity};
use kapi_loading::{StartError, Started, start, start_without_objects};
use kapi_model::Identity;
use kapi_policy::Policy;
use kapi_reviews::reason;
use kapi_rules::Point;
use kapi_script::play_script;
use kapi_text::{Memory, Sequence, Text};
use kapi_transcripts::{
    Beginning, Case, Difference, Failure, Form, LoadedFile, attributes_of, line_at, only_text,
    parse_form, texts_named,
};
use std::alloc::{AllocError, Global};
use std::sync::Wait;

/// The failures of a case. An unexpected answer to a request gets a reason: the rule that allows the request, or the
/// missing permission.
pub fn explained<R: Wait>(
    alloc: Global,
    rt: &R,
    loads: &[LoadedFile],
    lines: &[Sequence<u8>],
    case: &Case,
    failures: Vec<Failure>,
) -> Result<Vec<Failure>, Memory>
    ensures { IfOk result (λ v. map bare v.items ≡ map bare failures.items) }
{
    if failures.is_empty() {
        return Ok(failures);
    }
    let Some(started) = begun(alloc, rt, loads, case)? else {
        return Ok(failures);
    };
    let Started {
        mut core,
        desk,
        seats: _seats,
    } = started;
    core.recheck_watches(case.rechecks);
    let explained = explain_all(alloc, &mut core, lines, case, failures);
    drop(desk.close(rt));
    explained
}

/// The machine that a case begins with; none if its files are not loaded.
fn begun<R: Wait>(
    alloc: Global,
    rt: &R,
    loads: &[LoadedFile],
    case: &Case,
) -> Result<Option<Started>, Memory>
    ensures unopened { IfOk result (λ o. IfSome o (λ s. s.core.next_id ≡ 0)) }
    ensures waiting { IfOk result (λ o. IfSome o (λ s. s.desk.waiting ≡ [])) }
{
    let table = &known_table(alloc, loads, case)?;
    match &case.begins {
        Beginning::Opening => made(start(alloc, rt, table, b"".as_slice(), 0, 1)),
        Beginning::Lines(file) => match only_text(texts_named(loads, file.name.as_slice())) {
            Some(objects) => made(start(alloc, rt, table, objects, 0, 1)),
            None => Ok(None),
        },
        Beginning::Manifests(manifests) => {
            let prepared = read_manifests(alloc, table, loads, manifests)?;
            let text = prepared.text.as_slice();
            made(start_without_objects(alloc, rt, table, text, 0, 1))
        }
    }
}

/// The started machine; none if a line of its objects is not loaded.
fn made(started: Result<Started, StartError>) -> Result<Option<Started>, Memory>
    requires unopened { IfOk started (λ s. s.core.next_id ≡ 0) }
    requires waiting { IfOk started (λ s. s.desk.waiting ≡ []) }
    ensures unopened { IfOk result (λ o. IfSome o (λ s. s.core.next_id ≡ 0)) }
    ensures waiting { IfOk result (λ o. IfSome o (λ s. s.desk.waiting ≡ [])) }
{
    match started {
        Ok(started) => Ok(Some(started)),
        Err(StartError::Line(_line)) => Ok(None),
        Err(StartError::Memory) => Err(AllocError),
    }
}

/// The failures with their reasons, in the order of their events.
fn explain_all(
    alloc: Global,
    core: &mut Core<IndexedPolicy>,
    lines: &[Sequence<u8>],
    case: &Case,
    failures: Vec<Failure>,
) -> Result<Vec<Failure>, Memory>
    ensures { IfOk result (λ v. map bare v.items ≡ map bare failures.items) }
{
    let mut explained = Vec::new(alloc);
    let mut played = 0;
    for failure in failures {
        played = play_to(alloc, core, case, played, events_of(&failure))?;
        explained.push(with_reason_if(alloc, core.policy(), lines, failure)?)?;
    }
    Ok(explained)
}

/// How many events were played up to the answer that a failure is about; none if it is about no answer.
fn events_of(failure: &Failure) -> usize {
    match failure {
        Failure::Differs(difference) => difference.events,
        _ => 0,
    }
}

/// The failure, with its reason if it is about the answer to a request.
fn with_reason_if<P: Policy>(
    alloc: Global,
    policy: &P,
    lines: &[Sequence<u8>],
    failure: Failure,
) -> Result<Failure, Memory>
    ensures { IfOk result (λ f. bare f ≡ bare failure) }
{
    match failure {
        Failure::Differs(difference) => Ok(Failure::Differs(with_reason(
            alloc, policy, lines, difference,
        )?)),
        other => Ok(other),
    }
}

/// Plays the events after the first `played` and before the last of the first `events`. Returns how many events are
/// played in all.
fn play_to(
    alloc: Global,
    core: &mut Core<IndexedPolicy>,
    case: &Case,
    played: usize,
    events: usize,
) -> Result<usize, Memory> {
    let until = events.saturating_sub(1);
    let Some(script) = case.script.as_slice().get(played..until) else {
        return Ok(played);
    };
    let text = script_text(alloc, script)?;
    let mut reader = text.as_slice();
    let mut answers = Vec::new(alloc);
    match play_script(alloc, core, &mut reader, &mut answers) {
        Ok(()) => Ok(until),
        Err(_fault) => Err(AllocError),
    }
}

/// How the answer begins to a request that is not served for want of a permission.
const REFUSED: &[u8] = b"out HTTP/1.1 403 ";

/// The difference with its reason, if there is one.
fn with_reason<P: Policy>(
    alloc: Global,
    policy: &P,
    lines: &[Sequence<u8>],
    difference: Difference,
) -> Result<Difference, Memory>
    ensures { IfOk result (λ d. record d { reason = [] } ≡ record difference { reason = [] }) }
{
    let Difference {
        number,
        asked,
        events,
        answer,
        reason: _reason,
    } = difference;
    let mut reason = rights(alloc, policy, lines, asked)?;
    if reason.starts_with("allowed") && answer.as_slice().starts_with(REFUSED) {
        reason.push_str(", but it gives what its writer lacks, as the causes say")?;
    }
    Ok(Difference {
        number,
        asked,
        events,
        answer,
        reason: Text::new(reason),
    })
}

/// Which rule allows the request on a line, or which permission is missing; empty if it has no attributes, or its
/// identity is not that of an `as` line.
fn rights<P: Policy>(
    alloc: Global,
    policy: &P,
    lines: &[Sequence<u8>],
    asked: usize,
) -> Result<String, Memory> {
    let Some(attributes) = attributes_of(alloc, line_at(lines, asked))? else {
        return Ok(String::new(alloc));
    };
    let Some(identity) = asker(alloc, lines, asked)? else {
        return Ok(String::new(alloc));
    };
    if impersonates(alloc, lines, asked)? {
        return Ok(String::new(alloc));
    }
    let namespace = attributes.namespace.as_str();
    let decision = policy.decide(&identity, namespace, &attributes.point);
    match reason(alloc, &decision)? {
        Some(reason) => allowed_words(alloc, namespace, reason.as_str()),
        None => missing_words(alloc, namespace, &attributes.point),
    }
}

/// The identity of the last `as` line before this one, if it names one.
fn asker(alloc: Global, lines: &[Sequence<u8>], asked: usize) -> Result<Option<Identity>, Memory> {
    let before = lines.get(..asked).unwrap_or(&[]);
    for line in before.iter().rev() {
        if let Some(names) = line.as_slice().strip_prefix(b"as ".as_slice()) {
            return read_identity(alloc, names);
        }
    }
    Ok(None)
}

/// Whether a header field below the line asks for another identity.
fn impersonates(alloc: Global, lines: &[Sequence<u8>], asked: usize) -> Result<bool, Memory> {
    for line in lines.iter().skip(asked) {
        let line = line.as_slice();
        let Form::Field = parse_form(alloc, line)? else {
            return Ok(false);
        };
        if names_another(line) {
            return Ok(true);
        }
    }
    Ok(false)
}

/// Whether the header field names the user that is asked for (Kubernetes, 'Authenticating', 'User impersonation').
fn names_another(line: &[u8]) -> bool {
    match as_text(line) {
        Some(line) => match line.split_once(':') {
            Some((name, _value)) => name.eq_ignore_ascii_case("impersonate-user"),
            None => false,
        },
        None => false,
    }
}

/// The rule that allows a request in a namespace.
fn allowed_words(alloc: Global, namespace: &str, reason: &str) -> Result<String, Memory> {
    match reason.strip_prefix("RoleBinding ") {
        Some(rest) => format!(in alloc; "allowed by RoleBinding {namespace}/{rest}"),
        None => format!(in alloc; "allowed by {reason}"),
    }
}

/// The permission that no rule gives.
fn missing_words(alloc: Global, namespace: &str, point: &Point) -> Result<String, Memory> {
    let point = match point {
        Point::Url(point) => {
            let verb = point.verb.as_str();
            let path = point.path.as_str();
            return format!(in alloc; "missing permission: {verb} {path}");
        }
        Point::Resource(point) => point,
    };
    let verb = point.verb.as_str();
    let resource = point.resource.as_str();
    let mut words = format!(in alloc; "missing permission: {verb} {resource}")?;
    push_word(&mut words, "/", point.subresource.as_str())?;
    push_word(&mut words, " of ", point.group.as_str())?;
    push_word(&mut words, " named ", point.name.as_str())?;
    push_word(&mut words, " in namespace ", namespace)?;
    Ok(words)
}

/// Appends a separator and a word, unless the word is empty.
fn push_word(words: &mut String, part: &str, word: &str) -> Result<(), Memory> {
    if word.is_empty() {
        return Ok(());
    }
    words.push_str(part)?;
    words.push_str(word)
}
