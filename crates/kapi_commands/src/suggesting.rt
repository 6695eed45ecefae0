//! The least roles for what was used: `kapi suggest`.
use crate::asking::{doubts_of, tell_unsettled};
use crate::checking::{binding_kind, place_words};
use crate::policies::load_first;
use kapi_command_line::SuggestWords;
use kapi_engine::{access_reviews, question_of};
use kapi_files::{Ending, Plain, ReadPolicy, print, read_file, read_policy, tell_refused};
use kapi_index::IndexedPolicy;
use kapi_lines::numbered_lines;
use kapi_model::Subject;
use kapi_policy::Binding;
use kapi_reviews::Question;
use kapi_suggest::{allowed_uses, list, manifests, read_events, suggest, unused_rules};
use kapi_text::Memory;
use std::alloc::Global;
use std::fs::Files;
use std::io;

/// Prints roles and bindings for what was used: status 0, 4 if the roles of the policy are not settled, or 1 after a
/// line on standard error.
pub fn run_suggest<R: Files + Input + Print + Eprint + AllocGlobal + Clone + Drop>(
    rt: &R,
    words: &SuggestWords,
) -> io::Result<Ending> {
    let Some(bytes) = read_file(rt, words.uses.as_str())? else {
        return Ok(Ending::Stopped);
    };
    let uses = match uses_in(rt.alloc(), words.log, bytes.as_slice())? {
        Ok(uses) => uses,
        Err(line) => {
            let file = words.uses.as_str();
            let what = if words.log {
                "event of an audit log"
            } else {
                "question"
            };
            eprintln!(rt; "{file}:{line}: it is no {what}")?;
            return Ok(Ending::Stopped);
        }
    };
    if words.policy.as_str().is_empty() {
        tell_masters(rt, uses.as_slice())?;
        print_suggested(rt, words.list, uses.as_slice())?;
        return Ok(Ending::Done);
    }
    let Some(policy) = read_policy(rt, words.policy.as_str(), &words.reading)? else {
        return Ok(Ending::Stopped);
    };
    suggest_beside(rt, words, &policy, uses)
}

/// Prints roles for the uses that a policy allows, and reports how many it denies and which of its rules no use needs.
fn suggest_beside<R: Print + Eprint + AllocGlobal>(
    rt: &R,
    words: &SuggestWords,
    read: &ReadPolicy,
    uses: Vec<Question>,
) -> io::Result<Ending> {
    let Ok(loaded) = load_first(rt.alloc(), read.lines()) else {
        tell_refused(rt, read)?;
        return Ok(Ending::Stopped);
    };
    let all = uses.len();
    let allowed = allowed_uses(rt.alloc(), &loaded.policy, uses)?;
    let denied = all.saturating_sub(allowed.len());
    if denied > 0 {
        eprintln!(rt; "left out, as the policy denies them: {denied}")?;
    }
    tell_masters(rt, allowed.as_slice())?;
    print_suggested(rt, words.list, allowed.as_slice())?;
    tell_unused(rt, &loaded.policy, allowed.as_slice())?;
    tell_unsettled(rt, words.policy.as_str(), loaded.settled)?;
    let doubts = doubts_of(rt, words.policy.as_str(), read)?;
    let doubted = words.reading.strict && doubts.are_some();
    Ok(
        Ending::Done
            .or_doubted(doubted)
            .or_unsettled(loaded.settled),
    )
}

/// The uses of a file, or the line of it that is none.
fn uses_in(alloc: Global, log: bool, bytes: &[u8]) -> Result<Result<Vec<Question>, usize>, Memory> {
    let lines = numbered_lines(alloc, bytes)?;
    if log {
        return match read_events(alloc, lines.as_slice()) {
            Ok(uses) => Ok(Ok(uses)),
            Err(kapi_access::LineFault::Question(line)) => Ok(Err(line)),
            Err(kapi_access::LineFault::Memory) => Err(std::alloc::AllocError),
        };
    }
    let row = access_reviews().row(alloc)?;
    let mut uses = Vec::new(alloc);
    for line in lines.iter() {
        match question_of(alloc, &row, line.text)? {
            Some(question) => uses.push(question)?,
            None => return Ok(Err(line.number)),
        }
    }
    Ok(Ok(uses))
}

fn print_suggested<R: Print + AllocGlobal>(
    rt: &R,
    is_list: bool,
    uses: &[Question],
) -> io::Result<()> {
    let suggested = suggest(rt.alloc(), uses)?;
    let text = if is_list {
        list(rt.alloc(), suggested.as_slice())?
    } else {
        manifests(rt.alloc(), suggested.as_slice())?
    };
    print(rt, text.as_slice())
}

/// Reports how many uses are of members of `system:masters`, who need no role.
fn tell_masters(rt: &impl Eprint, uses: &[Question]) -> io::Result<()> {
    let masters = uses.iter().filter(|used| used.identity.is_master()).count();
    if masters > 0 {
        eprintln!(rt; "left out, as members of system:masters need no role: {masters}")?;
    }
    Ok(())
}

/// Reports the rules that no use needs, a line for each binding that gives them. Members of `system:masters` need no rule,
/// so bindings of that group alone are left out.
fn tell_unused<R: Eprint + AllocGlobal>(
    rt: &R,
    policy: &IndexedPolicy,
    uses: &[Question],
) -> io::Result<()> {
    let bindings = policy.bindings()?;
    let mut last = String::new(rt.alloc());
    for found in unused_rules(rt.alloc(), policy, bindings.as_slice(), uses)?.iter() {
        let (rule, words) = (found.rule, unused_words(rt.alloc(), &found.binding)?);
        if found
            .binding
            .subjects
            .iter()
            .all(|subject| is_masters(subject))
        {
            continue;
        }
        if words.as_str() == last.as_str() {
            eprint!(rt; ", rule {rule}")?;
            continue;
        }
        if !last.is_empty() {
            rt.eprint("\n")?;
        }
        let plain = Plain(words.as_str());
        eprint!(rt; "may go: {plain}, rule {rule}")?;
        last = words;
    }
    if last.is_empty() {
        return Ok(());
    }
    rt.eprint("\n")
}

/// A binding and its role in words.
fn unused_words(alloc: Global, binding: &Binding<'_>) -> Result<String, Memory> {
    let kind = binding_kind(binding.kind);
    let words = place_words(alloc, kind, binding.namespace, binding.name)?;
    let (role_kind, role) = (binding.role.kind.as_str(), binding.role.name.as_str());
    format!(in alloc; "{words}, {role_kind} {role}")
}

fn is_masters(subject: &Subject) -> bool {
    match subject {
        Subject::Group(group) => group.as_str() == "system:masters",
        _ => false,
    }
}
