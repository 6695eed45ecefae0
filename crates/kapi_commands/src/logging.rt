//! A cluster's audit log, answered by a policy: `kapi audit --log`.
use crate::asking::{doubts_of, tell_unsettled};
use crate::checking::request_words;
use crate::policies::load_first;
use crate::rows::{denied_row, difference_row};
use kapi_command_line::{AuditFiles, Reading};
use kapi_files::{Ending, print, read_file, read_policy, tell_refused};
use kapi_lines::{Form, numbered_lines};
use kapi_policy::Policy;
use kapi_report::report;
use kapi_reviews::Question;
use kapi_suggest::{Shown, read_event};
use kapi_text::{Memory, Text};
use std::alloc::Global;
use std::collections::BTreeMap;
use std::fs::Files;
use std::io;
use std::time::{Clock, Instant};

/// The number of lines between two readings of the clock.
const LINES: usize = 65_536;

/// A request of the log, and whether the cluster allowed it.
#[derive(Drop)]
struct Logged {
    line: usize,
    request: Question,
    allowed: bool,
}

/// Prints each request on which the policy and the log differ, and then how often the policy would refuse what to whom:
/// status 0 if no decision differs, 3 if one does, 4 if the roles are not settled, or 1 after a line on standard error.
pub fn audit_log<R: Files + Input + Print + Eprint + AllocGlobal + Clock + Clone + Drop>(
    rt: &R,
    files: &AuditFiles,
    reading: &Reading,
    on_terminal: bool,
) -> io::Result<Ending> {
    let name = files.policy.as_str();
    let Some(policy) = read_policy(rt, name, reading)? else {
        return Ok(Ending::Stopped);
    };
    let Some(log) = read_file(rt, files.questions.as_str())? else {
        return Ok(Ending::Stopped);
    };
    let logged = match requests_of(rt, log.as_slice(), on_terminal)? {
        Ok(logged) => logged,
        Err(line) => {
            let file = files.questions.as_str();
            eprintln!(rt; "{file}:{line}: it is no event of an audit log")?;
            return Ok(Ending::Stopped);
        }
    };
    let Ok(loaded) = load_first(rt.alloc(), policy.lines()) else {
        tell_refused(rt, &policy)?;
        return Ok(Ending::Stopped);
    };
    let judged = judge(rt.alloc(), files.form, &loaded.policy, logged.as_slice())?;
    print(rt, judged.text.as_slice())?;
    tell_unsettled(rt, name, loaded.settled)?;
    let doubts = doubts_of(rt, name, &policy)?;
    let ending = if judged.differ {
        Ending::Differing
    } else {
        Ending::Done
    };
    let doubted = reading.strict && doubts.are_some();
    Ok(ending.or_doubted(doubted).or_unsettled(loaded.settled))
}

/// The requests in the lines of a log, or the number of the first line that is no event. On a terminal, progress is
/// shown.
fn requests_of<R: Eprint + AllocGlobal + Clock>(
    rt: &R,
    log: &[u8],
    on_terminal: bool,
) -> io::Result<Result<Vec<Logged>, usize>> {
    let alloc = rt.alloc();
    let started = Instant::now(rt)?;
    let mut logged = Vec::new(alloc);
    let lines = numbered_lines(alloc, log)?;
    for (count, line) in lines.iter().enumerate() {
        if on_terminal && count % LINES == LINES - 1 {
            show_progress(rt, &started, count + 1, lines.len())?;
        }
        let (request, allowed) = match read_event(alloc, line.text)? {
            Shown::Used(request) => (request, true),
            Shown::Refused(request) => (request, false),
            Shown::Nothing => continue,
            Shown::NoEvent => return Ok(Err(line.number)),
        };
        logged.push(Logged {
            line: line.number,
            request,
            allowed,
        })?;
    }
    Ok(Ok(logged))
}

/// Shows how many lines were read, once that takes over a second.
fn show_progress<R: Eprint + Clock>(
    rt: &R,
    started: &Instant,
    count: usize,
    all: usize,
) -> io::Result<()> {
    if started.elapsed(rt)?.as_secs() >= 1 {
        eprintln!(rt; "{count} of {all} lines")?;
    }
    Ok(())
}

/// What is printed of a log, and whether a decision differs.
#[derive(Drop)]
struct Judged {
    text: Vec<u8>,
    differ: bool,
}

/// A request of the log on which the policy and the log differ, in words.
#[derive(Drop)]
struct Difference {
    line: usize,
    allowed: bool,
    words: String,
}

fn judge<P: Policy>(
    alloc: Global,
    form: Form,
    policy: &P,
    logged: &[Logged],
) -> Result<Judged, Memory> {
    let mut differences = Vec::new(alloc);
    let mut denied = BTreeMap::new(alloc);
    for one in logged {
        let request = &one.request;
        let namespace = request.namespace.as_str();
        let decision = policy.decide(&request.identity, namespace, &request.point);
        let allowed = decision.is_allowed();
        if allowed != one.allowed {
            differences.push(Difference {
                line: one.line,
                allowed: one.allowed,
                words: request_words(alloc, request)?,
            })?;
        }
        if !allowed {
            count_one(alloc, &mut denied, request)?;
        }
    }
    let mut text = differences_text(alloc, form, differences.as_slice())?;
    if form != Form::Json && !denied.is_empty() {
        text.push(b'\n')?;
    }
    text.extend_from_slice(denied_text(alloc, form, &denied)?.as_slice())?;
    let differ = !differences.is_empty();
    Ok(Judged { text, differ })
}

fn count_one(
    alloc: Global,
    denied: &mut BTreeMap<Text, usize>,
    request: &Question,
) -> Result<(), Memory> {
    let words = Text::new(request_words(alloc, request)?);
    let count: usize = match denied.get(&words) {
        Some(count) => *count,
        None => 0,
    };
    drop(denied.insert(words, count.saturating_add(1))?);
    Ok(())
}

fn differences_text(
    alloc: Global,
    form: Form,
    differences: &[Difference],
) -> Result<Vec<u8>, Memory> {
    let mut rows = Vec::new(alloc);
    for difference in differences {
        let (line, allowed) = (difference.line, difference.allowed);
        let request = difference.words.as_str();
        rows.push(difference_row(alloc, line, allowed, request)?)?;
    }
    let heads = ["LINE", "LOG", "POLICY", "REQUEST"];
    report(
        alloc,
        form,
        &heads,
        "No decision differs.\n",
        &[],
        rows.as_slice(),
    )
}

/// How often the policy denies which request.
fn denied_text(
    alloc: Global,
    form: Form,
    denied: &BTreeMap<Text, usize>,
) -> Result<Vec<u8>, Memory> {
    let mut rows = Vec::new(alloc);
    for (words, count) in denied {
        rows.push(denied_row(alloc, *count, words.as_str())?)?;
    }
    report(alloc, form, &["TIMES", "DENIED"], "", &[], rows.as_slice())
}
