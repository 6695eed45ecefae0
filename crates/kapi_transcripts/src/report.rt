//! The report of a transcript.
ghost use Rattle.std.specs.Prelude.{◌≡◌, ◌++◌, IfOk, OnOk, option_map};
ghost use Rattle.std.specs.List.{list_all};
ghost use Rattle.kapi_transcripts.specs.Wants.{wanted_of};
ghost use Rattle.kapi_transcripts.specs.Reports as reports;
ghost use Rattle.kapi_transcripts.specs.Reports.{came_for as came_for_of, failures_text, is_sure as is_sure_of, is_well as is_well_of, report_text, rewritten, rewritten_line};

use crate::correction::{corrected, exactly};
use crate::failure::{Difference, Failure, Outcome};
use crate::request::push_number;
use crate::wanted::parse_wanted;
use kapi_lines::{nth, split_lines};
use kapi_text::{Memory, Sequence, Text};
use std::alloc::Global;

/// The line of this number, from 1; nothing if there is none.
pub fn line_at(lines: &[Sequence<u8>], number: usize) -> &[u8]
    ensures { result.now ≡ reports.line_at lines.now number }
{
    match nth(lines, number) {
        Some(line) => line.as_slice(),
        None => b"".as_slice(),
    }
}

/// The line of the event that was answered; in its place words that there is none.
fn asked_line(lines: &[Sequence<u8>], number: usize) -> &[u8]
    ensures { result.now ≡ reports.asked_text lines.now number }
{
    if number == 0 {
        b"nothing: no request or event comes before it in its case".as_slice()
    } else {
        line_at(lines, number)
    }
}

/// Appends a label and what it names.
fn push_part(text: &mut Vec<u8>, label: &[u8], part: &[u8]) -> Result<(), Memory>
    ensures { OnOk result (text.new.items ≡ (text.old.items ++ label.now) ++ part.now) }
{
    text.extend_from_slice(label)?;
    text.extend_from_slice(part)?;
    Ok(())
}

/// Appends `NAME:LINE`.
fn push_place(text: &mut Vec<u8>, name: &str, number: usize) -> Result<(), Memory>
    ensures { OnOk result (text.new.items ≡ text.old.items ++ reports.place_text name.now number) }
{
    text.extend_from_slice(name.as_bytes())?;
    push_number(text, b":", number)
}

/// Appends an answer that is not as wanted, and why the request was allowed or not.
fn push_difference(
    text: &mut Vec<u8>,
    lines: &[Sequence<u8>],
    difference: &Difference,
) -> Result<(), Memory>
    ensures { OnOk result (text.new.items ≡ text.old.items ++ reports.difference_text lines.now difference.now) }
{
    push_part(text, b"\n  asked  ", asked_line(lines, difference.asked))?;
    push_part(text, b"\n  wanted ", line_at(lines, difference.number))?;
    push_part(text, b"\n  got    ", difference.answer.as_slice())?;
    if difference.reason.as_str().is_empty() {
        return Ok(());
    }
    push_part(text, b"\n  why    ", difference.reason.as_str().as_bytes())
}

/// Appends what is not as wanted.
fn push_what(text: &mut Vec<u8>, lines: &[Sequence<u8>], failure: &Failure) -> Result<(), Memory>
    ensures { OnOk result (text.new.items ≡ text.old.items ++ reports.what_text lines.now failure.now) }
{
    match failure {
        Failure::Differs(difference) => push_difference(text, lines, difference),
        Failure::NoForm(_number, reason) => {
            text.extend_from_slice(b": no known form")?;
            push_reason(text, reason)
        }
        Failure::NoFile(_number) => Ok(text.extend_from_slice(b": the file cannot be read")?),
        Failure::NoKind(_number) => {
            Ok(text.extend_from_slice(b": the file or folder holds no kind")?)
        }
        Failure::NoCheck(_number) => {
            Ok(text.extend_from_slice(b": the case that begins here checks nothing")?)
        }
        Failure::NotLoaded(_number, line, reason) => {
            push_number(text, b": load line ", *line)?;
            push_reason(text, reason)
        }
        Failure::BadManifests(_number, reason) => push_manifests(text, reason),
    }
}

/// Appends a reason, on a line of its own.
fn push_reason(text: &mut Vec<u8>, reason: &Text) -> Result<(), Memory>
    ensures { OnOk result (text.new.items ≡ text.old.items ++ reports.reason_text reason.now) }
{
    push_part(text, b"\n  ", reason.as_str().as_bytes())
}

/// Appends what is wrong with manifests.
fn push_manifests(text: &mut Vec<u8>, reason: &Sequence<u8>) -> Result<(), Memory>
    ensures { OnOk result (text.new.items ≡ text.old.items ++ reports.manifests_text reason.now) }
{
    push_label(
        text,
        b": the manifests are not loaded\n  ",
        reason.as_slice(),
    )
}

/// Appends a label with what it names.
fn push_label(text: &mut Vec<u8>, label: &[u8], part: &[u8]) -> Result<(), Memory>
    ensures { OnOk result (text.new.items ≡ text.old.items ++ (label.now ++ part.now)) }
{
    text.extend_from_slice(label)?;
    text.extend_from_slice(part)?;
    Ok(())
}

/// The line of the transcript at which something is not as wanted.
pub fn number_of(failure: &Failure) -> usize
    ensures { result ≡ reports.number_of failure.now }
{
    match failure {
        Failure::Differs(difference) => difference.number,
        Failure::NoForm(number, _reason) => *number,
        Failure::NoFile(number) => *number,
        Failure::NoKind(number) => *number,
        Failure::NoCheck(number) => *number,
        Failure::NotLoaded(number, _line, _reason) => *number,
        Failure::BadManifests(number, _reason) => *number,
    }
}

/// Whether the failure is an answer that differs.
pub fn is_difference(failure: &Failure) -> bool
    ensures { result ≡ reports.is_difference failure.now }
{
    matches!(failure, Failure::Differs(_))
}

/// Appends a failure, and where it is.
pub fn push_failure(
    text: &mut Vec<u8>,
    name: &str,
    lines: &[Sequence<u8>],
    failure: &Failure,
) -> Result<(), Memory>
    ensures { OnOk result (text.new.items ≡ text.old.items ++ reports.failure_text name.now lines.now failure.now) }
{
    push_place(text, name, number_of(failure))?;
    push_what(text, lines, failure)?;
    text.push(b'\n')?;
    Ok(())
}

fn push_failures(
    text: &mut Vec<u8>,
    name: &str,
    lines: &[Sequence<u8>],
    failures: &[Failure],
) -> Result<(), Memory>
    ensures { OnOk result (text.new.items ≡ text.old.items ++ failures_text name.now lines.now failures.now) }
{
    for failure in failures {
        push_failure(text, name, lines, failure)?;
    }
    Ok(())
}

/// Appends how many failures there are, if there are some.
fn push_count(text: &mut Vec<u8>, failures: usize) -> Result<(), Memory>
    ensures { OnOk result (text.new.items ≡ text.old.items ++ reports.count_text failures) }
{
    if failures == 0 {
        return Ok(text.extend_from_slice(b"\n")?);
    }
    push_number(text, b", ", failures)?;
    text.extend_from_slice(b" not as wanted\n")?;
    Ok(())
}

/// The report of a transcript: each failure, and how many checks it has.
fn report(alloc: Global, lines: &[Sequence<u8>], outcome: &Outcome) -> Result<Vec<u8>, Memory>
    ensures { IfOk result (λ v. v.items ≡ report_text lines.now outcome.now) }
{
    let mut text = Vec::new(alloc);
    let name = outcome.name.as_str();
    push_failures(&mut text, name, lines, outcome.failures.as_slice())?;
    text.extend_from_slice(name.as_bytes())?;
    push_number(&mut text, b": ", outcome.checks.as_slice().len())?;
    text.extend_from_slice(b" checks")?;
    push_count(&mut text, outcome.failures.as_slice().len())?;
    Ok(text)
}

/// The actual answer of a failure, if the failure is a difference at this line.
fn answer_for(number: usize, failure: &Failure) -> Option<&[u8]>
    ensures { option_map (λ s. s.now) result ≡ reports.answer_for number failure.now }
{
    match failure {
        Failure::Differs(difference) => {
            if difference.number == number {
                Some(difference.answer.as_slice())
            } else {
                None
            }
        }
        _ => None,
    }
}

/// The actual answer of the first difference at this line, if there is one.
fn came_for(number: usize, failures: &[Failure]) -> Option<&[u8]>
    ensures { option_map (λ s. s.now) result ≡ came_for_of number failures.now }
{
    let mut rest = failures;
    while let [failure, tail @ ..] = rest {
        let came = answer_for(number, failure);
        if came.is_some() {
            return came;
        }
        rest = tail;
    }
    None
}

/// The line that expects the actual answer, in place of a line whose expectation is not met.
fn corrected_line(alloc: Global, line: &[u8], answer: &[u8]) -> Result<Sequence<u8>, Memory>
    ensures { IfOk result (λ s. s ≡ reports.corrected_line (wanted_of line.now) answer.now) }
{
    match parse_wanted(alloc, line)? {
        Some(wanted) => corrected(alloc, &wanted, answer),
        None => exactly(alloc, answer),
    }
}

/// Appends a line of the transcript, corrected if its expectation is not met.
fn push_line(
    alloc: Global,
    text: &mut Vec<u8>,
    number: usize,
    line: &[u8],
    failures: &[Failure],
) -> Result<(), Memory>
    ensures { OnOk result (text.new.items ≡ text.old.items ++ rewritten_line failures.now number line.now) }
{
    if number > 1 {
        text.push(b'\n')?;
    }
    match came_for(number, failures) {
        Some(answer) => {
            let line = corrected_line(alloc, line, answer)?;
            Ok(text.extend_from_slice(line.as_slice())?)
        }
        None => Ok(text.extend_from_slice(line)?),
    }
}

/// The transcript with each unmet expectation corrected to the actual answer.
fn rewrite(alloc: Global, lines: &[Sequence<u8>], failures: &[Failure]) -> Result<Vec<u8>, Memory>
    ensures { IfOk result (λ v. v.items ≡ rewritten lines.now failures.now) }
{
    let mut text = Vec::new(alloc);
    for index in 0..lines.len() {
        push_line(
            alloc,
            &mut text,
            index + 1,
            lines[index].as_slice(),
            failures,
        )?;
    }
    Ok(text)
}

/// The report of a transcript, or the transcript with the answers that came.
pub fn outcome_text(
    alloc: Global,
    rewrites: bool,
    transcript: &[u8],
    outcome: &Outcome,
) -> Result<Vec<u8>, Memory>
    ensures { IfOk result (λ v. v.items ≡ reports.written rewrites transcript.now outcome.now) }
{
    let lines = split_lines(alloc, transcript)?;
    if rewrites {
        rewrite(alloc, lines.as_slice(), outcome.failures.as_slice())
    } else {
        report(alloc, lines.as_slice(), outcome)
    }
}

/// Whether something is checked, and every answer is as wanted.
fn is_well(outcome: &Outcome) -> bool
    ensures { result ≡ is_well_of outcome.now }
{
    !outcome.checks.as_slice().is_empty() && outcome.failures.as_slice().is_empty()
}

/// Whether each transcript checks something, and every answer is as wanted.
pub fn are_well(outcomes: &[Outcome]) -> bool
    ensures { result ≡ list_all (λ o. is_well_of o) outcomes.now }
{
    outcomes.iter().all(|outcome| is_well(outcome))
}

/// Whether no transcript wants 403 of a resource that is not served.
pub fn are_sure(outcomes: &[Outcome]) -> bool
    ensures { result ≡ list_all (λ o. is_sure_of o) outcomes.now }
{
    outcomes.iter().all(|outcome| is_sure(outcome))
}

fn is_sure(outcome: &Outcome) -> bool
    ensures { result ≡ is_sure_of outcome.now }
{
    outcome.doubts.as_slice().is_empty()
}
