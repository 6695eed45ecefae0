//! The outcomes of transcripts as JUnit has them.

use crate::failure::{Check, Failure, Outcome};
use crate::files::Transcript;
use crate::report::{is_difference, line_at, number_of, push_failure};
use kapi_lines::{as_text, split_lines};
use kapi_text::{Memory, Sequence};
use std::alloc::Global;
use std::fmt;

/// A text in XML, with `?` for control characters but tabs and ends of lines, and for bytes outside ASCII, unless the
/// text is UTF-8 without characters from U+F000 to U+FFFF, two of which are forbidden (XML 1.0, section 2.2).
#[derive(Clone, Copy)]
struct Xml<'a>(&'a [u8]);

impl fmt::Display for Xml<'_> {
    fn fmt<W: fmt::Write>(&self, f: &mut fmt::Formatter<W>) -> fmt::Result {
        match as_text(self.0) {
            Some(text) if !self.0.contains(&239) => {
                for character in text.chars() {
                    write_character(f, character)?;
                }
            }
            _ => {
                for byte in self.0 {
                    write_character(f, if *byte < 128 { char::from(*byte) } else { '?' })?;
                }
            }
        }
        Ok(())
    }
}

fn write_character<W: fmt::Write>(f: &mut fmt::Formatter<W>, character: char) -> fmt::Result {
    match character {
        '&' => f.write_str("&amp;"),
        '<' => f.write_str("&lt;"),
        '>' => f.write_str("&gt;"),
        '"' => f.write_str("&quot;"),
        '\t' => f.write_str("&#9;"),
        '\n' => f.write_str("&#10;"),
        '\r' => f.write_str("&#13;"),
        '\0'..='\x1f' => f.write_char('?'),
        _ => f.write_char(character),
    }
}

/// Appends the case of a check, which fails or not.
fn push_case(
    alloc: Global,
    text: &mut String,
    name: &str,
    lines: &[Sequence<u8>],
    check: Check,
    failure: Option<&Failure>,
) -> Result<(), Memory> {
    let class = Xml(name.as_bytes());
    let number = check.number;
    let line = Xml(line_at(lines, number));
    write!(
        text,
        "<testcase classname=\"{class}\" name=\"{number}: {line}\""
    )?;
    match failure {
        Some(failure) => {
            let mut report = Vec::new(alloc);
            push_failure(&mut report, name, lines, failure)?;
            let report = Xml(report.as_slice());
            write!(text, "><failure>{report}</failure></testcase>\n")
        }
        None if check.compared => text.push_str("/>\n"),
        None => text.push_str("><skipped/></testcase>\n"),
    }
}

/// Whether the failure is the difference at that line.
fn differs_at(number: usize, failure: &Failure) -> bool {
    is_difference(failure) && number_of(failure) == number
}

/// Appends a case for each check, and for each failure that is no difference of a check.
fn push_cases(
    alloc: Global,
    text: &mut String,
    lines: &[Sequence<u8>],
    outcome: &Outcome,
) -> Result<(), Memory> {
    let name = outcome.name.as_str();
    let failures = outcome.failures.as_slice();
    for check in outcome.checks.as_slice() {
        let number = check.number;
        let failure = failures.iter().find(|failure| differs_at(number, failure));
        push_case(alloc, text, name, lines, *check, failure)?;
    }
    for failure in failures {
        if !is_difference(failure) {
            let check = Check {
                number: number_of(failure),
                compared: true,
            };
            push_case(alloc, text, name, lines, check, Some(failure))?;
        }
    }
    Ok(())
}

/// Appends how a suite begins: how many cases it has, how many of them fail, and how many were not compared.
fn push_head(text: &mut String, outcome: &Outcome) -> Result<(), Memory> {
    let suite = Xml(outcome.name.as_str().as_bytes());
    let checks = outcome.checks.as_slice();
    let failures = outcome.failures.as_slice();
    let others = failures
        .iter()
        .filter(|failure| !is_difference(failure))
        .count();
    let tests = checks.len() + others;
    let failed = failures.len();
    let skipped = checks.iter().filter(|check| !check.compared).count();
    write!(
        text,
        "<testsuite name=\"{suite}\" tests=\"{tests}\" failures=\"{failed}\" skipped=\"{skipped}\">\n"
    )
}

/// Appends the suite of a transcript.
fn push_suite(
    alloc: Global,
    text: &mut String,
    transcript: &Transcript,
    outcome: &Outcome,
) -> Result<(), Memory> {
    let lines = split_lines(alloc, transcript.file.bytes.as_slice())?;
    push_head(text, outcome)?;
    push_cases(alloc, text, lines.as_slice(), outcome)?;
    text.push_str("</testsuite>\n")
}

/// The outcomes of transcripts as JUnit has them: a suite for each transcript, and in it a case for each check.
pub fn junit_text(
    alloc: Global,
    transcripts: &[Transcript],
    outcomes: &[Outcome],
) -> Result<String, Memory> {
    let mut text = String::new(alloc);
    text.push_str("<?xml version=\"1.0\" encoding=\"UTF-8\"?>\n<testsuites>\n")?;
    for (transcript, outcome) in transcripts.iter().zip(outcomes.iter()) {
        push_suite(alloc, &mut text, transcript, outcome)?;
    }
    text.push_str("</testsuites>\n")?;
    Ok(text)
}
