//! Transcripts, played one after the other.
ghost use Rattle.std.specs.Prelude.{◌≡◌, ◌++◌, ◌∷◌, [], IfOk, OnOk};
ghost use Rattle.kapi_replay.specs.Outcomes as comes;
ghost use Rattle.std.specs.List.{list_all};
ghost use Rattle.kapi_replay.specs.Outcomes.{ArePlayed, IsOutcome, IsReplayed};
ghost use Rattle.kapi_transcripts.specs.Reports.{is_difference as is_difference_of};

use crate::doubts::doubts_of;
use crate::explained::explained;
use crate::played_case::play_case;
use kapi_lines::split_lines;
use kapi_text::{Memory, Sequence, TryCopy};
use kapi_transcripts::{
    Case, Check, Failure, LoadedFile, Outcome, Transcript, cases_in, is_difference, outcome_text,
};
use std::alloc::Global;
use std::io::{self, Write};
use std::sync::Wait;
use thiserror::Error;

/// Why transcripts were not played to their end. The reports before the fault are written.
#[derive(Clone, Copy, Debug, PartialEq, Eq, Error)]
pub enum ReplayFault {
    #[error("the reports cannot be written")]
    Write,
    #[error("out of memory")]
    Memory,
}

impl From<Memory> for ReplayFault {
    fn from(_error: Memory) -> ReplayFault {
        ReplayFault::Memory
    }
}

/// What became of some cases.
#[derive(Drop)]
struct Played {
    checks: Vec<Check>,
    failures: Vec<Failure>,
}

/// Whether all failures are answers that differ.
fn are_differences(failures: &[Failure]) -> bool
    ensures { result ≡ list_all (λ f. is_difference_of f) failures.now }
{
    failures.iter().all(|failure| is_difference(failure))
}

/// Appends the checks of a case with these failures.
fn push_checks(checks: &mut Vec<Check>, case: &Case, failures: &[Failure]) -> Result<(), Memory>
    ensures { OnOk result (checks.new.items ≡ checks.old.items ++ comes.checks_in case.now failures.now) }
{
    let compared = are_differences(failures);
    for want in case.wants.as_slice() {
        let number = want.number;
        checks.push(Check { number, compared })?;
    }
    Ok(())
}

/// Plays some cases.
fn play_cases<R: Wait>(
    alloc: Global,
    rt: &R,
    loads: &[LoadedFile],
    lines: &[Sequence<u8>],
    cases: &[Case],
) -> Result<Played, Memory>
    ensures { IfOk result (λ p. ArePlayed loads.now cases.now p.checks.items p.failures.items) }
{
    let mut checks = Vec::new(alloc);
    let mut failures = Vec::new(alloc);
    let mut rest = cases;
    while let Some((case, later)) = rest.split_first() {
        let found = play_case(alloc, rt, loads, case)?;
        let mut more = explained(alloc, rt, loads, lines, case, found)?;
        push_checks(&mut checks, case, more.as_slice())?;
        failures.append(&mut more)?;
        rest = later;
    }
    Ok(Played { checks, failures })
}

/// Plays a transcript.
fn play<R: Wait>(alloc: Global, rt: &R, transcript: &Transcript) -> Result<Outcome, Memory>
    ensures { IfOk result (IsOutcome transcript.now) }
{
    let bytes = transcript.file.bytes.as_slice();
    let cases = cases_in(alloc, bytes)?;
    let lines = split_lines(alloc, bytes)?;
    let loads = transcript.loads.as_slice();
    let Played { checks, failures } = play_cases(
        alloc,
        rt,
        loads,
        lines.as_slice(),
        cases.as_slice(),
    )?;
    let doubts = doubts_of(alloc, loads, lines.as_slice(), cases.as_slice())?;
    Ok(Outcome {
        name: transcript.file.name.copy(alloc)?,
        checks: Sequence::new(checks),
        failures: Sequence::new(failures),
        doubts: Sequence::new(doubts),
    })
}

/// Plays a transcript and writes its report.
fn replay<R: Wait, W: Write>(
    alloc: Global,
    rt: &R,
    transcript: &Transcript,
    rewrites: bool,
    writer: &mut W,
) -> Result<Outcome, ReplayFault>
    ensures { IfOk result (λ o. comes.IsReported rewrites transcript.now (W.contents writer.old) (W.contents writer.new) o) }
{
    let outcome = play(alloc, rt, transcript)?;
    let text = outcome_text(alloc, rewrites, transcript.file.bytes.as_slice(), &outcome)?;
    match writer.write_all(text.as_slice()) {
        Ok(()) => Ok(outcome),
        Err(_fault) => Err(ReplayFault::Write),
    }
}

fn keep(outcomes: &mut Vec<Outcome>, outcome: Outcome) -> Result<(), Memory>
    ensures { OnOk result (outcomes.new.items ≡ outcomes.old.items ++ outcome ∷ []) }
{
    outcomes.push(outcome)?;
    Ok(())
}

/// Plays transcripts, each case on a machine of its own. Writes a report of each transcript or, if `rewrites` is set,
/// the transcript with each unmet expectation corrected to the actual answer. Returns the outcome of each.
///
/// # Errors
/// `Write` if the writer fails, `Memory` if an allocation fails outside an event.
pub fn replay_run<R: Wait, W: Write>(
    alloc: Global,
    rt: &R,
    transcripts: &[Transcript],
    rewrites: bool,
    writer: &mut W,
) -> Result<Vec<Outcome>, ReplayFault>
    ensures { IfOk result (λ v. IsReplayed rewrites transcripts.now (W.contents writer.old) (W.contents writer.new) v.items) }
{
    let mut outcomes = Vec::new(alloc);
    let mut rest = transcripts;
    while let Some((transcript, later)) = rest.split_first() {
        let outcome = replay(alloc, rt, transcript, rewrites, writer)?;
        keep(&mut outcomes, outcome)?;
        rest = later;
    }
    Ok(outcomes)
}
