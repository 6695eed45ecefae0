//! A case, played.
ghost use Rattle.std.specs.Prelude.{◌≡◌, ◌++◌, ◌∷◌, [], true, IfOk, OnOk, is_err, string_bytes};
ghost use Rattle.kapi_core.specs.Machine.{Machine, with_rechecks};
ghost use Rattle.kapi_loading.specs.Loading.{machine_of};
ghost use Rattle.kapi_core.specs.Refines.{Refines};
ghost use Rattle.kapi_core.specs.Table.{fits};
ghost use Rattle.kapi_script.specs.Scripts.{start as begun};
ghost use Rattle.kapi_transcripts.specs.Reports.{line_at};
ghost use Rattle.kapi_replay.specs.Failures as fails;
ghost use Rattle.kapi_transcripts.specs.declared.failure.Failure.TheVariants as failure;
ghost use Rattle.kapi_replay.specs.Failures.{script_text as script_text_of};

use crate::forms::form_reason;
use kapi_core::Core;
use kapi_index::IndexedPolicy;
use kapi_lines::{copy_of, nth, split_lines};
use kapi_loading::{StartError, Started, object_reason, one_line, start};
use kapi_model::ResourceRow;
use kapi_script::{ScriptFault, play_script};
use kapi_text::{Memory, Sequence, Text, TryCopy};
use kapi_transcripts::{Case, Difference, Expectation, Failure, Loaded, ScriptLine, is_met};
use std::alloc::{AllocError, Global};
use std::sync::Wait;

/// The lines of a script as one text.
pub fn script_text(alloc: Global, script: &[ScriptLine]) -> Result<Vec<u8>, Memory>
    ensures { IfOk result (λ v. v.items ≡ script_text_of script.now) }
{
    let mut text = Vec::new(alloc);
    for event in script {
        push_line(&mut text, event.text.as_slice())?;
    }
    Ok(text)
}

fn push_line(text: &mut Vec<u8>, line: &[u8]) -> Result<(), Memory>
    ensures { OnOk result (text.new.items ≡ text.old.items ++ fails.line_text line.now) }
{
    text.extend_from_slice(line)?;
    text.push(b'\n')?;
    Ok(())
}

/// The answer to the event of this number; nothing if there is none.
fn answer_at(answers: &[Sequence<u8>], number: usize) -> &[u8]
    ensures { result.now ≡ line_at answers.now number }
{
    match nth(answers, number) {
        Some(answer) => answer.as_slice(),
        None => b"".as_slice(),
    }
}

/// The transcript's line of the event of this number; 0 if there is none.
pub fn number_at(script: &[ScriptLine], number: usize) -> usize
    ensures { result ≡ fails.number_at script.now number }
{
    match nth(script, number) {
        Some(event) => event.number,
        None => 0,
    }
}

/// Adds a failure if an answer is not as wanted.
fn check_want(
    alloc: Global,
    failures: &mut Vec<Failure>,
    script: &[ScriptLine],
    answers: &[Sequence<u8>],
    want: &Expectation,
) -> Result<(), Memory>
    ensures { OnOk result (failures.new.items ≡ failures.old.items ++ fails.unmet script.now answers.now want.now) }
{
    let answer = answer_at(answers, want.events);
    if is_met(alloc, &want.wanted, answer)? {
        return Ok(());
    }
    let asked = number_at(script, want.events);
    failures.push(Failure::Differs(Difference {
        number: want.number,
        asked,
        events: want.events,
        answer: copy_of(alloc, answer)?,
        reason: Text::copy_of(alloc, "")?,
    }))?;
    Ok(())
}

/// The failures of a case with these answers; a case that wants none is one itself.
fn differences(alloc: Global, case: &Case, text: &[u8]) -> Result<Vec<Failure>, Memory>
    ensures { IfOk result (λ v. v.items ≡ fails.differences case.now text.now) }
{
    if case.wants.as_slice().is_empty() {
        return only(alloc, Failure::NoCheck(case.number));
    }
    let answers = split_lines(alloc, text)?;
    let mut failures = Vec::new(alloc);
    for want in case.wants.as_slice() {
        check_want(
            alloc,
            &mut failures,
            case.script.as_slice(),
            answers.as_slice(),
            want,
        )?;
    }
    Ok(failures)
}

/// The list of one failure.
pub fn only(alloc: Global, failure: Failure) -> Result<Vec<Failure>, Memory>
    ensures { IfOk result (λ v. v.items ≡ failure ∷ []) }
{
    let mut failures = Vec::new(alloc);
    failures.push(failure)?;
    Ok(failures)
}

/// The line of a script of this number; nothing if there is none.
fn event_text(script: &[ScriptLine], number: usize) -> &[u8]
    ensures { result.now ≡ fails.event_text script.now number }
{
    match nth(script, number) {
        Some(event) => event.text.as_slice(),
        None => b"".as_slice(),
    }
}

/// Why a line of a script that names an identity has no known form.
const NAMES_REASON: &str = "a user or group is empty, or begins or ends with white space";

/// Why a line of a script, which is no event for this reason, has no known form.
fn line_reason(alloc: Global, line: &[u8], reason: &'static str) -> Result<Text, Memory>
    ensures { IfOk result (λ reason. fails.is_reason_of line.now reason ≡ true) }
{
    if line.starts_with(b"as ") {
        return Text::copy_of(alloc, NAMES_REASON);
    }
    let reason = form_reason(alloc, line, reason)?;
    Ok(Text::new(one_line(alloc, reason)?))
}

/// The failure of a case whose script has a line of no known form, of this number, which is no event for this reason.
fn bad_line(
    alloc: Global,
    case: &Case,
    number: u64,
    reason: &'static str,
) -> Result<Vec<Failure>, Memory>
    ensures { IfOk result (λ v. fails.IsBadLine case.now number v.items) }
{
    let Ok(number) = usize::try_from(number) else {
        return Err(AllocError);
    };
    let script = case.script.as_slice();
    let reason = line_reason(alloc, event_text(script, number), reason)?;
    only(alloc, Failure::NoForm(number_at(script, number), reason))
}

/// The failure of a case whose file of objects is not loaded, since the line of this number is at fault.
fn not_loaded(
    alloc: Global,
    table: &Sequence<ResourceRow>,
    load: &Loaded,
    objects: &[u8],
    line: usize,
) -> Result<Vec<Failure>, Memory>
    requires table { fits table.now ≡ true }
    requires bad { is_err (machine_of table.now objects.now) ≡ true }
    ensures { IfOk result (λ v. fails.IsNotLoaded load.now line v.items) }
{
    match object_reason(alloc, table, 0, objects)? {
        Some(reason) => {
            let reason = Text::new(reason);
            only(alloc, Failure::NotLoaded(load.number, line, reason))
        }
        None => unreachable!(),
    }
}

/// Plays a case on a machine on which no connection was opened, and compares its answers with the wanted ones.
pub fn play_on(
    alloc: Global,
    core: &mut Core<IndexedPolicy>,
    case: &Case,
) -> Result<Vec<Failure>, Memory>
    requires { core.old.next_id ≡ 0 }
    ensures { (m : Machine) → Refines core.old m → IfOk result (λ v. fails.FailsOn (with_rechecks case.now.rechecks m) case.now v.items) }
{
    core.recheck_watches(case.rechecks);
    let script = script_text(alloc, case.script.as_slice())?;
    let mut reader = script.as_slice();
    let mut answers = Vec::new(alloc);
    match play_script(alloc, core, &mut reader, &mut answers) {
        Ok(()) => differences(alloc, case, answers.as_slice()),
        Err(ScriptFault::BadLine(number, reason)) => bad_line(alloc, case, number, reason),
        Err(_other) => Err(AllocError),
    }
}

/// Plays a case on a machine that has loaded a file of objects.
pub fn play_loaded<R: Wait>(
    alloc: Global,
    rt: &R,
    table: &Sequence<ResourceRow>,
    case: &Case,
    load: &Loaded,
    objects: &[u8],
) -> Result<Vec<Failure>, Memory>
    requires { fits table.now ≡ true }
    ensures { IfOk result (λ v. fails.FailsLoaded table.now case.now load.now objects.now v.items) }
{
    match start(alloc, rt, table, objects, 0, 1) {
        Ok(started) => {
            let Started {
                mut core,
                desk,
                seats: _seats,
            } = started;
            let failures = play_on(alloc, &mut core, case);
            drop(desk.close(rt));
            failures
        }
        Err(StartError::Line(line)) => not_loaded(alloc, table, load, objects, line),
        Err(StartError::Memory) => Err(AllocError),
    }
}

/// Plays a case on the opening machine.
pub fn play_begun(
    alloc: Global,
    table: &Sequence<ResourceRow>,
    case: &Case,
) -> Result<Vec<Failure>, Memory>
    requires { fits table.now ≡ true }
    ensures { IfOk result (λ v. fails.FailsOn (with_rechecks case.now.rechecks (begun table.now)) case.now v.items) }
{
    let mut core = Core::new(alloc, table.copy(alloc)?, IndexedPolicy::new(alloc), 0)?;
    play_on(alloc, &mut core, case)
}
