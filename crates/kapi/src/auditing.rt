//! Questions of a file, answered by a policy.
ghost use Rattle.std.specs.Prelude.{◌≡◌, ◌≤◌, true};
ghost use Rattle.kapi_core.specs.Table.{fits};

use kapi_audit::{AuditFault, Audited, NoGate, audit_alone, audit_run};
use kapi_command_line::{AuditFiles, Reading};
use kapi_commands::{audit_log, doubts_of, tell_unsettled};
use kapi_files::{
    Ending, ReadPolicy, print, read_file, read_kinds, read_policy_of, tell_reason, tell_refused,
};
use kapi_lines::{Form, as_text, numbered_lines};
use kapi_loading::{object_reason, question_reason};
use kapi_model::ResourceRow;
use kapi_text::Sequence;
use serde_json::Value;
use std::fs::Files;
use std::io;
use std::sync::Wait;
use std::thread::Threads;
use std::time::Clock;

/// Prints the answers to the questions: status 0, or 1 after the fault and its reason on standard error.
pub fn run_audit<
    R: Files + Input + Print + Eprint + AllocGlobal + Threads + Wait + Clock + Sync + Clone + Drop,
>(rt: &R, files: &AuditFiles, on_terminal: bool) -> io::Result<Ending> {
    let Some(table) = read_kinds(rt, files.kinds.as_slice())? else {
        return Ok(Ending::Stopped);
    };
    match &files.manifests {
        Some(reading) if files.log => audit_log(rt, files, reading, on_terminal),
        Some(reading) => audit_manifests(rt, table.as_slice(), files, reading),
        None => audit_lines(rt, &table, files),
    }
}

/// Answers by a policy of lines.
fn audit_lines<R: Files + Input + Print + Eprint + AllocGlobal + Threads + Wait + Sync>(
    rt: &R,
    table: &Sequence<ResourceRow>,
    files: &AuditFiles,
) -> io::Result<Ending>
    requires { fits table.now ≡ true }
{
    let Some(policy) = read_file(rt, files.policy.as_str())? else {
        return Ok(Ending::Stopped);
    };
    let Some(questions) = read_file(rt, files.questions.as_str())? else {
        return Ok(Ending::Stopped);
    };
    let (policy, questions) = (policy.as_slice(), questions.as_slice());
    match audit(rt, table, policy, questions, files.readers) {
        Ok(answers) => {
            print_answers(rt, files.form, answers.as_slice())?;
            Ok(Ending::Done)
        }
        Err(fault) => {
            if let AuditFault::PolicyLine(_line) = fault {
                eprintln!(rt; "{fault}")?;
                tell_reason(rt, object_reason(rt.alloc(), table, 0, policy))?;
                return Ok(Ending::Stopped);
            }
            refuse(rt, fault, questions)
        }
    }
}

/// Answers by a policy of manifests, whose doubts are reported.
fn audit_manifests<
    R: Files + Input + Print + Eprint + AllocGlobal + Threads + Wait + Sync + Clone + Drop,
>(rt: &R, table: &[ResourceRow], files: &AuditFiles, reading: &Reading) -> io::Result<Ending> {
    let Some(policy) = read_policy_of(rt, table, files.policy.as_str(), reading)? else {
        return Ok(Ending::Stopped);
    };
    let Some(questions) = read_file(rt, files.questions.as_str())? else {
        return Ok(Ending::Stopped);
    };
    let questions = questions.as_slice();
    match audit_objects(rt, &policy, questions, files.readers) {
        Ok(audited) => {
            print_answers(rt, files.form, audited.text.as_slice())?;
            tell_unsettled(rt, files.policy.as_str(), audited.settled)?;
            let mut doubts = doubts_of(rt, files.policy.as_str(), &policy)?;
            doubts.tell_reviews(rt, &policy.prepared.words, questions)?;
            let ending = Ending::Done.or_doubted(reading.strict && doubts.are_some());
            Ok(ending.or_unsettled(audited.settled))
        }
        Err(AuditFault::PolicyLine(_line)) => {
            tell_refused(rt, &policy)?;
            Ok(Ending::Stopped)
        }
        Err(fault) => refuse(rt, fault, questions),
    }
}

/// Prints answers, as JSON an object a line.
fn print_answers<R: Print + AllocGlobal>(rt: &R, form: Form, answers: &[u8]) -> io::Result<()> {
    if form != Form::Json {
        return print(rt, answers);
    }
    let mut text = Vec::new(rt.alloc());
    for line in numbered_lines(rt.alloc(), answers)?.iter() {
        match line.text.strip_prefix(b"allowed ".as_slice()) {
            Some(reason) => {
                let reason = String::from_str(rt.alloc(), as_text(reason).unwrap_or(""))?;
                let reason = Value::String(reason).to_string(rt.alloc())?;
                let object = format!(in rt.alloc(); "{{\"allowed\":true,\"reason\":{reason}}}\n")?;
                text.extend_from_slice(object.as_bytes())?;
            }
            None => text.extend_from_slice(b"{\"allowed\":false}\n")?,
        }
    }
    print(rt, text.as_slice())
}

/// Reports why questions have no answers: status 1.
fn refuse<R: Eprint + AllocGlobal>(
    rt: &R,
    fault: AuditFault,
    questions: &[u8],
) -> io::Result<Ending> {
    eprintln!(rt; "{fault}")?;
    if let AuditFault::QuestionLine(line) = fault {
        tell_reason(rt, question_reason(rt.alloc(), questions, line))?;
    }
    Ok(Ending::Stopped)
}

fn audit<R: AllocGlobal + Threads + Wait + Sync>(
    rt: &R,
    table: &Sequence<ResourceRow>,
    policy: &[u8],
    questions: &[u8],
    readers: usize,
) -> Result<Vec<u8>, AuditFault>
    requires table { fits table.now ≡ true }
    requires readers { (1 ≤ readers) × (readers ≤ 16) }
{
    audit_run(rt.alloc(), rt, table, policy, questions, readers, &NoGate)
}

fn audit_objects<R: AllocGlobal + Threads + Wait + Sync>(
    rt: &R,
    policy: &ReadPolicy,
    questions: &[u8],
    readers: usize,
) -> Result<Audited, AuditFault>
    requires { (1 ≤ readers) × (readers ≤ 16) }
{
    audit_alone(rt.alloc(), rt, policy.lines(), questions, readers, &NoGate)
}
