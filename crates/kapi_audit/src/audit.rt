ghost use Rattle.std.specs.Prelude.{◌≡◌, ◌≤◌, true, [], All, IfOk, Ok, map, length};
ghost use Rattle.kapi_core.specs.Machine.{Machine};
ghost use Rattle.kapi_core.specs.Refines.{Refines};
ghost use Rattle.kapi_loading.specs.Loading.{policy_machine};
ghost use Rattle.kapi_loading.specs.Settled.{is_settled as is_settled_machine};
ghost use Rattle.kapi_text.specs.ResultIs.{ResultIs};
ghost use Rattle.kapi_core.specs.Table.{access_reviews_row, fits};
ghost use Rattle.kapi_publishing.specs.Boards.{Chair, fresh, informed};
ghost use Rattle.kapi_publishing.specs.Steps.{after};
ghost use Rattle.kapi_audit.specs.Answers.{answer_of, answered_by, answers, answers_alone};
ghost use Rattle.kapi_audit.specs.Faults.{Answered, model_of_fault};
ghost use Rattle.kapi_lines.specs.Lines.{line_of};
ghost use Rattle.kapi_audit.specs.Private.Readers.{AreReaders};

use crate::fault::AuditFault;
use crate::gate::Gate;
use crate::gathering::gather;
use crate::reader::Reader;
use crate::threads::answer_in_threads;
use kapi_core::{Core, access_reviews};
use kapi_index::IndexedPolicy;
use kapi_lines::{Line, numbered_lines};
use kapi_loading::{Started, is_settled, start, start_policy};
use kapi_model::ResourceRow;
use kapi_publishing::{Desk, Seat};
use kapi_text::{Memory, Sequence};
use std::alloc::Global;
use std::sync::Wait;
use std::thread::Threads;

/// The largest number of readers.
pub const READERS: usize = 16;

/// Reports all published steps to a seat, and makes it a reader.
fn told_reader(desk: &Desk, seat: Seat, number: usize, published: u64) -> Reader
    requires published { published ≡ length desk.now.list }
    requires seat { seat ≡ fresh desk.now }
    ensures { (result.number ≡ number) × (result.seat ≡ informed desk.now) }
{
    let mut seat = seat;
    seat.learn(&desk.tell());
    Reader {
        number,
        seat,
        published,
    }
}

/// Reports all published steps to each seat.
fn told_readers(
    alloc: Global,
    desk: &Desk,
    published: u64,
    seats: Vec<Seat>,
) -> Result<Vec<Reader>, Memory>
    requires published { published ≡ length desk.now.list }
    requires seats { All (λ s. s ≡ fresh desk.now) seats.items }
    ensures readers { IfOk result (λ v. AreReaders (informed desk.now) 0 v.items) }
    ensures count { IfOk result (λ v. length v.items ≡ length seats.items) }
{
    let mut seats = seats;
    let mut readers = Vec::new(alloc);
    while let Some(seat) = seats.pop() {
        let reader = told_reader(desk, seat, readers.len(), published);
        readers.push(reader)?;
    }
    Ok(readers)
}

/// The answers of readers in threads, in the order of the questions.
fn answer_all<R: Threads + Sync, G: Gate + Sync>(
    alloc: Global,
    rt: &R,
    readers: Vec<Reader>,
    lines: &[Line<'_>],
    gate: &G,
) -> Result<Vec<u8>, AuditFault>
    requires { 1 ≤ length readers.items }
    ensures { (seat : Chair) → AreReaders seat 0 readers.items
        → ResultIs model_of_fault (λ v. v.items) result (answered_by (answer_of access_reviews_row (after seat.opening seat.seen)) (map line_of lines.now)) }
{
    let row = access_reviews().row(alloc)?;
    let others = readers.len() - 1;
    let shares = answer_in_threads(alloc, rt, &row, readers, lines, others, gate)?;
    gather(alloc, shares.as_slice(), lines)
}

/// Reports the published steps to the seats, and has them answer.
fn answer_told<R: Threads + Wait + Sync, G: Gate + Sync>(
    alloc: Global,
    rt: &R,
    desk: &mut Desk,
    seats: Vec<Seat>,
    lines: &[Line<'_>],
    gate: &G,
) -> Result<Vec<u8>, AuditFault>
    requires free { desk.old.waiting ≡ [] }
    requires count { 1 ≤ length seats.items }
    requires seats { All (λ s. s ≡ fresh desk.old) seats.items }
    ensures { ResultIs model_of_fault (λ v. v.items) result (answered_by (answer_of access_reviews_row (after desk.old.opening desk.old.list)) (map line_of lines.now)) }
{
    match desk.retry(rt) {
        Ok(published) => {
            let readers = told_readers(alloc, desk, published, seats)?;
            answer_all(alloc, rt, readers, lines, gate)
        }
        Err(_waits) => Err(AuditFault::Memory),
    }
}

/// Answers questions by the policy that a desk has published, and closes it.
fn answer_seated<R: Threads + Wait + Sync, G: Gate + Sync>(
    alloc: Global,
    rt: &R,
    desk: Desk,
    seats: Vec<Seat>,
    asked: &[Line<'_>],
    gate: &G,
) -> Result<Vec<u8>, AuditFault>
    requires free { desk.waiting ≡ [] }
    requires count { 1 ≤ length seats.items }
    requires seats { All (λ s. s ≡ fresh desk) seats.items }
    ensures { ResultIs model_of_fault (λ v. v.items) result (answered_by (answer_of access_reviews_row (after desk.opening desk.list)) (map line_of asked.now)) }
{
    let mut desk = desk;
    let answered = answer_told(alloc, rt, &mut desk, seats, asked, gate);
    drop(desk.close(rt));
    answered
}

/// Answers a file of questions by the policy of a file of objects of the resource types of a table, with so many reader
/// threads. The text has a line for each question, in their order, whatever the number of readers is.
///
/// # Errors
/// `PolicyLine` at the first policy line that is not loaded, else `QuestionLine` at the first line which is no
/// question; `Memory` if an allocation fails, and `Busy` if a reader answered by another policy than the whole
/// one.
pub fn audit_run<R: Threads + Wait + Sync, G: Gate + Sync>(
    alloc: Global,
    rt: &R,
    table: &Sequence<ResourceRow>,
    policy: &[u8],
    questions: &[u8],
    readers: usize,
    gate: &G,
) -> Result<Vec<u8>, AuditFault>
    requires table { fits table.now ≡ true }
    requires readers { (1 ≤ readers) × (readers ≤ 16) }
    ensures { ResultIs model_of_fault (λ v. v.items) result (answers table.now policy.now questions.now) }
{
    let asked = numbered_lines(alloc, questions)?;
    let started = start(alloc, rt, table, policy, 0, readers)?;
    let Started {
        core: _core,
        desk,
        seats,
    } = started;
    answer_seated(alloc, rt, desk, seats, asked.as_slice(), gate)
}

/// The answers of an audit, and whether the roles of its policy are settled.
#[derive(Drop)]
pub struct Audited {
    pub text: Vec<u8>,
    pub settled: bool,
}

/// Answers a file of questions by the policy of objects alone, without those that every other machine begins with; the
/// rest, errors too, is as of `audit_run`.
pub fn audit_alone<R: Threads + Wait + Sync, G: Gate + Sync>(
    alloc: Global,
    rt: &R,
    policy: &[u8],
    questions: &[u8],
    readers: usize,
    gate: &G,
) -> Result<Audited, AuditFault>
    requires { (1 ≤ readers) × (readers ≤ 16) }
    ensures text { ResultIs model_of_fault (λ a. a.text.items) result (answers_alone policy.now questions.now) }
    ensures settled { (m : Machine) → policy_machine policy.now ≡ Ok m → IfOk result (λ a. a.settled ≡ is_settled_machine m) }
{
    let asked = numbered_lines(alloc, questions)?;
    let started = start_policy(alloc, rt, policy, readers)?;
    let Started {
        mut core,
        desk,
        seats,
    } = started;
    let answered = answer_seated(alloc, rt, desk, seats, asked.as_slice(), gate);
    with_settled(&mut core, answered)
}

/// The answers, and whether the roles of the policy are settled.
fn with_settled(
    core: &mut Core<IndexedPolicy>,
    answered: Result<Vec<u8>, AuditFault>,
) -> Result<Audited, AuditFault>
    ensures text { (given : Answered) → ResultIs model_of_fault (λ v. v.items) answered given → ResultIs model_of_fault (λ a. a.text.items) result given }
    ensures settled { (m : Machine) → Refines core.old m → IfOk result (λ a. a.settled ≡ is_settled_machine m) }
{
    match answered {
        Ok(text) => {
            let settled = is_settled(core)?;
            Ok(Audited { text, settled })
        }
        Err(fault) => Err(fault),
    }
}
