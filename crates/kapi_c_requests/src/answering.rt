//! What is answered to a call, written where the caller said.
ghost use Rattle.std.specs.Prelude.{◌≡◌, ℕ, List, Result, IfOk};
ghost use Rattle.kapi_text.specs.ResultIs.{Fails, ResultIs};
ghost use Rattle.kapi_policy.specs.Views.{decision_of};
ghost use Rattle.kapi_c_requests.specs.Answers.{Ends, IsAnswered, IsWrittenOrShort, decided_of, failed, given_of, number_alone, number_of, with_line as told_with_line};
ghost use Rattle.kapi_c_requests.specs.declared.fault.CallFault.{CallFault as AFault};
ghost use Rattle.kapi_c_requests.specs.Faults.{code_of, model_of_fault};
ghost use Rattle.kapi_c_requests.specs.Given.{Given};
ghost use Rattle.kapi_c_requests.specs.Lists.{ArePaths};
ghost use Rattle.kapi_c_requests.specs.Views.{told};

use crate::fault::CallFault;
use crate::listing::{list, paths, settled_with};
use crate::passed::Call;
use crate::reading::{AccessQuestion, read_question};
use kapi_engine::{LoadedPolicy, decision_line};
use kapi_policy::Decision;
use kapi_text::Memory;
use std::alloc::Global;

/// What stands beside the text: a decision or another number, and the length of the text.
#[repr(C)]
#[derive(Clone, Copy)]
pub struct Answer {
    pub decision: u32,
    pub length: usize,
}

/// A number and a text.
#[derive(Drop)]
pub struct NumberedText {
    pub number: u32,
    pub text: Vec<u8>,
}

/// The number of a decision: 0 denies.
fn number(decision: &Decision<'_>) -> u32
    ensures { result ≡ number_of (decision_of decision.now) }
{
    match decision {
        Decision::Denied => 0,
        Decision::Allowed(_grant) => 1,
        Decision::Masters => 2,
    }
}

/// The number of what is decided.
pub fn number_decided(loaded: &LoadedPolicy, asked: &AccessQuestion) -> u32
    ensures { result ≡ number_of (decided_of loaded.now asked.now) }
{
    let namespace = asked.namespace.as_str();
    number(&loaded.decide(&asked.identity, namespace, &asked.point))
}

/// What is decided, without a text.
fn decided(loaded: &LoadedPolicy, asked: &AccessQuestion, alloc: Global) -> NumberedText
    ensures { told result ≡ number_alone (decided_of loaded.now asked.now) }
{
    NumberedText {
        number: number_decided(loaded, asked),
        text: Vec::new(alloc),
    }
}

/// What is decided, and its line.
fn with_line(
    alloc: Global,
    loaded: &LoadedPolicy,
    asked: &AccessQuestion,
) -> Result<NumberedText, Memory>
    ensures { IfOk result (λ g. told g ≡ told_with_line (decided_of loaded.now asked.now)) }
{
    let namespace = asked.namespace.as_str();
    let decision = loaded.decide(&asked.identity, namespace, &asked.point);
    Ok(NumberedText {
        number: number(&decision),
        text: decision_line(alloc, &decision)?.into_vec(),
    })
}

/// What is answered.
#[tactic(auto, unfolding(crate::specs::Answers::given_of))]
fn find(alloc: Global, loaded: &LoadedPolicy, call: &Call<'_>) -> Result<NumberedText, CallFault>
    ensures { (paths : List ℕ) × ResultIs model_of_fault told result (given_of paths loaded.now call.now) × IfOk result (λ _. call.now.wants ≡ 7 → ArePaths paths loaded.now call.now) }
{
    match call.wants {
        0 => Ok(settled_with(loaded, Vec::new(alloc))),
        1 => {
            let asked = read_question(alloc, &call.question)?;
            Ok(decided(loaded, &asked, alloc))
        }
        2 => {
            let asked = read_question(alloc, &call.question)?;
            Ok(with_line(alloc, loaded, &asked)?)
        }
        7 => paths(alloc, loaded, call),
        _ => list(alloc, loaded, call),
    }
}

/// Writes the number and the length of the text, and the text to the front of the room, if it fits; else the length alone.
fn write(found: &NumberedText, answer: &mut Answer, room: &mut [u8]) -> bool
    ensures { IsWrittenOrShort (told found.now) answer.old answer.new room.old room.new result }
{
    let length = found.text.len();
    answer.length = length;
    if room.len() < length {
        return false;
    }
    answer.decision = found.number;
    room[..length].copy_from_slice(found.text.as_slice());
    true
}

/// Writes what stands for a fault, the line at most, and gives the status.
fn refused(fault: CallFault, answer: &mut Answer) -> u32
    ensures status { result ≡ code_of fault }
    ensures answer { (given : Result Given AFault) → (room : List ℕ) → Fails (model_of_fault fault) given → Ends given answer.old answer.new room room (failed fault) }
{
    if let CallFault::Line(number) = fault {
        answer.length = number;
    }
    fault.code()
}

/// Answers a call, and gives the status: 0 if it is answered. Else nothing is written but a length: if the room is too
/// small, what it needs, and where other objects are not loaded, the line.
pub fn answer_call(
    alloc: Global,
    loaded: &LoadedPolicy,
    call: &Call<'_>,
    answer: &mut Answer,
    room: &mut [u8],
) -> u32
    ensures { IsAnswered loaded.now call.now answer.old answer.new room.old room.new result }
{
    match find(alloc, loaded, call) {
        Ok(found) => { if write(&found, answer, room) { 0 } else { 5 } }
        Err(fault) => refused(fault, answer),
    }
}
