//! Objects and questions in, decisions out.
ghost use Rattle.std.specs.Prelude.{◌≡◌, ◌++◌, ◌∷◌, [], IfOk, OnOk, length};
ghost use Rattle.kapi_text.specs.ResultIs.{ResultIs};
ghost use Rattle.kapi_engine.specs.LoadedPolicies.{loaded_of};
ghost use Rattle.kapi_c_requests.specs.Batches.{IsBatch, batch_status, end_of, line_after, number_in, numbers_of};
ghost use Rattle.kapi_c_requests.specs.Faults.{model_of_fault};

use crate::answering::number_decided;
use crate::fault::CallFault;
use crate::passed::CQuestion;
use crate::reading::read_question;
use kapi_engine::{LoadedPolicy, StartError, load};
use kapi_text::Memory;
use std::alloc::Global;

/// The number of what is decided of a question.
fn number(alloc: Global, loaded: &LoadedPolicy, passed: &CQuestion<'_>) -> Result<u32, CallFault>
    ensures { ResultIs model_of_fault (λ n. n) result (number_in loaded.now passed.now) }
{
    let asked = read_question(alloc, passed)?;
    Ok(number_decided(loaded, &asked))
}

fn push(numbers: &mut Vec<u32>, number: u32) -> Result<(), Memory>
    ensures { OnOk result (numbers.new.items ≡ numbers.old.items ++ number ∷ []) }
{
    numbers.push(number)?;
    Ok(())
}

/// The numbers of all questions, in their order.
fn numbers(
    alloc: Global,
    loaded: &LoadedPolicy,
    passed: &[CQuestion<'_>],
) -> Result<Vec<u32>, CallFault>
    ensures numbers { ResultIs model_of_fault (λ v. v.items) result (numbers_of loaded.now passed.now) }
    ensures len { IfOk result (λ v. length v.items ≡ length passed.now) }
{
    let mut numbers = Vec::with_capacity(alloc, passed.len())?;
    for question in passed {
        match number(alloc, loaded, question) {
            Ok(found) => push(&mut numbers, found)?,
            Err(fault) => return Err(fault),
        }
    }
    Ok(numbers)
}

/// Writes the line that is not loaded, and gives the status.
fn refused(fault: StartError, line: &mut usize) -> u32
    ensures status { result ≡ batch_status (end_of fault) }
    ensures line { line.new ≡ line_after fault line.old }
{
    match fault {
        StartError::Memory => CallFault::Memory.code(),
        StartError::Line(number) => {
            *line = number;
            2
        }
    }
}

/// Loads objects, and decides each question by them: writes as many numbers, and gives the status. 0 is success; 2 a line that
/// is not loaded, which is then written; 5 another count of decisions than of questions.
pub fn decide_batch(
    alloc: Global,
    objects: &[u8],
    questions: &[CQuestion<'_>],
    decisions: &mut [u32],
    line: &mut usize,
) -> u32
    ensures { IsBatch (loaded_of objects.now) questions.now decisions.old decisions.new line.old line.new result }
{
    if decisions.len() != questions.len() {
        return 5;
    }
    let loaded = match load(alloc, objects) {
        Ok(loaded) => loaded,
        Err(fault) => return refused(fault, line),
    };
    match numbers(alloc, &loaded, questions) {
        Ok(found) => {
            decisions.copy_from_slice(found.as_slice());
            0
        }
        Err(fault) => fault.code(),
    }
}
