//! Readers: each answers its share of the questions, from its own seat.
ghost use Rattle.std.specs.Prelude.{◌≡◌, ◌++◌, ◌∷◌, [], IfOk, OnOk, map, length};
ghost use Rattle.kapi_audit.specs.Answers.{answer_of};
ghost use Rattle.kapi_audit.specs.Private.Sharing.{share};
ghost use Rattle.kapi_publishing.specs.Steps.{after};

use crate::answer_text::answer_text;
use crate::gate::Gate;
use crate::gathering::Answer;
use kapi_engine::question_of;
use kapi_lines::Line;
use kapi_model::ResourceRow;
use kapi_publishing::{Seat, SeatError};
use kapi_text::Sequence;
use std::alloc::Global;

/// A reader: its number, from 0, and its seat, which knows so many published steps.
#[derive(Drop)]
pub struct Reader {
    pub number: usize,
    pub seat: Seat,
    pub published: u64,
    ghost told: { published ≡ length seat.seen },
}

/// The answer to one line, by the policy after all published steps.
fn answer(
    alloc: Global,
    row: &ResourceRow,
    seat: &mut Seat,
    published: u64,
    line: &[u8],
) -> Result<Answer, SeatError>
    requires { published ≡ length seat.old.seen }
    ensures same { OnOk result (seat.new ≡ seat.old) }
    ensures answer { IfOk result (λ a. a ≡ answer_of row.now (after seat.old.opening seat.old.seen) line.now) }
{
    let Ok(read) = question_of(alloc, row, line) else {
        return Err(SeatError::Memory);
    };
    let Some(question) = read else {
        return Ok(None);
    };
    let namespace = question.namespace.as_str();
    let (decision, count) = seat.review(&question.identity, namespace, &question.point)?;
    if count != published {
        return Err(SeatError::Busy);
    }
    match answer_text(alloc, &decision) {
        Ok(text) => Ok(Some(text)),
        Err(_refused) => Err(SeatError::Memory),
    }
}

/// The answers to a reader's share of the lines, in their order: of N readers, reader w answers questions w, w + N, w +
/// 2N and so on.
#[tactic(auto, using(crate::proofs::Shared::answered_one, crate::proofs::Shared::passed_one, crate::proofs::Shared::shared_all))]
pub fn answer_share<G: Gate>(
    alloc: Global,
    row: &ResourceRow,
    reader: Reader,
    lines: &[Line<'_>],
    others: usize,
    gate: &G,
) -> Result<Sequence<Answer>, SeatError>
    ensures { IfOk result (λ s. s ≡ map (λ l. answer_of row.now (after reader.seat.opening reader.seat.seen) l.text.now) (share reader.number others lines.now)) }
{
    let Reader {
        number,
        mut seat,
        published,
    } = reader;
    let mut answers = Vec::new(alloc);
    let mut wait = number;
    for (question, line) in lines.iter().enumerate() {
        if wait > 0 {
            wait -= 1;
            continue;
        }
        gate.before(question);
        let answer = answer(alloc, row, &mut seat, published, line.text)?;
        gate.after(question);
        push(&mut answers, answer)?;
        wait = others;
    }
    Ok(Sequence::new(answers))
}

fn push(answers: &mut Vec<Answer>, answer: Answer) -> Result<(), SeatError>
    ensures { OnOk result (answers.new.items ≡ answers.old.items ++ answer ∷ []) }
{
    match answers.push(answer) {
        Ok(()) => Ok(()),
        Err(_refused) => Err(SeatError::Memory),
    }
}
