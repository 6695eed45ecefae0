//! The shares of the readers, put together in the order of the questions.
ghost use Rattle.std.specs.Prelude.{◌≡◌, ◌+◌, ◌++◌, ◌∷◌, [], ℕ, List, Option, Some, IfOk, map, option_map};
ghost use Rattle.kapi_text.specs.ResultIs.{ResultIs};
ghost use Rattle.kapi_audit.specs.Answers.{answered_by};
ghost use Rattle.kapi_audit.specs.Faults.{model_of_fault};
ghost use Rattle.kapi_lines.specs.Lines.{line_of};
ghost use Rattle.kapi_audit.specs.Private.Sharing.{AreShares};

use crate::fault::AuditFault;
use kapi_lines::Line;
use kapi_text::{Memory, Sequence};
use std::alloc::Global;

/// The line that answers a question; none if a line is no question.
pub type Answer = Option<Sequence<u8>>;

/// All answers of each share.
fn whole_shares(alloc: Global, shares: &[Sequence<Answer>]) -> Result<Vec<&[Answer]>, Memory>
    ensures { IfOk result (λ v. map (λ s. s.now) v.items ≡ shares.now) }
{
    let mut whole = Vec::with_capacity(alloc, shares.len())?;
    for share in shares {
        whole.push(share.as_slice())?;
    }
    Ok(whole)
}

/// Takes the next answer off the first share, and puts the share behind the others.
fn next_answer<'a>(left: &mut Vec<&'a [Answer]>) -> Option<&'a Sequence<u8>>
    ensures { (answer : Option (List ℕ)) (later : List (Option (List ℕ))) (others : List (List (Option (List ℕ)))) → map (λ s. s.now) left.old.items ≡ (answer ∷ later) ∷ others
        → (option_map (λ a. a.now) result ≡ answer) × (map (λ s. s.now) left.new.items ≡ others ++ later ∷ []) }
{
    if left.is_empty() {
        return None;
    }
    match left[0] {
        [answer, later @ ..] => {
            left[0] = later;
            left.rotate_left(1);
            answer.as_ref()
        }
        [] => None,
    }
}

/// The answers of all lines, or the first line that is no question.
pub fn gather(
    alloc: Global,
    shares: &[Sequence<Answer>],
    lines: &[Line<'_>],
) -> Result<Vec<u8>, AuditFault>
    ensures { (answer : List ℕ → Option (List ℕ)) (others : ℕ) → AreShares 0 (others + 1) others (map (λ l. answer l.text.now) lines.now) shares.now
        → ResultIs model_of_fault (λ v. v.items) result (answered_by answer (map line_of lines.now)) }
{
    let mut left = whole_shares(alloc, shares)?;
    let mut text = Vec::new(alloc);
    for line in lines {
        match next_answer(&mut left) {
            Some(answer) => text.extend_from_slice(answer.as_slice())?,
            None => return Err(AuditFault::QuestionLine(line.number)),
        }
    }
    Ok(text)
}
