//! Readers in threads of their own.
ghost use Rattle.std.specs.Prelude.{◌≡◌, ◌+◌, ◌++◌, ◌∷◌, [], Ok, IfOk, OnOk, map, length};
ghost use Rattle.kapi_audit.specs.Answers.{answer_of};
ghost use Rattle.kapi_audit.specs.Private.Readers.{AreReaders};
ghost use Rattle.kapi_audit.specs.Private.Sharing.{AreShares, share};
ghost use Rattle.kapi_publishing.specs.Boards.{Chair};
ghost use Rattle.kapi_publishing.specs.Steps.{after};

use crate::gate::Gate;
use crate::gathering::Answer;
use crate::reader::{Reader, answer_share};
use kapi_lines::Line;
use kapi_model::ResourceRow;
use kapi_publishing::SeatError;
use kapi_text::Sequence;
use std::alloc::{AllocError, Global};
use std::thread;
use std::thread::Threads;

/// The shares, if every reader has finished its own.
fn finished(
    alloc: Global,
    results: Vec<Result<Sequence<Answer>, SeatError>>,
) -> Result<Vec<Sequence<Answer>>, SeatError>
    ensures { IfOk result (λ v. map Ok v.items ≡ results.items) }
{
    let mut shares = Vec::new(alloc);
    for result in results {
        push(&mut shares, result?)?;
    }
    Ok(shares)
}

fn push(shares: &mut Vec<Sequence<Answer>>, share: Sequence<Answer>) -> Result<(), SeatError>
    ensures { OnOk result (shares.new.items ≡ shares.old.items ++ share ∷ []) }
{
    match shares.push(share) {
        Ok(()) => Ok(()),
        Err(_refused) => Err(SeatError::Memory),
    }
}

/// The shares of the readers. Each reader answers in a thread of its own, if one can be made.
pub fn answer_in_threads<R: Threads + Sync, G: Gate + Sync>(
    alloc: Global,
    rt: &R,
    row: &ResourceRow,
    readers: Vec<Reader>,
    lines: &[Line<'_>],
    others: usize,
    gate: &G,
) -> Result<Vec<Sequence<Answer>>, SeatError>
    ensures { (seat : Chair) → AreReaders seat 0 readers.items
        → IfOk result (λ v. AreShares 0 (length readers.items) others (map (λ l. answer_of row.now (after seat.opening seat.seen) l.text.now) lines.now) v.items) }
{
    let answer_by = |reader: Reader| -> Result<Sequence<Answer>, SeatError>
        ensures { IfOk result (λ s. s ≡ map (λ l. answer_of row.entry.now (after reader.seat.opening reader.seat.seen) l.text.now) (share reader.number others lines.entry.now)) }
    { answer_share(alloc, row, reader, lines, others, gate) };
    match thread::map_vec(rt, readers, &answer_by) {
        Ok(results) => finished(alloc, results),
        Err(AllocError) => Err(SeatError::Memory),
    }
}
