//! The report on a line of a client of the answer port.
ghost use Rattle.std.specs.Prelude.{◌≡◌, ◌++◌, OnOk, IfErr, codes};
ghost use Rattle.std.specs.Fmt.{decimal};
ghost use Rattle.std.specs.Io.KnownBytes.{Appends};
ghost use Rattle.kapi_audit.specs.Reports.{Reports, IsDecision, report_text};
ghost use Rattle.kapi_audit.specs.declared.fault.AnswerFault.TheVariants as Fault;

use crate::answer_text::answer_text;
use crate::fault::AnswerFault;
use kapi_engine::question_of;
use kapi_model::ResourceRow;
use kapi_publishing::{Seat, SeatError};
use kapi_reviews::Question;
use kapi_text::Sequence;
use std::alloc::Global;
use std::io::{self, Write};

/// What was made of a line.
#[derive(Drop)]
pub enum Report {
    /// The line is empty or a comment.
    Skipped,
    /// The line is no question.
    Bad,
    /// An allocation fails.
    Refused,
    /// The seat cannot answer.
    Busy,
    /// The number of published steps of the deciding policy, and the line of the decision.
    Decided(u64, Sequence<u8>),
}

/// What a seat makes of a line.
pub fn make_report(alloc: Global, row: &ResourceRow, seat: &mut Seat, line: &[u8]) -> Report
    ensures { Reports row.now seat.old seat.new line.now result }
{
    if line.is_empty() || line[0] == b'#' {
        return Report::Skipped;
    }
    match question_of(alloc, row, line) {
        Ok(Some(question)) => ask(alloc, seat, &question),
        Ok(None) => Report::Bad,
        Err(_refused) => Report::Refused,
    }
}

/// The answer to a question, by the policy after the published steps that the seat then sees.
fn ask(alloc: Global, seat: &mut Seat, question: &Question) -> Report
    ensures { IsDecision seat.old seat.new question.now result }
{
    let namespace = question.namespace.as_str();
    match seat.review(&question.identity, namespace, &question.point) {
        Ok((decision, count)) => match answer_text(alloc, &decision) {
            Ok(text) => Report::Decided(count, text),
            Err(_refused) => Report::Refused,
        },
        Err(SeatError::Busy) => Report::Busy,
        Err(SeatError::Memory) => Report::Refused,
    }
}

/// Writes the report on a line, and flushes the writer.
pub fn write_report<W: Write>(writer: &mut W, report: &Report) -> Result<(), AnswerFault>
    ensures text { OnOk result (Appends (W.contents writer.old) (W.contents writer.new) (report_text report.now)) }
    ensures fault { IfErr result (λ e. e ≡ Fault.Write) }
{
    if write_text(writer, report).is_err() || writer.flush().is_err() {
        return Err(AnswerFault::Write);
    }
    Ok(())
}

#[tactic(auto, using(kapi_lines::proofs::Appending::appends_nothing))]
fn write_text<W: Write>(writer: &mut W, report: &Report) -> io::Result<()>
    ensures { OnOk result (Appends (W.contents writer.old) (W.contents writer.new) (report_text report.now)) }
{
    match report {
        Report::Skipped => Ok(()),
        Report::Bad => writer.write_all(b"bad\n"),
        Report::Refused => writer.write_all(b"error Memory\n"),
        Report::Busy => writer.write_all(b"error Busy\n"),
        Report::Decided(count, text) => write_told(writer, *count, text.as_slice()),
    }
}

#[tactic(auto, using(kapi_lines::proofs::Appending::appends_more))]
fn write_told<W: Write>(writer: &mut W, count: u64, text: &[u8]) -> io::Result<()>
    ensures { OnOk result (Appends (W.contents writer.old) (W.contents writer.new) ((decimal count ++ codes " ") ++ text.now)) }
{
    write!(writer, "{}", count)?;
    writer.write_all(b" ")?;
    writer.write_all(text)
}
