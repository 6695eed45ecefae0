//! Questions of a client, answered line by line from one seat while a desk goes on publishing.
ghost use Rattle.std.specs.Prelude.{◌≡◌, ◌<◌, ◌≤◌, ◌++◌, ◌∷◌, [], List, Option, ℕ, Some, IfOk, OnOk, length, take};
ghost use Rattle.std.specs.Io.KnownBytes.{Consumes, IsAtEnd};
ghost use Rattle.kapi_audit.specs.Private.Reading.{Reading, ToldSoFar};
ghost use Rattle.kapi_audit.specs.Reports.{AreReportedIn};
ghost use Rattle.kapi_publishing.specs.Boards.{Chair};
ghost use Rattle.kapi_script.specs.Scripts.{lines};

use crate::fault::AnswerFault;
use crate::report::{make_report, write_report};
use kapi_core::access_reviews;
use kapi_model::ResourceRow;
use kapi_publishing::Seat;
use std::alloc::Global;
use std::io::{Read, Write};

/// The number of bytes that are read at a time.
const READ_SIZE: usize = 65_536;

/// The number of reads that a client may take.
const READS: u64 = 4_294_967_296;

/// Answers a line, if it has an answer.
fn answer_line<W: Write>(
    alloc: Global,
    row: &ResourceRow,
    seat: &mut Seat,
    line: &[u8],
    writer: &mut W,
) -> Result<(), AnswerFault>
    ensures { (first : Chair) (all rest : List (List ℕ)) (before : Option (List ℕ))
        → ToldSoFar row.now first all (line.now ∷ rest) seat.old before (W.contents writer.old)
        → OnOk result (ToldSoFar row.now first all rest seat.new before (W.contents writer.new)) }
{
    let report = make_report(alloc, row, seat, line);
    write_report(writer, &report)
}

/// Reads one byte more; LF ends a line.
fn answer_byte<W: Write>(
    alloc: Global,
    row: &ResourceRow,
    seat: &mut Seat,
    line: &mut Vec<u8>,
    byte: u8,
    writer: &mut W,
) -> Result<(), AnswerFault>
    ensures { (first : Chair) (all : List (List ℕ)) (unread : List ℕ) (before : Option (List ℕ))
        → Reading row.now first all (byte ∷ unread) line.old.items seat.old before (W.contents writer.old)
        → OnOk result (Reading row.now first all unread line.new.items seat.new before (W.contents writer.new)) }
{
    if byte != b'\n' {
        return push(line, byte);
    }
    match answer_line(alloc, row, seat, line.as_slice(), writer) {
        Ok(()) => {
            line.clear();
            Ok(())
        }
        Err(fault) => Err(fault),
    }
}

fn push(line: &mut Vec<u8>, byte: u8) -> Result<(), AnswerFault>
    ensures { OnOk result (line.new.items ≡ line.old.items ++ byte ∷ []) }
{
    match line.push(byte) {
        Ok(()) => Ok(()),
        Err(_) => Err(AnswerFault::Memory),
    }
}

/// Reads some bytes more.
fn answer_bytes<W: Write>(
    alloc: Global,
    row: &ResourceRow,
    seat: &mut Seat,
    line: &mut Vec<u8>,
    bytes: &[u8],
    writer: &mut W,
) -> Result<(), AnswerFault>
    ensures { (first : Chair) (all : List (List ℕ)) (unread : List ℕ) (before : Option (List ℕ))
        → Reading row.now first all (bytes.now ++ unread) line.old.items seat.old before (W.contents writer.old)
        → OnOk result (Reading row.now first all unread line.new.items seat.new before (W.contents writer.new)) }
{
    for byte in bytes {
        match answer_byte(alloc, row, seat, line, *byte, writer) {
            Ok(()) => {}
            Err(fault) => return Err(fault),
        }
    }
    Ok(())
}

/// How many bytes were read into the buffer; none only if no byte is left.
fn read_into<R: Read>(reader: &mut R, buffer: &mut [u8]) -> Result<usize, AnswerFault>
    requires { 0 < length buffer.old }
    ensures within { IfOk result (λ n. n ≤ length buffer.old) }
    ensures bytes { IfOk result (λ n. Consumes (R.remaining reader.old) (R.remaining reader.new) (take n buffer.new)) }
    ensures end { IfOk result (λ n. n ≡ 0 → IsAtEnd (R.remaining reader.new)) }
{
    match reader.read(buffer) {
        Ok(count) => Ok(count),
        Err(_) => Err(AnswerFault::Read),
    }
}

/// Reads to the end, a buffer at a time.
fn answer_all<R: Read, W: Write>(
    alloc: Global,
    row: &ResourceRow,
    seat: &mut Seat,
    reader: &mut R,
    buffer: &mut [u8],
    writer: &mut W,
) -> Result<(), AnswerFault>
    requires room { 0 < length buffer.old }
    ensures told { (text : List ℕ) → R.remaining reader.old ≡ Some text
        → OnOk result (ToldSoFar row.now seat.old (lines text) [] seat.new (W.contents writer.old) (W.contents writer.new)) }
    ensures whole { OnOk result (IsAtEnd (R.remaining reader.new)) }
{
    let mut line = Vec::new(alloc);
    for _ in 0..READS {
        let count = read_into(reader, buffer)?;
        if count == 0 {
            return answer_line(alloc, row, seat, line.as_slice(), writer);
        }
        match answer_bytes(alloc, row, seat, &mut line, &buffer[..count], writer) {
            Ok(()) => {}
            Err(fault) => return Err(fault),
        }
    }
    Err(AnswerFault::Read)
}

/// Answers the questions of a reader, a `spec` of a SubjectAccessReview a line, and writes the answers as they are
/// made: the number of published steps that the seat then sees, which never falls, and the decision by the policy after
/// them.
///
/// # Errors
/// `Read` where the reader fails or returns 2^32 pieces or more; `Write` if the writer fails; `Memory` if an
/// allocation fails outside a question.
pub fn answer_run<R: Read, W: Write>(
    alloc: Global,
    seat: &mut Seat,
    reader: &mut R,
    writer: &mut W,
) -> Result<(), AnswerFault>
    ensures told { (text : List ℕ) → R.remaining reader.old ≡ Some text
        → OnOk result (AreReportedIn text seat.old seat.new (W.contents writer.old) (W.contents writer.new)) }
    ensures whole { OnOk result (IsAtEnd (R.remaining reader.new)) }
{
    let row = access_reviews().row(alloc)?;
    let mut buffer = vec![in alloc; 0u8; READ_SIZE]?;
    answer_all(alloc, &row, seat, reader, buffer.as_mut_slice(), writer)
}
