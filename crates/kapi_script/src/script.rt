ghost use Rattle.std.specs.Prelude.{◌≡◌, ◌+◌, ◌<◌, ◌≤◌, ◌++◌, [], ◌∷◌, Bool, List, ℕ, None, Some, Err, OnOk, IfOk, IfErr, length, take, true, codes};
ghost use Rattle.kapi_script.specs.declared.script.ScriptFault.TheVariants as Fault;
ghost use Rattle.std.specs.Io.KnownBytes.{Appends, Consumes, IsAtEnd};
ghost use Rattle.kapi_core.specs.Machine.{Machine};
ghost use Rattle.kapi_core.specs.Refines.{Refines};
ghost use Rattle.kapi_core.specs.Table.{fits};
ghost use Rattle.kapi_script.specs.Private.Playing.{Ends, IsPlayedOn, Play, Plays, ReachedBy, Reading, ReadsOn, played_text};
ghost use Rattle.kapi_policy.specs.Objects.{no_objects};
ghost use Rattle.kapi_script.specs.Gains.{NobodyGainsFrom};
ghost use Rattle.kapi_script.specs.Scripts.{IsAnswered, IsAnsweredBy};
ghost use Rattle.std.specs.Fmt.{decimal};
ghost use Rattle.kapi_script.specs.AnswerLines.{answer_line, output_line, turn_line};

use crate::line::{LineError, parse_line};
use kapi_core::{Answer, ConnId, Core, Output, Turned};
use kapi_lines::write_escaped;
use kapi_model::ResourceRow;
use kapi_policy::Policy;
use kapi_text::{Memory, Sequence};
use std::alloc::Global;
use std::io::{self, Read, Write};
use thiserror::Error;

/// The number of bytes that are read at a time.
const READ_SIZE: usize = 65_536;

/// The number of reads that a script may take.
const READS: u64 = 4_294_967_296;

/// Why a script was not played to its end. The answers before the fault are written.
#[derive(Clone, Copy, Debug, PartialEq, Eq, Error)]
pub enum ScriptFault {
    /// A line of no known form, and why; the first line is 1.
    #[error("bad line {0}\n  {1}")]
    BadLine(u64, &'static str),
    #[error("the script cannot be read")]
    Read,
    #[error("the answers cannot be written")]
    Write,
    #[error("out of memory")]
    Memory,
}

impl From<Memory> for ScriptFault {
    ghost use Rattle.std.specs.Prelude.{◌≡◌};
    ghost use Rattle.kapi_script.specs.declared.script.ScriptFault.TheVariants.{Memory as NoMemory};

    ghost from_gives = { λ _ e. e ≡ NoMemory };

    fn from(_error: Memory) -> ScriptFault {
        ScriptFault::Memory
    }
}

/// A script that is being read: the line that was read so far, and how many lines were whole.
#[derive(Drop)]
struct Script {
    line: Vec<u8>,
    lines: u64,
}

/// What was made of a line.
#[derive(Drop)]
pub enum Played {
    /// The line is empty or a comment.
    Skipped,
    /// The line has no known form, for this reason.
    Bad(&'static str),
    /// An allocation failed, and nothing was changed.
    Refused,
    Answered(Answer),
}

/// Makes the step of a line, if it is one of a known form.
#[tactic(auto, unfolding(crate::specs::Scripts::line_of))]
fn play<P: Policy + Drop>(alloc: Global, core: &mut Core<P>, line: &[u8]) -> Played
    ensures { Plays core.old core.new line.now result }
{
    if line.is_empty() || line[0] == b'#' {
        return Played::Skipped;
    }
    match parse_line(alloc, line) {
        Ok(event) => match core.step(&event) {
            Ok(answer) => Played::Answered(answer),
            Err(_) => Played::Refused,
        },
        Err(LineError::NoEvent(reason)) => Played::Bad(reason),
        Err(LineError::Memory) => Played::Refused,
    }
}

/// Writes the line that answers a line, if it has one, and flushes the writer.
fn write_played<W: Write>(writer: &mut W, played: &Played) -> Result<(), ScriptFault>
    ensures text { OnOk result (Appends (W.contents writer.old) (W.contents writer.new) (played_text played.now)) }
    ensures fault { IfErr result (λ e. e ≡ Fault.Write) }
{
    if write_text(writer, played).is_err() || writer.flush().is_err() {
        return Err(ScriptFault::Write);
    }
    Ok(())
}

#[tactic(auto, using(kapi_lines::proofs::Appending::appends_nothing))]
fn write_text<W: Write>(writer: &mut W, played: &Played) -> io::Result<()>
    ensures { OnOk result (Appends (W.contents writer.old) (W.contents writer.new) (played_text played.now)) }
{
    match played {
        Played::Skipped | Played::Bad(_) => Ok(()),
        Played::Refused => writer.write_all(b"error Memory\n"),
        Played::Answered(answer) => write_answer(writer, answer),
    }
}

/// Plays a line behind so many others, and writes its answer.
fn play_line<P: Policy + Drop, W: Write>(
    alloc: Global,
    core: &mut Core<P>,
    lines: u64,
    line: &[u8],
    writer: &mut W,
) -> Result<(), ScriptFault>
    requires { lines < 18446744073709551615 }
    ensures { (all : Play) (rest : List (List ℕ)) (before : List ℕ) → ReachedBy all (line.now ∷ rest) lines core.old before (W.contents writer.old)
        → IsPlayedOn all rest (lines + 1) core.new before (W.contents writer.new) result }
{
    let played = play(alloc, core, line);
    if let Played::Bad(reason) = &played {
        return Err(ScriptFault::BadLine(lines + 1, *reason));
    }
    write_played(writer, &played)
}

/// Reads one byte more; LF ends a line.
fn play_byte<P: Policy + Drop, W: Write>(
    alloc: Global,
    core: &mut Core<P>,
    script: &mut Script,
    byte: u8,
    writer: &mut W,
) -> Result<(), ScriptFault>
    requires { script.old.lines < 18446744073709551615 }
    ensures goes { (all : Play) (unread before : List ℕ) → Reading all (byte ∷ unread) core.old script.old before (W.contents writer.old)
        → ReadsOn all unread core.new script.new before (W.contents writer.new) result }
    ensures count { OnOk result (script.new.lines ≤ script.old.lines + 1) }
{
    if byte != b'\n' {
        return push(&mut script.line, byte);
    }
    match play_line(alloc, core, script.lines, script.line.as_slice(), writer) {
        Ok(()) => {
            script.lines += 1;
            script.line.clear();
            Ok(())
        }
        Err(fault) => Err(fault),
    }
}

fn push(line: &mut Vec<u8>, byte: u8) -> Result<(), ScriptFault>
    ensures pushed { OnOk result (line.new.items ≡ line.old.items ++ byte ∷ []) }
    ensures fault { IfErr result (λ e. e ≡ Fault.Memory) }
{
    match line.push(byte) {
        Ok(()) => Ok(()),
        Err(_) => Err(ScriptFault::Memory),
    }
}

/// Reads some bytes more.
fn play_bytes<P: Policy + Drop, W: Write>(
    alloc: Global,
    core: &mut Core<P>,
    script: &mut Script,
    bytes: &[u8],
    writer: &mut W,
) -> Result<(), ScriptFault>
    requires { script.old.lines + length bytes.now ≤ 18446744073709551615 }
    ensures goes { (all : Play) (unread before : List ℕ) → Reading all (bytes.now ++ unread) core.old script.old before (W.contents writer.old)
        → ReadsOn all unread core.new script.new before (W.contents writer.new) result }
    ensures count { OnOk result (script.new.lines ≤ script.old.lines + length bytes.now) }
{
    for byte in bytes {
        match play_byte(alloc, core, script, *byte, writer) {
            Ok(()) => {}
            Err(fault) => return Err(fault),
        }
    }
    Ok(())
}

/// Plays the last line, which may lack its end.
fn end_script<P: Policy + Drop, W: Write>(
    alloc: Global,
    core: &mut Core<P>,
    script: &mut Script,
    writer: &mut W,
) -> Result<(), ScriptFault>
    requires { script.old.lines < 18446744073709551615 }
    ensures { (all : Play) (before : List ℕ) → Reading all [] core.old script.old before (W.contents writer.old)
        → Ends all before (W.contents writer.new) result }
{
    play_line(alloc, core, script.lines, script.line.as_slice(), writer)
}

/// Plays the events of a reader, line by line, on a machine that serves the resource types of a table and decides by the
/// given policy, which is still empty, and writes the answers as they are made.
///
/// From any line of the script on, and wherever an allocation fails, nobody gains by the lines that follow what no
/// actor held: if the aggregated cluster roles then have their unions, and all identities acting in the lines are
/// unprivileged.
///
/// # Errors
/// `BadLine` at the first line of no known form, with the reason; `Read` where the reader fails or returns 2^32 pieces or more;
/// `Write` if the writer fails; `Memory` if an allocation fails outside an event.
pub fn script_run<P: Policy + Drop, R: Read, W: Write>(
    alloc: Global,
    table: Sequence<ResourceRow>,
    policy: P,
    reader: &mut R,
    writer: &mut W,
) -> Result<(), ScriptFault>
    requires table { fits table ≡ true }
    requires empty { P.content policy ≡ no_objects }
    ensures played { (text before : List ℕ) → R.remaining reader.old ≡ Some text → W.contents writer.old ≡ Some before
        → OnOk result (IsAnswered table text before (W.contents writer.new) None) }
    ensures bad { (text before : List ℕ) (number : ℕ) (reason : _) → R.remaining reader.old ≡ Some text → W.contents writer.old ≡ Some before
        → result ≡ Err (Fault.BadLine number reason) → IsAnswered table text before (W.contents writer.new) (Some number) }
    ensures whole { OnOk result (IsAtEnd (R.remaining reader.new)) }
    ensures gains { (text : List ℕ) (refused : List Bool) (count : ℕ) → R.remaining reader.old ≡ Some text
        → NobodyGainsFrom table text refused count }
{
    let mut core = Core::new(alloc, table, policy, 0)?;
    play_script(alloc, &mut core, reader, writer)
}

/// Plays the events of a reader, line by line, on a machine, and writes the answers as they are made.
///
/// # Errors
/// The errors of `script_run`.
pub fn play_script<P: Policy + Drop, R: Read, W: Write>(
    alloc: Global,
    core: &mut Core<P>,
    reader: &mut R,
    writer: &mut W,
) -> Result<(), ScriptFault>
    ensures played { (m : Machine) (text before : List ℕ) → Refines core.old m → R.remaining reader.old ≡ Some text
        → W.contents writer.old ≡ Some before → OnOk result (IsAnsweredBy m text before (W.contents writer.new) None) }
    ensures bad { (m : Machine) (text before : List ℕ) (number : ℕ) (reason : _) → Refines core.old m → R.remaining reader.old ≡ Some text
        → W.contents writer.old ≡ Some before → result ≡ Err (Fault.BadLine number reason)
        → IsAnsweredBy m text before (W.contents writer.new) (Some number) }
    ensures whole { OnOk result (IsAtEnd (R.remaining reader.new)) }
{
    let mut script = Script {
        line: Vec::new(alloc),
        lines: 0,
    };
    let mut buffer = vec![in alloc; 0u8; READ_SIZE]?;
    play_all(
        alloc,
        core,
        &mut script,
        reader,
        buffer.as_mut_slice(),
        writer,
    )
}

/// Reads to the end, a buffer at a time.
fn play_all<P: Policy + Drop, R: Read, W: Write>(
    alloc: Global,
    core: &mut Core<P>,
    script: &mut Script,
    reader: &mut R,
    buffer: &mut [u8],
    writer: &mut W,
) -> Result<(), ScriptFault>
    requires lines { script.old.lines ≡ 0 }
    requires room { 0 < length buffer.old }
    requires size { length buffer.old ≤ 65536 }
    ensures ends { (all : Play) (unread before : List ℕ) → R.remaining reader.old ≡ Some unread
        → Reading all unread core.old script.old before (W.contents writer.old) → Ends all before (W.contents writer.new) result }
    ensures whole { OnOk result (IsAtEnd (R.remaining reader.new)) }
{
    for _ in 0..READS {
        let count = read_into(reader, buffer)?;
        if count == 0 {
            return end_script(alloc, core, script, writer);
        }
        match play_bytes(alloc, core, script, &buffer[..count], writer) {
            Ok(()) => {}
            Err(fault) => return Err(fault),
        }
    }
    Err(ScriptFault::Read)
}

/// How many bytes were read into the buffer; none only if no byte is left.
fn read_into<R: Read>(reader: &mut R, buffer: &mut [u8]) -> Result<usize, ScriptFault>
    requires { 0 < length buffer.old }
    ensures within { IfOk result (λ n. n ≤ length buffer.old) }
    ensures bytes { IfOk result (λ n. Consumes (R.remaining reader.old) (R.remaining reader.new) (take n buffer.new)) }
    ensures end { IfOk result (λ n. n ≡ 0 → IsAtEnd (R.remaining reader.new)) }
    ensures fault { IfErr result (λ e. e ≡ Fault.Read) }
{
    match reader.read(buffer) {
        Ok(count) => Ok(count),
        Err(_) => Err(ScriptFault::Read),
    }
}

/// Writes the line of an answer, with its end. Allocates nothing.
#[tactic(auto, unfolding(crate::specs::AnswerLines::answer_line))]
pub fn write_answer<W: Write>(writer: &mut W, answer: &Answer) -> io::Result<()>
    ensures { OnOk result (Appends (W.contents writer.old) (W.contents writer.new) (answer_line answer.now)) }
{
    match answer {
        Answer::Opened(conn) => write_opened(writer, *conn),
        Answer::Done => writer.write_all(b"ok\n"),
        Answer::Nothing => writer.write_all(b"none\n"),
        Answer::Sent(output) => write_output(writer, output),
        Answer::Turned(turned) => write_turned(writer, turned),
        Answer::TooMany => writer.write_all(b"error TooMany\n"),
        Answer::Full => writer.write_all(b"error Full\n"),
        Answer::Ended => writer.write_all(b"error Ended\n"),
    }
}

fn write_opened<W: Write>(writer: &mut W, conn: ConnId) -> io::Result<()>
    ensures { OnOk result (Appends (W.contents writer.old) (W.contents writer.new) (codes "conn " ++ decimal conn.0 ++ codes "\n")) }
{
    writeln!(writer, "conn {}", conn.0)
}

#[tactic(auto, unfolding(crate::specs::AnswerLines::output_line), using(kapi_lines::proofs::Appending::appends_more))]
fn write_output<W: Write>(writer: &mut W, output: &Output) -> io::Result<()>
    ensures { OnOk result (Appends (W.contents writer.old) (W.contents writer.new) (output_line output.now)) }
{
    writer.write_all(if output.close {
        b"last ".as_slice()
    } else {
        b"out ".as_slice()
    })?;
    write_escaped(writer, output.bytes.as_slice())?;
    writer.write_all(b"\n")
}

#[tactic(auto, unfolding(crate::specs::AnswerLines::turn_line), using(kapi_lines::proofs::Appending::appends_more))]
fn write_turned<W: Write>(writer: &mut W, turned: &Turned) -> io::Result<()>
    ensures { OnOk result (Appends (W.contents writer.old) (W.contents writer.new) (turn_line turned.now)) }
{
    writer.write_all(b"turn ")?;
    write!(writer, "{}", turned.revision)?;
    writer.write_all(b" ")?;
    write_escaped(writer, turned.name.as_str().as_bytes())?;
    writer.write_all(b"\n")
}
