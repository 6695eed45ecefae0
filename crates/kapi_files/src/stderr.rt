//! Files that are read, answers on standard output, and faults on standard error.
use crate::ending::Ending;
use crate::sources::read_input;
use crate::system_reason::{Reason, words};
use kapi_text::Memory;
use std::fmt::{self, Display};
use std::fs::{self, Files};
use std::io::{self, BufWriter, Write};

/// A text from a file, a name or a reason, as it is printed on standard error: no control character of it reaches a
/// terminal, and no log of a CI system takes it for a command.
#[derive(Clone, Copy)]
pub struct Plain<'a>(pub &'a str);

impl Display for Plain<'_> {
    fn fmt<W: fmt::Write>(&self, f: &mut fmt::Formatter<W>) -> fmt::Result {
        for (index, character) in self.0.chars().enumerate() {
            write_plain(f, index == 0, character)?;
        }
        Ok(())
    }
}

fn write_plain<W: fmt::Write>(
    f: &mut fmt::Formatter<W>,
    is_first: bool,
    character: char,
) -> fmt::Result {
    let is_marked = character == '#' || (is_first && (character == ':' || character == ' '));
    let number = u32::from(character);
    if is_marked || number < 0x20 || (0x7f..0xa0).contains(&number) {
        return write!(f, "\\x{:02x}", number);
    }
    f.write_char(character)
}

/// The bytes of a file, or of standard input, which is named `-`; none if it cannot be read, after a line on standard
/// error.
pub fn read_file<R: Files + Input + Eprint + AllocGlobal>(
    rt: &R,
    file: &str,
) -> io::Result<Option<Vec<u8>>> {
    let read = if file == "-" {
        read_input(rt)
    } else {
        fs::read(rt, file)
    };
    match read {
        Ok(bytes) => Ok(Some(bytes)),
        Err(error) => {
            tell_unread(rt, file, &error)?;
            Ok(None)
        }
    }
}

/// Prints an answer.
pub fn print<R: Print + AllocGlobal>(rt: &R, text: &[u8]) -> io::Result<()> {
    let mut writer = BufWriter::new(rt.alloc(), io::writer(rt))?;
    writer.write_all(text)?;
    writer.flush()
}

/// The reason below a fault, if there is one and memory for it.
pub fn tell_reason<T: Display + Drop>(
    rt: &impl Eprint,
    reason: Result<Option<T>, Memory>,
) -> io::Result<()> {
    match reason {
        Ok(Some(reason)) => eprintln!(rt; "  {reason}"),
        Ok(None) | Err(_) => Ok(()),
    }
}

/// A file that cannot be read: status 1.
pub fn tell_unread(rt: &impl Eprint, file: &str, error: &io::Error) -> io::Result<Ending> {
    let (file, reason) = (Plain(file), Reason(error));
    eprintln!(rt; "{file}: {reason}")?;
    Ok(Ending::Stopped)
}

/// What is printed cannot be written, or the system refuses something else: status 1.
pub fn tell_stopped(rt: &impl Eprint, error: &io::Error) -> io::Result<Ending> {
    let reason = Reason(error);
    eprintln!(rt; "kapi: {reason}")?;
    if words(error.kind()).is_none() {
        eprintln!(rt; "  standard output may be closed")?;
    }
    Ok(Ending::Stopped)
}
