//! Why a call of the system failed, in words.
use std::fmt;
use std::io::{self, ErrorKind};

/// Why a call of the system failed: the usual reasons in words of their own, all others as the system says them.
#[derive(Clone, Copy)]
pub struct Reason<'a>(pub &'a io::Error);

impl fmt::Display for Reason<'_> {
    fn fmt<W: fmt::Write>(&self, f: &mut fmt::Formatter<W>) -> fmt::Result {
        match words(self.0.kind()) {
            Some(words) => f.write_str(words),
            None => fmt::Display::fmt(self.0, f),
        }
    }
}

/// The words for a usual reason; none for another.
pub fn words(kind: ErrorKind) -> Option<&'static str> {
    match kind {
        ErrorKind::NotFound => Some("there is no such file"),
        ErrorKind::PermissionDenied => Some("permission denied"),
        ErrorKind::IsADirectory => Some("it is a directory"),
        ErrorKind::InvalidInput => Some("it is no plain file"),
        ErrorKind::FilesystemLoop => Some("it has too many folders, or links in a circle"),
        ErrorKind::AddrInUse => Some("the port is in use"),
        ErrorKind::StorageFull => Some("what it prints cannot be written, as the disk is full"),
        ErrorKind::BrokenPipe => Some("what it prints cannot be written, as nobody reads it"),
        ErrorKind::OutOfMemory => Some("out of memory"),
        _ => None,
    }
}
