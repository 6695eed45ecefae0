ghost use Rattle.std.specs.Prelude.{◌≡◌, ◌≤◌, ◌<◌, ◌+◌, ℕ, IfOk, IsErr, take};
ghost use Rattle.std.specs.Io.{ReadsAtMost};
ghost use Rattle.std.specs.Io.KnownBytes.{ReadConsumes};
ghost use Rattle.kapi.specs.Lines.{grown, line_length};

use std::io::{self, ErrorKind, Read};

/// The largest length of a line, in bytes.
const LINE_LIMIT: usize = 1_048_576;

/// A reader that fails once a line has more than `LINE_LIMIT` bytes. It hands no more of that line on than the first
/// byte above the limit, so no such line is whole.
#[derive(Drop)]
pub struct BoundedLines<R: Read + Drop> {
    inner: R,
    /// The length of the line that has begun.
    length: usize,
}

impl<R: Read + Drop> BoundedLines<R> {
    pub fn new(inner: R) -> BoundedLines<R>
        ensures { result.length ≡ 0 }
    {
        BoundedLines { inner, length: 0 }
    }
}

impl<R: Read + Drop> Read for BoundedLines<R> {
    ghost remaining = { λ r. R.remaining r.inner };

    fn read(&mut self, buffer: &mut [u8]) -> io::Result<usize>
        ensures bound { ReadsAtMost result buffer.new }
        ensures bytes { ReadConsumes (R.remaining self.old.inner) (R.remaining self.new.inner) result buffer.new }
        ensures line { IfOk result (λ n. self.new.length ≡ line_length self.old.length (take n buffer.new)) }
        ensures short { IfOk result (λ n. (k : ℕ) → k < n → line_length self.old.length (take k buffer.new) ≤ 1048576) }
        ensures failed { 1048576 < self.old.length → IsErr result × (self.new.length ≡ self.old.length) }
    {
        if self.length > LINE_LIMIT {
            return Err(io::Error::from(ErrorKind::InvalidData));
        }
        let room = room_in(buffer.len(), self.length);
        let count = self.inner.read(&mut buffer[..room])?;
        self.length = length_after(self.length, &buffer[..count]);
        Ok(count)
    }
}

/// How many bytes may be read: as many as the buffer takes, and none behind the first that makes a line too long.
fn room_in(size: usize, length: usize) -> usize
    requires { length ≤ 1048576 }
    ensures size { result ≤ size }
    ensures line { result + length ≤ 1048577 }
    ensures some { 0 < size → 0 < result }
{
    let rest = LINE_LIMIT + 1 - length;
    if size < rest { size } else { rest }
}

/// The length of the unfinished line after these bytes, or of the first line that is too long.
fn length_after(length: usize, bytes: &[u8]) -> usize
    ensures { result ≡ line_length length bytes.now }
{
    let mut length = length;
    for byte in bytes {
        length = next_length(length, *byte);
    }
    length
}

/// The length of a line when one byte more has come.
fn next_length(length: usize, byte: u8) -> usize
    ensures { result ≡ grown length byte }
{
    if length > LINE_LIMIT {
        return length;
    }
    if byte == b'\n' {
        return 0;
    }
    length + 1
}
