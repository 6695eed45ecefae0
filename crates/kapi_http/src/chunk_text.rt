//! A body in chunks as text (RFC 9112 section 7.1).
ghost use Rattle.std.specs.Prelude.{◌≡◌, IfOk};
ghost use Rattle.kapi_http.specs.ChunkText.{chunk, last_chunk};

use kapi_text::Memory;
use std::alloc::Global;

/// The most bytes that a chunk has beside its data: 16 digits and two line ends.
const SIZE_ROOM: usize = 20;

/// The chunk of these bytes: their number in lower case hexadecimal without leading zeros, CRLF, the bytes, CRLF
/// (RFC 9112 section 7.1).
///
/// There should be some bytes: a chunk of none is read as the end of the body, for which there is [`write_end`].
#[tactic(auto, using(std::proofs::Common::append_assoc))]
pub fn write_chunk(alloc: Global, bytes: &[u8]) -> Result<Vec<u8>, Memory>
    ensures { IfOk result (λ b. b.items ≡ chunk bytes.now) }
{
    let count = bytes.len();
    let mut size = String::with_capacity(alloc, SIZE_ROOM + count)?;
    write!(size, "{count:x}\r\n")?;
    let mut out = size.into_bytes();
    out.extend_from_slice(bytes)?;
    out.extend_from_slice(b"\r\n")?;
    Ok(out)
}

/// The end of a body in chunks: the last chunk, whose size is 0, and the empty line behind it (RFC 9112 section 7.1).
pub fn write_end(alloc: Global) -> Result<Vec<u8>, Memory>
    ensures { IfOk result (λ b. b.items ≡ last_chunk) }
{
    Vec::from_slice(alloc, b"0\r\n\r\n")
}
