//! A body in chunks, read as its bytes come (RFC 9112 section 7.1).
ghost use Rattle.std.specs.Prelude.{◌≡◌, ◌+◌, ◌-◌, ◌*◌, ◌≤◌, ◌<◌, IfOk, IfSome, min, nat_lt, if◌then◌else◌, Some, None, length};
ghost use Rattle.std.specs.Char.{digit_value, is_digit};
ghost use Rattle.kapi_http.specs.Chunks.{behind_size as behind_size_of, chunk_step, chunked, ending_of, in_data as in_data_of, in_size as in_size_of, is_over as is_over_of, is_wrong as is_wrong_of, joined, next_state, no_chunks, only as only_of, within_sent as within_sent_of};
ghost use Rattle.kapi_http.specs.declared.chunks.ChunkState.TheVariants.{Data, DataEnd};

use crate::message::Refusal;
use crate::rules::BODY_LIMIT;
use kapi_text::{Memory, hex_value};
use std::alloc::Global;

/// The most bytes of a body in chunks as sent, with its size lines and line ends.
pub const SENT_LIMIT: usize = 1_572_864;

/// The place of the next byte in a body in chunks.
#[derive(Clone, Copy, PartialEq, Eq)]
pub enum ChunkState {
    /// In a size line, behind so many digits of the size, or of one above the limit.
    SizeLine(u32, u32),
    /// Behind the CR of the line of that size.
    SizeCr(u32),
    /// In data of which so many bytes are to come.
    Data(u32),
    /// Behind the data of a chunk.
    DataEnd,
    /// Behind the CR that follows the data.
    DataCr,
    /// Behind the line of the last chunk, whose size is 0.
    LastLine,
    /// Behind the CR that follows the last chunk's line.
    LastCr,
    /// Behind the whole body.
    Whole,
    /// Behind a byte that is not allowed there.
    Wrong,
    /// Behind a body that is above a limit.
    TooLarge,
}

/// How far a body in chunks was read.
#[derive(Clone, Copy, PartialEq, Eq)]
pub struct Chunks {
    pub spot: ChunkState,
    /// How many bytes of the body as sent were read.
    pub at: usize,
    /// How many of the bytes that were read are data.
    pub sum: usize,
}

/// What is known of a body in chunks.
#[derive(Clone, Copy, PartialEq, Eq)]
pub enum Ending {
    /// The body is not whole yet.
    Open,
    /// The body is whole.
    Closed,
    /// The bytes are no body in chunks, or the body is above a limit.
    Refused(Refusal),
}

/// The progress before any byte.
pub const NO_CHUNKS: Chunks = Chunks {
    spot: ChunkState::SizeLine(0, 0),
    at: 0,
    sum: 0,
};

/// The body is whole, or is refused.
pub fn is_over(spot: ChunkState) -> bool
    ensures { result ≡ is_over_of spot }
{
    matches!(
        spot,
        ChunkState::Whole | ChunkState::Wrong | ChunkState::TooLarge
    )
}

/// What is known of the body.
pub fn outcome(spot: ChunkState) -> Ending
    ensures { result ≡ ending_of spot }
{
    match spot {
        ChunkState::Whole => Ending::Closed,
        ChunkState::Wrong => Ending::Refused(Refusal::Chunk),
        ChunkState::TooLarge => Ending::Refused(Refusal::BodyTooLarge),
        _ => Ending::Open,
    }
}

fn in_data(spot: ChunkState) -> bool
    ensures { result ≡ in_data_of spot }
{
    matches!(spot, ChunkState::Data(_))
}

fn is_wrong(spot: ChunkState) -> bool
    ensures { result ≡ is_wrong_of spot }
{
    matches!(spot, ChunkState::Wrong)
}

// The size with one digit more, or the first above the limit.
fn longer(size: u32, digit: u8) -> u32
    requires { digit < 16 }
    ensures { result ≡ min (size * 16 + digit) 1048577 }
{
    (size as usize * 16 + digit as usize).min(BODY_LIMIT + 1) as u32
}

// The state behind the only byte that is allowed here; any other byte is wrong.
fn only(wanted: u8, byte: u8, spot: ChunkState) -> ChunkState
    ensures { result ≡ only_of wanted byte spot }
{
    if byte == wanted {
        spot
    } else {
        ChunkState::Wrong
    }
}

// The state in a size line, behind so many digits of the size.
fn in_size(digits: u32, size: u32, byte: u8) -> ChunkState
    ensures { result ≡ in_size_of digits size byte }
{
    match hex_value(byte) {
        Some(digit) if digits < 8 => ChunkState::SizeLine(digits + 1, longer(size, digit)),
        Some(_) => ChunkState::Wrong,
        None if byte == b'\r' && digits > 0 => ChunkState::SizeCr(size),
        None => ChunkState::Wrong,
    }
}

// The state behind the line of a size: the last chunk, too much data, or so many bytes of data.
fn behind_size(size: u32, sum: usize) -> ChunkState
    requires { sum ≤ 2097152 }
    ensures { result ≡ behind_size_of size sum }
{
    if size == 0 {
        ChunkState::LastLine
    } else if sum + size as usize > BODY_LIMIT {
        ChunkState::TooLarge
    } else {
        ChunkState::Data(size)
    }
}

// The state behind `byte`, with so many bytes of data before it.
fn spot_after(spot: ChunkState, sum: usize, byte: u8) -> ChunkState
    requires { sum ≤ 2097152 }
    ensures { result ≡ next_state spot sum byte }
{
    match spot {
        ChunkState::SizeLine(digits, size) => in_size(digits, size, byte),
        ChunkState::SizeCr(size) => only(b'\n', byte, behind_size(size, sum)),
        ChunkState::Data(left) => behind_data(left),
        ChunkState::DataEnd => only(b'\r', byte, ChunkState::DataCr),
        ChunkState::DataCr => only(b'\n', byte, ChunkState::SizeLine(0, 0)),
        ChunkState::LastLine => only(b'\r', byte, ChunkState::LastCr),
        ChunkState::LastCr => only(b'\n', byte, ChunkState::Whole),
        over => over,
    }
}

// The state behind a byte of data, of which so many were to come.
fn behind_data(left: u32) -> ChunkState
    ensures { result ≡ (if nat_lt 1 left then Data (left - 1) else DataEnd) }
{
    if left > 1 {
        ChunkState::Data(left - 1)
    } else {
        ChunkState::DataEnd
    }
}

// The state, unless more bytes were sent than are allowed; a wrong byte is reported first.
fn within_sent(at: usize, spot: ChunkState) -> ChunkState
    ensures { result ≡ within_sent_of at spot }
{
    if at > SENT_LIMIT && !is_wrong(spot) {
        ChunkState::TooLarge
    } else {
        spot
    }
}

// The progress with one byte more.
fn step(chunks: Chunks, byte: u8) -> Chunks
    requires bound { chunks.sum ≤ chunks.at }
    requires fits { chunks.at < 2097152 }
    ensures { result ≡ chunk_step chunks byte }
{
    Chunks {
        spot: within_sent(chunks.at + 1, spot_after(chunks.spot, chunks.sum, byte)),
        at: chunks.at + 1,
        sum: if in_data(chunks.spot) {
            chunks.sum + 1
        } else {
            chunks.sum
        },
    }
}

/// Reads on from `chunks` over the bytes that follow, up to the end of the body.
#[tactic(auto, using(crate::proofs::Chunking::chunked_over), unfolding(crate::specs::Chunks::chunked))]
pub fn read_on(chunks: Chunks, bytes: &[u8]) -> Chunks
    requires bound { chunks.sum ≤ chunks.at }
    requires fits { chunks.at + length bytes.now ≤ 2097152 }
    ensures { result ≡ chunked chunks bytes.now }
{
    let mut state = chunks;
    for byte in bytes {
        if is_over(state.spot) {
            return state;
        }
        state = step(state, *byte);
    }
    state
}

/// The data of the chunks that `bytes` are; `size` is the capacity that is allocated first.
#[tactic(auto, using(std::proofs::Common::append_assoc), unfolding(crate::specs::Chunks::joined))]
pub fn join(alloc: Global, bytes: &[u8], size: usize) -> Result<Vec<u8>, Memory>
    requires { length bytes.now ≤ 2097152 }
    ensures { IfOk result (λ v. v.items ≡ joined no_chunks bytes.now) }
{
    let mut found = Vec::with_capacity(alloc, size)?;
    let mut state = NO_CHUNKS;
    for byte in bytes {
        if in_data(state.spot) {
            found.push(*byte)?;
        }
        state = step(state, *byte);
    }
    Ok(found)
}
