//! The segments of a path (RFC 3986 sections 2.1 and 3.3).
ghost use Rattle.std.specs.Prelude.{◌≡◌, ◌==◌, ◌<◌, nat_le, true, false, not, ◌&&◌, ◌||◌, if◌then◌else◌, [], ◌∷◌, ◌++◌, codes, drop, length, ok_or, Ok, Err, IfOk, IfSome, IsNone};
ghost use Rattle.std.specs.List.{slice_split, list_all, position_from};
ghost use Rattle.std.specs.Option.{option_copied};
ghost use Rattle.std.specs.Str.{IsAscii, bytes_eq};
ghost use Rattle.percent_encoding.specs.Percent.{percent_decode as decoded_of};
ghost use Rattle.kapi_text.specs.ResultIs.{ResultIs};
ghost use Rattle.kapi_request_info.specs.Faults.{bad_path, bad_escape, fault_of};
ghost use Rattle.kapi_request_info.specs.Path.{has_slash as has_slash_of, names_something as names_something_of, without_last_empty as without_last_empty_of};
ghost use Rattle.kapi_request_info.specs.Path.{begins_with_digits as begins_with_digits_of, has_whole_escapes as has_whole_escapes_of, pieces as pieces_of, text_in as text_in_of, texts as texts_of, segments as segments_of};

use crate::attributes::InfoError;
use kapi_text::Memory;
use percent_encoding::{ascii_str, percent_decode};
use std::alloc::Global;
use std::borrow::{CowSlice, CowStr};
use std::marker::Model;
use std::str;

/// There is room at once for so many pieces of a path.
const USUAL_PIECES: usize = 8;

/// A decoded segment of a path, which is copied only where something was to be decoded.
#[derive(Drop)]
pub struct Segment<'a> {
    text: CowStr<'a, Global>,
}

impl<'a> Model for Segment<'a> {
    ghost use Rattle.std.specs.Prelude.{ℕ, List};
    ghost use Rattle.std.specs.Cow.{cow_str_bytes};

    ghost Value = { List ℕ };

    ghost view = { λ s. cow_str_bytes s.text };
}

impl<'a> Segment<'a> {
    /// The text, borrowed.
    pub fn as_str(&self) -> &str
        ensures { result.now ≡ self.now }
    {
        self.text.as_str()
    }
}

/// The decoded bytes between two slashes of a path, which are copied only where something was to be decoded.
#[derive(Drop)]
struct Piece<'a> {
    bytes: CowSlice<'a, u8, Global>,
}

impl<'a> Model for Piece<'a> {
    ghost use Rattle.std.specs.Prelude.{ℕ, List};
    ghost use Rattle.std.specs.Cow.{cow_slice_items};

    ghost Value = { List ℕ };

    ghost view = { λ p. cow_slice_items p.bytes };
}

impl<'a> Piece<'a> {
    /// The bytes, borrowed.
    fn as_slice(&self) -> &[u8]
        ensures { result.now ≡ self.now }
    {
        self.bytes.as_ref()
    }
}

/// The decoded segments of a path of ASCII, as each target's is; a path without a `%` needs no decoding.
#[tactic(auto, using(crate::proofs::Plain::plain_from_looks))]
pub(crate) fn ascii_segments(alloc: Global, path: &[u8]) -> Result<Vec<Segment<'_>>, InfoError>
    requires { IsAscii path.now }
    ensures { ResultIs fault_of (λ v. v.items) result (segments_of path.now) }
{
    if path.contains(&b'%') {
        segments(alloc, path)
    } else {
        plain_segments(alloc, path)
    }
}

/// The segments of a path of ASCII without a `%`, so that each byte stands for itself (RFC 3986 section 2.1): its parts
/// between slashes, borrowed.
#[tactic(auto, using(crate::proofs::Plain::plain_start, crate::proofs::Plain::plain_fault, crate::proofs::Plain::plain_end, crate::proofs::Plain::plain_last, crate::proofs::Plain::plain_sides))]
fn plain_segments(alloc: Global, path: &[u8]) -> Result<Vec<Segment<'_>>, InfoError>
    requires { list_all (λ b. nat_le b 127 && not (b == 37)) path.now ≡ true }
    ensures { ResultIs fault_of (λ v. v.items) result (segments_of path.now) }
{
    let mut segments = Vec::with_capacity(alloc, USUAL_PIECES)?;
    let mut rest = behind_first(path);
    while let Some((part, after)) = split_at_slash(rest) {
        segments.push(plain_segment(part)?)?;
        rest = after;
    }
    if !rest.is_empty() {
        segments.push(plain_segment(rest)?)?;
    }
    Ok(segments)
}

/// A part of such a path as a segment, which must name something.
#[tactic(auto, using(crate::proofs::Plain::plain_is_ascii))]
fn plain_segment(part: &[u8]) -> Result<Segment<'_>, InfoError>
    requires plain { list_all (λ b. nat_le b 127 && not (b == 37)) part.now ≡ true }
    requires slashless { has_slash_of part.now ≡ false }
    ensures { ResultIs fault_of (λ s. s) result (if names_something_of part.now then Ok part.now else Err bad_path) }
{
    if is_empty_or_dots(part) {
        return Err(InfoError::BadPath);
    }
    let text = CowStr::Borrowed(ascii_str(part));
    Ok(Segment { text })
}

/// The decoded segments of a path, a last empty one left out.
#[tactic(auto, unfolding(crate::specs::Path::segments))]
pub fn segments(alloc: Global, path: &[u8]) -> Result<Vec<Segment<'_>>, InfoError>
    ensures { ResultIs fault_of (λ v. v.items) result (segments_of path.now) }
{
    let pieces = pieces(alloc, path)?;
    let segments = without_last_empty(pieces.as_slice());
    if !all_name_something(segments) {
        return Err(InfoError::BadPath);
    }
    if !has_whole_escapes(path) {
        return Err(InfoError::BadEscape);
    }
    texts(alloc, segments)
}

/// The decoded texts between the slashes of a path, behind the first. A `%` that begins no escape stays as it is.
fn pieces(alloc: Global, path: &[u8]) -> Result<Vec<Piece<'_>>, Memory>
    ensures { IfOk result (λ v. v.items ≡ pieces_of path.now) }
{
    let mut pieces = Vec::with_capacity(alloc, USUAL_PIECES)?;
    let mut rest = behind_first(path);
    while let Some((piece, after)) = split_at_slash(rest) {
        pieces.push(decoded(alloc, piece)?)?;
        rest = after;
    }
    pieces.push(decoded(alloc, rest)?)?;
    Ok(pieces)
}

fn behind_first(path: &[u8]) -> &[u8]
    ensures { result.now ≡ drop 1 path.now }
{
    match path {
        [_, rest @ ..] => rest,
        [] => path,
    }
}

/// The bytes before the first slash, and those behind it.
#[tactic(auto, using(kapi_http::proofs::Lists::split_found, kapi_http::proofs::Lists::split_not_found, crate::proofs::Plain::slash_joins, crate::proofs::Plain::none_before, crate::proofs::Plain::no_slash_at_all))]
fn split_at_slash(path: &[u8]) -> Option<(&[u8], &[u8])>
    ensures none { IsNone result → slice_split (λ b. b == 47) path.now ≡ path.now ∷ [] }
    ensures split { IfSome result (λ x. slice_split (λ b. b == 47) path.now ≡ x.0.now ∷ slice_split (λ b. b == 47) x.1.now) }
    ensures shorter { IfSome result (λ x. length x.1.now < length path.now) }
    ensures joined { IfSome result (λ x. x.0.now ++ 47 ∷ x.1.now ≡ path.now) }
    ensures slashless { IfSome result (λ x. has_slash_of x.0.now ≡ false) }
    ensures last { IsNone result → has_slash_of path.now ≡ false }
{
    match slash_at(path) {
        Some(at) => {
            let (piece, _) = path.split_at(at);
            let (_, after) = path.split_at(at + 1);
            Some((piece, after))
        }
        None => None,
    }
}

fn slash_at(path: &[u8]) -> Option<usize>
    ensures found { result ≡ position_from (λ b. b == 47) 0 path.now }
    ensures within { IfSome result (λ at. at < length path.now) }
{
    path.iter().position(|byte| *byte == b'/')
}

fn decoded(alloc: Global, piece: &[u8]) -> Result<Piece<'_>, Memory>
    ensures { IfOk result (λ p. p ≡ decoded_of piece.now) }
{
    Ok(Piece {
        bytes: percent_decode(piece).into_cow(alloc)?,
    })
}

/// A last slash opens no segment.
#[tactic(auto, using(crate::proofs::Paths::without_last_empty_append), unfolding(crate::specs::Path::without_last_empty))]
fn without_last_empty<'a, 'p>(segments: &'a [Piece<'p>]) -> &'a [Piece<'p>]
    ensures { result.now ≡ without_last_empty_of segments.now }
{
    let Some((last, front)) = segments.split_last() else {
        return segments;
    };
    if last.as_slice().is_empty() {
        return front;
    }
    segments
}

fn all_name_something(segments: &[Piece<'_>]) -> bool
    ensures { result ≡ list_all names_something_of segments.now }
{
    segments
        .iter()
        .all(|segment| names_something(segment.as_slice()))
}

/// Whether a segment is not empty, no dot segment, and without a slash inside (RFC 3986 section 3.3).
fn names_something(segment: &[u8]) -> bool
    ensures { result ≡ names_something_of segment.now }
{
    !is_empty_or_dots(segment) && !has_slash(segment)
}

fn is_empty_or_dots(segment: &[u8]) -> bool
    ensures { result ≡ (length segment.now == 0 || (bytes_eq segment.now (codes ".") || bytes_eq segment.now (codes ".."))) }
{
    segment.is_empty() || (segment == b".".as_slice() || segment == b"..".as_slice())
}

fn has_slash(segment: &[u8]) -> bool
    ensures { result ≡ has_slash_of segment.now }
{
    segment.iter().any(|byte| *byte == b'/')
}

/// Whether each `%` is followed by two hexadecimal digits (RFC 3986 section 2.1).
#[tactic(auto, unfolding(crate::specs::Path::has_whole_escapes))]
fn has_whole_escapes(path: &[u8]) -> bool
    ensures { result ≡ has_whole_escapes_of path.now }
{
    let mut bytes = path;
    while let [byte, rest @ ..] = bytes {
        if *byte == b'%' && !begins_with_digits(rest) {
            return false;
        }
        bytes = rest;
    }
    true
}

fn begins_with_digits(bytes: &[u8]) -> bool
    ensures { result ≡ begins_with_digits_of bytes.now }
{
    match bytes {
        [high, low, ..] => high.is_ascii_hexdigit() && low.is_ascii_hexdigit(),
        _ => false,
    }
}

/// The segments as texts.
#[tactic(auto, unfolding(crate::specs::Path::texts))]
fn texts<'a>(alloc: Global, segments: &[Piece<'a>]) -> Result<Vec<Segment<'a>>, InfoError>
    ensures { ResultIs fault_of (λ v. v.items) result (texts_of segments.now) }
{
    let mut texts = Vec::with_capacity(alloc, segments.len())?;
    for segment in segments {
        texts.push(text_of(alloc, segment)?)?;
    }
    Ok(texts)
}

/// The segment as a text.
fn text_of<'a>(alloc: Global, piece: &Piece<'a>) -> Result<Segment<'a>, InfoError>
    ensures { ResultIs fault_of (λ s. s) result (ok_or (text_in_of piece.now) bad_escape) }
{
    let text = match &piece.bytes {
        CowSlice::Borrowed(bytes) => CowStr::Borrowed(text_or_fault(bytes)?),
        CowSlice::Owned(bytes) => {
            CowStr::Owned(String::from_str(alloc, text_or_fault(bytes.as_slice())?)?)
        }
    };
    Ok(Segment { text })
}

/// The bytes as a text, which must be UTF-8.
fn text_or_fault(bytes: &[u8]) -> Result<&str, InfoError>
    ensures { ResultIs fault_of (λ s. s.now) result (ok_or (text_in_of bytes.now) bad_escape) }
{
    match text_in(bytes) {
        Some(text) => Ok(text),
        None => Err(InfoError::BadEscape),
    }
}

/// The bytes as a text, if they are UTF-8.
pub fn text_in(bytes: &[u8]) -> Option<&str>
    ensures { option_copied result ≡ text_in_of bytes.now }
{
    match str::from_utf8(bytes) {
        Ok(text) => Some(text),
        Err(_) => None,
    }
}
