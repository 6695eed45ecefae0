//! A file, cut into pieces: the texts of its objects, and lines that begin none.
ghost use Rattle.std.specs.Prelude.{◌≡◌, ◌≤◌, ◌<◌, ◌+◌, ◌++◌, ◌^◌, IfOk, OnOk};
ghost use Rattle.kapi_manifests.specs.Places.{depth_of};
ghost use Rattle.kapi_manifests.specs.Pieces as pieces;
ghost use Rattle.kapi_manifests.specs.Pieces.{advanced, ended, last, line_ends, spans_of};

use crate::reader_state::{ReaderState, is_piece, next};
use kapi_text::Memory;
use std::alloc::Global;

/// Where a piece begins: the number of its line, from 1, and of its first byte, from 0.
#[derive(Clone, Copy, PartialEq, Eq)]
pub struct Start {
    pub line: usize,
    pub at: usize,
}

/// A piece of a text: where it begins, and the number of the byte behind it.
#[derive(Clone, Copy, PartialEq, Eq)]
pub struct Span {
    pub start: Start,
    pub stop: usize,
}

/// A reader of a text: its place, the number of its line and of its next byte, and where the last piece began.
#[derive(Clone, Copy, PartialEq, Eq)]
pub struct Cursor {
    pub place: ReaderState,
    pub here: Start,
    pub begun: Start,
}

/// A reader at the beginning of a text.
fn at_start() -> Cursor
    ensures { result ≡ pieces.at_start }
{
    let first = Start { line: 1, at: 0 };
    Cursor {
        place: ReaderState::Between,
        here: first,
        begun: first,
    }
}

/// The reader behind a byte.
#[tactic(auto, unfolding(crate::specs::Pieces::advanced))]
fn advance(cursor: Cursor, byte: u8) -> Cursor
    requires depth { depth_of cursor.place ≤ cursor.here.at }
    requires line { cursor.here.line ≤ cursor.here.at + 1 }
    requires at { cursor.here.at < 2 ^ 63 }
    ensures reader { result ≡ advanced cursor byte }
    ensures depth { depth_of result.place ≤ result.here.at }
    ensures line { result.here.line ≤ result.here.at + 1 }
    ensures at { result.here.at ≡ cursor.here.at + 1 }
{
    let place = next(cursor.place, byte);
    Cursor {
        place,
        here: Start {
            line: cursor.here.line + is_line_end(byte),
            at: cursor.here.at + 1,
        },
        begun: if is_piece(place) && !is_piece(cursor.place) {
            cursor.here
        } else {
            cursor.begun
        },
    }
}

/// 1 for the byte that ends a line, else 0.
fn is_line_end(byte: u8) -> usize
    ensures told { result ≡ line_ends byte }
    ensures small { result ≤ 1 }
{
    if byte == b'\n' { 1 } else { 0 }
}

/// Where the pieces of a text stand, in order.
#[tactic(auto, unfolding(crate::specs::Pieces::spans_from))]
pub fn spans(alloc: Global, text: &[u8]) -> Result<Vec<Span>, Memory>
    ensures { IfOk result (λ v. v.items ≡ spans_of text.now) }
{
    let mut spans = Vec::new(alloc);
    let mut cursor = at_start();
    for byte in text {
        let after = advance(cursor, *byte);
        push_ended(&mut spans, cursor, after)?;
        cursor = after;
    }
    push_last(&mut spans, cursor)?;
    Ok(spans)
}

/// Keeps the piece that ends between two places of the reader, if one does.
#[tactic(auto, unfolding(crate::specs::Pieces::ended))]
fn push_ended(spans: &mut Vec<Span>, before: Cursor, after: Cursor) -> Result<(), Memory>
    ensures { OnOk result (spans.new.items ≡ spans.old.items ++ ended before after) }
{
    if is_piece(before.place) && !is_piece(after.place) {
        spans.push(Span {
            start: before.begun,
            stop: after.here.at,
        })?;
    }
    Ok(())
}

/// Keeps the piece that the end of the text ends, if one does.
#[tactic(auto, unfolding(crate::specs::Pieces::last))]
fn push_last(spans: &mut Vec<Span>, cursor: Cursor) -> Result<(), Memory>
    ensures { OnOk result (spans.new.items ≡ spans.old.items ++ last cursor) }
{
    if is_piece(cursor.place) {
        spans.push(Span {
            start: cursor.begun,
            stop: cursor.here.at,
        })?;
    }
    Ok(())
}
