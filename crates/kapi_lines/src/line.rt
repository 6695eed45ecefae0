//! The lines of a file: each ends at LF, which the last may lack.
ghost use Rattle.std.specs.Prelude.{◌≡◌, ◌<◌, ◌++◌, ◌∷◌, [], None, IfOk, IfSome, OnOk, length, map};
ghost use Rattle.kapi_lines.specs.Lines as lined;
ghost use Rattle.kapi_lines.specs.Lines.{line_of, lines_of, numbered, parts_of};

use crate::items::copy_of;
use kapi_text::{Memory, Sequence};
use std::alloc::Global;

/// A line that is neither empty nor a comment, and its number among all lines, from 1.
#[derive(Clone, Copy)]
pub struct Line<'a> {
    pub number: usize,
    pub text: &'a [u8],
}

/// The lines of a file that are neither empty nor comments.
pub fn numbered_lines(alloc: Global, text: &[u8]) -> Result<Vec<Line<'_>>, Memory>
    ensures { IfOk result (λ v. map line_of v.items ≡ lines_of text.now) }
{
    let mut lines = Vec::new(alloc);
    let mut number = 1;
    let mut rest = text;
    while let Some((line, later)) = split_line(rest) {
        push_line(&mut lines, number, line)?;
        number += 1;
        rest = later;
    }
    push_line(&mut lines, number, rest)?;
    Ok(lines)
}

/// All lines of a text.
pub fn split_lines(alloc: Global, text: &[u8]) -> Result<Vec<Sequence<u8>>, Memory>
    ensures { IfOk result (λ v. v.items ≡ parts_of text.now) }
{
    let mut lines = Vec::new(alloc);
    let mut rest = text;
    while let Some((line, later)) = split_line(rest) {
        lines.push(copy_of(alloc, line)?)?;
        rest = later;
    }
    lines.push(copy_of(alloc, rest)?)?;
    Ok(lines)
}

/// The first line, and the text behind its end; none where there is no end.
#[tactic(auto, using(crate::proofs::Parts::first_line))]
fn split_line(text: &[u8]) -> Option<(&[u8], &[u8])>
    ensures some { IfSome result (λ r. (parts_of text.now ≡ r.0.now ∷ parts_of r.1.now) × (length r.1.now < length text.now)) }
    ensures none { result ≡ None → parts_of text.now ≡ text.now ∷ [] }
{
    for (end, byte) in text.iter().enumerate() {
        if *byte == b'\n' {
            return Some((text.split_at(end).0, text.split_at(end + 1).1));
        }
    }
    None
}

/// Keeps a line, unless it is skipped.
fn push_line<'a>(lines: &mut Vec<Line<'a>>, number: usize, text: &'a [u8]) -> Result<(), Memory>
    ensures { OnOk result (map line_of lines.new.items ≡ map line_of lines.old.items ++ numbered number text.now) }
{
    if is_skipped(text) {
        return Ok(());
    }
    lines.push(Line { number, text })?;
    Ok(())
}

/// Whether a line is empty or a comment, which begins with `#`.
fn is_skipped(line: &[u8]) -> bool
    ensures { result ≡ lined.is_skipped line.now }
{
    line.is_empty() || line[0] == b'#'
}
