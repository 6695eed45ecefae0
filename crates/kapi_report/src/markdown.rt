//! Tables in Markdown.
ghost use Rattle.std.specs.Prelude.{◌≡◌, ◌==◌, ◌++◌, OnOk};
ghost use Rattle.std.specs.List.{list_any};
ghost use Rattle.kapi_report.specs.Reports as reports;

use kapi_text::{Memory, Sequence};
use std::alloc::Global;

fn has(bytes: &[u8], byte: u8) -> bool
    ensures { result ≡ list_any (λ b. b == byte) bytes.now }
{
    bytes.iter().any(|one| *one == byte)
}

/// Whether the byte begins or ends a cell, HTML, a link or emphasis.
fn is_mark(byte: u8) -> bool
    ensures { result ≡ reports.is_mark byte }
{
    has(b"&*.:<>[]_`|~", byte)
}

fn push_piped(text: &mut Vec<u8>, byte: u8) -> Result<(), Memory>
    ensures { OnOk result (text.new.items ≡ text.old.items ++ reports.piped byte) }
{
    if is_mark(byte) {
        text.push(b'\\')?;
    }
    text.push(byte)?;
    Ok(())
}

fn push_barred(text: &mut Vec<u8>, cell: &[u8]) -> Result<(), Memory>
    ensures { OnOk result (text.new.items ≡ text.old.items ++ reports.barred cell.now) }
{
    text.extend_from_slice(b" ")?;
    for byte in cell {
        push_piped(text, *byte)?;
    }
    text.extend_from_slice(b" |")
}

fn push_bars(text: &mut Vec<u8>, cells: &[Sequence<u8>]) -> Result<(), Memory>
    ensures { OnOk result (text.new.items ≡ text.old.items ++ reports.bars cells.now) }
{
    text.extend_from_slice(b"|")?;
    for cell in cells {
        push_barred(text, cell.as_slice())?;
    }
    text.extend_from_slice(b"\n")
}

/// The lines of rows below their heads.
pub fn push_markdown(
    alloc: Global,
    text: &mut Vec<u8>,
    heads: &[Sequence<u8>],
    rows: &[Sequence<Sequence<u8>>],
) -> Result<(), Memory>
    ensures { OnOk result (text.new.items ≡ text.old.items ++ reports.markdown heads.now rows.now) }
{
    push_bars(text, heads)?;
    text.extend_from_slice(b"|")?;
    text.extend_from_slice("---|".repeat(alloc, heads.len())?.as_bytes())?;
    text.extend_from_slice(b"\n")?;
    for row in rows {
        push_bars(text, row.as_slice())?;
    }
    Ok(())
}
