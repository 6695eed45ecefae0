//! Columns as wide as their longest cells, up to a bound.
ghost use Rattle.std.specs.Prelude.{◌≡◌, ◌++◌, IfOk, OnOk, replicate};
ghost use Rattle.kapi_report.specs.Reports as reports;

use kapi_text::{Memory, Sequence};
use std::alloc::Global;

/// The largest width of a column: a longer cell stands over its edge, so that one name does not make every line long.
const WIDEST: usize = 256;

fn len_at(cells: &[Sequence<u8>], column: usize) -> usize
    ensures { result ≡ reports.len_at column cells.now }
{
    match cells.get(column) {
        Some(cell) => cell.as_slice().len().min(WIDEST),
        None => 0,
    }
}

fn width(heads: &[Sequence<u8>], rows: &[Sequence<Sequence<u8>>], column: usize) -> usize
    ensures { result ≡ reports.width heads.now rows.now column }
{
    let mut width = len_at(heads, column);
    for row in rows {
        width = width.max(len_at(row.as_slice(), column));
    }
    width
}

/// The widths of the columns but the last.
fn widths(
    alloc: Global,
    heads: &[Sequence<u8>],
    rows: &[Sequence<Sequence<u8>>],
) -> Result<Vec<usize>, Memory>
    ensures { IfOk result (λ v. v.items ≡ reports.widths heads.now rows.now) }
{
    let mut widths = Vec::new(alloc);
    for column in 0..heads.len().saturating_sub(1) {
        widths.push(width(heads, rows, column))?;
    }
    Ok(widths)
}

fn push_spaces(text: &mut Vec<u8>, count: usize) -> Result<(), Memory>
    ensures { OnOk result (text.new.items ≡ text.old.items ++ replicate count 32) }
{
    for _ in 0..count {
        text.push(b' ')?;
    }
    Ok(())
}

fn push_padded(
    text: &mut Vec<u8>,
    widths: &[usize],
    column: usize,
    cell: &[u8],
) -> Result<(), Memory>
    ensures { OnOk result (text.new.items ≡ text.old.items ++ reports.padded widths.now (column, cell.now)) }
{
    text.extend_from_slice(cell)?;
    match widths.get(column) {
        Some(width) => {
            push_spaces(text, width.saturating_sub(cell.len()))?;
            text.extend_from_slice(b"  ")
        }
        None => Ok(()),
    }
}

fn push_line(text: &mut Vec<u8>, widths: &[usize], cells: &[Sequence<u8>]) -> Result<(), Memory>
    ensures { OnOk result (text.new.items ≡ text.old.items ++ reports.line widths.now cells.now) }
{
    for (column, cell) in cells.iter().enumerate() {
        push_padded(text, widths, column, cell.as_slice())?;
    }
    text.extend_from_slice(b"\n")
}

/// The lines of rows below their heads, their cells below one another.
#[tactic(auto, unfolding(crate::specs::Reports::columns))]
pub fn push_columns(
    alloc: Global,
    text: &mut Vec<u8>,
    heads: &[Sequence<u8>],
    rows: &[Sequence<Sequence<u8>>],
) -> Result<(), Memory>
    ensures { OnOk result (text.new.items ≡ text.old.items ++ reports.columns heads.now rows.now) }
{
    let widths = widths(alloc, heads, rows)?;
    push_line(text, widths.as_slice(), heads)?;
    for row in rows {
        push_line(text, widths.as_slice(), row.as_slice())?;
    }
    Ok(())
}
