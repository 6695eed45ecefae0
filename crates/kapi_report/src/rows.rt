//! Rows in each form.
ghost use Rattle.std.specs.Prelude.{◌≡◌, ◌++◌, IfOk, OnOk, map};
ghost use Rattle.std.specs.List.{flat_map};
ghost use Rattle.kapi_report.specs.Reports as reports;
ghost use Rattle.kapi_report.specs.Reports.{Told, told_words};

use crate::columns::push_columns;
use crate::markdown::push_markdown;
use kapi_lines::{Form, copy_of, write_escaped};
use kapi_text::{Memory, Sequence};
use std::alloc::{AllocError, Global};

/// What a report has a row for.
pub trait Row {
    /// Its cells and its JSON object.
    ghost told: { Self → Told };

    /// The cells, as they are.
    fn cells(&self, alloc: Global) -> Result<Sequence<Sequence<u8>>, Memory>
        ensures { IfOk result (λ s. s ≡ (told self.now).cells) };

    /// The text of the JSON object.
    fn object(&self, alloc: Global) -> Result<Vec<u8>, Memory>
        ensures { IfOk result (λ v. v.items ≡ (told self.now).object) };
}

/// A row of words that are known, and its JSON object.
#[derive(Clone, Copy)]
pub struct Words<'a> {
    pub cells: &'a [&'a str],
    pub object: &'a str,
}

impl Row for Words<'_> {
    ghost use Rattle.std.specs.Prelude.{map};

    ghost told = { λ w. record { cells = map (λ s. s.now) w.cells.now; object = w.object.now } };

    fn cells(&self, alloc: Global) -> Result<Sequence<Sequence<u8>>, Memory> {
        copies(alloc, self.cells)
    }

    fn object(&self, alloc: Global) -> Result<Vec<u8>, Memory> {
        Vec::from_slice(alloc, self.object.as_bytes())
    }
}

fn copies(alloc: Global, words: &[&str]) -> Result<Sequence<Sequence<u8>>, Memory>
    ensures { IfOk result (λ s. s ≡ map (λ s. s.now) words.now) }
{
    let mut cells = Vec::new(alloc);
    for word in words {
        cells.push(copy_of(alloc, word.as_bytes())?)?;
    }
    Ok(Sequence::new(cells))
}

// ---- cells in printable ASCII

fn push_printable_byte(text: &mut Vec<u8>, byte: u8) -> Result<(), Memory>
    ensures { OnOk result (text.new.items ≡ text.old.items ++ reports.printable_byte byte) }
{
    if byte == b'#' {
        return text.extend_from_slice(b"\\x23");
    }
    match write_escaped(text, &[byte]) {
        Ok(()) => Ok(()),
        Err(_refused) => Err(AllocError),
    }
}

fn push_printable(text: &mut Vec<u8>, bytes: &[u8]) -> Result<(), Memory>
    ensures { OnOk result (text.new.items ≡ text.old.items ++ flat_map reports.printable_byte bytes.now) }
{
    for byte in bytes {
        push_printable_byte(text, *byte)?;
    }
    Ok(())
}

/// The bytes in printable ASCII. No log of a CI system takes them for a command.
#[tactic(auto, unfolding(crate::specs::Reports::printable))]
pub fn escape(alloc: Global, bytes: &[u8]) -> Result<Sequence<u8>, Memory>
    ensures { IfOk result (λ s. s ≡ reports.printable bytes.now) }
{
    let mut shown = Vec::new(alloc);
    match bytes {
        [b' ', rest @ ..] => {
            shown.extend_from_slice(b"\\x20")?;
            push_printable(&mut shown, rest)?;
        }
        [b':', rest @ ..] => {
            shown.extend_from_slice(b"\\x3a")?;
            push_printable(&mut shown, rest)?;
        }
        _ => push_printable(&mut shown, bytes)?,
    }
    Ok(Sequence::new(shown))
}

fn shown(alloc: Global, cells: &[Sequence<u8>]) -> Result<Sequence<Sequence<u8>>, Memory>
    ensures { IfOk result (λ s. s ≡ reports.shown cells.now) }
{
    let mut list = Vec::new(alloc);
    for cell in cells {
        list.push(escape(alloc, cell.as_slice())?)?;
    }
    Ok(Sequence::new(list))
}

fn push_shown<R: Row>(
    alloc: Global,
    list: &mut Vec<Sequence<Sequence<u8>>>,
    rows: &[R],
) -> Result<(), Memory>
    ensures { OnOk result (list.new.items ≡ list.old.items ++ map (λ r. reports.shown r.cells) (map R.told rows.now)) }
{
    for row in rows {
        list.push(shown(alloc, row.cells(alloc)?.as_slice())?)?;
    }
    Ok(())
}

// ---- by the form

fn push_objects<R: Row>(alloc: Global, text: &mut Vec<u8>, rows: &[R]) -> Result<(), Memory>
    ensures { OnOk result (text.new.items ≡ text.old.items ++ flat_map reports.object_line (map R.told rows.now)) }
{
    for row in rows {
        text.extend_from_slice(row.object(alloc)?.as_slice())?;
        text.extend_from_slice(b"\n")?;
    }
    Ok(())
}

fn push_table<R: Row>(
    alloc: Global,
    form: Form,
    text: &mut Vec<u8>,
    heads: &[&str],
    first: &[Words<'_>],
    rows: &[R],
) -> Result<(), Memory>
    ensures { OnOk result (text.new.items ≡ text.old.items ++ reports.table form (reports.shown (map (λ s. s.now) heads.now))
        (map (λ r. reports.shown r.cells) (map told_words first.now ++ map R.told rows.now))) }
{
    let heads = shown(alloc, copies(alloc, heads)?.as_slice())?;
    let mut list = Vec::new(alloc);
    push_shown(alloc, &mut list, first)?;
    push_shown(alloc, &mut list, rows)?;
    match form {
        Form::Markdown => push_markdown(alloc, text, heads.as_slice(), list.as_slice()),
        _ => push_columns(alloc, text, heads.as_slice(), list.as_slice()),
    }
}

/// The rows behind those that are known, below their heads, or some words if there are none; as JSON an object a line.
#[tactic(auto, unfolding(crate::specs::Reports::report))]
pub fn report<R: Row>(
    alloc: Global,
    form: Form,
    heads: &[&str],
    none: &str,
    first: &[Words<'_>],
    rows: &[R],
) -> Result<Vec<u8>, Memory>
    ensures { IfOk result (λ v. v.items ≡ reports.report form (map (λ s. s.now) heads.now) none.now (map told_words first.now ++ map R.told rows.now)) }
{
    let mut text = Vec::new(alloc);
    if form == Form::Json {
        push_objects(alloc, &mut text, first)?;
        push_objects(alloc, &mut text, rows)?;
    } else if first.is_empty() && rows.is_empty() {
        text.extend_from_slice(none.as_bytes())?;
    } else {
        push_table(alloc, form, &mut text, heads, first, rows)?;
    }
    Ok(text)
}
