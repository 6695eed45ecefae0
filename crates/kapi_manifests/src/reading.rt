//! The objects of a file.
ghost use Rattle.std.specs.Prelude.{◌≡◌, ◌≤◌, ◌+◌, ◌++◌, [], ◌∷◌, IfOk, OnOk, length, map, flat_map, slice_index};
ghost use Rattle.serde_json.specs.View.{view};
ghost use Rattle.kapi_manifests.specs.Files as files;
ghost use Rattle.kapi_manifests.specs.Files.{Takes, bad_pieces, begins_yaml, data_of, faults_found, faults_read, objects_found, objects_of, objects_read, read_piece, readings_of, unmarked};
ghost use Rattle.kapi_manifests.specs.Pieces.{piece_in, pieces};

use crate::cut::{Span, spans};
use crate::fault::{Fault, Origin, Reason};
use crate::list::objects_of;
use crate::sorted::{Manifest, Options, Piece, Sorted};
use kapi_text::Memory;
use serde_json::{Error, Value};
use std::alloc::{AllocError, Global};

/// The number of faults whose column is looked for.
const SHOWN: usize = 20;

/// The objects of a file, and what is wrong with its pieces.
#[derive(Drop)]
pub struct Objects {
    pub objects: Vec<Manifest>,
    pub faults: Vec<Fault>,
}

/// A text without a byte order mark, the number of its file, and whether it begins like YAML.
#[derive(Clone, Copy)]
struct Source<'a> {
    file: usize,
    text: &'a [u8],
    yaml: bool,
}

/// The objects of a file of that number, each as it stands there, and what is wrong with its pieces.
#[tactic(auto, unfolding(crate::specs::Files::readings))]
pub fn read_objects(alloc: Global, file: usize, text: &[u8]) -> Result<Objects, Memory>
    ensures objects { IfOk result (λ o. map data_of o.objects.items ≡ objects_of text.now) }
    ensures faults { IfOk result (λ o. length o.faults.items ≡ bad_pieces text.now) }
{
    let text = without_mark(text);
    let spans = spans_read(alloc, text)?;
    let spans = spans.as_slice();
    let yaml = is_yaml(text, spans);
    let source = Source { file, text, yaml };
    let mut all = Objects {
        objects: Vec::new(alloc),
        faults: Vec::new(alloc),
    };
    for span in spans {
        let found = read_span(alloc, source, *span, all.faults.len() < SHOWN)?;
        keep_found(&mut all, found)?;
    }
    Ok(all)
}

/// Keeps what a piece is.
fn keep_found(all: &mut Objects, found: Piece) -> Result<(), Memory>
    ensures objects { OnOk result (map data_of all.new.objects.items ≡ map data_of all.old.objects.items ++ objects_found found) }
    ensures faults { OnOk result (length all.new.faults.items ≡ length all.old.faults.items + faults_found found) }
{
    match found {
        Piece::Objects(objects) => {
            let mut objects = objects;
            all.objects.append(&mut objects)?;
        }
        Piece::Fault(fault) => all.faults.push(fault)?,
    }
    Ok(())
}

/// Takes the objects of a file.
#[tactic(auto, unfolding(crate::specs::Files::readings))]
pub fn take_file(
    alloc: Global,
    sorted: &mut Sorted,
    options: Options<'_>,
    file: usize,
    text: &[u8],
) -> Result<(), Memory>
    ensures { OnOk result (Takes options.entry sorted.old sorted.new (objects_of text.now) (bad_pieces text.now)) }
{
    let text = without_mark(text);
    let spans = spans_read(alloc, text)?;
    let spans = spans.as_slice();
    let yaml = is_yaml(text, spans);
    let source = Source { file, text, yaml };
    for span in spans {
        take_span(alloc, sorted, options, source, *span)?;
    }
    Ok(())
}

fn take_span(
    alloc: Global,
    sorted: &mut Sorted,
    options: Options<'_>,
    source: Source<'_>,
    span: Span,
) -> Result<(), Memory>
    ensures { OnOk result (Takes options.entry sorted.old sorted.new
        (objects_read (read_piece (piece_in source.entry.text.now span))) (faults_read (read_piece (piece_in source.entry.text.now span)))) }
{
    let found = read_span(alloc, source, span, sorted.faults.len() < SHOWN)?;
    sorted.take_found(alloc, options, found)
}

/// Where the pieces of a text stand that are read: all, or the first of one that begins like YAML.
fn spans_read(alloc: Global, text: &[u8]) -> Result<Vec<Span>, Memory>
    ensures { IfOk result (λ v. map (λ s. read_piece (piece_in text.now s)) v.items ≡ readings_of (pieces text.now)) }
{
    let mut spans = spans(alloc, text)?;
    if is_yaml(text, spans.as_slice()) {
        spans.truncate(1);
        return Ok(spans);
    }
    Ok(spans)
}

/// The text without a byte order mark at its beginning.
#[tactic(auto, unfolding(crate::specs::Files::unmarked))]
fn without_mark(text: &[u8]) -> &[u8]
    ensures { result.now ≡ unmarked text.now }
{
    match text {
        [0xef, 0xbb, 0xbf, rest @ ..] => rest,
        _ => text,
    }
}

/// Where a piece begins; a file that begins like YAML is at fault from its first line on.
fn origin_of(source: Source<'_>, span: Span) -> Origin {
    Origin {
        file: source.file,
        line: if source.yaml { 1 } else { span.start.line },
    }
}

/// The bytes of a piece.
fn text_of<'a>(text: &'a [u8], span: Span) -> &'a [u8]
    ensures { result.now ≡ piece_in text.now span }
{
    let from = span.start.at.min(text.len());
    let later = text.split_at(from).1;
    let length = span.stop.saturating_sub(span.start.at).min(later.len());
    later.split_at(length).0
}

/// Whether the first piece of a text begins as YAML does.
fn is_yaml(text: &[u8], spans: &[Span]) -> bool
    ensures { result ≡ files.is_yaml (map (piece_in text.now) spans.now) }
{
    match spans {
        [span, ..] => is_yaml_byte(first_byte(text_of(text, *span))),
        [] => false,
    }
}

/// The first byte; 0 if there is none.
fn first_byte(text: &[u8]) -> u8
    ensures { result ≡ slice_index text.now 0 }
{
    match text {
        [byte, ..] => *byte,
        [] => 0,
    }
}

/// An ASCII letter, a dash or a percent sign.
fn is_yaml_byte(byte: u8) -> bool
    ensures { result ≡ begins_yaml byte }
{
    (b'A' <= byte && byte <= b'Z')
        || ((b'a' <= byte && byte <= b'z') || (byte == b'-' || byte == b'%'))
}

/// What a piece is; its column is looked for if it is shown.
#[tactic(auto, unfolding(crate::specs::Files::read_piece))]
fn read_span(alloc: Global, source: Source<'_>, span: Span, shown: bool) -> Result<Piece, Memory>
    ensures objects { IfOk result (λ f. objects_found f ≡ objects_read (read_piece (piece_in source.entry.text.now span))) }
    ensures faults { IfOk result (λ f. faults_found f ≡ faults_read (read_piece (piece_in source.entry.text.now span))) }
{
    let origin = origin_of(source, span);
    let text = text_of(source.text, span);
    if first_byte(text) != b'{' {
        let reason = stray_reason(source);
        return Ok(Piece::Fault(Fault { origin, reason }));
    }
    match Value::from_slice(alloc, text) {
        Ok(document) => found_in(alloc, origin, text, document),
        Err(error) => {
            if error.is_memory() {
                return Err(AllocError);
            }
            let before = column_before(source, span, shown);
            let reason = json_reason(origin.line, before, &error);
            Ok(Piece::Fault(Fault { origin, reason }))
        }
    }
}

/// The objects of a document, or the fault that it is.
fn found_in(alloc: Global, origin: Origin, text: &[u8], document: Value) -> Result<Piece, Memory>
    ensures objects { IfOk result (λ f. objects_found f ≡ objects_read (files.document (view document))) }
    ensures faults { IfOk result (λ f. faults_found f ≡ faults_read (files.document (view document))) }
{
    match objects_of(alloc, origin, text, document)? {
        Some(objects) => Ok(Piece::Objects(objects)),
        None => {
            let reason = Reason::Items;
            Ok(Piece::Fault(Fault { origin, reason }))
        }
    }
}

/// Why a piece that begins no object is at fault.
fn stray_reason(source: Source<'_>) -> Reason {
    if source.yaml {
        Reason::Yaml
    } else {
        Reason::Stray
    }
}

/// The number of bytes before a piece in its line; 0 if it is not shown.
fn column_before(source: Source<'_>, span: Span, shown: bool) -> usize {
    if !shown {
        return 0;
    }
    let before = source.text.get(..span.start.at).unwrap_or(b"");
    match before.iter().rposition(|byte| *byte == b'\n') {
        Some(at) => before.len().saturating_sub(at).saturating_sub(1),
        None => before.len(),
    }
}

/// Why the text of an object is no JSON, where so many bytes stand before it in its line.
fn json_reason(line: usize, before: usize, error: &Error) -> Reason {
    if error.is_eof() {
        return Reason::NotClosed;
    }
    let below = error.line().saturating_sub(1);
    if below == 0 {
        return Reason::NotJson(line, before.saturating_add(error.column()));
    }
    Reason::NotJson(line.saturating_add(below), error.column())
}
