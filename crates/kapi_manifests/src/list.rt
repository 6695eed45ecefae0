//! The items of a document, and the lines that they begin in.
ghost use Rattle.std.specs.Prelude.{◌≡◌, ◌≤◌, ◌<◌, ◌+◌, ◌^◌, IfOk, codes, is_some, map, option_and_then, option_map, true};
ghost use Rattle.std.specs.List.{list_any};
ghost use Rattle.serde_json.specs.Find.{as_array, get};
ghost use Rattle.serde_json.specs.View.{view};
ghost use Rattle.kapi_manifests.specs.Files as files;
ghost use Rattle.kapi_manifests.specs.Files.{data_of, objects_in};
ghost use Rattle.kapi_manifests.specs.Sorting as sorting;
ghost use Rattle.kapi_manifests.specs.Sorting.{item_of};
ghost use Rattle.kapi_manifests.specs.Places.{depth_of};

use crate::fault::Origin;
use crate::kinds::{has_like_items, item_kind, text_at};
use crate::placing::named;
use crate::reader_state::{ReaderState, next};
use crate::sorted::Manifest;
use kapi_text::Memory;
use serde_json::Value;
use std::alloc::Global;

/// The objects of a document that begins there: its items, their items and those of these, each of its kind and the
/// items of the document from their lines, or the document. None if it is not plain what its items are, or there are more
/// below.
pub fn objects_of(
    alloc: Global,
    origin: Origin,
    text: &[u8],
    document: Value,
) -> Result<Option<Vec<Manifest>>, Memory>
    ensures { IfOk result (λ o. option_map (λ v. map data_of v.items) o ≡ objects_in (view document)) }
{
    let lines = item_lines(alloc, origin.line, text)?;
    let Some(items) = open(alloc, origin, lines.as_slice(), document)? else {
        return Ok(None);
    };
    let Some(inner) = open_all(alloc, items)? else {
        return Ok(None);
    };
    let Some(objects) = open_all(alloc, inner)? else {
        return Ok(None);
    };
    Ok(if some_have_items(objects.as_slice()) {
        None
    } else {
        Some(objects)
    })
}

fn some_have_items(objects: &[Manifest]) -> bool
    ensures { result ≡ list_any files.has_items (map data_of objects.now) }
{
    for manifest in objects {
        if has_items(&manifest.object) {
            return true;
        }
    }
    false
}

fn has_items(object: &Value) -> bool
    ensures { result ≡ files.has_items (view object.now) }
{
    has_like_items(object) || object.get("items").is_some()
}

/// What documents stand for, one behind the other. None if one stands for nothing.
fn open_all(alloc: Global, manifests: Vec<Manifest>) -> Result<Option<Vec<Manifest>>, Memory>
    ensures { IfOk result (λ o. option_map (λ v. map data_of v.items) o ≡ files.all_opened (map data_of manifests.items)) }
{
    let mut all = Vec::new(alloc);
    for manifest in manifests {
        match open(alloc, manifest.origin, &[], manifest.object)? {
            Some(opened) => {
                let mut opened = opened;
                all.append(&mut opened)?;
            }
            None => return Ok(None),
        }
    }
    Ok(Some(all))
}

/// What a document stands for: its items, from these lines, or itself. None if it is not plain what its items are.
fn open(
    alloc: Global,
    origin: Origin,
    lines: &[usize],
    document: Value,
) -> Result<Option<Vec<Manifest>>, Memory>
    ensures { IfOk result (λ o. option_map (λ v. map data_of v.items) o ≡ files.opened (view document)) }
{
    if has_like_items(&document) {
        return Ok(None);
    }
    if document.get("items").is_some() {
        return open_items(alloc, origin, lines, document);
    }
    let mut objects = Vec::new(alloc);
    objects.push(Manifest {
        origin,
        object: document,
    })?;
    Ok(Some(objects))
}

/// The items of a document that has some, each of its kind.
#[tactic(auto, using(crate::proofs::Listed::opened_items))]
fn open_items(
    alloc: Global,
    origin: Origin,
    lines: &[usize],
    list: Value,
) -> Result<Option<Vec<Manifest>>, Memory>
    requires { is_some (get (codes "items") (view list)) ≡ true }
    ensures { IfOk result (λ o. option_map (λ v. map data_of v.items) o ≡ files.opened_by (view list) (get (codes "items") (view list))) }
{
    let kind = item_kind(text_at(&list, "kind"));
    let version = String::from_str(alloc, text_at(&list, "apiVersion"))?;
    match items_of(list) {
        Some(items) => { Ok(Some(items_as(alloc, origin, lines, kind, version.as_str(), items)?)) }
        None => Ok(None),
    }
}

/// Items of that kind and version, from their lines. A line is that of an item with members.
fn items_as(
    alloc: Global,
    origin: Origin,
    lines: &[usize],
    kind: &str,
    version: &str,
    items: Vec<Value>,
) -> Result<Vec<Manifest>, Memory>
    ensures { IfOk result (λ v. map data_of v.items ≡ map (item_of kind.now version.now) (map view items.items)) }
{
    let mut all = Vec::new(alloc);
    let mut line = origin.line;
    let mut lines = lines.iter();
    for item in items {
        if item.is_object() {
            line = lines.next().copied().unwrap_or(line);
        }
        let object = item_as(alloc, kind, version, item)?;
        let file = origin.file;
        let origin = Origin { file, line };
        all.push(Manifest { origin, object })?;
    }
    Ok(all)
}

fn item_as(alloc: Global, kind: &str, version: &str, item: Value) -> Result<Value, Memory>
    ensures { IfOk result (λ v. view v ≡ item_of kind.now version.now (view item)) }
{
    if !kind.is_empty() && is_untyped(&item) {
        return named(alloc, kind, version, item);
    }
    Ok(item)
}

/// Whether a value has members, and says nothing of its kind.
fn is_untyped(item: &Value) -> bool
    ensures { result ≡ sorting.is_untyped (view item.now) }
{
    item.is_object() && text_at(item, "kind").is_empty() && text_at(item, "apiVersion").is_empty()
}

/// The items of a document as they stand. None if they are no array.
fn items_of(list: Value) -> Option<Vec<Value>>
    ensures { option_map (λ v. map view v.items) result ≡ option_map files.listed (option_and_then as_array (get (codes "items") (view list))) }
{
    let mut list = list;
    match list.get_mut("items") {
        Some(items) => array_of(items.take()),
        None => None,
    }
}

fn array_of(value: Value) -> Option<Vec<Value>>
    ensures { option_map (λ v. map view v.items) result ≡ option_map files.listed (as_array (view value)) }
{
    match value {
        Value::Array(items) => Some(items),
        _ => None,
    }
}

/// A reader of the text of a document: its place and the number of its line, how many brackets are open, where the last
/// text among its members begins, and whether the open array is its items.
#[derive(Clone, Copy, PartialEq, Eq)]
struct ListCursor {
    place: ReaderState,
    line: usize,
    brackets: usize,
    name: usize,
    in_items: bool,
}

/// The numbers of the lines in which the items of a document with members begin. The document itself begins in `line`.
fn item_lines(alloc: Global, line: usize, text: &[u8]) -> Result<Vec<usize>, Memory> {
    let mut lines = Vec::new(alloc);
    let mut cursor = ListCursor {
        place: ReaderState::Between,
        line,
        brackets: 0,
        name: 0,
        in_items: false,
    };
    for (at, byte) in text.iter().enumerate() {
        if begins_item(cursor, *byte) {
            lines.push(cursor.line)?;
        }
        cursor = advance(cursor, text, at, *byte);
    }
    Ok(lines)
}

fn begins_item(cursor: ListCursor, byte: u8) -> bool {
    is_member(cursor.place) && cursor.in_items && cursor.brackets == 1 && byte == b'{'
}

/// Whether a place is inside of one brace.
fn is_member(place: ReaderState) -> bool {
    match place {
        ReaderState::Inside(depth) => depth == 1,
        _ => false,
    }
}

fn advance(cursor: ListCursor, text: &[u8], at: usize, byte: u8) -> ListCursor
    requires { depth_of cursor.place < 2 ^ 63 }
    ensures { depth_of result.place ≤ depth_of cursor.place + 1 }
{
    let line_end = if byte == b'\n' { 1 } else { 0 };
    let next = ListCursor {
        place: next(cursor.place, byte),
        line: cursor.line.saturating_add(line_end),
        ..cursor
    };
    if is_member(cursor.place) {
        among_members(next, text, at, byte)
    } else {
        next
    }
}

/// The reader behind a byte that stands among the members of the document.
fn among_members(cursor: ListCursor, text: &[u8], at: usize, byte: u8) -> ListCursor
    ensures { result.place ≡ cursor.place }
{
    let brackets = cursor.brackets;
    match byte {
        b'"' => ListCursor {
            name: at.saturating_add(1),
            ..cursor
        },
        b'[' => ListCursor {
            brackets: brackets.saturating_add(1),
            in_items: if brackets == 0 {
                is_items_at(text, cursor.name)
            } else {
                cursor.in_items
            },
            ..cursor
        },
        b']' => ListCursor {
            brackets: brackets.saturating_sub(1),
            ..cursor
        },
        _ => cursor,
    }
}

fn is_items_at(text: &[u8], name: usize) -> bool {
    match text.get(name..) {
        Some(rest) => rest.starts_with(b"items\""),
        None => false,
    }
}
