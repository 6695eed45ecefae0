//! Expectations of 403 for a resource that is not served.
ghost use Rattle.std.specs.Prelude.{◌≡◌, ◌++◌, IfOk, OnOk, option_map};
ghost use Rattle.std.specs.List.{flat_map, list_any};
ghost use Rattle.kapi_replay.specs.Kinds.{known_table as table_of};
ghost use Rattle.kapi_replay.specs.Doubts as asks;
ghost use Rattle.kapi_replay.specs.Doubts.{doubts_of as doubts_of_cases, wants_refusal as wants_refusal_of};
ghost use Rattle.kapi_answer.specs.Route.{is_row_of as is_row_of_point};

use crate::kinds::known_table;
use crate::play::number_at;
use kapi_model::ResourceRow;
use kapi_request_info::Attributes;
use kapi_rules::{Point, ResourcePoint};
use kapi_text::{Memory, Sequence, Text};
use kapi_transcripts::{
    Case, Doubt, Expectation, Expected, LoadedFile, ScriptLine, attributes_of, line_at,
};
use std::alloc::Global;

/// Whether the resource type is that of the point and the version.
fn is_row_of(row: &ResourceRow, version: &str, point: &ResourcePoint) -> bool
    ensures { result ≡ is_row_of_point version.now point.now row.now }
{
    row.group.as_str() == point.group.as_str()
        && row.version.as_str() == version
        && row.plural.as_str() == point.resource.as_str()
}

fn is_served(table: &[ResourceRow], version: &str, point: &ResourcePoint) -> bool
    ensures { result ≡ list_any (is_row_of_point version.now point.now) table.now }
{
    table.iter().any(|row| is_row_of(row, version, point))
}

/// The resource that the attributes are about, if it is not served.
fn unserved<'a>(table: &[ResourceRow], attributes: &'a Attributes) -> Option<&'a str>
    ensures { option_map (λ s. s.now) result ≡ asks.unserved_point table.now attributes.now.version attributes.now.point }
{
    match &attributes.point {
        Point::Url(_point) => None,
        Point::Resource(point) => {
            if is_served(table, attributes.version.as_str(), point) {
                None
            } else {
                Some(point.resource.as_str())
            }
        }
    }
}

/// Whether a reply of code 403 is wanted.
fn wants_refusal(wanted: &Expected) -> bool
    ensures { result ≡ wants_refusal_of wanted.now }
{
    match wanted {
        Expected::Reply(code, _text) => code.as_slice() == b"403".as_slice(),
        _ => false,
    }
}

/// Adds a doubt about a line that expects 403, if the resource of its request is not served.
fn push_doubt(
    alloc: Global,
    doubts: &mut Vec<Doubt>,
    table: &[ResourceRow],
    number: usize,
    attributes: Option<&Attributes>,
) -> Result<(), Memory>
    ensures { OnOk result (doubts.new.items ≡ doubts.old.items ++ asks.doubt_about number (asks.unserved table.now (option_map (λ a. a.now) attributes.entry))) }
{
    let Some(attributes) = attributes else {
        return Ok(());
    };
    if let Some(resource) = unserved(table, attributes) {
        let resource = Text::copy_of(alloc, resource)?;
        doubts.push(Doubt { number, resource })?;
    }
    Ok(())
}

/// Adds a doubt about an expectation, if it is 403 for a resource that is not served.
fn check_want(
    alloc: Global,
    doubts: &mut Vec<Doubt>,
    table: &[ResourceRow],
    lines: &[Sequence<u8>],
    script: &[ScriptLine],
    want: &Expectation,
) -> Result<(), Memory>
    ensures { OnOk result (doubts.new.items ≡ doubts.old.items ++ asks.doubt table.now lines.now script.now want.now) }
{
    if !wants_refusal(&want.wanted) {
        return Ok(());
    }
    let line = line_at(lines, number_at(script, want.events));
    let attributes = attributes_of(alloc, line)?;
    push_doubt(alloc, doubts, table, want.number, attributes.as_ref())
}

/// Adds the doubts about a case.
fn check_case(
    alloc: Global,
    doubts: &mut Vec<Doubt>,
    loads: &[LoadedFile],
    lines: &[Sequence<u8>],
    case: &Case,
) -> Result<(), Memory>
    ensures { OnOk result (doubts.new.items ≡ doubts.old.items ++ flat_map (asks.doubt (table_of loads.now case.now) lines.now case.now.script) case.now.wants) }
{
    let table = known_table(alloc, loads, case)?;
    let table = table.as_slice();
    for want in case.wants.as_slice() {
        check_want(alloc, doubts, table, lines, case.script.as_slice(), want)?;
    }
    Ok(())
}

/// The doubts about the cases of a transcript with these lines.
pub fn doubts_of(
    alloc: Global,
    loads: &[LoadedFile],
    lines: &[Sequence<u8>],
    cases: &[Case],
) -> Result<Vec<Doubt>, Memory>
    ensures { IfOk result (λ v. v.items ≡ doubts_of_cases loads.now lines.now cases.now) }
{
    let mut doubts = Vec::new(alloc);
    for case in cases {
        check_case(alloc, &mut doubts, loads, lines, case)?;
    }
    Ok(doubts)
}
