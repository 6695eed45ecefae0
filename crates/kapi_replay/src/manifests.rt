//! A case that begins with manifests.
ghost use Rattle.std.specs.Prelude.{◌≡◌, ◌++◌, ◌==◌, true, IfOk, OnOk, length, map, option_map};
ghost use Rattle.std.specs.List.{find};
ghost use Rattle.kapi_core.specs.Table.{fits};
ghost use Rattle.kapi_loading.specs.Loading.{machine_alone};
ghost use Rattle.kapi_replay.specs.Manifests as manifests;
ghost use Rattle.kapi_replay.specs.Manifests.{FailsAlone, FailsBehind, FailsManifests, FailsTexts, IsFaultAt, IsRead, IsRefused};

use crate::play::{only, play_on};
use kapi_lines::nth;
use kapi_loading::{
    LineReason, StartError, Started, line_reasons, one_line, start_without_objects,
};
use kapi_manifests::{Fault, Options, Origin, Prepared, Selection, prepare};
use kapi_model::ResourceRow;
use kapi_text::{Memory, Sequence};
use kapi_transcripts::{Case, Failure, Loaded, LoadedFile, Manifests, push_number, texts_named};
use std::alloc::{AllocError, Global};
use std::sync::Wait;

/// The first file that is not there, or is a folder without files.
fn first_missing<'a>(loads: &[LoadedFile], files: &'a [Loaded]) -> Option<&'a Loaded>
    ensures { option_map (λ f. f.now) result ≡ manifests.first_missing loads.now files.now }
{
    files
        .iter()
        .find(|file| texts_named(loads, file.name.as_slice()).is_empty())
}

/// The texts of files, one file after the other.
pub fn all_texts<'a>(
    alloc: Global,
    loads: &'a [LoadedFile],
    files: &[Loaded],
) -> Result<Vec<&'a [u8]>, Memory>
    ensures { IfOk result (λ v. map (λ text. text.now) v.items ≡ manifests.all_texts loads.now files.now) }
{
    let mut texts = Vec::new(alloc);
    for file in files {
        push_texts(&mut texts, texts_named(loads, file.name.as_slice()))?;
    }
    Ok(texts)
}

fn push_texts<'a>(texts: &mut Vec<&'a [u8]>, more: &'a [Sequence<u8>]) -> Result<(), Memory>
    ensures { OnOk result (map (λ text. text.now) texts.new.items ≡ map (λ text. text.now) texts.old.items ++ more.now) }
{
    for text in more {
        texts.push(text.as_slice())?;
    }
    Ok(())
}

/// The file that has the text of this number, from 0 over all files, and the number of the text in it, from 1.
fn text_at<'a>(
    loads: &[LoadedFile],
    files: &'a [Loaded],
    number: usize,
) -> Option<(&'a Loaded, usize)>
    ensures { option_map (λ p. (p.0.now, p.1)) result ≡ manifests.text_at loads.now files.now number }
{
    let mut rest = files;
    let mut left = number;
    while let [file, later @ ..] = rest {
        let count = texts_named(loads, file.name.as_slice()).len();
        if left < count {
            return Some((file, left + 1));
        }
        left -= count;
        rest = later;
    }
    None
}

/// Appends the name of a text: the name of its file or folder and, unless it is the only text there, its number.
fn push_text_name(
    text: &mut Vec<u8>,
    name: &[u8],
    count: usize,
    number: usize,
) -> Result<(), Memory>
    ensures { OnOk result (text.new.items ≡ text.old.items ++ manifests.text_name name.now count number) }
{
    text.extend_from_slice(name)?;
    if count == 1 {
        return Ok(());
    }
    push_number(text, b", file ", number)
}

/// Appends how many more faults there are, if there are some.
fn push_more(text: &mut Vec<u8>, more: usize) -> Result<(), Memory>
    ensures { OnOk result (text.new.items ≡ text.old.items ++ manifests.more_text more) }
{
    if more == 0 {
        return Ok(());
    }
    push_number(text, b" (and ", more)?;
    text.extend_from_slice(b" more)")?;
    Ok(())
}

/// `NAME:LINE: REASON`, and how many more faults there are.
fn fault_text(
    name: Vec<u8>,
    line: usize,
    reason: &[u8],
    more: usize,
) -> Result<Sequence<u8>, Memory>
    ensures { IfOk result (λ s. s ≡ manifests.fault_text name.items line reason.now more) }
{
    let mut text = name;
    push_number(&mut text, b":", line)?;
    text.extend_from_slice(b": ")?;
    text.extend_from_slice(reason)?;
    push_more(&mut text, more)?;
    Ok(Sequence::new(text))
}

/// The failure of manifests with a fault at this origin, for this reason, and `more` further faults.
fn fault_at(
    alloc: Global,
    loads: &[LoadedFile],
    files: &[Loaded],
    origin: Origin,
    reason: &[u8],
    more: usize,
) -> Result<Failure, Memory>
    ensures { IfOk result (λ f. f ≡ manifests.fault_at loads.now (manifests.text_at loads.now files.now origin.file) origin.line reason.now more) }
{
    let mut name = Vec::new(alloc);
    match text_at(loads, files, origin.file) {
        Some((file, number)) => {
            let count = texts_named(loads, file.name.as_slice()).len();
            push_text_name(&mut name, file.name.as_slice(), count, number)?;
            let text = fault_text(name, origin.line, reason, more)?;
            Ok(Failure::BadManifests(file.number, text))
        }
        None => {
            let text = fault_text(name, origin.line, reason, more)?;
            Ok(Failure::BadManifests(0, text))
        }
    }
}

/// The one failure of manifests with a fault at this origin, for this reason, and `more` further faults.
pub fn fault_failure(
    alloc: Global,
    loads: &[LoadedFile],
    files: &[Loaded],
    origin: Origin,
    reason: &str,
    more: usize,
) -> Result<Vec<Failure>, Memory>
    ensures { IfOk result (λ v. IsFaultAt loads.now files.now origin more v.items) }
{
    let reason = one_line(alloc, reason)?;
    let failure = fault_at(alloc, loads, files, origin, reason.as_bytes(), more)?;
    only(alloc, failure)
}

/// Where the object of the line of this number begins.
fn origin_at(origins: &[Origin], number: usize) -> Origin
    ensures { result ≡ manifests.origin_at origins.now number }
{
    match nth(origins, number) {
        Some(origin) => *origin,
        None => Origin { file: 0, line: 0 },
    }
}

/// The reason of the first line that is not loaded.
fn first_reason(reasons: &[LineReason]) -> &str {
    match reasons {
        [first, ..] => first.reason.as_str(),
        [] => "it is not loaded",
    }
}

/// The failure of manifests whose line of this number is not loaded.
fn refused(
    alloc: Global,
    table: &Sequence<ResourceRow>,
    loads: &[LoadedFile],
    files: &[Loaded],
    prepared: &Prepared,
    line: usize,
) -> Result<Vec<Failure>, Memory>
    requires { fits table.now ≡ true }
    ensures { IfOk result (λ v. IsRefused loads.now files.now prepared.now line v.items) }
{
    let reasons = line_reasons(alloc, table, prepared.text.as_slice())?;
    let origin = origin_at(prepared.origins.as_slice(), line);
    let reason = first_reason(reasons.as_slice());
    let more = reasons.len().saturating_sub(1);
    fault_failure(alloc, loads, files, origin, reason, more)
}

/// Plays a case on the machine that the lines of manifests make alone.
fn play_alone<R: Wait>(
    alloc: Global,
    rt: &R,
    table: &Sequence<ResourceRow>,
    loads: &[LoadedFile],
    case: &Case,
    files: &[Loaded],
    prepared: &Prepared,
) -> Result<Vec<Failure>, Memory>
    requires { fits table.now ≡ true }
    ensures { IfOk result (λ v. FailsAlone loads.now case.now files.now prepared.now (machine_alone table.now 0 prepared.now.text.items) v.items) }
{
    match start_without_objects(alloc, rt, table, prepared.text.as_slice(), 0, 1) {
        Ok(started) => {
            let Started {
                mut core,
                desk,
                seats: _seats,
            } = started;
            let failures = play_on(alloc, &mut core, case);
            drop(desk.close(rt));
            failures
        }
        Err(StartError::Line(line)) => refused(alloc, table, loads, files, prepared, line),
        Err(StartError::Memory) => Err(AllocError),
    }
}

/// The failure of manifests whose first fault is this one.
fn faulty(
    alloc: Global,
    loads: &[LoadedFile],
    files: &[Loaded],
    fault: &Fault,
    more: usize,
) -> Result<Vec<Failure>, Memory>
    ensures { IfOk result (λ v. IsFaultAt loads.now files.now fault.now.origin more v.items) }
{
    let reason = &fault.reason;
    let reason = format!(in alloc; "{reason}")?;
    fault_failure(alloc, loads, files, fault.origin, reason.as_str(), more)
}

/// Plays a case that begins with manifests, unless there is a fault in them.
fn play_prepared<R: Wait>(
    alloc: Global,
    rt: &R,
    table: &Sequence<ResourceRow>,
    loads: &[LoadedFile],
    case: &Case,
    files: &[Loaded],
    prepared: &Prepared,
) -> Result<Vec<Failure>, Memory>
    requires { fits table.now ≡ true }
    ensures { IfOk result (λ v. FailsBehind table.now loads.now case.now files.now prepared.now prepared.now.faults.items v.items) }
{
    match prepared.faults.as_slice() {
        [] => play_alone(alloc, rt, table, loads, case, files, prepared),
        [fault, more @ ..] => faulty(alloc, loads, files, fault, more.len()),
    }
}

/// Reads the files of manifests as one policy, with the default roles if the case has them.
pub fn read_manifests(
    alloc: Global,
    table: &Sequence<ResourceRow>,
    loads: &[LoadedFile],
    manifests: &Manifests,
) -> Result<Prepared, Memory>
    ensures { IfOk result (λ p. IsRead table.now loads.now manifests.now p) }
{
    let texts = all_texts(alloc, loads, manifests.files.as_slice())?;
    let options = Options {
        scope: Selection::All,
        kinds: table.as_slice(),
        namespace: "",
        defaults: manifests.defaults,
        words: false,
    };
    let prepared = prepare(alloc, options, texts.as_slice())?;
    Ok(prepared)
}

/// Plays a case that begins with manifests, none of whose files is missing.
fn play_texts<R: Wait>(
    alloc: Global,
    rt: &R,
    table: &Sequence<ResourceRow>,
    loads: &[LoadedFile],
    case: &Case,
    manifests: &Manifests,
) -> Result<Vec<Failure>, Memory>
    requires { fits table.now ≡ true }
    ensures { IfOk result (λ v. FailsTexts table.now loads.now case.now manifests.now v.items) }
{
    let prepared = read_manifests(alloc, table, loads, manifests)?;
    play_prepared(
        alloc,
        rt,
        table,
        loads,
        case,
        manifests.files.as_slice(),
        &prepared,
    )
}

/// Plays a case that begins with manifests.
pub fn play_manifests<R: Wait>(
    alloc: Global,
    rt: &R,
    table: &Sequence<ResourceRow>,
    loads: &[LoadedFile],
    case: &Case,
    manifests: &Manifests,
) -> Result<Vec<Failure>, Memory>
    requires { fits table.now ≡ true }
    ensures { IfOk result (λ v. FailsManifests table.now loads.now case.now manifests.now v.items) }
{
    match first_missing(loads, manifests.files.as_slice()) {
        Some(file) => only(alloc, Failure::NoFile(file.number)),
        None => play_texts(alloc, rt, table, loads, case, manifests),
    }
}
