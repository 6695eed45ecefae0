//! A case, by what it begins with.
ghost use Rattle.std.specs.Prelude.{◌≡◌, ◌<◌, true, IfOk, length};
ghost use Rattle.kapi_core.specs.Table.{fits};
ghost use Rattle.kapi_replay.specs.Kinds.{table_of};
ghost use Rattle.kapi_replay.specs.Playing as playing;
ghost use Rattle.kapi_replay.specs.Playing.{Fails, FailsFrom, FailsLines, FailsOver, IsBadKinds};

use crate::kinds::{first_blank, read_kinds};
use crate::manifests::{fault_failure, play_manifests};
use crate::play::{only, play_begun, play_loaded};
use kapi_kinds::{Fault, Kinds};
use kapi_model::ResourceRow;
use kapi_text::{Memory, Sequence};
use kapi_transcripts::{
    Beginning, Case, Failure, Loaded, LoadedFile, file_named, only_text, texts_named,
};
use std::alloc::Global;
use std::sync::Wait;

/// Plays a case that begins with a file of objects.
fn play_lines<R: Wait>(
    alloc: Global,
    rt: &R,
    table: &Sequence<ResourceRow>,
    loads: &[LoadedFile],
    case: &Case,
    file: &Loaded,
) -> Result<Vec<Failure>, Memory>
    requires { fits table.now ≡ true }
    ensures { IfOk result (λ v. FailsLines table.now loads.now case.now file.now v.items) }
{
    match only_text(texts_named(loads, file.name.as_slice())) {
        Some(objects) => play_loaded(alloc, rt, table, case, file, objects),
        None => only(alloc, Failure::NoFile(file.number)),
    }
}

/// Plays a case over a table.
fn play_over<R: Wait>(
    alloc: Global,
    rt: &R,
    table: &Sequence<ResourceRow>,
    loads: &[LoadedFile],
    case: &Case,
) -> Result<Vec<Failure>, Memory>
    requires { fits table.now ≡ true }
    ensures { IfOk result (λ v. FailsFrom table.now loads.now case.now case.now.begins v.items) }
{
    match &case.begins {
        Beginning::Opening => play_begun(alloc, table, case),
        Beginning::Lines(file) => play_lines(alloc, rt, table, loads, case, file),
        Beginning::Manifests(manifests) => {
            play_manifests(alloc, rt, table, loads, case, manifests)
        }
    }
}

/// The failure of files of kinds with these faults.
fn bad_kinds(
    alloc: Global,
    loads: &[LoadedFile],
    files: &[Loaded],
    faults: &[Fault],
) -> Result<Vec<Failure>, Memory>
    requires { 0 < length faults.now }
    ensures { IfOk result (λ v. IsBadKinds loads.now files.now v.items) }
{
    let fault = &faults[0];
    let reason = &fault.reason;
    let reason = format!(in alloc; "{reason}")?;
    let more = faults.len() - 1;
    fault_failure(alloc, loads, files, fault.origin, reason.as_str(), more)
}

/// Plays a case whose files of kinds are there.
fn play_kinds<R: Wait>(
    alloc: Global,
    rt: &R,
    loads: &[LoadedFile],
    case: &Case,
) -> Result<Vec<Failure>, Memory>
    ensures { IfOk result (λ v. FailsOver loads.now case.now (table_of loads.now case.now) v.items) }
{
    match read_kinds(alloc, loads, case)? {
        Kinds::Table(table) => play_over(alloc, rt, &table, loads, case),
        Kinds::Faults(faults) => {
            bad_kinds(alloc, loads, case.kinds.as_slice(), faults.as_slice())
        }
    }
}

/// The failure of a file or folder of kinds that holds none, or is not there.
fn no_kind(loads: &[LoadedFile], file: &Loaded) -> Failure
    ensures { result ≡ playing.no_kind loads.now file.now }
{
    match file_named(loads, file.name.as_slice()) {
        Some(_found) => Failure::NoKind(file.number),
        None => Failure::NoFile(file.number),
    }
}

/// The failures of a case. `loads` are what the case may load.
pub fn play_case<R: Wait>(
    alloc: Global,
    rt: &R,
    loads: &[LoadedFile],
    case: &Case,
) -> Result<Vec<Failure>, Memory>
    ensures { IfOk result (λ v. Fails loads.now case.now v.items) }
{
    match first_blank(alloc, loads, case.kinds.as_slice())? {
        Some(file) => only(alloc, no_kind(loads, file)),
        None => play_kinds(alloc, rt, loads, case),
    }
}
