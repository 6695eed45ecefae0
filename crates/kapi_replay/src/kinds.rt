//! The resource types that the machine of a case serves.
ghost use Rattle.std.specs.Prelude.{◌≡◌, ◌==◌, true, IfOk, IfSome, is_some, length, option_map};
ghost use Rattle.kapi_core.specs.Table.{fits};
ghost use Rattle.kapi_kinds.specs.Tables.{model_of_faults, model_of_table};
ghost use Rattle.kapi_replay.specs.Kinds as known;

use crate::manifests::all_texts;
use kapi_core::program_table;
use kapi_kinds::{Kinds, table_of};
use kapi_manifests::{Objects, read_objects};
use kapi_model::ResourceRow;
use kapi_text::{Memory, Sequence};
use kapi_transcripts::{Case, Loaded, LoadedFile, texts_named};
use std::alloc::Global;

/// Whether a text has neither an object nor a fault.
fn is_blank(alloc: Global, text: &[u8]) -> Result<bool, Memory>
    ensures { IfOk result (λ b. b ≡ known.is_blank text.now) }
{
    let Objects { objects, faults } = read_objects(alloc, 0, text)?;
    Ok(objects.is_empty() && faults.is_empty())
}

fn are_blank(alloc: Global, texts: &[Sequence<u8>]) -> Result<bool, Memory>
    ensures { IfOk result (λ b. b ≡ known.are_blank texts.now) }
{
    let mut rest = texts;
    while let [text, later @ ..] = rest {
        if !is_blank(alloc, text.as_slice())? {
            return Ok(false);
        }
        rest = later;
    }
    Ok(true)
}

/// The first file or folder that is not there or holds nothing.
pub fn first_blank<'a>(
    alloc: Global,
    loads: &[LoadedFile],
    files: &'a [Loaded],
) -> Result<Option<&'a Loaded>, Memory>
    ensures { IfOk result (λ found. option_map (λ f. f.now) found ≡ known.first_blank loads.now files.now) }
{
    let mut rest = files;
    while let [file, later @ ..] = rest {
        if are_blank(alloc, texts_named(loads, file.name.as_slice()))? {
            return Ok(Some(file));
        }
        rest = later;
    }
    Ok(None)
}

/// The table that the files of kinds of a case make, or what is wrong with them.
pub fn read_kinds(alloc: Global, loads: &[LoadedFile], case: &Case) -> Result<Kinds, Memory>
    ensures table { IfOk result (λ k. model_of_table k ≡ known.table_of loads.now case.now) }
    ensures fits { IfOk result (λ k. IfSome (model_of_table k) (λ t. fits t ≡ true)) }
    ensures faults { IfOk result (λ k. is_some (model_of_table k) ≡ (length (model_of_faults k) == 0)) }
{
    let texts = all_texts(alloc, loads, case.kinds.as_slice())?;
    table_of(alloc, texts.as_slice())
}

/// The table of a case, or that of the programs if its files of kinds make none.
pub fn known_table(
    alloc: Global,
    loads: &[LoadedFile],
    case: &Case,
) -> Result<Sequence<ResourceRow>, Memory>
    ensures table { IfOk result (λ t. t ≡ known.known_table loads.now case.now) }
    ensures fits { IfOk result (λ t. fits t ≡ true) }
{
    match read_kinds(alloc, loads, case)? {
        Kinds::Table(table) => Ok(table),
        Kinds::Faults(_faults) => program_table(alloc),
    }
}
