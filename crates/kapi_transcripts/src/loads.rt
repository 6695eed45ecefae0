//! The cases of a transcript, and the files that they name.
ghost use Rattle.std.specs.Prelude.{◌≡◌, ◌++◌, ◌∷◌, [], IfOk, OnOk, map};
ghost use Rattle.kapi_transcripts.specs.Loads as comes;

use crate::case::{Beginning, Case, Loaded};
use crate::draft::cases;
use kapi_lines::numbered_lines;
use kapi_text::{Memory, Sequence, TryCopy};
use std::alloc::Global;

/// The cases of a transcript.
pub fn cases_in(alloc: Global, transcript: &[u8]) -> Result<Vec<Case>, Memory>
    ensures { IfOk result (λ v. v.items ≡ comes.cases_in transcript.now) }
{
    let lines = numbered_lines(alloc, transcript)?;
    let cases = cases(alloc, lines.as_slice())?;
    Ok(cases)
}

/// The names of the files that a transcript's cases begin with.
pub fn loaded_names(alloc: Global, transcript: &[u8]) -> Result<Vec<Sequence<u8>>, Memory>
    ensures { IfOk result (λ v. v.items ≡ comes.loaded_names transcript.now) }
{
    let mut names = Vec::new(alloc);
    for case in cases_in(alloc, transcript)?.as_slice() {
        push_all(alloc, &mut names, case.kinds.as_slice())?;
        push_names(alloc, &mut names, &case.begins)?;
    }
    Ok(names)
}

fn push_names(
    alloc: Global,
    names: &mut Vec<Sequence<u8>>,
    begins: &Beginning,
) -> Result<(), Memory>
    ensures { OnOk result (names.new.items ≡ names.old.items ++ comes.names_of begins.now) }
{
    match begins {
        Beginning::Opening => Ok(()),
        Beginning::Lines(file) => push_name(alloc, names, file),
        Beginning::Manifests(manifests) => push_all(alloc, names, manifests.files.as_slice()),
    }
}

fn push_all(alloc: Global, names: &mut Vec<Sequence<u8>>, files: &[Loaded]) -> Result<(), Memory>
    ensures { OnOk result (names.new.items ≡ names.old.items ++ map (λ f. f.name) files.now) }
{
    for file in files {
        push_name(alloc, names, file)?;
    }
    Ok(())
}

fn push_name(alloc: Global, names: &mut Vec<Sequence<u8>>, file: &Loaded) -> Result<(), Memory>
    ensures { OnOk result (names.new.items ≡ names.old.items ++ file.now.name ∷ []) }
{
    names.push(file.name.copy(alloc)?)?;
    Ok(())
}
