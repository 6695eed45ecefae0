//! Policies of manifests.
ghost use Rattle.std.specs.Prelude.{◌≡◌, IfOk, length, map};
ghost use Rattle.kapi_core.specs.ProgramTable.{program_rows};
ghost use Rattle.kapi_engine.specs.Manifests.{IsOfManifests, faults_of, origin_of as origin_in};
ghost use Rattle.kapi_manifests.specs.Written.{Loads};
ghost use Rattle.kapi_manifests.specs.declared.sorted.Selection.TheVariants as scope;

use crate::loaded_policy::{LoadedPolicy, load};
use kapi_core::program_table;
use kapi_loading::StartError;
use kapi_manifests::{Fault, Options, Origin, Prepared, Selection, prepare};
use kapi_text::Memory;
use std::alloc::Global;

/// Why files of manifests make no loaded policy.
#[derive(Drop)]
pub enum ManifestsFault {
    /// What is wrong with the files, in order, and is never empty.
    Files(Vec<Fault>),
    /// The object that begins there is not loaded, as by a server.
    Object(Origin),
    Memory,
}

impl From<Memory> for ManifestsFault {
    ghost use Rattle.std.specs.Prelude.{◌≡◌};
    ghost use Rattle.kapi_engine.specs.declared.manifests.ManifestsFault.TheVariants.{Memory as NoMemory};

    ghost from_gives = { λ _ e. e ≡ NoMemory };

    fn from(_refused: Memory) -> ManifestsFault {
        ManifestsFault::Memory
    }
}

/// The policy of files of manifests, each with JSON objects and Lists of them one after the other; objects that are no
/// part of a policy are passed over. An object that lives in a namespace and names none is in `namespace`, unless it is
/// empty; with `defaults`, Kubernetes' user-facing roles stand beneath the files.
///
/// # Errors
/// `Files` if a file is no manifests, `Object` at the first object that a server would not create, `Memory` if an
/// allocation fails.
pub fn load_manifests(
    alloc: Global,
    namespace: &str,
    defaults: bool,
    files: &[&[u8]],
) -> Result<LoadedPolicy, ManifestsFault>
    ensures { IsOfManifests namespace.now defaults (map (λ text. text.now) files.now) result }
{
    let prepared = prepare_policy(alloc, namespace, defaults, files)?;
    if !prepared.faults.is_empty() {
        return Err(ManifestsFault::Files(prepared.faults));
    }
    match load(alloc, prepared.text.as_slice()) {
        Ok(loaded) => Ok(loaded),
        Err(StartError::Line(number)) => Err(ManifestsFault::Object(origin_of(&prepared, number))),
        Err(StartError::Memory) => Err(ManifestsFault::Memory),
    }
}

/// The lines of the policy of files.
fn prepare_policy(
    alloc: Global,
    namespace: &str,
    defaults: bool,
    files: &[&[u8]],
) -> Result<Prepared, Memory>
    ensures loads { IfOk result (λ p. Loads program_rows scope.Policy namespace.now defaults (map (λ text. text.now) files.now) p) }
    ensures faults { IfOk result (λ p. length p.faults.items ≡ faults_of namespace.now (map (λ text. text.now) files.now)) }
{
    let table = program_table(alloc)?;
    let options = Options {
        scope: Selection::Policy,
        kinds: table.as_slice(),
        namespace,
        defaults,
        words: false,
    };
    prepare(alloc, options, files)
}

/// Where the object of a line begins; file and line 0 if there is no such line.
fn origin_of(prepared: &Prepared, number: usize) -> Origin
    ensures { result ≡ origin_in prepared.now.origins.items number }
{
    match prepared.origins.get(number.saturating_sub(1)) {
        Some(origin) => *origin,
        None => Origin { file: 0, line: 0 },
    }
}
