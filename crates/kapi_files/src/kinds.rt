//! The resource types that are served: those of the programs, and those of files of kinds.
ghost use Rattle.std.specs.Prelude.{◌≡◌, true, IfOk, IfSome};
ghost use Rattle.kapi_core.specs.Table.{fits};

use crate::manifests::{TOLD, tell_fault, tell_more};
use crate::sources::{Source, read_named, texts_of};
use kapi_kinds::{Fault, Kinds, kubernetes_kinds, table_of};
use kapi_model::ResourceRow;
use kapi_text::{Sequence, Text};
use std::fs::Files;
use std::io;

/// The word that names common kinds of Kubernetes in place of a file.
pub const KUBERNETES: &str = "kubernetes";

/// The table of the resource types that are served. None if a file of kinds cannot be read or has a fault, after lines
/// on standard error.
pub fn read_kinds<R: Files + Input + Eprint + AllocGlobal + Clone + Drop>(
    rt: &R,
    names: &[Text],
) -> io::Result<Option<Sequence<ResourceRow>>>
    ensures { IfOk result (λ read. IfSome read (λ t. fits t ≡ true)) }
{
    let mut sources = Vec::new(rt.alloc());
    for name in names {
        if !read_source(rt, name.as_str(), &mut sources)? {
            return Ok(None);
        }
    }
    let texts = texts_of(rt.alloc(), sources.as_slice())?;
    match table_of(rt.alloc(), texts.as_slice())? {
        Kinds::Table(table) => Ok(Some(table)),
        Kinds::Faults(faults) => {
            tell_faults(rt, sources.as_slice(), faults.as_slice())?;
            Ok(None)
        }
    }
}

/// Reads a file or folder of kinds, or takes the set of that name: whether it can be read, after a line on standard
/// error if not.
fn read_source<R: Files + Input + Eprint + AllocGlobal + Clone + Drop>(
    rt: &R,
    name: &str,
    sources: &mut Vec<Source>,
) -> io::Result<bool> {
    if name != KUBERNETES {
        return read_named(rt, name, false, sources);
    }
    let mut bytes = Vec::new(rt.alloc());
    bytes.extend_from_slice(kubernetes_kinds().as_bytes())?;
    sources.push(Source::new(rt.alloc(), name, bytes)?)?;
    Ok(true)
}

fn tell_faults<R: Eprint + AllocGlobal>(
    rt: &R,
    sources: &[Source],
    faults: &[Fault],
) -> io::Result<()> {
    for fault in faults.iter().take(TOLD) {
        tell_fault(rt, sources, fault.origin, &fault.reason)?;
    }
    tell_more(rt, faults.len())
}
