//! Reads policies from files of manifests, and reports what is wrong with them.
ghost use Rattle.std.specs.Prelude.{◌≡◌, true};
ghost use Rattle.kapi_core.specs.Table.{fits};

use crate::sources::{Source, read_named, texts_of};
use crate::stderr::Plain;
use kapi_command_line::Reading;
use kapi_core::program_table;
use kapi_lines::numbered_lines;
use kapi_loading::{LineReason, line_reasons};
use kapi_manifests::{Options, Origin, Prepared, Selection, prepare, text_at};
use kapi_model::ResourceRow;
use kapi_policy::NamespacedName;
use kapi_text::{Memory, Sequence, Text};
use serde_json::Value;
use std::alloc::Global;
use std::collections::BTreeSet;
use std::fmt::Display;
use std::fs::Files;
use std::io;

/// The largest number of faults that are reported one by one.
pub const TOLD: usize = 20;

/// A policy that was read: its files, and the lines that they are.
#[derive(Drop)]
pub struct ReadPolicy {
    sources: Vec<Source>,
    pub prepared: Prepared,
}

/// The policy of a file, of the files of a folder, or of standard input, which is named `-`, and of the files that are
/// read as one with it. None if there is a fault, after a line on standard error for each.
pub fn read_policy<R: Files + Input + Eprint + AllocGlobal + Clone + Drop>(
    rt: &R,
    path: &str,
    reading: &Reading,
) -> io::Result<Option<ReadPolicy>> {
    read_policy_of(rt, program_table(rt.alloc())?.as_slice(), path, reading)
}

/// The same, where the resource types of this table are served.
pub fn read_policy_of<R: Files + Input + Eprint + AllocGlobal + Clone + Drop>(
    rt: &R,
    table: &[ResourceRow],
    path: &str,
    reading: &Reading,
) -> io::Result<Option<ReadPolicy>> {
    let mut sources = Vec::new(rt.alloc());
    if !read_named(rt, path, reading.strict, &mut sources)? {
        return Ok(None);
    }
    read_with(rt, table, sources, reading, Selection::Policy)
}

/// The objects that a server of this table begins with. None if there is a fault, after a line on standard error for each.
pub fn read_served<R: Files + Input + Eprint + AllocGlobal + Clone + Drop>(
    rt: &R,
    table: &[ResourceRow],
    reading: &Reading,
) -> io::Result<Option<ReadPolicy>> {
    read_with(rt, table, Vec::new(rt.alloc()), reading, Selection::All)
}

/// The objects of files already read, and of the further files of a policy. None if there is a fault, after a line on
/// standard error for each.
fn read_with<R: Files + Input + Eprint + AllocGlobal + Clone + Drop>(
    rt: &R,
    table: &[ResourceRow],
    sources: Vec<Source>,
    reading: &Reading,
    scope: Selection,
) -> io::Result<Option<ReadPolicy>> {
    let mut sources = sources;
    for name in reading.with.as_slice() {
        if !read_named(rt, name.as_str(), reading.strict, &mut sources)? {
            return Ok(None);
        }
    }
    let prepared = prepare_sources(rt.alloc(), table, sources.as_slice(), reading, scope)?;
    let policy = ReadPolicy { sources, prepared };
    tell_skipped(rt, &policy.prepared)?;
    if policy.prepared.faults.is_empty() {
        return Ok(Some(policy));
    }
    tell_faults(rt, &policy)?;
    Ok(None)
}

fn prepare_sources(
    alloc: Global,
    table: &[ResourceRow],
    sources: &[Source],
    reading: &Reading,
    scope: Selection,
) -> Result<Prepared, Memory> {
    let words = match scope {
        Selection::Policy => true,
        Selection::All => false,
    };
    let texts = texts_of(alloc, sources)?;
    let options = Options {
        scope,
        kinds: table,
        namespace: reading.namespace.as_str(),
        defaults: reading.defaults,
        words,
    };
    prepare(alloc, options, texts.as_slice())
}

/// Reports how many objects of which kinds are passed over.
fn tell_skipped(rt: &impl Eprint, prepared: &Prepared) -> io::Result<()> {
    if prepared.skipped.len() == 0 {
        return Ok(());
    }
    rt.eprint("skipped:")?;
    let mut is_first = true;
    for (kind, count) in &prepared.skipped {
        let kind = Plain(kind.as_str());
        if is_first {
            eprint!(rt; " {count} {kind}")?;
        } else {
            eprint!(rt; ", {count} {kind}")?;
        }
        is_first = false;
    }
    rt.eprint("\n")
}

fn tell_faults<R: Eprint + AllocGlobal>(rt: &R, policy: &ReadPolicy) -> io::Result<()> {
    let faults = policy.prepared.faults.as_slice();
    for fault in faults.iter().take(TOLD) {
        tell_fault(rt, policy.sources.as_slice(), fault.origin, &fault.reason)?;
    }
    tell_more(rt, faults.len())
}

/// Reports what is wrong at a place of a file.
pub fn tell_fault<R: Eprint + AllocGlobal, T: Display>(
    rt: &R,
    sources: &[Source],
    origin: Origin,
    reason: &T,
) -> io::Result<()> {
    let (name, line) = place_in(sources, origin);
    let (name, reason) = (Plain(name), format!(in rt.alloc(); "{reason}")?);
    let reason = Plain(reason.as_str());
    eprintln!(rt; "{name}:{line}: {reason}")
}

/// The file and the line in which an object was written.
fn place_in(sources: &[Source], origin: Origin) -> (&str, usize) {
    match sources.get(origin.file) {
        Some(source) => source.place(origin.line),
        None => ("", origin.line),
    }
}

/// Reports how many faults there are besides the reported ones.
pub fn tell_more(rt: &impl Eprint, faults: usize) -> io::Result<()> {
    let more = faults.saturating_sub(TOLD);
    if more > 0 {
        eprintln!(rt; "and {more} more")?;
    }
    Ok(())
}

/// Reports the objects of a policy that a machine does not load.
pub fn tell_refused<R: Eprint + AllocGlobal>(rt: &R, policy: &ReadPolicy) -> io::Result<()> {
    tell_unloaded(rt, &program_table(rt.alloc())?, policy)
}

/// Reports the objects of a policy that a machine with this table does not load.
pub fn tell_unloaded<R: Eprint + AllocGlobal>(
    rt: &R,
    table: &Sequence<ResourceRow>,
    policy: &ReadPolicy,
) -> io::Result<()>
    requires { fits table.now ≡ true }
{
    let reasons = line_reasons(rt.alloc(), table, policy.prepared.text.as_slice())?;
    for reason in reasons.as_slice().iter().take(TOLD) {
        tell_reason_of(rt, policy, reason)?;
    }
    tell_more(rt, reasons.len())
}

fn tell_reason_of(rt: &impl Eprint, policy: &ReadPolicy, reason: &LineReason) -> io::Result<()> {
    let origins = policy.prepared.origins.as_slice();
    let Some(origin) = origins.get(reason.number.saturating_sub(1)) else {
        return Ok(());
    };
    let (name, line) = policy.place_of(*origin);
    let (name, reason) = (Plain(name), Plain(reason.reason.as_str()));
    eprintln!(rt; "{name}:{line}: {reason}")
}

impl ReadPolicy {
    /// The file and the line in which an object was written.
    pub fn place_of(&self, origin: Origin) -> (&str, usize) {
        place_in(self.sources.as_slice(), origin)
    }

    /// The service accounts among the objects of the files, which a policy passes over. One that names no namespace is in
    /// the given one.
    pub fn accounts(
        &self,
        alloc: Global,
        namespace: &str,
    ) -> Result<BTreeSet<NamespacedName>, Memory> {
        let reading = Reading {
            with: Sequence::new(Vec::new(alloc)),
            defaults: false,
            namespace: Text::copy_of(alloc, namespace)?,
            strict: false,
        };
        let table = program_table(alloc)?;
        let all = prepare_sources(
            alloc,
            table.as_slice(),
            self.sources.as_slice(),
            &reading,
            Selection::All,
        )?;
        let mut accounts = BTreeSet::new(alloc);
        for line in numbered_lines(alloc, all.text.as_slice())?.iter() {
            if let Ok(object) = Value::from_slice(alloc, line.text) {
                let (kind, namespace, name) = place_of(&object);
                if kind == "ServiceAccount" {
                    let namespace = Text::copy_of(alloc, namespace)?;
                    let name = Text::copy_of(alloc, name)?;
                    drop(accounts.insert(NamespacedName { namespace, name })?);
                }
            }
        }
        Ok(accounts)
    }

    /// The lines of the policy.
    pub fn lines(&self) -> &[u8] {
        self.prepared.text.as_slice()
    }

    /// Whether the files have a role or a binding.
    pub fn has_policy(&self) -> bool {
        self.prepared.roles > 0 || self.prepared.bindings > 0
    }
}

/// The kind and the place of an object.
pub fn place_of<'a>(object: &'a Value) -> (&'a str, &'a str, &'a str) {
    let kind = text_at(object, "kind");
    match object.get("metadata") {
        Some(metadata) => (
            kind,
            text_at(metadata, "namespace"),
            text_at(metadata, "name"),
        ),
        None => (kind, "", ""),
    }
}
