//! The objects of files, sorted by what a machine that loads them needs.
ghost use Rattle.std.specs.Prelude.{◌≡◌, ◌∷◌, ◌++◌, ◌+◌, [], OnOk, IfOk, length, map};
ghost use Rattle.serde_json.specs.View.{view};
ghost use Rattle.kapi_manifests.specs.Sorting as sorting;
ghost use Rattle.kapi_manifests.specs.Files.{Takes, data_of, faults_found, objects_found};

use crate::fault::{Fault, Origin, Reason};
use crate::kinds::{is_namespace, is_policy, lives_in_namespace, metadata_text, text_at};
use crate::placing::placed;
use kapi_model::ResourceRow;
use kapi_text::{Memory, Text};
use serde_json::Value;
use std::alloc::Global;
use std::collections::BTreeMap;

/// Which objects are loaded.
#[derive(Clone, Copy, PartialEq, Eq)]
pub enum Selection {
    /// Namespaces, and what says something about policy; the others are counted.
    Policy,
    /// All objects.
    All,
}

/// How files are read.
#[derive(Clone, Copy)]
pub struct Options<'a> {
    pub scope: Selection,
    /// The resource types that are served, by which it is known what lives in a namespace.
    pub kinds: &'a [ResourceRow],
    /// The namespace of objects that name none and live in one; empty if none is given.
    pub namespace: &'a str,
    /// Whether Kubernetes' user-facing roles stand beneath the files.
    pub defaults: bool,
    /// Whether the words that the objects name are wanted.
    pub words: bool,
}

/// An object, and where it begins.
#[derive(Drop)]
pub struct Manifest {
    pub origin: Origin,
    pub object: Value,
}

/// What a piece of a file is: its objects, or a fault.
#[derive(Drop)]
pub enum Piece {
    Objects(Vec<Manifest>),
    Fault(Fault),
}

/// The objects of files.
#[derive(Drop)]
pub struct Sorted {
    pub namespaces: Vec<Manifest>,
    /// The objects that are loaded and are no namespaces.
    pub objects: Vec<Manifest>,
    /// How many objects of a kind are not loaded.
    pub skipped: BTreeMap<Text, usize>,
    pub faults: Vec<Fault>,
}

/// What an object is to the machine that loads the files.
#[derive(Clone, Copy, PartialEq, Eq)]
pub enum Sort {
    /// It has no kind.
    Nameless,
    /// It is a namespace.
    Namespace,
    /// It is not loaded.
    Skipped,
    /// It names no namespace, and none is given for it.
    Homeless,
    /// It names no namespace, and one is given for it.
    Placed,
    /// It is loaded as it is.
    Loaded,
}

/// What an object is.
#[tactic(auto, unfolding(crate::specs::Sorting::sort_of))]
pub fn sort_of(options: Options<'_>, object: &Value) -> Sort
    ensures { result ≡ sorting.sort_of options.entry.kinds.now options.entry.scope options.entry.namespace.now (view object.now) }
{
    if text_at(object, "kind").is_empty() || text_at(object, "apiVersion").is_empty() {
        return Sort::Nameless;
    }
    if is_namespace(object) {
        return Sort::Namespace;
    }
    sort_of_object(options, object)
}

/// What an object is that is no namespace.
fn sort_of_object(options: Options<'_>, object: &Value) -> Sort
    ensures { result ≡ sorting.sort_of_object options.entry.kinds.now options.entry.scope options.entry.namespace.now (view object.now) }
{
    if is_for_policy(options.scope) && !is_policy(object) {
        return Sort::Skipped;
    }
    if is_homeless(options.kinds, object) {
        return sort_without_namespace(options.namespace);
    }
    Sort::Loaded
}

/// Whether an object lives in a namespace and names none.
fn is_homeless(table: &[ResourceRow], object: &Value) -> bool
    ensures { result ≡ sorting.is_homeless table.now (view object.now) }
{
    lives_in_namespace(table, object) && metadata_text(object, "namespace").is_empty()
}

fn is_for_policy(scope: Selection) -> bool
    ensures { result ≡ sorting.is_for_policy scope }
{
    match scope {
        Selection::Policy => true,
        Selection::All => false,
    }
}

fn sort_without_namespace(namespace: &str) -> Sort
    ensures { result ≡ sorting.sort_without_namespace namespace.now }
{
    if namespace.is_empty() {
        Sort::Homeless
    } else {
        Sort::Placed
    }
}

impl Sorted {
    /// No objects.
    pub fn new(alloc: Global) -> Sorted
        ensures namespaces { result.namespaces.items ≡ [] }
        ensures objects { result.objects.items ≡ [] }
        ensures faults { result.faults.items ≡ [] }
    {
        Sorted {
            namespaces: Vec::new(alloc),
            objects: Vec::new(alloc),
            skipped: BTreeMap::new(alloc),
            faults: Vec::new(alloc),
        }
    }

    /// Takes what a piece of a file is.
    pub fn take_found(
        &mut self,
        alloc: Global,
        options: Options<'_>,
        found: Piece,
    ) -> Result<(), Memory>
        ensures { OnOk result (Takes options.entry self.old self.new (objects_found found) (faults_found found)) }
    {
        match found {
            Piece::Objects(objects) => self.take_all(alloc, options, objects),
            Piece::Fault(fault) => self.refuse(fault.origin, fault.reason),
        }
    }

    fn take_all(
        &mut self,
        alloc: Global,
        options: Options<'_>,
        objects: Vec<Manifest>,
    ) -> Result<(), Memory>
        ensures { OnOk result (Takes options.entry self.old self.new (map data_of objects.items) 0) }
    {
        for manifest in objects {
            self.take(alloc, options, manifest.origin, manifest.object)?;
        }
        Ok(())
    }

    /// Takes an object.
    fn take(
        &mut self,
        alloc: Global,
        options: Options<'_>,
        origin: Origin,
        object: Value,
    ) -> Result<(), Memory>
        ensures { OnOk result (Takes options.entry self.old self.new (view object ∷ []) 0) }
    {
        match sort_of(options, &object) {
            Sort::Nameless => self.refuse(origin, Reason::NoKind),
            Sort::Namespace => keep(&mut self.namespaces, origin, object),
            Sort::Skipped => count(alloc, &mut self.skipped, text_at(&object, "kind")),
            Sort::Homeless => self.refuse(origin, homeless(alloc, &object)?),
            Sort::Placed => {
                let object = placed(alloc, options.namespace, object)?;
                keep(&mut self.objects, origin, object)
            }
            Sort::Loaded => keep(&mut self.objects, origin, object),
        }
    }

    /// Keeps a fault.
    fn refuse(&mut self, origin: Origin, reason: Reason) -> Result<(), Memory>
        ensures namespaces { self.new.namespaces ≡ self.old.namespaces }
        ensures objects { self.new.objects ≡ self.old.objects }
        ensures faults { OnOk result (length self.new.faults.items ≡ length self.old.faults.items + 1) }
    {
        self.faults.push(Fault { origin, reason })?;
        Ok(())
    }
}

fn keep(manifests: &mut Vec<Manifest>, origin: Origin, object: Value) -> Result<(), Memory>
    ensures { OnOk result (map data_of manifests.new.items ≡ map data_of manifests.old.items ++ view object ∷ []) }
{
    manifests.push(Manifest { origin, object })?;
    Ok(())
}

/// Counts one object more of a kind.
fn count(alloc: Global, counts: &mut BTreeMap<Text, usize>, kind: &str) -> Result<(), Memory> {
    let kind = Text::copy_of(alloc, kind)?;
    let before = match counts.get(&kind) {
        Some(count) => *count,
        None => 0,
    };
    drop(counts.insert(kind, before.saturating_add(1))?);
    Ok(())
}

fn homeless(alloc: Global, object: &Value) -> Result<Reason, Memory> {
    let kind = Text::copy_of(alloc, text_at(object, "kind"))?;
    let name = Text::copy_of(alloc, metadata_text(object, "name"))?;
    Ok(Reason::NoNamespace(kind, name))
}
