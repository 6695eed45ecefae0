//! Files of manifests, made into lines.
ghost use Rattle.std.specs.Prelude.{◌≡◌, Bool, ◌+◌, ◌++◌, IfOk, OnOk, filter, length, map, ◌∷◌, [], List};
ghost use Rattle.kapi_manifests.specs.Files.{Takes, bad_pieces, data_of, sum_of};
ghost use Rattle.kapi_manifests.specs.Dangling.{origin_of};
ghost use Rattle.kapi_manifests.specs.Made.{made};
ghost use Rattle.kapi_manifests.specs.DefaultObjects.{model_of_object, defaults_among, default_namespace_objects, all_default_objects};
ghost use Rattle.kapi_manifests.specs.Written as written;
ghost use Rattle.serde_json.specs.View.{view};
ghost use Rattle.kapi_manifests.specs.Written.{AreOf, IsDangling, IsWritten, Loads, faults_in_all, objects_in_all};
ghost use Rattle.serde_json.specs.Data.{Data};

use crate::dangling::{Dangling, dangling_bindings};
use crate::default_objects::{
    DefaultObject, all_default_objects, default_namespace_objects, defaults_beside,
};
use crate::fault::{Fault, Origin};
use crate::kinds::text_at;
use crate::namespaces::made_namespaces;
use crate::reading::take_file;
use crate::sorted::{Manifest, Options, Sorted};
use crate::words::Words;
use kapi_model::ResourceRow;
use kapi_text::{Memory, Text};
use serde_json::Value;
use std::alloc::Global;
use std::collections::BTreeMap;

/// What files of manifests are to the machine that loads them.
#[derive(Drop)]
pub struct Prepared {
    /// The objects, a JSON text a line: namespaces first, those of the files and then the made ones.
    pub text: Vec<u8>,
    /// Where the object of each line begins.
    pub origins: Vec<Origin>,
    /// How many roles and cluster roles the files have.
    pub roles: usize,
    /// How many of their bindings the files have.
    pub bindings: usize,
    /// The bindings whose role is neither in the files nor beneath them.
    pub dangling: Vec<Dangling>,
    /// The words that the objects name, if they are wanted.
    pub words: Words,
    /// How many objects of a kind are passed over.
    pub skipped: BTreeMap<Text, usize>,
    /// What is wrong, in order. If something is, the lines are those of the other objects.
    pub faults: Vec<Fault>,
}

/// The lines that files are.
pub fn prepare(alloc: Global, options: Options<'_>, files: &[&[u8]]) -> Result<Prepared, Memory>
    ensures loads { IfOk result (λ p. Loads options.entry.kinds.now options.entry.scope options.entry.namespace.now options.entry.defaults (map (λ text. text.now) files.now) p) }
    ensures faults { IfOk result (λ p. length p.faults.items ≡ faults_in_all options.entry.kinds.now options.entry.scope options.entry.namespace.now (map (λ text. text.now) files.now)) }
{
    let mut sorted = Sorted::new(alloc);
    take_files(alloc, &mut sorted, options, files)?;
    write(alloc, options, sorted)
}

/// Takes the objects of all files.
fn take_files(
    alloc: Global,
    sorted: &mut Sorted,
    options: Options<'_>,
    files: &[&[u8]],
) -> Result<(), Memory>
    ensures { OnOk result (Takes options.entry sorted.old sorted.new (objects_in_all (map (λ text. text.now) files.now)) (sum_of bad_pieces (map (λ text. text.now) files.now))) }
{
    let mut number = 0;
    for text in files {
        take_file(alloc, sorted, options, number, text)?;
        number = number.saturating_add(1);
    }
    Ok(())
}

/// Writes the objects as lines.
fn write(alloc: Global, options: Options<'_>, sorted: Sorted) -> Result<Prepared, Memory>
    ensures { IfOk result (λ p. IsWritten options.entry.kinds.now options.entry.defaults sorted p) }
{
    let Sorted {
        namespaces,
        objects,
        skipped,
        faults,
    } = sorted;
    let roles = count_of(objects.as_slice(), "Role", "ClusterRole");
    let bindings = count_of(objects.as_slice(), "RoleBinding", "ClusterRoleBinding");
    let default_objects = all_default_objects(alloc, options.defaults)?;
    let default_objects = default_objects.as_slice();
    let words = words_of(
        alloc,
        options,
        default_objects,
        namespaces.as_slice(),
        objects.as_slice(),
    )?;
    let homes = homes(alloc, namespaces)?;
    let dangling = dangling_beside(alloc, default_objects, objects.as_slice())?;
    let lines = write_lines(
        alloc,
        options.kinds,
        default_objects,
        homes.as_slice(),
        objects.as_slice(),
    )?;
    Ok(Prepared {
        text: lines.text,
        origins: lines.origins,
        roles,
        bindings,
        dangling,
        words,
        skipped,
        faults,
    })
}

/// The words that the objects name, those beneath them and the resources that are served; none if they are not wanted.
fn words_of(
    alloc: Global,
    options: Options<'_>,
    default_objects: &[DefaultObject],
    namespaces: &[Manifest],
    objects: &[Manifest],
) -> Result<Words, Memory> {
    let others = defaults_beside(alloc, default_objects, &[])?;
    let mut words = Words::new(alloc);
    if options.words {
        for row in options.kinds {
            words.add_served(alloc, row)?;
        }
        for manifest in others.iter().chain(namespaces.iter()).chain(objects.iter()) {
            words.add(alloc, &manifest.object)?;
        }
    }
    Ok(words)
}

/// The bindings whose role is neither among the objects nor beneath them.
fn dangling_beside(
    alloc: Global,
    default_objects: &[DefaultObject],
    objects: &[Manifest],
) -> Result<Vec<Dangling>, Memory>
    ensures { (defaults : Bool) → map model_of_object default_objects.now ≡ all_default_objects defaults
        → IfOk result (λ v. IsDangling defaults (map origin_of v.items) objects.now) }
{
    let others = defaults_beside(alloc, default_objects, &[])?;
    dangling_bindings(alloc, others.as_slice(), objects)
}

/// How many objects are of one of two kinds.
fn count_of(objects: &[Manifest], kind: &str, other: &str) -> usize
    ensures { result ≡ length (filter (written.is_either kind.now other.now) (map data_of objects.now)) }
{
    let mut count = 0;
    for manifest in objects {
        if is_either(&manifest.object, kind, other) {
            count += 1;
        }
    }
    count
}

fn is_either(object: &Value, kind: &str, other: &str) -> bool
    ensures { result ≡ written.is_either kind.now other.now (view object.now) }
{
    text_at(object, "kind") == kind || text_at(object, "kind") == other
}

/// The namespaces, behind those that every policy has.
fn homes(alloc: Global, namespaces: Vec<Manifest>) -> Result<Vec<Manifest>, Memory>
    ensures { IfOk result (λ v. map data_of v.items ≡ defaults_among (map data_of namespaces.items) default_namespace_objects ++ map data_of namespaces.items) }
{
    let mut homes = defaults_beside(alloc, &default_namespace_objects(), namespaces.as_slice())?;
    let mut namespaces = namespaces;
    homes.append(&mut namespaces)?;
    Ok(homes)
}

/// The lines of the namespaces, given and made, of the default roles and bindings, and of the objects.
fn write_lines(
    alloc: Global,
    table: &[ResourceRow],
    default_objects: &[DefaultObject],
    homes: &[Manifest],
    objects: &[Manifest],
) -> Result<Lines, Memory>
    ensures { IfOk result (λ l. AreOf l (map data_of homes.now ++ (made table.now homes.now objects.now ++ (defaults_among (map data_of objects.now) (map model_of_object default_objects.now) ++ map data_of objects.now)))) }
{
    let made = made_namespaces(alloc, table, homes, objects)?;
    let beneath = defaults_beside(alloc, default_objects, objects)?;
    let mut lines = Lines::new(alloc);
    lines.push_all(alloc, homes)?;
    lines.push_all(alloc, made.as_slice())?;
    lines.push_all(alloc, beneath.as_slice())?;
    lines.push_all(alloc, objects)?;
    Ok(lines)
}

/// Objects, each in a line of its own, and where each begins.
#[derive(Drop)]
pub struct Lines {
    pub text: Vec<u8>,
    pub origins: Vec<Origin>,
}

impl Lines {
    /// No lines.
    pub fn new(alloc: Global) -> Lines
        ensures text { result.text.items ≡ [] }
        ensures origins { result.origins.items ≡ [] }
    {
        Lines {
            text: Vec::new(alloc),
            origins: Vec::new(alloc),
        }
    }

    /// Adds a line for each object.
    pub fn push_all(&mut self, alloc: Global, manifests: &[Manifest]) -> Result<(), Memory>
        ensures { (ds : List Data) → AreOf self.old ds → OnOk result (AreOf self.new (ds ++ map data_of manifests.now)) }
    {
        for manifest in manifests {
            self.push(alloc, manifest)?;
        }
        Ok(())
    }

    fn push(&mut self, alloc: Global, manifest: &Manifest) -> Result<(), Memory>
        ensures { (ds : List Data) → AreOf self.old ds → OnOk result (AreOf self.new (ds ++ data_of manifest.now ∷ [])) }
    {
        let text = manifest.object.to_string(alloc)?;
        self.text.extend_from_slice(text.as_bytes())?;
        self.text.push(b'\n')?;
        self.origins.push(manifest.origin)?;
        Ok(())
    }
}
