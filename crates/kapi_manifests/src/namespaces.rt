//! The namespaces that objects name and no file has.
ghost use Rattle.std.specs.Prelude.{◌≡◌, ◌++◌, [], IfOk, OnOk, codes, map};
ghost use Rattle.serde_json.specs.View.{view};
ghost use Rattle.kapi_manifests.specs.Files.{data_of};
ghost use Rattle.kapi_manifests.specs.Made as made;
ghost use Rattle.kapi_manifests.specs.Made.{known, made_if, needed_from, with_need, with_name};

use crate::fault::Origin;
use crate::kinds::{lives_in_namespace, metadata_text};
use crate::placing::namespace_object;
use crate::sorted::Manifest;
use kapi_model::ResourceRow;
use kapi_text::{Memory, Text};
use serde_json::Value;
use std::alloc::Global;
use std::collections::BTreeMap;

/// The namespaces in which objects live by a table of resource types, but the given ones, in the order of their names. Each begins where the first
/// object in it begins.
pub fn made_namespaces(
    alloc: Global,
    table: &[ResourceRow],
    namespaces: &[Manifest],
    objects: &[Manifest],
) -> Result<Vec<Manifest>, Memory>
    ensures { IfOk result (λ v. map data_of v.items ≡ made.made table.now namespaces.now objects.now) }
{
    let known = known_names(alloc, namespaces)?;
    let needed = needed_names(alloc, table, objects)?;
    let mut made = Vec::new(alloc);
    for (name, origin) in &needed {
        push_unknown(alloc, &mut made, &known, name, *origin)?;
    }
    Ok(made)
}

/// Makes the namespace of a name, unless it is known.
fn push_unknown(
    alloc: Global,
    found: &mut Vec<Manifest>,
    known: &BTreeMap<Text, Origin>,
    name: &Text,
    origin: Origin,
) -> Result<(), Memory>
    ensures { OnOk result (map data_of found.new.items ≡ map data_of found.old.items ++ made_if known.now.entries name.now) }
{
    if known.contains_key(name) {
        return Ok(());
    }
    let object = namespace_object(alloc, name.as_str())?;
    found.push(Manifest { origin, object })?;
    Ok(())
}

/// The names of namespaces.
#[tactic(auto, unfolding(crate::specs::Made::with_names))]
fn known_names(alloc: Global, namespaces: &[Manifest]) -> Result<BTreeMap<Text, Origin>, Memory>
    ensures { IfOk result (λ m. m.entries ≡ known namespaces.now) }
{
    let mut names = BTreeMap::new(alloc);
    for namespace in namespaces {
        let name = metadata_text(&namespace.object, "name");
        insert_name(alloc, &mut names, name, namespace.origin)?;
    }
    Ok(names)
}

fn insert_name(
    alloc: Global,
    names: &mut BTreeMap<Text, Origin>,
    name: &str,
    origin: Origin,
) -> Result<(), Memory>
    ensures { OnOk result (names.new.entries ≡ with_name names.old.entries name.now origin) }
{
    let name = Text::copy_of(alloc, name)?;
    drop(names.insert(name, origin)?);
    Ok(())
}

/// The namespaces that objects live in.
#[tactic(auto, unfolding(crate::specs::Made::needed_from))]
fn needed_names(
    alloc: Global,
    table: &[ResourceRow],
    objects: &[Manifest],
) -> Result<BTreeMap<Text, Origin>, Memory>
    ensures { IfOk result (λ m. m.entries ≡ needed_from table.now [] objects.now) }
{
    let mut needed = BTreeMap::new(alloc);
    for manifest in objects {
        need(
            alloc,
            &mut needed,
            home(table, &manifest.object),
            manifest.origin,
        )?;
    }
    Ok(needed)
}

/// Notes that a namespace is needed, unless its name is empty.
fn need(
    alloc: Global,
    needed: &mut BTreeMap<Text, Origin>,
    name: &str,
    origin: Origin,
) -> Result<(), Memory>
    ensures { OnOk result (needed.new.entries ≡ with_need needed.old.entries name.now origin) }
{
    if name.is_empty() {
        return Ok(());
    }
    let name = Text::copy_of(alloc, name)?;
    if needed.contains_key(&name) {
        return Ok(());
    }
    drop(needed.insert(name, origin)?);
    Ok(())
}

/// The namespace that an object lives in; empty where its kind lives in none.
#[tactic(auto, unfolding(crate::specs::Made::home))]
fn home<'a>(table: &[ResourceRow], object: &'a Value) -> &'a str
    ensures { result.now ≡ made.home table.now (view object.now) }
{
    if lives_in_namespace(table, object) {
        metadata_text(object, "namespace")
    } else {
        ""
    }
}
