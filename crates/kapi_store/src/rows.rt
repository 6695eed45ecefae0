//! The resource types that are served. One is found by its name, not by a look at all of them.
ghost use Rattle.std.specs.Prelude.{◌≡◌, drop as drop_first, find, IfOk, OnOk};
ghost use Rattle.std.specs.Option.{option_copied};
ghost use Rattle.std.specs.Str.{bytes_eq};
ghost use Rattle.kapi_store.specs.Plain.{is_namespaced as is_namespaced_by};
ghost use Rattle.kapi_store.specs.Private.FirstRows.{AreFirst, StartsAlso};
ghost use Rattle.kapi_store.specs.Rows.{is_of as is_of_row};

use crate::key::Key;
use kapi_model::ResourceRow;
use kapi_text::{Memory, Sequence, Text, TryCopy};
use std::alloc::Global;
use std::collections::BTreeMap;
use std::marker::Model;

/// The resource types in their order, with the position of the first of each name.
#[derive(Drop)]
pub(crate) struct Rows {
    list: Sequence<ResourceRow>,
    first: BTreeMap<Text, usize>,
}

impl Model for Rows {
    ghost use Rattle.std.specs.Prelude.{List};
    ghost use Rattle.kapi_model.specs.declared.row.ResourceRow.{ResourceRow as Resource};
    ghost use Rattle.kapi_store.specs.Private.FirstRows.{AreFirst};

    ghost Value = { List Resource };

    ghost view = { λ r. r.list };

    ghost invariant = { λ r. AreFirst r.first r.list };
}

/// Notes the position of a resource type, unless one before it has its name.
fn note(
    alloc: Global,
    first: &mut BTreeMap<Text, usize>,
    row: &ResourceRow,
    position: usize,
) -> Result<(), Memory>
    ensures { OnOk result (StartsAlso first.old first.new row.now.plural position) }
{
    if !first.contains_key(&row.plural) {
        drop(first.insert(row.plural.copy(alloc)?, position)?);
    }
    Ok(())
}

/// The position of the first resource type of each name.
fn first_rows(alloc: Global, rows: &[ResourceRow]) -> Result<BTreeMap<Text, usize>, Memory>
    ensures { IfOk result (λ m. AreFirst m rows.now) }
{
    let mut first = BTreeMap::new(alloc);
    for (position, row) in rows.iter().enumerate() {
        note(alloc, &mut first, row, position)?;
    }
    Ok(first)
}

fn is_of(row: &ResourceRow, group: &Text, version: &Text, plural: &Text) -> bool
    ensures { result ≡ is_of_row group.now version.now plural.now row.now }
{
    row.group == *group && (row.version == *version && row.plural == *plural)
}

fn first_of<'a>(
    rows: &'a [ResourceRow],
    group: &Text,
    version: &Text,
    plural: &Text,
) -> Option<&'a ResourceRow>
    ensures { option_copied result ≡ find (is_of_row group.now version.now plural.now) rows.now }
{
    rows.iter().find(|row| is_of(row, group, version, plural))
}

/// The rows from a position on.
fn from(rows: &[ResourceRow], start: usize) -> &[ResourceRow]
    ensures { result.now ≡ drop_first start rows.now }
{
    rows.get(start..).unwrap_or(&[])
}

impl Rows {
    ghost use Rattle.std.specs.Prelude.{◌≡◌, false, find, take, IfOk};
    ghost use Rattle.std.specs.List.{list_any};
    ghost use Rattle.std.specs.Option.{option_copied};
    ghost use Rattle.kapi_store.specs.Rows.{is_of as is_of_row};

    pub(crate) fn new(alloc: Global, list: Sequence<ResourceRow>) -> Result<Rows, Memory>
        ensures { IfOk result (λ r. r ≡ list) }
    {
        let first = first_rows(alloc, list.as_slice())?;
        Ok(Rows { list, first })
    }

    pub(crate) fn as_slice(&self) -> &[ResourceRow]
        ensures { result.now ≡ self.now }
    {
        let _ = &self.first;
        self.list.as_slice()
    }

    /// The position of the first of that name; if there is none, the number of all.
    fn start(&self, plural: &Text) -> usize
        ensures { list_any (λ r. bytes_eq r.plural plural.now) (take result self.now) ≡ false }
    {
        match self.first.get(plural) {
            Some(position) => *position,
            None => self.list.as_slice().len(),
        }
    }

    /// The resource type of a group, a version and a name, if it is served.
    pub(crate) fn find(&self, group: &Text, version: &Text, plural: &Text) -> Option<&ResourceRow>
        ensures { option_copied result ≡ find (is_of_row group.now version.now plural.now) self.now }
    {
        let rows = from(self.list.as_slice(), self.start(plural));
        first_of(rows, group, version, plural)
    }
}

/// Whether a resource type of the key's group and resource is namespaced.
pub fn is_namespaced(table: &[ResourceRow], key: &Key) -> bool
    ensures { result ≡ is_namespaced_by table.now key.now }
{
    table.iter().any(|row| row.group == key.group && (row.plural == key.resource && row.namespaced))
}
