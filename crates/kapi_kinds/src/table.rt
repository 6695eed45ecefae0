//! The table of the resource types that files of kinds name, behind those of the programs.
ghost use Rattle.std.specs.Prelude.{◌≡◌, ◌==◌, ◌+◌, [], ◌∷◌, true, IfOk, IfSome, OnOk, None, is_some, length, map, option_and_then};
ghost use Rattle.std.specs.List.{list_any};
ghost use Rattle.serde_json.specs.View.{view};
ghost use Rattle.kapi_core.specs.Table.{fits, is_like};
ghost use Rattle.kapi_kinds.specs.Rows.{row_named};
ghost use Rattle.kapi_kinds.specs.Tables.{added, model_of_faults, grown, kept, table_in, model_of_table};
ghost use Rattle.kapi_manifests.specs.Files.{bad_pieces, data_of, objects_of, sum_of};
ghost use Rattle.kapi_manifests.specs.Written.{objects_in_all};

use crate::fault::{Fault, Reason};
use crate::forms::named_in;
use crate::named::Named;
use kapi_core::program_table;
use kapi_manifests::{Manifest, Objects, Origin, read_objects};
use kapi_model::ResourceRow;
use kapi_text::{Memory, Sequence, Text};
use std::alloc::Global;

/// What files of kinds are.
#[derive(Drop)]
pub enum Kinds {
    /// The resource types of the programs, and behind them those of the files.
    Table(Sequence<ResourceRow>),
    /// What is wrong: of each file its pieces first, and then its objects.
    Faults(Vec<Fault>),
}

/// The resource types so far, and what is wrong; if something is, the rows are those of the other objects.
#[derive(Drop)]
pub struct Gathered {
    pub rows: Vec<ResourceRow>,
    pub faults: Vec<Fault>,
}

/// The table of the resource types that the programs serve and those of files of kinds, or what is wrong with the files.
/// Each resource type is compared with all before it, as a table is small.
pub fn table_of(alloc: Global, files: &[&[u8]]) -> Result<Kinds, Memory>
    ensures table { IfOk result (λ k. model_of_table k ≡ table_in (map (λ text. text.now) files.now)) }
    ensures fits { IfOk result (λ k. IfSome (model_of_table k) (λ t. fits t ≡ true)) }
    ensures faults { IfOk result (λ k. (length (model_of_faults k) == 0) ≡ is_some (table_in (map (λ text. text.now) files.now))) }
{
    let mut gathered = Gathered {
        rows: program_table(alloc)?.into_vec(),
        faults: Vec::new(alloc),
    };
    gather_files(alloc, &mut gathered, files)?;
    Ok(settled(gathered))
}

fn settled(gathered: Gathered) -> Kinds
    ensures table { model_of_table result ≡ kept gathered }
    ensures faults { (length (model_of_faults result) == 0) ≡ is_some (kept gathered) }
{
    let Gathered { rows, faults } = gathered;
    if faults.is_empty() {
        Kinds::Table(Sequence::new(rows))
    } else {
        Kinds::Faults(faults)
    }
}

fn gather_files(alloc: Global, gathered: &mut Gathered, files: &[&[u8]]) -> Result<(), Memory>
    ensures { OnOk result (kept gathered.new ≡ option_and_then (grown
        (sum_of bad_pieces (map (λ text. text.now) files.now)) (objects_in_all (map (λ text. text.now) files.now))) (kept gathered.old)) }
{
    let mut number = 0;
    for text in files {
        gather_file(alloc, gathered, number, text)?;
        number = number.saturating_add(1);
    }
    Ok(())
}

fn gather_file(
    alloc: Global,
    gathered: &mut Gathered,
    file: usize,
    text: &[u8],
) -> Result<(), Memory>
    ensures { OnOk result (kept gathered.new ≡ option_and_then (grown (bad_pieces text.now) (objects_of text.now)) (kept gathered.old)) }
{
    let Objects { objects, faults } = read_objects(alloc, file, text)?;
    refuse_pieces(gathered, faults)?;
    gather_objects(alloc, gathered, objects.as_slice())
}

/// Keeps what is wrong with pieces of a file.
fn refuse_pieces(gathered: &mut Gathered, faults: Vec<kapi_manifests::Fault>) -> Result<(), Memory>
    ensures rows { gathered.new.rows ≡ gathered.old.rows }
    ensures faults { OnOk result (length gathered.new.faults.items ≡ length gathered.old.faults.items + length faults.items) }
{
    for fault in faults {
        refuse(gathered, fault.origin, Reason::Piece(fault.reason))?;
    }
    Ok(())
}

fn gather_objects(
    alloc: Global,
    gathered: &mut Gathered,
    objects: &[Manifest],
) -> Result<(), Memory>
    ensures { OnOk result (kept gathered.new ≡ option_and_then (grown 0 (map data_of objects.now)) (kept gathered.old)) }
{
    for manifest in objects {
        gather(alloc, gathered, manifest)?;
    }
    Ok(())
}

/// Adds the row of an object, or what is wrong with it.
fn gather(alloc: Global, gathered: &mut Gathered, manifest: &Manifest) -> Result<(), Memory>
    ensures { OnOk result (kept gathered.new ≡ option_and_then (grown 0 (data_of manifest.now ∷ [])) (kept gathered.old)) }
{
    match named_in(alloc, &manifest.object)? {
        Ok(named) => add(alloc, gathered, manifest.origin, named),
        Err(reason) => refuse(gathered, manifest.origin, reason),
    }
}

/// Adds a row, unless it is like one of the table.
fn add(
    alloc: Global,
    gathered: &mut Gathered,
    origin: Origin,
    named: Named<'_>,
) -> Result<(), Memory>
    ensures { OnOk result (kept gathered.new ≡ option_and_then (added (row_named named.entry ∷ [])) (kept gathered.old)) }
{
    let row = named.row(alloc)?;
    if is_like_any(gathered.rows.as_slice(), &row) {
        let reason = clash(gathered.rows.as_slice(), row);
        return refuse(gathered, origin, reason);
    }
    gathered.rows.push(row)?;
    Ok(())
}

/// Keeps a fault.
fn refuse(gathered: &mut Gathered, origin: Origin, reason: Reason) -> Result<(), Memory>
    ensures rows { gathered.new.rows ≡ gathered.old.rows }
    ensures faults { OnOk result (length gathered.new.faults.items ≡ length gathered.old.faults.items + 1) }
{
    gathered.faults.push(Fault { origin, reason })?;
    Ok(())
}

/// Whether a row shares its group, and its plural or its kind, with one of a table.
fn is_like_any(table: &[ResourceRow], row: &ResourceRow) -> bool
    ensures { result ≡ list_any (λ other. is_like other row.now) table.now }
{
    table.iter().any(|other| {
        other.group == row.group && (other.plural == row.plural || other.kind == row.kind)
    })
}

/// Why a row that is like one of the table is not added.
fn clash(table: &[ResourceRow], row: ResourceRow) -> Reason {
    if table.iter().any(|other| other.group == row.group && other.plural == row.plural) {
        return Reason::ResourceTaken(row.plural, row.group);
    }
    Reason::KindTaken(row.kind, row.group)
}
