//! The machine that a server begins with.
ghost use Rattle.std.specs.Prelude.{◌≡◌, ◌≤◌, true, [], IfOk, IfSome};
ghost use Rattle.kapi.specs.Beginning.{Begins, first_given, machine_with};
ghost use Rattle.kapi_core.specs.Table.{fits};
ghost use Rattle.kapi_loading.specs.Starting.{Starts};

use kapi_command_line::clock_revision;
use kapi_loading::{StartError, Started, start, start_without_objects};
use kapi_model::ResourceRow;
use kapi_text::Sequence;
use std::alloc::Global;
use std::sync::Wait;
use thiserror::Error;

/// Why a server does not begin.
#[derive(Clone, Copy, Debug, PartialEq, Eq, Error)]
pub enum BeginError {
    #[error("{0}")]
    Start(StartError),
    #[error("the clock gives no first revision")]
    Clock,
}

/// The revision after which a server's begin: the one that was specified, else the clock's.
pub fn first_of(first: Option<u64>, milliseconds: u64) -> Option<u64>
    requires first { IfSome first (λ n. n ≤ 281474976710650) }
    ensures told { result ≡ first_given first milliseconds }
    ensures small { IfSome result (λ n. n ≤ 281474976710650) }
{
    match first {
        Some(first) => Some(first),
        None => clock_revision(milliseconds),
    }
}

/// The objects that a server begins with, one a line.
#[derive(Clone, Copy)]
pub enum Objects<'a> {
    /// Next to the objects that every server begins with.
    Lines(&'a [u8]),
    /// In place of the objects that every server begins with.
    Alone(&'a [u8]),
}

/// Starts a machine with these objects and the resource types of a table. Its revisions begin after `first` or, if that
/// is none, after the revision of the clock, which stands at `milliseconds` since the start of 1970.
pub fn begin<R: Wait>(
    alloc: Global,
    rt: &R,
    table: &Sequence<ResourceRow>,
    objects: Objects<'_>,
    first: Option<u64>,
    milliseconds: u64,
    seats: usize,
) -> Result<Started, BeginError>
    requires table { fits table.now ≡ true }
    requires first { IfSome first (λ n. n ≤ 281474976710650) }
    requires seats { (1 ≤ seats) × (seats ≤ 16) }
    ensures machine { Begins result (first_given first milliseconds) (λ n. machine_with table.now n objects.entry) }
    ensures unopened { IfOk result (λ s. s.core.next_id ≡ 0) }
    ensures waiting { IfOk result (λ s. s.desk.waiting ≡ []) }
{
    let Some(first) = first_of(first, milliseconds) else {
        return Err(BeginError::Clock);
    };
    match start_with(alloc, rt, table, objects, first, seats) {
        Ok(started) => Ok(started),
        Err(error) => Err(BeginError::Start(error)),
    }
}

/// Starts a machine with these objects and the resource types of a table. Its revisions begin after `first`.
fn start_with<R: Wait>(
    alloc: Global,
    rt: &R,
    table: &Sequence<ResourceRow>,
    objects: Objects<'_>,
    first: u64,
    seats: usize,
) -> Result<Started, StartError>
    requires table { fits table.now ≡ true }
    requires first { first ≤ 281474976710650 }
    requires seats { (1 ≤ seats) × (seats ≤ 16) }
    ensures machine { Starts result (machine_with table.now first objects.entry) }
    ensures unopened { IfOk result (λ s. s.core.next_id ≡ 0) }
    ensures waiting { IfOk result (λ s. s.desk.waiting ≡ []) }
{
    match objects {
        Objects::Lines(lines) => start(alloc, rt, table, lines, first, seats),
        Objects::Alone(lines) => start_without_objects(alloc, rt, table, lines, first, seats),
    }
}
