ghost use Rattle.std.specs.Prelude.{◌≡◌, ◌++◌, true, IfOk, OnOk, map};
ghost use Rattle.kapi_core.specs.Table.{fits, row_of};
ghost use Rattle.kapi_core.specs.ProgramTable.{open_row, open_rows, program_rows};

use crate::resource::{Resource, required_resources};
use kapi_model::{ResourceRow, Schema};
use kapi_text::{Memory, Sequence};
use std::alloc::Global;

/// The resources that the programs serve.
#[tactic(auto, using(crate::proofs::ProgramFitting::program_rows_fit), unfolding(crate::specs::ProgramTable::program_rows))]
pub fn program_table(alloc: Global) -> Result<Sequence<ResourceRow>, Memory>
    ensures rows { IfOk result (λ t. t ≡ program_rows) }
    ensures fits { IfOk result (λ t. fits t ≡ true) }
{
    let mut rows = Vec::new(alloc);
    push_rows(alloc, &mut rows, &required_resources())?;
    push_rows(alloc, &mut rows, &open_resources())?;
    Ok(Sequence::new(rows))
}

fn push_rows(
    alloc: Global,
    rows: &mut Vec<ResourceRow>,
    resources: &[Resource],
) -> Result<(), Memory>
    ensures { OnOk result (rows.new.items ≡ rows.old.items ++ map row_of resources.now) }
{
    for resource in resources {
        rows.push(resource.row(alloc)?)?;
    }
    Ok(())
}

/// The resources whose objects have any members.
#[tactic(auto, unfolding(crate::specs::ProgramTable::open_rows))]
fn open_resources() -> [Resource; 6]
    ensures { map row_of result ≡ open_rows }
{
    [
        open("", "nodes", "Node", false, true),
        open("", "configmaps", "ConfigMap", true, false),
        open("", "secrets", "Secret", true, false),
        open("", "serviceaccounts", "ServiceAccount", true, false),
        open("", "pods", "Pod", true, true),
        open("apps", "deployments", "Deployment", true, true),
    ]
}

fn open(
    group: &'static str,
    plural: &'static str,
    kind: &'static str,
    namespaced: bool,
    has_status: bool,
) -> Resource
    ensures { row_of result ≡ open_row group.now plural.now kind.now namespaced has_status }
{
    Resource {
        group,
        plural,
        kind,
        namespaced,
        has_status,
        schema: Schema::Open,
    }
}
