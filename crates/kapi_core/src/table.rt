ghost use Rattle.std.specs.Prelude.{◌≡◌};
ghost use Rattle.std.specs.List.{list_all, list_any};
ghost use Rattle.kapi_core.specs.Table as tables;
ghost use Rattle.kapi_core.specs.Table.{fits, required_rows, row_of};

use crate::resource::{Resource, required_resources};
use kapi_answer::is_review_group;
use kapi_model::{ResourceRow, Schema};

/// Whether a table of resources can be served: it has the resource types of `namespaces`, of the four kinds of the
/// policy and of the four kinds of reviews as Kubernetes has them, every further one is open and in another group than
/// reviews, and no two resource types share group and plural, or group and kind. Allocates nothing.
pub fn table_fits(table: &[ResourceRow]) -> bool
    ensures { result ≡ fits table.now }
{
    has_required(table) && (are_known(table) && rows_differ(table))
}

fn has_required(table: &[ResourceRow]) -> bool
    ensures { result ≡ list_all (tables.has_row table.now) required_rows }
{
    has_rows(table, &required_resources())
}

fn has_rows(table: &[ResourceRow], resources: &[Resource]) -> bool
    ensures { result ≡ list_all (λ resource. tables.has_row table.now (row_of resource)) resources.now }
{
    resources.iter().all(|resource| has_row(table, resource))
}

fn has_row(table: &[ResourceRow], resource: &Resource) -> bool
    ensures { result ≡ tables.has_row table.now (row_of resource.now) }
{
    table.iter().any(|row| is_row(row, resource))
}

fn are_known(table: &[ResourceRow]) -> bool
    ensures { result ≡ list_all tables.is_known table.now }
{
    table.iter().all(|row| is_known(row))
}

fn is_known(row: &ResourceRow) -> bool
    ensures { result ≡ tables.is_known row.now }
{
    is_further(row) || is_required(row)
}

/// A resource type of an open schema in another group than reviews.
fn is_further(row: &ResourceRow) -> bool
    ensures { result ≡ tables.is_further row.now }
{
    is_schema(row.schema, Schema::Open) && !is_review_group(row)
}

fn is_required(row: &ResourceRow) -> bool
    ensures { result ≡ list_any (λ required. tables.is_row required row.now) required_rows }
{
    is_among(row, &required_resources())
}

fn is_among(row: &ResourceRow, resources: &[Resource]) -> bool
    ensures { result ≡ list_any (λ resource. tables.is_row (row_of resource) row.now) resources.now }
{
    resources.iter().any(|resource| is_row(row, resource))
}

#[tactic(auto, unfolding(crate::specs::Table::is_row))]
fn is_row(row: &ResourceRow, resource: &Resource) -> bool
    ensures { result ≡ tables.is_row (row_of resource.now) row.now }
{
    resource.group == row.group.as_str()
        && ("v1" == row.version.as_str()
            && (resource.plural == row.plural.as_str()
                && (resource.kind == row.kind.as_str() && has_form(row, resource))))
}

fn has_form(row: &ResourceRow, resource: &Resource) -> bool
    ensures { result ≡ tables.has_form (row_of resource.now) row.now }
{
    resource.namespaced == row.namespaced
        && (resource.has_status == row.has_status && is_schema(resource.schema, row.schema))
}

fn is_schema(a: Schema, b: Schema) -> bool
    ensures { result ≡ tables.is_schema a b }
{
    matches!(
        (a, b),
        (Schema::Open, Schema::Open)
            | (Schema::Role, Schema::Role)
            | (Schema::ClusterRole, Schema::ClusterRole)
            | (Schema::RoleBinding, Schema::RoleBinding)
            | (Schema::ClusterRoleBinding, Schema::ClusterRoleBinding)
    )
}

/// No resource type is like one that comes after it.
#[tactic(auto, unfolding(crate::specs::Table::rows_differ))]
fn rows_differ(table: &[ResourceRow]) -> bool
    ensures { result ≡ tables.rows_differ table.now }
{
    let mut rest = table;
    while let [row, later @ ..] = rest {
        if is_like_any(row, later) {
            return false;
        }
        rest = later;
    }
    true
}

fn is_like_any(row: &ResourceRow, others: &[ResourceRow]) -> bool
    ensures { result ≡ list_any (λ other. tables.is_like row.now other) others.now }
{
    others.iter().any(|other| is_like(row, other))
}

fn is_like(row: &ResourceRow, other: &ResourceRow) -> bool
    ensures { result ≡ tables.is_like row.now other.now }
{
    row.group == other.group && (row.plural == other.plural || row.kind == other.kind)
}
