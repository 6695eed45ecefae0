ghost use Rattle.std.specs.Prelude.{◌≡◌, ◌++◌, [], List, ℕ, true, Some, OnOk};
ghost use Rattle.serde_json.specs.Data.{Data};
ghost use Rattle.serde_json.specs.View.{view};
ghost use Rattle.kapi_model.specs.declared.fault.FieldFault.{FieldFault as Fault};
ghost use Rattle.kapi_object.specs.Contents.{text_at};
ghost use Rattle.kapi_object.specs.Tree.{member_of};
ghost use Rattle.kapi_object.specs.declared.metadata.Entries.TheVariants as entries;
ghost use Rattle.kapi_object.specs.declared.table.Table.{Table as TableOf};
ghost use Rattle.kapi_object.specs.Faults.{entries_faults};
ghost use Rattle.kapi_object.specs.Shapes as shape;
ghost use Rattle.kapi_object.specs.Shapes.{element_faults, forbidden_faults, part_faults, row_faults, rows_faults, table_faults, typed_faults};
ghost use Rattle.kapi_object.specs.Typed as typed;

use crate::metadata::{Entries, push_entries_faults, push_fault};
use crate::path::member_path;
use crate::table::{Choice, Row, Table, ValueRule, When, rows};
use crate::text_rule::{is_right, push_text_faults_at};
use crate::tree::member;
use crate::typed_list::{Element, Presence, is_given, push_list_faults_at, push_need_faults};
use kapi_model::{FaultKind, FieldFault, Schema};
use kapi_text::Memory;
use serde_json::Value;
use std::alloc::Global;

/// The text that is the member of a key; any other value, and none, is as the empty text.
pub fn text_in<'a>(tree: &'a Value, key: &str) -> &'a str
    ensures { result.now ≡ text_at key.now (view tree.now) }
{
    match member(tree, key) {
        Some(Value::String(text)) => text.as_str(),
        _other => "",
    }
}

/// Whether a condition holds of an object.
fn passes(when: When, tree: &Value) -> bool
    ensures { result ≡ shape.passes when (view tree.now) }
{
    match when {
        When::Given(key) => is_given(tree, key.as_str()),
        When::Filled(key) => !text_in(tree, key.as_str()).is_empty(),
        When::Says(key, one, other) => {
            let text = text_in(tree, key.as_str());
            text == one.as_str() || text == other.as_str()
        }
        When::Keeps(key, rule) => is_right(rule, text_in(tree, key.as_str())),
    }
}

/// The part that is chosen for an object.
pub fn chosen(choice: Choice, tree: &Value) -> ValueRule
    ensures { result ≡ shape.chosen choice (view tree.now) }
{
    match choice {
        Choice::One(part) => part,
        Choice::Two(when, part, other) => { if passes(when, tree) { part } else { other } }
        Choice::Three(first, part, second, other, last) => {
            if passes(first, tree) {
                part
            } else if passes(second, tree) {
                other
            } else {
                last
            }
        }
    }
}

/// Reports what is wrong with the members of the objects in an object.
pub trait Level {
    ghost faults_below: { TableOf → List ℕ → Data → List Fault };

    /// Adds what is wrong with the members of an object of the table at the path.
    fn push_members_faults(
        &self,
        alloc: Global,
        faults: &mut Vec<FieldFault>,
        table: Table,
        path: &str,
        value: &Value,
    ) -> Result<(), Memory>
        ensures { OnOk result (faults.new.items ≡ faults.old.items ++ faults_below table path.now (view value.now)) };
}

/// The level below the lowest objects.
#[derive(Drop)]
pub struct Bottom;

/// Objects whose faults are reported by their rows, and those of the objects in them by the level below.
#[derive(Drop)]
pub struct Above<L> {
    pub below: L,
}

/// The objects of a table, as elements of lists.
#[derive(Drop)]
struct Inner<'a, L> {
    below: &'a L,
    table: Table,
}

impl Level for Bottom {
    ghost use Rattle.std.specs.Prelude.{[]};

    ghost faults_below = { λ table path d. [] };

    fn push_members_faults(
        &self,
        _alloc: Global,
        _faults: &mut Vec<FieldFault>,
        _table: Table,
        _path: &str,
        _value: &Value,
    ) -> Result<(), Memory> {
        Ok(())
    }
}

impl<L: Level> Level for Above<L> {
    ghost use Rattle.kapi_object.specs.Shapes.{rows_faults};
    ghost use Rattle.kapi_object.specs.Tables.{rows_of};

    ghost faults_below = { λ table path d. rows_faults L.faults_below (rows_of table) path d };

    fn push_members_faults(
        &self,
        alloc: Global,
        faults: &mut Vec<FieldFault>,
        table: Table,
        path: &str,
        value: &Value,
    ) -> Result<(), Memory> {
        push_rows_faults(alloc, faults, &self.below, rows(table), path, value)
    }
}

impl<'a, L: Level> Element for Inner<'a, L> {
    ghost use Rattle.kapi_object.specs.Typed.{object_faults};

    ghost faults_of = { λ i. object_faults (L.faults_below i.table) };

    fn push_faults(
        &self,
        alloc: Global,
        faults: &mut Vec<FieldFault>,
        path: &str,
        value: &Value,
    ) -> Result<(), Memory> {
        if !value.is_object() {
            return push_fault(alloc, faults, path, FaultKind::WrongType);
        }
        self.below
            .push_members_faults(alloc, faults, self.table, path, value)
    }
}

/// Adds a fault if a key has a value that may have none.
fn push_forbidden_faults_at(
    alloc: Global,
    faults: &mut Vec<FieldFault>,
    path: &str,
    key: &str,
    tree: &Value,
) -> Result<(), Memory>
    ensures { OnOk result (faults.new.items ≡ faults.old.items
        ++ forbidden_faults (typed.member_path path.now key.now) (member_of key.now (view tree.now))) }
{
    if member(tree, key).is_none() {
        return Ok(());
    }
    let field = member_path(alloc, path, key)?;
    push_fault(alloc, faults, field.as_str(), FaultKind::NotAllowedHere)
}

/// Adds what is wrong with the labels that are the member of a key.
#[tactic(auto, unfolding(crate::specs::Faults::entries_faults))]
fn push_labels_faults_at(
    alloc: Global,
    faults: &mut Vec<FieldFault>,
    path: &str,
    key: &str,
    tree: &Value,
) -> Result<(), Memory>
    ensures { OnOk result (faults.new.items ≡ faults.old.items
        ++ entries_faults entries.Labels (typed.member_path path.now key.now) (member_of key.now (view tree.now))) }
{
    let field = member_path(alloc, path, key)?;
    match member(tree, key) {
        Some(value) => push_entries_faults(alloc, faults, Entries::Labels, field.as_str(), value),
        None => Ok(()),
    }
}

/// Adds what is wrong with the object that is the member of a key.
fn push_object_faults_at<E: Element>(
    alloc: Global,
    faults: &mut Vec<FieldFault>,
    element: &E,
    need: Presence,
    path: &str,
    key: &str,
    tree: &Value,
) -> Result<(), Memory>
    ensures { OnOk result (faults.new.items ≡ faults.old.items
        ++ element_faults (E.faults_of element.now) need (typed.member_path path.now key.now) (member_of key.now (view tree.now))) }
{
    let field = member_path(alloc, path, key)?;
    match member(tree, key) {
        Some(value) => element.push_faults(alloc, faults, field.as_str(), value),
        None => push_need_faults(alloc, faults, need, true, field.as_str()),
    }
}

/// Adds what is wrong with the value at a key.
#[tactic(auto, unfolding(crate::specs::Shapes::part_faults))]
fn push_part_faults_at<L: Level>(
    alloc: Global,
    faults: &mut Vec<FieldFault>,
    below: &L,
    part: ValueRule,
    path: &str,
    key: &str,
    tree: &Value,
) -> Result<(), Memory>
    ensures { OnOk result (faults.new.items ≡ faults.old.items
        ++ part_faults L.faults_below part (typed.member_path path.now key.now) (member_of key.now (view tree.now))) }
{
    match part {
        ValueRule::Dropped => Ok(()),
        ValueRule::Forbidden => push_forbidden_faults_at(alloc, faults, path, key, tree),
        ValueRule::Text(rule) => push_text_faults_at(alloc, faults, rule, path, key, tree),
        ValueRule::Texts(need, rule) => {
            push_list_faults_at(alloc, faults, &rule, need, path, key, tree)
        }
        ValueRule::Labels => push_labels_faults_at(alloc, faults, path, key, tree),
        ValueRule::Object(need, table) => {
            let inner = Inner { below, table };
            push_object_faults_at(alloc, faults, &inner, need, path, key, tree)
        }
        ValueRule::Objects(need, _written, table) => {
            let inner = Inner { below, table };
            push_list_faults_at(alloc, faults, &inner, need, path, key, tree)
        }
    }
}

/// Adds what is wrong with an object by one row.
fn push_row_faults<L: Level>(
    alloc: Global,
    faults: &mut Vec<FieldFault>,
    below: &L,
    row: Row,
    path: &str,
    tree: &Value,
) -> Result<(), Memory>
    ensures { OnOk result (faults.new.items ≡ faults.old.items
        ++ row_faults L.faults_below row path.now (view tree.now)) }
{
    let part = chosen(row.1, tree);
    push_part_faults_at(alloc, faults, below, part, path, row.0.as_str(), tree)
}

/// Adds what is wrong with an object by all rows, in order.
#[tactic(auto, using(std::proofs::Common::append_assoc), unfolding(crate::specs::Shapes::rows_faults))]
fn push_rows_faults<L: Level>(
    alloc: Global,
    faults: &mut Vec<FieldFault>,
    below: &L,
    rows: &[Row],
    path: &str,
    tree: &Value,
) -> Result<(), Memory>
    ensures { OnOk result (faults.new.items ≡ faults.old.items
        ++ rows_faults L.faults_below rows.now path.now (view tree.now)) }
{
    for row in rows {
        push_row_faults(alloc, faults, below, *row, path, tree)?;
    }
    Ok(())
}

/// Adds what is wrong with the members of a tree by a table, four levels of objects deep: those of a cluster role, its
/// aggregation rule, the selectors and their requirements.
pub fn push_table_faults(
    alloc: Global,
    faults: &mut Vec<FieldFault>,
    table: Table,
    tree: &Value,
) -> Result<(), Memory>
    ensures { OnOk result (faults.new.items ≡ faults.old.items ++ table_faults 4 table [] (view tree.now)) }
{
    let lowest = Above { below: Bottom };
    let lower = Above { below: lowest };
    let upper = Above { below: lower };
    let top = Above { below: upper };
    top.push_members_faults(alloc, faults, table, "", tree)
}

/// Adds what is wrong with the members of a tree beside its metadata, in order.
pub fn push_typed_faults(
    alloc: Global,
    faults: &mut Vec<FieldFault>,
    schema: Schema,
    tree: &Value,
) -> Result<(), Memory>
    ensures { OnOk result (faults.new.items ≡ faults.old.items ++ typed_faults schema (view tree.now)) }
{
    match schema {
        Schema::Open => Ok(()),
        Schema::Role => push_table_faults(alloc, faults, Table::Role, tree),
        Schema::ClusterRole => push_table_faults(alloc, faults, Table::ClusterRole, tree),
        Schema::RoleBinding => push_table_faults(alloc, faults, Table::RoleBinding, tree),
        Schema::ClusterRoleBinding => {
            push_table_faults(alloc, faults, Table::ClusterRoleBinding, tree)
        }
    }
}
