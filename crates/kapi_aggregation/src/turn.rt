//! The rewriting of an aggregated cluster role.
ghost use Rattle.std.specs.Prelude.{◌≡◌, map, IfOk};
ghost use Rattle.serde_json.specs.View.{view};
ghost use Rattle.kapi_object.specs.Object.{tree_of};
ghost use Rattle.kapi_store.specs.Stored.{stored_tree};
ghost use Rattle.kapi_store.specs.Faults.{fault_of};
ghost use Rattle.kapi_store.specs.Plain.{plain_change, plain_of};
ghost use Rattle.kapi_store.specs.State.{Fits};
ghost use Rattle.kapi_text.specs.ResultIs.{ResultIs};
ghost use Rattle.kapi_aggregation.specs.Rewriting.{rewriting, with_rules as with_rules_of};
ghost use Rattle.kapi_aggregation.specs.Marks.{keys_if, union_given};
ghost use Rattle.kapi_aggregation.specs.Turns.{turn_at as turn_of, turn_to as turn_to_rules};
ghost use Rattle.kapi_aggregation.specs.Views.{labelled};

use crate::roles::{NamedRole, role_key};
use crate::same::same_rules;
use crate::takers::Taker;
use crate::union::{union_for, union_in};
use kapi_model::PolicyRule;
use kapi_object::Object;
use kapi_object::tree::into_members;
use kapi_object::tree_form::write_items;
use kapi_store::{Ready, Store, StoreError, StoredObject};
use kapi_text::{Memory, Sequence, Text, TryCopy};
use serde_json::{Value, put};
use std::alloc::Global;
use std::collections::BTreeSet;

/// The aggregated cluster role of the name is to have these rules in place of its own, which differ.
#[derive(Drop)]
pub struct Turn {
    pub name: Text,
    pub rules: Sequence<PolicyRule>,
}

/// What an aggregated role that differs from its union is to become.
pub(crate) fn turn_at(
    alloc: Global,
    roles: &[NamedRole<'_>],
    role: &NamedRole<'_>,
) -> Result<Option<Turn>, Memory>
    ensures { IfOk result (λ t. t ≡ turn_of (map labelled roles.now) (labelled role.now)) }
{
    turn_to(alloc, role, union_for(alloc, roles, role)?)
}

/// What an aggregated role of the store that differs from its union is to become. Only the roles which its selectors
/// may match, by the givers, are read.
pub(crate) fn turn_in(
    alloc: Global,
    store: &Store,
    givers: &Option<BTreeSet<Taker>>,
    role: &NamedRole<'_>,
) -> Result<Option<Turn>, Memory>
    ensures { IfOk result (λ t. t ≡ turn_to_rules (labelled role.now) (union_given (plain_of store.now).objects (keys_if givers.now) (labelled role.now))) }
{
    turn_to(alloc, role, union_in(alloc, store, givers, role)?)
}

/// What an aggregated role is to become, if its rules are not these.
fn turn_to(
    alloc: Global,
    role: &NamedRole<'_>,
    rules: Vec<PolicyRule>,
) -> Result<Option<Turn>, Memory>
    ensures { IfOk result (λ t. t ≡ turn_to_rules (labelled role.now) rules.items) }
{
    if !role.is_aggregated() || same_rules(role.rules(alloc)?.as_slice(), rules.as_slice()) {
        return Ok(None);
    }
    Ok(Some(Turn {
        name: role.name.copy(alloc)?,
        rules: Sequence::new(rules),
    }))
}

/// Prepares the write of a turn: the object at the cluster role's place gets the turn's rules in place of its own.
///
/// # Errors
/// `Missing` if there is no such cluster role, `RevisionsUsedUp` if no revision is left.
#[tactic(auto, unfolding(crate::specs::Rewriting::rewriting))]
pub fn rewrite(alloc: Global, store: &Store, turn: &Turn) -> Result<Ready, StoreError>
    ensures gives { ResultIs fault_of (map plain_change) result (rewriting turn.now (plain_of store.now)) }
    ensures fits { IfOk result (Fits store.now) }
{
    let key = role_key(alloc, &turn.name)?;
    match store.get(&key) {
        Some(old) => store.replace(key, with_rules(alloc, old, &turn.rules)?),
        None => Err(StoreError::Missing),
    }
}

/// A cluster role with other rules; all else of it stays.
fn with_rules(
    alloc: Global,
    old: &StoredObject,
    rules: &Sequence<PolicyRule>,
) -> Result<Object, Memory>
    ensures { IfOk result (λ o. tree_of o ≡ with_rules_of rules.now (stored_tree old.now)) }
{
    let old = old.tree(alloc)?;
    Ok(Object::new(tree_with_rules(alloc, old, rules)?))
}

/// The tree of a cluster role with other rules; all else of it stays.
fn tree_with_rules(alloc: Global, old: Value, rules: &Sequence<PolicyRule>) -> Result<Value, Memory>
    ensures { IfOk result (λ v. view v ≡ with_rules_of rules.now (view old)) }
{
    let rules = Value::Array(write_items(alloc, rules.as_slice())?);
    let mut members = into_members(alloc, old);
    put(&mut members, alloc, "rules", rules)?;
    Ok(Value::Object(members))
}
