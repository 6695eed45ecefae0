//! Targets with merge patches applied.
ghost use Rattle.std.specs.Prelude.{◌≡◌, IfOk, OnOk};
ghost use Rattle.serde_json.specs.Data.{Data, put as with_member};
ghost use Rattle.serde_json.specs.View.{view, members_view};
ghost use Rattle.kapi_object.specs.Merge.{all_merged, changed, members_or_none as members_of, merged as merged_of, value_at as value_at_name, without};

use kapi_text::Memory;
use serde_json::{Map, Value, put};
use std::alloc::Global;
use std::mem::replace;

/// The target with a merge patch applied (RFC 7396). What the patch does not name stays in its place.
pub fn merge_patch(alloc: Global, target: Value, patch: &Value) -> Result<Value, Memory>
    ensures { IfOk result (λ v. view v ≡ merged_of (view target) (view patch.now)) }
{
    merged(alloc, patch, target)
}

/// The patch is the first argument, since the walk ends by the patch getting smaller.
#[cycle(merge)]
fn merged(alloc: Global, patch: &Value, target: Value) -> Result<Value, Memory>
    ensures { IfOk result (λ v. view v ≡ merged_of (view target) (view patch.now)) }
{
    match patch {
        Value::Object(patches) => {
            let mut members = into_members(alloc, target);
            merge_all(alloc, patches, &mut members)?;
            Ok(Value::Object(members))
        }
        other => other.clone(),
    }
}

/// Applies the patches of an object, name by name.
#[cycle(merge)]
fn merge_all(
    alloc: Global,
    patches: &Map<String, Value>,
    members: &mut Map<String, Value>,
) -> Result<(), Memory>
    ensures { OnOk result (members_view members.new.entries
        ≡ all_merged (members_view members.old.entries) (members_view patches.now.entries)) }
{
    for (name, patch) in patches {
        merge_member(alloc, patch, name.as_str(), members)?;
    }
    Ok(())
}

/// Applies the patch of one name: null takes the name out.
#[cycle(merge)]
#[tactic(auto, using(crate::proofs::Changes::changed_by_null, crate::proofs::Changes::changed_by_other))]
fn merge_member(
    alloc: Global,
    patch: &Value,
    name: &str,
    members: &mut Map<String, Value>,
) -> Result<(), Memory>
    ensures { OnOk result (members_view members.new.entries
        ≡ changed name.now (view patch.now) (merged_of (value_at_name name.now (members_view members.old.entries)) (view patch.now)) (members_view members.old.entries)) }
{
    if patch.is_null() {
        remove(members, name);
        return Ok(());
    }
    let value = merged(alloc, patch, take(members, name))?;
    put(members, alloc, name, value)
}

/// The value of a name, or null if there is none. Null is left in its place, for a caller that puts another value there.
fn take(members: &mut Map<String, Value>, name: &str) -> Value
    ensures value { view result ≡ value_at_name name.now (members_view members.old.entries) }
    ensures others { (d : Data) → with_member name.now d (members_view members.new.entries) ≡ with_member name.now d (members_view members.old.entries) }
{
    match members.get_mut(name) {
        Some(value) => replace(value, Value::Null),
        None => Value::Null,
    }
}

/// Takes the member of a name out.
fn remove(members: &mut Map<String, Value>, name: &str)
    ensures { members_view members.new.entries ≡ without name.now (members_view members.old.entries) }
{
    drop(members.remove(name));
}

/// The members of an object; none of anything else.
fn into_members(alloc: Global, value: Value) -> Map<String, Value>
    ensures { members_view result.entries ≡ members_of (view value) }
{
    match value {
        Value::Object(members) => members,
        _other => Map::new(alloc),
    }
}
