//! What the members of objects are.
ghost use Rattle.std.specs.Prelude.{◌≡◌, [], false, not, is_some, map, option_and_then, option_map};
ghost use Rattle.std.specs.Result.{result_ok};
ghost use Rattle.serde_json.specs.Find.{as_array, as_bool, as_str};
ghost use Rattle.serde_json.specs.View.{members_view, view};
ghost use Rattle.kapi_kinds.specs.Rows as rows;
ghost use Rattle.kapi_kinds.specs.Rows.{items_or_none, keys, told, unless_absent};
ghost use Rattle.kapi_manifests.specs.Kinds.{text_or_empty};
ghost use Rattle.std.specs.List.{list_all};

use crate::fault::Reason;
use serde_json::{Map, Value};

/// The text that a value is, or else what is wanted.
pub fn text_of<'a>(value: Option<&'a Value>, wanted: &'static str) -> Result<&'a str, Reason>
    ensures { option_map (λ s. s.now) (result_ok result) ≡ option_and_then as_str (told value.entry) }
{
    match value {
        Some(Value::String(text)) => Ok(text.as_str()),
        _ => Err(Reason::Wanted(wanted)),
    }
}

/// The text that a value is, or else what is wanted; empty if there is no value.
pub fn text_unless_absent<'a>(
    value: Option<&'a Value>,
    wanted: &'static str,
) -> Result<&'a str, Reason>
    ensures { option_map (λ s. s.now) (result_ok result) ≡ unless_absent [] as_str (told value.entry) }
{
    match value {
        Some(_) => text_of(value, wanted),
        None => Ok(""),
    }
}

/// The text that a value is; empty if it is none.
pub fn text_in(value: Option<&Value>) -> &str
    ensures { result.now ≡ text_or_empty (told value.entry) }
{
    match value {
        Some(Value::String(text)) => text.as_str(),
        _ => "",
    }
}

/// The truth that a value is, or else what is wanted.
pub fn truth_of(value: Option<&Value>, wanted: &'static str) -> Result<bool, Reason>
    ensures { result_ok result ≡ option_and_then as_bool (told value.entry) }
{
    match value {
        Some(Value::Bool(truth)) => Ok(*truth),
        _ => Err(Reason::Wanted(wanted)),
    }
}

/// The truth that a value is, or else what is wanted; false if there is no value.
pub fn truth_unless_absent(value: Option<&Value>, wanted: &'static str) -> Result<bool, Reason>
    ensures { result_ok result ≡ unless_absent false as_bool (told value.entry) }
{
    match value {
        Some(_) => truth_of(value, wanted),
        None => Ok(false),
    }
}

/// Whether a value is true.
pub fn is_true(value: Option<&Value>) -> bool
    ensures { result ≡ rows.is_true (told value.entry) }
{
    match value {
        Some(Value::Bool(truth)) => *truth,
        _ => false,
    }
}

/// The items of a list, if there is one; none of anything else.
pub fn items_in<'a>(value: Option<&'a Value>) -> &'a [Value]
    ensures { map view result.now ≡ items_or_none (option_and_then as_array (told value.entry)) }
{
    match value {
        Some(value) => items_of(value),
        None => &[],
    }
}

fn items_of(value: &Value) -> &[Value]
    ensures { map view result.now ≡ items_or_none (as_array (view value.now)) }
{
    match value {
        Value::Array(items) => items.as_slice(),
        _ => &[],
    }
}

/// The first member of an object that a line of a kind has not.
pub fn other_member(members: &Map<String, Value>) -> Option<&str>
    ensures { is_some result ≡ not (list_all rows.is_column (keys (members_view members.now.entries))) }
{
    for (key, _value) in members {
        if !is_column(key.as_str()) {
            return Some(key.as_str());
        }
    }
    None
}

/// Whether a line of a kind may have a member of this name.
fn is_column(key: &str) -> bool
    ensures { result ≡ rows.is_column key.now }
{
    match key {
        "group" | "version" | "resource" | "kind" | "namespaced" | "status" => true,
        _ => false,
    }
}
