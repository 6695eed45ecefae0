//! What the attributes of a review specify.
ghost use Rattle.std.specs.Prelude.{◌≡◌};
ghost use Rattle.serde_json.specs.View.{view};
ghost use Rattle.kapi_object.specs.Tree.{member_of};
ghost use Rattle.kapi_reviews.specs.Attributes as told;

use crate::kind::ReviewKind;
use kapi_object::member;
use kapi_object::table_faults::text_in;
use serde_json::Value;

/// Whether a key has a value.
pub fn has(tree: &Value, key: &str) -> bool
    ensures { result ≡ told.has key.now (view tree.now) }
{
    member(tree, key).is_some()
}

/// Whether a key has a value that is not the empty text.
fn is_told(tree: &Value, key: &str) -> bool
    ensures { result ≡ told.is_told (member_of key.now (view tree.now)) }
{
    match member(tree, key) {
        Some(Value::String(text)) => !text.as_str().is_empty(),
        Some(_other) => true,
        None => false,
    }
}

fn has_slash(text: &str) -> bool
    ensures { result ≡ told.has_slash text.now }
{
    text.as_bytes().iter().any(|byte| *byte == b'/')
}

/// The text before the first slash, and the text after it.
#[tactic(auto, using(crate::proofs::Slashes::all_before, crate::proofs::Slashes::none_after))]
fn split_at_slash(text: &str) -> (&str, &str)
    ensures before { result.0.now ≡ told.before_slash text.now }
    ensures after { result.1.now ≡ told.after_slash text.now }
{
    match text.split_once('/') {
        Some(parts) => parts,
        None => (text, ""),
    }
}

/// The resource and the subresource.
pub fn resource_and_subresource(attributes: &Value) -> (&str, &str)
    ensures resource { result.0.now ≡ told.resource_in (view attributes.now) }
    ensures subresource { result.1.now ≡ told.subresource_in (view attributes.now) }
{
    let (resource, after) = split_at_slash(text_in(attributes, "resource"));
    let subresource = text_in(attributes, "subresource");
    if subresource.is_empty() {
        (resource, after)
    } else {
        (resource, subresource)
    }
}

/// Whether the resource has no slash, or one if no subresource is named.
pub fn is_right_resource(attributes: &Value) -> bool
    ensures { result ≡ told.is_right_resource (view attributes.now) }
{
    let resource = text_in(attributes, "resource");
    let (_before, after) = split_at_slash(resource);
    !has_slash(resource) || (!is_told(attributes, "subresource") && !has_slash(after))
}

/// Whether the subresource has no slash.
pub fn is_right_subresource(attributes: &Value) -> bool
    ensures { result ≡ told.is_right_subresource (view attributes.now) }
{
    !has_slash(text_in(attributes, "subresource"))
}

/// Whether the namespace of a local review is the one that it is in, if any is named.
pub fn is_right_namespace(kind: ReviewKind, namespace: &str, attributes: &Value) -> bool
    ensures { result ≡ told.is_right_namespace kind namespace.now (view attributes.now) }
{
    let asked = text_in(attributes, "namespace");
    !kind.is_local() || (asked.is_empty() || asked == namespace)
}
