ghost use Rattle.std.specs.Prelude.{◌≡◌, IfOk};
ghost use Rattle.serde_json.specs.View.{view};
ghost use Rattle.kapi_object.specs.Given.{given_of, text_given};
ghost use Rattle.kapi_object.specs.Tree.{member_of, metadata_member};

use crate::tree::member;
use kapi_text::{Memory, Text};
use serde_json::Value;
use std::alloc::Global;

/// The value of a member if a text is expected.
#[derive(Drop)]
pub enum GivenText {
    /// No value, or null.
    Absent,
    Text(Text),
    /// A value that is no text.
    Mistyped,
}

/// What an object's metadata specifies as its name, its namespace and its resource version.
#[derive(Drop)]
pub struct Given {
    pub name: GivenText,
    /// The namespace; absent for resource types without namespaces.
    pub namespace: GivenText,
    pub resource_version: GivenText,
}

/// The value of a key in an object.
fn member_given(alloc: Global, tree: &Value, key: &str) -> Result<GivenText, Memory>
    ensures { IfOk result (λ g. g ≡ text_given (member_of key.now (view tree.now))) }
{
    match member(tree, key) {
        Some(Value::String(text)) => Ok(GivenText::Text(Text::copy_of(alloc, text.as_str())?)),
        Some(_other) => Ok(GivenText::Mistyped),
        None => Ok(GivenText::Absent),
    }
}

/// The value of a key in the tree's metadata.
pub fn given_at(alloc: Global, tree: &Value, key: &str) -> Result<GivenText, Memory>
    ensures { IfOk result (λ g. g ≡ text_given (metadata_member key.now (view tree.now))) }
{
    match tree.get("metadata") {
        Some(metadata) => member_given(alloc, metadata, key),
        None => Ok(GivenText::Absent),
    }
}

/// What the tree's metadata specifies.
pub fn given_in(alloc: Global, tree: &Value) -> Result<Given, Memory>
    ensures { IfOk result (λ g. g ≡ given_of (view tree.now)) }
{
    let Some(metadata) = tree.get("metadata") else {
        return Ok(Given {
            name: GivenText::Absent,
            namespace: GivenText::Absent,
            resource_version: GivenText::Absent,
        });
    };
    Ok(Given {
        name: member_given(alloc, metadata, "name")?,
        namespace: member_given(alloc, metadata, "namespace")?,
        resource_version: member_given(alloc, metadata, "resourceVersion")?,
    })
}
