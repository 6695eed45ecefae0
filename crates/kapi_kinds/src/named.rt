//! A resource type that an object of a file names.
ghost use Rattle.std.specs.Prelude.{◌≡◌, not, IfOk, is_some};
ghost use Rattle.kapi_kinds.specs.Rows as rows;
ghost use Rattle.kapi_kinds.specs.Rows.{is_added, row_named};

use crate::fault::Reason;
use kapi_model::{RBAC_GROUP, ResourceRow, Schema, check_namespace_name, check_object_name};
use kapi_text::{Memory, Text};
use std::alloc::Global;

/// The group of reviews.
const REVIEWS_GROUP: &str = "authorization.k8s.io";

/// A resource type by its names.
#[derive(Clone, Copy)]
pub struct Named<'a> {
    /// The API group, empty for the core group.
    pub group: &'a str,
    pub version: &'a str,
    /// The resource's name in paths, in the plural.
    pub resource: &'a str,
    pub kind: &'a str,
    pub namespaced: bool,
    pub has_status: bool,
}

impl Named<'_> {
    /// The resource type in a table.
    pub fn row(&self, alloc: Global) -> Result<ResourceRow, Memory>
        ensures { IfOk result (λ r. r ≡ row_named self.now) }
    {
        Ok(ResourceRow {
            group: Text::copy_of(alloc, self.group)?,
            version: Text::copy_of(alloc, self.version)?,
            plural: Text::copy_of(alloc, self.resource)?,
            kind: Text::copy_of(alloc, self.kind)?,
            namespaced: self.namespaced,
            has_status: self.has_status,
            schema: Schema::Open,
        })
    }

    /// Why the resource type may not be added to a table, if it may not.
    pub fn fault(&self, alloc: Global) -> Result<Option<Reason>, Memory>
        ensures { IfOk result (λ o. is_some o ≡ not (is_added (row_named self.now))) }
    {
        if is_reserved(self.group) {
            return Ok(Some(Reason::Reserved(Text::copy_of(alloc, self.group)?)));
        }
        if !is_group(self.group) {
            return Ok(Some(Reason::Wanted("group: empty or a DNS subdomain")));
        }
        if !check_namespace_name(self.version) {
            return Ok(Some(Reason::Wanted("version: a DNS label")));
        }
        if !check_namespace_name(self.resource) {
            return Ok(Some(Reason::Wanted("resource: a DNS label")));
        }
        if !is_kind(alloc, self.kind)? {
            return Ok(Some(Reason::Wanted(
                "kind: a name that begins with a letter, and a DNS label in lower case",
            )));
        }
        Ok(None)
    }
}

/// Whether the group has the resource types of the programs alone.
fn is_reserved(group: &str) -> bool
    ensures { result ≡ rows.is_reserved group.now }
{
    group == RBAC_GROUP || group == REVIEWS_GROUP
}

/// Whether a text is a name of a group: that of the core group, or a DNS subdomain.
fn is_group(group: &str) -> bool
    ensures { result ≡ rows.is_group group.now }
{
    group.is_empty() || check_object_name(group)
}

/// Whether a text is a name of a kind: it begins with a letter, and is a DNS label in lower case.
fn is_kind(alloc: Global, kind: &str) -> Result<bool, Memory>
    ensures { IfOk result (λ b. b ≡ rows.is_kind kind.now) }
{
    let mut lower = String::from_str(alloc, kind)?;
    lower.make_ascii_lowercase();
    Ok(begins_with_letter(kind.as_bytes()) && check_namespace_name(lower.as_str()))
}

fn begins_with_letter(text: &[u8]) -> bool
    ensures { result ≡ rows.begins_with_letter text.now }
{
    match text {
        [first, ..] => first.is_ascii_alphabetic(),
        [] => false,
    }
}
