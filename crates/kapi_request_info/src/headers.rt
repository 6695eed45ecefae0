//! The impersonation that the header fields of a request name (Kubernetes, 'Authenticating', 'User impersonation').
ghost use Rattle.std.specs.Prelude.{◌≡◌};
ghost use Rattle.std.specs.List.{list_any};
ghost use Rattle.kapi_text.specs.ResultIs.{ResultIs};
ghost use Rattle.kapi_request_info.specs.Fields.{is_named as is_named_by};
ghost use Rattle.kapi_request_info.specs.Impersonation as fields;
ghost use Rattle.kapi_request_info.specs.Impersonation.{misuse_of};

use crate::impersonated::{Impersonation, ImpersonationError};
use crate::path::text_in;
use kapi_http::{Header, eq_ignore_ascii_case};
use kapi_text::{Sequence, Text, TryCopy};
use std::alloc::Global;

/// Whether a field has that name, in any case.
pub fn is_named(header: &Header, name: &[u8]) -> bool
    ensures { result ≡ is_named_by name.now header.now }
{
    eq_ignore_ascii_case(header.name.as_str().as_bytes(), name)
}

/// The impersonation that a request with these header fields asks for, if any.
#[tactic(auto, unfolding(crate::specs::Impersonation::impersonation))]
pub fn impersonation(
    alloc: Global,
    headers: &[Header],
) -> Result<Option<Impersonation>, ImpersonationError>
    ensures { ResultIs misuse_of (λ o. o) result (fields.impersonation headers.now) }
{
    if some_is_other(headers) {
        return Err(ImpersonationError::BadHeaders);
    }
    named(alloc, headers)
}

/// The user and the groups that the fields name.
#[tactic(auto, unfolding(crate::specs::Impersonation::named))]
fn named(alloc: Global, headers: &[Header]) -> Result<Option<Impersonation>, ImpersonationError>
    ensures { ResultIs misuse_of (λ o. o) result (fields.named headers.now) }
{
    let users = names_in(alloc, b"impersonate-user", headers)?;
    let groups = names_in(alloc, b"impersonate-group", headers)?;
    meant(alloc, users.as_slice(), groups)
}

fn some_is_other(headers: &[Header]) -> bool
    ensures { result ≡ list_any fields.is_other headers.now }
{
    headers.iter().any(|header| is_other(header))
}

/// Whether a field of the impersonation family names neither a user nor a group.
fn is_other(header: &Header) -> bool
    ensures { result ≡ fields.is_other header.now }
{
    is_impersonation(header) && !names_someone(header)
}

fn is_impersonation(header: &Header) -> bool
    ensures { result ≡ fields.is_impersonation header.now }
{
    let name = header.name.as_str().as_bytes();
    if name.len() < 12 {
        return false;
    }
    let (front, _) = name.split_at(12);
    eq_ignore_ascii_case(front, b"impersonate-")
}

fn names_someone(header: &Header) -> bool
    ensures { result ≡ fields.names_someone header.now }
{
    is_named(header, b"impersonate-user") || is_named(header, b"impersonate-group")
}

/// The values of the fields of a name, each of which is a user's or a group's name.
#[tactic(auto, unfolding(crate::specs::Impersonation::names_in))]
fn names_in(alloc: Global, name: &[u8], headers: &[Header]) -> Result<Vec<Text>, ImpersonationError>
    ensures { ResultIs misuse_of (λ v. v.items) result (fields.names_in name.now headers.now) }
{
    let mut names = Vec::new(alloc);
    for header in headers {
        if is_named(header, name) {
            names.push(name_in(alloc, header.value.as_slice())?)?;
        }
    }
    Ok(names)
}

/// A value that is the name of a user or a group.
fn name_in(alloc: Global, value: &[u8]) -> Result<Text, ImpersonationError>
    ensures { ResultIs misuse_of (λ t. t) result (fields.name_in value.now) }
{
    if value.is_empty() {
        return Err(ImpersonationError::BadHeaders);
    }
    match text_in(value) {
        Some(text) => Ok(Text::copy_of(alloc, text)?),
        None => Err(ImpersonationError::BadHeaders),
    }
}

/// One user and the groups, or none.
#[tactic(auto, unfolding(crate::specs::Impersonation::meant))]
fn meant(
    alloc: Global,
    users: &[Text],
    groups: Vec<Text>,
) -> Result<Option<Impersonation>, ImpersonationError>
    ensures { ResultIs misuse_of (λ o. o) result (fields.meant users.now groups.items) }
{
    match users {
        [] => nobody(groups.as_slice()),
        [user] => Ok(Some(Impersonation {
            user: user.copy(alloc)?,
            groups: Sequence::new(groups),
        })),
        _ => Err(ImpersonationError::BadHeaders),
    }
}

/// No impersonation, if no groups are named; groups without a user are an error.
fn nobody(groups: &[Text]) -> Result<Option<Impersonation>, ImpersonationError>
    ensures { ResultIs misuse_of (λ o. o) result (fields.nobody groups.now) }
{
    if groups.is_empty() {
        Ok(None)
    } else {
        Err(ImpersonationError::BadHeaders)
    }
}
