//! What the segments of a path are about (Kubernetes, 'Authorization Overview', request attributes and verbs).
ghost use Rattle.std.specs.Prelude.{◌≡◌, IfOk, string_bytes, flat_map, ◌∷◌};
ghost use Rattle.kapi_text.specs.ResultIs.{ResultIs};
ghost use Rattle.kapi_request_info.specs.Faults.{fault_of};
ghost use Rattle.kapi_request_info.specs.Given.{GivesInfo};
ghost use Rattle.kapi_request_info.specs.Resource.{part as part_of, is_namespace_subresource as is_namespace_subresource_of, namespace_and_parts as namespace_and_parts_of};
ghost use Rattle.kapi_request_info.specs.Resource.{watched as watched_of, watched_by as watched_by_of, collection_read as collection_read_of, selector_name as selector_name_of, verb_and_name as verb_and_name_of, url_verb as url_verb_of, ends_in_slash as ends_in_slash_of, url_path as url_path_of};
ghost use Rattle.kapi_request_info.specs.Resource.{resource_attributes as resource_attributes_of, url_attributes as url_attributes_of, attributes_by as attributes_by_of};

use crate::attributes::{Attributes, InfoError};
use crate::path::Segment;
use crate::query::{QueryPair, query_value};
use crate::selector::selected_name;
use kapi_http::Method;
use kapi_rules::{Point, ResourcePoint, UrlPoint};
use kapi_text::{Memory, Sequence, Text};
use std::alloc::Global;

/// The attributes of a request by the segments of its path: `/api/VERSION/..` and `/apis/GROUP/VERSION/..` are about a
/// resource.
#[tactic(auto, unfolding(crate::specs::Resource::attributes_by))]
pub fn attributes_by(
    alloc: Global,
    method: Method,
    path: &[u8],
    segments: &[Segment<'_>],
    query: Sequence<QueryPair>,
) -> Result<Attributes, InfoError>
    ensures { GivesInfo result (attributes_by_of method path.now segments.now query) }
{
    match segments {
        [first, version, rest @ ..] if first.as_str() == "api" && !rest.is_empty() => {
            resource_attributes(alloc, method, "", version.as_str(), rest, query)
        }
        [first, group, version, rest @ ..] if first.as_str() == "apis" && !rest.is_empty() => {
            resource_attributes(alloc, method, group.as_str(), version.as_str(), rest, query)
        }
        _ => Ok(url_attributes(alloc, method, path, segments, query)?),
    }
}

/// The attributes of a request about a resource of a group and version.
fn resource_attributes(
    alloc: Global,
    method: Method,
    group: &str,
    version: &str,
    rest: &[Segment<'_>],
    query: Sequence<QueryPair>,
) -> Result<Attributes, InfoError>
    ensures { GivesInfo result (resource_attributes_of method group.now version.now rest.now query) }
{
    let (namespace, parts) = namespace_and_parts(rest);
    let (verb, name) = verb_and_name(method, part(parts, 1), query.as_slice())?;
    let point = resource_point(alloc, verb, group, parts, name)?;
    Ok(Attributes {
        namespace: Text::copy_of(alloc, namespace)?,
        point: Point::Resource(point),
        version: Text::copy_of(alloc, version)?,
        parts: parts.len(),
        query,
    })
}

/// The point of a request about the resource, and the subresource if any, that the parts name.
fn resource_point(
    alloc: Global,
    verb: &str,
    group: &str,
    parts: &[Segment<'_>],
    name: &str,
) -> Result<ResourcePoint, Memory>
    ensures { IfOk result (λ p. p ≡ record { verb = verb.now; group = group.now; resource = part_of parts.now 0; subresource = part_of parts.now 2; name = name.now }) }
{
    Ok(ResourcePoint {
        verb: Text::copy_of(alloc, verb)?,
        group: Text::copy_of(alloc, group)?,
        resource: Text::copy_of(alloc, part(parts, 0))?,
        subresource: Text::copy_of(alloc, part(parts, 2))?,
        name: Text::copy_of(alloc, name)?,
    })
}

/// The namespace and the parts from the resource on: below `namespaces/NAME` are the resources of that namespace, but
/// for the namespace's own subresources.
#[tactic(auto, unfolding(crate::specs::Resource::namespace_and_parts))]
fn namespace_and_parts<'a, 'p>(rest: &'a [Segment<'p>]) -> (&'a str, &'a [Segment<'p>])
    ensures { (result.0.now, result.1.now) ≡ namespace_and_parts_of rest.now }
{
    match rest {
        [first, namespace, below @ ..] if first.as_str() == "namespaces" => match below {
            [third, ..] if !is_namespace_subresource(third.as_str()) => (namespace.as_str(), below),
            _ => (namespace.as_str(), rest),
        },
        _ => ("", rest),
    }
}

fn is_namespace_subresource(segment: &str) -> bool
    ensures { result ≡ is_namespace_subresource_of segment.now }
{
    segment == "status" || segment == "finalize"
}

/// The part at an index, empty if there is none.
fn part<'a>(parts: &'a [Segment<'_>], index: usize) -> &'a str
    ensures { result.now ≡ part_of parts.now index }
{
    match parts.get(index) {
        Some(part) => part.as_str(),
        None => "",
    }
}

/// The verb and the name of a request about a resource of this name, which is empty for a collection.
#[tactic(auto, unfolding(crate::specs::Resource::verb_and_name))]
fn verb_and_name<'a>(
    method: Method,
    name: &'a str,
    query: &'a [QueryPair],
) -> Result<(&'static str, &'a str), InfoError>
    ensures { ResultIs fault_of (λ p. (p.0.now, p.1.now)) result (verb_and_name_of method name.now query.now) }
{
    match method {
        Method::Get => {
            if name.is_empty() {
                collection_read(query)
            } else {
                Ok(("get", name))
            }
        }
        Method::Post => Ok(("create", name)),
        Method::Put => Ok(("update", name)),
        Method::Patch => Ok(("patch", name)),
        Method::Delete => {
            if name.is_empty() {
                Ok(("deletecollection", name))
            } else {
                Ok(("delete", name))
            }
        }
    }
}

/// The verb and the name of a read of a collection, narrowed to the name that a field selector specifies.
#[tactic(auto, unfolding(crate::specs::Resource::collection_read))]
fn collection_read(query: &[QueryPair]) -> Result<(&'static str, &str), InfoError>
    ensures { ResultIs fault_of (λ p. (p.0.now, p.1.now)) result (collection_read_of query.now) }
{
    if is_watched(query)? {
        Ok(("watch", selector_name(query)))
    } else {
        Ok(("list", selector_name(query)))
    }
}

fn is_watched(query: &[QueryPair]) -> Result<bool, InfoError>
    ensures { ResultIs fault_of (λ b. b) result (watched_of query.now) }
{
    match query_value(query, "watch") {
        Some(value) => is_watched_by(value),
        None => Ok(false),
    }
}

/// Whether a Boolean of a query is true.
#[tactic(auto, unfolding(crate::specs::Resource::watched_by))]
fn is_watched_by(value: &str) -> Result<bool, InfoError>
    ensures { ResultIs fault_of (λ b. b) result (watched_by_of value.now) }
{
    if value == "true" || value == "1" {
        Ok(true)
    } else if value == "false" || value == "0" {
        Ok(false)
    } else {
        Err(InfoError::BadQuery)
    }
}

/// The name that the field selector of a query asks for, empty if there is none.
fn selector_name(query: &[QueryPair]) -> &str
    ensures { result.now ≡ selector_name_of query.now }
{
    match query_value(query, "fieldSelector") {
        Some(selector) => selected_name(selector).unwrap_or(""),
        None => "",
    }
}

/// The attributes of a request about no resource: its path has its segments decoded.
fn url_attributes(
    alloc: Global,
    method: Method,
    path: &[u8],
    segments: &[Segment<'_>],
    query: Sequence<QueryPair>,
) -> Result<Attributes, Memory>
    ensures { IfOk result (λ a. a ≡ url_attributes_of method path.now segments.now query) }
{
    Ok(Attributes {
        namespace: Text::copy_of(alloc, "")?,
        point: Point::Url(UrlPoint {
            verb: Text::copy_of(alloc, url_verb(method))?,
            path: url_path(alloc, path, segments)?,
        }),
        version: Text::copy_of(alloc, "")?,
        parts: 0,
        query,
    })
}

/// The verb of a request about no resource: its method in lower case.
#[tactic(auto, unfolding(crate::specs::Resource::url_verb))]
fn url_verb(method: Method) -> &'static str
    ensures { result.now ≡ url_verb_of method }
{
    match method {
        Method::Get => "get",
        Method::Post => "post",
        Method::Put => "put",
        Method::Patch => "patch",
        Method::Delete => "delete",
    }
}

/// A path with its segments decoded; it keeps its last slash.
fn url_path(alloc: Global, path: &[u8], segments: &[Segment<'_>]) -> Result<Text, Memory>
    ensures { IfOk result (λ t. t ≡ url_path_of path.now segments.now) }
{
    let mut text = slashed(alloc, segments)?;
    if ends_in_slash(path) {
        text.push_str("/")?;
    }
    Ok(Text::new(text))
}

fn ends_in_slash(path: &[u8]) -> bool
    ensures { result ≡ ends_in_slash_of path.now }
{
    path.ends_with(b"/")
}

fn slashed(alloc: Global, segments: &[Segment<'_>]) -> Result<String, Memory>
    ensures { IfOk result (λ t. string_bytes t ≡ flat_map (λ s. 47 ∷ s) segments.now) }
{
    let mut text = String::new(alloc);
    for segment in segments {
        text.push('/')?;
        text.push_str(segment.as_str())?;
    }
    Ok(text)
}
