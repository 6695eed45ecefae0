//! What is passed, read as a question.
ghost use Rattle.std.specs.Prelude.{◌≡◌, ◌==◌, ◌++◌, ◌∷◌, [], OnOk};
ghost use Rattle.std.specs.List.{after_first, before_first};
ghost use Rattle.kapi_text.specs.ResultIs.{ResultIs};
ghost use Rattle.kapi_c_requests.specs.Faults.{model_of_fault};
ghost use Rattle.kapi_c_requests.specs.Questions.{are_plain as plain_parts, has_slash as slash_in, identity_of, path_point as point_of_path, question_of, resource_of as point_of, resource_point as point_of_resource, text_of, texts_of};

use crate::fault::CallFault;
use crate::passed::{CQuestion, PassedText};
use kapi_lines::as_text;
use kapi_model::Identity;
use kapi_rules::{Point, ResourcePoint, UrlPoint};
use kapi_text::{Memory, Sequence, Text};
use std::alloc::Global;

/// Whether an identity may do something in a namespace, or cluster-wide if the namespace is empty.
#[derive(Drop)]
pub struct AccessQuestion {
    pub identity: Identity,
    pub namespace: Text,
    pub point: Point,
}

/// The text that bytes are.
#[tactic(auto, unfolding(crate::specs::Questions::text_of))]
pub fn text_in(bytes: &[u8]) -> Result<&str, CallFault>
    ensures { ResultIs model_of_fault (λ s. s.now) result (text_of bytes.now) }
{
    match as_text(bytes) {
        Some(text) => Ok(text),
        None => Err(CallFault::Text),
    }
}

/// The text that bytes are, to keep.
pub fn read_text(alloc: Global, bytes: &[u8]) -> Result<Text, CallFault>
    ensures { ResultIs model_of_fault (λ t. t) result (text_of bytes.now) }
{
    let text = text_in(bytes)?;
    Ok(Text::copy_of(alloc, text)?)
}

fn push(texts: &mut Vec<Text>, text: Text) -> Result<(), Memory>
    ensures { OnOk result (texts.new.items ≡ texts.old.items ++ text ∷ []) }
{
    texts.push(text)?;
    Ok(())
}

/// The texts that all of them are, to keep.
pub fn read_texts(alloc: Global, passed: &[PassedText<'_>]) -> Result<Sequence<Text>, CallFault>
    ensures { ResultIs model_of_fault (λ t. t) result (texts_of passed.now) }
{
    let mut texts = Vec::with_capacity(alloc, passed.len())?;
    for text in passed {
        match read_text(alloc, text.bytes) {
            Ok(text) => push(&mut texts, text)?,
            Err(fault) => return Err(fault),
        }
    }
    Ok(Sequence::new(texts))
}

fn has_slash(text: &str) -> bool
    ensures { result ≡ slash_in text.now }
{
    text.as_bytes().iter().any(|byte| *byte == b'/')
}

/// The text before the first slash, and the text after it.
#[tactic(auto, using(crate::proofs::Slashes::all_before, crate::proofs::Slashes::none_after))]
fn split_at_slash(text: &str) -> (&str, &str)
    ensures before { result.0.now ≡ before_first (λ b. b == 47) text.now }
    ensures after { result.1.now ≡ after_first (λ b. b == 47) text.now }
{
    match text.split_once('/') {
        Some(parts) => parts,
        None => (text, ""),
    }
}

/// The user and the groups, with nothing added.
#[tactic(auto, unfolding(crate::specs::Questions::identity_of))]
pub fn read_identity(alloc: Global, passed: &CQuestion<'_>) -> Result<Identity, CallFault>
    ensures { ResultIs model_of_fault (λ i. i) result (identity_of passed.now) }
{
    Ok(Identity {
        user: read_text(alloc, passed.user)?,
        groups: read_texts(alloc, passed.groups)?,
    })
}

/// The point of a path.
#[tactic(auto, unfolding(crate::specs::Questions::path_point))]
fn path_point(alloc: Global, passed: &CQuestion<'_>) -> Result<Point, CallFault>
    ensures { ResultIs model_of_fault (λ p. p) result (point_of_path passed.now) }
{
    Ok(Point::Url(UrlPoint {
        verb: read_text(alloc, passed.verb)?,
        path: read_text(alloc, passed.path)?,
    }))
}

/// The point of texts, if a review takes them.
fn resource_of(
    alloc: Global,
    verb: Text,
    group: Text,
    resource: &str,
    subresource: &str,
    name: Text,
) -> Result<Point, CallFault>
    ensures { ResultIs model_of_fault (λ p. p) result (point_of verb group resource.now subresource.now name) }
{
    if !are_plain(resource, subresource) {
        return Err(CallFault::Question);
    }
    let (first, rest) = split_at_slash(resource);
    let named = if subresource.is_empty() {
        rest
    } else {
        subresource
    };
    Ok(Point::Resource(ResourcePoint {
        verb,
        group,
        resource: Text::copy_of(alloc, first)?,
        subresource: Text::copy_of(alloc, named)?,
        name,
    }))
}

/// Whether only the resource has a slash, one at most, and none if a subresource is named.
fn are_plain(resource: &str, subresource: &str) -> bool
    ensures { result ≡ plain_parts resource.now subresource.now }
{
    let (_first, rest) = split_at_slash(resource);
    !has_slash(subresource)
        && (!has_slash(resource) || (subresource.is_empty() && !has_slash(rest)))
}

/// The point of a resource.
#[tactic(auto, unfolding(crate::specs::Questions::resource_point))]
fn resource_point(alloc: Global, passed: &CQuestion<'_>) -> Result<Point, CallFault>
    ensures { ResultIs model_of_fault (λ p. p) result (point_of_resource passed.now) }
{
    let verb = read_text(alloc, passed.verb)?;
    let group = read_text(alloc, passed.group)?;
    let resource = text_in(passed.resource)?;
    let subresource = text_in(passed.subresource)?;
    let name = read_text(alloc, passed.name)?;
    resource_of(alloc, verb, group, resource, subresource, name)
}

/// What the caller asks.
///
/// # Errors
/// `Text` if a text is no UTF-8, `Question` if a review refuses the resource, `Memory` if memory runs out.
#[tactic(auto, unfolding(crate::specs::Questions::question_of))]
pub fn read_question(alloc: Global, passed: &CQuestion<'_>) -> Result<AccessQuestion, CallFault>
    ensures { ResultIs model_of_fault (λ q. q) result (question_of passed.now) }
{
    let identity = read_identity(alloc, passed)?;
    if !passed.path.is_empty() {
        return Ok(AccessQuestion {
            identity,
            namespace: Text::copy_of(alloc, "")?,
            point: path_point(alloc, passed)?,
        });
    }
    let namespace = read_text(alloc, passed.namespace)?;
    Ok(AccessQuestion {
        identity,
        namespace,
        point: resource_point(alloc, passed)?,
    })
}
