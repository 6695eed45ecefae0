//! Events of a cluster's audit log, one a line, and the uses that they show.
ghost use Rattle.std.specs.Prelude.{◌≡◌, ◌++◌, ◌∷◌, [], IfOk, OnOk, map};
ghost use Rattle.serde_json.specs.Data.{null};
ghost use Rattle.serde_json.specs.View.{view};
ghost use Rattle.kapi_text.specs.ResultIs.{ResultIs};
ghost use Rattle.kapi_lines.specs.Lines.{line_of};
ghost use Rattle.kapi_access.specs.Lines.{model_of_fault};
ghost use Rattle.kapi_reviews.specs.Attributes.{has_slash as has_slash_of};
ghost use Rattle.kapi_reviews.specs.Questions.{at as at_of};
ghost use Rattle.kapi_suggest.specs.Events as shows;

use kapi_access::LineFault;
use kapi_lines::Line;
use kapi_model::Identity;
use kapi_object::table_faults::text_in;
use kapi_object::tree_form::{read_list, read_text};
use kapi_object::{ObjectError, member, read_tree};
use kapi_reviews::Question;
use kapi_rules::{Point, ResourcePoint, UrlPoint};
use kapi_text::{Memory, Text};
use serde_json::Value;
use std::alloc::{AllocError, Global};

/// What a line of an audit log shows.
#[derive(Drop)]
pub enum Shown {
    /// A request that was allowed.
    Used(Question),
    /// A request that was forbidden.
    Refused(Question),
    /// The event is not of a request that was decided, or not the last of it.
    Nothing,
    /// The line is no event, or one of no user or of a resource with a slash.
    NoEvent,
}

fn says(tree: &Value, key: &str, text: &str) -> bool
    ensures { result ≡ shows.says key.now text.now (view tree.now) }
{
    text_in(tree, key) == text
}

fn is_event(tree: &Value) -> bool
    ensures { result ≡ shows.is_event (view tree.now) }
{
    says(tree, "kind", "Event") && says(tree, "apiVersion", "audit.k8s.io/v1")
}

/// The member of a key, or null.
fn at<'a>(tree: &'a Value, key: &str, nothing: &'a Value) -> &'a Value
    requires { view nothing.now ≡ null }
    ensures { view result.now ≡ at_of key.now (view tree.now) }
{
    match member(tree, key) {
        Some(value) => value,
        None => nothing,
    }
}

/// Whether the request was decided so and is answered.
fn is_decided(decision: &str, tree: &Value) -> bool
    ensures { result ≡ shows.is_decided decision.now (view tree.now) }
{
    let nothing = Value::Null;
    let annotations = at(tree, "annotations", &nothing);
    says(tree, "stage", "ResponseComplete")
        && says(annotations, "authorization.k8s.io/decision", decision)
}

fn identity_in(alloc: Global, tree: &Value) -> Result<Identity, Memory>
    ensures { IfOk result (λ i. i ≡ shows.identity_in (view tree.now)) }
{
    Ok(Identity {
        user: read_text(alloc, tree, "username")?,
        groups: read_list(alloc, tree, "groups")?,
    })
}

/// Who made the request: whom the user impersonates, if anybody.
fn who(alloc: Global, tree: &Value) -> Result<Identity, Memory>
    ensures { IfOk result (λ i. i ≡ shows.identity_in (shows.who (view tree.now))) }
{
    let nothing = Value::Null;
    match member(tree, "impersonatedUser") {
        Some(user) => identity_in(alloc, user),
        None => identity_in(alloc, at(tree, "user", &nothing)),
    }
}

fn is_unnamed(verb: &str, reference: &Value) -> bool
    ensures { result ≡ shows.is_unnamed verb.now (view reference.now) }
{
    verb == "create" && text_in(reference, "subresource").is_empty()
}

/// The name that was asked about: a create is allowed before its object has one.
fn name_in(alloc: Global, verb: &str, reference: &Value) -> Result<Text, Memory>
    ensures { IfOk result (λ t. t ≡ shows.name_in verb.now (view reference.now)) }
{
    if is_unnamed(verb, reference) {
        return Text::copy_of(alloc, "");
    }
    read_text(alloc, reference, "name")
}

fn resource_point(alloc: Global, verb: &str, reference: &Value) -> Result<Point, Memory>
    ensures { IfOk result (λ p. p ≡ shows.resource_point verb.now (view reference.now)) }
{
    Ok(Point::Resource(ResourcePoint {
        verb: Text::copy_of(alloc, verb)?,
        group: read_text(alloc, reference, "apiGroup")?,
        resource: read_text(alloc, reference, "resource")?,
        subresource: read_text(alloc, reference, "subresource")?,
        name: name_in(alloc, verb, reference)?,
    }))
}

/// The path of a target, without its query.
#[tactic(auto, using(crate::proofs::Targets::all_before))]
fn path_of(target: &str) -> &str
    ensures { result.now ≡ shows.path_of target.now }
{
    match target.split_once('?') {
        Some((path, _query)) => path,
        None => target,
    }
}

fn url_point(alloc: Global, tree: &Value) -> Result<Point, Memory>
    ensures { IfOk result (λ p. p ≡ shows.url_point (view tree.now)) }
{
    Ok(Point::Url(UrlPoint {
        verb: read_text(alloc, tree, "verb")?,
        path: Text::copy_of(alloc, path_of(text_in(tree, "requestURI")))?,
    }))
}

/// The use that an event of an allowed request is.
#[tactic(auto, unfolding(crate::specs::Events::use_of))]
fn use_of(alloc: Global, tree: &Value) -> Result<Question, Memory>
    ensures { IfOk result (λ q. q ≡ shows.use_of (view tree.now)) }
{
    let identity = who(alloc, tree)?;
    let Some(reference) = member(tree, "objectRef") else {
        return Ok(Question {
            identity,
            namespace: Text::copy_of(alloc, "")?,
            point: url_point(alloc, tree)?,
        });
    };
    Ok(Question {
        identity,
        namespace: read_text(alloc, reference, "namespace")?,
        point: resource_point(alloc, text_in(tree, "verb"), reference)?,
    })
}

fn has_slash(text: &str) -> bool
    ensures { result ≡ has_slash_of text.now }
{
    text.as_bytes().iter().any(|byte| *byte == b'/')
}

fn has_slashed_resource(request: &Point) -> bool
    ensures { result ≡ shows.has_slashed_resource request.now }
{
    match request {
        Point::Resource(point) => has_slash(point.resource.as_str()),
        Point::Url(_point) => false,
    }
}

fn is_right(used: &Question) -> bool
    ensures { result ≡ shows.is_right used.now }
{
    !used.identity.user.as_str().is_empty() && !has_slashed_resource(&used.point)
}

fn used_if(used: Question) -> Shown
    ensures { result ≡ shows.used_if used }
{
    if is_right(&used) {
        Shown::Used(used)
    } else {
        Shown::NoEvent
    }
}

fn refused_if(request: Question) -> Shown
    ensures { result ≡ shows.refused_if request }
{
    if is_right(&request) {
        Shown::Refused(request)
    } else {
        Shown::NoEvent
    }
}

#[tactic(auto, unfolding(crate::specs::Events::shown_by))]
fn shown_by(alloc: Global, tree: &Value) -> Result<Shown, Memory>
    ensures { IfOk result (λ s. s ≡ shows.shown_by (view tree.now)) }
{
    if !is_event(tree) {
        return Ok(Shown::NoEvent);
    }
    if is_decided("allow", tree) {
        return Ok(used_if(use_of(alloc, tree)?));
    }
    if is_decided("forbid", tree) {
        return Ok(refused_if(use_of(alloc, tree)?));
    }
    Ok(Shown::Nothing)
}

/// What a line of an audit log shows: the last event of an allowed request is a use.
pub fn read_event(alloc: Global, line: &[u8]) -> Result<Shown, Memory>
    ensures { IfOk result (λ s. s ≡ shows.shown_in line.now) }
{
    match read_tree(alloc, line) {
        Ok(tree) => shown_by(alloc, &tree),
        Err(ObjectError::Memory) => Err(AllocError),
        Err(_other) => Ok(Shown::NoEvent),
    }
}

fn push_use(uses: &mut Vec<Question>, used: Question) -> Result<(), Memory>
    ensures { OnOk result (uses.new.items ≡ uses.old.items ++ used ∷ []) }
{
    uses.push(used)?;
    Ok(())
}

/// Puts what a line shows at the end.
fn push_event(alloc: Global, uses: &mut Vec<Question>, line: &Line<'_>) -> Result<(), LineFault>
    ensures { ResultIs model_of_fault (λ u. uses.new.items) result (shows.with_line uses.old.items (line_of line.now)) }
{
    match read_event(alloc, line.text)? {
        Shown::Used(used) => push_use(uses, used)?,
        Shown::Refused(_request) => {}
        Shown::Nothing => {}
        Shown::NoEvent => return Err(LineFault::Question(line.number)),
    }
    Ok(())
}

/// The uses that the lines of an audit log show, in their order.
///
/// # Errors
/// `Question` at the first line that is no event, `Memory` if memory runs out.
pub fn read_events(alloc: Global, lines: &[Line<'_>]) -> Result<Vec<Question>, LineFault>
    ensures { ResultIs model_of_fault (λ v. v.items) result (shows.uses_in [] (map line_of lines.now)) }
{
    let mut uses = Vec::new(alloc);
    for line in lines {
        match push_event(alloc, &mut uses, line) {
            Ok(()) => {}
            Err(fault) => return Err(fault),
        }
    }
    Ok(uses)
}
