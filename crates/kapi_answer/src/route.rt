ghost use Rattle.std.specs.Prelude.{◌≡◌, find};
ghost use Rattle.std.specs.Option.{option_copied};
ghost use Rattle.kapi_answer.specs.Route as routes;
ghost use Rattle.kapi_answer.specs.Route.{routed};
ghost use Rattle.kapi_answer.specs.Routes.{Routes};

use kapi_http::Method;
use kapi_model::ResourceRow;
use kapi_reply::{Place, Refusal, Refused};
use kapi_request_info::Attributes;
use kapi_rules::{Point, ResourcePoint};
use kapi_store::Store;

/// Which part of an object is read or written.
#[derive(Clone, Copy, PartialEq, Eq)]
pub enum ObjectPart {
    /// All but the status, if that is a subresource.
    Object,
    Status,
}

/// The action at a place (Kubernetes, 'Kubernetes API Concepts', API verbs).
#[derive(Clone, Copy, PartialEq, Eq)]
pub enum Action {
    Create,
    Delete,
    DeleteCollection,
    Get,
    List,
    Patch(ObjectPart),
    Update(ObjectPart),
    Watch,
}

/// A resource request that is served: its resource type, its point and its action.
#[derive(Clone, Copy)]
pub struct ResourceRoute<'a> {
    pub row: &'a ResourceRow,
    pub point: &'a ResourcePoint,
    pub action: Action,
}

/// A request that is served.
#[derive(Clone, Copy)]
pub enum Route<'a> {
    /// A health request.
    Health,
    Resource(ResourceRoute<'a>),
}

/// Finds the resource type, the place and the action of a request.
#[tactic(auto, unfolding(crate::specs::Route::routed))]
pub fn find_route<'a>(
    store: &'a Store,
    method: Method,
    attributes: &'a Attributes,
) -> Result<Route<'a>, Refused>
    ensures { Routes result (routed store.now.table method attributes.now) }
{
    match &attributes.point {
        Point::Url(point) => path_route(method, point.path.as_str()),
        Point::Resource(point) => match find_row(store, attributes, point) {
            Some(row) => route_on_row(row, method, attributes, point),
            None => Err(Refused::asked_for(Refusal::NoSuchResource)),
        },
    }
}

/// The route of a path of no resource.
fn path_route<'a>(method: Method, path: &str) -> Result<Route<'a>, Refused>
    ensures { Routes result (routes.at_path method path.now) }
{
    if is_health(path) {
        health_route(method)
    } else {
        Err(Refused::asked_for(Refusal::NoSuchResource))
    }
}

/// Whether a path is one of health requests (Kubernetes, 'Kubernetes API health endpoints').
fn is_health(path: &str) -> bool
    ensures { result ≡ routes.is_health path.now }
{
    path == "/healthz" || (path == "/livez" || path == "/readyz")
}

#[tactic(auto, unfolding(crate::specs::Route::read_health))]
fn health_route<'a>(method: Method) -> Result<Route<'a>, Refused>
    ensures { Routes result (routes.read_health method) }
{
    match method {
        Method::Get => Ok(Route::Health),
        Method::Post | Method::Put | Method::Patch | Method::Delete => {
            Err(Refused::asked_for(Refusal::MethodNotAllowed(Place::Health)))
        }
    }
}

/// The resource type of the request's group, version and resource.
fn find_row<'a>(
    store: &'a Store,
    attributes: &Attributes,
    point: &ResourcePoint,
) -> Option<&'a ResourceRow>
    ensures { option_copied result ≡ find (routes.is_row_of attributes.now.version point.now) store.now.table }
{
    store.row(&point.group, &attributes.version, &point.resource)
}

#[tactic(auto, unfolding(crate::specs::Route::on_row))]
fn route_on_row<'a>(
    row: &'a ResourceRow,
    method: Method,
    attributes: &Attributes,
    point: &'a ResourcePoint,
) -> Result<Route<'a>, Refused>
    ensures { Routes result (routes.on_row row.now method attributes.now point.now) }
{
    let Some(place) = place_on(row, attributes, point) else {
        return Err(Refused::asked_for(Refusal::NoSuchResource));
    };
    let action = action_at(place, point.verb.as_str(), method)?;
    Ok(Route::Resource(ResourceRoute { row, point, action }))
}

/// The place of a path for a resource type.
#[tactic(auto, unfolding(crate::specs::Route::place_on))]
fn place_on(row: &ResourceRow, attributes: &Attributes, point: &ResourcePoint) -> Option<Place>
    ensures { result ≡ routes.place_on row.now attributes.now point.now }
{
    if is_review_group(row) {
        reviews_place(row, attributes)
    } else {
        place_of(row, attributes, point)
    }
}

/// Whether the resource type is one of reviews (Kubernetes API, authorization.k8s.io/v1).
pub fn is_review_group(row: &ResourceRow) -> bool
    ensures { result ≡ routes.is_review_group row.now }
{
    row.group.as_str() == "authorization.k8s.io"
}

/// The place of reviews, which are made in a namespace exactly if the resource type has them, and have no name.
fn reviews_place(row: &ResourceRow, attributes: &Attributes) -> Option<Place>
    ensures { result ≡ routes.reviews_place row.now attributes.now }
{
    let in_namespace = !attributes.namespace.as_str().is_empty();
    if attributes.parts == 1 && row.namespaced == in_namespace {
        Some(Place::Reviews)
    } else {
        None
    }
}

/// The place of a path: one part is a collection, two are an object, three are its subresource.
#[tactic(auto, unfolding(crate::specs::Route::place_of))]
fn place_of(row: &ResourceRow, attributes: &Attributes, point: &ResourcePoint) -> Option<Place>
    ensures { result ≡ routes.place_of row.now attributes.now point.now }
{
    if attributes.parts == 1 {
        return collection_of(row, attributes);
    }
    if !has_right_namespace(row, attributes, point) {
        return None;
    }
    match attributes.parts {
        2 => Some(Place::Object),
        3 => subresource_of(row, point),
        _ => None,
    }
}

/// The place of a collection: for a namespaced resource type that of one namespace or of all.
#[tactic(auto, unfolding(crate::specs::Route::collection_of))]
fn collection_of(row: &ResourceRow, attributes: &Attributes) -> Option<Place>
    ensures { result ≡ routes.collection_of row.now attributes.now }
{
    match (row.namespaced, attributes.namespace.as_str().is_empty()) {
        (true, true) => Some(Place::AllNamespaces),
        (true, false) => Some(Place::Collection),
        (false, true) if is_of_namespaces(row) => Some(Place::Namespaces),
        (false, true) => Some(Place::Collection),
        (false, false) => None,
    }
}

/// The place of a subresource: the status is the only one.
fn subresource_of(row: &ResourceRow, point: &ResourcePoint) -> Option<Place>
    ensures { result ≡ routes.subresource_of row.now point.now }
{
    if row.has_status && point.subresource.as_str() == "status" {
        Some(Place::Status)
    } else {
        None
    }
}

/// Whether the path of an object has a namespace exactly if the resource type lives in namespaces.
fn has_right_namespace(row: &ResourceRow, attributes: &Attributes, point: &ResourcePoint) -> bool
    ensures { result ≡ routes.has_right_namespace row.now attributes.now point.now }
{
    let namespace = attributes.namespace.as_str();
    if row.namespaced {
        !namespace.is_empty()
    } else {
        namespace.is_empty() || is_own_namespace(row, attributes, point)
    }
}

/// Whether a path names a namespace twice: as the object and as the namespace.
fn is_own_namespace(row: &ResourceRow, attributes: &Attributes, point: &ResourcePoint) -> bool
    ensures { result ≡ routes.is_own_namespace row.now attributes.now point.now }
{
    is_of_namespaces(row) && (attributes.parts >= 2 && point.name == attributes.namespace)
}

fn is_of_namespaces(row: &ResourceRow) -> bool
    ensures { result ≡ routes.is_of_namespaces row.now }
{
    row.group.as_str().is_empty() && row.plural.as_str() == "namespaces"
}

/// What a method does at a place that serves it.
#[tactic(auto, unfolding(crate::specs::Route::action_at))]
fn action_at(place: Place, verb: &str, method: Method) -> Result<Action, Refused>
    ensures { result ≡ routes.action_at place verb.now method }
{
    match (place, method) {
        (Place::Collection | Place::Namespaces | Place::AllNamespaces, Method::Get) => {
            Ok(read_action(verb))
        }
        (Place::Collection | Place::Namespaces | Place::Reviews, Method::Post) => {
            Ok(Action::Create)
        }
        (Place::Collection, Method::Delete) => Ok(Action::DeleteCollection),
        (Place::Object | Place::Status, Method::Get) => Ok(Action::Get),
        (Place::Object, Method::Put) => Ok(Action::Update(ObjectPart::Object)),
        (Place::Object, Method::Patch) => Ok(Action::Patch(ObjectPart::Object)),
        (Place::Object, Method::Delete) => Ok(Action::Delete),
        (Place::Status, Method::Put) => Ok(Action::Update(ObjectPart::Status)),
        (Place::Status, Method::Patch) => Ok(Action::Patch(ObjectPart::Status)),
        (place, _) => Err(Refused::asked_for(Refusal::MethodNotAllowed(place))),
    }
}

/// A collection is read at once or watched, as its verb says.
fn read_action(verb: &str) -> Action
    ensures { result ≡ routes.read_action verb.now }
{
    if verb == "watch" {
        Action::Watch
    } else {
        Action::List
    }
}
