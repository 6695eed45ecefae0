//! What a resource request that passes all checks but the store's answers or changes, by its action.
ghost use Rattle.std.specs.Prelude.{◌≡◌, None, Ok, IfOk};
ghost use Rattle.kapi_text.specs.ResultIs.{ResultIs};
ghost use Rattle.kapi_reply.specs.Refusals.{refused_by};
ghost use Rattle.kapi_answer.specs.Routes.{resource_data};
ghost use Rattle.std.specs.Map.{lookup};
ghost use Rattle.kapi_store.specs.Keys.{is_key};
ghost use Rattle.kapi_store.specs.Plain.{Plain as APlain, plain_of};
ghost use Rattle.kapi_watch.specs.Watches.{startable};
ghost use Rattle.kapi_answer.specs.Answer.{planned_creation, planned_for, planned_on, to_be_created, to_be_replaced};
ghost use Rattle.kapi_answer.specs.Review as reviews;
ghost use Rattle.kapi_answer.specs.Create as creation;
ghost use Rattle.kapi_answer.specs.Get.{found};
ghost use Rattle.kapi_answer.specs.Watch.{since_served};
ghost use Rattle.kapi_answer.specs.Responses.{ChangesNothing, IsReady, IsReplaced, new_data, plan_data, response_data, task_data};

use crate::collection::{check_delete_all, list};
use crate::create::{check_create, key_at, namespace_on};
use crate::delete::check_delete;
use crate::escalation::check_escalation;
use crate::headers::check_media_type;
use crate::query::check_query;
use crate::response::{NewObject, Plan, Replacement, Response};
use crate::review::{review_kind, tell_review};
use crate::route::{Action, ResourceRoute};
use crate::task::Task;
use crate::update::{check_patch, check_update};
use crate::watch::{begin, check_since};
use kapi_http::{HttpRequest, StatusCode};
use kapi_model::Identity;
use kapi_policy::Policy;
use kapi_reply::{CheckError, Content, Nonexistent, Refusal, Refused};
use kapi_request_info::Attributes;
use kapi_store::{Key, Store};
use kapi_text::{Memory, Text};
use std::alloc::Global;

/// The checks of a resource request, from its query on.
#[tactic(auto, unfolding(crate::specs::Answer::planned_for))]
pub fn plan_for<P: Policy>(
    alloc: Global,
    policy: &P,
    store: &Store,
    identity: &Identity,
    request: &HttpRequest,
    attributes: &Attributes,
    route: ResourceRoute<'_>,
) -> Result<Plan, CheckError>
    ensures gives { ResultIs refused_by plan_data result (planned_for (P.content policy.now) (plain_of store.now) identity.now request.now attributes.now (resource_data route.entry)) }
    ensures ready { IfOk result (IsReady (plain_of store.now)) }
    ensures told { IfOk result ChangesNothing }
{
    let query = attributes.query.as_slice();
    let filter = check_query(alloc, route.action, store.revision(), query)?;
    check_start(store, filter.since)?;
    check_media_type(request.method, request.headers.as_slice())?;
    let task = Task {
        identity,
        row: route.row,
        namespace: namespace_on(route.row, attributes.namespace.as_str()),
        name: route.point.name.as_str(),
        filter: &filter,
        body: request.body.as_slice(),
    };
    plan_on(alloc, policy, store, route.action, task)
}

/// A watch can start from its revision; no other request has one.
#[tactic(auto, unfolding(crate::specs::Watch::since_served, kapi_watch::specs::Watches::startable))]
fn check_start(store: &Store, since: u64) -> Result<(), CheckError>
    ensures { ResultIs refused_by (λ u. u) result (since_served (plain_of store.now) since) }
{
    if since == 0 {
        Ok(())
    } else {
        check_since(store, since)
    }
}

/// The plan of a resource request by its action.
#[tactic(auto, unfolding(crate::specs::Answer::planned_on))]
fn plan_on<P: Policy>(
    alloc: Global,
    policy: &P,
    store: &Store,
    action: Action,
    task: Task<'_>,
) -> Result<Plan, CheckError>
    requires { startable (plain_of store.now) task.filter.now.since ≡ Ok tt }
    ensures gives { ResultIs refused_by plan_data result (planned_on action (plain_of store.now) (task_data (P.content policy.now) task.entry)) }
    ensures ready { IfOk result (IsReady (plain_of store.now)) }
    ensures told { IfOk result ChangesNothing }
{
    let (row, namespace, filter, body) = (task.row, task.namespace, task.filter, task.body);
    match action {
        Action::Get => Ok(Plan::Tell(find(alloc, store, &place_in(alloc, task)?)?)),
        Action::List => Ok(Plan::Tell(list(alloc, store, row, namespace, filter)?)),
        Action::Watch => Ok(Plan::Watch(begin(alloc, store, row, namespace, filter)?)),
        Action::Create => plan_creation(alloc, policy, store, task),
        Action::Update(part) => {
            let new = check_update(alloc, store, row, part, place_in(alloc, task)?, body)?;
            plan_replace(alloc, policy, task, new)
        }
        Action::Patch(part) => {
            let new = check_patch(alloc, store, row, part, place_in(alloc, task)?, body)?;
            plan_replace(alloc, policy, task, new)
        }
        Action::Delete => {
            let key = place_in(alloc, task)?;
            Ok(Plan::Delete(check_delete(alloc, store, key, body)?))
        }
        Action::DeleteCollection => {
            let all = check_delete_all(alloc, store, row, namespace, filter, body)?;
            Ok(Plan::Delete(all))
        }
    }
}

/// The object that a path names, as JSON text.
#[tactic(auto, unfolding(crate::specs::Get::found))]
fn find(alloc: Global, store: &Store, key: &Key) -> Result<Response, CheckError>
    ensures gives { ResultIs refused_by response_data result (found (plain_of store.now) key.now) }
    ensures told { IfOk result (λ o. o.write ≡ None) }
{
    match store.get(key) {
        Some(object) => Ok(Response {
            code: StatusCode::Ok,
            content: Content::Json,
            body: object.render(alloc)?,
            write: None,
        }),
        None => Err(CheckError::Refused(Refused::asked_for(Refusal::NotFound(
            Nonexistent::Object,
        )))),
    }
}

/// The place that a task's path names.
fn place_in(alloc: Global, task: Task<'_>) -> Result<Key, Memory>
    ensures { IfOk result (λ k. k ≡ creation.key_at task.entry.row.now task.entry.namespace.now task.entry.name.now) }
{
    key_at(
        alloc,
        task.row,
        task.namespace,
        Text::copy_of(alloc, task.name)?,
    )
}

/// Plans the answer to a review, or the creation of any other object.
#[tactic(auto, unfolding(crate::specs::Answer::planned_creation))]
fn plan_creation<P: Policy>(
    alloc: Global,
    policy: &P,
    store: &Store,
    task: Task<'_>,
) -> Result<Plan, CheckError>
    ensures gives { ResultIs refused_by plan_data result (planned_creation (reviews.review_kind task.entry.row.now) (plain_of store.now) (task_data (P.content policy.now) task.entry)) }
    ensures ready { IfOk result (IsReady (plain_of store.now)) }
    ensures told { IfOk result ChangesNothing }
{
    match review_kind(task.row) {
        Some(kind) => Ok(Plan::Tell(tell_review(alloc, policy, kind, task)?)),
        None => {
            let new = check_create(alloc, store, task.row, task.namespace, task.body)?;
            plan_create(alloc, policy, task, new)
        }
    }
}

/// Plans the creation of an object that passed its checks, if the identity may write it.
#[tactic(auto, unfolding(crate::specs::Answer::to_be_created))]
fn plan_create<P: Policy>(
    alloc: Global,
    policy: &P,
    task: Task<'_>,
    new: NewObject,
) -> Result<Plan, CheckError>
    ensures gives { (s : APlain) → lookup (is_key new.key) s.objects ≡ None → ResultIs refused_by plan_data result (to_be_created s (task_data (P.content policy.now) task.entry) (new_data new)) }
    ensures same { IfOk result (λ plan. plan ≡ Plan.Create new) }
{
    let (identity, name) = (task.identity, task.name);
    check_escalation(alloc, policy, identity, name, &new.key, None, &new.object)?;
    Ok(Plan::Create(new))
}

/// Plans the replacement of an object that passed its checks, if the identity may write it.
#[tactic(auto, unfolding(crate::specs::Answer::to_be_replaced))]
fn plan_replace<P: Policy>(
    alloc: Global,
    policy: &P,
    task: Task<'_>,
    replacement: Replacement,
) -> Result<Plan, CheckError>
    ensures gives { (s : APlain) → IsReplaced s replacement → ResultIs refused_by plan_data result (to_be_replaced s (task_data (P.content policy.now) task.entry) (new_data replacement.new)) }
    ensures same { IfOk result (λ plan. plan ≡ Plan.Replace replacement) }
{
    let (new, old) = (&replacement.new, replacement.old.get());
    let (identity, name) = (task.identity, task.name);
    check_escalation(
        alloc,
        policy,
        identity,
        name,
        &new.key,
        Some(old),
        &new.object,
    )?;
    Ok(Plan::Replace(replacement))
}
