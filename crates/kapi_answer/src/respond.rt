ghost use Rattle.std.specs.Prelude.{◌≡◌, None, Ok, IfOk, IfSome, option_map};
ghost use Rattle.kapi_text.specs.ResultIs.{ResultIs};
ghost use Rattle.kapi_reply.specs.Refusals.{refused_by};
ghost use Rattle.kapi_reply.specs.Replies as replies;
ghost use Rattle.kapi_request_info.specs.Attributes as attributes_of;
ghost use Rattle.kapi_store.specs.Plain.{plain_of};
ghost use Rattle.kapi_store.specs.State.{Same, Fits};
ghost use Rattle.kapi_watch.specs.Running.{IsFresh};
ghost use Rattle.kapi_answer.specs.Answer as answers;
ghost use Rattle.kapi_answer.specs.Answer.{answer_by, answer_passed, asked_by, checked, planned, told_well};
ghost use Rattle.kapi_answer.specs.Impersonation.{made_as};
ghost use Rattle.kapi_answer.specs.Responses.{ChangesNothing, IsReady, answered_data, passed_data, plan_data, response_data, watch_in, write_of};

use crate::authorization::authorize;
use crate::create::create;
use crate::delete::delete;
use crate::headers::check_media_type;
use crate::impersonation::impersonate;
use crate::kept_watch::KeptWatch;
use crate::plan::plan_for;
use crate::prepared::Prepared;
use crate::response::{Passed, Plan, Response};
use crate::route::{Route, find_route};
use crate::update::replace;
use crate::watch::Watching;
use kapi_http::{HttpFault, HttpRequest, StatusCode};
use kapi_model::Identity;
use kapi_policy::Policy;
use kapi_reply::{
    BadRequestReason, CheckError, Content, Refused, RefusedRequest, content_reply, fault_reply,
    refusal_reply, target_reply, watch_reply,
};
use kapi_request_info::{Attributes, InfoError, info};
use kapi_store::Store;
use kapi_text::{Memory, TryCopy};
use kapi_watch::Watch;
use std::alloc::{AllocError, Global};

/// The answer to what was cut from a connection's bytes. Its write is prepared, and the store is as before.
#[tactic(auto, unfolding(crate::specs::Answer::answer))]
pub fn answer<P: Policy>(
    alloc: Global,
    policy: &P,
    store: &mut Store,
    identity: &Identity,
    item: &Result<HttpRequest, HttpFault>,
) -> Result<Prepared, Memory>
    ensures same { Same store.old store.new }
    ensures gives { IfOk result (λ p. answered_data p ≡ answers.answer (P.content policy.now) (plain_of store.old) identity.now item.now) }
    ensures fits { IfOk result (λ p. IfSome p.write (Fits store.new)) }
    ensures fresh { IfOk result (λ p. IfSome p.watch (λ w. IsFresh (plain_of store.old) w.watch)) }
{
    match item {
        Ok(request) => answer_request(alloc, policy, store, identity, request),
        Err(fault) => Ok(Prepared::told(fault_reply(alloc, fault)?)),
    }
}

#[tactic(auto, unfolding(crate::specs::Answer::answer_asked))]
fn answer_request<P: Policy>(
    alloc: Global,
    policy: &P,
    store: &mut Store,
    identity: &Identity,
    request: &HttpRequest,
) -> Result<Prepared, Memory>
    ensures same { Same store.old store.new }
    ensures gives { IfOk result (λ p. answered_data p ≡ answers.answer_asked (P.content policy.now) (plain_of store.old) identity.now request.now (attributes_of.info request.now.method request.now.target)) }
    ensures fits { IfOk result (λ p. IfSome p.write (Fits store.new)) }
    ensures fresh { IfOk result (λ p. IfSome p.watch (λ w. IsFresh (plain_of store.old) w.watch)) }
{
    match info(alloc, request.method, request.target.as_str()) {
        Ok(attributes) => answer_asked(alloc, policy, store, identity, request, &attributes),
        Err(InfoError::BadPath) => refuse_target(alloc, BadRequestReason::Target, request.close),
        Err(InfoError::BadEscape) => refuse_target(alloc, BadRequestReason::Escape, request.close),
        Err(InfoError::BadQuery) => refuse_target(alloc, BadRequestReason::Query, request.close),
        Err(InfoError::Memory) => Err(AllocError),
    }
}

/// The answer to a request whose target has a fault.
fn refuse_target(alloc: Global, word: BadRequestReason, close: bool) -> Result<Prepared, Memory>
    ensures { IfOk result (λ p. p ≡ record { reply = replies.target_reply word close; write = None; watch = None }) }
{
    Ok(Prepared::told(target_reply(alloc, word, close)?))
}

/// The answer to a request whose attributes are known, made as the caller or as an identity that it may impersonate.
#[tactic(auto, unfolding(crate::specs::Answer::answer_as))]
fn answer_asked<P: Policy>(
    alloc: Global,
    policy: &P,
    store: &mut Store,
    identity: &Identity,
    request: &HttpRequest,
    attributes: &Attributes,
) -> Result<Prepared, Memory>
    ensures same { Same store.old store.new }
    ensures gives { IfOk result (λ p. answered_data p ≡ answers.answer_as (P.content policy.now) (plain_of store.old) identity.now request.now attributes.now (made_as (P.content policy.now) identity.now request.now)) }
    ensures fits { IfOk result (λ p. IfSome p.write (Fits store.new)) }
    ensures fresh { IfOk result (λ p. IfSome p.watch (λ w. IsFresh (plain_of store.old) w.watch)) }
{
    match impersonate(alloc, policy, identity, request.headers.as_slice()) {
        Ok(None) => answer_made_by(alloc, policy, store, identity, request, attributes),
        Ok(Some(other)) => answer_made_by(alloc, policy, store, &other, request, attributes),
        Err(CheckError::Refused(refused)) => {
            refuse(alloc, identity, request, attributes, &refused)
        }
        Err(CheckError::Memory) => Err(AllocError),
    }
}

/// The answer to a request that is refused to the identity.
fn refuse(
    alloc: Global,
    identity: &Identity,
    request: &HttpRequest,
    attributes: &Attributes,
    refused: &Refused,
) -> Result<Prepared, Memory>
    ensures { IfOk result (λ p. p ≡ record { reply = replies.refusal_reply (asked_by identity.now request.now attributes.now) request.now.close refused.now; write = None; watch = None }) }
{
    let asked = RefusedRequest {
        user: identity.user.as_str(),
        method: request.method,
        attributes,
    };
    Ok(Prepared::told(refusal_reply(alloc, asked, request.close, refused)?))
}

/// The answer to a request that is made as the identity.
#[tactic(auto, unfolding(crate::specs::Answer::answer_by))]
fn answer_made_by<P: Policy>(
    alloc: Global,
    policy: &P,
    store: &mut Store,
    identity: &Identity,
    request: &HttpRequest,
    attributes: &Attributes,
) -> Result<Prepared, Memory>
    ensures same { Same store.old store.new }
    ensures gives { IfOk result (λ p. answered_data p ≡ answer_by identity.now request.now attributes.now (checked (P.content policy.now) (plain_of store.old) identity.now request.now attributes.now)) }
    ensures fits { IfOk result (λ p. IfSome p.write (Fits store.new)) }
    ensures fresh { IfOk result (λ p. IfSome p.watch (λ w. IsFresh (plain_of store.old) w.watch)) }
{
    match check(alloc, policy, store, identity, request, attributes) {
        Ok(passed) => Ok(prepare(alloc, identity, attributes, request.close, passed)?),
        Err(CheckError::Refused(refused)) => {
            refuse(alloc, identity, request, attributes, &refused)
        }
        Err(CheckError::Memory) => Err(AllocError),
    }
}

/// The reply to a request that passed every check: its response, or the head of its watch, which keeps the identity and
/// the attributes of the request.
#[tactic(auto, unfolding(crate::specs::Answer::answer_passed))]
fn prepare(
    alloc: Global,
    identity: &Identity,
    attributes: &Attributes,
    close: bool,
    passed: Passed,
) -> Result<Prepared, Memory>
    ensures gives { IfOk result (λ p. answered_data p ≡ answer_passed identity.now attributes.now close (passed_data passed)) }
    ensures same { IfOk result (λ p. p.write ≡ write_of passed) }
    ensures watch { IfOk result (λ p. option_map (λ w. w.watch) p.watch ≡ watch_in passed) }
{
    match passed {
        Passed::Answered(response) => tell(alloc, close, response),
        Passed::Watching(watch) => {
            let watching = watching(alloc, identity, attributes, close, watch)?;
            Ok(Prepared {
                reply: watch_reply(alloc, close)?,
                write: None,
                watch: Some(watching),
            })
        }
    }
}

/// The answer that reports a response.
fn tell(alloc: Global, close: bool, response: Response) -> Result<Prepared, Memory>
    ensures reply { IfOk result (λ p. p.reply ≡ replies.content_reply response.code response.content close response.body.items) }
    ensures write { IfOk result (λ p. p.write ≡ response.write) }
    ensures watch { IfOk result (λ p. p.watch ≡ None) }
{
    let Response {
        code,
        content,
        body,
        write,
    } = response;
    Ok(Prepared {
        reply: content_reply(alloc, code, content, close, body)?,
        write,
        watch: None,
    })
}

/// The watch of a connection, with who asked for it and what was asked.
fn watching(
    alloc: Global,
    identity: &Identity,
    attributes: &Attributes,
    close: bool,
    watch: Watch,
) -> Result<KeptWatch, Memory>
    ensures { IfOk result (λ w. w ≡ record { watch = watch; close = close; identity = identity.now; attributes = attributes.now }) }
{
    let identity = identity.copy(alloc)?;
    let attributes = attributes.copy(alloc)?;
    let watching = Watching {
        watch,
        close,
        identity,
        attributes,
    };
    KeptWatch::new(alloc, watching)
}

/// The checks of a request whose attributes are known, in their order; the first that fails decides. The write is
/// prepared, and the store is as before.
#[tactic(auto, unfolding(crate::specs::Answer::checked))]
fn check<P: Policy>(
    alloc: Global,
    policy: &P,
    store: &mut Store,
    identity: &Identity,
    request: &HttpRequest,
    attributes: &Attributes,
) -> Result<Passed, CheckError>
    ensures same { Same store.old store.new }
    ensures gives { ResultIs refused_by passed_data result (checked (P.content policy.now) (plain_of store.old) identity.now request.now attributes.now) }
    ensures fits { IfOk result (λ p. IfSome (write_of p) (Fits store.new)) }
    ensures fresh { IfOk result (λ p. IfSome (watch_in p) (IsFresh (plain_of store.old))) }
{
    let response = match plan(alloc, policy, store, identity, request, attributes)? {
        Plan::Tell(response) => response,
        Plan::Watch(watch) => return Ok(Passed::Watching(watch)),
        Plan::Create(new) => create(alloc, store, new)?,
        Plan::Replace(new) => replace(alloc, store, new)?,
        Plan::Delete(deletion) => delete(store, deletion)?,
    };
    Ok(Passed::Answered(response))
}

/// The plan of a request that passes all checks but the store's: what it answers or changes.
#[tactic(auto, unfolding(crate::specs::Answer::planned))]
fn plan<P: Policy>(
    alloc: Global,
    policy: &P,
    store: &Store,
    identity: &Identity,
    request: &HttpRequest,
    attributes: &Attributes,
) -> Result<Plan, CheckError>
    ensures gives { ResultIs refused_by plan_data result (planned (P.content policy.now) (plain_of store.now) identity.now request.now attributes.now) }
    ensures ready { IfOk result (IsReady (plain_of store.now)) }
    ensures told { IfOk result ChangesNothing }
{
    authorize(policy, identity, attributes)?;
    match find_route(store, request.method, attributes)? {
        Route::Health => Ok(Plan::Tell(health(alloc, request)?)),
        Route::Resource(route) => {
            plan_for(alloc, policy, store, identity, request, attributes, route)
        }
    }
}

/// Answers a health check (Kubernetes, 'Kubernetes API health endpoints'); authorization has passed.
#[tactic(auto, unfolding(crate::specs::Answer::told_well))]
fn health(alloc: Global, request: &HttpRequest) -> Result<Response, CheckError>
    ensures gives { ResultIs refused_by response_data result (told_well request.now) }
    ensures told { IfOk result (λ o. o.write ≡ None) }
{
    check_media_type(request.method, request.headers.as_slice())?;
    Ok(Response {
        code: StatusCode::Ok,
        content: Content::Text,
        body: Vec::from_slice(alloc, b"ok")?,
        write: None,
    })
}
