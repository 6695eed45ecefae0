//! The list of a collection, and its deletion.
ghost use Rattle.std.specs.Prelude.{◌≡◌, None, IfOk, map};
ghost use Rattle.std.specs.List.{IsDistinct};
ghost use Rattle.std.specs.Map.{keys_of as keys_in};
ghost use Rattle.kapi_text.specs.ResultIs.{ResultIs};
ghost use Rattle.kapi_reply.specs.Refusals.{refused_by};
ghost use Rattle.kapi_store.specs.Keys.{is_key};
ghost use Rattle.kapi_store.specs.Listing.{shown};
ghost use Rattle.kapi_store.specs.Plain.{plain_of, trees};
ghost use Rattle.kapi_answer.specs.Collection as collections;
ghost use Rattle.kapi_answer.specs.Collection.{deletes_all, to_delete_all};
ghost use Rattle.kapi_answer.specs.Responses.{deletion_data, response_data};

use crate::create::refused_by_store;
use crate::delete::check_options;
use crate::list_text::list_text;
use crate::query::Filter;
use crate::response::{Deletion, Response};
use kapi_http::StatusCode;
use kapi_model::ResourceRow;
use kapi_reply::{CheckError, Content};
use kapi_store::{Key, Listed, Store};
use kapi_text::{Memory, Text, TryCopy};
use std::alloc::Global;

/// The objects that a collection request selects, as a list at the current revision.
#[tactic(auto, unfolding(crate::specs::Collection::listed))]
pub fn list(
    alloc: Global,
    store: &Store,
    row: &ResourceRow,
    namespace: &str,
    filter: &Filter,
) -> Result<Response, Memory>
    ensures gives { IfOk result (λ o. response_data o ≡ collections.listed (plain_of store.now) row.now namespace.now filter.now) }
    ensures told { IfOk result (λ o. o.write ≡ None) }
{
    let listed = store.list(row, namespace, &filter.selector, filter.name.as_str())?;
    Ok(Response {
        code: StatusCode::Ok,
        content: Content::Json,
        body: list_text(alloc, row, listed.as_slice(), store.revision())?,
        write: None,
    })
}

/// The checks of the deletion of a collection: the body, and that a revision is left for each object.
#[tactic(auto, unfolding(crate::specs::Collection::to_delete_all))]
pub fn check_delete_all(
    alloc: Global,
    store: &Store,
    row: &ResourceRow,
    namespace: &str,
    filter: &Filter,
    body: &[u8],
) -> Result<Deletion, CheckError>
    ensures gives { ResultIs refused_by deletion_data result (to_delete_all (plain_of store.now) row.now namespace.now filter.now body.now) }
    ensures distinct { IfOk result (λ d. IsDistinct is_key d.keys.items) }
{
    check_options(alloc, body)?;
    let listed = store.list(row, namespace, &filter.selector, filter.name.as_str())?;
    delete_listed(alloc, store, row, listed.as_slice())
}

/// The deletion of listed objects. The reply lists them as they were, at the revision of the last deletion.
#[tactic(auto, unfolding(crate::specs::Collection::deletes_all))]
fn delete_listed(
    alloc: Global,
    store: &Store,
    row: &ResourceRow,
    listed: &[Listed<'_>],
) -> Result<Deletion, CheckError>
    requires { IsDistinct is_key (keys_in (map shown listed.now)) }
    ensures gives { ResultIs refused_by deletion_data result (deletes_all (plain_of store.now) row.now (trees (map shown listed.now))) }
    ensures distinct { IfOk result (λ d. IsDistinct is_key d.keys.items) }
{
    let name = Text::copy_of(alloc, "")?;
    let count = listed.len() as u64;
    match store.check_revisions(count) {
        Ok(()) => Ok(Deletion {
            name,
            keys: keys_of(alloc, listed)?,
            reply: list_text(alloc, row, listed, store.revision() + count)?,
        }),
        Err(error) => Err(refused_by_store(name, error)),
    }
}

/// The keys of listed objects, copied, in their order.
fn keys_of(alloc: Global, listed: &[Listed<'_>]) -> Result<Vec<Key>, Memory>
    ensures { IfOk result (λ v. v.items ≡ map (λ l. l.key.now) listed.now) }
{
    let mut keys = Vec::with_capacity(alloc, listed.len())?;
    for one in listed {
        keys.push(one.key.copy(alloc)?)?;
    }
    Ok(keys)
}
