//! What the query of a request may ask for (Kubernetes, 'Kubernetes API Concepts', 'Dry-run' and 'Resource versions';
//! 'Labels and Selectors'; 'Field Selectors').
ghost use Rattle.std.specs.Prelude.{◌≡◌, Some};
ghost use Rattle.kapi_reply.specs.Refusals.{refused_by};
ghost use Rattle.kapi_answer.specs.Query as queries;
ghost use Rattle.kapi_text.specs.ResultIs.{ResultIs};

use crate::route::Action;
use kapi_model::{Selector, SelectorError};
use kapi_reply::{BadRequestReason, CheckError, Refusal, Refused, Revisions};
use kapi_request_info::{QueryPair, query_value, selected_name};
use kapi_text::{Sequence, Text, are_digits, number};
use std::alloc::Global;

/// Which objects of a collection are asked for.
#[derive(Drop)]
pub struct Filter {
    pub selector: Selector,
    /// The name, empty for all names.
    pub name: Text,
    /// The revision after which a watch shows each change; 0 if it first shows the stored objects.
    pub since: u64,
}

/// Whether what the query asks for is served at the current revision, and which objects of a collection it asks for.
#[tactic(auto, unfolding(crate::specs::Query::queried))]
pub fn check_query(
    alloc: Global,
    action: Action,
    current: u64,
    query: &[QueryPair],
) -> Result<Filter, CheckError>
    ensures { ResultIs refused_by (λ f. f) result (queries.queried action current query.now) }
{
    match action {
        Action::Get => check_read(alloc, current, query),
        Action::List => check_list(alloc, current, query),
        Action::Watch => check_watch(alloc, current, query),
        Action::DeleteCollection => check_deletions(alloc, query),
        Action::Create | Action::Delete | Action::Patch(_) | Action::Update(_) => {
            check_write(alloc, query)
        }
    }
}

/// Checks the query of a read of one object at the current revision.
fn check_read(alloc: Global, current: u64, query: &[QueryPair]) -> Result<Filter, CheckError>
    ensures { ResultIs refused_by (λ f. f) result (queries.read current query.now) }
{
    check_version(current, query)?;
    Ok(everything(alloc))
}

/// Checks the query of a list. The first check that fails decides: the options, the selectors, the revision.
#[tactic(auto, unfolding(crate::specs::Query::listed))]
fn check_list(alloc: Global, current: u64, query: &[QueryPair]) -> Result<Filter, CheckError>
    ensures { ResultIs refused_by (λ f. f) result (queries.listed current query.now) }
{
    check_list_options(query)?;
    let filter = read_filter(alloc, query)?;
    check_version(current, query)?;
    Ok(filter)
}

/// Checks the query of a watch: the filter of a list, and the revision from which on changes are shown; whether they
/// are all kept is checked later.
#[tactic(auto, unfolding(crate::specs::Query::watched))]
fn check_watch(alloc: Global, current: u64, query: &[QueryPair]) -> Result<Filter, CheckError>
    ensures { ResultIs refused_by (λ f. f) result (queries.watched current query.now) }
{
    let Filter { selector, name, .. } = check_list(alloc, current, query)?;
    Ok(Filter {
        selector,
        name,
        since: revision_asked(query),
    })
}

/// The revision that is asked for; 0 if none is.
#[tactic(auto, unfolding(crate::specs::Query::revision_asked))]
fn revision_asked(query: &[QueryPair]) -> u64
    ensures { result ≡ queries.revision_asked query.now }
{
    revision(asked(query, "resourceVersion").as_bytes()).unwrap_or(0)
}

fn check_deletions(alloc: Global, query: &[QueryPair]) -> Result<Filter, CheckError>
    ensures { ResultIs refused_by (λ f. f) result (queries.all_deleted query.now) }
{
    refuse_dry_run(query)?;
    read_filter(alloc, query)
}

/// Checks the query of a write of one object: no dry run is served.
fn check_write(alloc: Global, query: &[QueryPair]) -> Result<Filter, CheckError>
    ensures { ResultIs refused_by (λ f. f) result (queries.written query.now) }
{
    refuse_dry_run(query)?;
    Ok(everything(alloc))
}

/// The value of a key, empty if there is none.
#[tactic(auto, unfolding(crate::specs::Query::asked))]
fn asked<'a>(query: &'a [QueryPair], key: &str) -> &'a str
    ensures { result.now ≡ queries.asked query.now key.now }
{
    query_value(query, key).unwrap_or("")
}

fn bad_option() -> Refused
    ensures { result ≡ queries.bad_option }
{
    Refused::asked_for(Refusal::BadRequest(BadRequestReason::Option))
}

fn bad_query() -> Refused
    ensures { result ≡ queries.bad_query }
{
    Refused::asked_for(Refusal::BadRequest(BadRequestReason::Query))
}

fn refuse_option(query: &[QueryPair], key: &str) -> Result<(), Refused>
    ensures { result ≡ queries.unset key.now query.now }
{
    if asked(query, key).is_empty() {
        Ok(())
    } else {
        Err(bad_option())
    }
}

#[tactic(auto, unfolding(crate::specs::Query::no_dry_run))]
fn refuse_dry_run(query: &[QueryPair]) -> Result<(), Refused>
    ensures { result ≡ queries.no_dry_run query.now }
{
    refuse_option(query, "dryRun")
}

/// Checks that a list is answered at once, and as it is.
#[tactic(auto, unfolding(crate::specs::Query::whole_list))]
fn check_list_options(query: &[QueryPair]) -> Result<(), Refused>
    ensures { result ≡ queries.whole_list query.now }
{
    refuse_continuation(query)?;
    refuse_initial_events(query)?;
    refuse_other_match(query)
}

#[tactic(auto, unfolding(crate::specs::Query::no_continuation))]
fn refuse_continuation(query: &[QueryPair]) -> Result<(), Refused>
    ensures { result ≡ queries.no_continuation query.now }
{
    refuse_option(query, "continue")
}

#[tactic(auto, unfolding(crate::specs::Query::no_initial_events))]
fn refuse_initial_events(query: &[QueryPair]) -> Result<(), Refused>
    ensures { result ≡ queries.no_initial_events query.now }
{
    refuse_option(query, "sendInitialEvents")
}

#[tactic(auto, unfolding(crate::specs::Query::no_other_match))]
fn refuse_other_match(query: &[QueryPair]) -> Result<(), Refused>
    ensures { result ≡ queries.no_other_match query.now }
{
    if is_other_match(asked(query, "resourceVersionMatch")) {
        Err(bad_option())
    } else {
        Ok(())
    }
}

/// Whether another match is asked for than NotOlderThan: the current state is never older than a reached revision.
fn is_other_match(text: &str) -> bool
    ensures { result ≡ queries.is_other_match text.now }
{
    !text.is_empty() && text != "NotOlderThan"
}

#[tactic(auto, unfolding(crate::specs::Query::filtered))]
fn read_filter(alloc: Global, query: &[QueryPair]) -> Result<Filter, CheckError>
    ensures { ResultIs refused_by (λ f. f) result (queries.filtered query.now) }
{
    let selector = read_selector(alloc, query)?;
    let name = name_asked(query)?;
    Ok(Filter {
        selector,
        name: Text::copy_of(alloc, name)?,
        since: 0,
    })
}

/// The label selector that is asked for; a text that is no selector is a bad query.
#[tactic(auto, unfolding(crate::specs::Query::selector_asked))]
fn read_selector(alloc: Global, query: &[QueryPair]) -> Result<Selector, CheckError>
    ensures { ResultIs refused_by (λ s. s) result (queries.selector_asked query.now) }
{
    match Selector::parse(alloc, asked(query, "labelSelector")) {
        Ok(selector) => Ok(selector),
        Err(SelectorError::Syntax) => Err(CheckError::Refused(bad_query())),
        Err(SelectorError::Memory) => Err(CheckError::Memory),
    }
}

#[tactic(auto, unfolding(crate::specs::Query::name_asked))]
fn name_asked(query: &[QueryPair]) -> Result<&str, Refused>
    ensures { ResultIs (λ e. Some e) (λ name. name.now) result (queries.name_asked query.now) }
{
    name_in(asked(query, "fieldSelector"))
}

/// The name that a field selector selects; all names if it is empty.
#[tactic(auto, unfolding(crate::specs::Query::name_selected))]
fn name_in(text: &str) -> Result<&str, Refused>
    ensures { ResultIs (λ e. Some e) (λ name. name.now) result (queries.name_selected text.now) }
{
    if text.is_empty() {
        return Ok("");
    }
    match selected_name(text) {
        Some(name) => Ok(name),
        None => Err(bad_query()),
    }
}

/// The filter that lets all objects through; allocates nothing.
fn everything(alloc: Global) -> Filter
    ensures { result ≡ queries.everything }
{
    Filter {
        selector: Selector {
            match_labels: Sequence::new(Vec::new(alloc)),
            match_expressions: Sequence::new(Vec::new(alloc)),
        },
        name: Text::new(String::new(alloc)),
        since: 0,
    }
}

fn check_version(current: u64, query: &[QueryPair]) -> Result<(), Refused>
    ensures { result ≡ queries.version_asked current query.now }
{
    check_version_text(current, asked(query, "resourceVersion"))
}

/// Checks that the requested revision was reached; an empty text requests none.
#[tactic(auto, unfolding(crate::specs::Query::version_reached))]
fn check_version_text(current: u64, text: &str) -> Result<(), Refused>
    ensures { result ≡ queries.version_reached current text.now }
{
    let digits = text.as_bytes();
    if digits.is_empty() {
        return Ok(());
    }
    match revision(digits) {
        Some(asked) => check_reached(current, asked),
        None => Err(bad_query()),
    }
}

/// The largest number of digits of a revision.
const REVISION_DIGITS: usize = 15;

/// The revision that 1 to 15 decimal digits write.
fn revision(digits: &[u8]) -> Option<u64>
    ensures { result ≡ queries.revision digits.now }
{
    if digits.is_empty() || digits.len() > REVISION_DIGITS || !are_digits(digits) {
        return None;
    }
    Some(number(digits))
}

fn check_reached(current: u64, asked: u64) -> Result<(), Refused>
    ensures { result ≡ queries.reached current asked }
{
    if asked <= current {
        Ok(())
    } else {
        Err(Refused::asked_for(Refusal::NotYetReached(Revisions { asked, current })))
    }
}
